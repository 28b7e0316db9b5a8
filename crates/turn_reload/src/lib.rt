//! A configuration that is read again within a turn, for a client that asked for it.
//!
//! `reload` reads it as the start of a run does. Where it is not taken the client is told why, the same is said, and nothing else changes. Where
//! it is taken it is an input, unless it changes nothing, and the client is told so; the filters are new ones then, so the searches of the logs
//! are gone with the old ones that they borrowed, and `follow_on` makes them anew: each log whose jail and path stay goes on as it was followed.
//! Nothing here knows a socket, whose request it is, or how a configuration is read.
//!
//! ```text
//! match reload(alloc, world, plan, running, place)? {
//!     Reread::Untaken(running) => ..,                                       // the turn goes on behind the client
//!     Reread::Taken { filters, reloaded } => ..,                            // it goes on with these filters:
//! }                                                                         // follow_on(alloc, filters.as_slice(), reloaded)?
//! ```
#![tactic(auto)]

mod follow;
mod leave;
mod reloaded;
mod reread;
mod take;
mod tell;

pub use follow::follow_on;
pub use reloaded::{Reloaded, Reread};
pub use reread::reload;
