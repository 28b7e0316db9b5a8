//! A configuration is read, and the patterns of its jails are built: as a run starts, or again for a client that asks for it.
//!
//! `try_configuration` reads for either. What is handed up is the configuration, and a filter for each of its jails, in their order. A
//! configuration that could not be read or that is refused is not taken, and neither is one of whose patterns one is not built: the first of
//! these is handed up, and nothing is said of it. A run that starts so is over: `read_configuration` says why, unless its line cannot be said.
//! Nothing here reads a clock or knows what a server keeps.
//!
//! ```text
//! let Configuration { settings, filters } = read_configuration(alloc, world, plan)?;   // the start
//! match try_configuration(alloc, world, plan)? {                                       // a client asked
//!     Ok(configuration) => ..,
//!     Err(status) => ..,                                                               // why it is not taken
//! }
//! ```
#![tactic(auto)]

mod configuration;
mod filters;
mod reading;
mod tree;

pub use configuration::Configuration;
pub use reading::{read_configuration, try_configuration};
