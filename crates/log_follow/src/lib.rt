//! The follower of one log: looks at a file in, whole lines out.
//!
//! A caller asks the follower what to look for, looks, and hands the look in. It gets each line once, when its LF has come, in the
//! order of the log, however the bytes were cut, and is told where the log became another one. Nothing here knows a file, a clock or
//! a filter. A follower never keeps more than 65,536 bytes of a line that is not yet whole: of a longer one it keeps the length.
//!
//! ```text
//! let ask = follower.ask();
//! let look = .. a look at the log as ask says ..;
//! match follower.take(alloc, &look)? {
//!     Step::Lines(lines) => ..,                  // those whose LF has come
//!     Step::Rotated => ..,                       // another log, which is read from its start at the next look
//!     Step::Placed | Step::Nothing => ..,
//! }
//! ```
#![tactic(auto)]

mod carry;
mod decode;
mod expand;
mod follower;
mod glob;
mod laws;
mod line;
mod step;

pub use carry::Carry;
pub use expand::expand_path;
pub use follower::Follower;
pub use glob::glob_match;
pub use laws::{decode_law, watch_law};
pub use line::Line;
pub use step::{Ask, Step};
