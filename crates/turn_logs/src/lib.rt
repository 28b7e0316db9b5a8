//! The looks of a turn: each log of a jail that is not idle is looked at, in order, and what is found in it is taken.
//!
//! Which log comes next, what to look for in it and what a look makes of it is said by the set of the logs; what an input does, and
//! which lines it tells, by `bring`. Here a look is made on the outside, and what it brings goes from the one to the other: the input of
//! the look, with the line that the log is another one in front of it, or the line that the log cannot be read. Nothing here knows what
//! is in a log, or what the state keeps of it.
//!
//! ```text
//! let running = look_at_logs(alloc, world, running)?;
//! ```
#![tactic(auto)]

mod look;
mod looks;
mod news;

pub use looks::look_at_logs;
