//! The commands of a turn: each one that runs is asked whether it has ended, and then others are started.
//!
//! Which commands run and which checks have passed is kept by the table of `child_table`; which job comes next, and whether a check
//! comes before it, is said by the core; what an ending does, and which lines it tells, by `bring`, which writes it to the journal first.
//! So an ending is on the disk before its lines are said and before the next command is polled or started. Here calls on the outside are
//! made, and their answers go from the one to the other. Nothing here knows what a command does, or how an ending is written.
//!
//! ```text
//! let running = poll_children(alloc, world, running)?;
//! let running = start_children(alloc, world, running)?;
//! ```
#![tactic(auto)]

mod end;
mod launch;
mod poll;
mod polls;
mod start;
mod starts;

pub use polls::poll_children;
pub use starts::start_children;
