//! The lanes of a server as code keeps them: which are up, whether a stop was asked for, and the jobs that are not settled.
//!
//! A caller sees `LaneBook` as the model's lanes over their pending jobs. Each call is a move of the model: jobs for the bans that began
//! and ended, the ending of a try, a check that failed, a stop, and the lanes that a configuration takes down and brings up. Commands
//! are written when their job is made. What became of tries and checks that failed is told, for lines. Nothing here knows a jail, a
//! clock or a process: the caller says which bans are active, and what time it is.
//!
//! ```text
//! let mut book = LaneBook::new(alloc);
//! book.missing_up(&held, &defs, at)?;                               // a Start job for each lane of the configuration
//! book.issue(told.as_slice(), at)?;                                 // a Ban job for each ban that began, in each lane that takes it
//! book.ended(&mut lanes_told, 0, Outcome::Status(0), at)?;          // job 0 is done: the next one of its lane may be tried
//! ```
#![tactic(auto)]

mod book;
mod families;
mod fills;
mod lane_book;
mod orders;
mod tells;
mod texts;
mod up;

pub use book::MOST_NUMBERS;
pub use lane_book::LaneBook;
