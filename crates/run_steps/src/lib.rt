//! What the parts of a run share in code: lines as texts, saying them, and taking what an event brings.
//!
//! A part of a run calls the outside once, and hands what the answer brings to `bring`: lines that come first, what happened, and
//! lines that come behind. There the step is made, and all lines are said in one call. What the code keeps of a server for that is
//! `Clocked`, and each clause here says from where to where the law of a run goes. Nothing here looks at a log or reads a clock.
//!
//! ```text
//! let clocked = bring(alloc, world, clocked, &[], Some(What::Tick), &[])?; // bans that are due have ended, and each end is said
//! return Err(refuse(alloc, world, clocked.now, Status::NumbersSpent));     // why the run ends is said, and then it ends so
//! ```
#![tactic(auto)]

mod clocked;
mod lane_line;
mod line;
mod refusal;
mod running;
mod say;
mod taking;
mod told;

pub use clocked::Clocked;
pub use line::{ready_line, reloaded_line, rotated_line, stopping_line, unread_line};
pub use refusal::{error_line, untaken_text};
pub use running::Running;
pub use say::{refuse, say_all};
pub use taking::bring;
pub use told::{push_lines, push_told};
