//! Lanes of jobs: the commands that a server's actions still have to run, one after the other in each lane.
//!
//! A caller sees `Lanes` as the list of the jobs that are not settled, by id. It pushes a job behind the others, asks for the job
//! to start next, and says how a try of it ended: the job is then done, given up after its third failed try, or due again 2 or 4
//! seconds later. The job of a lane that comes next waits until the one before it is settled, and lanes do not wait for each other.
//!
//! Before a try of a Ban or an Unban the caller may run a check of its lane. Where that fails, the jobs of the lane are gone up to
//! its first Stop, and the caller restarts the lane unless a Stop waits.
//!
//! A push, an ending and a search of one job take time by the logarithm of the number of jobs and by the number of lanes that
//! wait; so does the choice of the next job, but for the ids that run, and a failed check for each job that goes. Whether a lane is
//! about to stop takes time by the number of lanes that wait alone. Nothing here knows a clock, a command or a process, or why
//! a job was made: the caller says what time it is and what runs.
//!
//! ```text
//! let mut lanes = Lanes::new(alloc);
//! lanes.push(alloc, job)?;                           // a Ban with the id 7, due at 1000
//! let next = lanes.next_due(1000, &[]);              // job 7: it is run, and its command ends with status 1
//! lanes.settle(7, Outcome::Status(1), 1001);         // Again(1003): then it is due once more
//! lanes.settle(7, Outcome::Status(0), 1003);         // Done, and the next job of its lane may start
//! ```
#![tactic(auto)]

mod checks;
mod due;
mod entries;
mod kinds;
mod lanes;
mod queue;
mod tries;

pub use checks::CheckEnd;
pub use lanes::Lanes;
pub use tries::is_success;
