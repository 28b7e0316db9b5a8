//! Jobs of lanes with their commands, as bans, configurations, stops and checks order them.
//!
//! There is nothing here but tests: that the lanes of `lane_moves` do what docs/actions.md tells, row by row.
//!
//! ```text
//! Step::Ended(0, Outcome::Status(0), 1000),                       // the command that starts the lane ended well at 1000,
//! Step::CheckFailed(ONE, 1, Outcome::Status(1), 1003),            // the check before the next one did not,
//! Step::Jobs(..),                                                 // so these jobs are not settled then
//! ```
#![tactic(auto)]

#[cfg(test)]
mod checks;
#[cfg(test)]
mod children;
#[cfg(test)]
mod orders;
#[cfg(test)]
mod queues;
#[cfg(test)]
mod rows;
