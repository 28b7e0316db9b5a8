//! Worlds in memory that play a script, call by call.
//!
//! There is nothing here but tests: that the world of `f2b_mem` answers as its script says, and fails where that says so.
//!
//! ```text
//! Call::Say(b"a", Said::Done),
//! Call::Clock(7),                                  // the first reading of the script
//! ```
#![tactic(auto)]

#[cfg(test)]
mod worlds;
