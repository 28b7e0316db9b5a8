//! Histories and whole runs of the state, from single inputs: their texts, what is told of lanes and lines, and the laws of long runs.
//!
//! There is nothing here but tests: that the step of `jail_core` is what docs/model.md tells, row by row.
//!
//! ```text
//! Step::At(1002, Happens::Unbans(Who::Seven)),                    // the address is unbanned by command at 1002,
//! Step::Jobs("1 Ban add 192.0.2.7\n2 Unban del 192.0.2.7\n"),     // and these jobs are not settled then
//! ```
#![tactic(auto)]

#[cfg(test)]
mod steps;
