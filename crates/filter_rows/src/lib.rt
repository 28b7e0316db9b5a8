//! Worked lines, and what a filter finds in them.
//!
//! There is nothing here but tests: that a filter of `filter_regex` finds in a line what docs/filters.md and docs/dates.md tell.
//!
//! ```text
//! ("1700000100 a sshd[7]: Accepted password for root from 192.0.2.7 port 22 ssh2", Finding::Missed),
//! ("1700000100 a sshd[7]: Invalid user a from host.example.org", Finding::NameOnly(2)),
//! ```
#![tactic(auto)]

#[cfg(test)]
mod expansions;
#[cfg(test)]
mod found;
#[cfg(test)]
mod patterns;
#[cfg(test)]
mod rows;
