//! What a jail keeps, row by row: windows of failures, bans and their pasts, and masks that are never banned.
//!
//! There is nothing here but tests: that what `fail_window`, `ban_table` and `ignore_set` are proved to do is what docs/bans.md tells, and that
//! their calls succeed where there is memory.
//!
//! ```text
//! table.add(addr, 1000, Until::At(1600), 5)?;      // a ban from 1000 to 1600, after five failures,
//! table.end_due(1600);                             // is over then, and counts as a past one
//! ```
#![tactic(auto)]

#[cfg(test)]
mod bans;
#[cfg(test)]
mod masks;
#[cfg(test)]
mod rows;
#[cfg(test)]
mod windows;
