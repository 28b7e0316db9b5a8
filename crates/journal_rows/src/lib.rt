//! Journals on a disk in memory, row by row: what slots mean, what writes them, and what a stop leaves of them.
//!
//! There is nothing here but tests: that what `slot_reader` and `ban_journal` are proved to do is what docs/journal.md says.
//!
//! ```text
//! Scene { name: "an append", slot0: &TICK, slot1: &[], limit: 31, calls: 4, .. }      // each stop in it is opened again
//! ```
#![tactic(auto)]

#[cfg(test)]
mod bytes;
#[cfg(test)]
mod loads;
#[cfg(test)]
mod play;
#[cfg(test)]
mod slots;
#[cfg(test)]
mod stops;
#[cfg(test)]
mod writes;
