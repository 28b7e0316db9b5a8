//! How an input is written to one of two slots, and what a stop leaves of both while it is (docs/journal.md).
//!
//! `entry_of` says which calls on the disk write an input: an append behind the last gate of the current slot, or a change of slots. The
//! laws in `proofs/` say of each point of such a run, whichever call failed last, that each image that a stop may leave means what was
//! stored before, or that with the new input, and at its end the latter alone. No slot is touched but the one that is written. Nothing
//! here makes a call; `ban_journal` does.
//!
//! ```text
//! append_writes p input       of a position with the last gate at 21 of slot 0:
//! Put 0 22 (the input and a closed gate), Sync 0, Put 0 21 (an open gate), Sync 0
//! ```
#![tactic(auto)]

mod position;

pub use position::Position;
