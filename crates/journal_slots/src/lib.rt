//! What the bytes of two slots mean: the grammar of a slot, and which of two slots counts (docs/journal.md).
//!
//! A slot is empty, or it is open and has a generation, a version, a view, and inputs, each behind a gate: a byte that is 0 while it is
//! closed. `parse_slot` reads a slot, `IsFront` says what was written of one, and `top_of` says which of two slots counts. The definitions
//! stand in `specs/` and are what contracts of other crates cite; worked rows of them are computed in `proofs/Rows.antt`. Nothing here
//! knows a disk, or what a stop leaves of a slot while it is written.
//!
//! ```text
//! 01 | 00 00 00 00 00 00 00 01 | 02 | 00 80 a3 05 00 00 00 00 00 00 00 | 01 | 64 00 00 | 00
//! gate, generation, version, a view, an open gate, an input, a closed gate: parse_slot gives Open, with one input
//! ```
#![tactic(auto)]

mod head;

pub use head::Head;
