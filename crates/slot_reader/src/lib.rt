//! A slot of the journal that is read from its front, a piece at a time (docs/journal.md).
//!
//! `open` says whether a slot is empty, is no journal, or is open, with its view; a `SlotReader` then gives its inputs one by one, and its
//! end at the first closed gate. `check` does all of it and keeps nothing. What is told is what the grammar of a slot says of all its
//! bytes: a record that a window shows is the slot's next one, whatever follows it, and none is bad before all that is left is shown. No
//! room is taken by a number that was read, and of what was read only the record that comes next is kept. A view and an input that are
//! given can be stored, whatever stood in the slot. Where a read fails none is made behind it, and that is what the call answers. Nothing
//! here writes, or knows which of two slots counts.
//!
//! ```text
//! match open(alloc, disk, slot)? {
//!     Opening::Open(mut reader, view) => match reader.next(alloc, disk)? { .. }      // the first input, or the end, or where it is bad
//!     ..
//! }
//! ```
#![tactic(auto)]

mod checked;
mod fault;
mod item;
mod lead;
mod opening;
mod reader;
mod reads;
mod shown;
mod version;

pub use checked::{Checked, OpenSlot, check};
pub use fault::Fault;
pub use opening::{Opening, open};
pub use reader::{Next, SlotReader};
pub use version::Version;
