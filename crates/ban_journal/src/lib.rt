//! A journal in two slots: each input is on the disk before it counts (docs/journal.md).
//!
//! A caller asks whether an input fits, and then appends it, or changes slots with the view of what was stored so far. Each call makes
//! the calls on the disk that `entry_of` of `slot_writes` names, in their order, and no other; it fails in one of them, or for want of
//! memory before one. Whatever a stop leaves at any moment means what was stored before, or that with the input. An append costs two
//! syncs. A journal is passed on by each call, so none is used after an error. Nothing here knows what a view or an input means.
//! A journal is loaded from both slots, which are read to their ends first, and stands where their bytes say; its inputs then come one
//! by one.
//!
//! ```text
//! let journal = if journal.fits(&input) {
//!     journal.append(alloc, disk, &input)?
//! } else {
//!     journal.turn_over(alloc, disk, &core.view()?, &input)?
//! };
//! ```
#![tactic(auto)]

mod append_error;
mod calls;
mod entry;
mod fault;
mod found;
mod journal;
mod load;
mod load_error;
mod room;

pub use append_error::AppendError;
pub use journal::Journal;
pub use load::{Loaded, StoredInputs};
pub use load_error::LoadError;
