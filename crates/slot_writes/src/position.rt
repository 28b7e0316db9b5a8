//! Where a journal stands.

use journal_slots::Head;

/// Where a journal stands: which of its two slots is current, and what is known of both.
#[derive(Clone, Copy, Debug, PartialEq, Eq)]
pub struct Position {
    /// How long a slot may get, in bytes.
    pub limit: u64,
    /// The current slot, 0 or 1. It is 1 where none is open.
    pub slot: u8,
    /// The generation of the current slot, 0 where none is open.
    pub generation: u64,
    /// Whether inputs may be added to the current slot: it is open, and in the version that is written.
    pub grows: bool,
    /// Where the closed gate of a slot that grows stands.
    pub gate: u64,
    /// How the current slot begins.
    pub head: Head,
    /// How the other slot begins.
    pub other: Head,
}
