//! The version of a slot.

/// The version of what a slot spells.
#[derive(Clone, Copy, Debug, PartialEq, Eq)]
pub enum Version {
    /// Failures have no line. It is read and never written.
    One,
    Two,
}
