//! The versions of the spelling.

/// A version of the spelling. What is written is of version 2.
#[derive(Clone, Copy, Debug, PartialEq, Eq)]
pub enum Version {
    /// Failures have no line.
    One,
    Two,
}
