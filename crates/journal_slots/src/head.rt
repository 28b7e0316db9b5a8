//! How a slot begins.

/// How a slot begins, as far as it matters to whoever writes the slot anew.
#[derive(Clone, Copy, Debug, PartialEq, Eq)]
pub enum Head {
    /// It has at most 16 bytes.
    Short,
    /// It is longer, and its own gate is open.
    Ajar,
    /// It is longer, and its own gate is closed.
    Shut,
}
