//! Why bytes spell no view and no input.

/// Why bytes spell no view and no input.
#[derive(Clone, Copy, Debug, PartialEq, Eq)]
pub enum ReadError {
    /// No beginning of the bytes is a spelling: here the first field begins that has no reading, in bytes from the front.
    Bad(u64),
    NoMemory,
}
