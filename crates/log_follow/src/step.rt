//! What a follower asks for, and what a look brings it.

use crate::line::Line;
use f2b_base::Seq;

/// What to look for in the log.
#[derive(Clone, Copy, Debug, PartialEq, Eq)]
pub struct Ask {
    /// How many of the file's first bytes.
    pub head: u32,
    /// The offset of the first byte to read.
    pub from: u64,
    /// How many bytes to read at most.
    pub max: u32,
}

/// What a look brought.
#[derive(Debug, Drop, PartialEq, Eq)]
pub enum Step {
    /// The log's end was found, and is where its lines are read from.
    Placed,
    /// The log is another one, or was cut: it is read from its start. An unread rest of the old one is lost.
    Rotated,
    /// The lines that became whole, at least one, in the order of the log.
    Lines(Seq<Line>),
    /// No line became whole.
    Nothing,
}
