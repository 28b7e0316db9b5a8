//! What the calls on the outside answer.
//!
//! `Failed` is answered only where the call's count of faults rose. `NoMemory` leaves the world as it was.

use f2b_base::{Bytes, FileLook, Seq, Text};

/// Of a line that was said.
#[derive(Clone, Copy, Debug, PartialEq, Eq)]
pub enum Said {
    Done,
    Failed,
}

/// The length of a slot in bytes.
#[derive(Clone, Copy, Debug, PartialEq, Eq)]
pub enum Len {
    Bytes(u64),
    Failed,
}

/// A piece of a slot.
#[derive(Debug, Drop, PartialEq, Eq)]
pub enum Piece {
    Bytes(Bytes),
    Failed,
    NoMemory,
}

/// Of a write to a slot. One that failed counts as written.
#[derive(Clone, Copy, Debug, PartialEq, Eq)]
pub enum Wrote {
    Done,
    Failed,
    NoMemory,
}

/// Of the sync of a slot.
#[derive(Clone, Copy, Debug, PartialEq, Eq)]
pub enum Synced {
    Done,
    Failed,
}

/// Of the building of a pattern, without the pattern.
#[derive(Clone, Copy, Debug, PartialEq, Eq)]
pub enum MakeAnswer {
    Built,
    Syntax,
    TooBig,
}

/// Of the naming of the place of the slots.
#[derive(Clone, Copy, Debug, PartialEq, Eq)]
pub enum StoreAnswer {
    Kept,
    NoMemory,
}

/// The names in a directory.
#[derive(Debug, Drop, PartialEq, Eq)]
pub enum NamesAnswer {
    Names(Seq<Text>),
    Absent,
    Failed,
    NoMemory,
}

/// What a look at a file gave.
#[derive(Debug, Drop, PartialEq, Eq)]
pub enum Look {
    File(FileLook),
    Absent,
    Failed,
    NoMemory,
}

/// Of the start of a job's command.
#[derive(Clone, Copy, Debug, PartialEq, Eq)]
pub enum StartAnswer {
    Started,
    Failed,
    NoMemory,
}

/// Whether a job's command has ended.
#[derive(Clone, Copy, Debug, PartialEq, Eq)]
pub enum PollAnswer {
    Running,
    /// With its exit status, or 128 and the signal that ended it.
    Ended(i32),
    Failed,
}

/// Whether clients can connect.
#[derive(Clone, Copy, Debug, PartialEq, Eq)]
pub enum Listen {
    Listening,
    Failed,
}

/// A client that connected, by a number that is not in use.
#[derive(Clone, Copy, Debug, PartialEq, Eq)]
pub enum Accept {
    Conn(u32),
    Quiet,
    Failed,
}

/// What a client sent.
#[derive(Debug, Drop, PartialEq, Eq)]
pub enum GateRead {
    /// At least one, and at most as many as were asked for.
    Bytes(Bytes),
    Quiet,
    End,
    Failed,
    NoMemory,
}

/// How many bytes a client took.
#[derive(Clone, Copy, Debug, PartialEq, Eq)]
pub enum GateWrite {
    /// At least one, and at most as many as were given.
    Took(u32),
    Quiet,
    Failed,
}

/// Whether a client is connected to a server.
#[derive(Clone, Copy, Debug, PartialEq, Eq)]
pub enum Linked {
    /// It is, and all that was to be sent was sent.
    Connected,
    Failed,
}

/// What a server sent to its client.
#[derive(Debug, Drop, PartialEq, Eq)]
pub enum LinkRead {
    /// At least one, and at most as many as were asked for.
    Bytes(Bytes),
    End,
    Failed,
    NoMemory,
}

/// A whole file.
#[derive(Debug, Drop, PartialEq, Eq)]
pub enum FileAnswer {
    Bytes(Bytes),
    Absent,
    /// It has more bytes than are read whole.
    TooLarge,
    Failed,
    NoMemory,
}

/// A piece of a file.
#[derive(Debug, Drop, PartialEq, Eq)]
pub enum FilePiece {
    /// At most as many as were asked for, and none only at the file's end.
    Bytes(Bytes),
    Absent,
    Failed,
    NoMemory,
}
