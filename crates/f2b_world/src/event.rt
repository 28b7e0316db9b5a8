//! Events: one call on the outside each, with its arguments and its answer.

use crate::answer::{
    Accept, GateRead, GateWrite, Len, Listen, Look, MakeAnswer, NamesAnswer, Piece, PollAnswer,
    Said, StartAnswer, StoreAnswer, Synced, Wrote,
};
use f2b_base::{Bytes, Reading, Text, TreeAnswer};

/// A call that was made. None has the answer NoMemory, since such a call did nothing.
#[derive(Debug, Drop, PartialEq, Eq)]
pub enum Event {
    Say {
        bytes: Bytes,
        answer: Said,
    },
    DiskLen {
        slot: u8,
        answer: Len,
    },
    DiskRead {
        slot: u8,
        at: u64,
        len: u64,
        answer: Piece,
    },
    DiskWrite {
        slot: u8,
        at: u64,
        bytes: Bytes,
        answer: Wrote,
    },
    DiskSync {
        slot: u8,
        answer: Synced,
    },
    Make {
        text: Text,
        answer: MakeAnswer,
    },
    Clock {
        answer: Reading,
    },
    Config {
        root: Text,
        answer: TreeAnswer,
    },
    StoreAt {
        socket: Text,
        answer: StoreAnswer,
    },
    Names {
        dir: Text,
        answer: NamesAnswer,
    },
    Look {
        path: Text,
        head: u32,
        from: u64,
        max: u32,
        answer: Look,
    },
    ChildStart {
        job: u64,
        text: Text,
        answer: StartAnswer,
    },
    ChildPoll {
        job: u64,
        answer: PollAnswer,
    },
    ChildKill {
        job: u64,
    },
    GateListen {
        path: Text,
        answer: Listen,
    },
    GateAccept {
        answer: Accept,
    },
    GateRead {
        conn: u32,
        max: u32,
        answer: GateRead,
    },
    GateWrite {
        conn: u32,
        bytes: Bytes,
        answer: GateWrite,
    },
    GateClose {
        conn: u32,
    },
    Pause {
        ms: u32,
    },
}
