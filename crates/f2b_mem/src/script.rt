//! What a world in memory plays.

use f2b_base::{Bytes, Reading, Seq, Text, TreeAnswer};

/// From this number of pauses on, this file has this content, or is gone.
#[derive(Clone, Debug, Drop, PartialEq, Eq)]
pub struct FileChange {
    pub pauses: u64,
    pub path: Text,
    pub content: Option<Bytes>,
}

/// How a command runs.
#[derive(Clone, Copy, Debug, PartialEq, Eq)]
pub struct ChildPlan {
    /// How often it is still running when it is asked for.
    pub polls: u32,
    /// What it then ends with. With none it never ends.
    pub status: Option<i32>,
}

/// A client, which connects at this number of pauses.
#[derive(Clone, Debug, Drop, PartialEq, Eq)]
pub struct ClientPlan {
    pub pauses: u64,
    pub sent: Bytes,
    /// The most bytes that it gives at once. With 0 it gives one.
    pub piece: u32,
}

/// What the two slots hold.
#[derive(Clone, Debug, Drop, PartialEq, Eq)]
pub struct Image {
    pub slot0: Bytes,
    pub slot1: Bytes,
}

/// The script of a world in memory.
#[derive(Debug, Drop, PartialEq, Eq)]
pub struct Script {
    /// The readings of the clock, in order. The last stays; with none a reading is 0 and 0.
    pub readings: Seq<Reading>,
    /// The trees that configurations give, in order. The last stays; with none a tree is empty. One that does not keep to the bounds
    /// of a tree is TooLarge, and so is one with a path that is none of a configuration, and an answer that is no tree.
    pub trees: Seq<TreeAnswer>,
    /// The files. Of several changes of a file that fit, the last in the list counts.
    pub changes: Seq<FileChange>,
    /// The commands, in the order in which they are started. Those after the last end with 0 at once.
    pub children: Seq<ChildPlan>,
    /// The clients, whose numbers are their places, from 0.
    pub clients: Seq<ClientPlan>,
    /// The places in the history, from 0, of the calls that fail.
    pub fails: Seq<u64>,
    /// What the slots hold as the world begins.
    pub image: Image,
}
