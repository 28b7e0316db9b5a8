//! The traits of the outside.
//!
//! Each call has one clause that says what it adds to the history, that its fault was counted where it failed, and that all else is
//! as before. What was said over a link and what files hold is said of worlds that tell it.
ghost use Rattle.std.specs.Prelude.{◌≡◌, ◌+◌, ◌<◌, ◌≤◌, ◌^◌, length};
ghost use Rattle.f2b_world.specs.Told.{Standing, Called, Asked, HasLength, KeepsBounds, KeepsNames, IsPieceOf, IsReceived, IsTaken, read_event, write_event, make_event, config_event, store_event, names_event, look_event, start_event, receive_event};
ghost use Rattle.f2b_world.specs.Told.{Spoken, Opened};
ghost use Rattle.f2b_world.specs.Links.{Connects, Sends, Receives, IsReceivedOf, link_fault, read_fault};
ghost use Rattle.f2b_world.specs.Shelves.{IsFile, IsPieceAt, IsWholeFile, IsShort, file_fault, piece_fault, tree_fault};
ghost use Rattle.f2b_world.specs.Trees.{IsTreeOf, KeepsTree};
ghost use Rattle.f2b_world.specs.Reading.{IsAnswerTo};
ghost use Rattle.f2b_world.specs.declared.event.Event.TheVariants.{Say, DiskLen, DiskSync, Clock, ChildPoll, ChildKill, GateListen, GateAccept, GateWrite as WriteTo, GateClose, Pause};

use crate::answer::{
    Accept, FileAnswer, FilePiece, GateRead, GateWrite, Len, LinkRead, Linked, Listen, Look,
    NamesAnswer, Piece, PollAnswer, Said, StartAnswer, StoreAnswer, Synced, Wrote,
};
use crate::pattern::Made;
use f2b_base::{Reading, TreeAnswer};

/// What all parts of the outside share: a history, where it is told, and counts of faults.
pub trait Outside {
    ghost stands: { Self → Standing };
}

/// Where lines are said.
pub trait Sink: Outside {
    /// Says bytes.
    fn say(&mut self, bytes: &[u8]) -> Said
        ensures { Called (Self.stands self.old) (Say bytes.now result) (Self.stands self.new) };
}

/// Two slots of bytes, 0 and 1. A slot that does not exist has the length 0.
///
/// What a stop may leave of a slot is `Permits` of specs/Slots.antt: what was synced last, over which each range that was
/// written since may hold anything. A write that failed counts as written.
pub trait Disk: Outside {
    /// The length of a slot in bytes.
    fn disk_len(&mut self, slot: u8) -> Len
        requires { slot < 2 }
        ensures { Called (Self.stands self.old) (DiskLen slot result) (Self.stands self.new) };

    /// Reads `len` bytes from the offset `at` on.
    fn disk_read(&mut self, slot: u8, at: u64, len: u64) -> Piece
        requires slot { slot < 2 }
        requires within { HasLength (Self.stands self.old).told slot (at + len) }
        ensures event { Asked (Self.stands self.old) (read_event slot at len result) (Self.stands self.new) }
        ensures whole { IsPieceOf len result };

    /// Writes bytes from the offset `at` on, over what is there and past the end.
    fn disk_write(&mut self, slot: u8, at: u64, bytes: &[u8]) -> Wrote
        requires slot { slot < 2 }
        requires within { HasLength (Self.stands self.old).told slot at }
        ensures { Asked (Self.stands self.old) (write_event slot at bytes.now result) (Self.stands self.new) };

    /// Makes what was written last over a stop.
    fn disk_sync(&mut self, slot: u8) -> Synced
        requires { slot < 2 }
        ensures { Called (Self.stands self.old) (DiskSync slot result) (Self.stands self.new) };
}

/// Where patterns are built.
pub trait Patterns: Outside {
    /// Builds the pattern of a text. It is `Syntax` exactly where the text has no reading by the grammar of the library `regex`,
    /// or nests deeper than 250, and `TooBig` only where that was counted.
    fn make(&mut self, text: &str) -> Made
        ensures event { Asked (Self.stands self.old) (make_event text.now result) (Self.stands self.new) }
        ensures made { IsAnswerTo text.now result };
}

/// The clock, and pauses.
pub trait Time: Outside {
    /// Reads the clock. A clock that cannot be read gives its last reading again.
    fn clock(&mut self) -> Reading
        ensures { Called (Self.stands self.old) (Clock result) (Self.stands self.new) };

    /// Waits at most so many milliseconds.
    fn pause(&mut self, ms: u32)
        ensures { Called (Self.stands self.old) (Pause ms) (Self.stands self.new) };
}

/// The files of a configuration.
pub trait Configuration: Outside {
    /// Reads all files of a directory and of its direct subdirectories whose names end in `.conf` or `.local`. It is `TooLarge`
    /// where there are more than 4,096 of them or more than 16,777,216 bytes in them.
    fn config(&mut self, root: &str) -> TreeAnswer
        ensures event { Asked (Self.stands self.old) (config_event root.now result) (Self.stands self.new) }
        ensures bounds { KeepsTree result };
}

/// Logs that are looked at.
pub trait Logs: Outside {
    /// Looks at a file: its size, its first `head` bytes, and at most `max` bytes from the offset `from` on.
    fn look(&mut self, path: &str, head: u32, from: u64, max: u32) -> Look
        ensures event { Asked (Self.stands self.old) (look_event path.now head from max result) (Self.stands self.new) }
        ensures bounds { KeepsBounds head from max result };
}

/// Directories that are listed.
pub trait Directories: Outside {
    /// The names in a directory, in byte order.
    fn names(&mut self, dir: &str) -> NamesAnswer
        ensures event { Asked (Self.stands self.old) (names_event dir.now result) (Self.stands self.new) }
        ensures bounds { KeepsNames result };
}

/// The place of the two slots.
pub trait Store: Outside {
    /// From now on the slots are beside this path.
    fn store_at(&mut self, socket: &str) -> StoreAnswer
        ensures { Asked (Self.stands self.old) (store_event socket.now result) (Self.stands self.new) };
}

/// Commands that run beside the server, each under the number of its job.
pub trait Children: Outside {
    /// Starts a command.
    fn child_start(&mut self, job: u64, text: &str) -> StartAnswer
        ensures { Asked (Self.stands self.old) (start_event job text.now result) (Self.stands self.new) };

    /// Asks whether a command has ended, and does not wait.
    fn child_poll(&mut self, job: u64) -> PollAnswer
        ensures { Called (Self.stands self.old) (ChildPoll job result) (Self.stands self.new) };

    /// Ends a command.
    fn child_kill(&mut self, job: u64)
        ensures { Called (Self.stands self.old) (ChildKill job) (Self.stands self.new) };
}

/// The socket that clients connect to.
pub trait Gate: Outside {
    /// Lets clients connect at a path.
    fn gate_listen(&mut self, path: &str) -> Listen
        ensures { Called (Self.stands self.old) (GateListen path.now result) (Self.stands self.new) };

    /// Takes the next client that has connected, under a number that is not in use.
    fn gate_accept(&mut self) -> Accept
        ensures { Called (Self.stands self.old) (GateAccept result) (Self.stands self.new) };

    /// Reads at most `max` bytes that a client sent.
    fn gate_read(&mut self, conn: u32, max: u32) -> GateRead
        requires { 1 ≤ max }
        ensures event { Asked (Self.stands self.old) (receive_event conn max result) (Self.stands self.new) }
        ensures bounds { IsReceived max result };

    /// Offers bytes to a client.
    fn gate_write(&mut self, conn: u32, bytes: &[u8]) -> GateWrite
        requires some { 1 ≤ length bytes.now }
        requires few { length bytes.now < 2 ^ 32 }
        ensures event { Called (Self.stands self.old) (WriteTo conn bytes.now result) (Self.stands self.new) }
        ensures bounds { IsTaken (length bytes.now) result };

    /// Ends a connection.
    fn gate_close(&mut self, conn: u32)
        ensures { Called (Self.stands self.old) (GateClose conn) (Self.stands self.new) };
}

/// A client's connection to a server. Its calls are no events: what was said over it is told by itself.
pub trait Link: Outside {
    /// Connects to the server at a path.
    fn connect(&mut self, path: &str) -> Linked
        ensures { Spoken (Self.stands self.old) (link_fault result) (Connects path.now result) (Self.stands self.new) };

    /// Sends bytes.
    fn send(&mut self, bytes: &[u8]) -> Linked
        ensures { Spoken (Self.stands self.old) (link_fault result) (Sends bytes.now result) (Self.stands self.new) };

    /// Receives at most `max` bytes.
    fn receive(&mut self, max: u32) -> LinkRead
        requires { 1 ≤ max }
        ensures talk { Spoken (Self.stands self.old) (read_fault result) (Receives result) (Self.stands self.new) }
        ensures bounds { IsReceivedOf max result };
}

/// Files that are read as they stand. Reading them is no event: what they hold is told by itself, and stays.
pub trait Files: Patterns {
    /// Reads a whole file. It is `TooLarge` exactly where it has more than 268,435,456 bytes.
    fn read(&mut self, path: &str) -> FileAnswer
        ensures file { Opened (Self.stands self.old) (file_fault result) (λ shelf. IsFile (shelf path.now) result) (Self.stands self.new) }
        ensures bounds { IsWholeFile result };

    /// Reads at most `max` bytes of a file from the offset `at` on. There are none only at the end.
    fn piece(&mut self, path: &str, at: u64, max: u32) -> FilePiece
        requires { 1 ≤ max }
        ensures file { Opened (Self.stands self.old) (piece_fault result) (λ shelf. IsPieceAt (shelf path.now) at max result) (Self.stands self.new) }
        ensures bounds { IsShort max result };

    /// Reads all files of a directory and of its direct subdirectories whose names end in `.conf` or `.local`. It is `TooLarge`
    /// where there are more than 4,096 of them or more than 16,777,216 bytes in them.
    fn tree(&mut self, dir: &str) -> TreeAnswer
        ensures file { Opened (Self.stands self.old) (tree_fault result) (IsTreeOf dir.now result) (Self.stands self.new) }
        ensures bounds { KeepsTree result };
}

/// All that the server asks of the outside.
pub trait World: Sink + Patterns + Time + Configuration + Logs {}
