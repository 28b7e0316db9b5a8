//! The outside of the server: its calls, what they answer, and the history that they make.
//!
//! Each call is a method of a small trait by concern. All traits share one parent, `Outside`, through which a contract sees what a
//! world has told: the list of its calls with their answers, and how often each kind of fault came. Patterns are built here too,
//! since building one is a call on the outside: whether a pattern is too big is known to the library alone.
//!
//! ```text
//! let reading = world.clock();                                  // where the world is told, its history has this call and its answer more
//! let look = world.look("/var/log/auth.log", 64, 0, 65_536);    // Look::Failed is counted among the faults, also where it is not told
//! let made = world.make("^ fail from ");                        // Made::Built(pattern), or why there is none
//! ```
#![tactic(auto)]

mod answer;
mod configured;
mod event;
mod faults;
mod outside;
mod pattern;

pub use answer::{
    Accept, FileAnswer, FilePiece, GateRead, GateWrite, Len, LinkRead, Linked, Listen, Look,
    MakeAnswer, NamesAnswer, Piece, PollAnswer, Said, StartAnswer, StoreAnswer, Synced, Wrote,
};
pub use configured::is_configured;
pub use event::Event;
pub use faults::{Faults, raised};
pub use outside::{
    Children, Configuration, Directories, Disk, Files, Gate, Link, Logs, Outside, Patterns, Sink,
    Store, Time, World,
};
pub use pattern::{Cut, HostSpans, Made, Matcher, Pattern, PatternSet, SetMatcher, build_pattern};
