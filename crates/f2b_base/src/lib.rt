//! The plain types of the server: texts, bytes, sequences, addresses, failures, bans, jails, jobs, views and inputs.
//!
//! Contracts see a text, bytes and a sequence as lists, and everything above them as plain records and enums of lists and
//! numbers. Each type copies whole, compares, and prints for tests. Nothing here knows a file, a clock or a rule of the server,
//! but for the text forms of addresses and the length of a ban.
//!
//! ```text
//! let name = Text::from_str(alloc, "sshd")?;               // contracts see the list of its bytes
//! let addr = Addr::read(b"::ffff:192.0.2.7");              // 192.0.2.7: a host is one value, however it is written
//! let span = ban_span(&jail.rule, 0, word, serial);        // of a first ban: the rule's base, and its random part
//! ```
#![tactic(auto)]

mod addr;
mod ban;
mod bytes;
mod input;
mod jail;
mod job;
mod limits;
mod line;
mod memory;
mod outside;
mod plain;
mod seq;
mod spans;
mod text;
mod view;

pub use addr::{Addr, Cidr, Family};
pub use ban::{Ban, BanRule, Failure, Past, Span, Until};
pub use bytes::Bytes;
pub use input::{Input, What};
pub use jail::{ActionDef, DateSpec, Defs, JailDef, Place, WatchDef};
pub use job::{Job, JobKind, LaneId, Outcome, Settled, UpLane};
pub use limits::{
    DEFAULT_PURGE, HEAD_BYTES, KEPT_LINE_BYTES, LAST_MOMENT, LATEST_READING, LOOK_BYTES,
};
pub use line::kept_line;
pub use memory::NoMemory;
pub use outside::{FileLook, Reading, Tree, TreeAnswer, TreeFile};
pub use plain::Plain;
pub use seq::Seq;
pub use spans::ban_span;
pub use text::Text;
pub use view::{JailView, View, WatchView};
