//! Definitions of jails, as a configuration gives them.

use crate::addr::{Cidr, Family};
use crate::ban::BanRule;
use crate::bytes::Bytes;
use crate::memory::NoMemory;
use crate::plain::Plain;
use crate::seq::Seq;
use crate::text::Text;

/// A log that a jail follows.
#[derive(Clone, Debug, Drop, PartialEq, Eq)]
pub struct WatchDef {
    pub path: Text,
    /// Whether what stood in the log before the first look is left out.
    pub tail: bool,
}

/// How far a log was followed.
#[derive(Clone, Debug, Drop, PartialEq, Eq)]
pub enum Place {
    /// From wherever the log ends at the first look.
    Tail,
    /// From this offset on, where the first line begins that is not yet whole.
    Pos {
        position: u64,
        /// The log's first `min(64, position)` bytes.
        head: Bytes,
    },
}

/// How the date of a line is found.
#[derive(Clone, Debug, Drop, PartialEq, Eq)]
pub enum DateSpec {
    /// The usual forms, tried in their order.
    Default,
    /// The usual forms at the line's beginning.
    Anchored,
    /// Lines have no date: each is dated now.
    NoDate,
    /// Seconds since 1970.
    Epoch,
    /// Dates of ISO 8601.
    Iso,
    Pattern(Text),
    AnchoredPattern(Text),
}

/// An action of a jail for the addresses of a family, with its commands as templates.
#[derive(Clone, Debug, Drop, PartialEq, Eq)]
pub struct ActionDef {
    pub name: Text,
    pub family: Family,
    pub start: Text,
    pub stop: Text,
    pub ban: Text,
    pub unban: Text,
    pub check: Text,
    /// In seconds, at least 1.
    pub timeout: u64,
}

/// A jail.
#[derive(Clone, Debug, Drop, PartialEq, Eq)]
pub struct JailDef {
    /// 1 to 64 of `A-Z a-z 0-9 _ . -`.
    pub name: Text,
    /// At most 4,096, with distinct paths.
    pub watches: Seq<WatchDef>,
    /// How many seconds the zone of dates without one is ahead of UTC.
    pub zone: i64,
    pub date: DateSpec,
    /// What a line has to match first, with the part that is looked at further.
    pub pref: Option<Text>,
    /// The patterns of failures, in order.
    pub fail: Seq<Text>,
    /// The patterns of lines that are ignored, in order.
    pub ignore_lines: Seq<Text>,
    /// Addresses that are never banned.
    pub ignore: Seq<Cidr>,
    /// In seconds, at least 1.
    pub findtime: u64,
    /// 1 to 100,000.
    pub maxretry: u64,
    /// At most 1,000.
    pub maxmatches: u64,
    pub rule: BanRule,
    /// At most 32, with distinct pairs of name and family.
    pub actions: Seq<ActionDef>,
}

/// The definitions of a server.
#[derive(Clone, Debug, Drop, PartialEq, Eq)]
pub struct Defs {
    /// How many seconds a ban that is over still counts.
    pub purge: u64,
    /// At most 256, with distinct names.
    pub jails: Seq<JailDef>,
}

impl Plain for WatchDef {
    fn copy(&self) -> Result<WatchDef, NoMemory> {
        Ok(self.clone()?)
    }
}

impl Plain for Place {
    fn copy(&self) -> Result<Place, NoMemory> {
        match self {
            Place::Tail => Ok(Place::Tail),
            Place::Pos { position, head } => Ok(Place::Pos {
                position: *position,
                head: head.copy()?,
            }),
        }
    }
}

impl Plain for DateSpec {
    fn copy(&self) -> Result<DateSpec, NoMemory> {
        Ok(self.clone()?)
    }
}

impl Plain for ActionDef {
    fn copy(&self) -> Result<ActionDef, NoMemory> {
        Ok(self.clone()?)
    }
}

impl Plain for JailDef {
    fn copy(&self) -> Result<JailDef, NoMemory> {
        Ok(self.clone()?)
    }
}

impl Plain for Defs {
    fn copy(&self) -> Result<Defs, NoMemory> {
        Ok(self.clone()?)
    }
}
