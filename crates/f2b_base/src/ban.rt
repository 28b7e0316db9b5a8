//! Failures, bans and how long bans last.

use crate::addr::Addr;
use crate::memory::NoMemory;
use crate::plain::Plain;
use crate::seq::Seq;
use crate::text::Text;

/// When a ban ends.
#[derive(Clone, Copy, Debug, PartialEq, Eq)]
pub enum Until {
    Never,
    /// In seconds since 1970, below 2^40.
    At(u64),
}

/// A failure of an address.
#[derive(Clone, Debug, Drop, PartialEq, Eq)]
pub struct Failure {
    pub addr: Addr,
    /// In seconds since 1970, below 2^40.
    pub time: u64,
    /// The line that was matched, with its date, as far as it is kept: `kept_line` of it. It is empty where no line was matched,
    /// and where no command of the jail shows lines.
    pub line: Text,
}

/// A ban of an address in a jail.
#[derive(Clone, Copy, Debug, PartialEq, Eq)]
pub struct Ban {
    /// Serials rise from ban to ban over all jails.
    pub serial: u64,
    pub addr: Addr,
    /// In seconds since 1970, below 2^40.
    pub begin: u64,
    pub until: Until,
    /// How many bans of the address in this jail were over when it began.
    pub count: u32,
    /// How many failures led to it.
    pub failures: u32,
}

/// A ban that is over.
#[derive(Clone, Copy, Debug, PartialEq, Eq)]
pub struct Past {
    pub addr: Addr,
    /// In seconds since 1970, below 2^40.
    pub end: u64,
}

/// How long the bans of a jail last, and how they grow.
#[derive(Clone, Debug, Drop, PartialEq, Eq)]
pub struct BanRule {
    /// The first span in seconds. A negative one never ends, and it is not 0.
    pub base: i64,
    /// Whether a further ban of an address lasts longer.
    pub increment: bool,
    /// In thousandths, 1 to 1,000,000.
    pub factor: u64,
    /// At most 64, each 1 to 1,000,000. With none of them a ban doubles.
    pub multipliers: Seq<u64>,
    /// The longest grown span, in seconds.
    pub maxtime: u64,
    /// The most seconds that are added at random, at most 1,000,000.
    pub rndtime: u64,
}

/// How long a ban lasts.
#[derive(Clone, Copy, Debug, PartialEq, Eq)]
pub enum Span {
    Secs(u64),
    Never,
}

impl Plain for Failure {
    fn copy(&self) -> Result<Failure, NoMemory> {
        Ok(self.clone()?)
    }
}

impl Plain for Ban {
    fn copy(&self) -> Result<Ban, NoMemory> {
        Ok(*self)
    }
}

impl Plain for Past {
    fn copy(&self) -> Result<Past, NoMemory> {
        Ok(*self)
    }
}

impl Plain for BanRule {
    fn copy(&self) -> Result<BanRule, NoMemory> {
        Ok(self.clone()?)
    }
}
