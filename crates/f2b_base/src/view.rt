//! What a server keeps over a stop.

use crate::ban::{Ban, Failure, Past};
use crate::jail::{Defs, Place};
use crate::job::{Job, UpLane};
use crate::memory::NoMemory;
use crate::plain::Plain;
use crate::seq::Seq;
use crate::text::Text;

/// How far a log is followed.
#[derive(Clone, Debug, Drop, PartialEq, Eq)]
pub struct WatchView {
    pub path: Text,
    pub place: Place,
}

/// What is kept of a jail.
#[derive(Clone, Debug, Drop, PartialEq, Eq)]
pub struct JailView {
    pub name: Text,
    /// Whether its logs are not looked at.
    pub idle: bool,
    /// How many failures were counted since it was first taken. Stays at the greatest number.
    pub total_failed: u64,
    /// How many bans began since then. Stays at the greatest number.
    pub total_banned: u64,
    /// When the last failure was counted, in seconds since 1970, or 0.
    pub moment: u64,
    /// The open failures later than twice the findtime before `moment`, by address (IPv4 first, then the number), time, arrival.
    pub failures: Seq<Failure>,
    /// The active bans by serial, at most one for an address.
    pub bans: Seq<Ban>,
    /// The bans that are over and still count, in order of their ends.
    pub past: Seq<Past>,
    /// In the order of the jail's definition.
    pub watches: Seq<WatchView>,
}

/// All that is kept.
#[derive(Clone, Debug, Drop, PartialEq, Eq)]
pub struct View {
    /// The moment of the last input, in seconds since 1970, below 2^40.
    pub at: u64,
    pub defs: Defs,
    /// Whether a stop was taken.
    pub stopping: bool,
    /// The lanes that are up, in order of coming up.
    pub up: Seq<UpLane>,
    /// In the order of `defs`.
    pub jails: Seq<JailView>,
    /// The jobs that are not settled, by id.
    pub jobs: Seq<Job>,
    /// The id of the job to come, at most 2^63.
    pub next_job: u64,
    /// The serial of the ban to come, at most 2^63.
    pub next_ban: u64,
}

impl Plain for WatchView {
    fn copy(&self) -> Result<WatchView, NoMemory> {
        Ok(WatchView {
            path: self.path.copy()?,
            place: self.place.copy()?,
        })
    }
}

impl Plain for JailView {
    fn copy(&self) -> Result<JailView, NoMemory> {
        Ok(JailView {
            name: self.name.copy()?,
            idle: self.idle,
            total_failed: self.total_failed,
            total_banned: self.total_banned,
            moment: self.moment,
            failures: self.failures.copy()?,
            bans: self.bans.copy()?,
            past: self.past.copy()?,
            watches: self.watches.copy()?,
        })
    }
}

impl Plain for View {
    fn copy(&self) -> Result<View, NoMemory> {
        Ok(View {
            at: self.at,
            defs: self.defs.copy()?,
            stopping: self.stopping,
            up: self.up.copy()?,
            jails: self.jails.copy()?,
            jobs: self.jobs.copy()?,
            next_job: self.next_job,
            next_ban: self.next_ban,
        })
    }
}
