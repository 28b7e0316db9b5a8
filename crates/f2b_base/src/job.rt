//! Lanes of jobs, and how jobs end.

use crate::addr::{Addr, Family};
use crate::jail::ActionDef;
use crate::memory::NoMemory;
use crate::plain::Plain;
use crate::text::Text;

/// A lane: an action of a jail, and the addresses that it takes. Its jobs run one after the other.
#[derive(Clone, Debug, Drop, PartialEq, Eq)]
pub struct LaneId {
    pub jail: Text,
    pub action: Text,
    pub family: Family,
}

/// A lane that was started and not stopped.
#[derive(Clone, Debug, Drop, PartialEq, Eq)]
pub struct UpLane {
    pub jail: Text,
    pub action: ActionDef,
}

/// Which command of its action a job runs.
#[derive(Clone, Copy, Debug, PartialEq, Eq)]
pub enum JobKind {
    Start,
    Stop,
    Ban,
    Unban,
    /// Bans once more, with the command of `Ban`, after its lane was started again.
    Reban,
}

/// A job that is not settled.
#[derive(Clone, Debug, Drop, PartialEq, Eq)]
pub struct Job {
    /// Rises from job to job over all lanes.
    pub id: u64,
    pub lane: LaneId,
    pub kind: JobKind,
    /// Whom it bans or unbans.
    pub addr: Option<Addr>,
    /// The command.
    pub text: Text,
    /// In seconds, at least 1.
    pub timeout: u64,
    /// How many tries failed, 0 to 2.
    pub tries: u8,
    /// From when on it may be tried, in seconds since 1970, below 2^40.
    pub due: u64,
}

/// How a try of a job ended.
#[derive(Clone, Copy, Debug, PartialEq, Eq)]
pub enum Outcome {
    /// The command's exit status, or 128 and the signal that ended it.
    Status(i64),
    NotStarted,
    TimedOut,
}

/// What an ending did to its job.
#[derive(Clone, Copy, Debug, PartialEq, Eq)]
pub enum Settled {
    /// Its command succeeded.
    Done,
    /// Its third try failed.
    GivenUp,
    /// It is tried again from this moment on.
    Again(u64),
}

impl Plain for LaneId {
    fn copy(&self) -> Result<LaneId, NoMemory> {
        Ok(self.clone()?)
    }
}

impl Plain for UpLane {
    fn copy(&self) -> Result<UpLane, NoMemory> {
        Ok(self.clone()?)
    }
}

impl Plain for Job {
    fn copy(&self) -> Result<Job, NoMemory> {
        Ok(self.clone()?)
    }
}

impl Plain for Outcome {
    fn copy(&self) -> Result<Outcome, NoMemory> {
        Ok(*self)
    }
}
