//! `Child`: a command that runs for a job.
ghost use Rattle.std.specs.Prelude.{◌≡◌};
ghost use Rattle.child_table.specs.Late.{is_late};

/// How many run at once at most.
pub const MOST_CHILDREN: usize = 16;

/// Which command is run for a job.
#[derive(Clone, Copy, Debug, PartialEq, Eq)]
pub enum Task {
    /// The check of its lane, before a try of the job.
    Check,
    /// The job's own command, as a try.
    Command,
}

/// A command that runs for a job.
#[derive(Clone, Copy, Debug, PartialEq, Eq)]
pub struct Child {
    /// The number of its job.
    pub job: u64,
    pub task: Task,
    /// When it was started, in seconds since 1970.
    pub since: u64,
    /// How long it may run, in seconds.
    pub timeout: u64,
}

impl Child {
    /// Whether it has run for as long as it may at a moment, in seconds since 1970.
    pub fn is_late(&self, now: u64) -> bool
        ensures { result ≡ is_late now self.now }
    {
        self.since <= now && self.timeout <= now - self.since
    }
}
