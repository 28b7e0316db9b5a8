//! How a run ends.
ghost use Rattle.std.specs.Prelude.{◌≡◌};
ghost use Rattle.run_law.specs.Exits.{status_number};

use f2b_base::{NoMemory, Text};
use filter_regex::{BuildKind, PatternPlace};
use jail_conf::ConfError;

/// How a run ended.
#[derive(Debug, Drop, PartialEq, Eq)]
pub enum Status {
    /// A stop was asked for, all jobs are settled and all replies taken.
    Stopped,
    /// All turns that were asked for were made.
    TurnsSpent,
    /// The work of a measurement was done.
    WorkloadDone,
    /// The words are not in the table.
    Usage,
    /// The configuration could not be read.
    ConfFault,
    /// The configuration is refused.
    ConfRefused(ConfError),
    /// A slot of the journal could not be read or written.
    DiskFault,
    /// A slot of the journal is none at that offset.
    NotAJournal {
        slot: u8,
        at: u64,
    },
    /// An input needs so many bytes of a slot, which may have fewer.
    JournalFull {
        need: u64,
        limit: u64,
    },
    /// Clients cannot connect.
    GateFault,
    /// A line could not be said.
    SinkFault,
    /// The configuration has too many files, or too many bytes.
    ConfTooLarge,
    /// A pattern was not built.
    PatternRefused {
        jail: Text,
        place: PatternPlace,
        kind: BuildKind,
    },
    /// The serials of bans or the ids of jobs are used up.
    NumbersSpent,
    NoMemory,
}

impl From<NoMemory> for Status {
    ghost use Rattle.run_law.specs.declared.status.Status.TheVariants.{NoMemory};

    ghost from_gives = { λ _ e. e ≡ NoMemory };

    fn from(_: NoMemory) -> Self {
        Status::NoMemory
    }
}

impl Status {
    /// The exit status of the program.
    pub fn number(&self) -> u8
        ensures { result ≡ status_number self.now }
    {
        match self {
            Status::Stopped | Status::TurnsSpent | Status::WorkloadDone => 0,
            Status::Usage => 2,
            Status::ConfFault => 3,
            Status::ConfRefused(_) => 4,
            Status::DiskFault => 5,
            Status::NotAJournal { .. } => 6,
            Status::JournalFull { .. } => 7,
            Status::GateFault => 8,
            Status::SinkFault => 9,
            Status::ConfTooLarge => 10,
            Status::PatternRefused { .. } => 11,
            Status::NumbersSpent => 12,
            Status::NoMemory => 71,
        }
    }
}
