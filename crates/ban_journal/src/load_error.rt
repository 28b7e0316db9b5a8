//! Why a journal was not loaded.

use f2b_base::NoMemory;
use slot_reader::Fault;

/// Why a journal was not loaded, or not to its end.
#[derive(Clone, Copy, Debug, PartialEq, Eq)]
pub enum LoadError {
    /// A call on the disk failed.
    DiskFault,
    /// This slot is no journal: here the first field begins that has no reading. Slot 0 is looked at first; slot 1 is none, at 1,
    /// where both have one generation.
    NotAJournal { slot: u8, at: u64 },
    NoMemory,
}

impl From<NoMemory> for LoadError {
    ghost use Rattle.std.specs.Prelude.{◌≡◌};
    ghost use Rattle.ban_journal.specs.declared.load_error.LoadError.TheVariants.{NoMemory as NoRoom};

    ghost from_gives = { λ _ e. e ≡ NoRoom };

    fn from(_error: NoMemory) -> LoadError {
        LoadError::NoMemory
    }
}

impl From<Fault> for LoadError {
    ghost use Rattle.std.specs.Prelude.{◌≡◌};
    ghost use Rattle.ban_journal.specs.Loads.{load_error};

    ghost from_gives = { λ fault e. e ≡ load_error fault };

    fn from(fault: Fault) -> LoadError {
        match fault {
            Fault::Disk => LoadError::DiskFault,
            Fault::NoMemory => LoadError::NoMemory,
        }
    }
}
