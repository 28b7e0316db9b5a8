//! Why an input was not written.

use crate::fault::Fault;
use f2b_base::NoMemory;

/// Why an input was not written, or not to its end.
#[derive(Clone, Copy, Debug, PartialEq, Eq)]
pub enum AppendError {
    /// A call on the disk failed.
    DiskFault,
    /// A fresh slot with the view and the input needs more bytes than a slot may have. No call was made.
    Full { need: u64, limit: u64 },
    /// The generations are used up. No call was made.
    Spent,
    NoMemory,
}

impl From<NoMemory> for AppendError {
    ghost use Rattle.std.specs.Prelude.{◌≡◌};
    ghost use Rattle.ban_journal.specs.declared.append_error.AppendError.TheVariants.{NoMemory as NoRoom};

    ghost from_gives = { λ _ e. e ≡ NoRoom };

    fn from(_error: NoMemory) -> AppendError {
        AppendError::NoMemory
    }
}

impl From<Fault> for AppendError {
    ghost use Rattle.std.specs.Prelude.{◌≡◌};
    ghost use Rattle.ban_journal.specs.Answers.{error_of};

    ghost from_gives = { λ fault e. e ≡ error_of fault };

    fn from(fault: Fault) -> AppendError {
        match fault {
            Fault::Disk => AppendError::DiskFault,
            Fault::NoMemory => AppendError::NoMemory,
        }
    }
}
