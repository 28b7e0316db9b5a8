//! Why an input was not taken.

use ban_journal::AppendError;
use f2b_base::NoMemory;

/// Why an input was not taken.
#[derive(Clone, Copy, Debug, PartialEq, Eq)]
pub enum EngineError {
    /// The serials of bans, the ids of jobs or the generations of slots are used up. No call on the disk was made.
    Spent,
    /// A call on the disk failed.
    DiskFault,
    /// The input fits behind no other, and a fresh slot with the state and the input needs more bytes than a slot may have. No call on
    /// the disk was made.
    Full { need: u64, limit: u64 },
    NoMemory,
}

impl From<NoMemory> for EngineError {
    ghost use Rattle.std.specs.Prelude.{◌≡◌};
    ghost use Rattle.reconcile.specs.declared.engine_error.EngineError.TheVariants.{NoMemory as NoRoom};

    ghost from_gives = { λ _ e. e ≡ NoRoom };

    fn from(_error: NoMemory) -> EngineError {
        EngineError::NoMemory
    }
}

impl From<AppendError> for EngineError {
    ghost use Rattle.std.specs.Prelude.{◌≡◌};
    ghost use Rattle.reconcile.specs.Answers.{error_of};

    ghost from_gives = { λ error e. e ≡ error_of error };

    fn from(error: AppendError) -> EngineError {
        match error {
            AppendError::DiskFault => EngineError::DiskFault,
            AppendError::Full { need, limit } => EngineError::Full { need, limit },
            AppendError::Spent => EngineError::Spent,
            AppendError::NoMemory => EngineError::NoMemory,
        }
    }
}
