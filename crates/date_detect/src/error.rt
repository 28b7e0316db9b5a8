//! Why dates are not built.
ghost use Rattle.std.specs.Prelude.{◌≡◌};

use f2b_base::NoMemory;
use std::alloc::AllocFailed;

/// Why dates are not built.
#[derive(Clone, Copy, Debug, PartialEq, Eq)]
pub enum BuildError {
    /// A text is no pattern.
    Syntax,
    /// A pattern would take too much room. The outside has counted that.
    TooBig,
    NoMemory,
}

impl From<NoMemory> for BuildError {
    ghost use Rattle.date_detect.specs.declared.error.BuildError.{BuildError};

    ghost from_gives = { λ _ error. error ≡ BuildError.NoMemory };

    fn from(_error: NoMemory) -> BuildError {
        BuildError::NoMemory
    }
}

impl<T: Drop> From<AllocFailed<T>> for BuildError {
    ghost use Rattle.date_detect.specs.declared.error.BuildError.{BuildError};

    ghost from_gives = { λ _ error. error ≡ BuildError.NoMemory };

    fn from(_error: AllocFailed<T>) -> BuildError {
        BuildError::NoMemory
    }
}
