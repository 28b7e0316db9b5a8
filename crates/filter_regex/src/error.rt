//! Why a filter is not built.
ghost use Rattle.std.specs.Prelude.{◌≡◌};

use f2b_base::NoMemory;
use std::alloc::AllocFailed;

/// A pattern of a jail, by what it is for. Numbers count from 1.
#[derive(Clone, Copy, Debug, PartialEq, Eq)]
pub enum PatternPlace {
    Date,
    /// What a line has to match first.
    Pref,
    Fail(u32),
    Ignore(u32),
}

/// Why a pattern is refused.
#[derive(Clone, Copy, Debug, PartialEq, Eq)]
pub enum BuildKind {
    /// Its text is no pattern.
    Syntax,
    /// It would take too much room. The outside has counted that.
    TooBig,
}

/// Why a filter is not built.
#[derive(Clone, Copy, Debug, PartialEq, Eq)]
pub enum PatternError {
    Refused {
        place: PatternPlace,
        kind: BuildKind,
    },
    NoMemory,
}

impl From<NoMemory> for PatternError {
    ghost use Rattle.filter_regex.specs.declared.error.PatternError.{PatternError};

    ghost from_gives = { λ _ error. error ≡ PatternError.NoMemory };

    fn from(_error: NoMemory) -> PatternError {
        PatternError::NoMemory
    }
}

impl<T: Drop> From<AllocFailed<T>> for PatternError {
    ghost use Rattle.filter_regex.specs.declared.error.PatternError.{PatternError};

    ghost from_gives = { λ _ error. error ≡ PatternError.NoMemory };

    fn from(_error: AllocFailed<T>) -> PatternError {
        PatternError::NoMemory
    }
}
