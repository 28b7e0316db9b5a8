//! Why files do not merge.

use crate::error::IniError;
use f2b_base::{NoMemory, Text};
use std::alloc::AllocFailed;

/// The first fault of a merge, in the order in which the files are read. Paths are relative to the tree's root.
#[derive(Debug, Drop, PartialEq, Eq)]
pub enum MergeError {
    /// The file has this fault.
    Ini { file: Text, error: IniError },
    /// The file includes a name that is absolute, holds `..`, or names no file and does not end in `.local`. The path is that name as
    /// the file has it.
    MissingInclude { file: Text, path: Text },
    /// The file includes itself, perhaps through others.
    IncludeLoop { file: Text },
    /// A growth was refused.
    NoMemory,
}

impl From<NoMemory> for MergeError {
    ghost use Rattle.std.specs.Prelude.{◌≡◌};
    ghost use Rattle.ini_interp.specs.declared.merge_error.MergeError.TheVariants.{NoMemory};

    ghost from_gives = { λ cause error. error ≡ NoMemory };

    fn from(_cause: NoMemory) -> MergeError {
        MergeError::NoMemory
    }
}

impl<T: Drop> From<AllocFailed<T>> for MergeError {
    ghost use Rattle.std.specs.Prelude.{◌≡◌};
    ghost use Rattle.ini_interp.specs.declared.merge_error.MergeError.TheVariants.{NoMemory};

    ghost from_gives = { λ cause error. error ≡ NoMemory };

    fn from(_cause: AllocFailed<T>) -> MergeError {
        MergeError::NoMemory
    }
}
