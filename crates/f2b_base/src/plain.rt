//! Copies of plain values.
ghost use Rattle.std.specs.Prelude.{◌≡◌, IfOk};

use crate::memory::NoMemory;

/// A value of fields alone, which is copied whole.
pub trait Plain: Drop {
    /// An equal value with memory of its own.
    fn copy(&self) -> Result<Self, NoMemory>
        ensures { IfOk result (λ same. same ≡ self.now) };
}

impl<T: Plain> Plain for Option<T> {
    fn copy(&self) -> Result<Option<T>, NoMemory> {
        match self {
            Some(item) => Ok(Some(item.copy()?)),
            None => Ok(None),
        }
    }
}

impl Plain for u64 {
    fn copy(&self) -> Result<u64, NoMemory> {
        Ok(*self)
    }
}
