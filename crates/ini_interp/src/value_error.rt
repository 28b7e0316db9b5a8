//! Why an item has no value.

use f2b_base::{NoMemory, Text};

/// The first fault, from the left, of a value.
#[derive(Debug, Drop, PartialEq, Eq)]
pub enum InterpError {
    /// A reference names this item, and it has no value there.
    Missing(Text),
    /// The reference to this item stands in the value of another, and so on, at a depth above 10.
    TooDeep(Text),
    /// The percent sign at this offset, in bytes, of the raw value in which it stands begins neither `%%` nor `%(NAME)s`.
    BadPercent(u64),
    /// A growth was refused.
    NoMemory,
}

impl From<NoMemory> for InterpError {
    ghost use Rattle.std.specs.Prelude.{◌≡◌};
    ghost use Rattle.ini_interp.specs.declared.value_error.InterpError.TheVariants.{NoMemory};

    ghost from_gives = { λ cause error. error ≡ NoMemory };

    fn from(_cause: NoMemory) -> InterpError {
        InterpError::NoMemory
    }
}
