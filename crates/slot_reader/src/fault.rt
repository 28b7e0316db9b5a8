//! Why a slot was not read.

use f2b_base::NoMemory;

/// Why a slot was not read.
#[derive(Clone, Copy, Debug, PartialEq, Eq)]
pub enum Fault {
    Disk,
    NoMemory,
}

impl From<NoMemory> for Fault {
    ghost use Rattle.std.specs.Prelude.{◌≡◌};
    ghost use Rattle.slot_reader.specs.declared.fault.Fault.TheVariants.{NoMemory as NoRoom};

    ghost from_gives = { λ _ e. e ≡ NoRoom };

    fn from(_error: NoMemory) -> Fault {
        Fault::NoMemory
    }
}
