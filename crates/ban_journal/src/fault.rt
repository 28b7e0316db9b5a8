//! Why a call on the disk failed.

use f2b_base::NoMemory;

/// Why a call on the disk failed.
#[derive(Clone, Copy, Debug, PartialEq, Eq)]
pub enum Fault {
    Disk,
    NoMemory,
}

impl From<NoMemory> for Fault {
    ghost use Rattle.std.specs.Prelude.{◌≡◌};
    ghost use Rattle.ban_journal.specs.declared.fault.Fault.TheVariants.{NoMemory as NoRoom};

    ghost from_gives = { λ _ e. e ≡ NoRoom };

    fn from(_error: NoMemory) -> Fault {
        Fault::NoMemory
    }
}
