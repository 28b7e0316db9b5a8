//! Why bytes could not be read.
ghost use Rattle.std.specs.Prelude.{◌≡◌};
ghost use Rattle.record_fields.specs.declared.fault.Fault.TheVariants.{NoMemory};

/// Why a field could not be read.
#[derive(Clone, Copy, Debug, PartialEq, Eq)]
pub enum Fault {
    /// The bytes have no reading: so many of them are left where the first field begins that has none.
    Left(u64),
    NoMemory,
}

impl From<f2b_base::NoMemory> for Fault {
    ghost from_gives = { λ _ fault. fault ≡ NoMemory };

    fn from(_error: f2b_base::NoMemory) -> Fault {
        Fault::NoMemory
    }
}
