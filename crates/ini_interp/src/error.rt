//! What can be wrong with a configuration file.

use f2b_base::NoMemory;

/// The first fault of a configuration file. Lines count from 1.
#[derive(Clone, Copy, Debug, Drop, PartialEq, Eq)]
pub enum IniError {
    /// An item stands before any section, in this line.
    NoSection(u64),
    /// This line is an item by its place, and has no `=` or `:`, or nothing before it.
    NoDelimiter(u64),
    /// This line continues a value, and its section has no item yet in this file, or no section is open.
    Indent(u64),
    /// The bytes are not UTF-8, and the first ill-formed byte is at this offset.
    NotUtf8(u64),
    /// A growth was refused.
    NoMemory,
}

impl From<NoMemory> for IniError {
    ghost use Rattle.std.specs.Prelude.{◌≡◌};
    ghost use Rattle.ini_interp.specs.declared.error.IniError.TheVariants.{NoMemory};

    ghost from_gives = { λ cause error. error ≡ NoMemory };

    fn from(_cause: NoMemory) -> IniError {
        IniError::NoMemory
    }
}
