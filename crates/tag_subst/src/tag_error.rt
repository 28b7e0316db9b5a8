//! Why a text has no replacement for its tags.

use f2b_base::{NoMemory, Text};
use ini_interp::InterpError;

/// The first fault, from the left, of a text with static tags.
#[derive(Debug, Drop, PartialEq, Eq)]
pub enum TagError {
    /// The tag of this item stands in the value of another, and so on, at a depth above 10.
    TooDeep(Text),
    /// The value of an item that a tag names has this fault. It is never want of memory.
    Interp(InterpError),
    /// A growth was refused.
    NoMemory,
}

impl From<NoMemory> for TagError {
    ghost use Rattle.std.specs.Prelude.{◌≡◌};
    ghost use Rattle.tag_subst.specs.declared.tag_error.TagError.TheVariants.{NoMemory};

    ghost from_gives = { λ cause error. error ≡ NoMemory };

    fn from(_cause: NoMemory) -> TagError {
        TagError::NoMemory
    }
}

impl From<InterpError> for TagError {
    ghost use Rattle.std.specs.Prelude.{◌≡◌};
    ghost use Rattle.tag_subst.specs.Errors.{tag_fault};

    ghost from_gives = { λ cause error. error ≡ tag_fault cause };

    fn from(cause: InterpError) -> TagError {
        match cause {
            InterpError::NoMemory => TagError::NoMemory,
            InterpError::Missing(name) => TagError::Interp(InterpError::Missing(name)),
            InterpError::TooDeep(name) => TagError::Interp(InterpError::TooDeep(name)),
            InterpError::BadPercent(at) => TagError::Interp(InterpError::BadPercent(at)),
        }
    }
}
