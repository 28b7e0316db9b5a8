//! Why there is no value.

use crate::conf_error::ConfKind;
use f2b_base::NoMemory;
use ini_interp::InterpError;
use tag_subst::TagError;

/// Why there is no value.
#[derive(Debug, Drop, PartialEq, Eq)]
pub enum Fail<E> {
    /// What stands there is refused, for this reason.
    Refused(E),
    /// A growth was refused.
    NoMemory,
}

impl<E> From<NoMemory> for Fail<E> {
    ghost use Rattle.std.specs.Prelude.{◌≡◌};
    ghost use Rattle.jail_conf.specs.declared.fail.Fail.TheVariants.{NoMemory};

    ghost from_gives = { λ cause fail. fail ≡ NoMemory };

    fn from(_cause: NoMemory) -> Fail<E> {
        Fail::NoMemory
    }
}

impl From<InterpError> for Fail<ConfKind> {
    ghost use Rattle.std.specs.Prelude.{◌≡◌};
    ghost use Rattle.jail_conf.specs.Fails.{interp_fail};

    ghost from_gives = { λ cause fail. fail ≡ interp_fail cause };

    fn from(cause: InterpError) -> Fail<ConfKind> {
        match cause {
            InterpError::Missing(name) => Fail::Refused(ConfKind::Missing(name)),
            InterpError::TooDeep(name) => Fail::Refused(ConfKind::TooDeep(name)),
            InterpError::BadPercent(at) => Fail::Refused(ConfKind::BadPercent(at)),
            InterpError::NoMemory => Fail::NoMemory,
        }
    }
}

impl From<TagError> for Fail<ConfKind> {
    ghost use Rattle.std.specs.Prelude.{◌≡◌};
    ghost use Rattle.jail_conf.specs.Fails.{tag_fail};

    ghost from_gives = { λ cause fail. fail ≡ tag_fail cause };

    fn from(cause: TagError) -> Fail<ConfKind> {
        match cause {
            TagError::TooDeep(name) => Fail::Refused(ConfKind::TooDeep(name)),
            TagError::Interp(fault) => Fail::from(fault),
            TagError::NoMemory => Fail::NoMemory,
        }
    }
}
