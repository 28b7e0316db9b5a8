//! Items whose other values would ask for what is not offered.
ghost use Rattle.jail_conf.specs.Jails.{unsupported_in};
ghost use Rattle.jail_conf.specs.Then.{Gives};

use crate::choices::{Nothing, OneOf};
use crate::conf_error::ConfFail;
use crate::numbers::OnlyOne;
use crate::source::Source;
use std::alloc::Global;

/// Refuses what is not offered.
pub(crate) fn refuse_unsupported(
    alloc: Global,
    jail: &Source,
    filter: &Source,
) -> Result<(), ConfFail>
    ensures { Gives (unsupported_in jail.now filter.now) result }
{
    jail.item(alloc, "usedns", &OneOf("yes warn no"), ())?;
    jail.item(alloc, "backend", &OneOf("auto polling"), ())?;
    jail.item(alloc, "logencoding", &OneOf("auto utf-8"), ())?;
    jail.item(alloc, "maxlines", &OnlyOne, ())?;
    filter.item(alloc, "maxlines", &OnlyOne, ())?;
    jail.item(alloc, "ignorecommand", &Nothing, ())?;
    jail.item(alloc, "ignorecache", &Nothing, ())?;
    jail.item(alloc, "bantime.formula", &Nothing, ())
}
