//! How long the bans of a jail last.
ghost use Rattle.jail_conf.specs.Jails.{rule_of};
ghost use Rattle.jail_conf.specs.Then.{Gives};

use crate::choices::{Boolean, OnlyFalse};
use crate::conf_error::ConfFail;
use crate::numbers::{Factor, Multipliers};
use crate::seconds::{Jitter, Seconds, Span};
use crate::source::Source;
use f2b_base::BanRule;
use std::alloc::Global;

/// How long the bans of a jail last.
pub(crate) fn rule_of(alloc: Global, jail: &Source) -> Result<BanRule, ConfFail>
    ensures { Gives (rule_of jail.now) result }
{
    let base = jail.item(alloc, "bantime", &Span, 600)?;
    let increment = jail.item(alloc, "bantime.increment", &Boolean, false)?;
    let factor = jail.item(alloc, "bantime.factor", &Factor, 1_000)?;
    let multipliers = jail.list(alloc, "bantime.multipliers", &Multipliers)?;
    let maxtime = jail.item(
        alloc,
        "bantime.maxtime",
        &Seconds { least: 1 },
        3_153_600_000,
    )?;
    let rndtime = jail.item(alloc, "bantime.rndtime", &Jitter, 0)?;
    jail.item(alloc, "bantime.overalljails", &OnlyFalse, ())?;
    Ok(BanRule {
        base,
        increment,
        factor,
        multipliers,
        maxtime,
        rndtime,
    })
}
