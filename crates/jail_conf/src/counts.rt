//! How many failures in which time are a ban.
ghost use Rattle.jail_conf.specs.Jails.{counts_of};
ghost use Rattle.jail_conf.specs.Then.{Gives};

use crate::conf_error::ConfFail;
use crate::numbers::Number;
use crate::seconds::Seconds;
use crate::source::Source;
use std::alloc::Global;

/// How many failures in which time are a ban.
#[derive(Drop)]
pub(crate) struct Counts {
    pub findtime: u64,
    pub maxretry: u64,
    pub maxmatches: u64,
}

/// How many failures in which time are a ban, and how many lines are kept.
pub(crate) fn counts_of(alloc: Global, jail: &Source) -> Result<Counts, ConfFail>
    ensures { Gives (counts_of jail.now) result }
{
    let findtime = jail.item(alloc, "findtime", &Seconds { least: 1 }, 600)?;
    let failures = Number {
        least: 1,
        most: 100_000,
    };
    let maxretry = jail.item(alloc, "maxretry", &failures, 5)?;
    let matches = Number {
        least: 0,
        most: 1_000,
    };
    let maxmatches = jail.item(alloc, "maxmatches", &matches, maxretry.min(1_000))?;
    Ok(Counts {
        findtime,
        maxretry,
        maxmatches,
    })
}
