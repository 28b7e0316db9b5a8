//! The definition of a jail.
ghost use Rattle.std.specs.Prelude.{◌≡◌, ◌≤◌, codes, OnOk};
ghost use Rattle.ini_interp.specs.Sections.{without};
ghost use Rattle.jail_conf.specs.Jails.{jail_with, jail_of};
ghost use Rattle.jail_conf.specs.Sources.{bases_of};
ghost use Rattle.jail_conf.specs.Then.{Gives};

use crate::actions::actions_of;
use crate::conf_error::ConfFail;
use crate::counts::counts_of;
use crate::dates::Date;
use crate::filter::filter_of;
use crate::ignored::ignored_of;
use crate::lines::lines_of;
use crate::logs::Watches;
use crate::merged_bases::MergedBases;
use crate::rule::rule_of;
use crate::source::Source;
use crate::sources::put_items;
use crate::unsupported::refuse_unsupported;
use crate::zones::Zone;
use f2b_base::{DateSpec, JailDef, Plain};
use std::alloc::Global;

/// The definition of an enabled jail with its filter, where the jails before it have so many patterns.
fn jail_with(
    alloc: Global,
    bases: &mut MergedBases<'_, '_>,
    jail: &Source,
    filter: &Source,
    patterns: u64,
) -> Result<JailDef, ConfFail>
    requires { patterns ≤ 512 }
    ensures defined { Gives (jail_with (bases_of bases.old) jail.now filter.now patterns) result }
    ensures files { bases.new ≡ bases.old }
{
    let watches = jail.list(alloc, "logpath", &Watches)?;
    let zone = jail.item(alloc, "logtimezone", &Zone, 0)?;
    let date = jail.item_or(alloc, filter, "datepattern", &Date, DateSpec::Default)?;
    let lines = lines_of(alloc, jail, filter, patterns)?;
    let ignore = ignored_of(alloc, jail)?;
    refuse_unsupported(alloc, jail, filter)?;
    let counts = counts_of(alloc, jail)?;
    let rule = rule_of(alloc, jail)?;
    let actions = actions_of(alloc, bases, jail)?;
    Ok(JailDef {
        name: jail.section.copy()?,
        watches,
        zone,
        date,
        pref: lines.pref,
        fail: lines.fail,
        ignore_lines: lines.ignore_lines,
        ignore,
        findtime: counts.findtime,
        maxretry: counts.maxretry,
        maxmatches: counts.maxmatches,
        rule,
        actions,
    })
}

/// The definition of an enabled jail, where the jails before it have so many patterns. The jail knows the items of its filter then.
pub(crate) fn jail_of(
    alloc: Global,
    bases: &mut MergedBases<'_, '_>,
    jail: &mut Source,
    patterns: u64,
) -> Result<JailDef, ConfFail>
    requires { patterns ≤ 512 }
    ensures defined { Gives (jail_of (bases_of bases.old) jail.old patterns) result }
    ensures files { bases.new ≡ bases.old }

    // But for those items, what is read is as it was.
    ensures known { OnOk result (without (codes "]known") jail.new.sections ≡ without (codes "]known") jail.old.sections) }
{
    let filter = filter_of(alloc, bases, jail)?;
    put_items(&mut jail.sections, "]known", filter.known.as_slice())?;
    let definition = jail_with(alloc, bases, jail, &filter.source, patterns)?;
    bases.give_back(alloc, filter.source)?;
    Ok(definition)
}
