//! The logs of the jails.
ghost use Rattle.std.specs.Prelude.{◌≡◌, IfOk, OnOk, flat_map, map};
ghost use Rattle.f2b_model.specs.Storable.{IsJailName};
ghost use Rattle.run_law.specs.Logs.{log_begun};
ghost use Rattle.run_start.specs.Followed.{AddsLogs, AreNamed, ArePlaces, AreViewsOfPlaces, AreWatchesOfPlaces, FollowsAll, logs_at, rules_in};

use f2b_base::{JailView, NoMemory, Text, WatchView};
use filter_regex::Filter;
use log_set::LogSet;
use run_steps::Clocked;
use std::alloc::Global;

// Follows these logs of a jail, behind those that are followed.
#[tactic(auto, using(crate::proofs::FollowLemmas::adding))]
fn add_watches(
    alloc: Global,
    set: &mut LogSet<'_>,
    jail: &Text,
    watches: &[WatchView],
) -> Result<(), NoMemory>
    requires named { IsJailName jail.now }
    requires places { AreWatchesOfPlaces watches.now }
    ensures { OnOk result (AddsLogs set.old set.new (map (log_begun jail.now) watches.now)) }
{
    for watch in watches {
        set.add(alloc, jail, &watch.path, &watch.place)?;
    }
    Ok(())
}

// Follows the logs of these jails, behind those that are followed.
#[tactic(auto, using(crate::proofs::FollowLemmas::adding))]
fn add_jails(alloc: Global, set: &mut LogSet<'_>, jails: &[JailView]) -> Result<(), NoMemory>
    requires named { AreNamed jails.now }
    requires places { AreViewsOfPlaces jails.now }
    ensures { OnOk result (AddsLogs set.old set.new (flat_map logs_at jails.now)) }
{
    for jail in jails {
        add_watches(alloc, set, &jail.name, jail.watches.as_slice())?;
    }
    Ok(())
}

/// The logs of the jails, each followed from the place that the core keeps of it, with these filters.
#[tactic(auto, using(crate::proofs::FollowLemmas::following))]
pub fn follow<'f>(
    alloc: Global,
    filters: &'f [Filter],
    clocked: &Clocked,
) -> Result<LogSet<'f>, NoMemory>
    requires filters { filters.now ≡ rules_in clocked.now }
    requires places { ArePlaces clocked.now }
    ensures { IfOk result (FollowsAll clocked.entry.now) }
{
    // By the state and not by the configuration: a start over what was stored begins its logs in the same way.
    let view = clocked.engine.core().view()?;
    let mut set = LogSet::new(alloc, filters, view.defs.jails.as_slice())?;
    add_jails(alloc, &mut set, view.jails.as_slice())?;
    Ok(set)
}
