//! The logs of a configuration that was taken again.
ghost use Rattle.std.specs.Prelude.{◌≡◌, IfOk};
ghost use Rattle.run_start.specs.Followed.{ArePlaces, rules_in};
ghost use Rattle.turn_reload.specs.Reloading.{FollowsOn};

use crate::reloaded::Reloaded;
use f2b_base::NoMemory;
use filter_regex::Filter;
use run_start::follow;
use run_steps::Running;
use std::alloc::Global;

/// Follows the logs of the jails with these filters. A log that was followed before goes on, and one that is new is followed from the place that
/// the core keeps of it.
#[tactic(auto, using(crate::proofs::FollowLemmas::following_on))]
pub fn follow_on<'f>(
    alloc: Global,
    filters: &'f [Filter],
    reloaded: Reloaded,
) -> Result<Running<'f>, NoMemory>
    requires filters { filters.now ≡ rules_in reloaded.clocked }
    requires places { ArePlaces reloaded.clocked }
    ensures follows { IfOk result (FollowsOn reloaded) }
    ensures clocked { IfOk result (λ running. running.clocked ≡ reloaded.clocked) }
    ensures clients { IfOk result (λ running. running.clients ≡ reloaded.clients) }
    ensures left { IfOk result (λ running. running.left ≡ reloaded.left) }
{
    let Reloaded {
        clocked,
        logs,
        children,
        clients,
        left,
    } = reloaded;
    let mut followed = follow(alloc, filters, &clocked)?;
    followed.go_on(logs);
    Ok(Running {
        clocked,
        logs: followed,
        children,
        clients,
        left,
    })
}
