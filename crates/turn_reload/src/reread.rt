//! A configuration that is read again.
ghost use Rattle.std.specs.Prelude.{◌≡◌, ◌<◌, [], IfErr, IfOk, length, map};
ghost use Rattle.client_table.specs.Clients.{unwritten_at};
ghost use Rattle.f2b_model.specs.Storable.{AreStorableDefs};
ghost use Rattle.filter_regex.specs.Rules.{rules_of};
ghost use Rattle.run_law.specs.Stages.{HasCause, IsSteady};
ghost use Rattle.run_steps.specs.Keeping.{IsPlacedIn};
ghost use Rattle.run_trees.specs.Trees.{IsOfTree};
ghost use Rattle.turn_reload.specs.Reloading.{CanFollow, RereadFails, Rereads, TakesRead, clients_in, clocked_in, left_in};
ghost use Rattle.turn_reload.specs.Taking.{TakeFails};

use crate::leave::leave;
use crate::reloaded::Reread;
use crate::take::take;
use f2b_world::{Directories, Disk, World};
use run_law::{Plan, Status};
use run_steps::Running;
use run_trees::{Configuration, try_configuration};
use std::alloc::Global;

// Takes what was read.
#[tactic(auto, using(crate::proofs::ReloadLemmas::taking))]
fn take_read<'f, W: World + Directories + Disk>(
    alloc: Global,
    world: &mut W,
    read: Configuration,
    running: Running<'f>,
    place: usize,
) -> Result<Reread<'f>, Status>
    requires tree { IsOfTree read.settings }
    requires storable { AreStorableDefs read.settings.defs }
    requires filters { read.filters.items ≡ map rules_of read.settings.defs.jails }
    requires within { place < length running.clients }
    requires written { unwritten_at place running.clients ≡ [] }
    requires placed { IsPlacedIn (W.stands world.old).told running.clocked }
    ensures ok { IfOk result (TakesRead (W.stands world.old) (W.stands world.new) read.settings place running.entry) }
    ensures err { IfErr result (TakeFails (W.stands world.old) (W.stands world.new) read.settings place running.entry) }
    ensures cause { IfErr result (HasCause (W.stands world.old) (W.stands world.new)) }
    ensures steady { IsSteady (W.stands world.old) (W.stands world.new) }
    ensures many { IfOk result (λ after. length (clients_in after) ≡ length running.entry.clients) }
    ensures left { IfOk result (λ after. left_in after ≡ running.entry.left) }
    ensures placed { IfOk result (λ after. IsPlacedIn (W.stands world.new).told (clocked_in after)) }
    ensures follow { IfOk result CanFollow }
{
    let Configuration { settings, filters } = read;
    let reloaded = take(alloc, world, &settings, running, place)?;
    Ok(Reread::Taken { filters, reloaded })
}

/// Reads the configuration of the plan again for the client at a place, who is told what comes of it.
///
/// All of the client's bytes are written, since its request has come.
#[tactic(auto, using(crate::proofs::ReloadLemmas::reloading, run_law::proofs::CauseLemmas::counting))]
pub fn reload<'f, W: World + Directories + Disk>(
    alloc: Global,
    world: &mut W,
    plan: &Plan,
    running: Running<'f>,
    place: usize,
) -> Result<Reread<'f>, Status>
    requires within { place < length running.clients }
    requires written { unwritten_at place running.clients ≡ [] }
    requires placed { IsPlacedIn (W.stands world.old).told running.clocked }
    ensures ok { IfOk result (Rereads (W.stands world.old) (W.stands world.new) plan.now place running.entry) }
    ensures err { IfErr result (RereadFails (W.stands world.old) (W.stands world.new) plan.now place running.entry) }
    ensures cause { IfErr result (HasCause (W.stands world.old) (W.stands world.new)) }
    ensures steady { IsSteady (W.stands world.old) (W.stands world.new) }
    ensures many { IfOk result (λ after. length (clients_in after) ≡ length running.entry.clients) }
    ensures left { IfOk result (λ after. left_in after ≡ running.entry.left) }
    ensures placed { IfOk result (λ after. IsPlacedIn (W.stands world.new).told (clocked_in after)) }

    // What is taken can be followed on.
    ensures follow { IfOk result CanFollow }
{
    match try_configuration(alloc, world, plan)? {
        Ok(read) => {
            let reread = take_read(alloc, world, read, running, place)?;
            Ok(reread)
        }
        Err(status) => {
            let running = leave(alloc, world, running, place, &status)?;
            Ok(Reread::Untaken(running))
        }
    }
}
