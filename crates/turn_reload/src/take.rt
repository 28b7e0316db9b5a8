//! A configuration that is taken.
ghost use Rattle.std.specs.Prelude.{◌≡◌, ◌<◌, ◌∷◌, [], IfErr, IfOk, length, map};
ghost use Rattle.client_table.specs.Clients.{unwritten_at};
ghost use Rattle.f2b_model.specs.Storable.{AreStorableDefs};
ghost use Rattle.filter_regex.specs.Rules.{rules_of};
ghost use Rattle.jail_conf.specs.Laws.{AreWithinLimits};
ghost use Rattle.run_law.specs.Said.{reloaded_line};
ghost use Rattle.run_law.specs.Stages.{HasCause, IsSteady};
ghost use Rattle.run_start.specs.Followed.{ArePlaces, rules_in};
ghost use Rattle.run_steps.specs.Keeping.{IsPlacedIn};
ghost use Rattle.turn_reload.specs.Taking.{ConfigureFails, Configures, TakeFails, Takes};

use crate::reloaded::Reloaded;
use crate::tell::tell_taken;
use f2b_base::{Bytes, NoMemory, Seq};
use f2b_world::{Directories, Disk, World};
use jail_conf::Settings;
use run_law::Status;
use run_start::{configure, name_paths};
use run_steps::{Clocked, Running, reloaded_line};
use std::alloc::Global;

// That it is taken, behind all that it tells.
fn reloaded_lines(alloc: Global, now: u64) -> Result<Seq<Bytes>, NoMemory>
    ensures { IfOk result (λ lines. lines ≡ reloaded_line now ∷ []) }
{
    let mut lines = Seq::new(alloc);
    lines.push(reloaded_line(alloc, now)?)?;
    Ok(lines)
}

// Finds the paths of a configuration, and takes it as an input, where it changes something.
#[tactic(auto, using(crate::proofs::TakeLemmas::taking_configuration, run_law::proofs::CauseLemmas::counting))]
fn take_configuration<W: World + Directories + Disk>(
    alloc: Global,
    world: &mut W,
    settings: &Settings,
    clocked: Clocked,
) -> Result<Clocked, Status>
    requires storable { AreStorableDefs settings.now.defs }
    requires limits { AreWithinLimits settings.now.defs }
    requires placed { IsPlacedIn (W.stands world.old).told clocked }
    ensures ok { IfOk result (Configures (W.stands world.old) (W.stands world.new) settings.now clocked) }
    ensures err { IfErr result (ConfigureFails (W.stands world.old) (W.stands world.new) settings.now clocked) }
    ensures cause { IfErr result (HasCause (W.stands world.old) (W.stands world.new)) }
    ensures steady { IsSteady (W.stands world.old) (W.stands world.new) }
    ensures placed { IfOk result (IsPlacedIn (W.stands world.new).told) }
    ensures rules { IfOk result (λ after. rules_in after ≡ map rules_of settings.now.defs.jails) }
    ensures places { IfOk result ArePlaces }
{
    let named = name_paths(alloc, world, settings, clocked)?;
    let lines = reloaded_lines(alloc, named.clocked.now)?;
    let clocked = configure(alloc, world, named, lines.as_slice())?;
    Ok(clocked)
}

/// Takes a configuration, and tells the client at a place so. The searches of the logs are gone, and the logs are as they were followed.
#[tactic(auto, using(crate::proofs::TakeLemmas::taking, run_law::proofs::CauseLemmas::counting))]
pub(crate) fn take<W: World + Directories + Disk>(
    alloc: Global,
    world: &mut W,
    settings: &Settings,
    running: Running<'_>,
    place: usize,
) -> Result<Reloaded, Status>
    requires storable { AreStorableDefs settings.now.defs }
    requires limits { AreWithinLimits settings.now.defs }
    requires within { place < length running.clients }
    requires written { unwritten_at place running.clients ≡ [] }
    requires placed { IsPlacedIn (W.stands world.old).told running.clocked }
    ensures ok { IfOk result (Takes (W.stands world.old) (W.stands world.new) settings.now place running.entry) }
    ensures err { IfErr result (TakeFails (W.stands world.old) (W.stands world.new) settings.now place running.entry) }
    ensures cause { IfErr result (HasCause (W.stands world.old) (W.stands world.new)) }
    ensures steady { IsSteady (W.stands world.old) (W.stands world.new) }
    ensures many { IfOk result (λ after. length after.clients ≡ length running.entry.clients) }
    ensures left { IfOk result (λ after. after.left ≡ running.entry.left) }
    ensures placed { IfOk result (λ after. IsPlacedIn (W.stands world.new).told after.clocked) }
    ensures rules { IfOk result (λ after. rules_in after.clocked ≡ map rules_of settings.now.defs.jails) }
    ensures places { IfOk result (λ after. ArePlaces after.clocked) }
{
    let Running {
        clocked,
        logs,
        children,
        clients,
        left,
    } = running;
    let clients = tell_taken(alloc, clients, place)?;
    let clocked = take_configuration(alloc, world, settings, clocked)?;
    Ok(Reloaded {
        clocked,
        logs: logs.into_logs(),
        children,
        clients,
        left,
    })
}
