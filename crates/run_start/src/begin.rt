//! The first reading of the clock, and the way from there to the first turn.
ghost use Rattle.std.specs.Prelude.{◌≡◌, ◌∷◌, [], IfErr, IfOk, map};
ghost use Rattle.ban_journal.specs.Places.{IsPlaced};
ghost use Rattle.f2b_model.specs.Storable.{AreStorableDefs};
ghost use Rattle.filter_regex.specs.Rules.{rules_of};
ghost use Rattle.jail_conf.specs.Laws.{AreWithinLimits};
ghost use Rattle.run_law.specs.Said.{ready_line};
ghost use Rattle.run_law.specs.Stages.{HasCause, IsSteady};
ghost use Rattle.run_start.specs.Configured.{HasJails};
ghost use Rattle.run_start.specs.First.{BeginFails, Begins, ConfigureFails, Configures};
ghost use Rattle.run_start.specs.Followed.{ArePlaces, rules_in};
ghost use Rattle.run_start.specs.Read.{IsRead};
ghost use Rattle.run_steps.specs.Keeping.{IsPlacedIn};

use crate::input::configure;
use crate::named::Named;
use crate::names::name_paths;
use f2b_base::{Bytes, LATEST_READING, NoMemory, Reading, Seq};
use f2b_world::{Directories, Disk, World};
use jail_conf::Settings;
use reconcile::Engine;
use run_law::{Plan, Status};
use run_steps::{Clocked, ready_line};
use std::alloc::Global;

// What takes inputs at the first reading of the clock: now never goes back, over a stop neither.
#[tactic(auto, using(crate::proofs::BeginLemmas::reading))]
fn read(engine: Engine, reading: Reading) -> Clocked
    ensures { IsRead engine reading result }
{
    let now = engine.core().now().max(reading.secs.min(LATEST_READING));
    Clocked {
        engine,
        now,
        word: reading.word,
    }
}

// That the server is ready, behind all that the configuration tells.
fn ready_lines(alloc: Global, now: u64) -> Result<Seq<Bytes>, NoMemory>
    ensures { IfOk result (λ lines. lines ≡ ready_line now ∷ []) }
{
    let mut lines = Seq::new(alloc);
    lines.push(ready_line(alloc, now)?)?;
    Ok(lines)
}

// Takes the configuration, and says that the server is ready.
#[tactic(auto, using(crate::proofs::BeginLemmas::getting_ready, run_law::proofs::CauseLemmas::counting))]
fn get_ready<W: World + Disk>(alloc: Global, world: &mut W, named: Named) -> Result<Clocked, Status>
    requires storable { AreStorableDefs named.defs }
    requires placed { IsPlacedIn (W.stands world.old).told named.clocked }
    ensures ok { IfOk result (Configures (W.stands world.old) (W.stands world.new) named) }
    ensures err { IfErr result (ConfigureFails (W.stands world.old) (W.stands world.new) named) }
    ensures cause { IfErr result (HasCause (W.stands world.old) (W.stands world.new)) }
    ensures steady { IsSteady (W.stands world.old) (W.stands world.new) }
    ensures placed { IfOk result (IsPlacedIn (W.stands world.new).told) }
    ensures jails { IfOk result (λ after. HasJails named.defs after.engine.core) }
    ensures places { IfOk result ArePlaces }
{
    let behind = ready_lines(alloc, named.clocked.now)?;
    let clocked = configure(alloc, world, named, behind.as_slice())?;
    Ok(clocked)
}

/// Goes on from what was loaded: reads the clock for the first time, lists the directories of paths with wildcards, and takes the
/// configuration as an input, where it changes something.
#[tactic(auto, using(crate::proofs::BeginLemmas::beginning, run_law::proofs::CauseLemmas::counting))]
pub fn first_turn<W: World + Directories + Disk>(
    alloc: Global,
    world: &mut W,
    plan: &Plan,
    settings: &Settings,
    engine: Engine,
) -> Result<Clocked, Status>
    requires storable { AreStorableDefs settings.now.defs }
    requires limits { AreWithinLimits settings.now.defs }
    requires placed { IsPlaced engine.journal (W.stands world.old).told }
    ensures ok { IfOk result (Begins (W.stands world.old) (W.stands world.new) plan.now settings.now engine) }
    ensures err { IfErr result (BeginFails (W.stands world.old) (W.stands world.new) plan.now settings.now engine) }
    ensures cause { IfErr result (HasCause (W.stands world.old) (W.stands world.new)) }
    ensures steady { IsSteady (W.stands world.old) (W.stands world.new) }
    ensures placed { IfOk result (IsPlacedIn (W.stands world.new).told) }

    // The filters of the jails serve for their logs, in the order of the configuration.
    ensures rules { IfOk result (λ clocked. rules_in clocked ≡ map rules_of settings.now.defs.jails) }
    ensures places { IfOk result ArePlaces }
{
    let reading = world.clock();
    let clocked = read(engine, reading);
    let named = name_paths(alloc, world, settings, clocked)?;
    let clocked = get_ready(alloc, world, named)?;
    Ok(clocked)
}
