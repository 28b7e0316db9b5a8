//! The journal of a run.
ghost use Rattle.std.specs.Prelude.{IfErr, IfOk};
ghost use Rattle.ban_journal.specs.Places.{IsPlaced};
ghost use Rattle.run_law.specs.Stages.{HasCause, IsRefusedAs, IsSteady};
ghost use Rattle.run_load.specs.Loading.{IsEnded, LoadFails, LoadsTo, ReadFails, ReadsTo, status_of};

use f2b_world::{Disk, Store, StoreAnswer, World};
use jail_conf::Settings;
use reconcile::{Engine, LoadError};
use run_law::{Plan, Status};
use run_steps::refuse;
use std::alloc::Global;

// Says why the slots were not loaded, and gives the status that the run ends with.
#[tactic(auto, using(run_law::proofs::CauseLemmas::counting, run_law::proofs::CauseLemmas::refused))]
fn end_load<W: World>(alloc: Global, world: &mut W, error: LoadError) -> Status
    ensures ends { IsEnded error (W.stands world.old) (W.stands world.new) result }
    ensures cause { IsRefusedAs (W.stands world.old) (W.stands world.new) (status_of error) result }
    ensures steady { IsSteady (W.stands world.old) (W.stands world.new) }
{
    // No clock was read yet: the line has the second 0.
    match error {
        LoadError::DiskFault => refuse(alloc, world, 0, Status::DiskFault),
        LoadError::NotAJournal { slot, at } => {
            refuse(alloc, world, 0, Status::NotAJournal { slot, at })
        }
        LoadError::NoMemory => Status::NoMemory,
    }
}

// Loads what the slots hold, which were named.
#[tactic(auto, using(crate::proofs::SlotLemmas::reading, run_law::proofs::CauseLemmas::counting))]
fn read_slots<W: World + Disk>(alloc: Global, world: &mut W, plan: &Plan) -> Result<Engine, Status>
    ensures ok { IfOk result (ReadsTo (W.stands world.old) (W.stands world.new) plan.now.limit) }
    ensures err { IfErr result (ReadFails (W.stands world.old) (W.stands world.new) plan.now) }
    ensures cause { IfErr result (HasCause (W.stands world.old) (W.stands world.new)) }
    ensures steady { IsSteady (W.stands world.old) (W.stands world.new) }
    ensures placed { IfOk result (λ engine. IsPlaced engine.journal (W.stands world.new).told) }
{
    match Engine::load(alloc, world, plan.limit) {
        Ok(engine) => Ok(engine),
        Err(error) => Err(end_load(alloc, world, error)),
    }
}

/// Names the slots of the journal, which are beside the socket, and loads the state that they come to.
///
/// The run is refused where a slot cannot be read or is no journal.
#[tactic(auto, using(crate::proofs::NameLemmas::naming, run_law::proofs::CauseLemmas::counting))]
pub fn load_journal<W: World + Store + Disk>(
    alloc: Global,
    world: &mut W,
    plan: &Plan,
    settings: &Settings,
) -> Result<Engine, Status>
    ensures ok { IfOk result (LoadsTo (W.stands world.old) (W.stands world.new) plan.now settings.now) }
    ensures err { IfErr result (LoadFails (W.stands world.old) (W.stands world.new) plan.now settings.now) }
    ensures cause { IfErr result (HasCause (W.stands world.old) (W.stands world.new)) }
    ensures steady { IsSteady (W.stands world.old) (W.stands world.new) }
    ensures placed { IfOk result (λ engine. IsPlaced engine.journal (W.stands world.new).told) }
{
    match world.store_at(settings.socket.as_str()) {
        StoreAnswer::Kept => read_slots(alloc, world, plan),
        StoreAnswer::NoMemory => Err(Status::NoMemory),
    }
}
