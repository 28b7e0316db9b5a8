//! The socket of a run.
ghost use Rattle.std.specs.Prelude.{IfErr, OnOk};
ghost use Rattle.run_law.specs.Stages.{HasCause, IsSteady};
ghost use Rattle.run_load.specs.Listening.{LeavesPlaces, ListenFails, Listens};
ghost use Rattle.run_steps.specs.Starting.{LeavesSlots};

use f2b_world::{Gate, Listen, World};
use jail_conf::Settings;
use run_law::Status;
use run_steps::refuse;
use std::alloc::Global;

/// Lets clients in at the socket of a configuration.
///
/// The run is refused where they cannot connect there. Nothing is written to a slot of the journal.
#[tactic(auto, using(crate::proofs::ListenLemmas::listening, run_law::proofs::CauseLemmas::counting))]
pub fn listen<W: World + Gate>(
    alloc: Global,
    world: &mut W,
    settings: &Settings,
) -> Result<(), Status>
    ensures ok { OnOk result (Listens (W.stands world.old) (W.stands world.new) settings.now) }
    ensures still { OnOk result (LeavesSlots (W.stands world.old) (W.stands world.new)) }
    ensures err { IfErr result (ListenFails (W.stands world.old) (W.stands world.new) settings.now) }
    ensures cause { IfErr result (HasCause (W.stands world.old) (W.stands world.new)) }
    ensures steady { IsSteady (W.stands world.old) (W.stands world.new) }
    ensures placed { LeavesPlaces (W.stands world.old).told (W.stands world.new).told }
{
    match world.gate_listen(settings.socket.as_str()) {
        Listen::Listening => Ok(()),
        // No clock was read yet: the line has the second 0.
        Listen::Failed => Err(refuse(alloc, world, 0, Status::GateFault)),
    }
}
