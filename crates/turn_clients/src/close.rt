//! A client that is over leaves.
ghost use Rattle.std.specs.Prelude.{◌≡◌, ◌<◌, ◌+◌, ◌-◌, length, remove};
ghost use Rattle.client_table.specs.Clients.{most_clients};
ghost use Rattle.run_law.specs.Stages.{IsSteady, Moves};
ghost use Rattle.run_law.specs.Turn.{behind_client, to_clients};
ghost use Rattle.run_steps.specs.Keeping.{IsPlacedIn, KeepsRunning};
ghost use Rattle.turn_clients.specs.Serving.{HasClients, at_close};

use f2b_world::{Gate, World};
use run_steps::Running;

// The client at a place is gone.
fn gone<'f>(running: Running<'f>, place: usize) -> Running<'f>
    requires { place < length running.clients }
    ensures { HasClients (remove running.entry.clients place) running.entry result }
{
    let mut running = running;
    running.clients.close(place);
    running
}

/// Ends the connection of the client at a place, which is over. The next one stands there then.
#[tactic(auto, using(crate::proofs::CloseLemmas::closing, run_law::proofs::CauseLemmas::counting, run_law::proofs::CauseLemmas::placing))]
pub(crate) fn close<'f, W: World + Gate>(
    world: &mut W,
    running: Running<'f>,
    place: usize,
) -> Running<'f>
    requires within { place < length running.clients }
    requires placed { IsPlacedIn (W.stands world.old).told running.clocked }
    ensures moves { Moves KeepsRunning (W.stands world.old) (W.stands world.new) (at_close place) (to_clients place) running.entry result }
    ensures steady { IsSteady (W.stands world.old) (W.stands world.new) }
    ensures fewer { length result.clients + 1 ≡ length running.entry.clients }
    ensures left { result.left ≡ running.entry.left }
    ensures placed { IsPlacedIn (W.stands world.new).told result.clocked }
{
    world.gate_close(running.clients.conn(place));
    gone(running, place)
}

/// Ends the connection of the client at a place behind a call on it, where it is over, and gives the place to go on from.
#[tactic(auto, using(crate::proofs::CloseLemmas::behind, run_law::proofs::CauseLemmas::counting))]
pub(crate) fn close_over<'f, W: World + Gate>(
    world: &mut W,
    running: Running<'f>,
    place: usize,
) -> (Running<'f>, usize)
    requires within { place < length running.clients }
    requires few { place < most_clients }
    requires placed { IsPlacedIn (W.stands world.old).told running.clocked }
    ensures moves { Moves KeepsRunning (W.stands world.old) (W.stands world.new) (behind_client place) (to_clients result.1) running.entry result.0 }
    ensures steady { IsSteady (W.stands world.old) (W.stands world.new) }
    ensures nearer { length result.0.clients - result.1 < length running.entry.clients - place }
    ensures left { result.0.left ≡ running.entry.left }
    ensures placed { IsPlacedIn (W.stands world.new).told result.0.clocked }
{
    if running.clients.is_over(place, running.clocked.now) {
        (close(world, running, place), place)
    } else {
        (running, place + 1)
    }
}
