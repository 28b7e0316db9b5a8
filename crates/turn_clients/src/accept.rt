//! A client is let in.
ghost use Rattle.std.specs.Prelude.{◌≡◌, ◌<◌, length, IfErr, IfOk};
ghost use Rattle.client_table.specs.Clients.{accepted, most_clients, with_client};
ghost use Rattle.run_law.specs.Stages.{HasCause, IsSteady, Moves, MoveFails};
ghost use Rattle.run_law.specs.Turn.{to_accept, to_clients};
ghost use Rattle.run_steps.specs.Keeping.{IsPlacedIn, KeepsRunning};
ghost use Rattle.turn_clients.specs.Serving.{HasClients, conn_in};

use f2b_base::NoMemory;
use f2b_world::{Accept, Gate, World};
use run_law::Status;
use run_steps::Running;

// The number of a client that has connected, if one has.
fn conn_in(answer: Accept) -> Option<u32>
    ensures { result ≡ conn_in answer }
{
    match answer {
        Accept::Conn(conn) => Some(conn),
        Accept::Quiet | Accept::Failed => None,
    }
}

// There is one client more.
fn accepted<'f>(running: Running<'f>, conn: u32) -> Result<Running<'f>, NoMemory>
    requires { length running.clients < most_clients }
    ensures { IfOk result (HasClients (with_client (accepted conn running.entry.clocked.now) running.entry.clients) running.entry) }
{
    let mut running = running;
    let now = running.clocked.now;
    running.clients.accept(conn, now)?;
    Ok(running)
}

/// Lets the next client in that has connected, if there is one, and while there are fewer than 16.
#[tactic(auto, using(crate::proofs::AcceptLemmas::accepting, run_law::proofs::CauseLemmas::counting, run_law::proofs::CauseLemmas::placing))]
pub(crate) fn accept<'f, W: World + Gate>(
    world: &mut W,
    running: Running<'f>,
) -> Result<Running<'f>, Status>
    requires placed { IsPlacedIn (W.stands world.old).told running.clocked }
    ensures ok { IfOk result (Moves KeepsRunning (W.stands world.old) (W.stands world.new) to_accept (to_clients 0) running.entry) }
    ensures err { IfErr result (MoveFails KeepsRunning (W.stands world.old) (W.stands world.new) to_accept running.entry) }
    ensures cause { IfErr result (HasCause (W.stands world.old) (W.stands world.new)) }
    ensures steady { IsSteady (W.stands world.old) (W.stands world.new) }
    ensures left { IfOk result (λ after. after.left ≡ running.entry.left) }
    ensures placed { IfOk result (λ after. IsPlacedIn (W.stands world.new).told after.clocked) }
{
    if running.clients.is_full() {
        return Ok(running);
    }
    match conn_in(world.gate_accept()) {
        Some(conn) => {
            let running = accepted(running, conn)?;
            Ok(running)
        }
        None => Ok(running),
    }
}
