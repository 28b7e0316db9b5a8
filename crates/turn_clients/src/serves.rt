//! All clients, each served once.
ghost use Rattle.std.specs.Prelude.{◌≡◌, ◌≤◌, ◌<◌, length, IfErr, IfOk, IfSome};
ghost use Rattle.client_table.specs.Clients.{most_clients};
ghost use Rattle.run_law.specs.Stages.{HasCause, IsSteady, Moves, MoveFails};
ghost use Rattle.run_law.specs.Turn.{behind_client, to_accept, to_clients};
ghost use Rattle.run_steps.specs.Keeping.{IsPlacedIn, KeepsRunning};
ghost use Rattle.turn_clients.specs.Serving.{AsksBehind, IsAsking, IsFarther, served_to};

use crate::accept::accept;
use crate::close::close_over;
use crate::serve::serve;
use f2b_world::{Disk, Gate, World};
use run_law::Status;
use run_steps::Running;
use std::alloc::Global;

// Serves one client after the other, by their numbers, from a place on, up to one for which the configuration is to be read again.
#[tactic(auto, using(crate::proofs::LoopLemmas::clients, run_law::proofs::CauseLemmas::counting))]
fn serve_each<'f, W: World + Disk + Gate>(
    alloc: Global,
    world: &mut W,
    running: Running<'f>,
    from: usize,
) -> Result<(Running<'f>, Option<usize>), Status>
    requires placed { IsPlacedIn (W.stands world.old).told running.clocked }
    ensures ok { IfOk result (λ r. Moves KeepsRunning (W.stands world.old) (W.stands world.new) (to_clients from) (served_to r.1) running.entry r.0) }
    ensures err { IfErr result (MoveFails KeepsRunning (W.stands world.old) (W.stands world.new) (to_clients from) running.entry) }
    ensures cause { IfErr result (HasCause (W.stands world.old) (W.stands world.new)) }
    ensures steady { IsSteady (W.stands world.old) (W.stands world.new) }
    ensures asked { IfOk result (λ r. AsksBehind running.entry from r.0 r.1) }
    ensures few { IfOk result (λ r. length r.0.clients ≤ most_clients) }
    ensures left { IfOk result (λ r. r.0.left ≡ running.entry.left) }
    ensures placed { IfOk result (λ r. IsPlacedIn (W.stands world.new).told r.0.clocked) }
{
    let mut running = running;
    let mut place = from;
    'clients: while place < running.clients.len() {
        let (after, next) = serve(alloc, world, running, place)?;
        running = after;
        let Some(next) = next else {
            return Ok((running, Some(place)));
        };
        place = next;
    }
    Ok((running, None))
}

/// Lets in a client that has connected, while there are fewer than 16, and then writes to each of them or reads it once: what a client
/// asks is replied over the state that it meets, and what happens by it is taken before the next one is served. One that is over leaves.
///
/// Where one asks for the configuration to be read again, its place is given, and that comes next; `serve_rest` goes on behind it.
#[tactic(auto, using(crate::proofs::LoopLemmas::stage, run_law::proofs::CauseLemmas::counting))]
pub fn serve_clients<'f, W: World + Disk + Gate>(
    alloc: Global,
    world: &mut W,
    running: Running<'f>,
) -> Result<(Running<'f>, Option<usize>), Status>
    requires placed { IsPlacedIn (W.stands world.old).told running.clocked }
    ensures ok { IfOk result (λ r. Moves KeepsRunning (W.stands world.old) (W.stands world.new) to_accept (served_to r.1) running.entry r.0) }
    ensures err { IfErr result (MoveFails KeepsRunning (W.stands world.old) (W.stands world.new) to_accept running.entry) }
    ensures cause { IfErr result (HasCause (W.stands world.old) (W.stands world.new)) }
    ensures steady { IsSteady (W.stands world.old) (W.stands world.new) }
    ensures asked { IfOk result (λ r. IfSome r.1 (λ place. IsAsking place r.0)) }
    ensures few { IfOk result (λ r. length r.0.clients ≤ most_clients) }
    ensures left { IfOk result (λ r. r.0.left ≡ running.entry.left) }
    ensures placed { IfOk result (λ r. IsPlacedIn (W.stands world.new).told r.0.clocked) }
{
    let running = accept(world, running)?;
    let (running, asked) = serve_each(alloc, world, running, 0)?;
    Ok((running, asked))
}

/// Goes on behind the client at a place, for which the configuration was read again: it leaves where it is over, and then each client behind
/// it is served.
#[tactic(auto, using(crate::proofs::LoopLemmas::stage, run_law::proofs::CauseLemmas::counting))]
pub fn serve_rest<'f, W: World + Disk + Gate>(
    alloc: Global,
    world: &mut W,
    running: Running<'f>,
    place: usize,
) -> Result<(Running<'f>, Option<usize>), Status>
    requires within { place < length running.clients }
    requires placed { IsPlacedIn (W.stands world.old).told running.clocked }
    ensures ok { IfOk result (λ r. Moves KeepsRunning (W.stands world.old) (W.stands world.new) (behind_client place) (served_to r.1) running.entry r.0) }
    ensures err { IfErr result (MoveFails KeepsRunning (W.stands world.old) (W.stands world.new) (behind_client place) running.entry) }
    ensures cause { IfErr result (HasCause (W.stands world.old) (W.stands world.new)) }
    ensures steady { IsSteady (W.stands world.old) (W.stands world.new) }
    ensures asked { IfOk result (λ r. IsFarther running.entry place r.0 r.1) }
    ensures left { IfOk result (λ r. r.0.left ≡ running.entry.left) }
    ensures placed { IfOk result (λ r. IsPlacedIn (W.stands world.new).told r.0.clocked) }
{
    let (running, next) = close_over(world, running, place);
    let (running, asked) = serve_each(alloc, world, running, next)?;
    Ok((running, asked))
}
