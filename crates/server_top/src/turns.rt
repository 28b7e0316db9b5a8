//! The turns of a run.
ghost use Rattle.std.specs.Prelude.{◌≡◌, ◌≤◌, ◌<◌, length, IfErr, IfOk, IfSome, None};
ghost use Rattle.client_table.specs.Clients.{most_clients};
ghost use Rattle.run_law.specs.Stages.{HasCause, IsSteady, Moves, MoveFails};
ghost use Rattle.run_law.specs.Turn.{at_pause, behind_client, to_children, to_starts};
ghost use Rattle.run_law.specs.declared.status.Status.TheVariants.{TurnsSpent as AllTurns};
ghost use Rattle.run_steps.specs.Keeping.{IsPlacedIn, KeepsRunning};
ghost use Rattle.server_top.specs.Drained.{has_drained};
ghost use Rattle.server_top.specs.Ticks.{at_clock};
ghost use Rattle.server_top.specs.Turns.{Asks, EndsTurn, GoesOn, IsNext, left_from, left_of};
ghost use Rattle.turn_clients.specs.Serving.{IsAsking, served_to};

use crate::clock::read_clock;
use crate::pause::{last_pause, pause};
use f2b_world::{Children, Disk, Gate, World};
use run_law::Status;
use run_steps::Running;
use std::alloc::Global;
use turn_children::{poll_children, start_children};
use turn_clients::{serve_clients, serve_rest};
use turn_logs::look_at_logs;

// The clock and the looks of a turn.
#[tactic(auto, using(crate::proofs::TurnLemmas::turning, run_law::proofs::CauseLemmas::counting))]
fn observe<'f, W: World + Disk>(
    alloc: Global,
    world: &mut W,
    running: Running<'f>,
) -> Result<Running<'f>, Status>
    requires placed { IsPlacedIn (W.stands world.old).told running.clocked }
    ensures ok { IfOk result (Moves KeepsRunning (W.stands world.old) (W.stands world.new) at_clock to_children running.entry) }
    ensures err { IfErr result (MoveFails KeepsRunning (W.stands world.old) (W.stands world.new) at_clock running.entry) }
    ensures cause { IfErr result (HasCause (W.stands world.old) (W.stands world.new)) }
    ensures steady { IsSteady (W.stands world.old) (W.stands world.new) }
    ensures left { IfOk result (λ after. after.left ≡ running.entry.left) }
    ensures placed { IfOk result (λ after. IsPlacedIn (W.stands world.new).told after.clocked) }
{
    let running = read_clock(alloc, world, running)?;
    let running = look_at_logs(alloc, world, running)?;
    Ok(running)
}

// The commands that run, and behind them the clients, up to one that asks for a reload.
#[tactic(auto, using(crate::proofs::TurnLemmas::turning, run_law::proofs::CauseLemmas::counting))]
fn attend<'f, W: World + Children + Disk + Gate>(
    alloc: Global,
    world: &mut W,
    running: Running<'f>,
) -> Result<(Running<'f>, Option<usize>), Status>
    requires placed { IsPlacedIn (W.stands world.old).told running.clocked }
    ensures ok { IfOk result (λ r. Moves KeepsRunning (W.stands world.old) (W.stands world.new) to_children (served_to r.1) running.entry r.0) }
    ensures err { IfErr result (MoveFails KeepsRunning (W.stands world.old) (W.stands world.new) to_children running.entry) }
    ensures cause { IfErr result (HasCause (W.stands world.old) (W.stands world.new)) }
    ensures steady { IsSteady (W.stands world.old) (W.stands world.new) }
    ensures asked { IfOk result (λ r. IfSome r.1 (λ place. IsAsking place r.0)) }
    ensures few { IfOk result (λ r. length r.0.clients ≤ most_clients) }
    ensures left { IfOk result (λ r. r.0.left ≡ running.entry.left) }
    ensures placed { IfOk result (λ r. IsPlacedIn (W.stands world.new).told r.0.clocked) }
{
    let running = poll_children(alloc, world, running)?;
    let (running, asked) = serve_clients(alloc, world, running)?;
    Ok((running, asked))
}

// A turn from its beginning, up to a client that asks for a reload, or behind all clients.
#[tactic(auto, using(crate::proofs::TurnLemmas::turning, run_law::proofs::CauseLemmas::counting))]
fn begin_turn<'f, W: World + Children + Disk + Gate>(
    alloc: Global,
    world: &mut W,
    running: Running<'f>,
) -> Result<(Running<'f>, Option<usize>), Status>
    requires placed { IsPlacedIn (W.stands world.old).told running.clocked }
    ensures ok { IfOk result (λ r. Moves KeepsRunning (W.stands world.old) (W.stands world.new) at_clock (served_to r.1) running.entry r.0) }
    ensures err { IfErr result (MoveFails KeepsRunning (W.stands world.old) (W.stands world.new) at_clock running.entry) }
    ensures cause { IfErr result (HasCause (W.stands world.old) (W.stands world.new)) }
    ensures steady { IsSteady (W.stands world.old) (W.stands world.new) }
    ensures asked { IfOk result (λ r. IfSome r.1 (λ place. IsAsking place r.0)) }
    ensures few { IfOk result (λ r. length r.0.clients ≤ most_clients) }
    ensures left { IfOk result (λ r. r.0.left ≡ running.entry.left) }
    ensures placed { IfOk result (λ r. IsPlacedIn (W.stands world.new).told r.0.clocked) }
{
    let running = observe(alloc, world, running)?;
    let (running, asked) = attend(alloc, world, running)?;
    Ok((running, asked))
}

// Whether a stop was asked for, all jobs are settled, and all replies are taken.
fn has_drained(running: &Running<'_>) -> bool
    ensures { result ≡ has_drained running.now }
{
    let core = running.clocked.engine.core();
    core.is_stopping() && (core.lanes().count() == 0 && !running.clients.has_unwritten())
}

// What a turn does behind its clients, up to its pause; where all is settled behind a stop the run is over before it.
#[tactic(auto, using(crate::proofs::TurnLemmas::draining, run_law::proofs::CauseLemmas::counting))]
fn up_to_pause<'f, W: World + Children + Disk>(
    alloc: Global,
    world: &mut W,
    running: Running<'f>,
) -> Result<Running<'f>, Status>
    requires placed { IsPlacedIn (W.stands world.old).told running.clocked }
    ensures ok { IfOk result (Moves KeepsRunning (W.stands world.old) (W.stands world.new) to_starts at_pause running.entry) }
    ensures err { IfErr result (MoveFails KeepsRunning (W.stands world.old) (W.stands world.new) to_starts running.entry) }
    ensures cause { IfErr result (HasCause (W.stands world.old) (W.stands world.new)) }
    ensures steady { IsSteady (W.stands world.old) (W.stands world.new) }
    ensures left { IfOk result (λ after. after.left ≡ running.entry.left) }
    ensures placed { IfOk result (λ after. IsPlacedIn (W.stands world.new).told after.clocked) }
{
    let running = start_children(alloc, world, running)?;
    if has_drained(&running) {
        return Err(Status::Stopped);
    }
    Ok(running)
}

// The end of a turn, from behind its clients: what is kept at the next one, or nothing where all were made.
#[tactic(auto, using(crate::proofs::TurnLemmas::turning, run_law::proofs::CauseLemmas::counting))]
fn end_turn<'f, W: World + Children + Disk>(
    alloc: Global,
    world: &mut W,
    running: Running<'f>,
) -> Result<Option<Running<'f>>, Status>
    requires left { 1 ≤ running.left }
    requires placed { IsPlacedIn (W.stands world.old).told running.clocked }
    ensures ok { IfOk result (EndsTurn (W.stands world.old) (W.stands world.new) running.entry) }
    ensures err { IfErr result (MoveFails KeepsRunning (W.stands world.old) (W.stands world.new) to_starts running.entry) }
    ensures cause { IfErr result (HasCause (W.stands world.old) (W.stands world.new)) }
    ensures steady { IsSteady (W.stands world.old) (W.stands world.new) }
    ensures next { IfOk result (λ next. IfSome next (IsNext running.entry)) }
    ensures placed { IfOk result (λ next. IfSome next (λ after. IsPlacedIn (W.stands world.new).told after.clocked)) }
{
    let running = up_to_pause(alloc, world, running)?;
    if running.left > 1 {
        return Ok(Some(pause(world, running)));
    }
    last_pause(world, running);
    Ok(None)
}

// Makes the turns that are left, from behind the clients of one, up to one in which a client asks for a reload: its place is given, or nothing where
// all turns were made.
#[tactic(auto, using(crate::proofs::TurnLemmas::turning, crate::proofs::TurnLemmas::going, run_law::proofs::CauseLemmas::counting))]
fn make_turns<'f, W: World + Children + Disk + Gate>(
    alloc: Global,
    world: &mut W,
    running: Running<'f>,
) -> Result<Option<(Running<'f>, usize)>, Status>
    requires left { 1 ≤ running.left }
    requires placed { IsPlacedIn (W.stands world.old).told running.clocked }
    ensures ok { IfOk result (GoesOn (W.stands world.old) (W.stands world.new) to_starts running.entry) }
    ensures err { IfErr result (MoveFails KeepsRunning (W.stands world.old) (W.stands world.new) to_starts running.entry) }
    ensures cause { IfErr result (HasCause (W.stands world.old) (W.stands world.new)) }
    ensures steady { IsSteady (W.stands world.old) (W.stands world.new) }
    ensures asks { IfOk result (λ o. IfSome o (λ r. Asks r.0 r.1)) }
    ensures fewer { IfOk result (λ o. IfSome o (λ r. left_of r.0 r.1 ≤ left_from None running.entry)) }
    ensures placed { IfOk result (λ o. IfSome o (λ r. IsPlacedIn (W.stands world.new).told r.0.clocked)) }
{
    let mut running = running;
    'turns: loop {
        let Some(next) = end_turn(alloc, world, running)? else {
            return Ok(None);
        };
        let (after, asked) = begin_turn(alloc, world, next)?;
        if let Some(place) = asked {
            return Ok(Some((after, place)));
        }
        running = after;
    }
}

// From a point of a turn where its clients were served so far: behind all of them, or at one that asked for a reload.
#[tactic(auto, using(crate::proofs::TurnLemmas::turning, crate::proofs::TurnLemmas::going, run_law::proofs::CauseLemmas::counting))]
fn up_to_reload<'f, W: World + Children + Disk + Gate>(
    alloc: Global,
    world: &mut W,
    running: Running<'f>,
    asked: Option<usize>,
) -> Result<Option<(Running<'f>, usize)>, Status>
    requires left { 1 ≤ running.left }
    requires asked { IfSome asked (λ place. IsAsking place running) }
    requires placed { IsPlacedIn (W.stands world.old).told running.clocked }
    ensures ok { IfOk result (GoesOn (W.stands world.old) (W.stands world.new) (served_to asked) running.entry) }
    ensures err { IfErr result (MoveFails KeepsRunning (W.stands world.old) (W.stands world.new) (served_to asked) running.entry) }
    ensures cause { IfErr result (HasCause (W.stands world.old) (W.stands world.new)) }
    ensures steady { IsSteady (W.stands world.old) (W.stands world.new) }
    ensures asks { IfOk result (λ o. IfSome o (λ r. Asks r.0 r.1)) }
    ensures fewer { IfOk result (λ o. IfSome o (λ r. left_of r.0 r.1 ≤ left_from asked running.entry)) }
    ensures placed { IfOk result (λ o. IfSome o (λ r. IsPlacedIn (W.stands world.new).told r.0.clocked)) }
{
    match asked {
        Some(place) => Ok(Some((running, place))),
        None => make_turns(alloc, world, running),
    }
}

/// Makes the turns that are left, from the beginning of one, up to a client that asks for a reload. Ends there, with its place, or with nothing
/// where all turns were made. The run is over sooner, with `Stopped`, in a turn in which all is settled behind a stop that was asked for.
#[tactic(auto, using(crate::proofs::TurnLemmas::turning, crate::proofs::TurnLemmas::going, run_law::proofs::CauseLemmas::counting))]
pub fn take_turns<'f, W: World + Children + Disk + Gate>(
    alloc: Global,
    world: &mut W,
    running: Running<'f>,
) -> Result<Option<(Running<'f>, usize)>, Status>
    requires left { 1 ≤ running.left }
    requires placed { IsPlacedIn (W.stands world.old).told running.clocked }
    ensures ok { IfOk result (GoesOn (W.stands world.old) (W.stands world.new) at_clock running.entry) }
    ensures err { IfErr result (MoveFails KeepsRunning (W.stands world.old) (W.stands world.new) at_clock running.entry) }
    ensures cause { IfErr result (HasCause (W.stands world.old) (W.stands world.new)) }
    ensures steady { IsSteady (W.stands world.old) (W.stands world.new) }
    ensures asks { IfOk result (λ o. IfSome o (λ r. Asks r.0 r.1)) }
    ensures placed { IfOk result (λ o. IfSome o (λ r. IsPlacedIn (W.stands world.new).told r.0.clocked)) }
{
    let (running, asked) = begin_turn(alloc, world, running)?;
    let outcome = up_to_reload(alloc, world, running, asked)?;
    Ok(outcome)
}

/// Goes on behind the client at a place, for which the configuration was read again, up to the next one that asks for that, as `take_turns` does.
#[tactic(auto, using(crate::proofs::TurnLemmas::turning, crate::proofs::TurnLemmas::going, run_law::proofs::CauseLemmas::counting))]
pub fn go_on<'f, W: World + Children + Disk + Gate>(
    alloc: Global,
    world: &mut W,
    running: Running<'f>,
    place: usize,
) -> Result<Option<(Running<'f>, usize)>, Status>
    requires left { 1 ≤ running.left }
    requires within { place < length running.clients }
    requires placed { IsPlacedIn (W.stands world.old).told running.clocked }
    ensures ok { IfOk result (GoesOn (W.stands world.old) (W.stands world.new) (behind_client place) running.entry) }
    ensures err { IfErr result (MoveFails KeepsRunning (W.stands world.old) (W.stands world.new) (behind_client place) running.entry) }
    ensures cause { IfErr result (HasCause (W.stands world.old) (W.stands world.new)) }
    ensures steady { IsSteady (W.stands world.old) (W.stands world.new) }
    ensures asks { IfOk result (λ o. IfSome o (λ r. Asks r.0 r.1)) }
    ensures fewer { IfOk result (λ o. IfSome o (λ r. left_of r.0 r.1 < left_of running.entry place)) }
    ensures placed { IfOk result (λ o. IfSome o (λ r. IsPlacedIn (W.stands world.new).told r.0.clocked)) }
{
    let (running, asked) = serve_rest(alloc, world, running, place)?;
    let outcome = up_to_reload(alloc, world, running, asked)?;
    Ok(outcome)
}
