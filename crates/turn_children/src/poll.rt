//! The poll of one child.
ghost use Rattle.std.specs.Prelude.{◌≡◌, ◌<◌, ◌+◌, ◌-◌, length, slice_get, Some, IfErr, IfOk};
ghost use Rattle.child_table.specs.Children.{most_children};
ghost use Rattle.run_law.specs.Stages.{HasCause, IsSteady, Moves, MoveFails};
ghost use Rattle.run_law.specs.Turn.{to_polls};
ghost use Rattle.run_steps.specs.Keeping.{IsPlacedIn, KeepsRunning};
ghost use Rattle.turn_children.specs.Polling.{EndBrings, EndFails, IsGone, HasPassed, at_kill, outcome_of, place_behind};

use crate::end::{has_succeeded, take_end};
use child_table::Child;
use f2b_base::{NoMemory, Outcome};
use f2b_world::{Children, Disk, PollAnswer, World};
use run_law::Status;
use run_steps::Running;
use std::alloc::Global;

// How a child ended, if it has.
fn outcome_of(answer: PollAnswer) -> Option<Outcome>
    ensures { result ≡ outcome_of answer }
{
    match answer {
        PollAnswer::Ended(status) => Some(Outcome::Status(i64::from(status))),
        PollAnswer::Running | PollAnswer::Failed => None,
    }
}

// The place behind a child that still runs, unless it is late.
fn place_behind(now: u64, place: usize, child: Child) -> Option<usize>
    requires { place < most_children }
    ensures { result ≡ place_behind now place child }
{
    if child.is_late(now) {
        None
    } else {
        Some(place + 1)
    }
}

// The child at a place is gone.
fn gone<'f>(running: Running<'f>, place: usize) -> Running<'f>
    requires { place < length running.children.running }
    ensures { IsGone place running.entry result }
{
    let mut running = running;
    running.children.end(place);
    running
}

// The child at a place is gone, a check of this job that has passed.
fn gone_passed<'f>(running: Running<'f>, place: usize, job: u64) -> Result<Running<'f>, NoMemory>
    requires { place < length running.children.running }
    ensures { IfOk result (HasPassed place job running.entry) }
{
    let mut running = running;
    running.children.end(place);
    running.children.pass(job)?;
    Ok(running)
}

// The child at a place has ended.
#[tactic(auto, using(crate::proofs::PollLemmas::child_ends, run_law::proofs::CauseLemmas::counting))]
fn child_ended<'f, W: World + Disk>(
    alloc: Global,
    world: &mut W,
    running: Running<'f>,
    place: usize,
    child: Child,
    outcome: Outcome,
) -> Result<Running<'f>, Status>
    requires within { place < length running.children.running }
    requires placed { IsPlacedIn (W.stands world.old).told running.clocked }
    ensures ok { IfOk result (EndBrings (W.stands world.old) (W.stands world.new) place child outcome running.entry) }
    ensures err { IfErr result (EndFails (W.stands world.old) (W.stands world.new) place child outcome running.entry) }
    ensures cause { IfErr result (HasCause (W.stands world.old) (W.stands world.new)) }
    ensures steady { IsSteady (W.stands world.old) (W.stands world.new) }
    ensures fewer { IfOk result (λ after. length after.children.running + 1 ≡ length running.entry.children.running) }
    ensures left { IfOk result (λ after. after.left ≡ running.entry.left) }
    ensures placed { IfOk result (λ after. IsPlacedIn (W.stands world.new).told after.clocked) }
{
    if has_succeeded(child.task, outcome) {
        let running = gone_passed(running, place, child.job)?;
        return Ok(running);
    }
    let running = gone(running, place);
    let running = take_end(alloc, world, running, child, outcome)?;
    Ok(running)
}

// The child at a place is late, and is ended.
#[tactic(auto, using(crate::proofs::PollLemmas::killing, run_law::proofs::CauseLemmas::counting, run_law::proofs::CauseLemmas::placing))]
fn kill<'f, W: World + Disk + Children>(
    alloc: Global,
    world: &mut W,
    running: Running<'f>,
    place: usize,
    child: Child,
) -> Result<Running<'f>, Status>
    requires within { place < length running.children.running }
    requires there { slice_get running.children.running place ≡ Some child }
    requires placed { IsPlacedIn (W.stands world.old).told running.clocked }
    ensures ok { IfOk result (Moves KeepsRunning (W.stands world.old) (W.stands world.new) (at_kill place) (to_polls place) running.entry) }
    ensures err { IfErr result (MoveFails KeepsRunning (W.stands world.old) (W.stands world.new) (at_kill place) running.entry) }
    ensures cause { IfErr result (HasCause (W.stands world.old) (W.stands world.new)) }
    ensures steady { IsSteady (W.stands world.old) (W.stands world.new) }
    ensures fewer { IfOk result (λ after. length after.children.running + 1 ≡ length running.entry.children.running) }
    ensures left { IfOk result (λ after. after.left ≡ running.entry.left) }
    ensures placed { IfOk result (λ after. IsPlacedIn (W.stands world.new).told after.clocked) }
{
    world.child_kill(child.job);
    let running = child_ended(alloc, world, running, place, child, Outcome::TimedOut)?;
    Ok(running)
}

/// Asks the child at a place whether it has ended, ends it where it is late, and gives the place to go on from.
#[tactic(auto, using(crate::proofs::PollLemmas::polling, run_law::proofs::CauseLemmas::counting, run_law::proofs::CauseLemmas::placing))]
pub(crate) fn poll<'f, W: World + Disk + Children>(
    alloc: Global,
    world: &mut W,
    running: Running<'f>,
    place: usize,
) -> Result<(Running<'f>, usize), Status>
    requires within { place < length running.children.running }
    requires few { place < most_children }
    requires placed { IsPlacedIn (W.stands world.old).told running.clocked }
    ensures ok { IfOk result (λ r. Moves KeepsRunning (W.stands world.old) (W.stands world.new) (to_polls place) (to_polls r.1) running.entry r.0) }
    ensures err { IfErr result (MoveFails KeepsRunning (W.stands world.old) (W.stands world.new) (to_polls place) running.entry) }
    ensures cause { IfErr result (HasCause (W.stands world.old) (W.stands world.new)) }
    ensures steady { IsSteady (W.stands world.old) (W.stands world.new) }
    ensures fewer { IfOk result (λ r. length r.0.children.running - r.1 < length running.entry.children.running - place) }
    ensures left { IfOk result (λ r. r.0.left ≡ running.entry.left) }
    ensures placed { IfOk result (λ r. IsPlacedIn (W.stands world.new).told r.0.clocked) }
{
    let child = running.children.at(place);
    match outcome_of(world.child_poll(child.job)) {
        Some(outcome) => {
            let running = child_ended(alloc, world, running, place, child, outcome)?;
            // The next one stands at this place now.
            Ok((running, place))
        }
        None => match place_behind(running.clocked.now, place, child) {
            Some(next) => Ok((running, next)),
            None => {
                let running = kill(alloc, world, running, place, child)?;
                Ok((running, place))
            }
        },
    }
}
