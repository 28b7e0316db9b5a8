//! The look at one log.
ghost use Rattle.std.specs.Prelude.{◌≡◌, ◌<◌, ◌+◌, length, IfErr, IfOk, IsOk};
ghost use Rattle.run_law.specs.Stages.{HasCause, IsSteady, Moves, MoveFails};
ghost use Rattle.run_law.specs.Turn.{to_looks};
ghost use Rattle.run_steps.specs.Keeping.{IsPlacedIn, KeepsRunning};
ghost use Rattle.turn_logs.specs.Looking.{IsAnswerAt, LookBrings, LookFails, at_look};

use crate::news::{say_unread, take_file};
use f2b_world::{Disk, Look, World};
use run_law::Status;
use run_steps::Running;
use std::alloc::Global;

// Takes the answer of a look at the log at a place. Of a log that is not there nothing is said, and no memory is asked for.
#[tactic(auto, using(crate::proofs::LookLemmas::looking, run_law::proofs::CauseLemmas::counting))]
fn take_answer<'f, W: World + Disk>(
    alloc: Global,
    world: &mut W,
    running: Running<'f>,
    place: usize,
    answer: Look,
) -> Result<Running<'f>, Status>
    requires place { place < length running.logs.logs }
    requires look { IsAnswerAt running place answer }
    requires placed { IsPlacedIn (W.stands world.old).told running.clocked }
    ensures ok { IfOk result (LookBrings (W.stands world.old) (W.stands world.new) place answer running.entry) }
    ensures err { IfErr result (LookFails (W.stands world.old) (W.stands world.new) place answer running.entry) }
    ensures absent { answer ≡ Look.Absent → IsOk result }
    ensures cause { IfErr result (HasCause (W.stands world.old) (W.stands world.new)) }
    ensures steady { IsSteady (W.stands world.old) (W.stands world.new) }
    ensures many { IfOk result (λ after. length after.logs.logs ≡ length running.entry.logs.logs) }
    ensures left { IfOk result (λ after. after.left ≡ running.entry.left) }
    ensures placed { IfOk result (λ after. IsPlacedIn (W.stands world.new).told after.clocked) }
{
    match answer {
        Look::File(file) => take_file(alloc, world, running, place, &file),
        Look::Absent => Ok(running),
        Look::Failed => say_unread(alloc, world, running, place),
        Look::NoMemory => Err(Status::NoMemory),
    }
}

/// Looks at the log at a place as its follower asks, and takes what is found.
#[tactic(auto, using(crate::proofs::LookLemmas::asking, run_law::proofs::CauseLemmas::counting))]
pub(crate) fn look_at<'f, W: World + Disk>(
    alloc: Global,
    world: &mut W,
    running: Running<'f>,
    place: usize,
) -> Result<Running<'f>, Status>
    requires place { place < length running.logs.logs }
    requires placed { IsPlacedIn (W.stands world.old).told running.clocked }
    ensures ok { IfOk result (Moves KeepsRunning (W.stands world.old) (W.stands world.new) (at_look place) (to_looks (place + 1)) running.entry) }
    ensures err { IfErr result (MoveFails KeepsRunning (W.stands world.old) (W.stands world.new) (at_look place) running.entry) }
    ensures cause { IfErr result (HasCause (W.stands world.old) (W.stands world.new)) }
    ensures steady { IsSteady (W.stands world.old) (W.stands world.new) }
    ensures many { IfOk result (λ after. length after.logs.logs ≡ length running.entry.logs.logs) }
    ensures left { IfOk result (λ after. after.left ≡ running.entry.left) }
    ensures placed { IfOk result (λ after. IsPlacedIn (W.stands world.new).told after.clocked) }
{
    let ask = running.logs.ask(place);
    let answer = world.look(running.logs.path(place), ask.head, ask.from, ask.max);
    let running = take_answer(alloc, world, running, place, answer)?;
    Ok(running)
}
