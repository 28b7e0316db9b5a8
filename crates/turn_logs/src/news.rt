//! What a look brings, taken and said.
ghost use Rattle.std.specs.Prelude.{◌≡◌, ◌<◌, [], length, IfErr, IfOk, IfSome};
ghost use Rattle.f2b_model.specs.Storable.{IsStorableWhat};
ghost use Rattle.f2b_world.specs.declared.answer.Look.TheVariants.{File, Failed as LookFailed};
ghost use Rattle.log_set.specs.Logs.{AnswersAt, IsLogRead};
ghost use Rattle.run_law.specs.Stages.{Brings, BringFails, HasCause, IsSteady};
ghost use Rattle.run_steps.specs.Keeping.{IsPlacedIn, KeepsRunning, news_of};
ghost use Rattle.turn_logs.specs.Looking.{LookBrings, LookFails, TakesLook, TellsRotated, TellsUnread};

use f2b_base::{Bytes, FileLook, NoMemory, Seq, What};
use f2b_world::{Disk, World};
use log_set::{LogSet, Taken};
use run_law::Status;
use run_steps::{Running, bring, rotated_line, unread_line};
use std::alloc::Global;

// Takes what an event brings: lines, and that a log was read, if it was. The logs stay as they are.
#[tactic(auto, using(crate::proofs::TakeLemmas::bringing, run_law::proofs::CauseLemmas::counting, run_steps::proofs::BringLemmas::unbrought_cause, run_steps::proofs::StoredLemmas::storing))]
fn bring_on<'f, W: World + Disk>(
    alloc: Global,
    world: &mut W,
    running: Running<'f>,
    lines: &[Bytes],
    what: Option<What>,
) -> Result<Running<'f>, Status>
    requires read { IfSome what IsLogRead }
    requires storable { IfSome what IsStorableWhat }
    requires placed { IsPlacedIn (W.stands world.old).told running.clocked }
    ensures ok { IfOk result (Brings KeepsRunning (W.stands world.old) (W.stands world.new) (news_of lines.now what []) running.entry) }
    ensures err { IfErr result (BringFails KeepsRunning (W.stands world.old) (W.stands world.new) (news_of lines.now what []) running.entry) }
    ensures cause { IfErr result (HasCause (W.stands world.old) (W.stands world.new)) }
    ensures steady { IsSteady (W.stands world.old) (W.stands world.new) }
    ensures logs { IfOk result (λ after. after.logs ≡ running.entry.logs) }
    ensures left { IfOk result (λ after. after.left ≡ running.entry.left) }
    ensures placed { IfOk result (λ after. IsPlacedIn (W.stands world.new).told after.clocked) }
{
    let Running {
        clocked,
        logs,
        children,
        clients,
        left,
    } = running;
    let clocked = bring(alloc, world, clocked, lines, what, &[])?;
    Ok(Running {
        clocked,
        logs,
        children,
        clients,
        left,
    })
}

// The set of the logs takes over what the look at one of them brought.
#[tactic(auto, using(crate::proofs::TakeLemmas::took_look))]
fn taken<'f>(
    alloc: Global,
    running: Running<'f>,
    place: usize,
    file: &FileLook,
) -> Result<(Running<'f>, Taken), NoMemory>
    requires place { place < length running.logs.logs }
    requires look { AnswersAt running.logs place file.now }
    ensures takes { IfOk result (λ r. TakesLook running.entry place file.now r.0 r.1) }
    ensures input { IfOk result (λ r. IfSome r.1.read IsLogRead) }
    ensures storable { IfOk result (λ r. IfSome r.1.read IsStorableWhat) }
    ensures clocked { IfOk result (λ r. r.0.clocked ≡ running.entry.clocked) }
    ensures many { IfOk result (λ r. length r.0.logs.logs ≡ length running.entry.logs.logs) }
    ensures left { IfOk result (λ r. r.0.left ≡ running.entry.left) }
{
    let mut running = running;
    let now = running.clocked.now;
    let taken = running.logs.take(alloc, place, file, now)?;
    Ok((running, taken))
}

// The line that the log at a place is another one, where it is.
#[tactic(auto, using(crate::proofs::TakeLemmas::telling))]
fn rotated_lines(
    alloc: Global,
    running: &Running<'_>,
    place: usize,
    rotated: bool,
) -> Result<Seq<Bytes>, NoMemory>
    requires { place < length running.now.logs.logs }
    ensures { IfOk result (TellsRotated running.now place rotated) }
{
    let mut lines = Seq::new(alloc);
    if rotated {
        let now = running.clocked.now;
        let logs = &running.logs;
        lines.push(rotated_line(alloc, now, logs.jail(place), logs.path(place))?)?;
    }
    Ok(lines)
}

// The line that the log at a place cannot be read.
#[tactic(auto, using(crate::proofs::TakeLemmas::telling))]
fn unread_lines(alloc: Global, running: &Running<'_>, place: usize) -> Result<Seq<Bytes>, NoMemory>
    requires { place < length running.now.logs.logs }
    ensures { IfOk result (TellsUnread running.now place) }
{
    let now = running.clocked.now;
    let logs = &running.logs;
    let mut lines = Seq::new(alloc);
    lines.push(unread_line(alloc, now, logs.jail(place), logs.path(place))?)?;
    Ok(lines)
}

/// Takes what was found of the log at a place.
#[tactic(auto, using(crate::proofs::LookLemmas::looking, run_law::proofs::CauseLemmas::counting))]
pub(crate) fn take_file<'f, W: World + Disk>(
    alloc: Global,
    world: &mut W,
    running: Running<'f>,
    place: usize,
    file: &FileLook,
) -> Result<Running<'f>, Status>
    requires place { place < length running.logs.logs }
    requires look { AnswersAt running.logs place file.now }
    requires placed { IsPlacedIn (W.stands world.old).told running.clocked }
    ensures ok { IfOk result (LookBrings (W.stands world.old) (W.stands world.new) place (File file.now) running.entry) }
    ensures err { IfErr result (LookFails (W.stands world.old) (W.stands world.new) place (File file.now) running.entry) }
    ensures cause { IfErr result (HasCause (W.stands world.old) (W.stands world.new)) }
    ensures steady { IsSteady (W.stands world.old) (W.stands world.new) }
    ensures many { IfOk result (λ after. length after.logs.logs ≡ length running.entry.logs.logs) }
    ensures left { IfOk result (λ after. after.left ≡ running.entry.left) }
    ensures placed { IfOk result (λ after. IsPlacedIn (W.stands world.new).told after.clocked) }
{
    let (running, taken) = taken(alloc, running, place, file)?;
    let Taken { read, rotated } = taken;
    let lines = rotated_lines(alloc, &running, place, rotated)?;
    let running = bring_on(alloc, world, running, lines.as_slice(), read)?;
    Ok(running)
}

/// Says that the log at a place cannot be read.
#[tactic(auto, using(crate::proofs::LookLemmas::looking, run_law::proofs::CauseLemmas::counting))]
pub(crate) fn say_unread<'f, W: World + Disk>(
    alloc: Global,
    world: &mut W,
    running: Running<'f>,
    place: usize,
) -> Result<Running<'f>, Status>
    requires place { place < length running.logs.logs }
    requires placed { IsPlacedIn (W.stands world.old).told running.clocked }
    ensures ok { IfOk result (LookBrings (W.stands world.old) (W.stands world.new) place LookFailed running.entry) }
    ensures err { IfErr result (LookFails (W.stands world.old) (W.stands world.new) place LookFailed running.entry) }
    ensures cause { IfErr result (HasCause (W.stands world.old) (W.stands world.new)) }
    ensures steady { IsSteady (W.stands world.old) (W.stands world.new) }
    ensures many { IfOk result (λ after. length after.logs.logs ≡ length running.entry.logs.logs) }
    ensures left { IfOk result (λ after. after.left ≡ running.entry.left) }
    ensures placed { IfOk result (λ after. IsPlacedIn (W.stands world.new).told after.clocked) }
{
    let lines = unread_lines(alloc, &running, place)?;
    let running = bring_on(alloc, world, running, lines.as_slice(), None)?;
    Ok(running)
}
