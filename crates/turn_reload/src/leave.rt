//! A configuration that is not taken.
ghost use Rattle.std.specs.Prelude.{◌≡◌, ◌<◌, ◌≤◌, ◌∷◌, [], IfErr, IfOk, None, length};
ghost use Rattle.client_frames.specs.Frames.{most_text};
ghost use Rattle.client_replies.specs.Replies.{refused, sendable};
ghost use Rattle.client_table.specs.Clients.{unwritten_at};
ghost use Rattle.run_law.specs.Refusals.{error_line, untaken_text};
ghost use Rattle.run_law.specs.Stages.{Brings, BringFails, HasCause, IsSteady};
ghost use Rattle.run_steps.specs.Keeping.{IsPlacedIn, KeepsRunning, news_of};
ghost use Rattle.turn_reload.specs.Leaving.{LeaveFails, Leaves};

use crate::tell::{refusal, tell};
use client_frames::Answer;
use f2b_base::{Bytes, NoMemory, Seq, Text};
use f2b_world::{Disk, World};
use run_law::Status;
use run_steps::{Running, bring, error_line, untaken_text};
use std::alloc::Global;

// That it is not taken, and why.
fn untaken_lines(alloc: Global, now: u64, why: &Text) -> Result<Seq<Bytes>, NoMemory>
    ensures { IfOk result (λ lines. lines ≡ error_line now why.now ∷ []) }
{
    let mut lines = Seq::new(alloc);
    lines.push(error_line(alloc, now, why.as_str().as_bytes())?)?;
    Ok(lines)
}

// What the client is told, and what is said at this second.
fn untaken(alloc: Global, now: u64, status: &Status) -> Result<(Answer, Seq<Bytes>), NoMemory>
    ensures answer { IfOk result (λ r. r.0 ≡ sendable (refused (untaken_text status.now))) }
    ensures short { IfOk result (λ r. length r.0.text ≤ most_text) }
    ensures lines { IfOk result (λ r. r.1 ≡ error_line now (untaken_text status.now) ∷ []) }
{
    let why = untaken_text(alloc, status)?;
    let lines = untaken_lines(alloc, now, &why)?;
    let answer = refusal(alloc, why)?;
    Ok((answer, lines))
}

// Says these lines.
#[tactic(auto, using(crate::proofs::LeaveLemmas::saying, run_steps::proofs::BringLemmas::unbrought_cause, run_law::proofs::CauseLemmas::counting))]
fn say<'f, W: World + Disk>(
    alloc: Global,
    world: &mut W,
    running: Running<'f>,
    lines: &[Bytes],
) -> Result<Running<'f>, Status>
    requires placed { IsPlacedIn (W.stands world.old).told running.clocked }
    ensures ok { IfOk result (Brings KeepsRunning (W.stands world.old) (W.stands world.new) (news_of [] None lines.now) running.entry) }
    ensures err { IfErr result (BringFails KeepsRunning (W.stands world.old) (W.stands world.new) (news_of [] None lines.now) running.entry) }
    ensures cause { IfErr result (HasCause (W.stands world.old) (W.stands world.new)) }
    ensures steady { IsSteady (W.stands world.old) (W.stands world.new) }
    ensures clients { IfOk result (λ after. after.clients ≡ running.entry.clients) }
    ensures left { IfOk result (λ after. after.left ≡ running.entry.left) }
    ensures placed { IfOk result (λ after. IsPlacedIn (W.stands world.new).told after.clocked) }
{
    let Running {
        clocked,
        logs,
        children,
        clients,
        left,
    } = running;
    let clocked = bring(alloc, world, clocked, &[], None, lines)?;
    Ok(Running {
        clocked,
        logs,
        children,
        clients,
        left,
    })
}

/// Tells the client at a place why the configuration is not taken, and says the same. Nothing else changes.
#[tactic(auto, using(crate::proofs::LeaveLemmas::leaving, run_law::proofs::CauseLemmas::counting))]
pub(crate) fn leave<'f, W: World + Disk>(
    alloc: Global,
    world: &mut W,
    running: Running<'f>,
    place: usize,
    status: &Status,
) -> Result<Running<'f>, Status>
    requires within { place < length running.clients }
    requires written { unwritten_at place running.clients ≡ [] }
    requires placed { IsPlacedIn (W.stands world.old).told running.clocked }
    ensures ok { IfOk result (Leaves (W.stands world.old) (W.stands world.new) place status.now running.entry) }
    ensures err { IfErr result (LeaveFails (W.stands world.old) (W.stands world.new) place status.now running.entry) }
    ensures cause { IfErr result (HasCause (W.stands world.old) (W.stands world.new)) }
    ensures steady { IsSteady (W.stands world.old) (W.stands world.new) }
    ensures many { IfOk result (λ after. length after.clients ≡ length running.entry.clients) }
    ensures left { IfOk result (λ after. after.left ≡ running.entry.left) }
    ensures placed { IfOk result (λ after. IsPlacedIn (W.stands world.new).told after.clocked) }
{
    let now = running.clocked.now;
    let (answer, lines) = untaken(alloc, now, status)?;
    let running = tell(running, place, &answer)?;
    let running = say(alloc, world, running, lines.as_slice())?;
    Ok(running)
}
