//! The end of a child, taken and said.
ghost use Rattle.std.specs.Prelude.{◌≡◌, [], Some, IfErr, IfOk};
ghost use Rattle.f2b_model.specs.Storable.{IsStorableWhat};
ghost use Rattle.run_law.specs.Polls.{end_of, has_succeeded};
ghost use Rattle.run_law.specs.Stages.{Brings, BringFails, HasCause, IsSteady};
ghost use Rattle.run_steps.specs.Keeping.{IsPlacedIn, IsTimedAlike, KeepsRunning, Makes, news_of};

use action_queue::is_success;
use child_table::{Child, Task};
use f2b_base::{Outcome, What};
use f2b_world::{Disk, World};
use run_law::Status;
use run_steps::{Running, bring};
use std::alloc::Global;

/// Whether this is a check that has passed.
pub(crate) fn has_succeeded(task: Task, outcome: Outcome) -> bool
    ensures { result ≡ has_succeeded task outcome }
{
    match task {
        Task::Check => is_success(outcome),
        Task::Command => false,
    }
}

// What the end of a child is: a try of its job ended, or the check before it failed.
#[tactic(auto, using(crate::proofs::EndLemmas::outcome_fits))]
fn end_of(child: Child, outcome: Outcome) -> What
    ensures end { result ≡ end_of child.task child.job outcome }
    ensures storable { IsStorableWhat result }
{
    match child.task {
        Task::Command => What::Ended {
            job: child.job,
            outcome,
        },
        Task::Check => What::CheckFailed {
            job: child.job,
            outcome,
        },
    }
}

/// Takes the end of a child that is no check which has passed, and says what it tells.
#[tactic(auto, using(crate::proofs::EndLemmas::ending, run_law::proofs::CauseLemmas::counting, run_steps::proofs::BringLemmas::unbrought_cause, run_steps::proofs::StoredLemmas::storing))]
pub(crate) fn take_end<'f, W: World + Disk>(
    alloc: Global,
    world: &mut W,
    running: Running<'f>,
    child: Child,
    outcome: Outcome,
) -> Result<Running<'f>, Status>
    requires placed { IsPlacedIn (W.stands world.old).told running.clocked }
    ensures ok { IfOk result (Brings KeepsRunning (W.stands world.old) (W.stands world.new) (news_of [] (Some (end_of child.task child.job outcome)) []) running.entry) }
    ensures err { IfErr result (BringFails KeepsRunning (W.stands world.old) (W.stands world.new) (news_of [] (Some (end_of child.task child.job outcome)) []) running.entry) }
    ensures cause { IfErr result (HasCause (W.stands world.old) (W.stands world.new)) }
    ensures steady { IsSteady (W.stands world.old) (W.stands world.new) }
    ensures makes { IfOk result (λ after. Makes running.entry.clocked (Some (end_of child.task child.job outcome)) after.clocked) }
    ensures time { IfOk result (λ after. IsTimedAlike running.entry.clocked after.clocked) }
    ensures children { IfOk result (λ after. after.children ≡ running.entry.children) }
    ensures left { IfOk result (λ after. after.left ≡ running.entry.left) }
    ensures placed { IfOk result (λ after. IsPlacedIn (W.stands world.new).told after.clocked) }
{
    let Running {
        clocked,
        logs,
        children,
        clients,
        left,
    } = running;
    let what = end_of(child, outcome);
    let clocked = bring(alloc, world, clocked, &[], Some(what), &[])?;
    Ok(Running {
        clocked,
        logs,
        children,
        clients,
        left,
    })
}
