//! The start of one child.
ghost use Rattle.std.specs.Prelude.{◌≡◌, ◌<◌, false, length, Some, IfErr, IfOk};
ghost use Rattle.child_table.specs.Children.{most_children, runs};
ghost use Rattle.run_law.specs.Stages.{HasCause, IsSteady, Moves, MoveFails};
ghost use Rattle.run_law.specs.Turn.{to_starts};
ghost use Rattle.run_steps.specs.Keeping.{IsPlacedIn, KeepsRunning};
ghost use Rattle.turn_children.specs.Launches.{IsNextStart};
ghost use Rattle.turn_children.specs.Starting.{ComesNearer, HasNotStarted, HasStarted, is_check};

use crate::end::take_end;
use crate::launch::Launch;
use child_table::{Child, Task};
use f2b_base::{NoMemory, Outcome};
use f2b_world::{Children, Disk, StartAnswer, World};
use run_law::Status;
use run_steps::Running;
use std::alloc::Global;

// Whether this is a check.
fn is_check(task: Task) -> bool
    ensures { result ≡ is_check task }
{
    match task {
        Task::Check => true,
        Task::Command => false,
    }
}

// The child runs from now on.
fn started<'f>(running: Running<'f>, child: Child) -> Result<Running<'f>, NoMemory>
    requires room { length running.children.running < most_children }
    requires apart { runs child.job running.children ≡ false }
    ensures { IfOk result (HasStarted child running.entry) }
{
    let mut running = running;
    running.children.start(child)?;
    Ok(running)
}

// The child could not be started.
fn not_started<'f>(running: Running<'f>, child: Child) -> Running<'f>
    ensures { HasNotStarted child running.entry result }
{
    let mut running = running;
    running.children.fail_start(child);
    running
}

/// Starts a child, which is what comes next, and tells whether it was a check that could not be started.
#[tactic(auto, using(crate::proofs::StartLemmas::starting, run_law::proofs::CauseLemmas::counting))]
pub(crate) fn start<'f, W: World + Disk + Children>(
    alloc: Global,
    world: &mut W,
    running: Running<'f>,
    launch: &Launch,
) -> Result<(Running<'f>, bool), Status>
    requires next { IsNextStart running (Some launch.now) }
    requires placed { IsPlacedIn (W.stands world.old).told running.clocked }
    ensures ok { IfOk result (λ r. Moves KeepsRunning (W.stands world.old) (W.stands world.new) to_starts to_starts running.entry r.0) }
    ensures err { IfErr result (MoveFails KeepsRunning (W.stands world.old) (W.stands world.new) to_starts running.entry) }
    ensures cause { IfErr result (HasCause (W.stands world.old) (W.stands world.new)) }
    ensures steady { IsSteady (W.stands world.old) (W.stands world.new) }
    ensures nearer { IfOk result (λ r. ComesNearer running.entry r.0 r.1) }
    ensures left { IfOk result (λ r. r.0.left ≡ running.entry.left) }
    ensures placed { IfOk result (λ r. IsPlacedIn (W.stands world.new).told r.0.clocked) }
{
    let child = launch.child;
    match world.child_start(child.job, launch.text.as_str()) {
        StartAnswer::Started => {
            let running = started(running, child)?;
            Ok((running, false))
        }
        StartAnswer::Failed => {
            let running = not_started(running, child);
            let running = take_end(alloc, world, running, child, Outcome::NotStarted)?;
            Ok((running, is_check(child.task)))
        }
        StartAnswer::NoMemory => Err(Status::NoMemory),
    }
}
