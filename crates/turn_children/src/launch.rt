//! What is started next.
ghost use Rattle.std.specs.Prelude.{◌≡◌, None, Some, option_map, IfOk};
ghost use Rattle.f2b_base.specs.declared.job.UpLane.{UpLane};
ghost use Rattle.f2b_model.specs.Checks.{check_of};
ghost use Rattle.run_law.specs.Turn.{start_place};
ghost use Rattle.turn_children.specs.Launches.{IsNextStart, place_for, place_of};

use child_table::{Child, MOST_CHILDREN, Task};
use f2b_base::{Job, NoMemory, Plain, Text};
use jail_core::Core;
use run_steps::Running;

/// A child that is to be started, with its command.
#[derive(Drop)]
pub(crate) struct Launch {
    pub child: Child,
    pub text: Text,
}

// A child for the job, from a moment on.
fn child_of(job: &Job, task: Task, now: u64) -> Child
    ensures { result ≡ record { job = job.now.id; task = task; since = now; timeout = job.now.timeout } }
{
    Child {
        job: job.id,
        task,
        since: now,
        timeout: job.timeout,
    }
}

// The job's own command.
fn command_launch(job: &Job, now: u64) -> Result<Launch, NoMemory>
    ensures { IfOk result (λ launch. place_of launch ≡ start_place now job.now None) }
{
    Ok(Launch {
        child: child_of(job, Task::Command, now),
        // A copy: the job stays with the core, which changes hands at the start.
        text: job.text.copy()?,
    })
}

// The check of its lane, if there is one before a try of the job.
#[tactic(auto, using(crate::proofs::LaunchLemmas::checking))]
fn check_launch(core: &Core, job: &Job, now: u64) -> Result<Option<Launch>, NoMemory>
    ensures { IfOk result (λ o. option_map place_of o ≡ option_map (λ (lane : UpLane). start_place now job.now (Some lane)) (check_of core.now.lanes.up job.now.id core.now.lanes.jobs)) }
{
    match core.check_text(job.id)? {
        Some(text) => Ok(Some(Launch {
            child: child_of(job, Task::Check, now),
            text,
        })),
        None => Ok(None),
    }
}

// What is started for a job: the check of its lane where one comes first, and else its own command.
#[tactic(auto, using(crate::proofs::LaunchLemmas::launching))]
fn launch_for(running: &Running<'_>, job: &Job) -> Result<Launch, NoMemory>
    ensures { IfOk result (λ launch. place_of launch ≡ place_for running.now job.now) }
{
    let now = running.clocked.now;
    if running.children.has_passed(job.id) {
        return command_launch(job, now);
    }
    match check_launch(running.clocked.engine.core(), job, now)? {
        Some(launch) => Ok(launch),
        None => command_launch(job, now),
    }
}

/// What is started next, if a job is due and there is room.
#[tactic(auto, using(crate::proofs::LaunchLemmas::nexts))]
pub(crate) fn next_launch(running: &Running<'_>) -> Result<Option<Launch>, NoMemory>
    ensures { IfOk result (IsNextStart running.now) }
{
    let core = running.clocked.engine.core();
    if running.children.count() >= MOST_CHILDREN {
        return Ok(None);
    }
    let jobs = running.children.jobs()?;
    match core.lanes().next_due(running.clocked.now, jobs.as_slice()) {
        Some(job) => Ok(Some(launch_for(running, job)?)),
        None => Ok(None),
    }
}
