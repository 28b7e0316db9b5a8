//! The commands that a world in memory runs.
ghost use Rattle.std.specs.Prelude.{◌≡◌, ◌≢◌, ◌++◌, ◌∷◌, [], map, option_copied, IsTrue};
ghost use Rattle.f2b_world.specs.declared.answer.PollAnswer.TheVariants.{Failed as PollFailed};
ghost use Rattle.f2b_mem.specs.Commands.{asked, ending, polled, ran_of, ran_step, without};

use crate::counts::counted;
use crate::plans::command_at;
use crate::script::ChildPlan;
use f2b_world::{Event, PollAnswer, StartAnswer};
use std::alloc::Global;

/// A command that runs.
#[derive(Clone, Copy, Debug, PartialEq, Eq)]
pub struct Running {
    pub job: u64,
    /// Its number among the commands that were started, from 0.
    pub number: u64,
    /// How often it was asked for.
    pub polls: u64,
}

/// The commands that run, and how many were started.
#[derive(Drop)]
pub struct Commands {
    pub started: u64,
    pub running: Vec<Running>,
}

// The commands but for that of a job.
fn leave(running: &mut Vec<Running>, job: u64)
    ensures { running.new.items ≡ without job running.old.items }
{
    running.retain(|other| other.job != job);
}

// A command after a job's was asked for.
fn asked(running: Running, job: u64) -> Running
    ensures { result ≡ asked job running }
{
    Running {
        job: running.job,
        number: running.number,
        polls: counted(running.polls, running.job == job),
    }
}

// The commands after a job's was asked for.
fn ask(running: &mut Vec<Running>, job: u64)
    ensures { running.new.items ≡ map (asked job) running.old.items }
{
    for index in 0..running.len() {
        running[index] = asked(running[index], job);
    }
}

// Starts a command, and answers whether there was memory for that.
fn start(running: &mut Vec<Running>, job: u64, number: u64) -> bool
    ensures { IsTrue result → running.new.items ≡ without job running.old.items ++ record { job = job; number = number; polls = 0 } ∷ [] }
{
    leave(running, job);
    let command = Running {
        job,
        number,
        polls: 0,
    };
    running.push(command).is_ok()
}

// What a command answers that was asked for so often before. One without a plan ends with 0.
fn ending(plan: Option<&ChildPlan>, polls: u64) -> PollAnswer
    ensures value { result ≡ ending (option_copied plan.entry) polls }
    ensures cause { result ≢ PollFailed }
{
    let Some(plan) = plan else {
        return PollAnswer::Ended(0);
    };
    if polls < u64::from(plan.polls) {
        return PollAnswer::Running;
    }
    match plan.status {
        Some(status) => PollAnswer::Ended(status),
        None => PollAnswer::Running,
    }
}

/// What the command of a job answers. A job for which none runs ends with 0.
pub fn polled(plans: &[ChildPlan], running: &[Running], job: u64) -> PollAnswer
    ensures value { result ≡ polled plans.now running.now job }
    ensures cause { result ≢ PollFailed }
{
    for command in running {
        if command.job == job {
            let plan = command_at(plans, command.number as usize);
            return ending(plan, command.polls);
        }
    }
    PollAnswer::Ended(0)
}

impl Commands {
    /// None runs yet, and none was started.
    pub fn new(alloc: Global) -> Commands
        ensures started { result.started ≡ 0 }
        ensures running { result.running.items ≡ [] }
    {
        Commands {
            started: 0,
            running: Vec::new(alloc),
        }
    }

    /// Notes what an event did, and answers whether there was memory for that.
    pub fn note(&mut self, event: &Event) -> bool
        ensures { IsTrue result → ran_of self.new.started self.new.running.items ≡ ran_step (ran_of self.old.started self.old.running.items) event.now }
    {
        match event {
            Event::ChildStart {
                job,
                answer: StartAnswer::Started,
                ..
            } => {
                let number = self.started;
                self.started = counted(number, true);
                start(&mut self.running, *job, number)
            }
            Event::ChildPoll { job, .. } => {
                ask(&mut self.running, *job);
                true
            }
            Event::ChildKill { job } => {
                leave(&mut self.running, *job);
                true
            }
            _ => true,
        }
    }
}
