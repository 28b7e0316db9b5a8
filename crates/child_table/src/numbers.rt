//! Numbers of jobs: those that run, and those whose check has passed.
ghost use Rattle.std.specs.Prelude.{◌≡◌, IfOk};
ghost use Rattle.child_table.specs.Children.{has, jobs_of, used_by, without};

use crate::child::{Child, Task};
use f2b_base::{NoMemory, Seq};
use std::alloc::Global;

/// Whether a number is among these.
pub(crate) fn has(jobs: &[u64], job: u64) -> bool
    ensures { result ≡ has job jobs.now }
{
    jobs.iter().any(|other| *other == job)
}

/// Takes a number out.
fn take_out(jobs: &mut Seq<u64>, job: u64)
    ensures { jobs.new ≡ without job jobs.old }
{
    jobs.retain(|other| *other != job);
}

/// Takes out the number of a child's job, if the child is the job's command.
pub(crate) fn use_by(passed: &mut Seq<u64>, child: Child)
    ensures { passed.new ≡ used_by child.task child.job passed.old }
{
    match child.task {
        Task::Check => {}
        Task::Command => take_out(passed, child.job),
    }
}

/// The numbers of the jobs that these run for.
#[tactic(auto, using(crate::proofs::PlaceLemmas::jobs_more))]
pub(crate) fn jobs_of(alloc: Global, children: &[Child]) -> Result<Seq<u64>, NoMemory>
    ensures { IfOk result (λ jobs. jobs ≡ jobs_of children.now) }
{
    let mut jobs = Seq::new(alloc);
    for child in children {
        jobs.push(child.job)?;
    }
    Ok(jobs)
}
