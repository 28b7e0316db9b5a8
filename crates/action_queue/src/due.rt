//! The job to start next: the least id of a lane's first job that is due and does not run.
ghost use Rattle.std.specs.Prelude.{◌≡◌, ◌==◌, slice_get};
ghost use Rattle.std.specs.List.{list_any};
ghost use Rattle.action_queue.specs.Due.{is_due, is_ready_id, is_lesser, better_of, IsLeastDue};
ghost use Rattle.action_queue.specs.Index.{job_at};

use crate::queue::{Queue, front_of};
use f2b_base::Job;
use std::collections::BTreeMap;

/// The least id of a first job that is due and does not run.
pub(crate) fn least_due(
    jobs: &BTreeMap<u64, Job>,
    queues: &[Queue],
    now: u64,
    running: &[u64],
) -> Option<u64>
    ensures { IsLeastDue result now running.now jobs.now.entries queues.now }
{
    let mut best = None;
    for queue in queues {
        best = better(jobs, queue, now, running, best);
    }
    best
}

/// The least id so far, after a queue more.
fn better(
    jobs: &BTreeMap<u64, Job>,
    queue: &Queue,
    now: u64,
    running: &[u64],
    best: Option<u64>,
) -> Option<u64>
    ensures { result ≡ better_of (is_ready_id now running.now jobs.now.entries) (slice_get queue.now.ids.items 0) best }
{
    match front_of(&queue.ids) {
        Some(id) => if is_lesser(id, best) && is_ready(jobs, id, now, running) {
            Some(id)
        } else {
            best
        },
        None => best,
    }
}

/// Whether the id is less than the other, or there is no other.
fn is_lesser(id: u64, other: Option<u64>) -> bool
    ensures { result ≡ is_lesser id other }
{
    match other {
        Some(other) => id < other,
        None => true,
    }
}

/// Whether the job of that id does not run, and is due.
fn is_ready(jobs: &BTreeMap<u64, Job>, id: u64, now: u64, running: &[u64]) -> bool
    ensures { result ≡ is_ready_id now running.now jobs.now.entries id }
{
    !runs(running, id) && is_due(jobs, id, now)
}

/// Whether the job of that id is due.
fn is_due(jobs: &BTreeMap<u64, Job>, id: u64, now: u64) -> bool
    ensures { result ≡ is_due now (job_at id jobs.now.entries) }
{
    match jobs.get(&id) {
        Some(job) => job.due <= now,
        None => false,
    }
}

/// Whether the id is in the list.
fn runs(running: &[u64], id: u64) -> bool
    ensures { result ≡ list_any (λ other. other == id) running.now }
{
    running.iter().any(|other| *other == id)
}
