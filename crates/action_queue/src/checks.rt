//! The check of a lane: whether a job has one, and the jobs that it voids where it fails.
ghost use Rattle.std.specs.Prelude.{◌≡◌, ◌&&◌, if◌then◌else◌, Some, None, is_some, slice_get};
ghost use Rattle.std.specs.Option.{ForSome, option_copied};
ghost use Rattle.f2b_model.specs.Checks.{has_check};
ghost use Rattle.action_queue.specs.declared.checks.CheckEnd.TheVariants.{Closing, Open};
ghost use Rattle.action_queue.specs.Checks.{end_in, goes, void_front, IsChecked, Voids};
ghost use Rattle.action_queue.specs.Index.{jobs_of, job_at, IsIndex};
ghost use Rattle.action_queue.specs.Queues.{is_number, ids_of, stop_of};

use crate::entries::take_out;
use crate::kinds::{has_check, is_stop};
use crate::queue::{Queue, first_id, is_number, last_stop};
use f2b_base::{Job, LaneId};
use std::collections::BTreeMap;

/// What a failed check did to a lane.
#[derive(Clone, Copy, Debug, PartialEq, Eq)]
pub enum CheckEnd {
    /// No lane was checked for that job: nothing changed.
    Unchecked,
    /// A Stop of the lane waits, and the jobs before it are gone.
    Closing,
    /// All jobs of the lane are gone.
    Open,
}

/// Whether the job, of that id, is the first of its lane and of a kind that is checked.
pub(crate) fn is_checked(job: &Job, queues: &[Queue], id: u64) -> bool
    ensures { result ≡ (is_number id (slice_get (ids_of job.now.lane queues.now) 0) && has_check job.now.kind) }
{
    is_number(first_id(queues, &job.lane), id) && has_check(job.kind)
}

/// The lane of a job, of that id, where it is checked.
pub(crate) fn checked_lane<'a>(job: &'a Job, queues: &[Queue], id: u64) -> Option<&'a LaneId>
    ensures { option_copied result ≡ (if is_number id (slice_get (ids_of job.now.lane queues.now) 0) && has_check job.now.kind then Some job.now.lane else None) }
{
    if is_checked(job, queues, id) {
        Some(&job.lane)
    } else {
        None
    }
}

/// Voids a job that is checked and those behind it, up to its lane's first Stop, and says what that did to the lane.
pub(crate) fn fail(jobs: &mut BTreeMap<u64, Job>, queues: &mut Vec<Queue>, id: u64) -> CheckEnd
    requires index { IsIndex jobs.old.entries queues.old.items }
    requires checked { ForSome (job_at id jobs.old.entries) (λ job. IsChecked id job jobs.old.entries) }
    ensures jobs { ForSome (job_at id jobs.old.entries) (λ job. Voids job.lane jobs.old.entries jobs.new.entries queues.new.items) }
    ensures answer { ForSome (job_at id jobs.old.entries) (λ job. result ≡ end_in (Some job.lane) (jobs_of jobs.old.entries)) }
{
    match take_out(jobs, queues, id) {
        Some(job) => {
            void(jobs, queues, &job.lane);
            end_of(queues, &job.lane)
        }
        None => CheckEnd::Unchecked,
    }
}

/// What it did to the lane, whose jobs are gone up to its first Stop.
fn end_of(queues: &[Queue], lane: &LaneId) -> CheckEnd
    ensures { result ≡ (if is_some (stop_of lane.now queues.now) then Closing else Open) }
{
    if is_closing(queues, lane) {
        CheckEnd::Closing
    } else {
        CheckEnd::Open
    }
}

/// Whether a Stop waits in the lane.
pub(crate) fn is_closing(queues: &[Queue], lane: &LaneId) -> bool
    ensures { result ≡ is_some (stop_of lane.now queues.now) }
{
    last_stop(queues, lane).is_some()
}

/// Takes the jobs of the lane out, up to its first Stop.
fn void(jobs: &mut BTreeMap<u64, Job>, queues: &mut Vec<Queue>, lane: &LaneId)
    requires { IsIndex jobs.old.entries queues.old.items }
    ensures { Voids lane.now jobs.old.entries jobs.new.entries queues.new.items }
{
    while let Some(id) = first_void(jobs, queues, lane) {
        let _ = take_out(jobs, queues, id);
    }
}

/// The id of the lane's first job, where that is no Stop.
fn first_void(jobs: &BTreeMap<u64, Job>, queues: &[Queue], lane: &LaneId) -> Option<u64>
    ensures { result ≡ void_front jobs.now.entries (slice_get (ids_of lane.now queues.now) 0) }
{
    match first_id(queues, lane) {
        Some(id) => if goes(jobs, id) { Some(id) } else { None },
        None => None,
    }
}

/// Whether the job of that id is there, and no Stop.
fn goes(jobs: &BTreeMap<u64, Job>, id: u64) -> bool
    ensures { result ≡ goes (job_at id jobs.now.entries) }
{
    match jobs.get(&id) {
        Some(job) => !is_stop(job.kind),
        None => false,
    }
}
