//! Worked rows of checks: whose job is checked, and what is left where a check fails. A row names its lanes by letters.

use crate::queues::{job_of, lane_of, push, settle};
use crate::rows::same;
use action_queue::{CheckEnd, Lanes};
use f2b_base::{Job, JobKind, Outcome};
use std::alloc::Global;
use std::process::Abort;
use std::test::Fail;

/// What a row does, and what it wants to see.
#[derive(Clone, Copy)]
enum Step {
    /// Pushes the job of that id and kind into a lane.
    Push(u64, &'static str, JobKind),
    /// A try of the job ends at second 1000 with that status.
    Ends(u64, i64),
    /// The check before a try of the job fails.
    Fails(u64, CheckEnd),
    /// Whether the job has a check.
    Checked(u64, bool),
    /// Whether the lane is about to stop.
    Closing(&'static str, bool),
    /// The ids of the jobs that are left.
    Left(&'static [u64]),
}

fn have_ids(rt: &impl Abort, jobs: &[Job], want: &[u64], name: &str) {
    for (job, &id) in jobs.iter().zip(want) {
        same(rt, name, job.id, id);
    }
}

fn see_left(
    rt: &impl Abort,
    alloc: Global,
    lanes: &Lanes,
    want: &[u64],
    name: &str,
) -> Result<(), Fail> {
    let jobs = lanes.jobs(alloc)?;
    same(rt, (name, "jobs"), jobs.len(), want.len());
    have_ids(rt, jobs.as_slice(), want, name);
    Ok(())
}

fn job(alloc: Global, id: u64, action: &str, kind: JobKind) -> Result<Job, Fail> {
    let mut job = job_of(alloc, id, lane_of(alloc, action)?, 1000);
    job.kind = kind;
    Ok(job)
}

fn is_closing(alloc: Global, lanes: &Lanes, action: &str) -> Result<bool, Fail> {
    let lane = lane_of(alloc, action)?;
    Ok(lanes.closing(&lane))
}

fn take_step(
    rt: &impl Abort,
    alloc: Global,
    lanes: &mut Lanes,
    step: Step,
    name: &str,
) -> Result<(), Fail> {
    match step {
        Step::Push(id, action, kind) => {
            return push(rt, alloc, lanes, job(alloc, id, action, kind)?);
        }
        Step::Ends(id, status) => {
            settle(rt, lanes, id, Outcome::Status(status), 1000);
        }
        Step::Fails(id, want) => same(rt, (name, id), lanes.check_failed(id), want),
        Step::Checked(id, want) => same(rt, (name, id), lanes.checked(id).is_some(), want),
        Step::Closing(action, want) => {
            same(rt, (name, action), is_closing(alloc, lanes, action)?, want);
        }
        Step::Left(want) => return see_left(rt, alloc, lanes, want, name),
    }
    Ok(())
}

fn take_row(rt: &impl Abort, alloc: Global, name: &str, steps: &[Step]) -> Result<(), Fail> {
    let mut lanes = Lanes::new(alloc);
    for &step in steps {
        take_step(rt, alloc, &mut lanes, step, name)?;
    }
    Ok(())
}

fn take_rows(rt: &impl Abort, alloc: Global, rows: &[(&str, &[Step])]) -> Result<(), Fail> {
    for (name, steps) in rows {
        take_row(rt, alloc, name, steps)?;
    }
    Ok(())
}

#[test]
fn a_failed_check_voids_its_lane_up_to_a_stop(rt: HostRuntime) -> Result<(), Fail> {
    use JobKind::{Ban, Reban, Start, Stop, Unban};
    use Step::{Checked, Closing, Ends, Fails, Left, Push};
    const ROWS: [(&str, &[Step]); 4] = [
        (
            "the lane is restarted, and a Reban has no check",
            &[
                Push(0, "a", Start),
                Push(1, "a", Ban),
                Checked(0, false),
                Checked(1, false),
                Ends(0, 0),
                Checked(1, true),
                Ends(1, 0),
                Push(2, "a", Ban),
                Push(3, "a", Unban),
                Closing("a", false),
                Fails(2, CheckEnd::Open),
                Left(&[]),
                Push(4, "a", Stop),
                Push(5, "a", Start),
                Push(6, "a", Reban),
                Checked(4, false),
                Ends(4, 0),
                Ends(5, 0),
                Checked(6, false),
                Fails(6, CheckEnd::Unchecked),
                Left(&[6]),
            ],
        ),
        (
            "a stop was asked for while the check ran",
            &[
                Push(2, "a", Ban),
                Push(3, "a", Unban),
                Push(4, "b", Unban),
                Push(5, "a", Unban),
                Push(6, "a", Stop),
                Push(7, "b", Stop),
                Closing("a", true),
                Fails(2, CheckEnd::Closing),
                Left(&[4, 6, 7]),
                Closing("a", true),
                Ends(6, 0),
                Closing("a", false),
                Closing("b", true),
                Fails(4, CheckEnd::Closing),
                Left(&[7]),
            ],
        ),
        (
            "what stands behind the first Stop stays, and a second Stop keeps the lane closing",
            &[
                Push(1, "a", Unban),
                Push(2, "a", Stop),
                Push(3, "a", Start),
                Push(4, "a", Ban),
                Push(5, "a", Stop),
                Fails(1, CheckEnd::Closing),
                Left(&[2, 3, 4, 5]),
                Ends(2, 0),
                Closing("a", true),
                Ends(3, 0),
                Fails(4, CheckEnd::Closing),
                Left(&[5]),
                Ends(5, 1),
                Ends(5, 1),
                Closing("a", true),
                Ends(5, 1),
                Closing("a", false),
            ],
        ),
        (
            "a failed check of a job that is not the first, or is gone, does nothing",
            &[
                Push(1, "a", Ban),
                Push(2, "a", Ban),
                Push(3, "b", Start),
                Push(4, "b", Ban),
                Fails(2, CheckEnd::Unchecked),
                Fails(3, CheckEnd::Unchecked),
                Fails(4, CheckEnd::Unchecked),
                Fails(9, CheckEnd::Unchecked),
                Left(&[1, 2, 3, 4]),
                Ends(1, 1),
                Checked(1, true),
                Fails(1, CheckEnd::Open),
                Left(&[3, 4]),
                Fails(1, CheckEnd::Unchecked),
                Left(&[3, 4]),
            ],
        ),
    ];
    take_rows(&rt, rt.alloc(), &ROWS)
}
