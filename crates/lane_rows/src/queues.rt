//! Worked rows: tries and their pauses, lanes and their order, and the last moment. A row names its lanes by letters.

mod checks;
mod many;

use crate::rows::{is_so, same};
use action_queue::Lanes;
use f2b_base::{Family, Job, JobKind, LAST_MOMENT, LaneId, Outcome, Settled, Text};
use std::alloc::Global;
use std::process::Abort;
use std::test::Fail;

/// What a row does, and what it wants to see.
#[derive(Clone, Copy)]
enum Step {
    /// Pushes the job of that id into a lane, due at a moment.
    Push(u64, &'static str, u64),
    /// A try of the job ends at a moment.
    Ends(u64, Outcome, u64, Settled),
    /// The id of the job to start next at a moment, where these run.
    Next(u64, &'static [u64], Option<u64>),
    /// How many jobs are not settled.
    Count(u64),
}

// The lane of an action in the jail sshd.
pub(crate) fn lane_of(alloc: Global, action: &str) -> Result<LaneId, Fail> {
    Ok(LaneId {
        jail: Text::from_str(alloc, "sshd")?,
        action: Text::from_str(alloc, action)?,
        family: Family::Both,
    })
}

pub(crate) fn job_of(alloc: Global, id: u64, lane: LaneId, due: u64) -> Job {
    Job {
        id,
        lane,
        kind: JobKind::Ban,
        addr: None,
        text: Text::new(alloc),
        timeout: 60,
        tries: 0,
        due,
    }
}

// Pushes a job, whose id is the greatest.
pub(crate) fn push(
    rt: &impl Abort,
    alloc: Global,
    lanes: &mut Lanes,
    job: Job,
) -> Result<(), Fail> {
    is_so(rt, job.id, lanes.is_above_all(job.id));
    Ok(lanes.push(alloc, job)?)
}

// Ends a try of a job, which is the first of its lane.
pub(crate) fn settle(
    rt: &impl Abort,
    lanes: &mut Lanes,
    id: u64,
    outcome: Outcome,
    now: u64,
) -> Settled {
    is_so(rt, id, lanes.is_head(id));
    is_so(rt, now, now <= LAST_MOMENT);
    lanes.settle(id, outcome, now)
}

// Pushes the job of an id into the lane of an action.
fn push_into(
    rt: &impl Abort,
    alloc: Global,
    lanes: &mut Lanes,
    id: u64,
    action: &str,
    due: u64,
) -> Result<(), Fail> {
    let lane = lane_of(alloc, action)?;
    push(rt, alloc, lanes, job_of(alloc, id, lane, due))
}

// The id of the job to start next.
fn next_of(lanes: &Lanes, now: u64, running: &[u64]) -> Option<u64> {
    let job = lanes.next_due(now, running)?;
    Some(job.id)
}

fn take_step(
    rt: &impl Abort,
    alloc: Global,
    lanes: &mut Lanes,
    step: Step,
    name: &str,
) -> Result<(), Fail> {
    match step {
        Step::Push(id, action, due) => return push_into(rt, alloc, lanes, id, action, due),
        Step::Ends(id, outcome, now, want) => {
            same(
                rt,
                (name, id, now),
                settle(rt, lanes, id, outcome, now),
                want,
            );
        }
        Step::Next(now, running, want) => {
            same(rt, (name, now), next_of(lanes, now, running), want);
        }
        Step::Count(want) => same(rt, name, lanes.count(), want),
    }
    Ok(())
}

fn take_row(rt: &impl Abort, alloc: Global, name: &str, steps: &[Step]) -> Result<(), Fail> {
    let mut lanes = Lanes::new(alloc);
    for &step in steps {
        take_step(rt, alloc, &mut lanes, step, name)?;
    }
    Ok(())
}

fn take_rows(rt: &impl Abort, alloc: Global, rows: &[(&str, &[Step])]) -> Result<(), Fail> {
    for (name, steps) in rows {
        take_row(rt, alloc, name, steps)?;
    }
    Ok(())
}

const FAILED: Outcome = Outcome::Status(1);

const SUCCEEDED: Outcome = Outcome::Status(0);

#[test]
fn a_job_has_three_tries(rt: HostRuntime) -> Result<(), Fail> {
    use Step::{Count, Ends, Next, Push};
    const ROWS: [(&str, &[Step]); 4] = [
        (
            "the third try succeeds",
            &[
                Push(7, "a", 1000),
                Next(999, &[], None),
                Next(1000, &[], Some(7)),
                Next(1000, &[7], None),
                Ends(7, FAILED, 1001, Settled::Again(1003)),
                Next(1002, &[], None),
                Next(1003, &[], Some(7)),
                Ends(7, FAILED, 1004, Settled::Again(1008)),
                Next(1007, &[], None),
                Next(1008, &[], Some(7)),
                Count(1),
                Ends(7, SUCCEEDED, 1008, Settled::Done),
                Count(0),
                Next(LAST_MOMENT, &[], None),
            ],
        ),
        (
            "the third try fails",
            &[
                Push(7, "a", 1000),
                Ends(7, FAILED, 1001, Settled::Again(1003)),
                Ends(7, FAILED, 1004, Settled::Again(1008)),
                Ends(7, FAILED, 1009, Settled::GivenUp),
                Count(0),
                Next(LAST_MOMENT, &[], None),
            ],
        ),
        (
            "no try starts, and the next job of the lane follows",
            &[
                Push(7, "a", 1000),
                Push(8, "a", 1000),
                Ends(7, Outcome::NotStarted, 1000, Settled::Again(1002)),
                Ends(7, Outcome::NotStarted, 1002, Settled::Again(1006)),
                Next(1005, &[], None),
                Ends(7, Outcome::NotStarted, 1006, Settled::GivenUp),
                Count(1),
                Next(1006, &[], Some(8)),
            ],
        ),
        (
            "a timeout and a signal are failures, whatever the number",
            &[
                Push(1, "a", 0),
                Ends(1, Outcome::TimedOut, 60, Settled::Again(62)),
                Ends(1, Outcome::Status(137), 62, Settled::Again(66)),
                Ends(1, Outcome::Status(-1), 66, Settled::GivenUp),
            ],
        ),
    ];
    take_rows(&rt, rt.alloc(), &ROWS)
}

#[test]
fn lanes_do_not_wait_for_each_other(rt: HostRuntime) -> Result<(), Fail> {
    use Step::{Count, Ends, Next, Push};
    const ROWS: [(&str, &[Step]); 4] = [
        (
            "of equal moments the least id comes first, and one job of a lane at a time",
            &[
                Push(10, "a", 100),
                Push(11, "b", 100),
                Push(12, "a", 100),
                Push(13, "c", 100),
                Next(100, &[], Some(10)),
                Next(100, &[10], Some(11)),
                Next(100, &[11, 10], Some(13)),
                Next(100, &[13, 10, 11], None),
                Next(100, &[12, 14], Some(10)),
                Ends(11, SUCCEEDED, 100, Settled::Done),
                Next(100, &[10], Some(13)),
                Ends(10, SUCCEEDED, 101, Settled::Done),
                Next(101, &[], Some(12)),
                Count(2),
            ],
        ),
        (
            "a later moment of an earlier job does not hold others up",
            &[
                Push(1, "a", 200),
                Push(2, "b", 150),
                Push(3, "c", 100),
                Next(99, &[], None),
                Next(100, &[], Some(3)),
                Next(150, &[], Some(2)),
                Next(200, &[], Some(1)),
            ],
        ),
        (
            "a job that waits keeps its lane waiting",
            &[
                Push(1, "a", 100),
                Push(2, "a", 100),
                Push(3, "b", 100),
                Ends(1, Outcome::TimedOut, 160, Settled::Again(162)),
                Next(161, &[], Some(3)),
                Next(161, &[3], None),
                Next(162, &[3], Some(1)),
                Ends(3, SUCCEEDED, 163, Settled::Done),
                Ends(1, FAILED, 163, Settled::Again(167)),
                Ends(1, FAILED, 167, Settled::GivenUp),
                Next(167, &[], Some(2)),
                Ends(2, FAILED, 167, Settled::Again(169)),
            ],
        ),
        (
            "no moment is later than the last",
            &[
                Push(1, "a", LAST_MOMENT),
                Push(2, "b", 0),
                Next(LAST_MOMENT - 1, &[2], None),
                Ends(2, FAILED, LAST_MOMENT - 2, Settled::Again(LAST_MOMENT)),
                Ends(1, FAILED, LAST_MOMENT, Settled::Again(LAST_MOMENT)),
                Next(LAST_MOMENT, &[], Some(1)),
                Ends(2, FAILED, LAST_MOMENT - 4, Settled::Again(LAST_MOMENT)),
                Ends(1, FAILED, LAST_MOMENT - 5, Settled::Again(LAST_MOMENT - 1)),
                Next(LAST_MOMENT - 1, &[], Some(1)),
            ],
        ),
    ];
    take_rows(&rt, rt.alloc(), &ROWS)
}

/// A lane of the action `a`.
#[derive(Clone, Copy)]
enum Which {
    Named,
    OfOtherJail,
    OfOtherFamily,
}

fn lane(alloc: Global, which: Which) -> Result<LaneId, Fail> {
    let mut lane = lane_of(alloc, "a")?;
    match which {
        Which::Named => (),
        Which::OfOtherJail => lane.jail = Text::from_str(alloc, "nginx")?,
        Which::OfOtherFamily => lane.family = Family::Inet6,
    }
    Ok(lane)
}

fn push_each(
    rt: &impl Abort,
    alloc: Global,
    lanes: &mut Lanes,
    rows: &[(u64, Which)],
) -> Result<(), Fail> {
    for &(id, which) in rows {
        let lane = lane(alloc, which)?;
        push(rt, alloc, lanes, job_of(alloc, id, lane, 100))?;
    }
    Ok(())
}

// The id of the first job of a lane.
fn head_of(lanes: &Lanes, lane: &LaneId) -> Option<u64> {
    let job = lanes.head(lane)?;
    Some(job.id)
}

/// Rows of a lane and the id of its first job.
fn are_heads(
    rt: &impl Abort,
    alloc: Global,
    lanes: &Lanes,
    rows: &[(Which, u64)],
) -> Result<(), Fail> {
    for &(which, want) in rows {
        let lane = lane(alloc, which)?;
        same(rt, want, head_of(lanes, &lane), Some(want));
    }
    Ok(())
}

fn are_each(rt: &impl Abort, jobs: &[Job], rows: &[(u64, u8, u64)]) {
    for (job, row) in jobs.iter().zip(rows) {
        same(rt, job.id, (job.id, job.tries, job.due), *row);
    }
}

/// Rows of a job's id, its tries and when it is due.
fn are_jobs(
    rt: &impl Abort,
    alloc: Global,
    lanes: &Lanes,
    rows: &[(u64, u8, u64)],
) -> Result<(), Fail> {
    let jobs = lanes.jobs(alloc)?;
    same(rt, "count", jobs.len(), rows.len());
    are_each(rt, jobs.as_slice(), rows);
    Ok(())
}

const PUSHED: [(u64, Which); 4] = [
    (1, Which::Named),
    (2, Which::OfOtherJail),
    (3, Which::OfOtherFamily),
    (9, Which::Named),
];

const HEADS: [(Which, u64); 3] = [
    (Which::Named, 1),
    (Which::OfOtherJail, 2),
    (Which::OfOtherFamily, 3),
];

const JOBS: [(u64, u8, u64); 4] = [(1, 1, 102), (2, 0, 100), (3, 0, 100), (9, 0, 100)];

#[test]
fn finds_heads_of_lanes(rt: HostRuntime) -> Result<(), Fail> {
    let alloc = rt.alloc();
    let mut lanes = Lanes::new(alloc);
    push_each(&rt, alloc, &mut lanes, &PUSHED)?;
    are_heads(&rt, alloc, &lanes, &HEADS)?;
    let unused = lane_of(alloc, "b")?;
    same(&rt, "b", lanes.head(&unused), None);
    settle(&rt, &mut lanes, 1, FAILED, 100);
    are_jobs(&rt, alloc, &lanes, &JOBS)
}

/// The id of a job.
fn found(lanes: &Lanes, id: u64) -> Option<u64> {
    let job = lanes.find(id)?;
    Some(job.id)
}

/// Rows of an id, the id of the job that it finds, whether that is the first of its lane, and whether it is greater than all.
fn are_found(rt: &impl Abort, lanes: &Lanes, rows: &[(u64, Option<u64>, bool, bool)]) {
    for &(id, want, is_head, is_above) in rows {
        let facts = (found(lanes, id), lanes.is_head(id), lanes.is_above_all(id));
        same(rt, id, facts, (want, is_head, is_above));
    }
}

const FOUND: [(u64, Option<u64>, bool, bool); 3] = [
    (9, Some(9), false, false),
    (4, None, false, false),
    (10, None, false, true),
];

#[test]
fn finds_jobs(rt: HostRuntime) -> Result<(), Fail> {
    let alloc = rt.alloc();
    let mut lanes = Lanes::new(alloc);
    push_each(&rt, alloc, &mut lanes, &PUSHED)?;
    are_found(&rt, &lanes, &FOUND);
    Ok(())
}
