//! A million jobs, and the time that they take: a test has a limit. As `rt try` builds it, it takes longer than that.

use crate::queues::{job_of, lane_of, push, settle};
use crate::rows::{is_so, same};
use action_queue::Lanes;
use f2b_base::{LaneId, NoMemory, Outcome, Plain, Settled};
use std::alloc::Global;
use std::process::Abort;
use std::test::Fail;

const JOBS: u64 = 1_000_000;

/// The actions of the lanes, in which jobs are pushed in turn.
const ACTIONS: [&str; 32] = [
    "a", "b", "c", "d", "e", "f", "g", "h", "i", "j", "k", "l", "m", "n", "o", "p", "q", "r", "s",
    "t", "u", "v", "w", "x", "y", "z", "0", "1", "2", "3", "4", "5",
];

/// How many jobs run at a time.
const RUNNING: usize = 16;

// Starts jobs until as many run as may, or none is left to start.
fn start(lanes: &Lanes, running: &mut Vec<u64>) -> Result<(), NoMemory> {
    for _ in running.len()..RUNNING {
        if let Some(job) = lanes.next_due(1000, running) {
            running.push(job.id)?;
        }
    }
    Ok(())
}

fn lanes_of(alloc: Global, actions: &[&str]) -> Result<Vec<LaneId>, Fail> {
    let mut ids: Vec<LaneId> = Vec::new(alloc);
    for action in actions {
        ids.push(lane_of(alloc, action)?)?;
    }
    Ok(ids)
}

// Pushes a job into the lane whose turn it is.
fn push_into(
    rt: &impl Abort,
    alloc: Global,
    lanes: &mut Lanes,
    ids: &[LaneId],
    id: u64,
) -> Result<(), Fail> {
    match ids.get((id % 32) as usize) {
        Some(lane) => push(rt, alloc, lanes, job_of(alloc, id, lane.copy()?, 1000)),
        None => Err(Fail::from("no lane")),
    }
}

// All jobs, pushed into the lanes in turn.
fn all_pushed(rt: &impl Abort, alloc: Global) -> Result<Lanes, Fail> {
    let ids = lanes_of(alloc, &ACTIONS)?;
    let mut lanes = Lanes::new(alloc);
    for id in 0..JOBS {
        push_into(rt, alloc, &mut lanes, ids.as_slice(), id)?;
    }
    same(rt, "count", lanes.count(), JOBS);
    Ok(lanes)
}

// Settles the job that was started first of those that run.
fn settle_next(
    rt: &impl Abort,
    lanes: &mut Lanes,
    running: &mut Vec<u64>,
    want: u64,
) -> Result<(), Fail> {
    start(lanes, running)?;
    is_so(rt, want, !running.is_empty());
    let id = running.remove(0);
    same(rt, "id", id, want);
    let settled = settle(rt, lanes, id, Outcome::Status(0), 1000);
    same(rt, want, settled, Settled::Done);
    Ok(())
}

#[test]
fn a_million_jobs_settle_within_seconds(rt: HostRuntime) -> Result<(), Fail> {
    let mut lanes = all_pushed(&rt, rt.alloc())?;
    let mut running = Vec::new(rt.alloc());
    for want in 0..JOBS {
        settle_next(&rt, &mut lanes, &mut running, want)?;
    }
    same(&rt, "left", lanes.count(), 0);
    Ok(())
}
