//! The queues of lanes: the ids of each lane's jobs, in order, and of its last Stop. No job is looked at here.
ghost use Rattle.std.specs.Prelude.{◌≡◌, position, slice_get, OnOk, OnErr};
ghost use Rattle.f2b_model.specs.Families.{same_lane};
ghost use Rattle.action_queue.specs.Queues.{is_number, is_queue, ids_of, stop_of, stop_after, stop_without, AreQueues, Added, Dropped, SameIds};

use crate::kinds::is_stop;
use f2b_base::{JobKind, LaneId, NoMemory, Plain};
use std::alloc::Global;
use std::collections::VecDeque;

/// A lane with the ids of its jobs, in order, and the id of the last Stop among them.
#[derive(Drop)]
pub(crate) struct Queue {
    pub(crate) lane: LaneId,
    pub(crate) ids: VecDeque<u64>,
    pub(crate) stop: Option<u64>,
}

/// Whether the id is there, and this one.
pub(crate) fn is_number(number: Option<u64>, id: u64) -> bool
    ensures { result ≡ is_number id number }
{
    match number {
        Some(number) => number == id,
        None => false,
    }
}

/// The last Stop of a lane, once a job of that id and kind stands behind the others.
fn stop_after(id: u64, kind: JobKind, stop: Option<u64>) -> Option<u64>
    ensures { result ≡ stop_after id kind stop }
{
    if is_stop(kind) { Some(id) } else { stop }
}

/// The last Stop of a lane, once that id is gone.
fn stop_without(gone: Option<u64>, stop: Option<u64>) -> Option<u64>
    ensures { result ≡ stop_without gone stop }
{
    match gone {
        Some(id) => if is_number(stop, id) { None } else { stop },
        None => stop,
    }
}

/// Whether two lanes are one.
fn same_lane(a: &LaneId, b: &LaneId) -> bool
    ensures { result ≡ same_lane a.now b.now }
{
    a.jail == b.jail && (a.action == b.action && a.family.same(b.family))
}

/// The place of the lane's queue.
fn place_of(queues: &[Queue], lane: &LaneId) -> Option<usize>
    ensures { result ≡ position (is_queue lane.now) queues.now }
{
    queues.iter().position(|queue| same_lane(&queue.lane, lane))
}

/// The first id, if there is one.
pub(crate) fn front_of(ids: &VecDeque<u64>) -> Option<u64>
    ensures { result ≡ slice_get ids.now.items 0 }
{
    ids.front().copied()
}

/// The id of the lane's first job.
pub(crate) fn first_id(queues: &[Queue], lane: &LaneId) -> Option<u64>
    ensures { result ≡ slice_get (ids_of lane.now queues.now) 0 }
{
    match place_of(queues, lane) {
        Some(place) => front_of(&queues[place].ids),
        None => None,
    }
}

/// The id of the last Stop that waits in the lane.
pub(crate) fn last_stop(queues: &[Queue], lane: &LaneId) -> Option<u64>
    ensures { result ≡ stop_of lane.now queues.now }
{
    match place_of(queues, lane) {
        Some(place) => queues[place].stop,
        None => None,
    }
}

/// Puts the id of a job of that kind behind the others of the lane. After an error each lane has the ids that it had.
pub(crate) fn add(
    alloc: Global,
    queues: &mut Vec<Queue>,
    lane: &LaneId,
    id: u64,
    kind: JobKind,
) -> Result<(), NoMemory>
    ensures ok { OnOk result (Added lane.now id kind queues.old.items queues.new.items) }
    ensures err { OnErr result (SameIds queues.old.items queues.new.items) }
{
    match place_of(queues, lane) {
        Some(place) => {
            let queue = &mut queues[place];
            queue.ids.push_back(id)?;
            queue.stop = stop_after(id, kind, queue.stop);
            Ok(())
        }
        None => {
            let mut ids = VecDeque::new(alloc);
            ids.push_back(id)?;
            let lane = lane.copy()?;
            let stop = stop_after(id, kind, None);
            queues.push(Queue { lane, ids, stop })?;
            Ok(())
        }
    }
}

/// Takes the first id of the lane out, and its queue where that was the last.
pub(crate) fn drop_first(queues: &mut Vec<Queue>, lane: &LaneId)
    ensures { AreQueues queues.old.items → Dropped lane.now queues.old.items queues.new.items }
{
    match place_of(queues, lane) {
        Some(place) => if queues[place].ids.len() > 1 {
            let queue = &mut queues[place];
            let gone = queue.ids.pop_front();
            queue.stop = stop_without(gone, queue.stop);
        } else {
            let _ = queues.remove(place);
        },
        None => {}
    }
}
