//! What a stop leaves of the worked run, as the view that it opens to.
//!
//! The inputs of the run are read from the slot that it leaves at its end. A core that takes them, one by one and from the state before
//! the first configuration on, has the views that a stop may leave.
ghost use Rattle.ban_journal.specs.Loads.{AreThere};
ghost use Rattle.f2b_model.specs.Storable.{IsStorableInput};

use crate::seen::same;
use crate::worked::{WORDS, WORDS_SHORT, quiet, run_whole, torn};
use ban_journal::{Journal, LoadError, StoredInputs};
use f2b_base::{Input, NoMemory, Seq, View};
use f2b_mem::{Image, MemWorld};
use f2b_world::{Disk, Event};
use jail_core::Core;
use reconcile::Engine;
use std::alloc::Global;
use std::process::Abort;
use std::test::Fail;

/// How long a slot may be.
const LIMIT: u64 = 67_108_864;

/// A core that takes an input.
fn after(core: Core, input: Input) -> Result<Core, NoMemory>
    requires { IsStorableInput input }
{
    let (after, _told) = core.take(&input)?;
    Ok(after)
}

/// The views of a core, as it is and behind each of these inputs.
fn views<D: Disk>(
    alloc: Global,
    disk: &mut D,
    core: Core,
    inputs: StoredInputs,
) -> Result<Seq<View>, LoadError>
    requires { AreThere inputs (D.stands disk.old).told }
{
    let mut views = Seq::new(alloc);
    let mut core = core;
    let mut inputs = inputs;
    views.push(core.view()?)?;
    'inputs: for _ in 0..99 {
        let Some(input) = inputs.next(alloc, disk)? else {
            return Ok(views);
        };
        core = after(core, input)?;
        views.push(core.view()?)?;
    }
    Ok(views)
}

/// The same of what slots hold.
fn stored_views<D: Disk>(alloc: Global, disk: &mut D) -> Result<Seq<View>, LoadError> {
    let loaded = Journal::load(alloc, disk, LIMIT)?;
    let core = Core::of(alloc, &loaded.view)?;
    views(alloc, disk, core, loaded.inputs)
}

fn disk(alloc: Global, image: Image) -> Result<MemWorld, Fail> {
    Ok(MemWorld::new(alloc, quiet(alloc, image))?)
}

/// The views of the worked run.
fn views_of(alloc: Global) -> Result<Seq<View>, Fail> {
    let world = run_whole(alloc, WORDS)?;
    let image = torn(&world, world.events().len(), u32::MAX, 0)?;
    let mut disk = disk(alloc, image)?;
    let views = stored_views(alloc, &mut disk)?;
    Ok(views)
}

/// The view that slots open to.
fn opened<D: Disk>(alloc: Global, disk: &mut D) -> Result<View, LoadError> {
    let engine = Engine::load(alloc, disk, LIMIT)?;
    let view = engine.core().view()?;
    Ok(view)
}

/// The first two of the views that are left: behind the inputs so far, and behind one more, if that is being written.
fn meant(views: &[View], open: bool) -> &[View] {
    let most = if open { 2 } else { 1 };
    views.get(..most).unwrap_or(views)
}

/// How many of the unsynced bytes a stop keeps, and what the others are.
const TEARS: [(u32, u8); 6] = [
    (0, 0),
    (0, 255),
    (1, 0),
    (1, 255),
    (u32::MAX, 0),
    (u32::MAX, 255),
];

/// How a stop tears the slots: in one way where all is synced.
fn tears(writing: bool) -> &'static [(u32, u8)] {
    if writing {
        return &TEARS;
    }
    &TEARS[..1]
}

/// Whether a stop once so many calls were made, which tears the slots so, opens to one of these views.
fn is_meant(
    alloc: Global,
    world: &MemWorld,
    calls: usize,
    tear: (u32, u8),
    meant: &[View],
) -> Result<bool, Fail> {
    let mut disk = disk(alloc, torn(world, calls, tear.0, tear.1)?)?;
    let view = opened(alloc, &mut disk)?;
    Ok(meant.contains(&view))
}

fn each_tear(
    rt: &impl Abort,
    alloc: Global,
    world: &MemWorld,
    calls: usize,
    tears: &[(u32, u8)],
    meant: &[View],
) -> Result<(), Fail> {
    for &tear in tears {
        let is = is_meant(alloc, world, calls, tear, meant)?;
        same(rt, calls, &is, &true);
    }
    Ok(())
}

/// Whether a stop behind a call leaves or has said anything else than one before it.
fn is_new(event: &Event) -> bool {
    matches!(
        event,
        Event::Say { .. }
            | Event::ChildStart { .. }
            | Event::GateWrite { .. }
            | Event::DiskWrite { .. }
            | Event::DiskSync { .. }
    )
}

/// Whether a call writes an input.
fn writes(event: Option<&Event>) -> bool {
    matches!(
        event,
        Some(Event::DiskWrite { .. } | Event::DiskSync { .. })
    )
}

/// A stop behind each call, where the views are these: behind the last call that writes an input that one is closed.
fn each_stop(rt: &impl Abort, alloc: Global, world: &MemWorld, views: &[View]) -> Result<(), Fail> {
    let events = world.events();
    let mut left = views;
    for (at, event) in events.iter().enumerate() {
        let calls = at.saturating_add(1);
        let writing = writes(Some(event));
        let open = writing && writes(events.get(calls));
        if writing && !open {
            same(rt, calls, &(left.first() == left.get(1)), &false);
            left = left.get(1..).unwrap_or(left);
        }
        if is_new(event) {
            each_tear(rt, alloc, world, calls, tears(writing), meant(left, open))?;
        }
    }
    same(rt, events.len(), &left.len(), &1);
    Ok(())
}

#[test]
fn a_stop_leaves_the_view_of_the_inputs_so_far_or_of_one_more(rt: HostRuntime) -> Result<(), Fail> {
    let views = views_of(rt.alloc())?;
    let world = run_whole(rt.alloc(), WORDS)?;
    each_stop(&rt, rt.alloc(), &world, views.as_slice())
}

#[test]
fn it_leaves_it_where_the_slots_are_changed_too(rt: HostRuntime) -> Result<(), Fail> {
    let views = views_of(rt.alloc())?;
    let world = run_whole(rt.alloc(), WORDS_SHORT)?;
    each_stop(&rt, rt.alloc(), &world, views.as_slice())
}
