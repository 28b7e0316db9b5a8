//! A disk in memory, and what an engine shows that is loaded of it.
ghost use Rattle.std.specs.Prelude.{◌≡◌, [], IfOk};

use f2b_base::{Bytes, NoMemory, Seq, View};
use f2b_mem::{Image, MemWorld, Script};
use f2b_world::Disk;
use reconcile::{Engine, LoadError};
use std::alloc::Global;
use std::process::Abort;
use std::test::Fail;

// Of the slots of this image, where the calls at these places fail.
fn script(alloc: Global, image: Image, fails: &[u64]) -> Result<Script, NoMemory>
    ensures { IfOk result (λ script. script.clients ≡ []) }
{
    Ok(Script {
        readings: Seq::new(alloc),
        trees: Seq::new(alloc),
        changes: Seq::new(alloc),
        children: Seq::new(alloc),
        clients: Seq::new(alloc),
        fails: Seq::from(fails.to_vec(alloc)?),
        image,
    })
}

/// A disk whose slots hold these bytes, and whose calls at these places fail.
pub(crate) fn disk(
    alloc: Global,
    slot0: &[u8],
    slot1: &[u8],
    fails: &[u64],
) -> Result<MemWorld, Fail> {
    let image = Image {
        slot0: Bytes::from_slice(alloc, slot0)?,
        slot1: Bytes::from_slice(alloc, slot1)?,
    };
    Ok(MemWorld::new(alloc, script(alloc, image, fails)?)?)
}

/// The disk as a stop leaves it that comes once so many calls were made, where of each slot's unsynced bytes so many were kept and the
/// others are this.
pub(crate) fn after_stop(
    alloc: Global,
    world: &MemWorld,
    at: u64,
    keep: u32,
    fill: u8,
) -> Result<MemWorld, Fail> {
    if !world.is_told() || at > world.events().len() as u64 {
        return Err("not told".into());
    }
    let image = world.torn(at, keep, fill)?;
    let script = script(alloc, image, &[])?;
    Ok(MemWorld::new(alloc, script)?)
}

/// The view of the engine that a disk gives.
pub(crate) fn view_of<D: Disk>(alloc: Global, disk: &mut D, limit: u64) -> Result<View, LoadError> {
    let engine = Engine::load(alloc, disk, limit)?;
    let view = engine.core().view()?;
    Ok(view)
}

/// The same where it is loaded.
pub(crate) fn loaded_view(alloc: Global, world: &mut MemWorld, limit: u64) -> Result<View, Fail> {
    match view_of(alloc, world, limit) {
        Ok(view) => Ok(view),
        Err(_) => Err("not loaded".into()),
    }
}

/// What the view shows of the engine that a disk gives.
pub(crate) fn shown_of<D: Disk>(
    alloc: Global,
    disk: &mut D,
    limit: u64,
) -> Result<Shown, LoadError> {
    let view = view_of(alloc, disk, limit)?;
    Ok(as_shown(&view))
}

/// How many calls load the engine of a slot 0.
pub(crate) fn calls(alloc: Global, slot0: &[u8], limit: u64) -> Result<u64, Fail> {
    let mut world = disk(alloc, slot0, &[], &[])?;
    let Ok(_) = shown_of(alloc, &mut world, limit) else {
        return Err("not loaded".into());
    };
    Ok(world.events().len() as u64)
}

/// Whether the engine that a disk gives has one of two views.
pub(crate) fn has_either<D: Disk>(
    alloc: Global,
    disk: &mut D,
    limit: u64,
    views: (&View, &View),
) -> Result<bool, LoadError> {
    let view = view_of(alloc, disk, limit)?;
    Ok(view == *views.0 || view == *views.1)
}

/// How many of the unsynced bytes a stop keeps, and what the others are.
const TEARS: [(u32, u8); 6] = [
    (0, 0),
    (0, 255),
    (1, 0),
    (1, 255),
    (u32::MAX, 0),
    (u32::MAX, 255),
];

/// A stop once so many calls were made: the engine that is loaded then has the one view or the other.
pub(crate) fn is_either(
    rt: &impl Abort,
    alloc: Global,
    name: &str,
    world: &MemWorld,
    at: u64,
    limit: u64,
    views: (&View, &View),
) -> Result<(), Fail> {
    for &(keep, fill) in &TEARS {
        let mut torn = after_stop(alloc, world, at, keep, fill)?;
        let is = has_either(alloc, &mut torn, limit, views);
        assert_eq!(rt; is, Ok(true), "{name}, {at}, {keep}, {fill}");
    }
    Ok(())
}

/// What a view shows, in numbers, of all jails together.
#[derive(Clone, Copy, Debug, PartialEq, Eq)]
pub(crate) struct Shown {
    pub at: u64,
    pub stopping: bool,
    pub jails: u64,
    pub failures: u64,
    pub bans: u64,
    pub past: u64,
}

/// The view before the first configuration.
pub(crate) const NOTHING: Shown = Shown {
    at: 0,
    stopping: false,
    jails: 0,
    failures: 0,
    bans: 0,
    past: 0,
};

/// What a view shows.
pub(crate) fn as_shown(view: &View) -> Shown {
    let mut shown = Shown {
        at: view.at,
        stopping: view.stopping,
        jails: view.jails.len() as u64,
        ..NOTHING
    };
    for jail in view.jails.as_slice() {
        shown.failures = shown.failures.saturating_add(jail.failures.len() as u64);
        shown.bans = shown.bans.saturating_add(jail.bans.len() as u64);
        shown.past = shown.past.saturating_add(jail.past.len() as u64);
    }
    shown
}
