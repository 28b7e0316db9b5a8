//! A disk in memory, and what it has stored.
ghost use Rattle.std.specs.Prelude.{◌≡◌, [], IfOk};

use ban_journal::{Journal, LoadError, Loaded};
use f2b_base::{Bytes, Input, NoMemory, Seq};
use f2b_mem::{Image, MemWorld, Script};
use f2b_world::Disk;
use std::alloc::Global;
use std::test::Fail;

// Of the slots of this image, where the calls at these places fail.
fn script(alloc: Global, image: Image, fails: &[u64]) -> Result<Script, NoMemory>
    ensures { IfOk result (λ script. script.clients ≡ []) }
{
    Ok(Script {
        readings: Seq::new(alloc),
        trees: Seq::new(alloc),
        changes: Seq::new(alloc),
        children: Seq::new(alloc),
        clients: Seq::new(alloc),
        fails: Seq::from(fails.to_vec(alloc)?),
        image,
    })
}

/// A disk whose slots hold these bytes, and whose calls at these places fail.
pub(crate) fn disk(
    alloc: Global,
    slot0: &[u8],
    slot1: &[u8],
    fails: &[u64],
) -> Result<MemWorld, Fail> {
    let image = Image {
        slot0: Bytes::from_slice(alloc, slot0)?,
        slot1: Bytes::from_slice(alloc, slot1)?,
    };
    Ok(MemWorld::new(alloc, script(alloc, image, fails)?)?)
}

/// What a journal has stored, as a row has it.
#[derive(Clone, Copy, Debug, PartialEq, Eq)]
pub(crate) struct Stored {
    pub generation: u64,
    /// The next id of the view, by which rows tell views apart.
    pub next_job: u64,
    /// How many inputs there are.
    pub inputs: u64,
    /// The moments of the inputs, added up.
    pub secs: u64,
}

/// No slot is open.
pub(crate) const NOTHING: Stored = Stored {
    generation: 0,
    next_job: 0,
    inputs: 0,
    secs: 0,
};

// The same, and an input more.
fn and_input(stored: Stored, input: &Input) -> Stored {
    Stored {
        inputs: stored.inputs.saturating_add(1),
        secs: stored.secs.saturating_add(input.secs),
        ..stored
    }
}

/// What a disk has stored.
pub(crate) fn all_stored<D: Disk>(alloc: Global, disk: &mut D) -> Result<Stored, LoadError> {
    let Loaded {
        journal,
        view,
        inputs,
    } = Journal::load(alloc, disk, u64::MAX)?;
    let mut inputs = inputs;
    let mut stored = Stored {
        generation: journal.generation(),
        next_job: view.next_job,
        ..NOTHING
    };
    'reads: for _ in 0..1000 {
        let Some(input) = inputs.next(alloc, disk)? else {
            return Ok(stored);
        };
        stored = and_input(stored, &input);
    }
    Ok(stored)
}

/// What two slots have stored.
pub(crate) fn stored_in(
    alloc: Global,
    slot0: &[u8],
    slot1: &[u8],
) -> Result<Result<Stored, LoadError>, Fail> {
    let mut world = disk(alloc, slot0, slot1, &[])?;
    Ok(all_stored(alloc, &mut world))
}

/// How a stop tears what was not synced: how many of its bytes were kept, what the others are, and whether the file is as long as it
/// was before the last write.
#[derive(Clone, Copy, Debug)]
pub(crate) struct Tear {
    pub keep: u32,
    pub fill: u8,
    pub short: bool,
}

// What a stop leaves once so many calls were made.
fn torn(world: &MemWorld, at: u64, keep: u32, fill: u8) -> Result<Image, Fail> {
    if !world.is_told() || at > world.events().len() as u64 {
        return Err("not told".into());
    }
    Ok(world.torn(at, keep, fill)?)
}

// Slots that are cut to the lengths that they had.
fn cut(image: Image, was: &Image) -> Image {
    let mut image = image;
    image.slot0.truncate(was.slot0.len());
    image.slot1.truncate(was.slot1.len());
    image
}

/// The disk as a stop leaves it that comes once so many calls were made.
pub(crate) fn after_stop(
    alloc: Global,
    world: &MemWorld,
    at: u64,
    tear: Tear,
) -> Result<MemWorld, Fail> {
    let mut image = torn(world, at, tear.keep, tear.fill)?;
    if tear.short {
        image = cut(image, &torn(world, at.saturating_sub(1), 0, 0)?);
    }
    let script = script(alloc, image, &[])?;
    Ok(MemWorld::new(alloc, script)?)
}
