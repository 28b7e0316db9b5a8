//! A disk that fails at each of its calls, and a further run over what it holds then.
use crate::calls::{Kind, kind_of};
use crate::seen::{commands, said, same};
use crate::worked::{WORDS, run_failing, run_later, run_whole, torn};
use f2b_mem::{Image, MemWorld};
use f2b_world::Event;
use std::alloc::Global;
use std::process::Abort;
use std::test::Fail;

fn is_disk(event: &Event) -> bool {
    kind_of(event) == Kind::Disk
}

/// How many calls on the disk stand in front.
fn in_front(events: &[Event]) -> usize {
    let mut count = 0usize;
    for event in events {
        if !is_disk(event) {
            return count;
        }
        count = count.saturating_add(1);
    }
    count
}

/// What a further run says and does.
fn goes_on(rt: &impl Abort, alloc: Global, image: Image, at: usize) -> Result<String, Fail> {
    let (status, world) = run_later(alloc, image)?;
    same(rt, at, &(status, world.is_told()), &(0, true));
    let said = said(alloc, world.events())?;
    let commands = commands(alloc, world.events())?;
    Ok(format!(in alloc; "{said}{commands}")?)
}

/// The further run behind a fault goes on in one of these ways, whatever of the unsynced bytes the disk has kept.
fn goes_on_so(rt: &impl Abort, alloc: Global, at: usize, ways: (&str, &str)) -> Result<(), Fail> {
    let (_, world) = run_failing(alloc, at)?;
    for keep in [0, u32::MAX] {
        let image = torn(&world, world.events().len(), keep, 0)?;
        let way = goes_on(rt, alloc, image, at)?;
        same(
            rt,
            at,
            &(way.as_str() == ways.0 || way.as_str() == ways.1),
            &true,
        );
    }
    Ok(())
}

/// A row of calls on the disk: each fails, and the further run is one with the input that they write, or one without it. Gives whether
/// these differ.
fn each_of(
    rt: &impl Abort,
    alloc: Global,
    world: &MemWorld,
    begin: usize,
    end: usize,
) -> Result<bool, Fail> {
    let without = goes_on(rt, alloc, torn(world, begin, u32::MAX, 0)?, begin)?;
    let with = goes_on(rt, alloc, torn(world, end, u32::MAX, 0)?, end)?;
    for at in begin..end {
        goes_on_so(rt, alloc, at, (without.as_str(), with.as_str()))?;
    }
    Ok(without != with)
}

/// The rows of calls on the disk that begin at these places. Gives for how many of them the input matters to the further run.
fn differing(rt: &impl Abort, alloc: Global, from: usize, to: usize) -> Result<usize, Fail> {
    let world = run_whole(alloc, WORDS)?;
    let mut end = from;
    let mut differing = 0usize;
    for at in from..to {
        let count = in_front(world.events().get(at..).unwrap_or(world.events()));
        if at >= end && count > 0 {
            end = at.saturating_add(count);
            let differs = each_of(rt, alloc, &world, at, end)?;
            differing = differing.saturating_add(usize::from(differs));
        }
    }
    Ok(differing)
}

/// The place of the pause behind the reload, and how many calls there are.
const MIDDLE: usize = 80;

const ALL: usize = 185;

#[test]
fn a_further_run_goes_on_from_a_fault_of_the_disk_up_to_a_reload(
    rt: HostRuntime,
) -> Result<(), Fail> {
    same(&rt, 0, &differing(&rt, rt.alloc(), 0, MIDDLE)?, &4);
    Ok(())
}

#[test]
fn a_further_run_goes_on_from_a_fault_of_the_disk_behind_a_reload(
    rt: HostRuntime,
) -> Result<(), Fail> {
    same(&rt, MIDDLE, &differing(&rt, rt.alloc(), MIDDLE, ALL)?, &7);
    Ok(())
}
