//! Inputs that an engine takes, and a stop at each call.

use crate::bytes::{BANS, TICK};
use crate::play::{disk, is_either, loaded_view};
use crate::steps::{Step, view_after};
use f2b_base::View;
use f2b_mem::MemWorld;
use std::alloc::Global;
use std::process::Abort;
use std::test::Fail;

// Slot 0, the limit of a slot, and inputs.
struct Row {
    name: &'static str,
    slot0: &'static [u8],
    limit: u64,
    steps: &'static [Step],
}

const ROWS: [Row; 4] = [
    Row {
        name: "the first inputs of all",
        slot0: &[],
        limit: 1000,
        steps: &[Step::Tick(200), Step::Config(300, 400), Step::Tick(500)],
    },
    Row {
        name: "the second of each two changes slots",
        slot0: &TICK,
        limit: 31,
        steps: &[Step::Tick(110), Step::Tick(120), Step::Tick(125)],
    },
    Row {
        name: "each changes slots",
        slot0: &TICK,
        limit: 30,
        steps: &[Step::Tick(200), Step::Tick(300), Step::Stop(400)],
    },
    Row {
        name: "a ban ends, and is over",
        slot0: &BANS,
        limit: 200,
        steps: &[Step::Tick(1100), Step::Stop(1101)],
    },
];

// The views that a stop may leave at a call of an input: before the first call that before it, behind the last one that with it.
fn expected<'v>(
    (begin, at, end): (u64, u64, u64),
    before: &'v View,
    after: &'v View,
) -> (&'v View, &'v View) {
    if at == begin {
        return (before, before);
    }
    if at == end {
        return (after, after);
    }
    (before, after)
}

// An input is taken, and each call of it may be the last.
fn each_stop(
    rt: &impl Abort,
    alloc: Global,
    row: &Row,
    world: &mut MemWorld,
    step: Step,
) -> Result<(), Fail> {
    let before = loaded_view(alloc, world, row.limit)?;
    let begin = world.events().len() as u64;
    let after = view_after(alloc, world, row.limit, &[step])?;
    let end = world.events().len() as u64;
    for at in begin..=end {
        let views = expected((begin, at, end), &before, &after);
        is_either(rt, alloc, row.name, world, at, row.limit, views)?;
    }
    Ok(())
}

fn each_step(rt: &impl Abort, alloc: Global, row: &Row) -> Result<(), Fail> {
    let mut world = disk(alloc, row.slot0, &[], &[])?;
    for &step in row.steps {
        each_stop(rt, alloc, row, &mut world, step)?;
    }
    Ok(())
}

fn each_row(rt: &impl Abort, alloc: Global, rows: &[Row]) -> Result<(), Fail> {
    for row in rows {
        each_step(rt, alloc, row)?;
    }
    Ok(())
}

#[test]
fn a_stop_at_any_call_leaves_the_view_before_the_input_or_with_it(
    rt: HostRuntime,
) -> Result<(), Fail> {
    each_row(&rt, rt.alloc(), &ROWS)
}
