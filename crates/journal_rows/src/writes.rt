//! An input that is written, and one that is not.

use crate::bytes::{LAST, OLD_VERSION, TICK};
use crate::play::disk;
use ban_journal::{AppendError, Journal, Loaded};
use f2b_base::{DEFAULT_PURGE, Defs, Input, Seq, View, What};
use f2b_mem::MemWorld;
use std::alloc::Global;
use std::process::Abort;
use std::test::Fail;

// The input that rows write: that time passed at 200. It has four bytes.
fn input() -> Input {
    Input {
        secs: 200,
        word: 0,
        what: What::Tick,
    }
}

// A view that none of the slots has. It has eleven bytes.
fn view(alloc: Global) -> View {
    View {
        at: 0,
        defs: Defs {
            purge: DEFAULT_PURGE,
            jails: Seq::new(alloc),
        },
        stopping: false,
        up: Seq::new(alloc),
        jails: Seq::new(alloc),
        jobs: Seq::new(alloc),
        next_job: 9,
        next_ban: 0,
    }
}

/// Loads a journal and writes the input: how many calls loaded it, and what came of the input.
pub(crate) fn write(
    alloc: Global,
    world: &mut MemWorld,
    limit: u64,
) -> Result<(u64, Result<(), AppendError>), Fail> {
    let Ok(loaded) = Journal::load(alloc, world, limit) else {
        return Err("not loaded".into());
    };
    let Loaded { journal, .. } = loaded;
    let begin = world.events().len() as u64;
    let input = input();
    let written = if journal.fits(&input) {
        journal.append(alloc, world, &input)
    } else {
        journal.turn_over(alloc, world, &view(alloc), &input)
    };
    match written {
        Ok(_) => Ok((begin, Ok(()))),
        Err(error) => Ok((begin, Err(error))),
    }
}

// A slot 0, the limit of a slot, and why the input is not written.
const REFUSED: [(&[u8], u64, AppendError); 5] = [
    (&[], 1, AppendError::Full { need: 27, limit: 1 }),
    (
        &TICK,
        26,
        AppendError::Full {
            need: 27,
            limit: 26,
        },
    ),
    (
        &OLD_VERSION,
        26,
        AppendError::Full {
            need: 27,
            limit: 26,
        },
    ),
    (
        &LAST,
        26,
        AppendError::Full {
            need: 27,
            limit: 26,
        },
    ),
    (&LAST, 30, AppendError::Spent),
];

fn is_refused(
    rt: &impl Abort,
    alloc: Global,
    slot0: &[u8],
    limit: u64,
    want: AppendError,
) -> Result<(), Fail> {
    let mut world = disk(alloc, slot0, &[], &[])?;
    let (begin, written) = write(alloc, &mut world, limit)?;
    assert_eq!(rt; written, Err(want), "{slot0:?}, {limit}");
    assert_eq!(rt; world.events().len() as u64, begin, "{slot0:?}, {limit}");
    Ok(())
}

fn are_refused(
    rt: &impl Abort,
    alloc: Global,
    rows: &[(&[u8], u64, AppendError)],
) -> Result<(), Fail> {
    for &(slot0, limit, want) in rows {
        is_refused(rt, alloc, slot0, limit, want)?;
    }
    Ok(())
}

#[test]
fn an_input_without_room_or_a_generation_is_refused_before_any_call(
    rt: HostRuntime,
) -> Result<(), Fail> {
    are_refused(&rt, rt.alloc(), &REFUSED)
}
