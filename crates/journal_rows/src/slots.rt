//! Slots that are read from their front.
ghost use Rattle.slot_reader.specs.Windows.{Shows};

use crate::bytes::{BAD, BANS, OLD_VERSION, SHUT, TICK};
use crate::play::disk;
use f2b_base::{Bytes, Input, What};
use f2b_world::Disk;
use journal_slots::Head;
use slot_reader::{Checked, Fault, Next, OpenSlot, Opening, SlotReader, Version, check, open};
use std::alloc::Global;
use std::process::Abort;
use std::test::Fail;

// What slot 0 is, to its end, on a disk whose calls at these places fail.
fn checked(alloc: Global, bytes: &[u8], fails: &[u64]) -> Result<Result<Checked, Fault>, Fail> {
    let mut world = disk(alloc, bytes, &[], fails)?;
    Ok(check(alloc, &mut world, 0))
}

// A slot, and what it is to its end.
const SLOTS: [(&[u8], Checked); 7] = [
    (&[], Checked::Empty(Head::Short)),
    (&[1; 16], Checked::Empty(Head::Short)),
    (&SHUT, Checked::Empty(Head::Shut)),
    (
        &TICK,
        Checked::Open(OpenSlot {
            generation: 1,
            version: Version::Two,
            gate: 25,
        }),
    ),
    (
        &BANS,
        Checked::Open(OpenSlot {
            generation: 1,
            version: Version::Two,
            gate: 43,
        }),
    ),
    (
        &OLD_VERSION,
        Checked::Open(OpenSlot {
            generation: 1,
            version: Version::One,
            gate: 25,
        }),
    ),
    (
        &BAD,
        Checked::Bad {
            generation: 1,
            at: 9,
        },
    ),
];

fn are_checked(rt: &impl Abort, alloc: Global, rows: &[(&[u8], Checked)]) -> Result<(), Fail> {
    for &(bytes, want) in rows {
        assert_eq!(rt; checked(alloc, bytes, &[])?, Ok(want), "{bytes:?}");
    }
    Ok(())
}

#[test]
fn a_slot_is_empty_or_open_up_to_its_closed_gate_or_bad(rt: HostRuntime) -> Result<(), Fail> {
    are_checked(&rt, rt.alloc(), &SLOTS)
}

/// What came of a slot behind its view.
#[derive(Clone, Copy, Debug, PartialEq, Eq)]
enum Came {
    /// That time passed, at this moment.
    Tick(u64),
    Another,
    Closed,
    Bad(u64),
}

fn came_of(input: &Input) -> Came {
    match input.what {
        What::Tick => Came::Tick(input.secs),
        _ => Came::Another,
    }
}

fn next_came<D: Disk>(alloc: Global, disk: &mut D, reader: &mut SlotReader) -> Result<Came, Fault>
    requires { Shows reader.old.shown (D.stands disk.old).told }
    ensures { Shows reader.new.shown (D.stands disk.new).told }
{
    match reader.next(alloc, disk)? {
        Next::Input(input) => Ok(came_of(&input)),
        Next::Closed => Ok(Came::Closed),
        Next::Bad(at) => Ok(Came::Bad(at)),
    }
}

fn two_came<D: Disk>(alloc: Global, disk: &mut D, reader: SlotReader) -> Result<(Came, Came), Fault>
    requires { Shows reader.shown (D.stands disk.old).told }
{
    let mut reader = reader;
    let first = next_came(alloc, disk, &mut reader)?;
    let second = next_came(alloc, disk, &mut reader)?;
    Ok((first, second))
}

// Of slot 0: for how long a ban that is over counts, by its view, and what comes behind that.
fn all_came<D: Disk>(alloc: Global, disk: &mut D) -> Result<Option<(u64, (Came, Came))>, Fault> {
    match open(alloc, disk, 0)? {
        Opening::Open(reader, view) => {
            let came = two_came(alloc, disk, reader)?;
            Ok(Some((view.defs.purge, came)))
        }
        _ => Ok(None),
    }
}

#[test]
fn a_view_and_its_inputs_come_one_by_one(rt: HostRuntime) -> Result<(), Fail> {
    let mut world = disk(rt.alloc(), &TICK, &[], &[])?;
    let is = all_came(rt.alloc(), &mut world);
    let want = (86_400, (Came::Tick(100), Came::Closed));
    assert_eq!(&rt; is, Ok(Some(want)));
    Ok(())
}

// A slot with so many ticks, which is longer than a piece that is read at once.
fn ticks(alloc: Global, count: u32) -> Result<Bytes, Fail> {
    let mut bytes = Bytes::from_slice(alloc, &TICK[..21])?;
    for _ in 0..count {
        bytes.push_slice(&TICK[21..25])?;
    }
    bytes.push(0)?;
    Ok(bytes)
}

#[test]
fn inputs_across_the_seam_of_two_pieces_are_read(rt: HostRuntime) -> Result<(), Fail> {
    let bytes = ticks(rt.alloc(), 20_000)?;
    let is = checked(rt.alloc(), bytes.as_slice(), &[])?;
    let open = OpenSlot {
        generation: 1,
        version: Version::Two,
        gate: 80_021,
    };
    assert_eq!(rt; is, Ok(Checked::Open(open)));
    Ok(())
}

// The calls that check a slot of two pieces: its length, a piece, and another piece.
fn each_call_fails(rt: &impl Abort, alloc: Global, bytes: &[u8]) -> Result<(), Fail> {
    for call in 0..3 {
        let is = checked(alloc, bytes, &[call])?;
        assert_eq!(rt; is, Err(Fault::Disk), "{call}");
    }
    Ok(())
}

#[test]
fn a_disk_that_fails_at_any_call_is_told(rt: HostRuntime) -> Result<(), Fail> {
    let bytes = ticks(rt.alloc(), 20_000)?;
    each_call_fails(&rt, rt.alloc(), bytes.as_slice())
}
