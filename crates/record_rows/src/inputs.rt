//! Inputs that are read, cut and broken.

use crate::read::{fault, has_one_spelling, same, spelling};
use crate::spellings::{LOOK, LOOK_STARTS, cut_place, turned};
use f2b_base::{Bytes, NoMemory};
use record_codec::{ReadError, read_input, read_input_v1};
use std::alloc::Global;
use std::process::Abort;
use std::test::Fail;

// An input of each kind, at 1000 with the word 7, in the order of the kinds.
const KINDS: [&[u8]; 15] = [
    &[0],
    &[1, 1, b'a', 0, 0, 0],
    &[
        2, 0xff, 0xff, 0xff, 0xff, 0xff, 0xff, 0xff, 0xff, 0xff, 1, 0, 1,
    ],
    &[3, 0, 0],
    &[4],
    &[5, 1, b'a', 2, 4, 0xc0, 0, 2, 7, 4, 0xc0, 0, 2, 8],
    &[6, 0, 0],
    &[6, 1, 1, b'a', 1, 2, 4, 0xc0, 0, 2, 7, 4, 0xc0, 0, 2, 7],
    &[7, 1, b'a', 4, 0xc0, 0, 2, 7],
    &[8, 1, b'a', 4, 0xc0, 0, 2, 0, 24, 1],
    &[9, 1, b'a', 0x80, 0xbc, 0xe0, 0xdf, 0x0b],
    &[10, 1, b'a', 1],
    &[11, 1, b'a', 0xa0, 0x8d, 6],
    &[12, 1, b'a', 1],
    &[13, 2, 2],
];

fn all_kinds() -> &'static [&'static [u8]] {
    &KINDS
}

// The bytes of an input at 1000 with the word 7, and others behind them.
fn input_of(alloc: Global, what: &[u8], behind: &[u8]) -> Result<Bytes, NoMemory> {
    let mut out = Bytes::from_slice(alloc, &[0xe8, 7, 7])?;
    out.push_slice(what)?;
    out.push_slice(behind)?;
    Ok(out)
}

// An input is read, with another byte behind it, and written again.
fn is_read(rt: &impl Abort, alloc: Global, what: &[u8]) -> Result<(), NoMemory> {
    let bytes = input_of(alloc, what, &[0xff])?;
    let saw = spelling(alloc, bytes.as_slice(), read_input(alloc, bytes.as_slice()));
    let len = (what.len() as u64).saturating_add(3);
    same(rt, what, saw, Ok((len, true)));
    Ok(())
}

fn are_read(rt: &impl Abort, alloc: Global, kinds: &[&[u8]]) -> Result<(), NoMemory> {
    for what in kinds {
        is_read(rt, alloc, what)?;
    }
    Ok(())
}

#[test]
fn each_kind_of_input_is_read_and_written_again(rt: HostRuntime) -> Result<(), Fail> {
    are_read(&rt, rt.alloc(), all_kinds())?;
    Ok(())
}

// Bytes are no input, and bad at this place.
fn is_bad(rt: &impl Abort, alloc: Global, bytes: &[u8], place: u64) {
    let saw = fault(read_input(alloc, bytes));
    same(rt, bytes, saw, Some(ReadError::Bad(place)));
}

// An input that is cut anywhere is bad where the field begins that is cut.
fn are_cut(rt: &impl Abort, alloc: Global, bytes: &[u8], starts: &[u64]) {
    for len in 0..bytes.len() {
        is_bad(rt, alloc, &bytes[..len], cut_place(starts, len as u64));
    }
}

#[test]
fn an_input_that_is_cut_is_bad_at_the_field_that_is_cut(rt: HostRuntime) {
    are_cut(&rt, rt.alloc(), &LOOK, &LOOK_STARTS);
}

// An input with one byte turned is bad somewhere, or is another input, spelt just so.
fn is_turned(
    rt: &impl Abort,
    alloc: Global,
    bytes: &[u8],
    at: usize,
    turn: u8,
) -> Result<(), NoMemory> {
    let bytes = turned(alloc, bytes, at, turn)?;
    let bytes = bytes.as_slice();
    let saw = has_one_spelling(alloc, bytes, read_input(alloc, bytes));
    same(rt, (at, bytes), saw, true);
    Ok(())
}

fn is_turned_at(rt: &impl Abort, alloc: Global, bytes: &[u8], at: usize) -> Result<(), NoMemory> {
    is_turned(rt, alloc, bytes, at, 0x80)?;
    is_turned(rt, alloc, bytes, at, 1)?;
    is_turned(rt, alloc, bytes, at, 0xff)
}

// The same for each of its bytes.
fn each_byte_turned(rt: &impl Abort, alloc: Global, bytes: &[u8]) -> Result<(), NoMemory> {
    for at in 0..bytes.len() {
        is_turned_at(rt, alloc, bytes, at)?;
    }
    Ok(())
}

fn are_turned(rt: &impl Abort, alloc: Global, kinds: &[&[u8]]) -> Result<(), NoMemory> {
    for what in kinds {
        let bytes = input_of(alloc, what, &[])?;
        each_byte_turned(rt, alloc, bytes.as_slice())?;
    }
    Ok(())
}

#[test]
fn an_input_with_a_turned_byte_has_no_second_spelling(rt: HostRuntime) -> Result<(), Fail> {
    each_byte_turned(&rt, rt.alloc(), &LOOK)?;
    are_turned(&rt, rt.alloc(), all_kinds())?;
    Ok(())
}

// What happened as it is broken, and the place that is bad then.
const BROKEN: [(&[u8], u64); 9] = [
    (&[14], 3),
    (&[5, 1, b'a', 2, 4, 0xc0, 0, 2, 7, 4, 0xc0, 0, 2, 7], 12),
    (&[6, 2], 4),
    (&[8, 1, b'a', 4, 0xc0, 0, 2, 1, 24, 1], 11),
    (&[9, 1, b'a', 0], 6),
    (&[10, 1, b'a', 0], 6),
    (&[11, 1, b'a', 0xa1, 0x8d, 6], 6),
    (&[12, 1, b'a', 0x80], 6),
    (&[13, 2, 3], 5),
];

fn is_broken(rt: &impl Abort, alloc: Global, what: &[u8], place: u64) -> Result<(), NoMemory> {
    let bytes = input_of(alloc, what, &[])?;
    is_bad(rt, alloc, bytes.as_slice(), place);
    Ok(())
}

fn are_broken(rt: &impl Abort, alloc: Global, rows: &[(&[u8], u64)]) -> Result<(), NoMemory> {
    for &(what, place) in rows {
        is_broken(rt, alloc, what, place)?;
    }
    Ok(())
}

#[test]
fn an_input_that_is_broken_is_bad_at_the_first_field_at_fault(rt: HostRuntime) -> Result<(), Fail> {
    are_broken(&rt, rt.alloc(), &BROKEN)?;
    Ok(())
}

fn is_read_by_version_one(rt: &impl Abort, alloc: Global, what: &[u8]) -> Result<(), NoMemory> {
    let bytes = input_of(alloc, what, &[])?;
    let saw = spelling(
        alloc,
        bytes.as_slice(),
        read_input_v1(alloc, bytes.as_slice()),
    );
    same(rt, what, saw, Ok((bytes.len() as u64, true)));
    Ok(())
}

fn are_read_by_version_one(
    rt: &impl Abort,
    alloc: Global,
    kinds: &[&[u8]],
) -> Result<(), NoMemory> {
    for what in kinds {
        is_read_by_version_one(rt, alloc, what)?;
    }
    Ok(())
}

#[test]
fn version_one_reads_the_same_inputs_but_for_lines(rt: HostRuntime) -> Result<(), Fail> {
    are_read_by_version_one(&rt, rt.alloc(), all_kinds())?;
    let cut = fault(read_input_v1(rt.alloc(), &LOOK));
    same(&rt, "a look", cut, Some(ReadError::Bad(32)));
    Ok(())
}
