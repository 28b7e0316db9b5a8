//! Views that are read, cut, turned and broken.

use crate::read::{counts, fault, has_one_spelling, same, spelling};
use crate::spellings::{VIEW, VIEW_STARTS, cut_place, turned};
use f2b_base::{Bytes, NoMemory, View};
use record_codec::{ReadError, read_view, read_view_v1};
use std::alloc::Global;
use std::process::Abort;
use std::test::Fail;

fn whole_view() -> &'static [u8] {
    &VIEW
}

fn next_ban(read: Result<(View, u64), ReadError>) -> Option<u64> {
    match read {
        Ok((view, _)) => Some(view.next_ban),
        Err(_) => None,
    }
}

fn is_read(rt: &impl Abort, alloc: Global, bytes: &[u8]) {
    let saw = spelling(alloc, bytes, read_view(alloc, bytes));
    same(rt, "a view", saw, Ok((290, true)));
    let saw = next_ban(read_view(alloc, bytes));
    same(rt, "the next ban", saw, Some(4));
}

#[test]
fn a_view_with_each_type_is_read_and_written_again(rt: HostRuntime) {
    is_read(&rt, rt.alloc(), whole_view());
}

// Bytes are no view, and bad at this place.
fn is_bad(rt: &impl Abort, alloc: Global, what: &str, bytes: &[u8], place: u64) {
    let saw = fault(read_view(alloc, bytes));
    same(rt, (what, bytes.len()), saw, Some(ReadError::Bad(place)));
}

// A view that is cut anywhere is bad where the field begins that is cut.
fn are_cut(rt: &impl Abort, alloc: Global, bytes: &[u8], starts: &[u64]) {
    for len in 0..bytes.len() {
        let place = cut_place(starts, len as u64);
        is_bad(rt, alloc, "cut", &bytes[..len], place);
    }
}

#[test]
fn a_view_that_is_cut_is_bad_at_the_field_that_is_cut(rt: HostRuntime) {
    are_cut(&rt, rt.alloc(), whole_view(), &VIEW_STARTS);
}

// A view with one byte turned is bad somewhere, or is another view, spelt just so.
fn is_turned(
    rt: &impl Abort,
    alloc: Global,
    bytes: &[u8],
    at: usize,
    turn: u8,
) -> Result<(), NoMemory> {
    let bytes = turned(alloc, bytes, at, turn)?;
    let bytes = bytes.as_slice();
    let saw = has_one_spelling(alloc, bytes, read_view(alloc, bytes));
    same(rt, (at, turn), saw, true);
    Ok(())
}

fn is_turned_at(rt: &impl Abort, alloc: Global, bytes: &[u8], at: usize) -> Result<(), NoMemory> {
    is_turned(rt, alloc, bytes, at, 0x80)?;
    is_turned(rt, alloc, bytes, at, 1)?;
    is_turned(rt, alloc, bytes, at, 0xff)
}

// The same for each of its bytes.
fn each_byte_turned(rt: &impl Abort, alloc: Global, bytes: &[u8]) -> Result<(), NoMemory> {
    for at in 0..bytes.len() {
        is_turned_at(rt, alloc, bytes, at)?;
    }
    Ok(())
}

#[test]
fn a_view_with_a_turned_byte_has_no_second_spelling(rt: HostRuntime) -> Result<(), Fail> {
    each_byte_turned(&rt, rt.alloc(), whole_view())?;
    Ok(())
}

// The bytes with others in place of some.
fn spliced(
    alloc: Global,
    bytes: &[u8],
    at: usize,
    gone: usize,
    new: &[u8],
) -> Result<Bytes, NoMemory> {
    let (front, rest) = bytes.split_at_checked(at).unwrap_or((bytes, &[]));
    let mut out = Bytes::from_slice(alloc, front)?;
    out.push_slice(new)?;
    out.push_slice(rest.get(gone..).unwrap_or(&[]))?;
    Ok(out)
}

// What is broken, as the place and the number of the bytes that go, those that come, and the place that is bad then.
const BROKEN: [(&str, usize, usize, &[u8], u64); 35] = [
    ("a number that is too long", 0, 2, &[0xe8, 0x87, 0], 0),
    (
        "a moment past the last",
        0,
        2,
        &[0x80, 0x80, 0x80, 0x80, 0x80, 0x20],
        0,
    ),
    (
        "2^60 jails",
        5,
        1,
        &[0x80, 0x80, 0x80, 0x80, 0x80, 0x80, 0x80, 0x80, 0x10],
        5,
    ),
    (
        "a jail twice",
        5,
        1,
        &[
            2, 4, b's', b's', b'h', b'd', 0, 0, 0, 0, 0, 0, 0, 1, 1, 0, 2, 0, 1, 0, 1, 0, 0,
        ],
        28,
    ),
    ("a name that is no name", 7, 1, b"/", 6),
    (
        "2^60 logs",
        11,
        1,
        &[0x80, 0x80, 0x80, 0x80, 0x80, 0x80, 0x80, 0x80, 0x10],
        11,
    ),
    ("a log twice", 11, 1, &[2, 2, b'/', b'a', 1], 16),
    (
        "a text of 2^60 bytes",
        12,
        1,
        &[0x80, 0x80, 0x80, 0x80, 0x80, 0x80, 0x80, 0x80, 0x10],
        12,
    ),
    ("a zone of seconds", 16, 2, &[0x9d, 0x38], 16),
    ("no form of dates", 18, 1, &[7], 18),
    ("513 patterns", 26, 1, &[0x81, 4], 26),
    (
        "2^60 masks",
        39,
        1,
        &[0x80, 0x80, 0x80, 0x80, 0x80, 0x80, 0x80, 0x80, 0x10],
        54,
    ),
    ("a mask with bits after it", 45, 1, &[7], 45),
    ("no findtime", 46, 2, &[0], 46),
    ("a span of 0", 50, 1, &[0], 50),
    (
        "an action twice",
        65,
        1,
        &[2, 3, b'n', b'f', b't', 4, 0, 0, 0, 0, 0, 1],
        77,
    ),
    (
        "a lane that is up twice",
        98,
        1,
        &[
            2, 4, b's', b's', b'h', b'd', 3, b'n', b'f', b't', 4, 0, 0, 0, 0, 0, 1,
        ],
        115,
    ),
    ("fewer jails than definitions", 135, 1, &[0], 135),
    ("the name of another jail", 137, 1, b"t", 136),
    ("no flag", 141, 1, &[2], 141),
    (
        "2^60 failures",
        156,
        1,
        &[0x80, 0x80, 0x80, 0x80, 0x80, 0x80, 0x80, 0x80, 0x10],
        196,
    ),
    (
        "failures out of order",
        156,
        1,
        &[3, 4, 192, 0, 2, 8, 0, 0],
        164,
    ),
    (
        "a mapped address",
        166,
        17,
        &[6, 0, 0, 0, 0, 0, 0, 0, 0, 0, 0, 0xff, 0xff, 192, 0, 2, 7],
        166,
    ),
    ("a failure that is to come", 183, 2, &[0xe9, 7], 166),
    ("a line that is not UTF-8", 186, 2, &[0xc3, 0x28], 185),
    ("a serial that does not rise", 202, 1, &[1], 202),
    (
        "a second ban of an address",
        203,
        17,
        &[4, 0xc0, 0, 2, 7],
        202,
    ),
    (
        "a past ban that ended before the last",
        240,
        2,
        &[0xbb, 5],
        235,
    ),
    ("a head that is too short", 248, 3, &[1, 0x61], 248),
    (
        "a job twice",
        251,
        1,
        &[2, 4, 4, b's', b's', b'h', b'd', 0, 0, 0, 0, 0, 1, 0, 0],
        266,
    ),
    ("no kind of job", 263, 1, &[5], 263),
    ("a third failed try", 285, 1, &[3], 285),
    ("a job to come that is there", 288, 1, &[4], 288),
    ("a ban to come that is there", 289, 1, &[3], 289),
    (
        "a next serial past the last",
        289,
        1,
        &[0x81, 0x80, 0x80, 0x80, 0x80, 0x80, 0x80, 0x80, 0x80, 1],
        289,
    ),
];

fn are_broken(
    rt: &impl Abort,
    alloc: Global,
    view: &[u8],
    rows: &[(&str, usize, usize, &[u8], u64)],
) -> Result<(), NoMemory> {
    for &(what, at, gone, new, place) in rows {
        let bytes = spliced(alloc, view, at, gone, new)?;
        is_bad(rt, alloc, what, bytes.as_slice(), place);
    }
    Ok(())
}

#[test]
fn a_view_that_is_broken_is_bad_at_the_first_field_at_fault(rt: HostRuntime) -> Result<(), Fail> {
    are_broken(&rt, rt.alloc(), whole_view(), &BROKEN)?;
    Ok(())
}

// The view without the lines of its two failures.
fn without_lines(alloc: Global, view: &[u8]) -> Result<Bytes, NoMemory> {
    let half = spliced(alloc, view, 185, 3, &[])?;
    spliced(alloc, half.as_slice(), 164, 2, &[])
}

fn has_no_lines(rt: &impl Abort, alloc: Global, view: &[u8]) -> Result<(), NoMemory> {
    let with = fault(read_view_v1(alloc, view));
    same(rt, "with lines", with, Some(ReadError::Bad(164)));
    let bytes = without_lines(alloc, view)?;
    let without = counts(read_view_v1(alloc, bytes.as_slice()));
    same(rt, "without lines", without, Ok((285, 287)));
    Ok(())
}

#[test]
fn version_one_has_no_lines(rt: HostRuntime) -> Result<(), Fail> {
    has_no_lines(&rt, rt.alloc(), whole_view())?;
    Ok(())
}
