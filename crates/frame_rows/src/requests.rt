//! Requests that are sent and come.

use crate::seen::same;
use client_frames::{Conn, FrameError, are_request, request_frame};
use f2b_base::{Bytes, NoMemory, Seq, Text};
use std::alloc::Global;
use std::process::Abort;
use std::test::Fail;

/// The words of a request, and its frame.
struct Row {
    words: &'static [&'static str],
    frame: &'static [u8],
}

const REQUESTS: [Row; 3] = [
    Row {
        words: &["ping"],
        frame: &[0, 0, 0, 6, 0, 4, b'p', b'i', b'n', b'g'],
    },
    Row {
        words: &["a", "", "\u{e9}"],
        frame: &[0, 0, 0, 9, 0, 1, b'a', 0, 0, 0, 2, 0xc3, 0xa9],
    },
    Row {
        words: &[""],
        frame: &[0, 0, 0, 2, 0, 0],
    },
];

const REFUSED: [(&[u8], FrameError); 9] = [
    (&[0, 1, 0, 1], FrameError::TooLong(65_537)),
    (
        &[0xff, 0xff, 0xff, 0xff],
        FrameError::TooLong(4_294_967_295),
    ),
    (&[0, 0, 0, 0], FrameError::Empty),
    (&[0, 0, 0, 1, 0], FrameError::BadWord(0)),
    (&[0, 0, 0, 3, 0, 4, b'p'], FrameError::BadWord(0)),
    (&[0, 0, 0, 4, 0, 1, b'p', 0], FrameError::BadWord(3)),
    (
        &[0, 0, 0, 6, 0, 1, b'p', 0, 2, b'q'],
        FrameError::BadWord(3),
    ),
    (&[0, 0, 0, 3, 0, 1, 0xff], FrameError::BadWord(0)),
    (
        &[0, 0, 0, 8, 0, 1, b'p', 0, 3, b'q', 0xc3, 0x28],
        FrameError::BadWord(3),
    ),
];

fn seq_of(alloc: Global, words: &[&str]) -> Result<Seq<Text>, NoMemory> {
    let mut seq = Seq::new(alloc);
    for word in words {
        seq.push(Text::from_str(alloc, word)?)?;
    }
    Ok(seq)
}

/// How many requests of these words a connection makes of the next bytes, at most so many of them and never more than it wants, and how
/// many it took.
fn fed(
    conn: &mut Conn,
    bytes: &[u8],
    piece: usize,
    words: &Seq<Text>,
) -> Result<(u32, usize), FrameError> {
    let count = piece.min(conn.want() as usize).min(bytes.len());
    if count == 0 {
        return Ok((0, 0));
    }
    match conn.feed(&bytes[..count])? {
        Some(found) => Ok((u32::from(found == *words), count)),
        None => Ok((0, count)),
    }
}

/// How many requests of these words come in bytes that are cut into pieces, over one connection.
fn heard(
    conn: &mut Conn,
    bytes: &[u8],
    piece: usize,
    words: &Seq<Text>,
) -> Result<u32, FrameError> {
    let mut rest = bytes;
    let mut count: u32 = 0;
    for _ in 0..bytes.len() {
        let (found, taken) = fed(conn, rest, piece, words)?;
        rest = rest.get(taken..).unwrap_or(&[]);
        count = count.saturating_add(found);
    }
    Ok(count)
}

/// What comes of bytes over one connection, and how many bytes it wants then.
fn heard_by_one(
    alloc: Global,
    bytes: &[u8],
    piece: usize,
    words: &Seq<Text>,
) -> (Result<u32, FrameError>, u32) {
    let mut conn = Conn::new(alloc);
    let count = heard(&mut conn, bytes, piece, words);
    (count, conn.want())
}

fn twice(alloc: Global, frame: &[u8]) -> Result<Bytes, NoMemory> {
    let mut twice = Bytes::from_slice(alloc, frame)?;
    twice.push_slice(frame)?;
    Ok(twice)
}

/// Two requests of these words come in these bytes, cut into pieces of each size.
fn come_however_cut(rt: &impl Abort, alloc: Global, bytes: &[u8], words: &Seq<Text>) {
    for piece in 1..20 {
        let saw = heard_by_one(alloc, bytes, piece, words);
        same(rt, piece, saw, (Ok(2), 4));
    }
}

/// A frame comes twice over one connection, cut into pieces of each size.
fn is_heard_however_cut(rt: &impl Abort, alloc: Global, row: &Row) -> Result<(), NoMemory> {
    let words = seq_of(alloc, row.words)?;
    let twice = twice(alloc, row.frame)?;
    come_however_cut(rt, alloc, twice.as_slice(), &words);
    Ok(())
}

fn are_heard(rt: &impl Abort, alloc: Global, rows: &[Row]) -> Result<(), NoMemory> {
    for row in rows {
        is_heard_however_cut(rt, alloc, row)?;
    }
    Ok(())
}

#[test]
fn a_request_comes_whole_however_it_is_cut(rt: HostRuntime) -> Result<(), Fail> {
    are_heard(&rt, rt.alloc(), &REQUESTS)?;
    Ok(())
}

/// The frame of a request of these words, or nothing where they are none.
fn frame_of(alloc: Global, words: Result<Seq<Text>, NoMemory>) -> Result<Bytes, NoMemory> {
    let words = words?;
    if are_request(&words) {
        return request_frame(alloc, &words);
    }
    Ok(Bytes::new(alloc))
}

fn is_framed(rt: &impl Abort, alloc: Global, row: &Row) -> Result<(), NoMemory> {
    let frame = frame_of(alloc, seq_of(alloc, row.words))?;
    same(rt, row.words, frame.as_slice(), row.frame);
    Ok(())
}

fn are_framed(rt: &impl Abort, alloc: Global, rows: &[Row]) -> Result<(), NoMemory> {
    for row in rows {
        is_framed(rt, alloc, row)?;
    }
    Ok(())
}

#[test]
fn words_are_framed(rt: HostRuntime) -> Result<(), Fail> {
    are_framed(&rt, rt.alloc(), &REQUESTS)?;
    Ok(())
}

fn long_word(alloc: Global, len: usize) -> Result<Text, NoMemory> {
    let mut word = Text::new(alloc);
    for _ in 0..len {
        word.push_str("x")?;
    }
    Ok(word)
}

/// Whether a word of so many bytes is a request by itself.
fn is_request_of(alloc: Global, len: usize) -> Result<bool, NoMemory> {
    let mut words = Seq::new(alloc);
    words.push(long_word(alloc, len)?)?;
    Ok(are_request(&words))
}

fn is_request_of_none(alloc: Global) -> bool {
    are_request(&Seq::new(alloc))
}

#[test]
fn a_request_has_a_word_and_at_most_65_536_bytes(rt: HostRuntime) -> Result<(), Fail> {
    same(&rt, "no word", is_request_of_none(rt.alloc()), false);
    same(&rt, 65_534, is_request_of(rt.alloc(), 65_534)?, true);
    same(&rt, 65_535, is_request_of(rt.alloc(), 65_535)?, false);
    Ok(())
}

/// A frame that comes byte by byte is refused at its last byte, and after it nothing more is wanted.
fn are_refused(rt: &impl Abort, alloc: Global, rows: &[(&[u8], FrameError)]) {
    let none = Seq::new(alloc);
    for &(frame, error) in rows {
        let saw = heard_by_one(alloc, frame, 1, &none);
        same(rt, frame, saw, (Err(error), 0));
    }
}

#[test]
fn frames_that_are_no_request_are_refused(rt: HostRuntime) {
    are_refused(&rt, rt.alloc(), &REFUSED);
}

const REFUSALS: [(FrameError, &str); 3] = [
    (FrameError::TooLong(65_537), "Frame too long"),
    (FrameError::Empty, "Empty frame"),
    (FrameError::BadWord(0), "Bad word"),
];

fn have_words(rt: &impl Abort, rows: &[(FrameError, &str)]) {
    for (error, words) in rows {
        same(rt, *words, error.refusal(), Some(*words));
    }
}

#[test]
fn a_refusal_has_its_words(rt: HostRuntime) {
    have_words(&rt, &REFUSALS);
}
