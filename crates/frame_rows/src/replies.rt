//! Replies that are sent and received.

use crate::seen::same;
use client_frames::{Answer, ReceiveError, receive_reply, reply_frame};
use f2b_base::{Bytes, NoMemory, Seq, Text};
use f2b_mem::MemLink;
use f2b_world::Link;
use std::alloc::Global;
use std::fmt::Debug;
use std::process::Abort;
use std::test::Fail;

/// Whether a request was accepted, the text of the reply, and its frame.
const REPLIES: [(bool, &str, &[u8]); 3] = [
    (true, "pong", &[0, 0, 0, 5, 0, b'p', b'o', b'n', b'g']),
    (false, "no", &[0, 0, 0, 3, 1, b'n', b'o']),
    (true, "", &[0, 0, 0, 1, 0]),
];

/// What is no reply: a length of 0, one byte more than a reply may have, a first byte that says neither, and bytes that are no text.
const BAD: [&[u8]; 5] = [
    &[0, 0, 0, 0],
    &[4, 0, 0, 2],
    &[0xff, 0xff, 0xff, 0xff],
    &[0, 0, 0, 2, 2, b'x'],
    &[0, 0, 0, 2, 0, 0xff],
];

fn answer(alloc: Global, accepted: bool, text: &str) -> Result<Answer, NoMemory> {
    let text = Text::from_str(alloc, text)?;
    Ok(Answer { accepted, text })
}

fn places(alloc: Global, fails: Option<u64>) -> Result<Seq<u64>, NoMemory> {
    let mut places = Seq::new(alloc);
    if let Some(place) = fails {
        places.push(place)?;
    }
    Ok(places)
}

/// A link over which these bytes come in pieces, and whose call at that place fails, if one is to.
fn link_of(
    alloc: Global,
    bytes: &[u8],
    piece: u32,
    fails: Option<u64>,
) -> Result<MemLink, NoMemory> {
    let places = places(alloc, fails)?;
    let bytes = Bytes::from_slice(alloc, bytes)?;
    MemLink::new(alloc, bytes, piece.max(1), places)
}

/// The frame of a reply, or nothing of one that is not short.
fn frame_of(alloc: Global, answer: Result<Answer, NoMemory>) -> Result<Bytes, NoMemory> {
    let answer = answer?;
    if answer.text.as_str().len() < 100 {
        return reply_frame(alloc, &answer);
    }
    Ok(Bytes::new(alloc))
}

fn is_framed(
    rt: &impl Abort,
    text: &str,
    saw: Result<Bytes, NoMemory>,
    frame: &[u8],
) -> Result<(), NoMemory> {
    let saw = saw?;
    same(rt, text, saw.as_slice(), frame);
    Ok(())
}

fn are_framed(
    rt: &impl Abort,
    alloc: Global,
    rows: &[(bool, &str, &[u8])],
) -> Result<(), NoMemory> {
    for &(accepted, text, frame) in rows {
        let saw = frame_of(alloc, answer(alloc, accepted, text));
        is_framed(rt, text, saw, frame)?;
    }
    Ok(())
}

#[test]
fn replies_are_framed(rt: HostRuntime) -> Result<(), Fail> {
    are_framed(&rt, rt.alloc(), &REPLIES)?;
    Ok(())
}

/// This reply comes over the link, in pieces of this size.
fn is_received<L: Link>(
    rt: &impl Abort,
    alloc: Global,
    link: &mut L,
    piece: u32,
    want: Result<Answer, NoMemory>,
) -> Result<(), NoMemory> {
    let want = want?;
    same(rt, piece, receive_reply(alloc, link), Ok(want));
    Ok(())
}

/// A reply comes twice over one link: no byte of the second is lost with the first.
fn are_received<L: Link + Drop>(
    rt: &impl Abort,
    alloc: Global,
    link: Result<L, NoMemory>,
    piece: u32,
    accepted: bool,
    text: &str,
) -> Result<(), NoMemory> {
    let mut link = link?;
    is_received(rt, alloc, &mut link, piece, answer(alloc, accepted, text))?;
    is_received(rt, alloc, &mut link, piece, answer(alloc, accepted, text))
}

/// The same in pieces of each size.
fn are_received_however_cut(
    rt: &impl Abort,
    alloc: Global,
    accepted: bool,
    text: &str,
    twice: &[u8],
) -> Result<(), NoMemory> {
    for piece in 1..12 {
        let link = link_of(alloc, twice, piece, None);
        are_received(rt, alloc, link, piece, accepted, text)?;
    }
    Ok(())
}

fn twice(alloc: Global, frame: &[u8]) -> Result<Bytes, NoMemory> {
    let mut twice = Bytes::from_slice(alloc, frame)?;
    twice.push_slice(frame)?;
    Ok(twice)
}

fn each_is_received(
    rt: &impl Abort,
    alloc: Global,
    rows: &[(bool, &str, &[u8])],
) -> Result<(), NoMemory> {
    for &(accepted, text, frame) in rows {
        let twice = twice(alloc, frame)?;
        are_received_however_cut(rt, alloc, accepted, text, twice.as_slice())?;
    }
    Ok(())
}

#[test]
fn a_reply_is_received_whole_however_it_is_cut(rt: HostRuntime) -> Result<(), Fail> {
    each_is_received(&rt, rt.alloc(), &REPLIES)?;
    Ok(())
}

/// No reply comes over the link, for this cause.
fn fails<L: Link + Drop, A: Debug + Drop>(
    rt: &impl Abort,
    alloc: Global,
    at: A,
    link: Result<L, NoMemory>,
    error: ReceiveError,
) -> Result<(), NoMemory> {
    let mut link = link?;
    same(rt, at, receive_reply(alloc, &mut link), Err(error));
    Ok(())
}

/// A reply that is cut anywhere ended too soon.
fn is_cut(rt: &impl Abort, alloc: Global, frame: &[u8]) -> Result<(), NoMemory> {
    for len in 0..frame.len() {
        let link = link_of(alloc, &frame[..len], 2, None);
        fails(rt, alloc, len, link, ReceiveError::LinkEnded)?;
    }
    Ok(())
}

/// A reply of which any call fails is not there.
fn is_lost(rt: &impl Abort, alloc: Global, frame: &[u8]) -> Result<(), NoMemory> {
    for place in 0..5 {
        let link = link_of(alloc, frame, 2, Some(place));
        fails(rt, alloc, place, link, ReceiveError::LinkFault)?;
    }
    Ok(())
}

const PONG: &[u8] = &[0, 0, 0, 5, 0, b'p', b'o', b'n', b'g'];

#[test]
fn a_reply_that_is_cut_is_none(rt: HostRuntime) -> Result<(), Fail> {
    is_cut(&rt, rt.alloc(), PONG)?;
    is_lost(&rt, rt.alloc(), PONG)?;
    Ok(())
}

fn are_bad(rt: &impl Abort, alloc: Global, rows: &[&[u8]]) -> Result<(), NoMemory> {
    for &frame in rows {
        let link = link_of(alloc, frame, 3, None);
        fails(rt, alloc, frame, link, ReceiveError::BadReply)?;
    }
    Ok(())
}

#[test]
fn what_is_no_reply_is_told_so(rt: HostRuntime) -> Result<(), Fail> {
    are_bad(&rt, rt.alloc(), &BAD)?;
    Ok(())
}
