//! Requests and replies, turn by turn.

use crate::calls::{Came, PING, PING_WORD, PONG, Step, answer_of, come, play, reply, same, take};
use client_frames::{Answer, FrameError};
use client_table::ClientTable;
use f2b_base::{Bytes, NoMemory};
use std::alloc::Global;
use std::process::Abort;
use std::test::Fail;

/// What a client hears and sends in a turn: how many of these bytes came, and how many requests were whole and replied to.
fn turn(
    alloc: Global,
    clients: &mut ClientTable,
    answer: &Answer,
    bytes: &[u8],
    now: u64,
) -> Result<(usize, usize), NoMemory> {
    let (came, count) = come(alloc, clients, 0, bytes, now)?;
    if let Came::Words(_) = came {
        let _ = reply(clients, 0, answer)?;
        return Ok((count, 1));
    }
    Ok((count, 0))
}

/// Takes a piece of what is unwritten, behind what was heard.
fn hear(
    alloc: Global,
    clients: &mut ClientTable,
    heard: &mut Bytes,
    piece: usize,
    now: u64,
) -> Result<(), NoMemory> {
    let taken = take(alloc, clients, 0, piece, now)?;
    heard.push_slice(taken.as_slice())
}

/// What a client hears who sends these bytes, all at once, where pieces of at most so many bytes are read and written: each request is
/// replied to. And how many requests there were.
fn turns(
    alloc: Global,
    answer: &Answer,
    sent: &[u8],
    piece: usize,
    heard: &mut Bytes,
) -> Result<usize, NoMemory> {
    let mut clients = ClientTable::new(alloc);
    clients.accept(7, 100)?;
    let mut rest = sent;
    let mut requests: usize = 0;
    for now in 100..300 {
        hear(alloc, &mut clients, heard, piece, now)?;
        let some = rest.get(..piece).unwrap_or(rest);
        let (count, whole) = turn(alloc, &mut clients, answer, some, now)?;
        rest = rest.get(count..).unwrap_or(&[]);
        requests = requests.saturating_add(whole);
    }
    Ok(requests)
}

/// Two requests that are sent at once, in pieces of this size.
fn are_heard(
    rt: &impl Abort,
    alloc: Global,
    answer: &Answer,
    piece: usize,
) -> Result<(), NoMemory> {
    let mut heard = Bytes::new(alloc);
    let requests = turns(alloc, answer, TWO_PINGS, piece, &mut heard)?;
    same(rt, piece, (requests, heard.as_slice()), (2, TWO_PONGS));
    Ok(())
}

fn are_heard_however_cut(
    rt: &impl Abort,
    alloc: Global,
    answer: Result<Answer, NoMemory>,
) -> Result<(), NoMemory> {
    let answer = answer?;
    for piece in 1..12 {
        are_heard(rt, alloc, &answer, piece)?;
    }
    Ok(())
}

const TWO_PINGS: &[u8] = &[
    0, 0, 0, 6, 0, 4, b'p', b'i', b'n', b'g', 0, 0, 0, 6, 0, 4, b'p', b'i', b'n', b'g',
];

const TWO_PONGS: &[u8] = &[
    0, 0, 0, 5, 0, b'p', b'o', b'n', b'g', 0, 0, 0, 5, 0, b'p', b'o', b'n', b'g',
];

// Two requests that are sent at once are heard one after the other, whatever the pieces are, and the replies come whole and in order.
#[test]
fn one_request_after_the_other(rt: HostRuntime) -> Result<(), Fail> {
    let pong = answer_of(rt.alloc(), true, "pong");
    are_heard_however_cut(&rt, rt.alloc(), pong)?;
    Ok(())
}

// While its reply is unwritten a client is not read, and a table tells that something is to be written.
const ONE_BY_ONE: [Step; 11] = [
    Step::Accept(7, 100),
    Step::Come(0, PING, 100, Came::Nothing, 4),
    Step::Come(0, PING_WORD, 100, Came::Words(1), 6),
    Step::Reply(0, true, "pong"),
    Step::Unwritten(true),
    Step::Come(0, PING, 100, Came::NotAsked, 0),
    Step::Take(0, 4, 100, &[0, 0, 0, 5]),
    Step::Come(0, PING, 100, Came::NotAsked, 0),
    Step::Take(0, 40, 100, &[0, b'p', b'o', b'n', b'g']),
    Step::Unwritten(false),
    Step::Come(0, PING, 100, Came::Nothing, 4),
];

#[test]
fn no_read_before_the_reply_is_written(rt: HostRuntime) -> Result<(), Fail> {
    play(&rt, rt.alloc(), &ONE_BY_ONE)?;
    Ok(())
}

// A reply goes to the client that asked, and to no other.
const OF_THREE: [Step; 9] = [
    Step::Accept(7, 100),
    Step::Accept(3, 100),
    Step::Accept(9, 100),
    Step::Come(1, PING, 100, Came::Nothing, 4),
    Step::Come(1, PING_WORD, 100, Came::Words(1), 6),
    Step::Reply(1, false, "no"),
    Step::Take(0, 40, 100, &[]),
    Step::Take(2, 40, 100, &[]),
    Step::Take(1, 40, 100, &[0, 0, 0, 3, 1, b'n', b'o']),
];

#[test]
fn each_its_own_reply(rt: HostRuntime) -> Result<(), Fail> {
    play(&rt, rt.alloc(), &OF_THREE)?;
    Ok(())
}

// A frame that is refused is the last one that is read, and it is over once that is written whole.
const REFUSED: [Step; 12] = [
    Step::Accept(7, 100),
    Step::Come(
        0,
        &[0, 1, 0, 1, 5],
        100,
        Came::Refused(FrameError::TooLong(65_537)),
        4,
    ),
    Step::Reply(0, false, "Frame too long"),
    Step::Count(1),
    Step::Over(0, 100, false),
    Step::Take(
        0,
        18,
        100,
        &[
            0, 0, 0, 15, 1, b'F', b'r', b'a', b'm', b'e', b' ', b't', b'o', b'o', b' ', b'l', b'o',
            b'n',
        ],
    ),
    Step::Count(1),
    Step::Over(0, 100, false),
    Step::Take(0, 18, 100, b"g"),
    Step::Count(1),
    Step::Over(0, 100, true),
    Step::Nothing(0),
];

#[test]
fn a_refused_frame(rt: HostRuntime) -> Result<(), Fail> {
    play(&rt, rt.alloc(), &REFUSED)?;
    Ok(())
}

fn long_text(alloc: Global) -> Result<String, NoMemory> {
    let mut text = String::new(alloc);
    for _ in 0..20_000 {
        text.push_str("192.0.2.7 ")?;
    }
    Ok(text)
}

fn long_answer(alloc: Global) -> Result<Answer, NoMemory> {
    let text = long_text(alloc)?;
    answer_of(alloc, true, text.as_str())
}

/// How many bytes of a reply are taken in pieces of a thousand.
fn taken_in_pieces(alloc: Global, clients: &mut ClientTable) -> Result<usize, NoMemory> {
    let mut taken: usize = 0;
    for now in 0..1_000 {
        let piece = take(alloc, clients, 0, 1_000, now)?;
        taken = taken.saturating_add(piece.len());
    }
    Ok(taken)
}

/// Whether a reply is written, how many of its bytes are taken, and whether any are left.
fn taken_of(
    alloc: Global,
    answer: Result<Answer, NoMemory>,
) -> Result<(bool, usize, bool), NoMemory> {
    let answer = answer?;
    let mut clients = ClientTable::new(alloc);
    clients.accept(7, 100)?;
    let replied = reply(&mut clients, 0, &answer)?;
    let taken = taken_in_pieces(alloc, &mut clients)?;
    Ok((replied, taken, clients.has_unwritten()))
}

// A long reply that is taken in small pieces comes whole.
#[test]
fn a_long_reply(rt: HostRuntime) -> Result<(), Fail> {
    let taken = taken_of(rt.alloc(), long_answer(rt.alloc()))?;
    same(&rt, 200_000, taken, (true, 200_005, false));
    Ok(())
}
