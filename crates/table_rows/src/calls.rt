//! Calls on the client at a place, as an outside would answer them.
use client_frames::{Answer, FrameError};
use client_table::{ClientTable, Next};
use f2b_base::{Bytes, NoMemory, Text};
use f2b_world::{GateRead, GateWrite};
use std::alloc::Global;
use std::fmt::Debug;
use std::process::Abort;

/// The request of the one word ping.
pub(crate) const PING: &[u8] = &[0, 0, 0, 6, 0, 4, b'p', b'i', b'n', b'g'];

/// The same behind its length.
pub(crate) const PING_WORD: &[u8] = &[0, 4, b'p', b'i', b'n', b'g'];

/// The reply pong, accepted.
pub(crate) const PONG: &[u8] = &[0, 0, 0, 5, 0, b'p', b'o', b'n', b'g'];

/// What a read came to.
#[derive(Clone, Copy, Debug, PartialEq, Eq)]
pub(crate) enum Came {
    /// It was not asked for.
    NotAsked,
    /// Nothing is whole yet.
    Nothing,
    /// A request of so many words.
    Words(usize),
    /// A frame that is refused.
    Refused(FrameError),
}

/// How a read is answered without a byte.
#[derive(Clone, Copy, Debug, PartialEq, Eq)]
pub(crate) enum NoByte {
    Quiet,
    End,
    Failed,
}

/// A reply of this text.
pub(crate) fn answer_of(alloc: Global, accepted: bool, text: &str) -> Result<Answer, NoMemory> {
    let text = Text::from_str(alloc, text)?;
    Ok(Answer { accepted, text })
}

/// Some of these bytes come of the client at a place, as many as it asks for: what came, and how many bytes.
pub(crate) fn come(
    alloc: Global,
    clients: &mut ClientTable,
    place: usize,
    bytes: &[u8],
    now: u64,
) -> Result<(Came, usize), NoMemory> {
    if place >= clients.len() || bytes.is_empty() {
        return Ok((Came::NotAsked, 0));
    }
    let Next::Read(most) = clients.next(place) else {
        return Ok((Came::NotAsked, 0));
    };
    let count = bytes.len().min(most as usize);
    let piece = Bytes::from_slice(alloc, &bytes[..count])?;
    match clients.read(place, GateRead::Bytes(piece), now) {
        Ok(None) => Ok((Came::Nothing, count)),
        Ok(Some(words)) => Ok((Came::Words(words.len()), count)),
        Err(FrameError::NoMemory) => Err(NoMemory),
        Err(error) => Ok((Came::Refused(error), count)),
    }
}

/// The client at a place is read, and no byte comes. Tells whether it asked for that.
pub(crate) fn come_not(clients: &mut ClientTable, place: usize, what: NoByte, now: u64) -> bool {
    if place >= clients.len() {
        return false;
    }
    let Next::Read(_) = clients.next(place) else {
        return false;
    };
    let heard = match what {
        NoByte::Quiet => clients.read(place, GateRead::Quiet, now),
        NoByte::End => clients.read(place, GateRead::End, now),
        NoByte::Failed => clients.read(place, GateRead::Failed, now),
    };
    matches!(heard, Ok(None))
}

/// Replies to the client at a place, if all other replies to it are written. No test's reply is longer than a million bytes.
pub(crate) fn reply(
    clients: &mut ClientTable,
    place: usize,
    answer: &Answer,
) -> Result<bool, NoMemory> {
    if place >= clients.len() || answer.text.as_str().len() > 1_000_000 {
        return Ok(false);
    }
    let Next::Write(_) = clients.next(place) else {
        clients.answer(place, answer)?;
        return Ok(true);
    };
    Ok(false)
}

/// The client at a place takes so many bytes of what is unwritten, or all where there are fewer.
pub(crate) fn take(
    alloc: Global,
    clients: &mut ClientTable,
    place: usize,
    most: usize,
    now: u64,
) -> Result<Bytes, NoMemory> {
    if place >= clients.len() {
        return Ok(Bytes::new(alloc));
    }
    let Next::Write(bytes) = clients.next(place) else {
        return Ok(Bytes::new(alloc));
    };
    let count = bytes.len().min(most).max(1);
    let taken = Bytes::from_slice(alloc, &bytes[..count])?;
    clients.wrote(place, GateWrite::Took(count as u32), now);
    Ok(taken)
}

/// Whether the client at a place is there and over.
pub(crate) fn is_over(clients: &ClientTable, place: usize, now: u64) -> bool {
    place < clients.len() && clients.is_over(place, now)
}

/// A step of a test, and what is seen at it.
pub(crate) enum Step {
    /// There is room, and a connection comes at a time.
    Accept(u32, u64),
    /// The client at a place is closed.
    Close(usize),
    Full(bool),
    Count(usize),
    /// The connection of the client at a place.
    Conn(usize, u32),
    /// Some of these bytes come of the client at a place at a time: what came, and how many bytes.
    Come(usize, &'static [u8], u64, Came, usize),
    /// The client at a place is read at a time, and no byte comes.
    ComeNot(usize, NoByte, u64),
    /// The client at a place is replied to.
    Reply(usize, bool, &'static str),
    /// The client at a place takes at most so many bytes at a time, which are these.
    Take(usize, usize, u64, &'static [u8]),
    Unwritten(bool),
    /// Whether the client at a place is over at a time.
    Over(usize, u64, bool),
    /// Nothing is to be done for the client at a place.
    Nothing(usize),
}

/// Fails at this step unless what was seen is what is wanted.
pub(crate) fn same<T: PartialEq + Debug + Drop>(rt: &impl Abort, at: usize, saw: T, want: T) {
    assert!(rt; saw == want, "at {at}: {saw:?}, not {want:?}");
}

fn accept(clients: &mut ClientTable, conn: u32, now: u64) -> Result<bool, NoMemory> {
    if clients.is_full() {
        return Ok(false);
    }
    clients.accept(conn, now)?;
    Ok(true)
}

fn close(clients: &mut ClientTable, place: usize) -> bool {
    if place >= clients.len() {
        return false;
    }
    clients.close(place);
    true
}

fn conn(clients: &ClientTable, place: usize) -> Option<u32> {
    if place >= clients.len() {
        return None;
    }
    Some(clients.conn(place))
}

fn is_quiet(clients: &ClientTable, place: usize) -> bool {
    place < clients.len() && matches!(clients.next(place), Next::Nothing)
}

fn takes(
    rt: &impl Abort,
    at: usize,
    taken: Result<Bytes, NoMemory>,
    want: &[u8],
) -> Result<(), NoMemory> {
    let taken = taken?;
    same(rt, at, taken.as_slice(), want);
    Ok(())
}

fn replies(
    clients: &mut ClientTable,
    place: usize,
    answer: Result<Answer, NoMemory>,
) -> Result<bool, NoMemory> {
    let answer = answer?;
    reply(clients, place, &answer)
}

fn take_step(
    rt: &impl Abort,
    alloc: Global,
    clients: &mut ClientTable,
    at: usize,
    step: &Step,
) -> Result<(), NoMemory> {
    match *step {
        Step::Accept(conn, now) => same(rt, at, accept(clients, conn, now)?, true),
        Step::Close(place) => same(rt, at, close(clients, place), true),
        Step::Full(want) => same(rt, at, clients.is_full(), want),
        Step::Count(want) => same(rt, at, clients.len(), want),
        Step::Conn(place, want) => same(rt, at, conn(clients, place), Some(want)),
        Step::Come(place, bytes, now, came, count) => {
            let saw = come(alloc, clients, place, bytes, now)?;
            same(rt, at, saw, (came, count));
        }
        Step::ComeNot(place, what, now) => {
            same(rt, at, come_not(clients, place, what, now), true);
        }
        Step::Reply(place, accepted, text) => {
            let answer = answer_of(alloc, accepted, text);
            same(rt, at, replies(clients, place, answer)?, true);
        }
        Step::Take(place, most, now, want) => {
            takes(rt, at, take(alloc, clients, place, most, now), want)?;
        }
        Step::Unwritten(want) => same(rt, at, clients.has_unwritten(), want),
        Step::Over(place, now, want) => same(rt, at, is_over(clients, place, now), want),
        Step::Nothing(place) => same(rt, at, is_quiet(clients, place), true),
    }
    Ok(())
}

fn take_steps(
    rt: &impl Abort,
    alloc: Global,
    clients: &mut ClientTable,
    steps: &[Step],
) -> Result<(), NoMemory> {
    for (at, step) in steps.iter().enumerate() {
        take_step(rt, alloc, clients, at, step)?;
    }
    Ok(())
}

/// Takes the steps from no client on.
pub(crate) fn play(rt: &impl Abort, alloc: Global, steps: &[Step]) -> Result<(), NoMemory> {
    let mut clients = ClientTable::new(alloc);
    take_steps(rt, alloc, &mut clients, steps)
}
