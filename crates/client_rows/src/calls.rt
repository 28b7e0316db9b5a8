//! Calls over a link and a sink in memory.

use client_tool::{ClientStatus, client};
use f2b_base::{Bytes, NoMemory, Seq};
use f2b_mem::{Image, MemLink, MemWorld, Script};
use f2b_world::{Event, Link, Sink};
use std::alloc::Global;
use std::fmt::Debug;
use std::process::Abort;
use std::test::Fail;

/// A call, and what comes of it.
struct Row {
    words: &'static [&'static str],
    /// What the server says, in pieces of two bytes.
    says: &'static [u8],
    /// What was sent to it.
    sent: &'static [u8],
    prints: &'static str,
    status: ClientStatus,
}

/// `ping`, `status` and `set x` as they are sent.
const PING: &[u8] = &[0, 0, 0, 6, 0, 4, b'p', b'i', b'n', b'g'];

const STATUS: &[u8] = &[0, 0, 0, 8, 0, 6, b's', b't', b'a', b't', b'u', b's'];

const SET_X: &[u8] = &[0, 0, 0, 8, 0, 3, b's', b'e', b't', 0, 1, b'x'];

/// What a server says that accepts, and one that does not.
const PONG: &[u8] = &[0, 0, 0, 5, 0, b'p', b'o', b'n', b'g'];

const NO: &[u8] = &[0, 0, 0, 3, 1, b'n', b'o'];

const ROWS: [Row; 41] = [
    // A ping that is accepted, whatever the reply's text is; one with a word too many is no ping.
    Row {
        words: &["ping"],
        says: PONG,
        sent: PING,
        prints: "Server replied: pong\n",
        status: ClientStatus::Done,
    },
    Row {
        words: &["ping"],
        says: &[0, 0, 0, 1, 0],
        sent: PING,
        prints: "Server replied: pong\n",
        status: ClientStatus::Done,
    },
    Row {
        words: &["ping"],
        says: NO,
        sent: PING,
        prints: "no\n",
        status: ClientStatus::Refused,
    },
    Row {
        words: &["ping", ""],
        says: PONG,
        sent: &[0, 0, 0, 8, 0, 4, b'p', b'i', b'n', b'g', 0, 0],
        prints: "pong\n",
        status: ClientStatus::Done,
    },
    // Any other reply is printed as it is.
    Row {
        words: &["status"],
        says: PONG,
        sent: STATUS,
        prints: "pong\n",
        status: ClientStatus::Done,
    },
    Row {
        words: &["status"],
        says: &[0, 0, 0, 1, 0],
        sent: STATUS,
        prints: "\n",
        status: ClientStatus::Done,
    },
    Row {
        words: &["status"],
        says: &[0, 0, 0, 5, 0, b'a', b'\n', 0xc3, 0xa9],
        sent: STATUS,
        prints: "a\n\u{e9}\n",
        status: ClientStatus::Done,
    },
    Row {
        words: &["set", "x"],
        says: NO,
        sent: SET_X,
        prints: "no\n",
        status: ClientStatus::Refused,
    },
    Row {
        words: &["set", "x"],
        says: &[0, 0, 0, 1, 1],
        sent: SET_X,
        prints: "\n",
        status: ClientStatus::Refused,
    },
    // Not more than one reply is received.
    Row {
        words: &["status"],
        says: &[0, 0, 0, 2, 0, b'a', 0, 0, 0, 2, 1, b'b'],
        sent: STATUS,
        prints: "a\n",
        status: ClientStatus::Done,
    },
    // What is no reply: a third first byte, a length of none and one too long, and bytes that are no text.
    Row {
        words: &["status"],
        says: &[0, 0, 0, 2, 2, b'x'],
        sent: STATUS,
        prints: "",
        status: ClientStatus::BadReply,
    },
    Row {
        words: &["status"],
        says: &[0, 0, 0, 0],
        sent: STATUS,
        prints: "",
        status: ClientStatus::BadReply,
    },
    Row {
        words: &["status"],
        says: &[4, 0, 0, 2],
        sent: STATUS,
        prints: "",
        status: ClientStatus::BadReply,
    },
    Row {
        words: &["status"],
        says: &[0, 0, 0, 2, 0, 0xff],
        sent: STATUS,
        prints: "",
        status: ClientStatus::BadReply,
    },
    // The longest reply would be one, if it came.
    Row {
        words: &["status"],
        says: &[4, 0, 0, 1, 0],
        sent: STATUS,
        prints: "",
        status: ClientStatus::LinkEnded,
    },
    Row {
        words: &["status"],
        says: &[],
        sent: STATUS,
        prints: "",
        status: ClientStatus::LinkEnded,
    },
    // A socket of its own, which is read once, and may be the empty path.
    Row {
        words: &["-s", "/s", "ping"],
        says: PONG,
        sent: PING,
        prints: "Server replied: pong\n",
        status: ClientStatus::Done,
    },
    Row {
        words: &["-s", "", "status"],
        says: PONG,
        sent: STATUS,
        prints: "pong\n",
        status: ClientStatus::Done,
    },
    Row {
        words: &["-s", "/s", "-s"],
        says: NO,
        sent: &[0, 0, 0, 4, 0, 2, b'-', b's'],
        prints: "no\n",
        status: ClientStatus::Refused,
    },
    // Of a request that is accepted nothing is printed where that is asked for, in front of the socket or behind it; of one that is refused its reply is.
    Row {
        words: &["-q", "ping"],
        says: PONG,
        sent: PING,
        prints: "",
        status: ClientStatus::Done,
    },
    Row {
        words: &["-q", "status"],
        says: NO,
        sent: STATUS,
        prints: "no\n",
        status: ClientStatus::Refused,
    },
    Row {
        words: &["-q", "-s", "/s", "status"],
        says: PONG,
        sent: STATUS,
        prints: "",
        status: ClientStatus::Done,
    },
    Row {
        words: &["-s", "/s", "-q", "status"],
        says: PONG,
        sent: STATUS,
        prints: "",
        status: ClientStatus::Done,
    },
    Row {
        words: &["-s", "/s", "-q", "set", "x"],
        says: NO,
        sent: SET_X,
        prints: "no\n",
        status: ClientStatus::Refused,
    },
    Row {
        words: &["-q", "status"],
        says: &[],
        sent: STATUS,
        prints: "",
        status: ClientStatus::LinkEnded,
    },
    Row {
        words: &["status", "-q"],
        says: PONG,
        sent: &[
            0, 0, 0, 12, 0, 6, b's', b't', b'a', b't', b'u', b's', 0, 2, b'-', b'q',
        ],
        prints: "pong\n",
        status: ClientStatus::Done,
    },
    Row {
        words: &["-q"],
        says: PONG,
        sent: &[],
        prints: "",
        status: ClientStatus::Usage,
    },
    Row {
        words: &["-s", "/s", "-q"],
        says: PONG,
        sent: &[],
        prints: "",
        status: ClientStatus::Usage,
    },
    Row {
        words: &["-q", "--str2sec", "1h"],
        says: PONG,
        sent: &[],
        prints: "",
        status: ClientStatus::Usage,
    },
    Row {
        words: &["-q", "-d"],
        says: PONG,
        sent: &[],
        prints: "",
        status: ClientStatus::Usage,
    },
    // No word, and no path.
    Row {
        words: &[],
        says: PONG,
        sent: &[],
        prints: "",
        status: ClientStatus::Usage,
    },
    Row {
        words: &["-s"],
        says: PONG,
        sent: &[],
        prints: "",
        status: ClientStatus::Usage,
    },
    Row {
        words: &["-s", "/s"],
        says: PONG,
        sent: &[],
        prints: "",
        status: ClientStatus::Usage,
    },
    Row {
        words: &["-d"],
        says: PONG,
        sent: &[],
        prints: "",
        status: ClientStatus::Usage,
    },
    Row {
        words: &["-t", "status"],
        says: PONG,
        sent: &[],
        prints: "",
        status: ClientStatus::Usage,
    },
    // Time words.
    Row {
        words: &["--str2sec", "1h"],
        says: &[],
        sent: &[],
        prints: "3600\n",
        status: ClientStatus::Done,
    },
    Row {
        words: &["--str2sec", " 1d 12h30m "],
        says: &[],
        sent: &[],
        prints: "131400\n",
        status: ClientStatus::Done,
    },
    Row {
        words: &["--str2sec", "-1"],
        says: &[],
        sent: &[],
        prints: "-1\n",
        status: ClientStatus::Done,
    },
    Row {
        words: &["--str2sec", "5q"],
        says: &[],
        sent: &[],
        prints: "",
        status: ClientStatus::Usage,
    },
    Row {
        words: &["--str2sec"],
        says: &[],
        sent: &[],
        prints: "",
        status: ClientStatus::Usage,
    },
    Row {
        words: &["--str2sec", "1h", "30m"],
        says: &[],
        sent: &[],
        prints: "",
        status: ClientStatus::Usage,
    },
];

fn all_rows() -> &'static [Row] {
    &ROWS
}

/// Fails at this place unless what was seen is what is wanted.
fn same<A: Debug, T: PartialEq + Debug>(rt: &impl Abort, at: &A, saw: &T, want: &T) {
    assert!(rt; *saw == *want, "at {at:?}: {saw:?}, not {want:?}");
}

fn places(alloc: Global, fails: &[u64]) -> Result<Seq<u64>, NoMemory> {
    Ok(Seq::from(fails.to_vec(alloc)?))
}

/// A link over which these bytes come in pieces of two, and whose calls at these places fail.
fn link_of(alloc: Global, bytes: &[u8], fails: &[u64]) -> Result<MemLink, NoMemory> {
    let fails = places(alloc, fails)?;
    let bytes = Bytes::from_slice(alloc, bytes)?;
    MemLink::new(alloc, bytes, 2, fails)
}

/// A world whose calls at these places fail, for a sink.
fn sink_of(alloc: Global, fails: &[u64]) -> Result<MemWorld, NoMemory> {
    let fails = places(alloc, fails)?;
    let image = Image {
        slot0: Bytes::new(alloc),
        slot1: Bytes::new(alloc),
    };
    let script = Script {
        readings: Seq::new(alloc),
        trees: Seq::new(alloc),
        changes: Seq::new(alloc),
        children: Seq::new(alloc),
        clients: Seq::new(alloc),
        fails,
        image,
    };
    MemWorld::new(alloc, script)
}

/// Both, where there was memory for them.
fn both<A: Drop, B: Drop>(
    one: Result<A, NoMemory>,
    other: Result<B, NoMemory>,
) -> Result<(A, B), NoMemory> {
    let one = one?;
    let other = other?;
    Ok((one, other))
}

/// A link over which these bytes come, and a sink, whose calls at these places fail.
fn place_of(
    alloc: Global,
    bytes: &[u8],
    link_fails: &[u64],
    sink_fails: &[u64],
) -> Result<(MemLink, MemWorld), NoMemory> {
    both(
        link_of(alloc, bytes, link_fails),
        sink_of(alloc, sink_fails),
    )
}

/// How a call ended, how often something was said, and what was said and sent.
#[derive(Drop)]
struct Outcome {
    status: ClientStatus,
    count: usize,
    said: Bytes,
    sent: Bytes,
}

/// Where a call is made.
trait Place: Drop {
    fn call(&mut self, alloc: Global, words: &[String]) -> ClientStatus;

    /// What is seen once a call ended like this.
    fn look(&self, alloc: Global, status: ClientStatus) -> Result<Outcome, NoMemory>;
}

impl Place for (MemLink, MemWorld) {
    fn call(&mut self, alloc: Global, words: &[String]) -> ClientStatus {
        called(alloc, words, &mut self.0, &mut self.1)
    }

    fn look(&self, alloc: Global, status: ClientStatus) -> Result<Outcome, NoMemory> {
        outcome_of(alloc, status, self.0.sent(), self.1.events())
    }
}

fn called<L: Link, K: Sink>(
    alloc: Global,
    words: &[String],
    link: &mut L,
    sink: &mut K,
) -> ClientStatus {
    client(alloc, words, link, sink)
}

fn said(alloc: Global, events: &[Event]) -> Result<Bytes, NoMemory> {
    let mut said = Bytes::new(alloc);
    for event in events {
        if let Event::Say { bytes, .. } = event {
            said.push_slice(bytes.as_slice())?;
        }
    }
    Ok(said)
}

fn outcome_of(
    alloc: Global,
    status: ClientStatus,
    sent: &[u8],
    events: &[Event],
) -> Result<Outcome, NoMemory> {
    let said = said(alloc, events)?;
    let sent = Bytes::from_slice(alloc, sent)?;
    Ok(Outcome {
        status,
        count: events.len(),
        said,
        sent,
    })
}

fn words_of(alloc: Global, words: &[&str]) -> Result<Vec<String>, NoMemory> {
    let mut list = Vec::new(alloc);
    for word in words {
        list.push(String::from_str(alloc, word)?)?;
    }
    Ok(list)
}

/// What is seen of a call of these words at this place.
fn seen_at<T: Place>(
    alloc: Global,
    words: Result<Vec<String>, NoMemory>,
    place: Result<T, NoMemory>,
) -> Result<Outcome, NoMemory> {
    let words = words?;
    let mut place = place?;
    let status = place.call(alloc, words.as_slice());
    place.look(alloc, status)
}

/// What is seen of a call of these words, where these bytes come and the calls at these places fail.
fn seen(
    alloc: Global,
    words: &[&str],
    bytes: &[u8],
    link_fails: &[u64],
    sink_fails: &[u64],
) -> Result<Outcome, NoMemory> {
    let place = place_of(alloc, bytes, link_fails, sink_fails);
    seen_at(alloc, words_of(alloc, words), place)
}

/// How a call ended, and how often something was said.
fn end(seen: &Outcome) -> (ClientStatus, usize) {
    (seen.status, seen.count)
}

/// The same, and what was said and sent.
fn whole(seen: &Outcome) -> (ClientStatus, usize, &[u8], &[u8]) {
    (
        seen.status,
        seen.count,
        seen.said.as_slice(),
        seen.sent.as_slice(),
    )
}

fn ends(rt: &impl Abort, alloc: Global, row: &Row) -> Result<(), NoMemory> {
    let seen = seen(alloc, row.words, row.says, &[], &[])?;
    let count = usize::from(!row.prints.is_empty());
    let want = (row.status, count, row.prints.as_bytes(), row.sent);
    same(rt, &row.words, &whole(&seen), &want);
    Ok(())
}

fn all_end(rt: &impl Abort, alloc: Global, rows: &[Row]) -> Result<(), NoMemory> {
    for row in rows {
        ends(rt, alloc, row)?;
    }
    Ok(())
}

#[test]
fn a_call_ends_as_its_row_says(rt: HostRuntime) -> Result<(), Fail> {
    all_end(&rt, rt.alloc(), all_rows())?;
    Ok(())
}

/// A call that asks no server ends alike over a link on which every call would fail.
fn asks_no_server(rt: &impl Abort, alloc: Global, row: &Row) -> Result<(), NoMemory> {
    let seen = seen(alloc, row.words, row.says, &[0, 1, 2], &[])?;
    same(rt, &row.words, &seen.status, &row.status);
    Ok(())
}

fn ask_no_server(rt: &impl Abort, alloc: Global, rows: &[Row]) -> Result<(), NoMemory> {
    for row in rows {
        if row.sent.is_empty() {
            asks_no_server(rt, alloc, row)?;
        }
    }
    Ok(())
}

#[test]
fn seconds_and_words_that_ask_for_nothing_need_no_server(rt: HostRuntime) -> Result<(), Fail> {
    ask_no_server(&rt, rt.alloc(), all_rows())?;
    Ok(())
}

/// A ping of which these bytes come.
fn is_cut_at(rt: &impl Abort, alloc: Global, bytes: &[u8]) -> Result<(), NoMemory> {
    let seen = seen(alloc, &["ping"], bytes, &[], &[])?;
    same(rt, &bytes, &end(&seen), &(ClientStatus::LinkEnded, 0));
    Ok(())
}

/// A reply that is cut anywhere ended too soon, and nothing is printed of it.
fn is_cut(rt: &impl Abort, alloc: Global, reply: &[u8]) -> Result<(), NoMemory> {
    for len in 0..reply.len() {
        is_cut_at(rt, alloc, &reply[..len])?;
    }
    Ok(())
}

#[test]
fn nothing_is_printed_of_a_reply_that_is_cut(rt: HostRuntime) -> Result<(), Fail> {
    is_cut(&rt, rt.alloc(), PONG)?;
    is_cut(&rt, rt.alloc(), NO)?;
    Ok(())
}

fn is_lost_at(rt: &impl Abort, alloc: Global, reply: &[u8], place: u64) -> Result<(), NoMemory> {
    let seen = seen(alloc, &["ping"], reply, &[place], &[])?;
    let sent = if place < 2 { [].as_slice() } else { PING };
    let want = (ClientStatus::LinkFault, 0, [].as_slice(), sent);
    same(rt, &place, &whole(&seen), &want);
    Ok(())
}

/// Where any call on the link fails nothing is printed.
fn is_lost(rt: &impl Abort, alloc: Global, reply: &[u8]) -> Result<(), NoMemory> {
    for place in 0..7 {
        is_lost_at(rt, alloc, reply, place)?;
    }
    Ok(())
}

#[test]
fn nothing_is_printed_where_the_link_fails(rt: HostRuntime) -> Result<(), Fail> {
    is_lost(&rt, rt.alloc(), PONG)?;
    Ok(())
}

/// A sink that fails is its own end, whatever was to be printed.
fn is_unsaid(rt: &impl Abort, alloc: Global, words: &[&str], reply: &[u8]) -> Result<(), NoMemory> {
    let seen = seen(alloc, words, reply, &[], &[0])?;
    same(rt, &words, &end(&seen), &(ClientStatus::SinkFault, 1));
    Ok(())
}

fn are_unsaid(rt: &impl Abort, alloc: Global, rows: &[(&[&str], &[u8])]) -> Result<(), NoMemory> {
    for (words, reply) in rows {
        is_unsaid(rt, alloc, words, reply)?;
    }
    Ok(())
}

const UNSAID: [(&[&str], &[u8]); 3] = [
    (&["ping"], PONG),
    (&["status"], NO),
    (&["--str2sec", "1h"], PONG),
];

#[test]
fn a_text_that_cannot_be_printed_is_told(rt: HostRuntime) -> Result<(), Fail> {
    are_unsaid(&rt, rt.alloc(), &UNSAID)?;
    Ok(())
}

fn long_word(alloc: Global, len: usize) -> Result<String, NoMemory> {
    let mut word = String::new(alloc);
    for _ in 0..len {
        word.push('x')?;
    }
    Ok(word)
}

/// One word of so many bytes.
fn long_words(alloc: Global, len: usize) -> Result<Vec<String>, NoMemory> {
    let mut words = Vec::new(alloc);
    words.push(long_word(alloc, len)?)?;
    Ok(words)
}

/// How a call of one word of so many bytes ends, over a link whose first call fails.
fn long_call(
    rt: &impl Abort,
    alloc: Global,
    len: usize,
    status: ClientStatus,
) -> Result<(), NoMemory> {
    let place = place_of(alloc, &[], &[0], &[]);
    let seen = seen_at(alloc, long_words(alloc, len), place)?;
    same(rt, &len, &seen.status, &status);
    Ok(())
}

#[test]
fn a_request_of_more_than_65_536_bytes_is_not_sent(rt: HostRuntime) -> Result<(), Fail> {
    long_call(&rt, rt.alloc(), 65_534, ClientStatus::LinkFault)?;
    long_call(&rt, rt.alloc(), 65_535, ClientStatus::Usage)?;
    Ok(())
}

const NUMBERS: [(ClientStatus, u8); 8] = [
    (ClientStatus::Done, 0),
    (ClientStatus::Refused, 1),
    (ClientStatus::Usage, 2),
    (ClientStatus::LinkFault, 8),
    (ClientStatus::SinkFault, 9),
    (ClientStatus::BadReply, 12),
    (ClientStatus::LinkEnded, 13),
    (ClientStatus::NoMemory, 71),
];

fn have_numbers(rt: &impl Abort, rows: &[(ClientStatus, u8)]) {
    for (status, number) in rows {
        same(rt, status, &status.number(), number);
    }
}

#[test]
fn each_end_has_its_number(rt: HostRuntime) {
    have_numbers(&rt, &NUMBERS);
}
