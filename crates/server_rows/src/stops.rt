//! A run that is stopped at each of its calls, and another run over what the stop left.
use crate::play::{File, Given, change, is_said_over, nothing, one, play_over, said, tree};
use f2b_base::{Bytes, Seq};
use f2b_mem::{Image, MemWorld};
use f2b_world::{Event, Said};
use std::alloc::Global;
use std::process::Abort;
use std::test::Fail;

/// One failure bans for a minute.
const CONF: [File; 3] = [
    (
        "action.d/note.conf",
        "[Definition]\nactionstart = up\nactionstop = down\nactionban = add <ip>\nactionunban = del <ip>\ntimeout = 5\n",
    ),
    (
        "filter.d/fail.conf",
        "[Definition]\ndatepattern = Epoch\nfailregex = ^ fail from <IP4>$\n",
    ),
    (
        "jail.conf",
        "[web]\nenabled = true\nfilter = fail\nlogpath = /log\nmaxretry = 1\nbantime = 60\naction = note\n",
    ),
];

/// The readings of the first run: in its third turn the ban ends.
const READINGS: [u64; 4] = [1700001000, 1700001000, 1700001000, 1700001060];

/// Those of the run behind it: what it bans ends in its fifth turn.
const LATER: [u64; 6] = [
    1700001061, 1700001061, 1700001061, 1700001061, 1700001061, 1700001200,
];

/// What the run says that comes behind a stop: where no ban was stored, where one was, and where its end was.
const SAID_AGAIN: [&str; 3] = [
    "1700001061 INFO Server ready\n1700001061 INFO [web] Found 192.0.2.7\n1700001061 NOTICE [web] Ban 192.0.2.7\n1700001200 NOTICE [web] Unban 192.0.2.7\n",
    "1700001061 INFO Server ready\n1700001061 NOTICE [web] Unban 192.0.2.7\n",
    "1700001061 INFO Server ready\n",
];

/// The commands of both runs, those that were started again left out.
const STARTED: &str = "up\nadd 192.0.2.7\ndel 192.0.2.7\n";

/// How many of the unsynced bytes a stop keeps, and what the others are.
const TEARS: [(u32, u8); 5] = [(0, 0), (0, 255), (1, 0), (1, 255), (u32::MAX, 0)];

fn given(
    alloc: Global,
    words: &'static str,
    readings: &'static [u64],
) -> Result<Given<'static>, Fail> {
    let mut changes = Seq::new(alloc);
    changes.push(change(alloc, 0, "/log", Some("1700000990 fail from 192.0.2.7\n"))?)?;
    Ok(Given {
        words,
        trees: one(alloc, tree(alloc, &CONF)?)?,
        readings,
        changes,
        children: Seq::new(alloc),
        clients: Seq::new(alloc),
        fails: &[],
    })
}

// What a stop leaves once so many calls were made.
fn torn(world: &MemWorld, at: u64, keep: u32, fill: u8) -> Result<Image, Fail> {
    if !world.is_told() || at > world.events().len() as u64 {
        return Err("not told".into());
    }
    Ok(world.torn(at, keep, fill)?)
}

// How often something was said.
fn says(events: &[Event]) -> usize {
    let mut count = 0usize;
    for event in events {
        if let Event::Say {
            answer: Said::Done,
            ..
        } = event
        {
            count = count.saturating_add(1);
        }
    }
    count
}

// Adds the commands that were started, but for one that is the last one again.
fn add_started<'e>(out: &mut Bytes, last: &'e str, events: &'e [Event]) -> Result<&'e str, Fail> {
    let mut last = last;
    for event in events {
        if let Event::ChildStart { text, .. } = event {
            let text = text.as_str();
            if text != last {
                out.push_slice(text.as_bytes())?;
                out.push(b'\n')?;
                last = text;
            }
        }
    }
    Ok(last)
}

// The commands of both runs, those that were started again left out.
fn started(alloc: Global, first: &[Event], then: &[Event]) -> Result<Bytes, Fail> {
    let mut out = Bytes::new(alloc);
    let last = add_started(&mut out, "", first)?;
    add_started(&mut out, last, then)?;
    Ok(out)
}

// What the run behind the stop says fits what was said before it: of how many things it says no more.
fn is_said_on(said: &[u8], says: usize) -> bool {
    let least = says.saturating_sub(1);
    let most = least.saturating_add(1);
    SAID_AGAIN.iter().enumerate().any(|(k, want)| k >= least
        && k <= most
        && said == want.as_bytes())
}

// A run behind a stop goes on from what was said before it, and no command is left out.
fn goes_on(alloc: Global, first: &[Event], image: Image) -> Result<bool, Fail> {
    let later = given(alloc, "--conf /c --turns 9", &LATER)?;
    let (status, world) = play_over(alloc, later, image)?;
    let said = said(alloc, world.events())?;
    let started = started(alloc, first, world.events())?;
    Ok(
        world.is_told()
            && status == 0
            && is_said_on(said.as_slice(), says(first))
            && started.as_slice() == STARTED.as_bytes(),
    )
}

// Whether a stop behind a call leaves or has said anything else than one before it.
fn is_new(event: &Event) -> bool {
    matches!(
        event,
        Event::Say { .. }
            | Event::ChildStart { .. }
            | Event::DiskWrite { .. }
            | Event::DiskSync { .. }
    )
}

// How a stop behind a call tears the slots: in one way where all is synced.
fn tears(last: &Event) -> &'static [(u32, u8)] {
    if matches!(last, Event::DiskWrite { .. }) {
        return &TEARS;
    }
    &TEARS[..1]
}

// A stop behind the call at that place.
fn each_tear(
    rt: &impl Abort,
    alloc: Global,
    world: &MemWorld,
    at: usize,
    last: &Event,
) -> Result<(), Fail> {
    let calls = at.saturating_add(1);
    let first = world.events().get(..calls).ok_or("past the end")?;
    for &(keep, fill) in tears(last) {
        let image = torn(world, calls as u64, keep, fill)?;
        assert!(rt; goes_on(alloc, first, image)?, "{calls}, {keep}, {fill}");
    }
    Ok(())
}

fn each_stop(rt: &impl Abort, alloc: Global, world: &MemWorld) -> Result<(), Fail> {
    for (at, last) in world.events().iter().enumerate() {
        if is_new(last) {
            each_tear(rt, alloc, world, at, last)?;
        }
    }
    Ok(())
}

#[test]
fn a_run_goes_on_from_a_stop_at_any_call_of_the_one_before(rt: HostRuntime) -> Result<(), Fail> {
    let alloc = rt.alloc();
    let first = given(alloc, "--conf /c --turns 4", &READINGS)?;
    let (status, world) = play_over(alloc, first, nothing(alloc))?;
    assert_eq!(&rt; status, 0);
    each_stop(&rt, alloc, &world)
}

// The gate, generation 1, a version that nobody writes, and what stands behind it.
const NO_VERSION: [u8; 22] = [
    1, 0, 0, 0, 0, 0, 0, 0, 1, 3, 0, 0x80, 0xa3, 5, 0, 0, 0, 0, 0, 0, 0, 0,
];

#[test]
fn a_slot_that_is_no_journal_ends_the_run_before_anything_is_done(
    rt: HostRuntime,
) -> Result<(), Fail> {
    let alloc = rt.alloc();
    let given = given(alloc, "--conf /c --turns 4", &READINGS)?;
    let image = Image {
        slot0: Bytes::new(alloc),
        slot1: Bytes::from_slice(alloc, &NO_VERSION)?,
    };
    let want = "0 ERROR not a journal: slot 1 at 9\n";
    assert!(rt; is_said_over(alloc, given, image, 6, want)?);
    Ok(())
}
