//! Runs of one action, as transcripts of what is said and which commands are started, polled and ended.
use crate::transcript::transcript;
use f2b_base::{Bytes, Reading, Seq, Text, Tree, TreeAnswer, TreeFile};
use f2b_mem::{ChildPlan, FileChange, Image, MemWorld, Script};
use server_top::server;
use std::alloc::Global;
use std::test::Fail;

/// One run: what it is given, and what comes of it.
struct Row {
    words: &'static str,
    /// The jails, and the file of their action.
    jails: &'static str,
    action: &'static str,
    /// At the start, and then turn by turn.
    readings: &'static [u64],
    /// How the commands run that are started, in order: how often they still run when they are polled, and what they end with, if
    /// they do. Those after the last end with 0.
    children: &'static [(u32, Option<i32>)],
    /// The places of the calls that fail.
    fails: &'static [u64],
    transcript: &'static str,
}

const FAIL: &str = "[Definition]\ndatepattern = Epoch\nfailregex = ^ fail from <IP4>$\n";

const LOG: &str = "1700000990 fail from 192.0.2.7\n";

const MINUTE: &str =
    "[web]\nenabled = true\nfilter = fail\nlogpath = /log\nmaxretry = 1\nbantime = 60\naction = note\n";

const HOUR: &str =
    "[web]\nenabled = true\nfilter = fail\nlogpath = /log\nmaxretry = 1\nbantime = 3600\naction = note\n";

/// Seventeen lanes of two jails, whose log is not there.
const MANY: &str =
    "[DEFAULT]\nenabled = true\nfilter = fail\nlogpath = /none\n[web]\naction = note[actname=a]\n  note[actname=b]\n  note[actname=c]\n  note[actname=d]\n  note[actname=e]\n  note[actname=f]\n  note[actname=g]\n  note[actname=h]\n  note[actname=i]\n  note[actname=j]\n  note[actname=k]\n  note[actname=l]\n  note[actname=m]\n  note[actname=n]\n  note[actname=o]\n  note[actname=p]\n[mail]\naction = note\n";

const NOTE: &str =
    "[Definition]\nactionstart = up\nactionstop = down\nactionban = add <ip>\nactionunban = del <ip>\ntimeout = 5\n";

const CHECKED: &str =
    "[Definition]\nactionstart = up\nactionstop = down\nactionban = add <ip>\nactionunban = del <ip>\nactioncheck = look\ntimeout = 5\n";

/// The command of its start is empty.
const UNBEGUN: &str = "[Definition]\nactionban = add <ip>\nactionunban = del <ip>\ntimeout = 5\n";

const ROWS: [Row; 8] = [
    // The command of a ban runs behind that of the start, and is taken back when the ban ends.
    Row {
        words: "--conf /c --turns 4",
        jails: MINUTE,
        action: NOTE,
        readings: &[1700001000, 1700001000, 1700001000, 1700001060],
        children: &[],
        fails: &[],
        transcript: "1700001000 INFO Server ready\n1700001000 INFO [web] Found 192.0.2.7\n1700001000 NOTICE [web] Ban 192.0.2.7\nstart 0 up\npause\npoll 0\nstart 1 add 192.0.2.7\npause\n1700001060 NOTICE [web] Unban 192.0.2.7\npoll 1\nstart 2 del 192.0.2.7\npause\npoll 2\npause\n",
    },
    // An empty command is run like any other, and the ban waits for it.
    Row {
        words: "--conf /c --turns 3",
        jails: HOUR,
        action: UNBEGUN,
        readings: &[1700001000],
        children: &[],
        fails: &[],
        transcript: "1700001000 INFO Server ready\n1700001000 INFO [web] Found 192.0.2.7\n1700001000 NOTICE [web] Ban 192.0.2.7\nstart 0 \npause\npoll 0\nstart 1 add 192.0.2.7\npause\npoll 1\npause\n",
    },
    // A command that fails is tried again after 2 seconds and after 4 more, and then given up.
    Row {
        words: "--conf /c --turns 8",
        jails: HOUR,
        action: NOTE,
        readings: &[
            1700001000, 1700001000, 1700001000, 1700001000, 1700001002, 1700001002, 1700001005,
            1700001006,
        ],
        children: &[(0, Some(0)), (0, Some(1)), (0, Some(1)), (0, Some(1))],
        fails: &[],
        transcript: "1700001000 INFO Server ready\n1700001000 INFO [web] Found 192.0.2.7\n1700001000 NOTICE [web] Ban 192.0.2.7\nstart 0 up\npause\npoll 0\nstart 1 add 192.0.2.7\npause\npoll 1\n1700001000 ERROR [web/note] ban failed: status 1\npause\nstart 1 add 192.0.2.7\npause\npoll 1\n1700001002 ERROR [web/note] ban failed: status 1\npause\npause\nstart 1 add 192.0.2.7\npause\npoll 1\n1700001006 ERROR [web/note] ban failed: status 1\n1700001006 ERROR [web/note] ban given up\npause\n",
    },
    // One that never ends is ended once it has run for as long as it may, and not a second before.
    Row {
        words: "--conf /c --turns 6",
        jails: HOUR,
        action: NOTE,
        readings: &[
            1700001000, 1700001000, 1700001000, 1700001004, 1700001005, 1700001007,
        ],
        children: &[(0, Some(0)), (0, None)],
        fails: &[],
        transcript: "1700001000 INFO Server ready\n1700001000 INFO [web] Found 192.0.2.7\n1700001000 NOTICE [web] Ban 192.0.2.7\nstart 0 up\npause\npoll 0\nstart 1 add 192.0.2.7\npause\npoll 1\npause\npoll 1\nkill 1\n1700001005 ERROR [web/note] ban failed: timed out\npause\nstart 1 add 192.0.2.7\npause\npoll 1\npause\n",
    },
    // A clock that jumps a day ahead makes a command late, and one that jumps back does not make a job due.
    Row {
        words: "--conf /c --turns 6",
        jails: HOUR,
        action: NOTE,
        readings: &[
            1700001000, 1700001000, 1700001000, 1700087400, 1700001001, 1700001003, 1700087402,
        ],
        children: &[(0, Some(0)), (0, None)],
        fails: &[],
        transcript: "1700001000 INFO Server ready\n1700001000 INFO [web] Found 192.0.2.7\n1700001000 NOTICE [web] Ban 192.0.2.7\nstart 0 up\npause\npoll 0\nstart 1 add 192.0.2.7\npause\n1700087400 NOTICE [web] Unban 192.0.2.7\npoll 1\nkill 1\n1700087400 ERROR [web/note] ban failed: timed out\npause\npause\npause\nstart 1 add 192.0.2.7\npause\n",
    },
    // A check that passes does so for one try: it comes again before the next.
    Row {
        words: "--conf /c --turns 7",
        jails: HOUR,
        action: CHECKED,
        readings: &[
            1700001000, 1700001000, 1700001000, 1700001000, 1700001000, 1700001002, 1700001004,
        ],
        children: &[(0, Some(0)), (1, Some(0)), (0, Some(1))],
        fails: &[],
        transcript: "1700001000 INFO Server ready\n1700001000 INFO [web] Found 192.0.2.7\n1700001000 NOTICE [web] Ban 192.0.2.7\nstart 0 up\npause\npoll 0\nstart 1 look\npause\npoll 1\npause\npoll 1\nstart 1 add 192.0.2.7\npause\npoll 1\n1700001002 ERROR [web/note] ban failed: status 1\npause\nstart 1 look\npause\npoll 1\nstart 1 add 192.0.2.7\npause\n",
    },
    // One that cannot be started fails, and the action starts anew in the same turn.
    Row {
        words: "--conf /c --turns 5",
        jails: HOUR,
        action: CHECKED,
        readings: &[1700001000],
        children: &[],
        fails: &[38],
        transcript: "1700001000 INFO Server ready\n1700001000 INFO [web] Found 192.0.2.7\n1700001000 NOTICE [web] Ban 192.0.2.7\nstart 0 up\npause\npoll 0\nstart 1 look: failed\n1700001000 WARNING [web/note] check failed: not started\n1700001000 INFO [web/note] restart\nstart 2 down\npause\npoll 2\nstart 3 up\npause\npoll 3\nstart 4 add 192.0.2.7\npause\npoll 4\npause\n",
    },
    // Sixteen commands run at once, and the next one once there is room.
    Row {
        words: "--conf /c --turns 3",
        jails: MANY,
        action: NOTE,
        readings: &[1700001000],
        children: &[],
        fails: &[],
        transcript: "1700001000 INFO Server ready\nstart 0 up\nstart 1 up\nstart 2 up\nstart 3 up\nstart 4 up\nstart 5 up\nstart 6 up\nstart 7 up\nstart 8 up\nstart 9 up\nstart 10 up\nstart 11 up\nstart 12 up\nstart 13 up\nstart 14 up\nstart 15 up\npause\npoll 0\npoll 1\npoll 2\npoll 3\npoll 4\npoll 5\npoll 6\npoll 7\npoll 8\npoll 9\npoll 10\npoll 11\npoll 12\npoll 13\npoll 14\npoll 15\nstart 16 up\npause\npoll 16\npause\n",
    },
];

fn file(alloc: Global, path: &str, content: &str) -> Result<TreeFile, Fail> {
    Ok(TreeFile {
        path: Text::from_str(alloc, path)?,
        content: Bytes::from_slice(alloc, content.as_bytes())?,
    })
}

fn trees(alloc: Global, row: &Row) -> Result<Seq<TreeAnswer>, Fail> {
    let mut files = Seq::new(alloc);
    files.push(file(alloc, "action.d/note.conf", row.action)?)?;
    files.push(file(alloc, "filter.d/fail.conf", FAIL)?)?;
    files.push(file(alloc, "jail.conf", row.jails)?)?;
    let mut trees = Seq::new(alloc);
    trees.push(TreeAnswer::Tree(Tree { files }))?;
    Ok(trees)
}

fn readings(alloc: Global, row: &Row) -> Result<Seq<Reading>, Fail> {
    let mut readings = Seq::new(alloc);
    for secs in row.readings {
        readings.push(Reading {
            secs: *secs,
            word: 0,
        })?;
    }
    Ok(readings)
}

fn plans(alloc: Global, row: &Row) -> Result<Seq<ChildPlan>, Fail> {
    let mut plans = Seq::new(alloc);
    for (polls, status) in row.children {
        plans.push(ChildPlan {
            polls: *polls,
            status: *status,
        })?;
    }
    Ok(plans)
}

fn world(alloc: Global, row: &Row) -> Result<MemWorld, Fail> {
    let mut changes = Seq::new(alloc);
    changes.push(FileChange {
        pauses: 0,
        path: Text::from_str(alloc, "/log")?,
        content: Some(Bytes::from_slice(alloc, LOG.as_bytes())?),
    })?;
    let script = Script {
        readings: readings(alloc, row)?,
        trees: trees(alloc, row)?,
        changes,
        children: plans(alloc, row)?,
        clients: Seq::new(alloc),
        fails: Seq::from(row.fails.to_vec(alloc)?),
        image: Image {
            slot0: Bytes::new(alloc),
            slot1: Bytes::new(alloc),
        },
    };
    Ok(MemWorld::new(alloc, script)?)
}

/// The status of a row's run, its transcript, and whether its world is still told.
fn run(alloc: Global, row: &Row) -> Result<(u8, Bytes, bool), Fail> {
    let mut words = Vec::new(alloc);
    for word in row.words.split_whitespace() {
        words.push(String::from_str(alloc, word)?)?;
    }
    let mut world = world(alloc, row)?;
    let status = server(alloc, words.as_slice(), &mut world);
    let transcript = transcript(alloc, world.events())?;
    Ok((status.number(), transcript, world.is_told()))
}

fn is_as_wanted(alloc: Global, row: &Row) -> Result<bool, Fail> {
    let (status, transcript, told) = run(alloc, row)?;
    Ok(told && status == 0 && transcript.as_slice() == row.transcript.as_bytes())
}

#[test]
fn runs_the_commands_of_an_action(rt: HostRuntime) -> Result<(), Fail> {
    for row in &ROWS {
        assert!(rt; is_as_wanted(rt.alloc(), row)?, "at {}", row.transcript);
    }
    Ok(())
}
