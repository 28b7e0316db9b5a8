//! Runs of one jail with one log.
use crate::play;
use crate::play::{File, Given, log, one, tree};
use f2b_base::Seq;
use std::alloc::Global;
use std::test::Fail;

/// One run: what it is given, and how it ends and what it says.
struct Row {
    words: &'static str,
    /// The files of the configuration.
    conf: &'static [File<'static>],
    /// What is written to the log before the first turn, before the second, and so on.
    log: &'static [&'static str],
    readings: &'static [u64],
    /// The places of the calls that fail.
    fails: &'static [u64],
    status: u8,
    said: &'static str,
}

const WEB: &[File] = &[(
    "jail.conf",
    "[web]\nenabled = true\nlogpath = /log\nignoreself = false\ndatepattern = Epoch\nfailregex = ^ fail from <IP4>$\nfindtime = 600\nmaxretry = 3\nbantime = 60\n",
)];

const LONG: &[File] = &[(
    "jail.conf",
    "[web]\nenabled = true\nlogpath = /log\nignoreself = false\ndatepattern = Epoch\nfailregex = ^ fail from <IP4>$\nfindtime = 600\nmaxretry = 3\nbantime = 600\n",
)];

const OPEN: &[File] = &[(
    "jail.conf",
    "[web]\nenabled = true\nlogpath = /log\nignoreself = false\ndatepattern = Epoch\nfailregex = (<IP4>\nfindtime = 600\nmaxretry = 3\nbantime = 60\n",
)];

const STARTS: [Row; 12] = [
    Row {
        words: "",
        conf: WEB,
        log: &[],
        readings: &[],
        fails: &[],
        status: 2,
        said: "0 ERROR usage\n",
    },
    Row {
        words: "--conf /c --turns 3",
        conf: &[],
        log: &[],
        readings: &[1000],
        fails: &[],
        status: 0,
        said: "1000 INFO Server ready\n",
    },
    Row {
        words: "--conf /c --turns 3",
        conf: &[(
            "jail.conf",
            "[web]\nenabled = true\nlogpath = /log\nfailregex = ^ fail from <IP4>$\nbantime = 0\n",
        )],
        log: &[],
        readings: &[],
        fails: &[],
        status: 4,
        said: "0 ERROR Configuration refused: jail.conf [web] bantime: BadTime\n",
    },
    Row {
        words: "--conf /c --turns 3",
        conf: WEB,
        log: &[],
        readings: &[],
        fails: &[0],
        status: 3,
        said: "0 ERROR configuration not read\n",
    },
    Row {
        words: "--conf /c --turns 3",
        conf: OPEN,
        log: &[],
        readings: &[],
        fails: &[],
        status: 11,
        said: "0 ERROR Pattern refused: web failregex 1 Syntax\n",
    },
    Row {
        words: "--conf /c --turns 3",
        conf: WEB,
        log: &[],
        readings: &[],
        fails: &[1],
        status: 11,
        said: "0 ERROR Pattern refused: web datepattern TooBig\n",
    },
    Row {
        words: "--conf /c --turns 3",
        conf: WEB,
        log: &[],
        readings: &[1000],
        fails: &[19],
        status: 9,
        said: "",
    },
    // The slots cannot be read.
    Row {
        words: "--conf /c --turns 3",
        conf: WEB,
        log: &[],
        readings: &[1000],
        fails: &[4],
        status: 5,
        said: "0 ERROR disk\n",
    },
    // Clients cannot be let in.
    Row {
        words: "--conf /c --turns 3",
        conf: WEB,
        log: &[],
        readings: &[1000],
        fails: &[7],
        status: 8,
        said: "0 ERROR socket\n",
    },
    // Nothing is said of an input that is not written.
    Row {
        words: "--conf /c --turns 3",
        conf: WEB,
        log: &[],
        readings: &[1000],
        fails: &[16],
        status: 5,
        said: "1000 ERROR disk\n",
    },
    // There is no room for the configuration.
    Row {
        words: "--conf /c --journal-limit 50 --turns 3",
        conf: WEB,
        log: &[],
        readings: &[1000],
        fails: &[],
        status: 7,
        said: "1000 ERROR journal full: 83 of 50\n",
    },
    // Each option stands there once.
    Row {
        words: "--conf /c --turns 3 --turns 3",
        conf: WEB,
        log: &[],
        readings: &[1000],
        fails: &[],
        status: 2,
        said: "0 ERROR usage\n",
    },
];

const RUNS: [Row; 7] = [
    Row {
        words: "--conf /c --turns 3",
        conf: WEB,
        log: &[
            "1700000100 fail from 192.0.2.7\n1700000101 fail from 192.0.2.7\n1700000102 fail from 192.0.2.7\n",
        ],
        readings: &[1700000110, 1700000110, 1700000169, 1700000170],
        fails: &[],
        status: 0,
        said: "1700000110 INFO Server ready\n1700000110 INFO [web] Found 192.0.2.7\n1700000110 INFO [web] Found 192.0.2.7\n1700000110 INFO [web] Found 192.0.2.7\n1700000110 NOTICE [web] Ban 192.0.2.7\n1700000170 NOTICE [web] Unban 192.0.2.7\n",
    },
    Row {
        words: "--conf /c --turns 3",
        conf: WEB,
        log: &[
            "1700000100 fail from 192.0.2.7\n",
            "1700000300 fail from 192.0.2.7\n",
            "1700000699 fail from 192.0.2.7\n",
        ],
        readings: &[1700000100, 1700000100, 1700000300, 1700000699],
        fails: &[],
        status: 0,
        said: "1700000100 INFO Server ready\n1700000100 INFO [web] Found 192.0.2.7\n1700000300 INFO [web] Found 192.0.2.7\n1700000699 INFO [web] Found 192.0.2.7\n1700000699 NOTICE [web] Ban 192.0.2.7\n",
    },
    Row {
        words: "--conf /c --turns 3",
        conf: WEB,
        log: &[
            "1700000100 fail from 192.0.2.7\n",
            "1700000300 fail from 192.0.2.7\n",
            "1700000700 fail from 192.0.2.7\n",
        ],
        readings: &[1700000100, 1700000100, 1700000300, 1700000700],
        fails: &[],
        status: 0,
        said: "1700000100 INFO Server ready\n1700000100 INFO [web] Found 192.0.2.7\n1700000300 INFO [web] Found 192.0.2.7\n1700000700 INFO [web] Found 192.0.2.7\n",
    },
    Row {
        words: "--conf /c --turns 1",
        conf: WEB,
        log: &[
            "1700000500 fail from 192.0.2.7\n1700000100 fail from 192.0.2.7\n1700000300 fail from 192.0.2.7\n",
        ],
        readings: &[1700000500],
        fails: &[],
        status: 0,
        said: "1700000500 INFO Server ready\n1700000500 INFO [web] Found 192.0.2.7\n1700000500 INFO [web] Found 192.0.2.7\n1700000500 INFO [web] Found 192.0.2.7\n1700000500 NOTICE [web] Ban 192.0.2.7\n",
    },
    Row {
        words: "--conf /c --turns 4",
        conf: LONG,
        log: &[
            "1700001000 fail from 192.0.2.7\n1700001000 fail from 192.0.2.7\n1700001000 fail from 192.0.2.7\n",
        ],
        readings: &[1700001000, 1700001000, 1700000950, 1700001599, 1700001600],
        fails: &[],
        status: 0,
        said: "1700001000 INFO Server ready\n1700001000 INFO [web] Found 192.0.2.7\n1700001000 INFO [web] Found 192.0.2.7\n1700001000 INFO [web] Found 192.0.2.7\n1700001000 NOTICE [web] Ban 192.0.2.7\n1700001600 NOTICE [web] Unban 192.0.2.7\n",
    },
    Row {
        words: "--conf /c --turns 3",
        conf: WEB,
        log: &[
            "",
            "1700000100 fail fr",
            "om 192.0.2.7\r\n1700000100 fail from 999.1.1.1\nno date\n",
        ],
        readings: &[1700000110],
        fails: &[20, 24],
        status: 0,
        said: "1700000110 INFO Server ready\n1700000110 INFO [web] Found 192.0.2.7\n",
    },
    Row {
        words: "--conf /c --turns 2",
        conf: WEB,
        log: &[],
        readings: &[],
        fails: &[],
        status: 0,
        said: "0 INFO Server ready\n",
    },
];

/// Here each part stands in the log's place, and not behind the parts before it.
const ROTATIONS: [Row; 2] = [
    // Another log, shorter than the first.
    Row {
        words: "--conf /c --turns 3",
        conf: WEB,
        log: &[
            "1700000100 fail from 192.0.2.7\n1700000101 fail from 192.0.2.7\n",
            "1700000102 fail from 192.0.2.7\n",
            "1700000102 fail from 192.0.2.7\n",
        ],
        readings: &[1700000110],
        fails: &[],
        status: 0,
        said: "1700000110 INFO Server ready\n1700000110 INFO [web] Found 192.0.2.7\n1700000110 INFO [web] Found 192.0.2.7\n1700000110 INFO [web] rotated /log\n1700000110 INFO [web] Found 192.0.2.7\n1700000110 NOTICE [web] Ban 192.0.2.7\n",
    },
    // The same log, truncated.
    Row {
        words: "--conf /c --turns 3",
        conf: WEB,
        log: &[
            "1700000100 fail from 192.0.2.7\n1700000101 fail from 192.0.2.7\n1700000102 fai",
            "",
            "1700000103 fail from 192.0.2.7\n",
        ],
        readings: &[1700000110],
        fails: &[],
        status: 0,
        said: "1700000110 INFO Server ready\n1700000110 INFO [web] Found 192.0.2.7\n1700000110 INFO [web] Found 192.0.2.7\n1700000110 INFO [web] rotated /log\n1700000110 INFO [web] Found 192.0.2.7\n1700000110 NOTICE [web] Ban 192.0.2.7\n",
    },
];

fn is_as_wanted(alloc: Global, row: &Row, rotated: bool) -> Result<bool, Fail> {
    let given = Given {
        words: row.words,
        trees: one(alloc, tree(alloc, row.conf)?)?,
        readings: row.readings,
        changes: log(alloc, row.log, rotated)?,
        children: Seq::new(alloc),
        clients: Seq::new(alloc),
        fails: row.fails,
    };
    play::is_as_wanted(alloc, given, row.status, row.said)
}

#[test]
fn starts_or_says_why_not(rt: HostRuntime) -> Result<(), Fail> {
    for row in &STARTS {
        assert!(rt; is_as_wanted(rt.alloc(), row, false)?, "at {}", row.said);
    }
    Ok(())
}

#[test]
fn bans_who_fails_too_often(rt: HostRuntime) -> Result<(), Fail> {
    for row in &RUNS {
        assert!(rt; is_as_wanted(rt.alloc(), row, false)?, "at {}", row.said);
    }
    Ok(())
}

#[test]
fn finds_the_lines_of_a_rotated_log(rt: HostRuntime) -> Result<(), Fail> {
    for row in &ROTATIONS {
        assert!(rt; is_as_wanted(rt.alloc(), row, true)?, "at {}", row.said);
    }
    Ok(())
}
