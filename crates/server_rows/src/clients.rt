//! Runs with clients, as transcripts of what is said and replied, of the clients that come and leave, and of commands.
use crate::callers::{Caller, plans};
use crate::play::{File, Given, log, nothing, one, play_over, tree};
use crate::transcript::transcript;
use f2b_base::{Seq, TreeAnswer};
use f2b_mem::ChildPlan;
use std::alloc::Global;
use std::test::Fail;

/// One run: what it is given, and what comes of it.
struct Row {
    words: &'static str,
    /// The files of the configuration, in byte order of their paths.
    conf: &'static [File<'static>],
    /// Those of its readings behind the first, in order; the last stay.
    again: &'static [&'static [File<'static>]],
    /// What is written to the log before the first turn, before the second, and so on.
    log: &'static [&'static str],
    /// At the start, and then turn by turn.
    readings: &'static [u64],
    callers: &'static [Caller],
    /// How often the commands that are started still run when they are polled, in order; each ends with 0 then.
    polls: &'static [u32],
    /// The places of the calls that fail.
    fails: &'static [u64],
    transcript: &'static str,
}

/// A filter for dates in seconds since 1970.
const FAIL: File = (
    "filter.d/fail.conf",
    "[Definition]\ndatepattern = Epoch\nfailregex = ^ fail from <IP4>$\n",
);

/// A jail without an action, whose log is not there.
const PLAIN: &[File] = &[
    FAIL,
    (
        "jail.conf",
        "[web]\nenabled = true\nfilter = fail\nlogpath = /log\nmaxretry = 1\nbantime = 60\n",
    ),
];

/// The same jail with an action.
const NOTED: &[File] = &[
    (
        "action.d/note.conf",
        "[Definition]\nactionstart = up\nactionstop = down\nactionban = add <ip>\nactionunban = del <ip>\ntimeout = 5\n",
    ),
    FAIL,
    (
        "jail.conf",
        "[web]\nenabled = true\nfilter = fail\nlogpath = /log\nmaxretry = 1\nbantime = 60\naction = note\n",
    ),
];

const REQUESTS: [Row; 3] = [
    // One request after the other: its length is read, then its words, and then its reply is written, each in a turn.
    Row {
        words: "--conf /c --turns 6",
        conf: PLAIN,
        again: &[],
        log: &[],
        readings: &[1700001000],
        callers: &[Caller {
            pauses: 0,
            asks: &["ping", "status"],
            tail: &[],
        }],
        polls: &[],
        fails: &[],
        transcript: "1700001000 INFO Server ready\naccept 0\npause\npause\nreply 0 accepted pong\npause\npause\npause\nreply 0 accepted Status\n|- Number of jail:\t1\n`- Jail list:\tweb\npause\n",
    },
    // A ban that is asked for is said and its command is started in the same turn, and it is replied to in the next.
    Row {
        words: "--conf /c --turns 6",
        conf: NOTED,
        again: &[],
        log: &[],
        readings: &[1700001000],
        callers: &[Caller {
            pauses: 0,
            asks: &["set web banip 192.0.2.7 192.0.2.7", "get web banip"],
            tail: &[],
        }],
        polls: &[],
        fails: &[],
        transcript: "1700001000 INFO Server ready\naccept 0\nstart 0 up\npause\npoll 0\n1700001000 NOTICE [web] Ban 192.0.2.7\nstart 1 add 192.0.2.7\npause\npoll 1\nreply 0 accepted 1\npause\npause\npause\nreply 0 accepted 192.0.2.7\npause\n",
    },
    // Words that are no request, and requests that are refused, change nothing, and the next request is heard.
    Row {
        words: "--conf /c --turns 12",
        conf: PLAIN,
        again: &[],
        log: &[],
        readings: &[1700001000],
        callers: &[Caller {
            pauses: 0,
            asks: &["sett", "set web banip 1.2.3", "status none", "unban"],
            tail: &[],
        }],
        polls: &[],
        fails: &[],
        transcript: "1700001000 INFO Server ready\naccept 0\npause\npause\nreply 0 refused Invalid command\npause\npause\npause\nreply 0 refused Bad address: word 4\npause\npause\npause\nreply 0 refused Sorry but the jail 'none' does not exist\npause\npause\npause\nreply 0 refused Wrong number of words\npause\n",
    },
];

/// A client that connects at once and sends nothing.
const SILENT: Caller = Caller {
    pauses: 0,
    asks: &[],
    tail: &[],
};

const LEAVES: [Row; 4] = [
    // Half a request, and no byte for 30 seconds.
    Row {
        words: "--conf /c --turns 4",
        conf: PLAIN,
        again: &[],
        log: &[],
        readings: &[1700001000, 1700001000, 1700001000, 1700001029, 1700001030],
        callers: &[Caller {
            pauses: 0,
            asks: &[],
            tail: &[0, 0, 0, 6, 0, 4, b'p'],
        }],
        polls: &[],
        fails: &[],
        transcript: "1700001000 INFO Server ready\naccept 0\npause\npause\npause\nclose 0\npause\n",
    },
    // Frames that are refused, each of which is the last: one that is too long, an empty one, and one whose word is cut.
    Row {
        words: "--conf /c --turns 7",
        conf: PLAIN,
        again: &[],
        log: &[],
        readings: &[1700001000],
        callers: &[
            Caller {
                pauses: 0,
                asks: &[],
                tail: &[255, 255, 255, 255, 0, 0, 0, 6],
            },
            Caller {
                pauses: 2,
                asks: &[],
                tail: &[0, 0, 0, 0],
            },
            Caller {
                pauses: 4,
                asks: &[],
                tail: &[0, 0, 0, 1, 9],
            },
        ],
        polls: &[],
        fails: &[],
        transcript: "1700001000 INFO Server ready\naccept 0\npause\nreply 0 refused Frame too long\nclose 0\npause\naccept 1\npause\nreply 1 refused Empty frame\nclose 1\npause\naccept 2\npause\npause\nreply 2 refused Bad word\nclose 2\npause\n",
    },
    // A read that fails.
    Row {
        words: "--conf /c --turns 2",
        conf: PLAIN,
        again: &[],
        log: &[],
        readings: &[1700001000],
        callers: &[Caller {
            pauses: 0,
            asks: &["ping"],
            tail: &[],
        }],
        polls: &[],
        fails: &[23],
        transcript: "1700001000 INFO Server ready\naccept 0\nclose 0\npause\npause\n",
    },
    // One is let in a turn, and the seventeenth once one of the others has left.
    Row {
        words: "--conf /c --turns 19",
        conf: PLAIN,
        again: &[],
        log: &[],
        readings: &[
            1700001000, 1700001000, 1700001001, 1700001002, 1700001003, 1700001004, 1700001005,
            1700001006, 1700001007, 1700001008, 1700001009, 1700001010, 1700001011, 1700001012,
            1700001013, 1700001014, 1700001015, 1700001016, 1700001030,
        ],
        callers: &[
            SILENT, SILENT, SILENT, SILENT, SILENT, SILENT, SILENT, SILENT, SILENT, SILENT, SILENT,
            SILENT, SILENT, SILENT, SILENT, SILENT, SILENT,
        ],
        polls: &[],
        fails: &[],
        transcript: "1700001000 INFO Server ready\naccept 0\npause\naccept 1\npause\naccept 2\npause\naccept 3\npause\naccept 4\npause\naccept 5\npause\naccept 6\npause\naccept 7\npause\naccept 8\npause\naccept 9\npause\naccept 10\npause\naccept 11\npause\naccept 12\npause\naccept 13\npause\naccept 14\npause\naccept 15\npause\npause\nclose 0\npause\naccept 16\npause\n",
    },
];

const STOPS: [Row; 2] = [
    // The commands of the bans are taken back, then the action is stopped, and once the reply is taken the run is over.
    Row {
        words: "--conf /c --turns 20",
        conf: NOTED,
        again: &[],
        log: &[],
        readings: &[1700001000],
        callers: &[Caller {
            pauses: 0,
            asks: &["set web banip 192.0.2.7", "stop"],
            tail: &[],
        }],
        polls: &[],
        fails: &[],
        transcript: "1700001000 INFO Server ready\naccept 0\nstart 0 up\npause\npoll 0\n1700001000 NOTICE [web] Ban 192.0.2.7\nstart 1 add 192.0.2.7\npause\npoll 1\nreply 0 accepted 1\npause\npause\n1700001000 INFO Stopping\nstart 2 del 192.0.2.7\npause\npoll 2\nreply 0 accepted Shutdown begun\nstart 3 down\npause\npoll 3\n",
    },
    // As long as a command runs behind a stop, clients are replied to, and what would change something is refused.
    Row {
        words: "--conf /c --turns 20",
        conf: NOTED,
        again: &[],
        log: &[],
        readings: &[1700001000],
        callers: &[Caller {
            pauses: 0,
            asks: &["stop", "set web banip 192.0.2.8", "ping"],
            tail: &[],
        }],
        polls: &[0, 9],
        fails: &[],
        transcript: "1700001000 INFO Server ready\naccept 0\nstart 0 up\npause\npoll 0\n1700001000 INFO Stopping\nstart 1 down\npause\npoll 1\nreply 0 accepted Shutdown begun\npause\npoll 1\npause\npoll 1\npause\npoll 1\nreply 0 refused Server is stopping\npause\npoll 1\npause\npoll 1\npause\npoll 1\nreply 0 accepted pong\npause\npoll 1\npause\npoll 1\npause\npoll 1\n",
    },
];

/// No jail at all.
const NOTHING: &[File] = &[];

/// The jail with an action, whose bans last longer.
const LONGER: &[File] = &[
    (
        "action.d/note.conf",
        "[Definition]\nactionstart = up\nactionstop = down\nactionban = add <ip>\nactionunban = del <ip>\ntimeout = 5\n",
    ),
    FAIL,
    (
        "jail.conf",
        "[web]\nenabled = true\nfilter = fail\nlogpath = /log\nmaxretry = 1\nbantime = 90\naction = note\n",
    ),
];

/// One that is refused.
const REFUSED: &[File] = &[
    FAIL,
    (
        "jail.conf",
        "[web]\nenabled = true\nfilter = fail\nlogpath = /log\nmaxretry = 1\nbantime = 0\n",
    ),
];

/// One that is too large: a world in memory takes a file with such a path for that.
const TOO_LARGE: &[File] = &[("none", "")];

/// One with a pattern that is none.
const OPEN: &[File] = &[(
    "jail.conf",
    "[web]\nenabled = true\nlogpath = /log\nfailregex = (<IP4>\n",
)];

const RELOADS: [Row; 6] = [
    // One that changes nothing is said, and replied to in the next turn.
    Row {
        words: "--conf /c --turns 3",
        conf: PLAIN,
        again: &[],
        log: &[],
        readings: &[1700001000],
        callers: &[Caller {
            pauses: 0,
            asks: &["reload"],
            tail: &[],
        }],
        polls: &[],
        fails: &[],
        transcript: "1700001000 INFO Server ready\naccept 0\npause\n1700001000 INFO Reloaded\npause\nreply 0 accepted OK\npause\n",
    },
    // One that is refused changes nothing: the client is told why, the same is said, and the server goes on.
    Row {
        words: "--conf /c --turns 6",
        conf: PLAIN,
        again: &[REFUSED],
        log: &[],
        readings: &[1700001000],
        callers: &[Caller {
            pauses: 0,
            asks: &["reload", "get web bantime"],
            tail: &[],
        }],
        polls: &[],
        fails: &[],
        transcript: "1700001000 INFO Server ready\naccept 0\npause\n1700001000 ERROR Configuration refused: jail.conf [web] bantime: BadTime\npause\nreply 0 refused Configuration refused: jail.conf [web] bantime: BadTime\npause\npause\npause\nreply 0 accepted 60\npause\n",
    },
    // One that cannot be read, one that is too large, and one with a pattern that is none: each changes nothing.
    Row {
        words: "--conf /c --turns 12",
        conf: PLAIN,
        again: &[PLAIN, TOO_LARGE, OPEN],
        log: &[],
        readings: &[1700001000],
        callers: &[Caller {
            pauses: 0,
            asks: &["reload", "reload", "reload", "get web bantime"],
            tail: &[],
        }],
        polls: &[],
        fails: &[29],
        transcript: "1700001000 INFO Server ready\naccept 0\npause\n1700001000 ERROR Configuration not read\npause\nreply 0 refused Configuration not read\npause\npause\n1700001000 ERROR Configuration too large\npause\nreply 0 refused Configuration too large\npause\npause\n1700001000 ERROR Pattern refused: web failregex 1 Syntax\npause\nreply 0 refused Pattern refused: web failregex 1 Syntax\npause\npause\npause\nreply 0 accepted 60\npause\n",
    },
    // A log goes on behind what was read of it, in the middle of a line too.
    Row {
        words: "--conf /c --turns 3",
        conf: PLAIN,
        again: &[],
        log: &[
            "1700000990 fail from 192.0.2.7\n1700000991 fail fr",
            "",
            "om 192.0.2.8\n1700000992 fail from 192.0.2.9\n",
        ],
        readings: &[1700001000],
        callers: &[Caller {
            pauses: 0,
            asks: &["reload"],
            tail: &[],
        }],
        polls: &[],
        fails: &[],
        transcript: "1700001000 INFO Server ready\n1700001000 INFO [web] Found 192.0.2.7\n1700001000 NOTICE [web] Ban 192.0.2.7\naccept 0\npause\n1700001000 INFO Reloaded\npause\n1700001000 INFO [web] Found 192.0.2.8\n1700001000 NOTICE [web] Ban 192.0.2.8\n1700001000 INFO [web] Found 192.0.2.9\n1700001000 NOTICE [web] Ban 192.0.2.9\nreply 0 accepted OK\npause\n",
    },
    // A jail that is gone lets its bans go, and its action is stopped. A client that is behind the one that asked is served in the same turn.
    Row {
        words: "--conf /c --turns 7",
        conf: NOTED,
        again: &[NOTHING],
        log: &[],
        readings: &[1700001000],
        callers: &[
            Caller {
                pauses: 0,
                asks: &["set web banip 192.0.2.7", "reload"],
                tail: &[],
            },
            Caller {
                pauses: 3,
                asks: &["status"],
                tail: &[],
            },
        ],
        polls: &[],
        fails: &[],
        transcript: "1700001000 INFO Server ready\naccept 0\nstart 0 up\npause\npoll 0\n1700001000 NOTICE [web] Ban 192.0.2.7\nstart 1 add 192.0.2.7\npause\npoll 1\nreply 0 accepted 1\npause\naccept 1\npause\n1700001000 INFO Reloaded\nstart 2 del 192.0.2.7\npause\npoll 2\nreply 0 accepted OK\nreply 1 accepted Status\n|- Number of jail:\t0\n`- Jail list:\t\nstart 3 down\npause\npoll 3\npause\n",
    },
    // A jail that stays keeps its bans, and its action stays up.
    Row {
        words: "--conf /c --turns 9",
        conf: NOTED,
        again: &[LONGER],
        log: &[],
        readings: &[1700001000],
        callers: &[Caller {
            pauses: 0,
            asks: &["set web banip 192.0.2.7", "reload", "get web bantime"],
            tail: &[],
        }],
        polls: &[],
        fails: &[],
        transcript: "1700001000 INFO Server ready\naccept 0\nstart 0 up\npause\npoll 0\n1700001000 NOTICE [web] Ban 192.0.2.7\nstart 1 add 192.0.2.7\npause\npoll 1\nreply 0 accepted 1\npause\npause\n1700001000 INFO Reloaded\npause\nreply 0 accepted OK\npause\npause\npause\nreply 0 accepted 90\npause\n",
    },
];

/// How the commands run.
fn children(alloc: Global, polls: &[u32]) -> Result<Seq<ChildPlan>, Fail> {
    let mut children = Seq::new(alloc);
    for polls in polls {
        children.push(ChildPlan {
            polls: *polls,
            status: Some(0),
        })?;
    }
    Ok(children)
}

fn trees(alloc: Global, row: &Row) -> Result<Seq<TreeAnswer>, Fail> {
    let mut trees = one(alloc, tree(alloc, row.conf)?)?;
    for conf in row.again {
        trees.push(tree(alloc, conf)?)?;
    }
    Ok(trees)
}

fn given(alloc: Global, row: &Row) -> Result<Given<'static>, Fail> {
    Ok(Given {
        words: row.words,
        trees: trees(alloc, row)?,
        readings: row.readings,
        changes: log(alloc, row.log, false)?,
        children: children(alloc, row.polls)?,
        clients: plans(alloc, row.callers)?,
        fails: row.fails,
    })
}

/// Whether a row's run ends well with its transcript.
fn is_as_wanted(alloc: Global, row: &Row) -> Result<bool, Fail> {
    let (status, world) = play_over(alloc, given(alloc, row)?, nothing(alloc))?;
    let transcript = transcript(alloc, world.events())?;
    Ok(world.is_told() && status == 0 && transcript.as_slice() == row.transcript.as_bytes())
}

#[test]
fn replies_to_requests(rt: HostRuntime) -> Result<(), Fail> {
    for row in &REQUESTS {
        assert!(rt; is_as_wanted(rt.alloc(), row)?, "at {}", row.transcript);
    }
    Ok(())
}

#[test]
fn lets_go_of_clients_that_are_over(rt: HostRuntime) -> Result<(), Fail> {
    for row in &LEAVES {
        assert!(rt; is_as_wanted(rt.alloc(), row)?, "at {}", row.transcript);
    }
    Ok(())
}

#[test]
fn stops_once_all_is_settled(rt: HostRuntime) -> Result<(), Fail> {
    for row in &STOPS {
        assert!(rt; is_as_wanted(rt.alloc(), row)?, "at {}", row.transcript);
    }
    Ok(())
}

#[test]
fn reads_the_configuration_again(rt: HostRuntime) -> Result<(), Fail> {
    for row in &RELOADS {
        assert!(rt; is_as_wanted(rt.alloc(), row)?, "at {}", row.transcript);
    }
    Ok(())
}
