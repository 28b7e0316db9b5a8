//! Runs of configurations of several files, jails and logs.
use crate::play;
use crate::play::{File, Given, change, one, tree};
use f2b_base::Seq;
use f2b_mem::{ChildPlan, FileChange};
use std::alloc::Global;
use std::test::Fail;

/// One run of three turns: what it is given, and how it ends and what it says.
struct Row {
    /// The files of the configuration, in byte order of their paths.
    conf: &'static [File<'static>],
    /// What becomes of other files after so many pauses: their content, or that they go.
    changes: &'static [(u64, &'static str, Option<&'static str>)],
    /// What the commands end with that are started, in order; those after the last end with 0.
    children: &'static [i32],
    /// The places of the calls that fail.
    fails: &'static [u64],
    status: u8,
    said: &'static str,
}

/// A filter for dates in seconds since 1970.
const FAIL: File = (
    "filter.d/fail.conf",
    "[Definition]\ndatepattern = Epoch\nfailregex = ^ fail from <IP4>$\n",
);

const TWO_JAILS: &str =
    "[DEFAULT]\nenabled = true\nfilter = fail\n[web]\nlogpath = /log/web\nmaxretry = 2\n[mail]\nlogpath = /log/mail\nmaxretry = 1\n[ftp]\nenabled = false\nlogpath = /log/web\nmaxretry = 1\n";

const ONE_JAIL: &str =
    "[web]\nenabled = true\nfilter = fail\nlogpath = /log/web\nmaxretry = 1\naction = note\n";

/// An action whose commands say what they are called with.
const NOTE: File = (
    "action.d/note.conf",
    "[Definition]\nactionban = echo <ip>\n",
);

/// The same with a check.
const CHECKED: File = (
    "action.d/note.conf",
    "[Definition]\nactionban = echo <ip>\nactioncheck = test -e /x\n",
);

const WILD: &str =
    "[web]\nenabled = true\nfilter = fail\nlogpath = /log/a*\n  /log/b\nmaxretry = 9\n";

const ROWS: [Row; 10] = [
    // Each jail its own log, in the order of the jails; a jail that is not enabled is none.
    Row {
        conf: &[FAIL, ("jail.conf", TWO_JAILS)],
        changes: &[
            (
                0,
                "/log/web",
                Some("1700000990 fail from 192.0.2.7\n1700000991 fail from 192.0.2.7\n"),
            ),
            (0, "/log/mail", Some("1700000992 fail from 192.0.2.8\n")),
        ],
        children: &[],
        fails: &[],
        status: 0,
        said: "1700001000 INFO Server ready\n1700001000 INFO [web] Found 192.0.2.7\n1700001000 INFO [web] Found 192.0.2.7\n1700001000 NOTICE [web] Ban 192.0.2.7\n1700001000 INFO [mail] Found 192.0.2.8\n1700001000 NOTICE [mail] Ban 192.0.2.8\n",
    },
    // The names that fit, in byte order; what comes into the directory later is no log of the jail.
    Row {
        conf: &[FAIL, ("jail.conf", WILD)],
        changes: &[
            (0, "/log/a2", Some("1700000990 fail from 192.0.2.2\n")),
            (0, "/log/a10", Some("1700000990 fail from 192.0.2.10\n")),
            (0, "/log/b", Some("1700000990 fail from 192.0.2.11\n")),
            (0, "/log/c", Some("1700000990 fail from 192.0.2.12\n")),
            (1, "/log/a3", Some("1700000990 fail from 192.0.2.3\n")),
        ],
        children: &[],
        fails: &[],
        status: 0,
        said: "1700001000 INFO Server ready\n1700001000 INFO [web] Found 192.0.2.10\n1700001000 INFO [web] Found 192.0.2.2\n1700001000 INFO [web] Found 192.0.2.11\n",
    },
    // A directory that cannot be listed gives no log, and is said; the other log is followed.
    Row {
        conf: &[FAIL, ("jail.conf", WILD)],
        changes: &[
            (0, "/log/a2", Some("1700000990 fail from 192.0.2.2\n")),
            (0, "/log/b", Some("1700000990 fail from 192.0.2.11\n")),
        ],
        children: &[],
        fails: &[9],
        status: 0,
        said: "1700001000 WARNING [web] cannot read /log/a*\n1700001000 INFO Server ready\n1700001000 INFO [web] Found 192.0.2.11\n",
    },
    // One log in two jails.
    Row {
        conf: &[
            FAIL,
            ("jail.conf", TWO_JAILS),
            ("jail.local", "[mail]\nlogpath = /log/web\nmaxretry = 5\n"),
        ],
        changes: &[(0, "/log/web", Some("1700000990 fail from 192.0.2.7\n"))],
        children: &[],
        fails: &[],
        status: 0,
        said: "1700001000 INFO Server ready\n1700001000 INFO [web] Found 192.0.2.7\n1700001000 INFO [mail] Found 192.0.2.7\n",
    },
    // A log that is another one, and one that is gone.
    Row {
        conf: &[FAIL, ("jail.conf", TWO_JAILS)],
        changes: &[
            (0, "/log/web", Some("1700000990 fail from 192.0.2.7\n")),
            (0, "/log/mail", Some("1700000991 no failure\n")),
            (1, "/log/web", Some("1700000992 fail from 192.0.2.9\n")),
            (1, "/log/mail", None),
        ],
        children: &[],
        fails: &[],
        status: 0,
        said: "1700001000 INFO Server ready\n1700001000 INFO [web] Found 192.0.2.7\n1700001000 INFO [web] rotated /log/web\n1700001000 INFO [web] Found 192.0.2.9\n",
    },
    // A command that ends well is run without a word.
    Row {
        conf: &[
            (
                "action.d/note.conf",
                "[Definition]\nactionban = echo <ip>\n",
            ),
            FAIL,
            (
                "jail.conf",
                "[web]\nenabled = true\nfilter = fail\nlogpath = /log/web\naction = note\n",
            ),
        ],
        changes: &[],
        children: &[],
        fails: &[],
        status: 0,
        said: "1700001000 INFO Server ready\n",
    },
    // The command of a ban fails: its action was started in the first turn, and the ban in the second.
    Row {
        conf: &[NOTE, FAIL, ("jail.conf", ONE_JAIL)],
        changes: &[(0, "/log/web", Some("1700000990 fail from 192.0.2.7\n"))],
        children: &[0, 1],
        fails: &[],
        status: 0,
        said: "1700001000 INFO Server ready\n1700001000 INFO [web] Found 192.0.2.7\n1700001000 NOTICE [web] Ban 192.0.2.7\n1700001000 ERROR [web/note] ban failed: status 1\n",
    },
    // The check before it fails, and the action starts anew.
    Row {
        conf: &[CHECKED, FAIL, ("jail.conf", ONE_JAIL)],
        changes: &[(0, "/log/web", Some("1700000990 fail from 192.0.2.7\n"))],
        children: &[0, 1],
        fails: &[],
        status: 0,
        said: "1700001000 INFO Server ready\n1700001000 INFO [web] Found 192.0.2.7\n1700001000 NOTICE [web] Ban 192.0.2.7\n1700001000 WARNING [web/note] check failed: status 1\n1700001000 INFO [web/note] restart\n",
    },
    // The first fault of a tree is told, and the file that has it.
    Row {
        conf: &[(
            "jail.conf",
            "[web]\nenabled = true\nfilter = none\nbantime = x\n",
        )],
        changes: &[],
        children: &[],
        fails: &[],
        status: 4,
        said: "0 ERROR Configuration refused: filter.d/none.conf [web] filter: MissingFile\n",
    },
    // The second pattern of the second jail is none.
    Row {
        conf: &[
            FAIL,
            (
                "filter.d/other.conf",
                "[Definition]\nfailregex = ^ from <HOST>$\n  (<HOST>\n",
            ),
            ("jail.conf", TWO_JAILS),
            ("jail.local", "[mail]\nfilter = other\n"),
        ],
        changes: &[],
        children: &[],
        fails: &[],
        status: 11,
        said: "0 ERROR Pattern refused: mail failregex 2 Syntax\n",
    },
];

fn changes(alloc: Global, row: &Row) -> Result<Seq<FileChange>, Fail> {
    let mut changes = Seq::new(alloc);
    for (pauses, path, content) in row.changes {
        changes.push(change(alloc, *pauses, path, *content)?)?;
    }
    Ok(changes)
}

fn plans(alloc: Global, row: &Row) -> Result<Seq<ChildPlan>, Fail> {
    let mut plans = Seq::new(alloc);
    for status in row.children {
        plans.push(ChildPlan {
            polls: 0,
            status: Some(*status),
        })?;
    }
    Ok(plans)
}

fn is_as_wanted(alloc: Global, row: &Row) -> Result<bool, Fail> {
    let given = Given {
        words: "--conf /c --turns 3",
        trees: one(alloc, tree(alloc, row.conf)?)?,
        readings: &[1_700_001_000],
        changes: changes(alloc, row)?,
        children: plans(alloc, row)?,
        clients: Seq::new(alloc),
        fails: row.fails,
    };
    play::is_as_wanted(alloc, given, row.status, row.said)
}

#[test]
fn follows_the_jails_of_a_tree(rt: HostRuntime) -> Result<(), Fail> {
    for row in &ROWS {
        assert!(rt; is_as_wanted(rt.alloc(), row)?, "at {}", row.said);
    }
    Ok(())
}
