//! Reports of patterns and of filters.
use crate::row::{File, Row, all_end};
use std::test::Fail;

const FILES: &[File<'static>] = &[
    (
        "/log",
        b"2024-03-01T10:00:00Z bad from 192.0.2.7\n2024-03-01T10:00:01Z user=test from 192.0.2.8\n2024-03-01T10:00:02Z fine\nno date from 192.0.2.9\n",
    ),
    (
        "/c/filter.d/sshd.conf",
        b"[Definition]\nprefregex = ^\\s*\\S+ sshd(?:-session)?\\[[0-9]+\\]: <F-CONTENT>.+</F-CONTENT>$\nfailregex = ^Failed \\S+ for (?:invalid user )?<F-USER>.*</F-USER> from <HOST> port [0-9]+(?: ssh2)?$\n    ^Invalid user <F-USER>.*</F-USER> from <HOST>(?: port [0-9]+)?$\nignoreregex =\n",
    ),
    (
        "./filter.d/own.conf",
        b"[Definition]\nfailregex = bad from <ADDR>\n    from <ADDR>\nignoreregex = test\n    user\n",
    ),
];

const SSHD: &str =
    "2024-03-01T10:00:00+00:00 host sshd[811]: Failed password for root from 192.0.2.7 port 4242 ssh2";

/// A pattern on one line, and on a log, with a pattern of lines to ignore.
const PATTERNS: [Row; 4] = [
    Row {
        words: &["2024-03-01T10:00:00Z from 192.0.2.7", "from <HOST>$"],
        status: 0,
        said: "Failregex: 1 total\n   1) [1] from <HOST>$\nIgnoreregex: 0 total\nLines: 1 lines, 0 ignored, 1 matched, 0 missed\n",
    },
    Row {
        words: &["/log", "from <HOST>$", "user=test"],
        status: 0,
        said: "Failregex: 1 total\n   1) [1] from <HOST>$\nIgnoreregex: 1 total\n   1) [1] user=test\nLines: 4 lines, 1 ignored, 1 matched, 2 missed\n",
    },
    // An empty pattern ignores every line.
    Row {
        words: &["/log", "from <HOST>$", ""],
        status: 0,
        said: "Failregex: 0 total\nIgnoreregex: 4 total\n   1) [4] \nLines: 4 lines, 4 ignored, 0 matched, 0 missed\n",
    },
    // A pattern that begins with a dash. The date of the words finds none in these lines.
    Row {
        words: &["-d", "Epoch", "/log", "--", "-?<HOST>"],
        status: 0,
        said: "Failregex: 0 total\nIgnoreregex: 0 total\nLines: 4 lines, 0 ignored, 0 matched, 4 missed\n",
    },
];

#[test]
fn reports_on_a_pattern(rt: HostRuntime) -> Result<(), Fail> {
    all_end(&rt, rt.alloc(), FILES, &PATTERNS)?;
    Ok(())
}

const FILTERS: [Row; 4] = [
    Row {
        words: &[SSHD, "/c/filter.d/sshd.conf"],
        status: 0,
        said: "Failregex: 1 total\n   1) [1] ^Failed \\S+ for (?:invalid user )?<F-USER>.*</F-USER> from <HOST> port [0-9]+(?: ssh2)?$\nIgnoreregex: 0 total\nLines: 1 lines, 0 ignored, 1 matched, 0 missed\n",
    },
    // The words stand in place of what the filter says.
    Row {
        words: &[SSHD, "/c/filter.d/sshd.conf", "root"],
        status: 0,
        said: "Failregex: 0 total\nIgnoreregex: 1 total\n   1) [1] root\nLines: 1 lines, 1 ignored, 0 matched, 0 missed\n",
    },
    Row {
        words: &["-d", "Epoch", SSHD, "/c/filter.d/sshd.conf"],
        status: 0,
        said: "Failregex: 0 total\nIgnoreregex: 0 total\nLines: 1 lines, 0 ignored, 0 matched, 1 missed\n",
    },
    // The first pattern that matches decides; a line without a date is ignored too.
    Row {
        words: &["/log", "filter.d/own.conf"],
        status: 0,
        said: "Failregex: 1 total\n   1) [1] bad from <ADDR>\nIgnoreregex: 1 total\n   1) [1] test\nLines: 4 lines, 1 ignored, 1 matched, 2 missed\n",
    },
];

#[test]
fn reports_on_a_filter(rt: HostRuntime) -> Result<(), Fail> {
    all_end(&rt, rt.alloc(), FILES, &FILTERS)?;
    Ok(())
}
