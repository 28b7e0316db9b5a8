//! What the words want to be shown, the zone of dates, and filters by their names.
use crate::row::{File, Row, all_end};
use std::test::Fail;

const FILES: &[File<'static>] = &[
    (
        "/log",
        b"2024-03-01T10:00:00Z bad from 192.0.2.7\n2024-03-01T10:00:01Z user=test from 192.0.2.8\n2024-03-01T10:00:02Z fine\nno date from 192.0.2.9\n",
    ),
    (
        "/hosts",
        b"1709287200 from 2001:db8::9\n1709287201 from mx.example.org\n1709287300 from 192.0.2.7\n1969-12-31T10:00:00Z from 192.0.2.7\n",
    ),
    (
        "/c/filter.d/mode.conf",
        b"[Definition]\nfailregex = <mode> from <ADDR>\n",
    ),
    (
        "/c/filter.d/loose.conf",
        b"[Definition]\nprefregex = ^ a<F-CONTENT>.*</F-CONTENT>\nfailregex = ^ <ADDR> \\\\$\n    <ADDR>\n",
    ),
];

const LINES: [Row; 4] = [
    Row {
        words: &["--print-all-missed", "/log", "from <HOST>$", "user=test"],
        status: 0,
        said: "Failregex: 1 total\n   1) [1] from <HOST>$\nIgnoreregex: 1 total\n   1) [1] user=test\nLines: 4 lines, 1 ignored, 1 matched, 2 missed\nMissed lines:\n   2024-03-01T10:00:02Z fine\n   no date from 192.0.2.9\n",
    },
    // A kind without lines has its heading alone.
    Row {
        words: &[
            "/log",
            "from <HOST>$",
            "--print-all-matched",
            "--print-all-ignored",
        ],
        status: 0,
        said: "Failregex: 2 total\n   1) [2] from <HOST>$\nIgnoreregex: 0 total\nLines: 4 lines, 0 ignored, 2 matched, 2 missed\nMatched lines:\n   2024-03-01T10:00:00Z bad from 192.0.2.7\n   2024-03-01T10:00:01Z user=test from 192.0.2.8\nIgnored lines:\n",
    },
    // In this order, whatever the order of the words. What is ignored is looked for in the line without its date.
    Row {
        words: &[
            "--print-all-ignored",
            "--print-all-missed",
            "--print-all-matched",
            "/log",
            "from <HOST>$",
            "test|fine|2024",
        ],
        status: 0,
        said: "Failregex: 1 total\n   1) [1] from <HOST>$\nIgnoreregex: 2 total\n   1) [2] test|fine|2024\nLines: 4 lines, 2 ignored, 1 matched, 1 missed\nMatched lines:\n   2024-03-01T10:00:00Z bad from 192.0.2.7\nIgnored lines:\n   2024-03-01T10:00:01Z user=test from 192.0.2.8\n   2024-03-01T10:00:02Z fine\nMissed lines:\n   no date from 192.0.2.9\n",
    },
    Row {
        words: &["--print-all", "/log", "from <HOST>$"],
        status: 2,
        said: "ERROR usage\n",
    },
];

#[test]
fn shows_lines(rt: HostRuntime) -> Result<(), Fail> {
    all_end(&rt, rt.alloc(), FILES, &LINES)?;
    Ok(())
}

const DETAILS: [Row; 4] = [
    // With the number of the pattern, the address and the time, in seconds and as a clock shows it, where it is a failure, and the
    // first and the last byte of the date.
    Row {
        words: &["-v", "/hosts", "from <HOST>$"],
        status: 0,
        said: "Failregex: 4 total\n   1) [4] from <HOST>$\nIgnoreregex: 0 total\nLines: 4 lines, 0 ignored, 4 matched, 0 missed\nMatched lines:\n   1) 2001:db8::9 1709287200 2024-03-01T10:00:00+00:00 1-10 1709287200 from 2001:db8::9\n   1) - - - 1-10 1709287201 from mx.example.org\n   1) 192.0.2.7 1709287210 2024-03-01T10:00:10+00:00 1-10 1709287300 from 192.0.2.7\n   1) - - - 1-20 1969-12-31T10:00:00Z from 192.0.2.7\nWARNING failregex 1 may match in the middle of a line: begin it with ^ and what stands before\n",
    },
    // A pattern with both ends is not warned of.
    Row {
        words: &["-v", "1709287200 from 192.0.2.7", "^ from <HOST>$"],
        status: 0,
        said: "Failregex: 1 total\n   1) [1] ^ from <HOST>$\nIgnoreregex: 0 total\nLines: 1 lines, 0 ignored, 1 matched, 0 missed\nMatched lines:\n   1) 192.0.2.7 1709287200 2024-03-01T10:00:00+00:00 1-10 1709287200 from 192.0.2.7\n",
    },
    // An escaped `$` is no end, and one behind an escaped backslash is.
    Row {
        words: &["-v", "x", r"^<HOST>\$"],
        status: 0,
        said: "Failregex: 0 total\nIgnoreregex: 0 total\nLines: 1 lines, 0 ignored, 0 matched, 1 missed\nMatched lines:\nWARNING failregex 1 may match in the middle of a line: end it with what follows and $\n",
    },
    Row {
        words: &["-v", "x", "/c/filter.d/loose.conf"],
        status: 0,
        said: "Failregex: 0 total\nIgnoreregex: 0 total\nLines: 1 lines, 0 ignored, 0 matched, 1 missed\nMatched lines:\nWARNING prefregex may match in the middle of a line: end it with what follows and $\nWARNING failregex 2 may match in the middle of a line: begin it with ^ and what stands before\nWARNING failregex 2 may match in the middle of a line: end it with what follows and $\n",
    },
];

/// Moments are shown in the zone of the words.
const MOMENTS: [Row; 2] = [
    Row {
        words: &[
            "-v",
            "--timezone",
            "UTC+0230",
            "1709287200 from 192.0.2.7",
            "^ from <HOST>$",
        ],
        status: 0,
        said: "Failregex: 1 total\n   1) [1] ^ from <HOST>$\nIgnoreregex: 0 total\nLines: 1 lines, 0 ignored, 1 matched, 0 missed\nMatched lines:\n   1) 192.0.2.7 1709287200 2024-03-01T12:30:00+02:30 1-10 1709287200 from 192.0.2.7\n",
    },
    // There it is still the day before.
    Row {
        words: &[
            "-v",
            "--timezone",
            "GMT-1030",
            "2024-02-29 23:30:00 from 192.0.2.7",
            "^ from <HOST>$",
        ],
        status: 0,
        said: "Failregex: 1 total\n   1) [1] ^ from <HOST>$\nIgnoreregex: 0 total\nLines: 1 lines, 0 ignored, 1 matched, 0 missed\nMatched lines:\n   1) 192.0.2.7 1709287200 2024-02-29T23:30:00-10:30 1-19 2024-02-29 23:30:00 from 192.0.2.7\n",
    },
];

#[test]
fn shows_moments_in_a_zone(rt: HostRuntime) -> Result<(), Fail> {
    all_end(&rt, rt.alloc(), FILES, &MOMENTS)?;
    Ok(())
}

#[test]
fn shows_what_was_found(rt: HostRuntime) -> Result<(), Fail> {
    all_end(&rt, rt.alloc(), FILES, &DETAILS)?;
    Ok(())
}

const FAILURES: [Row; 4] = [
    // A name gives no address, no time is later than now, and the last line is too old.
    Row {
        words: &["-o", "ip", "/hosts", "from <HOST>$"],
        status: 0,
        said: "2001:db8::9\n192.0.2.7\n",
    },
    Row {
        words: &["-o", "row", "/hosts", "from <HOST>$"],
        status: 0,
        said: "2001:db8::9\t1709287200\t1709287200 from 2001:db8::9\n192.0.2.7\t1709287210\t1709287300 from 192.0.2.7\n",
    },
    Row {
        words: &["-o", "ip", "--print-all-missed", "/log", "bad from <HOST>$"],
        status: 0,
        said: "192.0.2.7\nMissed lines:\n   2024-03-01T10:00:01Z user=test from 192.0.2.8\n   2024-03-01T10:00:02Z fine\n   no date from 192.0.2.9\n",
    },
    Row {
        words: &["-o", "host", "/log", "from <HOST>$"],
        status: 2,
        said: "ERROR usage\n",
    },
];

#[test]
fn says_failures(rt: HostRuntime) -> Result<(), Fail> {
    all_end(&rt, rt.alloc(), FILES, &FAILURES)?;
    Ok(())
}

const ZONES: [Row; 4] = [
    Row {
        words: &[
            "-o",
            "row",
            "--timezone",
            "UTC+0230",
            "2024-03-01 10:00:00 from 192.0.2.7",
            "from <HOST>$",
        ],
        status: 0,
        said: "192.0.2.7\t1709278200\t2024-03-01 10:00:00 from 192.0.2.7\n",
    },
    Row {
        words: &[
            "-o",
            "row",
            "--timezone",
            "GMT-0100",
            "2024-03-01 08:00:00 from 192.0.2.7",
            "from <HOST>$",
        ],
        status: 0,
        said: "192.0.2.7\t1709283600\t2024-03-01 08:00:00 from 192.0.2.7\n",
    },
    // A date with a zone of its own keeps it.
    Row {
        words: &[
            "-o",
            "row",
            "--timezone",
            "UTC+0230",
            "2024-03-01T10:00:00Z from 192.0.2.7",
            "from <HOST>$",
        ],
        status: 0,
        said: "192.0.2.7\t1709287200\t2024-03-01T10:00:00Z from 192.0.2.7\n",
    },
    Row {
        words: &["--timezone", "CET", "/log", "from <HOST>$"],
        status: 2,
        said: "ERROR usage\n",
    },
];

#[test]
fn dates_lines_in_a_zone(rt: HostRuntime) -> Result<(), Fail> {
    all_end(&rt, rt.alloc(), FILES, &ZONES)?;
    Ok(())
}

const NAMES: [Row; 5] = [
    Row {
        words: &["-c", "/c", "/log", "mode[mode=bad]"],
        status: 0,
        said: "Failregex: 1 total\n   1) [1] bad from <ADDR>\nIgnoreregex: 0 total\nLines: 4 lines, 0 ignored, 1 matched, 3 missed\n",
    },
    // What is no name is a pattern, or the path of a filter.
    Row {
        words: &["-c", "/c", "/log", "bad from <ADDR>"],
        status: 0,
        said: "Failregex: 1 total\n   1) [1] bad from <ADDR>\nIgnoreregex: 0 total\nLines: 4 lines, 0 ignored, 1 matched, 3 missed\n",
    },
    Row {
        words: &["-c", "/c", "/log", "/d/filter.d/mode.conf"],
        status: 4,
        said: "ERROR Configuration refused: filter.d/mode.conf [mode] filter: MissingFile\n",
    },
    Row {
        words: &["-c", "/c", "/log", "none"],
        status: 4,
        said: "ERROR Configuration refused: filter.d/none.conf [none] filter: MissingFile\n",
    },
    Row {
        words: &["-c", "/c", "/log", "mode[mode]"],
        status: 4,
        said: "ERROR Configuration refused: jail.conf [mode] filter: BadOptions\n",
    },
];

#[test]
fn finds_filters_by_name(rt: HostRuntime) -> Result<(), Fail> {
    all_end(&rt, rt.alloc(), FILES, &NAMES)?;
    Ok(())
}
