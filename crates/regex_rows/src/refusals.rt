//! Tests that are refused, and calls that fail.
use crate::row::{Faults, File, Row, all_end, all_end_with};
use std::test::Fail;

const FILES: &[File<'static>] = &[
    ("/log", b"1709287200 from 192.0.2.7\n"),
    ("/c/filter.d/x.conf", b"[INCLUDES]\nbefore = y.conf\n"),
    ("/c/filter.d/plain.conf", b"failregex = <ADDR>\n"),
    ("/d/filter.d/none.conf", b"[Definition]\nfailregex = from\n"),
    (
        "/d/filter.d/pref.conf",
        b"[Definition]\nprefregex = (<F-CONTENT>.+</F-CONTENT>\nfailregex = <ADDR>\n",
    ),
];

const WORDS: [Row; 6] = [
    Row {
        words: &[],
        status: 2,
        said: "ERROR usage\n",
    },
    Row {
        words: &["x"],
        status: 2,
        said: "ERROR usage\n",
    },
    Row {
        words: &["x", "<HOST>", "y", "z"],
        status: 2,
        said: "ERROR usage\n",
    },
    // An option that there is not, one without its value, and one that is given twice.
    Row {
        words: &["--print-all", "x", "<HOST>"],
        status: 2,
        said: "ERROR usage\n",
    },
    Row {
        words: &["x", "<HOST>", "-d"],
        status: 2,
        said: "ERROR usage\n",
    },
    Row {
        words: &["-o", "ip", "-o", "row", "x", "<HOST>"],
        status: 2,
        said: "ERROR usage\n",
    },
];

#[test]
fn refuses_words(rt: HostRuntime) -> Result<(), Fail> {
    all_end(&rt, rt.alloc(), FILES, &WORDS)?;
    Ok(())
}

const FILTERS: [Row; 4] = [
    // A filter that includes what is not there.
    Row {
        words: &["/log", "/c/filter.d/x.conf"],
        status: 4,
        said: "ERROR Configuration refused: filter.d/x.conf [] : MissingInclude y.conf\n",
    },
    Row {
        words: &["/log", "/c/filter.d/z.conf"],
        status: 4,
        said: "ERROR Configuration refused: filter.d/z.conf [z] filter: MissingFile\n",
    },
    Row {
        words: &["/log", "/c/filter.d/plain.conf"],
        status: 4,
        said: "ERROR Configuration refused: filter.d/plain.conf [] : NoSection 1\n",
    },
    Row {
        words: &["/log", "/d/filter.d/none.conf"],
        status: 4,
        said: "ERROR Configuration refused: filter.d/none.conf [none] failregex: NoHost\n",
    },
];

#[test]
fn refuses_filters(rt: HostRuntime) -> Result<(), Fail> {
    all_end(&rt, rt.alloc(), FILES, &FILTERS)?;
    Ok(())
}

const PATTERNS: [Row; 6] = [
    Row {
        words: &["x", "abc"],
        status: 11,
        said: "ERROR Pattern refused: regex failregex 1 NoHost\n",
    },
    Row {
        words: &["-d", "%Y", "x", "<HOST>"],
        status: 11,
        said: "ERROR Pattern refused: regex datepattern BadDate\n",
    },
    Row {
        words: &["x", "<HOST>", "<HOST> <HOST>"],
        status: 11,
        said: "ERROR Pattern refused: regex ignoreregex 1 TwoHosts\n",
    },
    Row {
        words: &["x", "(?=y)<HOST>"],
        status: 11,
        said: "ERROR Pattern refused: regex failregex 1 Syntax\n",
    },
    Row {
        words: &["x", "/d/filter.d/pref.conf"],
        status: 11,
        said: "ERROR Pattern refused: pref prefregex Syntax\n",
    },
    // The prefix is built before, but hosts are counted before any pattern is built.
    Row {
        words: &["x", "/d/filter.d/pref.conf", "<HOST> <HOST>"],
        status: 11,
        said: "ERROR Pattern refused: pref ignoreregex 1 TwoHosts\n",
    },
];

#[test]
fn refuses_patterns(rt: HostRuntime) -> Result<(), Fail> {
    all_end(&rt, rt.alloc(), FILES, &PATTERNS)?;
    Ok(())
}

/// Tests with more faults than one: the words, the directory, its files, the patterns, the log and the output come in this order.
const FAULTS: [(Faults, Row); 9] = [
    // No file is read for words that are refused.
    (
        Faults {
            files: &[0],
            output: &[],
        },
        Row {
            words: &["-o", "none", "/log", "/c/filter.d/x.conf"],
            status: 2,
            said: "ERROR usage\n",
        },
    ),
    (
        Faults {
            files: &[0],
            output: &[],
        },
        Row {
            words: &["/log", "/c/filter.d/x.conf"],
            status: 3,
            said: "ERROR configuration not read\n",
        },
    ),
    // No pattern is built for files that are refused.
    (
        Faults {
            files: &[1],
            output: &[],
        },
        Row {
            words: &["-d", "%Y", "/log", "/c/filter.d/x.conf"],
            status: 4,
            said: "ERROR Configuration refused: filter.d/x.conf [] : MissingInclude y.conf\n",
        },
    ),
    // The six patterns of dates and the one of the words are built before the log is read.
    (
        Faults {
            files: &[0],
            output: &[],
        },
        Row {
            words: &["/log", "<HOST>"],
            status: 11,
            said: "ERROR Pattern refused: regex datepattern TooBig\n",
        },
    ),
    (
        Faults {
            files: &[6, 7],
            output: &[],
        },
        Row {
            words: &["/log", "<HOST>"],
            status: 11,
            said: "ERROR Pattern refused: regex failregex 1 TooBig\n",
        },
    ),
    (
        Faults {
            files: &[7],
            output: &[],
        },
        Row {
            words: &["/log", "<HOST>"],
            status: 3,
            said: "ERROR configuration not read\n",
        },
    ),
    // With details the patterns of dates are built once more before the log is read.
    (
        Faults {
            files: &[7],
            output: &[],
        },
        Row {
            words: &["-v", "/log", "<HOST>"],
            status: 11,
            said: "ERROR Pattern refused: regex datepattern TooBig\n",
        },
    ),
    // Where a line cannot be said, that is how it ends.
    (
        Faults {
            files: &[7],
            output: &[0],
        },
        Row {
            words: &["/log", "<HOST>"],
            status: 9,
            said: "",
        },
    ),
    (
        Faults {
            files: &[],
            output: &[0],
        },
        Row {
            words: &["/log", "<HOST>"],
            status: 9,
            said: "",
        },
    ),
];

#[test]
fn ends_by_the_first_fault(rt: HostRuntime) -> Result<(), Fail> {
    all_end_with(&rt, rt.alloc(), FILES, &FAULTS)?;
    Ok(())
}
