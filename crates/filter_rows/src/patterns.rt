//! What no clause says: which texts are built, that patterns get a set, and that one matcher serves many lines.
use crate::rows::same;
use f2b_base::NoMemory;
use f2b_world::{Cut, HostSpans, Made, Matcher, Pattern, PatternSet, SetMatcher, build_pattern};
use std::alloc::Global;
use std::process::Abort;

fn answer(alloc: Global, text: &str) -> &'static str {
    match build_pattern(alloc, text) {
        Made::Built(_) => "built",
        Made::Syntax => "syntax",
        Made::TooBig => "too big",
        Made::NoMemory => "no memory",
    }
}

/// Rows of a text and what building it answers.
fn are_answered(rt: &impl Abort, alloc: Global, rows: &[(&str, &str)]) {
    for &(text, want) in rows {
        same(rt, text, answer(alloc, text), want);
    }
}

const TEXTS: [(&str, &str); 4] = [
    ("(?=x)y", "syntax"),
    (r"(a)\1", "syntax"),
    ("a{1000}{1000}{100}", "too big"),
    ("from (?P<f2b4>[0-9]+)$", "built"),
];

#[test]
fn texts_are_built_or_refused(rt: HostRuntime) {
    are_answered(&rt, rt.alloc(), &TEXTS);
}

fn built(rt: &impl Abort, alloc: Global, text: &str) -> Pattern {
    match build_pattern(alloc, text) {
        Made::Built(pattern) => pattern,
        _ => panic!(rt; "not built"),
    }
}

/// All that matches, an IPv4 address, and a name.
type Groups = (Cut, Option<Cut>, Option<Cut>);

fn groups_in(matcher: &mut Matcher<'_>, line: &str) -> Option<Groups> {
    let hosts = matcher.hosts(line)?;
    Some((hosts.whole, hosts.ip4, hosts.name))
}

/// Rows of a line and what is found in it, one after the other.
fn have_groups(
    rt: &impl Abort,
    alloc: Global,
    pattern: &Pattern,
    rows: &[(&str, Option<Groups>)],
) -> Result<(), NoMemory> {
    let mut matcher = pattern.matcher(alloc)?;
    for &(line, want) in rows {
        same(rt, line, groups_in(&mut matcher, line), want);
    }
    Ok(())
}

const LINES: [(&str, Option<Groups>); 3] = [
    (
        "bad from 192.7",
        Some((
            Cut { start: 4, end: 14 },
            Some(Cut { start: 9, end: 14 }),
            None,
        )),
    ),
    ("bad from nowhere else", None),
    (
        "bad from somewhere",
        Some((
            Cut { start: 4, end: 18 },
            None,
            Some(Cut { start: 9, end: 18 }),
        )),
    ),
];

const HOSTS: &str = r"from (?:(?P<f2b4>[0-9]+\.[0-9]+)|(?P<f2bn>[a-z]+))$";

#[test]
fn groups_of_many_lines(rt: HostRuntime) -> Result<(), NoMemory> {
    have_groups(&rt, rt.alloc(), &built(&rt, rt.alloc(), HOSTS), &LINES)
}

const NUMBERS: [Option<usize>; 6] = [Some(3), None, Some(2), Some(0), Some(1), Some(9)];

/// All that matches, and the groups of `NUMBERS`.
type Cuts = (Cut, [Option<Cut>; 6]);

fn cuts_in(matcher: &mut Matcher<'_>, line: &str) -> Option<Cuts> {
    let mut cuts = [None; 6];
    let whole = matcher.matched(line, &NUMBERS, &mut cuts)?;
    Some((whole, cuts))
}

/// Rows of a line and what is found in it, one after the other.
fn have_numbered(
    rt: &impl Abort,
    alloc: Global,
    pattern: &Pattern,
    rows: &[(&str, Option<Cuts>)],
) -> Result<(), NoMemory> {
    let mut matcher = pattern.matcher(alloc)?;
    for &(line, want) in rows {
        same(rt, line, cuts_in(&mut matcher, line), want);
    }
    Ok(())
}

const NUMBERED_LINES: [(&str, Option<Cuts>); 3] = [
    (
        "a 12-bc 3x-d",
        Some((
            Cut { start: 2, end: 7 },
            [
                Some(Cut { start: 5, end: 7 }),
                None,
                None,
                Some(Cut { start: 2, end: 7 }),
                Some(Cut { start: 2, end: 4 }),
                None,
            ],
        )),
    ),
    ("a 12 3x", None),
    (
        "3x-d",
        Some((
            Cut { start: 0, end: 4 },
            [
                Some(Cut { start: 3, end: 4 }),
                None,
                Some(Cut { start: 1, end: 2 }),
                Some(Cut { start: 0, end: 4 }),
                Some(Cut { start: 0, end: 1 }),
                None,
            ],
        )),
    ),
];

const NUMBERED: &str = "([0-9]+)(x)?-([a-z]+)";

#[test]
fn numbered_groups_of_many_lines(rt: HostRuntime) -> Result<(), NoMemory> {
    let pattern = built(&rt, rt.alloc(), NUMBERED);
    have_numbered(&rt, rt.alloc(), &pattern, &NUMBERED_LINES)
}

fn built_each(rt: &impl Abort, alloc: Global, texts: &[&str]) -> Result<Vec<Pattern>, NoMemory> {
    let mut patterns = Vec::new(alloc);
    for text in texts {
        patterns.push(built(rt, alloc, text))?;
    }
    Ok(patterns)
}

/// Rows of a line and whether any of the patterns matches.
fn do_match_in(
    rt: &impl Abort,
    alloc: Global,
    set: &PatternSet,
    rows: &[(&str, bool)],
) -> Result<(), NoMemory> {
    let mut matcher = set.matcher(alloc)?;
    for &(line, want) in rows {
        same(rt, line, matcher.any(line), want);
    }
    Ok(())
}

/// The same of a set of these patterns.
fn do_match(
    rt: &impl Abort,
    alloc: Global,
    patterns: &[Pattern],
    rows: &[(&str, bool)],
) -> Result<(), NoMemory> {
    match PatternSet::of(alloc, patterns)? {
        Some(set) => do_match_in(rt, alloc, &set, rows),
        None => panic!(rt; "no set"),
    }
}

const ANY: [(&str, bool); 4] = [
    ("from 192", true),
    ("a bad line", true),
    ("from nowhere, badly", false),
    ("bad", true),
];

const OF_SET: [&str; 2] = ["^from (?P<f2b4>[0-9]+)$", r"\bbad\b"];

#[test]
fn a_set_says_whether_any_of_its_patterns_matches(rt: HostRuntime) -> Result<(), NoMemory> {
    let patterns = built_each(&rt, rt.alloc(), &OF_SET)?;
    do_match(&rt, rt.alloc(), patterns.as_slice(), &ANY)
}

#[test]
fn a_set_of_no_patterns_matches_nothing(rt: HostRuntime) -> Result<(), NoMemory> {
    do_match(&rt, rt.alloc(), &[], &[("bad", false)])
}
