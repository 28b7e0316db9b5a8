//! Patterns that are no patterns, and what is said of the place of the fault.
use f2b_base::{NoMemory, Text};
use pattern_fault::fault_line;
use std::alloc::Global;
use std::process::Abort;
use std::test::Fail;

/// A pattern, where it is at fault, and why.
type Fault = (&'static str, &'static str, &'static str);

const LOOK_AROUND: &str =
    "there is no look-around: write into the pattern what has to stand there, and keep out by ignoreregex what must not";

const BACK_REFERENCE: &str = "there are no back references: write once more what is to be repeated";

const CONDITIONAL: &str = "there are no conditionals: write both cases, as (?:first|second)";

const ATOMIC_GROUP: &str = "there are no atomic groups: write (?: in place of (?>";

const FAULTS: [Fault; 16] = [
    // What the tag expands to counts for nothing.
    (
        "from <HOST>(?=:)$",
        "at byte 12 of the pattern, (?=:)$",
        LOOK_AROUND,
    ),
    (
        "<HOST>(?!x)",
        "at byte 7 of the pattern, (?!x)",
        LOOK_AROUND,
    ),
    (
        "(?<=x)<HOST>",
        "at byte 1 of the pattern, (?<=x)<HOST>",
        LOOK_AROUND,
    ),
    (
        "é(?<!x)<HOST>",
        "at byte 3 of the pattern, (?<!x)<HOST>",
        LOOK_AROUND,
    ),
    (
        r"(\w+) \1 <HOST>",
        r"at byte 7 of the pattern, \1 <HOST>",
        BACK_REFERENCE,
    ),
    (
        r"(?P<u>x) \k<u> <IP4>",
        r"at byte 10 of the pattern, \k<u> <IP4>",
        BACK_REFERENCE,
    ),
    (
        "(?P<u>x) (?P=u) <IP4>",
        "at byte 12 of the pattern, P=u) <IP4>",
        BACK_REFERENCE,
    ),
    (
        "(a)?(?(1)b|c) <IP4>",
        "at byte 7 of the pattern, (1)b|c) <IP4>",
        CONDITIONAL,
    ),
    (
        "(?>a+)b <IP4>",
        "at byte 3 of the pattern, >a+)b <IP4>",
        ATOMIC_GROUP,
    ),
    // A bracket that may be there begins no conditional.
    (
        r"\(?(<IP4>",
        "at byte 4 of the pattern, (<IP4>",
        "unclosed group",
    ),
    // The library's own words for what no dialect has.
    (
        "(<HOST>",
        "at byte 1 of the pattern, (<HOST>",
        "unclosed group",
    ),
    ("<HOST>)", "at byte 7 of the pattern, )", "unopened group"),
    (
        "<HOST> [a",
        "at byte 8 of the pattern, [a",
        "unclosed character class",
    ),
    (
        "<HOST> |*",
        "at byte 9 of the pattern, *",
        "repetition operator missing expression",
    ),
    (
        "<HOST> (?i",
        "at the end of the pattern",
        "expected flag but got end of regex",
    ),
    // A tag that opens a group, and one that closes none.
    (
        "<F-CONTENT>.+",
        "at byte 1 of the pattern, <F-CONTENT>.+",
        "unclosed group",
    ),
];

/// What is no fault: a repeat of a repeat is one, though another dialect reads it as a repeat that gives nothing back.
const PATTERNS: [&str; 4] = [
    "",
    "from <HOST>$",
    "a++ <HOST>",
    "[a-z]*+(?:b?+){2}+ <HOST>",
];

fn said(line: &Option<Text>) -> &str {
    match line {
        Some(line) => line.as_str(),
        None => "no fault",
    }
}

fn tells(rt: &impl Abort, alloc: Global, fault: Fault) -> Result<(), NoMemory> {
    let (pattern, place, why) = fault;
    let wanted = format!(in alloc; "{place}: {why}\n")?;
    let line = fault_line(alloc, pattern)?;
    assert_eq!(rt; said(&line), wanted.as_str());
    Ok(())
}

#[test]
fn says_where_a_pattern_is_at_fault(rt: HostRuntime) -> Result<(), Fail> {
    for fault in FAULTS {
        tells(&rt, rt.alloc(), fault)?;
    }
    Ok(())
}

#[test]
fn says_nothing_of_a_pattern(rt: HostRuntime) -> Result<(), Fail> {
    for pattern in PATTERNS {
        let line = fault_line(rt.alloc(), pattern)?;
        assert_eq!(rt; said(&line), "no fault");
    }
    Ok(())
}
