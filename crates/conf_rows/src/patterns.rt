//! Patterns, with what they are read as.

use crate::rows::same;
use crate::trees::{Told, are_told, are_told_with, is_told, jail_in, read, read_with, tells};
use f2b_base::NoMemory;
use std::alloc::Global;
use std::process::Abort;

/// So many times that text, with this behind it.
fn repeated(alloc: Global, text: &str, times: usize, end: &str) -> Result<String, NoMemory> {
    let mut all = String::new(alloc);
    for _ in 0..times {
        all.push_str(text)?;
    }
    all.push_str(end)?;
    Ok(all)
}

/// How many patterns there are, of failures and of lines that are ignored.
fn counts(told: &Told) -> Option<(usize, usize)> {
    let jail = jail_in(told)?;
    Some((jail.fail.len(), jail.ignore_lines.len()))
}

/// One pattern of failures is read from this text.
fn is_pattern(rt: &impl Abort, alloc: Global, text: &str) {
    let told = read_with(alloc, "failregex", text);
    same(rt, text, counts(&told), Some((1, 0)));
}

fn is_longest(rt: &impl Abort, alloc: Global) -> Result<(), NoMemory> {
    let text = repeated(alloc, "a", 8_186, "<HOST>")?;
    same(rt, "longest", text.as_str().len(), 8_192);
    is_pattern(rt, alloc, text.as_str());
    Ok(())
}

fn is_longer(rt: &impl Abort, alloc: Global) -> Result<(), NoMemory> {
    let text = repeated(alloc, "a", 8_187, "<HOST>")?;
    let want = "jail.conf|j|failregex|TooMany";
    are_told_with(rt, alloc, "failregex", &[text.as_str()], want)
}

#[test]
fn reads_patterns_of_so_many_bytes(rt: HostRuntime) -> Result<(), NoMemory> {
    is_longest(&rt, rt.alloc())?;
    is_longer(&rt, rt.alloc())
}

/// A jail with these lines of patterns, which begin with a blank.
fn jail_of(alloc: Global, fail: &str, ignore: &str) -> Result<String, NoMemory> {
    Ok(format!(in alloc; "[j]\nenabled = on\nnone =\nfailregex =\n{fail}ignoreregex =\n{ignore}")?)
}

/// What a jail with these lines of patterns comes to.
fn read_lines(alloc: Global, fail: &str, ignore: &str) -> Told {
    let jail = jail_of(alloc, fail, ignore)?;
    read(alloc, &[("jail.conf", jail.as_str())])
}

/// So many patterns are read from these lines.
fn are_counted(
    rt: &impl Abort,
    alloc: Global,
    fail: &str,
    ignore: &str,
    want: (usize, usize),
) -> Result<(), NoMemory> {
    let told = read_lines(alloc, fail, ignore);
    same(rt, (fail.len(), ignore.len()), counts(&told), Some(want));
    Ok(())
}

/// These lines of ignored patterns are too many.
fn are_too_many(rt: &impl Abort, alloc: Global, fail: &str, ignore: &str) -> Result<(), NoMemory> {
    let told = read_lines(alloc, fail, ignore);
    let at = (fail.len(), ignore.len());
    tells(rt, alloc, at, &told, "jail.conf|j|ignoreregex|TooMany")
}

const HOST_LINE: &str = " <HOST>\n";

fn most_are_ignored(rt: &impl Abort, alloc: Global) -> Result<(), NoMemory> {
    let most = repeated(alloc, " a\n", 512, "")?;
    are_counted(rt, alloc, "", most.as_str(), (0, 512))?;
    are_too_many(rt, alloc, HOST_LINE, most.as_str())
}

fn more_are_ignored(rt: &impl Abort, alloc: Global) -> Result<(), NoMemory> {
    let more = repeated(alloc, " a\n", 513, "")?;
    are_too_many(rt, alloc, "", more.as_str())
}

/// So many patterns of failures are read, and so many of lines that are ignored.
fn hosts_are_counted(
    rt: &impl Abort,
    alloc: Global,
    times: usize,
    ignore: &str,
    want: usize,
) -> Result<(), NoMemory> {
    let hosts = repeated(alloc, HOST_LINE, times, "")?;
    are_counted(rt, alloc, hosts.as_str(), ignore, (times, want))
}

/// One pattern, and lines that are empty.
const BLANK: &str = " a\n %(none)s\n %(none)s %(none)s\n";

#[test]
fn reads_so_many_patterns(rt: HostRuntime) -> Result<(), NoMemory> {
    most_are_ignored(&rt, rt.alloc())?;
    more_are_ignored(&rt, rt.alloc())?;
    hosts_are_counted(&rt, rt.alloc(), 511, BLANK, 1)?;
    hosts_are_counted(&rt, rt.alloc(), 512, "", 0)
}

const BAD_TAGS: [&str; 9] = [
    "a <SKIPLINES> b",
    "<SUBNET>",
    "<CIDR>",
    "<F-ID>x</F-ID>",
    "a<F-NOFAIL>",
    "<F-MLFID>x</F-MLFID>",
    "<F-MLFFORGET>",
    "<F-MLFGAINED>",
    "<F-CONTENT>",
];

const BAD_HOSTS: [(&str, &str, &str); 5] = [
    ("failregex", "a", "jail.conf|j|failregex|NoHost"),
    ("failregex", "a<SKIPLINES>", "jail.conf|j|failregex|NoHost"),
    (
        "failregex",
        "<HOST> <ADDR> <SUBNET>",
        "jail.conf|j|failregex|TwoHosts",
    ),
    (
        "failregex",
        "<HOST> <SUBNET>",
        "jail.conf|j|failregex|BadTag",
    ),
    (
        "failregex",
        "<HOST>\n a\n <SUBNET>",
        "jail.conf|j|failregex|NoHost",
    ),
];

fn are_patterns(rt: &impl Abort, alloc: Global, texts: &[&str]) {
    for text in texts {
        is_pattern(rt, alloc, text);
    }
}

const PATTERNS: [&str; 4] = [
    "^<HOST>$",
    "(?P<SUBNET>x) <IP4>",
    "<F-USER>x</F-USER> <DNS>",
    "<HOST> /F-CONTENT <other",
];

#[test]
fn refuses_patterns(rt: HostRuntime) -> Result<(), NoMemory> {
    let want = "jail.conf|j|ignoreregex|BadTag";
    are_told_with(&rt, rt.alloc(), "ignoreregex", &BAD_TAGS, want)?;
    are_patterns(&rt, rt.alloc(), &PATTERNS);
    are_told(&rt, rt.alloc(), &BAD_HOSTS)
}

const FILTERED: (&str, &str) = ("jail.conf", "[j]\nenabled = on\nfilter = f\n");

/// Patterns of what a line has to match first, of which that is told.
fn are_prefixes(
    rt: &impl Abort,
    alloc: Global,
    texts: &[&str],
    want: &str,
) -> Result<(), NoMemory> {
    for &text in texts {
        let filter = format!(in alloc; "[Definition]\nprefregex = {text}\n")?;
        let files = [("filter.d/f.conf", filter.as_str()), FILTERED];
        is_told(rt, alloc, text, &files, want)?;
    }
    Ok(())
}

const PREFIXES: [&str; 2] = [
    "<F-CONTENT>.+</F-CONTENT>$",
    "a<F-USER>b</F-USER><F-CONTENT>.*</F-CONTENT>",
];

const NO_PREFIXES: [&str; 6] = [
    "",
    "<F-CONTENT>",
    "</F-CONTENT><F-CONTENT>",
    "<F-CONTENT></F-CONTENT></F-CONTENT>",
    "<HOST><F-CONTENT></F-CONTENT>",
    "<F-ID><F-CONTENT></F-CONTENT>",
];

#[test]
fn reads_what_a_line_has_to_match_first(rt: HostRuntime) -> Result<(), NoMemory> {
    are_prefixes(&rt, rt.alloc(), &PREFIXES, "read")?;
    let want = "filter.d/f.conf|j|prefregex|BadTag";
    are_prefixes(&rt, rt.alloc(), &NO_PREFIXES, want)
}
