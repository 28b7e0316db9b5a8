//! Configurations at their limits, and faults of files.

use crate::trees::{is_told, read_bytes, tells};
use f2b_base::NoMemory;
use std::alloc::{AllocError, Global};
use std::process::Abort;

/// That is told of a configuration that is this `jail.conf`.
fn is_told_of(rt: &impl Abort, alloc: Global, jail: &str, want: &str) -> Result<(), NoMemory> {
    is_told(rt, alloc, jail, &[("jail.conf", jail)], want)
}

/// Rows of a `jail.conf`, and what is told of it.
fn are_told(rt: &impl Abort, alloc: Global, rows: &[(&str, &str)]) -> Result<(), NoMemory> {
    for (jail, want) in rows {
        is_told_of(rt, alloc, jail, want)?;
    }
    Ok(())
}

const FAULTS: [(&str, &str); 8] = [
    ("x = 1\n", "jail.conf|||Ini(NoSection(1))"),
    ("[j]\nx\n", "jail.conf|||Ini(NoDelimiter(2))"),
    ("[j]\n x = 1\n", "jail.conf|||Ini(Indent(2))"),
    (
        "[INCLUDES]\nbefore = ../jail.conf\n",
        "jail.conf|||MissingInclude(\"../jail.conf\")",
    ),
    (
        "[INCLUDES]\nbefore = jail.conf\n",
        "jail.conf|||IncludeLoop",
    ),
    (
        "[j]\nenabled = %(x)s\n",
        "jail.conf|j|enabled|Missing(\"x\")",
    ),
    ("[j]\nenabled = on%\n", "jail.conf|j|enabled|BadPercent(2)"),
    (
        "[j]\nenabled = %(x)s\nx = %(y)s\ny = %(x)s\n",
        "jail.conf|j|enabled|TooDeep(\"x\")",
    ),
];

#[test]
fn tells_faults_of_files(rt: HostRuntime) -> Result<(), NoMemory> {
    are_told(&rt, rt.alloc(), &FAULTS)
}

/// Writes a line.
fn write(all: &mut String, line: Result<String, AllocError>) -> Result<(), NoMemory> {
    let line = line?;
    all.push_str(line.as_str())?;
    Ok(())
}

/// A jail whose first item refers to so many others, one to the next.
fn deep_jail(alloc: Global, depth: u32) -> Result<String, NoMemory> {
    let mut jail = String::from_str(alloc, "[j]\nenabled = %(x1)s\n")?;
    for place in 1..depth {
        let next = place + 1;
        write(&mut jail, format!(in alloc; "x{place} = %(x{next})s\n"))?;
    }
    write(&mut jail, format!(in alloc; "x{depth} = on\n"))?;
    Ok(jail)
}

fn is_told_of_depth(
    rt: &impl Abort,
    alloc: Global,
    depth: u32,
    want: &str,
) -> Result<(), NoMemory> {
    let jail = deep_jail(alloc, depth)?;
    is_told_of(rt, alloc, jail.as_str(), want)
}

#[test]
fn refers_ten_deep(rt: HostRuntime) -> Result<(), NoMemory> {
    is_told_of_depth(&rt, rt.alloc(), 10, "read")?;
    let want = "jail.conf|j|enabled|TooDeep(\"x11\")";
    is_told_of_depth(&rt, rt.alloc(), 11, want)
}

/// The jails `j1` to `j256` are on, and `off` is not.
fn full_of_jails(alloc: Global) -> Result<String, NoMemory> {
    let mut jails = String::from_str(alloc, "[DEFAULT]\nenabled = on\n[off]\nenabled = off\n")?;
    for number in 1..257_u32 {
        write(&mut jails, format!(in alloc; "[j{number}]\n"))?;
    }
    Ok(jails)
}

/// A jail with 512 patterns.
fn full_of_patterns(alloc: Global) -> Result<String, NoMemory> {
    let mut jail = String::from_str(alloc, "[j]\nenabled = on\nfailregex = <HOST>\n")?;
    for _ in 1..512_u32 {
        jail.push_str(" <HOST>\n")?;
    }
    Ok(jail)
}

/// A `jail.conf` is read, and with this `jail.local` that is told.
fn is_full(
    rt: &impl Abort,
    alloc: Global,
    full: &str,
    more: &str,
    want: &str,
) -> Result<(), NoMemory> {
    is_told_of(rt, alloc, full, "read")?;
    is_told(
        rt,
        alloc,
        more,
        &[("jail.conf", full), ("jail.local", more)],
        want,
    )
}

#[test]
fn takes_256_jails(rt: HostRuntime) -> Result<(), NoMemory> {
    let jails = full_of_jails(rt.alloc())?;
    let want = "jail.conf|last|enabled|TooMany";
    is_full(&rt, rt.alloc(), jails.as_str(), "[last]\n", want)
}

#[test]
fn takes_512_patterns(rt: HostRuntime) -> Result<(), NoMemory> {
    let jail = full_of_patterns(rt.alloc())?;
    let more = "[k]\nenabled = on\nignoreregex = x\n";
    let want = "jail.conf|k|ignoreregex|TooMany";
    is_full(&rt, rt.alloc(), jail.as_str(), more, want)
}

/// A jail with an item of so many lines, each this text and its number.
fn jail_of_lines(
    alloc: Global,
    item: &str,
    line: &str,
    end: &str,
    count: u32,
) -> Result<String, NoMemory> {
    let mut jail = format!(in alloc; "[j]\nenabled = on\n{item} =\n")?;
    for number in 0..count {
        write(&mut jail, format!(in alloc; " {line}{number}{end}\n"))?;
    }
    Ok(jail)
}

fn is_told_of_logs(rt: &impl Abort, alloc: Global, count: u32, want: &str) -> Result<(), NoMemory> {
    let jail = jail_of_lines(alloc, "logpath", "/var/log/", "", count)?;
    is_told_of(rt, alloc, jail.as_str(), want)
}

#[test]
fn takes_64_logs(rt: HostRuntime) -> Result<(), NoMemory> {
    is_told_of_logs(&rt, rt.alloc(), 64, "read")?;
    is_told_of_logs(&rt, rt.alloc(), 65, "jail.conf|j|logpath|TooMany")
}

const ACTION: (&str, &str) = ("action.d/a.conf", "[Definition]\nactionban = ban\n");

fn is_told_of_actions(
    rt: &impl Abort,
    alloc: Global,
    count: u32,
    want: &str,
) -> Result<(), NoMemory> {
    let jail = jail_of_lines(alloc, "action", "a[actname=a", "]", count)?;
    is_told(
        rt,
        alloc,
        count,
        &[ACTION, ("jail.conf", jail.as_str())],
        want,
    )
}

#[test]
fn takes_16_actions(rt: HostRuntime) -> Result<(), NoMemory> {
    is_told_of_actions(&rt, rt.alloc(), 16, "read")?;
    is_told_of_actions(&rt, rt.alloc(), 17, "jail.conf|j|action|TooMany")
}

/// That is told of a configuration of one file of these bytes.
fn is_told_of_bytes(
    rt: &impl Abort,
    alloc: Global,
    path: &str,
    bytes: &[u8],
    want: &str,
) -> Result<(), NoMemory> {
    let told = read_bytes(alloc, path, bytes);
    tells(rt, alloc, bytes, &told, want)
}

#[test]
fn tells_the_first_byte_that_is_no_utf_8(rt: HostRuntime) -> Result<(), NoMemory> {
    let want = "jail.conf|||Ini(NotUtf8(4))";
    is_told_of_bytes(&rt, rt.alloc(), "jail.conf", b"[j]\n\xff\n", want)
}
