//! Rows of looks, and logs that are cut at every place.
ghost use Rattle.std.specs.Prelude.{IfOk};
ghost use Rattle.log_follow.specs.Watches.{Answers, IsPlace};

use f2b_base::{Bytes, FileLook, NoMemory, Place};
use log_follow::{Ask, Follower, Line, Step, decode_law, watch_law};
use std::alloc::Global;
use std::process::Abort;
use std::test::Fail;

// What a look at this file brings, of at most so many bytes.
fn look_at(alloc: Global, ask: Ask, file: &[u8], most: usize) -> Result<FileLook, NoMemory>
    ensures { IfOk result (Answers ask) }
{
    let head = file.len().min(ask.head as usize);
    let from = (file.len() as u64).min(ask.from) as usize;
    let count = (file.len() - from).min(most).min(ask.max as usize);
    Ok(FileLook {
        size: file.len() as u64,
        head: Bytes::from_slice(alloc, &file[..head])?,
        bytes: Bytes::from_slice(alloc, &file[from..from + count])?,
    })
}

// Writes each line with a bar behind it.
fn write_lines(text: &mut String, lines: &[Line]) -> Result<(), Fail> {
    for line in lines {
        match line {
            Line::Whole(whole) if whole.as_str().len() > 60_000 => text.push_str("(full)")?,
            Line::Whole(whole) => text.push_str(whole.as_str())?,
            Line::Long => text.push_str("(long)")?,
        }
        text.push('|')?;
    }
    Ok(())
}

// Looks once, and writes what came.
fn look_on(
    alloc: Global,
    follower: &mut Follower,
    text: &mut String,
    file: &[u8],
    most: usize,
) -> Result<(), Fail> {
    let look = look_at(alloc, follower.ask(), file, most)?;
    match follower.take(alloc, &look)? {
        Step::Placed => text.push_str("(placed)")?,
        Step::Rotated => text.push_str("(rotated)")?,
        Step::Lines(lines) => write_lines(text, lines.as_slice())?,
        Step::Nothing => {}
    }
    Ok(())
}

fn from_start(alloc: Global) -> Place
    ensures { IsPlace result }
{
    Place::Pos {
        position: 0,
        head: Bytes::new(alloc),
    }
}

// What the looks at these files bring, with a semicolon behind each.
fn told(alloc: Global, files: &[&[u8]]) -> Result<String, Fail> {
    let mut text = String::new(alloc);
    let mut follower = Follower::new(alloc, &from_start(alloc))?;
    for file in files {
        look_on(alloc, &mut follower, &mut text, file, 65_536)?;
        text.push(';')?;
    }
    Ok(text)
}

const FAILURE: &[u8] = b"1700000100 fail from 192.0.2.7\r\n";

// Looks at so many bytes of that log, one after the other, and writes what came.
fn look_at_parts(
    alloc: Global,
    follower: &mut Follower,
    text: &mut String,
    ends: &[usize],
) -> Result<(), Fail> {
    for end in ends {
        let file = FAILURE.get(..*end).unwrap_or(b"none");
        look_on(alloc, follower, text, file, 65_536)?;
        text.push(';')?;
    }
    Ok(())
}

fn is_place(rt: &impl Abort, place: &Place, bytes: u64, beginning: &[u8]) {
    match place {
        Place::Pos { position, head } => {
            assert_eq!(rt; *position, bytes);
            assert_eq!(rt; head.as_slice(), beginning);
        }
        Place::Tail => assert!(rt; false, "it is placed"),
    }
}

#[test]
fn a_line_in_five_looks(rt: HostRuntime) -> Result<(), Fail> {
    let alloc = rt.alloc();
    let mut follower = Follower::new(alloc, &from_start(alloc))?;
    let mut text = String::new(alloc);
    look_at_parts(alloc, &mut follower, &mut text, &[8, 20, 30, 31, 32])?;
    assert_eq!(rt; text.as_str(), ";;;;1700000100 fail from 192.0.2.7|;");
    is_place(&rt, &follower.place(alloc)?, 32, FAILURE);
    Ok(())
}

// Rows of files, and what the looks at them bring.
fn are_told(rt: &impl Abort, alloc: Global, rows: &[(&[&[u8]], &str)]) -> Result<(), Fail> {
    for (files, wanted) in rows {
        assert_eq!(rt; told(alloc, files)?.as_str(), *wanted);
    }
    Ok(())
}

const ROTATIONS: [(&[&[u8]], &str); 9] = [
    // Another log: shorter, as long, longer.
    (&[b"abc", b"ab", b"ab\n"], ";(rotated);ab|;"),
    (&[b"abc", b"xyz", b"xyz\n"], ";(rotated);xyz|;"),
    (
        &[b"abc", b"xyz456789", b"xyz456789\n"],
        ";(rotated);xyz456789|;",
    ),
    // The bytes of the look that found it are not used, and come with the next.
    (
        &[b"one\ntwo", b"1\n2\n", b"1\n2\n", b"1\n2\n3\n"],
        "one|;(rotated);1|2|;3|;",
    ),
    // Truncated, and grown again to less than was read, and to more.
    (&[b"one\n", b"", b"", b"two\n"], "one|;(rotated);;two|;"),
    (
        &[b"one\ntwo\n", b"six\n", b"six\n"],
        "one|two|;(rotated);six|;",
    ),
    (
        &[b"one\n", b"two\nsix\n", b"two\nsix\n"],
        "one|;(rotated);two|six|;",
    ),
    // The same log.
    (&[b"one\n", b"one\ntwo\n"], "one|;two|;"),
    // Another that begins as the old one did, and is longer, passes for the same.
    (&[b"one\n", b"one\nsix\n"], "one|;six|;"),
];

#[test]
fn a_log_is_rotated(rt: HostRuntime) -> Result<(), Fail> {
    are_told(&rt, rt.alloc(), &ROTATIONS)
}

#[test]
fn a_rotated_log_is_asked_for_from_its_start(rt: HostRuntime) -> Result<(), Fail> {
    let alloc = rt.alloc();
    let mut follower = Follower::new(alloc, &from_start(alloc))?;
    let mut text = String::new(alloc);
    look_on(alloc, &mut follower, &mut text, b"abc", 65_536)?;
    assert_eq!(rt; follower.ask().from, 3);
    look_on(alloc, &mut follower, &mut text, b"ab", 65_536)?;
    assert_eq!(rt; follower.ask().from, 0);
    Ok(())
}

// So many times `a`, and this behind it.
fn log_of(alloc: Global, count: usize, end: &[u8]) -> Result<Vec<u8>, Fail> {
    let mut log = vec![in alloc; b'a'; count]?;
    log.extend_from_slice(end)?;
    Ok(log)
}

#[test]
fn only_the_first_64_bytes_tell_logs_apart(rt: HostRuntime) -> Result<(), Fail> {
    let alloc = rt.alloc();
    let mut follower = Follower::new(alloc, &from_start(alloc))?;
    let mut text = String::new(alloc);
    look_on(
        alloc,
        &mut follower,
        &mut text,
        &log_of(alloc, 70, b"")?,
        65_536,
    )?;
    let same = log_of(alloc, 64, b"bbbbbb\n")?;
    look_on(alloc, &mut follower, &mut text, &same, 65_536)?;
    assert_eq!(rt; text.as_str().len(), 71, "the line of 70 bytes and a bar");
    text.clear();
    let other = log_of(alloc, 63, b"bbbbbbb\n")?;
    look_on(alloc, &mut follower, &mut text, &other, 65_536)?;
    assert_eq!(rt; text.as_str(), "(rotated)");
    Ok(())
}

// A follower that was placed at the end of a log.
fn placed(rt: &impl Abort, alloc: Global, log: &[u8]) -> Result<Follower, Fail> {
    let mut follower = Follower::new(alloc, &Place::Tail)?;
    let mut text = String::new(alloc);
    assert_eq!(rt; follower.ask().from, 0);
    look_on(alloc, &mut follower, &mut text, log, 65_536)?;
    assert_eq!(rt; text.as_str(), "(placed)");
    Ok(follower)
}

#[test]
fn a_log_is_followed_from_its_end(rt: HostRuntime) -> Result<(), Fail> {
    let alloc = rt.alloc();
    let log = log_of(alloc, 100, b"")?;
    let follower = placed(&rt, alloc, &log)?;
    let ask = follower.ask();
    assert_eq!(rt; (ask.head, ask.from, ask.max), (64, 100, 65_536));
    match follower.place(alloc)? {
        Place::Pos { position, head } => assert_eq!(rt; (position, head.len()), (100, 64)),
        Place::Tail => assert!(rt; false, "it is placed"),
    }
    Ok(())
}

// What came behind its end is a line, also for who begins again at the place that was kept.
#[test]
fn a_log_is_followed_on_from_its_end(rt: HostRuntime) -> Result<(), Fail> {
    let alloc = rt.alloc();
    let mut follower = placed(&rt, alloc, &log_of(alloc, 100, b"")?)?;
    let mut again = Follower::new(alloc, &follower.place(alloc)?)?;
    let log = log_of(alloc, 100, b"yes\nno")?;
    let mut text = String::new(alloc);
    look_on(alloc, &mut follower, &mut text, &log, 65_536)?;
    look_on(alloc, &mut again, &mut text, &log, 65_536)?;
    assert_eq!(rt; text.as_str(), "yes|yes|");
    Ok(())
}

// The lines of a log that grows in three parts, with an extra look at each.
fn told_in_parts(
    alloc: Global,
    log: &[u8],
    first: usize,
    second: usize,
    most: usize,
) -> Result<String, Fail> {
    let mut text = String::new(alloc);
    let mut follower = Follower::new(alloc, &from_start(alloc))?;
    for end in [first, second, log.len()] {
        let file = log.get(..end).unwrap_or(log);
        look_on(alloc, &mut follower, &mut text, file, most)?;
        look_on(alloc, &mut follower, &mut text, file, 65_536)?;
    }
    Ok(text)
}

// The lines of a log are these wherever it is cut.
fn are_whole(rt: &impl Abort, alloc: Global, log: &[u8], wanted: &str) -> Result<(), Fail> {
    for first in 0..=log.len() {
        for second in first..=log.len() {
            let text = told_in_parts(alloc, log, first, second, 2)?;
            assert_eq!(rt; text.as_str(), wanted, "cut at {first} and {second}");
        }
    }
    Ok(())
}

fn are_whole_each(rt: &impl Abort, alloc: Global, rows: &[(&[u8], &str)]) -> Result<(), Fail> {
    for (log, wanted) in rows {
        are_whole(rt, alloc, log, wanted)?;
    }
    Ok(())
}

const CUT_LOGS: [(&[u8], &str); 4] = [
    (b"one\r\ntwo\n\nthr", "one|two||"),
    (b"\r\r\na\rb\n\r\n", "\r|a\rb||"),
    // Ill-formed: a byte alone, two of three bytes, a surrogate, one too far; and well-formed, which stays.
    (
        b"\xff\xe2\x82\n\xe2\x82\xac\n",
        "\u{fffd}\u{fffd}\u{fffd}|\u{20ac}|",
    ),
    (
        b"\xed\xa0\x80.\xf4\x90\x80\x80.\xc3\xa9\xc3\n",
        "\u{fffd}\u{fffd}\u{fffd}.\u{fffd}\u{fffd}\u{fffd}\u{fffd}.\u{e9}\u{fffd}|",
    ),
];

#[test]
fn lines_come_whole_wherever_they_are_cut(rt: HostRuntime) -> Result<(), Fail> {
    are_whole_each(&rt, rt.alloc(), &CUT_LOGS)
}

// What becomes of a log of one long line and a short one, that has grown by these parts.
fn told_long(alloc: Global, line: usize, end: &[u8], piece: usize) -> Result<String, Fail> {
    let mut log = vec![in alloc; b'a'; line]?;
    log.extend_from_slice(end)?;
    log.extend_from_slice(b"short\n")?;
    let mut text = String::new(alloc);
    let mut follower = Follower::new(alloc, &from_start(alloc))?;
    for _ in 0..200 {
        look_on(alloc, &mut follower, &mut text, &log, piece)?;
    }
    Ok(text)
}

// A long line comes so, by pieces of these many bytes.
fn is_long(
    rt: &impl Abort,
    alloc: Global,
    line: usize,
    end: &[u8],
    pieces: &[usize],
    wanted: &str,
) -> Result<(), Fail> {
    for piece in pieces {
        let text = told_long(alloc, line, end, *piece)?;
        assert_eq!(rt; text.as_str(), wanted, "{line} bytes by {piece}");
    }
    Ok(())
}

// Rows of the bytes of a line, what stands behind it, and what comes.
fn are_long(rt: &impl Abort, alloc: Global, rows: &[(usize, &[u8], &str)]) -> Result<(), Fail> {
    for &(line, end, wanted) in rows {
        is_long(rt, alloc, line, end, &[65_536, 65_535, 50_000], wanted)?;
    }
    Ok(())
}

const LONG_LINES: [(usize, &[u8], &str); 8] = [
    (65_535, b"\n", "(full)|short|"),
    (65_536, b"\n", "(full)|short|"),
    (65_537, b"\n", "(long)|short|"),
    (65_534, b"\r\n", "(full)|short|"),
    (65_535, b"\r\n", "(full)|short|"),
    (65_536, b"\r\n", "(long)|short|"),
    (131_072, b"\n", "(long)|short|"),
    (8_000_000, b"\n", "(long)|short|"),
];

#[test]
fn a_line_may_have_65536_bytes(rt: HostRuntime) -> Result<(), Fail> {
    are_long(&rt, rt.alloc(), &LONG_LINES)
}

#[test]
fn laws_are_called() {
    watch_law();
    decode_law();
}
