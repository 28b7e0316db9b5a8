//! Worked rows of the lines that a ban shows, through `matches_of` and the calls of `Room`.
ghost use Rattle.std.specs.Prelude.{◌≡◌, IfOk};
ghost use Rattle.jail_moves.specs.Rooms.{IsKeptJail, IsStored};
ghost use Rattle.f2b_model.specs.Bounds.{IsBounded};

use crate::matches::matches_of;
use crate::room::Room;
use f2b_base::{Addr, BanRule, DateSpec, Failure, JailDef, JailView, NoMemory, Seq, Text};
use f2b_model::Happening;
use std::alloc::Global;
use std::process::Abort;
use std::test::Fail;

/// 192.0.2.7.
const ADDR: Addr = Addr::V4(0xc000_0207);

/// 2001:db8::1.
const OTHER: Addr = Addr::V6(0x2001_0db8_0000_0000_0000_0000_0000_0001);

/// A failure with a line.
fn failure(alloc: Global, addr: Addr, time: u64, line: &str) -> Result<Failure, NoMemory>
    ensures addr { IfOk result (λ failure. failure.addr ≡ addr) }
    ensures time { IfOk result (λ failure. failure.time ≡ time) }
{
    Ok(Failure {
        addr,
        time,
        line: Text::from_str(alloc, line)?,
    })
}

/// What a ban shows to which failures with these lines led.
fn shown(alloc: Global, lines: &[&str], maxmatches: u64) -> Result<Text, NoMemory> {
    let mut failures = Seq::new(alloc);
    for line in lines {
        failures.push(failure(alloc, ADDR, 100, line)?)?;
    }
    matches_of(alloc, failures.as_slice(), maxmatches)
}

/// Rows of the lines of failures, how many are shown, and what is shown.
fn are_shown(rt: &impl Abort, alloc: Global, rows: &[(&[&str], u64, &str)]) -> Result<(), Fail> {
    for &(lines, maxmatches, expected) in rows {
        let text = shown(alloc, lines, maxmatches)?;
        assert_eq!(rt; text.as_str(), expected, "{lines:?}");
    }
    Ok(())
}

const LAST_LINES: [(&[&str], u64, &str); 9] = [
    (&[], 3, ""),
    (&["a"], 3, "a"),
    (&["a", "b", "c"], 3, "a / b / c"),
    (&["a", "b", "c"], 2, "b / c"),
    (&["a", "b", "c"], 0, ""),
    (&["a", "", "c", ""], 2, "a / c"),
    (
        &["x'; reboot #", "$(id)`id`\"\\\n"],
        3,
        "x__ reboot _ / __id__id____",
    ),
    (&["\u{e9}\u{20ac}"], 3, "__"),
    (
        &["host sshd[811]: Failed password for root from 192.0.2.7 port 4242 ssh2"],
        3,
        "host sshd_811_: Failed password for root from 192.0.2.7 port 4242 ssh2",
    ),
];

#[test]
fn the_last_lines_are_shown_escaped(rt: HostRuntime) -> Result<(), Fail> {
    are_shown(&rt, rt.alloc(), &LAST_LINES)
}

/// A line of so many characters.
fn line_of(alloc: Global, length: usize) -> Result<Text, NoMemory> {
    let mut line = Text::new(alloc);
    for _ in 0..length {
        line.push_str("x")?;
    }
    Ok(line)
}

/// How many bytes a ban shows to which failures with lines of these lengths led.
fn shown_length(alloc: Global, lengths: &[usize]) -> Result<usize, NoMemory> {
    let mut failures = Seq::new(alloc);
    for &length in lengths {
        failures.push(Failure {
            addr: ADDR,
            time: 100,
            line: line_of(alloc, length)?,
        })?;
    }
    let text = matches_of(alloc, failures.as_slice(), 1000)?;
    Ok(text.as_str().len())
}

/// Rows of the lengths of lines, and how many bytes are shown.
fn are_lengths(rt: &impl Abort, alloc: Global, rows: &[(&[usize], usize)]) -> Result<(), Fail> {
    for &(lengths, expected) in rows {
        assert_eq!(rt; shown_length(alloc, lengths)?, expected, "{lengths:?}");
    }
    Ok(())
}

const LENGTHS: [(&[usize], usize); 7] = [
    (&[8192], 8192),
    (&[8193], 0),
    (&[8193, 1], 1),
    (&[4000, 4189], 8192),
    (&[4000, 4190], 4190),
    (&[1, 4000, 4190, 1], 4194),
    (&[512; 17], 7722),
];

#[test]
fn what_is_shown_has_at_most_8192_bytes(rt: HostRuntime) -> Result<(), Fail> {
    are_lengths(&rt, rt.alloc(), &LENGTHS)
}

/// A jail that bans after three failures within ten minutes, and shows up to three lines.
fn definition(alloc: Global) -> Result<JailDef, NoMemory>
    ensures { IfOk result IsBounded }
{
    Ok(JailDef {
        name: Text::from_str(alloc, "sshd")?,
        watches: Seq::new(alloc),
        zone: 0,
        date: DateSpec::Default,
        pref: None,
        fail: Seq::new(alloc),
        ignore_lines: Seq::new(alloc),
        ignore: Seq::new(alloc),
        findtime: 600,
        maxretry: 3,
        maxmatches: 3,
        rule: BanRule {
            base: 600,
            increment: false,
            factor: 1000,
            multipliers: Seq::new(alloc),
            maxtime: 5000,
            rndtime: 0,
        },
        actions: Seq::new(alloc),
    })
}

/// The lines of each ban that began, each ended by LF.
fn lines_told(alloc: Global, told: &[Happening]) -> Result<Text, NoMemory> {
    let mut lines = Text::new(alloc);
    for happening in told {
        if let Happening::Begins { matches, .. } = happening {
            lines.push_str(matches.as_str())?;
            lines.push_str("\n")?;
        }
    }
    Ok(lines)
}

/// What a jail tells of these failures, each with its address, its time and its line, which are all found at 300, and of the ban of an
/// address by command after them.
fn told_of(
    alloc: Global,
    definition: &JailDef,
    mut room: Room,
    failures: &[(Addr, u64, &str)],
    banned: Addr,
) -> Result<Text, NoMemory>
    requires { IsKeptJail 300 0 definition.now room }
{
    let mut told = Seq::new(alloc);
    let mut serial = 0;
    for &(addr, time, line) in failures {
        let failure = failure(alloc, addr, time, line)?;
        serial = room.found(definition, &mut told, 300, 7, serial, &failure)?;
    }
    room.ban(definition, &mut told, 300, 7, serial, banned)?;
    lines_told(alloc, told.as_slice())
}

/// The jail before its first failure.
fn fresh(alloc: Global, definition: &JailDef) -> Result<Room, NoMemory>
    requires { IsBounded definition.now }
    ensures { IfOk result (IsKeptJail 300 0 definition.now) }
{
    Room::fresh(alloc, definition)
}

const FOUND: [(Addr, u64, &str); 5] = [
    (ADDR, 300, "c"),
    (OTHER, 100, "other"),
    (ADDR, 100, "a"),
    (OTHER, 200, "another"),
    (ADDR, 200, "b"),
];

#[test]
fn a_ban_shows_the_lines_that_led_to_it(rt: HostRuntime) -> Result<(), Fail> {
    let definition = definition(rt.alloc())?;
    let room = fresh(rt.alloc(), &definition)?;
    let lines = told_of(rt.alloc(), &definition, room, &FOUND, OTHER)?;
    assert_eq!(rt; lines.as_str(), "a / b / c\n\n");
    Ok(())
}

/// The jail as it was stored at 300: one address has failures, and another has too many.
fn stored(alloc: Global) -> Result<JailView, NoMemory>
    ensures { IfOk result (IsStored 300 0) }
{
    let mut failures = Seq::new(alloc);
    failures.push(failure(alloc, ADDR, 100, "a")?)?;
    failures.push(failure(alloc, ADDR, 200, "b")?)?;
    failures.push(failure(alloc, OTHER, 100, "other")?)?;
    failures.push(failure(alloc, OTHER, 200, "another")?)?;
    failures.push(failure(alloc, OTHER, 300, "a third")?)?;
    Ok(JailView {
        name: Text::from_str(alloc, "sshd")?,
        idle: false,
        total_failed: 5,
        total_banned: 0,
        moment: 300,
        failures,
        bans: Seq::new(alloc),
        past: Seq::new(alloc),
        watches: Seq::new(alloc),
    })
}

/// The jail that is taken up from what was stored.
fn taken_up(alloc: Global, definition: &JailDef) -> Result<Room, NoMemory>
    requires { IsBounded definition.now }
    ensures { IfOk result (IsKeptJail 300 0 definition.now) }
{
    let view = stored(alloc)?;
    Room::of(alloc, definition, &view, 300)
}

const FOUND_THEN: [(Addr, u64, &str); 2] = [(OTHER, 300, "one more"), (ADDR, 300, "c")];

#[test]
fn a_ban_shows_lines_that_were_stored(rt: HostRuntime) -> Result<(), Fail> {
    let definition = definition(rt.alloc())?;
    let room = taken_up(rt.alloc(), &definition)?;
    let lines = told_of(rt.alloc(), &definition, room, &FOUND_THEN, OTHER)?;
    assert_eq!(rt; lines.as_str(), "a / b / c\n\n");
    Ok(())
}
