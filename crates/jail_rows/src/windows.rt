//! Worked rows, through the calls of `Window`.
ghost use Rattle.std.specs.Prelude.{◌≡◌, ◌≤◌, IfOk};

use crate::rows::same;
use f2b_base::{Addr, Failure, NoMemory, Seq, Text};
use fail_window::Window;
use std::alloc::Global;
use std::process::Abort;
use std::test::Fail;

const ADDR: Addr = Addr::V4(0xc000_0207);

/// A failure of the address with a line.
fn failure(alloc: Global, time: u64, line: &str) -> Result<Failure, NoMemory>
    ensures addr { IfOk result (λ failure. failure.addr ≡ ADDR) }
    ensures time { IfOk result (λ failure. failure.time ≡ time) }
{
    Ok(Failure {
        addr: ADDR,
        time,
        line: Text::from_str(alloc, line)?,
    })
}

/// A window that was given failures, each with its time, the moment at which it came and its line, and at which of them it was full.
/// It stops there, and where a failure would not count.
fn fed(
    alloc: Global,
    findtime: u64,
    maxretry: u32,
    rows: &[(u64, u64, &str)],
) -> Result<(Window, Option<usize>), NoMemory>
    requires findtime { 1 ≤ findtime }
    requires maxretry { 1 ≤ maxretry }
{
    let mut window = Window::new(alloc, findtime, maxretry);
    let mut last = 0;
    for (index, &(time, now, line)) in rows.iter().enumerate() {
        if now < last || now < time || now - time >= findtime {
            return Ok((window, None));
        }
        last = now;
        if window.add(failure(alloc, time, line)?, now)? {
            return Ok((window, Some(index)));
        }
    }
    Ok((window, None))
}

/// How many failures a window has, and at which of them it is full.
fn filled(
    alloc: Global,
    findtime: u64,
    maxretry: u32,
    failures: &[(u64, u64, &str)],
) -> Result<(u64, Option<usize>), NoMemory> {
    let (window, at) = fed(alloc, findtime.max(1), maxretry.max(1), failures)?;
    Ok((window.len(), at))
}

/// Rows of `findtime` and `maxretry`, both at least 1, of failures, and of the place at which they fill a window.
fn are_filled(
    rt: &impl Abort,
    alloc: Global,
    rows: &[(u64, u32, &[(u64, u64, &str)], Option<usize>)],
) -> Result<(), Fail> {
    for &(findtime, maxretry, failures, place) in rows {
        let (_, at) = filled(alloc, findtime, maxretry, failures)?;
        same(rt, failures, at, place);
    }
    Ok(())
}

const FILLS: [(u64, u32, &[(u64, u64, &str)], Option<usize>); 10] = [
    (
        600,
        3,
        &[(100, 100, ""), (300, 300, ""), (699, 699, "")],
        Some(2),
    ),
    (
        600,
        3,
        &[(100, 100, ""), (300, 300, ""), (700, 700, "")],
        None,
    ),
    (
        600,
        3,
        &[(500, 500, ""), (100, 500, ""), (300, 500, "")],
        Some(2),
    ),
    (600, 1, &[(100, 100, "")], Some(0)),
    (600, 2, &[(100, 100, ""), (100, 100, "")], Some(1)),
    (
        600,
        2,
        &[(100, 100, ""), (700, 700, ""), (1300, 1300, "")],
        None,
    ),
    (
        600,
        3,
        &[(100, 100, ""), (700, 700, ""), (400, 800, "")],
        None,
    ),
    (
        600,
        3,
        &[
            (100, 100, ""),
            (700, 700, ""),
            (400, 800, ""),
            (699, 900, ""),
        ],
        Some(3),
    ),
    (1, 2, &[(5, 5, ""), (6, 6, ""), (6, 6, "")], Some(2)),
    (
        10,
        3,
        &[
            (1, 1, ""),
            (11, 11, ""),
            (21, 21, ""),
            (12, 21, ""),
            (12, 21, ""),
        ],
        Some(4),
    ),
];

#[test]
fn fills_where_maxretry_failures_are_within_findtime(rt: HostRuntime) -> Result<(), Fail> {
    are_filled(&rt, rt.alloc(), &FILLS)
}

const EQUAL_TIMES: [(u64, u64, &str); 5] = [
    (5, 5, "a"),
    (4, 5, "b"),
    (5, 6, "c"),
    (4, 7, "d"),
    (7, 7, "e"),
];

/// The lines of failures, one behind the other.
fn lines(alloc: Global, failures: &[Failure]) -> Result<String, NoMemory> {
    let mut lines = String::new(alloc);
    for failure in failures {
        lines.push_str(failure.line.as_str())?;
    }
    Ok(lines)
}

/// A window has these failures, and hands them out.
fn are_handed_out(rt: &impl Abort, window: Window) -> Result<Seq<Failure>, NoMemory> {
    let copies = window.failures()?;
    let failures = window.into_failures()?;
    same(rt, "copies", &copies, &failures);
    Ok(failures)
}

#[test]
fn equal_times_stand_in_order_of_arrival(rt: HostRuntime) -> Result<(), Fail> {
    let (window, _) = fed(rt.alloc(), 600, 9, &EQUAL_TIMES)?;
    same(&rt, "count", window.len(), 5);
    let failures = are_handed_out(&rt, window)?;
    let lines = lines(rt.alloc(), failures.as_slice())?;
    same(&rt, "lines", lines.as_str(), "bdace");
    Ok(())
}

/// Rows of a moment and whether the window is recent at it.
fn are_recent(rt: &impl Abort, window: &Window, rows: &[(u64, bool)]) {
    for &(now, recent) in rows {
        same(rt, now, window.failed_lately(now), recent);
    }
}

const LATE: [(u64, u64, &str); 3] = [(100, 100, ""), (300, 300, ""), (200, 301, "")];

const RECENT: [(u64, bool); 4] = [(301, true), (899, true), (900, false), (5000, false)];

#[test]
fn a_window_is_recent_until_its_last_failure_is_findtime_old(rt: HostRuntime) -> Result<(), Fail> {
    let (window, _) = fed(rt.alloc(), 600, 9, &LATE)?;
    are_recent(&rt, &window, &RECENT);
    are_recent(&rt, &Window::new(rt.alloc(), 600, 9), &[(0, false)]);
    Ok(())
}

/// So many failures, one a second.
fn one_a_second(alloc: Global, count: u64) -> Result<Vec<(u64, u64, &'static str)>, NoMemory> {
    let mut rows = Vec::new(alloc);
    for second in 0..count {
        rows.push((second, second, ""))?;
    }
    Ok(rows)
}

#[test]
fn a_large_window_is_fast(rt: HostRuntime) -> Result<(), Fail> {
    let rows = one_a_second(rt.alloc(), 500_000)?;
    let full = filled(rt.alloc(), 100_000, 100_000, rows.as_slice())?;
    same(&rt, "full", full, (100_000, Some(99_999)));
    let open = filled(rt.alloc(), 99_999, 100_000, rows.as_slice())?;
    same(&rt, "open", open, (199_998, None));
    Ok(())
}
