//! Worked rows, through the calls of `Windows`.
ghost use Rattle.std.specs.Prelude.{◌≡◌, ◌≤◌, IfOk};

use crate::windows::Windows;
use f2b_base::{Addr, Failure, NoMemory, Text};
use std::alloc::Global;
use std::process::Abort;
use std::test::Fail;

const FIRST: Addr = Addr::V4(0xc000_0207);

const SECOND: Addr = Addr::V4(0xc000_0208);

const THIRD: Addr = Addr::V6(0xc000_0207);

/// A failure of an address, with a line.
fn lined(alloc: Global, addr: Addr, time: u64, line: &str) -> Result<Failure, NoMemory>
    ensures addr { IfOk result (λ failure. failure.addr ≡ addr) }
    ensures time { IfOk result (λ failure. failure.time ≡ time) }
{
    Ok(Failure {
        addr,
        time,
        line: Text::from_str(alloc, line)?,
    })
}

/// A failure of an address.
fn failure(alloc: Global, addr: Addr, time: u64) -> Result<Failure, NoMemory>
    ensures addr { IfOk result (λ failure. failure.addr ≡ addr) }
    ensures time { IfOk result (λ failure. failure.time ≡ time) }
{
    lined(alloc, addr, time, "")
}

/// The places at which an address was full, each with the number of its failures that were near.
type Filled = Vec<(usize, usize)>;

/// Windows that were given failures, each with its address, its time, and the moment at which it came, and where an address was full.
/// They stop where a failure would not count.
fn fed(
    alloc: Global,
    findtime: u64,
    maxretry: u32,
    rows: &[(Addr, u64, u64)],
) -> Result<(Windows, Filled), NoMemory>
    requires findtime { 1 ≤ findtime }
    requires maxretry { 1 ≤ maxretry }
{
    let mut windows = Windows::new(alloc, findtime, maxretry);
    let mut filled = Vec::new(alloc);
    let mut last = 0;
    for (index, &(addr, time, now)) in rows.iter().enumerate() {
        if now < last || now < time || now - time >= findtime {
            return Ok((windows, filled));
        }
        last = now;
        if let Some(near) = windows.add(failure(alloc, addr, time)?, now)? {
            filled.push((index, near.len()))?;
        }
    }
    Ok((windows, filled))
}

/// Rows of how many failures fill an address, at least one, the failures, and where an address was full.
fn are_filled(
    rt: &impl Abort,
    alloc: Global,
    rows: &[(u32, &[(Addr, u64, u64)], &[(usize, usize)])],
) -> Result<(), Fail> {
    for &(maxretry, failures, places) in rows {
        let (_windows, filled) = fed(alloc, 600, maxretry.max(1), failures)?;
        assert!(rt; filled.as_slice() == places, "{filled:?}");
    }
    Ok(())
}

const FILLS: [(u32, &[(Addr, u64, u64)], &[(usize, usize)]); 6] = [
    (
        3,
        &[(FIRST, 100, 100), (FIRST, 300, 300), (FIRST, 699, 699)],
        &[(2, 3)],
    ),
    (
        3,
        &[(FIRST, 100, 100), (FIRST, 300, 300), (FIRST, 700, 700)],
        &[],
    ),
    (
        3,
        &[
            (FIRST, 100, 100),
            (SECOND, 200, 200),
            (THIRD, 250, 250),
            (FIRST, 300, 300),
            (SECOND, 400, 400),
            (THIRD, 410, 410),
            (SECOND, 500, 500),
        ],
        &[(6, 3)],
    ),
    (
        3,
        &[
            (FIRST, 100, 100),
            (FIRST, 300, 300),
            (FIRST, 699, 699),
            (FIRST, 700, 700),
            (FIRST, 701, 701),
            (FIRST, 702, 702),
        ],
        &[(2, 3), (5, 3)],
    ),
    (
        2,
        &[(FIRST, 100, 100), (FIRST, 750, 750), (FIRST, 700, 760)],
        &[(2, 2)],
    ),
    (1, &[(THIRD, 5, 5), (THIRD, 5, 5)], &[(0, 1), (1, 1)]),
];

#[test]
fn addresses_fill_each_for_itself(rt: HostRuntime) -> Result<(), Fail> {
    are_filled(&rt, rt.alloc(), &FILLS)
}

/// How many failures are kept in all: at the first moment all of them are recent.
fn count_kept(windows: &Windows) -> Result<usize, NoMemory> {
    Ok(windows.failures(0)?.len())
}

const OLD: [(Addr, u64, u64); 4] = [
    (FIRST, 100, 100),
    (SECOND, 100, 100),
    (THIRD, 200, 200),
    (SECOND, 2000, 2000),
];

/// Windows of ten minutes that no failure here fills.
fn open_after(alloc: Global, rows: &[(Addr, u64, u64)]) -> Result<Windows, NoMemory> {
    let (windows, _filled) = fed(alloc, 600, 9, rows)?;
    Ok(windows)
}

#[test]
fn old_addresses_are_not_kept(rt: HostRuntime) -> Result<(), Fail> {
    let mut windows = open_after(rt.alloc(), &OLD)?;
    assert_eq!(rt; count_kept(&windows)?, 1);
    windows.forget(FIRST);
    assert_eq!(rt; count_kept(&windows)?, 1);
    assert_eq!(rt; windows.failures(3199)?.len(), 1);
    assert_eq!(rt; windows.failures(3200)?.len(), 0);
    windows.forget(SECOND);
    assert_eq!(rt; count_kept(&windows)?, 0);
    Ok(())
}

/// 2000 addresses fail at once, and one of another family long after.
fn after_a_burst(alloc: Global) -> Result<Windows, NoMemory> {
    let mut rows = Vec::new(alloc);
    for number in 0..2000 {
        rows.push((Addr::V4(number), 100, 100))?;
    }
    rows.push((THIRD, 1300, 1300))?;
    open_after(alloc, rows.as_slice())
}

/// A sweep forgets a hundred of so many failures.
fn sweep_hundred(rt: &impl Abort, windows: &mut Windows, kept: usize) -> Result<(), Fail> {
    assert_eq!(rt; count_kept(windows)?, kept);
    assert_eq!(rt; windows.sweep(1300, 100), 100);
    Ok(())
}

#[test]
fn a_burst_is_forgotten_in_parts(rt: HostRuntime) -> Result<(), Fail> {
    let mut windows = after_a_burst(rt.alloc())?;
    let before = windows.failures(1300)?;
    assert_eq!(rt; windows.sweep(1299, 100), 0);
    for round in 0..20 {
        sweep_hundred(&rt, &mut windows, 2001 - 100 * round)?;
    }
    assert_eq!(rt; windows.sweep(1300, 100), 0);
    assert_eq!(rt; count_kept(&windows)?, 1);
    assert!(rt; windows.failures(1300)? == before);
    Ok(())
}

/// How many failures are kept of two of an address.
fn kept_of_two(alloc: Global, maxretry: u32) -> Result<usize, NoMemory>
    requires { 1 ≤ maxretry }
{
    let failures = [failure(alloc, FIRST, 100)?, failure(alloc, FIRST, 300)?];
    let windows = Windows::of(alloc, 600, maxretry, 300, &failures)?;
    count_kept(&windows)
}

#[test]
fn a_full_window_is_left_out(rt: HostRuntime) -> Result<(), Fail> {
    assert_eq!(rt; kept_of_two(rt.alloc(), 3)?, 2);
    assert_eq!(rt; kept_of_two(rt.alloc(), 2)?, 0);
    Ok(())
}

/// The lines of those failures that are kept of a stored list. In it the first address and the third have two failures within ten
/// minutes, and the second has not.
fn kept_of_three(alloc: Global, maxretry: u32, moment: u64) -> Result<Text, NoMemory>
    requires { 1 ≤ maxretry }
{
    let failures = [
        lined(alloc, FIRST, 100, "a")?,
        lined(alloc, FIRST, 300, "b")?,
        lined(alloc, FIRST, 1000, "c")?,
        lined(alloc, SECOND, 200, "d")?,
        lined(alloc, SECOND, 900, "e")?,
        lined(alloc, THIRD, 500, "f")?,
        lined(alloc, THIRD, 600, "g")?,
    ];
    let windows = Windows::of(alloc, 600, maxretry, moment, &failures)?;
    let mut lines = Text::new(alloc);
    for failure in windows.failures(0)?.as_slice() {
        lines.push_str(failure.line.as_str())?;
    }
    Ok(lines)
}

/// Rows of how many failures fill an address, at least one, the moment, and the lines of those that are kept.
fn are_kept(rt: &impl Abort, alloc: Global, rows: &[(u32, u64, &str)]) -> Result<(), Fail> {
    for &(maxretry, moment, expected) in rows {
        let lines = kept_of_three(alloc, maxretry.max(1), moment)?;
        assert_eq!(rt; lines.as_str(), expected, "{maxretry} at {moment}");
    }
    Ok(())
}

const KEPT: [(u32, u64, &str); 6] = [
    (3, 1000, "abcdefg"),
    (2, 1000, "de"),
    (2, 899, "d"),
    (2, 1300, "bcde"),
    (2, 1700, "ceg"),
    (1, 1000, ""),
];

#[test]
fn what_fills_no_address_is_taken_up(rt: HostRuntime) -> Result<(), Fail> {
    are_kept(&rt, rt.alloc(), &KEPT)
}

/// Rows of a moment and how many addresses failed lately at it.
fn have_failed_lately(rt: &impl Abort, windows: &Windows, rows: &[(u64, u64)]) {
    for &(now, count) in rows {
        assert_eq!(rt; windows.failed_lately(now), count, "at {now}");
    }
}

const LATE: [(Addr, u64, u64); 4] = [
    (FIRST, 100, 100),
    (SECOND, 300, 300),
    (FIRST, 400, 400),
    (THIRD, 400, 400),
];

const FAILED_LATELY: [(u64, u64); 5] = [(400, 3), (899, 3), (900, 2), (999, 2), (1000, 0)];

#[test]
fn addresses_that_failed_lately_count_once(rt: HostRuntime) -> Result<(), Fail> {
    let windows = open_after(rt.alloc(), &LATE)?;
    have_failed_lately(&rt, &windows, &FAILED_LATELY);
    Ok(())
}
