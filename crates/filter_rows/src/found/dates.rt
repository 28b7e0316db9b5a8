//! Lines with dates of the usual forms, and of a user's pattern.
use super::*;

/// 2024-03-01T10:00:10Z.
const NOW: u64 = 1_709_287_210;

/// 2024-03-01T10:00:00Z.
const TEN: u64 = 1_709_287_200;

/// 2024-03-01T09:00:00Z.
const NINE: u64 = 1_709_283_600;

/// Each pattern begins with what is left of the line before the host.
const FAIL: &str = "^ a fail from <HOST>$
^\\[\\] a fail from <HOST>$
^<HOST> - - \\[\\] \"GET
 a fail for \\S* from <HOST>$";

/// What a line says where failures count for two hours.
fn is_found(
    rt: &impl Abort,
    alloc: Global,
    dated: Dated<'_>,
    line: &str,
    finding: Finding,
) -> Result<(), NoMemory> {
    let parts = Parts {
        dated,
        fail: FAIL,
        ..NONE
    };
    let found = found_in(rt, alloc, &parts, line, NOW, 7200)?;
    same(rt, line, found, finding);
    Ok(())
}

/// Rows of a line and what is found.
fn are_found(
    rt: &impl Abort,
    alloc: Global,
    dated: Dated<'_>,
    rows: &[(&str, Finding)],
) -> Result<(), NoMemory> {
    for &(line, finding) in rows {
        is_found(rt, alloc, dated, line, finding)?;
    }
    Ok(())
}

/// Rows of how lines are dated, a line and what is found.
fn are_found_as_dated(
    rt: &impl Abort,
    alloc: Global,
    rows: &[(Dated<'_>, &str, Finding)],
) -> Result<(), NoMemory> {
    for &(dated, line, finding) in rows {
        is_found(rt, alloc, dated, line, finding)?;
    }
    Ok(())
}

const USUAL_DATES: [(&str, Finding); 12] = [
    (
        "2024-03-01T10:00:00.123+01:00 a fail from 192.0.2.7",
        Finding::Failure {
            addr: SEVEN,
            time: NINE,
            index: 1,
        },
    ),
    (
        "2024-03-01 10:00:00 a fail from 192.0.2.7",
        Finding::Failure {
            addr: SEVEN,
            time: TEN,
            index: 1,
        },
    ),
    (
        "Mar  1 10:00:00 a fail from 192.0.2.7",
        Finding::Failure {
            addr: SEVEN,
            time: TEN,
            index: 1,
        },
    ),
    (
        "Fri Mar  1 10:00:00 2024 a fail from 192.0.2.7",
        Finding::Failure {
            addr: SEVEN,
            time: TEN,
            index: 1,
        },
    ),
    (
        "2024/03/01 10:00:00 a fail from 192.0.2.7",
        Finding::Failure {
            addr: SEVEN,
            time: TEN,
            index: 1,
        },
    ),
    (
        "1709287200.5 a fail from 192.0.2.7",
        Finding::Failure {
            addr: SEVEN,
            time: TEN,
            index: 1,
        },
    ),
    (
        "[2024-03-01 10:00:00] a fail from 192.0.2.7",
        Finding::Failure {
            addr: SEVEN,
            time: TEN,
            index: 2,
        },
    ),
    (
        "192.0.2.7 - - [01/Mar/2024:11:00:00 +0100] \"GET /",
        Finding::Failure {
            addr: SEVEN,
            time: TEN,
            index: 3,
        },
    ),
    // A date that is later than now counts as now.
    (
        "Mar  1 11:00:00 a fail from 192.0.2.7",
        Finding::Failure {
            addr: SEVEN,
            time: NOW,
            index: 1,
        },
    ),
    // The first form that gives a date, wherever it stands.
    (
        "Mar  1 10:00:00 a fail for 2020-01-01T00:00:00Z from 192.0.2.7",
        Finding::TooOld(4),
    ),
    // No date of the calendar.
    ("2024-02-30 10:00:00 a fail from 192.0.2.7", Finding::NoDate),
    (
        "1969-12-31T23:59:59Z a fail from 192.0.2.7",
        Finding::TooOld(1),
    ),
];

#[test]
fn usual_dates(rt: HostRuntime) -> Result<(), NoMemory> {
    are_found(&rt, rt.alloc(), Dated::Usual, &USUAL_DATES)
}

const DATES_AT_THE_BEGINNING: [(&str, Finding); 3] = [
    (
        "Mar  1 10:00:00 a fail for 2020-01-01T00:00:00Z from 192.0.2.7",
        Finding::Failure {
            addr: SEVEN,
            time: TEN,
            index: 4,
        },
    ),
    (
        "[2024-03-01 10:00:00] a fail from 192.0.2.7",
        Finding::Failure {
            addr: SEVEN,
            time: TEN,
            index: 2,
        },
    ),
    (
        "x 2024-03-01 10:00:00 a fail from 192.0.2.7",
        Finding::NoDate,
    ),
];

#[test]
fn dates_at_the_beginning(rt: HostRuntime) -> Result<(), NoMemory> {
    are_found(&rt, rt.alloc(), Dated::Anchored, &DATES_AT_THE_BEGINNING)
}

const OTHER_DATES: [(Dated<'static>, &str, Finding); 6] = [
    (
        Dated::NoDate,
        " a fail from 192.0.2.7",
        Finding::Failure {
            addr: SEVEN,
            time: NOW,
            index: 1,
        },
    ),
    // Nothing is taken out where lines have no dates.
    (
        Dated::NoDate,
        "2024-03-01 10:00:00 a fail from 192.0.2.7",
        Finding::Missed,
    ),
    (
        Dated::Iso,
        "2024-03-01T10:00:00Z a fail from 192.0.2.7",
        Finding::Failure {
            addr: SEVEN,
            time: TEN,
            index: 1,
        },
    ),
    (
        Dated::Iso,
        "Mar  1 10:00:00 a fail from 192.0.2.7",
        Finding::NoDate,
    ),
    (
        Dated::Own("%d.%m.%Y %H:%M"),
        "01.03.2024 10:00 a fail from 192.0.2.7",
        Finding::Failure {
            addr: SEVEN,
            time: TEN,
            index: 1,
        },
    ),
    (
        Dated::OwnAnchored("%b %d %H:%M:%S"),
        "Mar  1 10:00:00 a fail from 192.0.2.7",
        Finding::Failure {
            addr: SEVEN,
            time: TEN,
            index: 1,
        },
    ),
];

#[test]
fn other_dates(rt: HostRuntime) -> Result<(), NoMemory> {
    are_found_as_dated(&rt, rt.alloc(), &OTHER_DATES)
}
