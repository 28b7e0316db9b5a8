//! Worked rows, through the calls of `BanTable`.
ghost use Rattle.std.specs.Prelude.{◌≤◌};
ghost use Rattle.f2b_base.specs.Limits.{last_moment};

use crate::rows::same;
use ban_table::{BanLists, BanTable};
use f2b_base::{Addr, Ban, LAST_MOMENT, NoMemory, Past, Seq, Until};
use std::alloc::Global;
use std::process::Abort;
use std::test::Fail;

/// A table in which these bans began one after the other, with serials from 0 on. Who is banned is passed over.
fn table_of(alloc: Global, bans: &[(Addr, Until)]) -> Result<BanTable, NoMemory> {
    let mut table = BanTable::new(alloc);
    for (index, &(addr, until)) in bans.iter().enumerate() {
        let count = table.past(addr);
        if table.active(addr).is_none() {
            table.start(Ban {
                serial: index as u64,
                addr,
                begin: 0,
                until,
                count,
                failures: 0,
            })?;
        }
    }
    Ok(table)
}

/// A call that changes a table.
#[derive(Clone, Copy)]
enum Step {
    /// A ban without an end, unless the address is banned.
    Start(Addr),
    End(Addr, u32),
    Purge(u64),
}

/// The table after these steps. The serial of a ban is the place of its step.
fn table_after(alloc: Global, steps: &[Step]) -> Result<BanTable, NoMemory> {
    let mut table = BanTable::new(alloc);
    for (index, step) in steps.iter().enumerate() {
        match step {
            Step::Start(addr) => {
                let count = table.past(*addr);
                if table.active(*addr).is_none() {
                    table.start(Ban {
                        serial: index as u64,
                        addr: *addr,
                        begin: 0,
                        until: Until::Never,
                        count,
                        failures: 0,
                    })?;
                }
            }
            Step::End(addr, at) => {
                let _ = table.end(*addr, u64::from(*at));
            }
            Step::Purge(limit) => table.purge(*limit),
        }
    }
    Ok(table)
}

/// Ends a ban that is due at a moment.
fn end(table: &mut BanTable, ban: Ban, now: u64) -> bool
    requires { now ≤ last_moment }
{
    table.end(ban.addr, now) == Some(ban)
}

/// The serials of the bans that are due at a moment, each of which is ended at it before the next one is asked for.
fn ended_at(alloc: Global, table: &mut BanTable, now: u64) -> Result<Vec<u64>, NoMemory>
    requires { now ≤ last_moment }
{
    let mut serials = Vec::new(alloc);
    for _ in 0..2_000_000_u64 {
        let Some(ban) = table.due(now).copied() else {
            break;
        };
        if end(table, ban, now) {
            serials.push(ban.serial)?;
        }
    }
    Ok(serials)
}

/// Rows of a moment and the serials of the bans that are ended at it.
fn are_ended(
    rt: &impl Abort,
    alloc: Global,
    table: &mut BanTable,
    rows: &[(u64, &[u64])],
) -> Result<(), Fail> {
    for &(now, serials) in rows {
        let ended = ended_at(alloc, table, now.min(LAST_MOMENT))?;
        same(rt, now, ended.as_slice(), serials);
    }
    Ok(())
}

fn ends_of(alloc: Global, past: &[Past]) -> Result<Vec<u64>, NoMemory> {
    let mut ends = Vec::new(alloc);
    for entry in past {
        ends.push(entry.end)?;
    }
    Ok(ends)
}

/// The ends of the past bans, in their order.
fn past_ends(alloc: Global, table: &BanTable) -> Result<Vec<u64>, NoMemory> {
    let lists = table.lists()?;
    ends_of(alloc, lists.past.as_slice())
}

/// At a moment the past bans have these ends, in their order.
fn have_ended(
    rt: &impl Abort,
    alloc: Global,
    table: &BanTable,
    at: u64,
    want: &[u64],
) -> Result<(), Fail> {
    let ends = past_ends(alloc, table)?;
    same(rt, at, ends.as_slice(), want);
    Ok(())
}

/// Rows of an address and whether it is banned.
fn are_banned(rt: &impl Abort, table: &BanTable, rows: &[(Addr, bool)]) {
    for &(addr, banned) in rows {
        same(rt, addr, table.active(addr).is_some(), banned);
    }
}

fn active_count(table: &BanTable) -> Result<usize, NoMemory> {
    Ok(table.lists()?.active.len())
}

const FIVE_BANS: [(Addr, Until); 5] = [
    (Addr::V4(1), Until::At(20)),
    (Addr::V4(2), Until::At(10)),
    (Addr::V4(3), Until::Never),
    (Addr::V6(2), Until::At(10)),
    (Addr::V6(1), Until::At(30)),
];

const ENDED: [(u64, &[u64]); 6] = [
    (9, &[]),
    (10, &[1, 3]),
    (19, &[]),
    (25, &[0]),
    (40, &[4]),
    (LAST_MOMENT, &[]),
];

const LEFT: [(Addr, bool); 2] = [(Addr::V4(3), true), (Addr::V4(2), false)];

#[test]
fn bans_end_by_end_and_then_by_serial(rt: HostRuntime) -> Result<(), Fail> {
    let mut table = table_of(rt.alloc(), &FIVE_BANS)?;
    are_ended(&rt, rt.alloc(), &mut table, &ENDED)?;
    have_ended(&rt, rt.alloc(), &table, LAST_MOMENT, &[10, 10, 25, 40])?;
    same(&rt, "active", active_count(&table)?, 1);
    are_banned(&rt, &table, &LEFT);
    same(&rt, "ended", table.end(Addr::V4(2), 50), None);
    Ok(())
}

/// How many past bans the first two addresses have.
fn counts(table: &BanTable) -> (u32, u32) {
    (table.past(Addr::V4(1)), table.past(Addr::V4(2)))
}

/// Rows of a moment, the past bans that two addresses have after a purge, and its limit.
fn are_counted(
    rt: &impl Abort,
    alloc: Global,
    table: &mut BanTable,
    rows: &[(u64, u32, u32, u64)],
) -> Result<(), Fail> {
    for &(now, first, second, limit) in rows {
        let _ = ended_at(alloc, table, now.min(LAST_MOMENT))?;
        table.purge(limit);
        same(rt, now, counts(table), (first, second));
    }
    Ok(())
}

const TWO_BANS: [(Addr, Until); 2] = [(Addr::V4(1), Until::At(20)), (Addr::V4(2), Until::At(10))];

const PURGED: [(u64, u32, u32, u64); 4] = [
    (19, 0, 1, 0),
    (20, 1, 1, 18),
    (30, 1, 0, 19),
    (30, 0, 0, 20),
];

#[test]
fn past_entries_count_until_they_are_purged(rt: HostRuntime) -> Result<(), Fail> {
    let mut table = table_of(rt.alloc(), &TWO_BANS)?;
    are_counted(&rt, rt.alloc(), &mut table, &PURGED)
}

/// Each address whose number has a greater rest by 4, or the same one, is banned, and the bans of all end at a moment.
fn push_round(steps: &mut Vec<Step>, round: u32, at: u32) -> Result<(), NoMemory> {
    for number in 0..200_u32 {
        if round <= number % 4 {
            steps.push(Step::Start(Addr::V4(number)))?;
        }
    }
    for number in 0..200_u32 {
        steps.push(Step::End(Addr::V4(number), at))?;
    }
    Ok(())
}

/// Each third address is banned.
fn push_last(steps: &mut Vec<Step>) -> Result<(), NoMemory> {
    for number in 0..200_u32 {
        if number % 3 == 0 {
            steps.push(Step::Start(Addr::V4(number)))?;
        }
    }
    Ok(())
}

/// Each address has so many past bans less.
fn are_left(rt: &impl Abort, table: &BanTable, limit: u64, gone: u32) {
    for number in 0..200_u32 {
        let want = (number % 4 + 1).saturating_sub(gone);
        same(rt, (number, limit), table.past(Addr::V4(number)), want);
    }
}

/// Rows of the limit of a purge, and how many past bans less it leaves.
fn are_left_each(rt: &impl Abort, table: &mut BanTable, rows: &[(u64, u32)]) {
    for &(limit, gone) in rows {
        table.purge(limit);
        are_left(rt, table, limit, gone);
        same(rt, limit, table.past(Addr::V6(3)), 0);
    }
}

const GONE: [(u64, u32); 5] = [(0, 1), (9, 1), (10, 2), (29, 3), (30, 4)];

/// Each address is banned one to four times, by its number, and each third one once more, which does not end.
fn steps_of_all(alloc: Global) -> Result<Vec<Step>, NoMemory> {
    let mut steps = Vec::new(alloc);
    for round in 0..4_u32 {
        push_round(&mut steps, round, round * 10)?;
    }
    push_last(&mut steps)?;
    Ok(steps)
}

/// The table after these steps.
fn table_of_all(alloc: Global) -> Result<BanTable, NoMemory> {
    let steps = steps_of_all(alloc)?;
    table_after(alloc, steps.as_slice())
}

fn ban_count(table: &BanTable) -> Result<usize, NoMemory> {
    Ok(table.bans()?.len())
}

#[test]
fn each_address_has_its_own_past_bans(rt: HostRuntime) -> Result<(), Fail> {
    let mut table = table_of_all(rt.alloc())?;
    are_left_each(&rt, &mut table, &GONE);
    same(&rt, "bans", ban_count(&table)?, 67);
    Ok(())
}

/// A table without active bans, with past ones of these addresses that ended so.
fn table_of_past(alloc: Global, rows: &[(u32, u64)]) -> Result<BanTable, NoMemory> {
    let mut past = Seq::new(alloc);
    for &(number, end) in rows {
        past.push(Past {
            addr: Addr::V4(number),
            end,
        })?;
    }
    let lists = BanLists {
        active: Seq::new(alloc),
        past,
    };
    BanTable::of(alloc, &lists)
}

/// How many past bans the first three addresses have.
fn counts_of_three(table: &BanTable) -> [u32; 3] {
    let (first, second) = counts(table);
    [first, second, table.past(Addr::V4(3))]
}

/// Rows of a limit, the ends that are left after a purge, and how many past bans three addresses have.
fn are_purged(
    rt: &impl Abort,
    alloc: Global,
    table: &mut BanTable,
    rows: &[(u64, &[u64], [u32; 3])],
) -> Result<(), Fail> {
    for &(limit, left, counts) in rows {
        table.purge(limit);
        have_ended(rt, alloc, table, limit, left)?;
        same(rt, limit, counts_of_three(table), counts);
    }
    Ok(())
}

const UNORDERED: [(u32, u64); 6] = [(1, 7), (2, 3), (1, 9), (2, 4), (3, 5), (2, 8)];

const UNORDERED_PURGED: [(u64, &[u64], [u32; 3]); 5] = [
    (2, &[7, 3, 9, 4, 5, 8], [2, 3, 1]),
    (4, &[7, 9, 5, 8], [2, 1, 1]),
    (7, &[9, 8], [1, 1, 0]),
    (8, &[9], [1, 0, 0]),
    (9, &[], [0, 0, 0]),
];

#[test]
fn entries_in_another_order_are_purged_too(rt: HostRuntime) -> Result<(), Fail> {
    let mut table = table_of_past(rt.alloc(), &UNORDERED)?;
    are_purged(&rt, rt.alloc(), &mut table, &UNORDERED_PURGED)
}

/// The lists of two active bans and a past one, and a table of them.
fn table_of_lists(alloc: Global) -> Result<(BanLists, BanTable), NoMemory> {
    let mut active = Seq::new(alloc);
    active.push(Ban {
        serial: 3,
        addr: Addr::V4(1),
        begin: 0,
        until: Until::At(20),
        count: 0,
        failures: 5,
    })?;
    active.push(Ban {
        serial: 7,
        addr: Addr::V4(2),
        begin: 6,
        until: Until::At(10),
        count: 1,
        failures: 0,
    })?;
    let mut past = Seq::new(alloc);
    past.push(Past {
        addr: Addr::V4(2),
        end: 4,
    })?;
    let lists = BanLists { active, past };
    let table = BanTable::of(alloc, &lists)?;
    Ok((lists, table))
}

const ASKED: [Addr; 4] = [Addr::V4(2), Addr::V6(1), Addr::V4(1), Addr::V4(2)];

fn has_lists(rt: &impl Abort, table: &BanTable, want: &BanLists) -> Result<(), NoMemory> {
    let lists = table.lists()?;
    same(rt, "lists", &lists, want);
    Ok(())
}

fn has_bans(rt: &impl Abort, table: &BanTable, want: &Seq<Ban>) -> Result<(), NoMemory> {
    let bans = table.bans()?;
    same(rt, "bans", &bans, want);
    let asked = table.bans_of(&ASKED)?;
    same(rt, "asked", &asked, want);
    Ok(())
}

#[test]
fn a_table_of_lists_stands_as_they_do(rt: HostRuntime) -> Result<(), Fail> {
    let (lists, table) = table_of_lists(rt.alloc())?;
    has_lists(&rt, &table, &lists)?;
    has_bans(&rt, &table, &lists.active)?;
    Ok(())
}

/// The serial of the first ban from a serial on.
fn first_from(table: &BanTable, serial: u64) -> Option<u64> {
    let ban = table.from(serial)?;
    Some(ban.serial)
}

/// Rows of a serial and that of the first ban from it on.
fn are_found(rt: &impl Abort, table: &BanTable, rows: &[(u64, Option<u64>)]) {
    for &(serial, found) in rows {
        same(rt, serial, first_from(table, serial), found);
    }
}

const FOUR_BANS: [(Addr, Until); 4] = [
    (Addr::V4(3), Until::Never),
    (Addr::V4(2), Until::At(10)),
    (Addr::V6(1), Until::Never),
    (Addr::V4(1), Until::At(30)),
];

const FOUND: [(u64, Option<u64>); 5] = [
    (0, Some(0)),
    (1, Some(2)),
    (2, Some(2)),
    (3, Some(3)),
    (4, None),
];

#[test]
fn active_bans_are_found_from_a_serial_on(rt: HostRuntime) -> Result<(), Fail> {
    let mut table = table_of(rt.alloc(), &FOUR_BANS)?;
    let _ = table.end(Addr::V4(2), 10);
    are_found(&rt, &table, &FOUND);
    Ok(())
}

fn million(alloc: Global) -> Result<Vec<(Addr, Until)>, NoMemory> {
    let mut bans = Vec::new(alloc);
    for number in 0..1_000_000_u32 {
        bans.push((Addr::V4(number), Until::At(u64::from(number % 1000))))?;
    }
    Ok(bans)
}

fn past_count(table: &BanTable) -> Result<usize, NoMemory> {
    Ok(table.lists()?.past.len())
}

/// The bans of a million addresses, whose ends come in a thousand moments, end in order.
fn million_ends(rt: &impl Abort, alloc: Global, table: &mut BanTable) -> Result<(), NoMemory> {
    let ended = ended_at(alloc, table, 999)?;
    same(rt, "ended", ended.len(), 1_000_000);
    same(rt, "second", ended.get(1), Some(&1000));
    Ok(())
}

/// A table in which these bans began.
fn table_of_million(alloc: Global) -> Result<BanTable, NoMemory> {
    let bans = million(alloc)?;
    table_of(alloc, bans.as_slice())
}

#[test]
fn a_million_bans_end_in_order(rt: HostRuntime) -> Result<(), Fail> {
    let mut table = table_of_million(rt.alloc())?;
    million_ends(&rt, rt.alloc(), &mut table)?;
    same(&rt, "past", past_count(&table)?, 1_000_000);
    Ok(())
}
