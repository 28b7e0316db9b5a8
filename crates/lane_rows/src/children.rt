//! What a table says of children that start, end and pass, and where memory runs out.

use crate::rows::{is_so, same};
use child_table::{Child, ChildTable, MOST_CHILDREN, Task};
use f2b_base::NoMemory;
use std::process::Abort;
use std::test::Fail;

// Started at 1000, for a minute.
fn child_of(job: u64, task: Task) -> Child {
    Child {
        job,
        task,
        since: 1000,
        timeout: 60,
    }
}

// Starts a child for which there is room.
fn start(rt: &impl Abort, table: &mut ChildTable, child: Child) -> Result<(), Fail> {
    is_so(rt, child.job, !table.is_full() && !table.runs(child.job));
    Ok(table.start(child)?)
}

// The second child ends, and 9 stands there.
fn end_second(rt: &impl Abort, table: &mut ChildTable) {
    is_so(rt, 1, table.count() > 1);
    table.end(1);
    is_so(rt, 1, table.count() > 1);
    same(rt, "second", table.at(1), child_of(9, Task::Command));
}

// The children stand by number, and the next one comes in the place of one that has ended.
#[test]
fn children_by_number(rt: HostRuntime) -> Result<(), Fail> {
    let mut table = ChildTable::new(rt.alloc());
    for job in [5, 2, 9] {
        start(&rt, &mut table, child_of(job, Task::Command))?;
    }
    let jobs = table.jobs()?;
    same(&rt, "jobs", jobs.as_slice(), &[2, 5, 9]);
    end_second(&rt, &mut table);
    same(&rt, "run", (table.runs(9), table.runs(5)), (true, false));
    Ok(())
}

// Sixteen run, and no more.
#[test]
fn sixteen_at_once(rt: HostRuntime) -> Result<(), Fail> {
    let mut table = ChildTable::new(rt.alloc());
    for job in 0..16 {
        start(&rt, &mut table, child_of(job, Task::Check))?;
    }
    same(&rt, "full", table.is_full(), true);
    same(&rt, "count", table.count(), MOST_CHILDREN);
    Ok(())
}

fn pass_each(table: &mut ChildTable, jobs: &[u64]) -> Result<(), NoMemory> {
    for job in jobs {
        table.pass(*job)?;
    }
    Ok(())
}

// Whether 5 has passed, and whether 9 has.
fn passed(table: &ChildTable) -> (bool, bool) {
    (table.has_passed(5), table.has_passed(9))
}

// The check of 5 serves one try of 5.
#[test]
fn one_try_for_a_check(rt: HostRuntime) -> Result<(), Fail> {
    let mut table = ChildTable::new(rt.alloc());
    pass_each(&mut table, &[5, 9])?;
    start(&rt, &mut table, child_of(5, Task::Check))?;
    same(&rt, "checked", passed(&table), (true, true));
    table.fail_start(child_of(5, Task::Command));
    same(&rt, "not started", passed(&table), (false, true));
    start(&rt, &mut table, child_of(9, Task::Command))?;
    same(&rt, "started", passed(&table), (false, false));
    Ok(())
}

// Rows of a moment and whether a child is late at it.
fn are_late(rt: &impl Abort, child: Child, rows: &[(u64, bool)]) {
    for &(now, late) in rows {
        same(rt, now, child.is_late(now), late);
    }
}

const LATE: [(u64, bool); 4] = [(0, false), (1059, false), (1060, true), (u64::MAX, true)];

const NEVER: [(u64, bool); 4] = [(0, false), (1059, false), (1060, false), (u64::MAX, false)];

// A minute is over with its last second, whatever the clock did before.
#[test]
fn late_children(rt: HostRuntime) -> Result<(), Fail> {
    let child = child_of(1, Task::Command);
    are_late(&rt, child, &LATE);
    let endless = Child {
        timeout: u64::MAX,
        ..child
    };
    are_late(&rt, endless, &NEVER);
    Ok(())
}
