//! A stop that is asked for while the check before a ban runs.
use crate::seen::{commands, same, texts};
use crate::worked::{FILTER, File, change, client, nothing, quiet, readings, run, tree};
use f2b_base::Seq;
use f2b_mem::{ChildPlan, Script};
use std::alloc::Global;
use std::process::Abort;
use std::test::Fail;

/// What the check ends with, and what comes of it.
struct Row {
    check: i32,
    texts: &'static str,
    commands: &'static str,
}

const ROWS: [Row; 2] = [
    // It fails: the ban and its end are voided, nothing starts anew, and the action is stopped.
    Row {
        check: 1,
        texts: "INFO Server ready\nINFO [web] Found 192.0.2.7\nNOTICE [web] Ban 192.0.2.7\nINFO Stopping\nWARNING [web/note] check failed: status 1\n",
        commands: "up\nlook\ndown\n",
    },
    // It passes: the ban is made, and let go without a check.
    Row {
        check: 0,
        texts: "INFO Server ready\nINFO [web] Found 192.0.2.7\nNOTICE [web] Ban 192.0.2.7\nINFO Stopping\n",
        commands: "up\nlook\nadd 192.0.2.7\ndel 192.0.2.7\ndown\n",
    },
];

const CONF: [File; 3] = [
    (
        "action.d/note.conf",
        "[Definition]\nactionstart = up\nactionstop = down\nactionban = add <ip>\nactionunban = del <ip>\nactioncheck = look\n",
    ),
    FILTER,
    (
        "jail.conf",
        "[web]\nenabled = true\nfilter = fail\nlogpath = /log\nmaxretry = 1\naction = note\n",
    ),
];

/// The start of the action, and then the check, which still runs as the stop is asked for.
fn children(alloc: Global, check: i32) -> Result<Seq<ChildPlan>, Fail> {
    let mut children = Seq::new(alloc);
    for (polls, status) in [(0, 0), (2, check)] {
        children.push(ChildPlan {
            polls,
            status: Some(status),
        })?;
    }
    Ok(children)
}

fn script(alloc: Global, check: i32) -> Result<Script, Fail> {
    let mut script = quiet(alloc, nothing(alloc));
    script.readings = readings(alloc, 1_700_001_000)?;
    script.trees.push(tree(alloc, &CONF)?)?;
    script.changes.push(change(alloc, 0, "/log", "1700000990 fail from 192.0.2.7\n")?)?;
    script.children = children(alloc, check)?;
    script.clients.push(client(alloc, 1, &["stop"])?)?;
    Ok(script)
}

fn is_row(rt: &impl Abort, alloc: Global, at: usize, row: &Row) -> Result<(), Fail> {
    let (status, world) = run(alloc, "--conf /c --turns 20", script(alloc, row.check)?)?;
    same(rt, at, &status, &0);
    same(rt, at, &texts(alloc, world.events())?.as_str(), &row.texts);
    same(
        rt,
        at,
        &commands(alloc, world.events())?.as_str(),
        &row.commands,
    );
    Ok(())
}

#[test]
fn a_check_that_ends_behind_a_stop_voids_a_ban_or_lets_it_be_made(
    rt: HostRuntime,
) -> Result<(), Fail> {
    for (at, row) in ROWS.iter().enumerate() {
        is_row(&rt, rt.alloc(), at, row)?;
    }
    Ok(())
}
