//! The lines of failures that the command of a ban shows.
use crate::steps::happens::{Happens, Who};
use crate::steps::play::{Step, play_after};
use f2b_base::NoMemory;
use std::alloc::Global;
use std::process::Abort;
use std::test::Fail;

/// A command that shows the lines.
const SHOW: &str = "echo '<matches>'";

/// The jail has an action that shows so many lines, and two failures of the address are open, of which the later one came first.
fn failed_twice(maxmatches: u64) -> [(u32, Happens); 4] {
    [
        (1000, Happens::Configures(SHOW, "", maxmatches)),
        (1000, Happens::Ends(0, 0)),
        (1102, Happens::Fails(Who::Seven, 1102, "sshd[813]: c; d")),
        (1102, Happens::Fails(Who::Seven, 1100, "sshd[811]: a")),
    ]
}

/// The jobs that are there once the address is banned like this.
fn is_shown(
    rt: &impl Abort,
    alloc: Global,
    maxmatches: u64,
    banned: Happens,
    want: &'static str,
) -> Result<(), NoMemory> {
    let steps = [Step::At(1103, banned), Step::Jobs(want)];
    play_after(rt, alloc, &failed_twice(maxmatches), &steps)
}

/// Rows of how many lines are shown, how the address is banned then, and the job of the ban.
fn are_shown(
    rt: &impl Abort,
    alloc: Global,
    rows: &[(u64, Happens, &'static str)],
) -> Result<(), NoMemory> {
    for (maxmatches, banned, want) in rows {
        is_shown(rt, alloc, *maxmatches, *banned, want)?;
    }
    Ok(())
}

/// A third failure, between the two.
const THIRD: Happens = Happens::Fails(Who::Seven, 1101, "sshd[812]: $b");

const LAST_LINES: [(u64, Happens, &str); 3] = [
    (
        5,
        THIRD,
        "1 Ban echo 'sshd_811_: a / sshd_812_: _b / sshd_813_: c_ d'\n",
    ),
    (2, THIRD, "1 Ban echo 'sshd_812_: _b / sshd_813_: c_ d'\n"),
    (0, THIRD, "1 Ban echo ''\n"),
];

#[test]
fn a_ban_shows_the_last_lines_by_time(rt: HostRuntime) -> Result<(), Fail> {
    are_shown(&rt, rt.alloc(), &LAST_LINES)?;
    Ok(())
}

const BY_COMMAND: [(u64, Happens, &str); 1] = [(5, Happens::Bans(Who::Seven), "1 Ban echo ''\n")];

#[test]
fn a_ban_by_command_shows_no_lines(rt: HostRuntime) -> Result<(), Fail> {
    are_shown(&rt, rt.alloc(), &BY_COMMAND)?;
    Ok(())
}
