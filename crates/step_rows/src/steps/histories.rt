//! The histories of docs/model.md.
use crate::steps::happens::{Happens, Who};
use crate::steps::play::{Kept, Step, play, play_after};
use crate::steps::values::ADD;
use f2b_base::NoMemory;
use std::alloc::Global;
use std::process::Abort;
use std::test::Fail;

/// Each of these from an empty core on.
fn play_each(rt: &impl Abort, alloc: Global, rows: &[&[Step]]) -> Result<(), NoMemory> {
    for steps in rows {
        play(rt, alloc, steps)?;
    }
    Ok(())
}

const THREE_FAILURES: [&[Step]; 4] = [
    // The first is over as the third comes.
    &[
        Step::At(1000, Happens::Configures(ADD, "", 0)),
        Step::At(1100, Happens::Fails(Who::Seven, 1100, "")),
        Step::Jails("counts\n"),
        Step::At(1300, Happens::Fails(Who::Seven, 1300, "")),
        Step::Jails("counts\n"),
        Step::At(1700, Happens::Fails(Who::Seven, 1700, "")),
        Step::Jails("counts\n"),
    ],
    // They come in another order.
    &[
        Step::At(1000, Happens::Configures(ADD, "", 0)),
        Step::At(1500, Happens::Fails(Who::Seven, 1500, "")),
        Step::Jails("counts\n"),
        Step::At(1500, Happens::Fails(Who::Seven, 1100, "")),
        Step::Jails("counts\n"),
        Step::At(1500, Happens::Fails(Who::Seven, 1300, "")),
        Step::Jails("counts\nbegins 1500 At(2100) 0 3\n"),
    ],
    // A clock that is set back ends no ban.
    &[
        Step::At(1000, Happens::Configures(ADD, "", 0)),
        Step::At(1100, Happens::Fails(Who::Seven, 1100, "")),
        Step::Jails("counts\n"),
        Step::At(1300, Happens::Fails(Who::Seven, 1300, "")),
        Step::Jails("counts\n"),
        Step::At(1699, Happens::Fails(Who::Seven, 1699, "")),
        Step::Jails("counts\nbegins 1699 At(2299) 0 3\n"),
        Step::At(2298, Happens::Ticks),
        Step::Jails(""),
        Step::At(2200, Happens::Ticks),
        Step::Jails(""),
    ],
    &[
        Step::At(1000, Happens::Configures(ADD, "", 0)),
        Step::At(1100, Happens::Fails(Who::Seven, 1100, "")),
        Step::Jails("counts\n"),
        Step::At(1300, Happens::Fails(Who::Seven, 1300, "")),
        Step::Jails("counts\n"),
        Step::At(1699, Happens::Fails(Who::Seven, 1699, "")),
        Step::Jails("counts\nbegins 1699 At(2299) 0 3\n"),
        Step::At(2298, Happens::Ticks),
        Step::Jails(""),
        Step::At(2299, Happens::Ticks),
        Step::Jails("ends 1699 At(2299) 0 3\n"),
    ],
];

#[test]
fn three_failures_within_ten_minutes_ban(rt: HostRuntime) -> Result<(), Fail> {
    play_each(&rt, rt.alloc(), &THREE_FAILURES)?;
    Ok(())
}

const TAKEN_BACK: [Step; 10] = [
    Step::At(1000, Happens::Configures(ADD, "", 0)),
    Step::Jobs("0 Start up\n"),
    Step::Configured(1),
    Step::At(1000, Happens::Ends(0, 0)),
    Step::Jobs(""),
    Step::At(1001, Happens::Bans(Who::Seven)),
    Step::Jobs("1 Ban add 192.0.2.7\n"),
    Step::At(1002, Happens::Unbans(Who::Seven)),
    Step::Jobs("1 Ban add 192.0.2.7\n2 Unban del 192.0.2.7\n"),
    Step::Spent(false),
];

#[test]
fn a_ban_is_taken_back_while_it_waits(rt: HostRuntime) -> Result<(), Fail> {
    play(&rt, rt.alloc(), &TAKEN_BACK)?;
    Ok(())
}

/// The jail has its action, without a check, the address is banned, and all jobs are done.
const BANNED: [(u32, Happens); 4] = [
    (1000, Happens::Configures(ADD, "", 0)),
    (1000, Happens::Ends(0, 0)),
    (1001, Happens::Bans(Who::Seven)),
    (1001, Happens::Ends(1, 0)),
];

const CHANGED_ACTION: [Step; 5] = [
    Step::At(1010, Happens::Configures("drop <ip>", "", 0)),
    Step::Jobs("2 Unban del 192.0.2.7\n3 Stop down\n4 Start up\n5 Ban drop 192.0.2.7\n"),
    Step::Now(1010),
    Step::BanDue(1600, false),
    Step::BanDue(1601, true),
];

#[test]
fn a_changed_action_goes_down_and_comes_up(rt: HostRuntime) -> Result<(), Fail> {
    play_after(&rt, rt.alloc(), &BANNED, &CHANGED_ACTION)?;
    Ok(())
}

/// The same as `BANNED`, with a check.
const BANNED_WITH_A_CHECK: [(u32, Happens); 4] = [
    (1000, Happens::Configures(ADD, "test -e /x", 0)),
    (1000, Happens::Ends(0, 0)),
    (1001, Happens::Bans(Who::Seven)),
    (1001, Happens::Ends(1, 0)),
];

const LOST: [Step; 6] = [
    Step::At(1003, Happens::Bans(Who::Eight)),
    Step::Jobs("2 Ban add 192.0.2.8\n"),
    Step::At(1003, Happens::CheckFails(2)),
    Step::Jobs("3 Stop down\n4 Start up\n5 Reban add 192.0.2.7\n6 Reban add 192.0.2.8\n"),
    Step::At(1004, Happens::Unbans(Who::Seven)),
    Step::Jobs(
        "3 Stop down\n4 Start up\n5 Reban add 192.0.2.7\n6 Reban add 192.0.2.8\n\
         7 Unban del 192.0.2.7\n",
    ),
];

#[test]
fn a_check_that_fails_gives_the_firewall_again_what_it_lost(rt: HostRuntime) -> Result<(), Fail> {
    play_after(&rt, rt.alloc(), &BANNED_WITH_A_CHECK, &LOST)?;
    Ok(())
}

const KEPT_AND_CALLED_OFF: [Step; 7] = [
    Step::At(1010, Happens::Stops),
    Step::Jobs("2 Unban del 192.0.2.7\n3 Stop down\n"),
    Step::Keeps(Kept {
        jails: 1,
        up: 0,
        stopping: true,
    }),
    Step::BanDue(1601, true),
    Step::At(1011, Happens::Configures(ADD, "", 0)),
    Step::Jobs("2 Unban del 192.0.2.7\n3 Stop down\n4 Start up\n5 Ban add 192.0.2.7\n"),
    Step::Keeps(Kept {
        jails: 1,
        up: 1,
        stopping: false,
    }),
];

#[test]
fn a_stop_is_kept_and_called_off(rt: HostRuntime) -> Result<(), Fail> {
    play_after(&rt, rt.alloc(), &BANNED, &KEPT_AND_CALLED_OFF)?;
    Ok(())
}
