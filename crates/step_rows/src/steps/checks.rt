//! What is told of lanes: checks and tries that fail.
use crate::steps::happens::{Happens, Who};
use crate::steps::play::{Step, play_after};
use crate::steps::values::ADD;
use std::test::Fail;

/// The lane has a check, an address is banned and its job done, and job 2 bans another one.
const WAITING: [(u32, Happens); 5] = [
    (1000, Happens::Configures(ADD, "test -e /x", 0)),
    (1000, Happens::Ends(0, 0)),
    (1001, Happens::Bans(Who::Seven)),
    (1001, Happens::Ends(1, 0)),
    (1003, Happens::Bans(Who::Eight)),
];

const ANEW: [Step; 10] = [
    Step::CheckOf(2, Some("test -e /x")),
    Step::CheckText(2, "test -e /x"),
    Step::At(1003, Happens::CheckFails(2)),
    Step::Lanes("check Status(1)\nanew\n"),
    Step::Jails(""),
    Step::CheckOf(2, None),
    Step::CheckOf(3, None),
    Step::CheckOf(4, None),
    Step::CheckOf(5, None),
    Step::CheckOf(6, None),
];

#[test]
fn a_check_that_fails_starts_its_lane_anew(rt: HostRuntime) -> Result<(), Fail> {
    play_after(&rt, rt.alloc(), &WAITING, &ANEW)?;
    Ok(())
}

const AFTER_A_STOP: [Step; 6] = [
    Step::At(1004, Happens::Stops),
    Step::Jobs("2 Ban add 192.0.2.8\n3 Unban del 192.0.2.7\n4 Unban del 192.0.2.8\n5 Stop down\n"),
    Step::CheckOf(2, None),
    Step::At(1005, Happens::CheckFails(2)),
    Step::Lanes("check Status(1)\n"),
    Step::Jobs("5 Stop down\n"),
];

#[test]
fn a_check_that_fails_after_a_stop_leaves_the_stop(rt: HostRuntime) -> Result<(), Fail> {
    play_after(&rt, rt.alloc(), &WAITING, &AFTER_A_STOP)?;
    Ok(())
}

// Job 2 fails at 1003 and is due again after 2 seconds, and then after 4 more.
const TRIES: [Step; 15] = [
    Step::JobDue(1002, false),
    Step::JobDue(1003, true),
    Step::At(1003, Happens::Ends(2, 1)),
    Step::Lanes("Ban Status(1) last false\n"),
    Step::JobLeft(2, true),
    Step::JobDue(1004, false),
    Step::JobDue(1005, true),
    Step::At(1005, Happens::Ends(2, 1)),
    Step::Lanes("Ban Status(1) last false\n"),
    Step::JobLeft(2, true),
    Step::JobDue(1008, false),
    Step::JobDue(1009, true),
    Step::At(1009, Happens::Ends(2, 1)),
    Step::Lanes("Ban Status(1) last true\n"),
    Step::JobLeft(2, false),
];

#[test]
fn the_third_try_that_fails_is_the_last(rt: HostRuntime) -> Result<(), Fail> {
    play_after(&rt, rt.alloc(), &WAITING, &TRIES)?;
    Ok(())
}
