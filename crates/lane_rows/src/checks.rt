//! Checks: which jobs have one, and what is left and ordered where one fails.

use crate::orders::{ENDLESS, Held, SHORT, Step, Telling, play_up};
use f2b_base::{Family, Outcome};
use std::test::Fail;

const ONE: Held = &[("sshd", &[SHORT])];

const TWO: Held = &[("sshd", &[SHORT, ENDLESS])];

const CHECK: Option<&str> = Some("test -e /x <family>");

const ANEW: [Step; 9] = [
    Step::Ended(0, Outcome::Status(0), 1000),
    Step::Ended(1, Outcome::Status(0), 1000),
    Step::Tell(&[Telling::Begins("sshd", ENDLESS, "a line")], 1003),
    Step::Jobs("2 Ban 0 old ban 2001:db8::1 inet6 3 1200 -1 0:a line\n"),
    Step::CheckOf(2, CHECK),
    Step::CheckFailed(TWO, 2, Outcome::Status(1), 1003),
    Step::Jobs(
        "3 Stop 0 old stop inet4\n\
         4 Start 0 old start inet4\n\
         5 Reban 0 old ban 192.0.2.1 inet4 5 1000 600 2:\n\
         6 Reban 0 old ban 2001:db8::1 inet6 3 1200 -1 0:\n",
    ),
    Step::CheckOf(3, None),
    Step::Said("check Status(1)\nanew\n"),
];

#[test]
fn a_failed_check_starts_its_lane_anew(rt: HostRuntime) -> Result<(), Fail> {
    play_up(&rt, rt.alloc(), &[Family::Both], ONE, &ANEW)
}

const ABOUT_TO_STOP: [Step; 9] = [
    Step::CheckOf(1, None),
    Step::Ended(0, Outcome::Status(0), 1000),
    Step::CheckOf(1, CHECK),
    Step::Stop(ONE, 1000),
    Step::CheckOf(1, None),
    Step::CheckFailed(ONE, 1, Outcome::TimedOut, 1001),
    Step::CheckFailed(ONE, 3, Outcome::Status(1), 1001),
    Step::Jobs("3 Stop 0 old stop inet4\n"),
    Step::Said("check TimedOut\n"),
];

#[test]
fn a_lane_that_is_about_to_stop_stays_so(rt: HostRuntime) -> Result<(), Fail> {
    play_up(&rt, rt.alloc(), &[Family::Both], ONE, &ABOUT_TO_STOP)
}

const OF_BOTH: [Step; 3] = [
    Step::CheckText(1, None),
    Step::Ended(0, Outcome::Status(0), 1000),
    Step::CheckText(1, Some("test -e /x inet4")),
];

const OF_SIX: [Step; 2] = [
    Step::Ended(0, Outcome::Status(0), 1000),
    Step::CheckText(1, Some("test -e /x inet6")),
];

#[test]
fn a_check_is_written_for_its_lane(rt: HostRuntime) -> Result<(), Fail> {
    let held = [("sshd", [ENDLESS].as_slice())];
    play_up(&rt, rt.alloc(), &[Family::Both], &held, &OF_BOTH)?;
    play_up(&rt, rt.alloc(), &[Family::Inet6], &held, &OF_SIX)
}
