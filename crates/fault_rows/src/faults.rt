//! Each call of the worked run fails in turn.
use crate::calls::{Kind, kind_of};
use crate::follows::{COMMANDS, Failed, REPLIES, follows};
use crate::seen::{commands, replies, said, same};
use crate::worked::{WORDS, run, run_failing, run_whole, script};
use f2b_world::Event;
use std::alloc::Global;
use std::process::Abort;
use std::test::Fail;

/// What the run says where no call fails.
const SAID: &str =
    "1700001000 INFO Server ready\n1700001001 INFO [web] Found 192.0.2.7\n1700001001 NOTICE [web] Ban 192.0.2.7\n1700001005 INFO Reloaded\n1700001009 NOTICE [web] Unban 192.0.2.7\n1700001011 INFO [web] Found 192.0.2.8\n1700001011 NOTICE [web] Ban 192.0.2.8\n1700001014 INFO Stopping\n";

/// How many calls of each kind it makes.
const COUNTS: [(Kind, usize); 13] = [
    (Kind::Config, 2),
    (Kind::Make, 4),
    (Kind::Names, 2),
    (Kind::Listen, 1),
    (Kind::Disk, 61),
    (Kind::Say, 6),
    (Kind::Look, 28),
    (Kind::Start, 6),
    (Kind::Poll, 6),
    (Kind::Accept, 16),
    (Kind::Read, 17),
    (Kind::Write, 3),
    (Kind::Sure, 33),
];

fn count(events: &[Event], wanted: Kind) -> usize {
    let mut count = 0usize;
    for event in events {
        if kind_of(event) == wanted {
            count = count.saturating_add(1);
        }
    }
    count
}

#[test]
fn a_run_without_a_fault_reloads_bans_and_stops(rt: HostRuntime) -> Result<(), Fail> {
    let alloc = rt.alloc();
    let (status, world) = run(alloc, WORDS, script(alloc, &[])?)?;
    same(&rt, 0, &status, &0);
    same(&rt, 1, &said(alloc, world.events())?.as_str(), &SAID);
    same(
        &rt,
        2,
        &replies(alloc, world.events(), 0)?.as_str(),
        &REPLIES[0],
    );
    same(
        &rt,
        3,
        &replies(alloc, world.events(), 1)?.as_str(),
        &REPLIES[1],
    );
    same(
        &rt,
        4,
        &commands(alloc, world.events())?.as_str(),
        &COMMANDS,
    );
    Ok(())
}

#[test]
fn it_makes_calls_of_each_kind(rt: HostRuntime) -> Result<(), Fail> {
    let alloc = rt.alloc();
    let world = run_whole(alloc, WORDS)?;
    for (row, (wanted, want)) in COUNTS.iter().enumerate() {
        same(&rt, row, &count(world.events(), *wanted), want);
    }
    Ok(())
}

/// The call at that place fails.
fn fails_at(
    rt: &impl Abort,
    alloc: Global,
    whole: &[Event],
    at: usize,
    call: &Event,
) -> Result<(), Fail> {
    let (status, world) = run_failing(alloc, at)?;
    same(rt, at, &world.is_told(), &true);
    let failed = Failed {
        at,
        before: whole.get(..at).unwrap_or(whole),
        rest: whole.get(at..).unwrap_or(whole),
        status,
        events: world.events(),
    };
    follows(rt, alloc, &failed, call)
}

/// Each call of these kinds fails, one in each run.
fn each(rt: &impl Abort, alloc: Global, kinds: &[Kind]) -> Result<(), Fail> {
    let world = run_whole(alloc, WORDS)?;
    for (at, call) in world.events().iter().enumerate() {
        if kinds.contains(&kind_of(call)) {
            fails_at(rt, alloc, world.events(), at, call)?;
        }
    }
    Ok(())
}

#[test]
fn a_configuration_that_is_not_taken_ends_a_start_and_no_run(rt: HostRuntime) -> Result<(), Fail> {
    each(&rt, rt.alloc(), &[Kind::Config, Kind::Make])
}

#[test]
fn a_socket_or_a_line_that_fails_ends_the_run(rt: HostRuntime) -> Result<(), Fail> {
    each(&rt, rt.alloc(), &[Kind::Listen, Kind::Say])
}

#[test]
fn a_disk_that_fails_ends_the_run(rt: HostRuntime) -> Result<(), Fail> {
    each(&rt, rt.alloc(), &[Kind::Disk])
}

#[test]
fn what_cannot_be_read_of_logs_is_said(rt: HostRuntime) -> Result<(), Fail> {
    each(&rt, rt.alloc(), &[Kind::Names, Kind::Look])
}

#[test]
fn a_command_that_fails_is_started_or_polled_again(rt: HostRuntime) -> Result<(), Fail> {
    each(&rt, rt.alloc(), &[Kind::Start, Kind::Poll])
}

#[test]
fn a_client_that_fails_is_let_go_and_the_other_is_served(rt: HostRuntime) -> Result<(), Fail> {
    each(&rt, rt.alloc(), &[Kind::Accept, Kind::Read, Kind::Write])
}

#[test]
fn nothing_follows_a_call_that_has_no_fault(rt: HostRuntime) -> Result<(), Fail> {
    each(&rt, rt.alloc(), &[Kind::Sure])
}
