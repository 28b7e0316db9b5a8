use crate::real::RealWorld;
use f2b_world::{Children, PollAnswer, StartAnswer, Time};
use std::test::Fail;

/// A pause ends as soon as the command does: its time would be longer than a test may take.
const LONG: u32 = 1_000_000;

/// How a command ends.
fn end_of(rt: &HostRuntime, text: &str) -> Result<PollAnswer, Fail> {
    let mut world = RealWorld::new(rt.clone()?, None);
    if world.child_start(7, text) != StartAnswer::Started {
        return Err(Fail::from("not started"));
    }
    world.pause(LONG);
    Ok(world.child_poll(7))
}

const ENDS: [(&str, i32); 4] = [
    ("true", 0),
    ("exit 3", 3),
    ("no-such-command", 127),
    ("kill -9 $$", 137),
];

fn check_ends(rt: &HostRuntime, ends: &[(&str, i32)]) -> Result<(), Fail> {
    for (text, status) in ends {
        if end_of(rt, text)? != PollAnswer::Ended(*status) {
            return Err(Fail::from("another end"));
        }
    }
    Ok(())
}

#[test]
fn tells_how_a_command_ended(rt: HostRuntime) -> Result<(), Fail> {
    check_ends(&rt, ENDS.as_slice())
}

#[test]
fn starts_no_text_that_the_system_does_not_take(rt: HostRuntime) -> Result<(), Fail> {
    let mut world = RealWorld::new(rt.clone()?, None);
    assert_eq!(rt; world.child_start(7, "echo \0"), StartAnswer::Failed);
    assert_eq!(rt; world.child_poll(7), PollAnswer::Failed);
    Ok(())
}

#[test]
fn ends_a_command_that_runs(rt: HostRuntime) -> Result<(), Fail> {
    let mut world = RealWorld::new(rt.clone()?, None);
    assert_eq!(rt; world.child_start(7, "sleep 1000"), StartAnswer::Started);
    world.pause(100);
    assert_eq!(rt; world.child_poll(7), PollAnswer::Running);
    world.child_kill(7);
    assert_eq!(rt; world.child_poll(7), PollAnswer::Failed);
    world.end_commands();
    Ok(())
}
