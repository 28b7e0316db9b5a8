use super::{folder, within};
use crate::real::RealWorld;
use f2b_world::{Accept, Gate, GateRead, GateWrite, Listen, Time};
use std::fs;
use std::io::Write;
use std::os::unix::net::UnixStream;
use std::test::Fail;

/// A pause ends as soon as a client asks for something: its time would be longer than a test may take.
const LONG: u32 = 1_000_000;

#[test]
fn a_pause_ends_as_a_client_asks_for_something(rt: HostRuntime) -> Result<(), Fail> {
    let place = folder(&rt, "gate")?;
    let path = within(&rt, &place, "sock")?;
    let mut world = RealWorld::new(rt.clone()?, None);
    assert_eq!(rt; world.gate_listen(path.as_str()), Listen::Listening);
    let mut client = UnixStream::connect(&rt, path.as_str())?;
    world.pause(LONG);
    assert_eq!(rt; world.gate_accept(), Accept::Conn(0));
    world.pause(LONG);
    client.write_all(b"ping")?;
    world.pause(LONG);
    assert!(rt; matches!(world.gate_read(0, 9), GateRead::Bytes(_)));
    assert_eq!(rt; world.gate_write(0, b"pong"), GateWrite::Took(4));
    world.pause(LONG);
    world.end_gate();
    assert_eq!(rt; fs::read_dir(&rt, place.as_str())?.count(), 0);
    fs::remove_dir_all(&rt, place.as_str())?;
    Ok(())
}

#[test]
fn a_world_listens_once(rt: HostRuntime) -> Result<(), Fail> {
    let place = folder(&rt, "once")?;
    let path = within(&rt, &place, "sock")?;
    let other = within(&rt, &place, "other")?;
    let mut world = RealWorld::new(rt.clone()?, None);
    assert_eq!(rt; world.gate_accept(), Accept::Quiet);
    assert_eq!(rt; world.gate_read(0, 9), GateRead::End);
    assert_eq!(rt; world.gate_write(0, b"pong"), GateWrite::Failed);
    assert_eq!(rt; world.gate_listen(path.as_str()), Listen::Listening);
    assert_eq!(rt; world.gate_listen(other.as_str()), Listen::Failed);
    assert_eq!(rt; fs::read_dir(&rt, place.as_str())?.count(), 1);
    fs::remove_dir_all(&rt, place.as_str())?;
    Ok(())
}
