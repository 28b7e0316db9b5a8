//! What ends a wait.

use super::gate_and_client;
use crate::rows::same;
use f2b_world::{Accept, GateRead, GateWrite};
use gate_socket::GateSocket;
use std::alloc::Global;
use std::io::{Read, Write};
use std::os::unix::net::UnixStream;
use std::process::Abort;
use std::test::Fail;
use std::time::Clock;

/// A wait ends as soon as a client asks for something: this would be longer than a test may take.
const LONG: u64 = 1_000_000_000;

/// As long as it is waited where nobody asks for anything.
const SHORT: u64 = 20_000;

/// A gate that has accepted its client, and has nothing to tell of it.
fn connected(rt: &HostRuntime, name: &str) -> Result<(GateSocket, UnixStream), Fail> {
    let (mut gate, client) = gate_and_client(rt, name)?;
    let is_accepted = gate.accept() == Accept::Conn(0);
    let _ = gate.wait(rt, SHORT);
    if !is_accepted || !gate.was_busy() || gate.was_busy() || gate.wait(rt, SHORT) {
        return Err(Fail::from("not connected"));
    }
    Ok((gate, client))
}

/// Whether a wait of so many microseconds ends since there is something to do.
fn waits(rt: &(impl Abort + Clock), gate: &mut GateSocket, time: u64, want: bool) {
    same(rt, time, gate.wait(rt, time), want);
}

/// Whether bytes of client 0 are read.
fn reads_bytes(alloc: Global, gate: &mut GateSocket) -> bool {
    matches!(gate.read(alloc, 0, 9), GateRead::Bytes(_))
}

#[test]
fn ends_as_a_client_knocks(rt: HostRuntime) -> Result<(), Fail> {
    let (mut gate, _client) = gate_and_client(&rt, "knocks")?;
    same(&rt, "busy", gate.was_busy(), false);
    waits(&rt, &mut gate, LONG, true);
    waits(&rt, &mut gate, SHORT, false);
    waits(&rt, &mut gate, 50, false);
    Ok(())
}

#[test]
fn ends_as_a_client_sends_bytes(rt: HostRuntime) -> Result<(), Fail> {
    let (mut gate, mut client) = connected(&rt, "sends")?;
    client.write_all(b"ping")?;
    waits(&rt, &mut gate, LONG, true);
    same(&rt, "bytes", reads_bytes(rt.alloc(), &mut gate), true);
    same(&rt, "busy", gate.was_busy(), true);
    waits(&rt, &mut gate, SHORT, false);
    drop(client);
    waits(&rt, &mut gate, LONG, true);
    gate.close(0);
    same(&rt, "closed", gate.was_busy(), true);
    Ok(())
}

#[test]
fn a_short_wait_sees_a_client_too(rt: HostRuntime) -> Result<(), Fail> {
    let (mut gate, mut client) = connected(&rt, "short")?;
    client.write_all(b"ping")?;
    waits(&rt, &mut gate, 50, true);
    Ok(())
}

/// Writes to client 0 until it takes no more, and gives how many bytes it took.
fn fill(gate: &mut GateSocket, bytes: &[u8]) -> Option<u64> {
    let mut taken: u64 = 0;
    for _ in 0..1_000 {
        match gate.write(0, bytes) {
            GateWrite::Took(count) => taken = taken.saturating_add(u64::from(count)),
            GateWrite::Quiet => return Some(taken),
            GateWrite::Failed => return None,
        }
    }
    None
}

/// Has a client read so many bytes.
fn drain(client: &mut UnixStream, count: u64) -> Result<(), Fail> {
    let mut room = [0u8; 4_096];
    let mut left = count;
    for _ in 0..count {
        if left == 0 {
            break;
        }
        left = left.saturating_sub(client.read(&mut room)? as u64);
    }
    Ok(())
}

#[test]
fn ends_as_a_client_takes_bytes_again(rt: HostRuntime) -> Result<(), Fail> {
    let (mut gate, mut client) = connected(&rt, "takes")?;
    let bytes = vec![in rt.alloc(); 0u8; 1_000_000]?;
    let taken = fill(&mut gate, bytes.as_slice()).unwrap_or(0);
    same(&rt, "taken", taken > 0, true);
    waits(&rt, &mut gate, SHORT, false);
    drain(&mut client, taken)?;
    waits(&rt, &mut gate, LONG, true);
    same(&rt, "took", gate.write(0, b"pong"), GateWrite::Took(4));
    waits(&rt, &mut gate, SHORT, false);
    Ok(())
}
