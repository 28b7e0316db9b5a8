//! Clients that are accepted, read, written to and closed.

use super::{folder, gate_and_client, gate_at, socket_in};
use crate::rows::same;
use f2b_base::Bytes;
use f2b_world::{Accept, GateRead, GateWrite};
use gate_socket::GateSocket;
use std::alloc::Global;
use std::fs;
use std::io::{Read, Write};
use std::os::unix::net::UnixStream;
use std::process::Abort;
use std::test::Fail;

/// The bytes that a gate reads of its client 0.
fn heard(alloc: Global, gate: &mut GateSocket, max: u32) -> Result<Bytes, Fail> {
    match gate.read(alloc, 0, max.max(1)) {
        GateRead::Bytes(bytes) => Ok(bytes),
        _ => Err(Fail::from("no bytes")),
    }
}

/// The gate reads these bytes of its client 0.
fn is_heard(
    rt: &impl Abort,
    alloc: Global,
    gate: &mut GateSocket,
    max: u32,
    want: &[u8],
) -> Result<(), Fail> {
    let bytes = heard(alloc, gate, max)?;
    same(rt, max, bytes.as_slice(), want);
    Ok(())
}

/// The gate reads this of a client.
fn reads(rt: &impl Abort, alloc: Global, gate: &mut GateSocket, conn: u32, want: &GateRead) {
    let read = gate.read(alloc, conn, 9);
    same(rt, conn, &read, want);
}

/// Who is let in, one after the other.
fn lets_in(rt: &impl Abort, gate: &mut GateSocket, want: &[Accept]) {
    for accept in want {
        same(rt, "accept", gate.accept(), *accept);
    }
}

#[test]
fn hears_a_client(rt: HostRuntime) -> Result<(), Fail> {
    let (mut gate, mut client) = gate_and_client(&rt, "hears")?;
    lets_in(&rt, &mut gate, &[Accept::Conn(0), Accept::Quiet]);
    reads(&rt, rt.alloc(), &mut gate, 0, &GateRead::Quiet);
    client.write_all(b"ping")?;
    is_heard(&rt, rt.alloc(), &mut gate, 3, b"pin")?;
    is_heard(&rt, rt.alloc(), &mut gate, 9, b"g")?;
    reads(&rt, rt.alloc(), &mut gate, 0, &GateRead::Quiet);
    Ok(())
}

#[test]
fn a_client_takes_what_is_written(rt: HostRuntime) -> Result<(), Fail> {
    let (mut gate, mut client) = gate_and_client(&rt, "writes")?;
    lets_in(&rt, &mut gate, &[Accept::Conn(0)]);
    same(&rt, "took", gate.write(0, b"pong"), GateWrite::Took(4));
    let mut room = [0u8; 4];
    client.read_exact(&mut room)?;
    same(&rt, "room", room.as_slice(), b"pong".as_slice());
    Ok(())
}

#[test]
fn a_client_that_is_closed_hears_it(rt: HostRuntime) -> Result<(), Fail> {
    let (mut gate, mut client) = gate_and_client(&rt, "closes")?;
    lets_in(&rt, &mut gate, &[Accept::Conn(0)]);
    gate.close(0);
    let mut room = [0u8; 4];
    same(&rt, "end", client.read(&mut room)?, 0);
    reads(&rt, rt.alloc(), &mut gate, 0, &GateRead::End);
    Ok(())
}

#[test]
fn a_client_that_ends_is_heard_to_its_end(rt: HostRuntime) -> Result<(), Fail> {
    let (mut gate, mut client) = gate_and_client(&rt, "ends")?;
    lets_in(&rt, &mut gate, &[Accept::Conn(0)]);
    client.write_all(b"ping")?;
    drop(client);
    is_heard(&rt, rt.alloc(), &mut gate, 9, b"ping")?;
    reads(&rt, rt.alloc(), &mut gate, 0, &GateRead::End);
    same(&rt, "write", gate.write(0, b"pong"), GateWrite::Failed);
    Ok(())
}

#[test]
fn a_client_that_has_not_read_all_ends_as_well(rt: HostRuntime) -> Result<(), Fail> {
    let (mut gate, client) = gate_and_client(&rt, "resets")?;
    lets_in(&rt, &mut gate, &[Accept::Conn(0)]);
    same(&rt, "took", gate.write(0, b"pong"), GateWrite::Took(4));
    drop(client);
    reads(&rt, rt.alloc(), &mut gate, 0, &GateRead::End);
    reads(&rt, rt.alloc(), &mut gate, 0, &GateRead::End);
    Ok(())
}

fn are_at_their_end(rt: &impl Abort, alloc: Global, gate: &mut GateSocket, conns: &[u32]) {
    for &conn in conns {
        reads(rt, alloc, gate, conn, &GateRead::End);
        same(rt, conn, gate.write(conn, b"pong"), GateWrite::Failed);
        gate.close(conn);
    }
}

#[test]
fn numbers_that_are_not_in_use_are_at_their_end(rt: HostRuntime) -> Result<(), Fail> {
    let (mut gate, _client) = gate_and_client(&rt, "numbers")?;
    are_at_their_end(&rt, rt.alloc(), &mut gate, &[0, 15, 16, u32::MAX]);
    lets_in(&rt, &mut gate, &[Accept::Conn(0)]);
    Ok(())
}

/// Clients, so many, that are connected to a path.
fn clients(rt: &HostRuntime, path: &str, count: u32) -> Result<Vec<UnixStream>, Fail> {
    let mut clients = Vec::new(rt.alloc());
    for _ in 0..count {
        clients.push(UnixStream::connect(rt, path)?)?;
    }
    Ok(clients)
}

fn lets_in_sixteen(rt: &impl Abort, gate: &mut GateSocket) {
    for conn in 0..16 {
        same(rt, conn, gate.accept(), Accept::Conn(conn));
    }
}

#[test]
fn the_seventeenth_client_waits(rt: HostRuntime) -> Result<(), Fail> {
    let folder = folder(&rt, "seventeen")?;
    let path = socket_in(&rt, folder.as_str())?;
    let mut gate = gate_at(&rt, path.as_str())?;
    let _clients = clients(&rt, path.as_str(), 17)?;
    lets_in_sixteen(&rt, &mut gate);
    lets_in(&rt, &mut gate, &[Accept::Quiet]);
    gate.close(3);
    lets_in(&rt, &mut gate, &[Accept::Conn(3), Accept::Quiet]);
    fs::remove_dir_all(&rt, folder.as_str())?;
    Ok(())
}
