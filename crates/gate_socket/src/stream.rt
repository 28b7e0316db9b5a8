//! What one connection gives and takes. Neither call waits.
ghost use Rattle.std.specs.Prelude.{ℕ, ◌≤◌, length};
ghost use Rattle.f2b_world.specs.Bounds.{AreBytes, FitsRead};
ghost use Rattle.f2b_world.specs.Told.{IsReceived, IsTaken};

use f2b_base::Bytes;
use f2b_world::{GateRead, GateWrite};
use mio::net::UnixStream;
use std::alloc::Global;
use std::io::{ErrorKind, Read, Write};

/// The most bytes that are read at once.
const MOST_PIECE: u32 = 65_536;

/// Whether nothing was to be had or given just now.
pub(crate) fn is_quiet(kind: ErrorKind) -> bool {
    matches!(kind, ErrorKind::WouldBlock | ErrorKind::Interrupted)
}

/// Reads at most `max` bytes of those that are there.
pub(crate) fn read_some(alloc: Global, stream: &UnixStream, max: u32) -> GateRead
    requires { 1 ≤ max }
    ensures bounds { IsReceived max result }
    ensures fits { FitsRead result }
{
    let mut stream = stream;
    let Ok(mut room) = vec![in alloc; 0u8; max.min(MOST_PIECE) as usize] else {
        return GateRead::NoMemory;
    };
    match stream.read(&mut room) {
        Ok(0) => GateRead::End,
        Ok(count) => {
            room.truncate(count);
            let bytes = Bytes::from(room);
            know_bytes(bytes.as_slice());
            GateRead::Bytes(bytes)
        }
        Err(error) => read_failed(error.kind()),
    }
}

/// What a read that gave no bytes is answered. A client that ends before it has read all ends all the same.
fn read_failed(kind: ErrorKind) -> GateRead
    ensures bounds { (max : ℕ) → IsReceived max result }
    ensures fits { FitsRead result }
{
    match kind {
        ErrorKind::ConnectionReset => GateRead::End,
        ErrorKind::OutOfMemory => GateRead::NoMemory,
        _ if is_quiet(kind) => GateRead::Quiet,
        _ => GateRead::Failed,
    }
}

/// Offers bytes, at most as many as can be counted. A client that has ended takes none, which is `Failed`.
pub(crate) fn write_some(stream: &UnixStream, bytes: &[u8]) -> GateWrite
    ensures { IsTaken (length bytes.now) result }
{
    let mut stream = stream;
    let most = bytes.len().min(u32::MAX as usize);
    match stream.write(&bytes[..most]) {
        Ok(0) => GateWrite::Quiet,
        Ok(count) => GateWrite::Took(count as u32),
        Err(error) if is_quiet(error.kind()) => GateWrite::Quiet,
        Err(_) => GateWrite::Failed,
    }
}

/// Bytes are below 256.
fn know_bytes(bytes: &[u8])
    ensures { AreBytes bytes.now }
{
    let _count = bytes.len();
}
