//! The link to a server, over a socket of the file system.
//!
//! It tells nothing of what was said. It counts its faults, and each call keeps what the trait of a link says of it. No call waits for
//! ever: for room at the server a minute at most, and for bytes half a minute each time.
ghost use Rattle.std.specs.Prelude.{◌≤◌, IfOk, length};

use crate::sleep::sleep;
use f2b_base::Bytes;
use f2b_world::{Link, LinkRead, Linked, Outside, raised};
use mio::net;
use std::alloc::{AllocGlobal, Global};
use std::io;
use std::io::{ErrorKind, Read, Write};
use std::net::Net;
use std::os::unix::net::UnixStream;
use std::time::{Clock, Duration};

/// For how long a server is waited for that has no room for one more client: so often ..
const MOST_WAITS: u32 = 6_000;

/// .. so many milliseconds, which are a minute.
const WAIT_MS: u32 = 10;

/// For how many seconds a server may take none of the bytes that it is sent, or say nothing.
const PATIENCE: u64 = 30;

/// The most bytes that are received at once.
const MOST_PIECE: u32 = 65_536;

/// A link that is connected or not.
#[derive(Drop)]
pub struct RealLink<R>
where
    R: Net + Clock + AllocGlobal + Drop,
{
    rt: R,
    stream: Option<UnixStream>,
    faults: u64,
}

impl<R> RealLink<R>
where
    R: Net + Clock + AllocGlobal + Drop,
{
    /// A link that is not connected, without a fault so far.
    pub fn new(rt: R) -> RealLink<R> {
        RealLink {
            rt,
            stream: None,
            faults: 0,
        }
    }
}

/// Connects to the socket at a path, and waits while the server has no room.
fn connect<R: Net + Clock>(rt: &R, path: &str) -> io::Result<net::UnixStream> {
    for _ in 0..MOST_WAITS {
        match net::UnixStream::connect(rt, path) {
            Err(e) if e.kind() == ErrorKind::WouldBlock => sleep(rt, WAIT_MS),
            answer => return answer,
        }
    }
    Err(ErrorKind::WouldBlock.into())
}

/// A stream to the socket at a path, whose calls wait, but not for ever.
fn open<R: Net + Clock>(rt: &R, path: &str) -> io::Result<UnixStream> {
    let stream = UnixStream::from(connect(rt, path)?);
    let patience = Some(Duration::from_secs(PATIENCE));
    stream.set_nonblocking(false)?;
    stream.set_read_timeout(patience)?;
    stream.set_write_timeout(patience)?;
    Ok(stream)
}

/// Sends all of the bytes.
fn send(stream: Option<&UnixStream>, bytes: &[u8]) -> io::Result<()> {
    let Some(mut stream) = stream else {
        return Err(ErrorKind::NotConnected.into());
    };
    stream.write_all(bytes)
}

/// Reads as soon as there is something, and none only at the end.
fn read_some(stream: &mut &UnixStream, room: &mut [u8]) -> io::Result<usize>
    ensures { IfOk result (λ n. n ≤ length room.new) }
{
    for _ in 0..u64::MAX {
        match stream.read(room) {
            Err(e) if e.kind() == ErrorKind::Interrupted => {}
            // A server that ends before it has read all ends all the same.
            Err(e) if e.kind() == ErrorKind::ConnectionReset => return Ok(0),
            answer => return answer,
        }
    }
    Err(ErrorKind::Interrupted.into())
}

/// Receives at most so many bytes, and none only at the end.
fn receive(alloc: Global, stream: Option<&UnixStream>, max: u32) -> io::Result<Bytes>
    ensures { IfOk result (λ bytes. length bytes ≤ max) }
{
    let Some(mut stream) = stream else {
        return Err(ErrorKind::NotConnected.into());
    };
    let mut room = vec![in alloc; 0u8; max.min(MOST_PIECE) as usize]?;
    let count = read_some(&mut stream, &mut room)?;
    room.truncate(count);
    Ok(Bytes::from(room))
}

impl<R> Outside for RealLink<R>
where
    R: Net + Clock + AllocGlobal + Drop,
{
    ghost use Rattle.std.specs.Prelude.{None};
    ghost use Rattle.fail2ban_client.specs.Counted.{of_link};

    ghost stands = { λ w. record { told = None; talk = None; shelf = None; faults = of_link w.faults } };
}

impl<R> Link for RealLink<R>
where
    R: Net + Clock + AllocGlobal + Drop,
{
    fn connect(&mut self, path: &str) -> Linked {
        match open(&self.rt, path) {
            Ok(stream) => {
                self.stream = Some(stream);
                Linked::Connected
            }
            Err(_) => {
                self.faults = raised(self.faults);
                Linked::Failed
            }
        }
    }

    fn send(&mut self, bytes: &[u8]) -> Linked {
        match send(self.stream.as_ref(), bytes) {
            Ok(()) => Linked::Connected,
            Err(_) => {
                self.faults = raised(self.faults);
                Linked::Failed
            }
        }
    }

    fn receive(&mut self, max: u32) -> LinkRead {
        match receive(self.rt.alloc(), self.stream.as_ref(), max) {
            Ok(bytes) if bytes.is_empty() => LinkRead::End,
            Ok(bytes) => LinkRead::Bytes(bytes),
            Err(e) if e.kind() == ErrorKind::OutOfMemory => LinkRead::NoMemory,
            Err(_) => {
                self.faults = raised(self.faults);
                LinkRead::Failed
            }
        }
    }
}
