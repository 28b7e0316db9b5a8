//! `GateSocket`: a listener, its connections, and what is waited for.
ghost use Rattle.std.specs.Prelude.{◌≡◌, ◌≤◌, ◌<◌, IfOk, length};
ghost use Rattle.f2b_world.specs.Bounds.{FitsRead};
ghost use Rattle.f2b_world.specs.Told.{IsReceived, IsTaken};
ghost use Rattle.gate_socket.specs.Uses.{Accepts, IsInUse, IsUnused, ended, first_unused, most_connections, most_path, none_in_use};

use crate::connections::{Connections, MOST_CONNECTIONS};
use crate::fault::Fault;
use crate::place::{Place, bind_at};
use crate::stream::{is_quiet, read_some, write_some};
use f2b_world::{Accept, GateRead, GateWrite};
use mio::net::{UnixListener, UnixStream};
use mio::unix::SourceFd;
use mio::{Events, Interest, Poll, Token};
use std::alloc::{AllocGlobal, Global};
use std::io::ErrorKind;
use std::marker::Model;
use std::net::Net;
use std::os::fd::AsRawFd;
use std::rt::Files;
use std::time::{Clock, Duration};
use std::{io, mem, thread};

/// By what the listener is told apart from the connections, which are told apart by their numbers.
const LISTENER: Token = Token(MOST_CONNECTIONS);

/// How many microseconds the system waits at least, where it waits.
const LEAST_WAIT: u64 = 1_000;

/// A socket that clients connect to, with those that are connected.
#[derive(Drop)]
pub struct GateSocket {
    place: Place,
    listener: UnixListener,
    conns: Connections,
    /// The listener and the connections, as the system watches them.
    poll: Poll,
    events: Events,
    /// Whether a client was accepted, gave or took bytes, or was closed, since that was asked last.
    was_busy: bool,
}

impl Model for GateSocket {
    ghost use Rattle.std.specs.Prelude.{Bool, List};

    ghost Value = { List Bool };

    ghost view = { λ g. g.conns };
}

impl GateSocket {
    /// Listens at a path of at most 103 bytes, with nobody connected. It is `Failed` where a server answers there, or at the path with
    /// `.new` behind it, where something else than a socket is there, and where no socket can be made there: nothing that was there is
    /// changed then, but that a socket of a server that is no more may have gone from the path with `.new` behind it.
    pub fn listen<R: Files + Net + AllocGlobal>(rt: &R, path: &str) -> Result<GateSocket, Fault>
        ensures none { IfOk result (λ gate. gate ≡ none_in_use) }
        ensures some { IfOk result (λ _. 0 < length path.now) }
        ensures short { IfOk result (λ _. length path.now ≤ most_path) }
    {
        let conns = Connections::new(rt.alloc())?;
        let events = Events::with_capacity(rt.alloc(), MOST_CONNECTIONS + 1)?;
        let poll = Poll::new(rt)?;
        let (mut listener, place) = bind_at(rt, path)?;
        if let Err(error) = poll
            .registry()
            .register(&mut listener, LISTENER, Interest::READABLE)
        {
            place.remove(rt);
            return Err(Fault::from(error));
        }
        Ok(GateSocket {
            place,
            listener,
            conns,
            poll,
            events,
            was_busy: false,
        })
    }

    /// Takes the next client that has connected, under a number that is not in use. While all are in use it is `Quiet`. Takes no memory.
    pub fn accept(&mut self) -> Accept
        ensures accepts { Accepts self.old result self.new }
        ensures full { first_unused self.old ≡ None → result ≡ Accept.Quiet }
    {
        let Some(conn) = self.conns.first_unused() else {
            return Accept::Quiet;
        };
        match self.listener.accept() {
            Ok((stream, _)) => self.admit(conn, stream),
            Err(error) if is_nobody(error.kind()) => Accept::Quiet,
            Err(_) => Accept::Failed,
        }
    }

    // Takes a client in under a number. One that the system does not watch is no client.
    fn admit(&mut self, conn: u32, stream: UnixStream) -> Accept
        requires below { conn < most_connections }
        requires unused { IsUnused self.old conn }
        ensures { Accepts self.old result self.new }
    {
        let mut stream = stream;
        let token = Token(conn as usize);
        if self
            .poll
            .registry()
            .register(&mut stream, token, Interest::READABLE)
            .is_err()
        {
            return Accept::Failed;
        }
        self.conns.put(conn, stream);
        self.was_busy = true;
        Accept::Conn(conn)
    }

    /// Reads at most `max` bytes that a client sent, and at most 65,536. A client that has ended is `End`, also where it has not read all
    /// that was written to it, and so is a number that is not in use.
    pub fn read(&mut self, alloc: Global, conn: u32, max: u32) -> GateRead
        requires { 1 ≤ max }
        ensures bounds { IsReceived max result }
        ensures fits { FitsRead result }
        ensures nobody { ¬ IsInUse self.old conn → result ≡ GateRead.End }
        ensures same { self.new ≡ self.old }
    {
        let Some(stream) = self.conns.at(conn) else {
            return GateRead::End;
        };
        let answer = read_some(alloc, stream, max);
        if let GateRead::Bytes(_) = answer {
            self.was_busy = true;
        }
        answer
    }

    /// Offers bytes to a client, which takes some of them. One that takes none just now is `Quiet`, and ends a wait as soon as it does. One
    /// that has ended is `Failed`, and so is a number that is not in use.
    pub fn write(&mut self, conn: u32, bytes: &[u8]) -> GateWrite
        ensures bounds { IsTaken (length bytes.now) result }
        ensures nobody { ¬ IsInUse self.old conn → result ≡ GateWrite.Failed }
        ensures same { self.new ≡ self.old }
    {
        let Some(stream) = self.conns.at(conn) else {
            return GateWrite::Failed;
        };
        let answer = write_some(stream, bytes);
        // Where the system cannot be told, a wait takes its whole time.
        let _ = watch(&self.poll, conn, stream, interest_behind(answer));
        if let GateWrite::Took(_) = answer {
            self.was_busy = true;
        }
        answer
    }

    /// Ends the connection of a number, which is not in use then.
    pub fn close(&mut self, conn: u32)
        ensures { self.new ≡ ended self.old conn }
    {
        self.conns.end(conn);
        self.was_busy = true;
    }

    /// Whether a client was accepted, gave or took bytes, or was closed, since this was asked last: then there may be more to do at once.
    pub fn was_busy(&mut self) -> bool
        ensures { self.new ≡ self.old }
    {
        mem::replace(&mut self.was_busy, false)
    }

    /// Waits until a client knocks, has sent bytes or has ended, or can take bytes again that took none, and for so many microseconds at
    /// most, or up to a millisecond more. Whether one did.
    pub fn wait<R: Clock>(&mut self, rt: &R, micros: u64) -> bool
        ensures { self.new ≡ self.old }
    {
        // The system waits for whole milliseconds.
        let is_short = micros < LEAST_WAIT;
        match self.has_events(if is_short { 0 } else { micros }) {
            Ok(true) => true,
            Ok(false) if !is_short => false,
            _ => {
                thread::sleep(rt, Duration::from_micros(micros));
                false
            }
        }
    }

    // Whether the system has something to tell within so many microseconds.
    fn has_events(&mut self, micros: u64) -> io::Result<bool>
        ensures { self.new ≡ self.old }
    {
        let most = Some(Duration::from_micros(micros));
        self.poll.poll(&mut self.events, most)?;
        Ok(!self.events.is_empty())
    }

    /// Takes the socket's file away, if it is still this one: at a regular end, before the value goes. Clients that are connected stay so.
    pub fn remove<R: Files>(&self, rt: &R) {
        self.place.remove(rt);
    }
}

/// Whether nobody waits to be accepted. Who has gone again meanwhile is nobody.
fn is_nobody(kind: ErrorKind) -> bool {
    is_quiet(kind) || kind == ErrorKind::ConnectionAborted
}

/// What is waited for behind a write: also that bytes are taken again, where none were.
fn interest_behind(answer: GateWrite) -> Interest {
    match answer {
        GateWrite::Quiet => Interest::READABLE | Interest::WRITABLE,
        GateWrite::Took(_) | GateWrite::Failed => Interest::READABLE,
    }
}

/// Has a connection watched for that.
fn watch(poll: &Poll, conn: u32, stream: &UnixStream, interest: Interest) -> io::Result<()> {
    let number = stream.as_raw_fd();
    let token = Token(conn as usize);
    poll.registry()
        .reregister(&mut SourceFd(&number), token, interest)
}
