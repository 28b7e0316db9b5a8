//! One client.
ghost use Rattle.std.specs.Prelude.{◌≡◌, ◌≤◌, ◌==◌, [], Err, length, IfSome, OnOk, OnErr};
ghost use Rattle.client_frames.specs.Comes.{told, wanted};
ghost use Rattle.client_frames.specs.Frames.{most_text};
ghost use Rattle.client_table.specs.Clients.{AnswersRead, AnswersWrite, IsBounded, IsHeard, accepted, after_read, after_write, answered, asks, has_unwritten, heard_in, is_idle, is_over, is_refused};
ghost use Rattle.client_table.specs.Nexts.{told_to};

use crate::next::Next;
use crate::unwritten::Unwritten;
use client_frames::{Answer, Conn, FrameError, reply_frame};
use f2b_base::{NoMemory, Seq, Text};
use f2b_world::{GateRead, GateWrite};
use std::alloc::Global;
use std::marker::Model;

/// How many clients there are at once at most.
pub const MOST_CLIENTS: usize = 16;

/// For how many seconds a client may be idle: no byte comes of it, and it takes none.
pub const IDLE_SECONDS: u64 = 30;

/// A client that was accepted.
#[derive(Drop)]
pub(crate) struct Client {
    alloc: Global,
    conn: u32,
    requests: Conn,
    unwritten: Unwritten,
    last: u64,
    gone: bool,
}

impl Model for Client {
    ghost use Rattle.client_table.specs.Clients.{Client};

    ghost Value = { Client };

    ghost view = { λ c. record { conn = c.conn; hearing = c.requests; unwritten = c.unwritten; last = c.last; gone = c.gone } };
}

impl Client {
    /// One that was accepted at that moment. Takes no memory.
    pub fn new(alloc: Global, conn: u32, now: u64) -> Client
        ensures { result ≡ accepted conn now }
    {
        Client {
            alloc,
            conn,
            requests: Conn::new(alloc),
            unwritten: Unwritten::new(alloc),
            last: now,
            gone: false,
        }
    }

    /// The number that the outside gave it.
    pub fn conn(&self) -> u32
        ensures { result ≡ self.now.conn }
    {
        self.conn
    }

    /// Whether something is to be written to it.
    pub fn has_unwritten(&self) -> bool
        ensures { result ≡ has_unwritten self.now }
    {
        !self.unwritten.is_empty()
    }

    /// What it asks.
    pub fn next(&self) -> Next<'_>
        ensures next { told_to result ≡ asks self.now }
        ensures bounded { IsBounded (told_to result) }
    {
        let bytes = self.unwritten.as_slice();
        if !bytes.is_empty() {
            return Next::Write(bytes);
        }
        match self.requests.want() {
            0 => Next::Nothing,
            most => Next::Read(most),
        }
    }

    /// Takes what a read was answered.
    pub fn read(&mut self, answer: GateRead, now: u64) -> Result<Option<Seq<Text>>, FrameError>
        requires { AnswersRead (asks self.old) answer }
        ensures heard { IfSome (told result) (λ h. h ≡ heard_in answer self.old) }
        ensures is { IfSome (told result) (λ h. IsHeard answer self.old) }
        ensures after { IfSome (told result) (λ h. self.new ≡ after_read now answer self.old) }
        ensures wanting { result ≡ Err FrameError.NoMemory → self.new ≡ self.old }
    {
        match answer {
            GateRead::Bytes(bytes) => self.feed(bytes.as_slice(), now),
            GateRead::Quiet => Ok(None),
            GateRead::End | GateRead::Failed => {
                self.gone = true;
                Ok(None)
            }
            GateRead::NoMemory => Err(FrameError::NoMemory),
        }
    }

    /// Takes what a write was answered.
    pub fn wrote(&mut self, answer: GateWrite, now: u64)
        requires { AnswersWrite (asks self.old) answer }
        ensures { self.new ≡ after_write now answer self.old }
    {
        match answer {
            GateWrite::Took(count) => {
                self.unwritten.advance(count as usize);
                self.last = now;
            }
            GateWrite::Quiet => {}
            GateWrite::Failed => self.gone = true,
        }
    }

    /// Puts in a reply. An error changes nothing.
    pub fn answer(&mut self, reply: &Answer) -> Result<(), NoMemory>
        requires { length reply.now.text ≤ most_text }
        ensures ok { OnOk result (self.new ≡ answered reply.now self.old) }
        ensures err { OnErr result (self.new ≡ self.old) }
    {
        let frame = reply_frame(self.alloc, reply)?;
        self.unwritten = Unwritten::of(self.alloc, frame);
        Ok(())
    }

    /// Whether a frame of it was refused, and that is written whole.
    fn is_refused(&self) -> bool
        ensures { result ≡ is_refused self.now }
    {
        self.requests.want() == 0 && self.unwritten.is_empty()
    }

    /// Whether no byte came of it, and it took none, for too long.
    fn is_idle(&self, now: u64) -> bool
        ensures { result ≡ is_idle now self.now }
    {
        self.last <= now && now - self.last >= IDLE_SECONDS
    }

    /// Whether it is over.
    pub fn is_over(&self, now: u64) -> bool
        ensures { result ≡ is_over now self.now }
    {
        self.gone || self.is_refused() || self.is_idle(now)
    }

    /// Takes bytes that came.
    fn feed(&mut self, bytes: &[u8], at: u64) -> Result<Option<Seq<Text>>, FrameError>
        requires some { 1 ≤ length bytes.now }
        requires few { length bytes.now ≤ wanted self.old.hearing }
        ensures heard { IfSome (told result) (λ h. h ≡ heard_in (GateRead.Bytes bytes.now) self.old) }
        ensures is { IfSome (told result) (λ h. IsHeard (GateRead.Bytes bytes.now) self.old) }
        ensures after { IfSome (told result) (λ h. self.new ≡ after_read at (GateRead.Bytes bytes.now) self.old) }
        ensures wanting { result ≡ Err FrameError.NoMemory → self.new ≡ self.old }
    {
        match self.requests.feed(bytes) {
            Err(FrameError::NoMemory) => Err(FrameError::NoMemory),
            heard => {
                self.last = at;
                heard
            }
        }
    }
}
