//! A client's connection in memory.
ghost use Rattle.std.specs.Prelude.{◌≡◌, ◌≢◌, ◌↔◌, ◌≤◌, ◌+◌, ◌-◌, ◌++◌, true, None, Some, if◌then◌else◌, length, IsTrue};
ghost use Rattle.f2b_world.specs.Faults.{Counted, OfLink};
ghost use Rattle.f2b_world.specs.Links.{Goes, Connects, Sends, Receives, IsReceivedOf, link_fault, read_fault};
ghost use Rattle.f2b_world.specs.Told.{Spoken};
ghost use Rattle.f2b_world.specs.declared.answer.Linked.TheVariants.{Connected, Failed as LinkFailed};
ghost use Rattle.f2b_world.specs.declared.answer.LinkRead.TheVariants.{Failed as LinkReadFailed};
ghost use Rattle.f2b_mem.specs.Calls.{fails_next, one_more};

use crate::answers::link_answer;
use crate::calls::Calls;
use crate::counts::counted;
use crate::pieces::piece_of;
use crate::progress::both;
use f2b_base::{Bytes, NoMemory, Seq, Text};
use f2b_world::{Link, LinkRead, Linked, Outside};
use std::alloc::Global;

/// A connection to a server that says these bytes, in pieces, and then is at its end. It tells what was said as long as it finds
/// memory for that.
#[derive(Drop)]
pub struct MemLink {
    alloc: Global,
    bytes: Bytes,
    piece: u32,
    calls: Calls,
    faults: u64,
    /// How many of the bytes were received.
    given: usize,
    ended: bool,
    told: bool,
    server: Option<Text>,
    sent: Bytes,
    ghost some: { 1 ≤ piece },
    ghost over: { ended ≡ true → length bytes ≤ given },
}

// Keeps the path of the server, and answers whether there was memory for it.
fn keep_server(alloc: Global, server: &mut Option<Text>, path: &str) -> bool
    ensures { IsTrue result → server.new ≡ Some path.now }
{
    match Text::from_str(alloc, path) {
        Ok(path) => {
            *server = Some(path);
            true
        }
        Err(NoMemory) => false,
    }
}

// Adds what was sent, and answers whether there was memory for it.
fn keep_sent(sent: &mut Bytes, bytes: &[u8]) -> bool
    ensures { IsTrue result → sent.new ≡ sent.old ++ bytes.now }
{
    sent.push_slice(bytes).is_ok()
}

// How many bytes were given after some more of them.
fn given_after(size: usize, given: usize, count: usize) -> usize
    requires { count ≤ size - given }
    ensures { result ≡ given + count }
{
    given + count
}

impl MemLink {
    ghost use Rattle.std.specs.Prelude.{ℕ, List, false, [], min, IfOk, IfSome};
    ghost use Rattle.f2b_world.specs.Faults.{Fault};
    ghost use Rattle.f2b_mem.specs.Calls.{none_made};
    ghost use Rattle.f2b_mem.specs.Talks.{talk_in, bytes_of, calls_of, faults_of, link_counts, piece_of, rest_of, Gives};

    /// A connection on which nothing was said yet. The calls at these places, from 0, fail.
    pub fn new(
        alloc: Global,
        bytes: Bytes,
        piece: u32,
        fails: Seq<u64>,
    ) -> Result<MemLink, NoMemory>
        requires { 1 ≤ piece }
        ensures talk { IfOk result (λ link. talk_in link ≡ Some (record { server = None; sent = []; received = []; ended = false })) }
        ensures bytes { IfOk result (λ link. bytes_of link ≡ bytes) }
        ensures rest { IfOk result (λ link. rest_of link ≡ bytes) }
        ensures piece { IfOk result (λ link. piece_of link ≡ piece) }
        ensures calls { IfOk result (λ link. calls_of link ≡ none_made fails) }
        ensures faults { IfOk result (λ link. (kind : Fault) → faults_of link kind ≡ 0) }
    {
        Ok(MemLink {
            alloc,
            bytes,
            piece,
            calls: Calls::new(fails),
            faults: 0,
            given: 0,
            ended: false,
            told: true,
            server: None,
            sent: Bytes::new(alloc),
        })
    }

    /// What was sent. Takes no memory.
    pub fn sent(&self) -> &[u8]
        ensures { IfSome (talk_in self.now) (λ talk. result.now ≡ talk.sent) }
    {
        self.sent.as_slice()
    }

    /// All that the server says. What was received is a front of it, and all of it where the end was seen.
    pub fn bytes(&self) -> &[u8]
        ensures all { result.now ≡ bytes_of self.now }
        ensures front { IfSome (talk_in self.now) (λ talk. (rest : List ℕ) × (bytes_of self.now ≡ talk.received ++ rest)) }
        ensures rest { IfSome (talk_in self.now) (λ talk. bytes_of self.now ≡ talk.received ++ rest_of self.now) }
        ensures end { IfSome (talk_in self.now) (λ talk. talk.ended ≡ true → talk.received ≡ bytes_of self.now) }
    {
        self.bytes.as_slice()
    }

    // Counts a call and its fault, and answers whether it fails.
    fn count_call(calls: &mut Calls, faults: &mut u64) -> bool
        ensures failing { result ≡ fails_next calls.old }
        ensures calls { calls.new ≡ one_more calls.old }
        ensures counts { Counted (if result then Some OfLink else None) (link_counts faults.old) (link_counts faults.new) }
    {
        let failing = calls.count();
        *faults = counted(*faults, failing);
        failing
    }

    // Gives the next bytes, or the end where all were given.
    fn give(&mut self, max: u32) -> LinkRead
        requires { 1 ≤ max }
        ensures talk { Goes (talk_in self.old) (talk_in self.new) (Receives result) }
        ensures bounds { IsReceivedOf max result }
        ensures bytes { bytes_of self.new ≡ bytes_of self.old }
        ensures gives { Gives (rest_of self.old) (min max (piece_of self.old)) result (rest_of self.new) }
        ensures piece { piece_of self.new ≡ piece_of self.old }
        ensures calls { calls_of self.new ≡ calls_of self.old }
        ensures faults { self.new.faults ≡ self.old.faults }
        ensures given { result ≢ LinkReadFailed }
    {
        let piece = piece_of(
            self.bytes.as_slice(),
            self.given as u64,
            max.min(self.piece),
        );
        let next = given_after(self.bytes.len(), self.given, piece.len());
        let over = piece.is_empty();
        let Ok(answer) = link_answer(self.alloc, piece) else {
            return LinkRead::NoMemory;
        };
        self.given = next;
        self.ended = over;
        answer
    }
}

impl Outside for MemLink {
    ghost use Rattle.f2b_mem.specs.Talks.{stands_of};

    ghost stands = { stands_of };
}

impl Link for MemLink {
    ghost use Rattle.std.specs.Prelude.{min};
    ghost use Rattle.f2b_mem.specs.Talks.{bytes_of, calls_of, piece_of, rest_of, stands_of, Gives};

    fn connect(&mut self, path: &str) -> Linked
        ensures talk { Spoken (stands_of self.old) (link_fault result) (Connects path.now result) (stands_of self.new) }
        ensures answer { result ≡ (if fails_next (calls_of self.old) then LinkFailed else Connected) }
        ensures bytes { bytes_of self.new ≡ bytes_of self.old }
        ensures rest { rest_of self.new ≡ rest_of self.old }
        ensures piece { piece_of self.new ≡ piece_of self.old }
        ensures calls { calls_of self.new ≡ one_more (calls_of self.old) }
    {
        if MemLink::count_call(&mut self.calls, &mut self.faults) {
            return Linked::Failed;
        }
        let kept = keep_server(self.alloc, &mut self.server, path);
        self.told = both(self.told, kept);
        self.ended = false;
        Linked::Connected
    }

    fn send(&mut self, bytes: &[u8]) -> Linked
        ensures talk { Spoken (stands_of self.old) (link_fault result) (Sends bytes.now result) (stands_of self.new) }
        ensures answer { result ≡ (if fails_next (calls_of self.old) then LinkFailed else Connected) }
        ensures bytes { bytes_of self.new ≡ bytes_of self.old }
        ensures rest { rest_of self.new ≡ rest_of self.old }
        ensures piece { piece_of self.new ≡ piece_of self.old }
        ensures calls { calls_of self.new ≡ one_more (calls_of self.old) }
    {
        if MemLink::count_call(&mut self.calls, &mut self.faults) {
            return Linked::Failed;
        }
        let kept = keep_sent(&mut self.sent, bytes);
        self.told = both(self.told, kept);
        Linked::Connected
    }

    fn receive(&mut self, max: u32) -> LinkRead
        requires { 1 ≤ max }
        ensures talk { Spoken (stands_of self.old) (read_fault result) (Receives result) (stands_of self.new) }
        ensures bounds { IsReceivedOf max result }
        ensures answer { (result ≡ LinkReadFailed) ↔ IsTrue (fails_next (calls_of self.old)) }
        ensures gives { Gives (rest_of self.old) (min max (piece_of self.old)) result (rest_of self.new) }
        ensures bytes { bytes_of self.new ≡ bytes_of self.old }
        ensures piece { piece_of self.new ≡ piece_of self.old }
        ensures calls { calls_of self.new ≡ one_more (calls_of self.old) }
    {
        if MemLink::count_call(&mut self.calls, &mut self.faults) {
            return LinkRead::Failed;
        }
        self.give(max)
    }
}
