//! `ClientTable` and its methods.
ghost use Rattle.std.specs.Prelude.{◌≡◌, ◌<◌, ◌≤◌, ◌↔◌, ◌∷◌, ◌++◌, [], Err, false, length, nat_lt, position, remove, IsTrue, IfSome, OnOk, OnErr};
ghost use Rattle.client_frames.specs.Comes.{told};
ghost use Rattle.client_frames.specs.Frames.{most_text};
ghost use Rattle.client_table.specs.Clients.{AnswersRead, AnswersWrite, Client, IsBounded, IsHeardAt, accepted, after_read, after_write, answered, asks_at, changed_at, conn_at, have_unwritten, heard_at, is_over_at, most_clients, place_for, unwritten_at, with_client};
ghost use Rattle.client_table.specs.Nexts.{told_to};

use crate::client::{Client, MOST_CLIENTS};
use crate::next::Next;
use client_frames::{Answer, FrameError};
use f2b_base::{NoMemory, Seq, Text};
use f2b_world::{GateRead, GateWrite};
use std::alloc::Global;
use std::marker::Model;

/// The clients, by their numbers.
#[derive(Drop)]
pub struct ClientTable {
    alloc: Global,
    clients: Vec<Client>,
}

impl Model for ClientTable {
    ghost use Rattle.std.specs.Prelude.{◌≤◌, List, length};
    ghost use Rattle.client_table.specs.Clients.{Client, most_clients};

    ghost Value = { List Client };

    ghost view = { λ t. t.clients.items };

    ghost invariant = { λ t. length t.clients.items ≤ most_clients };
}

// The first place with a greater number.
fn first_above(clients: &[Client], conn: u32) -> Option<usize>
    ensures { result ≡ position (λ (other : Client). nat_lt conn other.conn) clients.now }
{
    clients.iter().position(|other| conn < other.conn())
}

// The place of a number among the others.
#[tactic(auto, using(crate::proofs::PlaceLemmas::place_none, crate::proofs::PlaceLemmas::place_within))]
fn place_for(clients: &[Client], conn: u32) -> usize
    ensures place { result ≡ place_for conn clients.now }
    ensures within { result ≤ length clients.now }
{
    match first_above(clients, conn) {
        Some(place) => place,
        None => clients.len(),
    }
}

impl ClientTable {
    /// There are none. Takes no memory.
    pub fn new(alloc: Global) -> ClientTable
        ensures { result ≡ [] }
    {
        ClientTable {
            alloc,
            clients: Vec::new(alloc),
        }
    }

    /// How many there are.
    pub fn len(&self) -> usize
        ensures count { result ≡ length self.now }
        ensures few { result ≤ most_clients }
    {
        self.clients.len()
    }

    /// Whether there are as many as may be. Ask it before `accept`.
    pub fn is_full(&self) -> bool
        ensures full { IsTrue result ↔ (length self.now ≡ most_clients) }
        ensures room { result ≡ false → length self.now < most_clients }
    {
        self.clients.len() == MOST_CLIENTS
    }

    /// Adds a client, at the place of the number that the outside gave it, where there is room; it was accepted at `now`, in seconds since
    /// 1970. An error changes nothing.
    #[tactic(auto, using(crate::proofs::PlaceLemmas::few_more))]
    pub fn accept(&mut self, conn: u32, now: u64) -> Result<(), NoMemory>
        requires { length self.old < most_clients }
        ensures ok { OnOk result (self.new ≡ with_client (accepted conn now) self.old) }
        ensures err { OnErr result (self.new ≡ self.old) }
    {
        let place = place_for(self.clients.as_slice(), conn);
        self.clients
            .insert(place, Client::new(self.alloc, conn, now))?;
        Ok(())
    }

    /// The number of the client at a place.
    pub fn conn(&self, place: usize) -> u32
        requires { place < length self.now }
        ensures { result ≡ conn_at place self.now }
    {
        self.clients[place].conn()
    }

    /// What the client at a place asks: to be written what is unwritten, if anything is, and else to be read as much as is missing of
    /// its request. Takes no memory, and copies nothing.
    pub fn next(&self, place: usize) -> Next<'_>
        requires { place < length self.now }
        ensures next { told_to result ≡ asks_at place self.now }
        ensures bounded { IsBounded (told_to result) }
    {
        self.clients[place].next()
    }

    /// Takes what a read of the client at a place was answered, which it asked for, at `now` in seconds since 1970. Gives the words of
    /// the request that came whole, or why its frame is refused: either is to be answered. Where memory is wanted nothing is changed.
    pub fn read(
        &mut self,
        place: usize,
        answer: GateRead,
        now: u64,
    ) -> Result<Option<Seq<Text>>, FrameError>
        requires place { place < length self.old }
        requires answer { AnswersRead (asks_at place self.old) answer }
        ensures heard { IfSome (told result) (λ h. h ≡ heard_at answer place self.old) }
        ensures is { IfSome (told result) (λ h. IsHeardAt answer place self.old) }
        ensures after { IfSome (told result) (λ h. self.new ≡ changed_at place (after_read now answer) self.old) }
        ensures wanting { result ≡ Err FrameError.NoMemory → self.new ≡ self.old }
    {
        self.clients[place].read(answer, now)
    }

    /// Takes what a write to the client at a place was answered, which it asked for, at `now` in seconds since 1970.
    pub fn wrote(&mut self, place: usize, answer: GateWrite, now: u64)
        requires place { place < length self.old }
        requires answer { AnswersWrite (asks_at place self.old) answer }
        ensures { self.new ≡ changed_at place (after_write now answer) self.old }
    {
        self.clients[place].wrote(answer, now);
    }

    /// Puts in the reply to the client at a place, to which all others are written. An error changes nothing.
    pub fn answer(&mut self, place: usize, reply: &Answer) -> Result<(), NoMemory>
        requires place { place < length self.old }
        requires written { unwritten_at place self.old ≡ [] }
        requires short { length reply.now.text ≤ most_text }
        ensures ok { OnOk result (self.new ≡ changed_at place (answered reply.now) self.old) }
        ensures err { OnErr result (self.new ≡ self.old) }
    {
        self.clients[place].answer(reply)
    }

    /// Whether the client at a place is over at `now`, in seconds since 1970. Ask it once the answer of a call on it was taken, and
    /// what came of it is answered.
    pub fn is_over(&self, place: usize, now: u64) -> bool
        requires { place < length self.now }
        ensures { result ≡ is_over_at now place self.now }
    {
        self.clients[place].is_over(now)
    }

    /// Takes out the client at a place: the next one stands there then.
    pub fn close(&mut self, place: usize)
        requires { place < length self.old }
        ensures { self.new ≡ remove self.old place }
    {
        let _ = self.clients.remove(place);
    }

    /// Whether something is to be written to one of them.
    pub fn has_unwritten(&self) -> bool
        ensures { result ≡ have_unwritten self.now }
    {
        self.clients.iter().any(|client| client.has_unwritten())
    }
}
