//! What of a script was played, but for the slots.
ghost use Rattle.std.specs.Prelude.{◌≡◌, ◌==◌, ◌+◌, ◌++◌, ◌∷◌, ◌&&◌, true, [], ℕ, if◌then◌else◌, slice_index, IsTrue, IfOk};
ghost use Rattle.f2b_mem.specs.Plays.{accepted_in, given_to};
ghost use Rattle.f2b_mem.specs.Script.{counted};
ghost use Rattle.f2b_mem.specs.Stages.{Progresses, IsUnplayed};

use crate::commands::Commands;
use crate::counts::Counts;
use f2b_base::NoMemory;
use f2b_world::{Accept, Event, GateRead};
use std::alloc::Global;

/// How far a script was played.
#[derive(Drop)]
pub struct Progress {
    pub counts: Counts,
    /// The clients that were accepted.
    pub accepted: Vec<u32>,
    /// How many bytes each client gave.
    pub given: Vec<u64>,
    pub commands: Commands,
}

// Notes that a client was accepted, and answers whether it found memory for that.
fn note_accept(accepted: &mut Vec<u32>, event: &Event) -> bool
    ensures { IsTrue result → accepted.new.items ≡ accepted.old.items ++ accepted_in (event.now ∷ []) }
{
    match event {
        Event::GateAccept {
            answer: Accept::Conn(conn),
        } => accepted.push(*conn).is_ok(),
        _ => true,
    }
}

// Adds to the count at a place, and answers whether it could.
fn add_given(given: &mut Vec<u64>, place: usize, count: u64) -> bool
    ensures { IsTrue result → (k : ℕ) → slice_index given.new.items k ≡ slice_index given.old.items k + (if place == k then count else 0) }
{
    if place >= given.len() {
        return false;
    }
    let Some(sum) = given[place].checked_add(count) else {
        return false;
    };
    given[place] = sum;
    true
}

// Notes that a client gave bytes, and answers whether it could.
fn note_given(given: &mut Vec<u64>, event: &Event) -> bool
    ensures { IsTrue result → (conn : ℕ) → slice_index given.new.items conn ≡ slice_index given.old.items conn + given_to conn (event.now ∷ []) }
{
    match event {
        Event::GateRead {
            conn,
            answer: GateRead::Bytes(bytes),
            ..
        } => add_given(given, *conn as usize, bytes.len() as u64),
        _ => true,
    }
}

/// Whether both hold.
pub fn both(left: bool, right: bool) -> bool
    ensures { result ≡ (left && right) }
{
    left && right
}

impl Progress {
    /// Nothing was played yet, of so many clients.
    pub fn new(alloc: Global, clients: usize) -> Result<Progress, NoMemory>
        ensures { IfOk result IsUnplayed }
    {
        let mut accepted = Vec::new(alloc);
        accepted.try_reserve(clients)?;
        Ok(Progress {
            counts: Counts::NONE,
            accepted,
            given: vec![in alloc; 0; clients]?,
            commands: Commands::new(alloc),
        })
    }

    /// A call more, of which nothing else is known.
    pub fn skip(&mut self)
        ensures counts { self.new.counts ≡ record self.old.counts { calls = counted self.old.counts.calls true } }
        ensures others { self.new ≡ record self.old { counts = self.new.counts } }
    {
        self.counts.skip();
    }

    /// The call of this event more. Answers whether it was noted; if not, the history has to end.
    pub fn note(&mut self, event: &Event) -> bool
        ensures { IsTrue result → Progresses self.old event.now self.new }
    {
        let accepted = note_accept(&mut self.accepted, event);
        let given = note_given(&mut self.given, event);
        let ran = self.commands.note(event);
        self.counts.note(event);
        both(both(accepted, given), ran)
    }
}
