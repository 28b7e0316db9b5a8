//! Bans that are over.
ghost use Rattle.std.specs.Prelude.{◌≡◌, ◌+◌, ◌^◌, ◌<◌, ◌≤◌, [], ◌∷◌, ◌++◌, length, IsTrue, IfOk, IfSome, IfNone, OnOk};
ghost use Rattle.f2b_model.specs.Sound.{IsRisingEnds};
ghost use Rattle.ban_table.specs.Entries.{IsFirstAfter};

use f2b_base::{NoMemory, Past, Seq};
use std::alloc::Global;
use std::collections::VecDeque;
use std::marker::Model;

/// The past entries of a table, in the order in which they came, with room for more.
#[derive(Drop)]
pub struct PastBans {
    entries: VecDeque<Past>,
    /// Only where no entry ended before one in front of it.
    in_order: bool,
}

impl Model for PastBans {
    ghost use Rattle.std.specs.Prelude.{IsTrue};
    ghost use Rattle.std.specs.VecDeque.{deque_capacity};
    ghost use Rattle.f2b_model.specs.Sound.{IsRisingEnds};
    ghost use Rattle.ban_table.specs.Entries.{Entries};

    ghost Value = { Entries };

    ghost view = { λ p. record { items = p.entries.items; room = deque_capacity p.entries } };

    ghost invariant = { λ p. IsTrue p.in_order → IsRisingEnds p.entries.items };
}

impl PastBans {
    /// No entries. Takes no memory.
    pub fn new(alloc: Global) -> PastBans
        ensures { result.items ≡ [] }
    {
        PastBans {
            entries: VecDeque::new(alloc),
            in_order: true,
        }
    }

    /// These entries.
    pub fn of(alloc: Global, entries: &[Past]) -> Result<PastBans, NoMemory>
        ensures items { IfOk result (λ past. past.items ≡ entries.now) }
        ensures room { IfOk result (λ past. length past.items ≤ past.room) }
    {
        let mut past = PastBans::new(alloc);
        past.make_room(entries.len())?;
        for entry in entries {
            past.push(*entry);
        }
        Ok(past)
    }

    /// How many entries there are.
    pub fn len(&self) -> usize
        ensures { result ≡ length self.now.items }
    {
        self.entries.len()
    }

    /// Whether the entries are known to stand in the order of their ends.
    pub fn is_in_order(&self) -> bool
        ensures { IsTrue result → IsRisingEnds self.now.items }
    {
        self.in_order
    }

    /// Makes room for so many entries more, and in advance for as many again.
    pub fn make_room(&mut self, count: usize) -> Result<(), NoMemory>
        requires { count ≤ 2 ^ 63 }
        ensures items { self.new.items ≡ self.old.items }
        ensures ok { OnOk result (length self.new.items + count ≤ self.new.room) }
        ensures room { self.old.room ≤ self.new.room }
        ensures small { self.new.room < 2 ^ 63 }
    {
        if self.entries.capacity() - self.entries.len() < count {
            // Twice as much: else a million starts would move the list a million times.
            self.entries.reserve(count.saturating_mul(2))?;
        }
        Ok(())
    }

    /// Adds an entry behind the others.
    pub fn push(&mut self, entry: Past)
        requires { length self.old.items < self.old.room }
        ensures items { self.new.items ≡ self.old.items ++ entry ∷ [] }
        ensures room { self.new.room ≡ self.old.room }
    {
        self.in_order = self.stays_in_order(entry);
        self.entries.push_back_reserved(entry);
    }

    /// Whether the entries are known to stand in the order of their ends with one more behind.
    fn stays_in_order(&self, entry: Past) -> bool
        ensures { IsTrue result → IsRisingEnds (self.now.items ++ entry ∷ []) }
    {
        match self.entries.back() {
            Some(last) => self.in_order && last.end <= entry.end,
            None => true,
        }
    }

    /// Takes out the first entry.
    pub fn pop(&mut self) -> Past
        requires { 0 < length self.old.items }
        ensures items { self.old.items ≡ result ∷ self.new.items }
        ensures fits { length self.new.items < self.new.room }
        ensures room { self.new.room ≡ self.old.room }
    {
        self.entries.pop_front().unwrap()
    }

    /// Takes out the first entry if it ended at a limit or before.
    pub fn pop_until(&mut self, limit: u64) -> Option<Past>
        ensures some { IfSome result (λ first. self.old.items ≡ first ∷ self.new.items) }
        ensures old { IfSome result (λ first. first.end ≤ limit) }
        ensures none { IfNone result (self.new.items ≡ self.old.items) }
        ensures late { IfNone result (IsFirstAfter limit self.old.items) }
        ensures room { self.new.room ≡ self.old.room }
    {
        let first = self.entries.front()?;
        if limit < first.end {
            return None;
        }
        self.entries.pop_front()
    }

    /// A copy of the entries.
    pub fn copies(&self) -> Result<Seq<Past>, NoMemory>
        ensures { IfOk result (λ entries. entries ≡ self.now.items) }
    {
        let mut entries = Seq::new(*self.entries.allocator());
        for entry in self.entries.iter() {
            entries.push(*entry)?;
        }
        Ok(entries)
    }

    /// The allocator of the entries.
    pub fn allocator(&self) -> Global {
        *self.entries.allocator()
    }
}
