//! A window over a slot.
ghost use Rattle.std.specs.Prelude.{◌≡◌, ◌+◌, ◌<◌, ◌≤◌, ◌++◌, [], IfOk, OnOk, true, false, length, drop};
ghost use Rattle.slot_reader.specs.Reads.{OnlyReads, is_fault};
ghost use Rattle.slot_reader.specs.Windows.{IsAtPlaceOf, IsWhole, IsWithin, Shows};

use crate::fault::Fault;
use crate::reads::piece_at;
use f2b_base::{Bytes, NoMemory};
use f2b_world::Disk;
use std::alloc::Global;
use std::marker::Model;

/// How many bytes are read at once, or as many as are shown where those are more.
const PIECE: u64 = 65536;

/// What is shown of a slot. The window moves on over what was read, and grows.
#[derive(Debug, Drop)]
pub struct Shown {
    slot: u8,
    /// How long the slot is.
    long: u64,
    /// Where in the slot the bytes begin.
    base: u64,
    bytes: Bytes,
    /// How many of the bytes the window has moved on over.
    from: usize,
}

impl Model for Shown {
    ghost use Rattle.std.specs.Prelude.{◌+◌, ◌<◌, ◌≤◌, ◌^◌, length, drop};
    ghost use Rattle.slot_reader.specs.Windows.{Window};

    ghost Value = { Window };

    ghost view = { λ s. record { slot = s.slot; long = s.long; place = s.base + s.from; bytes = drop s.from s.bytes } };

    ghost invariant = { λ s. (s.slot < 2) × (s.from ≤ length s.bytes) × (s.base + length s.bytes ≤ s.long) × (s.long < 2 ^ 64) };
}

impl Shown {
    /// Nothing is shown yet of a slot that is so long.
    pub(crate) fn new(alloc: Global, slot: u8, long: u64) -> Shown
        requires { slot < 2 }
        ensures { result ≡ record { slot = slot; long = long; place = 0; bytes = [] } }
    {
        Shown {
            slot,
            long,
            base: 0,
            bytes: Bytes::new(alloc),
            from: 0,
        }
    }

    /// What is shown.
    pub(crate) fn bytes(&self) -> &[u8]
        ensures bytes { result.now ≡ self.now.bytes }
        ensures within { IsWithin self.now }
    {
        &self.bytes.as_slice()[self.from..]
    }

    /// Which slot it is.
    pub(crate) fn slot(&self) -> u8
        ensures { result ≡ self.now.slot }
    {
        self.slot
    }

    /// Where in the slot the window begins.
    pub(crate) fn place(&self) -> u64
        ensures { result ≡ self.now.place }
    {
        self.base + self.from as u64
    }

    /// Whether all that is left of the slot is shown.
    pub(crate) fn is_whole(&self) -> bool
        ensures whole { result ≡ true → IsWhole self.now }
        ensures part { result ≡ false → self.now.place + length self.now.bytes < self.now.long }
    {
        self.base + self.bytes.len() as u64 == self.long
    }

    /// Moves on over so many bytes.
    pub(crate) fn skip(&mut self, count: u64)
        requires { count ≤ length self.old.bytes }
        ensures slot { self.new.slot ≡ self.old.slot }
        ensures long { self.new.long ≡ self.old.long }
        ensures place { self.new.place ≡ self.old.place + count }
        ensures bytes { self.new.bytes ≡ drop count self.old.bytes }
        ensures within { IsWithin self.new }
    {
        self.from += count as usize;
    }

    /// Shows more of the slot: a piece, or as much as is shown where that is more, or all that is left. An error changes nothing.
    #[tactic(auto, using(crate::proofs::WindowLemmas::grows))]
    pub(crate) fn grow<D: Disk>(&mut self, alloc: Global, disk: &mut D) -> Result<(), Fault>
        requires shows { Shows self.old (D.stands disk.old).told }
        requires part { self.old.place + length self.old.bytes < self.old.long }
        ensures same { IsAtPlaceOf self.old self.new }
        ensures more { OnOk result (length self.old.bytes < length self.new.bytes) }
        ensures shows { Shows self.new (D.stands disk.new).told }
        ensures within { IsWithin self.new }
        ensures reads { OnlyReads (is_fault result) (D.stands disk.old) (D.stands disk.new) }
    {
        let at = self.base + self.bytes.len() as u64;
        let shown = (self.bytes.len() - self.from) as u64;
        let piece = piece_at(disk, self.slot, at, PIECE.max(shown).min(self.long - at))?;
        let bytes = joined(alloc, &self.bytes.as_slice()[self.from..], piece.as_slice())?;
        self.base += self.from as u64;
        self.from = 0;
        self.bytes = bytes;
        Ok(())
    }
}

/// Bytes, and others behind them.
fn joined(alloc: Global, first: &[u8], others: &[u8]) -> Result<Bytes, NoMemory>
    ensures { IfOk result (λ bytes. bytes ≡ first.now ++ others.now) }
{
    let mut bytes = Bytes::from_slice(alloc, first)?;
    bytes.push_slice(others)?;
    Ok(bytes)
}
