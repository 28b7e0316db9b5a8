//! A slot that is read to its end, of which nothing is kept.
ghost use Rattle.std.specs.Prelude.{◌≡◌, ◌<◌, [], IfOk};
ghost use Rattle.f2b_base.specs.declared.view.View.{View as AView};
ghost use Rattle.slot_reader.specs.Reads.{OnlyReads, is_fault};
ghost use Rattle.slot_reader.specs.Readings.{IsChecked, IsTold, Reads, ended_by};
ghost use Rattle.slot_reader.specs.Windows.{IsWithin, Shows};

use crate::fault::Fault;
use crate::opening::{Opening, open};
use crate::reader::{Next, SlotReader};
use crate::version::Version;
use f2b_world::Disk;
use journal_slots::Head;
use std::alloc::Global;

/// An open slot that was read to its end.
#[derive(Clone, Copy, Debug, PartialEq, Eq)]
pub struct OpenSlot {
    pub generation: u64,
    pub version: Version,
    /// Where its closed gate stands.
    pub gate: u64,
}

/// What a slot is, to its end.
#[derive(Clone, Copy, Debug, PartialEq, Eq)]
pub enum Checked {
    /// It is empty, and begins so.
    Empty(Head),
    Open(OpenSlot),
    /// It is no journal: here the first field begins that has no reading.
    Bad {
        /// Its generation, or 0 where that has no reading.
        generation: u64,
        at: u64,
    },
}

/// What the slot is to its end, if the reader is there.
fn ended(reader: &SlotReader, next: Next) -> Option<Checked>
    ensures { result ≡ ended_by reader.now next }
{
    match next {
        Next::Input(_) => None,
        Next::Closed => Some(Checked::Open(OpenSlot {
            generation: reader.generation,
            version: reader.version,
            gate: reader.place(),
        })),
        Next::Bad(at) => Some(Checked::Bad {
            generation: reader.generation,
            at,
        }),
    }
}

/// Reads the inputs that are left, one by one, and keeps none.
#[tactic(auto, using(crate::proofs::ReadingLemmas::inputs_checked))]
fn check_inputs<D: Disk>(alloc: Global, disk: &mut D, reader: SlotReader) -> Result<Checked, Fault>
    requires shows { Shows reader.shown (D.stands disk.old).told }
    requires within { IsWithin reader.shown }
    ensures checked { (v : AView) → Reads reader v [] (D.stands disk.old).told → IfOk result (λ checked. IsTold (λ now. IsChecked now checked) reader.shown.slot (D.stands disk.new).told) }
    ensures reads { OnlyReads (is_fault result) (D.stands disk.old) (D.stands disk.new) }
{
    let mut reader = reader;
    'inputs: loop {
        let next = reader.next(alloc, disk)?;
        match ended(&reader, next) {
            Some(checked) => return Ok(checked),
            None => (),
        }
    }
}

/// Reads a slot to its end, one record at a time, and keeps none.
#[tactic(auto, using(crate::proofs::ReadingLemmas::checks))]
pub fn check<D: Disk>(alloc: Global, disk: &mut D, slot: u8) -> Result<Checked, Fault>
    requires { slot < 2 }
    ensures checked { IfOk result (λ checked. IsTold (λ now. IsChecked now checked) slot (D.stands disk.new).told) }
    ensures reads { OnlyReads (is_fault result) (D.stands disk.old) (D.stands disk.new) }
{
    match open(alloc, disk, slot)? {
        Opening::Empty(head) => Ok(Checked::Empty(head)),
        Opening::Open(reader, _view) => check_inputs(alloc, disk, reader),
        Opening::Bad { generation, at } => Ok(Checked::Bad { generation, at }),
    }
}
