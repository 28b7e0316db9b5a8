//! A slot that is opened.
ghost use Rattle.std.specs.Prelude.{◌≡◌, ◌<◌, false, IfOk};
ghost use Rattle.slot_reader.specs.Fronts.{IsLead, is_clear_lead};
ghost use Rattle.slot_reader.specs.Reads.{OnlyReads, is_fault};
ghost use Rattle.slot_reader.specs.Readings.{HasStorableView, IsOpened, IsTold, Stands};
ghost use Rattle.slot_reader.specs.Windows.{IsAtPlaceOf, IsWhole, IsWithin, Shows};

use crate::fault::Fault;
use crate::lead::{Lead, lead_in};
use crate::reader::SlotReader;
use crate::reads::len_of;
use crate::shown::Shown;
use f2b_base::View;
use f2b_world::Disk;
use journal_slots::Head;
use std::alloc::Global;

/// A slot of at most so many bytes is empty.
const SHORT_BYTES: u64 = 16;

/// What a slot is.
#[derive(Debug, Drop)]
pub enum Opening {
    /// It is empty, and begins so.
    Empty(Head),
    /// It is open: its inputs are to be read, and this is its view.
    Open(SlotReader, View),
    /// It is no journal: here the first field begins that has no reading.
    Bad {
        /// Its generation, or 0 where that has no reading.
        generation: u64,
        at: u64,
    },
}

/// What a slot begins with: more of it is shown until that is clear.
#[tactic(auto, using(crate::proofs::WindowLemmas::windows))]
fn lead_of<D: Disk>(alloc: Global, disk: &mut D, shown: &mut Shown) -> Result<Lead, Fault>
    requires { Shows shown.old (D.stands disk.old).told }
    ensures lead { IfOk result (IsLead shown.new.bytes) }
    ensures clear { IfOk result (λ lead. is_clear_lead lead ≡ false → IsWhole shown.new) }
    ensures within { IsWithin shown.new }
    ensures same { IsAtPlaceOf shown.old shown.new }
    ensures shows { Shows shown.new (D.stands disk.new).told }
    ensures reads { OnlyReads (is_fault result) (D.stands disk.old) (D.stands disk.new) }
{
    'pieces: loop {
        let lead = lead_in(alloc, shown.bytes())?;
        if lead.is_clear() || shown.is_whole() {
            return Ok(lead);
        }
        shown.grow(alloc, disk)?;
    }
}

/// Opens a slot: whether it is empty, open or no journal, as far as its start tells.
#[tactic(auto, using(crate::proofs::ReadingLemmas::openings))]
pub fn open<D: Disk>(alloc: Global, disk: &mut D, slot: u8) -> Result<Opening, Fault>
    requires { slot < 2 }
    ensures opened { IfOk result (λ opening. IsTold (λ now. IsOpened now opening) slot (D.stands disk.new).told) }
    ensures stands { IfOk result (λ opening. Stands slot opening (D.stands disk.new).told) }
    ensures storable { IfOk result HasStorableView }
    ensures reads { OnlyReads (is_fault result) (D.stands disk.old) (D.stands disk.new) }
{
    let long = len_of(disk, slot)?;
    if long <= SHORT_BYTES {
        return Ok(Opening::Empty(Head::Short));
    }
    let mut shown = Shown::new(alloc, slot, long);
    match lead_of(alloc, disk, &mut shown)? {
        Lead::Shut => Ok(Opening::Empty(Head::Shut)),
        Lead::Opens(begun, len) => {
            shown.skip(len);
            let reader = SlotReader {
                shown,
                version: begun.version,
                generation: begun.generation,
            };
            Ok(Opening::Open(reader, begun.view))
        }
        Lead::Bad(generation, at) => Ok(Opening::Bad { generation, at }),
    }
}
