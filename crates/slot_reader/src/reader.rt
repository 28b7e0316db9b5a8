//! `SlotReader`, which gives the inputs of an open slot.
ghost use Rattle.std.specs.Prelude.{◌≡◌, false, List, IfOk};
ghost use Rattle.f2b_base.specs.declared.input.Input.{Input as AnInput};
ghost use Rattle.f2b_base.specs.declared.view.View.{View as AView};
ghost use Rattle.slot_reader.specs.Fronts.{IsItem, is_clear_item};
ghost use Rattle.slot_reader.specs.Reads.{OnlyReads, is_fault};
ghost use Rattle.slot_reader.specs.Readings.{GoesOn, HasStorableInput, IsSameSlot, Reads, TellsNext};
ghost use Rattle.slot_reader.specs.Versions.{spelling};
ghost use Rattle.slot_reader.specs.Windows.{IsAtPlaceOf, IsWhole, IsWithin, Shows};

use crate::fault::Fault;
use crate::item::{Item, item_in};
use crate::shown::Shown;
use crate::version::Version;
use f2b_base::Input;
use f2b_world::Disk;
use std::alloc::Global;

/// What comes next in a slot.
#[derive(Debug, Drop)]
pub enum Next {
    Input(Input),
    /// The first closed gate, which ends the slot.
    Closed,
    /// The slot is no journal: here the first field begins that has no reading.
    Bad(u64),
}

/// An open slot that is read: its start was, and its inputs are given one by one.
#[derive(Debug, Drop)]
pub struct SlotReader {
    pub(crate) shown: Shown,
    pub(crate) version: Version,
    pub(crate) generation: u64,
}

/// What the window begins with, from a gate behind a record on: more of the slot is shown until that is clear.
#[tactic(auto, using(crate::proofs::WindowLemmas::windows))]
fn item_of<D: Disk>(
    alloc: Global,
    disk: &mut D,
    version: Version,
    shown: &mut Shown,
) -> Result<Item, Fault>
    requires { Shows shown.old (D.stands disk.old).told }
    ensures item { IfOk result (IsItem (spelling version) shown.new.bytes) }
    ensures clear { IfOk result (λ item. is_clear_item item ≡ false → IsWhole shown.new) }
    ensures within { IsWithin shown.new }
    ensures same { IsAtPlaceOf shown.old shown.new }
    ensures shows { Shows shown.new (D.stands disk.new).told }
    ensures reads { OnlyReads (is_fault result) (D.stands disk.old) (D.stands disk.new) }
{
    'pieces: loop {
        let item = item_in(version, alloc, shown.bytes())?;
        if item.is_clear() || shown.is_whole() {
            return Ok(item);
        }
        shown.grow(alloc, disk)?;
    }
}

impl SlotReader {
    /// Which slot it is.
    pub fn slot(&self) -> u8
        ensures { result ≡ self.now.shown.slot }
    {
        self.shown.slot()
    }

    /// The generation of the slot.
    pub fn generation(&self) -> u64
        ensures { result ≡ self.now.generation }
    {
        self.generation
    }

    /// The version of what the slot spells.
    pub fn version(&self) -> Version
        ensures { result ≡ self.now.version }
    {
        self.version
    }

    /// How far the slot was read.
    pub fn place(&self) -> u64
        ensures { result ≡ self.now.shown.place }
    {
        self.shown.place()
    }

    /// The next input, or that there is none, or where the slot is no journal. The disk has to be as it was when the slot was opened.
    #[tactic(auto, using(crate::proofs::ReadingLemmas::nexts))]
    pub fn next<D: Disk>(&mut self, alloc: Global, disk: &mut D) -> Result<Next, Fault>
        requires { Shows self.old.shown (D.stands disk.old).told }
        // Whatever view and inputs were read so far.
        ensures next { (v : AView) (inputs : List AnInput) → Reads self.old v inputs (D.stands disk.old).told → TellsNext self.new v inputs (D.stands disk.new).told result }
        ensures storable { IfOk result HasStorableInput }
        ensures further { IfOk result (GoesOn self.old self.new) }
        ensures within { IsWithin self.new.shown }
        ensures same { IsSameSlot self.old self.new }
        ensures shows { Shows self.new.shown (D.stands disk.new).told }
        ensures reads { OnlyReads (is_fault result) (D.stands disk.old) (D.stands disk.new) }
    {
        match item_of(alloc, disk, self.version, &mut self.shown)? {
            Item::Closed => Ok(Next::Closed),
            Item::Taken(input, len) => {
                self.shown.skip(len);
                Ok(Next::Input(input))
            }
            Item::Bad(at) => Ok(Next::Bad(self.shown.place() + at)),
        }
    }
}
