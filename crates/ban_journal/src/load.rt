//! Loading a journal.
ghost use Rattle.std.specs.Prelude.{◌≡◌, ◌<◌, Some, List, ℕ, IfOk, IfSome};
ghost use Rattle.f2b_base.specs.declared.input.Input.{Input as AnInput};
ghost use Rattle.f2b_model.specs.Storable.{IsStorableInput};
ghost use Rattle.f2b_model.specs.StorableViews.{IsStorableView};
ghost use Rattle.f2b_model.specs.Views.{empty_view};
ghost use Rattle.journal_slots.specs.Tops.{Stored};
ghost use Rattle.slot_reader.specs.Reads.{OnlyReads, content};
ghost use Rattle.slot_reader.specs.Windows.{Shows};
ghost use Rattle.ban_journal.specs.Loads.{AreLeft, AreThere, IsBegun, IsGiven, IsLoaded, StandsOver, WhereTold, bytes_left, is_fault};
ghost use Rattle.ban_journal.specs.Places.{IsPlaced};

use crate::found::position_of;
use crate::journal::Journal;
use crate::load_error::LoadError;
use f2b_base::{DEFAULT_PURGE, Defs, Input, Seq, View};
use f2b_world::Disk;
use slot_reader::{Next, Opening, SlotReader, check, open};
use slot_writes::Position;
use std::alloc::Global;

/// The inputs that a journal has stored, which are read one by one.
#[derive(Debug, Drop)]
pub struct StoredInputs {
    /// None where no slot is open.
    reader: Option<SlotReader>,
}

/// What a journal has stored.
#[derive(Debug, Drop)]
pub struct Loaded {
    pub journal: Journal,
    pub view: View,
    /// What came after the view.
    pub inputs: StoredInputs,
}

/// The view before the first configuration.
fn first_view(alloc: Global) -> View
    ensures { result ≡ empty_view }
{
    View {
        at: 0,
        defs: Defs {
            purge: DEFAULT_PURGE,
            jails: Seq::new(alloc),
        },
        stopping: false,
        up: Seq::new(alloc),
        jails: Seq::new(alloc),
        jobs: Seq::new(alloc),
        next_job: 0,
        next_ban: 0,
    }
}

/// The next input of an open slot, or none where all were given.
#[tactic(auto, using(crate::proofs::LoadLemmas::given))]
fn next_of<D: Disk>(
    alloc: Global,
    disk: &mut D,
    reader: &mut SlotReader,
) -> Result<Option<Input>, LoadError>
    requires { Shows reader.old.shown (D.stands disk.old).told }
    ensures given { (left : List AnInput) → WhereTold (D.stands disk.old).told (λ g. AreLeft (record { reader = Some reader.old }) left (content g))
        → WhereTold (D.stands disk.new).told (λ g. IsGiven (record { reader = Some reader.new }) left (content g) result) }
    ensures storable { IfOk result (λ i. IfSome i IsStorableInput) }
    ensures fewer { IfOk result (λ i. IfSome i (λ _. bytes_left (record { reader = Some reader.new }) < bytes_left (record { reader = Some reader.old }))) }
    ensures there { Shows reader.new.shown (D.stands disk.new).told }
    ensures reads { OnlyReads (is_fault result) (D.stands disk.old) (D.stands disk.new) }
{
    match reader.next(alloc, disk)? {
        Next::Input(input) => Ok(Some(input)),
        Next::Closed => Ok(None),
        Next::Bad(at) => Err(LoadError::NotAJournal {
            slot: reader.slot(),
            at,
        }),
    }
}

impl StoredInputs {
    /// The next input, or none where all were given. The disk has to be as it was when the journal was loaded.
    #[tactic(auto, using(crate::proofs::LoadLemmas::none_given))]
    pub fn next<D: Disk>(&mut self, alloc: Global, disk: &mut D) -> Result<Option<Input>, LoadError>
        requires { AreThere self.old (D.stands disk.old).told }
        ensures given { (left : List AnInput) → WhereTold (D.stands disk.old).told (λ g. AreLeft self.old left (content g))
            → WhereTold (D.stands disk.new).told (λ g. IsGiven self.new left (content g) result) }
        ensures storable { IfOk result (λ i. IfSome i IsStorableInput) }
        // So there is an end to them.
        ensures fewer { IfOk result (λ i. IfSome i (λ _. bytes_left self.new < bytes_left self.old)) }
        ensures there { AreThere self.new (D.stands disk.new).told }
        ensures reads { OnlyReads (is_fault result) (D.stands disk.old) (D.stands disk.new) }
    {
        match &mut self.reader {
            None => Ok(None),
            Some(reader) => next_of(alloc, disk, reader),
        }
    }
}

/// The view of a journal that stands there, and its inputs to come.
#[tactic(auto, using(crate::proofs::LoadLemmas::begun))]
fn begun<D: Disk>(
    alloc: Global,
    disk: &mut D,
    position: Position,
) -> Result<(View, StoredInputs), LoadError>
    requires { position.slot < 2 }
    ensures begun { (limit : ℕ) (stored : Stored) → WhereTold (D.stands disk.new).told (λ g. StandsOver limit position stored (content g) → IsBegun stored (content g) result) }
    ensures storable { IfOk result (λ x. IsStorableView x.0) }
    ensures there { IfOk result (λ x. AreThere x.1 (D.stands disk.new).told) }
    ensures reads { OnlyReads (is_fault result) (D.stands disk.old) (D.stands disk.new) }
{
    let slot = position.slot;
    match open(alloc, disk, slot)? {
        Opening::Empty(_) => Ok((first_view(alloc), StoredInputs { reader: None })),
        Opening::Open(reader, view) => Ok((
            view,
            StoredInputs {
                reader: Some(reader),
            },
        )),
        Opening::Bad { at, .. } => Err(LoadError::NotAJournal { slot, at }),
    }
}

impl Journal {
    /// Loads a journal whose slots may be so long. Both slots are read to their ends, and then the one that counts again, input by
    /// input. Nothing is written.
    #[tactic(auto, using(crate::proofs::LoadLemmas::loads))]
    pub fn load<D: Disk>(alloc: Global, disk: &mut D, limit: u64) -> Result<Loaded, LoadError>
        ensures loaded { WhereTold (D.stands disk.new).told (λ g. IsLoaded limit g result) }
        ensures storable { IfOk result (λ loaded. IsStorableView loaded.view) }
        ensures placed { IfOk result (λ loaded. IsPlaced loaded.journal (D.stands disk.new).told) }
        ensures there { IfOk result (λ loaded. AreThere loaded.inputs (D.stands disk.new).told) }
        ensures reads { OnlyReads (is_fault result) (D.stands disk.old) (D.stands disk.new) }
    {
        let first = check(alloc, disk, 0)?;
        let second = check(alloc, disk, 1)?;
        let position = position_of(limit, first, second)?;
        let (view, inputs) = begun(alloc, disk, position)?;
        Ok(Loaded {
            journal: Journal { position },
            view,
            inputs,
        })
    }
}
