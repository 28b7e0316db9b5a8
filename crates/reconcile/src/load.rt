//! Loading an engine.
ghost use Rattle.std.specs.Prelude.{◌≡◌, List, IfOk};
ghost use Rattle.ban_journal.specs.Loads.{AreLeft, AreThere, is_fault};
ghost use Rattle.ban_journal.specs.Places.{IsPlaced};
ghost use Rattle.f2b_base.specs.declared.input.Input.{Input as AnInput};
ghost use Rattle.f2b_model.specs.Storable.{IsStorable, IsStorableInput};
ghost use Rattle.f2b_model.specs.Whole.{step_now};
ghost use Rattle.reconcile.specs.Engines.{IsOnDisk};
ghost use Rattle.reconcile.specs.LoadedEngines.{AreSoundAtRest, AreTaken, IsEngineLoaded};
ghost use Rattle.reconcile.specs.Opens.{WhereTold};
ghost use Rattle.slot_reader.specs.Reads.{OnlyReads, content};

use crate::engine::Engine;
use ban_journal::{Journal, LoadError, StoredInputs};
use f2b_base::{Input, NoMemory};
use f2b_world::Disk;
use jail_core::Core;
use std::alloc::Global;

/// The state after an input that was stored. What it tells is not told again.
fn after(core: Core, input: Input) -> Result<Core, NoMemory>
    requires { IsStorableInput input }
    ensures core { IfOk result (λ after. after ≡ step_now core input) }
    ensures storable { IsStorable core → IfOk result IsStorable }
{
    let (after, _told) = core.take(&input)?;
    Ok(after)
}

/// The state after the inputs that are left, taken one by one.
fn after_all<D: Disk>(
    alloc: Global,
    disk: &mut D,
    core: Core,
    inputs: StoredInputs,
) -> Result<Core, LoadError>
    requires there { AreThere inputs (D.stands disk.old).told }
    requires storable { IsStorable core }
    ensures taken { (left : List AnInput) → WhereTold (D.stands disk.old).told (λ g. AreLeft inputs left (content g)) → WhereTold (D.stands disk.new).told (λ g. AreTaken core left result) }
    ensures storable { IfOk result IsStorable }
    ensures reads { OnlyReads (is_fault result) (D.stands disk.old) (D.stands disk.new) }
{
    let mut inputs = inputs;
    let mut core = core;
    'inputs: loop {
        match inputs.next(alloc, disk)? {
            Some(input) => core = after(core, input)?,
            None => return Ok(core),
        }
    }
}

impl Engine {
    /// Loads an engine whose slots may be so long: its journal, and the state that what that has stored comes to. Inputs are taken one by
    /// one as they are read, and none is kept. Nothing is written.
    pub fn load<D: Disk>(alloc: Global, disk: &mut D, limit: u64) -> Result<Engine, LoadError>
        ensures loaded { WhereTold (D.stands disk.new).told (λ g. IsEngineLoaded limit (content g) result) }
        ensures placed { IfOk result (λ e. IsPlaced e.journal (D.stands disk.new).told) }
        ensures on_disk { WhereTold (D.stands disk.old).told AreSoundAtRest → IfOk result (λ e. WhereTold (D.stands disk.new).told (IsOnDisk e)) }
        ensures reads { OnlyReads (is_fault result) (D.stands disk.old) (D.stands disk.new) }
    {
        let loaded = Journal::load(alloc, disk, limit)?;
        let core = Core::of(alloc, &loaded.view)?;
        let core = after_all(alloc, disk, core, loaded.inputs)?;
        Ok(Engine {
            journal: loaded.journal,
            core,
        })
    }
}
