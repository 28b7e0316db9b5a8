//! Inputs that an engine takes.
ghost use Rattle.ban_journal.specs.Places.{IsPlaced};
ghost use Rattle.f2b_model.specs.Storable.{IsStorableInput};
ghost use Rattle.std.specs.Prelude.{IfOk};

use f2b_base::{Defs, Input, Seq, View, What};
use f2b_mem::MemWorld;
use f2b_world::Disk;
use reconcile::{Engine, EngineError};
use std::alloc::Global;
use std::test::Fail;

/// An input of a row: when, and what happened.
#[derive(Clone, Copy)]
pub(crate) enum Step {
    Tick(u32),
    /// A configuration with no jail, in which bans that are over count for so long.
    Config(u32, u16),
    Stop(u32),
}

fn input(alloc: Global, step: Step) -> Input
    ensures { IsStorableInput result }
{
    let (secs, what) = match step {
        Step::Tick(secs) => (secs, What::Tick),
        Step::Config(secs, purge) => (
            secs,
            What::Config {
                defs: Defs {
                    purge: u64::from(purge),
                    jails: Seq::new(alloc),
                },
            },
        ),
        Step::Stop(secs) => (secs, What::Stop),
    };
    Input {
        secs: u64::from(secs),
        word: 0,
        what,
    }
}

// An engine that took an input.
fn taken<D: Disk>(
    alloc: Global,
    disk: &mut D,
    engine: Engine,
    step: Step,
) -> Result<Engine, EngineError>
    requires { IsPlaced engine.journal (D.stands disk.old).told }
    ensures { IfOk result (λ after. IsPlaced after.journal (D.stands disk.new).told) }
{
    let (engine, _told) = engine.take(alloc, disk, input(alloc, step))?;
    Ok(engine)
}

// An engine that took inputs one after the other.
fn all_taken<D: Disk>(
    alloc: Global,
    disk: &mut D,
    engine: Engine,
    steps: &[Step],
) -> Result<Engine, EngineError>
    requires { IsPlaced engine.journal (D.stands disk.old).told }
{
    let mut engine = engine;
    'steps: for &step in steps {
        engine = taken(alloc, disk, engine, step)?;
    }
    Ok(engine)
}

/// What comes of an input that an engine takes once it is loaded.
pub(crate) fn take(
    alloc: Global,
    world: &mut MemWorld,
    limit: u64,
    step: Step,
) -> Result<Result<(), EngineError>, Fail> {
    let Ok(engine) = Engine::load(alloc, world, limit) else {
        return Err("not loaded".into());
    };
    match taken(alloc, world, engine, step) {
        Ok(_) => Ok(Ok(())),
        Err(error) => Ok(Err(error)),
    }
}

/// The view of an engine that is loaded and takes inputs.
pub(crate) fn view_after(
    alloc: Global,
    world: &mut MemWorld,
    limit: u64,
    steps: &[Step],
) -> Result<View, Fail> {
    let Ok(engine) = Engine::load(alloc, world, limit) else {
        return Err("not loaded".into());
    };
    match all_taken(alloc, world, engine, steps) {
        Ok(engine) => Ok(engine.core().view()?),
        Err(_) => Err("not taken".into()),
    }
}
