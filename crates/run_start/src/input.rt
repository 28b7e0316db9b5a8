//! A configuration as an input.
ghost use Rattle.std.specs.Prelude.{IfErr, IfOk, IfSome};
ghost use Rattle.f2b_model.specs.Storable.{AreStorableDefs, IsStorableWhat};
ghost use Rattle.run_law.specs.Stages.{Brings, BringFails, HasCause, IsSteady};
ghost use Rattle.run_start.specs.Configured.{HasJails, IsConfiguring, TellsInput, configuring};
ghost use Rattle.run_start.specs.Followed.{ArePlaces};
ghost use Rattle.run_steps.specs.Keeping.{IsPlacedIn, KeepsClocked};

use crate::named::Named;
use f2b_base::{Bytes, Defs, What};
use f2b_world::{Disk, World};
use run_law::Status;
use run_steps::{Clocked, bring};
use std::alloc::Global;

// The configuration, where it is an input.
#[tactic(auto, using(crate::proofs::ConfigureLemmas::telling))]
fn input(clocked: &Clocked, defs: Defs) -> Option<What>
    requires { AreStorableDefs defs }
    ensures tells { TellsInput clocked.entry.now defs result }
    ensures jails { IsConfiguring defs clocked.entry.now.engine.core result }
    ensures storable { IfSome result IsStorableWhat }
{
    if clocked.engine.core().config_changes(&defs) {
        return Some(What::Config { defs });
    }
    None
}

/// Takes a configuration whose paths are found as an input, where it changes something: the lines of the last listing come first, and these
/// lines behind all that it tells.
#[tactic(auto, using(crate::proofs::ConfigureLemmas::taking, run_steps::proofs::StoredLemmas::storing, run_law::proofs::CauseLemmas::counting))]
pub fn configure<W: World + Disk>(
    alloc: Global,
    world: &mut W,
    named: Named,
    behind: &[Bytes],
) -> Result<Clocked, Status>
    requires storable { AreStorableDefs named.defs }
    requires placed { IsPlacedIn (W.stands world.old).told named.clocked }
    ensures ok { IfOk result (Brings KeepsClocked (W.stands world.old) (W.stands world.new) (configuring named.before named.defs behind.now) named.clocked) }
    ensures err { IfErr result (BringFails KeepsClocked (W.stands world.old) (W.stands world.new) (configuring named.before named.defs behind.now) named.clocked) }
    ensures cause { IfErr result (HasCause (W.stands world.old) (W.stands world.new)) }
    ensures steady { IsSteady (W.stands world.old) (W.stands world.new) }
    ensures placed { IfOk result (IsPlacedIn (W.stands world.new).told) }
    ensures jails { IfOk result (λ after. HasJails named.defs after.engine.core) }
    ensures places { IfOk result ArePlaces }
{
    let Named {
        clocked,
        defs,
        before,
    } = named;
    let what = input(&clocked, defs);
    let clocked = bring(alloc, world, clocked, before.as_slice(), what, behind)?;
    let _core = clocked.engine.core();
    Ok(clocked)
}
