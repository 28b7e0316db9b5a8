//! What a request makes happen, taken.
ghost use Rattle.std.specs.Prelude.{◌≡◌, [], IfErr, IfOk, IfSome};
ghost use Rattle.f2b_model.specs.Storable.{IsStorableWhat};
ghost use Rattle.run_law.specs.Stages.{Brings, BringFails, HasCause, IsSteady};
ghost use Rattle.run_steps.specs.Keeping.{IsPlacedIn, KeepsRunning, news_of};
ghost use Rattle.turn_clients.specs.Responding.{IsAskedFor};

use crate::search::{change_by, search_changed};
use f2b_base::{Bytes, What};
use f2b_world::{Disk, World};
use run_law::Status;
use run_steps::{Running, bring};
use std::alloc::Global;

/// Takes what happens by a request, if that is an input, and says what it tells and the lines behind that.
#[tactic(auto, using(crate::proofs::TakeLemmas::taking, run_law::proofs::CauseLemmas::counting, run_steps::proofs::BringLemmas::unbrought_cause, run_steps::proofs::StoredLemmas::storing))]
pub(crate) fn take<'f, W: World + Disk>(
    alloc: Global,
    world: &mut W,
    running: Running<'f>,
    what: Option<What>,
    behind: &[Bytes],
) -> Result<Running<'f>, Status>
    requires asked { IfSome what IsAskedFor }
    requires storable { IfSome what IsStorableWhat }
    requires placed { IsPlacedIn (W.stands world.old).told running.clocked }
    ensures ok { IfOk result (Brings KeepsRunning (W.stands world.old) (W.stands world.new) (news_of [] what behind.now) running.entry) }
    ensures err { IfErr result (BringFails KeepsRunning (W.stands world.old) (W.stands world.new) (news_of [] what behind.now) running.entry) }
    ensures cause { IfErr result (HasCause (W.stands world.old) (W.stands world.new)) }
    ensures steady { IsSteady (W.stands world.old) (W.stands world.new) }
    ensures clients { IfOk result (λ after. after.clients ≡ running.entry.clients) }
    ensures left { IfOk result (λ after. after.left ≡ running.entry.left) }
    ensures placed { IfOk result (λ after. IsPlacedIn (W.stands world.new).told after.clocked) }
{
    let Running {
        clocked,
        logs,
        children,
        clients,
        left,
    } = running;
    let change = change_by(&what)?;
    let clocked = bring(alloc, world, clocked, &[], what, behind)?;
    let logs = search_changed(alloc, logs, clocked.engine.core(), &change)?;
    Ok(Running {
        clocked,
        logs,
        children,
        clients,
        left,
    })
}
