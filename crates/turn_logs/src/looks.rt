//! The looks at all logs.
ghost use Rattle.std.specs.Prelude.{◌≡◌, IfErr, IfOk};
ghost use Rattle.run_law.specs.Stages.{HasCause, IsSteady, Moves, MoveFails};
ghost use Rattle.run_law.specs.Turn.{to_children, to_logs, to_looks};
ghost use Rattle.run_steps.specs.Keeping.{IsPlacedIn, KeepsRunning};

use crate::look::look_at;
use f2b_world::{Disk, World};
use run_law::Status;
use run_steps::Running;
use std::alloc::Global;

// Looks at each log of a jail that is not idle, from the first one on.
#[tactic(auto, using(crate::proofs::LoopLemmas::looks, run_law::proofs::CauseLemmas::counting))]
fn look_at_each<'f, W: World + Disk>(
    alloc: Global,
    world: &mut W,
    running: Running<'f>,
) -> Result<Running<'f>, Status>
    requires placed { IsPlacedIn (W.stands world.old).told running.clocked }
    ensures ok { IfOk result (Moves KeepsRunning (W.stands world.old) (W.stands world.new) (to_looks 0) to_children running.entry) }
    ensures err { IfErr result (MoveFails KeepsRunning (W.stands world.old) (W.stands world.new) (to_looks 0) running.entry) }
    ensures cause { IfErr result (HasCause (W.stands world.old) (W.stands world.new)) }
    ensures steady { IsSteady (W.stands world.old) (W.stands world.new) }
    ensures left { IfOk result (λ after. after.left ≡ running.entry.left) }
    ensures placed { IfOk result (λ after. IsPlacedIn (W.stands world.new).told after.clocked) }
{
    let mut running = running;
    let mut from = 0;
    'logs: while let Some(place) = running.logs.next(from) {
        running = look_at(alloc, world, running, place)?;
        from = place + 1;
    }
    Ok(running)
}

/// Looks at each log of a jail that is not idle, in order, and takes what is found. Once a stop was asked for no log is looked at.
#[tactic(auto, using(crate::proofs::LoopLemmas::logs, run_law::proofs::CauseLemmas::counting))]
pub fn look_at_logs<'f, W: World + Disk>(
    alloc: Global,
    world: &mut W,
    running: Running<'f>,
) -> Result<Running<'f>, Status>
    requires placed { IsPlacedIn (W.stands world.old).told running.clocked }
    ensures ok { IfOk result (Moves KeepsRunning (W.stands world.old) (W.stands world.new) to_logs to_children running.entry) }
    ensures err { IfErr result (MoveFails KeepsRunning (W.stands world.old) (W.stands world.new) to_logs running.entry) }
    ensures cause { IfErr result (HasCause (W.stands world.old) (W.stands world.new)) }
    ensures steady { IsSteady (W.stands world.old) (W.stands world.new) }
    ensures left { IfOk result (λ after. after.left ≡ running.entry.left) }
    ensures placed { IfOk result (λ after. IsPlacedIn (W.stands world.new).told after.clocked) }
{
    if running.clocked.engine.core().is_stopping() {
        return Ok(running);
    }
    let running = look_at_each(alloc, world, running)?;
    Ok(running)
}
