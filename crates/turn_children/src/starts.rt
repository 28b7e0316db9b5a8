//! The starts of a turn.
ghost use Rattle.std.specs.Prelude.{◌≡◌, ◌<◌, None, false, true, IfErr, IfOk};
ghost use Rattle.run_law.specs.Stages.{HasCause, IsSteady, Moves, MoveFails};
ghost use Rattle.run_law.specs.Turn.{to_end, to_starts};
ghost use Rattle.run_steps.specs.Keeping.{IsPlacedIn, KeepsRunning};
ghost use Rattle.turn_children.specs.Launches.{next_start};
ghost use Rattle.turn_children.specs.Starting.{checks_then};

use crate::launch::next_launch;
use crate::start::start;
use f2b_world::{Children, Disk, World};
use run_law::Status;
use run_steps::Running;
use std::alloc::Global;

// Starts one child after the other until nothing is left to start, or a check could not be started: that makes new jobs.
#[tactic(auto, using(crate::proofs::StartsLemmas::starts, run_law::proofs::CauseLemmas::counting))]
fn start_some<'f, W: World + Disk + Children>(
    alloc: Global,
    world: &mut W,
    running: Running<'f>,
) -> Result<(Running<'f>, bool), Status>
    requires placed { IsPlacedIn (W.stands world.old).told running.clocked }
    ensures ok { IfOk result (λ r. Moves KeepsRunning (W.stands world.old) (W.stands world.new) to_starts to_starts running.entry r.0) }
    ensures err { IfErr result (MoveFails KeepsRunning (W.stands world.old) (W.stands world.new) to_starts running.entry) }
    ensures cause { IfErr result (HasCause (W.stands world.old) (W.stands world.new)) }
    ensures steady { IsSteady (W.stands world.old) (W.stands world.new) }
    ensures fewer { IfOk result (λ r. r.1 ≡ true → checks_then r.0 < checks_then running.entry) }
    ensures done { IfOk result (λ r. r.1 ≡ false → next_start r.0 ≡ None) }
    ensures left { IfOk result (λ r. r.0.left ≡ running.entry.left) }
    ensures placed { IfOk result (λ r. IsPlacedIn (W.stands world.new).told r.0.clocked) }
{
    let mut running = running;
    'starts: while let Some(launch) = next_launch(&running)? {
        let (after, lost) = start(alloc, world, running, &launch)?;
        running = after;
        if lost {
            return Ok((running, true));
        }
    }
    Ok((running, false))
}

/// Starts commands, each with its check before it, as long as fewer than 16 run and a job is due.
#[tactic(auto, using(crate::proofs::StartsLemmas::starts, run_law::proofs::CauseLemmas::counting))]
pub fn start_children<'f, W: World + Disk + Children>(
    alloc: Global,
    world: &mut W,
    running: Running<'f>,
) -> Result<Running<'f>, Status>
    requires placed { IsPlacedIn (W.stands world.old).told running.clocked }
    ensures ok { IfOk result (Moves KeepsRunning (W.stands world.old) (W.stands world.new) to_starts to_end running.entry) }
    ensures err { IfErr result (MoveFails KeepsRunning (W.stands world.old) (W.stands world.new) to_starts running.entry) }
    ensures cause { IfErr result (HasCause (W.stands world.old) (W.stands world.new)) }
    ensures steady { IsSteady (W.stands world.old) (W.stands world.new) }
    ensures left { IfOk result (λ after. after.left ≡ running.entry.left) }
    ensures placed { IfOk result (λ after. IsPlacedIn (W.stands world.new).told after.clocked) }
{
    let mut running = running;
    'rounds: loop {
        let (after, lost) = start_some(alloc, world, running)?;
        running = after;
        if !lost {
            return Ok(running);
        }
    }
}
