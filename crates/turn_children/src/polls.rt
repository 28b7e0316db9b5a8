//! The polls of all children.
ghost use Rattle.std.specs.Prelude.{◌≡◌, IfErr, IfOk};
ghost use Rattle.run_law.specs.Stages.{HasCause, IsSteady, Moves, MoveFails};
ghost use Rattle.run_law.specs.Turn.{to_accept, to_children};
ghost use Rattle.run_steps.specs.Keeping.{IsPlacedIn, KeepsRunning};

use crate::poll::poll;
use f2b_world::{Children, Disk, World};
use run_law::Status;
use run_steps::Running;
use std::alloc::Global;

/// Asks each command that runs once whether it has ended, by the numbers of their jobs, and ends those that are late.
#[tactic(auto, using(crate::proofs::PollsLemmas::polls, run_law::proofs::CauseLemmas::counting))]
pub fn poll_children<'f, W: World + Disk + Children>(
    alloc: Global,
    world: &mut W,
    running: Running<'f>,
) -> Result<Running<'f>, Status>
    requires placed { IsPlacedIn (W.stands world.old).told running.clocked }
    ensures ok { IfOk result (Moves KeepsRunning (W.stands world.old) (W.stands world.new) to_children to_accept running.entry) }
    ensures err { IfErr result (MoveFails KeepsRunning (W.stands world.old) (W.stands world.new) to_children running.entry) }
    ensures cause { IfErr result (HasCause (W.stands world.old) (W.stands world.new)) }
    ensures steady { IsSteady (W.stands world.old) (W.stands world.new) }
    ensures left { IfOk result (λ after. after.left ≡ running.entry.left) }
    ensures placed { IfOk result (λ after. IsPlacedIn (W.stands world.new).told after.clocked) }
{
    let mut running = running;
    let mut place = 0;
    'children: while place < running.children.count() {
        let (after, next) = poll(alloc, world, running, place)?;
        running = after;
        place = next;
    }
    Ok(running)
}
