//! The pause of a turn.
ghost use Rattle.std.specs.Prelude.{◌≡◌, ◌<◌, ◌+◌};
ghost use Rattle.run_law.specs.Stages.{IsSteady, Moves, MoveFails};
ghost use Rattle.run_law.specs.Turn.{at_pause};
ghost use Rattle.run_law.specs.declared.status.Status.TheVariants.{TurnsSpent as AllTurns};
ghost use Rattle.run_steps.specs.Keeping.{IsPlacedIn, KeepsRunning};
ghost use Rattle.server_top.specs.Ticks.{at_clock};

use f2b_world::Time;
use run_steps::Running;

/// How long a pause is, in milliseconds.
const PAUSE: u32 = 250;

/// The pause of a turn that is not the last.
#[tactic(auto, using(crate::proofs::PauseLemmas::pausing, run_law::proofs::CauseLemmas::counting, run_law::proofs::CauseLemmas::placing))]
pub fn pause<'f, W: Time>(world: &mut W, running: Running<'f>) -> Running<'f>
    requires left { 1 < running.left }
    requires placed { IsPlacedIn (W.stands world.old).told running.clocked }
    ensures moves { Moves KeepsRunning (W.stands world.old) (W.stands world.new) at_pause at_clock running.entry result }
    ensures steady { IsSteady (W.stands world.old) (W.stands world.new) }
    ensures left { result.left + 1 ≡ running.entry.left }
    ensures placed { IsPlacedIn (W.stands world.new).told result.clocked }
{
    world.pause(PAUSE);
    let Running {
        clocked,
        logs,
        children,
        clients,
        left,
    } = running;
    Running {
        clocked,
        logs,
        children,
        clients,
        left: left - 1,
    }
}

/// The pause of the last turn, which ends the run.
#[tactic(auto, using(crate::proofs::PauseLemmas::pausing, run_law::proofs::CauseLemmas::counting))]
pub fn last_pause<W: Time>(world: &mut W, running: Running<'_>)
    requires { running.left ≡ 1 }
    ensures fails { MoveFails KeepsRunning (W.stands world.old) (W.stands world.new) at_pause running.entry AllTurns }
    ensures steady { IsSteady (W.stands world.old) (W.stands world.new) }
{
    let _running = running;
    world.pause(PAUSE);
}
