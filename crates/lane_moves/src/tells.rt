//! What is told of tries and checks that failed.
ghost use Rattle.std.specs.Prelude.{◌≡◌, [], ◌∷◌, ◌++◌, if◌then◌else◌, OnOk};
ghost use Rattle.f2b_model.specs.LanesTold.{told_settled};
ghost use Rattle.f2b_model.specs.declared.lane_happening.LaneHappening.TheVariants.{CheckFails, Restarts};

use f2b_base::{Job, LaneId, NoMemory, Outcome, Plain, Seq, Settled};
use f2b_model::LaneHappening;

/// Tells what the ending of a try did to its job, where the try failed.
pub(crate) fn tell_try(
    told: &mut Seq<LaneHappening>,
    job: Job,
    outcome: Outcome,
    settled: Settled,
) -> Result<(), NoMemory>
    ensures { OnOk result (told.new ≡ told.old ++ told_settled outcome job settled) }
{
    let last = match settled {
        Settled::Done => return Ok(()),
        Settled::GivenUp => true,
        Settled::Again(_) => false,
    };
    told.push(LaneHappening::TryFails {
        lane: job.lane,
        kind: job.kind,
        outcome,
        last,
    })
}

/// Tells that the check of a lane failed, and that the lane starts anew where it does.
pub(crate) fn tell_check(
    told: &mut Seq<LaneHappening>,
    lane: &LaneId,
    outcome: Outcome,
    restarts: bool,
) -> Result<(), NoMemory>
    ensures { OnOk result (told.new ≡ told.old ++ CheckFails lane.now outcome ∷ (if restarts then Restarts lane.now ∷ [] else [])) }
{
    told.push(LaneHappening::CheckFails {
        lane: lane.copy()?,
        outcome,
    })?;
    if restarts {
        told.push(LaneHappening::Restarts { lane: lane.copy()? })?;
    }
    Ok(())
}
