//! What a step tells of the lanes, from which lines are made.

use f2b_base::{JobKind, LaneId, NoMemory, Outcome, Plain};

/// A thing that a step did in a lane.
#[derive(Debug, Drop, PartialEq, Eq)]
pub enum LaneHappening {
    /// A try of a job failed. Where it was the last, the job is given up.
    TryFails {
        lane: LaneId,
        kind: JobKind,
        outcome: Outcome,
        last: bool,
    },
    /// The check of the lane failed.
    CheckFails {
        lane: LaneId,
        outcome: Outcome,
    },
    /// The lane stops and starts anew, since its check failed.
    Restarts {
        lane: LaneId,
    },
}

impl Plain for LaneHappening {
    fn copy(&self) -> Result<LaneHappening, NoMemory> {
        match self {
            LaneHappening::TryFails {
                lane,
                kind,
                outcome,
                last,
            } => Ok(LaneHappening::TryFails {
                lane: lane.copy()?,
                kind: *kind,
                outcome: *outcome,
                last: *last,
            }),
            LaneHappening::CheckFails { lane, outcome } => Ok(LaneHappening::CheckFails {
                lane: lane.copy()?,
                outcome: *outcome,
            }),
            LaneHappening::Restarts { lane } => Ok(LaneHappening::Restarts { lane: lane.copy()? }),
        }
    }
}
