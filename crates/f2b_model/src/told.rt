//! All that a step tells.

use crate::happening::Happening;
use crate::lane_happening::LaneHappening;
use f2b_base::Seq;

/// What a step tells, in its order: first of the jails, then of the lanes.
#[derive(Debug, Drop, PartialEq, Eq)]
pub struct Told {
    pub jails: Seq<Happening>,
    pub lanes: Seq<LaneHappening>,
}
