//! The commands of an action.
ghost use Rattle.std.specs.Prelude.{◌≡◌, IfOk};
ghost use Rattle.f2b_model.specs.Orders.{template};
ghost use Rattle.lane_moves.specs.CheckText.{check_text};

use crate::fills::lane_fill;
use f2b_base::{ActionDef, JobKind, NoMemory, Text, UpLane};
use std::alloc::Global;
use tag_subst::render;

/// The template of a kind of job.
pub(crate) fn template(kind: JobKind, action: &ActionDef) -> &str
    ensures { result.now ≡ template kind action.now }
{
    match kind {
        JobKind::Start => action.start.as_str(),
        JobKind::Stop => action.stop.as_str(),
        JobKind::Ban | JobKind::Reban => action.ban.as_str(),
        JobKind::Unban => action.unban.as_str(),
    }
}

/// The command of the check of a lane that is up.
pub(crate) fn check_text(alloc: Global, lane: &UpLane) -> Result<Text, NoMemory>
    ensures { IfOk result (λ text. text ≡ check_text lane.now) }
{
    let fill = lane_fill(alloc, lane.action.family);
    render(alloc, lane.action.check.as_str(), &fill)
}
