//! The lines of what a step told.
ghost use Rattle.std.specs.Prelude.{◌≡◌, ◌++◌, IfOk, OnOk, flat_map, map};
ghost use Rattle.run_law.specs.Said.{line_of, lane_lines, lines_of};

use crate::lane_line::lane_lines;
use crate::line::happening_line;
use f2b_base::{Bytes, NoMemory, Plain, Seq};
use f2b_model::{Happening, LaneHappening, Told};
use std::alloc::Global;

// The lines of the jails behind what stands there.
#[tactic(auto, using(crate::proofs::ToldLemmas::map_take_more))]
fn push_jails(
    alloc: Global,
    lines: &mut Seq<Bytes>,
    now: u64,
    jails: &[Happening],
) -> Result<(), NoMemory>
    ensures { OnOk result (lines.new ≡ lines.old ++ map (line_of now) jails.now) }
{
    for happening in jails {
        lines.push(happening_line(alloc, now, happening)?)?;
    }
    Ok(())
}

/// These lines behind what stands there.
#[tactic(auto, using(crate::proofs::ToldLemmas::take_one))]
pub fn push_lines(lines: &mut Seq<Bytes>, more: &[Bytes]) -> Result<(), NoMemory>
    ensures { OnOk result (lines.new ≡ lines.old ++ more.now) }
{
    for line in more {
        lines.push(line.copy()?)?;
    }
    Ok(())
}

// The lines of the lanes behind what stands there.
#[tactic(auto, using(crate::proofs::ToldLemmas::flat_take_more))]
fn push_lanes(
    alloc: Global,
    lines: &mut Seq<Bytes>,
    now: u64,
    lanes: &[LaneHappening],
) -> Result<(), NoMemory>
    ensures { OnOk result (lines.new ≡ lines.old ++ flat_map (lane_lines now) lanes.now) }
{
    for happening in lanes {
        let more = lane_lines(alloc, now, happening)?;
        push_lines(lines, more.as_slice())?;
    }
    Ok(())
}

/// The lines of what a step told, behind what stands there: those of the jails, and then those of the lanes.
#[tactic(auto, unfolding(run_law::specs::Said::lines_of))]
pub fn push_told(
    alloc: Global,
    lines: &mut Seq<Bytes>,
    now: u64,
    told: &Told,
) -> Result<(), NoMemory>
    ensures { OnOk result (lines.new ≡ lines.old ++ lines_of now told.now) }
{
    push_jails(alloc, lines, now, told.jails.as_slice())?;
    push_lanes(alloc, lines, now, told.lanes.as_slice())?;
    Ok(())
}
