//! The lines of what a step told of lanes, each as a text and its stamp.
ghost use Rattle.std.specs.Prelude.{◌≡◌, IfOk};
ghost use Rattle.run_law.specs.Said.{command_text, cause_text, lane_text, job_text, failed_line, given_up_line, check_line, restart_line, lane_lines};

use crate::line::stamped;
use f2b_base::{Bytes, JobKind, LaneId, NoMemory, Outcome, Seq};
use f2b_model::LaneHappening;
use std::alloc::Global;

fn command_text(kind: JobKind) -> &'static [u8]
    ensures { result.now ≡ command_text kind }
{
    match kind {
        JobKind::Start => b"start",
        JobKind::Stop => b"stop",
        JobKind::Ban | JobKind::Reban => b"ban",
        JobKind::Unban => b"unban",
    }
}

fn status_text(alloc: Global, status: i64) -> Result<Bytes, NoMemory>
    ensures { IfOk result (λ text. text ≡ cause_text (Outcome.Status status)) }
{
    let digits = format!(in alloc; "{status}")?;
    let mut text = Bytes::from_slice(alloc, b"status ")?;
    text.push_slice(digits.as_bytes())?;
    Ok(text)
}

fn cause_text(alloc: Global, outcome: Outcome) -> Result<Bytes, NoMemory>
    ensures { IfOk result (λ text. text ≡ cause_text outcome) }
{
    match outcome {
        Outcome::Status(status) => status_text(alloc, status),
        Outcome::NotStarted => Bytes::from_slice(alloc, b"not started"),
        Outcome::TimedOut => Bytes::from_slice(alloc, b"timed out"),
    }
}

fn lane_text(alloc: Global, word: &[u8], lane: &LaneId) -> Result<Bytes, NoMemory>
    ensures { IfOk result (λ text. text ≡ lane_text word.now lane.now) }
{
    let mut text = Bytes::from_slice(alloc, word)?;
    text.push_slice(b" [")?;
    text.push_slice(lane.jail.as_str().as_bytes())?;
    text.push_slice(b"/")?;
    text.push_slice(lane.action.as_str().as_bytes())?;
    text.push_slice(b"] ")?;
    Ok(text)
}

fn job_text(alloc: Global, lane: &LaneId, kind: JobKind) -> Result<Bytes, NoMemory>
    ensures { IfOk result (λ text. text ≡ job_text lane.now kind) }
{
    let mut text = lane_text(alloc, b"ERROR", lane)?;
    text.push_slice(command_text(kind))?;
    Ok(text)
}

#[tactic(auto, unfolding(run_law::specs::Said::failed_line))]
fn failed_line(
    alloc: Global,
    now: u64,
    lane: &LaneId,
    kind: JobKind,
    outcome: Outcome,
) -> Result<Bytes, NoMemory>
    ensures { IfOk result (λ line. line ≡ failed_line now lane.now kind outcome) }
{
    let cause = cause_text(alloc, outcome)?;
    let mut text = job_text(alloc, lane, kind)?;
    text.push_slice(b" failed: ")?;
    text.push_slice(cause.as_slice())?;
    stamped(alloc, now, text.as_slice())
}

#[tactic(auto, unfolding(run_law::specs::Said::given_up_line))]
fn given_up_line(alloc: Global, now: u64, lane: &LaneId, kind: JobKind) -> Result<Bytes, NoMemory>
    ensures { IfOk result (λ line. line ≡ given_up_line now lane.now kind) }
{
    let mut text = job_text(alloc, lane, kind)?;
    text.push_slice(b" given up")?;
    stamped(alloc, now, text.as_slice())
}

#[tactic(auto, unfolding(run_law::specs::Said::check_line))]
fn check_line(alloc: Global, now: u64, lane: &LaneId, outcome: Outcome) -> Result<Bytes, NoMemory>
    ensures { IfOk result (λ line. line ≡ check_line now lane.now outcome) }
{
    let cause = cause_text(alloc, outcome)?;
    let mut text = lane_text(alloc, b"WARNING", lane)?;
    text.push_slice(b"check failed: ")?;
    text.push_slice(cause.as_slice())?;
    stamped(alloc, now, text.as_slice())
}

#[tactic(auto, unfolding(run_law::specs::Said::restart_line))]
fn restart_line(alloc: Global, now: u64, lane: &LaneId) -> Result<Bytes, NoMemory>
    ensures { IfOk result (λ line. line ≡ restart_line now lane.now) }
{
    let mut text = lane_text(alloc, b"INFO", lane)?;
    text.push_slice(b"restart")?;
    stamped(alloc, now, text.as_slice())
}

/// What a step did in a lane, as the lines of its second.
#[tactic(auto, unfolding(run_law::specs::Said::lane_lines))]
pub fn lane_lines(
    alloc: Global,
    now: u64,
    happening: &LaneHappening,
) -> Result<Seq<Bytes>, NoMemory>
    ensures { IfOk result (λ lines. lines ≡ lane_lines now happening.now) }
{
    let mut lines = Seq::new(alloc);
    match happening {
        LaneHappening::TryFails {
            lane,
            kind,
            outcome,
            last,
        } => {
            lines.push(failed_line(alloc, now, lane, *kind, *outcome)?)?;
            if *last {
                lines.push(given_up_line(alloc, now, lane, *kind)?)?;
            }
        }
        LaneHappening::CheckFails { lane, outcome } => {
            lines.push(check_line(alloc, now, lane, *outcome)?)?;
        }
        LaneHappening::Restarts { lane } => lines.push(restart_line(alloc, now, lane)?)?,
    }
    Ok(lines)
}
