//! What the ending of a try makes of its job.
ghost use Rattle.std.specs.Prelude.{◌≡◌, ◌<◌, ◌≤◌};
ghost use Rattle.f2b_base.specs.Limits.{last_moment};
ghost use Rattle.f2b_model.specs.Jobs.{is_success, capped, wait_after, settled_as};
ghost use Rattle.action_queue.specs.Tries.{ending_of, IfAgain};

use f2b_base::{Job, LAST_MOMENT, Outcome, Settled};

/// How many failed tries a job may have and be tried again.
const MAX_FAILED: u8 = 2;

/// What the ending of a try of the job, at `now` in seconds since 1970, does to it.
pub(crate) fn settled_as(job: &Job, id: u64, outcome: Outcome, now: u64) -> Settled
    requires { now ≤ last_moment }
    ensures value { result ≡ settled_as (ending_of id outcome now) job.now }
    ensures few { IfAgain result (job.now.tries < 2) }
{
    if is_success(outcome) {
        return Settled::Done;
    }
    if job.tries >= MAX_FAILED {
        return Settled::GivenUp;
    }
    Settled::Again(capped(now + wait_after(job.tries)))
}

/// Whether the try succeeded: its command ended with status 0.
pub fn is_success(outcome: Outcome) -> bool
    ensures { result ≡ is_success outcome }
{
    match outcome {
        Outcome::Status(status) => status == 0,
        Outcome::NotStarted => false,
        Outcome::TimedOut => false,
    }
}

/// The moment, or the last one where it is later.
fn capped(moment: u64) -> u64
    ensures { result ≡ capped moment }
{
    moment.min(LAST_MOMENT)
}

/// How many seconds a job waits after a failed try, by the failed tries before it.
fn wait_after(tries: u8) -> u64
    ensures value { result ≡ wait_after tries }
    ensures few { result ≤ 4 }
{
    if tries == 0 { 2 } else { 4 }
}
