//! The jobs by id and the queues of ids, changed together.
ghost use Rattle.std.specs.Prelude.{◌≡◌, ◌<◌, None, OnOk, OnErr};
ghost use Rattle.std.specs.Option.{ForSome};
ghost use Rattle.f2b_base.specs.declared.job.Settled.TheVariants.{Again};
ghost use Rattle.f2b_model.specs.Jobs.{after_try};
ghost use Rattle.action_queue.specs.Index.{job_at, with_job};
ghost use Rattle.action_queue.specs.Queues.{AreQueues, Added, Dropped, SameIds, FollowsJob};
ghost use Rattle.action_queue.specs.Tries.{IfAgain};

use crate::queue::{Queue, add, drop_first};
use f2b_base::{Job, NoMemory, Settled};
use std::alloc::Global;
use std::collections::BTreeMap;

/// Puts the id of a job behind the others of the job's lane. After an error each lane has the ids that it had.
pub(crate) fn enter(
    alloc: Global,
    jobs: &BTreeMap<u64, Job>,
    queues: &mut Vec<Queue>,
    id: u64,
) -> Result<(), NoMemory>
    ensures ok { OnOk result (ForSome (job_at id jobs.now.entries) (λ job. Added job.lane id job.kind queues.old.items queues.new.items)) }
    ensures err { OnErr result (SameIds queues.old.items queues.new.items) }
{
    match jobs.get(&id) {
        Some(job) => add(alloc, queues, &job.lane, id, job.kind),
        None => Ok(()),
    }
}

/// Does to a lane's first job what the ending of its try did.
pub(crate) fn apply(
    jobs: &mut BTreeMap<u64, Job>,
    queues: &mut Vec<Queue>,
    id: u64,
    settled: Settled,
)
    requires { IfAgain settled (ForSome (job_at id jobs.old.entries) (λ job. job.tries < 2)) }
    ensures jobs { ForSome (job_at id jobs.old.entries) (λ job. jobs.new.entries ≡ with_job id (after_try job settled) jobs.old.entries) }
    ensures queues { ForSome (job_at id jobs.old.entries) (λ job. FollowsJob job.lane (after_try job settled) queues.old.items queues.new.items) }
{
    match settled {
        Settled::Again(due) => put_off(jobs, id, due),
        Settled::Done | Settled::GivenUp => {
            let _ = take_out(jobs, queues, id);
        }
    }
}

/// Adds a failed try to a job, which is due again at that moment.
fn put_off(jobs: &mut BTreeMap<u64, Job>, id: u64, due: u64)
    requires { ForSome (job_at id jobs.old.entries) (λ job. job.tries < 2) }
    ensures { ForSome (job_at id jobs.old.entries) (λ job. jobs.new.entries ≡ with_job id (after_try job (Again due)) jobs.old.entries) }
{
    match jobs.get_mut(&id) {
        Some(job) => {
            job.tries += 1;
            job.due = due;
        }
        None => {}
    }
}

/// Takes a job out, and the first id of its lane.
pub(crate) fn take_out(
    jobs: &mut BTreeMap<u64, Job>,
    queues: &mut Vec<Queue>,
    id: u64,
) -> Option<Job>
    ensures job { result ≡ job_at id jobs.old.entries }
    ensures jobs { jobs.new.entries ≡ with_job id None jobs.old.entries }
    ensures queues { ForSome (job_at id jobs.old.entries) (λ job. AreQueues queues.old.items → Dropped job.lane queues.old.items queues.new.items) }
{
    leave(jobs, queues, id);
    jobs.remove(&id)
}

/// Takes the first id of a job's lane out of its queue.
fn leave(jobs: &BTreeMap<u64, Job>, queues: &mut Vec<Queue>, id: u64)
    ensures { ForSome (job_at id jobs.now.entries) (λ job. AreQueues queues.old.items → Dropped job.lane queues.old.items queues.new.items) }
{
    match jobs.get(&id) {
        Some(job) => drop_first(queues, &job.lane),
        None => {}
    }
}
