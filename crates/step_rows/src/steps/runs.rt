//! Runs of pseudo-random inputs, and the laws that hold of what they do.
ghost use Rattle.std.specs.Prelude.{IfOk};
ghost use Rattle.f2b_model.specs.Bounds.{IsTakenInput};
ghost use Rattle.f2b_model.specs.Storable.{IsStorableInput};

use crate::steps::inputs::Source;
use crate::steps::pairs::{Pair, Stored, made_anew, pair_of};
use crate::steps::play::{Scene, Takes, opened, same};
use f2b_base::{Addr, Ban, Input, Job, JobKind, LaneId, NoMemory, Plain, Seq, View};
use f2b_model::{Happening, LaneHappening};
use std::alloc::Global;
use std::process::Abort;
use std::test::Fail;

/// An epoch of a lane that runs, and with an address that its last job there banned it.
#[derive(Drop)]
struct Running {
    lane: LaneId,
    addr: Option<Addr>,
}

/// What was seen of a run so far.
#[derive(Drop)]
struct Seen {
    next_ban: u64,
    next_job: u64,
    running: Seq<Running>,
    begun: u64,
    restarts: u64,
}

impl Running {
    fn is(&self, lane: &LaneId, addr: Option<Addr>) -> bool {
        self.lane == *lane && self.addr == addr
    }
}

fn count_of(bans: &[Ban], addr: Addr) -> usize {
    bans.iter().filter(|ban| ban.addr == addr).count()
}

/// No address is banned twice.
fn expect_once_each(rt: &impl Abort, bans: &[Ban]) {
    for ban in bans {
        same(rt, ban, &count_of(bans, ban.addr), &1);
    }
}

/// Whether the epoch of a job's lane runs, and whether the last job of its address there banned it, as they are before the job.
fn wanted(kind: JobKind) -> (bool, bool) {
    match kind {
        JobKind::Start => (false, false),
        JobKind::Ban | JobKind::Reban => (true, false),
        JobKind::Unban | JobKind::Stop => (true, true),
    }
}

impl Seen {
    fn new(alloc: Global) -> Seen {
        Seen {
            next_ban: 0,
            next_job: 0,
            running: Seq::new(alloc),
            begun: 0,
            restarts: 0,
        }
    }

    /// Serials rise from ban to ban.
    fn see_ban(&mut self, rt: &impl Abort, ban: &Ban) {
        same(rt, ban, &(ban.serial >= self.next_ban), &true);
        self.next_ban = ban.serial.saturating_add(1);
        self.begun = self.begun.saturating_add(1);
    }

    fn see_bans(&mut self, rt: &impl Abort, told: &[Happening]) {
        for happening in told {
            if let Happening::Begins { ban, .. } = happening {
                self.see_ban(rt, ban);
            }
        }
    }

    fn see_restarts(&mut self, told: &[LaneHappening]) {
        for happening in told {
            if let LaneHappening::Restarts { .. } = happening {
                self.restarts = self.restarts.saturating_add(1);
            }
        }
    }

    fn runs(&self, lane: &LaneId, addr: Option<Addr>) -> bool {
        let running = self.running.as_slice();
        running.iter().any(|open| open.is(lane, addr))
    }

    fn begin(&mut self, job: &Job) -> Result<(), NoMemory> {
        let lane = job.lane.copy()?;
        self.running.push(Running {
            lane,
            addr: job.addr,
        })
    }

    fn end(&mut self, job: &Job) {
        self.running.retain(|open| !open.is(&job.lane, job.addr));
    }

    fn end_all(&mut self, lane: &LaneId) {
        self.running.retain(|open| open.lane != *lane);
    }

    /// An epoch runs from a Start to the next Stop. In it a Ban or a Reban and an Unban of an address go in turn, and no other job of
    /// an address is there.
    fn see_job(&mut self, rt: &impl Abort, job: &Job) -> Result<(), NoMemory> {
        let runs = self.runs(&job.lane, None);
        let banned = self.runs(&job.lane, job.addr);
        same(rt, job, &(runs, banned), &wanted(job.kind));
        match job.kind {
            JobKind::Start | JobKind::Ban | JobKind::Reban => self.begin(job)?,
            JobKind::Unban => self.end(job),
            JobKind::Stop => self.end_all(&job.lane),
        }
        Ok(())
    }

    /// Ids rise from job to job.
    fn see_jobs(&mut self, rt: &impl Abort, jobs: &[Job]) -> Result<(), NoMemory> {
        let mut last = None;
        for job in jobs {
            same(rt, job, &(last < Some(job.id)), &true);
            last = Some(job.id);
            if job.id >= self.next_job {
                self.see_job(rt, job)?;
            }
        }
        Ok(())
    }

    fn see_view(&mut self, rt: &impl Abort, view: &View) -> Result<(), NoMemory> {
        for jail in view.jails.as_slice() {
            expect_once_each(rt, jail.bans.as_slice());
        }
        self.see_jobs(rt, view.jobs.as_slice())?;
        same(rt, &view.next_job, &(view.next_job >= self.next_job), &true);
        self.next_job = view.next_job;
        Ok(())
    }

    /// What an input told, and the core after it.
    fn see(&mut self, rt: &impl Abort, scene: &Scene) -> Result<(), NoMemory> {
        self.see_bans(rt, scene.told.jails.as_slice());
        self.see_restarts(scene.told.lanes.as_slice());
        let view = scene.core.view()?;
        self.see_view(rt, &view)
    }

    /// Much was seen.
    fn is_much(&self) -> bool {
        self.begun > 100 && self.restarts > 15 && self.next_job > 500
    }
}

/// What goes on by the inputs of a source.
trait Runs: Stored {
    fn next(&self, source: &mut Source) -> Result<Input, NoMemory>
        ensures taken { IfOk result IsTakenInput }
        ensures storable { IfOk result IsStorableInput };

    fn see(&self, rt: &impl Abort, seen: &mut Seen) -> Result<(), NoMemory>;
}

impl Runs for Scene {
    fn next(&self, source: &mut Source) -> Result<Input, NoMemory> {
        source.next_input(&self.core)
    }

    fn see(&self, rt: &impl Abort, seen: &mut Seen) -> Result<(), NoMemory> {
        seen.see(rt, self)
    }
}

/// An input is taken, and seen.
fn step<S: Runs>(
    rt: &impl Abort,
    pair: Pair<S>,
    source: &mut Source,
    seen: &mut Seen,
) -> Result<Pair<S>, NoMemory>
    ensures { S.is_storable pair.again → IfOk result (λ next. S.is_storable next.again) }
{
    let input = pair.first.next(source)?;
    let pair = pair.taken(rt, &input)?;
    pair.first.see(rt, seen)?;
    Ok(pair)
}

/// Fifty inputs are taken, and the second one is made anew.
fn fifty_steps<S: Runs>(
    rt: &impl Abort,
    alloc: Global,
    pair: Pair<S>,
    source: &mut Source,
    seen: &mut Seen,
) -> Result<Pair<S>, NoMemory>
    requires { S.is_storable pair.again }
    ensures { IfOk result (λ next. S.is_storable next.again) }
{
    let mut pair = pair;
    for _ in 0..50 {
        pair = step(rt, pair, source, seen)?;
    }
    made_anew(rt, alloc, pair)
}

/// Two thousand are.
fn all_steps<S: Runs>(
    rt: &impl Abort,
    alloc: Global,
    pair: Pair<S>,
    source: &mut Source,
    seen: &mut Seen,
) -> Result<(), NoMemory>
    requires { S.is_storable pair.again }
{
    let mut pair = pair;
    for _ in 0..40 {
        pair = fifty_steps(rt, alloc, pair, source, seen)?;
    }
    Ok(())
}

fn keep_the_laws(rt: &impl Abort, alloc: Global) -> Result<(), NoMemory> {
    let mut source = Source::new(alloc, 1, 1_700_000_000);
    let mut seen = Seen::new(alloc);
    let pair = pair_of(alloc, opened(alloc))?;
    all_steps(rt, alloc, pair, &mut source, &mut seen)?;
    same(rt, &"much was seen", &seen.is_much(), &true);
    Ok(())
}

#[test]
fn two_thousand_inputs_keep_the_laws(rt: HostRuntime) -> Result<(), Fail> {
    keep_the_laws(&rt, rt.alloc())?;
    Ok(())
}
