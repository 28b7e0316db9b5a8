//! What takes inputs, and scenes on which rows are played step by step.
ghost use Rattle.std.specs.Prelude.{◌≡◌, IfOk};
ghost use Rattle.f2b_model.specs.Bounds.{IsTakenInput};
ghost use Rattle.f2b_model.specs.Storable.{IsStorable, IsStorableInput};

use crate::steps::happens::{Happens, input_of};
use crate::steps::told::lines;
use f2b_base::{Input, NoMemory, Seq, Text};
use f2b_model::Told;
use jail_core::Core;
use std::alloc::Global;
use std::fmt::Debug;
use std::process::Abort;

/// Fails at this place unless what was seen is what is wanted.
pub(crate) fn same<A: Debug, T: PartialEq + Debug>(rt: &impl Abort, at: &A, saw: &T, want: &T) {
    assert!(rt; *saw == *want, "at {at:?}: {saw:?}, not {want:?}");
}

/// The same, of what takes memory.
pub(crate) fn same_of<A: Debug, T: PartialEq + Debug + Drop>(
    rt: &impl Abort,
    at: &A,
    saw: Result<T, NoMemory>,
    want: &T,
) -> Result<(), NoMemory> {
    let saw = saw?;
    same(rt, at, &saw, want);
    Ok(())
}

/// What takes inputs, one after the other.
pub(crate) trait Takes: Drop {
    ghost is_storable: { Self → Type 0 };

    fn taken(self, rt: &impl Abort, input: &Input) -> Result<Self, NoMemory>
        requires { IsTakenInput input.now }
        ensures { is_storable self → IsStorableInput input.now → IfOk result is_storable };
}

/// What becomes of it where something happens at a second.
fn taken_at<M: Takes>(
    rt: &impl Abort,
    alloc: Global,
    machine: M,
    secs: u32,
    happens: &Happens,
) -> Result<M, NoMemory>
    ensures { M.is_storable machine → IfOk result M.is_storable }
{
    let input = input_of(alloc, secs, happens)?;
    machine.taken(rt, &input)
}

/// What becomes of it where all this happens, each at its second.
pub(crate) fn all_taken<M: Takes>(
    rt: &impl Abort,
    alloc: Global,
    machine: M,
    inputs: &[(u32, Happens)],
) -> Result<M, NoMemory>
    requires { M.is_storable machine }
    ensures { IfOk result M.is_storable }
{
    let mut machine = machine;
    'inputs: for (secs, happens) in inputs {
        machine = taken_at(rt, alloc, machine, *secs, happens)?;
    }
    Ok(machine)
}

impl Takes for Core {
    ghost is_storable = { IsStorable };

    fn taken(self, _rt: &impl Abort, input: &Input) -> Result<Core, NoMemory> {
        let (core, _told) = self.take(input)?;
        Ok(core)
    }
}

/// The core after all this happened to an empty one, each at its second.
pub(crate) fn after(
    rt: &impl Abort,
    alloc: Global,
    inputs: &[(u32, Happens)],
) -> Result<Core, NoMemory>
    ensures { IfOk result IsStorable }
{
    all_taken(rt, alloc, Core::empty(alloc), inputs)
}

/// How many jails a view has, how many lanes are up, and whether the server stops.
#[derive(Clone, Copy, Debug, PartialEq, Eq)]
pub(crate) struct Kept {
    pub jails: usize,
    pub up: usize,
    pub stopping: bool,
}

/// One thing that happens to a core, or that is expected of it.
#[derive(Clone, Copy)]
pub(crate) enum Step {
    /// Something happens at a second.
    At(u32, Happens),
    /// The jobs that are not settled.
    Jobs(&'static str),
    /// What the last input told of the lanes.
    Lanes(&'static str),
    /// What it told of the jails.
    Jails(&'static str),
    /// The check that is run before a try of a job.
    CheckOf(u64, Option<&'static str>),
    /// The command of the check, with its values.
    CheckText(u64, &'static str),
    /// Whether a job may start at a second.
    JobDue(u64, bool),
    /// Whether a job is still to be done.
    JobLeft(u64, bool),
    /// Whether a ban is due at a moment.
    BanDue(u64, bool),
    /// The moment.
    Now(u64),
    /// How many jails the configuration has.
    Configured(usize),
    /// What a view has.
    Keeps(Kept),
    /// Whether ids are used up.
    Spent(bool),
}

fn jobs(alloc: Global, core: &Core) -> Result<String, NoMemory> {
    let jobs = core.lanes().jobs(alloc)?;
    lines(alloc, jobs.as_slice())
}

fn keeps(core: &Core) -> Result<Kept, NoMemory> {
    let view = core.view()?;
    Ok(Kept {
        jails: view.jails.len(),
        up: view.up.len(),
        stopping: view.stopping,
    })
}

fn configured(core: &Core) -> Result<usize, NoMemory> {
    let defs = core.defs()?;
    Ok(defs.jails.len())
}

fn is_text(
    rt: &impl Abort,
    text: Result<String, NoMemory>,
    want: &'static str,
) -> Result<(), NoMemory> {
    let text = text?;
    same(rt, &"a text", &text.as_str(), &want);
    Ok(())
}

fn shown(text: &Option<Text>) -> Option<&str> {
    match text {
        Some(text) => Some(text.as_str()),
        None => None,
    }
}

fn is_check(
    rt: &impl Abort,
    job: u64,
    text: Result<Option<Text>, NoMemory>,
    want: &'static str,
) -> Result<(), NoMemory> {
    let text = text?;
    same(rt, &job, &shown(&text), &Some(want));
    Ok(())
}

/// What is seen of a core without memory.
fn see_core(rt: &impl Abort, core: &Core, step: &Step) {
    match *step {
        Step::CheckOf(job, want) => same(rt, &job, &core.check_of(job), &want),
        Step::JobDue(at, want) => {
            same(rt, &at, &core.lanes().next_due(at, &[]).is_some(), &want);
        }
        Step::JobLeft(job, want) => same(rt, &job, &core.lanes().find(job).is_some(), &want),
        Step::BanDue(at, want) => same(rt, &at, &core.ban_due(at), &want),
        Step::Now(want) => same(rt, &"now", &core.now(), &want),
        Step::Spent(want) => same(rt, &"spent", &core.spent(), &want),
        _ => (),
    }
}

/// What is seen of a core, and of what its last input told.
fn see(
    rt: &impl Abort,
    alloc: Global,
    core: &Core,
    told: &Told,
    step: &Step,
) -> Result<(), NoMemory> {
    match *step {
        Step::Jobs(want) => is_text(rt, jobs(alloc, core), want),
        Step::Lanes(want) => is_text(rt, lines(alloc, told.lanes.as_slice()), want),
        Step::Jails(want) => is_text(rt, lines(alloc, told.jails.as_slice()), want),
        Step::CheckText(job, want) => is_check(rt, job, core.check_text(job), want),
        Step::Configured(want) => same_of(rt, &"configured", configured(core), &want),
        Step::Keeps(want) => same_of(rt, &"a view", keeps(core), &want),
        _ => {
            see_core(rt, core, step);
            Ok(())
        }
    }
}

/// Where steps are played.
trait Stage: Takes {
    fn see(&self, rt: &impl Abort, alloc: Global, step: &Step) -> Result<(), NoMemory>;
}

/// A core, and what its last input told.
#[derive(Drop)]
pub(crate) struct Scene {
    pub core: Core,
    pub told: Told,
}

impl Takes for Scene {
    ghost is_storable = { λ scene. IsStorable scene.core };

    fn taken(self, _rt: &impl Abort, input: &Input) -> Result<Scene, NoMemory> {
        let (core, told) = self.core.take(input)?;
        Ok(Scene { core, told })
    }
}

impl Stage for Scene {
    fn see(&self, rt: &impl Abort, alloc: Global, step: &Step) -> Result<(), NoMemory> {
        see(rt, alloc, &self.core, &self.told, step)
    }
}

/// A core that took nothing yet.
pub(crate) fn scene_of(alloc: Global, core: Core) -> Scene
    ensures { result.core ≡ core }
{
    let told = Told {
        jails: Seq::new(alloc),
        lanes: Seq::new(alloc),
    };
    Scene { core, told }
}

/// An empty core.
pub(crate) fn opened(alloc: Global) -> Scene
    ensures { IsStorable result.core }
{
    scene_of(alloc, Core::empty(alloc))
}

fn stepped<S: Stage>(rt: &impl Abort, alloc: Global, scene: S, step: &Step) -> Result<S, NoMemory> {
    if let Step::At(secs, happens) = step {
        return taken_at(rt, alloc, scene, *secs, happens);
    }
    scene.see(rt, alloc, step)?;
    Ok(scene)
}

fn play_on<S: Stage>(
    rt: &impl Abort,
    alloc: Global,
    scene: S,
    steps: &[Step],
) -> Result<(), NoMemory> {
    let mut scene = scene;
    for step in steps {
        scene = stepped(rt, alloc, scene, step)?;
    }
    Ok(())
}

/// Takes these steps, one after the other, from an empty core on.
pub(crate) fn play(rt: &impl Abort, alloc: Global, steps: &[Step]) -> Result<(), NoMemory> {
    play_on(rt, alloc, opened(alloc), steps)
}

/// The same once all this happened.
pub(crate) fn play_after(
    rt: &impl Abort,
    alloc: Global,
    inputs: &[(u32, Happens)],
    steps: &[Step],
) -> Result<(), NoMemory> {
    let scene = all_taken(rt, alloc, opened(alloc), inputs)?;
    play_on(rt, alloc, scene, steps)
}
