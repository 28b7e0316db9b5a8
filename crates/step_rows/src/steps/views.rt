//! What is kept over a stop, and a server that goes on from it.
ghost use Rattle.std.specs.Prelude.{IfOk};
ghost use Rattle.f2b_model.specs.Bounds.{IsTakenInput};
ghost use Rattle.f2b_model.specs.Lists.{AllOf};
ghost use Rattle.f2b_model.specs.StorableViews.{IsStorableView};

use crate::steps::happens::{Happens, Who, input_of};
use crate::steps::pairs::{Pair, Stored, pair_of, view_of};
use crate::steps::play::{all_taken, opened, same, same_of};
use crate::steps::values::JAIL;
use f2b_base::{Input, JailView, Job, NoMemory, Seq, View};
use jail_core::view_after;
use std::alloc::Global;
use std::process::Abort;
use std::test::Fail;

const ALL: [(u32, Happens); 11] = [
    (
        1000,
        Happens::Configures("echo <ip> '<matches>'", "test -e /x", 5),
    ),
    (1000, Happens::Ends(0, 0)),
    // A ban is over, and one is active whose job failed once.
    (1001, Happens::Bans(Who::Eight)),
    (1001, Happens::Ends(1, 0)),
    (1002, Happens::UnbansAll),
    (1002, Happens::Ends(2, 0)),
    (1003, Happens::Bans(Who::Seven)),
    (1003, Happens::Ends(3, 1)),
    // Two failures with lines are open besides, the log was read to a place, and the jail is idle.
    (1003, Happens::Fails(Who::OfIpv6, 1003, "sshd[811]: a")),
    (1004, Happens::Fails(Who::OfIpv6, 1004, "sshd[812]: b")),
    (1005, Happens::Idles),
];

const THEN: [(u32, Happens); 3] = [
    // A third failure fills its address, the check of the job fails, and the ban from before ends.
    (1005, Happens::Fails(Who::OfIpv6, 1005, "sshd[813]: c")),
    (1005, Happens::CheckFails(3)),
    (1604, Happens::Ticks),
];

/// The inputs that these are.
#[tactic(auto, using(f2b_model::proofs::StorableLaneLemmas::all_both))]
fn inputs_of(alloc: Global, rows: &[(u32, Happens)]) -> Result<Seq<Input>, NoMemory>
    ensures { IfOk result (AllOf IsTakenInput) }
{
    let mut inputs = Seq::new(alloc);
    'rows: for (secs, happens) in rows {
        inputs.push(input_of(alloc, *secs, happens)?)?;
    }
    Ok(inputs)
}

/// The view after what comes then, from one before it.
fn kept_after(alloc: Global, view: &View) -> Result<View, NoMemory>
    requires { IsStorableView view.now }
{
    let inputs = inputs_of(alloc, &THEN)?;
    view_after(alloc, view, inputs.as_slice())
}

/// The jail is there and idle: how many failures, bans and bans that are over it has.
fn counts(jail: &JailView) -> (&str, bool, usize, usize, usize) {
    (
        jail.name.as_str(),
        jail.idle,
        jail.failures.len(),
        jail.bans.len(),
        jail.past.len(),
    )
}

/// How often a job was tried.
fn tries(job: &Job) -> (u64, u8) {
    (job.id, job.tries)
}

/// The view has it all.
fn expect_all(rt: &impl Abort, view: &View) {
    same(rt, &"jails", &view.jails.len(), &1);
    same(rt, &"jobs", &view.jobs.len(), &1);
    for jail in view.jails.as_slice() {
        same(rt, &"a jail", &counts(jail), &(JAIL, true, 2, 1, 1));
    }
    for job in view.jobs.as_slice() {
        same(rt, &"a job", &tries(job), &(3, 1));
    }
}

/// The view that is wanted behind what comes then, where it has it all before.
fn wanted(rt: &impl Abort, alloc: Global, view: Result<View, NoMemory>) -> Result<View, NoMemory>
    requires { IfOk view IsStorableView }
{
    let view = view?;
    expect_all(rt, &view);
    kept_after(alloc, &view)
}

/// What comes then is taken, and both have this view.
fn go_on<S: Stored>(
    rt: &impl Abort,
    alloc: Global,
    pair: Pair<S>,
    want: &View,
) -> Result<(), NoMemory>
    requires { S.is_storable pair.again }
{
    let pair = all_taken(rt, alloc, pair, &THEN)?;
    same_of(rt, &"then", view_of(rt, &pair), want)
}

fn goes_on(rt: &impl Abort, alloc: Global) -> Result<(), NoMemory> {
    let scene = all_taken(rt, alloc, opened(alloc), &ALL)?;
    let pair = pair_of(alloc, scene)?;
    let want = wanted(rt, alloc, view_of(rt, &pair))?;
    go_on(rt, alloc, pair, &want)
}

#[test]
fn a_core_that_is_made_of_a_view_goes_on_alike(rt: HostRuntime) -> Result<(), Fail> {
    goes_on(&rt, rt.alloc())?;
    Ok(())
}
