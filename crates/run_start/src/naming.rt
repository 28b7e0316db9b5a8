//! Names in the place of wildcards.
ghost use Rattle.std.specs.Prelude.{◌≡◌, ◌<◌, ◌≤◌, ◌++◌, ◌∷◌, [], IfErr, IfOk, OnOk, length};
ghost use Rattle.log_follow.specs.Globs.{has_wildcard};
ghost use Rattle.run_law.specs.Paths.{expanded_path};
ghost use Rattle.run_law.specs.Stages.{HasCause, IsSteady};
ghost use Rattle.run_start.specs.Walks.{IsWild, WalkFails, WalksTo};
ghost use Rattle.run_steps.specs.Keeping.{IsPlacedIn};
ghost use Rattle.std.specs.Prelude.{true};

use crate::listing::{Listing, list};
use crate::path::JailPath;
use crate::paths::{push_watches, settle};
use crate::walk::PathWalk;
use f2b_base::{NoMemory, Seq, Text};
use f2b_world::{Directories, Disk, World};
use jail_conf::Settings;
use log_follow::expand_path;
use run_law::Status;
use run_steps::bring;
use std::alloc::Global;

// The paths that a path with a wildcard stands for, behind those that are found.
#[tactic(auto, using(crate::proofs::PathLemmas::expanding))]
fn push_expanded(
    alloc: Global,
    found: &mut Seq<JailPath>,
    path: &JailPath,
    names: &Seq<Text>,
) -> Result<(), NoMemory>
    requires { has_wildcard path.now.watch.path ≡ true }
    ensures { OnOk result (found.new ≡ found.old ++ expanded_path path.now names.now) }
{
    let watches = expand_path(alloc, path.watch(), names)?;
    push_watches(found, path.jail(), watches.as_slice())?;
    Ok(())
}

// The first of the paths that are left, and those behind it.
fn first_of(left: &[JailPath]) -> (&JailPath, &[JailPath])
    requires { 1 ≤ length left.now }
    ensures { left.now ≡ result.0.now ∷ result.1.now }
{
    (&left[0], &left[1..])
}

// Says the lines of the last listing, and lists the directory of the first path that is left.
#[tactic(auto, using(crate::proofs::WalkLemmas::naming, crate::proofs::FewLemmas::counting_paths, run_law::proofs::CauseLemmas::counting))]
fn name_next<'p, W: World + Directories + Disk>(
    alloc: Global,
    world: &mut W,
    settings: &Settings,
    walk: PathWalk<'p>,
) -> Result<PathWalk<'p>, Status>
    requires wild { IsWild walk.left.now }
    requires some { 1 ≤ length walk.left.now }
    requires placed { IsPlacedIn (W.stands world.old).told walk.clocked }
    ensures ok { IfOk result (WalksTo (W.stands world.old) (W.stands world.new) settings.now walk.entry) }
    ensures err { IfErr result (WalkFails (W.stands world.old) (W.stands world.new) settings.now walk.entry) }
    ensures cause { IfErr result (HasCause (W.stands world.old) (W.stands world.new)) }
    ensures steady { IsSteady (W.stands world.old) (W.stands world.new) }
    ensures placed { IfOk result (λ after. IsPlacedIn (W.stands world.new).told after.clocked) }
    ensures wild { IfOk result (λ after. IsWild after.left.now) }
    ensures shorter { IfOk result (λ after. length after.left.now < length walk.entry.left.now) }
{
    let PathWalk {
        clocked,
        mut found,
        left,
        before,
    } = walk;
    let (path, rest) = first_of(left);
    // What the last listing told comes before any other call.
    let clocked = bring(alloc, world, clocked, before.as_slice(), None, &[])?;
    let Listing { names, unread } = list(alloc, world, clocked.now, path)?;
    push_expanded(alloc, &mut found, path, &names)?;
    let left = settle(&mut found, rest)?;
    Ok(PathWalk {
        clocked,
        found,
        left,
        before: unread,
    })
}

/// Names all paths that are left, one after the other. Where none is left there is nothing that can fail.
#[tactic(auto, using(crate::proofs::WalkLemmas::walking_on, run_law::proofs::CauseLemmas::counting))]
pub fn name_all<'p, W: World + Directories + Disk>(
    alloc: Global,
    world: &mut W,
    settings: &Settings,
    walk: PathWalk<'p>,
) -> Result<PathWalk<'p>, Status>
    requires wild { IsWild walk.left.now }
    requires placed { IsPlacedIn (W.stands world.old).told walk.clocked }
    ensures ok { IfOk result (WalksTo (W.stands world.old) (W.stands world.new) settings.now walk.entry) }
    ensures err { IfErr result (WalkFails (W.stands world.old) (W.stands world.new) settings.now walk.entry) }
    ensures some { IfErr result (λ status. 1 ≤ length walk.entry.left.now) }
    ensures cause { IfErr result (HasCause (W.stands world.old) (W.stands world.new)) }
    ensures steady { IsSteady (W.stands world.old) (W.stands world.new) }
    ensures placed { IfOk result (λ after. IsPlacedIn (W.stands world.new).told after.clocked) }
    ensures whole { IfOk result (λ after. after.left.now ≡ []) }
{
    let mut walk = walk;
    'paths: while !walk.left.is_empty() {
        walk = name_next(alloc, world, settings, walk)?;
    }
    Ok(walk)
}
