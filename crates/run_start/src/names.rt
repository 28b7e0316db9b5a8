//! The paths of a configuration, with names in the place of wildcards.
ghost use Rattle.std.specs.Prelude.{◌≡◌, ◌≤◌, [], IfErr, IfOk, length};
ghost use Rattle.f2b_model.specs.Storable.{AreStorableDefs};
ghost use Rattle.jail_conf.specs.Laws.{AreWithinLimits};
ghost use Rattle.run_law.specs.Paths.{paths_of};
ghost use Rattle.run_law.specs.Stages.{HasCause, IsSteady};
ghost use Rattle.run_start.specs.Few.{AreFew};
ghost use Rattle.run_start.specs.Names.{HasFound, IsOfWalk, NameFails, Names};
ghost use Rattle.run_start.specs.Read.{IsFirstWalk};
ghost use Rattle.run_start.specs.Walks.{IsWild};
ghost use Rattle.run_steps.specs.Keeping.{IsPlacedIn};

use crate::found::with_paths;
use crate::named::Named;
use crate::naming::name_all;
use crate::path::JailPath;
use crate::paths::{paths_in, settle};
use crate::walk::PathWalk;
use f2b_base::{NoMemory, Seq};
use f2b_world::{Directories, Disk, World};
use jail_conf::Settings;
use run_law::Status;
use run_steps::Clocked;
use std::alloc::Global;

// The walk at its beginning: the first paths stand for themselves.
#[tactic(auto, using(crate::proofs::FewLemmas::counting_paths))]
fn first_walk<'p>(
    alloc: Global,
    settings: &Settings,
    clocked: Clocked,
    paths: &'p [JailPath],
) -> Result<PathWalk<'p>, NoMemory>
    requires paths { paths.now ≡ paths_of settings.now.defs }
    requires few { AreFew [] paths.now }
    ensures walk { IfOk result (IsFirstWalk settings.now clocked) }
    ensures wild { IfOk result (λ walk. IsWild walk.left.now) }
    ensures some { IfErr result (λ lost. 1 ≤ length paths.now) }
{
    let mut found = Seq::new(alloc);
    let left = settle(&mut found, paths)?;
    Ok(PathWalk {
        clocked,
        found,
        left,
        before: Seq::new(alloc),
    })
}

// The configuration at the end of the walk.
#[tactic(auto, using(crate::proofs::FewLemmas::counting_paths))]
fn named(alloc: Global, settings: &Settings, walk: PathWalk<'_>) -> Result<Named, NoMemory>
    requires whole { walk.left.now ≡ [] }
    requires storable { AreStorableDefs settings.now.defs }
    ensures is { IfOk result (IsOfWalk settings.now walk.entry) }
    ensures storable { IfOk result (λ named. AreStorableDefs named.defs) }
{
    let PathWalk {
        clocked,
        found,
        left: _,
        before,
    } = walk;
    let defs = with_paths(alloc, &settings.defs, found.as_slice())?;
    Ok(Named {
        clocked,
        defs,
        before,
    })
}

/// Lists the directory of each path of a configuration that has wildcards, one after the other, and puts the names in their place.
#[tactic(auto, using(crate::proofs::NamesLemmas::naming_all, crate::proofs::FewLemmas::counting_paths, run_law::proofs::CauseLemmas::counting))]
pub fn name_paths<W: World + Directories + Disk>(
    alloc: Global,
    world: &mut W,
    settings: &Settings,
    clocked: Clocked,
) -> Result<Named, Status>
    requires storable { AreStorableDefs settings.now.defs }
    requires limits { AreWithinLimits settings.now.defs }
    requires placed { IsPlacedIn (W.stands world.old).told clocked }
    // Whoever reads: the start of a run, or a client that asked for it.
    ensures ok { IfOk result (Names (W.stands world.old) (W.stands world.new) settings.now clocked) }
    ensures err { IfErr result (NameFails (W.stands world.old) (W.stands world.new) settings.now clocked) }

    ensures cause { IfErr result (HasCause (W.stands world.old) (W.stands world.new)) }
    ensures steady { IsSteady (W.stands world.old) (W.stands world.new) }
    ensures placed { IfOk result (λ named. IsPlacedIn (W.stands world.new).told named.clocked) }
    ensures found { IfOk result (λ named. HasFound settings.now.defs named.defs) }
    ensures storable { IfOk result (λ named. AreStorableDefs named.defs) }
{
    let paths = paths_in(alloc, settings.defs.jails.as_slice())?;
    let walk = first_walk(alloc, settings, clocked, paths.as_slice())?;
    let walk = name_all(alloc, world, settings, walk)?;
    let named = named(alloc, settings, walk)?;
    Ok(named)
}
