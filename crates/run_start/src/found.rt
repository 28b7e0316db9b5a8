//! The configuration with the paths that were found.
ghost use Rattle.std.specs.Prelude.{◌≡◌, ◌++◌, [], IfOk, OnOk, map};
ghost use Rattle.f2b_model.specs.Storable.{AreStorableDefs};
ghost use Rattle.run_law.specs.Paths.{once_each, with_paths};
ghost use Rattle.run_start.specs.Few.{AreFew, watches_at};
ghost use Rattle.run_start.specs.Found.{AreTexts, found_next, is_among, with_watches};

use crate::path::JailPath;
use f2b_base::{Defs, JailDef, NoMemory, Plain, Seq, Text, WatchDef};
use std::alloc::Global;

fn is_among(watches: &[WatchDef], path: &Text) -> bool
    ensures { result ≡ is_among path.now watches.now }
{
    watches.iter().any(|watch| watch.path == *path)
}

// A path that was found, behind those of its jail, where it is of this jail and not there yet.
fn push_found(watches: &mut Seq<WatchDef>, jail: &Text, path: &JailPath) -> Result<(), NoMemory>
    ensures { OnOk result (watches.new ≡ watches.old ++ found_next jail.now watches.old path.now) }
{
    let watch = path.watch();
    if *path.jail() != *jail || is_among(watches.as_slice(), &watch.path) {
        return Ok(());
    }
    watches.push(watch.copy()?)
}

// The paths of one jail among those that were found, each once.
fn watches_found(alloc: Global, found: &[JailPath], jail: &Text) -> Result<Seq<WatchDef>, NoMemory>
    ensures { IfOk result (λ watches. watches ≡ once_each [] (watches_at jail.now found.now)) }
{
    let mut watches = Seq::new(alloc);
    for path in found {
        push_found(&mut watches, jail, path)?;
    }
    Ok(watches)
}

fn jail_with(alloc: Global, jail: &JailDef, found: &[JailPath]) -> Result<JailDef, NoMemory>
    ensures { IfOk result (λ with. with ≡ with_watches found.now jail.now) }
{
    let watches = watches_found(alloc, found, &jail.name)?;
    let mut with = jail.copy()?;
    with.watches = watches;
    Ok(with)
}

#[tactic(auto, using(run_steps::proofs::ToldLemmas::map_take_more))]
fn jails_with(
    alloc: Global,
    jails: &[JailDef],
    found: &[JailPath],
) -> Result<Seq<JailDef>, NoMemory>
    ensures { IfOk result (λ with. with ≡ map (with_watches found.now) jails.now) }
{
    let mut with = Seq::new(alloc);
    for jail in jails {
        with.push(jail_with(alloc, jail, found)?)?;
    }
    Ok(with)
}

// Looks at each path, which is UTF-8 by its type: nothing else is done.
#[tactic(auto, using(crate::proofs::FoundLemmas::seeing))]
fn see_paths(paths: &[JailPath])
    ensures { AreTexts paths.now }
{
    for path in paths {
        let _path = path.watch().path.as_str();
    }
}

/// The definitions with the paths that were found in place of their own, each path of a jail once.
pub fn with_paths(alloc: Global, defs: &Defs, found: &[JailPath]) -> Result<Defs, NoMemory>
    requires storable { AreStorableDefs defs.now }
    requires few { AreFew found.now [] }
    ensures value { IfOk result (λ with. with ≡ with_paths defs.now found.now) }
    ensures storable { IfOk result AreStorableDefs }
{
    see_paths(found);
    Ok(Defs {
        purge: defs.purge,
        jails: jails_with(alloc, defs.jails.as_slice(), found)?,
    })
}
