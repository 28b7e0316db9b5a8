//! The paths of jails, and those that stand for themselves.
ghost use Rattle.std.specs.Prelude.{◌≡◌, ◌≤◌, ◌++◌, IfErr, IfOk, OnOk, flat_map, length, map};
ghost use Rattle.log_follow.specs.Globs.{has_wildcard};
ghost use Rattle.run_law.specs.Paths.{paths_of_jail, settled};
ghost use Rattle.run_start.specs.Walks.{IsWild, path_at};

use crate::path::JailPath;
use f2b_base::{JailDef, NoMemory, Plain, Seq, Text, WatchDef};
use std::alloc::Global;

/// The paths of these watches of a jail, behind what stands there.
#[tactic(auto, using(run_steps::proofs::ToldLemmas::map_take_more))]
pub fn push_watches(
    paths: &mut Seq<JailPath>,
    jail: &Text,
    watches: &[WatchDef],
) -> Result<(), NoMemory>
    ensures { OnOk result (paths.new ≡ paths.old ++ map (path_at jail.now) watches.now) }
{
    for watch in watches {
        paths.push(JailPath::new(jail.copy()?, watch.copy()?))?;
    }
    Ok(())
}

/// The paths of these jails, jail by jail.
pub fn paths_in(alloc: Global, jails: &[JailDef]) -> Result<Seq<JailPath>, NoMemory>
    ensures { IfOk result (λ paths. paths ≡ flat_map paths_of_jail jails.now) }
{
    let mut paths = Seq::new(alloc);
    for jail in jails {
        push_watches(&mut paths, &jail.name, jail.watches.as_slice())?;
    }
    Ok(paths)
}

fn has_wildcard(path: &str) -> bool
    ensures { result ≡ has_wildcard path.now }
{
    path.as_bytes()
        .iter()
        .any(|byte| *byte == b'*' || *byte == b'?')
}

/// Settles paths up to the first with a wildcard, behind those that are found, and gives those that are left.
#[tactic(auto, using(crate::proofs::PathLemmas::settling))]
pub fn settle<'p>(
    found: &mut Seq<JailPath>,
    paths: &'p [JailPath],
) -> Result<&'p [JailPath], NoMemory>
    ensures settled { IfOk result (λ left. settled found.old paths.now ≡ record { found = found.new; left = left.now }) }
    ensures wild { IfOk result (λ left. IsWild left.now) }
    ensures some { IfErr result (λ lost. 1 ≤ length paths.now) }
{
    for index in 0..paths.len() {
        let path = &paths[index];
        if has_wildcard(path.watch().path.as_str()) {
            return Ok(&paths[index..]);
        }
        found.push(path.copy()?)?;
    }
    Ok(&paths[paths.len()..])
}
