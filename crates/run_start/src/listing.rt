//! The directories of paths with wildcards.
ghost use Rattle.std.specs.Prelude.{◌≡◌, IfErr, IfOk};
ghost use Rattle.run_law.specs.Paths.{directory};
ghost use Rattle.run_law.specs.Stages.{IsSteady};
ghost use Rattle.run_start.specs.Listings.{AsksNames, IsListed, IsUnlisted, Lists};

use crate::path::JailPath;
use f2b_base::{Bytes, NoMemory, Seq, Text};
use f2b_world::{Directories, NamesAnswer};
use memchr::memrchr;
use run_steps::unread_line;
use std::alloc::Global;

/// What listing a directory brought.
#[derive(Drop)]
pub struct Listing {
    /// The names in the directory, none where it is not there.
    pub names: Seq<Text>,
    /// The line of a directory that could not be listed.
    pub unread: Seq<Bytes>,
}

// What stands before the last slash of a path, or the slash alone.
fn directory(path: &str) -> &str
    ensures { result.now ≡ directory path.now }
{
    match memrchr(b'/', path.as_bytes()) {
        Some(0) => "/",
        Some(end) => path.split_at(end).0,
        None => "",
    }
}

// What an answer brought. Memory is asked for nothing but the line of a directory that could not be listed.
fn listed(
    alloc: Global,
    now: u64,
    path: &JailPath,
    answer: NamesAnswer,
) -> Result<Listing, NoMemory>
    ensures ok { IfOk result (IsListed now path.now answer) }
    ensures lost { IfErr result (λ lost. IsUnlisted answer) }
{
    let mut unread = Seq::new(alloc);
    match answer {
        NamesAnswer::Names(names) => Ok(Listing { names, unread }),
        NamesAnswer::Absent => Ok(Listing {
            names: Seq::new(alloc),
            unread,
        }),
        NamesAnswer::Failed => {
            let line = unread_line(alloc, now, path.jail().as_str(), path.watch().path.as_str())?;
            unread.push(line)?;
            Ok(Listing {
                names: Seq::new(alloc),
                unread,
            })
        }
        NamesAnswer::NoMemory => Err(NoMemory),
    }
}

/// Lists the directory of a path. `now` is the second of the line, since 1970.
#[tactic(auto, using(crate::proofs::ListingLemmas::listing))]
pub fn list<W: Directories>(
    alloc: Global,
    world: &mut W,
    now: u64,
    path: &JailPath,
) -> Result<Listing, NoMemory>
    ensures asks { AsksNames (W.stands world.old) (W.stands world.new) path.now }
    ensures lists { IfOk result (Lists (W.stands world.old) (W.stands world.new) now path.now) }
    ensures steady { IsSteady (W.stands world.old) (W.stands world.new) }
{
    let answer = world.names(directory(path.watch().path.as_str()));
    listed(alloc, now, path, answer)
}
