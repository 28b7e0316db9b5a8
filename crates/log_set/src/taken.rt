//! What is taken of a look at a log of a set.
ghost use Rattle.std.specs.Prelude.{◌≡◌, ◌<◌, ◌^◌, IfOk, IfSome, Some, find, option_map};
ghost use Rattle.f2b_model.specs.Storable.{IsStorablePlace, IsStorableWhat};
ghost use Rattle.log_set.specs.Logs.{is_rotated, read_of, read_to};
ghost use Rattle.log_set.specs.Searches.{failures_by, is_named};

use crate::jail_search::JailSearch;
use crate::log::{Log, Looked};
use crate::searches::place_of;
use f2b_base::{NoMemory, Place, Plain, Text, What};
use log_follow::Step;
use std::alloc::Global;

/// What is taken of a look.
#[derive(Debug, Drop)]
pub struct Taken {
    /// The input that the look makes: the log was followed to another place, and these failures were found on the way. None where
    /// the place is the one before, and where the log's jail is not there.
    pub read: Option<What>,
    /// Whether the log is another one than before. Its lines come with the next look.
    pub rotated: bool,
}

/// Whether the log is another one.
pub(crate) fn is_rotated(step: &Step) -> bool
    ensures { result ≡ is_rotated step.now }
{
    matches!(step, Step::Rotated)
}

// The input of a look that led to a place, with what the search finds.
fn read_to(
    alloc: Global,
    jail: &mut JailSearch<'_>,
    log: &Log,
    step: &Step,
    place: Place,
    now: u64,
) -> Result<What, NoMemory>
    requires { now < 2 ^ 40 }
    ensures read { IfOk result (λ what. Some what ≡ read_to (failures_by jail.old now) log.now.jail log.now.path step.now (Some place)) }
    ensures storable { IsStorablePlace place → IfOk result IsStorableWhat }
    ensures same { jail.new ≡ jail.old }
{
    let found = jail.find(alloc, step, now)?;
    let name = log.jail.copy()?;
    let path = Text::from_str(alloc, log.path.as_str())?;
    Ok(What::Read {
        jail: name,
        path,
        place,
        found,
    })
}

/// The input that a look at a log makes, if it makes one.
pub(crate) fn read(
    alloc: Global,
    jails: &mut [JailSearch<'_>],
    log: &Log,
    looked: Looked,
    now: u64,
) -> Result<Option<What>, NoMemory>
    requires { now < 2 ^ 40 }
    ensures read { IfOk result (λ read. read ≡ read_of (option_map (λ j. failures_by j now) (find (is_named log.now.jail) jails.old)) log.now.jail log.now.path looked) }
    ensures storable { IfSome looked.moved IsStorablePlace → IfOk result (λ read. IfSome read IsStorableWhat) }
    ensures same { jails.new ≡ jails.old }
{
    let Looked { step, moved } = looked;
    let Some(place) = moved else {
        return Ok(None);
    };
    let Some(index) = place_of(jails, &log.jail) else {
        return Ok(None);
    };
    let what = read_to(alloc, &mut jails[index], log, &step, place, now)?;
    Ok(Some(what))
}
