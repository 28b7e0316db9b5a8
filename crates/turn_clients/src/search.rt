//! How logs are searched behind what a client made happen.
ghost use Rattle.std.specs.Prelude.{◌≡◌, option_and_then, IfOk};
ghost use Rattle.log_set.specs.Logs.{ChangesJail, counting, resting};
ghost use Rattle.turn_clients.specs.Searching.{HasMasks, IsChanged, IsChangedBy, change_of, definition_in};

use f2b_base::{NoMemory, Plain, Text, What};
use jail_core::Core;
use log_set::LogSet;
use std::alloc::Global;

/// What changes of the search in the logs of a jail.
#[derive(Drop)]
pub(crate) enum Change {
    /// Which addresses are never banned, which the state tells then.
    Masks(Text),
    /// For how many seconds failures count.
    Findtime(Text, u64),
    /// Whether its logs are not looked at.
    Idle(Text, bool),
}

// What an input changes of a search.
fn change_of(what: &What) -> Result<Option<Change>, NoMemory>
    ensures { IfOk result (λ change. change ≡ change_of what.now) }
{
    match what {
        What::Ignore { jail, .. } => Ok(Some(Change::Masks(jail.copy()?))),
        What::Findtime { jail, secs } => Ok(Some(Change::Findtime(jail.copy()?, *secs))),
        What::Idle { jail, idle } => Ok(Some(Change::Idle(jail.copy()?, *idle))),
        _ => Ok(None),
    }
}

/// What happens changes this of a search, if it is an input.
pub(crate) fn change_by(what: &Option<What>) -> Result<Option<Change>, NoMemory>
    ensures { IfOk result (λ change. change ≡ option_and_then change_of what.now) }
{
    match what {
        Some(what) => change_of(what),
        None => Ok(None),
    }
}

// The masks of the jail of a name are those of its definition.
#[tactic(auto, using(crate::proofs::SearchLemmas::masking))]
fn with_masks<'f>(
    alloc: Global,
    logs: LogSet<'f>,
    core: &Core,
    jail: &Text,
) -> Result<LogSet<'f>, NoMemory>
    ensures { IfOk result (HasMasks (definition_in core.now jail.now) jail.now logs.entry) }
{
    match core.jail(jail.as_str()) {
        Some(definition) => {
            let mut logs = logs;
            logs.set_ignore(alloc, jail, &definition.ignore)?;
            Ok(logs)
        }
        None => Ok(logs),
    }
}

// Failures of a jail count for so many seconds.
fn with_findtime<'f>(logs: LogSet<'f>, jail: &Text, secs: u64) -> LogSet<'f>
    ensures { ChangesJail logs.entry result jail.now (counting secs) }
{
    let mut logs = logs;
    logs.set_findtime(jail, secs);
    logs
}

// A jail is idle, or no more.
fn with_idle<'f>(logs: LogSet<'f>, jail: &Text, idle: bool) -> LogSet<'f>
    ensures { ChangesJail logs.entry result jail.now (resting idle) }
{
    let mut logs = logs;
    logs.set_idle(jail, idle);
    logs
}

// The logs are searched otherwise by a change.
#[tactic(auto, using(crate::proofs::SearchLemmas::changing))]
fn changed_by<'f>(
    alloc: Global,
    logs: LogSet<'f>,
    core: &Core,
    change: &Change,
) -> Result<LogSet<'f>, NoMemory>
    ensures { IfOk result (IsChangedBy core.now change.now logs.entry) }
{
    match change {
        Change::Masks(jail) => with_masks(alloc, logs, core, jail),
        Change::Findtime(jail, secs) => Ok(with_findtime(logs, jail, *secs)),
        Change::Idle(jail, idle) => Ok(with_idle(logs, jail, *idle)),
    }
}

/// The logs are searched otherwise by that change. The core is that behind the input.
#[tactic(auto, using(crate::proofs::SearchLemmas::searching))]
pub(crate) fn search_changed<'f>(
    alloc: Global,
    logs: LogSet<'f>,
    core: &Core,
    change: &Option<Change>,
) -> Result<LogSet<'f>, NoMemory>
    ensures { IfOk result (IsChanged core.now change.now logs.entry) }
{
    match change {
        Some(change) => changed_by(alloc, logs, core, change),
        None => Ok(logs),
    }
}
