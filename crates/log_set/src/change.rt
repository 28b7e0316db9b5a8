//! Changes of a jail by command.
ghost use Rattle.std.specs.Prelude.{◌≡◌};
ghost use Rattle.log_set.specs.Changes.{search_changed, searches_changed};

use crate::jail_search::JailSearch;
use crate::searches::place_of;
use f2b_base::Text;
use ignore_set::IgnoreSet;

/// A change of a jail.
#[derive(Drop)]
pub enum Change {
    /// These addresses are never banned from now on.
    Ignore(IgnoreSet),
    /// Failures count for so many seconds.
    Findtime(u64),
    /// Its logs are looked at no more, or again.
    Idle(bool),
}

// Changes a search.
fn change_search(jail: &mut JailSearch<'_>, change: Change)
    ensures { jail.new ≡ search_changed change jail.old }
{
    match change {
        Change::Ignore(ignore) => jail.ignore = ignore,
        Change::Findtime(secs) => jail.findtime = secs,
        Change::Idle(idle) => jail.idle = idle,
    }
}

/// Changes the first jail with that name, if there is one.
pub(crate) fn change_named(jails: &mut [JailSearch<'_>], name: &Text, change: Change)
    ensures { jails.new ≡ searches_changed name.now change jails.old }
{
    if let Some(index) = place_of(jails, name) {
        change_search(&mut jails[index], change);
    }
}
