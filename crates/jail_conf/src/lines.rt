//! Which lines are failures.
ghost use Rattle.std.specs.Prelude.{◌≤◌};
ghost use Rattle.jail_conf.specs.Jails.{lines_of};
ghost use Rattle.jail_conf.specs.Then.{Gives};

use crate::conf_error::ConfFail;
use crate::patterns::{Patterns, Prefix};
use crate::source::Source;
use f2b_base::{Seq, Text};
use std::alloc::Global;

/// Which lines are failures.
#[derive(Drop)]
pub(crate) struct Lines {
    pub pref: Option<Text>,
    pub fail: Seq<Text>,
    pub ignore_lines: Seq<Text>,
}

/// Which lines are failures for a jail, where the jails before it have so many patterns.
pub(crate) fn lines_of(
    alloc: Global,
    jail: &Source,
    filter: &Source,
    patterns: u64,
) -> Result<Lines, ConfFail>
    requires { patterns ≤ 512 }
    ensures { Gives (lines_of jail.now filter.now patterns) result }
{
    let pref = filter.item(alloc, "prefregex", &Prefix, None)?;
    let of_failures = Patterns {
        needs_host: true,
        before: patterns,
    };
    let fail = jail.list_or(alloc, filter, "failregex", &of_failures)?;
    let of_others = Patterns {
        needs_host: false,
        before: patterns + fail.len() as u64,
    };
    let ignore_lines = jail.list_or(alloc, filter, "ignoreregex", &of_others)?;
    Ok(Lines {
        pref,
        fail,
        ignore_lines,
    })
}
