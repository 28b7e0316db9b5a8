//! The searches of all jails.
ghost use Rattle.std.specs.Prelude.{◌≡◌, ◌<◌, find, length, map, option_map, position, IfOk, IfSome};
ghost use Rattle.filter_regex.specs.Rules.{rules_of};
ghost use Rattle.log_set.specs.Logs.{first_search};
ghost use Rattle.log_set.specs.Searches.{is_awake, is_log_awake, is_named};

use crate::jail_search::JailSearch;
use crate::log::Log;
use f2b_base::{JailDef, NoMemory, Text};
use filter_regex::Filter;
use std::alloc::Global;

// The search of a jail that is not idle, by its filter.
fn search<'f>(
    alloc: Global,
    filter: &'f Filter,
    definition: &JailDef,
) -> Result<JailSearch<'f>, NoMemory>
    ensures { IfOk result (λ search. filter.now ≡ rules_of definition.now → search ≡ first_search definition.now) }
{
    JailSearch::new(alloc, filter, definition)
}

/// The searches of the jails with these filters.
pub(crate) fn searches<'f>(
    alloc: Global,
    filters: &'f [Filter],
    definitions: &[JailDef],
) -> Result<Vec<JailSearch<'f>>, NoMemory>
    requires { filters.now ≡ map rules_of definitions.now }
    ensures { IfOk result (λ jails. jails.items ≡ map first_search definitions.now) }
{
    let mut jails = Vec::new(alloc);
    for index in 0..definitions.len() {
        jails.push(search(alloc, &filters[index], &definitions[index])?)?;
    }
    Ok(jails)
}

/// The place of the first search of a jail with that name.
pub(crate) fn place_of(jails: &[JailSearch<'_>], name: &Text) -> Option<usize>
    ensures { result ≡ position (is_named name.now) jails.now }
{
    jails.iter().position(|jail| jail.name == *name)
}

// Whether the jail with that name is there and not idle.
fn is_awake(jails: &[JailSearch<'_>], name: &Text) -> bool
    ensures { result ≡ is_awake (option_map (λ j. j.idle) (find (is_named name.now) jails.now)) }
{
    match place_of(jails, name) {
        Some(index) => !jails[index].idle,
        None => false,
    }
}

/// The place of the first of these logs whose jail is there and not idle.
pub(crate) fn first_awake(jails: &[JailSearch<'_>], logs: &[Log]) -> Option<usize>
    ensures place { result ≡ position (is_log_awake jails.now) logs.now }
    ensures within { IfSome result (λ place. place < length logs.now) }
{
    logs.iter().position(|log| is_awake(jails, &log.jail))
}
