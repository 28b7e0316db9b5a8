//! The groups of a user's pattern, by their names.
ghost use Rattle.std.specs.Prelude.{◌≡◌, option_map, string_bytes, IfOk};
ghost use Rattle.regex.specs.Names.{names_of};
ghost use Rattle.f2b_world.specs.Matches.{has_name, number_of};
ghost use Rattle.date_detect.specs.Forms.{names_in, named_groups};

use crate::form::Groups;
use f2b_base::NoMemory;
use regex_syntax::Config;
use std::alloc::Global;

/// Whether a group has that name.
fn is_named(given: &Option<String>, name: &str) -> bool
    ensures { result ≡ has_name name.now (option_map string_bytes given.now) }
{
    match given {
        Some(given) => given.as_str() == name,
        None => false,
    }
}

/// The number of the first group with that name.
fn number_of(names: &[Option<String>], name: &str) -> Option<usize>
    ensures { result ≡ number_of name.now (names_of names.now) }
{
    for (i, given) in names.iter().enumerate() {
        if is_named(given, name) {
            return Some(i);
        }
    }
    None
}

/// What the groups of a pattern mean by their names. The text is a pattern that was built, so nothing but memory can be missing.
pub(crate) fn named_groups(alloc: Global, text: &str) -> Result<Groups, NoMemory>
    ensures { IfOk result (λ groups. groups ≡ named_groups (names_in text.now)) }
{
    let Ok(parsed) = regex_syntax::parse(alloc, text, &Config::default()) else {
        return Err(NoMemory);
    };
    let names = parsed.names.as_slice();
    Ok(Groups {
        year: number_of(names, "f2bY"),
        short_year: number_of(names, "f2by"),
        month: number_of(names, "f2bm"),
        month_name: number_of(names, "f2bb"),
        day: number_of(names, "f2bd"),
        hour: number_of(names, "f2bH"),
        minute: number_of(names, "f2bM"),
        second: number_of(names, "f2bS"),
        zone: number_of(names, "f2bz"),
        moment: None,
    })
}
