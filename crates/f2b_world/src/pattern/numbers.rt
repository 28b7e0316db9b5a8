//! The numbers of the groups that have a name with a meaning.
ghost use Rattle.std.specs.Prelude.{◌≡◌};
ghost use Rattle.regex.specs.Strings.{regex_names};
ghost use Rattle.f2b_world.specs.Matches.{number_of};
ghost use Rattle.f2b_world.specs.Captured.{host_numbers};

use regex::Regex;

/// The numbers of the groups of a host and of the content, where a pattern has them.
#[derive(Clone, Copy)]
pub(super) struct HostNumbers {
    pub ip4: Option<usize>,
    pub ip6: Option<usize>,
    pub name: Option<usize>,
    pub content: Option<usize>,
}

/// The number of the group with that name.
fn number_of(regex: &Regex, name: &str) -> Option<usize>
    ensures { result ≡ number_of name.now (regex_names regex.now) }
{
    regex.capture_index(name)
}

/// The numbers of the groups of a host and of the content. A look for a name at each match would cost more than the rest of it.
pub(super) fn host_numbers(regex: &Regex) -> HostNumbers
    ensures { result ≡ host_numbers (regex_names regex.now) }
{
    HostNumbers {
        ip4: number_of(regex, "f2b4"),
        ip6: number_of(regex, "f2b6"),
        name: number_of(regex, "f2bn"),
        content: number_of(regex, "f2bc"),
    }
}
