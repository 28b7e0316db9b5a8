//! Where the groups of a match lie in its line.
ghost use Rattle.std.specs.Prelude.{◌≡◌, IfSome, length, map};
ghost use Rattle.f2b_world.specs.Captured.{captured_hosts, captured_group};
ghost use Rattle.f2b_world.specs.Spans.{IsCut, AreHostCuts, AreCuts};
ghost use Rattle.regex.specs.Strings.{captures_haystack, match_haystack, match_span};
ghost use Rattle.f2b_world.specs.Matches.{cut};

use crate::pattern::numbers::HostNumbers;
use regex::{Captures, Match};

/// A part of a line, as offsets in bytes. A match gives only parts that begin and end between characters.
#[derive(Clone, Copy, Debug, PartialEq, Eq)]
pub struct Cut {
    /// The offset of its first byte.
    pub start: usize,
    /// The offset behind its last byte.
    pub end: usize,
}

/// A match, and what its groups of a host and of the content cover. A group that took no part is `None`.
#[derive(Clone, Copy, Debug, PartialEq, Eq)]
pub struct HostSpans {
    pub whole: Cut,
    /// The group `f2b4`, an IPv4 address.
    pub ip4: Option<Cut>,
    /// The group `f2b6`, an IPv6 address.
    pub ip6: Option<Cut>,
    /// The group `f2bn`, the name of a host.
    pub name: Option<Cut>,
    /// The group `f2bc`, the part of the line that is looked at further.
    pub content: Option<Cut>,
}

fn cut_of(found: Match<'_>) -> Cut
    ensures value { result ≡ cut (match_span found.entry) }
    ensures cut { IsCut (match_haystack found.entry) result }
{
    Cut {
        start: found.start(),
        end: found.end(),
    }
}

/// Where the match lies.
pub(super) fn whole_at(captures: &Captures<'_, '_>) -> Cut
    ensures value { result ≡ cut (match_span captures.now.whole) }
    ensures cut { IsCut (captures_haystack captures.now) result }
{
    cut_of(captures.get_match())
}

/// What the group with that number covers.
fn group_at(captures: &Captures<'_, '_>, number: Option<usize>) -> Option<Cut>
    ensures value { result ≡ captured_group captures.now number }
    ensures cut { IfSome result (IsCut (captures_haystack captures.now)) }
{
    match captures.get(number?) {
        Some(found) => Some(cut_of(found)),
        None => None,
    }
}

/// What the groups of a host and of the content cover.
pub(super) fn hosts_at(captures: &Captures<'_, '_>, numbers: HostNumbers) -> HostSpans
    ensures value { result ≡ captured_hosts numbers captures.now }
    ensures cuts { AreHostCuts (captures_haystack captures.now) result }
{
    HostSpans {
        whole: whole_at(captures),
        ip4: group_at(captures, numbers.ip4),
        ip6: group_at(captures, numbers.ip6),
        name: group_at(captures, numbers.name),
        content: group_at(captures, numbers.content),
    }
}

/// Writes what the groups with these numbers cover.
pub(super) fn write_groups(
    captures: &Captures<'_, '_>,
    numbers: &[Option<usize>],
    cuts: &mut [Option<Cut>],
)
    requires { length cuts.old ≡ length numbers.now }
    ensures value { cuts.new ≡ map (captured_group captures.now) numbers.now }
    ensures cuts { AreCuts (captures_haystack captures.now) cuts.new }
{
    for i in 0..numbers.len() {
        cuts[i] = group_at(captures, numbers[i]);
    }
}
