//! Parts of a line: what is left without its date, what is looked at further, and what a match says of a host.
ghost use Rattle.std.specs.Prelude.{◌≡◌, ◌<◌, ◌^◌, length, option_copied, string_bytes, IfOk, IfSome, OnOk};
ghost use Rattle.f2b_world.specs.Spans.{IsCut, AreHostCuts};
ghost use Rattle.host_ident.specs.Hosts.{host_of};
ghost use Rattle.date_detect.specs.Dates.{LiesIn};
ghost use Rattle.filter_regex.specs.Findings.{content, first_match, part, without};

use date_detect::Found;
use f2b_base::{Addr, NoMemory};
use f2b_world::{Cut, HostSpans, Matcher};
use host_ident::{HostGroups, host_of};

/// A match of the pattern with a number.
#[derive(Clone, Copy)]
pub(crate) struct Hit {
    pub number: u32,
    pub spans: HostSpans,
}

/// Writes the line without its date over what stood there.
fn write_without(room: &mut String, line: &str, date: Found) -> Result<(), NoMemory>
    requires { LiesIn line.now date }
    ensures { OnOk result (string_bytes room.new ≡ without line.now (Some date)) }
{
    room.clear();
    room.push_str(&line[..date.start as usize])?;
    room.push_str(&line[date.end as usize..])?;
    Ok(())
}

/// The line without its date, which is written into the room where there is one.
pub(crate) fn rest_of<'l>(
    room: &'l mut String,
    line: &'l str,
    date: Option<Found>,
) -> Result<&'l str, NoMemory>
    requires { IfSome date (LiesIn line.now) }
    ensures { IfOk result (λ rest. rest.now ≡ without line.now date) }
{
    let Some(date) = date else {
        return Ok(line);
    };
    write_without(room, line, date)?;
    Ok(room.as_str())
}

/// The first pattern that matches, by its number from 1.
pub(crate) fn first_match(patterns: &mut Vec<Matcher<'_>>, line: &str) -> Option<Hit>
    requires { length patterns.old.items < 2 ^ 32 }
    ensures found { result ≡ first_match 1 patterns.old.items line.now }
    ensures cuts { IfSome result (λ hit. AreHostCuts line.now hit.spans) }
    ensures same { patterns.new.items ≡ patterns.old.items }
{
    let mut number: u32 = 0;
    for matcher in patterns.iter_mut() {
        number += 1;
        if let Some(spans) = matcher.hosts(line) {
            return Some(Hit { number, spans });
        }
    }
    None
}

/// The text of a part, if there is one.
fn part(line: &str, cut: Option<Cut>) -> Option<&str>
    requires { IfSome cut (IsCut line.now) }
    ensures { option_copied result ≡ part line.now cut }
{
    match cut {
        Some(cut) => Some(&line[cut.start..cut.end]),
        None => None,
    }
}

/// What of a line is looked at further.
#[tactic(auto, unfolding(crate::specs::Findings::content))]
pub(crate) fn content<'l>(pref: &mut Option<Matcher<'_>>, line: &'l str) -> Option<&'l str>
    ensures found { option_copied result ≡ content pref.old line.now }
    ensures same { pref.new ≡ pref.old }
{
    let Some(matcher) = pref else {
        return Some(line);
    };
    let spans = matcher.hosts(line)?;
    part(line, spans.content)
}

/// The address of the host of a match.
pub(crate) fn host_in(line: &str, spans: HostSpans) -> Option<Addr>
    requires { AreHostCuts line.now spans }
    ensures { result ≡ host_of (part line.now spans.ip4) (part line.now spans.ip6) }
{
    host_of(HostGroups {
        ip4: part(line, spans.ip4),
        ip6: part(line, spans.ip6),
        name: part(line, spans.name),
    })
}
