//! Faults of patterns that are found before any is built.
ghost use Rattle.std.specs.Prelude.{◌≡◌, ◌<◌, ◌^◌, length, option_map, option_copied, IfNone};
ghost use Rattle.date_detect.specs.Forms.{HasDatePattern};
ghost use Rattle.filter_regex.specs.declared.error.PatternPlace.TheVariants.{Fail, Ignore};
ghost use Rattle.regex_tool.specs.Checks.{length_fault, date_pattern_fault, date_fault, pref_fault, hosts_fault, host_fault, fail_fault, ignore_fault, first_from, first_fault, IsTestable};

use crate::kind::ToolKind;
use date_detect::is_date_pattern;
use f2b_base::{DateSpec, JailDef, Text};
use filter_regex::PatternPlace;
use host_ident::hosts;

/// A pattern has at most so many bytes.
const MOST_BYTES: usize = 8_192;

/// A pattern that is refused.
#[derive(Clone, Copy)]
pub(crate) struct Refused {
    pub place: PatternPlace,
    pub kind: ToolKind,
}

fn length_fault(text: &str) -> Option<ToolKind>
    ensures { result ≡ length_fault text.now }
{
    if text.len() > MOST_BYTES {
        Some(ToolKind::TooLong)
    } else {
        None
    }
}

fn date_pattern_fault(text: &str) -> Option<ToolKind>
    ensures { result ≡ date_pattern_fault text.now }
{
    if let Some(kind) = length_fault(text) {
        return Some(kind);
    }
    if is_date_pattern(text) {
        None
    } else {
        Some(ToolKind::BadDate)
    }
}

fn date_fault(date: &DateSpec) -> Option<ToolKind>
    ensures value { result ≡ date_fault date.now }
    ensures none { IfNone result (HasDatePattern date.now) }
{
    match date {
        DateSpec::Pattern(text) | DateSpec::AnchoredPattern(text) => {
            date_pattern_fault(text.as_str())
        }
        _ => None,
    }
}

fn pref_fault(pref: &Option<Text>) -> Option<ToolKind>
    ensures { result ≡ pref_fault pref.now }
{
    match pref {
        Some(text) => length_fault(text.as_str()),
        None => None,
    }
}

/// More hosts than one.
fn hosts_fault(hosts: u32) -> Option<ToolKind>
    ensures { result ≡ hosts_fault hosts }
{
    if hosts > 1 {
        Some(ToolKind::TwoHosts)
    } else {
        None
    }
}

/// No host, or more than one.
fn host_fault(hosts: u32) -> Option<ToolKind>
    ensures { result ≡ host_fault hosts }
{
    if hosts < 1 {
        return Some(ToolKind::NoHost);
    }
    hosts_fault(hosts)
}

fn fail_fault(text: &str) -> Option<ToolKind>
    ensures { result ≡ fail_fault text.now }
{
    if let Some(kind) = length_fault(text) {
        return Some(kind);
    }
    host_fault(hosts(text))
}

fn ignore_fault(text: &str) -> Option<ToolKind>
    ensures { result ≡ ignore_fault text.now }
{
    if let Some(kind) = length_fault(text) {
        return Some(kind);
    }
    hosts_fault(hosts(text))
}

/// The first pattern of failures with a fault.
fn first_of_fail(texts: &[Text]) -> Option<Refused>
    requires { length texts.now < 2 ^ 32 }
    ensures { result ≡ first_from Fail fail_fault 1 texts.now }
{
    let mut number: u32 = 0;
    for text in texts {
        number += 1;
        if let Some(kind) = fail_fault(text.as_str()) {
            let place = PatternPlace::Fail(number);
            return Some(Refused { place, kind });
        }
    }
    None
}

/// The first pattern of ignored lines with a fault.
fn first_of_ignore(texts: &[Text]) -> Option<Refused>
    requires { length texts.now < 2 ^ 32 }
    ensures { result ≡ first_from Ignore ignore_fault 1 texts.now }
{
    let mut number: u32 = 0;
    for text in texts {
        number += 1;
        if let Some(kind) = ignore_fault(text.as_str()) {
            let place = PatternPlace::Ignore(number);
            return Some(Refused { place, kind });
        }
    }
    None
}

/// The first pattern with a fault, in the order in which they are built.
#[tactic(auto, unfolding(crate::specs::Checks::first_fault))]
pub(crate) fn first_fault(jail: &JailDef) -> Option<Refused>
    requires { IsTestable jail.now }
    ensures value { result ≡ first_fault jail.now }
    ensures date { IfNone result (HasDatePattern jail.now.date) }
{
    if let Some(kind) = date_fault(&jail.date) {
        let place = PatternPlace::Date;
        return Some(Refused { place, kind });
    }
    if let Some(kind) = pref_fault(&jail.pref) {
        let place = PatternPlace::Pref;
        return Some(Refused { place, kind });
    }
    if let Some(refused) = first_of_fail(jail.fail.as_slice()) {
        return Some(refused);
    }
    first_of_ignore(jail.ignore_lines.as_slice())
}
