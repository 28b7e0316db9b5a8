//! The value of an item.
ghost use Rattle.std.specs.Prelude.{◌≡◌, ◌≢◌, ◌↔◌, ◌<◌, ◌-◌, Some, Ok, Err, IsNone, IfOk, IfErr, OnOk, option_copied};
ghost use Rattle.ini_interp.specs.Values.{raw_in, section_called, scope_of, name_of, interpolated, replaced, value_in};
ghost use Rattle.ini_interp.specs.Added.{IsAdded};

use crate::parts::{Part, first_part};
use crate::sections::Sections;
use crate::value_error::InterpError;
use f2b_base::{NoMemory, Seq, Text};
use std::alloc::Global;

/// Replacements stand at most so many deep in one another.
const MOST_DEPTH: u32 = 10;

/// The raw value that the name has in the first section of the scope that has it.
fn raw_in<'a>(sections: &'a Sections, scope: &[Text], name: &str) -> Option<&'a str>
    ensures { option_copied result ≡ raw_in sections.now scope.now name.now }
{
    for section in scope {
        if let Some(raw) = sections.raw(section.as_str(), name) {
            return Some(raw);
        }
    }
    None
}

/// What `raw_in` says, in a time that does not grow with the number of items: the name, which may be in any case, is lowered once.
fn found_in<'a>(
    alloc: Global,
    sections: &'a Sections,
    scope: &[Text],
    name: &str,
) -> Result<Option<&'a str>, NoMemory>
    ensures { IfOk result (λ found. option_copied found ≡ raw_in sections.now scope.now name.now) }
{
    let name = name.to_ascii_lowercase(alloc)?;
    Ok(raw_in(sections, scope, name.as_str()))
}

/// The section that a reference names before its slash.
fn section_called(word: &str) -> &str
    ensures { result.now ≡ section_called word.now }
{
    match word {
        "default" => "DEFAULT",
        "known" => "]known",
        _ => word,
    }
}

/// The name that a reference looks for.
fn name_of(reference: &str) -> &str
    ensures { result.now ≡ name_of reference.now }
{
    match reference.split_once('/') {
        Some((_, name)) => name,
        None => reference,
    }
}

/// The raw value of the item that a reference names.
fn raw_of<'a>(
    alloc: Global,
    sections: &'a Sections,
    scope: &[Text],
    reference: &str,
) -> Result<Option<&'a str>, NoMemory>
    ensures { IfOk result (λ found. option_copied found
        ≡ raw_in sections.now (scope_of scope.now reference.now) (name_of reference.now)) }
{
    match reference.split_once('/') {
        Some((word, name)) => sections.find(alloc, section_called(word), name),
        None => found_in(alloc, sections, scope, reference),
    }
}

/// The raw value of the item that a reference names, where `depth` more replacements may stand in one another.
fn text_to_read<'a>(
    alloc: Global,
    sections: &'a Sections,
    scope: &[Text],
    depth: u32,
    reference: &str,
) -> Result<&'a str, InterpError>
    ensures deep { IfOk result (λ text. 0 < depth) }
    ensures ok { IfOk result (λ text. replaced sections.now scope.now depth reference.now
        ≡ interpolated sections.now scope.now (depth - 1) text.now) }
    ensures fault { IfErr result (λ fault. fault ≢ InterpError.NoMemory
        → replaced sections.now scope.now depth reference.now ≡ Err fault) }
{
    let name = name_of(reference);
    if depth == 0 {
        return Err(InterpError::TooDeep(Text::from_str(alloc, name)?));
    }
    match raw_of(alloc, sections, scope, reference)? {
        Some(text) => Ok(text),
        None => Err(InterpError::Missing(Text::from_str(alloc, name)?)),
    }
}

/// Adds the raw value behind `out`, with its references replaced; `depth` replacements may stand in one another.
fn interpolate(
    alloc: Global,
    sections: &Sections,
    scope: &[Text],
    depth: u32,
    raw: &str,
    out: &mut Text,
) -> Result<(), InterpError>
    ensures ok { OnOk result (IsAdded (interpolated sections.now scope.now depth raw.now) out.old out.new) }
    ensures fault { IfErr result (λ fault. fault ≢ InterpError.NoMemory
        → interpolated sections.now scope.now depth raw.now ≡ Err fault) }
{
    let mut rest = raw;
    while let Some(cut) = first_part(rest) {
        match cut.part {
            Part::Plain(text) => out.push_str(text)?,
            Part::Sign => out.push_str("%")?,
            Part::Named(reference) => {
                let text = text_to_read(alloc, sections, scope, depth, reference)?;
                interpolate(alloc, sections, scope, depth - 1, text, out)?;
            }
            Part::Lone => {
                return Err(InterpError::BadPercent((raw.len() - rest.len()) as u64));
            }
        }
        rest = cut.rest;
    }
    Ok(())
}

/// The value of a name in the scope: its raw value in the first of these sections that has it, with its references replaced.
/// `None` where no section of the scope has the name.
pub fn value(
    alloc: Global,
    sections: &Sections,
    scope: &Seq<Text>,
    name: &str,
) -> Result<Option<Text>, InterpError>
    ensures none { IfOk result (λ value. IsNone value ↔ IsNone (raw_in sections.now scope.now name.now)) }
    ensures ok { IfOk result (λ value. value_in sections.now scope.now name.now ≡ Ok value) }

    // The first fault from the left, or want of memory.
    ensures fault { IfErr result (λ fault. fault ≢ InterpError.NoMemory
        → value_in sections.now scope.now name.now ≡ Err fault) }
{
    let scope = scope.as_slice();
    let Some(raw) = found_in(alloc, sections, scope, name)? else {
        return Ok(None);
    };
    let mut text = Text::new(alloc);
    interpolate(alloc, sections, scope, MOST_DEPTH, raw, &mut text)?;
    Ok(Some(text))
}
