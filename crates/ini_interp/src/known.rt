//! References to what the files read before have set.
ghost use Rattle.std.specs.Prelude.{◌≡◌, ◌++◌, ℕ, IfOk, OnOk, option_copied};
ghost use Rattle.std.specs.List.{flat_map};
ghost use Rattle.ini_interp.specs.Known.{known_raw, known_text, known_replaced};
ghost use Rattle.ini_interp.specs.Parts.{pieces_of};

use crate::parts::{Part, first_part};
use crate::sections::Sections;
use f2b_base::{NoMemory, Text};
use std::alloc::Global;

/// The raw value that a reference in this section stands for, where it is `known/NAME`: that of NAME in the same section, or else in
/// [DEFAULT].
fn known_raw<'a>(
    alloc: Global,
    before: &'a Sections,
    section: &str,
    reference: &str,
) -> Result<Option<&'a str>, NoMemory>
    ensures { IfOk result (λ found. option_copied found ≡ known_raw before.now section.now reference.now) }
{
    let Some((word, name)) = reference.split_once('/') else {
        return Ok(None);
    };
    if word != "known" {
        return Ok(None);
    }
    match before.find(alloc, section, name)? {
        Some(raw) => Ok(Some(raw)),
        None => before.find(alloc, "DEFAULT", name),
    }
}

/// Adds a part of a raw value behind `text`, a reference to a known value replaced.
fn push_part(
    alloc: Global,
    before: &Sections,
    section: &str,
    part: Part<'_>,
    text: &mut Text,
) -> Result<(), NoMemory>
    ensures { OnOk result
        ((at : ℕ) → text.new ≡ text.old ++ flat_map (known_text before.now section.now) (pieces_of at part.entry)) }
{
    match part {
        Part::Plain(plain) => text.push_str(plain),
        Part::Sign => text.push_str("%%"),
        Part::Lone => text.push_str("%"),
        Part::Named(reference) => {
            if let Some(raw) = known_raw(alloc, before, section, reference)? {
                return text.push_str(raw);
            }
            text.push_str("%(")?;
            text.push_str(reference)?;
            text.push_str(")s")
        }
    }
}

/// The raw value with its references to known values replaced.
pub(crate) fn known_replaced(
    alloc: Global,
    before: &Sections,
    section: &str,
    raw: &str,
) -> Result<Text, NoMemory>
    ensures { IfOk result (λ text. text ≡ known_replaced before.now section.now raw.now) }
{
    let mut text = Text::new(alloc);
    let mut rest = raw;
    while let Some(cut) = first_part(rest) {
        push_part(alloc, before, section, cut.part, &mut text)?;
        rest = cut.rest;
    }
    Ok(text)
}
