//! A file laid over what was read before it.
ghost use Rattle.std.specs.Prelude.{◌≡◌, ◌++◌, [], ◌∷◌, OnOk, IfOk};
ghost use Rattle.ini_interp.specs.Joins.{settings, joined, with_setting};
ghost use Rattle.ini_interp.specs.Changes.{setting_of, settings_of};

use crate::items::Items;
use crate::known::known_replaced;
use crate::sections::Sections;
use f2b_base::{NoMemory, Seq, Text};
use std::alloc::Global;

/// What a file does to the sections.
#[derive(Drop)]
pub(crate) enum Change<'a> {
    /// It names a section.
    Open(&'a str),
    /// It gives an item of a section this raw value.
    Set(&'a str, &'a str, Text),
}

/// Adds what a section of a file sets. [INCLUDES] sets nothing.
fn push_section<'a>(
    alloc: Global,
    before: &Sections,
    section: &'a str,
    items: &'a Items,
    changes: &mut Seq<Change<'a>>,
) -> Result<(), NoMemory>
    ensures { OnOk result (settings_of changes.new
        ≡ settings_of changes.old ++ settings before.now ((section.now, items.now.items) ∷ [])) }
{
    if section == "INCLUDES" {
        return Ok(());
    }
    changes.push(Change::Open(section))?;
    for index in 0..items.len() {
        let (name, raw) = items.at(index);
        let value = known_replaced(alloc, before, section, raw)?;
        changes.push(Change::Set(section, name, value))?;
    }
    Ok(())
}

/// What a file sets, in order.
fn changes<'a>(
    alloc: Global,
    before: &Sections,
    file: &'a Sections,
) -> Result<Seq<Change<'a>>, NoMemory>
    ensures { IfOk result (λ changes. settings_of changes ≡ settings before.now file.now) }
{
    let mut changes = Seq::new(alloc);
    for index in 0..file.len() {
        let (section, items) = file.at(index);
        push_section(alloc, before, section, items, &mut changes)?;
    }
    Ok(changes)
}

/// Makes a change.
fn apply(sections: &mut Sections, change: &Change<'_>) -> Result<(), NoMemory>
    ensures { OnOk result (sections.new ≡ with_setting sections.old (setting_of change.now)) }
{
    match change {
        Change::Open(section) => sections.open(section),
        Change::Set(section, name, value) => sections.put(section, name, value.as_str()),
    }
}

/// Lays a file over the sections of the files read before.
pub(crate) fn join(alloc: Global, sections: &mut Sections, file: &Sections) -> Result<(), NoMemory>
    ensures { OnOk result (sections.new ≡ joined sections.old file.now) }
{
    let changes = changes(alloc, sections, file)?;
    for change in changes.as_slice() {
        apply(sections, change)?;
    }
    Ok(())
}
