//! All that is said of a test that is made.
ghost use Rattle.std.specs.Prelude.{◌≡◌, ◌++◌, length, IfOk, OnOk};
ghost use Rattle.regex_tool.specs.Checks.{IsFew};
ghost use Rattle.regex_tool.specs.Outputs.{first_part, output, shown_lines, under};

use crate::report::report;
use crate::results::Results;
use crate::section::Section;
use crate::sections::Sections;
use crate::shows::{Form, Shows};
use crate::warnings::push_warnings;
use f2b_base::{Bytes, JailDef, NoMemory, Plain};
use std::alloc::Global;

/// The report, or what stands in its place.
fn first_part(
    alloc: Global,
    form: Form,
    jail: &JailDef,
    results: &Results,
) -> Result<Bytes, NoMemory>
    requires fail { length results.now.counts.fail ≡ length jail.now.fail }
    requires ignore_lines { length results.now.counts.ignore_lines ≡ length jail.now.ignore_lines }
    ensures { IfOk result (λ text. text ≡ first_part form jail.now results.now) }
{
    match form {
        Form::Report => {
            let report = report(alloc, jail, &results.counts)?;
            Bytes::from_slice(alloc, report.as_str().as_bytes())
        }
        Form::Rows | Form::Addresses => results.sections.first.text.copy(),
    }
}

/// Lines of one kind under their heading, where they are shown.
fn push_under(
    text: &mut Bytes,
    heading: &[u8],
    holds: bool,
    section: &Section,
) -> Result<(), NoMemory>
    ensures { OnOk result (text.new ≡ text.old ++ under heading.now holds section.now) }
{
    if !holds {
        return Ok(());
    }
    text.push_slice(heading)?;
    text.push_slice(section.text.as_slice())
}

/// The lines of each kind that is shown.
#[tactic(auto, unfolding(crate::specs::Outputs::shown_lines))]
fn push_lines(text: &mut Bytes, shows: &Shows, sections: &Sections) -> Result<(), NoMemory>
    ensures { OnOk result (text.new ≡ text.old ++ shown_lines shows.now sections.now) }
{
    push_under(text, b"Matched lines:\n", shows.matched, &sections.matched)?;
    push_under(text, b"Ignored lines:\n", shows.ignored, &sections.ignored)?;
    push_under(text, b"Missed lines:\n", shows.missed, &sections.missed)
}

/// What is said of a test, by what the words want to be shown.
#[tactic(auto, unfolding(crate::specs::Outputs::output))]
pub(crate) fn output(
    alloc: Global,
    shows: Shows,
    jail: &JailDef,
    results: &Results,
) -> Result<Bytes, NoMemory>
    requires fail { length results.now.counts.fail ≡ length jail.now.fail }
    requires ignore_lines { length results.now.counts.ignore_lines ≡ length jail.now.ignore_lines }
    requires few { IsFew jail.now }
    ensures { IfOk result (λ text. text ≡ output shows jail.now results.now) }
{
    let mut text = first_part(alloc, shows.form, jail, results)?;
    push_lines(&mut text, &shows, &results.sections)?;
    push_warnings(alloc, &mut text, shows.detail, jail, &results.notes)?;
    Ok(text)
}
