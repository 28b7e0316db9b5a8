//! The report of the tester.
ghost use Rattle.std.specs.Prelude.{◌≡◌, ◌<◌, ◌++◌, ◌^◌, length, codes, IfOk, OnOk};
ghost use Rattle.std.specs.Fmt.{decimal};
ghost use Rattle.regex_tool.specs.Report.{heading, row, rows, last_line, report};

use crate::counts::Counts;
use f2b_base::{JailDef, NoMemory, Text};
use std::alloc::Global;

/// A number behind what stands there.
pub(crate) fn push_number(alloc: Global, text: &mut Text, number: u64) -> Result<(), NoMemory>
    ensures { OnOk result (text.new ≡ text.old ++ decimal number) }
{
    let digits = format!(in alloc; "{number}")?;
    text.push_str(digits.as_str())
}

fn push_heading(alloc: Global, text: &mut Text, word: &str, total: u64) -> Result<(), NoMemory>
    ensures { OnOk result (text.new ≡ text.old ++ heading word.now total) }
{
    text.push_str(word)?;
    text.push_str(": ")?;
    push_number(alloc, text, total)?;
    text.push_str(" total\n")
}

#[tactic(auto, unfolding(crate::specs::Report::row))]
fn push_row(
    alloc: Global,
    text: &mut Text,
    number: u64,
    count: u64,
    pattern: &str,
) -> Result<(), NoMemory>
    ensures { OnOk result (text.new ≡ text.old ++ row number count pattern.now) }
{
    if count == 0 {
        return Ok(());
    }
    text.push_str("   ")?;
    push_number(alloc, text, number)?;
    text.push_str(") [")?;
    push_number(alloc, text, count)?;
    text.push_str("] ")?;
    text.push_str(pattern)?;
    text.push_str("\n")
}

/// The rows of some patterns.
fn push_rows(
    alloc: Global,
    text: &mut Text,
    counts: &[u64],
    patterns: &[Text],
) -> Result<(), NoMemory>
    requires { length counts.now ≡ length patterns.now }
    ensures { OnOk result (text.new ≡ text.old ++ rows 1 counts.now patterns.now) }
{
    let mut number: u64 = 0;
    for (place, pattern) in patterns.iter().enumerate() {
        number += 1;
        push_row(alloc, text, number, counts[place], pattern.as_str())?;
    }
    Ok(())
}

#[tactic(auto, unfolding(crate::specs::Report::last_line))]
fn push_last_line(alloc: Global, text: &mut Text, counts: &Counts) -> Result<(), NoMemory>
    ensures { OnOk result (text.new ≡ text.old ++ last_line counts.now) }
{
    text.push_str("Lines: ")?;
    push_number(alloc, text, counts.lines)?;
    text.push_str(" lines, ")?;
    push_number(alloc, text, counts.ignored)?;
    text.push_str(" ignored, ")?;
    push_number(alloc, text, counts.matched)?;
    text.push_str(" matched, ")?;
    push_number(alloc, text, counts.missed)?;
    text.push_str(" missed\n")
}

/// What came of the lines, by the patterns of a jail as they were written.
#[tactic(auto, unfolding(crate::specs::Report::report))]
pub(crate) fn report(alloc: Global, jail: &JailDef, counts: &Counts) -> Result<Text, NoMemory>
    requires fail { length counts.now.fail ≡ length jail.now.fail }
    requires ignore_lines { length counts.now.ignore_lines ≡ length jail.now.ignore_lines }
    ensures { IfOk result (λ text. text ≡ report jail.now counts.now) }
{
    let mut text = Text::new(alloc);
    push_heading(alloc, &mut text, "Failregex", counts.matched)?;
    push_rows(alloc, &mut text, counts.fail.counts(), jail.fail.as_slice())?;
    push_heading(alloc, &mut text, "Ignoreregex", counts.ignored)?;
    push_rows(
        alloc,
        &mut text,
        counts.ignore_lines.counts(),
        jail.ignore_lines.as_slice(),
    )?;
    push_last_line(alloc, &mut text, counts)?;
    Ok(text)
}
