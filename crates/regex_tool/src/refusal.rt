//! The line of a test that is refused.
ghost use Rattle.std.specs.Prelude.{◌≡◌, ◌++◌, IfOk};
ghost use Rattle.std.specs.Fmt.{decimal};
ghost use Rattle.regex_tool.specs.Refusals.{place_text, kind_text, pattern_text, refusal_text, refusal_line};

use crate::kind::ToolKind;
use crate::report::push_number;
use crate::status::ToolStatus;
use f2b_base::{NoMemory, Text};
use filter_regex::PatternPlace;
use std::alloc::Global;

fn numbered(alloc: Global, word: &str, number: u32) -> Result<Text, NoMemory>
    ensures { IfOk result (λ text. text ≡ word.now ++ decimal number) }
{
    let mut text = Text::from_str(alloc, word)?;
    push_number(alloc, &mut text, u64::from(number))?;
    Ok(text)
}

pub(crate) fn place_text(alloc: Global, place: PatternPlace) -> Result<Text, NoMemory>
    ensures { IfOk result (λ text. text ≡ place_text place) }
{
    match place {
        PatternPlace::Date => Text::from_str(alloc, "datepattern"),
        PatternPlace::Pref => Text::from_str(alloc, "prefregex"),
        PatternPlace::Fail(number) => numbered(alloc, "failregex ", number),
        PatternPlace::Ignore(number) => numbered(alloc, "ignoreregex ", number),
    }
}

fn kind_text(kind: ToolKind) -> &'static str
    ensures { result.now ≡ kind_text kind }
{
    match kind {
        ToolKind::TooLong => "TooLong",
        ToolKind::BadDate => "BadDate",
        ToolKind::NoHost => "NoHost",
        ToolKind::TwoHosts => "TwoHosts",
        ToolKind::Syntax => "Syntax",
        ToolKind::TooBig => "TooBig",
    }
}

fn pattern_text(
    alloc: Global,
    jail: &str,
    place: PatternPlace,
    kind: ToolKind,
) -> Result<Text, NoMemory>
    ensures { IfOk result (λ text. text ≡ pattern_text jail.now place kind) }
{
    let mut text = Text::from_str(alloc, "Pattern refused: ")?;
    text.push_str(jail)?;
    text.push_str(" ")?;
    text.push_str(place_text(alloc, place)?.as_str())?;
    text.push_str(" ")?;
    text.push_str(kind_text(kind))?;
    Ok(text)
}

fn refusal_text(alloc: Global, jail: &str, status: &ToolStatus) -> Result<Text, NoMemory>
    ensures { IfOk result (λ text. text ≡ refusal_text jail.now status.now) }
{
    match status {
        ToolStatus::Usage => Text::from_str(alloc, "usage"),
        ToolStatus::FileFault => Text::from_str(alloc, "configuration not read"),
        ToolStatus::TooLarge => Text::from_str(alloc, "Configuration too large"),
        ToolStatus::ConfRefused(error) => error.text(alloc),
        ToolStatus::PatternRefused { place, kind } => pattern_text(alloc, jail, *place, *kind),
        _ => Ok(Text::new(alloc)),
    }
}

/// What is said where a test of the jail with this name ends so.
#[tactic(auto, unfolding(crate::specs::Refusals::refusal_line))]
pub(crate) fn refusal_line(alloc: Global, jail: &str, status: &ToolStatus) -> Result<Text, NoMemory>
    ensures { IfOk result (λ line. line ≡ refusal_line jail.now status.now) }
{
    let text = refusal_text(alloc, jail, status)?;
    let mut line = Text::from_str(alloc, "ERROR ")?;
    line.push_str(text.as_str())?;
    line.push_str("\n")?;
    Ok(line)
}
