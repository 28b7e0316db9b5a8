//! What went wrong, as a text: in the line before the end of a run that was refused, and of a configuration that is not taken.
ghost use Rattle.std.specs.Prelude.{◌≡◌, ◌++◌, IfOk, OnOk};
ghost use Rattle.std.specs.Fmt.{decimal};
ghost use Rattle.run_law.specs.Refusals.{place_text, build_text, pattern_refusal, ini_text, kind_text, conf_refusal, status_text, untaken_text, error_line, error_lines, status_lines};

use crate::line::stamped;
use f2b_base::{Bytes, NoMemory, Seq, Text};
use filter_regex::{BuildKind, PatternPlace};
use ini_interp::IniError;
use jail_conf::{ConfError, ConfKind};
use run_law::Status;
use std::alloc::Global;

// A number behind what stands there.
fn push_number(text: &mut Text, alloc: Global, number: u64) -> Result<(), NoMemory>
    ensures { OnOk result (text.new ≡ text.old ++ decimal number) }
{
    let digits = format!(in alloc; "{number}")?;
    text.push_str(digits.as_str())
}

fn numbered(alloc: Global, kind: &str, number: u64) -> Result<Text, NoMemory>
    ensures { IfOk result (λ text. text ≡ kind.now ++ decimal number) }
{
    let mut text = Text::from_str(alloc, kind)?;
    push_number(&mut text, alloc, number)?;
    Ok(text)
}

fn named(alloc: Global, kind: &str, name: &Text) -> Result<Text, NoMemory>
    ensures { IfOk result (λ text. text ≡ kind.now ++ name.now) }
{
    let mut text = Text::from_str(alloc, kind)?;
    text.push_str(name.as_str())?;
    Ok(text)
}

fn place_text(alloc: Global, place: PatternPlace) -> Result<Text, NoMemory>
    ensures { IfOk result (λ text. text ≡ place_text place) }
{
    match place {
        PatternPlace::Date => Text::from_str(alloc, "datepattern"),
        PatternPlace::Pref => Text::from_str(alloc, "prefregex"),
        PatternPlace::Fail(number) => numbered(alloc, "failregex ", u64::from(number)),
        PatternPlace::Ignore(number) => numbered(alloc, "ignoreregex ", u64::from(number)),
    }
}

fn build_text(kind: BuildKind) -> &'static str
    ensures { result.now ≡ build_text kind }
{
    match kind {
        BuildKind::Syntax => "Syntax",
        BuildKind::TooBig => "TooBig",
    }
}

#[tactic(auto, unfolding(run_law::specs::Refusals::pattern_refusal))]
fn pattern_refusal(
    alloc: Global,
    jail: &Text,
    place: PatternPlace,
    kind: BuildKind,
) -> Result<Text, NoMemory>
    ensures { IfOk result (λ text. text ≡ pattern_refusal jail.now place kind) }
{
    let place = place_text(alloc, place)?;
    let mut text = Text::from_str(alloc, "Pattern refused: ")?;
    text.push_str(jail.as_str())?;
    text.push_str(" ")?;
    text.push_str(place.as_str())?;
    text.push_str(" ")?;
    text.push_str(build_text(kind))?;
    Ok(text)
}

fn ini_text(alloc: Global, error: IniError) -> Result<Text, NoMemory>
    ensures { IfOk result (λ text. text ≡ ini_text error) }
{
    match error {
        IniError::NoSection(line) => numbered(alloc, "NoSection ", line),
        IniError::NoDelimiter(line) => numbered(alloc, "NoDelimiter ", line),
        IniError::Indent(line) => numbered(alloc, "Indent ", line),
        IniError::NotUtf8(at) => numbered(alloc, "NotUtf8 ", at),
        IniError::NoMemory => Text::from_str(alloc, "NoMemory"),
    }
}

// A kind by its name, and behind it what it carries; a fault of a file stands for itself.
fn kind_text(alloc: Global, kind: &ConfKind) -> Result<Text, NoMemory>
    ensures { IfOk result (λ text. text ≡ kind_text kind.now) }
{
    match kind {
        ConfKind::Ini(error) => ini_text(alloc, *error),
        ConfKind::MissingInclude(path) => named(alloc, "MissingInclude ", path),
        ConfKind::Missing(name) => named(alloc, "Missing ", name),
        ConfKind::TooDeep(name) => named(alloc, "TooDeep ", name),
        ConfKind::BadPercent(at) => numbered(alloc, "BadPercent ", *at),
        ConfKind::IncludeLoop => Text::from_str(alloc, "IncludeLoop"),
        ConfKind::BadName => Text::from_str(alloc, "BadName"),
        ConfKind::BadBool => Text::from_str(alloc, "BadBool"),
        ConfKind::BadOptions => Text::from_str(alloc, "BadOptions"),
        ConfKind::MissingFile => Text::from_str(alloc, "MissingFile"),
        ConfKind::BadGlob => Text::from_str(alloc, "BadGlob"),
        ConfKind::BadZone => Text::from_str(alloc, "BadZone"),
        ConfKind::BadDate => Text::from_str(alloc, "BadDate"),
        ConfKind::BadTag => Text::from_str(alloc, "BadTag"),
        ConfKind::NoHost => Text::from_str(alloc, "NoHost"),
        ConfKind::TwoHosts => Text::from_str(alloc, "TwoHosts"),
        ConfKind::BadAddress => Text::from_str(alloc, "BadAddress"),
        ConfKind::BadTime => Text::from_str(alloc, "BadTime"),
        ConfKind::BadNumber => Text::from_str(alloc, "BadNumber"),
        ConfKind::Unsupported => Text::from_str(alloc, "Unsupported"),
        ConfKind::DoubleAction => Text::from_str(alloc, "DoubleAction"),
        ConfKind::TooMany => Text::from_str(alloc, "TooMany"),
    }
}

#[tactic(auto, unfolding(run_law::specs::Refusals::conf_refusal))]
fn conf_refusal(alloc: Global, error: &ConfError) -> Result<Text, NoMemory>
    ensures { IfOk result (λ text. text ≡ conf_refusal error.now) }
{
    let kind = kind_text(alloc, &error.kind)?;
    let mut text = Text::from_str(alloc, "Configuration refused: ")?;
    text.push_str(error.file.as_str())?;
    text.push_str(" [")?;
    text.push_str(error.section.as_str())?;
    text.push_str("] ")?;
    text.push_str(error.name.as_str())?;
    text.push_str(": ")?;
    text.push_str(kind.as_str())?;
    Ok(text)
}

// Two numbers, each behind a text.
fn two_numbers(
    alloc: Global,
    front: &str,
    first: u64,
    between: &str,
    second: u64,
) -> Result<Text, NoMemory>
    ensures { IfOk result (λ text. text ≡ front.now ++ decimal first ++ between.now ++ decimal second) }
{
    let mut text = numbered(alloc, front, first)?;
    text.push_str(between)?;
    push_number(&mut text, alloc, second)?;
    Ok(text)
}

// The text of a status that has one; of another one none.
fn status_text(alloc: Global, status: &Status) -> Result<Option<Text>, NoMemory>
    ensures { IfOk result (λ text. text ≡ status_text status.now) }
{
    let text = match status {
        Status::Stopped | Status::TurnsSpent | Status::WorkloadDone => return Ok(None),
        Status::SinkFault | Status::NoMemory => return Ok(None),
        Status::Usage => Text::from_str(alloc, "usage"),
        Status::ConfFault => Text::from_str(alloc, "configuration not read"),
        Status::ConfRefused(error) => conf_refusal(alloc, error),
        Status::DiskFault => Text::from_str(alloc, "disk"),
        Status::NotAJournal { slot, at } => {
            two_numbers(alloc, "not a journal: slot ", u64::from(*slot), " at ", *at)
        }
        Status::JournalFull { need, limit } => {
            two_numbers(alloc, "journal full: ", *need, " of ", *limit)
        }
        Status::GateFault => Text::from_str(alloc, "socket"),
        Status::ConfTooLarge => Text::from_str(alloc, "Configuration too large"),
        Status::PatternRefused { jail, place, kind } => pattern_refusal(alloc, jail, *place, *kind),
        Status::NumbersSpent => Text::from_str(alloc, "numbers spent"),
    }?;
    Ok(Some(text))
}

/// Why a configuration that was read again is not taken, as its client is told.
pub fn untaken_text(alloc: Global, status: &Status) -> Result<Text, NoMemory>
    ensures { IfOk result (λ text. text ≡ untaken_text status.now) }
{
    match status {
        Status::ConfFault => Text::from_str(alloc, "Configuration not read"),
        Status::ConfTooLarge => Text::from_str(alloc, "Configuration too large"),
        Status::ConfRefused(error) => conf_refusal(alloc, error),
        Status::PatternRefused { jail, place, kind } => pattern_refusal(alloc, jail, *place, *kind),
        Status::Stopped | Status::TurnsSpent | Status::WorkloadDone => Ok(Text::new(alloc)),
        Status::Usage | Status::DiskFault | Status::NotAJournal { .. } => Ok(Text::new(alloc)),
        Status::JournalFull { .. } | Status::GateFault => Ok(Text::new(alloc)),
        Status::SinkFault | Status::NumbersSpent | Status::NoMemory => Ok(Text::new(alloc)),
    }
}

/// A text that says what went wrong, as a line of this second.
#[tactic(auto, unfolding(run_law::specs::Refusals::error_line))]
pub fn error_line(alloc: Global, now: u64, text: &[u8]) -> Result<Bytes, NoMemory>
    ensures { IfOk result (λ line. line ≡ error_line now text.now) }
{
    let mut error = Bytes::from_slice(alloc, b"ERROR ")?;
    error.push_slice(text)?;
    stamped(alloc, now, error.as_slice())
}

/// Why a run is refused, as a line; of a status that is no refusal none.
#[tactic(auto, unfolding(run_law::specs::Refusals::status_lines))]
pub fn status_lines(alloc: Global, now: u64, status: &Status) -> Result<Seq<Bytes>, NoMemory>
    ensures { IfOk result (λ lines. lines ≡ status_lines now status.now) }
{
    let mut lines = Seq::new(alloc);
    if let Some(text) = status_text(alloc, status)? {
        lines.push(error_line(alloc, now, text.as_str().as_bytes())?)?;
    }
    Ok(lines)
}
