//! The whole test.
ghost use Rattle.std.specs.Prelude.{◌≡◌, IfErr, IfOk, map, string_bytes};
ghost use Rattle.regex_tool.specs.Asks.{shown};
ghost use Rattle.regex_tool.specs.Refusals.{refusal_line};
ghost use Rattle.regex_tool.specs.Runs.{Closes, Ends, EndsAsked, HasCause, IsOutput};

use crate::build::build;
use crate::definition::definition;
use crate::log_file::results;
use crate::output::output;
use crate::refusal::refusal_line;
use crate::status::ToolStatus;
use crate::target::jail_name;
use crate::words::{Answer, Asked, read_words};
use f2b_base::{Bytes, LATEST_READING, NoMemory};
use f2b_world::{Files, Said, Sink};
use std::alloc::Global;

/// What is to be said of the test that the words ask for.
fn tested<F: Files>(
    alloc: Global,
    asked: &Asked<'_>,
    now: u64,
    files: &mut F,
) -> Result<Bytes, ToolStatus>
    ensures output { IfOk result (IsOutput (F.stands files.old).shelf (shown asked.now) now) }
    ensures cause { IfErr result (HasCause (shown asked.now) (F.stands files.old) (F.stands files.new)) }
{
    let jail = definition(alloc, asked, files)?;
    let trial = build(alloc, files, &jail, asked.shows)?;
    // As the server takes its readings.
    let now = now.min(LATEST_READING);
    let results = results(alloc, files, &jail, &trial, asked, now)?;
    Ok(output(alloc, asked.shows, &jail, &results)?)
}

/// Says a text, and gives the status that the test ends with then.
fn say<K: Sink>(sink: &mut K, text: &[u8], status: ToolStatus) -> ToolStatus
    ensures { Closes text.now status (K.stands sink.old) (K.stands sink.new) result }
{
    match sink.say(text) {
        Said::Done => status,
        Said::Failed => ToolStatus::SinkFault,
    }
}

/// Says why a test is refused.
fn refuse<K: Sink>(alloc: Global, sink: &mut K, jail: &str, status: ToolStatus) -> ToolStatus
    ensures { Closes (refusal_line jail.now status) status (K.stands sink.old) (K.stands sink.new) result }
{
    match refusal_line(alloc, jail, &status) {
        Ok(line) => say(sink, line.as_str().as_bytes(), status),
        Err(NoMemory) => ToolStatus::NoMemory,
    }
}

/// Makes the test that the words ask for.
fn test<F: Files, K: Sink>(
    alloc: Global,
    asked: &Asked<'_>,
    now: u64,
    files: &mut F,
    sink: &mut K,
) -> ToolStatus
    ensures { EndsAsked (shown asked.now) now (F.stands files.old) (F.stands files.new) (K.stands sink.old) (K.stands sink.new) result }
{
    match tested(alloc, asked, now, files) {
        Ok(output) => say(sink, output.as_slice(), ToolStatus::Done),
        Err(ToolStatus::NoMemory) => ToolStatus::NoMemory,
        Err(status) => refuse(alloc, sink, jail_name(asked.dir, asked.regex), status),
    }
}

/// Tests a pattern or a filter on a log, as the words ask: `[OPTIONS] LOG REGEX [IGNOREREGEX]`.
///
/// LOG is the path of a file, and where there is none the one line itself. REGEX is a filter where it ends in
/// `filter.d/NAME.conf`, or with `-c DIR` where it is a filter's name, and else a pattern of failures. IGNOREREGEX and `-d PATTERN`
/// stand in place of the filter's. Lines count as they do at `now`, in seconds since 1970, with the zone of UTC or of
/// `--timezone ZONE`, no address left out, and failures of the last hundred years.
///
/// One text is said: the report, or with `-o ip` and `-o row` a line for each failure, and behind it the lines that `-v`,
/// `--print-all-matched`, `--print-all-ignored` and `--print-all-missed` show, and with `-v` what may be wrong with the patterns and
/// the dates; or why the test is refused.
pub fn regex_tool<F: Files, K: Sink>(
    alloc: Global,
    words: &[String],
    now: u64,
    files: &mut F,
    sink: &mut K,
) -> ToolStatus
    ensures { Ends (map string_bytes words.now) now (F.stands files.old) (F.stands files.new) (K.stands sink.old) (K.stands sink.new) result }
{
    match read_words(alloc, words) {
        Answer::Asked(asked) => test(alloc, &asked, now, files, sink),
        Answer::Usage => refuse(alloc, sink, "", ToolStatus::Usage),
        Answer::NoMemory => ToolStatus::NoMemory,
    }
}
