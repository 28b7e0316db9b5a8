//! The lines that a ban shows: those of the failures that led to it.
ghost use Rattle.std.specs.Prelude.{◌≡◌, ◌+◌, ◌≤◌, ◌<◌, length, drop, map, OnOk, IfOk};
ghost use Rattle.f2b_model.specs.Escapes.{escaped};
ghost use Rattle.f2b_model.specs.Matches.{joined, lines_of, matches_of};
ghost use Rattle.jail_moves.specs.Shown.{left_after, with_between, with_line};

use f2b_base::{Failure, NoMemory, Text};
use std::alloc::Global;
use tag_subst::escape;

/// The most bytes that a ban shows.
const MATCHES_BYTES: usize = 8192;

/// What stands between two lines.
const BETWEEN: &str = " / ";

/// How many bytes a line takes with what stands between it and the next. Escaped, each of its characters is one byte.
fn cost_of(line: &str) -> usize
    ensures { result ≡ length (escaped line.now) + 3 }
{
    line.chars().count() + BETWEEN.len()
}

/// How much may still be shown in front of what is.
#[derive(Drop)]
struct Left {
    lines: u64,
    bytes: usize,
}

impl Left {
    /// How much may still be shown in front of this line, or `None` where it is one too many or too long.
    fn after(&self, line: &str) -> Option<Left>
        ensures { result ≡ left_after self.now line.now }
    {
        let bytes = cost_of(line);
        if self.lines == 0 || self.bytes < bytes {
            return None;
        }
        Some(Left {
            lines: self.lines - 1,
            bytes: self.bytes - bytes,
        })
    }
}

/// From which failure on the lines are shown. It takes time by these lines, and by the failures behind them that have none.
fn first_shown(failures: &[Failure], maxmatches: u64) -> usize
    ensures within { result ≤ length failures.now }
    ensures shown { joined (map escaped (lines_of (drop result failures.now))) ≡ matches_of maxmatches failures.now }
{
    let mut left = Left {
        lines: maxmatches,
        // The last line has nothing behind it, and costs as if it had.
        bytes: MATCHES_BYTES + BETWEEN.len(),
    };
    for index in (0..failures.len()).rev() {
        let line = failures[index].line.as_str();
        if line.is_empty() {
            continue;
        }
        match left.after(line) {
            Some(next) => left = next,
            None => return index + 1,
        }
    }
    0
}

/// Adds what stands between two lines, where one is there.
fn push_between(text: &mut Text) -> Result<(), NoMemory>
    ensures { OnOk result (text.new ≡ with_between text.old) }
{
    if text.as_str().is_empty() {
        return Ok(());
    }
    text.push_str(BETWEEN)?;
    Ok(())
}

/// Adds a line behind those that are there, escaped, unless it is empty.
fn push_line(alloc: Global, text: &mut Text, line: &str) -> Result<(), NoMemory>
    ensures line { OnOk result (text.new ≡ with_line text.old line.now) }
    ensures longer { 0 < length line.now → OnOk result (0 < length text.new) }
{
    if line.is_empty() {
        return Ok(());
    }
    push_between(text)?;
    let safe = escape(alloc, line)?;
    text.push_str(safe.as_str())?;
    Ok(())
}

/// The lines of failures, escaped, as one.
fn joined(alloc: Global, failures: &[Failure]) -> Result<Text, NoMemory>
    ensures { IfOk result (λ text. text ≡ joined (map escaped (lines_of failures.now))) }
{
    let mut text = Text::new(alloc);
    for failure in failures {
        push_line(alloc, &mut text, failure.line.as_str())?;
    }
    Ok(text)
}

/// What a ban shows to which these failures led, which stand by time: of their lines the last `maxmatches`, with `_` in place of each
/// character that could mean something to a shell, and of these the last that fit into 8,192 bytes with ` / ` between them.
pub fn matches_of(alloc: Global, failures: &[Failure], maxmatches: u64) -> Result<Text, NoMemory>
    ensures { IfOk result (λ text. text ≡ matches_of maxmatches failures.now) }
{
    let first = first_shown(failures, maxmatches);
    joined(alloc, &failures[first..])
}
