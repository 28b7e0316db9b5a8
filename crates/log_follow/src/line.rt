//! A line of a log, as it is made of the bytes before its LF.
ghost use Rattle.std.specs.Prelude.{◌≡◌, IfOk};
ghost use Rattle.std.specs.Str.Lines.{strip_carriage_return};
ghost use Rattle.log_follow.specs.Lines.{line_of};

use crate::decode::decode;
use f2b_base::{NoMemory, Text};
use std::alloc::Global;

/// How many bytes a line may have before its LF, a CR counted.
pub const LONGEST: usize = 65_536;

/// A whole line.
#[derive(Debug, Drop, PartialEq, Eq)]
pub enum Line {
    /// Its text, without the one CR before its LF. Each byte that is in no well-formed UTF-8 sequence is one U+FFFD there, so it
    /// may have up to three times as many bytes as the line.
    Whole(Text),
    /// It has more than 65,536 bytes before its LF, a CR counted.
    Long,
}

impl Line {
    /// The line that has these bytes before its LF.
    pub fn of(alloc: Global, part: &[u8]) -> Result<Line, NoMemory>
        ensures { IfOk result (λ line. line ≡ line_of part.now) }
    {
        if part.len() > LONGEST {
            return Ok(Line::Long);
        }
        Ok(Line::Whole(decode(alloc, without_return(part))?))
    }
}

// The bytes without the one CR at their end, if there is one.
fn without_return(part: &[u8]) -> &[u8]
    ensures { result.now ≡ strip_carriage_return part.now }
{
    match part.split_last() {
        Some((b'\r', front)) => front,
        _ => part,
    }
}
