//! The log that is tested, as a file.
ghost use Rattle.std.specs.Prelude.{◌≡◌, ◌<◌, ◌+◌, ◌^◌, IfErr, IfOk};
ghost use Rattle.regex_tool.specs.Asks.{shown};
ghost use Rattle.regex_tool.specs.Logs.{looks_of};
ghost use Rattle.regex_tool.specs.Readings.{HasLogCause, IsLogRead, IsOfLog, IsOpened};

use crate::log_test::LogTest;
use crate::results::Results;
use crate::status::ToolStatus;
use crate::trial::Trial;
use crate::words::Asked;
use f2b_base::{JailDef, LOOK_BYTES, NoMemory};
use f2b_world::{FilePiece, Files};
use std::alloc::Global;

/// The offset behind some bytes more. That there is none is want of memory: no file has so many.
fn further(at: u64, count: usize) -> Result<u64, NoMemory>
    ensures { IfOk result (λ next. next ≡ at + count) }
{
    at.checked_add(count as u64).ok_or(NoMemory)
}

/// Reads a log to its end, piece by piece, or tells that there is no such file. A file that goes while it is read ends there.
fn read_log<F: Files>(files: &mut F, path: &str, test: &mut LogTest<'_>) -> Result<bool, ToolStatus>
    ensures read { IfOk result (IsLogRead (F.stands files.old).shelf path.now test.old test.new) }
    ensures cause { IfErr result (HasLogCause (F.stands files.old) (F.stands files.new)) }
    ensures opened { IsOpened (F.stands files.old) (F.stands files.new) }
{
    let mut at: u64 = 0;
    // Each piece has a byte at least, so no file has more; and so it is seen that the reading ends.
    for _piece in 0..u64::MAX {
        match files.piece(path, at, LOOK_BYTES) {
            FilePiece::Bytes(bytes) if bytes.is_empty() => return Ok(true),
            FilePiece::Bytes(bytes) => {
                test.feed(bytes.as_slice())?;
                at = further(at, bytes.len())?;
            }
            FilePiece::Absent if at > 0 => return Ok(true),
            FilePiece::Absent => return Ok(false),
            FilePiece::Failed => return Err(ToolStatus::FileFault),
            FilePiece::NoMemory => return Err(ToolStatus::NoMemory),
        }
    }
    Err(ToolStatus::NoMemory)
}

/// What comes of the lines of a log, or of its path as one line where there is no such file.
pub(crate) fn results<F: Files>(
    alloc: Global,
    files: &mut F,
    jail: &JailDef,
    trial: &Trial,
    asked: &Asked<'_>,
    now: u64,
) -> Result<Results, ToolStatus>
    requires built { trial.now ≡ looks_of jail.now asked.now.shows }
    requires now { now < 2 ^ 40 }
    ensures results { IfOk result (IsOfLog (F.stands files.old).shelf jail.now (shown asked.now) now) }
    ensures cause { IfErr result (HasLogCause (F.stands files.old) (F.stands files.new)) }
    ensures opened { IsOpened (F.stands files.old) (F.stands files.new) }
{
    let mut test = LogTest::new(alloc, jail, trial, asked.shows, now)?;
    if read_log(files, asked.log, &mut test)? {
        let results = test.finish()?;
        return Ok(results);
    }
    let results = test.one_line(asked.log)?;
    Ok(results)
}
