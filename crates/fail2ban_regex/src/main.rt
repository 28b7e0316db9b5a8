//! The program `fail2ban-regex`: tests a pattern or a filter on a log.
//!
//! What a test is, is in the crates below, over traits of the outside. Here stand these traits over the operating system, and the
//! words that the program is called with. That files, the clock and standard output are what the system says they are is trusted.
//! Nothing here knows what a test is, but for what helps whoever sits at a terminal: why a pattern is refused, and how far a log was
//! read.
//!
//! ```text
//! let mut output = Output::new(rt.clone()?);
//! let mut files = Watched::new(RealFiles::new(rt), None);
//! Ok(regex_tool(alloc, words, now, &mut files, &mut output).number())
//! ```
#![tactic(auto)]

mod advice;
mod fault;
mod files;
mod output;
mod regular;
mod terminal;
mod tree;
mod watched;
mod words;

use advice::advise;
use files::RealFiles;
use output::Output;
use regex_tool::{regex_tool, wants_detail};
use std::alloc::{AllocError, AllocGlobal, Global};
use std::io::Print;
use std::process::ExitCode;
use std::time::{Clock, SystemTime, UNIX_EPOCH};
use terminal::Terminal;
use watched::{Progress, Watched};
use words::Call;

/// The status where standard output cannot be written.
const SINK_FAULT: u8 = 9;

/// The status where memory ran out.
const NO_MEMORY: u8 = 71;

fn main(rt: HostRuntime) -> ExitCode {
    ExitCode::from(match words::read_call(&rt) {
        Ok(Call::Help) => print(&rt, words::HELP),
        Ok(Call::Version) => print(&rt, words::VERSION),
        Ok(Call::Test(words)) => match test(rt, words.as_slice()) {
            Ok(number) => number,
            Err(_) => NO_MEMORY,
        },
        Err(_) => NO_MEMORY,
    })
}

/// What shows how far a log was read, where a terminal is there and the words want details.
fn progress_for(alloc: Global, words: &[String], terminal: Option<Terminal>) -> Option<Progress> {
    match terminal {
        Some(terminal) if wants_detail(alloc, words) => Some(Progress::new(alloc, terminal)),
        _ => None,
    }
}

/// Makes the test of these words, and gives its exit status.
fn test(rt: HostRuntime, words: &[String]) -> Result<u8, AllocError> {
    let now = seconds(&rt);
    let alloc = rt.alloc();
    let progress = progress_for(alloc, words, Terminal::of(rt.stderr()));
    let terminal = Terminal::of(rt.stderr());
    let mut output = Output::new(rt.clone()?);
    let mut files = Watched::new(RealFiles::new(rt), progress);
    let status = regex_tool(alloc, words, now, &mut files, &mut output);
    if let Some(terminal) = terminal {
        advise(alloc, words, &status, &mut files, &terminal);
    }
    Ok(status.number())
}

/// Seconds since 1970, or 0 where the clock cannot be read.
fn seconds(rt: &impl Clock) -> u64 {
    let Ok(now) = SystemTime::now(rt) else {
        return 0;
    };
    match now.duration_since(UNIX_EPOCH) {
        Ok(since) => since.as_secs(),
        Err(_) => 0,
    }
}

fn print(rt: &impl Print, text: &str) -> u8 {
    match rt.write_all(text.as_bytes()) {
        Ok(()) => 0,
        Err(_) => SINK_FAULT,
    }
}
