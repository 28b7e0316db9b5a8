//! The program `fail2ban-client`: asks a server that runs.
//!
//! What a call does is in the crates below, over traits of the outside. Here stand these traits over the operating system, and the
//! words that the program is called with. That the socket and standard output are what the system says they are is trusted. Nothing
//! here knows what a request is, but for the words of help and the sentence for whoever sits at a terminal.
//!
//! ```text
//! let mut output = Output::new(rt.clone()?);
//! let mut link = RealLink::new(rt);
//! let number = client(alloc, words.as_slice(), &mut link, &mut output).number();
//! ```
#![tactic(auto)]

mod advice;
mod link;
mod nearest;
mod output;
mod sleep;
mod words;

use advice::advice;
use client_tool::{ClientStatus, client};
use link::RealLink;
use nearest::{Hint, meant};
use output::{Output, write_whole};
use std::alloc::{AllocError, AllocGlobal};
use std::io::{IsTerminal, Write};
use std::process::ExitCode;
use words::Call;

/// The status where standard output cannot be written.
const SINK_FAULT: u8 = 9;

/// The status where memory ran out.
const NO_MEMORY: u8 = 71;

fn main(rt: HostRuntime) -> ExitCode {
    ExitCode::from(match words::read_call(&rt) {
        Ok(Call::Help) => print(&rt, words::HELP),
        Ok(Call::Version) => print(&rt, words::VERSION),
        Ok(Call::Client(words)) => match call(rt, words.as_slice()) {
            Ok(number) => number,
            Err(_) => NO_MEMORY,
        },
        Err(_) => NO_MEMORY,
    })
}

/// Does what these words ask for, and gives the exit status.
fn call(rt: HostRuntime, words: &[String]) -> Result<u8, AllocError> {
    let alloc = rt.alloc();
    // The output looks first whether there is one: else the socket could get its number.
    let mut output = Output::new(rt.clone()?);
    let mut link = RealLink::new(rt.clone()?);
    let status = client(alloc, words, &mut link, &mut output);
    if let Some(sentence) = advice(status) {
        advise(&rt, &[sentence]);
    }
    if let ClientStatus::Refused = status {
        help_on(&rt, words);
    }
    Ok(status.number())
}

/// Says which word is the nearest one, where words that were refused name no command.
fn help_on(rt: &HostRuntime, words: &[String]) {
    match meant(words) {
        Some(Hint::Word(near)) => advise(rt, &["did you mean ", near, "?"]),
        Some(Hint::Nothing) => advise(rt, &["fail2ban-client --help lists the words"]),
        None => (),
    }
}

/// Writes a line of these pieces to standard error where that is a terminal. Nothing follows where it cannot be written.
fn advise(rt: &HostRuntime, pieces: &[&str]) {
    let mut errors = rt.stderr();
    if errors.is_terminal() {
        for piece in pieces {
            let _ = errors.write_all(piece.as_bytes());
        }
        let _ = errors.write_all(b"\n");
    }
}

fn print(rt: &HostRuntime, text: &str) -> u8 {
    match write_whole(rt, text.as_bytes()) {
        Ok(()) => 0,
        Err(_) => SINK_FAULT,
    }
}
