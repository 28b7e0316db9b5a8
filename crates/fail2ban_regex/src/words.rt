//! What the program is called with.
//!
//! `-h`, `--help`, `-V` and `--version` are answered here. All other words are the tester's own.

use std::alloc::AllocGlobal;
use std::io::ErrorKind;
use std::rt::Env;
use std::{env, io};

/// The text of `-h` and `--help`.
pub const HELP: &str = "\
Usage: fail2ban-regex [OPTIONS] LOG REGEX [IGNOREREGEX]
       fail2ban-regex --help | --version

Tells which lines of a log a pattern or a filter finds.

  LOG          the path of a log; where there is no such file it is the
               one line that is tested
  REGEX        a pattern with one of <HOST>, <ADDR>, <IP4>, <IP6>, <DNS>;
               or a filter, by its file: DIR/filter.d/NAME.conf
               or with -c by its name: NAME or NAME[OPTION=VALUE]
  IGNOREREGEX  a pattern of lines that are ignored, in place of the filter's
  -d PATTERN   how a line is dated, in place of the filter's datepattern
  -c DIR       the directory of a configuration, where REGEX may be the
               name of a filter
  -o FORM      in place of the report: ip, the address of each failure; or
               row, its address, its time in seconds and its line
  --timezone ZONE
               the zone of dates without one: Z, or UTC or GMT with nothing
               behind it or +hhmm or -hhmm; else that of UTC
  --print-all-matched, --print-all-ignored, --print-all-missed
               behind that, all lines of this kind
  -v           all matched lines, each with the number of its pattern, its
               address, its time, in seconds and as a clock shows it, and the
               first and the last byte of its date; and what may be wrong
  -h, --help   print this help
  -V, --version
               print the version

A pattern that begins with - stands behind the word --.

Exit status:
   0  the report was printed
   2  the words are none of those above
   3  a file or a directory cannot be read
   4  the files of the filter are refused
   9  standard output cannot be written
  10  the directory of the filter has too many files, or too large ones
  11  a pattern is refused
  71  out of memory
";

/// The text of `-V` and `--version`.
pub const VERSION: &str = "fail2ban-regex 0.1.0\n";

/// What the program was asked for.
#[derive(Debug, Drop)]
pub enum Call {
    Help,
    Version,
    /// The tester, with its words. There are none where a word was not text.
    Test(Vec<String>),
}

/// Reads what the program was called with.
pub fn read_call<R: Env + AllocGlobal>(rt: &R) -> io::Result<Call> {
    let words = match read_words(rt) {
        Ok(words) => words,
        Err(e) if e.kind() == ErrorKind::InvalidData => Vec::new(rt.alloc()),
        Err(e) => return Err(e),
    };
    Ok(match words.first().map(String::as_str) {
        Some("-h" | "--help") => Call::Help,
        Some("-V" | "--version") => Call::Version,
        _ => Call::Test(words),
    })
}

fn read_words<R: Env + AllocGlobal>(rt: &R) -> io::Result<Vec<String>> {
    let mut args = env::args(rt)?;
    let _program = args.next();
    Ok(args.collect(rt.alloc())?)
}
