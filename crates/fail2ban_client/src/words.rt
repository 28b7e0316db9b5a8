//! What the client's program is called with.
//!
//! `-h`, `--help`, `-V` and `--version` are answered here. All other words are the client's own.

use std::alloc::AllocGlobal;
use std::io::ErrorKind;
use std::rt::Env;
use std::{env, io};

/// The text of `-h` and `--help`.
pub const HELP: &str = "\
Usage: fail2ban-client [-q] [-s SOCKET] COMMAND
       fail2ban-client --str2sec TIME
       fail2ban-client --help | --version

Asks a fail2ban-server that runs, and prints its reply.

  -q             print nothing but why a request is refused
  -s SOCKET      the socket of the server, else
                 /var/run/fail2ban/fail2ban.sock
  --str2sec TIME print the seconds of a time, as 10m or \"1h 30m\", and ask
                 no server
  -h, --help     print this help
  -V, --version  print the version

Commands:
  ping                             whether a server is there
  version                          the version of the server
  status [JAIL]                    the jails; or what one of them counts
  status --all                     what each of them counts
  banned                           who is banned, jail by jail
  banned IP ..                     which jails hold these addresses
  unban --all                      end all bans
  unban IP ..                      end the bans of these addresses
  reload                           read the configuration again
  stop                             end the server
  set JAIL banip IP ..             ban these addresses
  set JAIL unbanip IP ..           end their bans in this jail
  set JAIL attempt IP              count a failure of the address, now
  set JAIL addignoreip MASK        ban nobody whom the mask holds any more
  set JAIL delignoreip MASK        take the mask out of those again
  set JAIL findtime TIME           count failures over this time
  set JAIL bantime TIME            ban for this time
  set JAIL maxretry N              ban for so many failures
  set JAIL idle on|off             let the logs be; follow them again
  get JAIL banip|findtime|bantime|maxretry|ignoreip|logpath|failregex
  get JAIL ignoreregex|datepattern|maxmatches|bantime.increment|actions
                                   what the jail has
  get JAIL banip --with-time       who is banned, since and until when

Exit status:
   0  the request was accepted, and the reply was printed
   1  the request was refused, and why was printed
   2  the words are none of those above, or more than 65,536 bytes
   8  no server can be reached at the socket, or it says nothing for 30
      seconds
   9  standard output cannot be written
  12  what came of the socket is no reply
  13  the server ended before its reply was whole
  71  out of memory
";

/// The text of `-V` and `--version`.
pub const VERSION: &str = "fail2ban-client 0.1.0\n";

/// What the program was asked for.
#[derive(Debug, Drop)]
pub enum Call {
    Help,
    Version,
    /// The client, with its words. There are none where a word was not text.
    Client(Vec<String>),
}

/// Reads what the program was called with.
pub fn read_call<R: Env + AllocGlobal>(rt: &R) -> io::Result<Call> {
    let words = match read_words(rt) {
        Ok(words) => words,
        Err(e) if e.kind() == ErrorKind::InvalidData => Vec::new(rt.alloc()),
        Err(e) => return Err(e),
    };
    Ok(match words.first().map(String::as_str) {
        Some("-h" | "--help") => Call::Help,
        Some("-V" | "--version") => Call::Version,
        _ => Call::Client(words),
    })
}

fn read_words<R: Env + AllocGlobal>(rt: &R) -> io::Result<Vec<String>> {
    let mut args = env::args(rt)?;
    let _program = args.next();
    Ok(args.collect(rt.alloc())?)
}
