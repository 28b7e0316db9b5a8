//! The words that the client is called with.
ghost use Rattle.std.specs.Prelude.{◌≡◌, ◌∷◌, map, option_map, string_bytes, IfOk};
ghost use Rattle.client_tool.specs.Asks.{asks_by, asks_of, behind_quiet, behind_socket, behind_str2sec, request_at, request_to, shown};

use client_frames::are_request;
use f2b_base::{NoMemory, Seq, Text};
use jail_conf::str2sec;
use std::alloc::Global;

/// Where a server's socket is, if nothing else is said.
pub const USUAL_SOCKET: &str = "/var/run/fail2ban/fail2ban.sock";

/// What the words ask for.
#[derive(Drop)]
pub(crate) enum Asked<'w> {
    /// That these words are sent to the server at this path, as one request.
    Request {
        /// Whether nothing is said of a reply that accepts it.
        quiet: bool,
        socket: &'w str,
        words: Seq<Text>,
    },
    /// How many seconds a time word stands for.
    Seconds(i64),
}

/// The words as texts of their own.
fn texts_of(alloc: Global, words: &[String]) -> Result<Seq<Text>, NoMemory>
    ensures { IfOk result (λ texts. texts ≡ map string_bytes words.now) }
{
    let mut texts = Seq::new(alloc);
    for word in words {
        texts.push(Text::from_str(alloc, word.as_str())?)?;
    }
    Ok(texts)
}

fn request_at<'w>(
    alloc: Global,
    quiet: bool,
    socket: &'w str,
    words: &[String],
) -> Result<Option<Asked<'w>>, NoMemory>
    ensures { IfOk result (λ asked. option_map shown asked ≡ request_at quiet socket.entry.now (map string_bytes words.now)) }
{
    let words = texts_of(alloc, words)?;
    if are_request(&words) {
        return Ok(Some(Asked::Request {
            quiet,
            socket,
            words,
        }));
    }
    Ok(None)
}

/// What is asked of the server at a path by words that begin with this one.
fn request_by<'w>(
    alloc: Global,
    quiet: bool,
    socket: &'w str,
    first: &str,
    rest: &[String],
    words: &[String],
) -> Result<Option<Asked<'w>>, NoMemory>
    requires { map string_bytes words.now ≡ first.now ∷ map string_bytes rest.now }
    ensures { IfOk result (λ asked. option_map shown asked ≡ request_to quiet socket.entry.now (first.now ∷ map string_bytes rest.now)) }
{
    if first == "-q" {
        return request_at(alloc, true, socket, rest);
    }
    request_at(alloc, quiet, socket, words)
}

/// What is asked of the server at a path, perhaps behind `-q`.
fn request_to<'w>(
    alloc: Global,
    quiet: bool,
    socket: &'w str,
    words: &[String],
) -> Result<Option<Asked<'w>>, NoMemory>
    ensures { IfOk result (λ asked. option_map shown asked ≡ request_to quiet socket.entry.now (map string_bytes words.now)) }
{
    let [first, rest @ ..] = words else {
        return Ok(None);
    };
    request_by(alloc, quiet, socket, first.as_str(), rest, words)
}

/// What is asked behind `-s`.
fn behind_socket(
    alloc: Global,
    quiet: bool,
    words: &[String],
) -> Result<Option<Asked<'_>>, NoMemory>
    ensures { IfOk result (λ asked. option_map shown asked ≡ behind_socket quiet (map string_bytes words.entry.now)) }
{
    match words {
        [socket, words @ ..] => request_to(alloc, quiet, socket.as_str(), words),
        [] => Ok(None),
    }
}

/// What is asked behind `--str2sec`.
fn behind_str2sec<'w>(words: &[String]) -> Option<Asked<'w>>
    ensures { option_map shown result ≡ behind_str2sec (map string_bytes words.now) }
{
    match words {
        [word] => {
            let seconds = str2sec(word.as_str())?;
            Some(Asked::Seconds(seconds))
        }
        _ => None,
    }
}

/// What is asked behind `-q` by words that begin with this one.
fn quiet_by<'w>(
    alloc: Global,
    first: &str,
    rest: &'w [String],
    words: &'w [String],
) -> Result<Option<Asked<'w>>, NoMemory>
    requires { map string_bytes words.now ≡ first.now ∷ map string_bytes rest.now }
    ensures { IfOk result (λ asked. option_map shown asked ≡ behind_quiet (first.now ∷ map string_bytes rest.entry.now)) }
{
    match first {
        "-s" => behind_socket(alloc, true, rest),
        "--str2sec" | "-d" | "-t" => Ok(None),
        _ => request_at(alloc, true, USUAL_SOCKET, words),
    }
}

/// What is asked behind `-q`.
fn behind_quiet(alloc: Global, words: &[String]) -> Result<Option<Asked<'_>>, NoMemory>
    ensures { IfOk result (λ asked. option_map shown asked ≡ behind_quiet (map string_bytes words.entry.now)) }
{
    let [first, rest @ ..] = words else {
        return Ok(None);
    };
    quiet_by(alloc, first.as_str(), rest, words)
}

/// What the words ask for that begin with this one.
fn asked_by<'w>(
    alloc: Global,
    first: &str,
    rest: &'w [String],
    words: &'w [String],
) -> Result<Option<Asked<'w>>, NoMemory>
    requires { map string_bytes words.now ≡ first.now ∷ map string_bytes rest.now }
    ensures { IfOk result (λ asked. option_map shown asked ≡ asks_by first.now (map string_bytes rest.entry.now)) }
{
    match first {
        "-q" => behind_quiet(alloc, rest),
        "-s" => behind_socket(alloc, false, rest),
        "--str2sec" => Ok(behind_str2sec(rest)),
        "-d" | "-t" => Ok(None),
        _ => request_at(alloc, false, USUAL_SOCKET, words),
    }
}

/// What the words ask for, where they ask for something.
#[tactic(auto, unfolding(crate::specs::Asks::asks_of))]
pub(crate) fn read_words(alloc: Global, words: &[String]) -> Result<Option<Asked<'_>>, NoMemory>
    ensures { IfOk result (λ asked. option_map shown asked ≡ asks_of (map string_bytes words.entry.now)) }
{
    let [first, rest @ ..] = words else {
        return Ok(None);
    };
    asked_by(alloc, first.as_str(), rest, words)
}
