//! A whole call of the client.
ghost use Rattle.std.specs.Prelude.{◌≡◌, None, false, true, map, option_map, string_bytes};
ghost use Rattle.client_frames.specs.declared.error.ReceiveError.TheVariants as error;
ghost use Rattle.client_tool.specs.Asks.{IsBounded, asks_of, asks_server, frame_of, is_quiet, shown};
ghost use Rattle.client_tool.specs.Ends.{Ends, IsDone, IsRefused, IsUnanswered, IsUsage, MayClose, is_said};
ghost use Rattle.client_tool.specs.Lines.{seconds_line};
ghost use Rattle.client_tool.specs.Talks.{SendsAtMost, Talks};
ghost use Rattle.client_tool.specs.declared.status.ClientStatus.TheVariants.{Done, Refused, Usage, LinkFault, SinkFault, BadReply, LinkEnded};
ghost use Rattle.f2b_world.specs.Faults.{OfLink, OfSink, Rose};

use crate::ask::ask;
use crate::asked::{Asked, read_words};
use crate::line::seconds_line;
use crate::say::say;
use crate::status::ClientStatus;
use f2b_base::NoMemory;
use f2b_world::{Link, Sink};
use std::alloc::Global;

/// Says how many seconds a time word stands for.
fn tell_seconds<K: Sink>(alloc: Global, seconds: i64, sink: &mut K) -> ClientStatus
    ensures closes { MayClose (seconds_line seconds) Done (K.stands sink.old) (K.stands sink.new) result }
    ensures quiet { is_said result ≡ false → sink.new ≡ sink.old }
{
    match seconds_line(alloc, seconds) {
        Ok(line) => say(sink, line.as_str(), ClientStatus::Done),
        Err(NoMemory) => ClientStatus::NoMemory,
    }
}

/// Does what is asked for, if anything is.
fn carry_out<L: Link, K: Sink>(
    alloc: Global,
    asked: Option<Asked<'_>>,
    link: &mut L,
    sink: &mut K,
) -> ClientStatus
    requires { IsBounded (option_map shown asked) }
    ensures ends { Ends (option_map shown asked.entry) (L.stands link.old) (L.stands link.new) (K.stands sink.old) (K.stands sink.new) result }
    ensures quiet { is_said result ≡ false → sink.new ≡ sink.old }
    ensures hushed { is_quiet (option_map shown asked.entry) ≡ true → result ≡ Done → sink.new ≡ sink.old }
    ensures unlinked { asks_server (option_map shown asked.entry) ≡ false → link.new ≡ link.old }
{
    match asked {
        Some(
            Asked::Request {
                quiet,
                socket,
                words,
            },
        ) => ask(alloc, quiet, socket, &words, link, sink),
        Some(Asked::Seconds(seconds)) => tell_seconds(alloc, seconds, sink),
        None => ClientStatus::Usage,
    }
}

/// Does what the words ask for: `[-q] [-s SOCKET] WORD ..` sends the words to the server at that socket, or at the usual one, as one
/// request, and says the text of its reply and a LF. Of a `ping` that is accepted it says `Server replied: pong`, and with `-q`, in front
/// of `-s` or behind its path, nothing of any request that is. `--str2sec WORD` says the seconds of a time word, and makes no call on the
/// link.
pub fn client<L: Link, K: Sink>(
    alloc: Global,
    words: &[String],
    link: &mut L,
    sink: &mut K,
) -> ClientStatus
    ensures usage { result ≡ Usage → asks_of (map string_bytes words.now) ≡ None }
    ensures nothing { asks_of (map string_bytes words.now) ≡ None → IsUsage result }
    ensures done { result ≡ Done → IsDone (asks_of (map string_bytes words.now)) (L.stands link.old) (L.stands link.new) (K.stands sink.old) (K.stands sink.new) }
    ensures refused { result ≡ Refused → IsRefused (asks_of (map string_bytes words.now)) (L.stands link.old) (L.stands link.new) (K.stands sink.old) (K.stands sink.new) }
    ensures bad_reply { result ≡ BadReply → IsUnanswered error.BadReply (asks_of (map string_bytes words.now)) (L.stands link.old) (L.stands link.new) }
    ensures link_ended { result ≡ LinkEnded → IsUnanswered error.LinkEnded (asks_of (map string_bytes words.now)) (L.stands link.old) (L.stands link.new) }
    ensures link_fault { result ≡ LinkFault → Rose ((L.stands link.old).faults OfLink) ((L.stands link.new).faults OfLink) }
    ensures sink_fault { result ≡ SinkFault → Rose ((K.stands sink.old).faults OfSink) ((K.stands sink.new).faults OfSink) }
    ensures talks { Talks (L.stands link.old) (L.stands link.new) (SendsAtMost (frame_of (asks_of (map string_bytes words.now)))) }
    ensures quiet { is_said result ≡ false → sink.new ≡ sink.old }
    ensures hushed { is_quiet (asks_of (map string_bytes words.now)) ≡ true → result ≡ Done → sink.new ≡ sink.old }
    ensures unlinked { asks_server (asks_of (map string_bytes words.now)) ≡ false → link.new ≡ link.old }
{
    match read_words(alloc, words) {
        Ok(asked) => carry_out(alloc, asked, link, sink),
        Err(NoMemory) => ClientStatus::NoMemory,
    }
}
