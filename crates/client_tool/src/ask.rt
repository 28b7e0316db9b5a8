//! A request that is sent, and its reply.
ghost use Rattle.std.specs.Prelude.{◌≡◌, ◌&&◌, Err, Some, false, true};
ghost use Rattle.client_frames.specs.Frames.{AreRequest, request};
ghost use Rattle.client_frames.specs.declared.error.ReceiveError.TheVariants as error;
ghost use Rattle.client_tool.specs.Asks.{Request};
ghost use Rattle.client_tool.specs.Ends.{Ends, MayClose, MayTell, is_said, status_of};
ghost use Rattle.client_tool.specs.declared.status.ClientStatus.TheVariants.{Done};
ghost use Rattle.client_tool.specs.Lines.{reply_line};
ghost use Rattle.client_tool.specs.Talks.{IsHeard, SendsAtMost, Talks};
ghost use Rattle.f2b_world.specs.Faults.{OfLink, Rose};

use crate::line::reply_line;
use crate::say::say;
use crate::status::ClientStatus;
use client_frames::{Answer, ReceiveError, receive_reply, request_frame};
use f2b_base::{NoMemory, Seq, Text};
use f2b_world::{Link, Linked, Sink};
use std::alloc::Global;

/// Sends a request to the server at a path, and receives its reply.
fn exchange<L: Link>(
    alloc: Global,
    socket: &str,
    words: &Seq<Text>,
    link: &mut L,
) -> Result<Answer, ReceiveError>
    requires { AreRequest words.now }
    ensures talks { Talks (L.stands link.old) (L.stands link.new) (SendsAtMost (request words.now)) }
    ensures heard { IsHeard socket.now words.now result (L.stands link.old) (L.stands link.new) }
    ensures fault { result ≡ Err error.LinkFault → Rose ((L.stands link.old).faults OfLink) ((L.stands link.new).faults OfLink) }
{
    let frame = request_frame(alloc, words)?;
    if let Linked::Failed = link.connect(socket) {
        return Err(ReceiveError::LinkFault);
    }
    if let Linked::Failed = link.send(frame.as_slice()) {
        return Err(ReceiveError::LinkFault);
    }
    receive_reply(alloc, link)
}

/// Whether nothing is said of a reply: it accepts, and that is to be kept quiet.
fn is_hushed(quiet: bool, accepted: bool) -> bool
    ensures { result ≡ (quiet && accepted) }
{
    quiet && accepted
}

/// Says the reply to these words.
fn tell<K: Sink>(alloc: Global, words: &Seq<Text>, answer: Answer, sink: &mut K) -> ClientStatus
    ensures closes { MayClose (reply_line words.now answer) (status_of answer.accepted) (K.stands sink.old) (K.stands sink.new) result }
    ensures quiet { is_said result ≡ false → sink.new ≡ sink.old }
{
    let status = ClientStatus::of_verdict(answer.accepted);
    match reply_line(alloc, words, answer) {
        Ok(line) => say(sink, line.as_str(), status),
        Err(NoMemory) => ClientStatus::NoMemory,
    }
}

/// Says the reply to these words, unless it accepts them and that is to be kept quiet.
#[tactic(auto, using(crate::proofs::AnswerLemmas::kept_quiet, crate::proofs::AnswerLemmas::may_tell, crate::proofs::AnswerLemmas::never_done))]
fn tell_or_not<K: Sink>(
    alloc: Global,
    quiet: bool,
    words: &Seq<Text>,
    answer: Answer,
    sink: &mut K,
) -> ClientStatus
    ensures tells { MayTell (quiet && answer.accepted) (reply_line words.now answer) (status_of answer.accepted) (K.stands sink.old) (K.stands sink.new) result }
    ensures quiet { is_said result ≡ false → sink.new ≡ sink.old }
    ensures hushed { quiet ≡ true → result ≡ Done → sink.new ≡ sink.old }
{
    if is_hushed(quiet, answer.accepted) {
        return ClientStatus::Done;
    }
    tell(alloc, words, answer, sink)
}

/// Asks the server at a path, and says its reply, unless it accepts and that is to be kept quiet.
#[tactic(auto, using(crate::proofs::AnswerLemmas::ends_told))]
pub(crate) fn ask<L: Link, K: Sink>(
    alloc: Global,
    quiet: bool,
    socket: &str,
    words: &Seq<Text>,
    link: &mut L,
    sink: &mut K,
) -> ClientStatus
    requires { AreRequest words.now }
    ensures ends { Ends (Some (Request quiet socket.now words.now)) (L.stands link.old) (L.stands link.new) (K.stands sink.old) (K.stands sink.new) result }
    ensures quiet { is_said result ≡ false → sink.new ≡ sink.old }
    ensures hushed { quiet ≡ true → result ≡ Done → sink.new ≡ sink.old }
{
    match exchange(alloc, socket, words, link) {
        Ok(answer) => tell_or_not(alloc, quiet, words, answer, sink),
        Err(error) => ClientStatus::of_failure(error),
    }
}
