//! What is replied to what is heard of a client, and what happens by it.
ghost use Rattle.std.specs.Prelude.{◌≡◌, ◌<◌, ◌≤◌, ◌^◌, ◌≢◌, length, IfOk, IfSome, Some};
ghost use Rattle.client_frames.specs.Comes.{told};
ghost use Rattle.client_frames.specs.Frames.{most_text};
ghost use Rattle.client_replies.specs.Refusals.{refusal};
ghost use Rattle.client_words.specs.Bounds.{IsBoundedRequest};
ghost use Rattle.client_words.specs.Refusals.{refusal_of};
ghost use Rattle.client_words.specs.declared.error.CommandError.TheVariants.{BadAddress};
ghost use Rattle.client_words.specs.declared.request.Request.TheVariants.{Reload};
ghost use Rattle.run_law.specs.Requests.{refusing, rereading, stop_lines, to_request, to_words};
ghost use Rattle.turn_clients.specs.Responding.{HasFewWords, IsFit, IsFitReply, RespondsAs, RespondsTo, told_by};
ghost use Rattle.turn_clients.specs.declared.response.Response.TheVariants.{Replies};

use client_frames::{Answer, FrameError};
use client_replies::{effect, reply};
use client_words::{CommandError, Request, command};
use f2b_base::{Bytes, NoMemory, Seq, Text, What};
use jail_core::Core;
use run_steps::{Clocked, stopping_line};
use std::alloc::Global;

/// A reply, and what is brought beside it.
#[derive(Drop)]
pub(crate) struct Reply {
    pub answer: Answer,
    /// What happens, if that is an input.
    pub what: Option<What>,
    /// The lines behind those that it tells.
    pub behind: Seq<Bytes>,
}

/// What is made of what is heard of a client.
#[derive(Drop)]
pub(crate) enum Response {
    /// It is replied to so.
    Replies(Reply),
    /// The configuration is read again, and it is replied to behind that.
    ReadsAgain,
}

// Nothing happens by what is refused.
fn refusing(alloc: Global, why: Text) -> Response
    requires { length why ≤ most_text }
    ensures is { told_by result ≡ refusing why }
    ensures fit { IsFit result }
{
    Response::Replies(Reply {
        answer: Answer {
            accepted: false,
            text: why,
        },
        what: None,
        behind: Seq::new(alloc),
    })
}

// A stop that comes is said.
fn stop_lines(alloc: Global, now: u64, what: &Option<What>) -> Result<Seq<Bytes>, NoMemory>
    ensures { IfOk result (λ lines. lines ≡ stop_lines now what.now) }
{
    let mut lines = Seq::new(alloc);
    if let Some(What::Stop) = what {
        lines.push(stopping_line(alloc, now)?)?;
    }
    Ok(lines)
}

// A configuration is read again, unless the state refuses that.
#[tactic(auto, using(crate::proofs::ResponseLemmas::reloading))]
fn reload(alloc: Global, core: &Core, now: u64) -> Result<Response, NoMemory>
    ensures is { IfOk result (λ given. told_by given ≡ rereading (refusal core.now Reload)) }
    ensures fit { IfOk result IsFit }
{
    let Answer { accepted, text } = reply(alloc, core, now, &Request::Reload)?;
    if accepted {
        return Ok(Response::ReadsAgain);
    }
    Ok(refusing(alloc, text))
}

// The reply to a request that is no reload, and what happens by it, both over the state that it meets.
#[tactic(auto, using(crate::proofs::ResponseLemmas::requesting))]
fn answer_request(alloc: Global, clocked: &Clocked, request: &Request) -> Result<Reply, NoMemory>
    requires other { request.now ≢ Reload }
    requires bounded { IsBoundedRequest request.now }
    ensures is { IfOk result (λ given. RespondsAs clocked.entry.now (λ now s. to_request now s request.now) (Replies given)) }
    ensures fit { IfOk result IsFitReply }
{
    let core = clocked.engine.core();
    let answer = reply(alloc, core, clocked.now, request)?;
    let what = effect(alloc, core, request)?;
    let behind = stop_lines(alloc, clocked.now, &what)?;
    Ok(Reply {
        answer,
        what,
        behind,
    })
}

// The response to a request.
#[tactic(auto, using(crate::proofs::ResponseLemmas::requesting))]
fn to_request(alloc: Global, clocked: &Clocked, request: &Request) -> Result<Response, NoMemory>
    requires { IsBoundedRequest request.now }
    ensures is { IfOk result (RespondsAs clocked.entry.now (λ now s. to_request now s request.now)) }
    ensures fit { IfOk result IsFit }
{
    if let Request::Reload = request {
        return reload(alloc, clocked.engine.core(), clocked.now);
    }
    Ok(Response::Replies(answer_request(alloc, clocked, request)?))
}

// What is told of an address that is none, by the place of its word.
fn address_refusal(alloc: Global, place: u32) -> Result<Text, NoMemory>
    ensures is { IfOk result (λ why. refusal_of (BadAddress place) ≡ Some why) }
    ensures short { IfOk result (λ why. length why ≤ most_text) }
{
    CommandError::BadAddress(place).refusal(alloc)
}

// What is told of words that are refused. It can be sent.
fn command_refusal(alloc: Global, error: CommandError) -> Result<Text, NoMemory>
    ensures is { IfOk result (λ why. refusal_of error ≡ Some why) }
    ensures short { IfOk result (λ why. length why ≤ most_text) }
{
    if let CommandError::BadAddress(place) = error {
        return address_refusal(alloc, place);
    }
    error.refusal(alloc)
}

// The response to words, which are a request or none.
#[tactic(auto, using(crate::proofs::ResponseLemmas::wording))]
fn to_words(alloc: Global, clocked: &Clocked, words: &Seq<Text>) -> Result<Response, NoMemory>
    requires { length words.now < 2 ^ 32 }
    ensures is { IfOk result (RespondsAs clocked.entry.now (λ now s. to_words now s words.now)) }
    ensures fit { IfOk result IsFit }
{
    match command(alloc, words) {
        Ok(request) => to_request(alloc, clocked, &request),
        Err(error) => {
            let why = command_refusal(alloc, error)?;
            Ok(refusing(alloc, why))
        }
    }
}

/// What is heard of a client is responded to, over the state before anything happens by it, unless it is a part of a request.
#[tactic(auto, using(crate::proofs::ResponseLemmas::hearing))]
pub(crate) fn respond(
    alloc: Global,
    clocked: &Clocked,
    heard: Result<Option<Seq<Text>>, FrameError>,
) -> Result<Option<Response>, NoMemory>
    requires { IfSome (told heard) HasFewWords }
    ensures is { IfOk result (RespondsTo clocked.entry.now (told heard)) }
    ensures fit { IfOk result (λ given. IfSome given IsFit) }
{
    match heard {
        Ok(None) => Ok(None),
        Ok(Some(words)) => Ok(Some(to_words(alloc, clocked, &words)?)),
        Err(error) => match error.refusal() {
            Some(why) => Ok(Some(refusing(alloc, Text::from_str(alloc, why)?))),
            None => Err(NoMemory),
        },
    }
}
