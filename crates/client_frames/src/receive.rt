//! A reply that is received over a link.
ghost use Rattle.std.specs.Prelude.{◌≡◌, ◌≢◌, ◌≤◌, ◌+◌, Bool, length, Err, IfNone, IfOk, IfSome, OnOk};
ghost use Rattle.f2b_world.specs.Faults.{OfLink, Rose};
ghost use Rattle.client_frames.specs.Frames.{IsReply, most_reply, verdict};
ghost use Rattle.client_frames.specs.Replies.{Answers, Fills, IsMore, IsTrueOf, IsWhole, Judges, Received, Says};

use crate::answer::Answer;
use crate::error::ReceiveError;
use crate::frame::{MOST_REPLY, said_length};
use crate::words::utf8_of;
use f2b_base::{Bytes, Text};
use f2b_world::{Link, LinkRead};
use std::alloc::Global;

/// The most bytes that are asked for at once.
const PIECE: usize = 65_536;

/// What the first byte of a reply says: whether the request was accepted.
fn accepted_by(first: u8) -> Option<bool>
    ensures some { IfSome result (λ accepted. first ≡ verdict accepted) }
    ensures none { IfNone result ((accepted : Bool) → first ≢ verdict accepted) }
{
    match first {
        0 => Some(true),
        1 => Some(false),
        _ => None,
    }
}

/// The reply that bytes are behind its length.
fn answer_of(alloc: Global, body: &[u8]) -> Result<Answer, ReceiveError>
    requires { length body.now ≤ most_reply }
    ensures { Answers body.now result }
{
    let [first, text @ ..] = body else {
        return Err(ReceiveError::BadReply);
    };
    let Some(accepted) = accepted_by(*first) else {
        return Err(ReceiveError::BadReply);
    };
    let Some(text) = utf8_of(text) else {
        return Err(ReceiveError::BadReply);
    };
    let text = Text::from_str(alloc, text)?;
    Ok(Answer { accepted, text })
}

/// The reply that a frame is.
fn reply_of(alloc: Global, whole: &[u8]) -> Result<Answer, ReceiveError>
    requires { IsWhole whole.now }
    ensures { Judges whole.now result }
{
    let (_, body) = whole.split_at(4);
    answer_of(alloc, body)
}

/// The length that came, where a reply can have it.
fn length_of(came: &[u8]) -> Result<usize, ReceiveError>
    requires { length came.now ≡ 4 }
    ensures { Says came.now result }
{
    let Some(count) = said_length(came) else {
        return Err(ReceiveError::BadReply);
    };
    if count == 0 || count > MOST_REPLY {
        return Err(ReceiveError::BadReply);
    }
    Ok(count as usize)
}

/// Receives until so many bytes have come in all.
fn receive_to<L: Link>(link: &mut L, came: &mut Bytes, count: usize) -> Result<(), ReceiveError>
    requires { length came.old ≤ count }
    ensures received { Received (L.stands link.old) (L.stands link.new) (Fills count came.old came.new result) }
    ensures more { OnOk result (IsMore came.old came.new) }
    ensures whole { OnOk result (length came.new ≡ count) }
    ensures fault { result ≡ Err ReceiveError.LinkFault → Rose ((L.stands link.old).faults OfLink) ((L.stands link.new).faults OfLink) }
{
    while came.len() < count {
        match link.receive((count - came.len()).min(PIECE) as u32) {
            LinkRead::Bytes(bytes) => came.push_slice(bytes.as_slice())?,
            LinkRead::End => return Err(ReceiveError::LinkEnded),
            LinkRead::Failed => return Err(ReceiveError::LinkFault),
            LinkRead::NoMemory => return Err(ReceiveError::NoMemory),
        }
    }
    Ok(())
}

/// Receives one reply, however the link cuts it, and no byte after it.
pub fn receive_reply<L: Link>(alloc: Global, link: &mut L) -> Result<Answer, ReceiveError>
    ensures received { Received (L.stands link.old) (L.stands link.new) (IsTrueOf result) }
    ensures fault { result ≡ Err ReceiveError.LinkFault → Rose ((L.stands link.old).faults OfLink) ((L.stands link.new).faults OfLink) }
    ensures bounds { IfOk result IsReply }
{
    let mut came = Bytes::new(alloc);
    receive_to(link, &mut came, 4)?;
    let count = length_of(came.as_slice())?;
    receive_to(link, &mut came, 4 + count)?;
    reply_of(alloc, came.as_slice())
}
