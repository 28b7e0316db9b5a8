//! The frame of a request, as a client sends it and as it comes to a server.
ghost use Rattle.std.specs.Prelude.{◌≡◌, ◌↔◌, ◌<◌, ◌≤◌, ◌+◌, ◌^◌, length, IsTrue, IfOk, IfSome};
ghost use Rattle.client_frames.specs.Comes.{Is, IsWithin, heard, told};
ghost use Rattle.client_frames.specs.Frames.{AreRequest, most_request, request, spelling};

use crate::error::FrameError;
use crate::frame::{MOST_REQUEST, push_length, said_length};
use crate::words::{push_word, words_of};
use f2b_base::{Bytes, NoMemory, Seq, Text};
use std::alloc::Global;

/// Whether words are no longer together than a request may be.
fn are_few(words: &[Text]) -> bool
    ensures { IsTrue result ↔ (length (spelling words.now) ≤ most_request) }
{
    let mut left = MOST_REQUEST as usize;
    for word in words {
        let len = word.as_str().len().saturating_add(2);
        if left < len {
            return false;
        }
        left -= len;
    }
    true
}

/// Whether words are a request: there is one, and the frame has at most 65,536 bytes behind its length.
pub fn are_request(words: &Seq<Text>) -> bool
    ensures { IsTrue result ↔ AreRequest words.now }
{
    !words.is_empty() && are_few(words.as_slice())
}

/// The words, one behind the other.
fn spelling_of(alloc: Global, words: &[Text]) -> Result<Bytes, NoMemory>
    requires { length (spelling words.now) ≤ most_request }
    ensures { IfOk result (λ body. body ≡ spelling words.now) }
{
    let mut body = Bytes::new(alloc);
    for word in words {
        push_word(&mut body, word.as_str())?;
    }
    Ok(body)
}

/// The frame of a request. Ask `are_request` first.
#[tactic(auto, unfolding(crate::specs::Frames::request, crate::specs::Frames::framed))]
pub fn request_frame(alloc: Global, words: &Seq<Text>) -> Result<Bytes, NoMemory>
    requires { AreRequest words.now }
    ensures { IfOk result (λ frame. frame ≡ request words.now) }
{
    let body = spelling_of(alloc, words.as_slice())?;
    let mut frame = Bytes::new(alloc);
    push_length(&mut frame, body.len() as u32)?;
    frame.push_slice(body.as_slice())?;
    Ok(frame)
}

/// What came of a request, at most one frame of it: its words where it is whole, or why it is refused.
pub(crate) fn heard(alloc: Global, came: &[u8]) -> Result<Option<Seq<Text>>, FrameError>
    requires { IsWithin came.now }
    ensures is { IfSome (told result) (λ h. Is h came.now) }
    ensures heard { IfSome (told result) (λ h. h ≡ heard came.now) }
{
    let Some(count) = said_length(came) else {
        return Ok(None);
    };
    if count == 0 {
        return Err(FrameError::Empty);
    }
    if count > MOST_REQUEST {
        return Err(FrameError::TooLong(count));
    }
    if came.len() < 4 + count as usize {
        return Ok(None);
    }
    let (_, body) = came.split_at(4);
    let words = words_of(alloc, body)?;
    Ok(Some(words))
}
