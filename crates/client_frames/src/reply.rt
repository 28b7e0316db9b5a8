//! The frame of a reply, as a server sends it and as a client reads it.
ghost use Rattle.std.specs.Prelude.{◌≡◌, ◌≤◌, ◌+◌, length, IfOk};
ghost use Rattle.client_frames.specs.Frames.{most_text, reply, reply_body, verdict};

use crate::answer::Answer;
use crate::frame::push_length;
use f2b_base::{Bytes, NoMemory};
use std::alloc::Global;

/// The byte that says whether a request was accepted.
fn verdict(accepted: bool) -> u8
    ensures { result ≡ verdict accepted }
{
    if accepted { 0 } else { 1 }
}

/// The frame of a reply. A text of more than 67,108,864 bytes has none.
#[tactic(auto, unfolding(crate::specs::Frames::reply, crate::specs::Frames::framed, crate::specs::Frames::reply_body))]
pub fn reply_frame(alloc: Global, answer: &Answer) -> Result<Bytes, NoMemory>
    requires { length answer.now.text ≤ most_text }
    ensures { IfOk result (λ frame. frame ≡ reply answer.now) }
{
    let text = answer.text.as_str().as_bytes();
    let mut frame = Bytes::new(alloc);
    push_length(&mut frame, text.len() as u32 + 1)?;
    frame.push(verdict(answer.accepted))?;
    frame.push_slice(text)?;
    Ok(frame)
}
