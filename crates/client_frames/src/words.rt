//! The words of a request, each behind its length in two bytes.
ghost use Rattle.std.specs.Prelude.{◌≡◌, ◌<◌, ◌≤◌, ◌^◌, ◌++◌, length, IfNone, IfSome, IsUtf8, OnOk};
ghost use Rattle.client_frames.specs.Comes.{BeginsWithWord, Reads};
ghost use Rattle.client_frames.specs.Frames.{IsWord, spelling, two_bytes, word_spelling};

use crate::error::FrameError;
use f2b_base::{Bytes, NoMemory, Seq, Text};
use std::alloc::Global;

/// The text that the bytes are, if they are UTF-8.
pub(crate) fn utf8_of(bytes: &[u8]) -> Option<&str>
    ensures some { IfSome result (λ text. text.now ≡ bytes.now) }
    ensures text { IfSome result (λ text. IsUtf8 text.now) }
    ensures none { IfNone result (¬ IsUtf8 bytes.now) }
{
    str::from_utf8(bytes).ok()
}

/// The word that bytes begin with, and what follows it.
fn first_word(bytes: &[u8]) -> Option<(&str, &[u8])>
    ensures fits { IfSome result (λ x. IsWord x.0.now) }
    ensures is { IfSome result (λ x. bytes.now ≡ word_spelling x.0.now ++ x.1.now) }
    ensures none { IfNone result (¬ BeginsWithWord bytes.now) }
{
    let [high, low, rest @ ..] = bytes else {
        return None;
    };
    let count = usize::from(u16::from_be_bytes([*high, *low]));
    if rest.len() < count {
        return None;
    }
    let (front, others) = rest.split_at(count);
    let word = utf8_of(front)?;
    Some((word, others))
}

/// The words that bytes are, one behind the other.
pub(crate) fn words_of(alloc: Global, body: &[u8]) -> Result<Seq<Text>, FrameError>
    requires { length body.now < 2 ^ 32 }
    ensures { Reads body.now result }
{
    let mut words = Seq::new(alloc);
    let mut rest = body;
    while !rest.is_empty() {
        let Some((word, others)) = first_word(rest) else {
            return Err(FrameError::BadWord((body.len() - rest.len()) as u32));
        };
        words.push(Text::from_str(alloc, word)?)?;
        rest = others;
    }
    Ok(words)
}

/// Adds a word behind its length.
#[tactic(auto, unfolding(crate::specs::Frames::word_spelling, crate::specs::Frames::two_bytes))]
pub(crate) fn push_word(body: &mut Bytes, word: &str) -> Result<(), NoMemory>
    requires { length word.now < 2 ^ 16 }
    ensures { OnOk result (body.new ≡ body.old ++ word_spelling word.now) }
{
    body.push_slice(&(word.len() as u16).to_be_bytes())?;
    body.push_slice(word.as_bytes())
}
