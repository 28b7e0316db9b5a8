//! Bytes and texts, each behind the number of its bytes.
ghost use Rattle.std.specs.Prelude.{◌≡◌, ◌++◌, OnOk, MatchOption, true, false};
ghost use Rattle.std.specs.Str.{is_utf8};
ghost use Rattle.record_fields.specs.Codec.{Gives, capped};
ghost use Rattle.record_fields.specs.Texts.{string, string_at, text, short};

use crate::fault::Fault;
use crate::numbers::{number_len, put_number, take_number};
use f2b_base::{Bytes, NoMemory, Text};
use std::alloc::Global;

/// Adds bytes behind their number.
#[tactic(auto, unfolding(crate::specs::Texts::string_spelling))]
pub fn put_bytes(bytes: &[u8], out: &mut Bytes) -> Result<(), NoMemory>
    ensures { OnOk result (out.new ≡ out.old ++ string.spell bytes.now) }
{
    put_number(bytes.len() as u64, out)?;
    out.push_slice(bytes)
}

/// How long bytes are behind their number.
#[tactic(auto, unfolding(crate::specs::Texts::string_spelling, crate::specs::Codec::capped))]
pub fn bytes_len(bytes: &[u8]) -> u64
    ensures { result ≡ capped (string.spell bytes.now) }
{
    number_len(bytes.len() as u64).saturating_add(bytes.len() as u64)
}

/// Adds a text behind the number of its bytes.
pub fn put_text(it: &Text, out: &mut Bytes) -> Result<(), NoMemory>
    ensures { OnOk result (out.new ≡ out.old ++ text.spell it.now) }
{
    put_bytes(it.as_str().as_bytes(), out)
}

/// How long a text is behind the number of its bytes.
pub fn text_len(it: &Text) -> u64
    ensures { result ≡ capped (text.spell it.now) }
{
    bytes_len(it.as_str().as_bytes())
}

#[tactic(auto, unfolding(crate::specs::Texts::string_at))]
fn split_bytes(bytes: &[u8]) -> Result<(&[u8], &[u8]), Fault>
    ensures { Gives (λ x. (x.0.now, x.1.now)) result (string_at bytes.now) }
{
    let (len, rest) = take_number(bytes)?;
    if (rest.len() as u64) < len {
        return Err(Fault::Left(bytes.len() as u64));
    }
    Ok(rest.split_at(len as usize))
}

/// The text that the bytes are, if they are UTF-8.
fn utf8_of(bytes: &[u8]) -> Option<&str>
    ensures { MatchOption result (is_utf8 bytes.now ≡ false) (λ s. (s.now ≡ bytes.now) × (is_utf8 bytes.now ≡ true)) }
{
    match str::from_utf8(bytes) {
        Ok(text) => Some(text),
        Err(_) => None,
    }
}

/// The bytes at the front, behind their number.
pub fn take_bytes(alloc: Global, bytes: &[u8]) -> Result<(Bytes, &[u8]), Fault>
    ensures { Gives (λ x. (x.0, x.1.now)) result (string.read bytes.now) }
{
    let (front, rest) = split_bytes(bytes)?;
    Ok((Bytes::from_slice(alloc, front)?, rest))
}

/// The text at the front, behind the number of its bytes.
pub fn take_text(alloc: Global, bytes: &[u8]) -> Result<(Text, &[u8]), Fault>
    ensures { Gives (λ x. (x.0, x.1.now)) result (text.read bytes.now) }
{
    let (front, rest) = split_bytes(bytes)?;
    match utf8_of(front) {
        Some(text) => Ok((Text::from_str(alloc, text)?, rest)),
        None => Err(Fault::Left(bytes.len() as u64)),
    }
}

/// The text at the front, where it has at most so many bytes.
pub fn take_short(alloc: Global, most: u64, bytes: &[u8]) -> Result<(Text, &[u8]), Fault>
    ensures { Gives (λ x. (x.0, x.1.now)) result ((short most).read bytes.now) }
{
    let (text, rest) = take_text(alloc, bytes)?;
    if text.as_str().len() as u64 <= most {
        Ok((text, rest))
    } else {
        Err(Fault::Left(bytes.len() as u64))
    }
}
