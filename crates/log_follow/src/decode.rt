//! The text of bytes that may be no UTF-8.
ghost use Rattle.std.specs.Prelude.{◌≡◌, ◌++◌, IfOk, OnOk, IsUtf8};
ghost use Rattle.log_follow.specs.Decoded.{decoded};

use f2b_base::{NoMemory, Text};
use std::alloc::Global;
use std::str::from_utf8;

/// The text of these bytes: each byte that is in no well-formed UTF-8 sequence is read as one U+FFFD.
///
/// So an ill-formed sequence of two bytes gives two, where `String::from_utf8_lossy` gives one.
pub fn decode(alloc: Global, bytes: &[u8]) -> Result<Text, NoMemory>
    ensures { IfOk result (λ text. text ≡ decoded bytes.now) }
{
    let mut text = Text::new(alloc);
    let mut rest = bytes;
    loop {
        match from_utf8(rest) {
            Ok(whole) => {
                text.push_str(whole)?;
                return Ok(text);
            }
            Err(fault) => {
                let end = fault.valid_up_to();
                push_valid(&mut text, &rest[..end])?;
                text.push_str("\u{fffd}")?;
                rest = &rest[end + 1..];
            }
        }
    }
}

// Adds bytes that are UTF-8.
fn push_valid(text: &mut Text, bytes: &[u8]) -> Result<(), NoMemory>
    requires { IsUtf8 bytes.now }
    ensures { OnOk result (text.new ≡ text.old ++ bytes.now) }
{
    if let Ok(valid) = from_utf8(bytes) {
        text.push_str(valid)?;
    }
    Ok(())
}
