//! Times and numbers that words spell, as the items of a configuration read them.
ghost use Rattle.std.specs.Prelude.{◌≡◌, ◌+◌, ◌*◌, ◌-◌, ◌^◌, min, option_map, IfOk, IsTrue};
ghost use Rattle.std.specs.Char.{digit_value, is_ascii_digit};
ghost use Rattle.f2b_model.specs.Storable.{IsBase, IsSpanOfTime, IsWithin};
ghost use Rattle.ini_interp.specs.Lines.{is_blank, trimmed_end, trimmed_start};
ghost use Rattle.jail_conf.specs.Words.{number};
ghost use Rattle.client_words.specs.Values.{bantime, findtime, maxretry};

use crate::error::CommandError;
use f2b_base::Text;
use jail_conf::str2sec;

/// A time of 1 second at least.
pub(crate) fn findtime(word: &Text) -> Result<u64, CommandError>
    ensures secs { result ≡ findtime word.now }
    ensures bounds { IfOk result IsSpanOfTime }
{
    match str2sec(word.as_str()) {
        Some(secs) if secs >= 1 => Ok(secs as u64),
        _ => Err(CommandError::BadNumber),
    }
}

/// A time that is not 0.
pub(crate) fn bantime(word: &Text) -> Result<i64, CommandError>
    ensures secs { result ≡ bantime word.now }
    ensures bounds { IfOk result IsBase }
{
    match str2sec(word.as_str()) {
        Some(secs) if secs != 0 => Ok(secs),
        _ => Err(CommandError::BadNumber),
    }
}

fn is_blank(byte: u8) -> bool
    ensures { result ≡ is_blank byte }
{
    byte == b' ' || byte == b'\t'
}

/// The text without the blanks at its front.
fn trim_start(text: &[u8]) -> &[u8]
    ensures { result.now ≡ trimmed_start text.now }
{
    for (place, &byte) in text.iter().enumerate() {
        if !is_blank(byte) {
            return &text[place..];
        }
    }
    &[]
}

/// The text without the blanks at its end.
fn trim_end(text: &[u8]) -> &[u8]
    ensures { result.now ≡ trimmed_end text.now }
{
    let mut end = text.len();
    while end > 0 && is_blank(text[end - 1]) {
        end -= 1;
    }
    &text[..end]
}

/// The number with one more digit behind it. It stays at the greatest `u64`.
fn with_digit(value: u64, digit: u8) -> u64
    requires { IsTrue (is_ascii_digit digit) }
    ensures { result ≡ min (value * 10 + digit_value digit) (2 ^ 64 - 1) }
{
    value
        .saturating_mul(10)
        .saturating_add(u64::from(digit - b'0'))
}

/// The number that digits write, or `None` where the text is of anything else. It stays at the greatest `u64`.
fn number(text: &[u8]) -> Option<u64>
    ensures { result ≡ option_map (λ n. min n (2 ^ 64 - 1)) (number text.now) }
{
    if text.is_empty() {
        return None;
    }
    let mut value: u64 = 0;
    for &byte in text {
        if !byte.is_ascii_digit() {
            return None;
        }
        value = with_digit(value, byte);
    }
    Some(value)
}

/// A number of 1 to 100,000.
pub(crate) fn maxretry(word: &Text) -> Result<u64, CommandError>
    ensures number { result ≡ maxretry word.now }
    ensures bounds { IfOk result (IsWithin 1 100000) }
{
    match number(trim_start(trim_end(word.as_str().as_bytes()))) {
        Some(number) if 1 <= number && number <= 100_000 => Ok(number),
        _ => Err(CommandError::BadNumber),
    }
}
