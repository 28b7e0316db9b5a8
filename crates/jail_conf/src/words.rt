//! Parts of a value.
ghost use Rattle.std.specs.Prelude.{◌≡◌, ◌<◌, ◌+◌, ◌*◌, ◌^◌, ◌-◌, ◌∷◌, min, nat_lt, length, IsTrue, IfNone, IfSome, ◌++◌, option_copied, option_map, IfOk};
ghost use Rattle.std.specs.List.{list_all, slice_split};
ghost use Rattle.std.specs.Char.{is_ascii_digit, digit_value};
ghost use Rattle.std.specs.Str.{str_eq_ignore_ascii_case};
ghost use Rattle.ini_interp.specs.Lines.{is_blank, trimmed_start, trimmed_end, trimmed};
ghost use Rattle.jail_conf.specs.Words.{is_among_bytes, HasNone, parts_of, is_one_of, number, words_by, full_lines};

use f2b_base::{NoMemory, Seq, Text};
use std::alloc::Global;

/// Whether the byte is a space or a tab.
pub(crate) fn is_blank(byte: u8) -> bool
    ensures { result ≡ is_blank byte }
{
    byte == b' ' || byte == b'\t'
}

pub(crate) fn trim_start(text: &str) -> &str
    ensures { result.now ≡ trimmed_start text.now }
{
    for (place, &byte) in text.as_bytes().iter().enumerate() {
        if !is_blank(byte) {
            return &text[place..];
        }
    }
    ""
}

fn trim_end(text: &str) -> &str
    ensures { result.now ≡ trimmed_end text.now }
{
    let bytes = text.as_bytes();
    let mut end = bytes.len();
    while end > 0 && is_blank(bytes[end - 1]) {
        end -= 1;
    }
    &text[..end]
}

/// The text without the blanks at both ends.
pub(crate) fn trim(text: &str) -> &str
    ensures { result.now ≡ trimmed text.now }
{
    trim_start(trim_end(text))
}

/// Whether the byte is one of those.
fn is_in(bytes: &str, byte: u8) -> bool
    ensures { result ≡ is_among_bytes bytes.now byte }
{
    bytes.as_bytes().contains(&byte)
}

/// What stands before the first of these bytes, all of them ASCII, and what stands behind it.
pub(crate) fn cut<'t>(text: &'t str, dividers: &str) -> (&'t str, Option<&'t str>)
    requires { IsTrue (list_all (λ byte. nat_lt byte 128) dividers.now) }
    ensures parts { slice_split (is_among_bytes dividers.now) text.now
        ≡ result.0.now ∷ parts_of (is_among_bytes dividers.now) (option_copied result.1) }
    ensures shorter { IfSome result.1 (λ rest. length rest.now < length text.now) }
{
    for (place, &byte) in text.as_bytes().iter().enumerate() {
        if is_in(dividers, byte) {
            return (&text[..place], Some(&text[place + 1..]));
        }
    }
    (text, None)
}

/// The part before the first of these bytes, all of them ASCII, that byte, and what stands behind it.
pub(crate) fn split<'t>(text: &'t str, dividers: &str) -> Option<(&'t str, u8, &'t str)>
    requires { IsTrue (list_all (λ byte. nat_lt byte 128) dividers.now) }
    ensures none { IfNone result (HasNone dividers.now text.now) }
    ensures whole { IfSome result (λ cut. text.now ≡ cut.0.now ++ cut.1 ∷ cut.2.now) }
    ensures before { IfSome result (λ cut. HasNone dividers.now cut.0.now) }
    ensures divider { IfSome result (λ cut. IsTrue (is_among_bytes dividers.now cut.1)) }
    ensures shorter { IfSome result (λ cut. length cut.2.now < length text.now) }
{
    for (place, &byte) in text.as_bytes().iter().enumerate() {
        if is_in(dividers, byte) {
            return Some((&text[..place], byte, &text[place + 1..]));
        }
    }
    None
}

/// Whether two texts are the same but for the case of ASCII letters.
fn is_same(text: &[u8], other: &[u8]) -> bool
    ensures { result ≡ str_eq_ignore_ascii_case text.now other.now }
{
    text.eq_ignore_ascii_case(other)
}

/// Whether the word, in any ASCII case, is one of those that are listed, each divided from the next by a space.
pub(crate) fn is_one_of(listed: &str, word: &[u8]) -> bool
    ensures { result ≡ is_one_of listed.now word.now }
{
    let mut left = Some(listed);
    'words: while let Some(text) = left {
        let (one, rest) = cut(text, " ");
        if is_same(word, one.as_bytes()) {
            return true;
        }
        left = rest;
    }
    false
}

/// The number that the digits write, or `None` where the text is of anything else. It stays at the greatest `u64`.
pub(crate) fn number(text: &[u8]) -> Option<u64>
    ensures { result ≡ option_map (λ n. min n (2 ^ 64 - 1)) (number text.now) }
{
    if text.is_empty() {
        return None;
    }
    let mut value: u64 = 0;
    for &byte in text {
        if !byte.is_ascii_digit() {
            return None;
        }
        value = with_digit(value, byte);
    }
    Some(value)
}

/// The number with one more digit behind it. It stays at the greatest `u64`.
fn with_digit(value: u64, digit: u8) -> u64
    requires { IsTrue (is_ascii_digit digit) }
    ensures { result ≡ min (value * 10 + digit_value digit) (2 ^ 64 - 1) }
{
    value
        .saturating_mul(10)
        .saturating_add(u64::from(digit - b'0'))
}

/// The parts between these bytes, all of them ASCII, that are not empty.
pub(crate) fn words(alloc: Global, text: &str, dividers: &str) -> Result<Seq<Text>, NoMemory>
    requires { IsTrue (list_all (λ byte. nat_lt byte 128) dividers.now) }
    ensures { IfOk result (λ words. words ≡ words_by dividers.now text.now) }
{
    let mut words = Seq::new(alloc);
    let mut left = Some(text);
    'parts: while let Some(text) = left {
        let (word, rest) = cut(text, dividers);
        if !word.is_empty() {
            words.push(Text::from_str(alloc, word)?)?;
        }
        left = rest;
    }
    Ok(words)
}

/// The lines, trimmed, that are not empty then.
pub(crate) fn full_lines(alloc: Global, text: &str) -> Result<Seq<Text>, NoMemory>
    ensures { IfOk result (λ lines. lines ≡ full_lines text.now) }
{
    let mut lines = Seq::new(alloc);
    let mut left = Some(text);
    'parts: while let Some(text) = left {
        let (part, rest) = cut(text, "\n");
        let line = trim(part);
        if !line.is_empty() {
            lines.push(Text::from_str(alloc, line)?)?;
        }
        left = rest;
    }
    Ok(lines)
}
