//! Text that means nothing to a shell.
ghost use Rattle.std.specs.Prelude.{◌≡◌, length, IfOk, IsTrue, encode_utf8_all, string_bytes};
ghost use Rattle.std.specs.List.{list_all};
ghost use Rattle.std.specs.Str.{chars};
ghost use Rattle.f2b_model.specs.Escapes.{is_safe, safe_character, escaped};

use f2b_base::{NoMemory, Text};
use std::alloc::{AllocError, Global};

/// Whether `escape` keeps the character.
fn is_safe(c: char) -> bool
    ensures { result ≡ is_safe c }
{
    c.is_ascii_alphanumeric()
        || matches!(c, ' ' | '.' | '_' | ':' | ',' | '=' | '@' | '/' | '+' | '-')
}

/// The character, or `_` in its place.
fn safe_character(c: char) -> char
    ensures { result ≡ safe_character c }
{
    if is_safe(c) { c } else { '_' }
}

/// Each character of the text, or `_` in its place.
fn safe_text(alloc: Global, text: &str) -> Result<String, AllocError>
    ensures { IfOk result (λ safe. string_bytes safe ≡ encode_utf8_all (escaped text.now)) }
{
    text.chars().map(safe_character).collect(alloc)
}

/// The text with `_` in place of each character that is not an ASCII letter, an ASCII digit, the space or one of `. _ : , = @ / + -`.
///
/// It goes by characters, not by bytes: a letter outside ASCII is one `_`.
pub fn escape(alloc: Global, text: &str) -> Result<Text, NoMemory>
    ensures escaped { IfOk result (λ safe. safe ≡ escaped text.now) }

    // What users rely on.
    ensures safe { IfOk result (λ safe. IsTrue (list_all is_safe safe)) }
    ensures as_many { IfOk result (λ safe. length safe ≡ length (chars text.now)) }
    ensures same { IfOk result (λ safe. IsTrue (list_all is_safe text.now) → safe ≡ text.now) }
{
    Ok(Text::from(safe_text(alloc, text)?))
}
