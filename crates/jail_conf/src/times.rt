//! Time words: `600`, `10m`, `1d 12h 30m`, `-1`.
ghost use Rattle.std.specs.Prelude.{◌≡◌, ◌≤◌, ◌++◌, length, take_while, false, IsTrue};
ghost use Rattle.std.specs.List.{list_all};
ghost use Rattle.std.specs.Char.{is_ascii_digit, is_ascii_alphabetic};
ghost use Rattle.ini_interp.specs.Lines.{is_blank};
ghost use Rattle.jail_conf.specs.Times.{unit_seconds, pieces, begins_with};

use crate::words::{is_blank, is_one_of};

/// The seconds of a unit.
pub(crate) fn unit_seconds(word: &[u8]) -> Option<u64>
    ensures { result ≡ unit_seconds word.now }
{
    if is_one_of("y yy ye yea year years", word) {
        Some(31_557_600)
    } else if is_one_of("mo mon month months", word) {
        Some(2_629_800)
    } else if is_one_of("w ww we wee week weeks", word) {
        Some(604_800)
    } else if is_one_of("d dd da day days", word) {
        Some(86_400)
    } else if is_one_of("h hh ho hou hour hours", word) {
        Some(3_600)
    } else if is_one_of("m mm mi min minute minutes", word) {
        Some(60)
    } else if is_one_of("s ss se sec second seconds", word) {
        Some(1)
    } else {
        None
    }
}

/// How many digits the text begins with.
pub(crate) fn digits_len(text: &[u8]) -> usize
    ensures { result ≡ length (take_while is_ascii_digit text.now) }
{
    text.iter().take_while(|byte| byte.is_ascii_digit()).count()
}

/// How many letters the text begins with.
pub(crate) fn letters_len(text: &[u8]) -> usize
    ensures { result ≡ length (take_while is_ascii_alphabetic text.now) }
{
    text.iter()
        .take_while(|byte| byte.is_ascii_alphabetic())
        .count()
}

/// How many blanks the text begins with.
pub(crate) fn blanks_len(text: &[u8]) -> usize
    ensures { result ≡ length (take_while is_blank text.now) }
{
    text.iter().take_while(|&&byte| is_blank(byte)).count()
}

/// The digits that the text begins with, and what stands behind them.
pub(crate) fn cut_digits(text: &[u8]) -> (&[u8], &[u8])
    ensures whole { text.now ≡ result.0.now ++ result.1.now }
    ensures digits { IsTrue (list_all is_ascii_digit result.0.now) }
    ensures ends { begins_with is_ascii_digit result.1.now ≡ false }
{
    text.split_at(digits_len(text))
}

/// The letters that the text begins with, and what stands behind them.
pub(crate) fn cut_letters(text: &[u8]) -> (&[u8], &[u8])
    ensures whole { text.now ≡ result.0.now ++ result.1.now }
    ensures letters { IsTrue (list_all is_ascii_alphabetic result.0.now) }
    ensures ends { begins_with is_ascii_alphabetic result.1.now ≡ false }
{
    text.split_at(letters_len(text))
}

/// The text without the blanks at its front.
pub(crate) fn behind_blanks(text: &[u8]) -> &[u8]
    ensures same { pieces result.now ≡ pieces text.now }
    ensures front { begins_with is_blank result.now ≡ false }
    ensures within { length result.now ≤ length text.now }
{
    text.split_at(blanks_len(text)).1
}
