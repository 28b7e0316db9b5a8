//! The sum of the terms of a time word.
ghost use Rattle.std.specs.Prelude.{◌≡◌, ◌<◌, length, false, None, IfNone, IfSome};
ghost use Rattle.ini_interp.specs.Lines.{is_blank};
ghost use Rattle.jail_conf.specs.Times.{pieces, begins_with, saturated, plus, sum_of_terms, sum_of};

use crate::times::{behind_blanks, cut_digits, cut_letters, unit_seconds};
use crate::words::number;

/// The seconds of the first term, and what stands behind it.
fn first_term(text: &[u8]) -> Option<(u64, &[u8])>
    requires some { 0 < length text.now }
    requires front { begins_with is_blank text.now ≡ false }
    ensures none { IfNone result (sum_of_terms (pieces text.now) ≡ None) }
    ensures sum { IfSome result (λ term. saturated (sum_of_terms (pieces text.now)) ≡ saturated (plus term.0 (sum_of_terms (pieces term.1.now)))) }
    ensures shorter { IfSome result (λ term. length term.1.now < length text.now) }
{
    let (digits, behind) = cut_digits(text);
    let Some(count) = number(digits) else {
        return None;
    };
    let (word, rest) = cut_letters(behind_blanks(behind));
    match unit_seconds(word) {
        Some(seconds) => Some((count.saturating_mul(seconds), rest)),
        None => None,
    }
}

/// The sum of the terms.
fn sum_of_terms(text: &[u8]) -> Option<u64>
    ensures { result ≡ saturated (sum_of_terms (pieces text.now)) }
{
    let mut seconds: u64 = 0;
    let mut left = behind_blanks(text);
    'terms: while !left.is_empty() {
        let Some((term, rest)) = first_term(left) else {
            return None;
        };
        seconds = seconds.saturating_add(term);
        left = behind_blanks(rest);
    }
    Some(seconds)
}

/// The sum of the terms, or the number of seconds where the text has digits alone.
pub(crate) fn sum(text: &[u8]) -> Option<u64>
    ensures { result ≡ saturated (sum_of (pieces text.now)) }
{
    let front = behind_blanks(text);
    if front.is_empty() {
        return None;
    }
    let (digits, behind) = cut_digits(front);
    if behind_blanks(behind).is_empty() {
        return number(digits);
    }
    sum_of_terms(front)
}
