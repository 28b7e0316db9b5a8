//! Date patterns of a user.
ghost use Rattle.std.specs.Prelude.{◌≡◌, ◌+◌, ◌++◌, not, ◌&&◌, ◌||◌, ◌==◌, is_some, nat_le, false, min, string_bytes, chars, IfOk, OnOk, if◌then◌else◌};
ghost use Rattle.std.specs.List.{list_all};
ghost use Rattle.date_words.specs.Directives.{directive_of, opens, are_known, times, letters, is_date_pattern, piece, expanded};

use crate::directive::Directive;
use f2b_base::NoMemory;
use std::alloc::Global;

/// The letters of the directives.
const LETTERS: [char; 12] = ['Y', 'y', 'm', 'b', 'd', 'H', 'M', 'S', 'z', 'a', 'f', '%'];

/// Whether the character is the `%` of a directive.
fn opens(after: bool, c: char) -> bool
    ensures { result ≡ opens after c }
{
    !after && c == '%'
}

/// Whether the character is the letter of a directive, or stands behind no `%`.
fn is_known(after: bool, c: char) -> bool
    ensures { result ≡ (not after || is_some (directive_of c)) }
{
    !after || Directive::of(c).is_some()
}

/// Whether each `%` has the letter of a directive behind it.
fn are_known(text: &str) -> bool
    ensures { result ≡ are_known false (chars text.now) }
{
    let mut after = false;
    for c in text.chars() {
        if !is_known(after, c) {
            return false;
        }
        after = opens(after, c);
    }
    !after
}

/// 1 where a directive has that letter.
fn one_if(after: bool, c: char, letter: char) -> u8
    ensures { result ≡ if after && c == letter then 1 else 0 }
{
    if after && c == letter { 1 } else { 0 }
}

/// How many directives have that letter. It stays at 255.
fn times(text: &str, letter: char) -> u8
    ensures { result ≡ min (times letter text.now) 255 }
{
    let mut count: u8 = 0;
    let mut after = false;
    for c in text.chars() {
        count = count.saturating_add(one_if(after, c, letter));
        after = opens(after, c);
    }
    count
}

/// Whether at most one directive has that letter.
#[tactic(auto, using(crate::proofs::CharLemmas::capped_tests))]
fn is_once(text: &str, letter: char) -> bool
    ensures { result ≡ nat_le (times letter text.now) 1 }
{
    times(text, letter) <= 1
}

/// Whether no directive is there twice.
fn is_each_once(text: &str) -> bool
    ensures { result ≡ list_all (λ letter. nat_le (times letter text.now) 1) letters }
{
    LETTERS.iter().all(|letter| is_once(text, *letter))
}

/// How many directives have one of two letters. It stays at 255.
fn either(text: &str, letter: char, other: char) -> u8
    ensures { result ≡ min (times letter text.now + times other text.now) 255 }
{
    times(text, letter).saturating_add(times(text, other))
}

/// Whether at most one directive has one of two letters.
#[tactic(auto, using(crate::proofs::CharLemmas::capped_tests))]
fn is_at_most_one(text: &str, letter: char, other: char) -> bool
    ensures { result ≡ nat_le (times letter text.now + times other text.now) 1 }
{
    either(text, letter, other) <= 1
}

/// Whether just one directive has one of two letters.
#[tactic(auto, using(crate::proofs::CharLemmas::capped_tests))]
fn is_just_one(text: &str, letter: char, other: char) -> bool
    ensures { result ≡ (times letter text.now + times other text.now == 1) }
{
    either(text, letter, other) == 1
}

/// Whether a directive has that letter, and just one.
#[tactic(auto, using(crate::proofs::CharLemmas::capped_tests))]
fn is_there(text: &str, letter: char) -> bool
    ensures { result ≡ (times letter text.now == 1) }
{
    times(text, letter) == 1
}

/// Whether a date can be read by a user's pattern: it has no directive but those of the manual, none twice, at most one of `%Y`
/// and `%y`, one of `%m` and `%b`, and `%d`. A `%` has its letter behind it, and `%%` is a directive too. That the text is a
/// pattern besides is not looked at. Takes no memory.
#[tactic(auto, unfolding(crate::specs::Directives::is_date_pattern))]
pub fn is_date_pattern(text: &str) -> bool
    ensures { result ≡ is_date_pattern text.now }
{
    are_known(text)
        && is_each_once(text)
        && is_at_most_one(text, 'Y', 'y')
        && is_just_one(text, 'm', 'b')
        && is_there(text, 'd')
}

/// Adds what a character is replaced by, or the letter of a directive with its `%`.
fn push_piece(written: &mut String, after: bool, c: char) -> Result<(), NoMemory>
    ensures { OnOk result (string_bytes written.new ≡ string_bytes written.old ++ piece after c) }
{
    if after {
        if let Some(directive) = Directive::of(c) {
            written.push_str(directive.piece())?;
        }
    } else if c != '%' {
        written.push(c)?;
    }
    Ok(())
}

/// The pattern with each directive replaced by its piece.
pub fn expand(alloc: Global, text: &str) -> Result<String, NoMemory>
    ensures { IfOk result (λ written. string_bytes written ≡ expanded text.now) }
{
    let mut written = String::new(alloc);
    let mut after = false;
    for c in text.chars() {
        push_piece(&mut written, after, c)?;
        after = opens(after, c);
    }
    Ok(written)
}
