//! Time words as seconds, and the items that are read as such.
ghost use Rattle.std.specs.Prelude.{◌≡◌};
ghost use Rattle.jail_conf.specs.Times.{magnitude, negated, signed, time_word, counted};

use crate::conf_error::ConfKind;
use crate::fail::Fail;
use crate::limits::MOST_SECONDS;
use crate::reading::ReadsItem;
use crate::terms::sum;
use crate::words::trim;
use std::alloc::Global;

/// The seconds of a time word without its sign.
fn magnitude(text: &[u8]) -> Option<u32>
    ensures { result ≡ magnitude text.now }
{
    let seconds = sum(text)?;
    if seconds > MOST_SECONDS {
        return None;
    }
    Some(seconds as u32)
}

/// The seconds of what stands behind a `-`.
fn negated(text: &[u8]) -> Option<i64>
    ensures { result ≡ negated text.now }
{
    match text.first() {
        Some(byte) if byte.is_ascii_digit() => magnitude(text).map(|seconds| -i64::from(seconds)),
        _ => None,
    }
}

/// The seconds of a time word with no blanks around it.
fn signed(word: &[u8]) -> Option<i64>
    ensures { result ≡ signed word.now }
{
    match word {
        [b'-', behind @ ..] => negated(behind),
        _ => magnitude(word).map(i64::from),
    }
}

/// The seconds that a time word stands for, as `90`, `1d 12h` or `-1`. Takes no memory.
#[tactic(auto, unfolding(crate::specs::Times::time_word))]
pub fn str2sec(text: &str) -> Option<i64>
    ensures { result ≡ time_word text.now }
{
    signed(trim(text).as_bytes())
}

/// How many seconds, where they are not below 0.
fn counted(seconds: i64) -> Option<u64>
    ensures { result ≡ counted seconds }
{
    if seconds >= 0 {
        Some(seconds as u64)
    } else {
        None
    }
}

/// A time of so many seconds at least.
#[derive(Drop)]
pub(crate) struct Seconds {
    pub least: u64,
}

impl ReadsItem<u64> for Seconds {
    ghost use Rattle.jail_conf.specs.Times.{seconds_from};

    ghost reading = { λ bound. seconds_from bound.least };

    fn read(&self, _alloc: Global, text: &str) -> Result<u64, Fail<ConfKind>> {
        match str2sec(text).and_then(counted) {
            Some(seconds) if self.least <= seconds => Ok(seconds),
            _ => Err(Fail::Refused(ConfKind::BadTime)),
        }
    }
}

/// How long a ban lasts: any time but 0.
#[derive(Drop)]
pub(crate) struct Span;

impl ReadsItem<i64> for Span {
    ghost use Rattle.jail_conf.specs.Times.{span};

    ghost reading = { λ _. span };

    fn read(&self, _alloc: Global, text: &str) -> Result<i64, Fail<ConfKind>> {
        match str2sec(text) {
            Some(seconds) if seconds != 0 => Ok(seconds),
            _ => Err(Fail::Refused(ConfKind::BadTime)),
        }
    }
}

/// By how much a ban may be longer at random: 0 to a million seconds.
#[derive(Drop)]
pub(crate) struct Jitter;

impl ReadsItem<u64> for Jitter {
    ghost use Rattle.jail_conf.specs.Times.{jitter};

    ghost reading = { λ _. jitter };

    fn read(&self, _alloc: Global, text: &str) -> Result<u64, Fail<ConfKind>> {
        let Some(seconds) = str2sec(text) else {
            return Err(Fail::Refused(ConfKind::BadTime));
        };
        match counted(seconds) {
            Some(seconds) if seconds <= 1_000_000 => Ok(seconds),
            _ => Err(Fail::Refused(ConfKind::BadNumber)),
        }
    }
}
