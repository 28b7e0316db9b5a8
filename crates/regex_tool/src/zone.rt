//! The zone of dates without one: `Z`, or `UTC` or `GMT` with nothing behind it or `+hhmm` or `-hhmm`.
ghost use Rattle.std.specs.Prelude.{◌≡◌, ◌<◌, ◌≤◌, pos, neg_ℤ, IfSome, length, option_and_then, option_copied};
ghost use Rattle.jail_conf.specs.Words.{number, if_between};
ghost use Rattle.jail_conf.specs.Zones.{offset, behind_name, zone_of};
ghost use Rattle.jiff_core.specs.Calendar.{IsWithin};
ghost use Rattle.regex_tool.specs.Zones.{IsNear, used_zone, zone_if};

use std::marker::Model;

/// How many seconds a zone is ahead of UTC, which contracts see as that number: less than a day, either way.
#[derive(Clone, Copy)]
pub(crate) struct Zone {
    seconds: i64,
}

impl Model for Zone {
    ghost use Rattle.std.specs.Prelude.{ℤ};
    ghost use Rattle.regex_tool.specs.Zones.{IsNear};

    ghost Value = { ℤ };

    ghost view = { λ zone. zone.seconds };

    ghost invariant = { λ zone. IsNear zone.seconds };

    ghost inverse = { λ seconds. record { seconds = seconds } };
}

impl Zone {
    /// How many seconds it is ahead of UTC.
    #[tactic(auto, using(crate::proofs::ZoneLemmas::near_is_within))]
    pub(crate) fn seconds(self) -> i64
        ensures value { result ≡ self }
        ensures near { IsNear self }
        ensures within { IsWithin 86_399 result }
    {
        self.seconds
    }

    /// The zone so many seconds ahead of UTC, where places may have it: from 12 hours behind to 14 hours ahead.
    pub(crate) fn used(seconds: i64) -> Option<Zone>
        ensures { result ≡ used_zone seconds }
    {
        if -43_200 <= seconds && seconds <= 50_400 {
            Some(Zone { seconds })
        } else {
            None
        }
    }
}

/// The number of two digits.
fn pair(text: &[u8]) -> Option<u32>
    requires { length text.now ≡ 2 }
    ensures value { result ≡ number text.now }
    ensures bound { IfSome result (λ n. n < 100) }
{
    match text {
        [tens, ones] if tens.is_ascii_digit() && ones.is_ascii_digit() => {
            Some(u32::from(tens - b'0') * 10 + u32::from(ones - b'0'))
        }
        _ => None,
    }
}

/// The number of two digits, where it is not more than that.
fn pair_up_to(most: u32, text: &[u8]) -> Option<u32>
    requires { length text.now ≡ 2 }
    ensures value { result ≡ option_and_then (if_between 0 most) (number text.now) }
    ensures bound { IfSome result (λ n. n ≤ most) }
{
    let number = pair(text)?;
    if number <= most { Some(number) } else { None }
}

/// The seconds of two digits of hours and two of minutes.
fn offset(digits: &[u8]) -> Option<u32>
    ensures value { result ≡ offset digits.now }
    ensures bound { IfSome result (λ seconds. seconds < 86_400) }
{
    if digits.len() != 4 {
        return None;
    }
    let (hours, minutes) = digits.split_at(2);
    let hours = pair_up_to(23, hours)?;
    let minutes = pair_up_to(59, minutes)?;
    Some(hours * 3_600 + minutes * 60)
}

/// A zone east of UTC.
fn east(seconds: u32) -> Zone
    requires { seconds < 86_400 }
    ensures { result ≡ pos seconds }
{
    Zone {
        seconds: i64::from(seconds),
    }
}

/// A zone west of UTC.
fn west(seconds: u32) -> Zone
    requires { seconds < 86_400 }
    ensures { result ≡ neg_ℤ (pos seconds) }
{
    Zone {
        seconds: -i64::from(seconds),
    }
}

/// What stands behind the name of a zone.
fn behind_name(text: &[u8]) -> Option<Zone>
    ensures { result ≡ behind_name text.now }
{
    match text {
        [] => Some(east(0)),
        [b'+', digits @ ..] => Some(east(offset(digits)?)),
        [b'-', digits @ ..] => Some(west(offset(digits)?)),
        _ => None,
    }
}

/// The zone that a text names.
fn zone_of(text: &str) -> Option<Zone>
    ensures { result ≡ zone_of text.now }
{
    if text == "Z" {
        return Some(east(0));
    }
    let behind = match text.strip_prefix("UTC") {
        Some(behind) => Some(behind),
        None => text.strip_prefix("GMT"),
    };
    behind_name(behind?.as_bytes())
}

/// The zone that a text names, and UTC where there is none.
pub(crate) fn zone_or_utc(given: Option<&str>) -> Option<Zone>
    ensures { result ≡ zone_if (option_copied given.entry) }
{
    match given {
        Some(text) => zone_of(text),
        None => Some(east(0)),
    }
}
