//! Moments as a clock of a zone shows them.
ghost use Rattle.std.specs.Prelude.{◌≡◌, ◌<◌, ◌≤◌, ◌+◌, ◌++◌, pos, neg_ℤ, OnOk};
ghost use Rattle.jiff_core.specs.Calendar.{IsBetween, IsWithin};
ghost use Rattle.f2b_base.specs.Limits.{latest_reading};
ghost use Rattle.iso_moment.specs.Moments.{clock_text, date_text, day_text, local_seconds, local_text, minutes_text, moment_text, offset_text, sign_text, two, zone_text};

use f2b_base::{Bytes, LATEST_READING, NoMemory};
use jiff_core::civil::Date;

/// The seconds of a day.
const DAY: u64 = 86_400;

/// A number with two digits.
fn push_two(text: &mut Bytes, number: u32) -> Result<(), NoMemory>
    requires { number < 100 }
    ensures { OnOk result (text.new ≡ text.old ++ two number) }
{
    let digits = [b'0' + (number / 10) as u8, b'0' + (number % 10) as u8];
    text.push_slice(&digits)
}

/// `2024-03-01`.
fn push_date(text: &mut Bytes, year: u16, month: u8, day: u8) -> Result<(), NoMemory>
    requires year { year ≤ 9999 }
    requires month { month < 100 }
    requires day { day < 100 }
    ensures { OnOk result (text.new ≡ text.old ++ date_text year month day) }
{
    push_two(text, u32::from(year / 100))?;
    push_two(text, u32::from(year % 100))?;
    text.push_slice(b"-")?;
    push_two(text, u32::from(month))?;
    text.push_slice(b"-")?;
    push_two(text, u32::from(day))
}

/// The day with a number, where 1970-01-01 is 0.
fn push_day(text: &mut Bytes, day: i64) -> Result<(), NoMemory>
    requires { IsBetween (neg_ℤ (pos 1)) (pos 2_932_896) day }
    ensures { OnOk result (text.new ≡ text.old ++ day_text day) }
{
    let Ok(date) = Date::from_unix_epoch_day(day) else {
        unreachable!()
    };
    push_date(text, date.year.unsigned_abs(), date.month, date.day)
}

/// `12:30`.
fn push_minutes(text: &mut Bytes, seconds: u32) -> Result<(), NoMemory>
    requires { seconds < 86_400 }
    ensures { OnOk result (text.new ≡ text.old ++ minutes_text seconds) }
{
    push_two(text, seconds / 3_600)?;
    text.push_slice(b":")?;
    push_two(text, seconds / 60 % 60)
}

/// `12:30:00`.
fn push_clock(text: &mut Bytes, seconds: u32) -> Result<(), NoMemory>
    requires { seconds < 86_400 }
    ensures { OnOk result (text.new ≡ text.old ++ clock_text seconds) }
{
    push_minutes(text, seconds)?;
    text.push_slice(b":")?;
    push_two(text, seconds % 60)
}

fn sign_text(zone: i64) -> &'static str
    ensures { result.now ≡ sign_text zone }
{
    if zone < 0 { "-" } else { "+" }
}

/// `+02:30`.
fn push_zone(text: &mut Bytes, zone: i64) -> Result<(), NoMemory>
    requires { IsWithin 86_399 zone }
    ensures { OnOk result (text.new ≡ text.old ++ zone_text zone) }
{
    text.push_slice(sign_text(zone).as_bytes())?;
    push_minutes(text, zone.unsigned_abs() as u32)
}

/// Adds how far a zone is ahead of UTC, in hours and minutes without a colon: `+0230`.
pub fn push_offset(text: &mut Bytes, zone: i64) -> Result<(), NoMemory>
    requires { IsWithin 86_399 zone }
    ensures { OnOk result (text.new ≡ text.old ++ offset_text zone) }
{
    let seconds = zone.unsigned_abs() as u32;
    text.push_slice(sign_text(zone).as_bytes())?;
    push_two(text, seconds / 3_600)?;
    push_two(text, seconds / 60 % 60)
}

/// The day and the time of day behind so many seconds from 1969-12-31 on.
fn push_local(text: &mut Bytes, seconds: u64) -> Result<(), NoMemory>
    requires { seconds ≤ latest_reading + 172_800 }
    ensures { OnOk result (text.new ≡ text.old ++ local_text seconds) }
{
    push_day(text, (seconds / DAY) as i64 - 1)?;
    text.push_slice(b"T")?;
    push_clock(text, (seconds % DAY) as u32)
}

/// How many seconds have gone in a zone since 1969-12-31 began there.
fn local_seconds(zone: i64, time: u64) -> u64
    requires zone { IsWithin 86_399 zone }
    requires time { time ≤ latest_reading }
    ensures value { result ≡ local_seconds zone time }
    ensures bound { result ≤ latest_reading + 172_800 }
{
    let ahead = (time + DAY) as i64 + zone;
    ahead.unsigned_abs()
}

/// Adds a moment, in seconds since 1970, as a clock shows it that is `zone` seconds ahead of UTC. A moment above the latest
/// reading counts as that one.
#[tactic(auto, unfolding(crate::specs::Moments::moment_text))]
pub fn push_moment(text: &mut Bytes, zone: i64, time: u64) -> Result<(), NoMemory>
    requires { IsWithin 86_399 zone }
    ensures { OnOk result (text.new ≡ text.old ++ moment_text zone time) }
{
    let time = time.min(LATEST_READING);
    push_local(text, local_seconds(zone, time))?;
    push_zone(text, zone)
}
