//! Civil dates as seconds since 1970.
ghost use Rattle.std.specs.Prelude.{◌≡◌, ◌+◌, ◌≤◌, pos, neg_ℤ, ◌+ℤ◌, ◌*ℤ◌, ◌-ℤ◌, true, false, IfSome, MatchOption};
ghost use Rattle.jiff_core.specs.Calendar.{days_from_civil, IsBetween, IsEpochDay};
ghost use Rattle.f2b_base.specs.Limits.{latest_reading};
ghost use Rattle.date_detect.specs.Calendar.{is_date, civil_moment, year_up_to, year_at, moment_by, latest};

use f2b_base::LATEST_READING;
use jiff_core::civil::Date;

/// A day and a time of day, in some year.
#[derive(Clone, Copy)]
pub(crate) struct DayTime {
    pub month: u16,
    pub day: u16,
    /// Seconds since the day began.
    pub time: u32,
    /// Seconds that the clock's zone is ahead of UTC.
    pub zone: i32,
}

/// The seconds of a day.
const DAY: u64 = 86_400;

/// The days from 1970-01-01 on, where the calendar has the day.
fn day_number(year: u16, month: u16, day: u16) -> Option<i64>
    ensures value { MatchOption result (is_date year month day ≡ false)
        (λ n. (is_date year month day ≡ true) × (n ≡ days_from_civil (pos year) month day)) }
    ensures small { IfSome result IsEpochDay }
{
    if year > 9999 || month > 12 || day > 31 {
        return None;
    }
    match Date::new(year as i16, month as i8, day as i8) {
        Ok(date) => Some(i64::from(date.to_unix_epoch_day())),
        Err(_) => None,
    }
}

/// The moment of a time of day on a day.
fn moment(days: i64, time: u32, zone: i32) -> i64
    requires { IsEpochDay days }
    ensures { result ≡ (days *ℤ pos 86400) +ℤ pos time -ℤ zone }
{
    days * 86_400 + i64::from(time) - i64::from(zone)
}

/// The moment of a day and a time in a year, where the calendar has the day. Weekdays are not looked at.
#[tactic(auto, unfolding(crate::specs::Calendar::civil_moment, crate::specs::Calendar::moment_of))]
pub(crate) fn civil_moment(year: u16, date: DayTime) -> Option<i64>
    ensures { result ≡ civil_moment year date }
{
    let days = day_number(year, date.month, date.day)?;
    Some(moment(days, date.time, date.zone))
}

/// The same, where it is not later than the limit.
fn moment_by(limit: u64, date: DayTime, year: u16) -> Option<i64>
    requires { limit ≤ latest_reading + 86400 }
    ensures { result ≡ moment_by limit date year }
{
    let moment = civil_moment(year, date)?;
    if moment <= limit as i64 {
        Some(moment)
    } else {
        None
    }
}

/// The year of a day, by the days from 1970-01-01 on.
fn year_of(day: i64) -> u16
    requires { IsBetween (neg_ℤ (pos 25000)) (pos 2932896) day }
    ensures value { result ≡ year_up_to 9999 day }
    ensures bound { 8 ≤ result }
{
    match Date::from_unix_epoch_day(day) {
        Ok(date) => date.year as u16,
        Err(_) => unreachable!(),
    }
}

/// The year of a moment in a zone.
#[tactic(auto, unfolding(crate::specs::Calendar::year_at))]
fn year_at(moment: u64, zone: i32) -> u16
    requires { moment ≤ latest_reading + 86400 }
    ensures value { result ≡ year_at (pos moment) zone }
    ensures bound { 8 ≤ result }
{
    let local = moment as i64 + i64::from(zone);
    year_of(local.div_euclid(86_400))
}

/// The moment of a day and a time in the latest year in which the calendar has the day and the moment is at most a day after
/// `now`, back to the eighth year before. A `now` above the latest reading counts as that one, so that no year has five digits.
pub(crate) fn latest(now: u64, date: DayTime) -> Option<i64>
    ensures { result ≡ latest now date }
{
    let limit = now.min(LATEST_READING) + DAY;
    let year = year_at(limit, date.zone);
    // Of nine years one has 29 February, also across 2100.
    for back in 0..9 {
        let moment = moment_by(limit, date, year - back);
        if moment.is_some() {
            return moment;
        }
    }
    None
}
