//! What the groups of a match say, read as numbers.
ghost use Rattle.std.specs.Prelude.{◌≡◌, ◌-◌, ◌^◌, ◌≤◌, pos, min, option_copied};
ghost use Rattle.date_detect.specs.Fields.{decimal, number, number_or_zero, clock, time_of, month_named, month_of, offset, written_zone, zone_of, whole_year, moment_in, written_moment, day_time, said_moment, two};
ghost use Rattle.date_detect.specs.Texts.{said_texts};

use crate::calendar::{DayTime, civil_moment, latest};

/// What the groups of a match cover in its line, where they took part.
#[derive(Clone, Copy)]
pub(crate) struct Said<'l> {
    pub year: Option<&'l str>,
    /// A year of two digits.
    pub short_year: Option<&'l str>,
    pub month: Option<&'l str>,
    /// The name of a month.
    pub month_name: Option<&'l str>,
    pub day: Option<&'l str>,
    pub hour: Option<&'l str>,
    pub minute: Option<&'l str>,
    pub second: Option<&'l str>,
    pub zone: Option<&'l str>,
    /// Seconds since 1970.
    pub moment: Option<&'l str>,
}

/// The number that decimal digits write. A blank counts as 0. It stays at the greatest `u64`.
fn decimal(digits: &str) -> u64
    ensures { result ≡ min (decimal digits.now) (2 ^ 64 - 1) }
{
    let mut number: u64 = 0;
    for digit in digits.as_bytes() {
        let value = u64::from(digit.saturating_sub(b'0'));
        number = number.saturating_mul(10).saturating_add(value);
    }
    number
}

/// The number that decimal digits write, where it has at most four digits that count.
fn number(digits: &str) -> Option<u16>
    ensures { result ≡ number digits.now }
{
    let number = decimal(digits);
    if number <= 9999 {
        Some(number as u16)
    } else {
        None
    }
}

/// The number of a part of a time of day, which is 0 where it is left out.
fn number_or_zero(digits: Option<&str>) -> Option<u16>
    ensures { result ≡ number_or_zero (option_copied digits.entry) }
{
    match digits {
        Some(digits) => number(digits),
        None => Some(0),
    }
}

/// The seconds of a day at which a clock shows this.
fn clock(hour: u16, minute: u16, second: u16) -> Option<u32>
    ensures { result ≡ clock hour minute second }
{
    if hour <= 23 && minute <= 59 && second <= 59 {
        Some(u32::from(hour) * 3600 + u32::from(minute) * 60 + u32::from(second))
    } else {
        None
    }
}

/// The seconds of the day.
#[tactic(auto, unfolding(crate::specs::Fields::time_of))]
fn time_of(hour: Option<&str>, minute: Option<&str>, second: Option<&str>) -> Option<u32>
    ensures { result ≡ time_of (option_copied hour.entry) (option_copied minute.entry) (option_copied second.entry) }
{
    let hour = number_or_zero(hour)?;
    let minute = number_or_zero(minute)?;
    let second = number_or_zero(second)?;
    clock(hour, minute, second)
}

/// The month with that name, from 1.
fn month_named(name: &str) -> Option<u16>
    ensures { result ≡ month_named name.now }
{
    if name == "Jan" {
        Some(1)
    } else if name == "Feb" {
        Some(2)
    } else if name == "Mar" {
        Some(3)
    } else if name == "Apr" {
        Some(4)
    } else if name == "May" {
        Some(5)
    } else if name == "Jun" {
        Some(6)
    } else if name == "Jul" {
        Some(7)
    } else if name == "Aug" {
        Some(8)
    } else if name == "Sep" {
        Some(9)
    } else if name == "Oct" {
        Some(10)
    } else if name == "Nov" {
        Some(11)
    } else if name == "Dec" {
        Some(12)
    } else {
        None
    }
}

/// The month by its number, else by its name.
fn month_of(digits: Option<&str>, name: Option<&str>) -> Option<u16>
    ensures { result ≡ month_of (option_copied digits.entry) (option_copied name.entry) }
{
    match (digits, name) {
        (Some(digits), _) => number(digits),
        (None, Some(name)) => month_named(name),
        (None, None) => None,
    }
}

/// The number of two digits.
fn two(tens: u8, ones: u8) -> u32
    ensures { result ≡ two tens ones }
{
    u32::from(tens.saturating_sub(b'0')) * 10 + u32::from(ones.saturating_sub(b'0'))
}

/// Hours and minutes behind a sign, as seconds.
fn offset(sign: u8, hours: u32, minutes: u32) -> Option<i32>
    ensures { result ≡ offset sign hours minutes }
{
    if hours > 23 || minutes > 59 {
        return None;
    }
    let seconds = (hours * 3600 + minutes * 60) as i32;
    Some(if sign == b'-' { -seconds } else { seconds })
}

/// `Z`, `+hhmm` or `+hh:mm`, as seconds ahead of UTC.
fn written_zone(text: &str) -> Option<i32>
    ensures { result ≡ written_zone text.now }
{
    match text.as_bytes() {
        [_] => Some(0),
        [sign, a, b, c, d] => offset(*sign, two(*a, *b), two(*c, *d)),
        [sign, a, b, _, c, d] => offset(*sign, two(*a, *b), two(*c, *d)),
        _ => None,
    }
}

/// The zone of a date in seconds ahead of UTC: its own, else the given one.
fn zone_of(given: i32, text: Option<&str>) -> Option<i32>
    ensures { result ≡ zone_of given (option_copied text.entry) }
{
    match text {
        Some(text) => written_zone(text),
        None => Some(given),
    }
}

/// The year of two digits in full.
fn whole_year(short: u16) -> u16
    requires { short ≤ 9999 }
    ensures { result ≡ whole_year short }
{
    if short <= 68 {
        2000 + short
    } else {
        1900 + short
    }
}

/// The moment of a day and a time in the year that is given, or in the latest that may be meant at `now`.
fn moment_in(year: Option<&str>, short_year: Option<&str>, now: u64, date: DayTime) -> Option<i64>
    ensures { result ≡ moment_in (option_copied year.entry) (option_copied short_year.entry) now date }
{
    if let Some(year) = year {
        return civil_moment(number(year)?, date);
    }
    if let Some(short) = short_year {
        return civil_moment(whole_year(number(short)?), date);
    }
    latest(now, date)
}

/// At most ten digits of seconds.
fn written_moment(digits: &str) -> Option<i64>
    ensures { result ≡ written_moment digits.now }
{
    let number = decimal(digits);
    if number <= 9_999_999_999 {
        Some(number as i64)
    } else {
        None
    }
}

impl Said<'_> {
    /// The day and the time that are said, where both are, in the zone that is said or the given one.
    #[tactic(auto, unfolding(crate::specs::Fields::day_time))]
    fn day_time(self, zone: i32) -> Option<DayTime>
        ensures { result ≡ day_time (said_texts self.entry) zone }
    {
        let month = month_of(self.month, self.month_name)?;
        let day = number(self.day?)?;
        let time = time_of(self.hour, self.minute, self.second)?;
        let zone = zone_of(zone, self.zone)?;
        Some(DayTime {
            month,
            day,
            time,
            zone,
        })
    }

    /// The moment that is said, seen from `now` in a zone.
    #[tactic(auto, unfolding(crate::specs::Fields::said_moment))]
    pub(crate) fn moment(self, now: u64, zone: i32) -> Option<i64>
        ensures { result ≡ said_moment (said_texts self.entry) now zone }
    {
        if let Some(moment) = self.moment {
            return written_moment(moment);
        }
        let date = self.day_time(zone)?;
        moment_in(self.year, self.short_year, now, date)
    }
}
