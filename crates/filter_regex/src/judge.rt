//! What a failure comes to, by its host and its time.
ghost use Rattle.std.specs.Prelude.{◌≡◌, ◌<◌, ◌^◌};
ghost use Rattle.filter_regex.specs.Findings.{failure, is_ignored, moment_of, time_at, timed};

use crate::finding::Finding;
use date_detect::Found;
use f2b_base::Addr;
use ignore_set::IgnoreSet;

/// The moment of a line's date, or now where lines have no date.
pub(crate) fn moment_of(undated: bool, now: u64, date: Option<Found>) -> Option<i64>
    requires { now < 2 ^ 40 }
    ensures { result ≡ moment_of undated now date }
{
    if undated {
        return Some(now as i64);
    }
    let date = date?;
    Some(date.secs)
}

/// The earlier of a moment and now, and none before 1970.
fn time_at(now: u64, moment: i64) -> Option<u64>
    ensures { result ≡ time_at now moment }
{
    if moment < 0 {
        None
    } else {
        Some((moment as u64).min(now))
    }
}

/// The failure of an address at a moment. A moment before 1970, or `findtime` seconds before now or earlier, is too old.
fn timed(now: u64, findtime: u64, index: u32, addr: Addr, moment: i64) -> Finding
    requires { now < 2 ^ 40 }
    ensures { result ≡ timed now findtime index addr (time_at now moment) }
{
    match time_at(now, moment) {
        Some(time) if time.saturating_add(findtime) > now => Finding::Failure { addr, time, index },
        _ => Finding::TooOld(index),
    }
}

/// Whether some mask holds the address.
fn is_ignored(ignore: &IgnoreSet, addr: Addr) -> bool
    ensures { result ≡ is_ignored ignore.now addr }
{
    ignore.holds(addr)
}

/// The failure of a host at a moment, by the number of the pattern that matched.
pub(crate) fn failure(
    ignore: &IgnoreSet,
    now: u64,
    findtime: u64,
    moment: i64,
    index: u32,
    host: Option<Addr>,
) -> Finding
    requires { now < 2 ^ 40 }
    ensures { result ≡ failure ignore.now now findtime moment index host }
{
    match host {
        None => Finding::NameOnly(index),
        Some(addr) if is_ignored(ignore, addr) => Finding::IgnoredAddr(index),
        Some(addr) => timed(now, findtime, index, addr, moment),
    }
}
