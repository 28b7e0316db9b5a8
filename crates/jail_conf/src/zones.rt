//! Zones: `Z`, or `UTC` or `GMT` with nothing behind it or `+hhmm` or `-hhmm`.
ghost use Rattle.std.specs.Prelude.{◌≡◌, option_map};
ghost use Rattle.jail_conf.specs.Zones.{offset, behind_name, zone_of};

use crate::conf_error::ConfKind;
use crate::fail::Fail;
use crate::numbers::number_between;
use crate::reading::ReadsItem;
use crate::words::trim;
use std::alloc::Global;

/// The seconds of two digits of hours and two of minutes.
fn offset(digits: &[u8]) -> Option<u32>
    ensures { result ≡ offset digits.now }
{
    if digits.len() != 4 {
        return None;
    }
    let (hours, minutes) = digits.split_at(2);
    let hours = number_between(0, 23, hours)?;
    let minutes = number_between(0, 59, minutes)?;
    Some((hours * 3_600 + minutes * 60) as u32)
}

/// What stands behind the name of a zone.
fn behind_name(text: &[u8]) -> Option<i64>
    ensures { result ≡ behind_name text.now }
{
    match text {
        [] => Some(0),
        [b'+', digits @ ..] => offset(digits).map(i64::from),
        [b'-', digits @ ..] => offset(digits).map(|seconds| -i64::from(seconds)),
        _ => None,
    }
}

/// How many seconds a zone is ahead of UTC.
fn zone_of(text: &str) -> Option<i64>
    ensures { result ≡ zone_of text.now }
{
    if text == "Z" {
        return Some(0);
    }
    let behind = match text.strip_prefix("UTC") {
        Some(behind) => Some(behind),
        None => text.strip_prefix("GMT"),
    };
    behind_name(behind?.as_bytes())
}

/// How many seconds a zone is ahead of UTC.
#[derive(Drop)]
pub(crate) struct Zone;

impl ReadsItem<i64> for Zone {
    ghost use Rattle.jail_conf.specs.Zones.{zone};

    ghost reading = { λ _. zone };

    fn read(&self, _alloc: Global, text: &str) -> Result<i64, Fail<ConfKind>> {
        match zone_of(trim(text)) {
            Some(seconds) => Ok(seconds),
            None => Err(Fail::Refused(ConfKind::BadZone)),
        }
    }
}
