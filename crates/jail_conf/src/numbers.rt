//! Items that are numbers.
ghost use Rattle.std.specs.Prelude.{◌≡◌, ◌<◌, ◌-◌, ◌^◌, min, option_map, option_and_then};
ghost use Rattle.jail_conf.specs.Numbers.{thousandths_of, thousandths};
ghost use Rattle.jail_conf.specs.Words.{number, if_between};

use crate::conf_error::ConfKind;
use crate::each::each;
use crate::fail::Fail;
use crate::limits::MOST_MULTIPLIERS;
use crate::reading::ReadsItem;
use crate::words::{number, trim, words};
use f2b_base::Seq;
use std::alloc::Global;

/// The number of a text, where it is in these bounds.
pub(crate) fn number_between(least: u64, most: u64, text: &[u8]) -> Option<u64>
    requires { most < 2 ^ 64 - 1 }
    ensures { result ≡ option_and_then (if_between least most) (number text.now) }
{
    number(text).filter(|&n| least <= n && n <= most)
}

/// A number in these bounds.
#[derive(Drop)]
pub(crate) struct Number {
    pub least: u64,
    pub most: u64,
    ghost below_greatest: { most < 2 ^ 64 - 1 },
}

impl ReadsItem<u64> for Number {
    ghost use Rattle.jail_conf.specs.Numbers.{number_between};

    ghost reading = { λ bounds. number_between bounds.least bounds.most };

    fn read(&self, _alloc: Global, text: &str) -> Result<u64, Fail<ConfKind>> {
        match number_between(self.least, self.most, trim(text).as_bytes()) {
            Some(number) => Ok(number),
            None => Err(Fail::Refused(ConfKind::BadNumber)),
        }
    }
}

/// A number that is 1, and nothing comes of it.
#[derive(Drop)]
pub(crate) struct OnlyOne;

impl ReadsItem<()> for OnlyOne {
    ghost use Rattle.jail_conf.specs.Numbers.{only_one};

    ghost reading = { λ _. only_one };

    fn read(&self, _alloc: Global, text: &str) -> Result<(), Fail<ConfKind>> {
        if number_between(1, 1, trim(text).as_bytes()).is_some() {
            Ok(())
        } else {
            Err(Fail::Refused(ConfKind::Unsupported))
        }
    }
}

/// Thousandths of so many units and this fraction, which has one to three digits. They stay at the greatest `u64`.
fn thousandths_of(units: &[u8], fraction: &[u8]) -> Option<u64>
    ensures { result ≡ option_map (λ n. min n (2 ^ 64 - 1)) (thousandths_of units.now fraction.now) }
{
    let scale = match fraction.len() {
        1 => 100,
        2 => 10,
        3 => 1,
        _ => return None,
    };
    let units = number(units)?;
    let fraction = number(fraction)?;
    let thousandths = fraction.saturating_mul(scale);
    Some(units.saturating_mul(1_000).saturating_add(thousandths))
}

/// Thousandths: digits, then nothing, or a dot and one to three digits. They stay at the greatest `u64`.
fn thousandths(text: &str) -> Option<u64>
    ensures { result ≡ option_map (λ n. min n (2 ^ 64 - 1)) (thousandths text.now) }
{
    match text.split_once('.') {
        Some((units, fraction)) => thousandths_of(units.as_bytes(), fraction.as_bytes()),
        None => number(text.as_bytes()).map(|n| n.saturating_mul(1_000)),
    }
}

/// A factor from a thousandth to a thousand, in thousandths.
#[derive(Drop)]
pub(crate) struct Factor;

impl ReadsItem<u64> for Factor {
    ghost use Rattle.jail_conf.specs.Numbers.{factor};

    ghost reading = { λ _. factor };

    fn read(&self, _alloc: Global, text: &str) -> Result<u64, Fail<ConfKind>> {
        match thousandths(trim(text)) {
            Some(n) if 1 <= n && n <= 1_000_000 => Ok(n),
            _ => Err(Fail::Refused(ConfKind::BadNumber)),
        }
    }
}

/// Numbers of 1 to a million, divided by blanks and lines.
#[derive(Drop)]
pub(crate) struct Multipliers;

impl ReadsItem<Seq<u64>> for Multipliers {
    ghost use Rattle.jail_conf.specs.Numbers.{multipliers};

    ghost reading = { λ _. multipliers };

    fn read(&self, alloc: Global, text: &str) -> Result<Seq<u64>, Fail<ConfKind>> {
        let words = words(alloc, text, " \t\n")?;
        if words.len() > MOST_MULTIPLIERS {
            return Err(Fail::Refused(ConfKind::BadNumber));
        }
        let number = Number {
            least: 1,
            most: 1_000_000,
        };
        each(alloc, &number, words.as_slice())
    }
}
