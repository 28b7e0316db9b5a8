//! Numbers: seven bits a byte, low ones first, in the shortest form alone.
ghost use Rattle.std.specs.Prelude.{◌≡◌, ◌<◌, ◌≤◌, ◌^◌, ◌++◌, length, OnOk, option_map};
ghost use Rattle.record_fields.specs.Codec.{Gives, capped};
ghost use Rattle.record_fields.specs.Numbers.{digits, digits_at, number, number_at, at_most, between, signed};

use crate::fault::Fault;
use f2b_base::{Bytes, NoMemory};

#[tactic(auto, unfolding(crate::specs::Numbers::digits))]
fn put_digits(out: &mut Bytes, n: u64, left: u8) -> Result<(), NoMemory>
    ensures { OnOk result (out.new ≡ out.old ++ digits left n) }
{
    if left == 0 {
        return Ok(());
    }
    if n < 128 {
        return out.push(n as u8);
    }
    out.push(128 + (n % 128) as u8)?;
    put_digits(out, n / 128, left - 1)
}

/// Adds a number: at most ten bytes.
pub fn put_number(n: u64, out: &mut Bytes) -> Result<(), NoMemory>
    ensures { OnOk result (out.new ≡ out.old ++ number.spell n) }
{
    put_digits(out, n, 10)
}

#[tactic(auto, unfolding(crate::specs::Numbers::digits))]
fn digits_len(n: u64, left: u8) -> u64
    ensures value { result ≡ length (digits left n) }
    ensures small { result ≤ left }
{
    if left == 0 {
        return 0;
    }
    if n < 128 {
        return 1;
    }
    1 + digits_len(n / 128, left - 1)
}

/// How many bytes a number has.
#[tactic(auto, unfolding(crate::specs::Codec::capped))]
pub fn number_len(n: u64) -> u64
    ensures { result ≡ capped (number.spell n) }
{
    digits_len(n, 10)
}

#[tactic(auto, unfolding(crate::specs::Numbers::digits_at))]
fn take_digits(bytes: &[u8], left: u8) -> Option<(u64, &[u8])>
    ensures { option_map (λ x. (x.0, x.1.now)) result ≡ digits_at left bytes.now }
{
    if left == 0 {
        return None;
    }
    match bytes {
        [] => None,
        [b, rest @ ..] => {
            if *b < 128 {
                return Some((u64::from(*b), rest));
            }
            let (high, after) = take_digits(rest, left - 1)?;
            // With 0 it would be a second spelling, and with more no number of 64 bits.
            if 0 < high && high < 1 << 57 {
                Some((u64::from(*b - 128) + 128 * high, after))
            } else {
                None
            }
        }
    }
}

/// The number at the front of the bytes.
#[tactic(auto, unfolding(crate::specs::Numbers::number_at))]
pub fn take_number(bytes: &[u8]) -> Result<(u64, &[u8]), Fault>
    ensures { Gives (λ x. (x.0, x.1.now)) result (number.read bytes.now) }
{
    match take_digits(bytes, 10) {
        Some(found) => Ok(found),
        None => Err(Fault::Left(bytes.len() as u64)),
    }
}

/// The number at the front of the bytes, where it is no greater than another one.
pub fn take_up_to(most: u64, bytes: &[u8]) -> Result<(u64, &[u8]), Fault>
    ensures { Gives (λ x. (x.0, x.1.now)) result ((at_most most).read bytes.now) }
{
    let (n, rest) = take_number(bytes)?;
    if n <= most {
        Ok((n, rest))
    } else {
        Err(Fault::Left(bytes.len() as u64))
    }
}

/// The number at the front of the bytes, where it is between two others.
pub fn take_between(least: u64, most: u64, bytes: &[u8]) -> Result<(u64, &[u8]), Fault>
    ensures { Gives (λ x. (x.0, x.1.now)) result ((between least most).read bytes.now) }
{
    let (n, rest) = take_number(bytes)?;
    if least <= n && n <= most {
        Ok((n, rest))
    } else {
        Err(Fault::Left(bytes.len() as u64))
    }
}

/// Adds a signed number: 0, -1, 1, -2 are spelt as 0, 1, 2, 3.
pub fn put_signed(z: i64, out: &mut Bytes) -> Result<(), NoMemory>
    ensures { OnOk result (out.new ≡ out.old ++ signed.spell z) }
{
    if z < 0 {
        put_number(2 * ((-(z + 1)) as u64) + 1, out)
    } else {
        put_number(2 * (z as u64), out)
    }
}

/// How many bytes a signed number has.
pub fn signed_len(z: i64) -> u64
    ensures { result ≡ capped (signed.spell z) }
{
    if z < 0 {
        number_len(2 * ((-(z + 1)) as u64) + 1)
    } else {
        number_len(2 * (z as u64))
    }
}

/// The signed number at the front of the bytes.
#[tactic(auto, unfolding(crate::specs::Numbers::unzigzag))]
pub fn take_signed(bytes: &[u8]) -> Result<(i64, &[u8]), Fault>
    ensures { Gives (λ x. (x.0, x.1.now)) result (signed.read bytes.now) }
{
    let (n, rest) = take_number(bytes)?;
    let half = (n / 2) as i64;
    if n % 2 == 0 {
        Ok((half, rest))
    } else {
        Ok((-half - 1, rest))
    }
}
