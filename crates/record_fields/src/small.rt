//! Flags, moments, spans of time and counts.
ghost use Rattle.std.specs.Prelude.{◌≡◌, ◌++◌, OnOk};
ghost use Rattle.record_fields.specs.Codec.{Gives};
ghost use Rattle.record_fields.specs.Small.{moment, span, count, flag};

use crate::fault::Fault;
use crate::numbers::{take_between, take_up_to};
use f2b_base::{Bytes, LAST_MOMENT, NoMemory};

/// The most seconds that a word of time can mean.
const LONGEST_SPAN: u64 = 3_153_600_000;

/// The moment at the front of the bytes, in seconds since 1970.
pub fn take_moment(bytes: &[u8]) -> Result<(u64, &[u8]), Fault>
    ensures { Gives (λ x. (x.0, x.1.now)) result (moment.read bytes.now) }
{
    take_up_to(LAST_MOMENT, bytes)
}

/// The span of time at the front of the bytes, in seconds.
pub fn take_span(bytes: &[u8]) -> Result<(u64, &[u8]), Fault>
    ensures { Gives (λ x. (x.0, x.1.now)) result (span.read bytes.now) }
{
    take_between(1, LONGEST_SPAN, bytes)
}

/// The count of 32 bits at the front of the bytes.
pub fn take_count(bytes: &[u8]) -> Result<(u32, &[u8]), Fault>
    ensures { Gives (λ x. (x.0, x.1.now)) result (count.read bytes.now) }
{
    let (n, rest) = take_up_to(u64::from(u32::MAX), bytes)?;
    Ok((n as u32, rest))
}

/// Adds a flag: 0 or 1.
pub fn put_flag(is: bool, out: &mut Bytes) -> Result<(), NoMemory>
    ensures { OnOk result (out.new ≡ out.old ++ flag.spell is) }
{
    out.push(if is { 1 } else { 0 })
}

/// The flag at the front of the bytes.
pub fn take_flag(bytes: &[u8]) -> Result<(bool, &[u8]), Fault>
    ensures { Gives (λ x. (x.0, x.1.now)) result (flag.read bytes.now) }
{
    match bytes {
        [] => Err(Fault::Left(0)),
        [first, rest @ ..] => {
            if *first == 0 {
                Ok((false, rest))
            } else if *first == 1 {
                Ok((true, rest))
            } else {
                Err(Fault::Left(bytes.len() as u64))
            }
        }
    }
}
