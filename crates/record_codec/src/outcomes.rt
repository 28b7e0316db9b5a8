//! How a try of a job ended.
ghost use Rattle.std.specs.Prelude.{◌≡◌, ◌++◌, OnOk};
ghost use Rattle.record_fields.specs.Codec.{Gives, capped};
ghost use Rattle.record_codec.specs.Lanes.{outcome};

use f2b_base::{Bytes, NoMemory, Outcome};
use record_fields::{Fault, byte_len, put_signed, signed_len, tagged_len, take_signed};

/// Adds how a try ended.
#[tactic(auto, unfolding(crate::specs::Lanes::outcome))]
pub(crate) fn put_outcome(end: Outcome, out: &mut Bytes) -> Result<(), NoMemory>
    ensures { OnOk result (out.new ≡ out.old ++ outcome.spell end) }
{
    match end {
        Outcome::Status(status) => {
            out.push(0)?;
            put_signed(status, out)
        }
        Outcome::NotStarted => out.push(1),
        Outcome::TimedOut => out.push(2),
    }
}

/// How long that is.
#[tactic(auto, unfolding(crate::specs::Lanes::outcome))]
pub(crate) fn outcome_len(end: Outcome) -> u64
    ensures { result ≡ capped (outcome.spell end) }
{
    match end {
        Outcome::Status(status) => tagged_len(signed_len(status)),
        Outcome::NotStarted => byte_len(),
        Outcome::TimedOut => byte_len(),
    }
}

/// How a try ended, at the front of the bytes.
#[tactic(auto, unfolding(crate::specs::Lanes::outcome))]
pub(crate) fn take_outcome(bytes: &[u8]) -> Result<(Outcome, &[u8]), Fault>
    ensures { Gives (λ x. (x.0, x.1.now)) result (outcome.read bytes.now) }
{
    match bytes {
        [] => Err(Fault::Left(0)),
        [first, rest @ ..] => {
            if *first == 0 {
                let (status, after) = take_signed(rest)?;
                Ok((Outcome::Status(status), after))
            } else if *first == 1 {
                Ok((Outcome::NotStarted, rest))
            } else if *first == 2 {
                Ok((Outcome::TimedOut, rest))
            } else {
                Err(Fault::Left(bytes.len() as u64))
            }
        }
    }
}
