//! How the date of a line is found.
ghost use Rattle.std.specs.Prelude.{◌≡◌, ◌++◌, OnOk};
ghost use Rattle.record_fields.specs.Codec.{Gives, capped};
ghost use Rattle.record_codec.specs.Definitions.{date};

use crate::names::take_pattern;
use f2b_base::{Bytes, DateSpec, NoMemory};
use record_fields::{Fault, byte_len, put_text, tagged_len, text_len};
use std::alloc::Global;

/// Adds how dates are found.
#[tactic(auto, unfolding(crate::specs::Definitions::date))]
pub(crate) fn put_date(spec: &DateSpec, out: &mut Bytes) -> Result<(), NoMemory>
    ensures { OnOk result (out.new ≡ out.old ++ date.spell spec.now) }
{
    match spec {
        DateSpec::Default => out.push(0),
        DateSpec::Anchored => out.push(1),
        DateSpec::NoDate => out.push(2),
        DateSpec::Epoch => out.push(3),
        DateSpec::Iso => out.push(4),
        DateSpec::Pattern(text) => {
            out.push(5)?;
            put_text(text, out)
        }
        DateSpec::AnchoredPattern(text) => {
            out.push(6)?;
            put_text(text, out)
        }
    }
}

/// How long that is.
#[tactic(auto, unfolding(crate::specs::Definitions::date))]
pub(crate) fn date_len(spec: &DateSpec) -> u64
    ensures { result ≡ capped (date.spell spec.now) }
{
    match spec {
        DateSpec::Default
        | DateSpec::Anchored
        | DateSpec::NoDate
        | DateSpec::Epoch
        | DateSpec::Iso => byte_len(),
        DateSpec::Pattern(text) => tagged_len(text_len(text)),
        DateSpec::AnchoredPattern(text) => tagged_len(text_len(text)),
    }
}

/// How dates are found, at the front of the bytes.
#[tactic(auto, unfolding(crate::specs::Definitions::date))]
pub(crate) fn take_date(alloc: Global, bytes: &[u8]) -> Result<(DateSpec, &[u8]), Fault>
    ensures { Gives (λ x. (x.0, x.1.now)) result (date.read bytes.now) }
{
    match bytes {
        [] => Err(Fault::Left(0)),
        [first, rest @ ..] => {
            if *first == 0 {
                Ok((DateSpec::Default, rest))
            } else if *first == 1 {
                Ok((DateSpec::Anchored, rest))
            } else if *first == 2 {
                Ok((DateSpec::NoDate, rest))
            } else if *first == 3 {
                Ok((DateSpec::Epoch, rest))
            } else if *first == 4 {
                Ok((DateSpec::Iso, rest))
            } else if *first == 5 {
                let (text, after) = take_pattern(alloc, rest)?;
                Ok((DateSpec::Pattern(text), after))
            } else if *first == 6 {
                let (text, after) = take_pattern(alloc, rest)?;
                Ok((DateSpec::AnchoredPattern(text), after))
            } else {
                Err(Fault::Left(bytes.len() as u64))
            }
        }
    }
}
