//! What stands at the front of bytes, from a gate behind a record on.
ghost use Rattle.std.specs.Prelude.{◌≡◌, IfOk};
ghost use Rattle.record_codec.specs.Fronts.{Answers, IsAtFront, front_of};
ghost use Rattle.record_codec.specs.Inputs.{input};
ghost use Rattle.record_fields.specs.Codec.{Gives};
ghost use Rattle.slot_reader.specs.Fronts.{IsItem, is_clear_item};
ghost use Rattle.slot_reader.specs.Versions.{spelling};

use crate::version::Version;
use f2b_base::{Input, NoMemory};
use record_codec::{ReadError, read_input, read_input_v1};
use record_fields::Fault;
use std::alloc::Global;

/// What stands at the front of bytes, from a gate on.
#[derive(Debug, Drop)]
pub(crate) enum Item {
    /// A closed gate.
    Closed,
    /// An open gate and an input, and how many bytes both have.
    Taken(Input, u64),
    /// No beginning of the bytes is one of these: here the first field begins that has no reading, in bytes from the front.
    Bad(u64),
}

impl Item {
    /// Whether it is that whatever follows.
    pub(crate) fn is_clear(&self) -> bool
        ensures { result ≡ is_clear_item self.now }
    {
        !matches!(self, Item::Bad(_))
    }
}

/// The input at the front of bytes, and its length.
#[tactic(auto, using(crate::proofs::RecordLemmas::whole_inputs))]
fn read_in(version: Version, alloc: Global, bytes: &[u8]) -> Result<(Input, u64), ReadError>
    ensures found { IfOk result (λ x. (input (spelling version)).Fits x.0 × IsAtFront (input (spelling version)).spell bytes.now x) }
    ensures place { Answers result (front_of bytes.now ((input (spelling version)).read bytes.now)) }
{
    match version {
        Version::One => read_input_v1(alloc, bytes),
        Version::Two => read_input(alloc, bytes),
    }
}

/// The input at the front of bytes, and what follows it.
#[tactic(auto, using(crate::proofs::RecordLemmas::inputs_taken))]
fn take_input(version: Version, alloc: Global, bytes: &[u8]) -> Result<(Input, &[u8]), Fault>
    ensures { Gives (λ x. (x.0, x.1.now)) result ((input (spelling version)).read bytes.now) }
{
    match read_in(version, alloc, bytes) {
        Ok((input, len)) => Ok((input, &bytes[len as usize..])),
        Err(ReadError::Bad(at)) => Err(Fault::Left((bytes.len() as u64).saturating_sub(at))),
        Err(ReadError::NoMemory) => Err(Fault::NoMemory),
    }
}

/// What stands at the front of bytes.
#[tactic(auto, using(crate::proofs::FrontLemmas::items))]
pub(crate) fn item_in(version: Version, alloc: Global, bytes: &[u8]) -> Result<Item, NoMemory>
    ensures { IfOk result (IsItem (spelling version) bytes.now) }
{
    match bytes {
        [] => Ok(Item::Bad(0)),
        [gate, behind @ ..] => {
            if *gate == 0 {
                return Ok(Item::Closed);
            }
            match take_input(version, alloc, behind) {
                Ok((input, rest)) => {
                    Ok(Item::Taken(input, bytes.len().saturating_sub(rest.len()) as u64))
                }
                Err(Fault::Left(left)) => Ok(Item::Bad((bytes.len() as u64).saturating_sub(left))),
                Err(Fault::NoMemory) => Err(NoMemory),
            }
        }
    }
}
