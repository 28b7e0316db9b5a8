//! The calls on inputs.
ghost use Rattle.std.specs.Prelude.{◌≡◌, ℕ, List, ◌++◌, length, IfOk, OnOk, OnErr, Ok};
ghost use Rattle.f2b_base.specs.declared.input.Input.{Input as AnInput};
ghost use Rattle.f2b_model.specs.Storable.{IsStorableInput};
ghost use Rattle.record_fields.specs.Codec.{capped};
ghost use Rattle.record_codec.specs.declared.version.Version.TheVariants.{One, Two};
ghost use Rattle.record_codec.specs.Fronts.{Answers, IsAtFront, front_of};
ghost use Rattle.record_codec.specs.Inputs.{input, AreWholeIn};

use crate::inputs::{put_input, take_input, whole_len};
use crate::read_error::ReadError;
use crate::version::Version;
use f2b_base::{Bytes, Input, NoMemory};
use record_fields::Fault;
use std::alloc::Global;

/// Appends the one spelling of an input, in version 2. An error changes nothing.
pub fn write_input(alloc: Global, it: &Input, out: &mut Bytes) -> Result<(), NoMemory>
    ensures ok { OnOk result (out.new ≡ out.old ++ (input Two).spell it.now) }
    ensures err { OnErr result (out.new ≡ out.old) }
{
    let mut fresh = Bytes::new(alloc);
    put_input(it, &mut fresh)?;
    out.push_slice(fresh.as_slice())
}

/// How long the spelling of an input is in version 2, or 2^64 - 1 where it is longer. Takes no memory.
pub fn input_len(it: &Input) -> u64
    ensures { result ≡ capped ((input Two).spell it.now) }
{
    whole_len(it)
}

fn read_in(version: Version, alloc: Global, bytes: &[u8]) -> Result<(Input, u64), ReadError>
    ensures found { IfOk result (λ x. IsStorableInput x.0 × AreWholeIn version x.0.what × IsAtFront (input version).spell bytes.now x) }
    ensures only { (i : AnInput) (rest : List ℕ) → IsStorableInput i → AreWholeIn version i.what → bytes.now ≡ (input version).spell i ++ rest → Answers result (Ok (i, length ((input version).spell i))) }
    ensures place { Answers result (front_of bytes.now ((input version).read bytes.now)) }
{
    match take_input(version, alloc, bytes) {
        Ok((it, rest)) => Ok((it, bytes.len().saturating_sub(rest.len()) as u64)),
        Err(Fault::Left(left)) => Err(ReadError::Bad((bytes.len() as u64).saturating_sub(left))),
        Err(Fault::NoMemory) => Err(ReadError::NoMemory),
    }
}

/// The input that is spelt at the front of the bytes in version 2, and the length of its spelling.
pub fn read_input(alloc: Global, bytes: &[u8]) -> Result<(Input, u64), ReadError>
    // What is read is within its bounds, and is spelt so, each byte of it.
    ensures found { IfOk result (λ x. IsStorableInput x.0 × IsAtFront (input Two).spell bytes.now x) }
    // What is within its bounds and is spelt so is read, whatever follows.
    ensures only { (i : AnInput) (rest : List ℕ) → IsStorableInput i → bytes.now ≡ (input Two).spell i ++ rest → Answers result (Ok (i, length ((input Two).spell i))) }
    // Where the first field stands that has no reading.
    ensures place { Answers result (front_of bytes.now ((input Two).read bytes.now)) }
{
    read_in(Version::Two, alloc, bytes)
}

/// The same in version 1, in which failures have no line.
pub fn read_input_v1(alloc: Global, bytes: &[u8]) -> Result<(Input, u64), ReadError>
    ensures found { IfOk result (λ x. IsStorableInput x.0 × AreWholeIn One x.0.what × IsAtFront (input One).spell bytes.now x) }
    ensures only { (i : AnInput) (rest : List ℕ) → IsStorableInput i → AreWholeIn One i.what → bytes.now ≡ (input One).spell i ++ rest → Answers result (Ok (i, length ((input One).spell i))) }
    ensures place { Answers result (front_of bytes.now ((input One).read bytes.now)) }
{
    read_in(Version::One, alloc, bytes)
}
