//! Inputs: the moment, the word of the clock's reading, and what happened.
ghost use Rattle.std.specs.Prelude.{◌≡◌, ◌++◌, OnOk};
ghost use Rattle.record_fields.specs.Codec.{Gives, capped};
ghost use Rattle.record_codec.specs.declared.version.Version.TheVariants.{Two};
ghost use Rattle.record_codec.specs.Inputs.{input};

use crate::happenings::{put_what, take_what, what_len};
use crate::version::Version;
use f2b_base::{Bytes, Input, NoMemory};
use record_fields::{Fault, joined_len, number_len, put_number, take_moment, take_number};
use std::alloc::Global;

/// Adds an input, in version 2.
#[tactic(auto, unfolding(crate::specs::Inputs::input))]
pub(crate) fn put_input(it: &Input, out: &mut Bytes) -> Result<(), NoMemory>
    ensures { OnOk result (out.new ≡ out.old ++ (input Two).spell it.now) }
{
    put_number(it.secs, out)?;
    put_number(it.word, out)?;
    put_what(&it.what, out)
}

/// How long an input is in version 2.
#[tactic(auto, unfolding(crate::specs::Inputs::input))]
pub(crate) fn whole_len(it: &Input) -> u64
    ensures { result ≡ capped ((input Two).spell it.now) }
{
    joined_len(
        number_len(it.secs),
        joined_len(number_len(it.word), what_len(&it.what)),
    )
}

/// The input at the front of the bytes.
#[tactic(auto, unfolding(crate::specs::Inputs::input))]
pub(crate) fn take_input(
    version: Version,
    alloc: Global,
    bytes: &[u8],
) -> Result<(Input, &[u8]), Fault>
    ensures { Gives (λ x. (x.0, x.1.now)) result ((input version).read bytes.now) }
{
    let (secs, rest) = take_moment(bytes)?;
    let (word, rest) = take_number(rest)?;
    let (what, rest) = take_what(version, alloc, rest)?;
    Ok((Input { secs, word, what }, rest))
}
