//! Failures, with their line in version 2 and without it in version 1.
ghost use Rattle.std.specs.Prelude.{◌≡◌, ◌++◌, OnOk};
ghost use Rattle.record_fields.specs.Codec.{Gives, capped};
ghost use Rattle.record_fields.specs.Lists.{any};
ghost use Rattle.record_codec.specs.Versions.{failure, failure_v1, failure_v2};

use crate::version::Version;
use f2b_base::{Bytes, Failure, KEPT_LINE_BYTES, NoMemory, Text};
use record_fields::{
    Fault, Items, Spell, addr_len, joined_len, number_len, put_addr, put_number, put_text,
    take_addr, take_moment, take_short, text_len,
};
use std::alloc::Global;

#[tactic(auto, unfolding(crate::specs::Versions::failure_v1))]
fn take_failure_v1(alloc: Global, bytes: &[u8]) -> Result<(Failure, &[u8]), Fault>
    ensures { Gives (λ x. (x.0, x.1.now)) result (failure_v1.read bytes.now) }
{
    let (addr, rest) = take_addr(bytes)?;
    let (time, rest) = take_moment(rest)?;
    Ok((
        Failure {
            addr,
            time,
            line: Text::new(alloc),
        },
        rest,
    ))
}

#[tactic(auto, unfolding(crate::specs::Versions::failure_v2))]
fn take_failure_v2(alloc: Global, bytes: &[u8]) -> Result<(Failure, &[u8]), Fault>
    ensures { Gives (λ x. (x.0, x.1.now)) result (failure_v2.read bytes.now) }
{
    let (addr, rest) = take_addr(bytes)?;
    let (time, rest) = take_moment(rest)?;
    let (line, rest) = take_short(alloc, KEPT_LINE_BYTES as u64, rest)?;
    Ok((Failure { addr, time, line }, rest))
}

/// The failure at the front of the bytes.
pub(crate) fn take_failure(
    version: Version,
    alloc: Global,
    bytes: &[u8],
) -> Result<(Failure, &[u8]), Fault>
    ensures { Gives (λ x. (x.0, x.1.now)) result ((failure version).read bytes.now) }
{
    match version {
        Version::One => take_failure_v1(alloc, bytes),
        Version::Two => take_failure_v2(alloc, bytes),
    }
}

/// Failures that were found, in any order.
#[derive(Clone, Copy, Drop)]
pub(crate) struct Found {
    pub(crate) version: Version,
}

impl Spell<Failure> for Found {
    ghost spelling = { failure_v2.spell };

    #[tactic(auto, unfolding(crate::specs::Versions::failure_v2))]
    fn put(item: &Failure, out: &mut Bytes) -> Result<(), NoMemory> {
        put_addr(item.addr, out)?;
        put_number(item.time, out)?;
        put_text(&item.line, out)
    }

    #[tactic(auto, unfolding(crate::specs::Versions::failure_v2))]
    fn len(item: &Failure) -> u64 {
        joined_len(
            addr_len(item.addr),
            joined_len(number_len(item.time), text_len(&item.line)),
        )
    }
}

impl Items<Failure> for Found {
    ghost reading = { λ by. (failure by.version).read };

    ghost allowed = { λ _. any };

    fn take<'a>(&self, alloc: Global, bytes: &'a [u8]) -> Result<(Failure, &'a [u8]), Fault> {
        take_failure(self.version, alloc, bytes)
    }

    fn allows(&self, _before: &[Failure], _item: &Failure) -> bool {
        true
    }
}
