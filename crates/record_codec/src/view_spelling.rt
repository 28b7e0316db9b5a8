//! The calls on views.
ghost use Rattle.std.specs.Prelude.{◌≡◌, ℕ, List, ◌++◌, length, IfOk, OnOk, OnErr, Ok};
ghost use Rattle.f2b_base.specs.declared.view.View.{View as AView};
ghost use Rattle.record_fields.specs.Codec.{capped};
ghost use Rattle.record_codec.specs.declared.version.Version.TheVariants.{One, Two};
ghost use Rattle.record_codec.specs.Fronts.{Answers, IsAtFront, front_of};
ghost use Rattle.record_codec.specs.Views.{view, IsRecordedView, IsViewWholeIn};

use crate::read_error::ReadError;
use crate::version::Version;
use crate::views::{put_view, take_view, whole_len};
use f2b_base::{Bytes, NoMemory, View};
use record_fields::Fault;
use std::alloc::Global;

/// Appends the one spelling of a view, in version 2. An error changes nothing.
pub fn write_view(alloc: Global, it: &View, out: &mut Bytes) -> Result<(), NoMemory>
    ensures ok { OnOk result (out.new ≡ out.old ++ (view Two).spell it.now) }
    ensures err { OnErr result (out.new ≡ out.old) }
{
    let mut fresh = Bytes::new(alloc);
    put_view(it, &mut fresh)?;
    out.push_slice(fresh.as_slice())
}

/// How long the spelling of a view is in version 2, or 2^64 - 1 where it is longer. Takes no memory.
pub fn view_len(it: &View) -> u64
    ensures { result ≡ capped ((view Two).spell it.now) }
{
    whole_len(it)
}

fn read_in(version: Version, alloc: Global, bytes: &[u8]) -> Result<(View, u64), ReadError>
    ensures found { IfOk result (λ x. IsRecordedView x.0 × IsViewWholeIn version x.0 × IsAtFront (view version).spell bytes.now x) }
    ensures only { (v : AView) (rest : List ℕ) → IsRecordedView v → IsViewWholeIn version v → bytes.now ≡ (view version).spell v ++ rest → Answers result (Ok (v, length ((view version).spell v))) }
    ensures place { Answers result (front_of bytes.now ((view version).read bytes.now)) }
{
    match take_view(version, alloc, bytes) {
        Ok((it, rest)) => Ok((it, bytes.len().saturating_sub(rest.len()) as u64)),
        Err(Fault::Left(left)) => Err(ReadError::Bad((bytes.len() as u64).saturating_sub(left))),
        Err(Fault::NoMemory) => Err(ReadError::NoMemory),
    }
}

/// The view that is spelt at the front of the bytes in version 2, and the length of its spelling.
pub fn read_view(alloc: Global, bytes: &[u8]) -> Result<(View, u64), ReadError>
    // What is read is within its bounds, and is spelt so, each byte of it.
    ensures found { IfOk result (λ x. IsRecordedView x.0 × IsAtFront (view Two).spell bytes.now x) }
    // What is within its bounds and is spelt so is read, whatever follows.
    ensures only { (v : AView) (rest : List ℕ) → IsRecordedView v → bytes.now ≡ (view Two).spell v ++ rest → Answers result (Ok (v, length ((view Two).spell v))) }
    // Where the first field stands that has no reading.
    ensures place { Answers result (front_of bytes.now ((view Two).read bytes.now)) }
{
    read_in(Version::Two, alloc, bytes)
}

/// The same in version 1, in which failures have no line.
pub fn read_view_v1(alloc: Global, bytes: &[u8]) -> Result<(View, u64), ReadError>
    ensures found { IfOk result (λ x. IsRecordedView x.0 × IsViewWholeIn One x.0 × IsAtFront (view One).spell bytes.now x) }
    ensures only { (v : AView) (rest : List ℕ) → IsRecordedView v → IsViewWholeIn One v → bytes.now ≡ (view One).spell v ++ rest → Answers result (Ok (v, length ((view One).spell v))) }
    ensures place { Answers result (front_of bytes.now ((view One).read bytes.now)) }
{
    read_in(Version::One, alloc, bytes)
}
