//! What stands at the front of a slot.
ghost use Rattle.std.specs.Prelude.{◌≡◌, IfOk, MatchOption, length, Ok, Err};
ghost use Rattle.journal_slots.specs.Grammar.{number_of};
ghost use Rattle.journal_slots.specs.Starts.{generation, start, version};
ghost use Rattle.record_codec.specs.Fronts.{Answers, IsAtFront, front_of};
ghost use Rattle.record_codec.specs.Views.{view};
ghost use Rattle.record_fields.specs.Codec.{Gives};
ghost use Rattle.slot_reader.specs.Fronts.{IsLead, is_clear_lead, start_in};
ghost use Rattle.slot_reader.specs.Versions.{spelling};

use crate::version::Version;
use f2b_base::{NoMemory, View};
use record_codec::{ReadError, read_view, read_view_v1};
use record_fields::Fault;
use std::alloc::Global;

/// The greatest generation of a slot.
const LAST_GENERATION: u64 = 1 << 62;

/// What an open slot begins with.
#[derive(Debug, Drop)]
pub(crate) struct Begun {
    pub(crate) generation: u64,
    pub(crate) version: Version,
    pub(crate) view: View,
}

/// What stands at the front of a slot.
#[derive(Debug, Drop)]
pub(crate) enum Lead {
    /// A closed gate.
    Shut,
    /// An open gate and a start, and how many bytes both have.
    Opens(Begun, u64),
    /// No beginning of the bytes is one of these: the generation, or 0 where it has no reading, and where the first field begins that
    /// has none.
    Bad(u64, u64),
}

impl Lead {
    /// Whether it is that whatever follows.
    pub(crate) fn is_clear(&self) -> bool
        ensures { result ≡ is_clear_lead self.now }
    {
        !matches!(self, Lead::Bad(_, _))
    }
}

/// The generation at the front of bytes, and what follows it.
#[tactic(auto, unfolding(journal_slots::specs::Starts::generation, record_fields::specs::Addresses::fixed_at))]
fn generation_at(bytes: &[u8]) -> Option<(u64, &[u8])>
    ensures { MatchOption result (generation.read bytes.now ≡ Err (length bytes.now)) (λ x. generation.read bytes.now ≡ Ok (x.0, x.1.now)) }
{
    if bytes.len() < 8 {
        return None;
    }
    let (front, rest) = bytes.split_at(8);
    let number = u64::from_be_bytes([
        front[0], front[1], front[2], front[3], front[4], front[5], front[6], front[7],
    ]);
    if 1 <= number && number <= LAST_GENERATION {
        Some((number, rest))
    } else {
        None
    }
}

/// The generation at the front of bytes, or 0 where it has no reading.
fn generation_in(bytes: &[u8]) -> u64
    ensures { result ≡ number_of (generation.read bytes.now) }
{
    match generation_at(bytes) {
        Some((number, _)) => number,
        None => 0,
    }
}

fn take_generation(bytes: &[u8]) -> Result<(u64, &[u8]), Fault>
    ensures { Gives (λ x. (x.0, x.1.now)) result (generation.read bytes.now) }
{
    match generation_at(bytes) {
        Some((number, rest)) => Ok((number, rest)),
        None => Err(Fault::Left(bytes.len() as u64)),
    }
}

#[tactic(auto, unfolding(journal_slots::specs::Starts::version))]
fn take_version(bytes: &[u8]) -> Result<(Version, &[u8]), Fault>
    ensures { Gives (λ x. (spelling x.0, x.1.now)) result (version.read bytes.now) }
{
    match bytes {
        [] => Err(Fault::Left(0)),
        [first, rest @ ..] => {
            if *first == 1 {
                Ok((Version::One, rest))
            } else if *first == 2 {
                Ok((Version::Two, rest))
            } else {
                Err(Fault::Left(bytes.len() as u64))
            }
        }
    }
}

/// The view at the front of bytes, and its length.
#[tactic(auto, using(crate::proofs::RecordLemmas::whole_views))]
fn read_in(version: Version, alloc: Global, bytes: &[u8]) -> Result<(View, u64), ReadError>
    ensures found { IfOk result (λ x. (view (spelling version)).Fits x.0 × IsAtFront (view (spelling version)).spell bytes.now x) }
    ensures place { Answers result (front_of bytes.now ((view (spelling version)).read bytes.now)) }
{
    match version {
        Version::One => read_view_v1(alloc, bytes),
        Version::Two => read_view(alloc, bytes),
    }
}

/// The view at the front of bytes, and what follows it.
#[tactic(auto, using(crate::proofs::RecordLemmas::views_taken))]
fn take_view(version: Version, alloc: Global, bytes: &[u8]) -> Result<(View, &[u8]), Fault>
    ensures { Gives (λ x. (x.0, x.1.now)) result ((view (spelling version)).read bytes.now) }
{
    match read_in(version, alloc, bytes) {
        Ok((view, len)) => Ok((view, &bytes[len as usize..])),
        Err(ReadError::Bad(at)) => Err(Fault::Left((bytes.len() as u64).saturating_sub(at))),
        Err(ReadError::NoMemory) => Err(Fault::NoMemory),
    }
}

#[tactic(auto, unfolding(journal_slots::specs::Starts::start))]
fn take_start(alloc: Global, bytes: &[u8]) -> Result<(Begun, &[u8]), Fault>
    ensures { Gives (λ x. (start_in x.0, x.1.now)) result (start.read bytes.now) }
{
    let (generation, rest) = take_generation(bytes)?;
    let (version, rest) = take_version(rest)?;
    let (view, rest) = take_view(version, alloc, rest)?;
    let begun = Begun {
        generation,
        version,
        view,
    };
    Ok((begun, rest))
}

/// What stands at the front of bytes, from a slot's own gate on.
#[tactic(auto, using(crate::proofs::FrontLemmas::leads))]
pub(crate) fn lead_in(alloc: Global, bytes: &[u8]) -> Result<Lead, NoMemory>
    ensures { IfOk result (IsLead bytes.now) }
{
    match bytes {
        [] => Ok(Lead::Bad(0, 0)),
        [gate, behind @ ..] => {
            if *gate == 0 {
                return Ok(Lead::Shut);
            }
            match take_start(alloc, behind) {
                Ok((begun, rest)) => {
                    Ok(Lead::Opens(begun, bytes.len().saturating_sub(rest.len()) as u64))
                }
                Err(Fault::Left(left)) => {
                    let at = (bytes.len() as u64).saturating_sub(left);
                    Ok(Lead::Bad(generation_in(behind), at))
                }
                Err(Fault::NoMemory) => Err(NoMemory),
            }
        }
    }
}
