//! Jobs that are not settled.
ghost use Rattle.std.specs.Prelude.{◌≡◌, ◌++◌, nat_lt, OnOk};
ghost use Rattle.f2b_base.specs.declared.job.Job.{Job as Pending};
ghost use Rattle.record_fields.specs.Addresses.{addr};
ghost use Rattle.record_fields.specs.Codec.{Gives, capped, option_of};
ghost use Rattle.record_fields.specs.Lists.{is_behind};
ghost use Rattle.record_fields.specs.Small.{moment, span};
ghost use Rattle.record_fields.specs.Texts.{text};
ghost use Rattle.record_codec.specs.Lanes.{began, lane_id, kind, kind_code, tries, job};

use crate::hosts::{host_len, put_host, take_host};
use crate::lanes::{lane_len, put_lane, take_lane};
use f2b_base::{Bytes, Job, JobKind, NoMemory};
use record_fields::{
    Fault, Items, Spell, byte_len, joined_len, number_len, put_number, put_text, take_moment,
    take_span, take_text, take_up_to, text_len,
};
use std::alloc::Global;

/// The greatest id and the greatest serial.
const LAST_NUMBER: u64 = (1 << 63) - 1;

/// The id of a job or the serial of a ban, at the front of the bytes.
pub(crate) fn take_began(bytes: &[u8]) -> Result<(u64, &[u8]), Fault>
    ensures { Gives (λ x. (x.0, x.1.now)) result (began.read bytes.now) }
{
    take_up_to(LAST_NUMBER, bytes)
}

fn kind_code(is: JobKind) -> u8
    ensures { result ≡ kind_code is }
{
    match is {
        JobKind::Start => 0,
        JobKind::Stop => 1,
        JobKind::Ban => 2,
        JobKind::Unban => 3,
        JobKind::Reban => 4,
    }
}

fn take_kind(bytes: &[u8]) -> Result<(JobKind, &[u8]), Fault>
    ensures { Gives (λ x. (x.0, x.1.now)) result (kind.read bytes.now) }
{
    match bytes {
        [] => Err(Fault::Left(0)),
        [first, rest @ ..] => {
            if *first == 0 {
                Ok((JobKind::Start, rest))
            } else if *first == 1 {
                Ok((JobKind::Stop, rest))
            } else if *first == 2 {
                Ok((JobKind::Ban, rest))
            } else if *first == 3 {
                Ok((JobKind::Unban, rest))
            } else if *first == 4 {
                Ok((JobKind::Reban, rest))
            } else {
                Err(Fault::Left(bytes.len() as u64))
            }
        }
    }
}

fn take_tries(bytes: &[u8]) -> Result<(u8, &[u8]), Fault>
    ensures { Gives (λ x. (x.0, x.1.now)) result (tries.read bytes.now) }
{
    match bytes {
        [] => Err(Fault::Left(0)),
        [first, rest @ ..] => {
            if *first <= 2 {
                Ok((*first, rest))
            } else {
                Err(Fault::Left(bytes.len() as u64))
            }
        }
    }
}

fn put_order(item: &Job, out: &mut Bytes) -> Result<(), NoMemory>
    ensures { OnOk result (out.new ≡ out.old ++ (began.spell item.now.id ++ (lane_id.spell item.now.lane ++ (kind.spell item.now.kind ++ (option_of addr).spell item.now.addr)))) }
{
    put_number(item.id, out)?;
    put_lane(&item.lane, out)?;
    out.push(kind_code(item.kind))?;
    put_host(item.addr, out)
}

fn rest_len(item: &Job) -> u64
    ensures { result ≡ capped (text.spell item.now.text ++ (span.spell item.now.timeout ++ (tries.spell item.now.tries ++ moment.spell item.now.due))) }
{
    let tries = joined_len(byte_len(), number_len(item.due));
    joined_len(
        text_len(&item.text),
        joined_len(number_len(item.timeout), tries),
    )
}

/// Jobs by rising ids.
#[derive(Clone, Copy, Drop)]
pub(crate) struct Jobs;

impl Spell<Job> for Jobs {
    ghost spelling = { job.spell };

    #[tactic(auto, unfolding(crate::specs::Lanes::job))]
    fn put(item: &Job, out: &mut Bytes) -> Result<(), NoMemory> {
        put_order(item, out)?;
        put_text(&item.text, out)?;
        put_number(item.timeout, out)?;
        out.push(item.tries)?;
        put_number(item.due, out)
    }

    #[tactic(auto, unfolding(crate::specs::Lanes::job))]
    fn len(item: &Job) -> u64 {
        let from_host = joined_len(host_len(item.addr), rest_len(item));
        let from_kind = joined_len(byte_len(), from_host);
        joined_len(
            number_len(item.id),
            joined_len(lane_len(&item.lane), from_kind),
        )
    }
}

impl Items<Job> for Jobs {
    ghost reading = { λ _. job.read };

    ghost allowed = { λ _. is_behind (λ (one other : Pending). nat_lt one.id other.id) };

    #[tactic(auto, unfolding(crate::specs::Lanes::job))]
    fn take<'a>(&self, alloc: Global, bytes: &'a [u8]) -> Result<(Job, &'a [u8]), Fault> {
        let (id, rest) = take_began(bytes)?;
        let (lane, rest) = take_lane(alloc, rest)?;
        let (kind, rest) = take_kind(rest)?;
        let (addr, rest) = take_host(rest)?;
        let (text, rest) = take_text(alloc, rest)?;
        let (timeout, rest) = take_span(rest)?;
        let (tries, rest) = take_tries(rest)?;
        let (due, rest) = take_moment(rest)?;
        Ok((
            Job {
                id,
                lane,
                kind,
                addr,
                text,
                timeout,
                tries,
                due,
            },
            rest,
        ))
    }

    fn allows(&self, before: &[Job], item: &Job) -> bool {
        match before.last() {
            None => true,
            Some(job) => job.id < item.id,
        }
    }
}
