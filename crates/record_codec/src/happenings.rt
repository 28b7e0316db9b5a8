//! What happened: the fourteen kinds, each behind its byte.
ghost use Rattle.std.specs.Prelude.{◌≡◌, ℕ, ◌++◌, ◌∷◌, OnOk};
ghost use Rattle.record_fields.specs.Codec.{Gives, capped};
ghost use Rattle.record_codec.specs.declared.version.Version.TheVariants.{Two};
ghost use Rattle.record_codec.specs.Definitions.{name, defs};
ghost use Rattle.record_codec.specs.Inputs.{read_fields, ended_fields, what, read_at, ended_at, config_at, ban_at, unban_at, attempt_at, ignore_at, findtime_at, bantime_at, maxretry_at, idle_at, check_failed_at};

use crate::definitions::{MOST_RETRIES, defs_len, put_defs, take_defs};
use crate::failures::Found;
use crate::hosts::{Hosts, hosts_len, put_hosts, take_distinct, take_hosts};
use crate::logs::{place_len, put_place, take_place};
use crate::names::{jail_len, name_len, put_jail, put_name, take_jail, take_name};
use crate::outcomes::{outcome_len, put_outcome, take_outcome};
use crate::rules::take_base;
use crate::version::Version;
use f2b_base::{Addr, Bytes, Failure, NoMemory, Outcome, Place, Seq, Text, What};
use record_fields::{
    Fault, addr_len, byte_len, cidr_len, joined_len, list_len, number_len, put_addr, put_cidr,
    put_flag, put_list, put_number, put_signed, put_text, signed_len, tagged_len, take_addr,
    take_between, take_cidr, take_flag, take_list, take_number, take_span, take_text, text_len,
};
use std::alloc::Global;

/// The most values in the list of one input.
const MOST_AT_ONCE: u64 = 1 << 62;

fn put_read(
    jail: &Text,
    path: &Text,
    place: &Place,
    found: &Seq<Failure>,
    out: &mut Bytes,
) -> Result<(), NoMemory>
    ensures { OnOk result (out.new ≡ out.old ++ (1 ∷ (read_fields Two).spell (jail.now, (path.now, (place.now, found.now))))) }
{
    out.push(1)?;
    put_name(jail, out)?;
    put_text(path, out)?;
    put_place(place, out)?;
    put_list::<Failure, Found>(found.as_slice(), out)
}

fn put_ended(kind: u8, job: u64, outcome: Outcome, out: &mut Bytes) -> Result<(), NoMemory>
    ensures { OnOk result (out.new ≡ out.old ++ (kind ∷ ended_fields.spell (job, outcome))) }
{
    out.push(kind)?;
    put_number(job, out)?;
    put_outcome(outcome, out)
}

fn put_named(kind: u8, jail: &Text, out: &mut Bytes) -> Result<(), NoMemory>
    ensures { OnOk result (out.new ≡ out.old ++ (kind ∷ name.spell jail.now)) }
{
    out.push(kind)?;
    put_name(jail, out)
}

/// Adds what happened, in version 2.
#[tactic(auto, unfolding(crate::specs::Inputs::what))]
pub(crate) fn put_what(it: &What, out: &mut Bytes) -> Result<(), NoMemory>
    ensures { OnOk result (out.new ≡ out.old ++ (what Two).spell it.now) }
{
    match it {
        What::Tick => out.push(0),
        What::Read {
            jail,
            path,
            place,
            found,
        } => put_read(jail, path, place, found, out),
        What::Ended { job, outcome } => put_ended(2, *job, *outcome, out),
        What::Config { defs } => {
            out.push(3)?;
            put_defs(defs, out)
        }
        What::Stop => out.push(4),
        What::Ban { jail, addrs } => {
            put_named(5, jail, out)?;
            put_list::<Addr, Hosts>(addrs.as_slice(), out)
        }
        What::Unban { jail, addrs } => {
            out.push(6)?;
            put_jail(jail, out)?;
            put_hosts(addrs, out)
        }
        What::Attempt { jail, addr } => {
            put_named(7, jail, out)?;
            put_addr(*addr, out)
        }
        What::Ignore { jail, cidr, add } => {
            put_named(8, jail, out)?;
            put_cidr(*cidr, out)?;
            put_flag(*add, out)
        }
        What::Findtime { jail, secs } => {
            put_named(9, jail, out)?;
            put_number(*secs, out)
        }
        What::Bantime { jail, secs } => {
            put_named(10, jail, out)?;
            put_signed(*secs, out)
        }
        What::Maxretry { jail, number } => {
            put_named(11, jail, out)?;
            put_number(*number, out)
        }
        What::Idle { jail, idle } => {
            put_named(12, jail, out)?;
            put_flag(*idle, out)
        }
        What::CheckFailed { job, outcome } => put_ended(13, *job, *outcome, out),
    }
}

fn read_len(jail: &Text, path: &Text, place: &Place, found: &Seq<Failure>) -> u64
    ensures { result ≡ capped (1 ∷ (read_fields Two).spell (jail.now, (path.now, (place.now, found.now)))) }
{
    let place = joined_len(
        place_len(place),
        list_len::<Failure, Found>(found.as_slice()),
    );
    tagged_len(joined_len(name_len(jail), joined_len(text_len(path), place)))
}

fn ended_len(job: u64, outcome: Outcome) -> u64
    ensures { (kind : ℕ) → result ≡ capped (kind ∷ ended_fields.spell (job, outcome)) }
{
    tagged_len(joined_len(number_len(job), outcome_len(outcome)))
}

/// How long that is.
#[tactic(auto, unfolding(crate::specs::Inputs::what))]
pub(crate) fn what_len(it: &What) -> u64
    ensures { result ≡ capped ((what Two).spell it.now) }
{
    match it {
        What::Tick => byte_len(),
        What::Read {
            jail,
            path,
            place,
            found,
        } => read_len(jail, path, place, found),
        What::Ended { job, outcome } => ended_len(*job, *outcome),
        What::Config { defs } => tagged_len(defs_len(defs)),
        What::Stop => byte_len(),
        What::Ban { jail, addrs } => tagged_len(joined_len(
            name_len(jail),
            list_len::<Addr, Hosts>(addrs.as_slice()),
        )),
        What::Unban { jail, addrs } => tagged_len(joined_len(jail_len(jail), hosts_len(addrs))),
        What::Attempt { jail, addr } => tagged_len(joined_len(name_len(jail), addr_len(*addr))),
        What::Ignore { jail, cidr, .. } => tagged_len(joined_len(
            name_len(jail),
            joined_len(cidr_len(*cidr), byte_len()),
        )),
        What::Findtime { jail, secs } => tagged_len(joined_len(name_len(jail), number_len(*secs))),
        What::Bantime { jail, secs } => tagged_len(joined_len(name_len(jail), signed_len(*secs))),
        What::Maxretry { jail, number } => tagged_len(joined_len(
            name_len(jail),
            number_len(*number),
        )),
        What::Idle { jail, .. } => tagged_len(joined_len(name_len(jail), byte_len())),
        What::CheckFailed { job, outcome } => ended_len(*job, *outcome),
    }
}

#[tactic(auto, unfolding(crate::specs::Inputs::read_at))]
fn take_read(version: Version, alloc: Global, bytes: &[u8]) -> Result<(What, &[u8]), Fault>
    ensures { Gives (λ x. (x.0, x.1.now)) result (read_at version bytes.now) }
{
    let (jail, rest) = take_name(alloc, bytes)?;
    let (path, rest) = take_text(alloc, rest)?;
    let (place, rest) = take_place(alloc, rest)?;
    let (found, rest) = take_list(&Found { version }, alloc, Some(MOST_AT_ONCE), rest)?;
    Ok((
        What::Read {
            jail,
            path,
            place,
            found,
        },
        rest,
    ))
}

#[tactic(auto, unfolding(crate::specs::Inputs::ended_at))]
fn take_ended(bytes: &[u8]) -> Result<(What, &[u8]), Fault>
    ensures { Gives (λ x. (x.0, x.1.now)) result (ended_at bytes.now) }
{
    let (job, rest) = take_number(bytes)?;
    let (outcome, rest) = take_outcome(rest)?;
    Ok((What::Ended { job, outcome }, rest))
}

#[tactic(auto, unfolding(crate::specs::Inputs::check_failed_at))]
fn take_check_failed(bytes: &[u8]) -> Result<(What, &[u8]), Fault>
    ensures { Gives (λ x. (x.0, x.1.now)) result (check_failed_at bytes.now) }
{
    let (job, rest) = take_number(bytes)?;
    let (outcome, rest) = take_outcome(rest)?;
    Ok((What::CheckFailed { job, outcome }, rest))
}

#[tactic(auto, unfolding(crate::specs::Inputs::config_at))]
fn take_config(alloc: Global, bytes: &[u8]) -> Result<(What, &[u8]), Fault>
    ensures { Gives (λ x. (x.0, x.1.now)) result (config_at bytes.now) }
{
    let (defs, rest) = take_defs(alloc, bytes)?;
    Ok((What::Config { defs }, rest))
}

#[tactic(auto, unfolding(crate::specs::Inputs::ban_at))]
fn take_ban(alloc: Global, bytes: &[u8]) -> Result<(What, &[u8]), Fault>
    ensures { Gives (λ x. (x.0, x.1.now)) result (ban_at bytes.now) }
{
    let (jail, rest) = take_name(alloc, bytes)?;
    let (addrs, rest) = take_distinct(alloc, MOST_AT_ONCE, rest)?;
    Ok((What::Ban { jail, addrs }, rest))
}

#[tactic(auto, unfolding(crate::specs::Inputs::unban_at))]
fn take_unban(alloc: Global, bytes: &[u8]) -> Result<(What, &[u8]), Fault>
    ensures { Gives (λ x. (x.0, x.1.now)) result (unban_at bytes.now) }
{
    let (jail, rest) = take_jail(alloc, bytes)?;
    let (addrs, rest) = take_hosts(alloc, rest)?;
    Ok((What::Unban { jail, addrs }, rest))
}

#[tactic(auto, unfolding(crate::specs::Inputs::attempt_at))]
fn take_attempt(alloc: Global, bytes: &[u8]) -> Result<(What, &[u8]), Fault>
    ensures { Gives (λ x. (x.0, x.1.now)) result (attempt_at bytes.now) }
{
    let (jail, rest) = take_name(alloc, bytes)?;
    let (addr, rest) = take_addr(rest)?;
    Ok((What::Attempt { jail, addr }, rest))
}

#[tactic(auto, unfolding(crate::specs::Inputs::ignore_at))]
fn take_ignore(alloc: Global, bytes: &[u8]) -> Result<(What, &[u8]), Fault>
    ensures { Gives (λ x. (x.0, x.1.now)) result (ignore_at bytes.now) }
{
    let (jail, rest) = take_name(alloc, bytes)?;
    let (cidr, rest) = take_cidr(rest)?;
    let (add, rest) = take_flag(rest)?;
    Ok((What::Ignore { jail, cidr, add }, rest))
}

#[tactic(auto, unfolding(crate::specs::Inputs::findtime_at))]
fn take_findtime(alloc: Global, bytes: &[u8]) -> Result<(What, &[u8]), Fault>
    ensures { Gives (λ x. (x.0, x.1.now)) result (findtime_at bytes.now) }
{
    let (jail, rest) = take_name(alloc, bytes)?;
    let (secs, rest) = take_span(rest)?;
    Ok((What::Findtime { jail, secs }, rest))
}

#[tactic(auto, unfolding(crate::specs::Inputs::bantime_at))]
fn take_bantime(alloc: Global, bytes: &[u8]) -> Result<(What, &[u8]), Fault>
    ensures { Gives (λ x. (x.0, x.1.now)) result (bantime_at bytes.now) }
{
    let (jail, rest) = take_name(alloc, bytes)?;
    let (secs, rest) = take_base(rest)?;
    Ok((What::Bantime { jail, secs }, rest))
}

#[tactic(auto, unfolding(crate::specs::Inputs::maxretry_at))]
fn take_maxretry(alloc: Global, bytes: &[u8]) -> Result<(What, &[u8]), Fault>
    ensures { Gives (λ x. (x.0, x.1.now)) result (maxretry_at bytes.now) }
{
    let (jail, rest) = take_name(alloc, bytes)?;
    let (number, rest) = take_between(1, MOST_RETRIES, rest)?;
    Ok((What::Maxretry { jail, number }, rest))
}

#[tactic(auto, unfolding(crate::specs::Inputs::idle_at))]
fn take_idle(alloc: Global, bytes: &[u8]) -> Result<(What, &[u8]), Fault>
    ensures { Gives (λ x. (x.0, x.1.now)) result (idle_at bytes.now) }
{
    let (jail, rest) = take_name(alloc, bytes)?;
    let (idle, rest) = take_flag(rest)?;
    Ok((What::Idle { jail, idle }, rest))
}

/// What happened, at the front of the bytes.
#[tactic(auto, unfolding(crate::specs::Inputs::what))]
pub(crate) fn take_what(
    version: Version,
    alloc: Global,
    bytes: &[u8],
) -> Result<(What, &[u8]), Fault>
    ensures { Gives (λ x. (x.0, x.1.now)) result ((what version).read bytes.now) }
{
    match bytes {
        [] => Err(Fault::Left(0)),
        [first, rest @ ..] => {
            if *first == 0 {
                Ok((What::Tick, rest))
            } else if *first == 1 {
                take_read(version, alloc, rest)
            } else if *first == 2 {
                take_ended(rest)
            } else if *first == 3 {
                take_config(alloc, rest)
            } else if *first == 4 {
                Ok((What::Stop, rest))
            } else if *first == 5 {
                take_ban(alloc, rest)
            } else if *first == 6 {
                take_unban(alloc, rest)
            } else if *first == 7 {
                take_attempt(alloc, rest)
            } else if *first == 8 {
                take_ignore(alloc, rest)
            } else if *first == 9 {
                take_findtime(alloc, rest)
            } else if *first == 10 {
                take_bantime(alloc, rest)
            } else if *first == 11 {
                take_maxretry(alloc, rest)
            } else if *first == 12 {
                take_idle(alloc, rest)
            } else if *first == 13 {
                take_check_failed(rest)
            } else {
                Err(Fault::Left(bytes.len() as u64))
            }
        }
    }
}
