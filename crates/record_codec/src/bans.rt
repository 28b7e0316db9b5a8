//! Bans that are active, and bans that are over.
ghost use Rattle.std.specs.Prelude.{◌≡◌, ◌++◌, ◌&&◌, None as Nothing, OnOk};
ghost use Rattle.std.specs.List.{list_any};
ghost use Rattle.f2b_base.specs.declared.ban.Ban.{Ban as Banned};
ghost use Rattle.record_fields.specs.Codec.{Gives, capped};
ghost use Rattle.record_fields.specs.Lists.{is_behind, is_new, list_at};
ghost use Rattle.record_codec.specs.Views.{until, ban, past, rises, same_banned, is_next_active, ends_later};

use crate::distinct::are_of_distinct;
use crate::jobs::take_began;
use f2b_base::{Ban, Bytes, NoMemory, Past, Seq, Until};
use record_fields::{
    Fault, Items, Spell, addr_len, byte_len, joined_len, number_len, put_addr, put_number,
    tagged_len, take_addr, take_count, take_list, take_moment,
};
use std::alloc::Global;

#[tactic(auto, unfolding(crate::specs::Views::until))]
fn put_until(end: Until, out: &mut Bytes) -> Result<(), NoMemory>
    ensures { OnOk result (out.new ≡ out.old ++ until.spell end) }
{
    match end {
        Until::Never => out.push(0),
        Until::At(moment) => {
            out.push(1)?;
            put_number(moment, out)
        }
    }
}

#[tactic(auto, unfolding(crate::specs::Views::until))]
fn until_len(end: Until) -> u64
    ensures { result ≡ capped (until.spell end) }
{
    match end {
        Until::Never => byte_len(),
        Until::At(moment) => tagged_len(number_len(moment)),
    }
}

#[tactic(auto, unfolding(crate::specs::Views::until))]
fn take_until(bytes: &[u8]) -> Result<(Until, &[u8]), Fault>
    ensures { Gives (λ x. (x.0, x.1.now)) result (until.read bytes.now) }
{
    match bytes {
        [] => Err(Fault::Left(0)),
        [first, rest @ ..] => {
            if *first == 0 {
                Ok((Until::Never, rest))
            } else if *first == 1 {
                let (moment, after) = take_moment(rest)?;
                Ok((Until::At(moment), after))
            } else {
                Err(Fault::Left(bytes.len() as u64))
            }
        }
    }
}

/// The ban at the front of the bytes.
#[tactic(auto, unfolding(crate::specs::Views::ban))]
pub(crate) fn take_ban(bytes: &[u8]) -> Result<(Ban, &[u8]), Fault>
    ensures { Gives (λ x. (x.0, x.1.now)) result (ban.read bytes.now) }
{
    let (serial, rest) = take_began(bytes)?;
    let (addr, rest) = take_addr(rest)?;
    let (begin, rest) = take_moment(rest)?;
    let (until, rest) = take_until(rest)?;
    let (count, rest) = take_count(rest)?;
    let (failures, rest) = take_count(rest)?;
    Ok((
        Ban {
            serial,
            addr,
            begin,
            until,
            count,
            failures,
        },
        rest,
    ))
}

/// Active bans by serial, one for an address.
#[derive(Clone, Copy, Drop)]
pub(crate) struct ActiveBans;

impl Spell<Ban> for ActiveBans {
    ghost spelling = { ban.spell };

    #[tactic(auto, unfolding(crate::specs::Views::ban))]
    fn put(item: &Ban, out: &mut Bytes) -> Result<(), NoMemory> {
        put_number(item.serial, out)?;
        put_addr(item.addr, out)?;
        put_number(item.begin, out)?;
        put_until(item.until, out)?;
        put_number(u64::from(item.count), out)?;
        put_number(u64::from(item.failures), out)
    }

    #[tactic(auto, unfolding(crate::specs::Views::ban))]
    fn len(item: &Ban) -> u64 {
        let counts = joined_len(
            number_len(u64::from(item.count)),
            number_len(u64::from(item.failures)),
        );
        let times = joined_len(
            number_len(item.begin),
            joined_len(until_len(item.until), counts),
        );
        joined_len(
            number_len(item.serial),
            joined_len(addr_len(item.addr), times),
        )
    }
}

fn rises_behind(before: &[Ban], item: &Ban) -> bool
    ensures { result ≡ is_behind rises before.now item.now }
{
    match before.last() {
        None => true,
        Some(ban) => ban.serial < item.serial,
    }
}

fn is_banned(before: &[Ban], item: &Ban) -> bool
    ensures { result ≡ list_any (λ (b : Banned). same_banned b item.now) before.now }
{
    before.iter().any(|ban| item.addr.same(ban.addr))
}

impl Items<Ban> for ActiveBans {
    ghost reading = { λ _. ban.read };

    ghost allowed = { λ _. is_next_active };

    fn take<'a>(&self, _alloc: Global, bytes: &'a [u8]) -> Result<(Ban, &'a [u8]), Fault> {
        take_ban(bytes)
    }

    fn allows(&self, before: &[Ban], item: &Ban) -> bool {
        rises_behind(before, item) && !is_banned(before, item)
    }
}

/// Bans by serial, of any addresses.
#[derive(Clone, Copy, Drop)]
struct RisingBans;

impl Items<Ban> for RisingBans {
    ghost reading = { λ _. ban.read };

    ghost allowed = { λ _. is_behind rises };

    fn take<'a>(&self, _alloc: Global, bytes: &'a [u8]) -> Result<(Ban, &'a [u8]), Fault> {
        take_ban(bytes)
    }

    fn allows(&self, before: &[Ban], item: &Ban) -> bool {
        rises_behind(before, item)
    }
}

/// The active bans at the front of the bytes. They are read once without a look at whose they are: bans of distinct addresses
/// are the rule, and those before each are walked over only to find the place of one that is not.
pub(crate) fn take_active_bans(alloc: Global, bytes: &[u8]) -> Result<(Seq<Ban>, &[u8]), Fault>
    ensures { Gives (λ x. (x.0, x.1.now)) result (list_at Nothing is_next_active ban.read bytes.now) }
{
    if let Ok((bans, rest)) = take_list(&RisingBans, alloc, None, bytes) {
        if are_of_distinct(alloc, bans.as_slice()) {
            return Ok((bans, rest));
        }
    }
    take_list(&ActiveBans, alloc, None, bytes)
}

/// Bans that are over, by their ends.
#[derive(Clone, Copy, Drop)]
pub(crate) struct PastBans;

impl Spell<Past> for PastBans {
    ghost spelling = { past.spell };

    #[tactic(auto, unfolding(crate::specs::Views::past))]
    fn put(item: &Past, out: &mut Bytes) -> Result<(), NoMemory> {
        put_addr(item.addr, out)?;
        put_number(item.end, out)
    }

    #[tactic(auto, unfolding(crate::specs::Views::past))]
    fn len(item: &Past) -> u64 {
        joined_len(addr_len(item.addr), number_len(item.end))
    }
}

impl Items<Past> for PastBans {
    ghost reading = { λ _. past.read };

    ghost allowed = { λ _. is_behind ends_later };

    #[tactic(auto, unfolding(crate::specs::Views::past))]
    fn take<'a>(&self, _alloc: Global, bytes: &'a [u8]) -> Result<(Past, &'a [u8]), Fault> {
        let (addr, rest) = take_addr(bytes)?;
        let (end, rest) = take_moment(rest)?;
        Ok((Past { addr, end }, rest))
    }

    fn allows(&self, before: &[Past], item: &Past) -> bool {
        match before.last() {
            None => true,
            Some(past) => past.end <= item.end,
        }
    }
}
