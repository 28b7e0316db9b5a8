//! Addresses that need not be there, and lists of them.
ghost use Rattle.std.specs.Prelude.{◌≡◌, ◌++◌, None as Nothing, Some as Just, OnOk};
ghost use Rattle.std.specs.List.{list_any};
ghost use Rattle.f2b_base.specs.Addresses.{same_addr};
ghost use Rattle.record_fields.specs.Addresses.{addr};
ghost use Rattle.record_fields.specs.Codec.{Gives, capped, option_of};
ghost use Rattle.record_fields.specs.Lists.{any, is_new, list_at, listed};

use crate::distinct::are_distinct;
use f2b_base::{Addr, Bytes, NoMemory, Seq};
use record_fields::{
    Fault, Items, Spell, addr_len, byte_len, list_len, put_addr, put_list, tagged_len, take_addr,
    take_list,
};
use std::alloc::Global;

/// Adds an address that need not be there.
pub(crate) fn put_host(host: Option<Addr>, out: &mut Bytes) -> Result<(), NoMemory>
    ensures { OnOk result (out.new ≡ out.old ++ (option_of addr).spell host) }
{
    match host {
        None => out.push(0),
        Some(one) => {
            out.push(1)?;
            put_addr(one, out)
        }
    }
}

/// How long that is.
pub(crate) fn host_len(host: Option<Addr>) -> u64
    ensures { result ≡ capped ((option_of addr).spell host) }
{
    match host {
        None => byte_len(),
        Some(one) => tagged_len(addr_len(one)),
    }
}

/// The address at the front of the bytes, which need not be there.
pub(crate) fn take_host(bytes: &[u8]) -> Result<(Option<Addr>, &[u8]), Fault>
    ensures { Gives (λ x. (x.0, x.1.now)) result ((option_of addr).read bytes.now) }
{
    match bytes {
        [] => Err(Fault::Left(0)),
        [first, rest @ ..] => {
            if *first == 0 {
                Ok((None, rest))
            } else if *first == 1 {
                let (one, after) = take_addr(rest)?;
                Ok((Some(one), after))
            } else {
                Err(Fault::Left(bytes.len() as u64))
            }
        }
    }
}

/// Addresses, in any order.
#[derive(Clone, Copy, Drop)]
pub(crate) struct Hosts;

impl Spell<Addr> for Hosts {
    ghost spelling = { addr.spell };

    fn put(item: &Addr, out: &mut Bytes) -> Result<(), NoMemory> {
        put_addr(*item, out)
    }

    fn len(item: &Addr) -> u64 {
        addr_len(*item)
    }
}

impl Items<Addr> for Hosts {
    ghost reading = { λ _. addr.read };

    ghost allowed = { λ _. any };

    fn take<'a>(&self, _alloc: Global, bytes: &'a [u8]) -> Result<(Addr, &'a [u8]), Fault> {
        take_addr(bytes)
    }

    fn allows(&self, _before: &[Addr], _item: &Addr) -> bool {
        true
    }
}

/// Addresses, each of which stands once.
#[derive(Clone, Copy, Drop)]
struct DistinctHosts;

fn has_host(before: &[Addr], item: Addr) -> bool
    ensures { result ≡ list_any (λ one. same_addr one item) before.now }
{
    before.iter().any(|one| one.same(item))
}

impl Items<Addr> for DistinctHosts {
    ghost reading = { λ _. addr.read };

    ghost allowed = { λ _. is_new same_addr };

    fn take<'a>(&self, _alloc: Global, bytes: &'a [u8]) -> Result<(Addr, &'a [u8]), Fault> {
        take_addr(bytes)
    }

    fn allows(&self, before: &[Addr], item: &Addr) -> bool {
        !has_host(before, *item)
    }
}

/// The distinct addresses at the front of the bytes. They are read once without a look whether they are, and those before each are walked
/// over only to find the place of one that is not new.
pub(crate) fn take_distinct(
    alloc: Global,
    most: u64,
    bytes: &[u8],
) -> Result<(Seq<Addr>, &[u8]), Fault>
    ensures { Gives (λ x. (x.0, x.1.now)) result (list_at (Just most) (is_new same_addr) addr.read bytes.now) }
{
    if let Ok((hosts, rest)) = take_list(&Hosts, alloc, Some(most), bytes) {
        if are_distinct(alloc, hosts.as_slice()) {
            return Ok((hosts, rest));
        }
    }
    take_list(&DistinctHosts, alloc, Some(most), bytes)
}

/// Adds addresses that need not be there.
pub(crate) fn put_hosts(hosts: &Option<Seq<Addr>>, out: &mut Bytes) -> Result<(), NoMemory>
    ensures { OnOk result (out.new ≡ out.old ++ (option_of (listed Nothing any addr)).spell hosts.now) }
{
    match hosts {
        None => out.push(0),
        Some(all) => {
            out.push(1)?;
            put_list::<Addr, Hosts>(all.as_slice(), out)
        }
    }
}

/// How long that is.
pub(crate) fn hosts_len(hosts: &Option<Seq<Addr>>) -> u64
    ensures { result ≡ capped ((option_of (listed Nothing any addr)).spell hosts.now) }
{
    match hosts {
        None => byte_len(),
        Some(all) => tagged_len(list_len::<Addr, Hosts>(all.as_slice())),
    }
}

/// The addresses at the front of the bytes, which need not be there.
pub(crate) fn take_hosts(alloc: Global, bytes: &[u8]) -> Result<(Option<Seq<Addr>>, &[u8]), Fault>
    ensures { Gives (λ x. (x.0, x.1.now)) result ((option_of (listed Nothing any addr)).read bytes.now) }
{
    match bytes {
        [] => Err(Fault::Left(0)),
        [first, rest @ ..] => {
            if *first == 0 {
                Ok((None, rest))
            } else if *first == 1 {
                let (all, after) = take_list(&Hosts, alloc, None, rest)?;
                Ok((Some(all), after))
            } else {
                Err(Fault::Left(bytes.len() as u64))
            }
        }
    }
}
