//! Whether addresses are distinct, told by numbers in order and not by a walk over all before each.
ghost use Rattle.std.specs.Prelude.{◌≡◌, map, IfOk};
ghost use Rattle.std.specs.Bool.{OnTrue};
ghost use Rattle.std.specs.List.{IsDistinct};
ghost use Rattle.std.specs.List.Sorted.{IsStrictlyIncreasing};
ghost use Rattle.std.specs.Ordering.{nat_cmp, eq_by_cmp};
ghost use Rattle.f2b_base.specs.Addresses.{same_addr};
ghost use Rattle.f2b_base.specs.declared.ban.Ban.{Ban as Banned};
ghost use Rattle.f2b_model.specs.Lists.{AreDistinct};
ghost use Rattle.record_codec.specs.Distinct.{addr_key};
ghost use Rattle.record_codec.specs.Views.{same_banned};

use f2b_base::{Addr, Ban};
use std::alloc::{AllocError, Global};

fn addr_key(addr: Addr) -> u128
    ensures { result ≡ addr_key addr }
{
    match addr {
        Addr::V4(n) => 0xffff * (1 << 32) + u128::from(n),
        Addr::V6(n) => n,
    }
}

fn keys_of(alloc: Global, hosts: &[Addr]) -> Result<Vec<u128>, AllocError>
    ensures { IfOk result (λ keys. keys.items ≡ map addr_key hosts.now) }
{
    let mut keys = Vec::new(alloc);
    for host in hosts {
        keys.push(addr_key(*host))?;
    }
    Ok(keys)
}

fn ban_keys_of(alloc: Global, bans: &[Ban]) -> Result<Vec<u128>, AllocError>
    ensures { IfOk result (λ keys. keys.items ≡ map (λ (b : Banned). addr_key b.addr) bans.now) }
{
    let mut keys = Vec::new(alloc);
    for ban in bans {
        keys.push(addr_key(ban.addr))?;
    }
    Ok(keys)
}

fn rise(keys: &[u128]) -> bool
    ensures { OnTrue result (IsStrictlyIncreasing keys.now) }
{
    for i in 1..keys.len() {
        if keys[i] <= keys[i - 1] {
            return false;
        }
    }
    true
}

fn differ(given: Vec<u128>) -> bool
    ensures { OnTrue result (IsDistinct (eq_by_cmp nat_cmp) given.items) }
{
    let mut keys = given;
    keys.sort_unstable();
    rise(keys.as_slice())
}

/// Whether addresses are distinct. May say no for want of memory.
pub(crate) fn are_distinct(alloc: Global, hosts: &[Addr]) -> bool
    ensures { OnTrue result (AreDistinct same_addr hosts.now) }
{
    match keys_of(alloc, hosts) {
        Ok(keys) => differ(keys),
        Err(_) => false,
    }
}

/// Whether bans are of distinct addresses. May say no for want of memory.
pub(crate) fn are_of_distinct(alloc: Global, bans: &[Ban]) -> bool
    ensures { OnTrue result (AreDistinct same_banned bans.now) }
{
    match ban_keys_of(alloc, bans) {
        Ok(keys) => differ(keys),
        Err(_) => false,
    }
}
