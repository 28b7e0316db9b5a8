//! Masks, and which addresses a set of them holds.

use crate::rows::same;
use f2b_base::{Addr, Cidr, NoMemory, Seq};
use ignore_set::IgnoreSet;
use std::alloc::Global;
use std::process::Abort;
use std::test::Fail;

fn address(text: &str) -> Result<Addr, Fail> {
    match Addr::read(text.as_bytes()) {
        Some(addr) => Ok(addr),
        None => Err(Fail::from("no address")),
    }
}

fn mask(text: &str) -> Result<Cidr, Fail> {
    match Cidr::read(text.as_bytes()) {
        Some(mask) => Ok(mask),
        None => Err(Fail::from("no mask")),
    }
}

/// A set of masks.
fn set_of(alloc: Global, texts: &[&str]) -> Result<IgnoreSet, Fail> {
    let mut list = Seq::new(alloc);
    for text in texts {
        list.push(mask(text)?)?;
    }
    Ok(IgnoreSet::new(alloc, &list)?)
}

/// Rows of an address and whether the set holds it.
fn are_held(rt: &impl Abort, set: &IgnoreSet, rows: &[(&str, bool)]) -> Result<(), Fail> {
    for &(text, want) in rows {
        same(rt, text, set.holds(address(text)?), want);
    }
    Ok(())
}

const ADDRESSES: [(&str, bool); 7] = [
    ("10.0.0.0", true),
    ("10.255.255.255", true),
    ("::ffff:10.0.0.1", true),
    ("::1", true),
    ("9.255.255.255", false),
    ("11.0.0.0", false),
    ("::2", false),
];

#[test]
fn holds_what_a_mask_holds(rt: HostRuntime) -> Result<(), Fail> {
    let set = set_of(rt.alloc(), &["10.0.0.0/8", "::1"])?;
    are_held(&rt, &set, &ADDRESSES)
}

const MANY: u32 = 1_000_000;

/// A set of masks over single addresses: the even ones below twice a million.
fn even_addresses(alloc: Global) -> Result<IgnoreSet, NoMemory> {
    let mut list = Seq::new(alloc);
    for half in 0..MANY {
        let base = Addr::V4(half * 2);
        list.push(Cidr { base, bits: 32 })?;
    }
    IgnoreSet::new(alloc, &list)
}

/// Whether a set holds the even addresses below twice a million, and none of the odd ones.
fn holds_the_even(set: &IgnoreSet) -> bool {
    for number in 0..MANY * 2 {
        if set.holds(Addr::V4(number)) != (number % 2 == 0) {
            return false;
        }
    }
    true
}

#[test]
fn asks_a_million_masks_at_once(rt: HostRuntime) -> Result<(), Fail> {
    let set = even_addresses(rt.alloc())?;
    same(&rt, "a million", holds_the_even(&set), true);
    Ok(())
}
