//! Who is banned, in one jail and in all.
ghost use Rattle.std.specs.Prelude.{◌≡◌, List, Option, IfOk};
ghost use Rattle.std.specs.List.{sum_by};
ghost use Rattle.f2b_base.specs.declared.addr.Addr.{Addr};
ghost use Rattle.f2b_base.specs.declared.view.JailView.{JailView};
ghost use Rattle.client_replies.specs.Banned.{count_meant, ended};
ghost use Rattle.client_replies.specs.Meant.{IsWhom, bans_at, bans_named};

use crate::known::Known;
use f2b_base::{Addr, Ban, JailView, NoMemory, Plain, Seq, Text};
use jail_core::Core;
use std::alloc::Global;

/// A copy of the bans of the first of these jails with a name.
pub(crate) fn bans_named(jails: &[JailView], name: &Text) -> Result<Option<Seq<Ban>>, NoMemory>
    ensures { IfOk result (λ bans. bans ≡ bans_named name.now jails.now) }
{
    for jail in jails {
        if jail.name == *name {
            return Ok(Some(jail.bans.copy()?));
        }
    }
    Ok(None)
}

/// A copy of the bans of the jail of a name, by their serials, if there is such a jail.
#[tactic(auto, using(crate::proofs::BannedLemmas::named_shown))]
pub(crate) fn bans_in(core: &Core, name: &Text) -> Result<Option<Seq<Ban>>, NoMemory>
    ensures { IfOk result (λ bans. bans ≡ bans_at core.now name.now) }
{
    let view = core.view()?;
    bans_named(view.jails.as_slice(), name)
}

/// The addresses that a request means, to be looked up: these, or all.
pub(crate) fn whom(alloc: Global, addrs: &Option<Seq<Addr>>) -> Result<Option<Known>, NoMemory>
    ensures { IfOk result (λ whom. IsWhom whom addrs.now) }
{
    match addrs {
        Some(addrs) => Ok(Some(Known::of(alloc, addrs.as_slice())?)),
        None => Ok(None),
    }
}

/// How many of these bans a request means.
#[tactic(auto, using(crate::proofs::BannedLemmas::all_meant))]
pub(crate) fn count_meant(whom: &Option<Known>, bans: &[Ban]) -> usize
    ensures { (addrs : Option (List Addr)) → IsWhom whom.now addrs → result ≡ count_meant addrs bans.now }
{
    match whom {
        Some(known) => known.count(bans),
        None => bans.len(),
    }
}

/// How many bans of these jails a request means.
fn count_all(whom: &Option<Known>, jails: &[JailView]) -> u128
    ensures { (addrs : Option (List Addr)) → IsWhom whom.now addrs → result ≡ sum_by (λ (j : JailView). count_meant addrs j.bans) jails.now }
{
    // No list of jails is so long, nor has any of them so many bans, that the number would be too large.
    let mut total: u128 = 0;
    for jail in jails {
        total += count_meant(whom, jail.bans.as_slice()) as u128;
    }
    total
}

/// How many bans of all jails a request means: those of these addresses, or all.
#[tactic(auto, using(crate::proofs::BannedLemmas::ended_shown))]
pub(crate) fn ended(alloc: Global, core: &Core, addrs: &Option<Seq<Addr>>) -> Result<u128, NoMemory>
    ensures { IfOk result (λ count. count ≡ ended addrs.now core.now) }
{
    let whom = whom(alloc, addrs)?;
    let view = core.view()?;
    Ok(count_all(&whom, view.jails.as_slice()))
}
