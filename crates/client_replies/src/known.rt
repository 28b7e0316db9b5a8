//! Addresses that are looked up.
ghost use Rattle.std.specs.Prelude.{◌≡◌, ◌||◌, false, Bool, List, Some, IfOk, OnOk};
ghost use Rattle.ban_table.specs.Places.{key_of};
ghost use Rattle.f2b_base.specs.Addresses.{same_addr};
ghost use Rattle.f2b_base.specs.declared.addr.Addr.{Addr};
ghost use Rattle.f2b_model.specs.Moves.{is_banned};
ghost use Rattle.client_replies.specs.Banned.{count_meant, is_among, new_addrs};
ghost use Rattle.client_replies.specs.Known.{IsKnown};

use f2b_base::{Addr, Ban, NoMemory, Seq};
use std::alloc::Global;
use std::collections::BTreeSet;

/// The IP version of an address, and its number.
fn key_of(addr: Addr) -> (u8, u128)
    ensures { result ≡ key_of addr }
{
    match addr {
        Addr::V4(number) => (4, u128::from(number)),
        Addr::V6(number) => (6, number),
    }
}

/// Addresses that are known.
#[derive(Drop)]
pub(crate) struct Known {
    keys: BTreeSet<(u8, u128)>,
}

impl Known {
    /// No addresses. Takes no memory.
    fn new(alloc: Global) -> Known
        ensures { IsKnown result (λ addr. false) }
    {
        Known {
            keys: BTreeSet::new(alloc),
        }
    }

    /// Whether an address is known. Takes no memory.
    pub(crate) fn has(&self, addr: Addr) -> bool
        ensures { (test : Addr → Bool) → IsKnown self.now test → result ≡ test addr }
    {
        self.keys.contains(&key_of(addr))
    }

    /// One address more.
    fn add(&mut self, addr: Addr) -> Result<(), NoMemory>
        ensures { OnOk result ((test : Addr → Bool) → IsKnown self.old test → IsKnown self.new (λ other. same_addr addr other || test other)) }
    {
        self.keys.insert(key_of(addr))?;
        Ok(())
    }

    /// These addresses.
    pub(crate) fn of(alloc: Global, addrs: &[Addr]) -> Result<Known, NoMemory>
        ensures { IfOk result (λ known. IsKnown known (is_among addrs.now)) }
    {
        let mut known = Known::new(alloc);
        for addr in addrs {
            known.add(*addr)?;
        }
        Ok(known)
    }

    /// How many of these bans are of known addresses. Takes no memory.
    pub(crate) fn count(&self, bans: &[Ban]) -> usize
        ensures { (addrs : List Addr) → IsKnown self.now (is_among addrs) → result ≡ count_meant (Some addrs) bans.now }
    {
        let mut count = 0;
        for ban in bans {
            if self.has(ban.addr) {
                count += 1;
            }
        }
        count
    }

    /// The addresses of these bans.
    fn of_bans(alloc: Global, bans: &[Ban]) -> Result<Known, NoMemory>
        ensures { IfOk result (λ known. IsKnown known (λ addr. is_banned addr bans.now)) }
    {
        let mut known = Known::new(alloc);
        for ban in bans {
            known.add(ban.addr)?;
        }
        Ok(known)
    }
}

/// The addresses that are not banned, each once, in the order in which they stand first.
#[tactic(auto, using(crate::proofs::KnownLemmas::so_far_none, crate::proofs::KnownLemmas::so_far_all))]
pub(crate) fn new_addrs(alloc: Global, bans: &[Ban], addrs: &[Addr]) -> Result<Seq<Addr>, NoMemory>
    ensures { IfOk result (λ new. new ≡ new_addrs bans.now addrs.now) }
{
    let mut known = Known::of_bans(alloc, bans)?;
    let mut new = Seq::new(alloc);
    for addr in addrs {
        if !known.has(*addr) {
            known.add(*addr)?;
            new.push(*addr)?;
        }
    }
    Ok(new)
}
