//! `IgnoreSet` and its methods.
ghost use Rattle.std.specs.Prelude.{◌≡◌, ◌↔◌, Any, IfOk, IsTrue, OnOk};
ghost use Rattle.f2b_base.specs.Masks.{holds};
ghost use Rattle.ignore_set.specs.Tables.{HoldMore};

use crate::prefix_table::{PrefixTable, first_bits};
use f2b_base::{Addr, Cidr, NoMemory, Seq};
use std::alloc::Global;
use std::fmt;
use std::marker::Model;

/// Masks over addresses, of which any may hold an address.
#[derive(Drop)]
pub struct IgnoreSet {
    /// As they were given.
    masks: Vec<Cidr>,
    /// The prefixes of those over IPv4, and of those over IPv6.
    v4: PrefixTable,
    v6: PrefixTable,
}

impl Model for IgnoreSet {
    ghost use Rattle.std.specs.Prelude.{List};
    ghost use Rattle.f2b_base.specs.declared.addr.Cidr.{Cidr};
    ghost use Rattle.ignore_set.specs.Tables.{AreSorted, HoldAlike};

    ghost Value = { List Cidr };

    ghost view = { λ set. set.masks.items };

    ghost invariant = { λ set. HoldAlike set.masks.items set.v4 set.v6 × AreSorted set.v4 × AreSorted set.v6 };
}

impl fmt::Debug for IgnoreSet {
    fn fmt<W: fmt::Write>(&self, f: &mut fmt::Formatter<W>) -> fmt::Result {
        f.debug_list().entries(self.masks.iter()).finish()
    }
}

/// Adds the prefix of a mask to the table of its family.
fn add_mask(
    alloc: Global,
    mask: Cidr,
    v4: &mut PrefixTable,
    v6: &mut PrefixTable,
) -> Result<(), NoMemory>
    ensures { OnOk result (HoldMore mask v4.old v6.old v4.new v6.new) }
{
    match mask.base {
        Addr::V4(base) => {
            let first = first_bits(32, mask.bits, u128::from(base));
            v4.add(alloc, mask.bits, first)
        }
        Addr::V6(base) => {
            let first = first_bits(128, mask.bits, base);
            v6.add(alloc, mask.bits, first)
        }
    }
}

impl IgnoreSet {
    /// The set of these masks.
    pub fn new(alloc: Global, list: &Seq<Cidr>) -> Result<IgnoreSet, NoMemory>
        ensures { IfOk result (λ set. set ≡ list.now) }
    {
        let mut v4 = PrefixTable::new(alloc);
        let mut v6 = PrefixTable::new(alloc);
        for mask in list.as_slice() {
            add_mask(alloc, *mask, &mut v4, &mut v6)?;
        }
        v4.sort();
        v6.sort();
        let masks = Vec::from_slice(alloc, list.as_slice())?;
        Ok(IgnoreSet { masks, v4, v6 })
    }

    /// Whether some mask of the set holds the address.
    pub fn holds(&self, addr: Addr) -> bool
        ensures { IsTrue result ↔ Any (λ mask. IsTrue (holds mask addr)) self.now }
    {
        match addr {
            Addr::V4(number) => self.v4.holds(32, u128::from(number)),
            Addr::V6(number) => self.v6.holds(128, number),
        }
    }
}
