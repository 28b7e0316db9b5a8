//! Lists of addresses and masks.

use crate::conf_error::ConfKind;
use crate::each::each;
use crate::fail::Fail;
use crate::reading::ReadsItem;
use crate::words::words;
use f2b_base::{Cidr, Seq};
use std::alloc::Global;

/// An address, or a mask.
#[derive(Drop)]
struct Address;

impl ReadsItem<Cidr> for Address {
    ghost use Rattle.jail_conf.specs.Addresses.{address};

    ghost reading = { λ _. address };

    fn read(&self, _alloc: Global, text: &str) -> Result<Cidr, Fail<ConfKind>> {
        match Cidr::read(text.as_bytes()) {
            Some(mask) => Ok(mask),
            None => Err(Fail::Refused(ConfKind::BadAddress)),
        }
    }
}

/// Addresses and masks, divided by blanks, lines and commas.
#[derive(Drop)]
pub(crate) struct Addresses;

impl ReadsItem<Seq<Cidr>> for Addresses {
    ghost use Rattle.jail_conf.specs.Addresses.{addresses};

    ghost reading = { λ _. addresses };

    fn read(&self, alloc: Global, text: &str) -> Result<Seq<Cidr>, Fail<ConfKind>> {
        let words = words(alloc, text, " \t\n,")?;
        each(alloc, &Address, words.as_slice())
    }
}
