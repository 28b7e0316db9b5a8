//! Names, addresses and masks that words spell.
ghost use Rattle.std.specs.Prelude.{◌≡◌, ◌≤◌, ◌+◌, ◌^◌, length, IfOk};
ghost use Rattle.std.specs.List.{list_all};
ghost use Rattle.f2b_base.specs.Addresses.{IsAddr};
ghost use Rattle.f2b_base.specs.Masks.{IsCidr};
ghost use Rattle.f2b_model.specs.Lists.{AllOf};
ghost use Rattle.f2b_model.specs.Storable.{IsJailName};
ghost use Rattle.client_words.specs.Values.{Gives, address, addresses, jail_name, mask};
ghost use Rattle.jail_conf.specs.Jails.{is_jail_name, is_name_byte};

use crate::error::CommandError;
use f2b_base::{Addr, Cidr, Plain, Seq, Text};
use std::alloc::Global;

fn is_name_byte(byte: u8) -> bool
    ensures { result ≡ is_name_byte byte }
{
    byte.is_ascii_alphanumeric() || byte == b'_' || byte == b'.' || byte == b'-'
}

fn are_name_bytes(bytes: &[u8]) -> bool
    ensures { result ≡ list_all is_name_byte bytes.now }
{
    bytes.iter().all(|byte| is_name_byte(*byte))
}

/// Whether a jail can have this name.
fn is_jail_name(name: &[u8]) -> bool
    ensures { result ≡ is_jail_name name.now }
{
    1 <= name.len() && name.len() <= 64 && are_name_bytes(name)
}

/// A name that a jail can have.
#[tactic(auto, using(crate::proofs::BoundLemmas::name_is))]
pub(crate) fn jail_name(word: &Text) -> Result<Text, CommandError>
    ensures name { Gives (jail_name word.now) result }
    ensures bounds { IfOk result IsJailName }
{
    if !is_jail_name(word.as_str().as_bytes()) {
        return Err(CommandError::BadJailName);
    }
    Ok(word.copy()?)
}

/// The address that the word at a place spells.
pub(crate) fn address(place: u32, word: &Text) -> Result<Addr, CommandError>
    ensures addr { result ≡ address place word.now }
    ensures bounds { IfOk result IsAddr }
{
    match Addr::read(word.as_str().as_bytes()) {
        Some(addr) => Ok(addr),
        None => Err(CommandError::BadAddress(place)),
    }
}

/// The mask that the word at a place spells.
pub(crate) fn mask(place: u32, word: &Text) -> Result<Cidr, CommandError>
    ensures mask { result ≡ mask place word.now }
    ensures bounds { IfOk result IsCidr }
{
    match Cidr::read(word.as_str().as_bytes()) {
        Some(cidr) => Ok(cidr),
        None => Err(CommandError::BadAddress(place)),
    }
}

/// The addresses that words spell, of which the first stands at that place.
pub(crate) fn addresses(
    alloc: Global,
    place: u32,
    words: &[Text],
) -> Result<Seq<Addr>, CommandError>
    requires { place + length words.now ≤ 2 ^ 32 }
    ensures addrs { Gives (addresses place words.now) result }
    ensures bounds { IfOk result (AllOf IsAddr) }
    ensures few { IfOk result (λ addrs. length addrs ≤ length words.now) }
{
    let mut addrs = Seq::new(alloc);
    for (index, word) in words.iter().enumerate() {
        addrs.push(address(place + index as u32, word)?)?;
    }
    Ok(addrs)
}
