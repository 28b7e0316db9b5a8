//! Names of jails, and patterns.
ghost use Rattle.std.specs.Prelude.{◌≡◌, ◌++◌, OnOk};
ghost use Rattle.std.specs.List.{list_all};
ghost use Rattle.f2b_model.specs.Storable.{is_name_byte};
ghost use Rattle.record_fields.specs.Codec.{Gives, capped, option_of};
ghost use Rattle.record_fields.specs.Lists.{any};
ghost use Rattle.record_codec.specs.Definitions.{is_name, name, pattern};

use f2b_base::{Bytes, NoMemory, Text};
use record_fields::{
    Fault, Items, Spell, byte_len, put_text, tagged_len, take_short, take_text, text_len,
};
use std::alloc::Global;

/// The most bytes of a pattern.
const PATTERN_BYTES: u64 = 8192;

fn is_name_byte(b: u8) -> bool
    ensures { result ≡ is_name_byte b }
{
    (65 <= b && b <= 90)
        || ((97 <= b && b <= 122) || ((48 <= b && b <= 57) || (b == 95 || (b == 46 || b == 45))))
}

fn are_name_bytes(bytes: &[u8]) -> bool
    ensures { result ≡ list_all is_name_byte bytes.now }
{
    bytes.iter().all(|b| is_name_byte(*b))
}

fn is_name(bytes: &[u8]) -> bool
    ensures { result ≡ is_name bytes.now }
{
    1 <= bytes.len() && bytes.len() <= 64 && are_name_bytes(bytes)
}

/// Adds the name of a jail.
#[tactic(auto, unfolding(crate::specs::Definitions::name))]
pub(crate) fn put_name(jail: &Text, out: &mut Bytes) -> Result<(), NoMemory>
    ensures { OnOk result (out.new ≡ out.old ++ name.spell jail.now) }
{
    put_text(jail, out)
}

/// How long the name of a jail is.
#[tactic(auto, unfolding(crate::specs::Definitions::name))]
pub(crate) fn name_len(jail: &Text) -> u64
    ensures { result ≡ capped (name.spell jail.now) }
{
    text_len(jail)
}

/// The name of a jail at the front of the bytes.
#[tactic(auto, unfolding(crate::specs::Definitions::name))]
pub(crate) fn take_name(alloc: Global, bytes: &[u8]) -> Result<(Text, &[u8]), Fault>
    ensures { Gives (λ x. (x.0, x.1.now)) result (name.read bytes.now) }
{
    let (text, rest) = take_text(alloc, bytes)?;
    if is_name(text.as_str().as_bytes()) {
        Ok((text, rest))
    } else {
        Err(Fault::Left(bytes.len() as u64))
    }
}

/// The pattern at the front of the bytes.
pub(crate) fn take_pattern(alloc: Global, bytes: &[u8]) -> Result<(Text, &[u8]), Fault>
    ensures { Gives (λ x. (x.0, x.1.now)) result (pattern.read bytes.now) }
{
    take_short(alloc, PATTERN_BYTES, bytes)
}

/// Patterns, in any order.
#[derive(Clone, Copy, Drop)]
pub(crate) struct Patterns;

impl Spell<Text> for Patterns {
    ghost spelling = { pattern.spell };

    fn put(item: &Text, out: &mut Bytes) -> Result<(), NoMemory> {
        put_text(item, out)
    }

    fn len(item: &Text) -> u64 {
        text_len(item)
    }
}

impl Items<Text> for Patterns {
    ghost reading = { λ _. pattern.read };

    ghost allowed = { λ _. any };

    fn take<'a>(&self, alloc: Global, bytes: &'a [u8]) -> Result<(Text, &'a [u8]), Fault> {
        take_pattern(alloc, bytes)
    }

    fn allows(&self, _before: &[Text], _item: &Text) -> bool {
        true
    }
}

/// Adds a pattern that need not be there.
pub(crate) fn put_pref(pref: &Option<Text>, out: &mut Bytes) -> Result<(), NoMemory>
    ensures { OnOk result (out.new ≡ out.old ++ (option_of pattern).spell pref.now) }
{
    match pref {
        None => out.push(0),
        Some(text) => {
            out.push(1)?;
            put_text(text, out)
        }
    }
}

/// How long a pattern is that need not be there.
pub(crate) fn pref_len(pref: &Option<Text>) -> u64
    ensures { result ≡ capped ((option_of pattern).spell pref.now) }
{
    match pref {
        None => byte_len(),
        Some(text) => tagged_len(text_len(text)),
    }
}

/// The pattern at the front of the bytes, which need not be there.
pub(crate) fn take_pref(alloc: Global, bytes: &[u8]) -> Result<(Option<Text>, &[u8]), Fault>
    ensures { Gives (λ x. (x.0, x.1.now)) result ((option_of pattern).read bytes.now) }
{
    match bytes {
        [] => Err(Fault::Left(0)),
        [first, rest @ ..] => {
            if *first == 0 {
                Ok((None, rest))
            } else if *first == 1 {
                let (text, after) = take_pattern(alloc, rest)?;
                Ok((Some(text), after))
            } else {
                Err(Fault::Left(bytes.len() as u64))
            }
        }
    }
}

/// Adds the name of a jail that need not be there.
pub(crate) fn put_jail(jail: &Option<Text>, out: &mut Bytes) -> Result<(), NoMemory>
    ensures { OnOk result (out.new ≡ out.old ++ (option_of name).spell jail.now) }
{
    match jail {
        None => out.push(0),
        Some(one) => {
            out.push(1)?;
            put_name(one, out)
        }
    }
}

/// How long that is.
pub(crate) fn jail_len(jail: &Option<Text>) -> u64
    ensures { result ≡ capped ((option_of name).spell jail.now) }
{
    match jail {
        None => byte_len(),
        Some(one) => tagged_len(name_len(one)),
    }
}

/// The name of a jail at the front of the bytes, which need not be there.
pub(crate) fn take_jail(alloc: Global, bytes: &[u8]) -> Result<(Option<Text>, &[u8]), Fault>
    ensures { Gives (λ x. (x.0, x.1.now)) result ((option_of name).read bytes.now) }
{
    match bytes {
        [] => Err(Fault::Left(0)),
        [first, rest @ ..] => {
            if *first == 0 {
                Ok((None, rest))
            } else if *first == 1 {
                let (one, after) = take_name(alloc, rest)?;
                Ok((Some(one), after))
            } else {
                Err(Fault::Left(bytes.len() as u64))
            }
        }
    }
}
