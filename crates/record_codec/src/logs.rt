//! Logs that are followed, and how far.
ghost use Rattle.std.specs.Prelude.{◌≡◌, ◌++◌, bytes_eq, OnOk};
ghost use Rattle.std.specs.List.{list_any};
ghost use Rattle.f2b_base.specs.declared.jail.WatchDef.{WatchDef as Watch};
ghost use Rattle.record_fields.specs.Codec.{Gives, capped};
ghost use Rattle.record_fields.specs.Lists.{is_new};
ghost use Rattle.record_codec.specs.Definitions.{watch_def, same_path, place, head_at};

use f2b_base::{Bytes, HEAD_BYTES, NoMemory, Place, WatchDef};
use record_fields::{
    Fault, Items, Spell, byte_len, bytes_len, joined_len, number_len, put_bytes, put_flag,
    put_number, put_text, tagged_len, take_bytes, take_flag, take_number, take_text, text_len,
};
use std::alloc::Global;

/// Logs of distinct paths.
#[derive(Clone, Copy, Drop)]
pub(crate) struct Logs;

impl Spell<WatchDef> for Logs {
    ghost spelling = { watch_def.spell };

    #[tactic(auto, unfolding(crate::specs::Definitions::watch_def))]
    fn put(item: &WatchDef, out: &mut Bytes) -> Result<(), NoMemory> {
        put_text(&item.path, out)?;
        put_flag(item.tail, out)
    }

    #[tactic(auto, unfolding(crate::specs::Definitions::watch_def))]
    fn len(item: &WatchDef) -> u64 {
        joined_len(text_len(&item.path), byte_len())
    }
}

fn same_path(one: &WatchDef, other: &WatchDef) -> bool
    ensures { result ≡ same_path one.now other.now }
{
    one.path == other.path
}

fn has_path(before: &[WatchDef], item: &WatchDef) -> bool
    ensures { result ≡ list_any (λ (v : Watch). same_path v item.now) before.now }
{
    before.iter().any(|watch| same_path(watch, item))
}

impl Items<WatchDef> for Logs {
    ghost reading = { λ _. watch_def.read };

    ghost allowed = { λ _. is_new same_path };

    #[tactic(auto, unfolding(crate::specs::Definitions::watch_def))]
    fn take<'a>(&self, alloc: Global, bytes: &'a [u8]) -> Result<(WatchDef, &'a [u8]), Fault> {
        let (path, rest) = take_text(alloc, bytes)?;
        let (tail, rest) = take_flag(rest)?;
        Ok((WatchDef { path, tail }, rest))
    }

    fn allows(&self, before: &[WatchDef], item: &WatchDef) -> bool {
        !has_path(before, item)
    }
}

/// The first bytes of a log that was followed so far, as many as there are then.
fn take_head(alloc: Global, position: u64, bytes: &[u8]) -> Result<(Bytes, &[u8]), Fault>
    ensures { Gives (λ x. (x.0, x.1.now)) result ((head_at position).read bytes.now) }
{
    let (head, rest) = take_bytes(alloc, bytes)?;
    if head.len() as u64 == u64::from(HEAD_BYTES).min(position) {
        Ok((head, rest))
    } else {
        Err(Fault::Left(bytes.len() as u64))
    }
}

/// Adds how far a log was followed.
#[tactic(auto, unfolding(crate::specs::Definitions::place))]
pub(crate) fn put_place(at: &Place, out: &mut Bytes) -> Result<(), NoMemory>
    ensures { OnOk result (out.new ≡ out.old ++ place.spell at.now) }
{
    match at {
        Place::Tail => out.push(0),
        Place::Pos { position, head } => {
            out.push(1)?;
            put_number(*position, out)?;
            put_bytes(head.as_slice(), out)
        }
    }
}

/// How long that is.
#[tactic(auto, unfolding(crate::specs::Definitions::place))]
pub(crate) fn place_len(at: &Place) -> u64
    ensures { result ≡ capped (place.spell at.now) }
{
    match at {
        Place::Tail => byte_len(),
        Place::Pos { position, head } => tagged_len(joined_len(
            number_len(*position),
            bytes_len(head.as_slice()),
        )),
    }
}

/// How far a log was followed, at the front of the bytes.
#[tactic(auto, unfolding(crate::specs::Definitions::place))]
pub(crate) fn take_place(alloc: Global, bytes: &[u8]) -> Result<(Place, &[u8]), Fault>
    ensures { Gives (λ x. (x.0, x.1.now)) result (place.read bytes.now) }
{
    match bytes {
        [] => Err(Fault::Left(0)),
        [first, rest @ ..] => {
            if *first == 0 {
                Ok((Place::Tail, rest))
            } else if *first == 1 {
                let (position, after) = take_number(rest)?;
                let (head, after) = take_head(alloc, position, after)?;
                Ok((Place::Pos { position, head }, after))
            } else {
                Err(Fault::Left(bytes.len() as u64))
            }
        }
    }
}
