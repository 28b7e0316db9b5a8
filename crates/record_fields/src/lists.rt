//! Lists of items behind their number.
ghost use Rattle.std.specs.Prelude.{◌≡◌, ℕ, List, Bool, ◌++◌, [], OnOk, nat_le};
ghost use Rattle.record_fields.specs.Codec.{Gives, Reads, capped};
ghost use Rattle.record_fields.specs.Lists.{list_of, is_few, list_at, items_at, each_at, each_list_at};

use crate::fault::Fault;
use crate::numbers::{number_len, put_number, take_number};
use f2b_base::{Bytes, NoMemory, Seq};
use std::alloc::Global;

/// How the items of a list are spelt.
pub trait Spell<T>: Drop {
    /// The bytes of an item.
    ghost spelling: { T → List ℕ };

    /// Adds an item.
    fn put(item: &T, out: &mut Bytes) -> Result<(), NoMemory>
        ensures { OnOk result (out.new ≡ out.old ++ spelling item.now) };

    /// How long an item is, or 2^64 - 1 where it is longer.
    fn len(item: &T) -> u64
        ensures { result ≡ capped (spelling item.now) };
}

/// How the items of a list are read, and which of them may stand in it.
pub trait Items<T>: Drop {
    /// The item at the front of the bytes and what follows.
    ghost reading: { Self → Reads T };

    /// Whether an item may stand behind those.
    ghost allowed: { Self → List T → T → Bool };

    /// The item at the front of the bytes and what follows.
    fn take<'a>(&self, alloc: Global, bytes: &'a [u8]) -> Result<(T, &'a [u8]), Fault>
        ensures { Gives (λ x. (x.0, x.1.now)) result (reading self.now bytes.now) };

    /// Whether an item may stand behind those before it.
    fn allows(&self, before: &[T], item: &T) -> bool
        ensures { result ≡ allowed self.now before.now item.now };
}

/// How the items of a list are read, each by its own definition.
pub trait ItemsBy<D, T>: Drop {
    /// The item of a definition at the front of the bytes, and what follows.
    ghost reading: { Self → D → Reads T };

    /// The item of a definition at the front of the bytes, and what follows.
    fn take_by<'a>(&self, alloc: Global, by: &D, bytes: &'a [u8]) -> Result<(T, &'a [u8]), Fault>
        ensures { Gives (λ x. (x.0, x.1.now)) result (reading self.now by.now bytes.now) };
}

/// Adds the items behind their number.
#[tactic(auto, unfolding(crate::specs::Lists::list_of))]
pub fn put_list<T, S: Spell<T>>(items: &[T], out: &mut Bytes) -> Result<(), NoMemory>
    ensures { OnOk result (out.new ≡ out.old ++ list_of S.spelling items.now) }
{
    put_number(items.len() as u64, out)?;
    for item in items {
        S::put(item, out)?;
    }
    Ok(())
}

/// How long the items are behind their number, or 2^64 - 1 where they are longer.
#[tactic(auto, unfolding(crate::specs::Lists::list_of))]
pub fn list_len<T, S: Spell<T>>(items: &[T]) -> u64
    ensures { result ≡ capped (list_of S.spelling items.now) }
{
    let mut total = number_len(items.len() as u64);
    for item in items {
        total = total.saturating_add(S::len(item));
    }
    total
}

/// Whether there are no more than there may be.
fn is_few(most: Option<u64>, count: u64) -> bool
    ensures { result ≡ is_few most count }
{
    match most {
        None => true,
        Some(most) => count <= most,
    }
}

fn take_items<'a, T: Drop, I: Items<T>>(
    by: &I,
    alloc: Global,
    count: u64,
    bytes: &'a [u8],
) -> Result<(Seq<T>, &'a [u8]), Fault>
    ensures { Gives (λ x. (x.0, x.1.now)) result (items_at (I.allowed by.now) (I.reading by.now) [] count bytes.now) }
{
    let mut items = Seq::new(alloc);
    let mut rest = bytes;
    for _ in 0..count {
        let (item, after) = by.take(alloc, rest)?;
        if !by.allows(items.as_slice(), &item) {
            return Err(Fault::Left(rest.len() as u64));
        }
        items.push(item)?;
        rest = after;
    }
    Ok((items, rest))
}

/// The items at the front of the bytes, behind their number. Where there are more than there may be, the number is at fault; an
/// item that may not stand behind those before it is at fault as a whole.
#[tactic(auto, unfolding(crate::specs::Lists::list_at))]
pub fn take_list<'a, T: Drop, I: Items<T>>(
    by: &I,
    alloc: Global,
    most: Option<u64>,
    bytes: &'a [u8],
) -> Result<(Seq<T>, &'a [u8]), Fault>
    ensures { Gives (λ x. (x.0, x.1.now)) result (list_at most (I.allowed by.now) (I.reading by.now) bytes.now) }
{
    let (count, rest) = take_number(bytes)?;
    if !is_few(most, count) {
        return Err(Fault::Left(bytes.len() as u64));
    }
    take_items(by, alloc, count, rest)
}

fn take_each_item<'a, D, T: Drop, I: ItemsBy<D, T>>(
    by: &I,
    alloc: Global,
    definitions: &[D],
    bytes: &'a [u8],
) -> Result<(Seq<T>, &'a [u8]), Fault>
    ensures { Gives (λ x. (x.0, x.1.now)) result (each_at (I.reading by.now) definitions.now bytes.now) }
{
    let mut items = Seq::new(alloc);
    let mut rest = bytes;
    for definition in definitions {
        let (item, after) = by.take_by(alloc, definition, rest)?;
        items.push(item)?;
        rest = after;
    }
    Ok((items, rest))
}

/// The items at the front of the bytes, behind their number: one for each definition, or the number is at fault.
#[tactic(auto, unfolding(crate::specs::Lists::each_list_at))]
pub fn take_each<'a, D, T: Drop, I: ItemsBy<D, T>>(
    by: &I,
    alloc: Global,
    definitions: &[D],
    bytes: &'a [u8],
) -> Result<(Seq<T>, &'a [u8]), Fault>
    ensures { Gives (λ x. (x.0, x.1.now)) result (each_list_at (I.reading by.now) definitions.now bytes.now) }
{
    let (count, rest) = take_number(bytes)?;
    if count != definitions.len() as u64 {
        return Err(Fault::Left(bytes.len() as u64));
    }
    take_each_item(by, alloc, definitions, rest)
}
