//! What comes of bytes that are read.

use f2b_base::{Bytes, Input, NoMemory, View};
use record_codec::{ReadError, input_len, view_len, write_input, write_view};
use std::alloc::Global;
use std::fmt::Debug;
use std::process::Abort;

/// Fails at this place unless what was seen is what is wanted.
pub(crate) fn same<A: Debug + Drop, T: PartialEq + Debug + Drop>(
    rt: &impl Abort,
    at: A,
    saw: T,
    want: T,
) {
    assert!(rt; saw == want, "at {at:?}: {saw:?}, not {want:?}");
}

/// What has a spelling.
pub(crate) trait Spelt: Drop {
    fn spell(&self, alloc: Global, out: &mut Bytes) -> Result<(), NoMemory>;

    /// How many bytes its spelling has.
    fn count(&self) -> u64;
}

impl Spelt for Input {
    fn spell(&self, alloc: Global, out: &mut Bytes) -> Result<(), NoMemory> {
        write_input(alloc, self, out)
    }

    fn count(&self) -> u64 {
        input_len(self)
    }
}

impl Spelt for View {
    fn spell(&self, alloc: Global, out: &mut Bytes) -> Result<(), NoMemory> {
        write_view(alloc, self, out)
    }

    fn count(&self) -> u64 {
        view_len(self)
    }
}

/// Whether these bytes are what the item is spelt as.
fn is_spelt_as<T: Spelt>(alloc: Global, item: &T, bytes: &[u8]) -> Result<bool, NoMemory> {
    let mut out = Bytes::new(alloc);
    item.spell(alloc, &mut out)?;
    Ok(out.as_slice() == bytes && item.count() == bytes.len() as u64)
}

/// How many bytes were read of these, and whether they are what the item is spelt as that was read.
pub(crate) fn spelling<T: Spelt>(
    alloc: Global,
    bytes: &[u8],
    read: Result<(T, u64), ReadError>,
) -> Result<(u64, bool), ReadError> {
    let (item, len) = read?;
    let front = match usize::try_from(len) {
        Ok(len) => bytes.get(..len).unwrap_or(&[]),
        Err(_) => &[],
    };
    match is_spelt_as(alloc, &item, front) {
        Ok(is) => Ok((len, is)),
        Err(NoMemory) => Err(ReadError::NoMemory),
    }
}

/// Nothing is read of these bytes, or an item that is spelt just so; there is memory.
pub(crate) fn has_one_spelling<T: Spelt>(
    alloc: Global,
    bytes: &[u8],
    read: Result<(T, u64), ReadError>,
) -> bool {
    match spelling(alloc, bytes, read) {
        Ok((_, is)) => is,
        Err(error) => error != ReadError::NoMemory,
    }
}

/// Why nothing was read.
pub(crate) fn fault<T: Drop>(read: Result<(T, u64), ReadError>) -> Option<ReadError> {
    read.err()
}

/// How many bytes were read, and how many the item is spelt as that was read.
pub(crate) fn counts<T: Spelt>(read: Result<(T, u64), ReadError>) -> Result<(u64, u64), ReadError> {
    let (item, len) = read?;
    Ok((len, item.count()))
}
