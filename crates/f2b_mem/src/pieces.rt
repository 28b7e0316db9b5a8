//! Pieces of bytes.
ghost use Rattle.std.specs.Prelude.{◌≡◌, ◌≤◌, length, take, drop, min, ◌-◌, IfOk};
ghost use Rattle.f2b_world.specs.Bounds.{AreBytes};

use f2b_base::{Bytes, NoMemory};
use std::alloc::Global;

/// At most so many bytes from an offset on.
pub fn piece_of(bytes: &[u8], from: u64, max: u32) -> &[u8]
    ensures value { result.now ≡ take max (drop from bytes.now) }
    ensures short { length result.now ≤ max }
    ensures size { length result.now ≡ min max (length bytes.now - from) }
    ensures within { length result.now ≤ length bytes.now - from }
{
    if from >= bytes.len() as u64 {
        return &[];
    }
    let rest = &bytes[from as usize..];
    &rest[..rest.len().min(max as usize)]
}

/// Each byte is below 256.
pub fn know_bytes(bytes: &[u8])
    ensures { AreBytes bytes.now }
{
    let _count = bytes.len();
}

/// The same bytes, in memory of their own.
pub fn owned(alloc: Global, bytes: &[u8]) -> Result<Bytes, NoMemory>
    ensures value { IfOk result (λ b. b ≡ bytes.now) }
    ensures bytes { IfOk result AreBytes }
{
    know_bytes(bytes);
    Bytes::from_slice(alloc, bytes)
}
