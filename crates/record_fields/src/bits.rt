//! Masks over addresses: a base, and a byte that says how many of its bits are the prefix.
ghost use Rattle.std.specs.Prelude.{◌≡◌, ◌≤◌, ◌==◌, ◌++◌, OnOk};
ghost use Rattle.f2b_base.specs.Masks.{cleared};
ghost use Rattle.record_fields.specs.Codec.{Gives, capped};
ghost use Rattle.record_fields.specs.Addresses.{is_mask, bits, cidr};

use crate::addresses::{addr_len, put_addr, take_addr};
use crate::fault::Fault;
use crate::lengths::{byte_len, joined_len};
use f2b_base::{Addr, Bytes, Cidr, NoMemory};

/// Whether the bits of a number after the first are 0.
fn is_cleared_v4(n: u32, bits: u8) -> bool
    requires { bits ≤ 32 }
    ensures { result ≡ (cleared 32 bits n == n) }
{
    let past = 1u64 << (32 - bits);
    u64::from(n) / past * past == u64::from(n)
}

/// Whether the bits of a number after the first are 0.
fn is_cleared_v6(n: u128, bits: u8) -> bool
    requires { bits ≤ 128 }
    ensures { result ≡ (cleared 128 bits n == n) }
{
    if bits == 0 {
        return n == 0;
    }
    let past = 1u128 << (128 - bits);
    n / past * past == n
}

/// Whether a mask over the address can have so many bits.
fn is_mask(base: Addr, bits: u8) -> bool
    ensures { result ≡ is_mask base bits }
{
    match base {
        Addr::V4(n) => bits <= 32 && is_cleared_v4(n, bits),
        Addr::V6(n) => bits <= 128 && is_cleared_v6(n, bits),
    }
}

fn take_bits(base: Addr, bytes: &[u8]) -> Result<(u8, &[u8]), Fault>
    ensures { Gives (λ x. (x.0, x.1.now)) result ((bits base).read bytes.now) }
{
    match bytes {
        [] => Err(Fault::Left(0)),
        [first, rest @ ..] => {
            if is_mask(base, *first) {
                Ok((*first, rest))
            } else {
                Err(Fault::Left(bytes.len() as u64))
            }
        }
    }
}

/// Adds a mask.
#[tactic(auto, unfolding(crate::specs::Addresses::cidr))]
pub fn put_cidr(mask: Cidr, out: &mut Bytes) -> Result<(), NoMemory>
    ensures { OnOk result (out.new ≡ out.old ++ cidr.spell mask) }
{
    put_addr(mask.base, out)?;
    out.push(mask.bits)
}

/// How many bytes a mask has.
#[tactic(auto, unfolding(crate::specs::Addresses::cidr))]
pub fn cidr_len(mask: Cidr) -> u64
    ensures { result ≡ capped (cidr.spell mask) }
{
    joined_len(addr_len(mask.base), byte_len())
}

/// The mask at the front of the bytes.
#[tactic(auto, unfolding(crate::specs::Addresses::cidr))]
pub fn take_cidr(bytes: &[u8]) -> Result<(Cidr, &[u8]), Fault>
    ensures { Gives (λ x. (x.0, x.1.now)) result (cidr.read bytes.now) }
{
    let (base, rest) = take_addr(bytes)?;
    let (bits, rest) = take_bits(base, rest)?;
    Ok((Cidr { base, bits }, rest))
}
