//! Addresses: 4 and four bytes, or 6 and sixteen, which are no IPv4 address in `::ffff:0:0/96`.
ghost use Rattle.std.specs.Prelude.{◌≡◌, ◌++◌, OnOk};
ghost use Rattle.std.specs.Int.{w32, w64};
ghost use Rattle.record_fields.specs.Codec.{Gives, capped};
ghost use Rattle.record_fields.specs.Addresses.{eight, sixteen, fixed_at, sixteen_at, addr};

use crate::fault::Fault;
use f2b_base::{Addr, Bytes, NoMemory};

#[tactic(auto, unfolding(crate::specs::Addresses::eight))]
fn put_u64(n: u64, out: &mut Bytes) -> Result<(), NoMemory>
    ensures { OnOk result (out.new ≡ out.old ++ eight n) }
{
    out.push_slice(&n.to_be_bytes())
}

#[tactic(auto, unfolding(crate::specs::Addresses::sixteen))]
fn put_u128(n: u128, out: &mut Bytes) -> Result<(), NoMemory>
    ensures { OnOk result (out.new ≡ out.old ++ sixteen n) }
{
    put_u64((n >> 64) as u64, out)?;
    put_u64((n % (1 << 64)) as u64, out)
}

/// Adds an address.
pub fn put_addr(host: Addr, out: &mut Bytes) -> Result<(), NoMemory>
    ensures { OnOk result (out.new ≡ out.old ++ addr.spell host) }
{
    match host {
        Addr::V4(n) => {
            out.push(4)?;
            out.push_slice(&n.to_be_bytes())
        }
        Addr::V6(n) => {
            out.push(6)?;
            put_u128(n, out)
        }
    }
}

/// How many bytes an address has.
#[tactic(auto, unfolding(crate::specs::Addresses::sixteen, crate::specs::Addresses::eight, crate::specs::Codec::capped))]
pub fn addr_len(host: Addr) -> u64
    ensures { result ≡ capped (addr.spell host) }
{
    match host {
        Addr::V4(_) => 5,
        Addr::V6(_) => 17,
    }
}

#[tactic(auto, unfolding(crate::specs::Addresses::fixed_at))]
fn take_u32(left: u64, bytes: &[u8]) -> Result<(u32, &[u8]), Fault>
    ensures { Gives (λ x. (x.0, x.1.now)) result (fixed_at w32 left bytes.now) }
{
    if bytes.len() < 4 {
        return Err(Fault::Left(left));
    }
    let (front, rest) = bytes.split_at(4);
    let number = u32::from_be_bytes([front[0], front[1], front[2], front[3]]);
    Ok((number, rest))
}

#[tactic(auto, unfolding(crate::specs::Addresses::fixed_at))]
fn take_u64(left: u64, bytes: &[u8]) -> Result<(u64, &[u8]), Fault>
    ensures { Gives (λ x. (x.0, x.1.now)) result (fixed_at w64 left bytes.now) }
{
    if bytes.len() < 8 {
        return Err(Fault::Left(left));
    }
    let (front, rest) = bytes.split_at(8);
    let number = u64::from_be_bytes([
        front[0], front[1], front[2], front[3], front[4], front[5], front[6], front[7],
    ]);
    Ok((number, rest))
}

#[tactic(auto, unfolding(crate::specs::Addresses::sixteen_at))]
fn take_u128(left: u64, bytes: &[u8]) -> Result<(u128, &[u8]), Fault>
    ensures { Gives (λ x. (x.0, x.1.now)) result (sixteen_at left bytes.now) }
{
    let (high, rest) = take_u64(left, bytes)?;
    let (low, rest) = take_u64(left, rest)?;
    Ok((u128::from(high) * (1 << 64) + u128::from(low), rest))
}

/// The address at the front of the bytes. All of it is one field.
#[tactic(auto, unfolding(crate::specs::Addresses::addr_at))]
pub fn take_addr(bytes: &[u8]) -> Result<(Addr, &[u8]), Fault>
    ensures { Gives (λ x. (x.0, x.1.now)) result (addr.read bytes.now) }
{
    let left = bytes.len() as u64;
    match bytes {
        [] => Err(Fault::Left(0)),
        [first, rest @ ..] => {
            if *first == 4 {
                let (n, after) = take_u32(left, rest)?;
                Ok((Addr::V4(n), after))
            } else if *first == 6 {
                let (n, after) = take_u128(left, rest)?;
                if n >> 32 == 0xffff {
                    return Err(Fault::Left(left));
                }
                Ok((Addr::V6(n), after))
            } else {
                Err(Fault::Left(left))
            }
        }
    }
}
