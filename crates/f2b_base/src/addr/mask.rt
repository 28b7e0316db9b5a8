//! Masks over addresses: reading them, and which addresses they hold.
ghost use Rattle.std.specs.Prelude.{◌≡◌, ◌*◌, ◌/◌, ◌^◌, ◌<◌, ◌≤◌, ◌≢◌, ◌==◌, length, position, IfNone, IfSome};
ghost use Rattle.f2b_base.specs.declared.addr.Cidr.{Cidr};
ghost use Rattle.f2b_base.specs.Masks.{masked, masked_v4, masked_v6, alone, read_bits, read_masked, read_cidr, holds, IsCidr, SpellsMask};

use super::{Addr, Cidr};
use std::str;

impl Cidr {
    /// The mask that a text reads as: an address, or an address, `/` and how many of its first bits count, or `None` for another
    /// text.
    ///
    /// The bits are a decimal without leading zeros, at most 32 for IPv4 and 128 for IPv6. An address alone has all its bits, and
    /// bits after the prefix become 0. An address in `::ffff:0:0/96` takes 96 to 128 bits and becomes IPv4 with 96 fewer. Takes
    /// no memory.
    #[tactic(auto, unfolding(crate::specs::Masks::read_cidr))]
    pub fn read(text: &[u8]) -> Option<Cidr>
        ensures value { result ≡ read_cidr text.now }
        ensures spelled { IfSome result (SpellsMask text.now) }
        ensures bounds { IfSome result IsCidr }

        // A text without a mask spells none.
        ensures none { IfNone result ((cidr : Cidr) → ¬ SpellsMask text.now cidr) }
    {
        match slash_place(text) {
            None => {
                let addr = Addr::read(text)?;
                Some(Cidr::alone(addr))
            }
            Some(place) => Cidr::read_masked(text, place),
        }
    }

    /// Whether the address is of the mask's family and has its first bits.
    pub fn holds(&self, addr: Addr) -> bool
        ensures { result ≡ holds self.now addr }
    {
        match self.base {
            Addr::V4(base) => match addr {
                Addr::V4(number) => {
                    let rest = 32u8.saturating_sub(self.bits);
                    shifted(u128::from(base), rest) == shifted(u128::from(number), rest)
                }
                Addr::V6(_) => false,
            },
            Addr::V6(base) => match addr {
                Addr::V4(_) => false,
                Addr::V6(number) => {
                    let rest = 128u8.saturating_sub(self.bits);
                    shifted(base, rest) == shifted(number, rest)
                }
            },
        }
    }

    /// The mask that a text with a slash at that place reads as.
    fn read_masked(text: &[u8], place: usize) -> Option<Cidr>
        requires { place < length text.now }
        ensures value { result ≡ read_masked text.now place }
        ensures bounds { IfSome result IsCidr }
    {
        let written = Addr::written(&text[..place])?;
        let bits = read_bits(&text[place + 1..])?;
        Cidr::masked(written, bits)
    }

    /// The mask that holds one address alone.
    fn alone(addr: Addr) -> Cidr
        ensures { result ≡ alone addr }
    {
        let bits = match addr {
            Addr::V4(_) => 32,
            Addr::V6(_) => 128,
        };
        Cidr { base: addr, bits }
    }

    /// The mask of that many bits over an address as it is written.
    fn masked(written: Addr, bits: u8) -> Option<Cidr>
        ensures value { result ≡ masked written bits }
        ensures bounds { IfSome result IsCidr }
    {
        match written {
            Addr::V4(number) => Cidr::masked_v4(number, bits),
            Addr::V6(number) if number >> 32 == 0xffff => {
                Cidr::masked_v4((number & 0xffff_ffff) as u32, bits.checked_sub(96)?)
            }
            Addr::V6(number) => Cidr::masked_v6(number, bits),
        }
    }

    fn masked_v4(number: u32, bits: u8) -> Option<Cidr>
        ensures value { result ≡ masked_v4 number bits }
        ensures bounds { IfSome result IsCidr }
    {
        if bits > 32 {
            return None;
        }
        let base = Addr::V4(cleared(u128::from(number), 32 - bits) as u32);
        Some(Cidr { base, bits })
    }

    fn masked_v6(number: u128, bits: u8) -> Option<Cidr>
        requires { number / 2 ^ 32 ≢ 0xffff }
        ensures value { result ≡ masked_v6 number bits }
        ensures bounds { IfSome result IsCidr }
    {
        if bits > 128 {
            return None;
        }
        let base = Addr::V6(cleared(number, 128 - bits));
        Some(Cidr { base, bits })
    }
}

/// The number without its last `rest` bits.
fn shifted(number: u128, rest: u8) -> u128
    requires { rest ≤ 128 }
    ensures { result ≡ number / 2 ^ rest }
{
    if rest == 128 { 0 } else { number >> rest }
}

/// The number with 0 for its last `rest` bits.
fn cleared(number: u128, rest: u8) -> u128
    requires { rest ≤ 128 }
    ensures value { result ≡ number / 2 ^ rest * 2 ^ rest }
    ensures most { result ≤ number }
{
    if rest == 128 {
        0
    } else {
        number >> rest << rest
    }
}

fn slash_place(text: &[u8]) -> Option<usize>
    ensures value { result ≡ position (λ byte. byte == 47) text.now }
    ensures within { IfSome result (λ place. place < length text.now) }
{
    text.iter().position(|&byte| byte == b'/')
}

/// The number below 256 whose decimal the text is.
fn read_bits(text: &[u8]) -> Option<u8>
    ensures { result ≡ read_bits text.now }
{
    // A sign or a leading zero.
    if text.len() > 1 && text[0] <= b'0' {
        return None;
    }
    let Ok(digits) = str::from_utf8(text) else {
        return None;
    };
    digits.parse().ok()
}
