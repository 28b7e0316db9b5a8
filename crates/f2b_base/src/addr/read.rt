//! Reading addresses (RFC 4291, section 2.2).
ghost use Rattle.std.specs.Prelude.{◌≡◌, IfNone, IfSome};
ghost use Rattle.f2b_base.specs.declared.addr.Addr.{Addr};
ghost use Rattle.f2b_base.specs.Addresses.{canonical, written_addr, read_addr, IsAddr, IsForm, Spells};

use super::Addr;
use std::net::IpAddr;

impl Addr {
    /// The address that a text spells, or `None` where it is no form of one.
    ///
    /// IPv4 is four decimals from 0 to 255 without leading zeros. IPv6 has the forms of RFC 4291, section 2.2, without a zone, and
    /// `::` stands for at least one group. An address in `::ffff:0:0/96` reads as the IPv4 address in it. Takes no memory.
    #[tactic(auto, unfolding(crate::specs::Addresses::read_addr))]
    pub fn read(text: &[u8]) -> Option<Addr>
        ensures value { result ≡ read_addr text.now }
        ensures spelled { IfSome result (Spells text.now) }
        ensures bounds { IfSome result IsAddr }

        // A text without an address spells none.
        ensures none { IfNone result ((addr : Addr) → ¬ Spells text.now addr) }
    {
        Some(Addr::written(text)?.canonical())
    }

    /// The address that a text is a form of, as it is written: also one in `::ffff:0:0/96`.
    pub(super) fn written(text: &[u8]) -> Option<Addr>
        ensures value { result ≡ written_addr text.now }
        ensures form { IfSome result (IsForm text.now) }
        ensures none { IfNone result ((addr : Addr) → ¬ IsForm text.now addr) }
    {
        let Ok(ip) = IpAddr::parse_ascii(text) else {
            return None;
        };
        match ip {
            IpAddr::V4(ip) => Some(Addr::V4(ip.to_bits())),
            IpAddr::V6(ip) => Some(Addr::V6(ip.to_bits())),
        }
    }

    /// The address of the host that is written so: of one in `::ffff:0:0/96` the IPv4 address in its last 32 bits.
    fn canonical(self) -> Addr
        ensures value { result ≡ canonical self }
        ensures bounds { IsAddr result }
    {
        match self {
            Addr::V6(number) if number >> 32 == 0xffff => Addr::V4((number & 0xffff_ffff) as u32),
            _ => self,
        }
    }
}
