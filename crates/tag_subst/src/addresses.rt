//! Addresses as text.
ghost use Rattle.std.specs.Prelude.{◌≡◌, IfOk, string_bytes};
ghost use Rattle.f2b_base.specs.Addresses.{printed};

use f2b_base::{Addr, NoMemory};
use std::alloc::Global;
use std::net::{Ipv4Addr, Ipv6Addr};

/// The text of an address.
#[tactic(auto, unfolding(f2b_base::specs::Addresses::printed, f2b_base::specs::Addresses::octets, f2b_base::specs::Addresses::groups, std::specs::Net::Addr::IsIpv4OfBits, std::specs::Net::Addr::IsIpv6OfBits))]
pub(crate) fn printed(alloc: Global, addr: Addr) -> Result<String, NoMemory>
    ensures { IfOk result (λ text. string_bytes text ≡ printed addr) }
{
    match addr {
        Addr::V4(number) => {
            let dotted = Ipv4Addr::from_bits(number);
            Ok(format!(in alloc; "{dotted}")?)
        }
        Addr::V6(number) => {
            let groups = Ipv6Addr::from_bits(number).hex_groups();
            Ok(format!(in alloc; "{groups}")?)
        }
    }
}
