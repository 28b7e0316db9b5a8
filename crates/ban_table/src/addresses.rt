//! Addresses as keys of the maps.
ghost use Rattle.std.specs.Prelude.{◌≡◌};
ghost use Rattle.ban_table.specs.Places.{key_of};

use f2b_base::Addr;

/// The IP version of an address, and its number.
pub fn key_of(addr: Addr) -> (u8, u128)
    ensures { result ≡ key_of addr }
{
    match addr {
        Addr::V4(number) => (4, u128::from(number)),
        Addr::V6(number) => (6, number),
    }
}
