//! Addresses of hosts, and masks over them.
ghost use Rattle.std.specs.Prelude.{◌≡◌};
ghost use Rattle.f2b_base.specs.Addresses.{same_addr};
ghost use Rattle.f2b_base.specs.Families.{same_family};

mod mask;
mod print;
mod read;

use crate::memory::NoMemory;
use crate::plain::Plain;

/// The address of a host. One host is one value: an IPv6 address in `::ffff:0:0/96` is never made, since it stands for the IPv4
/// address in its last 32 bits.
#[derive(Clone, Copy, Debug, PartialEq, Eq)]
pub enum Addr {
    /// IPv4, as the number that its four bytes make in network order.
    V4(u32),
    /// IPv6, as the number that its sixteen bytes make in network order.
    V6(u128),
}

/// The addresses whose first `bits` bits are those of `base`.
#[derive(Clone, Copy, Debug, PartialEq, Eq)]
pub struct Cidr {
    /// Its bits after the prefix are 0.
    pub base: Addr,
    /// At most 32 for IPv4, and at most 128 for IPv6.
    pub bits: u8,
}

/// The addresses that a lane of jobs takes.
#[derive(Clone, Copy, Debug, PartialEq, Eq)]
pub enum Family {
    Both,
    Inet4,
    Inet6,
}

impl Addr {
    /// Whether the two addresses are one.
    pub fn same(self, other: Addr) -> bool
        ensures { result ≡ same_addr self other }
    {
        match (self, other) {
            (Addr::V4(one), Addr::V4(two)) => one == two,
            (Addr::V6(one), Addr::V6(two)) => one == two,
            (Addr::V4(_), Addr::V6(_)) | (Addr::V6(_), Addr::V4(_)) => false,
        }
    }
}

impl Family {
    /// Whether the two families are one.
    pub fn same(self, other: Family) -> bool
        ensures { result ≡ same_family self other }
    {
        match (self, other) {
            (Family::Both, Family::Both) => true,
            (Family::Inet4, Family::Inet4) => true,
            (Family::Inet6, Family::Inet6) => true,
            _ => false,
        }
    }
}

impl Plain for Addr {
    fn copy(&self) -> Result<Addr, NoMemory> {
        Ok(*self)
    }
}

impl Plain for Cidr {
    fn copy(&self) -> Result<Cidr, NoMemory> {
        Ok(*self)
    }
}
