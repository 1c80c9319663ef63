//! The numbers of addresses: 32 bits for IPv4, 128 bits for IPv6. For the crates above; not part of the promise.
ghost use Rattle.std.specs.Prelude.{◌≡◌, ℕ, refl};
ghost use Rattle.std.specs.Net.Addr.{ipv4_bits, ipv6_bits};
ghost use Rattle.ipnet_addr.specs.Addresses.{Family, Ipv4, Ipv6, width};

use crate::bits::{ipv4_of, ipv6_of};
use crate::key::Key;
use std::net::{Ipv4Addr, Ipv6Addr};

/// A key that is the number of an address of one family.
///
/// Code for both families is generic over this number: the type `u32` means IPv4, and `u128` means IPv6.
pub trait AddressInt: Key {
    /// The addresses of the family.
    type Addr: Copy;

    /// The family.
    ghost family: { Family };

    /// The number of an address.
    ghost addr_number: { Self.Addr → ℕ };

    /// Returns the number of an address.
    fn of_addr(addr: Self::Addr) -> Self
        ensures { Self.number result ≡ addr_number addr };

    /// Returns the address of a number.
    fn to_addr(self) -> Self::Addr
        ensures { addr_number result ≡ Self.number self };

    /// A number has as many bits as an address.
    ghost sized: { Self.width ≡ width family };
}

impl AddressInt for u32 {
    type Addr = Ipv4Addr;

    ghost family = { Ipv4 };

    ghost addr_number = { ipv4_bits };

    ghost sized = { refl };

    #[inline]
    fn of_addr(addr: Ipv4Addr) -> u32 {
        addr.to_bits()
    }

    #[inline]
    fn to_addr(self) -> Ipv4Addr {
        ipv4_of(self)
    }
}

impl AddressInt for u128 {
    type Addr = Ipv6Addr;

    ghost family = { Ipv6 };

    ghost addr_number = { ipv6_bits };

    ghost sized = { refl };

    #[inline]
    fn of_addr(addr: Ipv6Addr) -> u128 {
        addr.to_bits()
    }

    #[inline]
    fn to_addr(self) -> Ipv6Addr {
        ipv6_of(self)
    }
}
