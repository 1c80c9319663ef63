//! Saturating arithmetic of addresses, by their numbers, as in the Rust crate ipnet 2.12.2. A result above the greatest number
//! becomes the greatest number, and a result below 0 becomes 0.
ghost use Rattle.std.specs.Prelude.{◌≡◌, ℕ, ◌+◌, ◌-◌, ◌^◌, min, bit_and, bit_or};
ghost use Rattle.std.specs.Net.Addr.{ipv4_bits, ipv6_bits};

use crate::bits::{ipv4_of, ipv6_of};
use std::net::{Ipv4Addr, Ipv6Addr};

/// The next and the previous address, and replacement by the addresses 0 and 1.
pub trait IpStep {
    /// The number of an address.
    ghost number: { Self → ℕ };

    /// The greatest number of an address.
    ghost greatest: { ℕ };

    /// Sets the address to number 1, and returns the old address.
    ///
    /// # Examples
    /// For `addr`, `::`:
    ///
    /// ```rust
    /// is_equal(&rt, addr.replace_one(), Ipv6Addr::UNSPECIFIED);
    /// is_equal(&rt, addr, Ipv6Addr::LOCALHOST);
    /// ```
    fn replace_one(&mut self) -> Self
        ensures old { result ≡ self.old }
        ensures one { number self.new ≡ 1 };

    /// Sets the address to number 0, and returns the old address.
    ///
    /// # Examples
    /// For `addr`, 0.0.0.1:
    ///
    /// ```rust
    /// is_equal(&rt, addr.replace_zero(), Ipv4Addr::new(0, 0, 0, 1));
    /// is_equal(&rt, addr, Ipv4Addr::UNSPECIFIED);
    /// ```
    fn replace_zero(&mut self) -> Self
        ensures old { result ≡ self.old }
        ensures zero { number self.new ≡ 0 };

    /// Returns the next address; the greatest address stays.
    ///
    /// # Examples
    /// For `addr`, 10.0.0.255, and `TOP4`, 255.255.255.255:
    ///
    /// ```rust
    /// is_equal(&rt, addr.add_one(), Ipv4Addr::new(10, 0, 1, 0));
    /// is_equal(&rt, addr.sub_one(), Ipv4Addr::new(10, 0, 0, 254));
    /// is_equal(&rt, TOP4.add_one(), TOP4);
    /// ```
    fn add_one(&self) -> Self
        ensures { number result ≡ min (number self.now + 1) greatest };

    /// Returns the previous address; the address 0 stays.
    ///
    /// # Examples
    /// ```rust
    /// let bottom = Ipv4Addr::UNSPECIFIED;
    /// is_equal(&rt, bottom.sub_one(), Ipv4Addr::UNSPECIFIED);
    /// ```
    fn sub_one(&self) -> Self
        ensures { number result ≡ number self.now - 1 };
}

impl IpStep for Ipv4Addr {
    ghost number = { ipv4_bits };

    ghost greatest = { 2 ^ 32 - 1 };

    fn replace_one(&mut self) -> Ipv4Addr {
        let old = *self;
        *self = ipv4_of(1);
        old
    }

    fn replace_zero(&mut self) -> Ipv4Addr {
        let old = *self;
        *self = ipv4_of(0);
        old
    }

    fn add_one(&self) -> Ipv4Addr {
        ipv4_of(self.to_bits().saturating_add(1))
    }

    fn sub_one(&self) -> Ipv4Addr {
        ipv4_of(self.to_bits().saturating_sub(1))
    }
}

impl IpStep for Ipv6Addr {
    ghost number = { ipv6_bits };

    ghost greatest = { 2 ^ 128 - 1 };

    fn replace_one(&mut self) -> Ipv6Addr {
        let old = *self;
        *self = ipv6_of(1);
        old
    }

    fn replace_zero(&mut self) -> Ipv6Addr {
        let old = *self;
        *self = ipv6_of(0);
        old
    }

    fn add_one(&self) -> Ipv6Addr {
        ipv6_of(self.to_bits().saturating_add(1))
    }

    fn sub_one(&self) -> Ipv6Addr {
        ipv6_of(self.to_bits().saturating_sub(1))
    }
}

/// The sum of an address and a number, at most the greatest address.
pub trait IpAdd<RHS> {
    type Output;

    /// Whether the third is the sum of the first two.
    ghost added: { Self → RHS → Self.Output → Type 0 };

    /// Returns the sum, or the greatest address if the sum is above it.
    ///
    /// # Examples
    /// For `TOP4`, 255.255.255.255:
    ///
    /// ```rust
    /// let addr = Ipv4Addr::new(10, 0, 0, 1);
    /// let sum = IpAdd::saturating_add(addr, 256);
    /// is_equal(&rt, sum, Ipv4Addr::new(10, 0, 1, 1));
    /// is_equal(&rt, IpAdd::saturating_add(TOP4, 1), TOP4);
    /// ```
    fn saturating_add(self, rhs: RHS) -> Self::Output
        ensures { added self rhs result };
}

/// The difference of an address and a number, or of two addresses, at least 0.
pub trait IpSub<RHS> {
    type Output;

    /// Whether the third is the difference of the first two.
    ghost subtracted: { Self → RHS → Self.Output → Type 0 };

    /// Returns the difference, or 0 if it is negative.
    ///
    /// # Examples
    /// For `addr`, 10.0.0.1, and `TOP4`, 255.255.255.255:
    ///
    /// ```rust
    /// let difference = IpSub::<u32>::saturating_sub(addr, 2);
    /// is_equal(&rt, difference, Ipv4Addr::new(9, 255, 255, 255));
    /// let network = Ipv4Addr::new(10, 0, 0, 0);
    /// is_equal(&rt, IpSub::<Ipv4Addr>::saturating_sub(addr, network), 1);
    /// is_equal(&rt, IpSub::<Ipv4Addr>::saturating_sub(addr, TOP4), 0);
    /// ```
    fn saturating_sub(self, rhs: RHS) -> Self::Output
        ensures { subtracted self rhs result };
}

/// The bitwise AND of an address and a number, or of two addresses.
pub trait IpBitAnd<RHS> {
    type Output;

    /// Whether the third is the AND of the first two.
    ghost common: { Self → RHS → Self.Output → Type 0 };

    /// Returns the address whose bits are set in both.
    ///
    /// # Examples
    /// For `addr`, 10.0.0.1:
    ///
    /// ```rust
    /// let and = IpBitAnd::<Ipv4Addr>::bitand(addr, Ipv4Addr::new(255, 0, 0, 0));
    /// is_equal(&rt, and, Ipv4Addr::new(10, 0, 0, 0));
    /// ```
    fn bitand(self, rhs: RHS) -> Self::Output
        ensures { common self rhs result };
}

/// The bitwise OR of an address and a number, or of two addresses.
pub trait IpBitOr<RHS> {
    type Output;

    /// Whether the third is the OR of the first two.
    ghost either: { Self → RHS → Self.Output → Type 0 };

    /// Returns the address whose bits are set in at least one of the two.
    ///
    /// # Examples
    /// For `addr`, 10.0.0.1:
    ///
    /// ```rust
    /// let filled = IpBitOr::<u32>::bitor(addr, 0xff);
    /// is_equal(&rt, filled, Ipv4Addr::new(10, 0, 0, 255));
    /// ```
    fn bitor(self, rhs: RHS) -> Self::Output
        ensures { either self rhs result };
}

impl IpAdd<u32> for Ipv4Addr {
    type Output = Ipv4Addr;

    ghost added = { λ a n sum. ipv4_bits sum ≡ min (ipv4_bits a + n) (2 ^ 32 - 1) };

    fn saturating_add(self, rhs: u32) -> Ipv4Addr {
        ipv4_of(self.to_bits().saturating_add(rhs))
    }
}

impl IpAdd<u128> for Ipv6Addr {
    type Output = Ipv6Addr;

    ghost added = { λ a n sum. ipv6_bits sum ≡ min (ipv6_bits a + n) (2 ^ 128 - 1) };

    fn saturating_add(self, rhs: u128) -> Ipv6Addr {
        ipv6_of(self.to_bits().saturating_add(rhs))
    }
}

impl IpSub<u32> for Ipv4Addr {
    type Output = Ipv4Addr;

    ghost subtracted = { λ a n difference. ipv4_bits difference ≡ ipv4_bits a - n };

    fn saturating_sub(self, rhs: u32) -> Ipv4Addr {
        ipv4_of(self.to_bits().saturating_sub(rhs))
    }
}

impl IpSub<u128> for Ipv6Addr {
    type Output = Ipv6Addr;

    ghost subtracted = { λ a n difference. ipv6_bits difference ≡ ipv6_bits a - n };

    fn saturating_sub(self, rhs: u128) -> Ipv6Addr {
        ipv6_of(self.to_bits().saturating_sub(rhs))
    }
}

impl IpSub<Ipv4Addr> for Ipv4Addr {
    type Output = u32;

    ghost subtracted = { λ a b difference. difference ≡ ipv4_bits a - ipv4_bits b };

    fn saturating_sub(self, rhs: Ipv4Addr) -> u32 {
        u32::from(self).saturating_sub(u32::from(rhs))
    }
}

impl IpSub<Ipv6Addr> for Ipv6Addr {
    type Output = u128;

    ghost subtracted = { λ a b difference. difference ≡ ipv6_bits a - ipv6_bits b };

    fn saturating_sub(self, rhs: Ipv6Addr) -> u128 {
        u128::from(self).saturating_sub(u128::from(rhs))
    }
}

impl IpBitAnd<u32> for Ipv4Addr {
    type Output = Ipv4Addr;

    ghost common = { λ a n both. ipv4_bits both ≡ bit_and (ipv4_bits a) n };

    fn bitand(self, rhs: u32) -> Ipv4Addr {
        ipv4_of(self.to_bits() & rhs)
    }
}

impl IpBitAnd<u128> for Ipv6Addr {
    type Output = Ipv6Addr;

    ghost common = { λ a n both. ipv6_bits both ≡ bit_and (ipv6_bits a) n };

    fn bitand(self, rhs: u128) -> Ipv6Addr {
        ipv6_of(self.to_bits() & rhs)
    }
}

impl IpBitAnd<Ipv4Addr> for Ipv4Addr {
    type Output = Ipv4Addr;

    ghost common = { λ a b both. ipv4_bits both ≡ bit_and (ipv4_bits a) (ipv4_bits b) };

    fn bitand(self, rhs: Ipv4Addr) -> Ipv4Addr {
        ipv4_of(self.to_bits() & rhs.to_bits())
    }
}

impl IpBitAnd<Ipv6Addr> for Ipv6Addr {
    type Output = Ipv6Addr;

    ghost common = { λ a b both. ipv6_bits both ≡ bit_and (ipv6_bits a) (ipv6_bits b) };

    fn bitand(self, rhs: Ipv6Addr) -> Ipv6Addr {
        ipv6_of(self.to_bits() & rhs.to_bits())
    }
}

impl IpBitOr<u32> for Ipv4Addr {
    type Output = Ipv4Addr;

    ghost either = { λ a n any. ipv4_bits any ≡ bit_or (ipv4_bits a) n };

    fn bitor(self, rhs: u32) -> Ipv4Addr {
        ipv4_of(self.to_bits() | rhs)
    }
}

impl IpBitOr<u128> for Ipv6Addr {
    type Output = Ipv6Addr;

    ghost either = { λ a n any. ipv6_bits any ≡ bit_or (ipv6_bits a) n };

    fn bitor(self, rhs: u128) -> Ipv6Addr {
        ipv6_of(self.to_bits() | rhs)
    }
}

impl IpBitOr<Ipv4Addr> for Ipv4Addr {
    type Output = Ipv4Addr;

    ghost either = { λ a b any. ipv4_bits any ≡ bit_or (ipv4_bits a) (ipv4_bits b) };

    fn bitor(self, rhs: Ipv4Addr) -> Ipv4Addr {
        ipv4_of(self.to_bits() | rhs.to_bits())
    }
}

impl IpBitOr<Ipv6Addr> for Ipv6Addr {
    type Output = Ipv6Addr;

    ghost either = { λ a b any. ipv6_bits any ≡ bit_or (ipv6_bits a) (ipv6_bits b) };

    fn bitor(self, rhs: Ipv6Addr) -> Ipv6Addr {
        ipv6_of(self.to_bits() | rhs.to_bits())
    }
}
