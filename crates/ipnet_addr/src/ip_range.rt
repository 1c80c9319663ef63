//! Ranges of addresses of either family, as iterators from both ends.
ghost use Rattle.std.specs.Prelude.{◌≡◌, ◌+◌, ◌<◌, ◌^◌, length, slice_get, reverse, IfSome, option_map};
ghost use Rattle.std.specs.Iterator.{YieldsFirstBy, YieldsLastBy, item_count, UpTo};
ghost use Rattle.std.specs.Iterator.SizeHint.{IsExactHint, IsWithinCount};
ghost use Rattle.ipnet_addr.specs.Addresses.{address_of};
ghost use Rattle.ipnet_addr.specs.IpRanges.{addresses, ends_of, family_of, with_ends};
ghost use Rattle.ipnet_addr.specs.Ranges.{numbers, after_front, after_back, times, IsMinimum, IsMaximum};

use crate::addr_range::{Ipv4AddrRange, Ipv6AddrRange};
use std::net::IpAddr;

/// A range of either family. Ranges are ordered by family, IPv4 first, then by start and end.
///
/// # Examples
/// For `end`, an IPv6 range; `ten(9)` is 10.0.0.9:
///
/// ```rust
/// let nine = IpAddrRange::from(Ipv4AddrRange::new(ten(9), ten(9)));
/// is_equal(&rt, nine < end, true);
/// ```
#[derive(Clone, Copy, Debug, PartialEq, Eq, PartialOrd, Ord, Hash)]
pub enum IpAddrRange {
    V4(Ipv4AddrRange),
    V6(Ipv6AddrRange),
}

/// The same range, as one of either family.
impl From<Ipv4AddrRange> for IpAddrRange {
    ghost use Rattle.ipnet_addr.specs.declared.ip_range.IpAddrRange.TheVariants.{V4};

    ghost from_gives = { λ r s. s ≡ V4 r };

    fn from(range: Ipv4AddrRange) -> IpAddrRange {
        IpAddrRange::V4(range)
    }
}

/// The same range, as one of either family.
///
/// # Examples
/// `high()` is the greatest IPv6 address:
///
/// ```rust
/// let mut end = IpAddrRange::from(Ipv6AddrRange::new(high(), high()));
/// is_equal(&rt, end.size_hint(), (1, Some(1)));
/// is_equal(&rt, end.min(), Some(IpAddr::V6(high())));
/// ```
impl From<Ipv6AddrRange> for IpAddrRange {
    ghost use Rattle.ipnet_addr.specs.declared.ip_range.IpAddrRange.TheVariants.{V6};

    ghost from_gives = { λ r s. s ≡ V6 r };

    fn from(range: Ipv6AddrRange) -> IpAddrRange {
        IpAddrRange::V6(range)
    }
}

impl IpAddrRange {
    /// Returns the address that the last of n + 1 calls of `next` returns, and leaves the range as these calls do. In constant time.
    ///
    /// # Examples
    /// `ten(n)` is 10.0.0.n:
    ///
    /// ```rust
    /// let mut from = IpAddrRange::from(Ipv4AddrRange::new(ten(0), ten(9)));
    /// is_equal(&rt, from.nth(1), Some(IpAddr::V4(ten(1))));
    /// ```
    pub fn nth(&mut self, n: usize) -> Option<IpAddr>
        ensures answer { option_map address_of result ≡ slice_get (addresses self.old) n }
        ensures ends { self.new ≡ with_ends (times (n + 1) after_front) self.old }
    {
        match self {
            IpAddrRange::V4(range) => Some(IpAddr::V4(range.nth(n)?)),
            IpAddrRange::V6(range) => Some(IpAddr::V6(range.nth(n)?)),
        }
    }

    /// Returns the address that the last of n + 1 calls of `next_back` returns, and leaves the range as these calls do. In constant time.
    ///
    /// # Examples
    /// For `from`, from `ten(2)` to `ten(9)`; `ten(n)` is 10.0.0.n:
    ///
    /// ```rust
    /// is_equal(&rt, from.nth_back(1), Some(IpAddr::V4(ten(8))));
    /// is_equal(&rt, from.max(), Some(IpAddr::V4(ten(7))));
    /// ```
    pub fn nth_back(&mut self, n: usize) -> Option<IpAddr>
        ensures answer { option_map address_of result ≡ slice_get (reverse (addresses self.old)) n }
        ensures ends { self.new ≡ with_ends (times (n + 1) after_back) self.old }
    {
        match self {
            IpAddrRange::V4(range) => Some(IpAddr::V4(range.nth_back(n)?)),
            IpAddrRange::V6(range) => Some(IpAddr::V6(range.nth_back(n)?)),
        }
    }

    /// Returns the number of addresses, which must be below 2^64. In constant time.
    pub fn count(self) -> usize
        requires { length (addresses self) < 2 ^ 64 }
        ensures { result ≡ length (addresses self) }
    {
        match self {
            IpAddrRange::V4(range) => range.count(),
            IpAddrRange::V6(range) => range.count(),
        }
    }

    /// Returns the last address, or `None` if the range is empty. In constant time.
    ///
    /// # Examples
    /// For `from`, from `ten(2)` to `ten(7)`; `ten(n)` is 10.0.0.n:
    ///
    /// ```rust
    /// is_equal(&rt, from.last(), Some(IpAddr::V4(ten(7))));
    /// is_equal(&rt, from.size_hint(), (6, Some(6)));
    /// ```
    pub fn last(mut self) -> Option<IpAddr>
        ensures { option_map address_of result ≡ slice_get (reverse (addresses self)) 0 }
    {
        self.nth_back(0)
    }

    /// Returns the least address, or `None` if the range is empty. In constant time.
    ///
    /// # Examples
    /// For `end`, a range of one IPv6 address, `high()`:
    ///
    /// ```rust
    /// is_equal(&rt, end.min(), Some(IpAddr::V6(high())));
    /// ```
    pub fn min(self) -> Option<IpAddr>
        ensures least { IsMinimum (numbers (ends_of self)) (option_map (λ a. (address_of a).number) result) }
        ensures family { IfSome result (λ a. (address_of a).family ≡ family_of self) }
    {
        match self {
            IpAddrRange::V4(range) => Some(IpAddr::V4(range.min()?)),
            IpAddrRange::V6(range) => Some(IpAddr::V6(range.min()?)),
        }
    }

    /// Returns the greatest address, or `None` if the range is empty. In constant time.
    ///
    /// # Examples
    /// For `from`, from `ten(2)` to `ten(7)`; `ten(n)` is 10.0.0.n:
    ///
    /// ```rust
    /// is_equal(&rt, from.max(), Some(IpAddr::V4(ten(7))));
    /// ```
    pub fn max(self) -> Option<IpAddr>
        ensures greatest { IsMaximum (numbers (ends_of self)) (option_map (λ a. (address_of a).number) result) }
        ensures family { IfSome result (λ a. (address_of a).family ≡ family_of self) }
    {
        match self {
            IpAddrRange::V4(range) => Some(IpAddr::V4(range.max()?)),
            IpAddrRange::V6(range) => Some(IpAddr::V6(range.max()?)),
        }
    }
}

impl Iterator for IpAddrRange {
    type Item = IpAddr;

    ghost next_gives = { λ r a s. YieldsFirstBy address_of addresses r a s × (s ≡ with_ends after_front r) };

    ghost remaining = { item_count addresses };

    fn next(&mut self) -> Option<IpAddr> {
        match self {
            IpAddrRange::V4(range) => Some(IpAddr::V4(range.next()?)),
            IpAddrRange::V6(range) => Some(IpAddr::V6(range.next()?)),
        }
    }

    fn size_hint(&self) -> (usize, Option<usize>)
        ensures lower { IsWithinCount result.0 (item_count addresses self.now) }
        ensures upper { IfSome result.1 (UpTo (item_count addresses self.now)) }
        ensures exact { IsExactHint result (length (addresses self.now)) }
    {
        match self {
            IpAddrRange::V4(range) => range.size_hint(),
            IpAddrRange::V6(range) => range.size_hint(),
        }
    }
}

impl DoubleEndedIterator for IpAddrRange {
    ghost next_back_gives = { λ r a s. YieldsLastBy address_of addresses r a s × (s ≡ with_ends after_back r) };

    fn next_back(&mut self) -> Option<IpAddr> {
        match self {
            IpAddrRange::V4(range) => Some(IpAddr::V4(range.next_back()?)),
            IpAddrRange::V6(range) => Some(IpAddr::V6(range.next_back()?)),
        }
    }
}
