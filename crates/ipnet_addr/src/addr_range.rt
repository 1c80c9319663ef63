//! Ranges of addresses of one family, as iterators from both ends.
ghost use Rattle.std.specs.Prelude.{◌≡◌, ◌+◌, ◌<◌, ◌^◌, ⊤, length, slice_get, reverse, IfSome, option_map};
ghost use Rattle.std.specs.Iterator.{YieldsFirstBy, YieldsLastBy, item_count, UpTo};
ghost use Rattle.std.specs.Iterator.SizeHint.{IsExactHint, IsWithinCount};
ghost use Rattle.ipnet_addr.specs.Ranges.{numbers, after_front, after_back, times, IsMinimum, IsMaximum};

use crate::number::AddressInt;
use crate::ranges::{count_numbers, hint_numbers, nth_back_number, nth_number};
use std::alloc::AllocError;
use std::marker::Model;

/// The addresses from `start` to `end`, both included; an empty range if `start` is above `end`.
///
/// Contracts see a range as the numbers of its two ends. Ranges are ordered by start, then by end.
#[derive(Copy, Debug, PartialEq, Eq, PartialOrd, Ord, Hash)]
pub struct AddrRange<N: AddressInt> {
    start: N,
    end: N,
}

/// A range of IPv4 addresses.
pub type Ipv4AddrRange = AddrRange<u32>;

/// A range of IPv6 addresses.
///
/// # Examples
/// From `low()`, the address 0, to `high()`, the greatest address:
///
/// ```rust
/// let mut all = Ipv6AddrRange::new(low(), high());
/// is_equal(&rt, all.size_hint(), (usize::MAX, None));
/// is_equal(&rt, all.next(), Some(low()));
/// ```
pub type Ipv6AddrRange = AddrRange<u128>;

impl<N: AddressInt> Model for AddrRange<N> {
    ghost use Rattle.ipnet_addr.specs.Ranges.{Ends, AreEnds};

    ghost Value = { Ends };

    ghost view = { λ r. record { start = N.number r.start; end = N.number r.end } };

    ghost invariant = { λ r. AreEnds N.family (record { start = N.number r.start; end = N.number r.end }) };

    ghost inverse = { λ e. record { start = N.of_number e.start; end = N.of_number e.end } };

    ghost inverse_ok = { λ r h i. record { start = N.named r.start i; end = N.named r.end i } };
}

impl<N: AddressInt> Clone for AddrRange<N> {
    ghost is_clone = { λ r s. s ≡ r };

    ghost is_infallible = { λ _. ⊤ };

    fn clone(&self) -> Result<AddrRange<N>, AllocError> {
        Ok(*self)
    }
}

impl<N: AddressInt> AddrRange<N> {
    /// The addresses from `start` to `end`, both included; an empty range if `start` is above `end`.
    ///
    /// # Examples
    /// ```rust
    /// let mut left = Ipv4AddrRange::new(Ipv4Addr::new(10, 0, 0, 1), Ipv4Addr::new(10, 0, 0, 4));
    /// assert_eq!(rt; left.count(), 4);
    /// assert_eq!(rt; left.next_back(), Some(Ipv4Addr::new(10, 0, 0, 4)));
    /// ```
    pub fn new(start: N::Addr, end: N::Addr) -> AddrRange<N>
        ensures { result ≡ record { start = N.addr_number start; end = N.addr_number end } }
    {
        let start = N::of_addr(start);
        let end = N::of_addr(end);
        let _in_range = (start.to_bits(), end.to_bits());
        AddrRange { start, end }
    }

    /// Returns the address that the last of n + 1 calls of `next` returns, and leaves the range as these calls do. In constant time.
    ///
    /// # Examples
    /// `ten(n)` is 10.0.0.n:
    ///
    /// ```rust
    /// let mut rest = Ipv4AddrRange::new(ten(0), ten(3));
    /// is_equal(&rt, rest.nth(2), Some(ten(2)));
    /// is_equal(&rt, rest.next_back(), Some(ten(3)));
    /// ```
    pub fn nth(&mut self, n: usize) -> Option<N::Addr>
        ensures answer { option_map N.addr_number result ≡ slice_get (numbers self.old) n }
        ensures ends { self.new ≡ times (n + 1) after_front self.old }
    {
        let step = nth_number(self.start.to_bits(), self.end.to_bits(), n as u128);
        self.start = N::from_bits(step.start);
        self.end = N::from_bits(step.end);
        Some(N::from_bits(step.answer?).to_addr())
    }

    /// Returns the address that the last of n + 1 calls of `next_back` returns, and leaves the range as these calls do. In constant time.
    ///
    /// # Examples
    /// `ten(n)` is 10.0.0.n:
    ///
    /// ```rust
    /// let mut back = Ipv4AddrRange::new(ten(0), ten(3));
    /// is_equal(&rt, back.nth_back(1), Some(ten(2)));
    /// is_equal(&rt, back.next(), Some(ten(0)));
    /// ```
    pub fn nth_back(&mut self, n: usize) -> Option<N::Addr>
        ensures answer { option_map N.addr_number result ≡ slice_get (reverse (numbers self.old)) n }
        ensures ends { self.new ≡ times (n + 1) after_back self.old }
    {
        let step = nth_back_number(self.start.to_bits(), self.end.to_bits(), n as u128);
        self.start = N::from_bits(step.start);
        self.end = N::from_bits(step.end);
        Some(N::from_bits(step.answer?).to_addr())
    }

    /// Returns the last address, or `None` if the range is empty. In constant time.
    ///
    /// # Examples
    /// `ten(n)` is 10.0.0.n:
    ///
    /// ```rust
    /// let range = Ipv4AddrRange::new(ten(0), ten(3));
    /// is_equal(&rt, range.last(), Some(ten(3)));
    /// ```
    pub fn last(mut self) -> Option<N::Addr>
        ensures { option_map N.addr_number result ≡ slice_get (reverse (numbers self)) 0 }
    {
        self.nth_back(0)
    }

    /// Returns the least address, or `None` if the range is empty. In constant time.
    ///
    /// # Examples
    /// For `range` from `ten(0)` to `ten(3)`; `ten(n)` is 10.0.0.n:
    ///
    /// ```rust
    /// is_equal(&rt, range.min(), Some(ten(0)));
    /// ```
    #[tactic(auto, using(crate::proofs::RangeCalls::least_is))]
    pub fn min(mut self) -> Option<N::Addr>
        ensures { IsMinimum (numbers self) (option_map N.addr_number result) }
    {
        self.nth(0)
    }

    /// Returns the greatest address, or `None` if the range is empty. In constant time.
    ///
    /// # Examples
    /// For `range` from `ten(0)` to `ten(3)`; `ten(n)` is 10.0.0.n:
    ///
    /// ```rust
    /// is_equal(&rt, range.max(), Some(ten(3)));
    /// ```
    #[tactic(auto, using(crate::proofs::RangeCalls::greatest_is))]
    pub fn max(self) -> Option<N::Addr>
        ensures { IsMaximum (numbers self) (option_map N.addr_number result) }
    {
        self.last()
    }
}

impl AddrRange<u32> {
    /// Returns the number of addresses, at most 2^32. In constant time.
    ///
    /// # Examples
    /// ```rust
    /// let all = Ipv4AddrRange::new(Ipv4Addr::UNSPECIFIED, Ipv4Addr::BROADCAST);
    /// is_equal(&rt, all.count(), 4_294_967_296);
    /// ```
    pub fn count(self) -> usize
        ensures { result ≡ length (numbers self) }
    {
        count_numbers(self.start.into(), self.end.into())
    }
}

impl AddrRange<u128> {
    /// Returns the number of addresses, which must be below 2^64. In constant time.
    pub fn count(self) -> usize
        requires { length (numbers self) < 2 ^ 64 }
        ensures { result ≡ length (numbers self) }
    {
        count_numbers(self.start, self.end)
    }
}

impl<N: AddressInt> Iterator for AddrRange<N> {
    type Item = N::Addr;

    ghost next_gives = { λ r a s. YieldsFirstBy N.addr_number numbers r a s × (s ≡ after_front r) };

    ghost remaining = { item_count numbers };

    #[tactic(auto, using(crate::proofs::RangeCalls::front_taken, crate::proofs::RangeCalls::front_goes, crate::proofs::RangeCalls::front_once))]
    fn next(&mut self) -> Option<N::Addr> {
        AddrRange::nth(self, 0)
    }

    fn size_hint(&self) -> (usize, Option<usize>)
        ensures lower { IsWithinCount result.0 (item_count numbers self.now) }
        ensures upper { IfSome result.1 (UpTo (item_count numbers self.now)) }
        ensures exact { IsExactHint result (length (numbers self.now)) }
    {
        hint_numbers(self.start.to_bits(), self.end.to_bits())
    }
}

impl<N: AddressInt> DoubleEndedIterator for AddrRange<N> {
    ghost next_back_gives = { λ r a s. YieldsLastBy N.addr_number numbers r a s × (s ≡ after_back r) };

    #[tactic(auto, using(crate::proofs::RangeCalls::back_taken, crate::proofs::RangeCalls::back_goes, crate::proofs::RangeCalls::back_once))]
    fn next_back(&mut self) -> Option<N::Addr> {
        AddrRange::nth_back(self, 0)
    }
}
