//! Subnet iterators: the largest blocks between two addresses, in order.
ghost use Rattle.std.specs.Prelude.{◌≡◌, ◌≤◌, ◌↔◌, ⊤, IsOk, IfOk};
ghost use Rattle.std.specs.Iterator.{YieldsFirst, item_count};
ghost use Rattle.ipnet_addr.specs.Addresses.{width};
ghost use Rattle.ipnet_addr.specs.IpRanges.{ends_of, family_of};
ghost use Rattle.ipnet_blocks.specs.Blocks.{first, last};
ghost use Rattle.ipnet_blocks.specs.Cuts.{AreLimits, AreSubnets, cut, subnets, after_first};
ghost use Rattle.ipnet_blocks.specs.Hosts.{host_ends};
ghost use Rattle.ipnet.specs.IpNets.{block, family, parts};
ghost use Rattle.ipnet.specs.IpSubnets.{ip_cut, ip_limits, ip_subnets, after_first_of, cut_family, cut_limits};
ghost use Rattle.ipnet_blocks.specs.Networks.{block_of};
ghost use Rattle.ipnet_blocks.specs.Maximal.{IsCut};

use crate::ip_net::IpNet;
use crate::networks::Net;
use ipnet_addr::mask::PrefixLenError;
use ipnet_addr::number::AddressInt;
use ipnet_addr::ranges::IpAddrRange;
use ipnet_blocks::cut::first_cut;
use std::alloc::AllocError;
use std::marker::Model;

/// The blocks between two addresses of one family whose length is at least a minimum and that no larger such block contains, ascending.
///
/// Contracts see an iterator as the numbers of its start and end, and the minimum. Iterators are ordered by start, end and minimum.
#[derive(Copy, Debug, PartialEq, Eq, PartialOrd, Ord, Hash)]
pub struct Subnets<N: AddressInt> {
    start: N,
    end: N,
    min_prefix_len: u8,
}

/// The blocks between two IPv4 addresses.
pub type Ipv4Subnets = Subnets<u32>;

/// The blocks between two IPv6 addresses.
///
/// # Examples
/// From `low()`, the address 0, to `high()`, the greatest address; `v6` parses a text:
///
/// ```rust
/// let mut all = Ipv6Subnets::new(low(), high(), 0);
/// is_equal(&rt, all.next(), Some(v6(&rt, "::/0")));
/// ```
pub type Ipv6Subnets = Subnets<u128>;

impl<N: AddressInt> Model for Subnets<N> {
    ghost use Rattle.ipnet_blocks.specs.Cuts.{Limits, AreLimits};

    ghost Value = { Limits };

    ghost view = { λ s. record { start = N.number s.start; end = N.number s.end; shortest = s.min_prefix_len } };

    ghost invariant = { λ s. AreLimits N.family (record { start = N.number s.start; end = N.number s.end; shortest = s.min_prefix_len }) };

    ghost inverse = { λ l. record { start = N.of_number l.start; end = N.of_number l.end; min_prefix_len = l.shortest } };

    ghost inverse_ok = { λ s h i. record { start = N.named s.start i; end = N.named s.end i; min_prefix_len = s.min_prefix_len } };
}

impl<N: AddressInt> Clone for Subnets<N> {
    ghost is_clone = { λ s t. t ≡ s };

    ghost is_infallible = { λ _. ⊤ };

    fn clone(&self) -> Result<Subnets<N>, AllocError> {
        Ok(*self)
    }
}

impl<N: AddressInt> Subnets<N> {
    /// The blocks from `start` to `end` of length at least `min_prefix_len`, which must be at most the width of the family. There are
    /// none if `start` is above `end`.
    ///
    /// # Examples
    /// `v4` parses a text:
    ///
    /// ```rust
    /// let mut blocks = Ipv4Subnets::new(Ipv4Addr::new(10, 0, 0, 0), Ipv4Addr::new(10, 0, 0, 5), 0);
    /// assert_eq!(rt; blocks.next(), Some(v4(&rt, "10.0.0.0/30")));
    /// assert_eq!(rt; blocks.next(), Some(v4(&rt, "10.0.0.4/31")));
    /// assert_eq!(rt; blocks.next(), None);
    /// ```
    pub fn new(start: N::Addr, end: N::Addr, min_prefix_len: u8) -> Subnets<N>
        requires { min_prefix_len ≤ width N.family }
        ensures limits { result ≡ record { start = N.addr_number start; end = N.addr_number end; shortest = min_prefix_len } }
        ensures fits { AreLimits N.family result }
        ensures blocks { IsCut N.family (N.addr_number start) (N.addr_number end) min_prefix_len (cut N.family result) }
    {
        let start = N::of_addr(start);
        let end = N::of_addr(end);
        let _in_range = (start.to_bits(), end.to_bits());
        Subnets {
            start,
            end,
            min_prefix_len,
        }
    }
}

/// After each block the iterator starts at the next address. If the block ends at the greatest address of the family, the start is this
/// address and the end is 0. The end is also 0 after a block of only the last address.
impl<N: AddressInt> Iterator for Subnets<N> {
    type Item = Net<N>;

    ghost next_gives = { λ s n t. YieldsFirst (subnets N.family) s n t × (t ≡ after_first (width N.family) s) };

    ghost remaining = { item_count (subnets N.family) };

    fn next(&mut self) -> Option<Net<N>> {
        let start = self.start.to_bits();
        let end = self.end.to_bits();
        if start > end {
            return None;
        }
        let addr = self.start.to_addr();
        let cut = first_cut(N::width(), start, end, self.min_prefix_len);
        self.start = N::from_bits(cut.start);
        self.end = N::from_bits(cut.end);
        Some(Net::new_assert(addr, cut.len))
    }
}

/// A subnet iterator of either family. Iterators are ordered by family, IPv4 first, then as those of the family.
#[derive(Clone, Copy, Debug, PartialEq, Eq, PartialOrd, Ord, Hash)]
pub enum IpSubnets {
    V4(Ipv4Subnets),
    V6(Ipv6Subnets),
}

/// The subnets of an IPv4 iterator.
impl From<Ipv4Subnets> for IpSubnets {
    ghost use Rattle.ipnet.specs.declared.subnets.IpSubnets.TheVariants.{V4};

    ghost from_gives = { λ s t. t ≡ V4 s };

    fn from(subnets: Ipv4Subnets) -> IpSubnets {
        IpSubnets::V4(subnets)
    }
}

/// The subnets of an IPv6 iterator.
impl From<Ipv6Subnets> for IpSubnets {
    ghost use Rattle.ipnet.specs.declared.subnets.IpSubnets.TheVariants.{V6};

    ghost from_gives = { λ s t. t ≡ V6 s };

    fn from(subnets: Ipv6Subnets) -> IpSubnets {
        IpSubnets::V6(subnets)
    }
}

impl Iterator for IpSubnets {
    type Item = IpNet;

    ghost next_gives = { λ s n t. YieldsFirst ip_subnets s n t × (t ≡ after_first_of s) };

    ghost remaining = { item_count ip_subnets };

    fn next(&mut self) -> Option<IpNet> {
        match self {
            IpSubnets::V4(subnets) => Some(IpNet::V4(subnets.next()?)),
            IpSubnets::V6(subnets) => Some(IpNet::V6(subnets.next()?)),
        }
    }
}

impl<N: AddressInt> Net<N> {
    /// Returns the networks of this prefix length inside the network, in ascending order.
    ///
    /// # Errors
    /// - `PrefixLenError`: exactly if `new_prefix_len` is below the network's own length or above the width of the family.
    ///
    /// # Examples
    /// For `net`, 10.0.0.0/8; `v4` parses a text:
    ///
    /// ```rust
    /// assert_eq!(rt; net.subnets(33), Err(PrefixLenError));
    /// let mut halves = net.subnets(9).expect(&rt, "halves");
    /// assert_eq!(rt; halves.next(), Some(v4(&rt, "10.0.0.0/9")));
    /// assert_eq!(rt; halves.next(), Some(v4(&rt, "10.128.0.0/9")));
    /// assert_eq!(rt; halves.next(), None);
    /// ```
    pub fn subnets(&self, new_prefix_len: u8) -> Result<Subnets<N>, PrefixLenError>
        ensures variant { IsOk result ↔ ((self.now.len ≤ new_prefix_len) × (new_prefix_len ≤ width N.family)) }
        ensures limits { IfOk result (λ s. s ≡ record { start = first (block_of N.family self.now); end = last (block_of N.family self.now); shortest = new_prefix_len }) }
        ensures fits { IfOk result (AreLimits N.family) }
        ensures blocks { IfOk result (λ s. AreSubnets (block_of N.family self.now) new_prefix_len (cut N.family s)) }
    {
        if new_prefix_len < self.prefix_len() || new_prefix_len > N::width() {
            return Err(PrefixLenError);
        }
        Ok(Subnets::new(self.network(), self.broadcast(), new_prefix_len))
    }
}

impl IpNet {
    /// Returns the addresses of the hosts: all but `network` and `broadcast` for IPv4 below length 31, and else all.
    ///
    /// # Examples
    /// `any` parses a text:
    ///
    /// ```rust
    /// let four = any(&rt, "::4/126").hosts();
    /// is_equal(&rt, four.size_hint(), (4, Some(4)));
    /// ```
    pub fn hosts(&self) -> IpAddrRange
        ensures family { family_of result ≡ family self.now }
        ensures ends { ends_of result ≡ host_ends (block self.now) }
    {
        match self {
            IpNet::V4(network) => IpAddrRange::V4(network.hosts()),
            IpNet::V6(network) => IpAddrRange::V6(network.hosts()),
        }
    }

    /// Returns the networks of this prefix length inside the network, in ascending order.
    ///
    /// # Errors
    /// - `PrefixLenError`: exactly if `new_prefix_len` is below the network's own length or above the width of its family.
    ///
    /// # Examples
    /// `any` parses a text:
    ///
    /// ```rust
    /// let mut halves = any(&rt, "2001:db8::/32").subnets(33).expect(&rt, "halves");
    /// assert_eq!(rt; halves.next(), Some(any(&rt, "2001:db8::/33")));
    /// assert_eq!(rt; halves.next(), Some(any(&rt, "2001:db8:8000::/33")));
    /// ```
    pub fn subnets(&self, new_prefix_len: u8) -> Result<IpSubnets, PrefixLenError>
        ensures variant { IsOk result ↔ (((parts self.now).len ≤ new_prefix_len) × (new_prefix_len ≤ width (family self.now))) }
        ensures limits { IfOk result (λ s. s ≡ ip_limits (family self.now) (record { start = first (block self.now); end = last (block self.now); shortest = new_prefix_len })) }
        ensures fits { IfOk result (λ s. AreLimits (cut_family s) (cut_limits s)) }
        ensures blocks { IfOk result (λ s. AreSubnets (block self.now) new_prefix_len (ip_cut s)) }
    {
        match self {
            IpNet::V4(network) => Ok(IpSubnets::V4(network.subnets(new_prefix_len)?)),
            IpNet::V6(network) => Ok(IpSubnets::V6(network.subnets(new_prefix_len)?)),
        }
    }
}
