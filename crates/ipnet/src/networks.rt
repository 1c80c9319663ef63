//! Networks of one family: an address with its host bits, and a prefix length.
ghost use Rattle.std.specs.Prelude.{◌≡◌, ℕ, ◌-◌, ◌^◌, ◌<◌, ◌≤◌, ◌↔◌, ⊤, IsTrue, IsOk, IfOk, MatchOption, MatchResult};
ghost use Rattle.ipnet_addr.specs.Addresses.{width};
ghost use Rattle.ipnet_addr.specs.Masks.{IsMask};
ghost use Rattle.ipnet_blocks.specs.Blocks.{AreSiblings, first, last, parent};
ghost use Rattle.ipnet_blocks.specs.Networks.{IsNetwork, block_of, net_of};

use crate::contains::Contains;
use ipnet_addr::bits::{cleared, filled, ones};
use ipnet_addr::mask::{PrefixLenError, mask_number, mask_to_prefix};
use ipnet_addr::number::AddressInt;
use std::alloc::AllocError;
use std::marker::Model;

/// A network of one family: an address with its host bits, and a prefix length of at most the width of the family.
///
/// Contracts see a network as the number of its address and its length. Its addresses are those that begin with the first `prefix_len`
/// bits of its own address. Networks are ordered by address, then by length.
#[derive(Copy, PartialEq, Eq, PartialOrd, Ord, Hash)]
pub struct Net<N: AddressInt> {
    number: N,
    len: u8,
}

/// An IPv4 network: an address, host bits kept, and a prefix length of at most 32.
///
/// # Examples
/// ```rust
/// let net: Ipv4Net = "10.1.2.3/16".parse().expect(&rt, "a network");
/// assert_eq!(rt; net.network(), Ipv4Addr::new(10, 1, 0, 0));
/// assert!(rt; net.contains(&Ipv4Addr::new(10, 1, 255, 255)));
/// ```
pub type Ipv4Net = Net<u32>;

/// An IPv6 network: an address, host bits kept, and a prefix length of at most 128.
///
/// # Examples
/// `v6` parses a text:
///
/// ```rust
/// let net = v6(&rt, "2001:db8::1/32");
/// let same = Ipv6Net::new(net.addr(), 32).expect(&rt, "an IPv6 network");
/// is_equal(&rt, net, same);
/// ```
pub type Ipv6Net = Net<u128>;

impl<N: AddressInt> Model for Net<N> {
    ghost use Rattle.ipnet_blocks.specs.Networks.{Network, IsNetwork};

    ghost Value = { Network };

    ghost view = { λ n. record { number = N.number n.number; len = n.len } };

    ghost invariant = { λ n. IsNetwork N.family (record { number = N.number n.number; len = n.len }) };

    ghost inverse = { λ v. record { number = N.of_number v.number; len = v.len } };

    ghost inverse_ok = { λ n h i. record { number = N.named n.number i; len = n.len } };
}

impl<N: AddressInt> Clone for Net<N> {
    ghost is_clone = { λ n m. m ≡ n };

    ghost is_infallible = { λ _. ⊤ };

    fn clone(&self) -> Result<Net<N>, AllocError> {
        Ok(*self)
    }
}

impl<N: AddressInt> Net<N> {
    /// Makes the network of this address and prefix length; host bits are kept.
    ///
    /// # Errors
    /// - `PrefixLenError`: exactly if `prefix_len` is above the width of the family, 32 or 128.
    ///
    /// # Examples
    /// For `net`, 10.1.2.3/16:
    ///
    /// ```rust
    /// assert_eq!(rt; Ipv4Net::new(net.addr(), 16), Ok(net));
    /// assert_eq!(rt; Ipv4Net::new(net.addr(), 33), Err(PrefixLenError));
    /// ```
    pub fn new(addr: N::Addr, prefix_len: u8) -> Result<Net<N>, PrefixLenError>
        ensures variant { IsOk result ↔ (prefix_len ≤ width N.family) }
        ensures parts { IfOk result (λ n. n ≡ record { number = N.addr_number addr; len = prefix_len }) }
    {
        if prefix_len > N::width() {
            return Err(PrefixLenError);
        }
        Ok(Net::new_assert(addr, prefix_len))
    }

    /// Makes the network of this address and prefix length, which must be at most the width of the family; host bits are kept.
    ///
    /// # Examples
    /// For `addr`, 10.1.2.3:
    ///
    /// ```rust
    /// is_equal(&rt, Ipv4Net::from(addr), Ipv4Net::new_assert(addr, 32));
    /// ```
    pub fn new_assert(addr: N::Addr, prefix_len: u8) -> Net<N>
        requires { prefix_len ≤ width N.family }
        ensures { result ≡ record { number = N.addr_number addr; len = prefix_len } }
    {
        let number = N::of_addr(addr);
        let _in_range = number.to_bits();
        Net {
            number,
            len: prefix_len,
        }
    }

    /// Makes the network of this address; its prefix length is the number of ones of the mask, and host bits are kept.
    ///
    /// # Errors
    /// - `PrefixLenError`: exactly if the mask isn't ones followed by zeros.
    ///
    /// # Examples
    /// For `net`, 10.1.2.3/16:
    ///
    /// ```rust
    /// let masked = Ipv4Net::with_netmask(net.addr(), Ipv4Addr::new(255, 255, 0, 0));
    /// assert_eq!(rt; masked, Ok(net));
    /// ```
    pub fn with_netmask(addr: N::Addr, netmask: N::Addr) -> Result<Net<N>, PrefixLenError>
        ensures { MatchResult result
            (λ n. (n.number ≡ N.addr_number addr) × IsMask (record { family = N.family; number = N.addr_number netmask }) n.len)
            (λ _. (len : ℕ) → IsMask (record { family = N.family; number = N.addr_number netmask }) len → ⊥) }
    {
        Ok(Net::new_assert(addr, mask_to_prefix::<N>(netmask)?))
    }

    /// Returns the address of the network, with its host bits.
    ///
    /// # Examples
    /// `made` calls `new`:
    ///
    /// ```rust
    /// let addr = Ipv4Addr::new(10, 1, 2, 3);
    /// let net = made(&rt, addr, 16);
    /// is_equal(&rt, net.addr(), addr);
    /// ```
    pub fn addr(&self) -> N::Addr
        ensures value { N.addr_number result ≡ self.now.number }
        ensures within { self.now.number < 2 ^ width N.family }
    {
        self.number.to_addr()
    }

    // The number of the network's address.
    pub(crate) fn number(&self) -> u128
        ensures value { result ≡ self.now.number }
        ensures within { result < 2 ^ width N.family }
    {
        self.number.to_bits()
    }

    /// Returns the prefix length, from 0 to the width of the family.
    ///
    /// # Examples
    /// For `net`, 10.1.2.3/16:
    ///
    /// ```rust
    /// is_equal(&rt, net.prefix_len(), 16);
    /// ```
    pub fn prefix_len(&self) -> u8
        ensures value { result ≡ self.now.len }
        ensures within { result ≤ width N.family }
    {
        self.len
    }

    /// Returns the greatest prefix length of the family, 32 or 128.
    ///
    /// # Examples
    /// For `net`, 10.1.2.3/16:
    ///
    /// ```rust
    /// is_equal(&rt, net.max_prefix_len(), 32);
    /// ```
    pub fn max_prefix_len(&self) -> u8
        ensures { result ≡ width N.family }
    {
        N::width()
    }

    /// Returns the netmask: a one for each bit of the prefix, then zeros.
    ///
    /// # Examples
    /// For `net`, 10.1.2.3/16:
    ///
    /// ```rust
    /// is_equal(&rt, net.netmask(), Ipv4Addr::new(255, 255, 0, 0));
    /// ```
    pub fn netmask(&self) -> N::Addr
        ensures { IsMask (record { family = N.family; number = N.addr_number result }) self.now.len }
    {
        N::from_bits(mask_number(N::width(), self.len)).to_addr()
    }

    /// Returns the complement of the netmask: zeros, then a one for each host bit.
    ///
    /// # Examples
    /// For `net`, 10.1.2.3/16:
    ///
    /// ```rust
    /// is_equal(&rt, net.hostmask(), Ipv4Addr::new(0, 0, 255, 255));
    /// ```
    pub fn hostmask(&self) -> N::Addr
        ensures { N.addr_number result ≡ 2 ^ (width N.family - self.now.len) - 1 }
    {
        N::from_bits(ones(N::width() - self.len)).to_addr()
    }

    /// Returns the least address of the network.
    ///
    /// # Examples
    /// For `net`, 10.1.2.3/16:
    ///
    /// ```rust
    /// is_equal(&rt, net.network(), Ipv4Addr::new(10, 1, 0, 0));
    /// ```
    pub fn network(&self) -> N::Addr
        ensures { N.addr_number result ≡ first (block_of N.family self.now) }
    {
        self.trunc().number.to_addr()
    }

    /// Returns the greatest address of the network.
    ///
    /// # Examples
    /// For `net`, 10.1.2.3/16:
    ///
    /// ```rust
    /// is_equal(&rt, net.broadcast(), Ipv4Addr::new(10, 1, 255, 255));
    /// ```
    pub fn broadcast(&self) -> N::Addr
        ensures { N.addr_number result ≡ last (block_of N.family self.now) }
    {
        N::from_bits(filled(self.number.to_bits(), N::width() - self.len)).to_addr()
    }

    /// Returns the network without its host bits; it has the same addresses.
    ///
    /// # Examples
    /// For `net`, 10.1.2.3/16; `made` calls `new`:
    ///
    /// ```rust
    /// is_equal(&rt, net.trunc(), made(&rt, Ipv4Addr::new(10, 1, 0, 0), 16));
    /// ```
    pub fn trunc(&self) -> Net<N>
        ensures value { result ≡ net_of (block_of N.family self.now) }
        ensures network { IsNetwork N.family self.now }
    {
        Net {
            number: N::from_bits(cleared(self.number.to_bits(), N::width() - self.len)),
            len: self.len,
        }
    }

    /// Returns the containing network that is one bit shorter, without host bits, or `None` exactly if the length is 0.
    ///
    /// # Examples
    /// `v4` parses a text:
    ///
    /// ```rust
    /// let half = v4(&rt, "10.200.0.1/9");
    /// is_equal(&rt, half.supernet(), Some(v4(&rt, "10.0.0.0/8")));
    /// is_equal(&rt, Ipv4Net::default().supernet(), None);
    /// ```
    pub fn supernet(&self) -> Option<Net<N>>
        ensures { MatchOption result (self.now.len ≡ 0) (λ n. (0 < self.now.len) × (n ≡ net_of (parent (block_of N.family self.now)))) }
    {
        if self.len == 0 {
            return None;
        }
        let len = self.len - 1;
        Some(Net {
            number: N::from_bits(cleared(self.number.to_bits(), N::width() - len)),
            len,
        })
    }

    /// Returns whether the networks have the same length above 0 and the same supernet.
    ///
    /// # Examples
    /// For `half`, 10.200.0.1/9; `v4` parses a text:
    ///
    /// ```rust
    /// is_equal(&rt, half.is_sibling(&v4(&rt, "10.0.0.0/9")), true);
    /// is_equal(&rt, half.is_sibling(&v4(&rt, "11.0.0.0/9")), false);
    /// ```
    pub fn is_sibling(&self, other: &Net<N>) -> bool
        ensures { IsTrue result ↔ AreSiblings (block_of N.family self.now) (block_of N.family other.now) }
    {
        match self.supernet() {
            Some(parent) => self.prefix_len() == other.prefix_len() && parent.contains(other),
            None => false,
        }
    }
}

/// The default is the whole family, `0.0.0.0/0` or `::/0`.
///
/// # Examples
/// ```rust
/// let greatest = Ipv6Addr::from_bits(u128::MAX);
/// is_equal(&rt, Ipv6Net::default().broadcast(), greatest);
/// ```
impl<N: AddressInt> Default for Net<N> {
    ghost is_default = { λ n. n ≡ record { number = 0; len = 0 } };

    fn default() -> Net<N> {
        Net {
            number: N::from_bits(0),
            len: 0,
        }
    }
}
