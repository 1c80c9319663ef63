//! Networks of either family.
ghost use Rattle.std.specs.Prelude.{◌≡◌, ℕ, ◌-◌, ◌^◌, ◌<◌, ◌≤◌, ◌↔◌, IsTrue, IsOk, IfOk, MatchOption, MatchResult};
ghost use Rattle.ipnet_addr.specs.Addresses.{address_of, width};
ghost use Rattle.ipnet_addr.specs.Masks.{IsMask};
ghost use Rattle.ipnet_blocks.specs.Blocks.{AreSiblings, first, last, parent};
ghost use Rattle.ipnet_blocks.specs.Networks.{IsNetwork, net_of};
ghost use Rattle.ipnet.specs.IpNets.{family, parts, block, net_in};

use crate::networks::{Ipv4Net, Ipv6Net};
use ipnet_addr::mask::{PrefixLenError, ip_mask_to_prefix};
use std::net::{IpAddr, Ipv4Addr, Ipv6Addr};

/// A network of either family. IPv4 networks are ordered before IPv6 networks.
///
/// # Examples
/// `any` parses a text:
///
/// ```rust
/// let greatest = any(&rt, "255.255.255.255/32");
/// is_equal(&rt, greatest < any(&rt, "::/0"), true);
/// ```
#[derive(Clone, Copy, PartialEq, Eq, PartialOrd, Ord, Hash)]
pub enum IpNet {
    /// An IPv4 network.
    V4(Ipv4Net),
    /// An IPv6 network.
    V6(Ipv6Net),
}

impl IpNet {
    /// Makes the network of this address and prefix length; host bits are kept.
    ///
    /// # Errors
    /// - `PrefixLenError`: exactly if `prefix_len` is above the width of the address, 32 or 128.
    ///
    /// # Examples
    /// ```rust
    /// let host = IpAddr::V4(Ipv4Addr::LOCALHOST);
    /// is_equal(&rt, IpNet::new(host, 64).is_err(), true);
    /// ```
    pub fn new(addr: IpAddr, prefix_len: u8) -> Result<IpNet, PrefixLenError>
        ensures variant { IsOk result ↔ (prefix_len ≤ width (address_of addr).family) }
        ensures parts { IfOk result (λ n. n ≡ net_in (address_of addr).family (record { number = (address_of addr).number; len = prefix_len })) }
    {
        match addr {
            IpAddr::V4(addr) => Ok(IpNet::V4(Ipv4Net::new(addr, prefix_len)?)),
            IpAddr::V6(addr) => Ok(IpNet::V6(Ipv6Net::new(addr, prefix_len)?)),
        }
    }

    /// Makes the network of this address and prefix length, which must be at most the width of the address; host bits are kept.
    ///
    /// # Examples
    /// For each network `net`:
    ///
    /// ```rust
    /// is_equal(rt, IpNet::new_assert(net.addr(), net.prefix_len()), net);
    /// ```
    pub fn new_assert(addr: IpAddr, prefix_len: u8) -> IpNet
        requires { prefix_len ≤ width (address_of addr).family }
        ensures { result ≡ net_in (address_of addr).family (record { number = (address_of addr).number; len = prefix_len }) }
    {
        match addr {
            IpAddr::V4(addr) => IpNet::V4(Ipv4Net::new_assert(addr, prefix_len)),
            IpAddr::V6(addr) => IpNet::V6(Ipv6Net::new_assert(addr, prefix_len)),
        }
    }

    /// Makes the network of this address; its prefix length is the number of ones of the mask, and host bits are kept. The mask may be
    /// of the other family, as in the Rust crate ipnet 2.12.2.
    ///
    /// # Errors
    /// - `PrefixLenError`: exactly if the mask isn't ones followed by zeros, or has more ones than the address has bits.
    ///
    /// # Examples
    /// For `net`, 2001:db8::1/32:
    ///
    /// ```rust
    /// let masked = IpNet::with_netmask(net.addr(), net.netmask());
    /// is_equal(&rt, masked.expect(&rt, "a network"), net);
    /// ```
    pub fn with_netmask(addr: IpAddr, netmask: IpAddr) -> Result<IpNet, PrefixLenError>
        ensures { MatchResult result
            (λ n. (family n ≡ (address_of addr).family) × ((parts n).number ≡ (address_of addr).number) × IsMask (address_of netmask) (parts n).len)
            (λ _. (len : ℕ) → IsMask (address_of netmask) len → width (address_of addr).family < len) }
    {
        match ip_mask_to_prefix(netmask) {
            Ok(len) => IpNet::new(addr, len),
            Err(error) => Err(error),
        }
    }

    /// Returns the address of the network, with its host bits.
    ///
    /// # Examples
    /// For each network `net`:
    ///
    /// ```rust
    /// let made = IpNet::new(net.addr(), net.prefix_len());
    /// is_equal(rt, made.expect(rt, "a network"), net);
    /// ```
    pub fn addr(&self) -> IpAddr
        ensures family { (address_of result).family ≡ family self.now }
        ensures number { (address_of result).number ≡ (parts self.now).number }
    {
        match self {
            IpNet::V4(net) => IpAddr::V4(net.addr()),
            IpNet::V6(net) => IpAddr::V6(net.addr()),
        }
    }

    /// Returns the prefix length, from 0 to the width of the family.
    pub fn prefix_len(&self) -> u8
        ensures value { result ≡ (parts self.now).len }
        ensures within { result ≤ width (family self.now) }
    {
        match self {
            IpNet::V4(net) => net.prefix_len(),
            IpNet::V6(net) => net.prefix_len(),
        }
    }

    /// Returns the greatest prefix length of the family, 32 or 128.
    ///
    /// # Examples
    /// For `net`, 2001:db8::1/32:
    ///
    /// ```rust
    /// is_equal(&rt, net.max_prefix_len(), 128);
    /// ```
    pub fn max_prefix_len(&self) -> u8
        ensures { result ≡ width (family self.now) }
    {
        match self {
            IpNet::V4(net) => net.max_prefix_len(),
            IpNet::V6(net) => net.max_prefix_len(),
        }
    }

    /// Returns the netmask: a one for each bit of the prefix, then zeros.
    pub fn netmask(&self) -> IpAddr
        ensures family { (address_of result).family ≡ family self.now }
        ensures mask { IsMask (address_of result) (parts self.now).len }
    {
        match self {
            IpNet::V4(net) => IpAddr::V4(net.netmask()),
            IpNet::V6(net) => IpAddr::V6(net.netmask()),
        }
    }

    /// Returns the complement of the netmask: zeros, then a one for each host bit.
    pub fn hostmask(&self) -> IpAddr
        ensures family { (address_of result).family ≡ family self.now }
        ensures number { (address_of result).number ≡ 2 ^ (width (family self.now) - (parts self.now).len) - 1 }
    {
        match self {
            IpNet::V4(net) => IpAddr::V4(net.hostmask()),
            IpNet::V6(net) => IpAddr::V6(net.hostmask()),
        }
    }

    /// Returns the least address of the network.
    pub fn network(&self) -> IpAddr
        ensures family { (address_of result).family ≡ family self.now }
        ensures number { (address_of result).number ≡ first (block self.now) }
    {
        match self {
            IpNet::V4(net) => IpAddr::V4(net.network()),
            IpNet::V6(net) => IpAddr::V6(net.network()),
        }
    }

    /// Returns the greatest address of the network.
    pub fn broadcast(&self) -> IpAddr
        ensures family { (address_of result).family ≡ family self.now }
        ensures number { (address_of result).number ≡ last (block self.now) }
    {
        match self {
            IpNet::V4(net) => IpAddr::V4(net.broadcast()),
            IpNet::V6(net) => IpAddr::V6(net.broadcast()),
        }
    }

    /// Returns the network without its host bits; it has the same addresses.
    ///
    /// # Examples
    /// For `half`, 8000::/1; `any` parses a text:
    ///
    /// ```rust
    /// is_equal(&rt, any(&rt, "8000::1/1").trunc(), half);
    /// ```
    pub fn trunc(&self) -> IpNet
        ensures value { result ≡ net_in (family self.now) (net_of (block self.now)) }
        ensures network { IsNetwork (family self.now) (parts self.now) }
    {
        match self {
            IpNet::V4(net) => IpNet::V4(net.trunc()),
            IpNet::V6(net) => IpNet::V6(net.trunc()),
        }
    }

    /// Returns the containing network that is one bit shorter, without host bits, or `None` exactly if the length is 0.
    ///
    /// # Examples
    /// `any` parses a text:
    ///
    /// ```rust
    /// let half = any(&rt, "8000::/1");
    /// is_equal(&rt, half.supernet(), Some(any(&rt, "::/0")));
    /// ```
    pub fn supernet(&self) -> Option<IpNet>
        ensures { MatchOption result ((parts self.now).len ≡ 0) (λ n. (0 < (parts self.now).len) × (n ≡ net_in (family self.now) (net_of (parent (block self.now))))) }
    {
        match self {
            IpNet::V4(net) => Some(IpNet::V4(net.supernet()?)),
            IpNet::V6(net) => Some(IpNet::V6(net.supernet()?)),
        }
    }

    /// Returns whether the networks have the same family, the same length above 0, and the same supernet.
    ///
    /// # Examples
    /// For `half`, 8000::/1; `any` parses a text:
    ///
    /// ```rust
    /// is_equal(&rt, half.is_sibling(&any(&rt, "::/1")), true);
    /// is_equal(&rt, half.is_sibling(&any(&rt, "0.0.0.0/1")), false);
    /// ```
    pub fn is_sibling(&self, other: &IpNet) -> bool
        ensures { IsTrue result ↔ AreSiblings (block self.now) (block other.now) }
    {
        match (self, other) {
            (IpNet::V4(net), IpNet::V4(other)) => net.is_sibling(other),
            (IpNet::V6(net), IpNet::V6(other)) => net.is_sibling(other),
            (IpNet::V4(_), IpNet::V6(_)) => false,
            (IpNet::V6(_), IpNet::V4(_)) => false,
        }
    }
}

/// The default is all of IPv4, `0.0.0.0/0`.
///
/// # Examples
/// ```rust
/// is_equal(&rt, IpNet::default(), IpNet::from(Ipv4Net::default()));
/// ```
impl Default for IpNet {
    ghost use Rattle.std.specs.Prelude.{◌≡◌};
    ghost use Rattle.ipnet_addr.specs.Addresses.{Ipv4};
    ghost use Rattle.ipnet.specs.IpNets.{net_in};

    ghost is_default = { λ n. n ≡ net_in Ipv4 (record { number = 0; len = 0 }) };

    fn default() -> IpNet {
        IpNet::V4(Ipv4Net::default())
    }
}

/// The network of this address alone.
impl From<IpAddr> for IpNet {
    ghost use Rattle.std.specs.Prelude.{◌≡◌};
    ghost use Rattle.ipnet_addr.specs.Addresses.{address_of, width};
    ghost use Rattle.ipnet.specs.IpNets.{net_in};

    ghost from_gives = { λ a n. n ≡ net_in (address_of a).family (record { number = (address_of a).number; len = width (address_of a).family }) };

    fn from(addr: IpAddr) -> IpNet {
        match addr {
            IpAddr::V4(addr) => IpNet::V4(addr.into()),
            IpAddr::V6(addr) => IpNet::V6(addr.into()),
        }
    }
}

/// The same network, as one of either family.
impl From<Ipv4Net> for IpNet {
    ghost use Rattle.std.specs.Prelude.{◌≡◌};
    ghost use Rattle.ipnet_addr.specs.Addresses.{Ipv4};
    ghost use Rattle.ipnet.specs.IpNets.{net_in};

    ghost from_gives = { λ n m. m ≡ net_in Ipv4 n };

    fn from(net: Ipv4Net) -> IpNet {
        IpNet::V4(net)
    }
}

/// The same network, as one of either family.
///
/// # Examples
/// `v6` and `any` parse texts:
///
/// ```rust
/// let wide = IpNet::from(v6(&rt, "2001:db8::/32"));
/// let inside = any(&rt, "2001:db8:1::/48");
/// is_equal(&rt, wide.contains(&inside), true);
/// ```
impl From<Ipv6Net> for IpNet {
    ghost use Rattle.std.specs.Prelude.{◌≡◌};
    ghost use Rattle.ipnet_addr.specs.Addresses.{Ipv6};
    ghost use Rattle.ipnet.specs.IpNets.{net_in};

    ghost from_gives = { λ n m. m ≡ net_in Ipv6 n };

    fn from(net: Ipv6Net) -> IpNet {
        IpNet::V6(net)
    }
}
