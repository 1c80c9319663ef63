//! Inclusion of networks and addresses.
ghost use Rattle.std.specs.Prelude.{◌↔◌, IsTrue};
ghost use Rattle.ipnet_blocks.specs.Blocks.{HasAddress, IsInside};
ghost use Rattle.ipnet_blocks.specs.Networks.{block_of};

use crate::ip_net::IpNet;
use crate::networks::Net;
use ipnet_addr::bits::quotient;
use ipnet_addr::number::AddressInt;
use ipnet_blocks::contains::is_inside;
use std::net::IpAddr;

/// Whether a network contains all addresses of another network, or one address.
pub trait Contains<T> {
    ghost contained: { Self → T → Type 0 };

    /// Returns whether `other` is inside `self`: each address of a network, or the one address.
    ///
    /// # Examples
    /// For `narrow`, 10.1.0.0/16; `v4` parses a text:
    ///
    /// ```rust
    /// let all = v4(&rt, "0.0.0.0/0");
    /// is_equal(&rt, Contains::contains(&all, &narrow), true);
    /// ```
    fn contains(&self, other: T) -> bool
        ensures { IsTrue result ↔ contained self.now other };
}

/// Each address of `other` is an address of `self`.
impl<N: AddressInt> Contains<&Net<N>> for Net<N> {
    ghost contained = { λ n m. IsInside (block_of N.family m.now) (block_of N.family n) };

    fn contains(&self, other: &Net<N>) -> bool {
        is_inside(
            N::width(),
            other.number(),
            other.prefix_len(),
            self.number(),
            self.prefix_len(),
        )
    }
}

impl<N: AddressInt> Net<N> {
    // Whether the network contains the address.
    pub(crate) fn holds(&self, addr: N::Addr) -> bool
        ensures { IsTrue result ↔ HasAddress (block_of N.family self.now) (record { family = N.family; number = N.addr_number addr }) }
    {
        let free = N::width() - self.prefix_len();
        quotient(self.number(), free) == quotient(N::of_addr(addr).to_bits(), free)
    }
}

/// Each address of `other` is an address of `self`; false if the families differ.
impl Contains<&IpNet> for IpNet {
    ghost use Rattle.ipnet_blocks.specs.Blocks.{IsInside};
    ghost use Rattle.ipnet.specs.IpNets.{block};

    ghost contained = { λ n m. IsInside (block m.now) (block n) };

    fn contains(&self, other: &IpNet) -> bool {
        match (self, other) {
            (IpNet::V4(net), IpNet::V4(other)) => net.contains(other),
            (IpNet::V6(net), IpNet::V6(other)) => net.contains(other),
            (IpNet::V4(_), IpNet::V6(_)) => false,
            (IpNet::V6(_), IpNet::V4(_)) => false,
        }
    }
}

/// The network contains the address; false if the families differ.
impl Contains<&IpAddr> for IpNet {
    ghost use Rattle.ipnet_addr.specs.Addresses.{address_of};
    ghost use Rattle.ipnet_blocks.specs.Blocks.{HasAddress};
    ghost use Rattle.ipnet.specs.IpNets.{block};

    ghost contained = { λ n a. HasAddress (block n) (address_of a.now) };

    fn contains(&self, other: &IpAddr) -> bool {
        match (self, other) {
            (IpNet::V4(net), IpAddr::V4(addr)) => net.contains(addr),
            (IpNet::V6(net), IpAddr::V6(addr)) => net.contains(addr),
            _ => false,
        }
    }
}

impl<N: AddressInt> Net<N> {
    /// Returns whether the network contains `other`, a network or an address.
    ///
    /// # Examples
    /// `v6` parses a text:
    ///
    /// ```rust
    /// let wide = v6(&rt, "2001:db8::/32");
    /// let inside = v6(&rt, "2001:db8:1::/48");
    /// is_equal(&rt, wide.contains(&inside), true);
    /// is_equal(&rt, wide.contains(&v6(&rt, "2001:db9::/48")), false);
    /// is_equal(&rt, wide.contains(&inside.addr()), true);
    /// ```
    pub fn contains<T>(&self, other: T) -> bool
    where
        Net<N>: Contains<T>,
        ensures { IsTrue result ↔ ⟦<Net<N> as Contains<T>>⟧.contained self.now other }
    {
        Contains::contains(self, other)
    }
}

impl IpNet {
    /// Returns whether the network contains `other`, a network or an address; false if the families differ.
    ///
    /// # Examples
    /// For `wide`, 2001:db8::/32; `any` parses a text:
    ///
    /// ```rust
    /// let inside = any(&rt, "2001:db8:1::/48");
    /// is_equal(&rt, wide.contains(&inside), true);
    /// is_equal(&rt, wide.contains(&inside.addr()), true);
    /// is_equal(&rt, wide.contains(&any(&rt, "0.0.0.0/0")), false);
    /// ```
    pub fn contains<T>(&self, other: T) -> bool
    where
        IpNet: Contains<T>,
        ensures { IsTrue result ↔ ⟦<IpNet as Contains<T>>⟧.contained self.now other }
    {
        Contains::contains(self, other)
    }
}
