//! The network types of the two families.
ghost use Rattle.std.specs.Prelude.{◌≡◌, List, Bool, IsTrue, length, refl};
ghost use Rattle.ipnet_addr.specs.Addresses.{Family, Ipv4, Ipv6, width};
ghost use Rattle.ipnet_blocks.specs.Blocks.{bit_string, first, last};
ghost use Rattle.ipnet_blocks.specs.Networks.{Network, block_of};
ghost use Rattle.ipnet.specs.IpNets.{net_in};
ghost use Rattle.trie_core.specs.Bits.{number_from};

use ipnet::{IpNet, Ipv4Net, Ipv6Net};
use prefix_trie::Prefix;

/// The networks of one family, as keys of a trie.
pub(crate) trait FamilyNet: Prefix + Copy + Drop {
    ghost family: { Family };

    /// The number of a network's address, and its length.
    ghost parts: { Self → Network };

    /// Returns the same network as one of either family.
    fn ip_net(self) -> IpNet
        ensures { result ≡ net_in family (parts self) };

    /// Returns the number of the network's least address.
    fn first_key(self) -> Self::R
        ensures { Self.R.number result ≡ first (block_of family (parts self)) };

    /// Returns the number of the network's greatest address.
    fn last_key(self) -> Self::R
        ensures { Self.R.number result ≡ last (block_of family (parts self)) };

    ghost width_is: { Self.R.width ≡ width family };

    ghost always_fits: { (n : Self) → IsTrue (Self.fits n) };

    ghost bits_are: { (n : Self) → Self.bits n ≡ bit_string (block_of family (parts n)) };

    ghost parts_are: { (s : List Bool) → parts (Self.of_bits s) ≡ record { number = number_from (width family) s; len = length s } };
}

impl FamilyNet for Ipv4Net {
    ghost family = { Ipv4 };

    ghost parts = { λ n. n };

    ghost width_is = { refl };

    ghost always_fits = { λ n. refl };

    ghost bits_are = { λ n. refl };

    ghost parts_are = { λ s. refl };

    fn ip_net(self) -> IpNet {
        IpNet::V4(self)
    }

    #[inline]
    fn first_key(self) -> u32 {
        self.network().to_bits()
    }

    #[inline]
    fn last_key(self) -> u32 {
        self.broadcast().to_bits()
    }
}

impl FamilyNet for Ipv6Net {
    ghost family = { Ipv6 };

    ghost parts = { λ n. n };

    ghost width_is = { refl };

    ghost always_fits = { λ n. refl };

    ghost bits_are = { λ n. refl };

    ghost parts_are = { λ s. refl };

    fn ip_net(self) -> IpNet {
        IpNet::V6(self)
    }

    #[inline]
    fn first_key(self) -> u128 {
        self.network().to_bits()
    }

    #[inline]
    fn last_key(self) -> u128 {
        self.broadcast().to_bits()
    }
}
