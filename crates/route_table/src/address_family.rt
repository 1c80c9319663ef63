//! Address families.
ghost use Rattle.std.specs.Prelude.{◌≡◌};
ghost use Rattle.ipnet.specs.IpNets.{family};
ghost use Rattle.route_table.specs.InnerFamilies.{family_of};

use ipnet::IpNet;

/// An address family.
#[derive(Clone, Copy)]
pub(crate) enum AddressFamily {
    V4,
    V6,
}

impl AddressFamily {
    /// The family of a network.
    pub(crate) fn of(net: &IpNet) -> AddressFamily
        ensures { family_of result ≡ family net.now }
    {
        match net {
            IpNet::V4(_) => AddressFamily::V4,
            IpNet::V6(_) => AddressFamily::V6,
        }
    }
}
