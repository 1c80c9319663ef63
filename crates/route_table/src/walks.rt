//! The number of stored networks, and walks over their best routes.
ghost use Rattle.std.specs.Prelude.{◌≡◌};
ghost use Rattle.ipnet_addr.specs.Addresses.{Ipv4, Ipv6};
ghost use Rattle.ipnet.specs.IpNets.{block};
ghost use Rattle.route_laws.specs.Onwards.{count_of, routes_after, routes_from};
ghost use Rattle.route_laws.specs.Networks.{routes_of};
ghost use Rattle.route_laws.specs.Tables.{IsTable, covering};
ghost use Rattle.route_table.specs.Given.{AreFamilies, AreRoutes};

use crate::family_routes::FamilyRoutes;
use crate::hop_table::HopTable;
use crate::routes::Routes;
use crate::table::{RouteTable, Table, cleared};
use ipnet::{IpNet, Ipv4Net, Ipv6Net};

impl<const CAPACITY: usize> Table<CAPACITY> {
    /// Returns the number of stored networks of IPv4 and of IPv6. Does not allocate.
    ///
    /// # Examples
    /// If two networks of IPv4 are stored, and none of IPv6:
    ///
    /// ```rust
    /// assert_eq!(rt; table.count(), (2, 0));
    /// ```
    pub fn count(&self) -> (usize, usize)
        ensures counts { result ≡ (count_of Ipv4 (routes_of self.now), count_of Ipv6 (routes_of self.now)) }
        ensures table { IsTable (routes_of self.now) }
    {
        (self.v4.count(), self.v6.count())
    }
}

impl RouteTable {
    /// Returns the best routes of the stored networks that contain this one, itself included, shortest first. Does not allocate.
    ///
    /// # Examples
    /// If `wide`, 10.0.0.0/8, has the hop 1, and is the shortest stored network that contains `host`:
    ///
    /// ```rust
    /// let shortest = table.cover(&host).next();
    /// assert_eq!(rt; shortest, Some((wide, Hop::Number(1), 100)));
    /// ```
    pub fn cover(&self, net: &IpNet) -> Routes<'_>
        ensures { AreRoutes (routes_of self.now) (covering (routes_of self.now) (block net.now)) result }
    {
        match cleared(net) {
            IpNet::V4(net) => Routes::v4(self.v4.cover(net)),
            IpNet::V6(net) => Routes::v6(self.v6.cover(net)),
        }
    }

    /// Returns the best routes of the family's stored networks from this one on, ascending: its own, those of networks inside it, and all
    /// later ones. This network need not be stored. Does not allocate.
    ///
    /// # Examples
    /// If `wide`, 10.0.0.0/8, has the hop 1:
    ///
    /// ```rust
    /// let here = table.from(&wide).next();
    /// assert_eq!(rt; here, Some((wide, Hop::Number(1), 100)));
    /// ```
    pub fn from(&self, net: &IpNet) -> Routes<'_>
        ensures { AreRoutes (routes_of self.now) (routes_from (routes_of self.now) (block net.now)) result }
    {
        match cleared(net) {
            IpNet::V4(net) => Routes::v4(self.v4.onwards(net, true)),
            IpNet::V6(net) => Routes::v6(self.v6.onwards(net, true)),
        }
    }

    /// Returns the best routes of the family's stored networks after this one, ascending; networks inside it come after it. This network
    /// need not be stored. Does not allocate.
    ///
    /// # Examples
    /// If `wide`, 10.0.0.0/8, has the hop 1, and `half`, 10.0.0.0/9, the hop 2:
    ///
    /// ```rust
    /// let later = table.after(&wide).next();
    /// assert_eq!(rt; later, Some((half, Hop::Number(2), 100)));
    /// ```
    pub fn after(&self, net: &IpNet) -> Routes<'_>
        ensures { AreRoutes (routes_of self.now) (routes_after (routes_of self.now) (block net.now)) result }
    {
        match cleared(net) {
            IpNet::V4(net) => Routes::v4(self.v4.onwards(net, false)),
            IpNet::V6(net) => Routes::v6(self.v6.onwards(net, false)),
        }
    }

    /// The routes of IPv4 and of IPv6, ascending.
    pub(crate) fn families(&self) -> (Routes<'_>, Routes<'_>)
        ensures { AreFamilies (routes_of self.now) result.0 result.1 }
    {
        let (v4, v6) = self.sides();
        (Routes::v4(v4), Routes::v6(v6))
    }

    /// The routes of IPv4 and of IPv6, ascending, with the network type of the family.
    pub(crate) fn sides(&self) -> (FamilyRoutes<'_, Ipv4Net>, FamilyRoutes<'_, Ipv6Net>)
        ensures { AreFamilies (routes_of self.now) result.0 result.1 }
    {
        (self.v4.iter(), self.v6.iter())
    }
}

impl HopTable {
    /// The routes of IPv4 and of IPv6, ascending.
    pub(crate) fn families(&self) -> (Routes<'_>, Routes<'_>)
        ensures { AreFamilies (routes_of self.now) result.0 result.1 }
    {
        let (v4, v6) = self.sides();
        (Routes::v4(v4), Routes::v6(v6))
    }

    /// The routes of IPv4 and of IPv6, ascending, with the network type of the family.
    pub(crate) fn sides(&self) -> (FamilyRoutes<'_, Ipv4Net>, FamilyRoutes<'_, Ipv6Net>)
        ensures { AreFamilies (routes_of self.now) result.0 result.1 }
    {
        (self.v4.iter(), self.v6.iter())
    }
}
