//! A table with one route for each network.
ghost use Rattle.std.specs.Prelude.{◌≡◌, [], ◌∷◌, IfErr, IfOk, OnErr, OnOk};
ghost use Rattle.ipnet_blocks.specs.Blocks.{IsBlock};
ghost use Rattle.ipnet.specs.IpNets.{block};
ghost use Rattle.prefix_trie.specs.declared.refused.Refused.TheVariants.{Memory};
ghost use Rattle.route_choices.specs.Choices.{default_preference};
ghost use Rattle.route_choices.specs.Hops.{IsHop};
ghost use Rattle.route_laws.specs.LeastTables.{routes_for};
ghost use Rattle.route_laws.specs.Networks.{IsStoredTable, choices_at, routes_of, with_choices};
ghost use Rattle.route_laws.specs.Tables.{IsTable, route_of, with_route, without_block};
ghost use Rattle.route_table.specs.Given.{IsEmptied, IsFlatOf};

use crate::flat::Flat;
use crate::table::{Table, cleared};
use ipnet::IpNet;
use prefix_trie::Refused;
use route_choices::{DEFAULT_PREFERENCE, Hop};
use std::alloc::{AllocError, Global};

/// A table with one hop for each stored network, of both families. It takes less memory than a `RouteTable`, which has room for eight
/// routes at each network.
///
/// Contracts see the same list as for a `RouteTable`; each network has one route. Only `from_routes`, `least`, `into_least` and `updates`
/// allocate, and `install`, `overwrite`, `paint` and `carry_out` where they store a new network. A table is `Send` and `Sync`.
pub type HopTable = Table<1>;

impl HopTable {
    /// Makes a table without networks.
    ///
    /// # Errors
    /// None. The `Result` leaves room for an implementation that allocates here.
    ///
    /// # Examples
    /// ```rust
    /// let mut table = HopTable::new(rt.alloc()).expect(&rt, "a table");
    /// ```
    pub fn new(alloc: Global) -> Result<HopTable, Refused>
        ensures { IsEmptied result }
    {
        Table::empty(alloc)
    }

    /// Makes the table of these routes, an ascending list that has each network once, such as the result of `least`.
    ///
    /// # Errors
    /// `Memory` if an allocation fails.
    ///
    /// # Examples
    /// With the routes of another table:
    ///
    /// ```rust
    /// let list = table.least().expect(rt, "memory");
    /// let copy = HopTable::from_routes(alloc, list.as_slice()).expect(rt, "memory");
    /// ```
    pub fn from_routes(alloc: Global, list: &[(IpNet, Hop)]) -> Result<HopTable, Refused>
        requires { IsTable (routes_for list.now) }
        ensures routes { IfOk result (λ t. routes_of t ≡ routes_for list.now) }
        ensures table { IfOk result IsStoredTable }
        ensures memory { IfErr result (λ e. e ≡ Memory) }
    {
        let mut table = HopTable::new(alloc)?;
        for (net, hop) in list {
            table.install(*net, *hop)?;
        }
        Ok(table)
    }

    /// Stores the network's route, with preference 100, and replaces its old route. The routes inside the network are unchanged.
    ///
    /// # Errors
    /// `Memory` if the network isn't stored and an allocation fails. The table is unchanged. For a stored network it never fails.
    ///
    /// # Examples
    /// With `wide`, 10.0.0.0/8, `half`, 10.0.0.0/9, and `host`, 10.1.2.3/32:
    ///
    /// ```rust
    /// assert_eq!(rt; table.install(wide, Hop::Number(1)), Ok(()));
    /// assert_eq!(rt; table.install(half, Hop::Number(2)), Ok(()));
    /// assert!(rt; matches!(table.get(&host), Some((_, Hop::Number(2), 100))));
    /// ```
    pub fn install(&mut self, net: IpNet, hop: Hop) -> Result<(), Refused>
        // On success the route is stored with preference 100, in place of any other of its network.
        ensures networks { OnOk result (self.new ≡ with_choices self.old (block net) (record { hop = hop; pref = default_preference } ∷ [])) }
        ensures routes { OnOk result (routes_of self.new ≡ with_route (routes_of self.old) (route_of net hop default_preference)) }

        // Before and after, the stored networks ascend, each with its routes, best first; the network and the hop are valid.
        ensures tables { IsStoredTable self.old × IsStoredTable self.new }
        ensures change { IsBlock (block net) × IsHop hop }

        // It fails only for lack of memory, at a network that isn't stored, and the table is unchanged.
        ensures memory { IfErr result (λ e. e ≡ Memory) }
        ensures unchanged { OnErr result (self.new ≡ self.old) }
        ensures absent { OnErr result (choices_at self.old (block net) ≡ []) }
    {
        let _is_leaf = self.store(cleared(&net), hop, DEFAULT_PREFERENCE)?;
        Ok(())
    }

    /// Removes the network's route, if it is stored. The routes inside the network are unchanged.
    pub(crate) fn remove(&mut self, net: &IpNet)
        requires { IsBlock (block net.now) }
        ensures routes { routes_of self.new ≡ without_block (routes_of self.old) (block net.now) }
        ensures tables { IsStoredTable self.old × IsStoredTable self.new }
    {
        match *net {
            IpNet::V4(net) => self.v4.remove(net),
            IpNet::V6(net) => self.v6.remove(net),
        }
    }

    /// Returns the flat list of the table's hops, as `RouteTable::flat` does. Does not allocate.
    pub fn flat(&self) -> Flat<'_>
        ensures { IsFlatOf (routes_of self.now) result }
    {
        let (v4, v6) = self.sides();
        Flat::new(v4, v6)
    }

    /// Returns the flat list of the table's hops. The memory of each part of the table is freed after the walk over it.
    ///
    /// # Errors
    /// `AllocError` if an allocation for the walk fails.
    pub(crate) fn into_flat<'a>(self) -> Result<Flat<'a>, AllocError>
        ensures { IfOk result (λ flat. IsFlatOf (routes_of self) flat) }
    {
        let (ipv4, ipv6, alloc) = self.into_sides();
        let ipv4 = ipv4.into_routes(alloc)?;
        let ipv6 = ipv6.into_routes(alloc)?;
        Ok(Flat::new(ipv4, ipv6))
    }
}
