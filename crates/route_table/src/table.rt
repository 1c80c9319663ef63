//! The table.
ghost use Rattle.std.specs.Prelude.{◌≡◌, ◌<◌, ◌≤◌, ◌+◌, ◌/◌, [], ◌∷◌, ◌++◌, None, IfOk, IfErr, IfSome, IsTrue, OnOk, OnErr, ◌↔◌, false, is_some, length, sum_by, option_map};
ghost use Rattle.ipnet_addr.specs.Addresses.{Ipv4, Ipv6};
ghost use Rattle.ipnet_blocks.specs.Blocks.{IsBlock, bit_string};
ghost use Rattle.ipnet.specs.IpNets.{block, family, parts, network_at};
ghost use Rattle.ipnet_blocks.specs.Maximal.{IsMaximal, IsShortest};
ghost use Rattle.trie_core.specs.Count.{nodes, visit_count};
ghost use Rattle.prefix_trie.specs.declared.refused.Refused.TheVariants.{Memory};
ghost use Rattle.route_choices.specs.Choices.{holds_hop, is_one_too_many};
ghost use Rattle.route_choices.specs.Hops.{IsHop};
ghost use Rattle.route_laws.specs.Bounds.{excess};
ghost use Rattle.route_table.specs.InnerFamilyTables.{AddsTo, IsFamilyTable, RemovesFrom};
ghost use Rattle.route_table.specs.Tries.{map_of};
ghost use Rattle.route_laws.specs.Networks.{IsLeaf, IsStoredTable, choices_at, routes_of, with_choice, with_choices, without_choice};
ghost use Rattle.route_table.specs.Refusals.{IsRefused};
ghost use Rattle.route_laws.specs.Tables.{Governed as GovernedBy, IsTable, match_number, match_of, routes_inside, item_of};
ghost use Rattle.route_table.specs.Given.{AreRoutes, IsEmptied, IsNewLeaf};

use crate::family_table::FamilyTable;
use crate::governed::Governed;
use crate::refused::AddRefused;
use crate::routes::Routes;
use ipnet::{IpNet, Ipv4Net, Ipv6Net};
use prefix_trie::Refused;
use route_choices::Hop;
use std::alloc::Global;
use std::marker::Model;

/// Networks of both families with one to eight routes each. A route is a hop with a preference, and a network has each hop at most
/// once. The best route has the greatest preference. Among equal preferences the smaller hop number is better, and `drop` is the
/// worst. The best route is the one in use.
///
/// Contracts see a table as the ascending list of its stored networks, each with its routes, best first. Matches and hops are those of
/// the best routes. Host bits of an argument are ignored everywhere. Only `own` and `least` allocate, and `add`,
/// `add_is_leaf` and `overwrite` of a network that isn't stored. A table is `Send` and `Sync`.
pub type RouteTable = Table<8>;

/// A table of networks of both families with room for `CAPACITY` routes of each: `RouteTable` has eight, `HopTable` one.
pub struct Table<const CAPACITY: usize> {
    pub(crate) v4: FamilyTable<Ipv4Net, CAPACITY>,
    pub(crate) v6: FamilyTable<Ipv6Net, CAPACITY>,
    pub(crate) alloc: Global,
}

/// A destructor of its own: see `FamilyRoutes`.
impl<const CAPACITY: usize> Drop for Table<CAPACITY> {
    fn drop(self) {
        let Table {
            v4: _,
            v6: _,
            alloc: _,
        } = self;
    }
}

impl<const CAPACITY: usize> Model for Table<CAPACITY> {
    ghost use Rattle.std.specs.Prelude.{List, ◌++◌};
    ghost use Rattle.ipnet_addr.specs.Addresses.{Ipv4, Ipv6};
    ghost use Rattle.route_table.specs.InnerFamilyTables.{IsFamilyTable};
    ghost use Rattle.route_laws.specs.Networks.{Stored};

    ghost Value = { List Stored };

    ghost view = { λ a. a.v4 ++ a.v6 };

    ghost invariant = { λ a. IsFamilyTable Ipv4 a.v4 × IsFamilyTable Ipv6 a.v6 };
}

/// The network without host bits. Each public call clears them once, with this function; the functions below require a block.
pub(crate) fn cleared(net: &IpNet) -> IpNet
    ensures value { result ≡ network_at (block net.now) }
    ensures block { block result ≡ block net.now }
    ensures is_block { IsBlock (block result) }
{
    net.trunc()
}

impl RouteTable {
    /// Makes a table without networks.
    ///
    /// # Errors
    /// None. The `Result` leaves room for an implementation that allocates here.
    ///
    /// # Examples
    /// ```rust
    /// let mut table = RouteTable::new(rt.alloc()).expect(&rt, "a table");
    /// ```
    pub fn new(alloc: Global) -> Result<RouteTable, Refused>
        ensures { IsEmptied result }
    {
        Table::empty(alloc)
    }

    /// Adds a route to the network. If the network has this hop already, its preference changes. Returns the hop number
    /// of its longest match before and after: the old and the new hop of the addresses that it governs. If the two differ, exactly these
    /// addresses changed their hop, and `governed` lists them; else no address did.
    ///
    /// # Errors
    /// The table is unchanged.
    ///
    /// - `TooMany` exactly if the network has eight other hops.
    /// - `Store` if the network isn't stored and an allocation fails. An `add` to a stored network does not allocate.
    ///
    /// # Examples
    /// With `wide`, 10.0.0.0/8, and its first half, in an empty table:
    ///
    /// ```rust
    /// assert_eq!(rt; table.add(wide, Hop::Number(1), 100), Ok((None, Some(1))));
    /// assert_eq!(rt;
    ///     table.add(half, Hop::Number(2), 100),
    ///     Ok((Some(1), Some(2)))
    /// );
    /// ```
    pub fn add(
        &mut self,
        net: IpNet,
        hop: Hop,
        pref: u16,
    ) -> Result<(Option<u32>, Option<u32>), AddRefused>
        // On success the results are the hops at the longest match of the network, before and after.
        ensures hops { IfOk result (λ r. (r.0 ≡ match_number (match_of (routes_of self.old) (block net))) × (r.1 ≡ match_number (match_of (routes_of self.new) (block net)))) }

        // On success the network has the route among its others, best first; it had fewer than eight other hops.
        ensures networks { OnOk result (self.new ≡ with_choice self.old (block net) (record { hop = hop; pref = pref })) }
        ensures room { OnOk result (is_one_too_many (choices_at self.old (block net)) hop ≡ false) }

        // Before and after, the stored networks ascend, each with its routes, best first.
        ensures tables { IsStoredTable self.old × IsStoredTable self.new }

        // A refusal changes nothing: the network has eight other hops, or isn't stored and memory ran out.
        ensures refused { IfErr result (IsRefused (choices_at self.old (block net)) hop) }
        ensures unchanged { OnErr result (self.new ≡ self.old) }
    {
        let (before, after, _) = self.add_is_leaf(net, hop, pref)?;
        Ok((before, after))
    }

    /// Adds a route as `add` does, and also returns whether the network was not stored, and contains no other stored network. Then it
    /// governs all its addresses.
    ///
    /// # Errors
    /// Those of `add`.
    ///
    /// # Examples
    /// With `wide`, 10.0.0.0/8, and its first half, in an empty table:
    ///
    /// ```rust
    /// let added = table.add_is_leaf(half, Hop::Number(2), 100);
    /// assert_eq!(rt; added, Ok((None, Some(2), true)));
    /// let added = table.add_is_leaf(wide, Hop::Number(1), 100);
    /// assert_eq!(rt; added, Ok((None, Some(1), false)));
    /// ```
    pub fn add_is_leaf(
        &mut self,
        net: IpNet,
        hop: Hop,
        pref: u16,
    ) -> Result<(Option<u32>, Option<u32>, bool), AddRefused>
        // On success the first two results are the hops at the longest match of the network, before and after.
        ensures hops { IfOk result (λ r. (r.0 ≡ match_number (match_of (routes_of self.old) (block net))) × (r.1 ≡ match_number (match_of (routes_of self.new) (block net)))) }

        // The third result says whether the network is new and contains no other. If so, it governs all its addresses.
        ensures leaf { IfOk result (λ r. IsTrue r.2 ↔ IsNewLeaf self.old self.new (block net)) }
        ensures governed { IfOk result (λ r. IsTrue r.2 → IsMaximal (GovernedBy (routes_of self.new) (block net)) (block net ∷ [])) }

        // On success the network has the route among its others, best first; it had fewer than eight other hops.
        ensures networks { OnOk result (self.new ≡ with_choice self.old (block net) (record { hop = hop; pref = pref })) }
        ensures room { OnOk result (is_one_too_many (choices_at self.old (block net)) hop ≡ false) }

        // Before and after, the stored networks ascend, each with its routes, best first.
        ensures tables { IsStoredTable self.old × IsStoredTable self.new }

        // A refusal changes nothing: the network has eight other hops, or isn't stored and memory ran out.
        ensures refused { IfErr result (IsRefused (choices_at self.old (block net)) hop) }
        ensures unchanged { OnErr result (self.new ≡ self.old) }
    {
        self.add_choice(cleared(&net), hop, pref)
    }

    /// Removes the route of this hop from the network, and removes the network with its last route. Returns the old and the new hop number
    /// of the addresses that the network governs, as `add` does. If the network lacks this hop, it returns `None` and changes nothing. Does
    /// not allocate.
    ///
    /// # Examples
    /// If 10.0.0.0/8 has the hop 1 and `half`, 10.0.0.0/9, the hop 2:
    ///
    /// ```rust
    /// assert_eq!(rt; table.del(&half, Hop::Number(2)), Some((Some(2), Some(1))));
    /// assert_eq!(rt; table.del(&half, Hop::Number(2)), None);
    /// ```
    pub fn del(&mut self, net: &IpNet, hop: Hop) -> Option<(Option<u32>, Option<u32>)>
        ensures stored { is_some result ≡ holds_hop (choices_at self.old (block net.now)) hop }
        ensures networks { self.new ≡ without_choice self.old (block net.now) hop }
        ensures tables { IsStoredTable self.old × IsStoredTable self.new }
        ensures hops { IfSome result (λ r. (r.0 ≡ match_number (match_of (routes_of self.old) (block net.now))) × (r.1 ≡ match_number (match_of (routes_of self.new) (block net.now)))) }
        ensures unchanged { result ≡ None → self.new ≡ self.old }
    {
        self.remove_choice(&cleared(net), hop)
    }

    /// Returns the routes of exactly this network, best first: each hop with its preference. Does not allocate.
    ///
    /// # Examples
    /// If `half`, 10.0.0.0/9, has only the hop 2:
    ///
    /// ```rust
    /// let mut all = table.all(&half);
    /// assert_eq!(rt; all.next(), Some((Hop::Number(2), 100)));
    /// assert_eq!(rt; all.next(), None);
    /// ```
    pub fn all(&self, net: &IpNet) -> route_choices::All<'_>
        ensures choices { result ≡ choices_at self.now (block net.now) }
        ensures table { IsStoredTable self.now }
    {
        self.is_table();
        match cleared(net) {
            IpNet::V4(net) => self.v4.all(net),
            IpNet::V6(net) => self.v6.all(net),
        }
    }

    /// Returns the result of `get`, and the number of trie nodes on the path of the search. They are the root, and one for each bit string
    /// of positive length divisible by five that is a prefix of both the network and a stored one. Levels that the trie skips count as nodes.
    pub fn get_visits(&self, net: &IpNet) -> (Option<(IpNet, Hop, u16)>, u32)
        ensures found { result.0 ≡ option_map item_of (match_of (routes_of self.now) (block net.now)) }
        ensures visits { result.1 ≡ visit_count (map_of (family net.now) self.now) (bit_string (block net.now)) }
        ensures bound { result.1 ≤ (parts net.now).len / 5 + 1 }
    {
        let net = cleared(net);
        (self.longest(&net), self.visits(&net))
    }

    /// Returns the best routes of the networks inside this one, itself included, ascending. Does not allocate.
    ///
    /// # Examples
    /// If `wide`, 10.0.0.0/8, has the hop 1 and `half`, 10.0.0.0/9, the hop 2, and `all` is 0.0.0.0/0:
    ///
    /// ```rust
    /// let mut routes = table.list(&all);
    /// assert_eq!(rt; routes.next(), Some((wide, Hop::Number(1), 100)));
    /// assert_eq!(rt; routes.next(), Some((half, Hop::Number(2), 100)));
    /// assert_eq!(rt; routes.next(), None);
    /// ```
    pub fn list(&self, net: &IpNet) -> Routes<'_>
        ensures { AreRoutes (routes_of self.now) (routes_inside (routes_of self.now) (block net.now)) result }
    {
        self.inside(&cleared(net))
    }

    /// Returns the maximal blocks, ascending, of the addresses that the network governs: those that no longer stored network inside it
    /// contains. No list of blocks with these addresses is shorter. Their number is at most 1 and, for each stored network strictly
    /// inside, the difference of the two lengths less 1. Does not allocate.
    ///
    /// # Examples
    /// If `wide`, 10.0.0.0/8, and its first half are stored, and `other_half` is 10.128.0.0/9:
    ///
    /// ```rust
    /// let block = table.governed(&wide).next();
    /// assert_eq!(rt; block, Some(other_half));
    /// ```
    pub fn governed(&self, net: &IpNet) -> Governed<'_>
        ensures maximal { IsMaximal (GovernedBy (routes_of self.now) (block net.now)) result }
        ensures shortest { IsShortest (GovernedBy (routes_of self.now) (block net.now)) result }
        ensures bound { length result ≤ 1 + sum_by (λ r. excess (block net.now) r.block) (routes_of self.now) }
        ensures table { IsTable (routes_of self.now) }
    {
        self.governs(&cleared(net))
    }

    /// Returns whether no stored network is strictly inside this one, which need not be stored. If so, the network governs all its
    /// addresses. Does not allocate.
    ///
    /// # Examples
    /// If only `wide`, 10.0.0.0/8, and `half`, 10.0.0.0/9, are stored:
    ///
    /// ```rust
    /// assert!(rt; table.is_leaf(&half));
    /// assert!(rt; !table.is_leaf(&wide));
    /// ```
    pub fn is_leaf(&self, net: &IpNet) -> bool
        ensures leaf { IsTrue result ↔ IsLeaf self.now (block net.now) }
        ensures governed { IsTrue result → IsMaximal (GovernedBy (routes_of self.now) (block net.now)) (block net.now ∷ []) }
    {
        self.has_none_inside(&cleared(net))
    }

    /// Returns the number of trie nodes of each family: the root, and one for each distinct bit string of positive length divisible by
    /// five that is a prefix of a stored network. Levels that the trie skips count as nodes.
    pub fn node_counts(&self) -> (usize, usize)
        ensures { result ≡ (nodes (map_of Ipv4 self.now), nodes (map_of Ipv6 self.now)) }
    {
        (self.v4.node_count(), self.v6.node_count())
    }

    /// Adds a route to the network.
    fn add_choice(
        &mut self,
        net: IpNet,
        hop: Hop,
        pref: u16,
    ) -> Result<(Option<u32>, Option<u32>, bool), AddRefused>
        requires { IsBlock (block net) }
        ensures adds { AddsTo self.old (block net) (record { hop = hop; pref = pref }) result self.new }
        ensures tables { IsStoredTable self.old × IsStoredTable self.new }
    {
        match net {
            IpNet::V4(net) => self.v4.add(net, hop, pref),
            IpNet::V6(net) => self.v6.add(net, hop, pref),
        }
    }

    /// Removes the route of this hop from the network, if it has one.
    fn remove_choice(&mut self, net: &IpNet, hop: Hop) -> Option<(Option<u32>, Option<u32>)>
        requires { IsBlock (block net.now) }
        ensures removes { RemovesFrom self.old (block net.now) hop result self.new }
        ensures tables { IsStoredTable self.old × IsStoredTable self.new }
    {
        match *net {
            IpNet::V4(net) => self.v4.remove(net, hop),
            IpNet::V6(net) => self.v6.remove(net, hop),
        }
    }

    /// The number of nodes that the search for the longest match visits.
    fn visits(&self, net: &IpNet) -> u32
        requires { IsBlock (block net.now) }
        ensures visits { result ≡ visit_count (map_of (block net.now).family self.now) (bit_string (block net.now)) }
        ensures bound { result ≤ (block net.now).len / 5 + 1 }
    {
        match *net {
            IpNet::V4(net) => self.v4.visits(net),
            IpNet::V6(net) => self.v6.visits(net),
        }
    }

    /// The routes inside the network.
    fn inside(&self, net: &IpNet) -> Routes<'_>
        requires { IsBlock (block net.now) }
        ensures { AreRoutes (routes_of self.now) (routes_inside (routes_of self.now) (block net.now)) result }
    {
        match *net {
            IpNet::V4(net) => Routes::v4(self.v4.list(net)),
            IpNet::V6(net) => Routes::v6(self.v6.list(net)),
        }
    }

    /// The maximal blocks of the addresses that the network governs.
    pub(crate) fn governs(&self, net: &IpNet) -> Governed<'_>
        requires { IsBlock (block net.now) }
        ensures maximal { IsMaximal (GovernedBy (routes_of self.now) (block net.now)) result }
        ensures bound { length result ≤ 1 + sum_by (λ r. excess (block net.now) r.block) (routes_of self.now) }
        ensures table { IsTable (routes_of self.now) }
    {
        Governed::new(*net, self.inside(net))
    }
}

impl<const CAPACITY: usize> Table<CAPACITY> {
    /// Returns the longest match: the longest stored network that contains this one, possibly itself, with its best hop and the
    /// preference of this hop; or `None` if no stored network contains this one. The returned network has no host bits. Does not allocate.
    ///
    /// # Examples
    /// If 10.0.0.0/8 has the hop 1 and `half`, 10.0.0.0/9, the hop 2:
    ///
    /// ```rust
    /// assert_eq!(rt; table.get(&host), Some((half, Hop::Number(2), 100)));
    /// ```
    pub fn get(&self, net: &IpNet) -> Option<(IpNet, Hop, u16)>
        ensures found { result ≡ option_map item_of (match_of (routes_of self.now) (block net.now)) }
        ensures table { IsTable (routes_of self.now) }
    {
        self.longest(&cleared(net))
    }

    /// The longest match.
    fn longest(&self, net: &IpNet) -> Option<(IpNet, Hop, u16)>
        requires { IsBlock (block net.now) }
        ensures found { result ≡ option_map item_of (match_of (routes_of self.now) (block net.now)) }
        ensures table { IsTable (routes_of self.now) }
    {
        match *net {
            IpNet::V4(net) => self.v4.get(net),
            IpNet::V6(net) => self.v6.get(net),
        }
    }

    /// Makes a table without networks.
    pub(crate) fn empty(alloc: Global) -> Result<Table<CAPACITY>, Refused>
        requires some { 0 < CAPACITY }
        requires few { CAPACITY ≤ 8 }
        ensures { IsEmptied result }
    {
        Ok(Table {
            v4: FamilyTable::new(alloc)?,
            v6: FamilyTable::new(alloc)?,
            alloc,
        })
    }

    /// The contract says that the stored networks are a table, as the theorems about tables require.
    pub(crate) fn is_table(&self)
        ensures { IsStoredTable self.now }
    {
        let _ = &self.v4;
    }

    /// Returns the two sides, owned, and the allocator.
    pub(crate) fn into_sides(
        self,
    ) -> (
        FamilyTable<Ipv4Net, CAPACITY>,
        FamilyTable<Ipv6Net, CAPACITY>,
        Global,
    )
        ensures families { IsFamilyTable Ipv4 result.0 × IsFamilyTable Ipv6 result.1 }
        ensures networks { result.0 ++ result.1 ≡ self.entry }
    {
        let Table { v4, v6, alloc } = self;
        (v4, v6, alloc)
    }

    /// The allocator of the table.
    pub(crate) fn alloc(&self) -> Global {
        self.alloc
    }

    /// Stores one route at the network, in place of all its routes. Returns whether no stored network is strictly inside it.
    pub(crate) fn store(&mut self, net: IpNet, hop: Hop, pref: u16) -> Result<bool, Refused>
        requires { IsBlock (block net) }
        ensures hop { IsHop hop }
        ensures networks { OnOk result (self.new ≡ with_choices self.old (block net) (record { hop = hop; pref = pref } ∷ [])) }
        ensures leaf { IfOk result (λ leaf. IsTrue leaf ↔ IsLeaf self.new (block net)) }
        ensures tables { IsStoredTable self.old × IsStoredTable self.new }
        ensures memory { IfErr result (λ e. e ≡ Memory) }
        ensures unchanged { OnErr result (self.new ≡ self.old) }
        ensures absent { OnErr result (choices_at self.old (block net) ≡ []) }
    {
        match net {
            IpNet::V4(net) => self.v4.store(net, hop, pref),
            IpNet::V6(net) => self.v6.store(net, hop, pref),
        }
    }

    /// Whether no stored network is strictly inside the network.
    pub(crate) fn has_none_inside(&self, net: &IpNet) -> bool
        requires { IsBlock (block net.now) }
        ensures { IsTrue result ↔ IsLeaf self.now (block net.now) }
    {
        match *net {
            IpNet::V4(net) => self.v4.is_leaf(net),
            IpNet::V6(net) => self.v6.is_leaf(net),
        }
    }
}
