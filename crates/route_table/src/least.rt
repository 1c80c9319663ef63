//! The least table: the fewest routes with the hops of a table.
ghost use Rattle.std.specs.Prelude.{◌≡◌, ◌++◌, ℕ, All, Bool, IfErr, IfOk, List, Option};
ghost use Rattle.std.specs.Iterator.{YieldsFirst, item_count};
ghost use Rattle.ipnet_addr.specs.Addresses.{Address, Ipv4, Ipv6};
ghost use Rattle.ipnet_blocks.specs.Networks.{IsTruncated};
ghost use Rattle.ipnet.specs.IpNets.{family, parts};
ghost use Rattle.least_table.specs.InnerPlanners.{HasPlanned};
ghost use Rattle.prefix_trie.specs.declared.refused.Refused.TheVariants.{Memory};
ghost use Rattle.route_choices.specs.Hops.{IsHop, hop_from};
ghost use Rattle.route_table.specs.InnerLeast.{AreLeast, IsPlanned, least_items, pieces_of};
ghost use Rattle.route_laws.specs.Flats.{IsFlat};
ghost use Rattle.route_laws.specs.LeastTables.{IsLeast, routes_for};
ghost use Rattle.route_laws.specs.Networks.{routes_of};
ghost use Rattle.route_laws.specs.Tables.{hop_at};

use crate::family::FamilyNet;
use crate::flat::Flat;
use crate::hop_table::HopTable;
use crate::table::RouteTable;
use ipnet::{IpNet, Ipv4Net, Ipv6Net};
use least_table::{Planner, Routes};
use prefix_trie::{Key, Refused};
use route_choices::Hop;
use std::alloc::{AllocError, Global};
use std::marker::Model;

/// The hop of a number, or `drop` for none.
pub(crate) fn hop_of(number: Option<u32>) -> Hop
    ensures value { result ≡ hop_from number }
    ensures in_range { IsHop result }
{
    match number {
        Some(number) => Hop::Number(number),
        None => Hop::Drop,
    }
}

/// An iterator over the routes of a least table, ascending: each network, without host bits, and its hop. An IPv4 route takes 16 bytes
/// here and an IPv6 route 48, while in a list of such pairs a route takes 64.
pub struct LeastRoutes {
    v4: Routes<Ipv4Net>,
    v6: Routes<Ipv6Net>,
}

/// A destructor of its own: see `FamilyRoutes`.
impl Drop for LeastRoutes {
    fn drop(self) {
        let LeastRoutes { v4: _, v6: _ } = self;
    }
}

impl Model for LeastRoutes {
    ghost use Rattle.std.specs.Prelude.{List, ◌++◌};
    ghost use Rattle.ipnet_addr.specs.Addresses.{Ipv4, Ipv6};
    ghost use Rattle.ipnet.specs.declared.ip_net.IpNet.{IpNet};
    ghost use Rattle.route_choices.specs.declared.hop.Hop.{Hop};
    ghost use Rattle.route_table.specs.InnerLeast.{least_items};

    ghost Value = { List (IpNet × Hop) };

    ghost view = { λ a. least_items Ipv4 (λ n. n) a.v4 ++ least_items Ipv6 (λ n. n) a.v6 };
}

impl LeastRoutes {
    /// The routes of both families.
    fn new(v4: Routes<Ipv4Net>, v6: Routes<Ipv6Net>) -> LeastRoutes
        ensures { result ≡ least_items Ipv4 (λ n. n) v4 ++ least_items Ipv6 (λ n. n) v6 }
    {
        LeastRoutes { v4, v6 }
    }

    /// The routes as a list.
    fn list(self, alloc: Global) -> Result<Vec<(IpNet, Hop)>, AllocError>
        ensures { IfOk result (λ routes. routes.items ≡ self) }
    {
        let mut routes = Vec::new(alloc);
        for route in self {
            routes.push(route)?;
        }
        Ok(routes)
    }
}

impl Iterator for LeastRoutes {
    type Item = (IpNet, Hop);

    ghost next_gives = { YieldsFirst (λ rs. rs) };

    ghost remaining = { item_count (λ rs. rs) };

    fn next(&mut self) -> Option<(IpNet, Hop)> {
        if let Some((net, hop)) = self.v4.next() {
            return Some((IpNet::V4(net), hop_of(hop)));
        }
        let (net, hop) = self.v6.next()?;
        Some((IpNet::V6(net), hop_of(hop)))
    }
}

/// The routes of a least table of one family with the hops of the planned pieces.
fn fewest<P: FamilyNet>(plan: Planner<P>) -> Result<Routes<P>, AllocError>
    requires { (ps : List (List Bool × ℕ)) × HasPlanned P.R.width plan ps }
    ensures { IfOk result (λ table. (ps : List (List Bool × ℕ)) → HasPlanned P.R.width plan ps → AreLeast P.family ps (least_items P.family P.parts table)) }
{
    plan.into_routes()
}

/// The plans of a flat list, one for each family.
fn plans(alloc: Global, flat: Flat<'_>) -> Result<(Planner<Ipv4Net>, Planner<Ipv6Net>), AllocError>
    requires { (h : Address → Option ℕ) × IsFlat h flat }
    ensures ipv4 { IfOk result (λ p. IsPlanned Ipv4 p.0 (pieces_of Ipv4 flat.entry)) }
    ensures ipv6 { IfOk result (λ p. IsPlanned Ipv6 p.1 (pieces_of Ipv6 flat.entry)) }
{
    let mut v4 = Planner::new(alloc);
    let mut v6 = Planner::new(alloc);
    for (net, number) in flat {
        match net {
            IpNet::V4(net) => v4.push(&net, number)?,
            IpNet::V6(net) => v6.push(&net, number)?,
        }
    }
    Ok((v4, v6))
}

/// The routes of a least table with the hops of this flat list.
fn least_routes(alloc: Global, flat: Flat<'_>) -> Result<LeastRoutes, Refused>
    requires { (h : Address → Option ℕ) × IsFlat h flat }
    ensures least { (h : Address → Option ℕ) → IsFlat h flat.entry → IfOk result (λ routes. IsLeast h (routes_for routes)) }
    ensures truncated { IfOk result (λ routes. All (λ r. IsTruncated (family r.0) (parts r.0)) routes) }
    ensures memory { IfErr result (λ e. e ≡ Memory) }
{
    let (v4, v6) = plans(alloc, flat)?;
    let ipv4 = fewest(v4)?;
    let ipv6 = fewest(v6)?;
    Ok(LeastRoutes::new(ipv4, ipv6))
}

/// The routes of a least table with the hops of this flat list, as a list.
fn least_of(alloc: Global, flat: Flat<'_>) -> Result<Vec<(IpNet, Hop)>, Refused>
    requires { (h : Address → Option ℕ) × IsFlat h flat }
    ensures least { (h : Address → Option ℕ) → IsFlat h flat.entry → IfOk result (λ routes. IsLeast h (routes_for routes.items)) }
    ensures truncated { IfOk result (λ routes. All (λ r. IsTruncated (family r.0) (parts r.0)) routes.items) }
    ensures memory { IfErr result (λ e. e ≡ Memory) }
{
    let routes = least_routes(alloc, flat)?;
    Ok(routes.list(alloc)?)
}

impl RouteTable {
    /// Returns the routes of a smallest equivalent table: each address has the same hop, and no such table has fewer routes. The routes
    /// may be nested, and `drop` counts as one. They are ascending, and their networks have no host bits. If there are several smallest
    /// tables, any of them may be returned.
    ///
    /// # Errors
    /// `Memory` if an allocation fails, for the list or for the computation.
    ///
    /// # Examples
    /// If `quarter`, 10.0.0.0/10, has the hop 2, and two routes give the rest of `whole`, 10.0.0.0/8, the hop 1:
    ///
    /// ```rust
    /// let least = table.least().expect(&rt, "a least table");
    /// let fewest = [(whole, Hop::Number(1)), (quarter, Hop::Number(2))];
    /// assert_eq!(rt; least.as_slice(), fewest.as_slice());
    /// ```
    pub fn least(&self) -> Result<Vec<(IpNet, Hop)>, Refused>
        ensures least { IfOk result (λ routes. IsLeast (hop_at (routes_of self.now)) (routes_for routes.items)) }
        ensures truncated { IfOk result (λ routes. All (λ r. IsTruncated (family r.0) (parts r.0)) routes.items) }
        ensures memory { IfErr result (λ e. e ≡ Memory) }
    {
        least_of(self.alloc(), self.flat())
    }
}

impl HopTable {
    /// Returns the routes of a smallest equivalent table, as `RouteTable::least` does.
    ///
    /// # Errors
    /// `Memory` if an allocation fails, for the list or for the computation.
    pub fn least(&self) -> Result<Vec<(IpNet, Hop)>, Refused>
        ensures least { IfOk result (λ routes. IsLeast (hop_at (routes_of self.now)) (routes_for routes.items)) }
        ensures truncated { IfOk result (λ routes. All (λ r. IsTruncated (family r.0) (parts r.0)) routes.items) }
        ensures memory { IfErr result (λ e. e ≡ Memory) }
    {
        let flat = self.flat();
        least_of(self.alloc(), flat)
    }

    /// Returns the routes of a smallest equivalent table, as `least` does. The memory of this table is freed on the way.
    ///
    /// # Errors
    /// `Memory` if an allocation fails, for the routes or for the computation. Then the table is lost.
    ///
    /// # Examples
    /// ```rust
    /// let mut list = Vec::new(alloc);
    /// for route in table.into_least().expect(rt, "memory") {
    ///     list.push(route).expect(rt, "memory");
    /// }
    /// ```
    pub fn into_least(self) -> Result<LeastRoutes, Refused>
        ensures least { IfOk result (λ routes. IsLeast (hop_at (routes_of self)) (routes_for routes)) }
        ensures truncated { IfOk result (λ routes. All (λ r. IsTruncated (family r.0) (parts r.0)) routes) }
        ensures memory { IfErr result (λ e. e ≡ Memory) }
    {
        let alloc = self.alloc();
        let flat = self.into_flat()?;
        least_routes(alloc, flat)
    }
}
