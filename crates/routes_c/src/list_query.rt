//! Lists of routes of a table, in the layout of C.
ghost use Rattle.std.specs.Prelude.{◌≡◌, IfOk, map, take};
ghost use Rattle.ipnet.specs.IpNets.{block};
ghost use Rattle.route_laws.specs.LeastTables.{routes_for};
ghost use Rattle.route_laws.specs.Networks.{routes_of};
ghost use Rattle.route_laws.specs.Tables.{hop_at};
ghost use Rattle.routes_c.specs.RouteLists.{AreAsked, AreGoverned, AreLeast, Shown, default_route, own_routes, route_shown};

use crate::shown::{Route, shown_at};
use ipnet::IpNet;
use route_table::{All, DEFAULT_PREFERENCE, Governed, Hop, RouteTable, Routes};
use std::alloc::{AllocError, Global};

/// The list of routes that a call asks for.
#[derive(Clone, Copy)]
pub enum ListQuery {
    /// The best routes of the networks inside a network.
    Inside(IpNet),
    /// The best routes of the networks that contain a network.
    Cover(IpNet),
    /// The best routes of at most this many networks, from a network on.
    From(IpNet, usize),
    /// The best routes of at most this many networks after a network.
    After(IpNet, usize),
    /// All routes of a network.
    All(IpNet),
    /// The blocks that a network governs.
    Governed(IpNet),
    /// The blocks of a hop number.
    Own(u32),
    /// The routes of a least table.
    Least,
}

/// The list of the routes.
fn routes(alloc: Global, routes: Routes<'_>) -> Result<Vec<Route>, AllocError>
    ensures { IfOk result (λ v. v.items ≡ map route_shown routes.entry) }
{
    let mut list = Vec::new(alloc);
    for (net, hop, pref) in routes {
        list.push(shown_at(&net, hop, pref))?;
    }
    Ok(list)
}

/// The list of the first `limit` routes.
fn page(alloc: Global, mut routes: Routes<'_>, limit: usize) -> Result<Vec<Route>, AllocError>
    ensures { IfOk result (λ v. v.items ≡ map route_shown (take limit routes.entry)) }
{
    let mut list = Vec::new(alloc);
    while list.len() < limit {
        let Some((net, hop, pref)) = routes.next() else {
            return Ok(list);
        };
        list.push(shown_at(&net, hop, pref))?;
    }
    Ok(list)
}

/// The list of the routes of one network.
fn choices(alloc: Global, net: &IpNet, choices: All<'_>) -> Result<Vec<Route>, AllocError>
    ensures { IfOk result (λ v. v.items ≡ map route_shown (map (λ c. record { block = block net.now; hop = c.hop; pref = c.pref }) choices.entry)) }
{
    let mut list = Vec::new(alloc);
    for (hop, pref) in choices {
        list.push(shown_at(net, hop, pref))?;
    }
    Ok(list)
}

/// The list of the blocks, all with this hop.
fn blocks(alloc: Global, blocks: Governed<'_>, hop: Hop) -> Result<Vec<Route>, AllocError>
    ensures { IfOk result (λ v. v.items ≡ map route_shown (map (default_route hop) blocks.entry)) }
{
    let mut list = Vec::new(alloc);
    for net in blocks {
        list.push(shown_at(&net, hop, DEFAULT_PREFERENCE))?;
    }
    Ok(list)
}

/// The list of the networks, all with this hop.
fn networks(alloc: Global, networks: &[IpNet], hop: Hop) -> Result<Vec<Route>, AllocError>
    ensures { IfOk result (λ v. v.items ≡ map route_shown (map (default_route hop) (map block networks.now))) }
{
    let mut list = Vec::new(alloc);
    for net in networks {
        list.push(shown_at(net, hop, DEFAULT_PREFERENCE))?;
    }
    Ok(list)
}

/// The list of the networks, each with its hop.
pub(crate) fn items(alloc: Global, items: &[(IpNet, Hop)]) -> Result<Vec<Route>, AllocError>
    ensures { IfOk result (λ v. v.items ≡ map route_shown (routes_for items.now)) }
{
    let mut list = Vec::new(alloc);
    for item in items {
        list.push(shown_at(&item.0, item.1, DEFAULT_PREFERENCE))?;
    }
    Ok(list)
}

/// The list of the blocks that the network governs.
fn governed(alloc: Global, table: &RouteTable, net: &IpNet) -> Result<Vec<Route>, AllocError>
    ensures { IfOk result (λ v. Shown (AreGoverned (routes_of table.now) (block net.now)) v.items) }
{
    let hop = match table.get(net) {
        Some((_, hop, _)) => hop,
        None => Hop::Drop,
    };
    blocks(alloc, table.governed(net), hop)
}

/// The list of the blocks of the hop number.
fn own(alloc: Global, table: &RouteTable, number: u32) -> Result<Vec<Route>, AllocError>
    ensures { IfOk result (λ v. v.items ≡ map route_shown (own_routes (routes_of table.now) number)) }
{
    match table.own(number) {
        Ok(found) => networks(alloc, &found, Hop::Number(number)),
        Err(_) => Err(AllocError),
    }
}

/// The list of the routes of a least table.
fn least(alloc: Global, table: &RouteTable) -> Result<Vec<Route>, AllocError>
    ensures { IfOk result (λ v. Shown (AreLeast (hop_at (routes_of table.now))) v.items) }
{
    match table.least() {
        Ok(found) => items(alloc, &found),
        Err(_) => Err(AllocError),
    }
}

impl ListQuery {
    /// The list that the call asks for.
    pub(crate) fn list(self, alloc: Global, table: &RouteTable) -> Result<Vec<Route>, AllocError>
        ensures { IfOk result (λ v. Shown (AreAsked self table.now) v.items) }
    {
        match self {
            ListQuery::Inside(net) => routes(alloc, table.list(&net)),
            ListQuery::Cover(net) => routes(alloc, table.cover(&net)),
            ListQuery::From(net, limit) => page(alloc, table.from(&net), limit),
            ListQuery::After(net, limit) => page(alloc, table.after(&net), limit),
            ListQuery::All(net) => choices(alloc, &net, table.all(&net)),
            ListQuery::Governed(net) => governed(alloc, table, &net),
            ListQuery::Own(number) => own(alloc, table, number),
            ListQuery::Least => least(alloc, table),
        }
    }
}
