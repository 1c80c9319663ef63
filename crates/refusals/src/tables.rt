//! Route tables, and their indexes.
use crate::fault::{Fault, made};
use crate::feeds::lead_one;
use crate::nets::network;
use crate::show::{begin, counts, end, ended, ended_list, ended_with, line, lines, part, refused};
use crate::subject::{Subject, make, run_over};
use hop_index::HopIndex;
use ipnet::{IpAddr, IpNet, Ipv4Addr, Ipv6Net};
use route_table::{AddRefused, Hop, HopTable, Refused, RouteTable};
use std::alloc::Global;
use std::str::FromStr;

/// The calls of tables.
#[derive(Clone, Copy)]
pub enum TableCall {
    New,
    AddIpv4,
    AddIpv6,
    LineAdd,
    LineOwn,
    Overwrite,
    Own,
    Least,
    IntoLeast,
    IntoLeastMany,
    Index,
    IndexOfHops,
    AddRoutes,
    OverwriteStored,
    Del,
    LookUps,
    Pages,
    Flat,
    Hops,
}

pub fn run(rt: &HostRuntime, call: TableCall) -> Result<(), Fault> {
    match call {
        TableCall::New => make::<RouteTable>(rt),
        _ => run_over::<RouteTable>(rt, call),
    }
}

/// Networks of both families, some inside others. One network has three routes, the best one last.
pub const ROUTES: [(&str, Hop, u16); 8] = [
    ("10.0.0.0/8", Hop::Drop, 10),
    ("10.0.0.0/8", Hop::Number(2), 50),
    ("10.0.0.0/8", Hop::Number(1), 100),
    ("10.1.0.0/16", Hop::Number(2), 100),
    ("10.1.2.4/30", Hop::Number(3), 100),
    ("10.64.0.0/10", Hop::Drop, 100),
    ("2001:db8::/32", Hop::Number(1), 100),
    ("2001:db8:8000::/33", Hop::Number(2), 200),
];

impl Subject for RouteTable {
    type Call = TableCall;

    fn empty(alloc: Global) -> Result<RouteTable, Fault> {
        made(RouteTable::new(alloc))
    }

    fn fill(&mut self) -> Result<(), Fault> {
        for (text, hop, pref) in &ROUTES {
            made(self.add(network(text)?, *hop, *pref))?;
        }
        Ok(())
    }

    /// All routes, and the numbers of networks and nodes.
    fn show(&self, rt: &HostRuntime) {
        for all in [IpNet::default(), IpNet::from(Ipv6Net::default())] {
            show_inside(rt, self, &all);
        }
        counts(rt, &self.count(), " networks, ", &self.node_counts());
    }

    fn call(&mut self, rt: &HostRuntime, call: TableCall) -> Result<(), Fault> {
        match call {
            TableCall::AddIpv4 => add(rt, self, "10.1.2.3/32"),
            TableCall::AddIpv6 => add(rt, self, "2001:db8:8000::1/128"),
            TableCall::LineAdd => lead_one(rt, self, "add 10.1.2.3/32 9"),
            TableCall::LineOwn => lead_one(rt, self, "own 2"),
            TableCall::Overwrite => change(rt, self, network("10.1.2.0/24")?, |table, net| {
                table.overwrite(net, Hop::Number(9))
            }),
            TableCall::Index => index(rt, self),
            TableCall::IndexOfHops => index_of_hops(rt, self),
            TableCall::IntoLeast => into_least(rt, self),
            TableCall::IntoLeastMany => into_least_of_many(rt),
            TableCall::Hops => hops(rt, self),
            TableCall::Own | TableCall::Least => {
                list(rt, self, call);
                Ok(())
            }
            _ => free(rt, self, call),
        }
    }
}

/// The calls that return a list.
fn list(rt: &HostRuntime, table: &RouteTable, call: TableCall) {
    begin(rt);
    match call {
        TableCall::Own => ended_list(rt, table.own(2)),
        _ => ended_list(rt, table.least()),
    }
}

/// The calls that do not allocate.
fn free(rt: &HostRuntime, table: &mut RouteTable, call: TableCall) -> Result<(), Fault> {
    let net = network("10.1.2.4/30")?;
    begin(rt);
    match call {
        TableCall::AddRoutes => add_routes(rt, table, &net),
        TableCall::OverwriteStored => line(rt, &table.overwrite(net, Hop::Drop)),
        TableCall::Del => del_all(rt, table)?,
        TableCall::LookUps => look_up(rt, table, &net)?,
        TableCall::Pages => pages(rt, table)?,
        _ => lines(rt, "", table.flat()),
    }
    line(rt, &table.node_counts());
    end(rt);
    Ok(())
}

/// All routes of one network.
fn show_network(rt: &HostRuntime, table: &RouteTable, net: &IpNet) {
    line(rt, net);
    lines(rt, "  ", table.all(net));
}

/// All routes of the networks inside.
fn show_inside(rt: &HostRuntime, table: &RouteTable, all: &IpNet) {
    for (net, _, _) in table.list(all) {
        show_network(rt, table, &net);
    }
}

/// Adds a network that isn't stored.
fn add(rt: &HostRuntime, table: &mut RouteTable, text: &str) -> Result<(), Fault> {
    let net = network(text)?;
    begin(rt);
    match table.add(net, Hop::Number(9), 100) {
        Err(AddRefused::Store(error)) => {
            end(rt);
            refused(rt, &error);
        }
        outcome => ended_with(rt, outcome, "added"),
    }
    Ok(())
}

/// A change of a network that isn't stored.
pub fn change<T, F: FnOnce(&mut T, IpNet) -> Result<(), Refused>>(
    rt: &HostRuntime,
    table: &mut T,
    net: IpNet,
    call: F,
) -> Result<(), Fault>
    requires { F.IsAlwaysCallable call }
{
    begin(rt);
    ended_with(rt, call(table, net), "changed");
    Ok(())
}

/// Stores the best routes of IPv4 in a table.
fn store_best(table: &mut HopTable, routes: &RouteTable) -> Result<(), Fault> {
    for (net, hop, _) in routes.list(&IpNet::default()) {
        store(table, net, hop)?;
    }
    Ok(())
}

fn store(table: &mut HopTable, net: IpNet, hop: Hop) -> Result<(), Fault> {
    made(table.overwrite(net, hop))
}

/// A least table of a table with one route for each network, which is consumed.
fn into_least(rt: &HostRuntime, routes: &RouteTable) -> Result<(), Fault> {
    let mut table = made(HopTable::new(rt.alloc()))?;
    store_best(&mut table, routes)?;
    answer_least(rt, table);
    Ok(())
}

/// Makes the call between the marks, and shows the routes.
fn answer_least(rt: &HostRuntime, table: HopTable) {
    begin(rt);
    if let Some(routes) = ended(rt, table.into_least()) {
        lines(rt, "answer ", routes);
    }
}

/// So many hosts that the steps of the computation, the sets of hops and the routes each fill more than one block of memory.
const MANY: u32 = 360;

/// Stores these hosts. Ten hops take turns.
fn store_many(table: &mut HopTable) -> Result<(), Fault> {
    for number in 0..MANY {
        let host = IpNet::from(IpAddr::V4(Ipv4Addr::from_bits(number)));
        store(table, host, Hop::Number(number % 10))?;
    }
    Ok(())
}

/// A least table of these hosts.
fn into_least_of_many(rt: &HostRuntime) -> Result<(), Fault> {
    let mut table = made(HopTable::new(rt.alloc()))?;
    store_many(&mut table)?;
    answer_least(rt, table);
    Ok(())
}

/// A second to an eighth route of a network, a ninth, and another preference of the first.
fn add_routes(rt: &HostRuntime, table: &mut RouteTable, net: &IpNet) {
    for number in 10..18 {
        line(rt, &table.add(*net, Hop::Number(number), 150));
    }
    line(rt, &table.add(*net, Hop::Number(3), 200));
}

/// Routes to remove: a best route, a last route, and one that isn't there.
const GONE: [(&str, Hop); 4] = [
    ("10.0.0.0/8", Hop::Number(1)),
    ("10.1.2.4/30", Hop::Number(3)),
    ("10.1.0.0/16", Hop::Drop),
    ("2001:db8:8000::/33", Hop::Number(2)),
];

fn del_all(rt: &HostRuntime, table: &mut RouteTable) -> Result<(), Fault> {
    for (text, hop) in &GONE {
        line(rt, &table.del(&network(text)?, *hop));
    }
    Ok(())
}

/// Lookups, and the blocks that networks govern.
fn look_up(rt: &HostRuntime, table: &RouteTable, net: &IpNet) -> Result<(), Fault> {
    line(rt, &(table.get(net), table.get_visits(net)));
    show_network(rt, table, net);
    lines(rt, "", table.cover(net));
    lines(rt, "", table.governed(&network("10.0.0.0/8")?));
    lines(rt, "", table.governed(&network("2001:db8::/32")?));
    Ok(())
}

/// The routes from a network on, after it, and inside it.
fn pages(rt: &HostRuntime, table: &RouteTable) -> Result<(), Fault> {
    let net = network("10.1.0.0/16")?;
    lines(rt, "", table.from(&net));
    lines(rt, "", table.after(&net));
    lines(rt, "", table.list(&net));
    line(rt, &table.count());
    Ok(())
}

/// An index of a table of both families.
fn index(rt: &HostRuntime, table: &RouteTable) -> Result<(), Fault> {
    begin(rt);
    match ended(rt, HopIndex::from_table(rt.alloc(), table)) {
        Some(index) => answer_hops(rt, &index),
        None => Ok(()),
    }
}

/// Hosts with a hop each, so close together that an index needs nodes for them. An index stores a mark for the greatest hop, that of the
/// first host.
const HOSTS: [&str; 12] = [
    "10.1.2.8/32",
    "10.1.2.9/32",
    "10.1.2.10/32",
    "10.1.2.11/32",
    "10.1.2.12/32",
    "10.1.2.13/32",
    "2001:db8::1/128",
    "2001:db8::2/128",
    "2001:db8::3/128",
    "2001:db8::4/128",
    "2001:db8::5/128",
    "2001:db8::6/128",
];

fn store_hosts(table: &mut HopTable) -> Result<(), Fault> {
    for (place, text) in HOSTS.iter().enumerate() {
        store(table, network(text)?, Hop::Number(u32::MAX - place as u32))?;
    }
    Ok(())
}

/// An index of a table with one route for each network, some of which are close together.
fn index_of_hops(rt: &HostRuntime, routes: &RouteTable) -> Result<(), Fault> {
    let mut table = made(HopTable::new(rt.alloc()))?;
    store_best(&mut table, routes)?;
    store_hosts(&mut table)?;
    begin(rt);
    match ended(rt, HopIndex::from_hop_table(rt.alloc(), &table)) {
        Some(index) => answer_hops(rt, &index),
        None => Ok(()),
    }
}

/// The addresses that are looked up in indexes.
const ADDRESSES: [&str; 4] = ["10.1.2.4", "10.64.0.1", "2001:db8::1", "2001:db8:8000::"];

fn answer_hops(rt: &HostRuntime, index: &HopIndex) -> Result<(), Fault> {
    for text in &ADDRESSES {
        part(rt, &"answer ");
        line(rt, &index.hop(made(IpAddr::from_str(text))?));
    }
    Ok(())
}

/// The addresses that are looked up together.
fn addresses() -> Result<[IpAddr; 4], Fault> {
    let mut addrs = [IpNet::default().addr(); 4];
    for (place, text) in ADDRESSES.iter().enumerate() {
        addrs[place] = made(IpAddr::from_str(text))?;
    }
    Ok(addrs)
}

/// Lookups in an index, one by one and together.
fn hops(rt: &HostRuntime, table: &RouteTable) -> Result<(), Fault> {
    let addrs = addresses()?;
    let index = made(HopIndex::from_table(rt.alloc(), table))?;
    hops_of(rt, &index, &addrs)
}

fn hops_of(rt: &HostRuntime, index: &HopIndex, addrs: &[IpAddr; 4]) -> Result<(), Fault> {
    let mut hops = [None; 4];
    begin(rt);
    answer_hops(rt, index)?;
    index.hops(addrs, &mut hops);
    line(rt, &hops);
    end(rt);
    Ok(())
}
