//! Least tables, with expected values written out.
use crate::tests::steps::Step::{BuiltBack, Least};
use crate::tests::steps::{Script, carry_out};
use crate::tests::tables::{add, hop_table, pieces, routes_are, row_is, table};
use ipnet::{IpAddr, IpNet};
use route_table::{Hop, HopTable, LeastRoutes, Refused, RouteTable};
use std::alloc::Global;
use std::net::Ipv4Addr;
use std::process::Abort;

/// Checks the routes of the least table.
pub(crate) fn least_is(rt: &impl Abort, row: &str, table: &RouteTable, wanted: &str) {
    let least = table.least().expect(rt, "memory");
    routes_are(rt, row, least.as_slice(), wanted);
}

/// How many blocks the flat list has, which is that of the other table too.
fn same_flat(rt: &impl Abort, alloc: Global, table: &RouteTable, other: &RouteTable) -> usize {
    let found = pieces(rt, alloc, table.flat());
    let others = pieces(rt, alloc, other.flat());
    row_is(rt, "the pieces", others.as_slice(), found.as_slice());
    found.len()
}

/// A table of these routes.
fn built(rt: &impl Abort, alloc: Global, routes: &[(IpNet, Hop)]) -> RouteTable {
    let mut table = table(rt, alloc, "");
    for (net, hop) in routes {
        add(rt, &mut table, *net, *hop, "a route");
    }
    table
}

/// Checks that a table of the least routes has the same flat list as `table`. There must be `wanted` least routes, and no more than the
/// table has networks or the flat list has blocks.
pub(crate) fn is_built_back(
    rt: &impl Abort,
    alloc: Global,
    row: &str,
    table: &RouteTable,
    wanted: usize,
) {
    let least = table.least().expect(rt, "memory");
    row_is(rt, row, least.len(), wanted);
    let (v4, v6) = table.count();
    row_is(rt, row, least.len() <= v4.wrapping_add(v6), true);
    let count = same_flat(rt, alloc, table, &built(rt, alloc, least.as_slice()));
    row_is(rt, row, least.len() <= count, true);
}

/// Checks the number of least routes. `Refused::Memory` is accepted too.
pub(crate) fn least_count_is(rt: &impl Abort, table: &RouteTable, wanted: usize) {
    match table.least() {
        Ok(least) => row_is(rt, "routes", least.len(), wanted),
        Err(refused) => row_is(rt, "refused", refused, Refused::Memory),
    }
}

/// Tables of both families, and the routes of their least tables or the number of these routes.
static LEAST: [Script; 14] = [
    (
        "a route inside another",
        "10.0.0.0/8 1, 10.0.0.0/9 2, 10.64.0.0/10 1",
        &[Least("10.0.0.0/8 1, 10.0.0.0/10 2")],
    ),
    (
        "drop inside a route of each family",
        "2001:db8::/33 7, 2001:db8:8000::/33 7, 2001:db8::1/128 drop, 10.0.0.0/8 1, 10.0.0.1/32 drop, 10.0.0.2/32 1",
        &[Least("10.0.0.0/8 1, 10.0.0.1/32 drop, 2001:db8::/32 7, 2001:db8::1/128 drop")],
    ),
    (
        "all but the ends",
        "0.0.0.0/0 3, 0.0.0.0/32 drop, 255.255.255.255/32 9, ::/0 4, ::/128 drop, \
         ffff:ffff:ffff:ffff:ffff:ffff:ffff:ffff/128 drop",
        &[Least(
            "0.0.0.0/0 3, 0.0.0.0/32 drop, 255.255.255.255/32 9, ::/0 4, ::/128 drop, \
         ffff:ffff:ffff:ffff:ffff:ffff:ffff:ffff/128 drop",
        )],
    ),
    // In both families the greatest address has its own hop, in a table where another route surrounds it.
    (
        "the greatest addresses",
        "255.255.255.252/31 5, 255.255.255.254/32 5, 255.255.255.255/32 9, \
         ffff:ffff:ffff:ffff:ffff:ffff:ffff:fffc/127 5, ffff:ffff:ffff:ffff:ffff:ffff:ffff:fffe/128 5, \
         ffff:ffff:ffff:ffff:ffff:ffff:ffff:ffff/128 9",
        &[Least(
            "255.255.255.252/30 5, 255.255.255.255/32 9, ffff:ffff:ffff:ffff:ffff:ffff:ffff:fffc/126 5, \
         ffff:ffff:ffff:ffff:ffff:ffff:ffff:ffff/128 9",
        )],
    ),
    // A `drop` route is kept if the address would inherit a number without it, and only then.
    (
        "drop under a number",
        "0.0.0.0/0 1, 10.0.0.0/8 drop, 10.1.0.0/16 1, 10.2.0.0/16 drop, ::/1 drop, 8000::/1 2",
        &[Least("0.0.0.0/0 1, 10.0.0.0/8 drop, 10.1.0.0/16 1, 8000::/1 2")],
    ),
    ("nothing in an empty table", "", &[Least("")]),
    // Halves without hops, of one level and of several, beside a half with one hop and a half with two.
    (
        "halves without hops",
        "0.0.0.0/2 1, 96.0.0.0/3 1, 144.0.0.0/4 2, 224.0.0.0/5 3, 232.0.0.0/5 4",
        &[Least("0.0.0.0/1 1, 64.0.0.0/3 drop, 144.0.0.0/4 2, 224.0.0.0/4 3, 232.0.0.0/5 4")],
    ),
    (
        "a wide route and one inside",
        "2001:db8::/34 2, 2001:db8:4000::/34 1, 2001:db8:8000::/33 1",
        &[Least("2001:db8::/32 1, 2001:db8::/34 2")],
    ),
    (
        "two hosts at the ends of all addresses",
        "::/128 7, ffff:ffff:ffff:ffff:ffff:ffff:ffff:ffff/128 7",
        &[Least("::/128 7, ffff:ffff:ffff:ffff:ffff:ffff:ffff:ffff/128 7")],
    ),
    (
        "one inside another",
        "10.0.0.0/8 1, 10.0.0.0/9 2, 10.64.0.0/10 1, 2001:db8::/33 7, 2001:db8:8000::/33 8, 2001:db8:8000::/34 7",
        &[BuiltBack(4)],
    ),
    (
        "drop inside another",
        "10.0.0.0/30 1, 10.0.0.1/32 drop, ::/0 4, 8000::/1 drop, c000::/2 drop",
        &[BuiltBack(3)],
    ),
    (
        "the greatest addresses",
        "255.255.255.255/32 9, 255.255.255.252/30 5, 255.255.255.253/32 drop, \
         ffff:ffff:ffff:ffff:ffff:ffff:ffff:fffc/126 5, \
         ffff:ffff:ffff:ffff:ffff:ffff:ffff:ffff/128 drop",
        &[BuiltBack(5)],
    ),
    (
        "quarters in turn",
        "0.0.0.0/2 1, 64.0.0.0/2 2, 128.0.0.0/2 1, 192.0.0.0/2 2, ::/2 2, 4000::/2 3, 8000::/2 2, c000::/2 3",
        &[BuiltBack(6)],
    ),
    (
        "routes that say nothing",
        "0.0.0.0/0 1, 0.0.0.0/1 1, 10.0.0.0/8 drop, 10.0.0.0/9 drop, ::/0 drop, ::/1 drop",
        &[BuiltBack(2)],
    ),
];

#[test]
fn least(rt: HostRuntime) {
    carry_out(&rt, rt.alloc(), &LEAST);
}

/// Installs the host with its own hop.
fn install_host(rt: &impl Abort, table: &mut HopTable, number: u32) {
    let host = IpNet::from(IpAddr::V4(Ipv4Addr::from_bits(number)));
    table
        .install(host, Hop::Number(number))
        .expect(rt, "memory");
}

/// Installs 5000 hosts.
fn install_hosts(rt: &impl Abort, table: &mut HopTable) {
    for number in 0..5000 {
        install_host(rt, table, number);
    }
}

/// The number of the routes, and the sum of their hops.
fn sums(routes: LeastRoutes) -> (u32, u32) {
    let (mut count, mut sum) = (0_u32, 0_u32);
    for (_, hop) in routes {
        count = count.wrapping_add(1);
        sum = sum.wrapping_add(hop.number().unwrap_or(0));
    }
    (count, sum)
}

/// Consecutive hosts, each with its own hop, so that each hop needs one route. The steps, the hops of sets and the routes each fill more
/// than one block of memory.
#[test]
fn more_than_a_block(rt: HostRuntime) {
    let mut table = hop_table(&rt, rt.alloc());
    install_hosts(&rt, &mut table);
    let (count, sum) = sums(table.into_least().expect(&rt, "memory"));
    row_is(&rt, "routes", count, 5000);
    row_is(&rt, "their hops", sum, 12_497_500);
}
