//! Indexes of tables: an index gives each address the hop that the table gives it.
use crate::tests::hop_tables::overwrite;
use crate::tests::steps::Step::{Index, IndexBefore};
use crate::tests::steps::{Script, carry_out};
use crate::tests::tables::{hop_table, listed, net, put, row_is, table};
use hop_index::HopIndex;
use ipnet::{IpAddr, IpNet};
use route_table::{Hop, HopTable, RouteTable};
use std::alloc::Global;
use std::process::Abort;
use std::str::FromStr;

/// Routes that touch, nest and leave gaps. They lie at both ends of both families, of 2000::/3, and of a chunk of the index. Some share
/// one block of 256 addresses, or one /64. One has the hop that means none elsewhere. Two have the greatest hop that a cell
/// can have itself, and the next one.
const ROUTES: &str = "0.0.0.0/30 1, 0.0.64.0/18 2, 0.0.128.0/32 2, 10.0.0.0/8 4, 10.1.0.0/16 drop, \
     10.1.2.0/24 4294967295, 10.1.2.3/32 0, 20.0.1.0/24 16, 20.0.3.0/24 17, 20.0.5.128/25 18, \
     30.0.0.0/16 1073741822, 30.1.0.0/16 1073741823, 255.255.255.254/31 5, 255.255.255.255/32 6, ::/128 7, 1fff:ff00::/24 12, 2000::/20 13, \
     2001:db8::/32 8, 2001:db8:8000::/33 9, 2a00:1:0:0:4000::/66 19, 2a00:1:0:0:8000::/65 20, \
     2a00:20::/32 21, 2a0e::/29 22, 2a0f::/29 23, 2a0f:8::/48 23, 2a10::/48 24, \
     2a10:0:0:8000::/49 25, 3fff:f000::/20 14, 4000::/16 15, ffff:ffff:ffff:ffff:ffff:ffff:ffff:fffe/127 10, \
     ffff:ffff:ffff:ffff:ffff:ffff:ffff:ffff/128 11";

/// Addresses, and their hops by these routes, worked out by hand.
static HOPS: [(&str, Option<u32>); 61] = [
    ("0.0.0.0", Some(1)),
    ("0.0.0.3", Some(1)),
    ("0.0.0.4", None),
    ("0.0.63.255", None),
    ("0.0.64.0", Some(2)),
    ("0.0.127.255", Some(2)),
    ("0.0.128.0", Some(2)),
    ("0.0.128.1", None),
    ("9.255.255.255", None),
    ("10.0.0.0", Some(4)),
    ("10.1.0.0", None),
    ("10.1.2.2", Some(4294967295)),
    ("10.1.2.3", Some(0)),
    ("10.1.2.4", Some(4294967295)),
    ("10.255.255.255", Some(4)),
    ("20.0.0.255", None),
    ("20.0.1.0", Some(16)),
    ("20.0.2.0", None),
    ("20.0.3.255", Some(17)),
    ("20.0.5.127", None),
    ("20.0.5.128", Some(18)),
    ("20.0.63.255", None),
    ("30.0.0.0", Some(1073741822)),
    ("30.1.255.255", Some(1073741823)),
    ("255.255.255.253", None),
    ("255.255.255.254", Some(5)),
    ("255.255.255.255", Some(6)),
    ("::", Some(7)),
    ("::1", None),
    ("1fff:feff:ffff:ffff:ffff:ffff:ffff:ffff", None),
    ("1fff:ffff:ffff:ffff:ffff:ffff:ffff:ffff", Some(12)),
    ("2000::", Some(13)),
    ("2000:7ff:ffff:ffff:ffff:ffff:ffff:ffff", Some(13)),
    ("2000:800::", Some(13)),
    ("2000:1000::", None),
    ("2001:db7:ffff:ffff:ffff:ffff:ffff:ffff", None),
    ("2001:db8:7fff:ffff:ffff:ffff:ffff:ffff", Some(8)),
    ("2001:db8:8000::", Some(9)),
    ("2001:db9::", None),
    ("2a00:1:0:0:3fff:ffff:ffff:ffff", None),
    ("2a00:1:0:0:4000::", Some(19)),
    ("2a00:1:0:0:7fff:ffff:ffff:ffff", Some(19)),
    ("2a00:1:0:0:8000::", Some(20)),
    ("2a00:1:0:1::", None),
    ("2a00:1f::", None),
    ("2a00:20::", Some(21)),
    ("2a00:21::", None),
    ("2a0e:7:ffff:ffff:ffff:ffff:ffff:ffff", Some(22)),
    ("2a0e:8::", None),
    ("2a0f:7:ffff:ffff:ffff:ffff:ffff:ffff", Some(23)),
    ("2a0f:8:0:ffff:ffff:ffff:ffff:ffff", Some(23)),
    ("2a0f:8:1::", None),
    ("2a10:0:0:7fff:ffff:ffff:ffff:ffff", Some(24)),
    ("2a10:0:0:8000::", Some(25)),
    ("2a10:0:1::", None),
    ("3fff:efff:ffff:ffff:ffff:ffff:ffff:ffff", None),
    ("3fff:ffff:ffff:ffff:ffff:ffff:ffff:ffff", Some(14)),
    ("4000::", Some(15)),
    ("4001::", None),
    ("ffff:ffff:ffff:ffff:ffff:ffff:ffff:fffe", Some(10)),
    ("ffff:ffff:ffff:ffff:ffff:ffff:ffff:ffff", Some(11)),
];

pub(crate) fn address(rt: &impl Abort, text: &str) -> IpAddr {
    IpAddr::from_str(text).expect(rt, text)
}

/// The addresses of `HOPS`.
fn addresses(rt: &impl Abort) -> [IpAddr; 61] {
    let mut addrs = [address(rt, "::"); 61];
    for (place, (text, _)) in HOPS.iter().enumerate() {
        addrs[place] = address(rt, text);
    }
    addrs
}

/// Checks the hop of the address.
fn hop_is(rt: &impl Abort, index: &HopIndex, text: &str, hop: Option<u32>) {
    row_is(rt, text, index.hop(address(rt, text)), hop);
}

/// Checks the hop of each address, in a single look-up and in one look-up of all addresses.
fn hops_are(rt: &impl Abort, index: &HopIndex) {
    let mut hops = [None; 61];
    index.hops(&addresses(rt), &mut hops);
    let mut left = hops.iter();
    for (text, hop) in &HOPS {
        hop_is(rt, index, text, *hop);
        row_is(rt, text, left.next().copied(), Some(*hop));
    }
}

/// The numbers of addresses that are looked up together: none, one, and around the number that goes through the steps together.
const COUNTS: [usize; 6] = [0, 1, 31, 32, 33, 100];

/// A row of `HOPS` for each place, so that families change often.
fn row_at(place: usize) -> (&'static str, Option<u32>) {
    HOPS[place % 61 * 30 % 61]
}

/// Checks the hops at the first `count` places; the others are as they were.
fn rows_are(rt: &impl Abort, count: usize, hops: &[Option<u32>; 100]) {
    for place in 0..100 {
        let (text, hop) = row_at(place);
        let hop = if place < count { hop } else { Some(99) };
        row_is(rt, text, hops[place], hop);
    }
}

/// Checks the hops of so many addresses of both families, looked up together.
fn batches_are(rt: &impl Abort, index: &HopIndex) {
    let mut addrs = [address(rt, "::"); 100];
    for place in 0..100 {
        addrs[place] = address(rt, row_at(place).0);
    }
    for count in COUNTS {
        let mut hops = [Some(99); 100];
        index.hops(&addrs[..count], &mut hops[..count]);
        rows_are(rt, count, &hops);
    }
}

/// An index of the table.
fn index_of(rt: &impl Abort, alloc: Global, table: &RouteTable) -> HopIndex {
    HopIndex::from_table(alloc, table).expect(rt, "an index")
}

/// Checks these hops by the index.
fn index_has(rt: &impl Abort, index: &HopIndex, hops: &[(&str, Option<u32>)]) {
    for (text, hop) in hops {
        hop_is(rt, index, text, *hop);
    }
}

/// Checks the hops by an index of a table of these routes.
fn index_of_has(rt: &impl Abort, alloc: Global, routes: &str, hops: &[(&str, Option<u32>)]) {
    index_has(rt, &index_of(rt, alloc, &table(rt, alloc, routes)), hops);
}

/// Stores these routes.
fn overwrite_all(rt: &impl Abort, table: &mut HopTable, routes: &[(IpNet, Hop, u16)]) {
    for (net, hop, _) in routes {
        overwrite(rt, table, *net, *hop);
    }
}

/// A hop table of the best routes of a route table.
fn best(rt: &impl Abort, alloc: Global, routes: &RouteTable) -> HopTable {
    let mut table = hop_table(rt, alloc);
    for all in ["0.0.0.0/0", "::/0"] {
        overwrite_all(
            rt,
            &mut table,
            routes_inside(rt, alloc, routes, all).as_slice(),
        );
    }
    table
}

/// The routes inside this network.
fn routes_inside(
    rt: &impl Abort,
    alloc: Global,
    routes: &RouteTable,
    all: &str,
) -> Vec<(IpNet, Hop, u16)> {
    listed(rt, alloc, routes.list(&net(rt, all)))
}

/// Checks the hops, one by one, together, and in batches.
fn all_are(rt: &impl Abort, index: &HopIndex) {
    hops_are(rt, index);
    batches_are(rt, index);
}

/// Checks an index of the hop table.
fn index_of_best_is(rt: &impl Abort, alloc: Global, best: &HopTable) {
    let index = HopIndex::from_hop_table(alloc, &best).expect(rt, "an index");
    hops_are(rt, &index);
}

/// Checks an index of the table, and an index of the hop table of its best routes.
pub(crate) fn indexes_are(rt: &impl Abort, alloc: Global, table: &RouteTable) {
    all_are(rt, &index_of(rt, alloc, table));
    index_of_best_is(rt, alloc, &best(rt, alloc, table));
}

/// An index of a table without routes has no hop, and still has none after a route is added to the table.
pub(crate) fn stays_empty(rt: &impl Abort, alloc: Global, table: &mut RouteTable, text: &str) {
    let index = index_of(rt, alloc, table);
    put(rt, table, text, Hop::Number(1));
    has_no_hop(rt, &index);
}

/// Checks that the index has no hop.
fn has_no_hop(rt: &impl Abort, index: &HopIndex) {
    row_is(rt, "10.0.0.1", index.hop(address(rt, "10.0.0.1")), None);
    row_is(rt, "::1", index.hop(address(rt, "::1")), None);
}

/// Tables, and checks of indexes of them.
static INDEXES: [Script; 2] = [
    ("of a table and of hops", ROUTES, &[Index]),
    ("of no routes and a copy", "", &[IndexBefore("0.0.0.0/0")]),
];

#[test]
fn indexes(rt: HostRuntime) {
    carry_out(&rt, rt.alloc(), &INDEXES);
}

/// Hops by an index of 2001:db8::/32 alone: before its chunk, in it, after it, and at the highest addresses.
static OF_ONE: [(&str, Option<u32>); 10] = [
    ("::1", None),
    ("2001:db7:ffff:ffff:ffff:ffff:ffff:ffff", None),
    ("2001:db8::", Some(8)),
    ("2001:db8:ffff:ffff:ffff:ffff:ffff:ffff", Some(8)),
    ("2001:db9::", None),
    ("2001:1000::", None),
    ("3fff::1", None),
    ("ffff::", None),
    ("ffff:ffff:ffff:ffff:ffff:ffff:ffff:ffff", None),
    ("255.255.255.255", None),
];

/// Hops by an index of the last /32 of 2000::/3 alone.
static OF_THE_LAST: [(&str, Option<u32>); 5] = [
    ("2001:db8::", None),
    ("3fff:fffe:ffff:ffff:ffff:ffff:ffff:ffff", None),
    ("3fff:ffff::", Some(14)),
    ("3fff:ffff:ffff:ffff:ffff:ffff:ffff:ffff", Some(14)),
    ("4000::", None),
];

#[test]
fn indexes_of_one_network(rt: HostRuntime) {
    index_of_has(&rt, rt.alloc(), "2001:db8::/32 8", &OF_ONE);
    index_of_has(&rt, rt.alloc(), "3fff:ffff::/32 14", &OF_THE_LAST);
}

/// Host routes of which all end in one cell, so that they are searched by halves.
const HOSTS: &str =
    "10.1.0.0/32 4294967295, 10.1.0.2/32 2, 10.1.0.3/32 3, 10.1.0.5/32 5, 10.1.0.7/32 7, 10.1.0.9/32 9, \
     2001:db8::/128 10, 2001:db8::2/128 12, 2001:db8::3/128 4294967295, 2001:db8::5/128 15, 2001:db8::7/128 17, 2001:db8::9/128 19";

/// Hops by an index of these.
static OF_HOSTS: [(&str, Option<u32>); 18] = [
    ("10.0.255.255", None),
    ("10.1.0.0", Some(4294967295)),
    ("10.1.0.1", None),
    ("10.1.0.2", Some(2)),
    ("10.1.0.3", Some(3)),
    ("10.1.0.4", None),
    ("10.1.0.7", Some(7)),
    ("10.1.0.9", Some(9)),
    ("10.1.0.10", None),
    ("2001:db7:ffff:ffff:ffff:ffff:ffff:ffff", None),
    ("2001:db8::", Some(10)),
    ("2001:db8::1", None),
    ("2001:db8::2", Some(12)),
    ("2001:db8::3", Some(4294967295)),
    ("2001:db8::4", None),
    ("2001:db8::5", Some(15)),
    ("2001:db8::9", Some(19)),
    ("2001:db8::a", None),
];

#[test]
fn an_index_of_hosts(rt: HostRuntime) {
    index_of_has(&rt, rt.alloc(), HOSTS, &OF_HOSTS);
}
