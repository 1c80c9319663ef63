//! Indexes of tables in which many networks lie in one cell.
use crate::tests::tables::{add, row_is};
use hop_index::HopIndex;
use ipnet::{IpAddr, IpNet};
use route_table::{Hop, RouteTable};
use std::alloc::Global;
use std::net::{Ipv4Addr, Ipv6Addr};
use std::process::Abort;

/// The number of the /64s that are looked up.
const BLOCKS: u32 = 600;

/// An address in 2001:db8::/32: the number of its /64, and whether it is the last one there.
fn inside(block: u32, is_last: bool) -> IpAddr {
    let first = (0x2001_0db8_u128 << 96) + (u128::from(block) << 64);
    let rest = if is_last { u128::from(u64::MAX) } else { 0 };
    IpAddr::V6(Ipv6Addr::from_bits(first + rest))
}

/// The hop of a /64: only each third has one.
fn hop_inside(block: u32) -> Option<u32> {
    if block % 3 == 0 { Some(block) } else { None }
}

/// The /64.
fn net_inside(rt: &impl Abort, block: u32) -> IpNet {
    IpNet::new(inside(block, false), 64).expect(rt, "a network")
}

/// A table of each third /64.
fn each_third(rt: &impl Abort, alloc: Global) -> RouteTable {
    let mut table = RouteTable::new(alloc).expect(rt, "a table");
    for block in 0..BLOCKS {
        if let Some(hop) = hop_inside(block) {
            add(
                rt,
                &mut table,
                net_inside(rt, block),
                Hop::Number(hop),
                "a /64",
            );
        }
    }
    table
}

/// The hops of the first and the last address of a /64, one by one and together.
fn ends_have(rt: &impl Abort, index: &HopIndex, block: u32) {
    let ends = [inside(block, false), inside(block, true)];
    let mut hops = [Some(1); 2];
    index.hops(&ends, &mut hops);
    row_is(rt, "together", hops, [hop_inside(block); 2]);
    row_is(rt, "the first", index.hop(ends[0]), hop_inside(block));
    row_is(rt, "the last", index.hop(ends[1]), hop_inside(block));
}

/// The same of each /64.
fn each_has(rt: &impl Abort, index: &HopIndex) {
    for block in 0..BLOCKS {
        ends_have(rt, index, block);
    }
}

#[test]
fn many_blocks_in_one_network(rt: HostRuntime) {
    let table = each_third(&rt, rt.alloc());
    each_has(
        &rt,
        &HopIndex::from_table(rt.alloc(), &table).expect(&rt, "an index"),
    );
}

/// The address that is a power of two above 10.1.0.0, or the one after it.
fn host4(power: u32, is_after: bool) -> IpAddr {
    let number = 0x0a01_0000_u32 | (1 << (power % 16));
    let after = if is_after { 1 } else { 0 };
    IpAddr::V4(Ipv4Addr::from_bits(number.wrapping_add(after)))
}

/// The address that is a power of two above 2001::, or the one after it.
fn host6(power: u32, is_after: bool) -> IpAddr {
    let number = (0x2001_u128 << 112) | (1 << (power % 112));
    let after = if is_after { 1 } else { 0 };
    IpAddr::V6(Ipv6Addr::from_bits(number.wrapping_add(after)))
}

/// Adds a route of the host.
fn add_host(rt: &impl Abort, table: &mut RouteTable, host: IpAddr, number: u32) {
    add(rt, table, IpNet::from(host), Hop::Number(number), "a host");
}

/// A table of the IPv4 hosts at all powers of two. So a division of any cell leaves most of its ranges in one.
fn powers4(rt: &impl Abort, alloc: Global) -> RouteTable {
    let mut table = RouteTable::new(alloc).expect(rt, "a table");
    for power in 0..16_u32 {
        add_host(rt, &mut table, host4(power, false), power);
    }
    table
}

/// A table of the IPv6 hosts at all powers of two.
fn powers6(rt: &impl Abort, alloc: Global) -> RouteTable {
    let mut table = RouteTable::new(alloc).expect(rt, "a table");
    for power in 0..112_u32 {
        add_host(rt, &mut table, host6(power, false), power);
    }
    table
}

/// The hop of each IPv4 host, and none after it.
fn hosts4_have(rt: &impl Abort, index: &HopIndex) {
    for power in 1..16_u32 {
        row_is(rt, "the host", index.hop(host4(power, false)), Some(power));
        row_is(rt, "after it", index.hop(host4(power, true)), None);
    }
}

#[test]
fn ipv4_hosts_at_powers_of_two(rt: HostRuntime) {
    let table = powers4(&rt, rt.alloc());
    hosts4_have(
        &rt,
        &HopIndex::from_table(rt.alloc(), &table).expect(&rt, "an index"),
    );
}

/// The hop of each IPv6 host, and none after it.
fn hosts6_have(rt: &impl Abort, index: &HopIndex) {
    for power in 1..112_u32 {
        row_is(rt, "the host", index.hop(host6(power, false)), Some(power));
        row_is(rt, "after it", index.hop(host6(power, true)), None);
    }
}

#[test]
fn ipv6_hosts_at_powers_of_two(rt: HostRuntime) {
    let table = powers6(&rt, rt.alloc());
    hosts6_have(
        &rt,
        &HopIndex::from_table(rt.alloc(), &table).expect(&rt, "an index"),
    );
}
