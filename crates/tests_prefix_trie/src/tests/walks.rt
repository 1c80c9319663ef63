//! Walks that no script contains.
use crate::tests::maps::{digits, is_equal, is_key, map_of, net};
use ipnet::Ipv4Net;
use prefix_trie::PrefixMap;
use std::alloc::Global;
use std::process::Abort;

/// Three nested networks.
fn three_networks(rt: &impl Abort, alloc: Global) -> PrefixMap<Ipv4Net, u32> {
    let stored = [("10.1.1.0/24", 3), ("10.0.0.0/8", 1), ("10.1.0.0/16", 2)];
    map_of(rt, alloc, &stored)
}

#[test]
fn first_keys(rt: HostRuntime) {
    let map = three_networks(&rt, rt.alloc());
    is_key(
        &rt,
        map.cover_keys(&net(&rt, "10.1.1.9/32")).next(),
        "10.0.0.0/8",
    );
    is_key(&rt, map.keys().next(), "10.0.0.0/8");
}

/// Takes one entry from a walk, and checks the rest by a copy and by the walk itself.
fn is_walked_twice(rt: &impl Abort, map: &PrefixMap<Ipv4Net, u32>, wanted: u32) {
    let mut entries = map.into_iter();
    is_equal(rt, entries.next().is_some(), true);
    let copy = entries.clone().expect(rt, "a copy");
    is_equal(rt, digits(copy), wanted);
    is_equal(rt, digits(entries), wanted);
}

#[test]
fn walked_twice(rt: HostRuntime) {
    let map = map_of(&rt, rt.alloc(), &[("10.0.0.0/8", 1), ("10.2.0.0/16", 2)]);
    is_walked_twice(&rt, &map, 2);
}
