//! The calls of a map that are met first, as the comments of these calls show them.
use crate::tests::maps::{map_of, net};
use ipnet::Ipv4Net;
use prefix_trie::PrefixMap;
use std::alloc::Global;
use std::process::Abort;

/// 10.0.0.0/8 with 1, and 10.1.0.0/16 with 2.
fn two_entries(rt: &impl Abort, alloc: Global) -> PrefixMap<Ipv4Net, u32> {
    map_of(rt, alloc, &[("10.1.0.0/16", 2), ("10.0.0.0/8", 1)])
}

#[test]
fn stored(rt: HostRuntime) {
    let mut map: PrefixMap<Ipv4Net, u32> = PrefixMap::new(rt.alloc()).expect(&rt, "a map");
    let wide = net(&rt, "10.0.0.0/8");
    assert!(rt; matches!(map.insert(wide, 1), Ok(None)));
    assert!(rt; matches!(map.insert(wide, 3), Ok(Some(1))));
}

/// Lookups of a network.
fn found(rt: &impl Abort, map: &PrefixMap<Ipv4Net, u32>) {
    let inner = net(&rt, "10.1.0.0/16");
    let host = net(&rt, "10.1.2.3/32");
    assert_eq!(rt; map.get(&inner), Some(&2));
    assert_eq!(rt; map.get(&host), None);
    assert_eq!(rt; map.get_lpm(&host), Some((inner, &2)));
}

/// Lookups of a key and of the longest and the shortest match.
fn searched(rt: &impl Abort, map: &PrefixMap<Ipv4Net, u32>) {
    let wide = net(&rt, "10.0.0.0/8");
    let inner = net(&rt, "10.1.0.0/16");
    let host = net(&rt, "10.1.2.3/32");
    let same = net(&rt, "10.1.2.3/16");
    assert_eq!(rt; map.get_key_value(&same), Some((inner, &2)));
    assert_eq!(rt; map.longest_match(&host), Some((16, &2)));
    assert_eq!(rt; map.get_lpm_prefix(&host), Some(inner));
    assert_eq!(rt; map.get_spm(&host), Some((wide, &1)));
    assert_eq!(rt; map.get_spm_prefix(&host), Some(wide));
}

/// Whether keys are stored, covered, or have none inside.
fn contained(rt: &impl Abort, map: &PrefixMap<Ipv4Net, u32>) {
    let wide = net(&rt, "10.0.0.0/8");
    let inner = net(&rt, "10.1.0.0/16");
    let host = net(&rt, "10.1.2.3/32");
    assert!(rt; map.contains_key(&inner) && !map.contains_key(&host));
    let other = net(&rt, "11.0.0.0/8");
    assert!(rt; map.is_covered(&host) && !map.is_covered(&other));
    assert!(rt; map.is_leaf(&inner) && !map.is_leaf(&wide));
}

/// A walk over all entries.
fn walked(rt: &impl Abort, map: &PrefixMap<Ipv4Net, u32>) {
    let wide = net(&rt, "10.0.0.0/8");
    let inner = net(&rt, "10.1.0.0/16");
    let mut entries = map.iter();
    assert_eq!(rt; entries.next(), Some((wide, &1)));
    assert_eq!(rt; entries.next(), Some((inner, &2)));
    assert!(rt; entries.next().is_none());
}

/// The first entry of each walk.
fn walked_in_part(rt: &impl Abort, map: &PrefixMap<Ipv4Net, u32>) {
    let wide = net(&rt, "10.0.0.0/8");
    let inner = net(&rt, "10.1.0.0/16");
    let host = net(&rt, "10.1.2.3/32");
    assert_eq!(rt; map.children(&inner).next(), Some((inner, &2)));
    assert_eq!(rt; map.iter_from(&wide, false).next(), Some((inner, &2)));
    assert_eq!(rt; map.cover(&host).next(), Some((wide, &1)));
    assert_eq!(rt; map.values().next(), Some(&1));
}

#[test]
fn walked_by_for(rt: HostRuntime) {
    let map = two_entries(&rt, rt.alloc());
    let mut most = 0;
    for (_, value) in &map {
        most = most.max(*value);
    }
    assert_eq!(rt; most, 2);
}

/// The numbers of keys and addresses.
fn counted(rt: &impl Abort, map: &mut PrefixMap<Ipv4Net, u32>) {
    assert_eq!(rt; map.len(), 2);
    assert_eq!(rt; map.address_count(), Some(1 << 24));
    map.clear();
    assert!(rt; map.is_empty());
}

/// Values that are written through references.
fn written(rt: &impl Abort, map: &mut PrefixMap<Ipv4Net, u32>) {
    let inner = net(&rt, "10.1.0.0/16");
    let host = net(&rt, "10.1.2.3/32");
    *map.get_mut(&inner).expect(&rt, "a value") = 5;
    assert_eq!(rt; map.get(&inner), Some(&5));
    *map.get_lpm_value_mut(&host).expect(&rt, "a match") = 6;
    assert_eq!(rt; map.get(&inner), Some(&6));
    written_by_an_entry(rt, map, inner);
}

/// A value that is written through the reference of an entry.
fn written_by_an_entry(rt: &impl Abort, map: &mut PrefixMap<Ipv4Net, u32>, inner: Ipv4Net) {
    *map.entry(inner).or_insert(0).expect(&rt, "memory") = 7;
    assert_eq!(rt; map.get(&inner), Some(&7));
}

/// An entry whose value is made if it is absent.
fn stored_if_absent(rt: &impl Abort, map: &mut PrefixMap<Ipv4Net, u32>) {
    let host = net(&rt, "10.1.2.3/32");
    let value = *map.entry(host).or_insert_with(|| 3).expect(&rt, "memory");
    assert_eq!(rt; value, 3);
}

/// A key that is removed twice.
fn taken_out(rt: &impl Abort, map: &mut PrefixMap<Ipv4Net, u32>) {
    let inner = net(&rt, "10.1.0.0/16");
    assert_eq!(rt; map.remove(&inner), Some(2));
    assert_eq!(rt; map.remove(&inner), None);
}

/// Nodes that stay and nodes that go.
fn nodes_kept(rt: &impl Abort, map: &mut PrefixMap<Ipv4Net, u32>) {
    let inner = net(&rt, "10.1.0.0/16");
    assert_eq!(rt; map.remove_keep_tree(&inner), Some(2));
    assert_eq!(rt; map.node_count(), 4);
    assert_eq!(rt; map.remove(&inner), None);
    assert_eq!(rt; map.node_count(), 2);
}

/// All keys inside a network, removed.
fn taken_out_inside(rt: &impl Abort, map: &mut PrefixMap<Ipv4Net, u32>) {
    let inner = net(&rt, "10.1.0.0/16");
    map.remove_children(&inner);
    assert_eq!(rt; map.len(), 1);
}

/// The entries that a closure keeps.
fn kept_if_asked(rt: &impl Abort, map: &mut PrefixMap<Ipv4Net, u32>) {
    map.retain(|_, value| *value > 1);
    assert_eq!(rt; map.len(), 1);
}

#[test]
fn reads(rt: HostRuntime) {
    let map = two_entries(&rt, rt.alloc());
    found(&rt, &map);
    searched(&rt, &map);
    contained(&rt, &map);
    walked(&rt, &map);
    walked_in_part(&rt, &map);
}

#[test]
fn changes(rt: HostRuntime) {
    counted(&rt, &mut two_entries(&rt, rt.alloc()));
    written(&rt, &mut two_entries(&rt, rt.alloc()));
    stored_if_absent(&rt, &mut two_entries(&rt, rt.alloc()));
    taken_out(&rt, &mut two_entries(&rt, rt.alloc()));
    nodes_kept(&rt, &mut two_entries(&rt, rt.alloc()));
    taken_out_inside(&rt, &mut two_entries(&rt, rt.alloc()));
    kept_if_asked(&rt, &mut two_entries(&rt, rt.alloc()));
}
