//! A map whose requests for memory may be refused.
use crate::tests::maps::is_equal;
use prefix_trie::{PrefixMap, Refused};
use std::process::Abort;

/// Checks that the map is empty. A second attempt must succeed.
fn stores_yet(rt: &impl Abort, map: &mut PrefixMap<(u32, u8), u32>) {
    is_equal(rt, map.len(), 0);
    is_equal(rt, map.node_count(), 1);
    is_equal(rt, map.insert((0x0102_0300, 32), 6).is_ok(), true);
}

/// Stores a key of 32 bits. If memory is refused at first, the second attempt must succeed.
fn stores_at_last(rt: &impl Abort, map: &mut PrefixMap<(u32, u8), u32>) {
    match map.insert((0x0102_0300, 32), 5) {
        Ok(old) => is_equal(rt, old, None),
        Err((refused, value)) => {
            is_equal(rt, refused, Refused::Memory);
            is_equal(rt, value, 5);
            stores_yet(rt, map);
        }
    }
}

/// A key of 32 bits needs six new nodes. Each request for memory may be refused.
#[test]
fn refused(rt: HostRuntime) {
    let mut map: PrefixMap<(u32, u8), u32> = PrefixMap::new(rt.alloc()).expect(&rt, "a map");
    stores_at_last(&rt, &mut map);
    is_equal(&rt, map.node_count(), 7);
    is_equal(&rt, map.len(), 1);
}
