//! The order in which `retain` asks.
use crate::tests::maps::{is_equal, plain_map_of};
use prefix_trie::PrefixMap;
use std::process::Abort;

/// Keeps each entry. Returns the values in the order in which `retain` asks for them, as digits.
fn kept_values(map: &mut PrefixMap<(u32, u8), u32>) -> u32 {
    let mut asked = 0u32;
    map.retain(|_, value| {
        asked = asked.wrapping_mul(10).wrapping_add(*value);
        true
    });
    asked
}

/// Keeps all entries but the one with the value 2. Returns the second byte of each address with the length, in the order in which
/// `retain` asks for them.
fn asked_keys(map: &mut PrefixMap<(u32, u8), u32>) -> u32 {
    let mut asked = 0u32;
    map.retain(|key, value| {
        // (the second byte of the address, and the length)
        asked = asked
            .wrapping_mul(1000)
            .wrapping_add((key.0 >> 16 & 0xff) * 100 + u32::from(key.1));
        *value != 2
    });
    asked
}

/// Checks the order in which `retain` asks, and the map after it.
fn asks_all(rt: &impl Abort, map: &mut PrefixMap<(u32, u8), u32>) {
    is_equal(rt, asked_keys(map), 8_016_116);
    is_equal(rt, kept_values(map), 13);
    is_equal(rt, (map.len(), map.node_count()), (2, 4));
}

#[test]
fn asks_in_order(rt: HostRuntime) {
    let stored = [
        ((0x0a01_0000, 16), 3),
        ((0x0a00_0000, 8), 1),
        ((0x0a00_0000, 16), 2),
    ];
    asks_all(&rt, &mut plain_map_of(&rt, rt.alloc(), &stored));
}
