//! Maps for the tests, and comparisons.
use prefix_trie::PrefixMap;
use std::alloc::Global;
use std::fmt::Debug;
use std::process::Abort;

/// Checks that `found` is `wanted`. A proof about a call of this function takes a tenth of the time of a proof about `assert_eq!`.
pub(crate) fn is_equal<T: Copy + PartialEq + Debug>(rt: &impl Abort, found: T, wanted: T) {
    assert_eq!(rt; found, wanted);
}

/// Checks that the fact is true.
pub(crate) fn holds(rt: &impl Abort, fact: bool) {
    assert!(rt; fact);
}

/// A map of these keys of 32 bits, stored in this order.
pub(crate) fn plain_map_of(
    rt: &impl Abort,
    alloc: Global,
    keys: &[((u32, u8), u32)],
) -> PrefixMap<(u32, u8), u32> {
    let mut map = PrefixMap::new(alloc).expect(rt, "a map");
    for (key, value) in keys.iter() {
        store_plain(rt, &mut map, *key, *value);
    }
    map
}

/// Stores the value at a key of at most 32 bits.
fn store_plain(rt: &impl Abort, map: &mut PrefixMap<(u32, u8), u32>, key: (u32, u8), value: u32) {
    assert!(rt; key.1 <= 32);
    is_equal(rt, map.insert(key, value).is_ok(), true);
}
