//! Maps for the tests, and comparisons.
ghost use Rattle.std.specs.Iterator.{IsFinite};

use ipnet::{Ipv4Net, Ipv6Net};
use prefix_trie::PrefixMap;
use std::alloc::Global;
use std::fmt::Debug;
use std::process::Abort;
use std::str::FromStr;

/// Checks that `found` is `wanted`. A proof about a call of this function takes a tenth of the time of a proof about `assert_eq!`.
pub(crate) fn is_equal<T: Copy + PartialEq + Debug>(rt: &impl Abort, found: T, wanted: T) {
    assert_eq!(rt; found, wanted);
}

/// Checks the text of the network.
pub(crate) fn is_text(rt: &impl Abort, key: Ipv4Net, text: &str) {
    let found = key.to_text();
    is_equal(rt, found.as_slice(), text.as_bytes());
}

/// The IPv4 network of the text.
pub(crate) fn net(rt: &impl Abort, text: &str) -> Ipv4Net {
    Ipv4Net::from_str(text).expect(rt, "a network")
}

/// The IPv6 network of the text.
pub(crate) fn wide_net(rt: &impl Abort, text: &str) -> Ipv6Net {
    Ipv6Net::from_str(text).expect(rt, "a network")
}

/// A map of these IPv4 networks, stored in this order.
pub(crate) fn map_of(
    rt: &impl Abort,
    alloc: Global,
    networks: &[(&str, u32)],
) -> PrefixMap<Ipv4Net, u32> {
    let mut map = PrefixMap::new(alloc).expect(rt, "a map");
    for (network, value) in networks.iter() {
        store(rt, &mut map, network, *value);
    }
    map
}

/// Stores the value at the network of the text.
fn store(rt: &impl Abort, map: &mut PrefixMap<Ipv4Net, u32>, network: &str, value: u32) {
    is_equal(rt, map.insert(net(rt, network), value).is_ok(), true);
}

/// Checks that a network was found, and checks its text.
pub(crate) fn is_key(rt: &impl Abort, found: Option<Ipv4Net>, text: &str) {
    is_text(rt, found.expect(rt, "a key"), text);
}

/// The values of entries in order, as the digits of a number.
pub(crate) fn digits<'a, K: Drop, I: Iterator<Item = (K, &'a u32)>>(entries: I) -> u32
    requires { I.can_next entries × IsFinite (I.remaining entries) }
{
    let mut digits = 0u32;
    for (_, value) in entries {
        digits = digits.wrapping_mul(10).wrapping_add(*value);
    }
    digits
}

/// The same for values without their keys.
pub(crate) fn value_digits<'a, I: Iterator<Item = &'a u32>>(values: I) -> u32
    requires { I.can_next values × IsFinite (I.remaining values) }
{
    let mut digits = 0u32;
    for value in values {
        digits = digits.wrapping_mul(10).wrapping_add(*value);
    }
    digits
}

/// Checks that `found` is `wanted`. If not, the message contains the name of the script and the number of steps before this one.
pub(crate) fn step_is<T: Copy + PartialEq + Debug>(
    rt: &impl Abort,
    at: (&str, usize),
    found: T,
    wanted: T,
) {
    assert_eq!(rt; found, wanted, "{}, after {} steps", at.0, at.1);
}
