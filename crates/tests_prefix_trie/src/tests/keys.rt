//! Each generic function with concrete types, called through its trait bound.
ghost use Rattle.std.specs.Prelude.{◌≤◌, length, IsTrue};

use crate::tests::maps::{is_equal, net, wide_net};
use prefix_trie::{Key, Prefix, path_of, truncated};
use trie_core::Path;

/// The width, the key with zeros after its prefix bits, and whether it contains the other prefix.
fn parts<P: Prefix>(prefix: &P, other: &P) -> (u32, u128, bool)
    requires fits { IsTrue (P.fits prefix.now) }
    requires other_fits { IsTrue (P.fits other.now) }
{
    (
        P::num_bits(),
        prefix.mask().to_bits(),
        prefix.contains(other),
    )
}

/// The key and the length of the prefix cut to `len` bits.
fn beginning<P: Prefix + Drop>(prefix: &P, len: u8) -> (u128, u8)
    requires fits { IsTrue (P.fits prefix.now) }
    requires within { len ≤ length (P.bits prefix.now) }
{
    let shorter = truncated(prefix, len);
    (shorter.repr().to_bits(), shorter.prefix_len())
}

#[test]
fn prefixes(rt: HostRuntime) {
    is_equal(&rt, parts(&(0x93_u8, 3), &(0x9f_u8, 5)), (8, 0x80, true));
    is_equal(&rt, parts(&(0x93_u8, 5), &(0x9f_u8, 5)), (8, 0x90, false));
    is_equal(&rt, parts(&(0x9f_u8, 5), &(0x9f_u8, 3)), (8, 0x98, false));
    is_equal(&rt, parts(&(0x9f_u8, 0), &(0x00_u8, 0)), (8, 0, true));
    is_equal(
        &rt,
        parts(&(u128::MAX, 127), &(u128::MAX, 128)),
        (128, u128::MAX - 1, true),
    );
    is_equal(
        &rt,
        parts(&(u128::MAX, 128), &(u128::MAX - 1, 128)),
        (128, u128::MAX, false),
    );
    let short = net(&rt, "10.1.2.3/16");
    is_equal(
        &rt,
        parts(&short, &net(&rt, "10.1.9.9/32")),
        (32, 0x0a01_0000, true),
    );
    is_equal(
        &rt,
        parts(&short, &net(&rt, "10.2.2.3/16")),
        (32, 0x0a01_0000, false),
    );
    let wide = wide_net(&rt, "2001:db8::1/32");
    let top = 0x2001_0db8_u128 << 96;
    is_equal(
        &rt,
        parts(&wide, &wide_net(&rt, "2001:db8:ffff::/48")),
        (128, top, true),
    );
    is_equal(
        &rt,
        parts(&wide, &wide_net(&rt, "2001:db8::/31")),
        (128, top, false),
    );
}

#[test]
fn beginnings(rt: HostRuntime) {
    assert_eq!(rt; beginning(&(0x93_u8, 8), 4), (0x90, 4));
    assert_eq!(rt; beginning(&(u128::MAX, 128), 1), (1 << 127, 1));
    assert_eq!(rt; net(&rt, "10.1.2.3/16").mask(), 0x0a01_0000);
    assert_eq!(rt; wide_net(&rt, "8000::1/1").mask(), 1 << 127);
}

/// The calls of a prefix, as their comments show them.
#[test]
fn first_calls(rt: HostRuntime) {
    let prefix = (0x0a01_0203_u32, 16);
    assert_eq!(rt; prefix.repr(), 0x0a01_0203);
    assert_eq!(rt; prefix.prefix_len(), 16);
    assert_eq!(rt; prefix.mask(), 0x0a01_0000);
    assert!(rt; prefix.contains(&(0x0a01_0909, 32)) && !prefix.contains(&(0x0a00_0000, 8)));
    assert_eq!(rt; <(u32, u8)>::num_bits(), 32);
    assert_eq!(rt; <(u32, u8)>::from_repr_len(0x0a01_0203, 16), prefix);
    assert_eq!(rt; truncated(&prefix, 8), (0x0a00_0000, 8));
}

/// The bits are 10011, which is 19, and then 011. The place of 011 is after those of the empty string, 0, 00 to 0011, and 01 to 0101.
#[test]
fn paths(rt: HostRuntime) {
    let path: Path = path_of(&(0x9b_u8, 8));
    is_equal(&rt, path.len(), 8);
    is_equal(&rt, path.depth(), 1);
    is_equal(&rt, path.is_short(), false);
    is_equal(&rt, path.five(), 19);
    let rest = path.rest();
    is_equal(&rt, rest.is_short(), true);
    is_equal(&rt, rest.place(), 13);
    is_equal(&rt, rest.beginnings(), 1 + 2 + 512 + 8192);
    is_equal(&rt, path.extended(true).len(), 9);
    is_equal(&rt, rest.extended(false).place(), 14);
}
