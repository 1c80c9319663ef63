//! Scripts of maps, with expected values written out.
use crate::tests::steps::Call::*;
use crate::tests::steps::Step::{Addresses, At, Clear, Counts, Retain, Walk};
use crate::tests::steps::{Script, all_go};
use ipnet::{Ipv4Net, Ipv6Net};

/// Scripts over IPv4 networks.
static IPV4: [Script<&'static str>; 10] = [
    (
        "four hosts",
        &[
            ("1.2.3.0/32", 1),
            ("1.2.3.1/32", 2),
            ("1.2.3.2/32", 3),
            ("1.2.3.3/32", 4),
        ],
        &[
            Counts(4, 7),
            At("1.2.3.2/32", Visits(Some(("1.2.3.2/32", 3)), 7)),
        ],
    ),
    (
        "two networks",
        &[("10.9.9.9/8", 1), ("10.1.0.0/16", 2)],
        &[
            At("10.1.2.3/32", Longest(Some(("10.1.0.0/16", 2)))),
            At("11.0.0.0/8", Longest(None)),
            At("10.2.3.4/32", LongestKey("10.0.0.0/8")),
            At("10.1.2.3/32", Shortest(Some(("10.0.0.0/8", 1)))),
            At("10.1.2.3/32", ShortestKey("10.0.0.0/8")),
            At("10.1.7.7/16", VeryKey(Some(("10.1.0.0/16", 2)))),
            At("10.0.0.0/8", Contains(true)),
            At("10.0.0.0/9", Contains(false)),
            At("10.1.2.3/32", IsCovered(true)),
            At("11.0.0.0/8", IsCovered(false)),
            At("0.0.0.0/0", IsLeaf(false)),
            At("10.0.0.0/8", IsLeaf(false)),
            At("10.0.0.0/15", IsLeaf(false)),
            At("10.1.0.0/16", IsLeaf(true)),
            At("10.1.2.3/32", IsLeaf(true)),
            At("10.2.0.0/15", IsLeaf(true)),
            At("11.0.0.0/8", IsLeaf(true)),
            At("10.1.2.3/32", Length(Some((16, 2)))),
            At("10.1.0.0/16", Length(Some((16, 2)))),
            At("10.0.0.0/15", Length(Some((8, 1)))),
            At("0.0.0.0/0", Length(None)),
            Counts(2, 4),
            At("10.1.0.0/16", Remove(Some(2))),
            At("10.0.0.0/8", Remove(Some(1))),
            Counts(0, 1),
        ],
    ),
    (
        "an empty map",
        &[],
        &[At("0.0.0.0/0", IsLeaf(true)), At("0.0.0.0/0", Length(None))],
    ),
    (
        "a spare node is no leaf",
        &[("10.1.0.0/16", 2)],
        &[
            At("10.1.0.0/16", KeepTree(Some(2))),
            At("10.0.0.0/8", IsLeaf(false)),
            Retain(true),
            At("10.0.0.0/8", IsLeaf(true)),
        ],
    ),
    (
        "stored as a leaf, or not",
        &[],
        &[
            At("10.1.0.0/16", InsertIsLeaf(2, None, true)),
            At("10.0.0.0/8", InsertIsLeaf(1, None, false)),
            At("10.1.2.3/16", InsertIsLeaf(3, Some(2), true)),
            Walk(13),
            Counts(2, 4),
            At("10.1.0.0/16", KeepTree(Some(3))),
            At("10.0.0.0/8", InsertIsLeaf(4, Some(1), false)),
            Counts(1, 4),
        ],
    ),
    (
        "replaced and written",
        &[("192.168.1.0/24", 2)],
        &[
            At("192.168.1.77/24", Insert(3, Some(2))),
            Counts(1, 5),
            At("192.168.1.0/24", Write(7)),
            At("192.168.1.0/24", Get(Some(7))),
            Counts(1, 5),
        ],
    ),
    (
        "seven networks",
        &[
            ("10.2.0.0/24", 4),
            ("10.4.0.0/16", 6),
            ("10.2.0.0/16", 3),
            ("10.0.0.0/8", 1),
            ("10.3.0.0/16", 5),
            ("10.1.0.0/16", 2),
            ("10.4.0.1/32", 7),
        ],
        &[
            Walk(1234567),
            At("0.0.0.0/0", Children(1234567)),
            At("10.0.0.0/7", Children(1234567)),
            At("10.0.0.0/10", Children(234567)),
            At("10.2.0.0/15", Children(345)),
            At("10.2.0.0/16", Children(34)),
            At("10.2.0.0/20", Children(4)),
            At("10.4.0.1/32", Children(7)),
            At("10.4.0.0/32", Children(0)),
            At("11.0.0.0/8", Children(0)),
            At("0.0.0.0/0", From(true, 1234567)),
            At("10.0.0.0/8", From(false, 234567)),
            At("10.2.0.0/16", From(true, 34567)),
            At("10.2.0.0/16", From(false, 4567)),
            At("10.2.1.0/24", From(true, 567)),
            At("10.2.1.0/24", From(false, 567)),
            At("10.4.0.1/32", From(true, 7)),
            At("10.4.0.1/32", From(false, 0)),
        ],
    ),
    (
        "onwards to the last",
        &[
            ("10.0.0.0/8", 1),
            ("10.1.0.0/16", 2),
            ("10.2.0.0/16", 3),
            ("10.2.0.0/24", 4),
            ("10.3.0.0/16", 5),
            ("10.4.0.0/16", 6),
        ],
        &[
            At("10.2.0.0/16", From(true, 3456)),
            At("10.2.0.0/16", From(false, 456)),
        ],
    ),
    (
        "one inside the other",
        &[("10.1.1.0/24", 3), ("10.0.0.0/8", 1), ("10.1.0.0/16", 2)],
        &[
            At("10.1.1.0/24", Cover(123)),
            At("10.1.1.7/32", Cover(123)),
            At("10.1.0.0/20", Cover(12)),
            At("10.1.0.0/16", Cover(12)),
            At("10.2.0.0/15", Cover(1)),
            At("0.0.0.0/0", Cover(0)),
        ],
    ),
    (
        "from what is not stored",
        &[("10.0.0.0/8", 1), ("10.2.0.0/16", 2)],
        &[
            At("10.1.0.0/16", From(true, 2)),
            At("10.1.0.0/16", From(false, 2)),
        ],
    ),
];

#[test]
fn of_ipv4(rt: HostRuntime) {
    all_go::<Ipv4Net, _>(&rt, rt.alloc(), &IPV4);
}

/// The greatest IPv6 address.
const LAST: &str = "ffff:ffff:ffff:ffff:ffff:ffff:ffff:ffff/128";

/// Scripts over IPv6 networks.
static IPV6: [Script<&'static str>; 2] = [
    (
        "two networks",
        &[("2001:db8::5/32", 1), ("2001:db8:1::/48", 2)],
        &[
            At("2001:db8:1::7/128", Longest(Some(("2001:db8:1::/48", 2)))),
            At("2001:db8:1::7/128", Shortest(Some(("2001:db8::/32", 1)))),
            At("2001:db9::/32", IsCovered(false)),
            At("2001:db8:1::/48", Remove(Some(2))),
            At("2001:db8::/32", Remove(Some(1))),
            Counts(0, 1),
        ],
    ),
    (
        "all, and both ends",
        &[("::/0", 1), ("::1/128", 2), (LAST, 3)],
        &[
            At("::1/128", Children(2)),
            At("::/126", Children(2)),
            At("::/0", Children(123)),
            At("::1/128", From(false, 3)),
            At("::/126", From(false, 23)),
            At("8000::/1", From(false, 3)),
            At("::1/128", Cover(12)),
            At("::/126", Cover(1)),
        ],
    ),
];

#[test]
fn of_ipv6(rt: HostRuntime) {
    all_go::<Ipv6Net, _>(&rt, rt.alloc(), &IPV6);
}

/// Scripts over keys of 8 bits.
static OF_8_BITS: [Script<(u8, u8)>; 2] = [
    (
        "two hosts",
        &[((0xfe, 8), 1), ((0xff, 8), 2)],
        &[Counts(2, 2), At((0xff, 8), Visits(Some(((0xff, 8), 2)), 2))],
    ),
    (
        "addresses",
        &[((0, 1), 1), ((0x80, 1), 2)],
        &[
            Addresses(None),
            At((0, 1), Remove(Some(1))),
            Addresses(Some(128)),
        ],
    ),
];

/// Scripts over keys of 16 bits.
static OF_16_BITS: [Script<(u16, u8)>; 1] = [(
    "longest",
    &[((0xabcd, 12), 1)],
    &[At((0xabcf, 16), Longest(Some(((0xabc0, 12), 1))))],
)];

/// Scripts over keys of 64 bits.
static OF_64_BITS: [Script<(u64, u8)>; 1] = [(
    "longest",
    &[((0xabcd_ef01_2345_6789, 63), 1)],
    &[
        At(
            (0xabcd_ef01_2345_6789, 64),
            Longest(Some(((0xabcd_ef01_2345_6788, 63), 1))),
        ),
        At((0xabcd_ef01_2345_6787, 64), Longest(None)),
    ],
)];

#[test]
fn of_8_to_64_bits(rt: HostRuntime) {
    all_go::<(u8, u8), _>(&rt, rt.alloc(), &OF_8_BITS);
    all_go::<(u16, u8), _>(&rt, rt.alloc(), &OF_16_BITS);
    all_go::<(u64, u8), _>(&rt, rt.alloc(), &OF_64_BITS);
}

/// Scripts over keys of 128 bits.
static OF_128_BITS: [Script<(u128, u8)>; 4] = [
    (
        "spare nodes are visited, and pruned",
        &[((1, 128), 5)],
        &[
            Counts(1, 26),
            At((1, 128), Visits(Some(((1, 128), 5)), 26)),
            At((1, 128), KeepTree(Some(5))),
            Counts(0, 26),
            At((1, 128), Visits(None, 26)),
            At((1, 128), Remove(None)),
            Counts(0, 1),
        ],
    ),
    (
        "inside all",
        &[((1, 128), 1), ((0, 0), 2)],
        &[
            At((1, 128), KeepTree(Some(1))),
            At((1, 0), RemoveChildren),
            Counts(0, 1),
            At((1, 128), Insert(3, None)),
        ],
    ),
    (
        "all of it",
        &[((1, 128), 3)],
        &[
            Clear,
            Counts(0, 1),
            At((1, 128), Insert(4, None)),
            At((1, 128), Get(Some(4))),
        ],
    ),
    ("addresses of all", &[((0, 0), 1)], &[Addresses(None)]),
];

#[test]
fn of_128_bits(rt: HostRuntime) {
    all_go::<(u128, u8), _>(&rt, rt.alloc(), &OF_128_BITS);
}

/// Scripts over keys of 32 bits.
static OF_32_BITS: [Script<(u32, u8)>; 7] = [
    (
        "inside a prefix",
        &[((0, 11), 1)],
        &[
            Counts(1, 3),
            At((0, 5), RemoveChildren),
            Counts(0, 1),
            At((0x8000_0000, 11), Insert(200, None)),
            At((0, 11), Insert(300, None)),
            Counts(2, 5),
            At((0, 11), Get(Some(300))),
            At((0x8000_0000, 11), Get(Some(200))),
            Walk(3200),
        ],
    ),
    (
        "prunes upward",
        &[((0, 6), 1), ((0, 7), 2)],
        &[
            Counts(2, 2),
            At((0, 6), RemoveChildren),
            Counts(0, 1),
            At((0, 16), Insert(3, None)),
            Counts(1, 4),
            At((0, 12), RemoveChildren),
            Counts(0, 1),
        ],
    ),
    (
        "keeps a neighbour",
        &[((0, 6), 4), ((0x0400_0000, 6), 5)],
        &[
            At((0, 6), RemoveChildren),
            Counts(1, 2),
            At((0x0400_0000, 6), Get(Some(5))),
        ],
    ),
    (
        "nothing is kept",
        &[((0x0a01_0000, 16), 3), ((0x0a00_0000, 8), 1)],
        &[Retain(false), Counts(0, 1)],
    ),
    (
        "tidies",
        &[
            ((0x0a00_0000, 8), 1),
            ((0x0a01_0000, 16), 2),
            ((0xffff_ffff, 32), 3),
        ],
        &[
            At((0x0a01_0000, 16), KeepTree(Some(2))),
            At((0xffff_ffff, 32), KeepTree(Some(3))),
            Counts(1, 10),
            Retain(true),
            Counts(1, 2),
            At((0x0a00_0000, 8), Get(Some(1))),
        ],
    ),
    // Three spare nodes: one below that of 10.0.0.0/8, and under that one for 10.1.0.0/16 and one for 10.2.0.0/16.
    (
        "remove and remove_children prune the way alone",
        &[
            ((0x0a00_0000, 8), 1),
            ((0x0a01_0000, 16), 2),
            ((0x0a02_0000, 16), 3),
        ],
        &[
            At((0x0a01_0000, 16), KeepTree(Some(2))),
            At((0x0a02_0000, 16), KeepTree(Some(3))),
            Counts(1, 5),
            At((0x0a01_0000, 16), Visits(Some(((0x0a00_0000, 8), 1)), 4)),
            At((0x0a01_0000, 16), Remove(None)),
            Counts(1, 4),
            At((0x0a01_0000, 16), Visits(Some(((0x0a00_0000, 8), 1)), 3)),
            At((0x0a02_0000, 16), Visits(Some(((0x0a00_0000, 8), 1)), 4)),
            At((0x0a04_0000, 16), RemoveChildren),
            Counts(1, 4),
            At((0x0a02_0000, 16), RemoveChildren),
            Counts(1, 2),
            At((0x0a00_0000, 8), Get(Some(1))),
        ],
    ),
    ("eleven bits", &[((0, 11), 1)], &[Counts(1, 3)]),
];

#[test]
fn of_32_bits(rt: HostRuntime) {
    all_go::<(u32, u8), _>(&rt, rt.alloc(), &OF_32_BITS);
}
