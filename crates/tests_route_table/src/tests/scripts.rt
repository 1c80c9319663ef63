//! Scripts of route tables, with expected values written out. In walks, each route has its own hop, so the hops show the order.
use crate::tests::steps::Step::{
    Add, After, All, Count, Cover, Del, From, Get, Governs, GovernsCount, IsLeaf, Least,
    LeastCount, List, Misses, Nodes, Overwrite, OverwriteAgain, Put, PutAgain, Visits,
};
use crate::tests::steps::{Script, carry_out};
use route_table::{AddRefused, Hop};

/// The greatest IPv6 address.
const LAST: &str = "ffff:ffff:ffff:ffff:ffff:ffff:ffff:ffff/128";

const ONE: Hop = Hop::Number(1);

const TWO: Hop = Hop::Number(2);

const THREE: Hop = Hop::Number(3);

const FIVE: Hop = Hop::Number(5);

const SEVEN: Hop = Hop::Number(7);

const EIGHT: Hop = Hop::Number(8);

const NINE: Hop = Hop::Number(9);

/// Changes; and the governed blocks, the routes inside a network, and the matches after them.
static CHANGES: [Script; 8] = [
    (
        "leaves of an empty table",
        "",
        &[IsLeaf("0.0.0.0/0", true), IsLeaf("::/0", true)],
    ),
    (
        "leaves beside a route",
        "10.0.0.0/8 1",
        &[
            IsLeaf("10.0.0.0/8", true),
            IsLeaf("10.1.0.0/16", true),
            IsLeaf("10.1.2.3/32", true),
            IsLeaf("0.0.0.0/0", false),
            IsLeaf("10.9.9.9/7", false),
            IsLeaf("::/0", true),
        ],
    ),
    (
        "leaves beside a host",
        "10.0.0.0/8 1, 2001:db8::1/128 drop",
        &[
            IsLeaf("::/0", false),
            IsLeaf("2001:db8::/127", false),
            IsLeaf("2001:db8::1/128", true),
            IsLeaf("2001:db8::2/127", true),
            Put("0.0.0.0/0", TWO),
            IsLeaf("0.0.0.0/0", false),
            IsLeaf("10.0.0.0/8", true),
            Del("10.0.0.0/8", ONE, Some((Some(1), Some(2)))),
            IsLeaf("0.0.0.0/0", true),
        ],
    ),
    (
        "a route inside another, and one inside that",
        "",
        &[
            Add("10.0.0.0/8", ONE, 100, Ok((None, Some(1)))),
            Add("10.0.0.0/9", TWO, 100, Ok((Some(1), Some(2)))),
            Add("10.64.0.0/10", ONE, 100, Ok((Some(2), Some(1)))),
            Nodes(3, 1),
            Visits("10.1.2.3/32", "10.0.0.0/9", TWO, 2),
            Add("10.0.0.0/8", THREE, 200, Ok((Some(1), Some(3)))),
            Governs("10.0.0.0/8", &["10.128.0.0/9"]),
            Governs("10.0.0.0/9", &["10.0.0.0/10"]),
            Del("10.9.9.9/9", TWO, Some((Some(2), Some(3)))),
            Del("10.0.0.0/9", TWO, None),
            Governs("10.0.0.0/9", &["10.0.0.0/10"]),
        ],
    ),
    (
        "drop is stored",
        "",
        &[
            Add("10.0.0.0/30", ONE, 100, Ok((None, Some(1)))),
            Add("10.0.0.1/32", Hop::Drop, 100, Ok((Some(1), None))),
            Get("10.0.0.1/32", "10.0.0.1/32", Hop::Drop),
            Governs("10.0.0.0/30", &["10.0.0.0/32", "10.0.0.2/31"]),
        ],
    ),
    (
        "at the greatest address",
        "255.255.255.255/32 9",
        &[
            Governs(
                "255.255.255.252/30",
                &["255.255.255.252/31", "255.255.255.254/32"],
            ),
            GovernsCount("0.0.0.0/0", 32),
            Put(LAST, NINE),
            GovernsCount("::/0", 128),
        ],
    ),
    (
        "families are apart",
        "::ffff:10.0.0.0/104 1",
        &[
            Misses("10.0.0.0/8"),
            Put("2001:DB8::1/32", SEVEN),
            Get("2001:db8::/32", "2001:db8::/32", SEVEN),
            Nodes(1, 27),
        ],
    ),
    (
        "listed",
        "10.0.0.0/8 1, 10.1.2.3/16 1, 11.0.0.0/8 2",
        &[List("10.0.0.0/8", &["10.0.0.0/8", "10.1.0.0/16"])],
    ),
];

/// Several routes per network: the best one, and refused additions.
static CHOICES: [Script; 3] = [
    (
        "the next best takes over",
        "10.1.2.3/8 5",
        &[
            Add("10.0.0.0/8", Hop::Drop, 100, Ok((Some(5), Some(5)))),
            Add("10.0.0.0/8", NINE, 50, Ok((Some(5), Some(5)))),
            Add("10.0.0.0/8", THREE, 100, Ok((Some(5), Some(3)))),
            All(
                "10.0.0.0/8",
                &[(THREE, 100), (FIVE, 100), (Hop::Drop, 100), (NINE, 50)],
            ),
            Get("10.9.0.0/16", "10.0.0.0/8", THREE),
            Del("10.0.0.0/8", THREE, Some((Some(3), Some(5)))),
            Del("10.0.0.0/8", THREE, None),
            Add("10.0.0.0/8", NINE, 200, Ok((Some(5), Some(9)))),
            Del("10.0.0.0/8", Hop::Drop, Some((Some(9), Some(9)))),
            Del("10.0.0.0/8", NINE, Some((Some(9), Some(5)))),
            Del("10.0.0.0/8", FIVE, Some((Some(5), None))),
            All("10.0.0.0/8", &[]),
            Count(0, 0),
        ],
    ),
    (
        "a ninth is refused",
        "2001:db8::/32 1, 2001:db8::/32 2, 2001:db8::/32 3, 2001:db8::/32 4, 2001:db8::/32 5, 2001:db8::/32 6, 2001:db8::/32 7, 2001:db8::/32 8",
        &[
            Add("2001:db8::/32", NINE, 200, Err(AddRefused::TooMany)),
            Add("2001:db8::/32", EIGHT, 200, Ok((Some(1), Some(8)))),
            Add("2001:db8::/32", Hop::Drop, 100, Err(AddRefused::TooMany)),
            Count(0, 1),
            All(
                "2001:db8::/32",
                &[
                    (EIGHT, 200),
                    (ONE, 100),
                    (TWO, 100),
                    (THREE, 100),
                    (Hop::Number(4), 100),
                    (FIVE, 100),
                    (Hop::Number(6), 100),
                    (SEVEN, 100),
                ],
            ),
        ],
    ),
    (
        "with overwrite one route is left",
        "10.0.0.0/8 1",
        &[
            Add("10.0.0.0/8", TWO, 300, Ok((Some(1), Some(2)))),
            Put("10.1.0.0/16", Hop::Number(4)),
            Overwrite("10.0.0.0/8", SEVEN),
            All("10.0.0.0/8", &[(SEVEN, 100)]),
            Count(1, 0),
        ],
    ),
];

/// Walks, and routes that replace all routes inside their network.
static WALKS: [Script; 2] = [
    (
        "walks keep to a family",
        "10.0.0.0/8 1, 10.1.0.0/16 2, 10.2.0.0/16 3, 10.2.0.0/24 4, 10.3.0.0/16 5, 10.4.0.0/16 6",
        &[
            From("10.2.3.4/16", 3456),
            After("10.2.3.4/16", 456),
            From("10.2.0.0/17", 456),
            From("10.4.0.1/32", 0),
            Cover("10.2.0.0/24", 134),
            Cover("10.2.1.0/24", 13),
            Cover("0.0.0.0/0", 0),
            Count(6, 0),
            Put("::/0", SEVEN),
            Put("2001:db8::/32", EIGHT),
            Count(6, 2),
            From("10.4.0.0/16", 6),
            After("255.255.255.255/32", 0),
            From("::/0", 78),
            After("::/0", 8),
            Cover("2001:db8::1/128", 78),
        ],
    ),
    (
        "overwritten",
        "10.0.0.0/8 1, 10.1.0.0/16 2, 10.2.0.0/16 3, 10.2.0.0/24 4, 10.3.0.0/16 5, 10.4.0.0/16 6",
        &[
            Overwrite("10.2.3.4/16", NINE),
            From("0.0.0.0/0", 12956),
            Overwrite("10.2.0.5/32", Hop::Drop),
            From("0.0.0.0/0", 129056),
            Put("2001:db8::/32", EIGHT),
            Put("8000::/1", EIGHT),
            Overwrite("0.0.0.0/0", SEVEN),
            From("0.0.0.0/0", 7),
            Count(1, 2),
            Overwrite("::/0", EIGHT),
            Count(1, 1),
            Nodes(1, 1),
        ],
    ),
];

#[test]
fn scripts(rt: HostRuntime) {
    carry_out(&rt, rt.alloc(), &CHANGES);
    carry_out(&rt, rt.alloc(), &CHOICES);
    carry_out(&rt, rt.alloc(), &WALKS);
}

/// Each request for memory may be refused. The next attempt succeeds.
static REFUSED: [Script; 2] = [
    (
        "a least table",
        "",
        &[
            PutAgain("10.0.0.0/8", ONE),
            PutAgain("10.1.0.0/16", TWO),
            PutAgain("2001:db8::/32", SEVEN),
            LeastCount(3),
            Least("10.0.0.0/8 1, 10.1.0.0/16 2, 2001:db8::/32 7"),
        ],
    ),
    (
        "overwrite",
        "",
        &[OverwriteAgain("10.2.0.0/16", ONE), Cover("10.2.0.0/16", 1)],
    ),
];

#[test]
fn refused(rt: HostRuntime) {
    carry_out(&rt, rt.alloc(), &REFUSED);
}
