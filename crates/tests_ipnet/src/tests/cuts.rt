//! Ranges, subnet iterators and `aggregate`, with expected values written out.
use crate::tests::compare::{any, is_equal, row_is, v4, v6};
use ipnet::{
    AddrParseError, IpAddr, IpAddrRange, IpNet, IpSubnets, Ipv4Addr, Ipv4AddrRange, Ipv4Net,
    Ipv4Subnets, Ipv6Addr, Ipv6AddrRange, Ipv6Net, Ipv6Subnets, PrefixLenError,
};
use ipnet_blocks::contains::is_inside;
use ipnet_blocks::cut::first_cut;
use std::alloc::{AllocError, Global};
use std::fmt::Debug;
use std::process::Abort;
use std::str::FromStr;

fn ten(last: u8) -> Ipv4Addr {
    Ipv4Addr::new(10, 0, 0, last)
}

fn low() -> Ipv6Addr {
    Ipv6Addr::from_bits(0)
}

fn high() -> Ipv6Addr {
    Ipv6Addr::from_bits(u128::MAX)
}

fn spent() -> Ipv4AddrRange {
    Ipv4AddrRange::new(Ipv4Addr::from_bits(1), Ipv4Addr::from_bits(0))
}

#[test]
fn ranges(rt: HostRuntime) {
    let range = Ipv4AddrRange::new(ten(0), ten(3));
    is_equal(&rt, range.last(), Some(ten(3)));
    is_equal(&rt, range.max(), Some(ten(3)));
    is_equal(&rt, range.min(), Some(ten(0)));
    is_equal(&rt, range.size_hint(), (4, Some(4)));
    is_equal(&rt, range.count(), 4);
    is_equal(&rt, spent() < range, true);
    let all = Ipv4AddrRange::new(Ipv4Addr::UNSPECIFIED, Ipv4Addr::BROADCAST);
    is_equal(&rt, all.count(), 4_294_967_296);
}

#[test]
fn ranges_from_both_ends(rt: HostRuntime) {
    let mut rest = Ipv4AddrRange::new(ten(0), ten(3));
    is_equal(&rt, rest.nth(2), Some(ten(2)));
    is_equal(&rt, rest.next_back(), Some(ten(3)));
    is_equal(&rt, rest, spent());
    let mut back = Ipv4AddrRange::new(ten(0), ten(3));
    is_equal(&rt, back.nth_back(1), Some(ten(2)));
    is_equal(&rt, back.next(), Some(ten(0)));
    is_equal(&rt, back, Ipv4AddrRange::new(ten(1), ten(1)));
}

#[test]
fn a_spent_range(rt: HostRuntime) {
    let mut rest = spent();
    is_equal(&rt, rest.next(), None);
    is_equal(&rt, rest.nth_back(7), None);
    is_equal(&rt, rest, spent());
    is_equal(&rt, rest.min(), None);
    is_equal(&rt, rest.last(), None);
    is_equal(&rt, rest.count(), 0);
}

#[test]
fn ipv6_ranges(rt: HostRuntime) {
    let mut all = Ipv6AddrRange::new(low(), high());
    is_equal(&rt, all.size_hint(), (usize::MAX, None));
    is_equal(&rt, all.next(), Some(low()));
    let back = Ipv6Addr::from_bits(u128::MAX - 1);
    is_equal(&rt, all.nth_back(1), Some(back));
    let last = Ipv6Addr::from_bits(u128::MAX - 2);
    is_equal(&rt, all.last(), Some(last));
}

#[test]
fn a_range_of_one_address(rt: HostRuntime) {
    let mut end = IpAddrRange::from(Ipv6AddrRange::new(high(), high()));
    is_equal(&rt, end.size_hint(), (1, Some(1)));
    is_equal(&rt, end.min(), Some(IpAddr::V6(high())));
    is_equal(&rt, end.next(), Some(IpAddr::V6(high())));
    is_equal(&rt, end.next_back(), None);
    let nine = IpAddrRange::from(Ipv4AddrRange::new(ten(9), ten(9)));
    is_equal(&rt, nine < end, true);
}

#[test]
fn ranges_of_either_family(rt: HostRuntime) {
    let mut from = IpAddrRange::from(Ipv4AddrRange::new(ten(0), ten(9)));
    is_equal(&rt, from.nth(1), Some(IpAddr::V4(ten(1))));
    is_equal(&rt, from.nth_back(1), Some(IpAddr::V4(ten(8))));
    is_equal(&rt, from.max(), Some(IpAddr::V4(ten(7))));
    is_equal(&rt, from.last(), Some(IpAddr::V4(ten(7))));
    is_equal(&rt, from.size_hint(), (6, Some(6)));
}

/// Checks that just these blocks are left.
fn cuts_are(rt: &impl Abort, left: Ipv4Subnets, texts: &[&str]) {
    let mut blocks = left;
    for text in texts {
        row_is(rt, text, blocks.next(), Some(v4(rt, text)));
    }
    is_equal(rt, blocks.next(), None);
}

/// The same check for either family.
fn cuts_of_either_are(rt: &impl Abort, left: IpSubnets, texts: &[&str]) {
    let mut blocks = left;
    for text in texts {
        row_is(rt, text, blocks.next(), Some(any(rt, text)));
    }
    is_equal(rt, blocks.next(), None);
}

/// The greatest IPv6 address, as a network.
const LAST: &str = "ffff:ffff:ffff:ffff:ffff:ffff:ffff:ffff/128";

/// Ranges, by the last octets of the first and the last address and the minimum prefix length; and the blocks of each.
const CUTS: [((u8, u8, u8), &[&str]); 2] = [
    (
        (0, 239, 0),
        &[
            "10.0.0.0/25",
            "10.0.0.128/26",
            "10.0.0.192/27",
            "10.0.0.224/28",
        ],
    ),
    ((1, 0, 3), &[]),
];

#[test]
fn cuts(rt: HostRuntime) {
    for ((first, last, len), texts) in CUTS {
        cuts_are(&rt, Ipv4Subnets::new(ten(first), ten(last), len), texts);
    }
}

#[test]
fn cuts_of_either_family(rt: HostRuntime) {
    let even = IpSubnets::from(Ipv4Subnets::new(ten(0), ten(255), 26));
    let quarters = [
        "10.0.0.0/26",
        "10.0.0.64/26",
        "10.0.0.128/26",
        "10.0.0.192/26",
    ];
    cuts_of_either_are(&rt, even, &quarters);
    let last = IpSubnets::from(Ipv6Subnets::new(high(), high(), 7));
    cuts_of_either_are(&rt, last, &[LAST]);
}

/// Checks the prefix length of the next block.
fn next_has_length(rt: &impl Abort, blocks: &mut Ipv4Subnets, len: u8) {
    let block = blocks.next().expect(rt, "too few blocks");
    is_equal(rt, block.prefix_len(), len);
}

#[test]
fn cuts_of_all_addresses_but_one(rt: HostRuntime) {
    let greatest = Ipv4Addr::from_bits(u32::MAX - 1);
    let mut all_but_one = Ipv4Subnets::new(Ipv4Addr::from_bits(0), greatest, 0);
    for len in 1..33u8 {
        next_has_length(&rt, &mut all_but_one, len);
    }
    is_equal(&rt, all_but_one.next(), None);
}

#[test]
fn greatest_block(rt: HostRuntime) {
    let mut all = Ipv6Subnets::new(low(), high(), 0);
    is_equal(&rt, all.next(), Some(v6(&rt, "::/0")));
    is_equal(&rt, all, Ipv6Subnets::new(high(), low(), 0));
    is_equal(&rt, all.next(), None);
}

/// Networks, and the last octets of their first and last host.
const HOSTS: [(&str, u8, u8); 5] = [
    ("10.0.0.0/30", 1, 2),
    ("10.0.0.0/31", 0, 1),
    ("10.0.0.0/32", 0, 0),
    ("10.0.0.7/32", 7, 7),
    ("10.0.0.9/24", 1, 254),
];

#[test]
fn hosts(rt: HostRuntime) {
    for (text, first, last) in HOSTS {
        let wanted = Ipv4AddrRange::new(ten(first), ten(last));
        row_is(&rt, text, v4(&rt, text).hosts(), wanted);
    }
    let all = v6(&rt, "::/0").hosts();
    is_equal(&rt, all, Ipv6AddrRange::new(low(), high()));
    let four = any(&rt, "::4/126").hosts();
    is_equal(&rt, four.size_hint(), (4, Some(4)));
}

#[test]
fn subnets(rt: HostRuntime) {
    let net = v4(&rt, "10.0.0.0/8");
    assert_eq!(rt; net.subnets(7), Err(PrefixLenError));
    assert_eq!(rt; net.subnets(33), Err(PrefixLenError));
    let mut halves = net.subnets(9).expect(&rt, "halves");
    assert_eq!(rt; halves.next(), Some(v4(&rt, "10.0.0.0/9")));
    assert_eq!(rt; halves.next(), Some(v4(&rt, "10.128.0.0/9")));
    assert_eq!(rt; halves.next(), None);
}

#[test]
fn subnets_of_other_lengths(rt: HostRuntime) {
    let wide = v6(&rt, "::/64").subnets(63);
    is_equal(&rt, &wide, &Err(PrefixLenError));
    let narrow = any(&rt, "::/64").subnets(129);
    is_equal(&rt, &narrow, &Err(PrefixLenError));
    let one = any(&rt, "10.0.0.0/8").subnets(8).expect(&rt, "subnets");
    cuts_of_either_are(&rt, one, &["10.0.0.0/8"]);
}

/// The networks of a text, separated by spaces.
pub(crate) fn networks<T: FromStr<Err = AddrParseError> + Drop>(
    rt: &impl Abort,
    alloc: Global,
    words: &str,
) -> Vec<T> {
    let mut networks = Vec::new(alloc);
    for text in words.split_terminator(' ') {
        networks
            .push(T::from_str(text).expect(rt, text))
            .expect(rt, "memory");
    }
    networks
}

/// Networks, and the maximal blocks of their addresses, in order.
const AGGREGATES: [(&str, &str); 6] = [
    (
        "255.255.255.254/32 255.255.255.252/31",
        "255.255.255.252/31 255.255.255.254/32",
    ),
    ("128.0.0.0/1 0.0.0.0/1", "0.0.0.0/0"),
    (
        "10.0.0.0/24 10.0.1.0/24 10.0.2.0/24 10.0.1.7/32",
        "10.0.0.0/23 10.0.2.0/24",
    ),
    ("10.0.0.9/24 10.0.1.0/24", "10.0.0.0/23"),
    ("::/1 8000::/1 10.0.0.1/8", "10.0.0.0/8 ::/0"),
    ("::1/128 ::/128 0.0.0.0/32", "0.0.0.0/32 ::/127"),
];

/// Checks the maximal blocks of the given networks, in order.
fn aggregate_is<
    T: FromStr<Err = AddrParseError> + PartialEq + Debug + Drop,
    F: Fn(Global, &Vec<T>) -> Result<Vec<T>, AllocError>,
>(rt: &impl Abort, alloc: Global, aggregate: F, given: &str, wanted: &str)
    requires { F.IsAlwaysCallable aggregate }
{
    let blocks = aggregate(alloc, &networks(rt, alloc, given)).expect(rt, "memory");
    let wanted: Vec<T> = networks(rt, alloc, wanted);
    row_is(rt, given, blocks.as_slice(), wanted.as_slice());
}

#[test]
fn aggregates(rt: HostRuntime) {
    for (given, wanted) in AGGREGATES {
        aggregate_is(&rt, rt.alloc(), IpNet::aggregate, given, wanted);
    }
}

/// The halves of 10.0.0.0/24, one of them with host bits.
const HALVES: &str = "10.0.0.5/25 10.0.0.128/25";

#[test]
fn aggregates_of_one_family(rt: HostRuntime) {
    let alloc = rt.alloc();
    aggregate_is(&rt, alloc, Ipv4Net::aggregate, HALVES, "10.0.0.0/24");
    aggregate_is(&rt, alloc, Ipv4Net::aggregate, "", "");
    aggregate_is(
        &rt,
        alloc,
        Ipv6Net::aggregate,
        "::/1 8000::/1 ::7/128",
        "::/0",
    );
}

// From 10.0.0.0 to 10.0.0.239 the largest first block is 10.0.0.0/25, and it is inside 10.1.2.3/8.
#[test]
fn first_block(rt: HostRuntime) {
    let cut = first_cut(32, 0x0a00_0000, 0x0a00_00ef, 0);
    assert_eq!(rt;
        (cut.len, cut.start, cut.end),
        (25, 0x0a00_0080, 0x0a00_00ef)
    );
    assert!(rt; is_inside(32, 0x0a00_0000, 25, 0x0a01_0203, 8));
    assert!(rt; !is_inside(32, 0x0a01_0203, 8, 0x0a00_0000, 25));
}
