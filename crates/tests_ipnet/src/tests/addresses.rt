//! Each call once, with an expected value written out.
ghost use Rattle.std.specs.Prelude.{◌≤◌};

use crate::tests::compare::{is_equal, row_is};
use ipnet_addr::ipext::{IpAdd, IpBitAnd, IpBitOr, IpStep, IpSub};
use ipnet_addr::key::Key;
use ipnet_addr::mask::{ip_mask_to_prefix, ipv4_mask_to_prefix, ipv6_mask_to_prefix};
use ipnet_addr::ranges::Ipv4AddrRange;
use std::net::{IpAddr, Ipv4Addr, Ipv6Addr};
use std::process::Abort;
use std::str::FromStr;

const TOP4: Ipv4Addr = Ipv4Addr::BROADCAST;

fn v6(low: u16) -> Ipv6Addr {
    Ipv6Addr::new(0x2001, 0xdb8, 0, 0, 0, 0, 0, low)
}

#[test]
fn ipv4_steps(rt: HostRuntime) {
    let mut addr = Ipv4Addr::new(10, 0, 0, 255);
    is_equal(&rt, addr.add_one(), Ipv4Addr::new(10, 0, 1, 0));
    is_equal(&rt, addr.sub_one(), Ipv4Addr::new(10, 0, 0, 254));
    is_equal(&rt, TOP4.add_one(), TOP4);
    let bottom = Ipv4Addr::UNSPECIFIED;
    is_equal(&rt, bottom.sub_one(), Ipv4Addr::UNSPECIFIED);
    is_equal(&rt, addr.replace_one(), Ipv4Addr::new(10, 0, 0, 255));
    is_equal(&rt, addr.replace_zero(), Ipv4Addr::new(0, 0, 0, 1));
    is_equal(&rt, addr, Ipv4Addr::UNSPECIFIED);
}

#[test]
fn ipv6_steps(rt: HostRuntime) {
    let mut addr = v6(0xffff);
    let after = Ipv6Addr::new(0x2001, 0xdb8, 0, 0, 0, 0, 1, 0);
    is_equal(&rt, addr.add_one(), after);
    is_equal(&rt, addr.sub_one(), v6(0xfffe));
    let top = Ipv6Addr::from_bits(u128::MAX);
    is_equal(&rt, top.add_one(), Ipv6Addr::from_bits(u128::MAX));
    is_equal(&rt, addr.replace_zero(), v6(0xffff));
    is_equal(&rt, addr.replace_one(), Ipv6Addr::UNSPECIFIED);
    is_equal(&rt, addr, Ipv6Addr::LOCALHOST);
}

#[test]
fn ipv4_sums_and_differences(rt: HostRuntime) {
    let addr = Ipv4Addr::new(10, 0, 0, 1);
    let sum = IpAdd::saturating_add(addr, 256);
    is_equal(&rt, sum, Ipv4Addr::new(10, 0, 1, 1));
    is_equal(&rt, IpAdd::saturating_add(TOP4, 1), TOP4);
    let difference = IpSub::<u32>::saturating_sub(addr, 2);
    is_equal(&rt, difference, Ipv4Addr::new(9, 255, 255, 255));
    let network = Ipv4Addr::new(10, 0, 0, 0);
    is_equal(&rt, IpSub::<Ipv4Addr>::saturating_sub(addr, network), 1);
    is_equal(&rt, IpSub::<Ipv4Addr>::saturating_sub(addr, TOP4), 0);
}

#[test]
fn ipv4_bits(rt: HostRuntime) {
    let addr = Ipv4Addr::new(10, 0, 0, 1);
    is_equal(&rt, IpBitAnd::<u32>::bitand(addr, 0xff00_00ff), addr);
    let and = IpBitAnd::<Ipv4Addr>::bitand(addr, Ipv4Addr::new(255, 0, 0, 0));
    is_equal(&rt, and, Ipv4Addr::new(10, 0, 0, 0));
    let filled = IpBitOr::<u32>::bitor(addr, 0xff);
    is_equal(&rt, filled, Ipv4Addr::new(10, 0, 0, 255));
    let or = IpBitOr::<Ipv4Addr>::bitor(addr, Ipv4Addr::new(0, 0, 0, 6));
    is_equal(&rt, or, Ipv4Addr::new(10, 0, 0, 7));
}

#[test]
fn ipv6_sums_and_bits(rt: HostRuntime) {
    is_equal(&rt, IpAdd::saturating_add(v6(1), 2), v6(3));
    is_equal(&rt, IpSub::<u128>::saturating_sub(v6(3), 2), v6(1));
    is_equal(&rt, IpSub::<Ipv6Addr>::saturating_sub(v6(3), v6(1)), 2);
    let two = Ipv6Addr::from_bits(2);
    is_equal(&rt, IpBitAnd::<u128>::bitand(v6(3), 2), two);
    is_equal(&rt, IpBitAnd::<Ipv6Addr>::bitand(v6(3), v6(6)), v6(2));
    is_equal(&rt, IpBitOr::<u128>::bitor(v6(3), 4), v6(7));
    is_equal(&rt, IpBitOr::<Ipv6Addr>::bitor(v6(3), v6(4)), v6(7));
}

/// IPv4 masks, and their prefix lengths.
pub(crate) const IPV4_MASKS: [(&str, Option<u8>); 8] = [
    ("0.0.0.0", Some(0)),
    ("128.0.0.0", Some(1)),
    ("255.254.0.0", Some(15)),
    ("255.255.255.255", Some(32)),
    ("255.0.255.0", None),
    ("0.0.0.1", None),
    ("0.0.0.255", None),
    ("127.0.0.0", None),
];

/// IPv6 masks, and their prefix lengths: no bit is set; all but the last; all; all but the first; and only the last.
const IPV6_MASKS: [(&str, Option<u8>); 5] = [
    ("::", Some(0)),
    ("ffff:ffff:ffff:ffff:ffff:ffff:ffff:fffe", Some(127)),
    ("ffff:ffff:ffff:ffff:ffff:ffff:ffff:ffff", Some(128)),
    ("7fff:ffff:ffff:ffff:ffff:ffff:ffff:ffff", None),
    ("::1", None),
];

/// The prefix length of the mask, by the function for its family.
fn length_in_family(mask: IpAddr) -> Option<u8> {
    match mask {
        IpAddr::V4(mask) => ipv4_mask_to_prefix(mask).ok(),
        IpAddr::V6(mask) => ipv6_mask_to_prefix(mask).ok(),
    }
}

/// Checks the lengths of the masks, by the function for each family and by the one for both.
fn masks_tell(rt: &impl Abort, masks: &[(&str, Option<u8>)]) {
    for (text, len) in masks {
        let mask = IpAddr::from_str(text).expect(rt, text);
        row_is(rt, text, length_in_family(mask), *len);
        row_is(rt, text, ip_mask_to_prefix(mask).ok(), *len);
    }
}

#[test]
fn masks(rt: HostRuntime) {
    masks_tell(&rt, &IPV4_MASKS);
    masks_tell(&rt, &IPV6_MASKS);
}

#[test]
fn range(rt: HostRuntime) {
    let mut left = Ipv4AddrRange::new(Ipv4Addr::new(10, 0, 0, 1), Ipv4Addr::new(10, 0, 0, 4));
    assert_eq!(rt; left.count(), 4);
    assert_eq!(rt; left.next_back(), Some(Ipv4Addr::new(10, 0, 0, 4)));
    assert_eq!(rt; left.nth(1), Some(Ipv4Addr::new(10, 0, 0, 2)));
    assert_eq!(rt; left.max(), Some(Ipv4Addr::new(10, 0, 0, 3)));
}

/// A mask of this length, and the key shifted left and right by as many bits.
fn moved<K: Key>(key: K, count: u8) -> (u128, u128, u128)
    requires { count ≤ K.width }
{
    (
        K::mask(count).to_bits(),
        key.shifted_left(count).to_bits(),
        key.shifted_right(count).to_bits(),
    )
}

#[test]
fn keys(rt: HostRuntime) {
    is_equal(&rt, moved(0x93_u8, 3), (0xe0, 0x98, 0x12));
    is_equal(&rt, moved(0x93_u8, 8), (0xff, 0, 0));
    is_equal(&rt, moved(0x8001_u16, 1), (0x8000, 2, 0x4000));
    is_equal(
        &rt,
        moved(0x8000_0001_u32, 0),
        (0, 0x8000_0001, 0x8000_0001),
    );
    is_equal(&rt, moved(0x8000_0001_u32, 32), (0xffff_ffff, 0, 0));
    is_equal(
        &rt,
        moved(0xff_u64, 60),
        (0xffff_ffff_ffff_fff0, 0xf000_0000_0000_0000, 0),
    );
    is_equal(&rt, moved(u128::MAX, 127), (u128::MAX - 1, 1 << 127, 1));
    is_equal(&rt, moved(u128::MAX, 128), (u128::MAX, 0, 0));
}
