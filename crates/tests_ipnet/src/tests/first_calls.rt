//! The calls of networks that are met first, as the comments of these calls show them.
use crate::tests::compare::{any, v4};
use crate::tests::cuts::networks;
use ipnet::{
    IpAddr, IpNet, Ipv4Addr, Ipv4Net, Ipv4Subnets, Ipv6Addr, PrefixLenError, ip_mask_to_prefix,
    ipv4_mask_to_prefix, ipv6_mask_to_prefix,
};
use std::alloc::Global;
use std::process::Abort;
use std::str::FromStr;

#[test]
fn an_ipv4_network(rt: HostRuntime) {
    let net: Ipv4Net = "10.1.2.3/16".parse().expect(&rt, "a network");
    assert_eq!(rt; net.network(), Ipv4Addr::new(10, 1, 0, 0));
    assert!(rt; net.contains(&Ipv4Addr::new(10, 1, 255, 255)));
    assert_eq!(rt; Ipv4Net::new(net.addr(), 16), Ok(net));
    assert_eq!(rt; Ipv4Net::new(net.addr(), 33), Err(PrefixLenError));
    let masked = Ipv4Net::with_netmask(net.addr(), Ipv4Addr::new(255, 255, 0, 0));
    assert_eq!(rt; masked, Ok(net));
}

#[test]
fn networks_of_texts(rt: HostRuntime) {
    assert!(rt; Ipv4Net::from_str("10.0.0.0/8").is_ok());
    assert!(rt; Ipv4Net::from_str("10.0.0.0/33").is_err());
    assert!(rt; matches!(IpNet::from_str("10.0.0.0/8"), Ok(IpNet::V4(_))));
    assert!(rt; matches!(IpNet::from_str("2001:db8::/32"), Ok(IpNet::V6(_))));
    assert!(rt; matches!(IpNet::from_str("10.0.0.0"), Err(_)));
    let net = IpNet::parse_ascii(b"2001:DB8::1/32").expect(&rt, "a network");
    assert_eq!(rt; net.to_text().as_slice(), b"2001:db8::1/32".as_slice());
}

#[test]
fn a_printed_network(rt: HostRuntime) {
    let net = v4(&rt, "010.1.2.3/16");
    let text = format!(in rt.alloc(); "{net}").expect(&rt, "memory");
    assert_eq!(rt; text.as_str(), "10.1.2.3/16");
}

#[test]
fn a_network_in_json(rt: HostRuntime) {
    let net = v4(&rt, "10.1.2.3/16");
    let value = net.to_value(rt.alloc()).expect(&rt, "memory");
    assert_eq!(rt; value.as_str(), Some("10.1.2.3/16"));
    assert_eq!(rt; Ipv4Net::from_value(&value), Ok(net));
}

#[test]
fn hosts_and_blocks(rt: HostRuntime) {
    let mut hosts = v4(&rt, "10.0.0.0/30").hosts();
    assert_eq!(rt; hosts.next(), Some(Ipv4Addr::new(10, 0, 0, 1)));
    assert_eq!(rt; hosts.next(), Some(Ipv4Addr::new(10, 0, 0, 2)));
    assert_eq!(rt; hosts.next(), None);
    let mut blocks = Ipv4Subnets::new(Ipv4Addr::new(10, 0, 0, 0), Ipv4Addr::new(10, 0, 0, 5), 0);
    assert_eq!(rt; blocks.next(), Some(v4(&rt, "10.0.0.0/30")));
    assert_eq!(rt; blocks.next(), Some(v4(&rt, "10.0.0.4/31")));
    assert_eq!(rt; blocks.next(), None);
}

#[test]
fn halves_of_either_family(rt: HostRuntime) {
    let mut halves = any(&rt, "2001:db8::/32").subnets(33).expect(&rt, "halves");
    assert_eq!(rt; halves.next(), Some(any(&rt, "2001:db8::/33")));
    assert_eq!(rt; halves.next(), Some(any(&rt, "2001:db8:8000::/33")));
}

#[test]
fn lengths_of_masks(rt: HostRuntime) {
    let mask = Ipv4Addr::new(255, 254, 0, 0);
    assert_eq!(rt; ipv4_mask_to_prefix(mask), Ok(15));
    assert_eq!(rt;
        ipv4_mask_to_prefix(Ipv4Addr::new(255, 0, 255, 0)),
        Err(PrefixLenError)
    );
    let mask = Ipv6Addr::new(0xffff, 0xffff, 0, 0, 0, 0, 0, 0);
    assert_eq!(rt; ipv6_mask_to_prefix(mask), Ok(32));
    assert_eq!(rt; ip_mask_to_prefix(IpAddr::V6(mask)), Ok(32));
}

/// 10.0.0.5/25 and 10.0.0.128/25 are one block.
fn one_block(rt: &impl Abort, alloc: Global, halves: &Vec<Ipv4Net>) {
    let blocks = Ipv4Net::aggregate(alloc, halves).expect(rt, "memory");
    assert_eq!(rt; blocks.as_slice(), [v4(rt, "10.0.0.0/24")].as_slice());
}

/// The halves of IPv6, and 10.0.0.1/8.
fn two_blocks(rt: &impl Abort, alloc: Global, networks: &Vec<IpNet>) {
    let blocks = IpNet::aggregate(alloc, networks).expect(rt, "memory");
    assert_eq!(rt;
        blocks.as_slice(),
        [any(rt, "10.0.0.0/8"), any(rt, "::/0")].as_slice()
    );
}

#[test]
fn aggregates(rt: HostRuntime) {
    let alloc = rt.alloc();
    one_block(
        &rt,
        alloc,
        &networks(&rt, alloc, "10.0.0.5/25 10.0.0.128/25"),
    );
    two_blocks(
        &rt,
        alloc,
        &networks(&rt, alloc, "::/1 8000::/1 10.0.0.1/8"),
    );
}
