//! Texts of errors, which no contract states, and each call once with an expected value written out.
use crate::tests::addresses::IPV4_MASKS;
use crate::tests::compare::{any, is_equal, row_is, v4, v6};
use ipnet::{Contains, IpAddr, IpNet, Ipv4Addr, Ipv4Net, Ipv6Addr, Ipv6Net, PrefixLenError};
use std::alloc::Global;
use std::fmt::{Debug, Display, Write};
use std::process::Abort;
use std::str::FromStr;

/// Texts of networks, and the texts that are printed for them.
const PRINTED: [(&str, &str); 13] = [
    ("010.001.000.255/08", "10.1.0.255/8"),
    ("0.0.0.0/0", "0.0.0.0/0"),
    ("255.255.255.255/32", "255.255.255.255/32"),
    ("::/0", "::/0"),
    ("2001:0DB8:0:0:1:0:0:1/64", "2001:db8::1:0:0:1/64"),
    ("1:2:3:4:5:6:7::8/128", "1:2:3:4:5:6:7:8/128"),
    (
        "::1:2:3:4:5:6:255.255.255.255/128",
        "1:2:3:4:5:6:ffff:ffff/128",
    ),
    ("1:2:3:4:5:6:7::/0", "1:2:3:4:5:6:7:0/0"),
    ("::1:2:3:4:5:6:7:8/128", "1:2:3:4:5:6:7:8/128"),
    ("1:0:0:2:0:0:0:3/1", "1:0:0:2::3/1"),
    ("::ffff:1.2.3.4/96", "::ffff:1.2.3.4/96"),
    ("FFFF::0001:0:0:1/064", "ffff::1:0:0:1/64"),
    (LONGEST, LONGEST),
];

#[test]
fn texts(rt: HostRuntime) {
    for (text, printed) in PRINTED {
        let net = any(&rt, text);
        row_is(&rt, text, net.to_text().as_slice(), printed.as_bytes());
    }
}

/// Texts that are no networks.
const REFUSED: [&str; 20] = [
    "10.0.0.0",
    "10.0.0.256/8",
    "10.0.0.0/33",
    "10.0.0.0/008",
    "0010.0.0.0/8",
    "10.0.0/8",
    "10.0.0.0/",
    " 10.0.0.0/8",
    "10.0.0.0/8 ",
    "+1.0.0.0/8",
    "",
    "1:2:3:4:5:6:7:8::/128",
    "1.2.3.4::/64",
    "1:2:3:4:5:6:7:1.2.3.4/96",
    "ffff::1/129",
    "ffff::1/0064",
    "fffff::1/64",
    "1::2::3/64",
    ":1:2:3:4:5:6:7:8/64",
    "::",
];

#[test]
fn refused_texts(rt: HostRuntime) {
    for text in REFUSED {
        row_is(&rt, text, IpNet::from_str(text).is_err(), true);
    }
    is_equal(&rt, Ipv4Net::from_str("::/0").is_err(), true);
    is_equal(&rt, Ipv6Net::from_str("0.0.0.0/0").is_err(), true);
}

/// Checks the displayed text of the value.
fn shows<T: Display>(rt: &impl Abort, alloc: Global, value: &T, text: &str) {
    let shown = format!(in alloc; "{value}").expect(rt, "memory");
    row_is(rt, text, shown.as_str(), text);
}

/// Checks the displayed text of the network, also with a greater width, and its text for debugging.
fn shows_always<T: Display + Debug>(rt: &impl Abort, alloc: Global, net: &T, text: &str) {
    shows(rt, alloc, net, text);
    let padded = format!(in alloc; "{net:>20}").expect(rt, "memory");
    row_is(rt, text, padded.as_str(), text);
    let debugged = format!(in alloc; "{net:?}").expect(rt, "memory");
    row_is(rt, text, debugged.as_str(), text);
}

/// The longest text that is printed for an IPv6 network: 43 bytes.
const LONGEST: &str = "ffff:ffff:ffff:ffff:ffff:ffff:ffff:ffff/128";

#[test]
fn displayed(rt: HostRuntime) {
    for text in ["10.1.2.3/16", "255.255.255.255/32"] {
        shows_always(&rt, rt.alloc(), &v4(&rt, text), text);
    }
    for text in ["2001:db8::/32", LONGEST] {
        shows_always(&rt, rt.alloc(), &v6(&rt, text), text);
        shows_always(&rt, rt.alloc(), &any(&rt, text), text);
    }
}

#[test]
fn too_long_prefixes(rt: HostRuntime) {
    let long = Ipv4Net::new(Ipv4Addr::new(10, 0, 0, 0), 33);
    is_equal(&rt, &long, &Err(PrefixLenError));
    is_equal(&rt, Ipv6Net::new(Ipv6Addr::LOCALHOST, 129).is_err(), true);
    let host = IpAddr::V4(Ipv4Addr::LOCALHOST);
    is_equal(&rt, IpNet::new(host, 64).is_err(), true);
}

#[test]
fn errors(rt: HostRuntime) {
    shows(&rt, rt.alloc(), &PrefixLenError, "invalid IP prefix length");
    let Err(error) = Ipv4Net::parse_ascii(b"10.0.0.0") else {
        panic!(&rt; "read")
    };
    shows(&rt, rt.alloc(), &error, "invalid IP address syntax");
}

fn made(rt: &impl Abort, addr: Ipv4Addr, len: u8) -> Ipv4Net {
    Ipv4Net::new(addr, len).expect(rt, "an IPv4 network")
}

#[test]
fn ipv4_parts(rt: HostRuntime) {
    let addr = Ipv4Addr::new(10, 1, 2, 3);
    let net = made(&rt, addr, 16);
    is_equal(&rt, net.addr(), addr);
    is_equal(&rt, net.prefix_len(), 16);
    is_equal(&rt, net.max_prefix_len(), 32);
    is_equal(&rt, net.trunc(), made(&rt, Ipv4Addr::new(10, 1, 0, 0), 16));
    is_equal(&rt, Ipv4Net::from(addr), Ipv4Net::new_assert(addr, 32));
    is_equal(&rt, net.netmask(), Ipv4Addr::new(255, 255, 0, 0));
    is_equal(&rt, net.hostmask(), Ipv4Addr::new(0, 0, 255, 255));
    is_equal(&rt, net.network(), Ipv4Addr::new(10, 1, 0, 0));
    is_equal(&rt, net.broadcast(), Ipv4Addr::new(10, 1, 255, 255));
}

/// Checks the IPv6 address.
fn is_addr6(rt: &impl Abort, addr: Ipv6Addr, text: &str) {
    row_is(rt, text, Ipv6Net::from(addr), v6(rt, text));
}

/// The last address of 2001:db8::/32.
const LAST: &str = "2001:db8:ffff:ffff:ffff:ffff:ffff:ffff/128";

#[test]
fn ipv6_parts(rt: HostRuntime) {
    let net = v6(&rt, "2001:db8::1/32");
    let same = Ipv6Net::new(net.addr(), 32).expect(&rt, "an IPv6 network");
    is_equal(&rt, net, same);
    is_equal(&rt, net.max_prefix_len(), 128);
    is_addr6(&rt, net.netmask(), "ffff:ffff::/128");
    is_addr6(&rt, net.hostmask(), "::ffff:ffff:ffff:ffff:ffff:ffff/128");
    is_addr6(&rt, net.network(), "2001:db8::/128");
    is_addr6(&rt, net.broadcast(), LAST);
    let greatest = Ipv6Addr::from_bits(u128::MAX);
    is_equal(&rt, Ipv6Net::default().broadcast(), greatest);
}

/// Checks that the network can be made from its address and its length.
fn is_made_of_parts(rt: &impl Abort, net: IpNet) {
    let made = IpNet::new(net.addr(), net.prefix_len());
    is_equal(rt, made.expect(rt, "a network"), net);
    is_equal(rt, IpNet::new_assert(net.addr(), net.prefix_len()), net);
}

/// Checks the address of either family.
fn is_either_addr(rt: &impl Abort, addr: IpAddr, text: &str) {
    row_is(rt, text, IpNet::from(addr), any(rt, text));
}

#[test]
fn parts_of_either_family(rt: HostRuntime) {
    let net = any(&rt, "2001:db8::1/32");
    is_made_of_parts(&rt, net);
    is_equal(&rt, net.max_prefix_len(), 128);
    let masked = IpNet::with_netmask(net.addr(), net.netmask());
    is_equal(&rt, masked.expect(&rt, "a network"), net);
    is_equal(&rt, IpNet::default(), IpNet::from(Ipv4Net::default()));
    is_either_addr(&rt, net.broadcast(), LAST);
    is_either_addr(&rt, net.hostmask(), "::ffff:ffff:ffff:ffff:ffff:ffff/128");
    is_either_addr(&rt, net.network(), "2001:db8::/128");
}

/// The prefix length of the network, if there is one.
fn length(net: Option<Ipv4Net>) -> Option<u8> {
    match net {
        Some(net) => Some(net.prefix_len()),
        None => None,
    }
}

/// The same for either family.
fn length_of_either(net: Option<IpNet>) -> Option<u8> {
    match net {
        Some(net) => Some(net.prefix_len()),
        None => None,
    }
}

/// IPv4 masks, for an IPv4 network and for a network of either family.
#[test]
fn ipv4_masks(rt: HostRuntime) {
    for (text, len) in IPV4_MASKS {
        let mask = Ipv4Addr::from_str(text).expect(&rt, text);
        let v4 = Ipv4Net::with_netmask(Ipv4Addr::new(10, 1, 2, 3), mask);
        row_is(&rt, text, length(v4.ok()), len);
        let both = IpNet::with_netmask(IpAddr::V6(Ipv6Addr::LOCALHOST), IpAddr::V4(mask));
        row_is(&rt, text, length_of_either(both.ok()), len);
    }
}

/// IPv6 masks, written as networks, and the lengths they give for an IPv4 network.
const IPV6_MASKS: [(&str, Option<u8>); 5] = [
    ("::/0", Some(0)),
    ("ffff:fffe::/0", Some(31)),
    ("ffff:ffff::/0", Some(32)),
    ("ffff:ffff:8000::/0", None),
    ("ffff::1/0", None),
];

#[test]
fn ipv6_masks(rt: HostRuntime) {
    for (text, len) in IPV6_MASKS {
        let addr = IpAddr::V4(Ipv4Addr::new(10, 1, 2, 3));
        let both = IpNet::with_netmask(addr, IpAddr::V6(v6(&rt, text).addr()));
        row_is(&rt, text, length_of_either(both.ok()), len);
    }
}

#[test]
fn ipv4_neighbours(rt: HostRuntime) {
    let half = v4(&rt, "10.200.0.1/9");
    is_equal(&rt, half.supernet(), Some(v4(&rt, "10.0.0.0/8")));
    is_equal(&rt, Ipv4Net::default().supernet(), None);
    is_equal(&rt, half.is_sibling(&v4(&rt, "10.0.0.0/9")), true);
    is_equal(&rt, half.is_sibling(&v4(&rt, "11.0.0.0/9")), false);
    let all = Ipv4Net::default();
    is_equal(&rt, all.is_sibling(&Ipv4Net::default()), false);
    let first = v4(&rt, "10.0.0.0/9").supernet();
    is_equal(&rt, first, Some(v4(&rt, "10.0.0.0/8")));
}

#[test]
fn ipv6_neighbours(rt: HostRuntime) {
    let half = v6(&rt, "8000::1/1");
    is_equal(&rt, half.supernet(), Some(Ipv6Net::default()));
    is_equal(&rt, Ipv6Net::default().supernet(), None);
    is_equal(&rt, half.is_sibling(&v6(&rt, "::/1")), true);
}

#[test]
fn neighbours_of_either_family(rt: HostRuntime) {
    let half = any(&rt, "8000::/1");
    is_equal(&rt, half.supernet(), Some(any(&rt, "::/0")));
    is_equal(&rt, half.is_sibling(&any(&rt, "::/1")), true);
    is_equal(&rt, half.is_sibling(&any(&rt, "0.0.0.0/1")), false);
    is_equal(&rt, any(&rt, "8000::1/1").trunc(), half);
}

/// Pairs of networks, and whether the first one contains the second one.
const INCLUSIONS: [(&str, &str, bool); 5] = [
    ("10.9.9.9/8", "10.1.0.0/16", true),
    ("10.1.0.0/16", "10.9.9.9/8", false),
    ("0.0.0.0/0", "10.9.9.9/8", true),
    ("11.0.0.0/8", "10.1.0.0/16", false),
    ("10.1.0.0/16", "10.1.0.0/16", true),
];

#[test]
fn ipv4_inclusion(rt: HostRuntime) {
    for (wide, narrow, has) in INCLUSIONS {
        row_is(&rt, wide, v4(&rt, wide).contains(&v4(&rt, narrow)), has);
    }
    let narrow = v4(&rt, "10.1.0.0/16");
    is_equal(&rt, narrow.contains(&Ipv4Addr::new(10, 1, 255, 255)), true);
    is_equal(&rt, narrow.contains(&Ipv4Addr::new(10, 2, 0, 0)), false);
    let all = v4(&rt, "0.0.0.0/0");
    is_equal(&rt, Contains::contains(&all, &narrow), true);
}

#[test]
fn ipv4_order(rt: HostRuntime) {
    let narrow = v4(&rt, "10.1.0.0/16");
    is_equal(&rt, narrow < v4(&rt, "10.1.0.0/17"), true);
    is_equal(&rt, narrow < v4(&rt, "10.9.9.9/8"), true);
}

#[test]
fn ipv6_inclusion(rt: HostRuntime) {
    let wide = v6(&rt, "2001:db8::/32");
    let inside = v6(&rt, "2001:db8:1::/48");
    is_equal(&rt, wide.contains(&inside), true);
    is_equal(&rt, wide.contains(&v6(&rt, "2001:db9::/48")), false);
    is_equal(&rt, wide.contains(&inside.addr()), true);
}

#[test]
fn inclusion_in_either_family(rt: HostRuntime) {
    let wide = IpNet::from(v6(&rt, "2001:db8::/32"));
    let inside = any(&rt, "2001:db8:1::/48");
    is_equal(&rt, wide.contains(&inside), true);
    is_equal(&rt, wide.contains(&inside.addr()), true);
    is_equal(&rt, wide.contains(&any(&rt, "0.0.0.0/0")), false);
    let host = any(&rt, "1.2.3.4/32").addr();
    is_equal(&rt, any(&rt, "::/0").contains(&host), false);
    let greatest = any(&rt, "255.255.255.255/32");
    is_equal(&rt, greatest < any(&rt, "::/0"), true);
}
