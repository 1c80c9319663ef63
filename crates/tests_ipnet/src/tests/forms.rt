//! Networks as bytes and as JSON values, with expected values written out.
use crate::tests::compare::{any, is_equal, row_is, v4, v6};
use ipnet::{IpNet, Ipv4Net, Ipv6Net};
use serde_json::{Value, json};
use std::alloc::Global;
use std::process::Abort;

#[test]
fn bytes_of_one_family(rt: HostRuntime) {
    let net = v4(&rt, "10.1.2.3/16");
    is_equal(&rt, net.to_bytes(), [0x0a, 1, 2, 3, 0x10]);
    is_equal(&rt, &Ipv4Net::from_bytes(&net.to_bytes()), &Ok(net));
    let net = v6(&rt, "2001:db8::1/64");
    let bytes = [0x20, 1, 0x0d, 0xb8, 0, 0, 0, 0, 0, 0, 0, 0, 0, 0, 0, 1, 64];
    is_equal(&rt, net.to_bytes(), bytes);
    is_equal(&rt, &Ipv6Net::from_bytes(&net.to_bytes()), &Ok(net));
}

/// Networks that can be read back from their bytes.
const COME_BACK: [&str; 3] = ["2001:db8::1/64", "::ffff:10.0.0.0/104", "10.0.0.0/8"];

#[test]
fn bytes_of_either_family(rt: HostRuntime) {
    let net = IpNet::V4(v4(&rt, "10.1.2.3/16"));
    let bytes = [0, 0x0a, 1, 2, 3, 0x10];
    is_equal(&rt, net.to_bytes().as_slice(), bytes.as_slice());
    for text in COME_BACK {
        let net = any(&rt, text);
        let back = IpNet::from_bytes(net.to_bytes().as_slice());
        row_is(&rt, text, &back, &Ok(net));
    }
}

#[test]
fn refused_bytes(rt: HostRuntime) {
    is_equal(
        &rt,
        Ipv4Net::from_bytes(&[0x0a, 0, 0, 0, 0x21]).is_err(),
        true,
    );
    is_equal(&rt, Ipv4Net::from_bytes(&[0x0a, 0, 0, 0]).is_err(), true);
    is_equal(
        &rt,
        Ipv4Net::from_bytes(&[0x0a, 0, 0, 0, 0, 8]).is_err(),
        true,
    );
    is_equal(
        &rt,
        IpNet::from_bytes(&[2, 0x0a, 0, 0, 0, 8]).is_err(),
        true,
    );
    is_equal(&rt, IpNet::from_bytes(&[]).is_err(), true);
}

/// Checks that the value is this string, and that it spells this network.
fn is_value(rt: &impl Abort, value: &Value, text: &str, net: IpNet) {
    row_is(rt, text, value.as_str(), Some(text));
    row_is(rt, text, &IpNet::from_value(value), &Ok(net));
}

/// Checks that the value of an IPv4 network spells that network, and no IPv6 network.
fn ipv4_value_is(rt: &impl Abort, alloc: Global, given: &str, text: &str) {
    let net = v4(rt, given);
    let value = net.to_value(alloc).expect(rt, "memory");
    is_value(rt, &value, text, IpNet::V4(net));
    row_is(rt, text, &Ipv4Net::from_value(&value), &Ok(net));
    row_is(rt, text, Ipv6Net::from_value(&value).is_err(), true);
}

/// Checks that the value of an IPv6 network spells that network.
fn ipv6_value_is(rt: &impl Abort, alloc: Global, given: &str, text: &str) {
    let net = v6(rt, given);
    let value = net.to_value(alloc).expect(rt, "memory");
    is_value(rt, &value, text, IpNet::V6(net));
    row_is(rt, text, &Ipv6Net::from_value(&value), &Ok(net));
}

/// Checks that the value of a network of either family spells that network.
fn value_is(rt: &impl Abort, alloc: Global, given: &str, text: &str) {
    let net = any(rt, given);
    let value = net.to_value(alloc).expect(rt, "memory");
    is_value(rt, &value, text, net);
}

#[test]
fn values(rt: HostRuntime) {
    ipv4_value_is(&rt, rt.alloc(), "10.1.2.3/16", "10.1.2.3/16");
    ipv6_value_is(&rt, rt.alloc(), "2001:DB8::1/32", "2001:db8::1/32");
    value_is(&rt, rt.alloc(), "2001:DB8::1/32", "2001:db8::1/32");
}

/// Checks that the value spells no IPv4 network.
fn is_no_ipv4(rt: &impl Abort, value: &Value) {
    is_equal(rt, Ipv4Net::from_value(value).is_err(), true);
}

#[test]
fn a_number_is_no_network(rt: HostRuntime) {
    let number: Value = json!(in rt.alloc(); 10).expect(&rt, "memory");
    is_no_ipv4(&rt, &number);
}

#[test]
fn an_address_is_no_network(rt: HostRuntime) {
    let host: Value = json!(in rt.alloc(); "10.0.0.0").expect(&rt, "memory");
    is_no_ipv4(&rt, &host);
}
