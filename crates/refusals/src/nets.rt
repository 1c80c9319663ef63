//! Networks: their aggregation, their values, their texts and bytes, and walks of their addresses and subnets.
ghost use Rattle.std.specs.Iterator.{IsFinite};

use crate::fault::{Fault, made};
use crate::show::{answer, begin, end, ended, ended_list, line, lines, part};
use ipnet::{AddrParseError, IpNet, Ipv4Net, Ipv6Net, ip_mask_to_prefix};
use serde_json::Value;
use std::alloc::{AllocError, Global};
use std::fmt::{Debug, Display};
use std::str::FromStr;

/// The calls of networks.
#[derive(Clone, Copy)]
pub enum NetCall {
    AggregateIpv4,
    AggregateIpv6,
    AggregateMixed,
    ToValueIpv4,
    ToValueIpv6,
    ToValueMixed,
    Read,
    Print,
    Part,
    Walk,
}

const IPV4: [&str; 6] = [
    "10.1.0.0/16",
    "10.0.0.0/16",
    "192.168.0.1/32",
    "10.1.2.0/24",
    "192.168.0.3/31",
    "1.0.0.0/8",
];

const IPV6: [&str; 5] = [
    "2001:db8:8000::/33",
    "2001:db8::/33",
    "::1/128",
    "2001:db8:1::/48",
    "::/127",
];

pub fn run(rt: &HostRuntime, call: NetCall) -> Result<(), Fault> {
    match call {
        NetCall::AggregateIpv4 => aggregate::<Ipv4Net>(rt, &IPV4, &[]),
        NetCall::AggregateIpv6 => aggregate::<Ipv6Net>(rt, &IPV6, &[]),
        NetCall::AggregateMixed => aggregate::<IpNet>(rt, &IPV6, &IPV4),
        NetCall::ToValueIpv4 => to_value::<Ipv4Net>(rt, "10.1.2.3/8"),
        NetCall::ToValueIpv6 => to_value::<Ipv6Net>(rt, "2001:db8::1/32"),
        NetCall::ToValueMixed => to_value::<IpNet>(rt, "::ffff:10.1.2.3/104"),
        NetCall::Read => read(rt),
        NetCall::Print => print(rt),
        NetCall::Part => parts(rt),
        NetCall::Walk => walk(rt),
    }
}

/// Reads the network of the text.
pub fn network<T: FromStr<Err = AddrParseError>>(text: &str) -> Result<T, Fault> {
    made(T::from_str(text))
}

/// Adds the networks of these texts.
fn add_networks<T: FromStr<Err = AddrParseError> + Drop>(
    nets: &mut Vec<T>,
    texts: &[&'static str],
) -> Result<(), Fault> {
    for text in texts {
        made(nets.push(network(text)?))?;
    }
    Ok(())
}

/// The networks of the first texts, then those of the others.
pub fn networks<T: FromStr<Err = AddrParseError> + Drop>(
    alloc: Global,
    texts: &[&'static str],
    more: &[&'static str],
) -> Result<Vec<T>, Fault> {
    let mut nets = Vec::new(alloc);
    add_networks(&mut nets, texts)?;
    add_networks(&mut nets, more)?;
    Ok(nets)
}

/// The calls of networks that allocate, for each kind of network.
trait NetKind: FromStr<Err = AddrParseError> + Debug + Drop {
    fn aggregated(alloc: Global, nets: &Vec<Self>) -> Result<Vec<Self>, AllocError>;

    fn value(&self, alloc: Global) -> Result<Value, AllocError>;
}

impl NetKind for Ipv4Net {
    fn aggregated(alloc: Global, nets: &Vec<Ipv4Net>) -> Result<Vec<Ipv4Net>, AllocError> {
        Ipv4Net::aggregate(alloc, nets)
    }

    fn value(&self, alloc: Global) -> Result<Value, AllocError> {
        self.to_value(alloc)
    }
}

impl NetKind for Ipv6Net {
    fn aggregated(alloc: Global, nets: &Vec<Ipv6Net>) -> Result<Vec<Ipv6Net>, AllocError> {
        Ipv6Net::aggregate(alloc, nets)
    }

    fn value(&self, alloc: Global) -> Result<Value, AllocError> {
        self.to_value(alloc)
    }
}

impl NetKind for IpNet {
    fn aggregated(alloc: Global, nets: &Vec<IpNet>) -> Result<Vec<IpNet>, AllocError> {
        IpNet::aggregate(alloc, nets)
    }

    fn value(&self, alloc: Global) -> Result<Value, AllocError> {
        self.to_value(alloc)
    }
}

/// The aggregation of the networks of these texts, which are unchanged.
fn aggregate<T: NetKind>(
    rt: &HostRuntime,
    texts: &[&'static str],
    more: &[&'static str],
) -> Result<(), Fault> {
    let nets: Vec<T> = networks(rt.alloc(), texts, more)?;
    lines(rt, "", nets.iter());
    begin(rt);
    ended_list(rt, T::aggregated(rt.alloc(), &nets));
    lines(rt, "", nets.iter());
    Ok(())
}

/// The value of the network of the text, which is unchanged.
fn to_value<T: NetKind>(rt: &HostRuntime, text: &str) -> Result<(), Fault> {
    let net: T = network(text)?;
    line(rt, &net);
    begin(rt);
    if let Some(value) = ended(rt, net.value(rt.alloc())) {
        answer(rt, &value.as_str().unwrap_or("no string"));
    }
    line(rt, &net);
    Ok(())
}

/// Networks read from texts, from bytes and from values.
fn read(rt: &HostRuntime) -> Result<(), Fault> {
    let ipv4 = made(network::<IpNet>("10.1.2.3/8")?.to_value(rt.alloc()))?;
    let ipv6 = made(network::<IpNet>("2001:db8::1/32")?.to_value(rt.alloc()))?;
    begin(rt);
    for text in &IPV4 {
        read_ipv4(rt, text);
    }
    for text in &IPV6 {
        read_ipv6(rt, text);
    }
    read_bytes(rt);
    read_value(rt, &ipv4);
    read_value(rt, &ipv6);
    end(rt);
    Ok(())
}

fn read_bytes(rt: &HostRuntime) {
    line(rt, &Ipv4Net::from_bytes(&[10, 1, 2, 3, 8]));
    let bytes = [32, 1, 13, 184, 0, 0, 0, 0, 0, 0, 0, 0, 0, 0, 0, 1, 32];
    line(rt, &Ipv6Net::from_bytes(&bytes));
    line(rt, &IpNet::from_bytes(&[0, 10, 1, 2, 3, 8]));
}

/// A value, read as each family and as either.
fn read_value(rt: &HostRuntime, value: &Value) {
    line(rt, &Ipv4Net::from_value(value));
    line(rt, &Ipv6Net::from_value(value));
    line(rt, &IpNet::from_value(value));
}

/// A text of IPv4, read as each family and as either.
fn read_ipv4(rt: &HostRuntime, text: &str) {
    line(rt, &Ipv4Net::from_str(text));
    line(rt, &Ipv4Net::parse_ascii(text.as_bytes()));
    line(rt, &Ipv6Net::from_str(text));
    line(rt, &IpNet::from_str(text));
}

/// A text of IPv6, read as IPv6 and as either family.
fn read_ipv6(rt: &HostRuntime, text: &str) {
    line(rt, &Ipv6Net::from_str(text));
    line(rt, &IpNet::parse_ascii(text.as_bytes()));
}

/// Networks printed as texts and as bytes.
fn print(rt: &HostRuntime) -> Result<(), Fault> {
    let nets = networks(rt.alloc(), &IPV6, &IPV4)?;
    begin(rt);
    for net in nets.iter() {
        print_one(rt, net);
    }
    end(rt);
    Ok(())
}

fn print_one(rt: &HostRuntime, net: &IpNet) {
    part(rt, net);
    part(rt, &" ");
    line(rt, net);
    line(rt, &net.to_text().as_slice());
    line(rt, &net.to_bytes().as_slice());
}

/// Parts of networks, and networks made of them.
fn parts(rt: &HostRuntime) -> Result<(), Fault> {
    let nets = networks(rt.alloc(), &IPV6, &IPV4)?;
    begin(rt);
    for net in nets.iter() {
        addresses_of(rt, net);
        networks_of(rt, net);
    }
    end(rt);
    Ok(())
}

fn addresses_of(rt: &HostRuntime, net: &IpNet) {
    line(rt, &(net.netmask(), net.hostmask()));
    line(rt, &(net.network(), net.broadcast()));
    line(rt, &ip_mask_to_prefix(net.netmask()));
}

fn networks_of(rt: &HostRuntime, net: &IpNet) {
    line(rt, &IpNet::new(net.addr(), net.prefix_len()));
    line(rt, &IpNet::with_netmask(net.addr(), net.netmask()));
    line(rt, &(net.trunc(), net.supernet()));
    line(rt, &(net.is_sibling(net), net.contains(net)));
}

/// Hosts and halves of networks.
fn walk(rt: &HostRuntime) -> Result<(), Fault> {
    let ipv4: Ipv4Net = network("10.1.2.0/29")?;
    let ipv6: Ipv6Net = network("2001:db8::/126")?;
    let either: IpNet = network("::/127")?;
    begin(rt);
    walk_hosts(rt, ipv4.hosts(), ipv4.hosts());
    if let Ok(halves) = ipv4.subnets(30) {
        lines(rt, "", halves);
    }
    walk_hosts(rt, ipv6.hosts(), ipv6.hosts());
    if let Ok(halves) = ipv6.subnets(127) {
        lines(rt, "", halves);
    }
    walk_hosts(rt, either.hosts(), either.hosts());
    if let Ok(halves) = either.subnets(128) {
        lines(rt, "", halves);
    }
    end(rt);
    Ok(())
}

/// The hosts, and once more the last and the first of them.
fn walk_hosts<T: Debug + Drop, I: DoubleEndedIterator<Item = T>>(
    rt: &HostRuntime,
    hosts: I,
    again: I,
)
    requires all { (it : I) → I.can_next it × IsFinite (I.remaining it) }
    requires back { (it : I) → I.can_next_back it }
{
    lines(rt, "", hosts);
    let mut again = again;
    line(rt, &again.size_hint());
    line(rt, &(again.next_back(), again.next()));
}
