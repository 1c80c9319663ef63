//! Networks, hops and routes in the layout of C.
ghost use Rattle.std.specs.Prelude.{◌≡◌, ◌+◌, ◌*◌, ◌^◌, ◌≤◌, ◌↔◌, IsSome, IfSome, option_map};
ghost use Rattle.ipnet_addr.specs.Addresses.{Ipv4, Ipv6, address_of};
ghost use Rattle.ipnet.specs.declared.ip_net.IpNet.TheVariants.{V4, V6};
ghost use Rattle.ipnet.specs.IpNets.{block, network_at};
ghost use Rattle.hop_index.specs.Indexes.{hop_number};
ghost use Rattle.route_laws.specs.Tables.{route_of};
ghost use Rattle.routes_c.specs.Handles.{Told};
ghost use Rattle.routes_c.specs.RouteLists.{route_shown};
ghost use Rattle.routes_c.specs.Shown.{found_shown, given_hop, hop_shown, match_shown, piece_shown, shown};

use hop_index::FromHop;
use ipnet::{IpAddr, IpNet, Ipv4Net, Ipv6Net};
use ipnet_addr::bits::{ipv4_of, ipv6_of};
use route_table::Hop;

/// A route: its network, its hop (2^32 is `drop`) and its preference.
#[repr(C)]
#[derive(Clone, Copy)]
pub struct Route {
    pub high: u64,
    pub low: u64,
    pub hop: u64,
    pub pref: u16,
    pub family: u8,
    pub len: u8,
}

/// The hop of the addresses that a changed network governs, before and after the change; 2^32 is none.
#[repr(C)]
#[derive(Drop)]
pub struct Change {
    pub before: u64,
    pub after: u64,
}

/// A block with its one hop.
#[repr(C)]
#[derive(Clone, Copy)]
pub struct Piece {
    pub high: u64,
    pub low: u64,
    pub hop: u32,
    pub family: u8,
    pub len: u8,
}

/// An IPv6 address: its upper and its lower half.
#[repr(C)]
#[derive(Clone, Copy)]
pub struct Addr6 {
    pub high: u64,
    pub low: u64,
}

/// 2^64: an IPv6 address is two numbers below it.
const HALF: u128 = 18_446_744_073_709_551_616;

/// The number for `drop`, and for no hop.
const NONE: u64 = 4_294_967_296;

/// The number that means no match in a lookup of many addresses.
const NO_MATCH: u64 = 8_589_934_592;

/// The IPv4 address of a number.
pub(crate) fn ip4(addr: u32) -> IpAddr
    ensures { address_of result ≡ record { family = Ipv4; number = addr } }
{
    IpAddr::V4(ipv4_of(addr))
}

/// The IPv6 address of two halves.
pub(crate) fn ip6(high: u64, low: u64) -> IpAddr
    ensures { address_of result ≡ record { family = Ipv6; number = high * 2 ^ 64 + low } }
{
    IpAddr::V6(ipv6_of(high as u128 * HALF + low as u128))
}

/// The IPv4 network of an address, if the length is valid.
pub(crate) fn net4(addr: u32, len: u8) -> Option<IpNet>
    ensures fits { IsSome result ↔ (len ≤ 32) }
    ensures net { IfSome result (λ n. n ≡ V4 (record { number = addr; len = len })) }
{
    match Ipv4Net::new(ipv4_of(addr), len) {
        Ok(net) => Some(IpNet::V4(net)),
        Err(_) => None,
    }
}

/// The IPv6 network of an address, if the length is valid.
pub(crate) fn net6(high: u64, low: u64, len: u8) -> Option<IpNet>
    ensures fits { IsSome result ↔ (len ≤ 128) }
    ensures net { IfSome result (λ n. n ≡ V6 (record { number = high * 2 ^ 64 + low; len = len })) }
{
    let number = high as u128 * HALF + low as u128;
    match Ipv6Net::new(ipv6_of(number), len) {
        Ok(net) => Some(IpNet::V6(net)),
        Err(_) => None,
    }
}

/// The hop of a number: `drop` from 2^32 on.
pub(crate) fn given_hop(hop: u64) -> Hop
    ensures { result ≡ given_hop hop }
{
    match u32::try_from(hop) {
        Ok(number) => Hop::Number(number),
        Err(_) => Hop::Drop,
    }
}

/// The number of a hop: 2^32 for `drop`.
fn shown_hop(hop: Hop) -> u64
    ensures { result ≡ hop_shown hop }
{
    match hop {
        Hop::Number(number) => number as u64,
        Hop::Drop => NONE,
    }
}

/// A change in the layout of C.
pub(crate) fn shown_change(before: Option<u32>, after: Option<u32>) -> Change
    ensures before { result.before ≡ hop_number before }
    ensures after { result.after ≡ hop_number after }
{
    Change {
        before: u64::from_hop(before),
        after: u64::from_hop(after),
    }
}

/// A route in the layout of C.
fn shown_route(net: IpNet, hop: Hop, pref: u16) -> Route
    ensures { result ≡ shown net hop pref }
{
    let hop = shown_hop(hop);
    match net {
        IpNet::V4(net) => Route {
            high: 0,
            low: net.addr().to_bits() as u64,
            hop,
            pref,
            family: 4,
            len: net.prefix_len(),
        },
        IpNet::V6(net) => {
            let number = net.addr().to_bits();
            Route {
                high: (number / HALF) as u64,
                low: (number % HALF) as u64,
                hop,
                pref,
                family: 6,
                len: net.prefix_len(),
            }
        }
    }
}

/// A route of a network in the layout of C; host bits are ignored.
pub(crate) fn shown_at(net: &IpNet, hop: Hop, pref: u16) -> Route
    ensures { result ≡ route_shown (route_of net.now hop pref) }
{
    shown_route(net.trunc(), hop, pref)
}

/// The result of `get` in the layout of C.
pub(crate) fn show(found: Option<(IpNet, Hop, u16)>, route: &mut Route) -> u32
    ensures { Told (option_map found_shown found) result route.old route.new }
{
    match found {
        Some((net, hop, pref)) => {
            *route = shown_route(net, hop, pref);
            0
        }
        None => 1,
    }
}

/// The hop of the result of `get`, as one number.
pub(crate) fn shown_match(found: Option<(IpNet, Hop, u16)>) -> u64
    ensures { result ≡ match_shown found }
{
    match found {
        Some((_, hop, _)) => shown_hop(hop),
        None => NO_MATCH,
    }
}

/// A piece of a flat list in the layout of C.
pub(crate) fn shown_piece(net: IpNet, number: u32) -> Piece
    requires { net ≡ network_at (block net) }
    ensures { result ≡ piece_shown (record { block = block net; number = number }) }
{
    let route = shown_route(net, Hop::Number(number), 0);
    Piece {
        high: route.high,
        low: route.low,
        hop: number,
        family: route.family,
        len: route.len,
    }
}
