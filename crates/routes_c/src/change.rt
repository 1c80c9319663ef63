//! Changes of the table.
ghost use Rattle.std.specs.Prelude.{◌+◌, ◌*◌, ◌^◌};
ghost use Rattle.ipnet.specs.IpNets.{block};
ghost use Rattle.ipnet_addr.specs.Addresses.{Ipv4, Ipv6};
ghost use Rattle.ipnet_blocks.specs.Networks.{block_of};
ghost use Rattle.routes_c.specs.Calls.{Adds, Changes, ChangesAt, Removes};
ghost use Rattle.routes_c.specs.Handles.{IsHandle};
ghost use Rattle.routes_c.specs.Shown.{given_hop};

use crate::handle::Handle;
use crate::session::Session;
use crate::shown::{Change, given_hop, net4, net6};
use ipnet::IpNet;

/// Adds a route of the network.
fn add(handle: &mut Handle, net: IpNet, hop: u64, pref: u16, change: &mut Change) -> u32
    requires { IsHandle handle.old }
    ensures { Changes handle.old handle.new (λ T U. Adds T U (block net) (given_hop hop) pref) result change.old change.new }
{
    handle.on_with(change, 3, |session: &mut Session, change| {
        session.add(net, given_hop(hop), pref, change)
    })
}

/// Removes a route of the network.
fn del(handle: &mut Handle, net: &IpNet, hop: u64, change: &mut Change) -> u32
    requires { IsHandle handle.old }
    ensures { Changes handle.old handle.new (λ T U. Removes T U (block net.now) (given_hop hop)) result change.old change.new }
{
    handle.on_with(change, 3, |session: &mut Session, change| {
        session.del(net, given_hop(hop), change)
    })
}

/// Adds a route of an IPv4 network. If the network has this hop already, its preference changes. Bits of the address past the length are
/// ignored, and a hop from 2^32 on is `drop`.
///
/// Returns 0 and sets `change`. Fails with 2 if an allocation fails, 3 if the handle is closed, 5 if the network has eight other hops,
/// and 6 if the length is above 32. Then nothing changes.
#[unsafe(no_mangle)]
pub extern "C" fn routes_add4(
    handle: &mut Handle,
    addr: u32,
    len: u8,
    hop: u64,
    pref: u16,
    change: &mut Change,
) -> u32
    requires { IsHandle handle.old }
    ensures { ChangesAt 32 len handle.old handle.new (λ T U. Adds T U (block_of Ipv4 (record { number = addr; len = len })) (given_hop hop) pref) result change.old change.new }
{
    match net4(addr, len) {
        Some(net) => add(handle, net, hop, pref, change),
        None => 6,
    }
}

/// Adds a route of an IPv6 network, as `routes_add4` does.
///
/// Returns 0 and sets `change`. Fails with 2 if an allocation fails, 3 if the handle is closed, 5 if the network has eight other hops,
/// and 6 if the length is above 128. Then nothing changes.
#[unsafe(no_mangle)]
pub extern "C" fn routes_add6(
    handle: &mut Handle,
    high: u64,
    low: u64,
    len: u8,
    hop: u64,
    pref: u16,
    change: &mut Change,
) -> u32
    requires { IsHandle handle.old }
    ensures { ChangesAt 128 len handle.old handle.new (λ T U. Adds T U (block_of Ipv6 (record { number = high * 2 ^ 64 + low; len = len })) (given_hop hop) pref) result change.old change.new }
{
    match net6(high, low, len) {
        Some(net) => add(handle, net, hop, pref, change),
        None => 6,
    }
}

/// Removes the route of this hop from an IPv4 network, and removes the network with its last route. Does not allocate.
///
/// Returns 0 and sets `change`. Fails with 1 if the network has no such hop, 3 if the handle is closed, and 6 if the length is above 32.
/// Then nothing changes.
#[unsafe(no_mangle)]
pub extern "C" fn routes_del4(
    handle: &mut Handle,
    addr: u32,
    len: u8,
    hop: u64,
    change: &mut Change,
) -> u32
    requires { IsHandle handle.old }
    ensures { ChangesAt 32 len handle.old handle.new (λ T U. Removes T U (block_of Ipv4 (record { number = addr; len = len })) (given_hop hop)) result change.old change.new }
{
    match net4(addr, len) {
        Some(net) => del(handle, &net, hop, change),
        None => 6,
    }
}

/// Removes the route of this hop from an IPv6 network, as `routes_del4` does. Does not allocate.
///
/// Returns 0 and sets `change`. Fails with 1 if the network has no such hop, 3 if the handle is closed, and 6 if the length is above 128.
/// Then nothing changes.
#[unsafe(no_mangle)]
pub extern "C" fn routes_del6(
    handle: &mut Handle,
    high: u64,
    low: u64,
    len: u8,
    hop: u64,
    change: &mut Change,
) -> u32
    requires { IsHandle handle.old }
    ensures { ChangesAt 128 len handle.old handle.new (λ T U. Removes T U (block_of Ipv6 (record { number = high * 2 ^ 64 + low; len = len })) (given_hop hop)) result change.old change.new }
{
    match net6(high, low, len) {
        Some(net) => del(handle, &net, hop, change),
        None => 6,
    }
}
