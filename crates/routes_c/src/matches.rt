//! Lookups.
ghost use Rattle.std.specs.Prelude.{◌+◌, ◌*◌, ◌^◌};
ghost use Rattle.ipnet.specs.IpNets.{block};
ghost use Rattle.ipnet_addr.specs.Addresses.{Ipv4, Ipv6};
ghost use Rattle.ipnet_blocks.specs.Networks.{block_of};
ghost use Rattle.routes_c.specs.Handles.{ReadsOne, IsHandle, session_of};
ghost use Rattle.routes_c.specs.Shown.{found_at};

use crate::handle::Handle;
use crate::session::Session;
use crate::shown::{Route, net4, net6};
use ipnet::IpNet;

/// Looks up the longest match of a network.
fn get(handle: &mut Handle, net: &IpNet, route: &mut Route) -> u32
    requires { IsHandle handle.old }
    ensures { ReadsOne session_of handle.old handle.new (λ s. found_at s.table (block net.now)) result route.old route.new }
{
    handle.on_with(route, 3, |session: &mut Session, route| {
        session.get(net, route)
    })
}

/// Looks up the longest match of an IPv4 address.
///
/// Returns 0 and sets `route`. Fails with 1 if no stored network contains the address, and 3 if the handle is closed. Then `route` is
/// unchanged.
#[unsafe(no_mangle)]
pub extern "C" fn routes_get4(handle: &mut Handle, addr: u32, route: &mut Route) -> u32
    requires { IsHandle handle.old }
    ensures { ReadsOne session_of handle.old handle.new (λ s. found_at s.table (block_of Ipv4 (record { number = addr; len = 32 }))) result route.old route.new }
{
    match net4(addr, 32) {
        Some(net) => get(handle, &net, route),
        None => 1,
    }
}

/// Looks up the longest match of an IPv6 address.
///
/// Returns 0 and sets `route`. Fails with 1 if no stored network contains the address, and 3 if the handle is closed. Then `route` is
/// unchanged.
#[unsafe(no_mangle)]
pub extern "C" fn routes_get6(handle: &mut Handle, high: u64, low: u64, route: &mut Route) -> u32
    requires { IsHandle handle.old }
    ensures { ReadsOne session_of handle.old handle.new (λ s. found_at s.table (block_of Ipv6 (record { number = high * 2 ^ 64 + low; len = 128 }))) result route.old route.new }
{
    match net6(high, low, 128) {
        Some(net) => get(handle, &net, route),
        None => 1,
    }
}
