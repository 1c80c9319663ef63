//! A follower: reads a leader's reply lines, and returns the hops that they report.
ghost use Rattle.std.specs.Prelude.{◌≡◌, ◌+◌, ◌*◌, ◌^◌, slice_get};
ghost use Rattle.ipnet_addr.specs.Addresses.{Ipv4, Ipv6, address_of};
ghost use Rattle.routes_c.specs.Followers.{FollowerFlattens, FollowerLists, Follows, TellsHopAt};
ghost use Rattle.routes_c.specs.Handles.{Copies, ReadsOne, GoesOn, IsHandle, follower_of};

use crate::follower_session::FollowerSession;
use crate::handle::Handle;
use crate::last_lists::{copy_from, tell_at};
use crate::shown::{Piece, Route, ip4, ip6};
use ipnet::IpAddr;
use std::alloc::Global;

/// Reads a line of a leader's reply, given without its line end. A change is pending until its reply is closed, and `ok` commits it.
///
/// Returns 0. Fails with 2 if an allocation for a change fails, 3 if the handle is closed, 7 if the text isn't a reply line, and 8 after a
/// fault. Failures with 2 or 7 are faults. After one, lists that were made before can still be read.
#[unsafe(no_mangle)]
pub extern "C" fn routes_follower_line(follower: &mut Handle, line: &[u8]) -> u32
    requires { IsHandle follower.old }
    ensures { GoesOn follower_of follower.old follower.new (result ≡ 3) (λ s t. Follows s t line.now result) }
{
    follower.on(3, |session: &mut FollowerSession| session.line(line))
}

/// Makes the flat list of the hops, which `routes_follower_piece_at` and `routes_follower_read_pieces` read.
///
/// Returns 0. Fails with 2 if an allocation fails, 3 if the handle is closed, and 8 after a fault. Then the list is unchanged.
#[unsafe(no_mangle)]
pub extern "C" fn routes_follower_flat(alloc: Global, follower: &mut Handle) -> u32
    requires { IsHandle follower.old }
    ensures { GoesOn follower_of follower.old follower.new (result ≡ 3) (λ s t. FollowerFlattens s t result) }
{
    follower.on(3, |session: &mut FollowerSession| { session.flat(alloc) })
}

/// Reads the piece at an index of the list that was made last.
///
/// Returns 0 and sets `piece`. Fails with 1 past the end of the list, and 3 if the handle is closed. Then `piece` is unchanged.
#[unsafe(no_mangle)]
pub extern "C" fn routes_follower_piece_at(
    follower: &mut Handle,
    index: usize,
    piece: &mut Piece,
) -> u32
    requires { IsHandle follower.old }
    ensures { ReadsOne follower_of follower.old follower.new (λ s. slice_get s.lists.pieces.items index) result piece.old piece.new }
{
    follower.on_with(piece, 3, |session: &mut FollowerSession, piece| {
        tell_at(&session.lists.pieces, index, piece)
    })
}

/// Copies the pieces of the list that was made last, as `routes_read_pieces` does.
#[unsafe(no_mangle)]
pub extern "C" fn routes_follower_read_pieces(
    follower: &mut Handle,
    from: usize,
    out: &mut [Piece],
) -> usize
    requires { IsHandle follower.old }
    ensures { Copies follower_of follower.old follower.new (λ s. s.lists.pieces.items) from result out.old out.new }
{
    follower.on_slice(out, 0, |session: &mut FollowerSession, out| {
        copy_from(session.lists.pieces.as_slice(), from, out)
    })
}

/// Looks up the hop of an address.
fn get(follower: &mut Handle, addr: IpAddr, hop: &mut u32) -> u32
    requires { IsHandle follower.old }
    ensures { TellsHopAt follower.old follower.new (address_of addr) result hop.old hop.new }
{
    follower.on_with(hop, 3, |session: &mut FollowerSession, hop| {
        session.get(addr, hop)
    })
}

/// Looks up the hop of an IPv4 address. Does not allocate.
///
/// Returns 0 and sets `hop`. Fails with 1 if the address has no hop, 3 if the handle is closed, and 8 after a fault. Then `hop` is
/// unchanged.
#[unsafe(no_mangle)]
pub extern "C" fn routes_follower_get4(follower: &mut Handle, addr: u32, hop: &mut u32) -> u32
    requires { IsHandle follower.old }
    ensures { TellsHopAt follower.old follower.new (record { family = Ipv4; number = addr }) result hop.old hop.new }
{
    get(follower, ip4(addr), hop)
}

/// Looks up the hop of an IPv6 address, as `routes_follower_get4` does. Does not allocate.
///
/// Returns 0 and sets `hop`. Fails with 1 if the address has no hop, 3 if the handle is closed, and 8 after a fault. Then `hop` is
/// unchanged.
#[unsafe(no_mangle)]
pub extern "C" fn routes_follower_get6(
    follower: &mut Handle,
    high: u64,
    low: u64,
    hop: &mut u32,
) -> u32
    requires { IsHandle follower.old }
    ensures { TellsHopAt follower.old follower.new (record { family = Ipv6; number = high * 2 ^ 64 + low }) result hop.old hop.new }
{
    get(follower, ip6(high, low), hop)
}

/// Lists the routes of a smallest table with the same hops, ascending, with preference 100. If there are several, it is any of them.
/// `routes_follower_route_at` and `routes_follower_read` read the list.
///
/// Returns 0. Fails with 2 if an allocation fails, 3 if the handle is closed, and 8 after a fault. Then the list is unchanged.
#[unsafe(no_mangle)]
pub extern "C" fn routes_follower_least(alloc: Global, follower: &mut Handle) -> u32
    requires { IsHandle follower.old }
    ensures { GoesOn follower_of follower.old follower.new (result ≡ 3) (λ s t. FollowerLists s t result) }
{
    follower.on(3, |session: &mut FollowerSession| { session.least(alloc) })
}

/// Reads the route at an index of the list of routes that was made last.
///
/// Returns 0 and sets `route`. Fails with 1 past the end of the list, and 3 if the handle is closed. Then `route` is unchanged.
#[unsafe(no_mangle)]
pub extern "C" fn routes_follower_route_at(
    follower: &mut Handle,
    index: usize,
    route: &mut Route,
) -> u32
    requires { IsHandle follower.old }
    ensures { ReadsOne follower_of follower.old follower.new (λ s. slice_get s.lists.routes.items index) result route.old route.new }
{
    follower.on_with(route, 3, |session: &mut FollowerSession, route| {
        tell_at(&session.lists.routes, index, route)
    })
}

/// Copies the list of routes that was made last, from an index on, as far as there is room. Returns the number of routes copied. A closed
/// handle has an empty list.
#[unsafe(no_mangle)]
pub extern "C" fn routes_follower_read(
    follower: &mut Handle,
    from: usize,
    out: &mut [Route],
) -> usize
    requires { IsHandle follower.old }
    ensures { Copies follower_of follower.old follower.new (λ s. s.lists.routes.items) from result out.old out.new }
{
    follower.on_slice(out, 0, |session: &mut FollowerSession, out| {
        copy_from(session.lists.routes.as_slice(), from, out)
    })
}
