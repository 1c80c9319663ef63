//! Lists of pieces and of routes: they are made in the handle, and read by index or copied.
ghost use Rattle.std.specs.Prelude.{◌≡◌, ◌+◌, ◌*◌, ◌^◌, slice_get, take};
ghost use Rattle.ipnet_addr.specs.Addresses.{Ipv4, Ipv6};
ghost use Rattle.ipnet_blocks.specs.Networks.{block_of};
ghost use Rattle.route_laws.specs.Networks.{routes_of};
ghost use Rattle.route_laws.specs.Onwards.{routes_after, routes_from};
ghost use Rattle.route_laws.specs.Tables.{covering, hop_at, routes_inside};
ghost use Rattle.routes_c.specs.Handles.{Copies, ReadsOne, GoesOn, IsHandle, session_of};
ghost use Rattle.routes_c.specs.Lists.{Flattens, ListsAt, ListsOf};
ghost use Rattle.routes_c.specs.RouteLists.{AreAsked, AreGoverned, AreLeast, all_routes, own_routes};

use crate::handle::Handle;
use crate::last_lists::{copy_from, tell_at};
use crate::list_query::ListQuery;
use crate::session::Session;
use crate::shown::{Piece, Route, net4, net6};
use std::alloc::Global;

/// Makes the flat list: the shortest ascending list of one-hop blocks that covers all addresses with a hop. `routes_piece_at` and
/// `routes_read_pieces` read it.
///
/// Returns 0. Fails with 2 if an allocation fails, and 3 if the handle is closed. Then the list is unchanged.
#[unsafe(no_mangle)]
pub extern "C" fn routes_flat(alloc: Global, handle: &mut Handle) -> u32
    requires { IsHandle handle.old }
    ensures { GoesOn session_of handle.old handle.new (result ≡ 3) (λ s t. Flattens s t result) }
{
    handle.on(3, |session: &mut Session| session.flat(alloc))
}

/// Reads the piece at an index of the list that was made last.
///
/// Returns 0 and sets `piece`. Fails with 1 past the end of the list, and 3 if the handle is closed. Then `piece` is unchanged.
#[unsafe(no_mangle)]
pub extern "C" fn routes_piece_at(handle: &mut Handle, index: usize, piece: &mut Piece) -> u32
    requires { IsHandle handle.old }
    ensures { ReadsOne session_of handle.old handle.new (λ s. slice_get s.lists.pieces.items index) result piece.old piece.new }
{
    handle.on_with(piece, 3, |session: &mut Session, piece| {
        tell_at(&session.lists.pieces, index, piece)
    })
}

/// Copies the pieces of the list that was made last, from an index on, as far as there is room. Returns the number of pieces copied.
/// A closed handle has an empty list.
#[unsafe(no_mangle)]
pub extern "C" fn routes_read_pieces(handle: &mut Handle, from: usize, out: &mut [Piece]) -> usize
    requires { IsHandle handle.old }
    ensures { Copies session_of handle.old handle.new (λ s. s.lists.pieces.items) from result out.old out.new }
{
    handle.on_slice(out, 0, |session: &mut Session, out| {
        copy_from(session.lists.pieces.as_slice(), from, out)
    })
}

/// Makes the list that is asked for.
fn list(alloc: Global, handle: &mut Handle, asked: ListQuery) -> u32
    requires { IsHandle handle.old }
    ensures { ListsOf handle.old handle.new (AreAsked asked) result }
{
    handle.on(3, |session: &mut Session| session.list(alloc, asked))
}

/// Lists the best routes of the stored networks inside this one, itself included, ascending. `routes_route_at` and `routes_read` read the
/// list. Bits of the address past the length are ignored.
///
/// Returns 0. Fails with 2 if an allocation fails, 3 if the handle is closed, and 6 if the length is above 32. Then the list is
/// unchanged.
#[unsafe(no_mangle)]
pub extern "C" fn routes_list4(alloc: Global, handle: &mut Handle, addr: u32, len: u8) -> u32
    requires { IsHandle handle.old }
    ensures { ListsAt 32 len handle.old handle.new (λ T rs. rs ≡ routes_inside (routes_of T) (block_of Ipv4 (record { number = addr; len = len }))) result }
{
    match net4(addr, len) {
        Some(net) => list(alloc, handle, ListQuery::Inside(net)),
        None => 6,
    }
}

/// Lists routes of IPv6, as `routes_list4` does for IPv4.
///
/// Returns 0. Fails with 2 if an allocation fails, 3 if the handle is closed, and 6 if the length is above 128. Then the list is
/// unchanged.
#[unsafe(no_mangle)]
pub extern "C" fn routes_list6(
    alloc: Global,
    handle: &mut Handle,
    high: u64,
    low: u64,
    len: u8,
) -> u32
    requires { IsHandle handle.old }
    ensures { ListsAt 128 len handle.old handle.new (λ T rs. rs ≡ routes_inside (routes_of T) (block_of Ipv6 (record { number = high * 2 ^ 64 + low; len = len }))) result }
{
    match net6(high, low, len) {
        Some(net) => list(alloc, handle, ListQuery::Inside(net)),
        None => 6,
    }
}

/// Lists the best routes of the stored networks that contain this one, itself included, shortest first.
///
/// Returns 0. Fails with 2 if an allocation fails, 3 if the handle is closed, and 6 if the length is above 32. Then the list is
/// unchanged.
#[unsafe(no_mangle)]
pub extern "C" fn routes_cover4(alloc: Global, handle: &mut Handle, addr: u32, len: u8) -> u32
    requires { IsHandle handle.old }
    ensures { ListsAt 32 len handle.old handle.new (λ T rs. rs ≡ covering (routes_of T) (block_of Ipv4 (record { number = addr; len = len }))) result }
{
    match net4(addr, len) {
        Some(net) => list(alloc, handle, ListQuery::Cover(net)),
        None => 6,
    }
}

/// Lists routes of IPv6, as `routes_cover4` does for IPv4.
///
/// Returns 0. Fails with 2 if an allocation fails, 3 if the handle is closed, and 6 if the length is above 128. Then the list is
/// unchanged.
#[unsafe(no_mangle)]
pub extern "C" fn routes_cover6(
    alloc: Global,
    handle: &mut Handle,
    high: u64,
    low: u64,
    len: u8,
) -> u32
    requires { IsHandle handle.old }
    ensures { ListsAt 128 len handle.old handle.new (λ T rs. rs ≡ covering (routes_of T) (block_of Ipv6 (record { number = high * 2 ^ 64 + low; len = len }))) result }
{
    match net6(high, low, len) {
        Some(net) => list(alloc, handle, ListQuery::Cover(net)),
        None => 6,
    }
}

/// Lists a page: at most `limit` best routes of the family's stored networks from this one on, ascending.
///
/// Returns 0. Fails with 2 if an allocation fails, 3 if the handle is closed, and 6 if the length is above 32. Then the list is
/// unchanged.
#[unsafe(no_mangle)]
pub extern "C" fn routes_from4(
    alloc: Global,
    handle: &mut Handle,
    addr: u32,
    len: u8,
    limit: usize,
) -> u32
    requires { IsHandle handle.old }
    ensures { ListsAt 32 len handle.old handle.new (λ T rs. rs ≡ take limit (routes_from (routes_of T) (block_of Ipv4 (record { number = addr; len = len })))) result }
{
    match net4(addr, len) {
        Some(net) => list(alloc, handle, ListQuery::From(net, limit)),
        None => 6,
    }
}

/// Lists routes of IPv6, as `routes_from4` does for IPv4.
///
/// Returns 0. Fails with 2 if an allocation fails, 3 if the handle is closed, and 6 if the length is above 128. Then the list is
/// unchanged.
#[unsafe(no_mangle)]
pub extern "C" fn routes_from6(
    alloc: Global,
    handle: &mut Handle,
    high: u64,
    low: u64,
    len: u8,
    limit: usize,
) -> u32
    requires { IsHandle handle.old }
    ensures { ListsAt 128 len handle.old handle.new (λ T rs. rs ≡ take limit (routes_from (routes_of T) (block_of Ipv6 (record { number = high * 2 ^ 64 + low; len = len })))) result }
{
    match net6(high, low, len) {
        Some(net) => list(alloc, handle, ListQuery::From(net, limit)),
        None => 6,
    }
}

/// Lists a page: at most `limit` best routes of the family's stored networks after this one, ascending.
///
/// Returns 0. Fails with 2 if an allocation fails, 3 if the handle is closed, and 6 if the length is above 32. Then the list is
/// unchanged.
#[unsafe(no_mangle)]
pub extern "C" fn routes_after4(
    alloc: Global,
    handle: &mut Handle,
    addr: u32,
    len: u8,
    limit: usize,
) -> u32
    requires { IsHandle handle.old }
    ensures { ListsAt 32 len handle.old handle.new (λ T rs. rs ≡ take limit (routes_after (routes_of T) (block_of Ipv4 (record { number = addr; len = len })))) result }
{
    match net4(addr, len) {
        Some(net) => list(alloc, handle, ListQuery::After(net, limit)),
        None => 6,
    }
}

/// Lists routes of IPv6, as `routes_after4` does for IPv4.
///
/// Returns 0. Fails with 2 if an allocation fails, 3 if the handle is closed, and 6 if the length is above 128. Then the list is
/// unchanged.
#[unsafe(no_mangle)]
pub extern "C" fn routes_after6(
    alloc: Global,
    handle: &mut Handle,
    high: u64,
    low: u64,
    len: u8,
    limit: usize,
) -> u32
    requires { IsHandle handle.old }
    ensures { ListsAt 128 len handle.old handle.new (λ T rs. rs ≡ take limit (routes_after (routes_of T) (block_of Ipv6 (record { number = high * 2 ^ 64 + low; len = len })))) result }
{
    match net6(high, low, len) {
        Some(net) => list(alloc, handle, ListQuery::After(net, limit)),
        None => 6,
    }
}

/// Lists all routes of exactly this network, best first.
///
/// Returns 0. Fails with 2 if an allocation fails, 3 if the handle is closed, and 6 if the length is above 32. Then the list is
/// unchanged.
#[unsafe(no_mangle)]
pub extern "C" fn routes_all4(alloc: Global, handle: &mut Handle, addr: u32, len: u8) -> u32
    requires { IsHandle handle.old }
    ensures { ListsAt 32 len handle.old handle.new (λ T rs. rs ≡ all_routes T (block_of Ipv4 (record { number = addr; len = len }))) result }
{
    match net4(addr, len) {
        Some(net) => list(alloc, handle, ListQuery::All(net)),
        None => 6,
    }
}

/// Lists routes of IPv6, as `routes_all4` does for IPv4.
///
/// Returns 0. Fails with 2 if an allocation fails, 3 if the handle is closed, and 6 if the length is above 128. Then the list is
/// unchanged.
#[unsafe(no_mangle)]
pub extern "C" fn routes_all6(
    alloc: Global,
    handle: &mut Handle,
    high: u64,
    low: u64,
    len: u8,
) -> u32
    requires { IsHandle handle.old }
    ensures { ListsAt 128 len handle.old handle.new (λ T rs. rs ≡ all_routes T (block_of Ipv6 (record { number = high * 2 ^ 64 + low; len = len }))) result }
{
    match net6(high, low, len) {
        Some(net) => list(alloc, handle, ListQuery::All(net)),
        None => 6,
    }
}

/// Lists the maximal blocks of the addresses that the network governs: those that no longer stored network inside it contains. The blocks
/// ascend, each with the hop of the network's longest match, or `drop` if it has no match. If a change of the network returned two
/// different hops, these are the addresses whose hop changed.
///
/// Returns 0. Fails with 2 if an allocation fails, 3 if the handle is closed, and 6 if the length is above 32. Then the list is
/// unchanged.
#[unsafe(no_mangle)]
pub extern "C" fn routes_governed4(alloc: Global, handle: &mut Handle, addr: u32, len: u8) -> u32
    requires { IsHandle handle.old }
    ensures { ListsAt 32 len handle.old handle.new (λ T. AreGoverned (routes_of T) (block_of Ipv4 (record { number = addr; len = len }))) result }
{
    match net4(addr, len) {
        Some(net) => list(alloc, handle, ListQuery::Governed(net)),
        None => 6,
    }
}

/// Lists routes of IPv6, as `routes_governed4` does for IPv4.
///
/// Returns 0. Fails with 2 if an allocation fails, 3 if the handle is closed, and 6 if the length is above 128. Then the list is
/// unchanged.
#[unsafe(no_mangle)]
pub extern "C" fn routes_governed6(
    alloc: Global,
    handle: &mut Handle,
    high: u64,
    low: u64,
    len: u8,
) -> u32
    requires { IsHandle handle.old }
    ensures { ListsAt 128 len handle.old handle.new (λ T. AreGoverned (routes_of T) (block_of Ipv6 (record { number = high * 2 ^ 64 + low; len = len }))) result }
{
    match net6(high, low, len) {
        Some(net) => list(alloc, handle, ListQuery::Governed(net)),
        None => 6,
    }
}

/// Lists the blocks of `routes_flat` with this hop number, ascending.
///
/// Returns 0. Fails with 2 if an allocation fails, and 3 if the handle is closed. Then the list is unchanged.
#[unsafe(no_mangle)]
pub extern "C" fn routes_own(alloc: Global, handle: &mut Handle, number: u32) -> u32
    requires { IsHandle handle.old }
    ensures { ListsOf handle.old handle.new (λ T rs. rs ≡ own_routes (routes_of T) number) result }
{
    list(alloc, handle, ListQuery::Own(number))
}

/// Lists the routes of a least table: each address has the same hop, and no such table has fewer routes. The routes ascend and have
/// preference 100. If there are several such tables, it is any of them.
///
/// Returns 0. Fails with 2 if an allocation fails, and 3 if the handle is closed. Then the list is unchanged.
#[unsafe(no_mangle)]
pub extern "C" fn routes_least(alloc: Global, handle: &mut Handle) -> u32
    requires { IsHandle handle.old }
    ensures { ListsOf handle.old handle.new (λ T. AreLeast (hop_at (routes_of T))) result }
{
    list(alloc, handle, ListQuery::Least)
}

/// Reads the route at an index of the list of routes that was made last.
///
/// Returns 0 and sets `route`. Fails with 1 past the end of the list, and 3 if the handle is closed. Then `route` is unchanged.
#[unsafe(no_mangle)]
pub extern "C" fn routes_route_at(handle: &mut Handle, index: usize, route: &mut Route) -> u32
    requires { IsHandle handle.old }
    ensures { ReadsOne session_of handle.old handle.new (λ s. slice_get s.lists.routes.items index) result route.old route.new }
{
    handle.on_with(route, 3, |session: &mut Session, route| {
        tell_at(&session.lists.routes, index, route)
    })
}

/// Copies the list of routes that was made last, from an index on, as far as there is room. Returns the number of routes copied. A closed
/// handle has an empty list.
#[unsafe(no_mangle)]
pub extern "C" fn routes_read(handle: &mut Handle, from: usize, out: &mut [Route]) -> usize
    requires { IsHandle handle.old }
    ensures { Copies session_of handle.old handle.new (λ s. s.lists.routes.items) from result out.old out.new }
{
    handle.on_slice(out, 0, |session: &mut Session, out| {
        copy_from(session.lists.routes.as_slice(), from, out)
    })
}
