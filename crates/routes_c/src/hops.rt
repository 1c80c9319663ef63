//! Hops of addresses as numbers, for a table and for an index: one, or many in one call.
ghost use Rattle.std.specs.Prelude.{◌≡◌, ℕ, ◌+◌, ◌*◌, ◌^◌, Some, length, map};
ghost use Rattle.hop_index.specs.Indexes.{hop_number, hop_of};
ghost use Rattle.ipnet_addr.specs.Addresses.{Ipv6};
ghost use Rattle.routes_c.specs.Contents.{hops_of_index};
ghost use Rattle.routes_c.specs.Handles.{ReadsOne, IsHandle, index_session_of, session_of};
ghost use Rattle.routes_c.specs.Many.{LooksUpMany, Fills, hop4_at, hop6_at, index_hop4, index_hop6};

use crate::handle::Handle;
use crate::index_session::IndexSession;
use crate::session::Session;
use crate::shown::{Addr6, ip6, net4, net6, shown_match};
use hop_index::{Addressed, FromHop, HopIndex};
use ipnet::IpAddr;
use route_table::RouteTable;

/// A table, which returns the hop of an address as one number.
pub(crate) trait HopLookup<A> {
    ghost number: { Self → A → ℕ };

    /// Returns the hop of this address as one number.
    fn hop_number(&self, addr: A) -> u64
        ensures { result ≡ number self.now addr };
}

impl HopLookup<u32> for RouteTable {
    ghost number = { hop4_at };

    fn hop_number(&self, addr: u32) -> u64 {
        match net4(addr, 32) {
            Some(net) => shown_match(self.get(&net)),
            None => shown_match(None),
        }
    }
}

impl HopLookup<Addr6> for RouteTable {
    ghost number = { hop6_at };

    fn hop_number(&self, addr: Addr6) -> u64 {
        match net6(addr.high, addr.low, 128) {
            Some(net) => shown_match(self.get(&net)),
            None => shown_match(None),
        }
    }
}

/// Looks up the hops of the addresses; both slices have the same length.
fn fill_all<A: Copy, T: HopLookup<A>>(table: &T, addrs: &[A], hops: &mut [u64])
    requires { length hops.old ≡ length addrs.now }
    ensures { hops.new ≡ map (T.number table.now) addrs.now }
{
    for place in 0..addrs.len() {
        hops[place] = table.hop_number(addrs[place]);
    }
}

/// Looks up the hops of as many addresses as there is room for.
fn fill<A: Copy, T: HopLookup<A>>(table: &T, addrs: &[A], hops: &mut [u64]) -> u32
    ensures answers { result ≡ 0 }
    ensures hops { Fills (T.number table.now) addrs.now hops.old hops.new }
{
    let count = addrs.len().min(hops.len());
    fill_all(table, &addrs[..count], &mut hops[..count]);
    0
}

impl Addressed for Addr6 {
    ghost address = { λ a. record { family = Ipv6; number = a.high * 2 ^ 64 + a.low } };

    #[inline]
    fn addr(self) -> IpAddr {
        ip6(self.high, self.low)
    }
}

/// Looks up the hop of one address in an index.
fn tell_hop<A: Addressed>(index: &HopIndex, addr: A, hop: &mut u64) -> u32
    ensures answers { result ≡ 0 }
    ensures hop { hop.new ≡ hop_number (hop_of index.now (A.address addr)) }
{
    *hop = u64::from_hop(index.hop(addr.addr()));
    0
}

/// Looks up in an index the hops of as many addresses as there is room for.
fn fill_from_index<A: Addressed>(index: &HopIndex, addrs: &[A], hops: &mut [u64]) -> u32
    ensures answers { result ≡ 0 }
    ensures hops { Fills (λ a. hop_number (hop_of index.now (A.address a))) addrs.now hops.old hops.new }
{
    let count = addrs.len().min(hops.len());
    index.hops_of(&addrs[..count], &mut hops[..count]);
    0
}

/// Looks up the longest matches of many IPv4 addresses, and stores their hops in `hops`: 2^32 for `drop`, and 2^33 for no match. It stops
/// at the end of the shorter slice, and leaves the rest of `hops` unchanged. Does not allocate.
///
/// Returns 0. Fails with 3 if the handle is closed; then `hops` is unchanged.
#[unsafe(no_mangle)]
pub extern "C" fn routes_get4_many(handle: &mut Handle, addrs: &[u32], hops: &mut [u64]) -> u32
    requires { IsHandle handle.old }
    ensures { LooksUpMany session_of handle.old handle.new (λ s. hop4_at s.table) addrs.now result hops.old hops.new }
{
    handle.on_slice(hops, 3, |session: &mut Session, hops| {
        fill(&session.table, addrs, hops)
    })
}

/// Looks up the longest matches of many IPv6 addresses, as `routes_get4_many` does. Does not allocate.
///
/// Returns 0. Fails with 3 if the handle is closed; then `hops` is unchanged.
#[unsafe(no_mangle)]
pub extern "C" fn routes_get6_many(handle: &mut Handle, addrs: &[Addr6], hops: &mut [u64]) -> u32
    requires { IsHandle handle.old }
    ensures { LooksUpMany session_of handle.old handle.new (λ s. hop6_at s.table) addrs.now result hops.old hops.new }
{
    handle.on_slice(hops, 3, |session: &mut Session, hops| {
        fill(&session.table, addrs, hops)
    })
}

/// Looks up the hop of an IPv4 address; 2^32 means that it has none. Does not allocate.
///
/// Returns 0 and sets `hop`. Fails with 3 if the handle is closed; then `hop` is unchanged.
#[unsafe(no_mangle)]
pub extern "C" fn routes_index_hop4(index: &mut Handle, addr: u32, hop: &mut u64) -> u32
    requires { IsHandle index.old }
    ensures { ReadsOne index_session_of index.old index.new (λ s. Some (index_hop4 (hops_of_index s) addr)) result hop.old hop.new }
{
    index.on_with(hop, 3, |session: &mut IndexSession, hop| {
        tell_hop(&*session.index, addr, hop)
    })
}

/// Looks up the hop of an IPv6 address; 2^32 means that it has none. Does not allocate.
///
/// Returns 0 and sets `hop`. Fails with 3 if the handle is closed; then `hop` is unchanged.
#[unsafe(no_mangle)]
pub extern "C" fn routes_index_hop6(index: &mut Handle, high: u64, low: u64, hop: &mut u64) -> u32
    requires { IsHandle index.old }
    ensures { ReadsOne index_session_of index.old index.new (λ s. Some (index_hop6 (hops_of_index s) (record { high = high; low = low }))) result hop.old hop.new }
{
    index.on_with(hop, 3, |session: &mut IndexSession, hop| {
        tell_hop(&*session.index, Addr6 { high, low }, hop)
    })
}

/// Looks up the hops of many IPv4 addresses, as `routes_index_hop4` does, and stores them in `hops`. It stops at the end of the shorter
/// slice, and leaves the rest of `hops` unchanged. Does not allocate.
///
/// Returns 0. Fails with 3 if the handle is closed; then `hops` is unchanged.
#[unsafe(no_mangle)]
pub extern "C" fn routes_index_hop4_many(index: &mut Handle, addrs: &[u32], hops: &mut [u64]) -> u32
    requires { IsHandle index.old }
    ensures { LooksUpMany index_session_of index.old index.new (λ s. index_hop4 (hops_of_index s)) addrs.now result hops.old hops.new }
{
    index.on_slice(hops, 3, |session: &mut IndexSession, hops| {
        fill_from_index(&*session.index, addrs, hops)
    })
}

/// Looks up the hops of many IPv6 addresses, as `routes_index_hop4_many` does for IPv4. Does not allocate.
///
/// Returns 0. Fails with 3 if the handle is closed; then `hops` is unchanged.
#[unsafe(no_mangle)]
pub extern "C" fn routes_index_hop6_many(
    index: &mut Handle,
    addrs: &[Addr6],
    hops: &mut [u64],
) -> u32
    requires { IsHandle index.old }
    ensures { LooksUpMany index_session_of index.old index.new (λ s. index_hop6 (hops_of_index s)) addrs.now result hops.old hops.new }
{
    index.on_slice(hops, 3, |session: &mut IndexSession, hops| {
        fill_from_index(&*session.index, addrs, hops)
    })
}
