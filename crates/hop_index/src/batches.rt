//! Lookups of many addresses, in steps, so that reads of memory for several addresses overlap.
ghost use Rattle.std.specs.Prelude.{◌≡◌, ℕ, ◌<◌, ◌≤◌, Option, length, map, slice_index, slice_index_or};
ghost use Rattle.ipnet_addr.specs.Addresses.{Address, Ipv4, address_of};
ghost use Rattle.hop_index.specs.Indexes.{hop_number, hop_of};
ghost use Rattle.hop_index.specs.InnerNodes.{AllLead, AreFound, ArePlaces, HasOwnHop, IsUnlisted, cell_of_address, hop_in_entry, index_of};

use crate::index::Sides;
use crate::nodes::{LEVELS, MARK, has_hop, hop_in_entry};
use ipnet::IpAddr;
use ipnet_addr::bits::ipv4_of;

/// The number of addresses that go through the steps together.
const GROUP: usize = 64;

/// A type of addresses that `hops_of` takes: `IpAddr`, or `u32` for IPv4.
pub trait Addressed: Copy {
    /// The address.
    ghost address: { Self → Address };

    /// Returns the address.
    fn addr(self) -> IpAddr
        ensures { address_of result ≡ address self };
}

impl Addressed for IpAddr {
    ghost address = { address_of };

    #[inline(always)]
    fn addr(self) -> IpAddr {
        self
    }
}

/// The number of an IPv4 address.
impl Addressed for u32 {
    ghost address = { λ number. record { family = Ipv4; number = number } };

    #[inline(always)]
    fn addr(self) -> IpAddr {
        IpAddr::V4(ipv4_of(self))
    }
}

/// A type in which `hops_of` stores a hop, or none.
pub trait FromHop: Copy {
    /// The form of a hop, or of none.
    ghost of_hop: { Option ℕ → Self };

    /// Returns the form of a hop, or of none.
    fn from_hop(hop: Option<u32>) -> Self
        ensures { result ≡ of_hop hop };
}

impl FromHop for Option<u32> {
    ghost of_hop = { λ hop. hop };

    #[inline(always)]
    fn from_hop(hop: Option<u32>) -> Option<u32> {
        hop
    }
}

/// The number of the hop, or 2^32 for none.
impl FromHop for u64 {
    ghost of_hop = { hop_number };

    #[inline(always)]
    fn from_hop(hop: Option<u32>) -> u64 {
        match hop {
            Some(hop) => u64::from(hop),
            None => 1 << 32,
        }
    }
}

/// The first step: the cell of each address.
fn locate<A: Addressed>(sides: &Sides, addrs: &[A], cells: &mut [u32])
    requires { length cells.old ≡ length addrs.now }
    ensures { (k : ℕ) (a : A) (c : ℕ) → k < length addrs.now → slice_index_or cells.new k c ≡ cell_of_address sides.now.v4 sides.now.v6 (A.address (slice_index_or addrs.now k a)) }
{
    for place in 0..addrs.len() {
        cells[place] = sides.cell(addrs[place].addr());
    }
}

/// The second step: the entry of each cell, and the hop of an IPv4 address if the entry has it. The others get any hop.
fn enter<A: Addressed, H: FromHop>(
    sides: &Sides,
    addrs: &[A],
    cells: &[u32],
    entries: &mut [u32],
    hops: &mut [H],
)
    requires all { length cells.now ≡ length addrs.now }
    requires cells { (k : ℕ) (a : A) (c : ℕ) → k < length addrs.now → slice_index_or cells.now k c ≡ cell_of_address sides.now.v4 sides.now.v6 (A.address (slice_index_or addrs.now k a)) }
    requires entries { length entries.old ≡ length addrs.now }
    requires hops { length hops.old ≡ length addrs.now }
    ensures entries { AllLead sides.now.v4 sides.now.v6 A.address addrs.now entries.new }
    ensures hops { (k e : ℕ) (a : A) (h : H) → k < length addrs.now → (A.address (slice_index_or addrs.now k a)).family ≡ Ipv4 → slice_index_or hops.new k h ≡ H.of_hop (hop_in_entry (slice_index_or entries.new k e)) }
{
    for place in 0..addrs.len() {
        let addr = addrs[place].addr();
        let entry = sides.entry(cells[place], addr);
        entries[place] = entry;
        if let IpAddr::V4(_) = addr {
            hops[place] = H::from_hop(hop_in_entry(entry));
        }
    }
}

/// 0 for an IPv4 address whose entry has its hop, else 1.
#[inline(always)]
fn other(entry: u32, addr: IpAddr) -> usize
    ensures most { result ≤ 1 }
    ensures hop { result ≡ 0 → HasOwnHop (address_of addr) entry }
{
    match addr {
        IpAddr::V4(_) => usize::from(!has_hop(entry)),
        IpAddr::V6(_) => 1,
    }
}

/// Stores the places of the other addresses first, and returns their number. For IPv6 these are all. No branch depends on an entry, since a
/// processor can't predict it. This is a loop of its own, since some processors read nothing more before they know the place of an
/// earlier store.
fn list_others<A: Addressed>(addrs: &[A], entries: &[u32], places: &mut [u32]) -> usize
    requires few { length addrs.now ≤ 64 }
    requires entries { length entries.now ≡ length addrs.now }
    requires places { length places.old ≡ length addrs.now }
    ensures places { ArePlaces (length addrs.now) result places.new }
    ensures others { (k : ℕ) (a : A) → k < length addrs.now → IsUnlisted k 0 result places.new → HasOwnHop (A.address (slice_index_or addrs.now k a)) (slice_index entries.now k) }
{
    let mut count = 0;
    for place in 0..addrs.len() {
        places[count] = place as u32;
        count += other(entries[place], addrs[place].addr());
    }
    count
}

/// Keeps, in front, those of the first `count` places whose entries are nodes. Returns their number. No branch depends on an entry.
fn keep_nodes(entries: &[u32], nodes: &mut [u32], count: usize) -> usize
    requires { ArePlaces (length entries.now) count nodes.old }
    ensures { ArePlaces (length entries.now) result nodes.new }
{
    let mut kept = 0;
    for at in 0..count {
        let place = nodes[at];
        nodes[kept] = place;
        kept += usize::from(entries[place as usize] >= MARK);
    }
    kept
}

/// The next entry of the addresses at these places.
fn follow<A: Addressed>(sides: &Sides, addrs: &[A], entries: &mut [u32], places: &[u32])
    requires entries { AllLead sides.now.v4 sides.now.v6 A.address addrs.now entries.old }
    requires places { ArePlaces (length addrs.now) (length places.now) places.now }
    ensures { AllLead sides.now.v4 sides.now.v6 A.address addrs.now entries.new }
{
    for at in 0..places.len() {
        let place = places[at] as usize;
        entries[place] = sides.inner_entry(entries[place], addrs[place].addr());
    }
}

/// The third step, level by level: the entry that nodes lead each of the other addresses to. An entry that is no node stays so. `nodes` has
/// room for the places.
fn lead<A: Addressed>(
    sides: &Sides,
    addrs: &[A],
    places: &[u32],
    nodes: &mut [u32],
    entries: &mut [u32],
)
    requires places { ArePlaces (length addrs.now) (length places.now) places.now }
    requires room { length places.now ≤ length nodes.old }
    requires entries { AllLead sides.now.v4 sides.now.v6 A.address addrs.now entries.old }
    ensures { AllLead sides.now.v4 sides.now.v6 A.address addrs.now entries.new }
{
    let nodes = &mut nodes[..places.len()];
    nodes.copy_from_slice(places);
    let mut count = places.len();
    for _ in 0..LEVELS {
        count = keep_nodes(entries, nodes, count);
        if count == 0 {
            break;
        }
        follow(sides, addrs, entries, &nodes[..count]);
    }
}

/// The fourth step: the hops of the addresses at these places, from their entries.
fn find<A: Addressed, H: FromHop>(
    sides: &Sides,
    addrs: &[A],
    entries: &[u32],
    places: &[u32],
    hops: &mut [H],
)
    requires entries { AllLead sides.now.v4 sides.now.v6 A.address addrs.now entries.now }
    requires places { ArePlaces (length addrs.now) (length places.now) places.now }
    requires others { AreFound (λ addr. H.of_hop (hop_of (index_of sides.now.v4 sides.now.v6) (A.address addr))) addrs.now places.now 0 hops.old }
    ensures { AreFound (λ addr. H.of_hop (hop_of (index_of sides.now.v4 sides.now.v6) (A.address addr))) addrs.now places.now (length places.now) hops.new }
{
    for at in 0..places.len() {
        let place = places[at] as usize;
        hops[place] = H::from_hop(sides.hop(entries[place], addrs[place].addr()));
    }
}

/// Stores the hops of at most 64 addresses.
fn store<A: Addressed, H: FromHop>(sides: &Sides, addrs: &[A], hops: &mut [H])
    requires few { length addrs.now ≤ 64 }
    requires hops { length hops.old ≡ length addrs.now }
    ensures { hops.new ≡ map (λ addr. H.of_hop (hop_of (index_of sides.now.v4 sides.now.v6) (A.address addr))) addrs.now }
{
    let mut places = [0; GROUP];
    let mut nodes = [0; GROUP];
    let mut entries = [0; GROUP];
    let places = &mut places[..addrs.len()];
    let nodes = &mut nodes[..addrs.len()];
    let entries = &mut entries[..addrs.len()];
    locate(sides, addrs, places);
    enter(sides, addrs, places, entries, hops);
    let count = list_others(addrs, entries, places);
    let others = &places[..count];
    lead(sides, addrs, others, nodes, entries);
    find(sides, addrs, entries, others, hops);
}

/// Stores the hops of all addresses, group by group.
pub(crate) fn store_all<A: Addressed, H: FromHop>(sides: &Sides, addrs: &[A], hops: &mut [H])
    requires { length hops.old ≡ length addrs.now }
    ensures { hops.new ≡ map (λ addr. H.of_hop (hop_of (index_of sides.now.v4 sides.now.v6) (A.address addr))) addrs.now }
{
    let mut place = 0;
    while place < addrs.len() {
        let end = place + (addrs.len() - place).min(GROUP);
        store(sides, &addrs[place..end], &mut hops[place..end]);
        place = end;
    }
}
