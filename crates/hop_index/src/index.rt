//! The index of the hops of the addresses of both families.
ghost use Rattle.std.specs.Prelude.{◌≡◌, ℕ, IfErr, IfOk, Option, length, map};
ghost use Rattle.ipnet_addr.specs.Addresses.{Address, IsAddress, Ipv4, Ipv6, address_of};
ghost use Rattle.route_laws.specs.Flats.{IsFlat};
ghost use Rattle.route_laws.specs.Networks.{routes_of};
ghost use Rattle.route_laws.specs.Tables.{hop_at};
ghost use Rattle.prefix_trie.specs.declared.refused.Refused.TheVariants.{Memory};
ghost use Rattle.hop_index.specs.Indexes.{hop_of};
ghost use Rattle.hop_index.specs.InnerNodes.{LeadsAddress, cell_of_address, index_of};
ghost use Rattle.hop_index.specs.InnerRanges.{AreRangesOf};

use crate::batches::{Addressed, FromHop, store_all};
use crate::lookups::Lookups;
use crate::ranges::Ranges;
use ipnet::IpAddr;
use ipnet_addr::number::AddressInt;
use prefix_trie::Refused;
use route_table::{Flat, HopRun, HopTable, RouteTable};
use std::alloc::{AllocError, Global};
use std::marker::Model;

/// The ranges of the runs of a flat list: those of IPv4, and those of IPv6.
fn ranges(alloc: Global, mut flat: Flat<'_>) -> Result<(Ranges<u32>, Ranges<u128>), AllocError>
    requires { (h : Address → Option ℕ) × IsFlat h flat }
    ensures ipv4 { IfOk result (λ r. AreRangesOf flat.entry Ipv4 r.0) }
    ensures ipv6 { IfOk result (λ r. AreRangesOf flat.entry Ipv6 r.1) }
{
    let mut v4 = Ranges::new(alloc);
    let mut v6 = Ranges::new(alloc);
    'run: while let Some(run) = flat.next_run() {
        match run {
            HopRun::V4(first, last, hop) => v4.add(first as u128, last as u128, hop)?,
            HopRun::V6(first, last, hop) => v6.add(first, last, hop)?,
        }
    }
    Ok((v4, v6))
}

/// The lookups of both families.
#[derive(Drop)]
pub(crate) struct Sides {
    v4: Lookups<u32>,
    v6: Lookups<u128>,
}

impl Sides {
    /// The address's cell.
    #[inline(always)]
    pub(crate) fn cell(&self, addr: IpAddr) -> u32
        ensures { result ≡ cell_of_address self.now.v4 self.now.v6 (address_of addr) }
    {
        match addr {
            IpAddr::V4(addr) => self.v4.cell(u32::of_addr(addr)),
            IpAddr::V6(addr) => self.v6.cell(u128::of_addr(addr)),
        }
    }

    /// The entry of the address's cell.
    #[inline(always)]
    pub(crate) fn entry(&self, cell: u32, addr: IpAddr) -> u32
        requires { cell ≡ cell_of_address self.now.v4 self.now.v6 (address_of addr) }
        ensures { LeadsAddress self.now.v4 self.now.v6 (address_of addr) result }
    {
        match addr {
            IpAddr::V4(addr) => self.v4.entry(cell, u32::of_addr(addr)),
            IpAddr::V6(addr) => self.v6.entry(cell, u128::of_addr(addr)),
        }
    }

    /// The entry of the address's cell of a node; if the entry is no node, the entry itself.
    #[inline(always)]
    pub(crate) fn inner_entry(&self, at: u32, addr: IpAddr) -> u32
        requires { LeadsAddress self.now.v4 self.now.v6 (address_of addr) at }
        ensures { LeadsAddress self.now.v4 self.now.v6 (address_of addr) result }
    {
        match addr {
            IpAddr::V4(addr) => self.v4.inner_entry(at, u32::of_addr(addr)),
            IpAddr::V6(addr) => self.v6.inner_entry(at, u128::of_addr(addr)),
        }
    }

    /// The hop of the address, from its entry.
    #[inline(always)]
    pub(crate) fn hop(&self, entry: u32, addr: IpAddr) -> Option<u32>
        requires { LeadsAddress self.now.v4 self.now.v6 (address_of addr) entry }
        ensures { result ≡ hop_of (index_of self.now.v4 self.now.v6) (address_of addr) }
    {
        match addr {
            IpAddr::V4(addr) => self.v4.hop(entry, u32::of_addr(addr)),
            IpAddr::V6(addr) => self.v6.hop(entry, u128::of_addr(addr)),
        }
    }
}

/// The hop of each address, as a table had it when the index was made. The index is a snapshot: later changes don't reach it.
///
/// Contracts see it by `hop_of`, the hop of each address.
#[derive(Drop)]
pub struct HopIndex {
    sides: Sides,
}

impl Model for HopIndex {
    ghost use Rattle.hop_index.specs.Indexes.{Index};
    ghost use Rattle.hop_index.specs.InnerNodes.{index_of};

    ghost Value = { Index };

    ghost view = { λ i. index_of i.sides.v4 i.sides.v6 };
}

impl HopIndex {
    /// Compiles an index of the hops of a table. `drop` and no route are both `None`.
    ///
    /// # Errors
    /// `Memory` if an allocation fails, or if a family has 2^30 - 4 ranges or more: adjacent addresses with one hop, or with none.
    ///
    /// # Examples
    /// If 10.0.0.0/8 has the hop 1 and 10.0.0.0/9 the hop 2, and `address` parses a text:
    ///
    /// ```rust
    /// let index = HopIndex::from_table(rt.alloc(), &table).expect(&rt, "an index");
    /// assert_eq!(rt; index.hop(address(&rt, "10.1.2.3")), Some(2));
    /// assert_eq!(rt; index.hop(address(&rt, "11.0.0.1")), None);
    /// ```
    pub fn from_table(alloc: Global, table: &RouteTable) -> Result<HopIndex, Refused>
        ensures hops { IfOk result (λ i. (x : Address) → IsAddress x → hop_of i x ≡ hop_at (routes_of table.now) x) }
        ensures memory { IfErr result (λ e. e ≡ Memory) }
    {
        HopIndex::from_flat(alloc, table.flat())
    }

    /// Compiles an index of the hops of a table with one route for each network. `drop` and no route are both `None`.
    ///
    /// # Errors
    /// `Memory` if an allocation fails, or if a family has 2^30 - 4 ranges or more: adjacent addresses with one hop, or with none.
    ///
    /// # Examples
    /// If `best` is a `HopTable`:
    ///
    /// ```rust
    /// let index = HopIndex::from_hop_table(alloc, &best).expect(rt, "an index");
    /// ```
    pub fn from_hop_table(alloc: Global, table: &HopTable) -> Result<HopIndex, Refused>
        ensures hops { IfOk result (λ i. (x : Address) → IsAddress x → hop_of i x ≡ hop_at (routes_of table.now) x) }
        ensures memory { IfErr result (λ e. e ≡ Memory) }
    {
        HopIndex::from_flat(alloc, table.flat())
    }

    /// Compiles an index of the hops of a flat list, such as the result of `RouteTable::flat`. All other addresses have no hop.
    ///
    /// # Errors
    /// `Memory` if an allocation fails, or if a family has 2^30 - 4 ranges or more: adjacent addresses with one hop, or with none.
    ///
    /// # Examples
    /// ```rust
    /// let index = HopIndex::from_flat(rt.alloc(), table.flat()).expect(&rt, "an index");
    /// ```
    pub fn from_flat(alloc: Global, flat: Flat<'_>) -> Result<HopIndex, Refused>
        requires { (h : Address → Option ℕ) × IsFlat h flat }
        ensures hops { IfOk result (λ i. (h : Address → Option ℕ) → IsFlat h flat.entry → (x : Address) → IsAddress x → hop_of i x ≡ h x) }
        ensures memory { IfErr result (λ e. e ≡ Memory) }
    {
        let (v4, v6) = ranges(alloc, flat)?;
        let v4 = Lookups::new(alloc, v4)?;
        let v6 = Lookups::new(alloc, v6)?;
        Ok(HopIndex {
            sides: Sides { v4, v6 },
        })
    }

    /// Returns the hop of an address. Does not allocate.
    ///
    /// # Examples
    /// If 10.0.0.0/9 has the hop 2, 11.0.0.0/8 none, and `address` parses a text:
    ///
    /// ```rust
    /// assert_eq!(rt; index.hop(address(&rt, "10.1.2.3")), Some(2));
    /// assert_eq!(rt; index.hop(address(&rt, "11.0.0.1")), None);
    /// ```
    #[inline(always)]
    pub fn hop(&self, addr: IpAddr) -> Option<u32>
        ensures hop { result ≡ hop_of self.now (address_of addr) }
        ensures address { IsAddress (address_of addr) }
    {
        match addr {
            IpAddr::V4(addr) => self.sides.v4.find(u32::of_addr(addr)),
            IpAddr::V6(addr) => self.sides.v6.find(u128::of_addr(addr)),
        }
    }

    /// Stores the hops of the addresses in `hops`, in the same order; both slices must have the same length. Does not allocate.
    ///
    /// # Examples
    /// If 10.0.0.0/9 has the hop 2, 11.0.0.0/8 none, and `address` parses a text:
    ///
    /// ```rust
    /// let addrs = [address(&rt, "10.1.2.3"), address(&rt, "11.0.0.1")];
    /// let mut hops = [None; 2];
    /// index.hops(&addrs, &mut hops);
    /// assert_eq!(rt; hops, [Some(2), None]);
    /// ```
    pub fn hops(&self, addrs: &[IpAddr], hops: &mut [Option<u32>])
        requires { length hops.old ≡ length addrs.now }
        ensures { hops.new ≡ map (λ addr. hop_of self.now (address_of addr)) addrs.now }
    {
        store_all(&self.sides, addrs, hops);
    }

    /// Stores the hops of addresses, both in forms of their own, such as IPv4 addresses as `u32` and hops as `u64`. Both slices must
    /// have the same length, and results come in the same order. Does not allocate.
    ///
    /// # Examples
    /// If 10.0.0.0/9 has the hop 2, and 11.0.0.0/8 none:
    ///
    /// ```rust
    /// let addrs = [0x0a01_0203_u32, 0x0b00_0001];
    /// let mut hops = [None; 2];
    /// index.hops_of(&addrs, &mut hops);
    /// assert_eq!(rt; hops, [Some(2), None]);
    /// let mut numbers = [0_u64; 2];
    /// index.hops_of(&addrs, &mut numbers);
    /// assert_eq!(rt; numbers, [2, 1 << 32]);
    /// ```
    pub fn hops_of<A: Addressed, H: FromHop>(&self, addrs: &[A], hops: &mut [H])
        requires { length hops.old ≡ length addrs.now }
        ensures { hops.new ≡ map (λ addr. H.of_hop (hop_of self.now (A.address addr))) addrs.now }
    {
        store_all(&self.sides, addrs, hops);
    }
}
