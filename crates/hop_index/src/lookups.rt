//! Lookups in the ranges of a family.
ghost use Rattle.std.specs.Prelude.{◌≡◌, ℕ, ◌^◌, ◌<◌, IfOk};
ghost use Rattle.hop_index.specs.Ranges.{hop_in};
ghost use Rattle.hop_index.specs.InnerNodes.{Leads};
ghost use Rattle.hop_index.specs.InnerRanges.{AreAscending, EndBelow, cell_of, head_of};

use crate::cells::{cell_at, tops_of};
use crate::nodes::{HOPS, LEVELS, MARK, Node, Nodes, has_hop, hop_in_entry};
use crate::ranges::Ranges;
use crate::stored::Stored;
use std::alloc::{AllocError, Global};
use std::marker::Model;

/// The hops of the addresses of a family: ranges, and cells and nodes that leave few of them for an address.
///
/// Contracts see the ranges, and the nodes.
#[derive(Drop)]
pub(crate) struct Lookups<N: Stored> {
    tops: Vec<u32>,
    cells: Vec<u32>,
    nodes: Nodes<N>,
}

impl<N: Stored> Model for Lookups<N> {
    ghost use Rattle.std.specs.Prelude.{◌^◌, length};
    ghost use Rattle.hop_index.specs.InnerNodes.{AreEntries, AreNodes, Divided};
    ghost use Rattle.hop_index.specs.InnerRanges.{ArePadded, AreTops, cell_of, head_of};

    ghost Value = { Divided };

    ghost view = { λ a. record { tops = a.tops.items; ranges = a.nodes.ranges; nodes = a.nodes.nodes.items } };

    ghost invariant = { λ a. AreTops a.tops.items × ArePadded a.nodes.ranges (2 ^ N.width) × AreNodes a.nodes.ranges (2 ^ N.width) a.nodes.nodes.items a.nodes.cells.items × AreEntries (λ x. cell_of a.tops.items (head_of N.width x)) (2 ^ N.width) a.nodes.nodes.items a.nodes.ranges 0 (length a.nodes.ranges) a.cells.items };
}

impl<N: Stored> Lookups<N> {
    /// The lookups of the ranges.
    pub(crate) fn new(alloc: Global, mut ranges: Ranges<N>) -> Result<Lookups<N>, AllocError>
        requires ascending { AreAscending ranges }
        requires within { EndBelow (2 ^ N.width) ranges }
        ensures { IfOk result (λ l. (x : ℕ) → hop_in l.ranges x ≡ hop_in ranges x) }
    {
        ranges.pad()?;
        let end = ranges.len();
        if end >= HOPS as usize {
            return Err(AllocError);
        }
        let tops = tops_of(alloc, &ranges)?;
        let all = Node::over(&ranges, 0, end as u32, 0);
        let mut nodes = Nodes {
            ranges,
            nodes: Vec::new(alloc),
            cells: Vec::new(alloc),
        };
        let cells = nodes.entries(alloc, &all, Some(&tops), LEVELS)?;
        Ok(Lookups { tops, cells, nodes })
    }

    /// The number's cell.
    #[inline]
    pub(crate) fn cell(&self, number: N) -> u32
        ensures cell { result ≡ cell_of self.now.tops (head_of N.width (N.number number)) }
        ensures number { N.number number < 2 ^ N.width }
    {
        cell_at(&self.tops, number.head())
    }

    /// The entry of the number's cell.
    #[inline]
    pub(crate) fn entry(&self, cell: u32, number: N) -> u32
        requires cell { cell ≡ cell_of self.now.tops (head_of N.width (N.number number)) }
        requires number { N.number number < 2 ^ N.width }
        ensures { Leads self.now.nodes self.now.ranges (N.number number) result }
    {
        self.cells[cell as usize]
    }

    /// The entry of the number's cell of a node; if the entry is no node, the entry itself.
    #[inline]
    pub(crate) fn inner_entry(&self, entry: u32, number: N) -> u32
        requires number { N.number number < 2 ^ N.width }
        requires entry { Leads self.now.nodes self.now.ranges (N.number number) entry }
        ensures { Leads self.now.nodes self.now.ranges (N.number number) result }
    {
        if entry < MARK {
            return entry;
        }
        let node = &self.nodes.nodes[(entry - MARK) as usize];
        self.nodes.cells[node.place(number)]
    }

    /// The hop of the number, from its entry.
    #[inline(always)]
    pub(crate) fn hop(&self, entry: u32, number: N) -> Option<u32>
        requires number { N.number number < 2 ^ N.width }
        requires entry { Leads self.now.nodes self.now.ranges (N.number number) entry }
        ensures { result ≡ hop_in self.now.ranges (N.number number) }
    {
        if has_hop(entry) {
            return hop_in_entry(entry);
        }
        self.nodes.ranges.hop(self.nodes.ended(entry, number))
    }

    /// The hop of the number.
    #[inline(always)]
    pub(crate) fn find(&self, number: N) -> Option<u32>
        ensures hop { result ≡ hop_in self.now.ranges (N.number number) }
        ensures number { N.number number < 2 ^ N.width }
    {
        let mut entry = self.entry(self.cell(number), number);
        for _ in 0..LEVELS {
            entry = self.inner_entry(entry, number);
        }
        self.hop(entry, number)
    }
}
