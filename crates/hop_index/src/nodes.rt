//! Nodes: cells in which many ranges end, divided again.
ghost use Rattle.std.specs.Prelude.{◌≡◌, ℕ, ◌+◌, ◌-◌, ◌^◌, ◌<◌, ◌≤◌, ◌↔◌, ◌++◌, [], ◌∷◌, List, Some, IfOk, IfSome, IsTrue, OnOk, length, option_copied};
ghost use Rattle.hop_index.specs.InnerRanges.{AreAscending, ArePadded, AreTops, IsBetween, range_at};
ghost use Rattle.hop_index.specs.InnerNodes.{AreEntries, AreNodes, HasHop, Leads, StoredNode, cell_by, cell_in, hop_in_entry};

use crate::cells::cell_at;
use crate::ranges::Ranges;
use crate::stored::{Stored, highest};
use ipnet_addr::bits::cleared;
use std::alloc::{AllocError, Global};
use std::marker::Model;

/// Entries from here on have a hop.
pub(crate) const HOPS: u32 = 1 << 30;

/// Entries from here on are nodes.
pub(crate) const MARK: u32 = 1 << 31;

/// The most nodes on the way to an entry.
pub(crate) const LEVELS: u32 = 3;

/// Whether the entry has a hop.
#[inline(always)]
pub(crate) fn has_hop(entry: u32) -> bool
    ensures { IsTrue result ↔ HasHop entry }
{
    HOPS <= entry && entry < MARK
}

/// The hop of an entry that has one.
#[inline(always)]
pub(crate) fn hop_in_entry(entry: u32) -> Option<u32>
    ensures { result ≡ hop_in_entry entry }
{
    if entry % HOPS == HOPS - 1 {
        None
    } else {
        Some(entry % HOPS)
    }
}

/// The entry of a hop, or none if its number is too large for an entry.
fn entry_of(hop: Option<u32>) -> Option<u32>
    ensures { IfSome result (λ e. HasHop e × (hop_in_entry e ≡ hop)) }
{
    match hop {
        None => Some(MARK - 1),
        Some(hop) if hop < HOPS - 1 => Some(HOPS + hop),
        Some(_) => None,
    }
}

/// A cell in which more than four ranges end, divided into cells of one length.
#[derive(Drop)]
pub(crate) struct Node<N: Stored> {
    before: u32,
    after: u32,
    first: N,
    shift: u32,
    last: u32,
    place: u32,
}

impl<N: Stored> Model for Node<N> {
    ghost use Rattle.std.specs.Prelude.{◌≡◌, ◌%◌, ◌^◌, ◌<◌};
    ghost use Rattle.hop_index.specs.InnerNodes.{StoredNode};

    ghost Value = { StoredNode };

    ghost view = { λ n. record { before = n.before; after = n.after; first = N.number n.first; shift = n.shift; last = n.last; place = n.place } };

    ghost invariant = { λ n. (n.shift < N.width) × (N.number n.first % 2 ^ n.shift ≡ 0) };
}

/// The length of the cells of a node of `count` ranges whose last numbers are up to `span` apart, as a power of two.
fn shift_of(span: u128, count: u32) -> u32
    requires { 0 < count }
    ensures { result < 128 }
{
    let log = span.max(1).ilog2();
    let shift = log.saturating_sub(count.ilog2());
    if span >> shift < u128::from(count) {
        shift
    } else {
        shift.saturating_add(1).min(log)
    }
}

impl<N: Stored> Node<N> {
    /// A node of the ranges from `before` to `after`, with at most `most` + 1 cells.
    pub(crate) fn over(ranges: &Ranges<N>, before: u32, after: u32, most: u32) -> Node<N>
        requires some { before < after }
        requires within { after ≤ length ranges.now }
        ensures before { result.before ≡ before }
        ensures after { result.after ≡ after }
        ensures last { result.last ≤ most }
    {
        let first = ranges.last(before as usize);
        let last = ranges.last(after as usize - 1);
        let span = last.to_bits().saturating_sub(first.to_bits());
        let shift = shift_of(span, after - before).min(u32::from(N::width()) - 1);
        let first = N::from_bits(cleared(first.to_bits(), shift as u8));
        let last = last.steps(first, shift, most);
        Node {
            before,
            after,
            first,
            shift,
            last,
            place: 0,
        }
    }

    /// The node with its first cell at this place.
    fn at(self, place: u32) -> Node<N>
        ensures { result ≡ record { before = self.before; after = self.after; first = self.first; shift = self.shift; last = self.last; place = place } }
    {
        Node { place, ..self }
    }

    /// How many ranges end before the cell, and how many up to its end.
    #[inline]
    fn bounds(&self) -> (u32, u32)
        ensures before { result.0 ≡ self.now.before }
        ensures after { result.1 ≡ self.now.after }
    {
        (self.before, self.after)
    }

    /// The cell of a number among those of the node.
    #[inline]
    fn cell(&self, number: N) -> u32
        ensures { result ≡ cell_in self.now (N.number number) }
    {
        number.steps(self.first, self.shift, self.last)
    }

    /// The cell of a number among those of all chunks, or of the node if there are no tops.
    fn cell_by(&self, tops: Option<&[u32]>, number: N) -> usize
        requires { (ts : List ℕ) → option_copied tops ≡ Some ts → AreTops ts }
        ensures cell { result ≡ cell_by N.width (option_copied tops.entry) self.now (N.number number) }
        ensures few { result < 2 ^ 33 }
    {
        match tops {
            Some(tops) => cell_at(tops, number.head()) as usize,
            None => self.cell(number) as usize,
        }
    }

    /// The place of the entry of the cell of a number.
    #[inline]
    pub(crate) fn place(&self, number: N) -> usize
        ensures { result ≡ self.now.place + cell_in self.now (N.number number) }
    {
        self.place as usize + self.cell(number) as usize
    }
}

/// Ranges, and nodes that divide cells of them.
#[derive(Drop)]
pub(crate) struct Nodes<N: Stored> {
    pub(crate) ranges: Ranges<N>,
    pub(crate) nodes: Vec<Node<N>>,
    pub(crate) cells: Vec<u32>,
}

impl<N: Stored> Nodes<N> {
    /// The entry of a node that is added next.
    fn next_entry(&self) -> Result<u32, AllocError>
        ensures { IfOk result (λ e. e ≡ 2147483648 + length self.now.nodes.items) }
    {
        let next = self.nodes.len();
        if next >= MARK as usize {
            return Err(AllocError);
        }
        Ok(MARK + next as u32)
    }

    /// Adds a node with the entries of its cells. Returns its own entry.
    fn add(&mut self, node: Node<N>, entries: &[u32]) -> Result<u32, AllocError>
        requires nodes { AreNodes self.old.ranges (2 ^ N.width) self.old.nodes.items self.old.cells.items }
        requires entries { (d : StoredNode) → d.before ≡ node.before → d.after ≡ node.after → AreEntries (cell_in node) (2 ^ N.width) (self.old.nodes.items ++ d ∷ []) self.old.ranges node.before node.after entries.now }
        ensures ranges { OnOk result (self.new.ranges ≡ self.old.ranges) }
        ensures nodes { OnOk result (AreNodes self.new.ranges (2 ^ N.width) self.new.nodes.items self.new.cells.items) }
        ensures kept { OnOk result ((x entry : ℕ) → Leads self.old.nodes.items self.old.ranges x entry → Leads self.new.nodes.items self.old.ranges x entry) }
        ensures leads { IfOk result (λ e. (x : ℕ) → IsBetween self.old.ranges x node.before node.after → Leads self.new.nodes.items self.old.ranges x e) }
    {
        let Ok(place) = u32::try_from(self.cells.len()) else {
            return Err(AllocError);
        };
        let entry = self.next_entry()?;
        self.cells.extend_from_slice(entries)?;
        self.nodes.push(node.at(place))?;
        Ok(entry)
    }

    /// The first range from `place` on that ends in a later cell of the node, or the end of its ranges.
    fn after_cell(&self, node: &Node<N>, tops: Option<&[u32]>, mut place: u32, cell: usize) -> u32
        requires tops { (ts : List ℕ) → option_copied tops ≡ Some ts → AreTops ts }
        requires place { place ≤ node.now.after }
        requires within { node.now.after ≤ length self.now.ranges }
        ensures least { place ≤ result }
        ensures most { result ≤ node.now.after }
        ensures inside { (k : ℕ) → place ≤ k → k < result → cell_by N.width (option_copied tops.entry) node.now (range_at self.now.ranges k).last ≤ cell }
        ensures beyond { result < node.now.after → cell < cell_by N.width (option_copied tops.entry) node.now (range_at self.now.ranges result).last }
    {
        while place < node.bounds().1
            && node.cell_by(tops, self.ranges.last(place as usize)) <= cell
        {
            place += 1;
        }
        place
    }

    /// Adds a node of the last level. It has one cell, whose entry is the node's own.
    fn add_last(&mut self, before: u32, after: u32) -> Result<u32, AllocError>
        requires before { before < after }
        requires after { after ≤ length self.old.ranges }
        requires nodes { AreNodes self.old.ranges (2 ^ N.width) self.old.nodes.items self.old.cells.items }
        ensures ranges { OnOk result (self.new.ranges ≡ self.old.ranges) }
        ensures nodes { OnOk result (AreNodes self.new.ranges (2 ^ N.width) self.new.nodes.items self.new.cells.items) }
        ensures kept { OnOk result ((x entry : ℕ) → Leads self.old.nodes.items self.old.ranges x entry → Leads self.new.nodes.items self.old.ranges x entry) }
        ensures leads { IfOk result (λ e. (x : ℕ) → IsBetween self.old.ranges x before after → Leads self.new.nodes.items self.old.ranges x e) }
    {
        let own = self.next_entry()?;
        let node = Node::over(&self.ranges, before, after, 0);
        self.add(node, &[own])
    }

    /// The entry of the hop of all numbers of a cell, if they have one hop. No earlier range ends in the cell than that at `place`. A family
    /// with longer numbers has few such cells, so it does without.
    fn hop_entry(
        &self,
        node: &Node<N>,
        tops: Option<&[u32]>,
        place: u32,
        cell: usize,
    ) -> Option<u32>
        requires tops { (ts : List ℕ) → option_copied tops ≡ Some ts → AreTops ts }
        requires ranges { ArePadded self.now.ranges (2 ^ N.width) }
        ensures { IfSome result (λ e. (nodes : List StoredNode) (x high : ℕ) → x < 2 ^ N.width → cell_by N.width (option_copied tops.entry) node.now x ≡ cell → IsBetween self.now.ranges x place high → Leads nodes self.now.ranges x e) }
    {
        if N::width() > 32 || place as usize >= self.ranges.len() {
            return None;
        }
        let last = self.ranges.last(place as usize).to_bits();
        if last < highest::<N>().to_bits() && node.cell_by(tops, N::from_bits(last + 1)) <= cell {
            return None;
        }
        entry_of(self.ranges.hop(place as usize))
    }

    /// The entries of the cells of a node, which are those of all chunks if there are tops. Below it are at most `levels` levels of nodes.
    pub(crate) fn entries(
        &mut self,
        alloc: Global,
        node: &Node<N>,
        tops: Option<&[u32]>,
        levels: u32,
    ) -> Result<Vec<u32>, AllocError>
        requires tops { (ts : List ℕ) → option_copied tops ≡ Some ts → AreTops ts }
        requires ranges { ArePadded self.old.ranges (2 ^ N.width) }
        requires few { length self.old.ranges < 1073741824 }
        requires before { node.now.before ≤ node.now.after }
        requires after { node.now.after ≤ length self.old.ranges }
        requires nodes { AreNodes self.old.ranges (2 ^ N.width) self.old.nodes.items self.old.cells.items }
        ensures ranges { OnOk result (self.new.ranges ≡ self.old.ranges) }
        ensures nodes { OnOk result (AreNodes self.new.ranges (2 ^ N.width) self.new.nodes.items self.new.cells.items) }
        ensures kept { OnOk result ((x entry : ℕ) → Leads self.old.nodes.items self.old.ranges x entry → Leads self.new.nodes.items self.old.ranges x entry) }
        ensures entries { IfOk result (λ es. AreEntries (cell_by N.width (option_copied tops.entry) node.now) (2 ^ N.width) self.new.nodes.items self.old.ranges node.now.before node.now.after es.items) }
    {
        let end = node.cell_by(tops, highest()) + 1;
        let mut entries = Vec::with_capacity(alloc, end)?;
        let mut place = node.bounds().0;
        for cell in 0..end {
            let next = self.after_cell(node, tops, place, cell);
            let entry = if let Some(entry) = self.hop_entry(node, tops, place, cell) {
                entry
            } else if next <= place + 4 {
                place
            } else if levels == 0 {
                self.add_last(place, next)?
            } else {
                let inner = Node::over(&self.ranges, place, next, next - place - 1);
                let inside = self.entries(alloc, &inner, None, levels - 1)?;
                self.add(inner, inside.as_slice())?
            };
            entries.push(entry)?;
            place = next;
        }
        Ok(entries)
    }

    /// The number of ranges that end below a number, from its entry, which has no hop.
    #[inline]
    pub(crate) fn ended(&self, entry: u32, number: N) -> usize
        requires ascending { AreAscending self.now.ranges }
        requires entry { Leads self.now.nodes.items self.now.ranges (N.number number) entry }
        requires no_hop { HasHop entry → ⊥ }
        ensures { IsBetween self.now.ranges (N.number number) result result }
    {
        if entry < MARK {
            return self.ranges.among_four(entry, number);
        }
        let (low, high) = self.nodes[(entry - MARK) as usize].bounds();
        self.ranges.by_halves(low as usize, high as usize, number)
    }
}
