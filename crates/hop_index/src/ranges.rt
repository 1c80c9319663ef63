//! The ranges of one hop, or of none, that the addresses of a family fall into.
ghost use Rattle.std.specs.Prelude.{◌≡◌, ℕ, ◌+◌, ◌^◌, ◌<◌, ◌≤◌, ◌++◌, [], ◌∷◌, Some, None, IsTrue, OnOk, length, slice_index_or};
ghost use Rattle.hop_index.specs.Ranges.{hop_in};
ghost use Rattle.hop_index.specs.InnerRanges.{AreAscending, ArePadded, EndBelow, IsBetween, head_of, range_at};

use crate::stored::{Stored, highest};
use std::alloc::{AllocError, Global};
use std::marker::Model;

/// The number in place of no hop.
const NO_HOP: u32 = u32::MAX;

/// The front of the last number of a range, and the hop of its numbers.
#[derive(Clone, Copy)]
struct Range<F> {
    front: F,
    hop: u32,
}

/// What is stored for the range at this index, or the usual value if there is nothing for it.
#[inline]
fn stored_at<T: Copy>(stored: &[T], place: usize, usual: T) -> T
    ensures { result ≡ slice_index_or stored.now place usual }
{
    stored.get(place).copied().unwrap_or(usual)
}

/// Stores the value for the range at this index, unless it is the usual one. The indexes before it without a value get the usual one.
fn store<T: Copy>(
    stored: &mut Vec<T>,
    place: usize,
    usual: T,
    value: T,
    is_usual: bool,
) -> Result<(), AllocError>
    requires place { length stored.old.items ≤ place }
    requires usual { IsTrue is_usual → value ≡ usual }
    ensures all { length stored.new.items ≤ place + 1 }
    ensures value { OnOk result (slice_index_or stored.new.items place usual ≡ value) }
    ensures others { OnOk result ((k : ℕ) → k < place → slice_index_or stored.new.items k usual ≡ slice_index_or stored.old.items k usual) }
{
    if is_usual {
        return Ok(());
    }
    stored.resize(place, usual)?;
    stored.push(value)?;
    Ok(())
}

/// Ranges, each from the number after the range before it.
///
/// Contracts see the last number and the hop of each range.
#[derive(Drop)]
pub(crate) struct Ranges<N: Stored> {
    ranges: Vec<Range<N::Front>>,
    /// The bits after the front of the last number. They are ones after the end of this list.
    rests: Vec<u64>,
    /// Whether the number in place of no hop is the hop of the range. All ranges after the last mark have none.
    marks: Vec<bool>,
}

impl<N: Stored> Model for Ranges<N> {
    ghost use Rattle.std.specs.Prelude.{◌≤◌, List, length};
    ghost use Rattle.hop_index.specs.Ranges.{HopRange};
    ghost use Rattle.hop_index.specs.InnerRanges.{map_at, whole_range};

    ghost Value = { List HopRange };

    ghost view = { λ r. map_at (whole_range N.joined r.rests.items r.marks.items) r.ranges.items };

    ghost invariant = { λ r. (length r.rests.items ≤ length r.ranges.items) × (length r.marks.items ≤ length r.ranges.items) };
}

impl<N: Stored> Ranges<N> {
    /// No ranges. Does not allocate.
    pub(crate) fn new(alloc: Global) -> Ranges<N>
        ensures { result ≡ [] }
    {
        Ranges {
            ranges: Vec::new(alloc),
            rests: Vec::new(alloc),
            marks: Vec::new(alloc),
        }
    }

    /// The number of ranges.
    #[tactic(auto, using(crate::proofs::Marks::length_map_at))]
    #[inline]
    pub(crate) fn len(&self) -> usize
        ensures { result ≡ length self.now }
    {
        self.ranges.len()
    }

    /// The last number of the range at this index.
    #[tactic(auto, using(crate::proofs::Marks::length_map_at))]
    #[inline]
    pub(crate) fn last(&self, place: usize) -> N
        requires { place < length self.now }
        ensures { N.number result ≡ (range_at self.now place).last }
    {
        let rest = stored_at(&self.rests, place, u64::MAX);
        N::of_parts(self.ranges[place].front, rest)
    }

    /// The first 64 bits of the last number of the range at this index.
    #[tactic(auto, using(crate::proofs::Marks::length_map_at))]
    #[inline]
    pub(crate) fn head(&self, place: usize) -> u64
        requires { place < length self.now }
        ensures { result ≡ head_of N.width (range_at self.now place).last }
    {
        N::head_at(self.ranges[place].front)
    }

    /// The hop of the range at this index.
    #[tactic(auto, using(crate::proofs::Marks::length_map_at))]
    #[inline]
    pub(crate) fn hop(&self, place: usize) -> Option<u32>
        requires { place < length self.now }
        ensures { result ≡ (range_at self.now place).hop }
    {
        let hop = self.ranges[place].hop;
        if hop == NO_HOP && !stored_at(&self.marks, place, false) {
            return None;
        }
        Some(hop)
    }

    /// Adds a range after the others.
    pub(crate) fn push(&mut self, last: N, hop: Option<u32>) -> Result<(), AllocError>
        ensures { OnOk result (self.new ≡ self.old ++ record { last = N.number last; hop = hop } ∷ []) }
    {
        let place = self.ranges.len();
        let (front, rest) = last.parts();
        let mark = hop == Some(NO_HOP);
        let hop = hop.unwrap_or(NO_HOP);
        self.ranges.push(Range { front, hop })?;
        store(&mut self.rests, place, u64::MAX, rest, rest == u64::MAX)?;
        store(&mut self.marks, place, false, mark, !mark)?;
        Ok(())
    }

    /// The number of ranges that end below the number, if that is at least `low` and at most `low + 4`.
    #[inline]
    pub(crate) fn among_four(&self, low: u32, number: N) -> usize
        requires ascending { AreAscending self.now }
        requires between { IsBetween self.now (N.number number) low (low + 4) }
        ensures { IsBetween self.now (N.number number) result result }
    {
        let low = low as usize;
        let head = number.head();
        let mut count = low;
        for step in 0..4 {
            if self.head(low + step) < head {
                count += 1;
            }
        }
        if N::width() <= 64 || count == low + 4 || head < self.head(count) {
            return count;
        }
        self.by_halves(count, low + 4, number)
    }

    /// The number of ranges that end below the number, if that is at least `low` and at most `high`.
    pub(crate) fn by_halves(&self, mut low: usize, mut high: usize, number: N) -> usize
        requires ascending { AreAscending self.now }
        requires between { IsBetween self.now (N.number number) low high }
        ensures { IsBetween self.now (N.number number) result result }
    {
        while low < high {
            let middle = low + (high - low) / 2;
            if self.last(middle).to_bits() < number.to_bits() {
                low = middle + 1;
            } else {
                high = middle;
            }
        }
        low
    }

    /// Adds a range without a hop up to the number before this one, unless a range ends there. All ranges must end below the number.
    fn reach(&mut self, number: u128) -> Result<(), AllocError>
        requires ascending { AreAscending self.old }
        requires below { EndBelow number self.old }
        requires within { number < 2 ^ N.width }
        ensures ascending { OnOk result (AreAscending self.new) }
        ensures below { OnOk result (EndBelow number self.new) }
        ensures hops { OnOk result ((x : ℕ) → hop_in self.new x ≡ hop_in self.old x) }
        ensures reached { OnOk result ((x : ℕ) → x < number → EndBelow x self.new → ⊥) }
    {
        let end = self.len();
        if number == 0 || end > 0 && self.last(end - 1).to_bits() == number - 1 {
            return Ok(());
        }
        self.push(N::from_bits(number - 1), None)?;
        Ok(())
    }

    /// Gives the numbers from `first` to `last` this hop. All ranges must end below them.
    pub(crate) fn add(&mut self, first: u128, last: u128, hop: u32) -> Result<(), AllocError>
        requires ascending { AreAscending self.old }
        requires below { EndBelow first self.old }
        requires some { first ≤ last }
        requires within { last < 2 ^ N.width }
        ensures ascending { OnOk result (AreAscending self.new) }
        ensures below { OnOk result (EndBelow (last + 1) self.new) }
        ensures within { OnOk result (EndBelow (2 ^ N.width) self.new) }
        ensures inside { OnOk result ((x : ℕ) → first ≤ x → x ≤ last → hop_in self.new x ≡ Some hop) }
        ensures outside { OnOk result ((x : ℕ) → (first ≤ x → x ≤ last → ⊥) → hop_in self.new x ≡ hop_in self.old x) }
    {
        self.reach(first)?;
        self.push(N::from_bits(last), Some(hop))?;
        Ok(())
    }

    /// Adds four ranges without a hop that end at the highest number, and frees spare memory of the list.
    pub(crate) fn pad(&mut self) -> Result<(), AllocError>
        requires ascending { AreAscending self.old }
        requires within { EndBelow (2 ^ N.width) self.old }
        ensures padded { OnOk result (ArePadded self.new (2 ^ N.width)) }
        ensures hops { OnOk result ((x : ℕ) → hop_in self.new x ≡ hop_in self.old x) }
    {
        for _ in 0..4_usize {
            self.push(highest(), None)?;
        }
        self.ranges.shrink_to_fit();
        Ok(())
    }
}
