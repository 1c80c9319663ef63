//! Frames of borrowed nodes. The next frame below a child is that of its branch: the skipped levels above it have no frames.
ghost use Rattle.std.specs.Prelude.{◌≡◌, ◌+◌, ◌*◌, ◌<◌, ◌≤◌, [], ◌∷◌, MatchOption, length, take, not, nat_lt, ⊤, List, Bool, count_ones};
ghost use Rattle.std.specs.Ordering.{nat_cmp};
ghost use Rattle.std.specs.FinMap.{entries};
ghost use Rattle.std.specs.FinMap.Entries.{where_key};
ghost use Rattle.ipnet_blocks.specs.BitStrings.{bits_cmp};
ghost use Rattle.trie_core.specs.Bits.{is_from};
ghost use Rattle.trie_core.specs.InnerPlaces.{place_of, child_of, first_place_of};
ghost use Rattle.trie_core.specs.InnerNodes.{under};
ghost use Rattle.trie_core.specs.InnerSearch.{IsChild, HasNoChild};
ghost use Rattle.trie_core.specs.InnerWalks.{AreParts, KeysWithin, is_past};
ghost use Rattle.trie_core.specs.InnerLent.{lent_children};
ghost use Rattle.trie_core.specs.InnerOpened.{IsOpened};

use crate::frame::{Frame, FrameStack, LentStack, Next, next_of_last, value_first};
use crate::lent_places::LentPlaces;
use crate::node::{Branch, Node};
use crate::path::Path;
use crate::slots::low_bits;
use crate::tables::{first_child, place_length};
use arrayvec::ArrayVec;
use shape::Items;
use std::alloc::AllocError;
use std::marker::Model;

/// A borrowed node: the skipped levels that are left, and the branch below them.
#[derive(Drop)]
pub struct LentNode<'a, T> {
    skip: u32,
    levels: u8,
    branch: &'a Branch<T>,
}

impl<'a, T> Model for LentNode<'a, T> {
    ghost use Rattle.std.specs.Prelude.{◌*◌, ◌≤◌, ◌<◌, ◌^◌};
    ghost use Rattle.trie_core.specs.Nodes.{Seen, code};
    ghost use Rattle.trie_core.specs.InnerChains.{chain, skipped};

    ghost Value = { Seen T };

    ghost coded = { code T.code };

    ghost view = { λ a. chain a.levels (skipped a.levels a.skip) a.branch.now };

    ghost invariant = { λ a. (a.levels ≤ 5) × (a.skip < 2 ^ (5 * a.levels)) };
}

impl<'a, T> LentNode<'a, T> {
    /// Borrows a node with all its skipped levels.
    #[inline]
    pub(crate) fn new(node: &'a Node<T>) -> LentNode<'a, T>
        ensures { result ≡ node.now }
    {
        LentNode {
            skip: node.skip,
            levels: node.levels,
            branch: &node.branch,
        }
    }

    /// Borrows the same node once more.
    #[inline]
    fn again(&self) -> LentNode<'a, T>
        ensures { result ≡ self.now }
    {
        LentNode {
            skip: self.skip,
            levels: self.levels,
            branch: self.branch,
        }
    }

    /// Returns the node below the first five bits.
    #[inline]
    pub(crate) fn child(&self, path: &Path) -> Option<LentNode<'a, T>>
        requires { 5 ≤ length path.now }
        ensures { MatchOption result (HasNoChild path.now self.now) (λ c. IsChild path.now self.now c) }
    {
        if self.levels == 0 {
            let child = self.branch.child(path)?;
            return Some(LentNode::new(child));
        }
        let below = self.levels - 1;
        if ((self.skip >> (5 * below)) % 32) as u8 != path.five() {
            return None;
        }
        Some(LentNode {
            skip: low_bits(self.skip, 5 * below),
            levels: below,
            branch: self.branch,
        })
    }

    /// Returns the values and the children of the node.
    #[inline]
    fn parts(&self) -> (LentPlaces<'a, T>, LentChildren<'a, T>)
        ensures { AreParts self.now result.0 (lent_children result.1) }
    {
        if self.levels == 0 {
            return branch_parts(self.branch);
        }
        let below = self.levels - 1;
        let child = ((self.skip >> (5 * below)) % 32) as u8;
        let node = LentNode {
            skip: low_bits(self.skip, 5 * below),
            levels: below,
            branch: self.branch,
        };
        (LentPlaces::none(), LentChildren::One(child, node))
    }

    /// Returns the frame of the node's branch, and the path to it. The node is the child of this number below the node at `way`.
    #[inline]
    fn opened(&self, child: u8, way: &Path) -> (LentFrame<'a, T>, Path)
        requires child { child < 32 }
        requires levels { length way.now + 5 * self.now.levels ≤ 125 }
        ensures { IsOpened way.now child self.now result.0 result.1 }
    {
        let (values, children) = branch_parts(self.branch);
        let below = way.down(child, self.skip, self.levels);
        let bits = 5 * self.levels + 5;
        let frame = LentFrame {
            values,
            children,
            bits,
        };
        (frame, below)
    }
}

/// Returns the values and the children of a branch.
#[inline]
fn branch_parts<'a, T>(branch: &'a Branch<T>) -> (LentPlaces<'a, T>, LentChildren<'a, T>)
    ensures { AreParts branch.now result.0 (lent_children result.1) }
{
    let values = LentPlaces::new(branch.value_bits, branch.body.values());
    let nodes = Items::Many(branch.body.children());
    let children = LentPlaces::new(branch.child_bits, nodes);
    (values, LentChildren::List(children))
}

/// The remaining children: those of a branch, or the one below a skipped level, with its place.
#[derive(Drop)]
pub(crate) enum LentChildren<'a, T> {
    List(LentPlaces<'a, Node<T>>),
    One(u8, LentNode<'a, T>),
}

impl<'a, T> LentChildren<'a, T> {
    /// Returns the first place.
    #[inline]
    fn first_place(&self) -> Option<u8>
        ensures { result ≡ first_place_of (lent_children self.now) }
    {
        match self {
            LentChildren::List(places) => places.first_place(),
            LentChildren::One(place, _) => Some(*place),
        }
    }

    /// Removes and returns the first child, with its place.
    #[inline]
    fn next(&mut self) -> Option<(u8, LentNode<'a, T>)>
        ensures { MatchOption result ((lent_children self.old ≡ []) × (lent_children self.new ≡ [])) (λ p. lent_children self.old ≡ (p.0, p.1) ∷ lent_children self.new) }
    {
        match self {
            LentChildren::List(places) => {
                let (place, node) = places.next()?;
                Some((place, LentNode::new(node)))
            }
            LentChildren::One(place, _) => {
                let place = *place;
                let LentChildren::One(_, node) = self else {
                    unreachable!()
                };
                let node = node.again();
                *self = LentChildren::List(LentPlaces::none());
                Some((place, node))
            }
        }
    }

    /// Returns the same places.
    #[inline]
    fn again(&self) -> LentChildren<'a, T>
        ensures { lent_children result ≡ lent_children self.now }
    {
        match self {
            LentChildren::List(places) => LentChildren::List(places.again()),
            LentChildren::One(place, node) => LentChildren::One(*place, node.again()),
        }
    }

    /// Returns the children at this place and after it.
    fn from(self, place: u8) -> LentChildren<'a, T>
        requires { place ≤ 32 }
        ensures { lent_children result ≡ where_key nat_cmp (λ k. not (nat_lt k place)) (lent_children self.entry) }
    {
        match self {
            LentChildren::List(places) => LentChildren::List(places.from(place)),
            LentChildren::One(at, node) => {
                if at < place {
                    return LentChildren::List(LentPlaces::none());
                }
                LentChildren::One(at, node)
            }
        }
    }

    /// Returns the children at places below this one.
    fn before(self, place: u8) -> LentChildren<'a, T>
        requires { place ≤ 32 }
        ensures { lent_children result ≡ where_key nat_cmp (λ k. nat_lt k place) (lent_children self.entry) }
    {
        match self {
            LentChildren::List(places) => LentChildren::List(places.before(place)),
            LentChildren::One(at, node) => {
                if at >= place {
                    return LentChildren::List(LentPlaces::none());
                }
                LentChildren::One(at, node)
            }
        }
    }
}

/// The rest of one node. `bits` is the number of bits by which its path is longer than that of the frame below it.
#[derive(Drop)]
pub struct LentFrame<'a, T> {
    values: LentPlaces<'a, T>,
    children: LentChildren<'a, T>,
    bits: u8,
}

impl<'a, T> Model for LentFrame<'a, T> {
    ghost use Rattle.std.specs.Prelude.{◌+◌, ◌*◌};
    ghost use Rattle.std.specs.FinMap.{entries};
    ghost use Rattle.trie_core.specs.InnerWalks.{part_map, levels_of, nodes_of, AreInOrder, Left, left_code};
    ghost use Rattle.trie_core.specs.InnerLent.{lent_children};

    ghost Value = { Left T };

    ghost coded = { left_code T.code };

    ghost view = { λ a. (entries (part_map a.values (lent_children a.children)), levels_of (lent_children a.children) + 1, 2 * nodes_of (lent_children a.children), a.bits) };

    ghost invariant = { λ a. AreInOrder a.values (lent_children a.children) };
}

impl<'a, T> Clone for LentFrame<'a, T> {
    ghost is_clone = { λ f r. r ≡ f };

    ghost is_infallible = { λ _. ⊤ };

    fn clone(&self) -> Result<LentFrame<'a, T>, AllocError> {
        Ok(LentFrame {
            values: self.values.again(),
            children: self.children.again(),
            bits: self.bits,
        })
    }
}

/// The default frame is empty.
impl<'a, T> Default for LentFrame<'a, T> {
    fn default() -> LentFrame<'a, T> {
        LentFrame {
            values: LentPlaces::none(),
            children: LentChildren::List(LentPlaces::none()),
            bits: 5,
        }
    }
}

/// The first place after those of the prefixes of five bits.
fn after_beginnings(five: u8) -> u8
    requires { five < 32 }
    ensures { (q : List Bool) → 5 ≤ length q → child_of q ≡ five → result ≡ place_of (take 4 q) + 1 }
{
    let four = five - five % 2;
    four + 5 - four.count_ones() as u8
}

impl<'a, T> LentFrame<'a, T> {
    /// The only entry that is left of the node at `way`, or `None` if there are several entries or nodes below.
    #[inline]
    fn only(&self, way: &Path) -> Option<(Path, &'a T)>
        requires levels { length way.now + 5 * self.now.1 ≤ 130 }
        requires keys { KeysWithin 128 (under way.now self.now.0) }
        ensures { MatchOption result ⊤ (λ r. under way.now self.now.0 ≡ (r.0, r.1.now) ∷ []) }
    {
        if self.children.first_place().is_some() {
            return None;
        }
        let (place, value) = self.values.only()?;
        let key = way.with(first_child(place), place_length(place));
        Some((key, value))
    }

    /// The keys of a node that come after all keys that begin with the first five bits of a path.
    pub(crate) fn past(node: &LentNode<'a, T>, path: &Path) -> LentFrame<'a, T>
        requires long { 5 ≤ length path.now }
        ensures rest { result.0 ≡ where_key bits_cmp (is_past (take 5 path.now)) (entries node.now.entries) }
        ensures levels { result.1 ≤ node.now.levels }
        ensures positive { 0 < result.1 }
        ensures bits { result.3 ≡ 5 }
    {
        let (values, children) = node.parts();
        let five = path.five();
        LentFrame {
            values: values.from(after_beginnings(five)),
            children: children.from(five + 1),
            bits: 5,
        }
    }

    /// The keys of a node that come after a string of fewer than five bits; the string itself too if `inclusive`.
    pub(crate) fn onwards(node: &LentNode<'a, T>, path: &Path, inclusive: bool) -> LentFrame<'a, T>
        requires short { length path.now < 5 }
        ensures rest { result.0 ≡ where_key bits_cmp (is_from path.now inclusive) (entries node.now.entries) }
        ensures levels { result.1 ≤ node.now.levels }
        ensures positive { 0 < result.1 }
        ensures bits { result.3 ≡ 5 }
    {
        let (values, children) = node.parts();
        let place = path.place();
        LentFrame {
            values: values.from(if inclusive { place } else { place + 1 }),
            children: children.from(path.five()),
            bits: 5,
        }
    }
}

impl<'a, T> Frame<T> for LentFrame<'a, T> {
    type Node = LentNode<'a, T>;

    type Given = &'a T;

    ghost seen = { λ n. n };

    ghost value = { λ v. v.now };

    ghost left = { λ f. f };

    #[inline]
    fn bits(&self) -> u8 {
        self.bits
    }

    #[inline]
    fn child(node: LentNode<'a, T>, path: &Path) -> Option<LentNode<'a, T>> {
        node.child(path)
    }

    #[inline]
    fn whole(node: LentNode<'a, T>) -> LentFrame<'a, T> {
        let (values, children) = node.parts();
        LentFrame {
            values,
            children,
            bits: 5,
        }
    }

    fn inside(node: LentNode<'a, T>, path: &Path) -> LentFrame<'a, T> {
        let (values, children) = node.parts();
        let (len, place, child) = (path.len(), path.place(), path.five());
        LentFrame {
            values: values.from(place).before(place + (31 >> len)),
            children: children.from(child).before(child + (32 >> len)),
            bits: 5,
        }
    }

    #[inline(always)]
    fn next(&mut self, way: &Path) -> Next<&'a T, LentFrame<'a, T>> {
        if value_first(self.values.first_place(), self.children.first_place()) {
            let Some((place, value)) = self.values.next() else {
                unreachable!()
            };
            let key = way.with(first_child(place), place_length(place));
            return Next::Entry(key, value);
        }
        let Some((child, node)) = self.children.next() else {
            return Next::Nothing;
        };
        let (below, way) = node.opened(child, way);
        if let Some((key, value)) = below.only(&way) {
            return Next::Entry(key, value);
        }
        Next::Below(below, way)
    }
}

impl<'a, T> FrameStack<T> for ArrayVec<LentFrame<'a, T>, 26> {
    type Frame = LentFrame<'a, T>;

    ghost frames = { λ s. s.items };

    #[inline]
    fn empty() -> ArrayVec<LentFrame<'a, T>, 26> {
        ArrayVec::new()
    }

    #[inline(always)]
    fn next(&mut self, way: &Path) -> Option<Next<&'a T, LentFrame<'a, T>>> {
        next_of_last(self.as_mut_slice(), way)
    }

    #[inline]
    fn pop(&mut self) -> Option<LentFrame<'a, T>> {
        ArrayVec::pop(self)
    }

    #[inline]
    fn push(&mut self, frame: LentFrame<'a, T>) {
        ArrayVec::push(self, frame)
    }
}

impl<'a, T> LentStack<T> for ArrayVec<LentFrame<'a, T>, 26> {
    fn copied(&self) -> ArrayVec<LentFrame<'a, T>, 26> {
        let Ok(copy) = self.clone() else {
            unreachable!()
        };
        copy
    }
}
