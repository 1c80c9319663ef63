//! Frames of owned nodes. They do not allocate, and the entries that a walk has not returned are dropped with them.
ghost use Rattle.std.specs.Prelude.{◌≡◌, ◌+◌, ◌*◌, ◌<◌, ◌≤◌, [], ◌∷◌, MatchOption, length, count_ones, not, nat_lt, take, drop};
ghost use Rattle.std.specs.Ordering.{nat_cmp};
ghost use Rattle.std.specs.FinMap.Entries.{where_key};
ghost use Rattle.shape.specs.OwnedValues.{owned_values};
ghost use Rattle.trie_core.specs.InnerPlaces.{placed, first_place_of};
ghost use Rattle.trie_core.specs.InnerSearch.{IsChild, HasNoChild};
ghost use Rattle.trie_core.specs.InnerWalks.{AreParts};
ghost use Rattle.trie_core.specs.InnerOpened.{IsOpened};
ghost use Rattle.trie_core.specs.InnerOwned.{owned_places};
ghost use Rattle.short_vec.specs.Lists.{short_items};
ghost use Rattle.trie_core.specs.InnerHeld.{held};

use crate::frame::{Frame, FrameStack, Next, next_of_last, value_first};
use crate::node::{Branch, Node};
use crate::path::Path;
use crate::slots::{first_place, low_bits, slot};
use crate::tables::{bit, first_child, place_length};
use arrayvec::ArrayVec;
use shape::OwnedValues;
use short_vec::ShortVec;
use std::marker::Model;
use std::mem;
use std::vec::IntoIter;

/// Items that are left, each at a place below 32. The bits of a word mark the places, and the items are in the order of their places.
#[derive(Drop)]
struct Places<X> {
    taken: u32,
    items: Option<IntoIter<X>>,
}

impl<X> Model for Places<X> {
    ghost use Rattle.std.specs.Prelude.{List, ℕ, ◌≡◌, length, count_ones};
    ghost use Rattle.trie_core.specs.InnerHeld.{held};
    ghost use Rattle.trie_core.specs.InnerPlaces.{placed};

    ghost Value = { List (ℕ × X) };

    ghost view = { λ a. placed a.taken (held a.items) };

    ghost invariant = { λ a. count_ones a.taken ≡ length (held a.items) };
}

impl<X> Default for Places<X> {
    ghost is_default = { λ p. p ≡ [] };

    fn default() -> Places<X> {
        Places {
            taken: 0,
            items: None,
        }
    }
}

impl<X> Places<X> {
    /// The items of a list at the places that a word marks.
    fn new(taken: u32, items: ShortVec<X>) -> Places<X>
        requires { count_ones taken ≡ length (short_items items) }
        ensures { result ≡ placed taken (short_items items) }
    {
        Places {
            taken,
            items: Some(items.into_vec().into_iter()),
        }
    }

    /// The first place.
    fn first_place(&self) -> Option<u8>
        ensures { result ≡ first_place_of self.now }
    {
        if self.taken == 0 {
            return None;
        }
        Some(first_place(self.taken))
    }
}

impl<X: Drop> Places<X> {
    /// Takes out the first item, with its place.
    fn next(&mut self) -> Option<(u8, X)>
        ensures { MatchOption result ((self.old ≡ []) × (self.new ≡ [])) (λ p. self.old ≡ p ∷ self.new) }
    {
        let Some(items) = &mut self.items else {
            return None;
        };
        let Some(first) = items.next() else {
            return None;
        };
        let place = first_place(self.taken);
        self.taken -= bit(place);
        Some((place, first))
    }
}

/// The items without the first `count` items.
fn without_first<X: Drop>(items: Option<IntoIter<X>>, count: u32) -> Option<IntoIter<X>>
    requires { count ≤ length (held items) }
    ensures { held result ≡ drop count (held items) }
{
    let Some(mut items) = items else {
        return None;
    };
    'item: for _ in 0..count {
        drop(items.next());
    }
    Some(items)
}

/// The first `count` items.
fn first_of<X: Drop>(items: Option<IntoIter<X>>, count: u32) -> Option<IntoIter<X>>
    requires { count ≤ length (held items) }
    ensures { held result ≡ take count (held items) }
{
    let Some(mut items) = items else {
        return None;
    };
    'item: while items.len() > count as usize {
        drop(items.next_back());
    }
    Some(items)
}

impl<X: Drop> Places<X> {
    /// The items at this place and after it. The others are dropped.
    fn from(self, place: u8) -> Places<X>
        requires { place ≤ 32 }
        ensures { result ≡ where_key nat_cmp (λ k. not (nat_lt k place)) self }
    {
        let passed = low_bits(self.taken, place);
        Places {
            taken: self.taken - passed,
            items: without_first(self.items, passed.count_ones()),
        }
    }

    /// The items at places below this one. The others are dropped.
    fn before(self, place: u8) -> Places<X>
        requires { place ≤ 32 }
        ensures { result ≡ where_key nat_cmp (λ k. nat_lt k place) self }
    {
        let taken = low_bits(self.taken, place);
        Places {
            taken,
            items: first_of(self.items, taken.count_ones()),
        }
    }
}

/// The remaining items at places: one, or those of a list.
#[derive(Drop)]
enum OwnedPlaces<X> {
    One(u8, X),
    List(Places<X>),
}

impl<X> OwnedPlaces<X> {
    /// Makes an empty list.
    fn none() -> OwnedPlaces<X>
        ensures { owned_places result ≡ [] }
    {
        OwnedPlaces::List(Places::default())
    }

    /// Returns the first place.
    fn first_place(&self) -> Option<u8>
        ensures { result ≡ first_place_of (owned_places self.now) }
    {
        match self {
            OwnedPlaces::One(place, _) => Some(*place),
            OwnedPlaces::List(places) => places.first_place(),
        }
    }

    /// Makes a list of the values of a branch at the places of a word.
    fn new(taken: u32, values: OwnedValues<X>) -> OwnedPlaces<X>
        requires { count_ones taken ≡ length (owned_values values) }
        ensures { owned_places result ≡ placed taken (owned_values values) }
    {
        match values {
            OwnedValues::One(value) => OwnedPlaces::One(first_place(taken), value),
            OwnedValues::Many(values) => OwnedPlaces::List(Places::new(taken, values)),
        }
    }
}

impl<X: Drop> OwnedPlaces<X> {
    /// Removes and returns the first item, with its place.
    fn next(&mut self) -> Option<(u8, X)>
        ensures { MatchOption result ((owned_places self.old ≡ []) × (owned_places self.new ≡ [])) (λ p. owned_places self.old ≡ p ∷ owned_places self.new) }
    {
        if let OwnedPlaces::List(places) = self {
            return places.next();
        }
        let OwnedPlaces::One(place, item) = mem::replace(self, OwnedPlaces::none()) else {
            unreachable!()
        };
        Some((place, item))
    }

    /// Returns the items at this place and after it. The others are dropped.
    fn from(self, place: u8) -> OwnedPlaces<X>
        requires { place ≤ 32 }
        ensures { owned_places result ≡ where_key nat_cmp (λ k. not (nat_lt k place)) (owned_places self) }
    {
        match self {
            OwnedPlaces::List(places) => OwnedPlaces::List(places.from(place)),
            OwnedPlaces::One(at, item) => {
                if at < place {
                    return OwnedPlaces::none();
                }
                OwnedPlaces::One(at, item)
            }
        }
    }

    /// Returns the items at places below this one. The others are dropped.
    fn before(self, place: u8) -> OwnedPlaces<X>
        requires { place ≤ 32 }
        ensures { owned_places result ≡ where_key nat_cmp (λ k. nat_lt k place) (owned_places self) }
    {
        match self {
            OwnedPlaces::List(places) => OwnedPlaces::List(places.before(place)),
            OwnedPlaces::One(at, item) => {
                if at >= place {
                    return OwnedPlaces::none();
                }
                OwnedPlaces::One(at, item)
            }
        }
    }
}

/// The rest of one node. `bits` is the number of bits by which its path is longer than that of the frame below it.
#[derive(Drop)]
pub struct OwnedFrame<T> {
    values: OwnedPlaces<T>,
    children: OwnedPlaces<Node<T>>,
    bits: u8,
}

impl<T> Model for OwnedFrame<T> {
    ghost use Rattle.std.specs.Prelude.{◌+◌, ◌*◌};
    ghost use Rattle.std.specs.FinMap.{entries};
    ghost use Rattle.trie_core.specs.InnerWalks.{part_map, levels_of, nodes_of, AreInOrder, Left, left_code};
    ghost use Rattle.trie_core.specs.InnerOwned.{owned_places};

    ghost Value = { Left T };

    ghost coded = { left_code T.code };

    ghost view = { λ a. (entries (part_map (owned_places a.values) (owned_places a.children)), levels_of (owned_places a.children) + 1, 2 * nodes_of (owned_places a.children), a.bits) };

    ghost invariant = { λ a. AreInOrder (owned_places a.values) (owned_places a.children) };
}

/// The default frame is empty.
impl<T> Default for OwnedFrame<T> {
    fn default() -> OwnedFrame<T> {
        OwnedFrame {
            values: OwnedPlaces::none(),
            children: OwnedPlaces::none(),
            bits: 5,
        }
    }
}

/// Returns the values and the children of a node.
fn parts<T>(node: Node<T>) -> (OwnedPlaces<T>, OwnedPlaces<Node<T>>)
    ensures { AreParts node (owned_places result.0) (owned_places result.1) }
{
    let Node {
        skip,
        levels,
        branch,
    } = node;
    if levels == 0 {
        return branch_parts(branch);
    }
    let below = levels - 1;
    let child = ((skip >> (5 * below)) % 32) as u8;
    let node = Node {
        skip: low_bits(skip, 5 * below),
        levels: below,
        branch,
    };
    (OwnedPlaces::none(), OwnedPlaces::One(child, node))
}

/// Returns the values and the children of a branch.
fn branch_parts<T>(branch: Branch<T>) -> (OwnedPlaces<T>, OwnedPlaces<Node<T>>)
    ensures { AreParts branch (owned_places result.0) (owned_places result.1) }
{
    let Branch {
        body,
        child_bits,
        value_bits,
    } = branch;
    let (values, children) = body.into_lists();
    let values = OwnedPlaces::new(value_bits, values);
    let children = Places::new(child_bits, children);
    (values, OwnedPlaces::List(children))
}

/// Returns the frame of the node's branch, and the path to it. The node is the child of this number below the node at `way`.
fn opened<T>(node: Node<T>, child: u8, way: &Path) -> (OwnedFrame<T>, Path)
    requires child { child < 32 }
    requires levels { length way.now + 5 * node.levels ≤ 125 }
    ensures { IsOpened way.now child node result.0 result.1 }
{
    let Node {
        skip,
        levels,
        branch,
    } = node;
    let (values, children) = branch_parts(branch);
    let below = way.down(child, skip, levels);
    let bits = 5 * levels + 5;
    let frame = OwnedFrame {
        values,
        children,
        bits,
    };
    (frame, below)
}

/// Returns the node below the first five bits of a branch. The rest of the branch is dropped.
fn child_of_branch<T: Drop>(branch: Branch<T>, path: &Path) -> Option<Node<T>>
    requires { 5 ≤ length path.now }
    ensures { MatchOption result (HasNoChild path.now branch) (λ c. IsChild path.now branch c) }
{
    match slot(branch.child_bits, path.five()) {
        None => None,
        Some(at) => {
            let mut body = branch.body;
            Some(body.remove_child(at))
        }
    }
}

/// Returns the node below the first five bits. The rest of the node is dropped.
fn child_of_node<T: Drop>(node: Node<T>, path: &Path) -> Option<Node<T>>
    requires { 5 ≤ length path.now }
    ensures { MatchOption result (HasNoChild path.now node) (λ c. IsChild path.now node c) }
{
    let Node {
        skip,
        levels,
        branch,
    } = node;
    if levels == 0 {
        return child_of_branch(branch, path);
    }
    let below = levels - 1;
    if ((skip >> (5 * below)) % 32) as u8 != path.five() {
        return None;
    }
    Some(Node {
        skip: low_bits(skip, 5 * below),
        levels: below,
        branch,
    })
}

impl<T: Drop> Frame<T> for OwnedFrame<T> {
    type Node = Node<T>;

    type Given = T;

    ghost seen = { λ n. n };

    ghost value = { λ v. v };

    ghost left = { λ f. f };

    #[inline]
    fn bits(&self) -> u8 {
        self.bits
    }

    /// The rest of the node is dropped.
    fn child(node: Node<T>, path: &Path) -> Option<Node<T>> {
        child_of_node(node, path)
    }

    fn whole(node: Node<T>) -> OwnedFrame<T> {
        let (values, children) = parts(node);
        OwnedFrame {
            values,
            children,
            bits: 5,
        }
    }

    /// The others are dropped.
    fn inside(node: Node<T>, path: &Path) -> OwnedFrame<T> {
        let (values, children) = parts(node);
        let (len, place, child) = (path.len(), path.place(), path.five());
        OwnedFrame {
            values: values.from(place).before(place + (31 >> len)),
            children: children.from(child).before(child + (32 >> len)),
            bits: 5,
        }
    }

    fn next(&mut self, way: &Path) -> Next<T, OwnedFrame<T>> {
        if value_first(self.values.first_place(), self.children.first_place()) {
            let Some((place, value)) = self.values.next() else {
                unreachable!()
            };
            let key = way.with(first_child(place), place_length(place));
            return Next::Entry(key, value);
        }
        let Some((child, node)) = self.children.next() else {
            return Next::Nothing;
        };
        let (below, way) = opened(node, child, way);
        Next::Below(below, way)
    }
}

impl<T: Drop> FrameStack<T> for ArrayVec<OwnedFrame<T>, 26> {
    type Frame = OwnedFrame<T>;

    ghost frames = { λ s. s.items };

    fn empty() -> ArrayVec<OwnedFrame<T>, 26> {
        ArrayVec::new()
    }

    #[inline(always)]
    fn next(&mut self, way: &Path) -> Option<Next<T, OwnedFrame<T>>> {
        next_of_last(self.as_mut_slice(), way)
    }

    fn pop(&mut self) -> Option<OwnedFrame<T>> {
        ArrayVec::pop(self)
    }

    fn push(&mut self, frame: OwnedFrame<T>) {
        ArrayVec::push(self, frame)
    }
}
