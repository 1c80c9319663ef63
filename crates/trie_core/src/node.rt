//! A node of the trie: at most five skipped levels of five bits each, and then a branch. A branch covers five levels of bits. It has the
//! values at strings of fewer than five bits and the children at five bits.
ghost use Rattle.std.specs.Prelude.{ℕ, ◌≡◌, ◌+◌, ◌*◌, ◌/◌, ◌<◌, ◌≤◌, ◌^◌, length, Some, None, IsTrue, ◌↔◌, MatchOption, false, ◌-◌, option_copied, IsSome};
ghost use Rattle.std.specs.FinMap as map;
ghost use Rattle.trie_core.specs.InnerNodes.{HasSlots};
ghost use Rattle.trie_core.specs.InnerPlaces.{place_string, IsLastPlace};
ghost use Rattle.trie_core.specs.InnerSearch.{IsChild, HasNoChild, NoneBelow, IsLongestAt};
ghost use Rattle.trie_core.specs.InnerMatches.{IsMatch};
ghost use Rattle.trie_core.specs.Inside.{NothingInside};
ghost use Rattle.trie_core.specs.InnerRemovedBelow.{IsBare, IsFull};
ghost use Rattle.trie_core.specs.Search.{NoBeginning, IsLongest, IsShortest};
ghost use Rattle.trie_core.specs.InnerChains.{chain, skipped};
ghost use Rattle.trie_core.specs.InnerCount.{all_nodes, spare_count};
ghost use Rattle.trie_core.specs.Count.{visit_count, node_visits};

use crate::insert::shared;
use crate::path::Path;
use crate::slots::{child_at, first_place, last_place, slot, taken_below, value_at};
use crate::tables::{place_length, places_between};
use shape::Shape;
use std::alloc::Global;
use std::marker::Model;

/// A finite map from bit strings to values, and the bit strings of the spare nodes, the nodes that lead to no entry.
///
/// A node without values and with one child is not stored: the node below it skips its level. `skip` has the bits of the skipped levels.
/// Contracts see a node for each level.
#[cycle(node)]
#[derive(Drop)]
pub struct Node<T> {
    pub(crate) skip: u32,
    pub(crate) levels: u8,
    pub(crate) branch: Branch<T>,
}

/// The part of a node below its skipped levels. A bit of `value_bits` or `child_bits` says that there is a value or child at this place.
#[cycle(node)]
#[derive(Drop)]
pub struct Branch<T> {
    pub(crate) child_bits: u32,
    pub(crate) value_bits: u32,
    pub(crate) body: Shape<Node<T>, T>,
}

impl<T> Model for Node<T> {
    ghost use Rattle.std.specs.Prelude.{◌+◌, ◌*◌, ◌≤◌, ◌<◌, ◌^◌};
    ghost use Rattle.std.proofs.Common.{arith};
    ghost use Rattle.trie_core.specs.Nodes.{Seen, code};
    ghost use Rattle.trie_core.specs.InnerChains.{chain, skipped, chain_levels};

    ghost Value = { Seen T };

    ghost coded = { code T.code };

    ghost view = { λ a. chain a.levels (skipped a.levels a.skip) a.branch };

    ghost invariant = { λ a. (a.levels ≤ 5) × (a.skip < 2 ^ (5 * a.levels)) };

    ghost size = { λ s. 2 * s.levels + 1 };

    ghost size_decreases = { λ a h. Prim.omega (arith, chain_levels a.levels (skipped a.levels a.skip) a.branch) };
}

impl<T> Model for Branch<T> {
    ghost use Rattle.std.specs.Prelude.{◌+◌, ◌*◌};
    ghost use Rattle.std.proofs.Common.{arith};
    ghost use Rattle.trie_core.specs.InnerPlaces.{value_list, child_list};
    ghost use Rattle.trie_core.specs.Nodes.{Seen, code};
    ghost use Rattle.trie_core.specs.InnerNodes.{node_map, node_height, HasSlots};
    ghost use Rattle.trie_core.specs.InnerCount.{spare_set};
    ghost use Rattle.shape.specs.Shapes.{shape_values, shape_children};

    ghost Value = { Seen T };

    ghost coded = { code T.code };

    ghost view = { λ a. record { entries = node_map (value_list a.value_bits (shape_values a.body)) (child_list a.child_bits (shape_children a.body)); spares = spare_set (child_list a.child_bits (shape_children a.body)); levels = node_height (shape_children a.body) + 1 } };

    ghost invariant = { λ a. HasSlots a.value_bits (shape_values a.body) a.child_bits (shape_children a.body) };

    ghost size = { λ s. 2 * s.levels };

    ghost use Rattle.trie_core.specs.InnerFalls.{body_falls};

    ghost size_decreases = { λ a h. Prim.omega (arith, body_falls a.body) };
}

/// The best match of a search so far. The value is read only once, at the end of the search.
#[derive(Drop)]
pub(crate) struct Best<'a, T> {
    /// The branch with the match.
    branch: &'a Branch<T>,
    /// The places of its keys that are prefixes of the path. The last is the match, and zero means that there is none.
    found: u32,
    /// The number of bits of the path from this branch on.
    left: u32,
}

impl<'a, T> Best<'a, T> {
    /// Returns the best match if there are these keys in the next branch.
    #[inline]
    fn or_better(self, branch: &'a Branch<T>, found: u32, left: u32) -> Best<'a, T>
        ensures same { found ≡ 0 → result ≡ self.entry }
        ensures better { 0 < found → (result.branch.now ≡ branch.now) × (result.found ≡ found) × (result.left ≡ left) }
    {
        if found == 0 {
            return self;
        }
        Best {
            branch,
            found,
            left,
        }
    }

    /// Returns the length of the match with its value, for a path of `len` bits.
    #[inline]
    fn into_match(self, len: u8) -> Option<(u8, &'a T)>
        requires within { (self.left ≤ len) × (len ≤ 128) }
        requires stored { (n : ℕ) → IsLastPlace self.found n → (n < 31) × IsSome (map.get self.branch.now.entries (place_string n)) }
        ensures { MatchOption result (self.entry.found ≡ 0) (λ r. IsMatch self.entry len r.0 r.1.now) }
    {
        if self.found == 0 {
            return None;
        }
        let place = last_place(self.found);
        let branch = self.branch;
        Some((
            (u32::from(len) - self.left) as u8 + place_length(place),
            branch.value_of(place),
        ))
    }
}

impl<T> Branch<T> {
    /// Returns whether the branch has neither values nor children.
    pub(crate) fn is_bare(&self) -> bool
        ensures bare { IsTrue result → IsBare self.now }
        ensures full { result ≡ false → IsFull self.now }
    {
        self.value_bits == 0 && self.child_bits == 0
    }

    /// Returns the allocator of the branch's lists.
    pub(crate) fn allocator(&self) -> Global {
        self.body.allocator()
    }

    /// Returns the places of the keys of fewer than five bits that are prefixes of the path.
    #[inline]
    fn keys_on(&self, path: &Path) -> u32
        ensures none { result ≡ 0 → NoneBelow self.now.entries path.now 5 }
        ensures last { (n : ℕ) → IsLastPlace result n → IsLongestAt self.now.entries path.now n }
    {
        self.value_bits & path.beginnings()
    }

    /// Returns the value at the place of a key.
    #[inline]
    fn value_of(&self, place: u8) -> &T
        requires below { place < 31 }
        requires stored { IsSome (map.get self.now.entries (place_string place)) }
        ensures { map.get self.now.entries (place_string place) ≡ Some result.now }
    {
        let Some(at) = slot(self.value_bits, place) else {
            unreachable!()
        };
        self.body.value(at)
    }

    /// Returns the shortest key of fewer than five bits that is a prefix of the path, with its value.
    #[inline]
    fn shortest_here(&self, path: &Path) -> Option<(u8, &T)>
        ensures { MatchOption result (NoneBelow self.now.entries path.now 5) (λ r. (r.0 < 5) × IsShortest self.now.entries path.now r.0 r.1.now) }
    {
        let found = self.value_bits & path.beginnings();
        if found == 0 {
            return None;
        }
        let place = first_place(found);
        let at = taken_below(self.value_bits, place);
        Some((place_length(place), self.body.value(at)))
    }

    /// Returns the value at a string of fewer than five bits.
    #[inline]
    fn value(&self, path: &Path) -> Option<&T>
        requires { length path.now < 5 }
        ensures { option_copied result ≡ map.get self.now.entries path.now }
    {
        value_at(self.value_bits, &self.body, path.place())
    }

    /// Returns whether no key and no spare node is strictly inside a path of fewer than five bits.
    #[inline]
    pub(crate) fn is_leaf_here(&self, path: &Path) -> bool
        requires { length path.now < 5 }
        ensures { IsTrue result ↔ (NothingInside self.now.entries path.now × NothingInside self.now.spares path.now) }
    {
        let (len, place, child) = (path.len(), path.place(), path.five());
        let values = places_between(place + 1, place + (31 >> len));
        let children = places_between(child, child + (32 >> len));
        self.value_bits & values == 0 && self.child_bits & children == 0
    }

    /// Returns the child at the first five bits of the path.
    #[inline]
    pub(crate) fn child(&self, path: &Path) -> Option<&Node<T>>
        requires { 5 ≤ length path.now }
        ensures { MatchOption result (HasNoChild path.now self.now) (λ c. IsChild path.now self.now c.now) }
    {
        child_at(self.child_bits, &self.body, path.five())
    }
}

impl<T> Node<T> {
    /// Returns the value at the path.
    pub fn get(&self, path: Path) -> Option<&T>
        ensures { option_copied result ≡ map.get self.now.entries path }
    {
        let mut node = self;
        let mut path = path;
        'way: while path.starts(node.skip, node.levels) {
            let branch = &node.branch;
            path = path.past(node.levels);
            if path.is_short() {
                return branch.value(&path);
            }
            match branch.child(&path) {
                None => return None,
                Some(child) => node = child,
            }
            path = path.rest();
        }
        None
    }

    /// Returns the length of the longest key that is a prefix of the path or the path itself, with its value. It is inlined, so that the path
    /// and the result stay in registers.
    #[inline(always)]
    pub fn longest(&self, path: Path) -> Option<(u8, &T)>
        requires { length path ≤ 128 }
        ensures { MatchOption result (NoBeginning self.now.entries path) (λ r. IsLongest self.now.entries path r.0 r.1.now) }
    {
        let len = path.len();
        let mut best = Best {
            branch: &self.branch,
            found: 0,
            left: 0,
        };
        let mut node = self;
        let mut path = path;
        'way: while path.starts(node.skip, node.levels) {
            let branch = &node.branch;
            path = path.past(node.levels);
            best = best.or_better(branch, branch.keys_on(&path), u32::from(path.len()));
            if path.is_short() {
                return best.into_match(len);
            }
            match branch.child(&path) {
                None => return best.into_match(len),
                Some(child) => node = child,
            }
            path = path.rest();
        }
        best.into_match(len)
    }

    /// Returns the length of the shortest key that is a prefix of the path or the path itself, with its value.
    pub fn shortest(&self, path: Path) -> Option<(u8, &T)>
        requires { length path ≤ 128 }
        ensures { MatchOption result (NoBeginning self.now.entries path) (λ r. IsShortest self.now.entries path r.0 r.1.now) }
    {
        let mut node = self;
        let mut path = path;
        let mut depth = 0;
        'way: while path.starts(node.skip, node.levels) {
            let branch = &node.branch;
            path = path.past(node.levels);
            depth += 5 * node.levels;
            if let Some((len, value)) = branch.shortest_here(&path) {
                return Some((depth + len, value));
            }
            if path.is_short() {
                return None;
            }
            match branch.child(&path) {
                None => return None,
                Some(child) => node = child,
            }
            path = path.rest();
            depth += 5;
        }
        None
    }
}

impl<T> Branch<T> {
    /// Makes the branch of the empty map.
    pub(crate) fn new(alloc: Global) -> Branch<T>
        ensures map { result.entries ≡ map.empty }
        ensures spares { result.spares ≡ map.empty }
        ensures levels { result.levels ≡ 1 }
    {
        Branch {
            body: Shape::new(alloc),
            child_bits: 0,
            value_bits: 0,
        }
    }
}

impl<T> Node<T> {
    /// Makes the node of the empty map.
    pub fn new(alloc: Global) -> Node<T>
        ensures map { result.entries ≡ map.empty }
        ensures spares { result.spares ≡ map.empty }
        ensures levels { result.levels ≡ 1 }
    {
        Node {
            skip: 0,
            levels: 0,
            branch: Branch::new(alloc),
        }
    }

    /// Returns the number of nodes that a search for the path enters. Each skipped level counts as a node.
    pub fn visits(&self, path: Path) -> u8
        requires { length path ≤ 128 }
        ensures bound { result ≤ length path / 5 + 1 }
        ensures all { result ≡ node_visits self.now.entries self.now.spares path }
        ensures tidy { self.now.spares ≡ map.empty → result ≡ visit_count self.now.entries path }
    {
        let mut node = self;
        let mut path = path;
        let mut visits = 1;
        'way: while path.starts(node.skip, node.levels) {
            let branch = &node.branch;
            path = path.past(node.levels);
            visits += node.levels;
            if path.is_short() {
                return visits;
            }
            match branch.child(&path) {
                None => return visits,
                Some(child) => node = child,
            }
            path = path.rest();
            visits += 1;
        }
        visits + shared(&path, node.skip, node.levels)
    }

    /// Returns whether no key and no spare node is strictly inside the path: no longer key begins with it, and no spare node is below it.
    pub fn is_leaf(&self, path: Path) -> bool
        ensures { IsTrue result ↔ (NothingInside self.now.entries path × NothingInside self.now.spares path) }
    {
        let mut node = self;
        let mut path = path;
        'way: while path.starts(node.skip, node.levels) {
            let branch = &node.branch;
            path = path.past(node.levels);
            if path.is_short() {
                return branch.is_leaf_here(&path);
            }
            match branch.child(&path) {
                None => return true,
                Some(child) => node = child,
            }
            path = path.rest();
        }
        // A path that ends inside the skipped levels has the branch below it.
        !path.ends_in(node.skip, node.levels)
    }

    /// Returns whether the node has neither values nor nodes below it.
    pub fn is_bare(&self) -> bool
        ensures bare { IsTrue result ↔ ((self.now.entries ≡ map.empty) × (spare_count self.now ≡ 0)) }
        ensures count { IsTrue result → all_nodes self.now ≡ 1 }
    {
        let branch = &self.branch;
        self.levels == 0 && branch.is_bare()
    }
}
