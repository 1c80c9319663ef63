//! Insertion: the way down to the value, and the nodes that it makes and splits.
ghost use Rattle.std.specs.Prelude.{◌≡◌, ◌+◌, ◌*◌, ◌/◌, ◌<◌, ◌≤◌, ◌^◌, length, Some, None, IsTrue, ◌↔◌, false, ◌-◌, IfNone, IfSome, IfOk, IfErr, OnErr, OnOk, max, IsSome};
ghost use Rattle.std.specs.FinMap as map;
ghost use Rattle.trie_core.specs.InnerInsertedBelow.{IsStored, bare};
ghost use Rattle.trie_core.specs.Inside.{NothingInside};
ghost use Rattle.trie_core.specs.InnerSearch.{HasNoChild, IsLeaf};
ghost use Rattle.trie_core.specs.InnerPaths.{IsAligned};
ghost use Rattle.trie_core.specs.Prefixes.{prefix_bits};
ghost use Rattle.trie_core.specs.InnerChains.{chain, skipped, Starts};
ghost use Rattle.trie_core.specs.InnerCount.{all_nodes};
ghost use Rattle.trie_core.specs.Ways.{off_way};

use crate::node::{Branch, Node};
use crate::path::Path;
use crate::slots::{low_bits, put_child, put_value, slot};
use crate::tables::bit;
use shape::Shape;
use std::alloc::Global;
use std::mem;

/// An insertion on its way down, and then its result. Only a pointer to it goes from level to level.
#[derive(Drop)]
pub(crate) struct Insertion<T> {
    /// The value to store, and then the old value.
    held: Option<T>,
    /// Whether a new entry may be stored.
    may_grow: bool,
    /// The most new nodes.
    room: usize,
    /// The number of new nodes.
    made: usize,
    /// Whether the path is a leaf, as `Node::is_leaf` returns it.
    is_leaf: bool,
}

impl<T: Drop> Node<T> {
    /// Stores the value. Returns the old value, the number of new nodes, and whether the path is a leaf, as `is_leaf` returns it.
    ///
    /// A new entry is stored only if `may_grow` allows one more entry, and with at most `room` new nodes, of which each skipped level is
    /// one. Memory for a new node is allocated before the node is made. The nodes below a new node are made before it is linked.
    ///
    /// # Errors
    /// `Err` returns the value, and the node is unchanged. It never happens if the path has a value. Otherwise it happens if `may_grow` is
    /// false, if more than `room` new nodes are needed, or if an allocation fails.
    pub fn insert(
        &mut self,
        path: Path,
        value: T,
        may_grow: bool,
        room: usize,
    ) -> Result<(Option<T>, usize, bool), T>
        // On success `value` is stored, the old value is returned, and no node on the path is spare any more.
        ensures old { IfOk result (λ r. r.0 ≡ map.get self.old.entries path) }
        ensures map { OnOk result (self.new.entries ≡ map.insert self.old.entries path value) }
        ensures spares { OnOk result (self.new.spares ≡ off_way self.old.spares path) }

        // On success the number of new nodes is returned; the levels are at most the old ones or those of the path.
        ensures count { IfOk result (λ r. all_nodes self.new ≡ all_nodes self.old + r.1) }
        ensures levels { OnOk result (self.new.levels ≤ max self.old.levels (length path / 5 + 1)) }

        // On success the last result says whether no key or spare node is strictly inside the path.
        ensures leaf { IfOk result (λ r. IsTrue r.2 ↔ (NothingInside self.new.entries path × NothingInside self.new.spares path)) }

        // On success there are at most `room` new nodes, and a new entry only if `may_grow` allows it.
        ensures within { IfOk result (λ r. r.1 ≤ room) }
        ensures grows { IfOk result (λ r. r.0 ≡ None → IsTrue may_grow) }

        // On failure the node is unchanged, the path has no value, and `value` is returned.
        ensures unchanged { OnErr result (self.new ≡ self.old) }
        ensures absent { OnErr result (map.get self.old.entries path ≡ None) }
        ensures value_returned { IfErr result (λ v. v ≡ value) }
    {
        let mut insertion = Insertion {
            held: Some(value),
            may_grow,
            room,
            made: 0,
            is_leaf: false,
        };
        let (bits, len) = path.parts();
        let is_stored = self.insert_below(bits, len, &mut insertion);
        let Insertion {
            held,
            made,
            is_leaf,
            ..
        } = insertion;
        if is_stored {
            return Ok((held, made, is_leaf));
        }
        match held {
            Some(value) => Err(value),
            None => unreachable!(),
        }
    }
}

/// Returns how many levels of the path a node skips: at most five, and none of the last bits.
#[inline]
fn skippable(path: &Path) -> u8
    ensures few { result ≤ 5 }
    ensures within { 5 * result ≤ length path.now }
{
    let depth = path.depth();
    if depth < 5 { depth } else { 5 }
}

/// Returns how many of the skipped levels the path begins with. The last one doesn't count.
pub(crate) fn shared(path: &Path, skip: u32, levels: u8) -> u8
    requires levels { (0 < levels) × (levels ≤ 5) }
    requires skip { skip < 2 ^ (5 * levels) }
    ensures fewer { result < levels }
    ensures starts { Starts result (skip / 2 ^ (5 * (levels - result))) path.now }
    ensures most { result + 1 < levels → Starts (result + 1) (skip / 2 ^ (5 * (levels - result - 1))) path.now → ⊥ }
{
    let mut count = 0;
    'level: while count + 1 < levels && path.starts(skip >> (5 * (levels - count - 1)), count + 1) {
        count += 1;
    }
    count
}

/// Splits a node after its first `at` skipped levels. Returns the bits of these levels, and a branch whose only child has the levels after
/// the next one.
///
/// # Errors
/// The branch, if the allocation fails.
fn split<T: Drop>(
    skip: u32,
    levels: u8,
    branch: Branch<T>,
    at: u8,
) -> Result<(u32, Branch<T>), Branch<T>>
    requires levels { (at < levels) × (levels ≤ 5) }
    requires skip { skip < 2 ^ (5 * levels) }
    ensures high { IfOk result (λ r. r.0 ≡ skip / 2 ^ (5 * (levels - at))) }
    ensures same { IfOk result (λ r. chain at (skipped at r.0) r.1 ≡ chain levels (skipped levels skip) branch) }
    ensures back { IfErr result (λ b. b ≡ branch) }
{
    let below = levels - at - 1;
    let alloc = branch.allocator();
    let mut body = Shape::new(alloc);
    if body.reserve_child(2).is_err() {
        return Err(branch);
    }
    let number = ((skip >> (5 * below)) % 32) as u8;
    let low = Node {
        skip: low_bits(skip, 5 * below),
        levels: below,
        branch,
    };
    body.insert_child(0, low);
    let branch = Branch {
        body,
        child_bits: bit(number),
        value_bits: 0,
    };
    Ok((skip >> (5 * (below + 1)), branch))
}

/// Splits a node whose skipped levels the path leaves, so that the path begins with the levels that are left. Contracts see no change.
/// Returns whether it is split; if not, the allocation failed.
#[inline(never)]
fn part<T: Drop>(
    skip: &mut u32,
    levels: &mut u8,
    branch: &mut Branch<T>,
    bits: u128,
    len: u8,
) -> bool
    requires levels { levels.old ≤ 5 }
    requires skip { skip.old < 2 ^ (5 * levels.old) }
    requires path { IsAligned bits len }
    requires leaves { Starts levels.old skip.old (prefix_bits 128 bits len) → ⊥ }
    ensures levels { levels.new ≤ 5 }
    ensures skip { skip.new < 2 ^ (5 * levels.new) }
    ensures same { chain levels.new (skipped levels.new skip.new) branch.new ≡ chain levels.old (skipped levels.old skip.old) branch.old }
    ensures starts { IsTrue result → Starts levels.new skip.new (prefix_bits 128 bits len) }
{
    let at = shared(&Path::of_parts(bits, len), *skip, *levels);
    let alloc = branch.allocator();
    let whole = mem::replace(branch, Branch::new(alloc));
    match split(*skip, *levels, whole, at) {
        Err(whole) => {
            *branch = whole;
            false
        }
        Ok((high, upper)) => {
            *branch = upper;
            *skip = high;
            *levels = at;
            true
        }
    }
}

/// Returns whether the path begins with the skipped levels of the node, which is split for this if it may grow.
#[inline]
fn leads<T: Drop>(
    skip: &mut u32,
    levels: &mut u8,
    branch: &mut Branch<T>,
    path: &Path,
    may_grow: bool,
) -> bool
    requires levels { levels.old ≤ 5 }
    requires skip { skip.old < 2 ^ (5 * levels.old) }
    ensures levels { levels.new ≤ 5 }
    ensures skip { skip.new < 2 ^ (5 * levels.new) }
    ensures same { chain levels.new (skipped levels.new skip.new) branch.new ≡ chain levels.old (skipped levels.old skip.old) branch.old }
    ensures starts { IsTrue result → Starts levels.new skip.new path.now }
    ensures leaves { result ≡ false → Starts levels.old skip.old path.now → ⊥ }
{
    if path.starts(*skip, *levels) {
        return true;
    }
    if !may_grow {
        return false;
    }
    let (bits, len) = path.parts();
    part(skip, levels, branch, bits, len)
}

impl<T: Drop> Node<T> {
    /// Exchanges the held value with the value at the path of these bits, if there is one. Returns whether it is stored; if not, nothing
    /// changes.
    ///
    /// The compiler makes a loop of this recursion. So the path is two numbers, and functions with variables in memory are not inlined.
    #[cycle(store)]
    pub(crate) fn insert_below(&mut self, bits: u128, len: u8, insertion: &mut Insertion<T>) -> bool
        requires path { IsAligned bits len }
        requires held { IsSome insertion.old.held }
        ensures stored { IsTrue result → IsStored (prefix_bits 128 bits len) insertion.old insertion.new self.old self.new }
        ensures leaf { IsTrue result → IsTrue insertion.new.is_leaf ↔ IsLeaf self.new (prefix_bits 128 bits len) }
        ensures unchanged { result ≡ false → self.new ≡ self.old }
        ensures absent { result ≡ false → map.get self.old.entries (prefix_bits 128 bits len) ≡ None }
        ensures held { result ≡ false → insertion.new.held ≡ insertion.old.held }
    {
        let path = Path::of_parts(bits, len);
        let may_grow = insertion.may_grow;
        if !leads(
            &mut self.skip,
            &mut self.levels,
            &mut self.branch,
            &path,
            may_grow,
        ) {
            return false;
        }
        let branch = &mut self.branch;
        branch.store(path.past(self.levels), insertion)
    }
}

impl<T: Drop> Branch<T> {
    /// `insert_below` in a branch.
    #[cycle(store)]
    #[inline(always)]
    fn store(&mut self, path: Path, insertion: &mut Insertion<T>) -> bool
        requires held { IsSome insertion.old.held }
        ensures stored { IsTrue result → IsStored path insertion.old insertion.new self.old self.new }
        ensures leaf { IsTrue result → IsTrue insertion.new.is_leaf ↔ IsLeaf self.new path }
        ensures unchanged { result ≡ false → self.new ≡ self.old }
        ensures absent { result ≡ false → map.get self.old.entries path ≡ None }
        ensures held { result ≡ false → insertion.new.held ≡ insertion.old.held }
    {
        if path.is_short() {
            let (bits, len) = path.parts();
            return self.store_here(bits, len, insertion);
        }
        if let Some(at) = slot(self.child_bits, path.five()) {
            let child = self.body.child_mut(at);
            let (bits, len) = path.rest().parts();
            return child.insert_below(bits, len, insertion);
        }
        let (bits, len) = path.parts();
        self.store_below(bits, len, insertion)
    }

    /// `store` in a new child.
    #[cycle(below)]
    #[inline(never)]
    fn store_below(&mut self, bits: u128, len: u8, insertion: &mut Insertion<T>) -> bool
        requires path { IsAligned bits len }
        requires long { 5 ≤ len }
        requires free { HasNoChild (prefix_bits 128 bits len) self.old }
        requires held { IsSome insertion.old.held }
        ensures stored { IsTrue result → IsStored (prefix_bits 128 bits len) insertion.old insertion.new self.old self.new }
        ensures leaf { IsTrue result → IsTrue insertion.new.is_leaf ↔ IsLeaf self.new (prefix_bits 128 bits len) }
        ensures unchanged { result ≡ false → self.new ≡ self.old }
        ensures absent { result ≡ false → map.get self.old.entries (prefix_bits 128 bits len) ≡ None }
        ensures held { result ≡ false → insertion.new.held ≡ insertion.old.held }
    {
        let path = Path::of_parts(bits, len);
        let number = path.five();
        let None = slot(self.child_bits, number) else {
            unreachable!()
        };
        let rest = path.rest();
        let levels = skippable(&rest);
        let more = usize::from(levels) + 1;
        if !insertion.may_grow || insertion.room < more || self.body.reserve_child(1).is_err() {
            return false;
        }
        insertion.room -= more;
        let alloc = self.body.allocator();
        let Some(branch) = Branch::filled(alloc, rest.past(levels), insertion) else {
            return false;
        };
        insertion.made += more;
        let child = Node {
            skip: rest.head(levels),
            levels,
            branch,
        };
        put_child(&mut self.child_bits, &mut self.body, number, child);
        true
    }

    /// Makes a branch with the held value at the path, and no other.
    #[cycle(below)]
    #[inline]
    fn filled(alloc: Global, path: Path, insertion: &mut Insertion<T>) -> Option<Branch<T>>
        requires held { IsSome insertion.old.held }
        requires grows { IsTrue insertion.old.may_grow }
        ensures stored { IfSome result (λ d. IsStored path insertion.old insertion.new bare d) }
        ensures leaf { IfSome result (λ d. IsTrue insertion.new.is_leaf ↔ IsLeaf d path) }
        ensures held { IfNone result (insertion.new.held ≡ insertion.old.held) }
    {
        if !path.is_short() {
            let mut branch = Branch::new(alloc);
            let (bits, len) = path.parts();
            if !branch.store_below(bits, len, insertion) {
                return None;
            }
            return Some(branch);
        }
        let Some(value) = insertion.held.take() else {
            unreachable!()
        };
        let branch = Branch {
            body: Shape::One(value, alloc),
            child_bits: 0,
            value_bits: bit(path.place()),
        };
        insertion.made = 0;
        insertion.is_leaf = branch.is_leaf_here(&path);
        Some(branch)
    }

    /// `store` at a string of fewer than five bits.
    #[inline(never)]
    fn store_here(&mut self, bits: u128, len: u8, insertion: &mut Insertion<T>) -> bool
        requires path { IsAligned bits len }
        requires short { len < 5 }
        requires held { IsSome insertion.old.held }
        ensures stored { IsTrue result → IsStored (prefix_bits 128 bits len) insertion.old insertion.new self.old self.new }
        ensures leaf { IsTrue result → IsTrue insertion.new.is_leaf ↔ IsLeaf self.new (prefix_bits 128 bits len) }
        ensures unchanged { result ≡ false → self.new ≡ self.old }
        ensures absent { result ≡ false → map.get self.old.entries (prefix_bits 128 bits len) ≡ None }
        ensures held { result ≡ false → insertion.new.held ≡ insertion.old.held }
    {
        let path = Path::of_parts(bits, len);
        let Some(value) = insertion.held.take() else {
            unreachable!()
        };
        match put_value(
            &mut self.value_bits,
            &mut self.body,
            path.place(),
            value,
            insertion.may_grow,
        ) {
            Ok(old) => {
                insertion.held = old;
                insertion.made = 0;
                insertion.is_leaf = self.is_leaf_here(&path);
                true
            }
            Err(value) => {
                insertion.held = Some(value);
                false
            }
        }
    }
}
