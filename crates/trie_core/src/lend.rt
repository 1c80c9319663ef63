//! Mutable access to the value at a key.
ghost use Rattle.std.specs.Prelude.{◌≡◌, ℕ, ◌+◌, ◌*◌, ◌<◌, ◌≤◌, length, Some, IsSome};
ghost use Rattle.std.specs.Borrow.{sem};
ghost use Rattle.std.specs.FinMap as map;
ghost use Rattle.trie_core.specs.InnerLending.{node_lends, branch_lends};

use crate::node::{Branch, Node};
use crate::path::Path;
use crate::slots::slot;
use std::marker::PhantomData;

/// A search for a value that goes down as many branches as the type says. The checker doesn't prove a loan made by a recursion or a
/// loop, but it proves one type for each depth.
pub(crate) trait Descent {
    ghost levels: { ℕ };

    fn value_mut<'a, T>(node: &'a mut Node<T>, path: &Path) -> &'a mut T
        requires within { length path.now < 5 * levels + 5 }
        requires stored { IsSome (map.get node.old.entries path.now) }
        ensures* writes_back { sem 𝓛 (node_lends T.row node.entry path.now result) }
        ensures value { map.get node.old.entries path.now ≡ Some result.now };
}

/// The value is in the branch of the node itself.
pub(crate) struct Here {}

impl Descent for Here {
    ghost levels = { 0 };

    fn value_mut<'a, T>(node: &'a mut Node<T>, path: &Path) -> &'a mut T {
        let rest = path.past(node.levels);
        let branch = &mut node.branch;
        branch.value_here(&rest)
    }
}

/// The value is one branch further down than `D` searches.
pub(crate) struct Below<D: Descent> {
    way: PhantomData<D>,
}

impl<D: Descent> Descent for Below<D> {
    ghost levels = { D.levels + 1 };

    fn value_mut<'a, T>(node: &'a mut Node<T>, path: &Path) -> &'a mut T {
        let rest = path.past(node.levels);
        let branch = &mut node.branch;
        if rest.is_short() {
            return branch.value_here(&rest);
        }
        let Some(at) = slot(branch.child_bits, rest.five()) else {
            unreachable!()
        };
        let child = branch.body.child_mut(at);
        D::value_mut(child, &rest.rest())
    }
}

type Five<D> = Below<Below<Below<Below<Below<D>>>>>;

/// 25 branches below the first, enough for 128 bits.
type Whole = Five<Five<Five<Five<Five<Here>>>>>;

impl<T> Node<T> {
    /// Returns a mutable reference to the value at a stored key.
    pub fn value_mut(&mut self, path: &Path) -> &mut T
        requires within { length path.now ≤ 128 }
        requires stored { IsSome (map.get self.old.entries path.now) }
        ensures* writes_back { sem 𝓛 (node_lends T.row self.entry path.now result) }
        ensures value { map.get self.old.entries path.now ≡ Some result.now }
    {
        Whole::value_mut(self, path)
    }
}

impl<T> Branch<T> {
    /// Returns a mutable reference to the value at a stored key of fewer than five bits.
    fn value_here(&mut self, path: &Path) -> &mut T
        requires short { length path.now < 5 }
        requires stored { IsSome (map.get self.old.entries path.now) }
        ensures* writes_back { sem 𝓛 (branch_lends T.row self.entry path.now result) }
        ensures value { map.get self.old.entries path.now ≡ Some result.now }
    {
        let Some(at) = slot(self.value_bits, path.place()) else {
            unreachable!()
        };
        self.body.value_mut(at)
    }
}
