//! Walks over the entries of a node in order, with owned values. They do not allocate.
ghost use Rattle.std.specs.Prelude.{◌≡◌, ◌≤◌, [], length};
ghost use Rattle.std.specs.FinMap.{entries};
ghost use Rattle.std.specs.FinMap.Entries.{where_key};
ghost use Rattle.std.specs.Iterator.{YieldsFirstBy, item_count};
ghost use Rattle.ipnet_blocks.specs.BitStrings.{bits_cmp, begins};
ghost use Rattle.trie_core.specs.InnerWalks.{KeysWithin};

use crate::node::Node;
use crate::path::Path;
use crate::walk::OwnedFrames;
use std::marker::Model;

/// The rest of a walk over owned values. Entries that it hasn't returned are dropped with it.
#[derive(Drop)]
pub struct OwnedWalk<T: Drop> {
    frames: OwnedFrames<T>,
}

impl<T: Drop> Model for OwnedWalk<T> {
    ghost use Rattle.std.specs.Prelude.{ℕ, List, Bool};
    ghost use Rattle.std.specs.Coded.{coded×, coded_ℕ, coded_list, coded_bool};

    ghost Value = { List (List Bool × T) × ℕ };

    ghost coded = { coded× (coded_list (coded× (coded_list coded_bool) T.code)) coded_ℕ };

    ghost view = { λ a. a.frames };
}

impl<T: Drop> OwnedWalk<T> {
    /// Makes a walk over the entries of a node.
    #[inline]
    pub fn new(node: Node<T>) -> OwnedWalk<T>
        requires levels { node.levels ≤ 26 }
        requires keys { KeysWithin 128 (entries node.entries) }
        ensures { result.0 ≡ entries node.entries }
    {
        OwnedWalk {
            frames: OwnedFrames::whole(node),
        }
    }

    /// Makes a walk over the entries whose keys begin with a path, the path itself included. The other entries are dropped.
    #[inline]
    pub fn inside(node: Node<T>, path: Path) -> OwnedWalk<T>
        requires within { length path ≤ 128 }
        requires levels { node.levels ≤ 26 }
        requires keys { KeysWithin 128 (entries node.entries) }
        ensures { result.0 ≡ where_key bits_cmp (begins path) (entries node.entries) }
    {
        OwnedWalk {
            frames: OwnedFrames::within(node, path),
        }
    }
}

/// The default walk is empty.
impl<T: Drop> Default for OwnedWalk<T> {
    ghost is_default = { λ w. w.0 ≡ [] };

    #[inline]
    fn default() -> OwnedWalk<T> {
        OwnedWalk {
            frames: OwnedFrames::default(),
        }
    }
}

impl<T: Drop> Iterator for OwnedWalk<T> {
    type Item = (Path, T);

    ghost next_gives = { YieldsFirstBy (λ p. p) (λ w. w.0) };

    ghost remaining = { item_count (λ w. w.0) };

    #[inline(always)]
    fn next(&mut self) -> Option<(Path, T)> {
        self.frames.next()
    }
}
