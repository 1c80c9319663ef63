//! Walks over the entries of a node in order, with borrowed values. They do not allocate.
ghost use Rattle.std.specs.Prelude.{◌≡◌, ◌≤◌, [], length, ⊤};
ghost use Rattle.std.specs.FinMap.{entries};
ghost use Rattle.std.specs.FinMap.Entries.{where_key};
ghost use Rattle.std.specs.Iterator.{YieldsFirstBy, item_count};
ghost use Rattle.trie_core.specs.Bits.{is_from};
ghost use Rattle.ipnet_blocks.specs.BitStrings.{bits_cmp, begins};
ghost use Rattle.trie_core.specs.InnerWalks.{KeysWithin};

use crate::lent_frame::LentNode;
use crate::node::Node;
use crate::path::Path;
use crate::walk::LentFrames;
use std::alloc::AllocError;
use std::marker::Model;

/// The rest of a walk over borrowed values.
#[derive(Drop)]
pub struct Walk<'a, T> {
    frames: LentFrames<'a, T>,
}

impl<'a, T> Model for Walk<'a, T> {
    ghost use Rattle.std.specs.Prelude.{ℕ, List, Bool};
    ghost use Rattle.std.specs.Coded.{coded×, coded_ℕ, coded_list, coded_bool};

    ghost Value = { List (List Bool × T) × ℕ };

    ghost coded = { coded× (coded_list (coded× (coded_list coded_bool) T.code)) coded_ℕ };

    ghost view = { λ a. a.frames };
}

impl<'a, T> Walk<'a, T> {
    /// Makes a walk over the entries of a node.
    #[inline]
    pub fn new(node: &'a Node<T>) -> Walk<'a, T>
        requires levels { node.now.levels ≤ 26 }
        requires keys { KeysWithin 128 (entries node.now.entries) }
        ensures { result.0 ≡ entries node.now.entries }
    {
        Walk {
            frames: LentFrames::whole(LentNode::new(node)),
        }
    }

    /// Makes a walk over the entries whose keys begin with a path, the path itself included.
    #[inline]
    pub fn inside(node: &'a Node<T>, path: Path) -> Walk<'a, T>
        requires within { length path ≤ 128 }
        requires levels { node.now.levels ≤ 26 }
        requires keys { KeysWithin 128 (entries node.now.entries) }
        ensures { result.0 ≡ where_key bits_cmp (begins path) (entries node.now.entries) }
    {
        Walk {
            frames: LentFrames::within(LentNode::new(node), path),
        }
    }

    /// Makes a walk over the entries whose keys come after a path, in order; the entry of the path itself too if `inclusive`.
    #[inline]
    pub fn onwards(node: &'a Node<T>, path: Path, inclusive: bool) -> Walk<'a, T>
        requires within { length path ≤ 128 }
        requires levels { node.now.levels ≤ 26 }
        requires keys { KeysWithin 128 (entries node.now.entries) }
        ensures { result.0 ≡ where_key bits_cmp (is_from path inclusive) (entries node.now.entries) }
    {
        Walk {
            frames: LentFrames::onwards(LentNode::new(node), path, inclusive),
        }
    }
}

impl<'a, T> Clone for Walk<'a, T> {
    ghost is_clone = { λ w r. r ≡ w };

    ghost is_infallible = { λ _. ⊤ };

    /// A copy of the walk from its current position. Does not allocate.
    #[inline]
    fn clone(&self) -> Result<Walk<'a, T>, AllocError> {
        Ok(Walk {
            frames: self.frames.clone()?,
        })
    }
}

/// The default walk is empty.
impl<'a, T> Default for Walk<'a, T> {
    ghost is_default = { λ w. w.0 ≡ [] };

    #[inline]
    fn default() -> Walk<'a, T> {
        Walk {
            frames: LentFrames::default(),
        }
    }
}

impl<'a, T> Iterator for Walk<'a, T> {
    type Item = (Path, &'a T);

    ghost next_gives = { YieldsFirstBy (λ p. (p.0, p.1.now)) (λ w. w.0) };

    ghost remaining = { item_count (λ w. w.0) };

    #[inline(always)]
    fn next(&mut self) -> Option<(Path, &'a T)> {
        self.frames.next()
    }
}
