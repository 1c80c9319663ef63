//! The iterator over a part of each entry that a walk has left.
ghost use Rattle.std.specs.Prelude.{◌≡◌, [], ⊤};
ghost use Rattle.std.specs.Iterator.{item_count};
ghost use Rattle.trie_core.specs.InnerWalks.{KeysWithin};
ghost use Rattle.prefix_trie.specs.Iterators.{GivesItem};

use crate::entry_walk::{BorrowedWalk, EntryWalk};
use crate::part::{Pair, Part};
use crate::prefix::Prefix;
use std::alloc::AllocError;
use std::marker::{Model, PhantomData};

/// The entries that a walk has left; `S` selects the part that is returned.
#[derive(Drop)]
pub struct Parts<P: Prefix, T, W: EntryWalk<T>, S: Part<P, T, W>> {
    walk: W,
    keys: PhantomData<P>,
    values: PhantomData<T>,
    part: PhantomData<S>,
}

impl<P: Prefix, T, W: EntryWalk<T>, S: Part<P, T, W>> Model for Parts<P, T, W, S> {
    ghost use Rattle.std.specs.Prelude.{List};
    ghost use Rattle.std.specs.Coded.{coded_list};
    ghost use Rattle.trie_core.specs.InnerWalks.{KeysWithin};

    ghost Value = { List S.Seen };

    ghost coded = { coded_list S.Seen.code };

    ghost view = { λ a. S.seen (W.left a.walk) };

    ghost invariant = { λ a. KeysWithin P.R.width (W.left a.walk) };
}

impl<P: Prefix, T, W: EntryWalk<T>, S: Part<P, T, W>> Parts<P, T, W, S> {
    /// Makes the iterator over the rest of a walk.
    pub(crate) fn new(walk: W) -> Parts<P, T, W, S>
        requires { KeysWithin P.R.width (W.left walk) }
        ensures { result ≡ S.seen (W.left walk) }
    {
        Parts {
            walk,
            keys: PhantomData,
            values: PhantomData,
            part: PhantomData,
        }
    }

    /// Makes the iterator over the rest of another iterator.
    pub(crate) fn of_entries(entries: Parts<P, T, W, Pair>) -> Parts<P, T, W, S>
        ensures { result ≡ S.seen entries }
    {
        Parts::new(entries.walk)
    }
}

impl<P: Prefix, T, W: EntryWalk<T>, S: Part<P, T, W>> Iterator for Parts<P, T, W, S> {
    type Item = S::Item;

    ghost next_gives = { GivesItem S.is_first };

    ghost remaining = { item_count (λ it. it) };

    #[inline(always)]
    fn next(&mut self) -> Option<S::Item> {
        match self.walk.next_entry() {
            None => None,
            Some((path, value)) => Some(S::of_entry(path, value)),
        }
    }
}

impl<P: Prefix, T, W: BorrowedWalk<T>, S: Part<P, T, W>> Clone for Parts<P, T, W, S> {
    ghost is_clone = { λ it r. r ≡ it };

    ghost is_infallible = { λ _. ⊤ };

    /// A copy of the iterator from its current position. Does not allocate.
    ///
    /// # Examples
    /// The copy and the iterator return the same rest, as the digits of a number that `digits` makes:
    ///
    /// ```rust
    /// let mut entries = map.into_iter();
    /// is_equal(rt, entries.next().is_some(), true);
    /// let copy = entries.clone().expect(rt, "a copy");
    /// is_equal(rt, digits(copy), wanted);
    /// is_equal(rt, digits(entries), wanted);
    /// ```
    fn clone(&self) -> Result<Parts<P, T, W, S>, AllocError> {
        Ok(Parts {
            walk: self.walk.clone()?,
            keys: PhantomData,
            values: PhantomData,
            part: PhantomData,
        })
    }
}

impl<P: Prefix, T, W: BorrowedWalk<T>, S: Part<P, T, W>> Default for Parts<P, T, W, S> {
    ghost is_default = { λ it. it ≡ [] };

    /// The default is an iterator without items.
    fn default() -> Parts<P, T, W, S> {
        Parts {
            walk: W::default(),
            keys: PhantomData,
            values: PhantomData,
            part: PhantomData,
        }
    }
}
