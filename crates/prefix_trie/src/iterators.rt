//! Iterators over the entries of a map from prefixes to values, in the order of a walk. They do not allocate.
//!
//! A prefix comes before the longer prefixes inside it, and the bit 0 comes before 1. The keys that iterators return have zeros after the
//! bits of the prefix. An iterator that owns its entries drops those that it hasn't returned.

use crate::part::{KeyPart, Pair, ValuePart};
use crate::parts::Parts;
use trie_core::{Cover as Way, OwnedWalk, Walk};

/// The iterator of `iter`, `iter_from` and `children`.
pub type Iter<'a, P, T> = Parts<P, T, Walk<'a, T>, Pair>;

/// The iterator of `keys`.
pub type Keys<'a, P, T> = Parts<P, T, Walk<'a, T>, KeyPart>;

/// The iterator of `values`.
pub type Values<'a, P, T> = Parts<P, T, Walk<'a, T>, ValuePart>;

/// The iterator of `cover`: the entries whose keys contain a prefix, shortest key first.
pub type Cover<'a, P, T> = Parts<P, T, Way<'a, T>, Pair>;

/// The iterator of `cover_keys`: the keys that contain a prefix, shortest first.
pub type CoverKeys<'a, P, T> = Parts<P, T, Way<'a, T>, KeyPart>;

/// The iterator of `cover_values`: the values whose keys contain a prefix, shortest key first.
pub type CoverValues<'a, P, T> = Parts<P, T, Way<'a, T>, ValuePart>;

/// The iterator of `into_iter` and `into_children`: owned entries.
pub type IntoIter<P, T> = Parts<P, T, OwnedWalk<T>, Pair>;

/// The iterator of `into_keys`: owned keys. The values are dropped.
pub type IntoKeys<P, T> = Parts<P, T, OwnedWalk<T>, KeyPart>;

/// The iterator of `into_values`: owned values, in the order of their keys.
pub type IntoValues<P, T> = Parts<P, T, OwnedWalk<T>, ValuePart>;
