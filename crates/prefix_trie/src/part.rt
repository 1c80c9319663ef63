//! The part of an entry that an iterator returns: its key, its value, or both.
ghost use Rattle.std.specs.Prelude.{◌≡◌, ◌≤◌, [], ◌∷◌, map, length, List, Bool, refl};
ghost use Rattle.std.proofs.lemmas.List.{length-map};
ghost use Rattle.prefix_trie.specs.Iterators.{IsFirstEntry, IsFirstKey};

use crate::entry_walk::EntryWalk;
use crate::prefix::{Prefix, prefix_of};
use trie_core::Path;

/// A part of an entry: its key, its value, or both.
pub trait Part<P: Prefix, T, W: EntryWalk<T>> {
    /// The item returned for an entry.
    type Item;

    /// An item as contracts see it.
    type Seen;

    /// The items of these entries as contracts see them.
    ghost seen: { List (List Bool × T) → List Self.Seen };

    /// Whether the item is that of the first entry.
    ghost is_first: { List Self.Seen → Self.Item → List Self.Seen → Type 0 };

    /// No entries have no items.
    ghost none: { Self.seen [] ≡ [] };

    /// There are as many items as entries.
    ghost counted: { (es : List (List Bool × T)) → length (Self.seen es) ≡ length es };

    /// Returns the item of an entry.
    fn of_entry(path: Path, value: W::Given) -> Self::Item
        requires { length path ≤ P.R.width }
        ensures { (left : List (List Bool × T)) → is_first (seen ((path, W.value value) ∷ left)) result (seen left) };
}

/// The key and the value of an entry.
pub struct Pair;

/// The key of an entry. The value is dropped.
pub struct KeyPart;

/// The value of an entry.
pub struct ValuePart;

impl<P: Prefix, T, W: EntryWalk<T>> Part<P, T, W> for Pair {
    type Item = (P, W::Given);

    type Seen = (Path, T);

    ghost seen = { λ es. es };

    ghost is_first = { IsFirstEntry P.fits P.bits P.of_bits W.value };

    ghost none = { refl };

    ghost counted = { λ es. refl };

    fn of_entry(path: Path, value: W::Given) -> (P, W::Given) {
        (prefix_of(&path), value)
    }
}

impl<P: Prefix, T, W: EntryWalk<T>> Part<P, T, W> for KeyPart {
    type Item = P;

    type Seen = Path;

    ghost seen = { map (λ e. e.0) };

    ghost is_first = { IsFirstKey P.fits P.bits P.of_bits };

    ghost none = { refl };

    ghost counted = { λ es. length-map es (λ e. e.0) };

    fn of_entry(path: Path, _value: W::Given) -> P {
        prefix_of(&path)
    }
}

impl<P: Prefix, T, W: EntryWalk<T>> Part<P, T, W> for ValuePart {
    type Item = W::Given;

    type Seen = T;

    ghost seen = { map (λ e. e.1) };

    ghost is_first = { λ vs v us. vs ≡ W.value v ∷ us };

    ghost none = { refl };

    ghost counted = { λ es. length-map es (λ e. e.1) };

    fn of_entry(_path: Path, value: W::Given) -> W::Given {
        value
    }
}
