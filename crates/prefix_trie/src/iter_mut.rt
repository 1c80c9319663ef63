//! Iterators that return mutable references to the values of a map, one at a time. They do not allocate.
ghost use Rattle.std.specs.Prelude.{◌≡◌, ◌≤◌, length, false, true, [], ◌&&◌, IfSome, Some, option_map, IsTrue};
ghost use Rattle.std.specs.Borrow.{sem};
ghost use Rattle.std.specs.Option.{IsSome, option_copied_mut};
ghost use Rattle.std.specs.FinMap.{get, entries};
ghost use Rattle.std.specs.FinMap.Entries.{where_key};
ghost use Rattle.std.proofs.Props.{props};
ghost use Rattle.trie_core.specs.Bits.{is_from};
ghost use Rattle.ipnet_blocks.specs.BitStrings.{bits_cmp, begins};
ghost use Rattle.prefix_trie.specs.Maps.{first_key};

use crate::equal::is_same;
use crate::map::PrefixMap;
use crate::prefix::{Prefix, path_of, prefix_of};
use trie_core::{Path, Walk};

/// Whether a path is a prefix of a key.
fn is_begun(path: &Path, key: &Path) -> bool
    requires within { length path.now ≤ 128 }
    requires key_within { length key.now ≤ 128 }
    ensures { result ≡ begins path.now key.now }
{
    path.len() <= key.len() && is_same(path, &Path::new(key.to_bits(), path.len()))
}

/// Lends the values one at a time, made by `iter_mut`, `iter_from_mut` and `children_mut`. It is no `Iterator`: call its `next`. All its
/// keys are inside one bit string.
#[derive(Drop)]
pub struct IterMut<'a, P: Prefix, T> {
    map: &'a mut PrefixMap<P, T>,
    inside: Path,
    next: Option<Path>,
    ghost whole: { length inside ≤ 128 },
    ghost begun: { IfSome next (λ q. begins inside q ≡ true) } by { Prim.hlevel props },
    ghost stored: { IfSome next (λ q. (length q ≤ 128) × (length q ≤ P.R.width) × IsSome (get map.now.entries q)) } by { Prim.hlevel props },
}

/// The result of `values_mut`: an `IterMut`, which also returns the keys on request.
pub type ValuesMut<'a, P, T> = IterMut<'a, P, T>;

impl<P: Prefix, T> PrefixMap<P, T> {
    ghost use Rattle.prefix_trie.specs.IterMut.{lent_map_ref, lent_map, lent_inside, next_bits};

    /// The first key that comes after a path, or the path itself if `inclusive` and stored.
    pub(crate) fn key_from(&self, path: Path, inclusive: bool) -> Option<Path>
        requires { length path ≤ 128 }
        ensures key { result ≡ first_key (where_key bits_cmp (is_from path inclusive) (entries self.now.entries)) }
        ensures stored { IfSome result (λ q. (length q ≤ 128) × (length q ≤ P.R.width) × IsSome (get self.now.entries q)) }
    {
        match Walk::onwards(self.walked(), path, inclusive).next() {
            None => None,
            Some((key, _)) => Some(key),
        }
    }

    /// The first key as in `key_from`, if it is inside a string that is a prefix of the path.
    fn key_within(&self, path: Path, inclusive: bool, inside: &Path) -> Option<Path>
        requires within { length path ≤ 128 }
        requires whole { length inside.now ≤ 128 }
        requires begun { begins inside.now path ≡ true }
        ensures key { result ≡ first_key (where_key bits_cmp (λ k. is_from path inclusive k && begins inside.now k) (entries self.now.entries)) }
        ensures stored { IfSome result (λ q. (length q ≤ 128) × (length q ≤ P.R.width) × IsSome (get self.now.entries q)) }
        ensures begun { IfSome result (λ q. begins inside.now q ≡ true) }
    {
        let Some(key) = self.key_from(path, inclusive) else {
            return None;
        };
        if is_begun(inside, &key) {
            Some(key)
        } else {
            None
        }
    }

    /// Returns mutable references to the values, one at a time, in the order of their keys.
    pub fn iter_mut(&mut self) -> IterMut<'_, P, T>
        ensures same_map { (lent_map_ref result).ghost_name ≡ self.entry.ghost_name }
        ensures unchanged { lent_map result ≡ self.old }
        ensures inside { lent_inside result ≡ [] }
        ensures first { next_bits result ≡ first_key (entries self.old.entries) }
    {
        let inside = Path::new(0, 0);
        let next = self.key_from(Path::new(0, 0), true);
        IterMut {
            map: self,
            inside,
            next,
        }
    }

    /// Returns mutable references to the values, one at a time, in the order of their keys.
    pub fn values_mut(&mut self) -> ValuesMut<'_, P, T>
        ensures same_map { (lent_map_ref result).ghost_name ≡ self.entry.ghost_name }
        ensures unchanged { lent_map result ≡ self.old }
        ensures inside { lent_inside result ≡ [] }
        ensures first { next_bits result ≡ first_key (entries self.old.entries) }
    {
        self.iter_mut()
    }

    /// Returns mutable references to the values of the keys after a prefix, one at a time. If `inclusive`, the prefix's own value, if it is
    /// stored, is the first.
    ///
    /// # Examples
    /// In a map with 10.0.0.0/8 as `first`, and the value 22 at `second`, 10.1.0.0/16; `lent_is` checks the lent value:
    ///
    /// ```rust
    /// lent_is(&rt, map.iter_from_mut(&first, false).next(), 22);
    /// lent_is(&rt, map.iter_from_mut(&second, true).next(), 22);
    /// ```
    pub fn iter_from_mut(&mut self, prefix: &P, inclusive: bool) -> IterMut<'_, P, T>
        requires { IsTrue (P.fits prefix.now) }
        ensures same_map { (lent_map_ref result).ghost_name ≡ self.entry.ghost_name }
        ensures unchanged { lent_map result ≡ self.old }
        ensures inside { lent_inside result ≡ [] }
        ensures first { next_bits result ≡ first_key (where_key bits_cmp (is_from (P.bits prefix.now) inclusive) (entries self.old.entries)) }
    {
        let inside = Path::new(0, 0);
        let next = self.key_from(path_of(prefix), inclusive);
        IterMut {
            map: self,
            inside,
            next,
        }
    }

    /// Returns mutable references to the values of the keys that a prefix contains, itself included, one at a time.
    ///
    /// # Examples
    /// In a map with the first value 1, and no key inside 10.3.0.0/16; `holds` checks a fact, and `lent_is` the lent value:
    ///
    /// ```rust
    /// holds(&rt, map.children_mut(&(0x0a03_0000, 16)).next().is_none());
    /// lent_is(&rt, map.children_mut(&(0, 0)).next(), 1);
    /// ```
    pub fn children_mut(&mut self, prefix: &P) -> IterMut<'_, P, T>
        requires { IsTrue (P.fits prefix.now) }
        ensures same_map { (lent_map_ref result).ghost_name ≡ self.entry.ghost_name }
        ensures unchanged { lent_map result ≡ self.old }
        ensures inside { lent_inside result ≡ P.bits prefix.now }
        ensures first { next_bits result ≡ first_key (where_key bits_cmp (begins (P.bits prefix.now)) (entries self.old.entries)) }
    {
        let inside = path_of(prefix);
        let next = self.key_within(path_of(prefix), true, &inside);
        IterMut {
            map: self,
            inside,
            next,
        }
    }
}

impl<'a, P: Prefix, T> IterMut<'a, P, T> {
    ghost use Rattle.prefix_trie.specs.IterMut.{iter_lends, next_bits, next_value};

    /// Returns the key of the next value; its bits after the prefix are zero.
    pub fn key(&self) -> Option<P>
        ensures key { result ≡ option_map P.of_bits (next_bits self.now) }
        ensures bits { IfSome result (λ k. next_bits self.now ≡ Some (P.bits k)) }
        ensures fits { IfSome result (λ k. IsTrue (P.fits k)) }
    {
        match &self.next {
            None => None,
            Some(path) => Some(prefix_of(path)),
        }
    }

    /// Returns a mutable reference to the next value.
    pub fn next(&mut self) -> Option<&mut T>
        ensures* writes_back { sem 𝓛 (iter_lends P.row T.row P.R.row self.entry result) }
        ensures value { option_copied_mut result ≡ next_value self.old }
    {
        let Some(path) = self.next.take() else {
            return None;
        };
        let after = Path::new(path.to_bits(), path.len());
        self.next = self.map.key_within(after, false, &self.inside);
        Some(self.map.value_mut(&path))
    }
}
