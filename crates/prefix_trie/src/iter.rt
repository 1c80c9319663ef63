//! Iterators over the entries of a map. They do not allocate.
ghost use Rattle.std.specs.Prelude.{◌≡◌, ◌≤◌, IsTrue};
ghost use Rattle.std.specs.FinMap.{entries, keys, values};
ghost use Rattle.std.specs.FinMap.Entries.{where_key};
ghost use Rattle.trie_core.specs.Bits.{is_from};
ghost use Rattle.ipnet_blocks.specs.BitStrings.{bits_cmp, begins};
ghost use Rattle.trie_core.specs.InnerWalks.{KeysWithin};

use crate::iterators::{Iter, Keys, Values};
use crate::map::PrefixMap;
use crate::prefix::{Prefix, path_of};
use ipnet_addr::key::Key;
use trie_core::{Node, Walk};

impl<'a, P: Prefix, T> IntoIterator for &'a PrefixMap<P, T> {
    type Item = (P, &'a T);

    type IntoIter = Iter<'a, P, T>;

    ghost into_iter_gives = { λ m r. r ≡ entries m.now.entries };

    fn into_iter(self) -> Iter<'a, P, T> {
        self.iter()
    }
}

impl<P: Prefix, T> PrefixMap<P, T> {
    /// The root node, where walks start.
    pub(crate) fn walked(&self) -> &Node<T>
        ensures map { result.now.entries ≡ self.now.entries }
        ensures levels { result.now.levels ≤ 26 }
        ensures keys { KeysWithin P.R.width (entries result.now.entries) }
        ensures within { KeysWithin 128 (entries result.now.entries) }
    {
        let _width = <P::R as Key>::width();
        &self.root
    }

    /// Returns all entries, in the order of a walk.
    ///
    /// # Examples
    /// In a map with the value 2 at `inner`, 10.1.0.0/16, and the value 1 at `wide`, 10.0.0.0/8:
    ///
    /// ```rust
    /// let mut entries = map.iter();
    /// assert_eq!(rt; entries.next(), Some((wide, &1)));
    /// assert_eq!(rt; entries.next(), Some((inner, &2)));
    /// assert!(rt; entries.next().is_none());
    /// ```
    ///
    /// ```rust
    /// let mut most = 0;
    /// for (_, value) in &map {
    ///     most = most.max(*value);
    /// }
    /// assert_eq!(rt; most, 2);
    /// ```
    pub fn iter(&self) -> Iter<'_, P, T>
        ensures { result ≡ entries self.now.entries }
    {
        Iter::new(Walk::new(self.walked()))
    }

    /// Returns the entries whose keys the prefix contains, its own entry included, in the order of a walk.
    ///
    /// # Examples
    /// In a map with the value 1 at `wide`, 10.0.0.0/8, and the value 2 at `inner`, 10.1.0.0/16:
    ///
    /// ```rust
    /// assert_eq!(rt; map.children(&inner).next(), Some((inner, &2)));
    /// ```
    #[tactic(auto, using(crate::proofs::KeyLengths::keys_where))]
    pub fn children(&self, prefix: &P) -> Iter<'_, P, T>
        requires { IsTrue (P.fits prefix.now) }
        ensures { result ≡ where_key bits_cmp (begins (P.bits prefix.now)) (entries self.now.entries) }
    {
        Iter::new(Walk::inside(self.walked(), path_of(prefix)))
    }

    /// Returns the entries whose keys come after the prefix in the order of a walk. Keys inside the prefix come after it. If `inclusive`,
    /// the prefix's own entry, if it is stored, is the first.
    ///
    /// # Examples
    /// In a map with the value 1 at `wide`, 10.0.0.0/8, and the value 2 at `inner`, 10.1.0.0/16:
    ///
    /// ```rust
    /// assert_eq!(rt; map.iter_from(&wide, false).next(), Some((inner, &2)));
    /// ```
    #[tactic(auto, using(crate::proofs::KeyLengths::keys_where))]
    pub fn iter_from(&self, prefix: &P, inclusive: bool) -> Iter<'_, P, T>
        requires { IsTrue (P.fits prefix.now) }
        ensures { result ≡ where_key bits_cmp (is_from (P.bits prefix.now) inclusive) (entries self.now.entries) }
    {
        Iter::new(Walk::onwards(self.walked(), path_of(prefix), inclusive))
    }

    /// Returns all keys, in the order of a walk.
    ///
    /// # Examples
    /// In a map with 10.0.0.0/8 and two networks inside it; `is_key` compares a key with a text:
    ///
    /// ```rust
    /// is_key(&rt, map.keys().next(), "10.0.0.0/8");
    /// ```
    pub fn keys(&self) -> Keys<'_, P, T>
        ensures { result ≡ keys self.now.entries }
    {
        Keys::of_entries(self.iter())
    }

    /// Returns all values, in the order of their keys.
    ///
    /// # Examples
    /// In a map with the value 1 at 10.0.0.0/8, and the value 2 at 10.1.0.0/16:
    ///
    /// ```rust
    /// assert_eq!(rt; map.values().next(), Some(&1));
    /// ```
    pub fn values(&self) -> Values<'_, P, T>
        ensures { result ≡ values self.now.entries }
    {
        Values::of_entries(self.iter())
    }
}
