//! The map, its entries and its iterators.
ghost use Rattle.std.specs.Prelude.{◌≡◌, ◌+◌, ◌/◌, ◌≤◌, length, None, Some, IfSome, IfOk, IfErr, IsOk, IsTrue, ◌↔◌, OnErr, OnOk, MatchOption, option_map};
ghost use Rattle.std.specs.Borrow.{sem};
ghost use Rattle.std.specs.Option.{IsSome, option_copied, option_copied_mut};
ghost use Rattle.std.specs.FinMap as map;
ghost use Rattle.trie_core.specs.Count.{nodes, node_visits, visit_count};
ghost use Rattle.trie_core.specs.Ways.{AreIdle, off_way, IsPruned, IsKept};
ghost use Rattle.trie_core.specs.Inside.{NothingInside};
ghost use Rattle.trie_core.specs.InnerWalks.{KeysWithin};
ghost use Rattle.trie_core.specs.Search.{IsLongest, NoBeginning};
ghost use Rattle.prefix_trie.specs.Maps.{IsLongestKey, IsShortestKey};
ghost use Rattle.prefix_trie.specs.Refusals.{no_room};
ghost use Rattle.prefix_trie.specs.Lending.{lends_value, lends_get};
ghost use Rattle.prefix_trie.specs.declared.refused.Refused.TheVariants.{Full};

pub use crate::entry::{Entry, OccupiedEntry, VacantEntry};
pub use crate::iter_mut::{IterMut, ValuesMut};
pub use crate::iterators::{
    Cover, CoverKeys, CoverValues, IntoIter, IntoKeys, IntoValues, Iter, Keys, Values,
};
use crate::prefix::{Prefix, path_of, truncated};
use crate::refused::Refused;
use ipnet_addr::key::Key;
use std::alloc::Global;
use std::marker::{Model, PhantomData};
use trie_core::{Node, Path};

/// A map from prefixes to values. Two prefixes are the same key if their first `prefix_len` bits are equal.
///
/// As in the Rust crate prefix-trie 0.10.1, only these bits of a key are stored: returned keys have zeros after them. A map is tidy if it
/// has no spare nodes, that is, nodes that lead to no entry. Every call but `remove_keep_tree` and `OccupiedEntry::remove` keeps a tidy
/// map tidy. A map is `Send` or `Sync` if its keys and values are.
pub struct PrefixMap<P: Prefix, T> {
    pub(crate) root: Node<T>,
    pub(crate) len: usize,
    pub(crate) nodes: usize,
    pub(crate) keys: PhantomData<P>,
}

/// A destructor of its own, so that a crate that drops a map doesn't check the destructors of the nodes again.
impl<P: Prefix, T: Drop> Drop for PrefixMap<P, T> {
    fn drop(self) {
        let PrefixMap {
            root: _,
            len: _,
            nodes: _,
            keys: _,
        } = self;
    }
}

impl<P: Prefix, T> Model for PrefixMap<P, T> {
    ghost use Rattle.prefix_trie.specs.Seen.{SeenMap, code};
    ghost use Rattle.prefix_trie.specs.InnerRoots.{IsRoot};

    ghost Value = { SeenMap T };

    ghost coded = { code T.code };

    ghost view = { λ a. record { entries = a.root.entries; spares = a.root.spares } };

    ghost invariant = { λ a. IsRoot P.R.width a.len a.nodes a.root };
}

impl<P: Prefix, T> PrefixMap<P, T> {
    /// Makes the empty map. Does not allocate.
    ///
    /// # Errors
    /// None. The `Result` leaves room for an implementation that allocates here.
    ///
    /// # Examples
    /// ```rust
    /// let mut map: PrefixMap<Ipv4Net, u32> = PrefixMap::new(rt.alloc()).expect(&rt, "a map");
    /// ```
    pub fn new(alloc: Global) -> Result<PrefixMap<P, T>, Refused>
        ensures map { IfOk result (λ m. m.entries ≡ map.empty) }
        ensures tidy { IfOk result (λ m. m.spares ≡ map.empty) }
        ensures ok { IsOk result }
    {
        Ok(PrefixMap::empty(alloc))
    }

    /// Makes the empty map.
    pub(crate) fn empty(alloc: Global) -> PrefixMap<P, T>
        ensures map { result.entries ≡ map.empty }
        ensures tidy { result.spares ≡ map.empty }
    {
        PrefixMap {
            root: Node::new(alloc),
            len: 0,
            nodes: 1,
            keys: PhantomData,
        }
    }

    /// Returns the root node, where walks start, owned.
    pub(crate) fn into_root(self) -> Node<T>
        ensures map { result.entries ≡ self.entries }
        ensures levels { result.levels ≤ 26 }
        ensures keys { KeysWithin P.R.width (map.entries result.entries) }
        ensures within { KeysWithin 128 (map.entries result.entries) }
    {
        let _width = <P::R as Key>::width();
        let PrefixMap {
            root,
            len: _,
            nodes: _,
            keys: _,
        } = self;
        root
    }

    /// Returns the number of entries.
    ///
    /// # Examples
    /// In a map with 10.0.0.0/8 and 10.1.0.0/16:
    ///
    /// ```rust
    /// assert_eq!(rt; map.len(), 2);
    /// ```
    pub fn len(&self) -> usize
        ensures { result ≡ map.len self.now.entries }
    {
        self.len
    }

    /// Returns whether the map has no entry.
    ///
    /// # Examples
    /// ```rust
    /// map.clear();
    /// assert!(rt; map.is_empty());
    /// ```
    pub fn is_empty(&self) -> bool
        ensures { IsTrue result ↔ (self.now.entries ≡ map.empty) }
    {
        self.len == 0
    }

    /// Returns the number of nodes, the root included. A tidy map has the root, and one node for each distinct prefix of a key whose
    /// length is positive and divisible by five. Any other map has spare nodes too. Levels that the trie skips count as nodes.
    ///
    /// # Examples
    /// In a map with 10.0.0.0/8, and with the value 2 at `inner`, 10.1.0.0/16:
    ///
    /// ```rust
    /// assert_eq!(rt; map.remove_keep_tree(&inner), Some(2));
    /// assert_eq!(rt; map.node_count(), 4);
    /// ```
    pub fn node_count(&self) -> usize
        ensures all { result ≡ nodes self.now.entries + map.len self.now.spares }
        ensures idle { AreIdle self.now.entries self.now.spares }
        ensures tidy { self.now.spares ≡ map.empty → result ≡ nodes self.now.entries }
    {
        self.nodes
    }

    /// Returns the value at exactly this key.
    ///
    /// # Examples
    /// In a map with 10.0.0.0/8 and with the value 2 at `inner`, 10.1.0.0/16; `host` is 10.1.2.3/32:
    ///
    /// ```rust
    /// assert_eq!(rt; map.get(&inner), Some(&2));
    /// assert_eq!(rt; map.get(&host), None);
    /// ```
    pub fn get(&self, prefix: &P) -> Option<&T>
        requires { IsTrue (P.fits prefix.now) }
        ensures { option_copied result ≡ map.get self.now.entries (P.bits prefix.now) }
    {
        self.root.get(path_of(prefix))
    }

    /// Returns whether exactly this key is stored.
    ///
    /// # Examples
    /// In a map with `inner`, 10.1.0.0/16; `host` is 10.1.2.3/32:
    ///
    /// ```rust
    /// assert!(rt; map.contains_key(&inner) && !map.contains_key(&host));
    /// ```
    pub fn contains_key(&self, prefix: &P) -> bool
        requires { IsTrue (P.fits prefix.now) }
        ensures { IsTrue result ↔ IsSome (map.get self.now.entries (P.bits prefix.now)) }
    {
        self.get(prefix).is_some()
    }

    /// Returns the key, with zeros after the bits of the prefix, and its value.
    ///
    /// # Examples
    /// In a map with the value 2 at `inner`, 10.1.0.0/16; `net` reads a network:
    ///
    /// ```rust
    /// let same = net(&rt, "10.1.2.3/16");
    /// assert_eq!(rt; map.get_key_value(&same), Some((inner, &2)));
    /// ```
    pub fn get_key_value(&self, prefix: &P) -> Option<(P, &T)>
        requires { IsTrue (P.fits prefix.now) }
        ensures value { option_map (λ r. r.1.now) result ≡ map.get self.now.entries (P.bits prefix.now) }
        ensures key { IfSome result (λ r. r.0 ≡ P.of_bits (P.bits prefix.now)) }
        ensures bits { IfSome result (λ r. P.bits r.0 ≡ P.bits prefix.now) }
        ensures fits { IfSome result (λ r. IsTrue (P.fits r.0)) }
    {
        match self.get(prefix) {
            None => None,
            Some(value) => Some((truncated(prefix, prefix.prefix_len()), value)),
        }
    }

    /// Returns the longest key that contains the prefix, possibly the prefix itself, and its value.
    ///
    /// # Examples
    /// In a map with 10.0.0.0/8 and with the value 2 at `inner`, 10.1.0.0/16; `host` is 10.1.2.3/32:
    ///
    /// ```rust
    /// assert_eq!(rt; map.get_lpm(&host), Some((inner, &2)));
    /// ```
    pub fn get_lpm(&self, prefix: &P) -> Option<(P, &T)>
        requires { IsTrue (P.fits prefix.now) }
        ensures { MatchOption result (NoBeginning self.now.entries (P.bits prefix.now)) (λ r. IsLongestKey P.fits P.bits P.of_bits self.now.entries (P.bits prefix.now) r.0 r.1.now) }
    {
        match self.root.longest(path_of(prefix)) {
            None => None,
            Some((len, value)) => Some((truncated(prefix, len), value)),
        }
    }

    /// Returns the length of the longest key that contains the prefix, possibly the prefix itself, and its value. The key is the prefix
    /// cut to this length; it isn't constructed.
    ///
    /// # Examples
    /// In a map with the value 2 at 10.1.0.0/16; `host` is 10.1.2.3/32:
    ///
    /// ```rust
    /// assert_eq!(rt; map.longest_match(&host), Some((16, &2)));
    /// ```
    pub fn longest_match(&self, prefix: &P) -> Option<(u8, &T)>
        requires { IsTrue (P.fits prefix.now) }
        ensures { MatchOption result (NoBeginning self.now.entries (P.bits prefix.now)) (λ r. IsLongest self.now.entries (P.bits prefix.now) r.0 r.1.now) }
    {
        self.root.longest(path_of(prefix))
    }

    /// Returns the longest key that contains the prefix.
    ///
    /// # Examples
    /// In a map with `wide`, 10.0.0.0/8, and `inner`, 10.1.0.0/16; `host` is 10.1.2.3/32:
    ///
    /// ```rust
    /// assert_eq!(rt; map.get_lpm_prefix(&host), Some(inner));
    /// ```
    pub fn get_lpm_prefix(&self, prefix: &P) -> Option<P>
        requires { IsTrue (P.fits prefix.now) }
        ensures { MatchOption result (NoBeginning self.now.entries (P.bits prefix.now)) (λ k. (v : T) × IsLongestKey P.fits P.bits P.of_bits self.now.entries (P.bits prefix.now) k v) }
    {
        match self.root.longest(path_of(prefix)) {
            None => None,
            Some((len, _)) => Some(truncated(prefix, len)),
        }
    }

    /// Returns the shortest key that contains the prefix, possibly the prefix itself, and its value.
    ///
    /// # Examples
    /// In a map with the value 1 at `wide`, 10.0.0.0/8, and with 10.1.0.0/16; `host` is 10.1.2.3/32:
    ///
    /// ```rust
    /// assert_eq!(rt; map.get_spm(&host), Some((wide, &1)));
    /// ```
    pub fn get_spm(&self, prefix: &P) -> Option<(P, &T)>
        requires { IsTrue (P.fits prefix.now) }
        ensures { MatchOption result (NoBeginning self.now.entries (P.bits prefix.now)) (λ r. IsShortestKey P.fits P.bits P.of_bits self.now.entries (P.bits prefix.now) r.0 r.1.now) }
    {
        match self.root.shortest(path_of(prefix)) {
            None => None,
            Some((len, value)) => Some((truncated(prefix, len), value)),
        }
    }

    /// Returns the shortest key that contains the prefix.
    ///
    /// # Examples
    /// In a map with `wide`, 10.0.0.0/8, and `inner`, 10.1.0.0/16; `host` is 10.1.2.3/32:
    ///
    /// ```rust
    /// assert_eq!(rt; map.get_spm_prefix(&host), Some(wide));
    /// ```
    pub fn get_spm_prefix(&self, prefix: &P) -> Option<P>
        requires { IsTrue (P.fits prefix.now) }
        ensures { MatchOption result (NoBeginning self.now.entries (P.bits prefix.now)) (λ k. (v : T) × IsShortestKey P.fits P.bits P.of_bits self.now.entries (P.bits prefix.now) k v) }
    {
        match self.root.shortest(path_of(prefix)) {
            None => None,
            Some((len, _)) => Some(truncated(prefix, len)),
        }
    }

    /// Returns whether a key contains the prefix.
    ///
    /// # Examples
    /// In a map with 10.0.0.0/8; `host` is 10.1.2.3/32, and `other` is 11.0.0.0/8:
    ///
    /// ```rust
    /// assert!(rt; map.is_covered(&host) && !map.is_covered(&other));
    /// ```
    pub fn is_covered(&self, prefix: &P) -> bool
        requires { IsTrue (P.fits prefix.now) }
        ensures { IsTrue result ↔ (NoBeginning self.now.entries (P.bits prefix.now) → ⊥) }
    {
        self.root.shortest(path_of(prefix)).is_some()
    }

    /// Returns whether nothing lies strictly inside the prefix: no key, and no spare node. The prefix need not be stored. Takes one search,
    /// and does not allocate.
    ///
    /// # Examples
    /// In a map with just `wide`, 10.0.0.0/8, and `inner`, 10.1.0.0/16:
    ///
    /// ```rust
    /// assert!(rt; map.is_leaf(&inner) && !map.is_leaf(&wide));
    /// ```
    pub fn is_leaf(&self, prefix: &P) -> bool
        requires { IsTrue (P.fits prefix.now) }
        ensures all { IsTrue result ↔ (NothingInside self.now.entries (P.bits prefix.now) × NothingInside self.now.spares (P.bits prefix.now)) }
        ensures tidy { self.now.spares ≡ map.empty → (IsTrue result ↔ NothingInside self.now.entries (P.bits prefix.now)) }
    {
        self.root.is_leaf(path_of(prefix))
    }

    /// Returns the result of `get_lpm`, and the number of nodes visited: the root, and each node on the path of the prefix. Each such node
    /// belongs to a prefix of the path whose length is positive and divisible by five. In a tidy map this is also a prefix of a key. Levels
    /// that the trie skips count as nodes.
    pub fn get_lpm_visits(&self, prefix: &P) -> (Option<(P, &T)>, u32)
        requires { IsTrue (P.fits prefix.now) }
        ensures found { MatchOption result.0 (NoBeginning self.now.entries (P.bits prefix.now)) (λ r. IsLongestKey P.fits P.bits P.of_bits self.now.entries (P.bits prefix.now) r.0 r.1.now) }
        ensures visits { result.1 ≤ length (P.bits prefix.now) / 5 + 1 }
        ensures all { result.1 ≡ node_visits self.now.entries self.now.spares (P.bits prefix.now) }
        ensures tidy { self.now.spares ≡ map.empty → result.1 ≡ visit_count self.now.entries (P.bits prefix.now) }
    {
        (
            self.get_lpm(prefix),
            u32::from(self.root.visits(path_of(prefix))),
        )
    }

    /// Returns a mutable reference to the value at exactly this key.
    ///
    /// # Examples
    /// In a map with `inner`:
    ///
    /// ```rust
    /// *map.get_mut(&inner).expect(&rt, "a value") = 5;
    /// assert_eq!(rt; map.get(&inner), Some(&5));
    /// ```
    pub fn get_mut(&mut self, prefix: &P) -> Option<&mut T>
        requires { IsTrue (P.fits prefix.now) }
        ensures* writes_back { sem 𝓛 (lends_get P.row T.row P.R.row ⟦<P as Prefix>⟧ ⟦<P::R as Key>⟧ self.entry (P.bits prefix.now) result) }
        ensures value { option_copied_mut result ≡ map.get self.old.entries (P.bits prefix.now) }
    {
        if self.get(prefix).is_none() {
            return None;
        }
        let path = path_of(prefix);
        Some(self.value_mut(&path))
    }

    /// Returns a mutable reference to the value at a stored key.
    pub(crate) fn value_mut(&mut self, path: &Path) -> &mut T
        requires within { length path.now ≤ 128 }
        requires stored { IsSome (map.get self.old.entries path.now) }
        ensures* writes_back { sem 𝓛 (lends_value P.row T.row P.R.row ⟦<P as Prefix>⟧ ⟦<P::R as Key>⟧ self.entry path.now result) }
        ensures value { map.get self.old.entries path.now ≡ Some result.now }
    {
        self.root.value_mut(path)
    }
}

impl<P: Prefix + Drop, T: Drop> PrefixMap<P, T> {
    /// Stores the value at the key, and returns the old value. If the key is stored, it does not allocate and never fails.
    ///
    /// # Errors
    /// - `Memory`: an allocation fails, or one more entry or node can't be counted. The map is unchanged, and the value is returned.
    ///
    /// # Examples
    /// ```rust
    /// assert!(rt; matches!(map.insert(wide, 1), Ok(None)));
    /// assert!(rt; matches!(map.insert(wide, 3), Ok(Some(1))));
    /// ```
    pub fn insert(&mut self, prefix: P, value: T) -> Result<Option<T>, (Refused, T)>
        requires { IsTrue (P.fits prefix) }

        // On success `value` is stored, and the old value is returned.
        ensures old { IfOk result (λ old. old ≡ map.get self.old.entries (P.bits prefix)) }
        ensures map { OnOk result (self.new.entries ≡ map.insert self.old.entries (P.bits prefix) value) }

        // On success no node on the path of the key is spare any more; other spare nodes stay, and a tidy map stays tidy.
        ensures spares { OnOk result (self.new.spares ≡ off_way self.old.spares (P.bits prefix)) }
        ensures kept { OnOk result (IsSome (map.get self.old.entries (P.bits prefix)) → self.new.spares ≡ self.old.spares) }
        ensures tidy { OnOk result (self.old.spares ≡ map.empty → self.new.spares ≡ map.empty) }

        // On failure the map is unchanged, the key isn't stored, and `value` is returned; the refusal is never `Full`.
        ensures unchanged { OnErr result (self.new ≡ self.old) }
        ensures absent { OnErr result (map.get self.old.entries (P.bits prefix) ≡ None) }
        ensures full { IfErr result (λ e. e.0 ≡ Full → no_room self.old) }
        ensures value_returned { IfErr result (λ e. e.1 ≡ value) }
    {
        match self.insert_is_leaf(prefix, value) {
            Ok((old, _)) => Ok(old),
            Err(refused) => Err(refused),
        }
    }

    /// Stores the value as `insert` does. Returns the old value, and whether no other key is inside the prefix, as `is_leaf` returns it,
    /// but without its search.
    ///
    /// # Errors
    /// - `Memory`: as in `insert`.
    pub fn insert_is_leaf(&mut self, prefix: P, value: T) -> Result<(Option<T>, bool), (Refused, T)>
        requires { IsTrue (P.fits prefix) }

        // On success `value` is stored; the old value is returned, and whether no key or spare node is strictly inside the prefix.
        ensures old { IfOk result (λ r. r.0 ≡ map.get self.old.entries (P.bits prefix)) }
        ensures leaf { IfOk result (λ r. IsTrue r.1 ↔ (NothingInside self.new.entries (P.bits prefix) × NothingInside self.new.spares (P.bits prefix))) }
        ensures map { OnOk result (self.new.entries ≡ map.insert self.old.entries (P.bits prefix) value) }

        // On success no node on the path of the key is spare any more; other spare nodes stay, and a tidy map stays tidy.
        ensures spares { OnOk result (self.new.spares ≡ off_way self.old.spares (P.bits prefix)) }
        ensures kept { OnOk result (IsSome (map.get self.old.entries (P.bits prefix)) → self.new.spares ≡ self.old.spares) }
        ensures tidy { OnOk result (self.old.spares ≡ map.empty → self.new.spares ≡ map.empty) }

        // On failure the map is unchanged, the key isn't stored, and `value` is returned; the refusal is never `Full`.
        ensures unchanged { OnErr result (self.new ≡ self.old) }
        ensures absent { OnErr result (map.get self.old.entries (P.bits prefix) ≡ None) }
        ensures full { IfErr result (λ e. e.0 ≡ Full → no_room self.old) }
        ensures value_returned { IfErr result (λ e. e.1 ≡ value) }
    {
        let may_grow = self.len < usize::MAX;
        match self
            .root
            .insert(path_of(&prefix), value, may_grow, usize::MAX - self.nodes)
        {
            Ok((old, made, is_leaf)) => {
                self.nodes += made;
                if old.is_none() {
                    self.len += 1;
                }
                Ok((old, is_leaf))
            }
            Err(value) => Err((Refused::Memory, value)),
        }
    }

    /// Removes the entry, and returns its value. Then the last node on the path of the key, and each node above it, is removed while it
    /// has neither values nor children and isn't the root. This happens even if the key isn't stored. Does not allocate.
    ///
    /// # Examples
    /// ```rust
    /// assert_eq!(rt; map.remove(&inner), Some(2));
    /// assert_eq!(rt; map.remove(&inner), None);
    /// ```
    pub fn remove(&mut self, prefix: &P) -> Option<T>
        requires { IsTrue (P.fits prefix.now) }

        // The entry is removed, and its value is returned.
        ensures value { result ≡ map.get self.old.entries (P.bits prefix.now) }
        ensures map { self.new.entries ≡ map.remove self.old.entries (P.bits prefix.now) }

        // Nodes on the path of the key that lead nowhere are removed, and no other spare nodes; a tidy map stays tidy.
        ensures spares { IsPruned (P.bits prefix.now) self.old.spares self.new.entries self.new.spares }
        ensures tidy { self.old.spares ≡ map.empty → self.new.spares ≡ map.empty }

        // The map never has more nodes than before.
        ensures count { nodes self.new.entries + map.len self.new.spares ≤ nodes self.old.entries + map.len self.old.spares }
    {
        let (value, gone) = self.root.remove(path_of(prefix));
        self.nodes -= usize::from(gone);
        if value.is_some() {
            self.len -= 1;
        }
        value
    }

    /// Removes the entry, and returns its value. All nodes are kept. Does not allocate.
    ///
    /// # Examples
    /// In a map with 10.0.0.0/8, and with the value 2 at `inner`, 10.1.0.0/16:
    ///
    /// ```rust
    /// assert_eq!(rt; map.remove_keep_tree(&inner), Some(2));
    /// assert_eq!(rt; map.node_count(), 4);
    /// assert_eq!(rt; map.remove(&inner), None);
    /// assert_eq!(rt; map.node_count(), 2);
    /// ```
    pub fn remove_keep_tree(&mut self, prefix: &P) -> Option<T>
        requires { IsTrue (P.fits prefix.now) }
        ensures value { result ≡ map.get self.old.entries (P.bits prefix.now) }
        ensures map { self.new.entries ≡ map.remove self.old.entries (P.bits prefix.now) }
        ensures spares { IsKept (P.bits prefix.now) self.old.entries self.old.spares self.new.entries self.new.spares }
        ensures count { nodes self.new.entries + map.len self.new.spares ≡ nodes self.old.entries + map.len self.old.spares }
    {
        let value = self.root.remove_keep_tree(path_of(prefix));
        if value.is_some() {
            self.len -= 1;
        }
        value
    }
}
