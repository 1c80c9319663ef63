//! Entries: access to the value of one key, stored or not.
ghost use Rattle.std.specs.Prelude.{◌≡◌, ◌+◌, Some, None, IfOk, IfErr, OnErr, OnOk, is_some, MatchOption, unwrap_or, IsTrue};
ghost use Rattle.std.specs.Borrow.{MutBor, sem};
ghost use Rattle.std.specs.Map.Calls.{ModifiesValue};
ghost use Rattle.std.specs.Option.{IsSome, option_copied, option_copied_mut, UnwrapsOrElse};
ghost use Rattle.std.specs.FinMap.{get, len, remove as without_key};
ghost use Rattle.trie_core.specs.Ways.{IsKept};
ghost use Rattle.trie_core.specs.Count.{nodes};
ghost use Rattle.prefix_trie.specs.Refusals.{no_room};
ghost use Rattle.prefix_trie.specs.declared.refused.Refused.TheVariants.{Full};

use crate::map::PrefixMap;
use crate::prefix::{Prefix, path_of, truncated};
use crate::refused::Refused;
use ipnet_addr::key::Key;
use std::mem::replace;

/// The entry of a stored key. The bits of its key after the prefix are zero.
#[derive(Drop)]
pub struct OccupiedEntry<'a, P: Prefix, T> {
    map: &'a mut PrefixMap<P, T>,
    key: P,
    ghost fits: { IsTrue (P.fits key) },
    ghost stored: { IsSome (get map.now.entries (P.bits key)) },
}

/// The entry of a key that wasn't stored when `entry` was called. It holds the prefix that `entry` was called with. `Entry::insert` may
/// have stored the key since.
#[derive(Drop)]
pub struct VacantEntry<'a, P: Prefix, T> {
    map: &'a mut PrefixMap<P, T>,
    key: P,
    is_stored: bool,
    ghost fits: { IsTrue (P.fits key) },
    ghost found: { is_some (get map.now.entries (P.bits key)) ≡ is_stored },
}

/// The entry of a key, stored or not.
#[derive(Drop)]
pub enum Entry<'a, P: Prefix, T> {
    /// The key wasn't stored when `entry` was called. `Entry::insert` may have stored it since.
    Vacant(VacantEntry<'a, P, T>),
    /// The key is stored.
    Occupied(OccupiedEntry<'a, P, T>),
}

impl<P: Prefix, T> PrefixMap<P, T> {
    ghost use Rattle.prefix_trie.specs.Entry.{entry_map_ref, entry_map, entry_key, MatchEntry};

    /// Returns the entry of a prefix, to read, store or change its value. Changes nothing, and does not allocate.
    ///
    /// # Examples
    /// In a map with `inner`:
    ///
    /// ```rust
    /// *map.entry(inner).or_insert(0).expect(&rt, "memory") = 7;
    /// assert_eq!(rt; map.get(&inner), Some(&7));
    /// ```
    pub fn entry(&mut self, prefix: P) -> Entry<'_, P, T>
    where
        P: Drop,
        requires { IsTrue (P.fits prefix) }

        // The entry refers to this map, which is unchanged.
        ensures same_map { (entry_map_ref result).ghost_name ≡ self.entry.ghost_name }
        ensures unchanged { entry_map result ≡ self.old }

        // An occupied entry has the stored key, with zeros after its bits, and a vacant one has the prefix as it was given.
        ensures key { MatchEntry result (entry_key result ≡ P.of_bits (P.bits prefix)) (entry_key result ≡ prefix) }
        ensures bits { P.bits (entry_key result) ≡ P.bits prefix }

        // The entry is occupied if the key is stored, and else vacant.
        ensures found { MatchEntry result (IsSome (get self.old.entries (P.bits prefix))) (get self.old.entries (P.bits prefix) ≡ None) }
    {
        if self.get(&prefix).is_some() {
            let key = truncated(&prefix, prefix.prefix_len());
            Entry::Occupied(OccupiedEntry { map: self, key })
        } else {
            Entry::Vacant(VacantEntry {
                map: self,
                key: prefix,
                is_stored: false,
            })
        }
    }
}

impl<'a, P: Prefix, T> OccupiedEntry<'a, P, T> {
    ghost use Rattle.prefix_trie.specs.Entry.{Occupied, entry_map, entry_key, entry_value, IsWritten, with_entry_value, entry_lends, occupied_lends};

    /// Returns the key; its bits after the prefix are zero.
    ///
    /// # Examples
    /// In a map with 10.0.0.0/8; `net` reads a network, and `is_text` compares one with a text:
    ///
    /// ```rust
    /// let Entry::Occupied(mut entry) = map.entry(net(rt, "10.9.9.9/8")) else {
    ///     panic!(rt; "vacant")
    /// };
    /// is_text(rt, *entry.key(), "10.0.0.0/8");
    /// ```
    pub fn key(&self) -> &P
        ensures key { result.now ≡ entry_key (Occupied self.now) }
        ensures fits { IsTrue (P.fits result.now) }
    {
        &self.key
    }

    /// Returns the value.
    pub fn get(&self) -> &T
        ensures { entry_value (Occupied self.now) ≡ Some result.now }
    {
        self.map.get(&self.key).unwrap()
    }

    /// Returns a mutable reference to the value.
    ///
    /// # Examples
    /// `is_equal` checks that two values are equal:
    ///
    /// ```rust
    /// *entry.get_mut() = 10;
    /// is_equal(rt, *entry.get(), 10);
    /// ```
    pub fn get_mut(&mut self) -> &mut T
        ensures* writes_back { sem 𝓛 (occupied_lends P.row T.row P.R.row self.entry result) }
        ensures value { entry_value (Occupied self.old) ≡ Some result.now }
        ensures written { (w : T) → IsWritten (Occupied self.old) w (Occupied (with_entry_value self.old w)) }
    {
        let path = path_of(&self.key);
        self.map.value_mut(&path)
    }

    /// Stores the value, and returns the old value. Does not allocate and never fails.
    ///
    /// # Examples
    /// At a key with the value 7; `is_equal` checks that two values are equal:
    ///
    /// ```rust
    /// is_equal(rt, entry.insert(8), 7);
    /// ```
    pub fn insert(&mut self, value: T) -> T
        ensures old { entry_value (Occupied self.old) ≡ Some result }
        ensures written { IsWritten (Occupied self.old) value (Occupied self.new) }
    {
        replace(self.get_mut(), value)
    }

    /// Returns a mutable reference to the value that lives as long as the borrow of the map.
    ///
    /// # Examples
    /// ```rust
    /// *entry.into_mut() = 11;
    /// ```
    pub fn into_mut(self) -> &'a mut T
    where
        P: Drop,
        ensures* writes_back { sem 𝓛 (entry_lends P.row T.row P.R.row (Occupied self.entry) result) }
        ensures value { entry_value (Occupied self.entry) ≡ Some result.now }
    {
        let path = path_of(&self.key);
        let lender = self.map;
        lender.value_mut(&path)
    }

    /// Removes the entry, and returns its value. All nodes are kept. Does not allocate.
    ///
    /// # Examples
    /// At a key with the value 11; `is_equal` checks that two values are equal:
    ///
    /// ```rust
    /// is_equal(rt, entry.remove(), 11);
    /// ```
    pub fn remove(self) -> T
    where
        P: Drop,
        T: Drop,
        ensures value { entry_value (Occupied self.entry) ≡ Some result }
        ensures removed { self.exit.0.now.entries ≡ without_key (entry_map (Occupied self.entry)).entries (P.bits (entry_key (Occupied self.entry))) }
        ensures spares { IsKept (P.bits (entry_key (Occupied self.entry))) (entry_map (Occupied self.entry)).entries (entry_map (Occupied self.entry)).spares self.exit.0.now.entries self.exit.0.now.spares }
        ensures count { nodes self.exit.0.now.entries + len self.exit.0.now.spares ≡ nodes (entry_map (Occupied self.entry)).entries + len (entry_map (Occupied self.entry)).spares }
    {
        let key = self.key;
        self.map.remove_keep_tree(&key).unwrap()
    }
}

impl<'a, P: Prefix, T> VacantEntry<'a, P, T> {
    ghost use Rattle.prefix_trie.specs.Entry.{Vacant, entry_map, entry_key, entry_value, entry_lends_ok, IsStored};

    /// Returns the prefix that `entry` was called with.
    ///
    /// # Examples
    /// In an empty map; `net` reads a network, `vacant` returns the `VacantEntry`, and `is_text` compares a network with a text:
    ///
    /// ```rust
    /// let entry = vacant(rt, map.entry(net(rt, "10.1.2.3/8")));
    /// is_text(rt, *entry.key(), "10.1.2.3/8");
    /// ```
    pub fn key(&self) -> &P
        ensures key { result.now ≡ entry_key (Vacant self.now) }
        ensures fits { IsTrue (P.fits result.now) }
    {
        &self.key
    }

    /// Stores the value, and returns the old value. The entry keeps its key.
    fn store(&mut self, value: T) -> Result<Option<T>, (Refused, T)>
    where
        P: Drop,
        T: Drop,
        ensures same_map { self.new.map.ghost_name ≡ self.old.map.ghost_name }
        ensures same_key { entry_key (Vacant self.new) ≡ entry_key (Vacant self.old) }
        ensures old { IfOk result (λ old. old ≡ entry_value (Vacant self.old)) }
        ensures stored { OnOk result (IsStored (entry_map (Vacant self.old)) (P.bits (entry_key (Vacant self.old))) value (entry_map (Vacant self.new))) }
        ensures unchanged { OnErr result (entry_map (Vacant self.new) ≡ entry_map (Vacant self.old)) }
        ensures absent { OnErr result (entry_value (Vacant self.old) ≡ None) }
        ensures full { IfErr result (λ e. e.0 ≡ Full → no_room (entry_map (Vacant self.old))) }
        ensures value_returned { IfErr result (λ e. e.1 ≡ value) }
    {
        let key = truncated(&self.key, self.key.prefix_len());
        let old = self.map.insert(key, value)?;
        self.is_stored = true;
        Ok(old)
    }

    /// Stores the value, and returns a mutable reference to it.
    ///
    /// # Errors
    /// - `Memory`: as in `PrefixMap::insert`. The map is unchanged, and the value is returned.
    pub fn insert(self, value: T) -> Result<&'a mut T, (Refused, T)>
    where
        P: Drop,
        T: Drop,
        // On success the map keeps the last value written through the reference, at first `value`; else it is unchanged.
        ensures* writes_back { sem 𝓛 (entry_lends_ok P.row T.row P.R.row (Vacant self.entry) result) }
        ensures value { IfOk result (λ x. x.now ≡ value) }

        // On failure the key isn't stored, and `value` is returned; the refusal is never `Full`.
        ensures full { IfErr result (λ e. e.0 ≡ Full → no_room (entry_map (Vacant self.entry))) }
        ensures value_returned { IfErr result (λ e. e.1 ≡ value) }
        ensures absent { OnErr result (entry_value (Vacant self.entry) ≡ None) }
    {
        let path = path_of(&self.key);
        let map = self.map;
        match map.insert(self.key, value) {
            Ok(_) => Ok(map.value_mut(&path)),
            Err(refused) => Err(refused),
        }
    }

    /// Returns a mutable reference to the value that was stored since, or stores the result of `f`.
    fn or_insert_with<F: FnOnce() -> T>(self, f: F) -> Result<&'a mut T, (Refused, T)>
    where
        P: Drop,
        T: Drop,
        requires { entry_value (Vacant self) ≡ None → F.pre f }
        ensures* writes_back { sem 𝓛 (entry_lends_ok P.row T.row P.R.row (Vacant self.entry) result) }
        ensures value { IfOk result (λ x. UnwrapsOrElse (entry_value (Vacant self.entry)) (F.post f) x.now) }
        ensures full { IfErr result (λ e. e.0 ≡ Full → no_room (entry_map (Vacant self.entry))) }
        ensures value_returned { IfErr result (λ e. F.post f e.1) }
        ensures absent { OnErr result (entry_value (Vacant self.entry) ≡ None) }
    {
        if !self.is_stored {
            return self.insert_with(f);
        }
        let path = path_of(&self.key);
        let map = self.map;
        Ok(map.value_mut(&path))
    }

    /// Stores the result of `f`, and returns a mutable reference to it. `f` is called once.
    ///
    /// # Errors
    /// - `Memory`: as in `PrefixMap::insert`. The map is unchanged, and the value is returned.
    pub fn insert_with<F: FnOnce() -> T>(self, f: F) -> Result<&'a mut T, (Refused, T)>
    where
        P: Drop,
        T: Drop,
        requires { F.pre f }

        // On success the map keeps the last value written through the reference, at first the result of `f`; else it is unchanged.
        ensures* writes_back { sem 𝓛 (entry_lends_ok P.row T.row P.R.row (Vacant self.entry) result) }
        ensures value { IfOk result (λ x. F.post f x.now) }

        // On failure the key isn't stored, and the result of `f` is returned; the refusal is never `Full`.
        ensures full { IfErr result (λ e. e.0 ≡ Full → no_room (entry_map (Vacant self.entry))) }
        ensures value_returned { IfErr result (λ e. F.post f e.1) }
        ensures absent { OnErr result (entry_value (Vacant self.entry) ≡ None) }
    {
        self.insert(f())
    }

    /// Stores the default value, and returns a mutable reference to it.
    ///
    /// # Errors
    /// - `Memory`: as in `PrefixMap::insert`. The map is unchanged, and the value is returned.
    ///
    /// # Examples
    /// In a map with values of type `u32`; `lent_is` checks the lent value:
    ///
    /// ```rust
    /// lent_is(rt, entry.default(), 0);
    /// ```
    pub fn default(self) -> Result<&'a mut T, (Refused, T)>
    where
        P: Drop,
        T: Default + Drop,
        // On success the map keeps the last value written through the reference, at first the default; else it is unchanged.
        ensures* writes_back { sem 𝓛 (entry_lends_ok P.row T.row P.R.row (Vacant self.entry) result) }
        ensures value { IfOk result (λ x. T.is_default x.now) }

        // On failure the key isn't stored, and the default value is returned; the refusal is never `Full`.
        ensures full { IfErr result (λ e. e.0 ≡ Full → no_room (entry_map (Vacant self.entry))) }
        ensures value_returned { IfErr result (λ e. T.is_default e.1) }
        ensures absent { OnErr result (entry_value (Vacant self.entry) ≡ None) }
    {
        self.insert(T::default())
    }
}

impl<'a, P: Prefix, T> Entry<'a, P, T> {
    ghost use Rattle.prefix_trie.specs.Seen.{with_value};
    ghost use Rattle.prefix_trie.specs.Entry.{entry_map_ref, entry_map, entry_key, entry_value, entry_lends_ok, is_occupied, IsStored};

    /// Returns the key. If it was stored when `entry` was called, its bits after the prefix are zero; else it is the prefix that `entry` was
    /// called with.
    ///
    /// # Examples
    /// `entry` is that of 10.1.2.3/16, which is stored; `is_text` compares a network with a text:
    ///
    /// ```rust
    /// is_text(rt, *entry.key(), "10.1.0.0/16");
    /// ```
    pub fn key(&self) -> &P
        ensures key { result.now ≡ entry_key self.now }
        ensures fits { IsTrue (P.fits result.now) }
    {
        match self {
            Entry::Vacant(entry) => entry.key(),
            Entry::Occupied(entry) => entry.key(),
        }
    }

    /// Returns the value if the key is stored.
    ///
    /// # Examples
    /// At a key with the value 7; `is_equal` checks that two values are equal:
    ///
    /// ```rust
    /// is_equal(rt, entry.get().copied(), Some(7));
    /// ```
    pub fn get(&self) -> Option<&T>
        ensures { option_copied result ≡ entry_value self.now }
    {
        match self {
            Entry::Vacant(entry) => entry.map.get(&entry.key),
            Entry::Occupied(entry) => Some(entry.get()),
        }
    }

    /// Returns a mutable reference to the value if the key is stored. A write through it has no contract. If a proof needs one, match the
    /// entry, and use `OccupiedEntry::get_mut`.
    ///
    /// # Examples
    /// At a stored key; `is_equal` checks that two values are equal:
    ///
    /// ```rust
    /// *entry.get_mut().expect(rt, "a value") = 5;
    /// is_equal(rt, entry.get().copied(), Some(5));
    /// ```
    pub fn get_mut(&mut self) -> Option<&mut T>
        ensures { option_copied_mut result ≡ entry_value self.old }
    {
        match self {
            Entry::Vacant(entry) => {
                let path = path_of(&entry.key);
                if entry.is_stored {
                    Some(entry.map.value_mut(&path))
                } else {
                    None
                }
            }
            Entry::Occupied(entry) => Some(entry.get_mut()),
        }
    }

    /// Stores the value, and returns the old value. If the key is stored, it does not allocate and never fails. The entry keeps its key.
    ///
    /// # Errors
    /// - `Memory`: as in `PrefixMap::insert`. The map is unchanged, and the value is returned.
    ///
    /// # Examples
    /// In an empty map; `net` reads a network, and `had_is` checks the old value:
    ///
    /// ```rust
    /// let mut entry = map.entry(net(rt, "10.9.9.9/8"));
    /// had_is(rt, entry.insert(3), None);
    /// is_equal(rt, entry.get().copied(), Some(3));
    /// had_is(rt, entry.insert(4), Some(3));
    /// ```
    pub fn insert(&mut self, value: T) -> Result<Option<T>, (Refused, T)>
    where
        P: Drop,
        T: Drop,
        // The entry refers to the same map and the same key, and its variant stays.
        ensures same_map { (entry_map_ref self.new).ghost_name ≡ (entry_map_ref self.old).ghost_name }
        ensures same_key { entry_key self.new ≡ entry_key self.old }
        ensures same_kind { is_occupied self.new ≡ is_occupied self.old }

        // On success `value` is stored and the old value returned; no node on the path of a new key is spare any more.
        ensures old { IfOk result (λ old. old ≡ entry_value self.old) }
        ensures stored { OnOk result (IsStored (entry_map self.old) (P.bits (entry_key self.old)) value (entry_map self.new)) }

        // On failure the map is unchanged, the key isn't stored, and `value` is returned; the refusal is never `Full`.
        ensures unchanged { OnErr result (entry_map self.new ≡ entry_map self.old) }
        ensures absent { OnErr result (entry_value self.old ≡ None) }
        ensures full { IfErr result (λ e. e.0 ≡ Full → no_room (entry_map self.old)) }
        ensures value_returned { IfErr result (λ e. e.1 ≡ value) }
    {
        match self {
            Entry::Vacant(entry) => entry.store(value),
            Entry::Occupied(entry) => Ok(Some(entry.insert(value))),
        }
    }

    /// Calls `f` on the value if the key is stored.
    ///
    /// # Examples
    /// In a map with 10.0.0.0/8; `net` reads a network, and `is_equal` checks that two values are equal:
    ///
    /// ```rust
    /// let entry = map.entry(net(rt, "10.0.0.0/8"));
    /// let entry = entry.and_modify(|value| *value = 6);
    /// is_equal(rt, entry.get().copied(), Some(6));
    /// ```
    pub fn and_modify<F: FnOnce(&mut T)>(self, f: F) -> Entry<'a, P, T>
        requires { (p : MutBor T) → entry_value self ≡ Some p.now → F.pre f p }

        // The entry refers to the same map and the same key, and is occupied exactly if it was before.
        ensures same_map { (entry_map_ref result).ghost_name ≡ (entry_map_ref self.entry).ghost_name }
        ensures same_key { entry_key result ≡ entry_key self.entry }
        ensures same_kind { is_occupied result ≡ is_occupied self.entry }

        // `f` changes the value if the key is stored; nothing else in the map changes.
        ensures update { ModifiesValue F.FnOnce f (entry_value self.entry) (entry_value result) }
        ensures rest { MatchOption (entry_value result) (entry_map result ≡ entry_map self.entry) (λ w. entry_map result ≡ with_value (entry_map self.entry) (P.bits (entry_key self.entry)) w) }
    {
        match self {
            Entry::Vacant(mut entry) => {
                if !entry.is_stored {
                    return Entry::Vacant(entry);
                }
                let path = path_of(&entry.key);
                f(entry.map.value_mut(&path));
                Entry::Vacant(entry)
            }
            Entry::Occupied(mut entry) => {
                f(entry.get_mut());
                Entry::Occupied(entry)
            }
        }
    }

    /// Returns a mutable reference to the value; if there is none, stores `value` first.
    ///
    /// # Errors
    /// - `Memory`: as in `VacantEntry::insert`, and only if the key isn't stored.
    ///
    /// # Examples
    /// In a map with the value 5 at 10.0.0.0/8; `net` reads a network, and `lent_is` checks the lent value:
    ///
    /// ```rust
    /// lent_is(rt, map.entry(net(rt, "10.0.0.0/8")).or_insert(9), 5);
    /// ```
    pub fn or_insert(self, value: T) -> Result<&'a mut T, (Refused, T)>
    where
        P: Drop,
        T: Drop,
        // On success the map keeps the last value written through the reference, at first the old one or `value`; else it is unchanged.
        ensures* writes_back { sem 𝓛 (entry_lends_ok P.row T.row P.R.row self.entry result) }
        ensures value { IfOk result (λ x. x.now ≡ unwrap_or (entry_value self.entry) value) }

        // On failure the key isn't stored, and `value` is returned; the refusal is never `Full`.
        ensures full { IfErr result (λ e. e.0 ≡ Full → no_room (entry_map self.entry)) }
        ensures value_returned { IfErr result (λ e. e.1 ≡ value) }
        ensures absent { OnErr result (entry_value self.entry ≡ None) }
    {
        match self {
            Entry::Vacant(entry) => entry.or_insert_with(|| value),
            Entry::Occupied(entry) => Ok(entry.into_mut()),
        }
    }

    /// Returns a mutable reference to the value; if there is none, stores the result of `f` first. `f` is called once, and only then.
    ///
    /// # Errors
    /// - `Memory`: as in `VacantEntry::insert`, and only if the key isn't stored.
    ///
    /// # Examples
    /// In a map without `host`, 10.1.2.3/32:
    ///
    /// ```rust
    /// let value = *map.entry(host).or_insert_with(|| 3).expect(&rt, "memory");
    /// assert_eq!(rt; value, 3);
    /// ```
    pub fn or_insert_with<F: FnOnce() -> T>(self, f: F) -> Result<&'a mut T, (Refused, T)>
    where
        P: Drop,
        T: Drop,
        requires { entry_value self ≡ None → F.pre f }

        // On success the map keeps the last value written through the reference, at first the old one or that of `f`; else it is unchanged.
        ensures* writes_back { sem 𝓛 (entry_lends_ok P.row T.row P.R.row self.entry result) }
        ensures value { IfOk result (λ x. UnwrapsOrElse (entry_value self.entry) (F.post f) x.now) }

        // On failure the key isn't stored, and the result of `f` is returned; the refusal is never `Full`.
        ensures full { IfErr result (λ e. e.0 ≡ Full → no_room (entry_map self.entry)) }
        ensures value_returned { IfErr result (λ e. F.post f e.1) }
        ensures absent { OnErr result (entry_value self.entry ≡ None) }
    {
        match self {
            Entry::Vacant(entry) => entry.or_insert_with(f),
            Entry::Occupied(entry) => Ok(entry.into_mut()),
        }
    }

    /// Returns a mutable reference to the value; if there is none, stores the default value first.
    ///
    /// # Errors
    /// - `Memory`: as in `VacantEntry::insert`, and only if the key isn't stored.
    ///
    /// # Examples
    /// At a stored key; `lent_is` checks the lent value:
    ///
    /// ```rust
    /// let entry = entry.and_modify(|value| *value = 6);
    /// lent_is(rt, entry.or_default(), 6);
    /// ```
    pub fn or_default(self) -> Result<&'a mut T, (Refused, T)>
    where
        P: Drop,
        T: Default + Drop,
        // On success the map keeps the last value written through the reference, at first the old one or the default; else it is unchanged.
        ensures* writes_back { sem 𝓛 (entry_lends_ok P.row T.row P.R.row self.entry result) }
        ensures value { IfOk result (λ x. UnwrapsOrElse (entry_value self.entry) T.is_default x.now) }

        // On failure the key isn't stored, and the default value is returned; the refusal is never `Full`.
        ensures full { IfErr result (λ e. e.0 ≡ Full → no_room (entry_map self.entry)) }
        ensures value_returned { IfErr result (λ e. T.is_default e.1) }
        ensures absent { OnErr result (entry_value self.entry ≡ None) }
    {
        match self {
            Entry::Vacant(entry) => {
                let value = T::default();
                entry.or_insert_with(|| value)
            }
            Entry::Occupied(entry) => Ok(entry.into_mut()),
        }
    }
}
