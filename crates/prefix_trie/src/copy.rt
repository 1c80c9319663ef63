//! Copies of a map, and maps made from entries in any order.
ghost use Rattle.std.specs.Prelude.{◌≡◌, List, IfOk, IfErr, IsTrue, All};
ghost use Rattle.std.specs.Iterator.{Drains, HoldsAlong, IsFinite};
ghost use Rattle.std.specs.FinMap as map;
ghost use Rattle.prefix_trie.specs.Made.{inserted};
ghost use Rattle.prefix_trie.specs.declared.refused.Refused.TheVariants.{Memory};

use crate::map::PrefixMap;
use crate::prefix::Prefix;
use crate::refused::Refused;
use std::alloc::Global;
use std::marker::PhantomData;

impl<P: Prefix, T: Clone> PrefixMap<P, T> {
    /// Returns an equal map with as many nodes. Its values are clones, and a clone must equal the original.
    ///
    /// # Errors
    /// - `Memory`: an allocation fails, also one of a value's `clone`. All that was copied is dropped.
    ///
    /// # Examples
    /// `map` is a `PrefixMap`:
    ///
    /// ```rust
    /// let copy = map.try_clone(rt.alloc()).expect(&rt, "a copy");
    /// ```
    pub fn try_clone(&self, alloc: Global) -> Result<PrefixMap<P, T>, Refused>
        requires { (x y : T) → T.is_clone x y → y ≡ x }
        ensures same { IfOk result (λ m. m ≡ self.now) }
        ensures memory { IfErr result (λ e. e ≡ Memory) }
    {
        match self.root.try_clone(alloc) {
            Ok(root) => Ok(PrefixMap {
                root,
                len: self.len,
                nodes: self.nodes,
                keys: PhantomData,
            }),
            Err(_) => Err(Refused::Memory),
        }
    }
}

impl<P: Prefix + Drop, T: Drop> PrefixMap<P, T> {
    /// Makes the map of these entries, inserted in order: if a key occurs several times, its last value stays. The map is tidy.
    ///
    /// # Errors
    /// - `Memory`: an entry can't be inserted, as in `insert`. All that was stored is dropped.
    ///
    /// # Examples
    /// `entries` is an array of pairs, each a prefix and its value:
    ///
    /// ```rust
    /// PrefixMap::try_from_iter(alloc, Vec::from_array(alloc, entries).expect(rt, "entries"))
    /// ```
    pub fn try_from_iter<U: IntoIterator<Item = (P, T)>>(
        alloc: Global,
        items: U,
    ) -> Result<PrefixMap<P, T>, Refused>
        requires { (it : U.IntoIter) → U.into_iter_gives items it → U.IntoIter.can_next it × IsFinite (U.IntoIter.remaining it) × HoldsAlong U.IntoIter.next_gives it (All (λ e. IsTrue (P.fits e.0))) }
        ensures map { IfOk result (λ m. (it : U.IntoIter) × (es : List (P × T)) × U.into_iter_gives items it × Drains U.IntoIter.next_gives it es × (m.entries ≡ inserted P.bits map.empty es)) }
        ensures tidy { IfOk result (λ m. m.spares ≡ map.empty) }
        ensures memory { IfErr result (λ e. e ≡ Memory) }
    {
        let mut made = PrefixMap::empty(alloc);
        for (prefix, value) in items {
            match made.insert(prefix, value) {
                Ok(old) => drop(old),
                Err(_) => return Err(Refused::Memory),
            }
        }
        Ok(made)
    }
}
