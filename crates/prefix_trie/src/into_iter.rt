//! Iterators that own the entries of a map. They do not allocate, and drop the entries that they haven't returned.
ghost use Rattle.std.specs.Prelude.{◌≡◌, IsTrue};
ghost use Rattle.std.specs.FinMap.{entries, keys, values};
ghost use Rattle.std.specs.FinMap.Entries.{where_key};
ghost use Rattle.ipnet_blocks.specs.BitStrings.{bits_cmp, begins};

use crate::iterators::{IntoIter, IntoKeys, IntoValues};
use crate::map::PrefixMap;
use crate::prefix::{Prefix, path_of};
use trie_core::OwnedWalk;

impl<P: Prefix, T: Drop> IntoIterator for PrefixMap<P, T> {
    type Item = (P, T);

    type IntoIter = IntoIter<P, T>;

    ghost into_iter_gives = { λ m r. r ≡ entries m.entries };

    /// Returns all entries, owned, in the order of a walk.
    fn into_iter(self) -> IntoIter<P, T> {
        IntoIter::new(OwnedWalk::new(self.into_root()))
    }
}

impl<P: Prefix, T: Drop> PrefixMap<P, T> {
    /// Returns the entries whose keys the prefix contains, its own entry included, owned, in the order of a walk. The other entries are
    /// dropped.
    #[tactic(auto, using(crate::proofs::KeyLengths::keys_where))]
    pub fn into_children(self, prefix: &P) -> IntoIter<P, T>
        requires { IsTrue (P.fits prefix.now) }
        ensures { result ≡ where_key bits_cmp (begins (P.bits prefix.now)) (entries self.entries) }
    {
        IntoIter::new(OwnedWalk::inside(self.into_root(), path_of(prefix)))
    }

    /// Returns all keys, in the order of a walk. The values are dropped.
    pub fn into_keys(self) -> IntoKeys<P, T>
        ensures { result ≡ keys self.entries }
    {
        IntoKeys::of_entries(self.into_iter())
    }

    /// Returns all values, owned, in the order of their keys.
    pub fn into_values(self) -> IntoValues<P, T>
        ensures { result ≡ values self.entries }
    {
        IntoValues::of_entries(self.into_iter())
    }
}
