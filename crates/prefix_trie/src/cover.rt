//! The entries whose keys contain a prefix. They do not allocate.
ghost use Rattle.std.specs.Prelude.{◌≡◌, map, IsTrue};
ghost use Rattle.std.specs.FinMap.{entries};
ghost use Rattle.std.specs.FinMap.Entries.{where_key};
ghost use Rattle.ipnet_blocks.specs.BitStrings.{bits_cmp, begins};

use crate::iterators::{Cover, CoverKeys, CoverValues};
use crate::map::PrefixMap;
use crate::prefix::{Prefix, path_of};
use trie_core::Cover as Way;

impl<P: Prefix, T> PrefixMap<P, T> {
    /// Returns the entries whose keys contain the prefix, its own entry included, shortest key first.
    ///
    /// # Examples
    /// In a map with the value 1 at `wide`, 10.0.0.0/8, and with 10.1.0.0/16; `host` is 10.1.2.3/32:
    ///
    /// ```rust
    /// assert_eq!(rt; map.cover(&host).next(), Some((wide, &1)));
    /// ```
    #[tactic(auto, using(crate::proofs::KeyLengths::keys_where))]
    pub fn cover(&self, prefix: &P) -> Cover<'_, P, T>
        requires { IsTrue (P.fits prefix.now) }
        ensures { result ≡ where_key bits_cmp (λ k. begins k (P.bits prefix.now)) (entries self.now.entries) }
    {
        Cover::new(Way::new(self.walked(), path_of(prefix)))
    }

    /// Returns the keys that contain the prefix, the prefix itself included, shortest first.
    ///
    /// # Examples
    /// In a map with 10.0.0.0/8 and two networks inside it; `net` reads a network, and `is_key` compares a key with a text:
    ///
    /// ```rust
    /// is_key(
    ///     &rt,
    ///     map.cover_keys(&net(&rt, "10.1.1.9/32")).next(),
    ///     "10.0.0.0/8",
    /// );
    /// ```
    pub fn cover_keys(&self, prefix: &P) -> CoverKeys<'_, P, T>
        requires { IsTrue (P.fits prefix.now) }
        ensures { result ≡ map (λ e. e.0) (where_key bits_cmp (λ k. begins k (P.bits prefix.now)) (entries self.now.entries)) }
    {
        CoverKeys::of_entries(self.cover(prefix))
    }

    /// Returns the values of the keys that contain the prefix, the prefix itself included, shortest key first.
    pub fn cover_values(&self, prefix: &P) -> CoverValues<'_, P, T>
        requires { IsTrue (P.fits prefix.now) }
        ensures { result ≡ map (λ e. e.1) (where_key bits_cmp (λ k. begins k (P.bits prefix.now)) (entries self.now.entries)) }
    {
        CoverValues::of_entries(self.cover(prefix))
    }
}
