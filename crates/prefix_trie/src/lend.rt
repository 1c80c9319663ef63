//! Mutable access to the value of the longest match.
ghost use Rattle.std.specs.Prelude.{◌≡◌, ◌≤◌, ℕ, Some, length, take, MatchOption, IsTrue, IsSome};
ghost use Rattle.std.specs.Borrow.{sem};
ghost use Rattle.std.specs.FinMap as map;
ghost use Rattle.trie_core.specs.Search.{NoBeginning, IsLongest};
ghost use Rattle.prefix_trie.specs.Maps.{IsLongestKey};
ghost use Rattle.prefix_trie.specs.Lending.{lends_value, lends_longest};

use crate::map::PrefixMap;
use crate::prefix::{Prefix, path_of, truncated};
use ipnet_addr::key::Key;
use trie_core::Path;

/// The path of the first `len` bits of a prefix.
fn first_bits<P: Prefix>(prefix: &P, len: u8) -> Path
    requires fits { IsTrue (P.fits prefix.now) }
    requires within { len ≤ length (P.bits prefix.now) }
    ensures value { result ≡ take len (P.bits prefix.now) }
    ensures within { length result ≤ 128 }
{
    Path::new(path_of(prefix).to_bits(), len)
}

impl<P: Prefix, T> PrefixMap<P, T> {
    /// The length of the longest key that contains the prefix.
    fn lpm_len(&self, prefix: &P) -> Option<u8>
        requires { IsTrue (P.fits prefix.now) }
        ensures { MatchOption result (NoBeginning self.now.entries (P.bits prefix.now)) (λ n. (v : T) × IsLongest self.now.entries (P.bits prefix.now) n v) }
    {
        match self.root.longest(path_of(prefix)) {
            None => None,
            Some((len, _)) => Some(len),
        }
    }

    /// Returns the key of the first `len` bits of a prefix, at most its length, and a mutable reference to its value. The key must be
    /// stored.
    pub fn match_mut(&mut self, prefix: &P, len: u8) -> (P, &mut T)
        requires fits { IsTrue (P.fits prefix.now) }
        requires within { len ≤ length (P.bits prefix.now) }
        requires stored { IsSome (map.get self.old.entries (take len (P.bits prefix.now))) }

        // The map ends with the last value written through the reference, at the key of the first `len` bits.
        ensures* writes_back { sem 𝓛 (lends_value P.row T.row P.R.row ⟦<P as Prefix>⟧ ⟦<P::R as Key>⟧ self.entry (take len (P.bits prefix.now)) result.1) }

        // The returned key has these bits, and zeros after them.
        ensures key { result.0 ≡ P.of_bits (take len (P.bits prefix.now)) }
        ensures fits { IsTrue (P.fits result.0) }
        ensures bits { P.bits result.0 ≡ take len (P.bits prefix.now) }

        // The reference is to the value stored at this key.
        ensures value { map.get self.old.entries (take len (P.bits prefix.now)) ≡ Some result.1.now }
    {
        let path = first_bits(prefix, len);
        (truncated(prefix, len), self.value_mut(&path))
    }

    /// Returns the longest key that contains the prefix, possibly the prefix itself, and a mutable reference to its value. A write
    /// through this reference has no contract. If a proof needs one, use `match_mut` or `get_lpm_value_mut`.
    ///
    /// # Examples
    /// In a map with 10.0.0.0/8 and 10.1.0.0/16; `net` reads a network, and `is_text` compares one with a text:
    ///
    /// ```rust
    /// let found = map.get_lpm_mut(&net(rt, "10.2.3.4/32"));
    /// let (key, value) = found.expect(rt, "a match");
    /// is_text(rt, key, "10.0.0.0/8");
    /// *value = 7;
    /// ```
    pub fn get_lpm_mut(&mut self, prefix: &P) -> Option<(P, &mut T)>
        requires { IsTrue (P.fits prefix.now) }
        ensures { MatchOption result (NoBeginning self.old.entries (P.bits prefix.now)) (λ r. IsLongestKey P.fits P.bits P.of_bits self.old.entries (P.bits prefix.now) r.0 r.1.now) }
    {
        match self.lpm_len(prefix) {
            None => None,
            Some(len) => Some(self.match_mut(prefix, len)),
        }
    }

    /// Returns a mutable reference to the value of the longest key that contains the prefix.
    ///
    /// # Examples
    /// In a map with `inner`, 10.1.0.0/16; `host` is 10.1.2.3/32:
    ///
    /// ```rust
    /// *map.get_lpm_value_mut(&host).expect(&rt, "a match") = 6;
    /// assert_eq!(rt; map.get(&inner), Some(&6));
    /// ```
    pub fn get_lpm_value_mut(&mut self, prefix: &P) -> Option<&mut T>
        requires { IsTrue (P.fits prefix.now) }
        ensures* writes_back { sem 𝓛 (lends_longest P.row T.row P.R.row ⟦<P as Prefix>⟧ ⟦<P::R as Key>⟧ self.entry (P.bits prefix.now) result) }
        ensures value { MatchOption result (NoBeginning self.old.entries (P.bits prefix.now)) (λ r. (n : ℕ) × IsLongest self.old.entries (P.bits prefix.now) n r.now) }
    {
        match self.lpm_len(prefix) {
            None => None,
            Some(len) => {
                let path = first_bits(prefix, len);
                Some(self.value_mut(&path))
            }
        }
    }
}
