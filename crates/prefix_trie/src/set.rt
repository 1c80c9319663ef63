//! The set, and its iterators.
ghost use Rattle.std.specs.Prelude.{◌≡◌, ◌+◌, ◌<◌, ◌≤◌, ◌^◌, List, length, not, true, false, IfOk, IfErr, IsOk, IsTrue, ◌↔◌, OnErr, OnOk, MatchOption, map, All};
ghost use Rattle.std.specs.Cmp.{partial_equiv_from_equiv};
ghost use Rattle.std.specs.FinMap as fin;
ghost use Rattle.std.specs.FinMap.Entries.{where_key};
ghost use Rattle.std.specs.Iterator.{Drains, HoldsAlong, IsFinite};
ghost use Rattle.std.specs.List.Retain.{IsFiltered};
ghost use Rattle.trie_core.specs.Bits.{is_from};
ghost use Rattle.ipnet_blocks.specs.BitStrings.{bits_cmp, begins};
ghost use Rattle.trie_core.specs.Count.{nodes};
ghost use Rattle.trie_core.specs.Inside.{outside};
ghost use Rattle.trie_core.specs.Ways.{AreIdle, off_way, IsPruned, IsCut, IsKept};
ghost use Rattle.trie_core.specs.Search.{NoBeginning};
ghost use Rattle.prefix_trie.specs.Covered.{covered_count};
ghost use Rattle.prefix_trie.specs.Made.{inserted};
ghost use Rattle.prefix_trie.specs.Maps.{IsLongestKey, IsShortestKey};
ghost use Rattle.prefix_trie.specs.Refusals.{no_room};
ghost use Rattle.prefix_trie.specs.Retain.{AnswersAtMember, CallableInTurn, TakesMember};
ghost use Rattle.prefix_trie.specs.Equal.{same_sets};
ghost use Rattle.prefix_trie.specs.InnerEqual.{same_sets-equivalence};
ghost use Rattle.prefix_trie.specs.declared.refused.Refused.TheVariants.{Full, Memory};

use crate::iterators::{CoverKeys, IntoKeys, Keys};
use crate::map::PrefixMap;
use crate::prefix::Prefix;
use crate::refused::Refused;
use std::alloc::Global;
use std::marker::Model;

/// A set of prefixes. Two prefixes are the same member if their first `prefix_len` bits are equal.
///
/// A set is a map from its members to `()`, and behaves like one: returned members have zeros after the bits of the prefix, and every
/// call but `remove_keep_tree` keeps a tidy set tidy. A set is `Send` or `Sync` if its members are.
#[derive(Drop)]
pub struct PrefixSet<P: Prefix> {
    members: PrefixMap<P, ()>,
}

impl<P: Prefix> Model for PrefixSet<P> {
    ghost use base.Stored.{coded_unit};
    ghost use Rattle.prefix_trie.specs.Seen.{SeenMap, code};

    ghost Value = { SeenMap (Unit {0}) };

    ghost coded = { code coded_unit };

    ghost view = { λ a. a.members };
}

impl<P: Prefix> PrefixSet<P> {
    /// Makes the empty set. Does not allocate.
    ///
    /// # Errors
    /// None, as in `PrefixMap::new`.
    ///
    /// # Examples
    /// ```rust
    /// let mut set: PrefixSet<(u32, u8)> = PrefixSet::new(rt.alloc()).expect(&rt, "a set");
    /// ```
    pub fn new(alloc: Global) -> Result<PrefixSet<P>, Refused>
        ensures set { IfOk result (λ s. s.entries ≡ fin.empty) }
        ensures tidy { IfOk result (λ s. s.spares ≡ fin.empty) }
        ensures ok { IsOk result }
    {
        Ok(PrefixSet {
            members: PrefixMap::new(alloc)?,
        })
    }

    /// Returns the number of members.
    ///
    /// # Examples
    /// In a set with two members:
    ///
    /// ```rust
    /// assert_eq!(rt; set.len(), 2);
    /// ```
    pub fn len(&self) -> usize
        ensures { result ≡ fin.len self.now.entries }
    {
        self.members.len()
    }

    /// Returns whether the set has no member.
    ///
    /// # Examples
    /// ```rust
    /// set.clear();
    /// assert!(rt; set.is_empty());
    /// ```
    pub fn is_empty(&self) -> bool
        ensures { IsTrue result ↔ (self.now.entries ≡ fin.empty) }
    {
        self.members.is_empty()
    }

    /// Returns the number of nodes, as `PrefixMap::node_count` does.
    pub fn node_count(&self) -> usize
        ensures all { result ≡ nodes self.now.entries + fin.len self.now.spares }
        ensures idle { AreIdle self.now.entries self.now.spares }
        ensures tidy { self.now.spares ≡ fin.empty → result ≡ nodes self.now.entries }
    {
        self.members.node_count()
    }

    /// Returns the number of addresses that the members cover, each counted once, or `None` if all are covered. Does not allocate.
    ///
    /// # Examples
    /// `halves` is an empty set of `(u128, u8)`, and `is_equal` checks that two values are equal:
    ///
    /// ```rust
    /// holds(&rt, halves.insert((0, 1)).is_ok());
    /// is_equal(&rt, halves.address_count(), Some(1 << 127));
    /// holds(&rt, halves.insert((1 << 127, 1)).is_ok());
    /// is_equal(&rt, halves.address_count(), None);
    /// ```
    pub fn address_count(&self) -> Option<P::R>
    where
        P: Drop,
        ensures { MatchOption result (covered_count P.R.width self.now.entries ≡ 2 ^ P.R.width) (λ n. (P.R.number n ≡ covered_count P.R.width self.now.entries) × (covered_count P.R.width self.now.entries < 2 ^ P.R.width)) }
    {
        self.members.address_count()
    }

    /// Returns an equal set with as many nodes.
    ///
    /// # Errors
    /// - `Memory`: an allocation fails. All that was copied is dropped.
    ///
    /// # Examples
    /// `is_copy` checks that `copy == set`:
    ///
    /// ```rust
    /// let copy = set.try_clone(rt.alloc()).expect(&rt, "a copy");
    /// is_copy(&rt, &set, &copy);
    /// ```
    pub fn try_clone(&self, alloc: Global) -> Result<PrefixSet<P>, Refused>
        ensures same { IfOk result (λ s. s ≡ self.now) }
        ensures memory { IfErr result (λ e. e ≡ Memory) }
    {
        Ok(PrefixSet {
            members: self.members.try_clone(alloc)?,
        })
    }

    /// Returns whether exactly this prefix is a member.
    ///
    /// # Examples
    /// In a set of 10.1.0.0/16 and 10.0.0.0/8; `host` is 10.1.2.3/32:
    ///
    /// ```rust
    /// assert!(rt; set.contains(&(0x0a01_0203, 16)) && !set.contains(&host));
    /// ```
    pub fn contains(&self, prefix: &P) -> bool
        requires { IsTrue (P.fits prefix.now) }
        ensures { result ≡ fin.contains_key self.now.entries (P.bits prefix.now) }
    {
        self.members.contains_key(prefix)
    }

    /// Returns the member that equals this prefix, with zeros after the bits of the prefix.
    ///
    /// # Examples
    /// In a set with the member `inner`, 10.1.0.0/16:
    ///
    /// ```rust
    /// assert_eq!(rt; set.get(&(0x0a01_0203, 16)), Some(inner));
    /// ```
    pub fn get(&self, prefix: &P) -> Option<P>
        requires { IsTrue (P.fits prefix.now) }
        ensures { MatchOption result (fin.contains_key self.now.entries (P.bits prefix.now) ≡ false) (λ k. (fin.contains_key self.now.entries (P.bits prefix.now) ≡ true) × (k ≡ P.of_bits (P.bits prefix.now)) × (P.bits k ≡ P.bits prefix.now) × IsTrue (P.fits k)) }
    {
        match self.members.get_key_value(prefix) {
            None => None,
            Some((key, _)) => Some(key),
        }
    }

    /// Returns the longest member that contains the prefix, possibly the prefix itself.
    ///
    /// # Examples
    /// In a set of `inner`, 10.1.0.0/16, and `wide`, 10.0.0.0/8:
    ///
    /// ```rust
    /// assert_eq!(rt; set.get_lpm(&(0x0a01_0203, 32)), Some(inner));
    /// assert_eq!(rt; set.get_lpm(&(0x0a09_0000, 16)), Some(wide));
    /// ```
    pub fn get_lpm(&self, prefix: &P) -> Option<P>
        requires { IsTrue (P.fits prefix.now) }
        ensures { MatchOption result (NoBeginning self.now.entries (P.bits prefix.now)) (λ k. IsLongestKey P.fits P.bits P.of_bits self.now.entries (P.bits prefix.now) k tt) }
    {
        self.members.get_lpm_prefix(prefix)
    }

    /// Returns the shortest member that contains the prefix, possibly the prefix itself.
    ///
    /// # Examples
    /// In a set of 10.1.0.0/16, and `wide`, 10.0.0.0/8; `host` is 10.1.2.3/32:
    ///
    /// ```rust
    /// assert_eq!(rt; set.get_spm(&host), Some(wide));
    /// ```
    pub fn get_spm(&self, prefix: &P) -> Option<P>
        requires { IsTrue (P.fits prefix.now) }
        ensures { MatchOption result (NoBeginning self.now.entries (P.bits prefix.now)) (λ k. IsShortestKey P.fits P.bits P.of_bits self.now.entries (P.bits prefix.now) k tt) }
    {
        self.members.get_spm_prefix(prefix)
    }

    /// Returns whether a member contains the prefix.
    ///
    /// # Examples
    /// In a set of 10.1.0.0/16 and 10.0.0.0/8; `host` is 10.1.2.3/32:
    ///
    /// ```rust
    /// assert!(rt; set.is_covered(&host) && !set.is_covered(&(0x0b00_0000, 8)));
    /// ```
    pub fn is_covered(&self, prefix: &P) -> bool
        requires { IsTrue (P.fits prefix.now) }
        ensures { IsTrue result ↔ (NoBeginning self.now.entries (P.bits prefix.now) → ⊥) }
    {
        self.members.is_covered(prefix)
    }

    /// Returns all members, in the order of a walk.
    ///
    /// # Examples
    /// In a set of `inner`, 10.1.0.0/16, and `wide`, 10.0.0.0/8:
    ///
    /// ```rust
    /// let mut members = set.iter();
    /// assert_eq!(rt; members.next(), Some(wide));
    /// assert_eq!(rt; members.next(), Some(inner));
    /// assert_eq!(rt; members.next(), None);
    /// ```
    pub fn iter(&self) -> Iter<'_, P>
        ensures { result ≡ fin.keys self.now.entries }
    {
        self.members.keys()
    }

    /// Returns the members that come after the prefix in the order of a walk. Members inside the prefix come after it. If `inclusive`, the
    /// prefix itself is the first if it is a member.
    ///
    /// # Examples
    /// In a set of `inner`, 10.1.0.0/16, and `wide`, 10.0.0.0/8:
    ///
    /// ```rust
    /// assert_eq!(rt; set.iter_from(&wide, false).next(), Some(inner));
    /// ```
    pub fn iter_from(&self, prefix: &P, inclusive: bool) -> Iter<'_, P>
        requires { IsTrue (P.fits prefix.now) }
        ensures { result ≡ map (λ e. e.0) (where_key bits_cmp (is_from (P.bits prefix.now) inclusive) (fin.entries self.now.entries)) }
    {
        Iter::of_entries(self.members.iter_from(prefix, inclusive))
    }

    /// Returns the members that the prefix contains, itself included, in the order of a walk.
    ///
    /// # Examples
    /// In a set of `inner`, 10.1.0.0/16, and `wide`, 10.0.0.0/8:
    ///
    /// ```rust
    /// assert_eq!(rt; set.children(&inner).next(), Some(inner));
    /// ```
    pub fn children(&self, prefix: &P) -> Iter<'_, P>
        requires { IsTrue (P.fits prefix.now) }
        ensures { result ≡ map (λ e. e.0) (where_key bits_cmp (begins (P.bits prefix.now)) (fin.entries self.now.entries)) }
    {
        Iter::of_entries(self.members.children(prefix))
    }

    /// Returns the members that contain the prefix, itself included, shortest first.
    ///
    /// # Examples
    /// In a set of `inner`, 10.1.0.0/16, and `wide`, 10.0.0.0/8:
    ///
    /// ```rust
    /// assert_eq!(rt; set.cover(&(0x0a01_0203, 32)).next(), Some(wide));
    /// ```
    pub fn cover(&self, prefix: &P) -> CoverKeys<'_, P, ()>
        requires { IsTrue (P.fits prefix.now) }
        ensures { result ≡ map (λ e. e.0) (where_key bits_cmp (λ k. begins k (P.bits prefix.now)) (fin.entries self.now.entries)) }
    {
        self.members.cover_keys(prefix)
    }
}

impl<P: Prefix + Drop> PrefixSet<P> {
    /// Makes the set of these prefixes. It is tidy.
    ///
    /// # Errors
    /// - `Memory`: a prefix can't be inserted, as in `insert`. All that was stored is dropped.
    ///
    /// # Examples
    /// `members` is an array of prefixes:
    ///
    /// ```rust
    /// PrefixSet::try_from_iter(alloc, Vec::from_array(alloc, members).expect(rt, "members"))
    /// ```
    pub fn try_from_iter<U: IntoIterator<Item = P>>(
        alloc: Global,
        items: U,
    ) -> Result<PrefixSet<P>, Refused>
        requires { (it : U.IntoIter) → U.into_iter_gives items it → U.IntoIter.can_next it × IsFinite (U.IntoIter.remaining it) × HoldsAlong U.IntoIter.next_gives it (All (λ p. IsTrue (P.fits p))) }
        ensures set { IfOk result (λ s. (it : U.IntoIter) × (ps : List P) × U.into_iter_gives items it × Drains U.IntoIter.next_gives it ps × (s.entries ≡ inserted P.bits fin.empty (map (λ p. (p, tt)) ps))) }
        ensures tidy { IfOk result (λ s. s.spares ≡ fin.empty) }
        ensures memory { IfErr result (λ e. e ≡ Memory) }
    {
        let mut rest = items.into_iter();
        let mut made = PrefixSet::new(alloc)?;
        'item: while let Some(prefix) = rest.next() {
            made.insert(prefix)?;
        }
        Ok(made)
    }

    /// Inserts the prefix, and returns whether it is new. If it is a member, it does not allocate and never fails.
    ///
    /// # Errors
    /// - `Memory`: as in `PrefixMap::insert`. The set is unchanged.
    ///
    /// # Examples
    /// ```rust
    /// let inner = (0x0a01_0000, 16);
    /// assert_eq!(rt; set.insert(inner), Ok(true));
    /// assert_eq!(rt; set.insert((0x0a01_0203, 16)), Ok(false));
    /// ```
    pub fn insert(&mut self, prefix: P) -> Result<bool, Refused>
        requires { IsTrue (P.fits prefix) }

        // On success the prefix is a member, and the result says whether it is new.
        ensures new { IfOk result (λ new. new ≡ not (fin.contains_key self.old.entries (P.bits prefix))) }
        ensures set { OnOk result (self.new.entries ≡ fin.insert self.old.entries (P.bits prefix) tt) }

        // On success no node on the path of the prefix is spare any more; other spare nodes stay, and a tidy set stays tidy.
        ensures spares { OnOk result (self.new.spares ≡ off_way self.old.spares (P.bits prefix)) }
        ensures tidy { OnOk result (self.old.spares ≡ fin.empty → self.new.spares ≡ fin.empty) }

        // On failure the set is unchanged, and the prefix isn't a member; the refusal is never `Full`.
        ensures unchanged { OnErr result (self.new ≡ self.old) }
        ensures absent { OnErr result (fin.contains_key self.old.entries (P.bits prefix) ≡ false) }
        ensures full { IfErr result (λ e. e ≡ Full → no_room self.old) }
    {
        match self.members.insert(prefix, ()) {
            Ok(old) => Ok(old.is_none()),
            Err((refused, _)) => Err(refused),
        }
    }

    /// Removes the prefix, and returns whether it was a member. Nodes are removed as in `PrefixMap::remove`. Does not allocate.
    ///
    /// # Examples
    /// ```rust
    /// assert!(rt; set.remove(&wide));
    /// assert!(rt; !set.remove(&wide));
    /// ```
    pub fn remove(&mut self, prefix: &P) -> bool
        requires { IsTrue (P.fits prefix.now) }

        // The prefix is removed, and the result says whether it was a member.
        ensures member { result ≡ fin.contains_key self.old.entries (P.bits prefix.now) }
        ensures set { self.new.entries ≡ fin.remove self.old.entries (P.bits prefix.now) }

        // Nodes on the path of the prefix that lead nowhere are removed, and no other spare nodes; a tidy set stays tidy.
        ensures spares { IsPruned (P.bits prefix.now) self.old.spares self.new.entries self.new.spares }
        ensures tidy { self.old.spares ≡ fin.empty → self.new.spares ≡ fin.empty }

        // The set never has more nodes than before.
        ensures count { nodes self.new.entries + fin.len self.new.spares ≤ nodes self.old.entries + fin.len self.old.spares }
    {
        self.members.remove(prefix).is_some()
    }

    /// Removes the prefix, and returns whether it was a member. All nodes are kept. Does not allocate.
    pub fn remove_keep_tree(&mut self, prefix: &P) -> bool
        requires { IsTrue (P.fits prefix.now) }
        ensures member { result ≡ fin.contains_key self.old.entries (P.bits prefix.now) }
        ensures set { self.new.entries ≡ fin.remove self.old.entries (P.bits prefix.now) }
        ensures spares { IsKept (P.bits prefix.now) self.old.entries self.old.spares self.new.entries self.new.spares }
        ensures count { nodes self.new.entries + fin.len self.new.spares ≡ nodes self.old.entries + fin.len self.old.spares }
    {
        self.members.remove_keep_tree(prefix).is_some()
    }

    /// Removes all members. Does not allocate.
    ///
    /// # Examples
    /// ```rust
    /// set.clear();
    /// assert!(rt; set.is_empty());
    /// ```
    pub fn clear(&mut self)
        ensures set { self.new.entries ≡ fin.empty }
        ensures tidy { self.new.spares ≡ fin.empty }
    {
        self.members.clear();
    }

    /// Removes every member that the prefix contains, itself included. Nodes are removed as in `PrefixMap::remove_children`. Does not
    /// allocate.
    ///
    /// # Examples
    /// In a set of 10.1.0.0/16 and 10.0.0.0/8:
    ///
    /// ```rust
    /// set.remove_children(&(0x0a01_0000, 16));
    /// assert_eq!(rt; set.len(), 1);
    /// ```
    pub fn remove_children(&mut self, prefix: &P)
        requires { IsTrue (P.fits prefix.now) }

        // All members inside the prefix are removed, itself included.
        ensures set { self.new.entries ≡ outside self.old.entries (P.bits prefix.now) }

        // Nodes inside the prefix are removed, and nodes on its path that then lead nowhere; a tidy set stays tidy.
        ensures spares { IsCut (P.bits prefix.now) self.old.spares self.new.entries self.new.spares }
        ensures tidy { self.old.spares ≡ fin.empty → self.new.spares ≡ fin.empty }

        // A prefix of length 0 leaves no spare node, and no prefix leaves more nodes than before.
        ensures cleared { length (P.bits prefix.now) ≡ 0 → self.new.spares ≡ fin.empty }
        ensures count { nodes self.new.entries + fin.len self.new.spares ≤ nodes self.old.entries + fin.len self.old.spares }
    {
        self.members.remove_children(prefix);
    }

    /// Calls `f` on each member once, in the order of a walk, and keeps the members for which `f` returns `true`. `f` need not accept
    /// other prefixes. Afterwards the set is tidy, even if it wasn't before. Does not allocate.
    ///
    /// # Examples
    /// In a set of 10.1.0.0/16 and 10.0.0.0/8:
    ///
    /// ```rust
    /// set.retain(|member| member.1 > 8);
    /// assert_eq!(rt; set.len(), 1);
    /// ```
    pub fn retain<F: FnMut(&P) -> bool>(&mut self, f: F)
        requires { CallableInTurn (AnswersAtMember F.FnMut P.fits P.bits P.of_bits) (TakesMember F.FnMut P.fits P.bits P.of_bits) f (fin.keys self.old.entries) }
        ensures kept { IsFiltered (AnswersAtMember F.FnMut P.fits P.bits P.of_bits) f (fin.keys self.old.entries) (fin.keys self.new.entries) }
        ensures tidy { self.new.spares ≡ fin.empty }
    {
        let mut f = f;
        self.members.retain(
            move |member: &P, _: &()| -> bool
                requires { F.pre f member }
            { f(member) },
        );
    }
}

/// Two sets are equal if they have the same members. The number of nodes makes no difference.
impl<P: Prefix> PartialEq for PrefixSet<P> {
    ghost eq = { same_sets };

    ghost laws = { partial_equiv_from_equiv same_sets-equivalence };

    fn eq(&self, other: &PrefixSet<P>) -> bool {
        self.members == other.members
    }
}

impl<P: Prefix> Eq for PrefixSet<P> {
    ghost laws = { same_sets-equivalence };
}

/// The iterator of `iter`, `iter_from` and `children`.
pub type Iter<'a, P> = Keys<'a, P, ()>;

impl<'a, P: Prefix> IntoIterator for &'a PrefixSet<P> {
    type Item = P;

    type IntoIter = Iter<'a, P>;

    ghost into_iter_gives = { λ s r. r ≡ fin.keys s.now.entries };

    fn into_iter(self) -> Iter<'a, P> {
        self.iter()
    }
}

/// The iterator of `into_iter`: owned members.
pub type IntoIter<P> = IntoKeys<P, ()>;

impl<P: Prefix> IntoIterator for PrefixSet<P> {
    type Item = P;

    type IntoIter = IntoIter<P>;

    ghost into_iter_gives = { λ s r. r ≡ fin.keys s.entries };

    /// Returns all members, owned, in the order of a walk.
    ///
    /// # Examples
    /// `set` has members of type `(u32, u8)`. This makes a number of the second bytes of their keys:
    ///
    /// ```rust
    /// let mut digits = 1u32;
    /// for (number, _) in set {
    ///     digits = digits.wrapping_mul(10).wrapping_add((number >> 16) % 256);
    /// }
    /// ```
    fn into_iter(self) -> IntoIter<P> {
        self.members.into_keys()
    }
}
