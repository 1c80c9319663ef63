//! Removal of many entries of a map at once.
ghost use Rattle.std.specs.Prelude.{◌≡◌, ◌+◌, ◌≤◌, length, IsTrue};
ghost use Rattle.std.specs.FinMap as map;
ghost use Rattle.trie_core.specs.Count.{nodes};
ghost use Rattle.trie_core.specs.Inside.{outside};
ghost use Rattle.trie_core.specs.Ways.{IsCut};

use crate::map::PrefixMap;
use crate::prefix::{Prefix, path_of};

impl<P: Prefix + Drop, T: Drop> PrefixMap<P, T> {
    /// Removes all entries, and all nodes but the root. Does not allocate.
    ///
    /// # Examples
    /// ```rust
    /// map.clear();
    /// assert!(rt; map.is_empty());
    /// ```
    pub fn clear(&mut self)
        ensures map { self.new.entries ≡ map.empty }
        ensures tidy { self.new.spares ≡ map.empty }
    {
        self.root.clear();
        self.len = 0;
        self.nodes = 1;
    }

    /// Removes every entry whose key the prefix contains, its own entry included. Then the last node on the path of the prefix, and each
    /// node above it, is removed while it has neither values nor children and isn't the root. A prefix of length 0 clears the map. Does
    /// not allocate.
    ///
    /// # Examples
    /// In a map with 10.0.0.0/8, and `inner`, 10.1.0.0/16:
    ///
    /// ```rust
    /// map.remove_children(&inner);
    /// assert_eq!(rt; map.len(), 1);
    /// ```
    pub fn remove_children(&mut self, prefix: &P)
        requires { IsTrue (P.fits prefix.now) }

        // All entries inside the prefix are removed, its own included.
        ensures map { self.new.entries ≡ outside self.old.entries (P.bits prefix.now) }

        // Nodes inside the prefix are removed, and nodes on its path that then lead nowhere; a tidy map stays tidy.
        ensures spares { IsCut (P.bits prefix.now) self.old.spares self.new.entries self.new.spares }
        ensures tidy { self.old.spares ≡ map.empty → self.new.spares ≡ map.empty }

        // A prefix of length 0 leaves no spare node, and no prefix leaves more nodes than before.
        ensures cleared { length (P.bits prefix.now) ≡ 0 → self.new.spares ≡ map.empty }
        ensures count { nodes self.new.entries + map.len self.new.spares ≤ nodes self.old.entries + map.len self.old.spares }
    {
        if prefix.prefix_len() == 0 {
            self.clear();
            return;
        }
        let (entries, nodes) = self.root.remove_children(&path_of(prefix));
        self.len -= entries;
        self.nodes -= nodes;
    }
}
