//! Removal of the entries that a closure rejects.
ghost use Rattle.std.specs.Prelude.{◌≡◌};
ghost use Rattle.std.specs.List.Retain.{IsFiltered};
ghost use Rattle.std.specs.FinMap.{empty, entries};
ghost use Rattle.prefix_trie.specs.Retain.{AnswersAt, TakesAt, CallableInTurn};

use crate::map::PrefixMap;
use crate::prefix::{Prefix, prefix_of};
use trie_core::Path;

impl<P: Prefix + Drop, T: Drop> PrefixMap<P, T> {
    /// Calls `f` on each entry once, in the order of a walk, and keeps the entries for which `f` returns `true`. `f` need not accept other
    /// entries. Afterwards the map is tidy, even if it wasn't before. Does not allocate.
    ///
    /// # Examples
    /// In a map with the values 1 and 2:
    ///
    /// ```rust
    /// map.retain(|_, value| *value > 1);
    /// assert_eq!(rt; map.len(), 1);
    /// ```
    pub fn retain<F: FnMut(&P, &T) -> bool>(&mut self, f: F)
        requires { CallableInTurn (AnswersAt F.FnMut P.fits P.bits P.of_bits) (TakesAt F.FnMut P.fits P.bits P.of_bits) f (entries self.old.entries) }
        ensures kept { IsFiltered (AnswersAt F.FnMut P.fits P.bits P.of_bits) f (entries self.old.entries) (entries self.new.entries) }
        ensures tidy { self.new.spares ≡ empty }
    {
        self.take_refused(f);
        self.nodes -= self.root.take_spares();
    }

    /// Removes the entries for which `f` returns `false`, and keeps every node.
    fn take_refused<F: FnMut(&P, &T) -> bool>(&mut self, f: F)
        requires { CallableInTurn (AnswersAt F.FnMut P.fits P.bits P.of_bits) (TakesAt F.FnMut P.fits P.bits P.of_bits) f (entries self.old.entries) }
        ensures { IsFiltered (AnswersAt F.FnMut P.fits P.bits P.of_bits) f (entries self.old.entries) (entries self.new.entries) }
    {
        let mut f = f;
        let mut next = self.key_from(Path::new(0, 0), true);
        'entry: while let Some(path) = next {
            let prefix: P = prefix_of(&path);
            next = self.key_from(path, false);
            let Some(value) = self.get(&prefix) else {
                unreachable!()
            };
            if !f(&prefix, value) {
                drop(self.remove_keep_tree(&prefix));
            }
        }
    }
}
