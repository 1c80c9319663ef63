//! The walks over entries that iterators are made of: in any direction, with borrowed or owned values.
ghost use Rattle.std.specs.Prelude.{◌≡◌, List, [], Bool};
ghost use Rattle.prefix_trie.specs.Iterators.{GivesFirst};

use trie_core::{Cover, OwnedWalk, Path, Walk};

/// A walk over entries with values of type `T`, which it returns as `Given`: borrowed or owned.
pub trait EntryWalk<T>: Drop {
    /// A value as the walk returns it.
    type Given: Drop;

    /// The entries that are left.
    ghost left: { Self → List (List Bool × T) };

    /// The returned value as contracts see it.
    ghost value: { Self.Given → T };

    /// Returns the next entry.
    fn next_entry(&mut self) -> Option<(Path, Self::Given)>
        ensures { GivesFirst value (left self.old) result (left self.new) };
}

/// A walk over borrowed values. It can be cloned, and its default is empty.
pub trait BorrowedWalk<T>: EntryWalk<T> + Clone + Default {
    /// A clone has the same entries left.
    ghost same: { (w r : Self) → Self.is_clone w r → Self.left r ≡ Self.left w };

    /// Cloning never fails.
    ghost always: { (w : Self) → Self.is_infallible w };

    /// The default has no entries left.
    ghost none: { (w : Self) → Self.is_default w → Self.left w ≡ [] };
}

impl<'a, T> EntryWalk<T> for Walk<'a, T> {
    type Given = &'a T;

    ghost left = { λ w. w.0 };

    ghost value = { λ v. v.now };

    #[inline(always)]
    fn next_entry(&mut self) -> Option<(Path, &'a T)> {
        self.next()
    }
}

impl<'a, T> EntryWalk<T> for Cover<'a, T> {
    type Given = &'a T;

    ghost left = { λ w. w.0 };

    ghost value = { λ v. v.now };

    fn next_entry(&mut self) -> Option<(Path, &'a T)> {
        self.next()
    }
}

impl<T: Drop> EntryWalk<T> for OwnedWalk<T> {
    type Given = T;

    ghost left = { λ w. w.0 };

    ghost value = { λ v. v };

    #[inline(never)]
    fn next_entry(&mut self) -> Option<(Path, T)> {
        self.next()
    }
}

impl<'a, T> BorrowedWalk<T> for Walk<'a, T> {
    ghost use Rattle.std.proofs.Common.{ap};

    ghost same = { λ w r e. ap (λ v. v.0) e };

    ghost always = { λ w. tt };

    ghost none = { λ w e. e };
}

impl<'a, T> BorrowedWalk<T> for Cover<'a, T> {
    ghost use Rattle.std.proofs.Common.{ap};

    ghost same = { λ w r e. ap (λ v. v.0) e };

    ghost always = { λ w. tt };

    ghost none = { λ w e. e };
}
