//! The borrowed values or children of a node that a walk still has, each at a place below 32.
ghost use Rattle.std.specs.Prelude.{◌≡◌, ◌≤◌, [], ◌∷◌, count_ones, length, not, nat_lt, MatchOption, ⊤};
ghost use Rattle.std.specs.Ordering.{nat_cmp};
ghost use Rattle.std.specs.FinMap.Entries.{where_key};
ghost use Rattle.shape.specs.Shapes.{items_of};
ghost use Rattle.trie_core.specs.InnerPlaces.{placed, first_place_of};

use crate::slots::{first_place, low_bits};
use crate::tables::bit;
use shape::Items;
use std::marker::Model;

/// Borrowed items that are left, each at a place below 32. The bits of a word mark the places, and the items are in the order of their
/// places.
#[derive(Drop)]
pub(crate) struct LentPlaces<'a, X> {
    taken: u32,
    items: Items<'a, X>,
}

impl<'a, X> Model for LentPlaces<'a, X> {
    ghost use Rattle.std.specs.Prelude.{List, ℕ, ◌≡◌, length, count_ones};
    ghost use Rattle.shape.specs.Shapes.{items_of};
    ghost use Rattle.trie_core.specs.InnerPlaces.{placed};

    ghost Value = { List (ℕ × X) };

    ghost view = { λ a. placed a.taken (items_of a.items) };

    ghost invariant = { λ a. count_ones a.taken ≡ length (items_of a.items) };
}

impl<'a, X> LentPlaces<'a, X> {
    /// The items of a list at the places that a word marks.
    #[inline]
    pub(crate) fn new(taken: u32, items: Items<'a, X>) -> LentPlaces<'a, X>
        requires { count_ones taken ≡ length (items_of items) }
        ensures { result ≡ placed taken (items_of items.entry) }
    {
        LentPlaces { taken, items }
    }

    /// No items.
    #[inline]
    pub(crate) fn none() -> LentPlaces<'a, X>
        ensures { result ≡ [] }
    {
        LentPlaces {
            taken: 0,
            items: Items::none(),
        }
    }

    /// The same items at the same places.
    #[inline]
    pub(crate) fn again(&self) -> LentPlaces<'a, X>
        ensures { result ≡ self.now }
    {
        LentPlaces {
            taken: self.taken,
            items: self.items.again(),
        }
    }

    /// The first place.
    #[inline]
    pub(crate) fn first_place(&self) -> Option<u8>
        ensures { result ≡ first_place_of self.now }
    {
        if self.taken == 0 {
            return None;
        }
        Some(first_place(self.taken))
    }

    /// The item and its place, if there is only one.
    #[inline]
    pub(crate) fn only(&self) -> Option<(u8, &'a X)>
        ensures { MatchOption result ⊤ (λ p. self.now ≡ (p.0, p.1.now) ∷ []) }
    {
        let (only, others) = self.items.split_first()?;
        if let Some(_) = others.split_first() {
            return None;
        }
        Some((first_place(self.taken), only))
    }

    /// Takes out the first item, with its place.
    #[inline]
    pub(crate) fn next(&mut self) -> Option<(u8, &'a X)>
        ensures { MatchOption result ((self.old ≡ []) × (self.new ≡ [])) (λ p. self.old ≡ (p.0, p.1.now) ∷ self.new) }
    {
        let Some((first, rest)) = self.items.split_first() else {
            return None;
        };
        let place = first_place(self.taken);
        self.taken -= bit(place);
        self.items = rest;
        Some((place, first))
    }

    /// The items at this place and after it.
    pub(crate) fn from(self, place: u8) -> LentPlaces<'a, X>
        requires { place ≤ 32 }
        ensures { result ≡ where_key nat_cmp (λ k. not (nat_lt k place)) self.entry }
    {
        let passed = low_bits(self.taken, place);
        LentPlaces {
            taken: self.taken - passed,
            items: self.items.back(passed.count_ones() as usize),
        }
    }

    /// The items at places below this one.
    pub(crate) fn before(self, place: u8) -> LentPlaces<'a, X>
        requires { place ≤ 32 }
        ensures { result ≡ where_key nat_cmp (λ k. nat_lt k place) self.entry }
    {
        let taken = low_bits(self.taken, place);
        LentPlaces {
            taken,
            items: self.items.front(taken.count_ones() as usize),
        }
    }
}
