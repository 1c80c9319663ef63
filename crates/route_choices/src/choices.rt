//! The choices of one network.
ghost use Rattle.std.specs.Prelude.{◌≡◌, ◌+◌, ◌-◌, ◌<◌, [], ◌∷◌, ◌++◌, None, drop, false, length, OnErr, OnOk, take, true};
ghost use Rattle.std.specs.List.{position_or_len};
ghost use Rattle.std.specs.Iterator.{item_count};
ghost use Rattle.route_choices.specs.Items.{GivesChoice};
ghost use Rattle.route_choices.specs.Choices.{AreChoices, best_hop, best_preference, choices_with, choices_without, has_none, holds_hop, is_one_too_many};
ghost use Rattle.route_choices.specs.Hops.{IsHop};
ghost use Rattle.route_choices.specs.InnerSlots.{ends_at, ends_before};

use crate::hop::Hop;
use crate::slot::{Slot, is_same};
use crate::too_many::TooMany;
use std::marker::Model;

/// At most eight hops with their preferences, best first, each hop once. There is room for `CAPACITY` choices of seven bytes each.
/// They do not allocate.
///
/// Contracts see the list of the choices.
///
/// # Examples
/// ```rust
/// let mut choices: Choices<8> = Choices::one(Hop::Number(5), 100);
/// assert_eq!(rt; choices.add(Hop::Number(3), 100), Ok(()));
/// assert_eq!(rt; choices.add(Hop::Drop, 200), Ok(()));
/// assert_eq!(rt; choices.best(), (Hop::Drop, 200));
/// ```
#[derive(Drop)]
pub struct Choices<const CAPACITY: usize> {
    slots: [Slot; CAPACITY],
}

impl<const CAPACITY: usize> Model for Choices<CAPACITY> {
    ghost use Rattle.std.specs.Prelude.{◌≡◌, List};
    ghost use Rattle.route_choices.specs.Choices.{AreChoices, Choice};
    ghost use Rattle.route_choices.specs.InnerSlots.{filled, padded};

    ghost Value = { List Choice };

    ghost view = { λ c. filled c.slots };

    ghost invariant = { λ c. (c.slots ≡ padded CAPACITY (filled c.slots)) × AreChoices (filled c.slots) };
}

/// The first slot that has the hop or is free, or the number of slots if there is none.
fn place(slots: &[Slot], hop: Hop) -> usize
    ensures { result ≡ position_or_len (ends_at hop) slots.now }
{
    for (i, slot) in slots.iter().enumerate() {
        if slot.ends_at(hop) {
            return i;
        }
    }
    slots.len()
}

/// The first slot that has a worse choice or is free, or the number of slots if there is none.
fn first_beaten(slots: &[Slot], choice: (Hop, u16)) -> usize
    ensures { result ≡ position_or_len (ends_before (record { hop = choice.0; pref = choice.1 })) slots.now }
{
    for (i, slot) in slots.iter().enumerate() {
        if slot.ends_before(choice) {
            return i;
        }
    }
    slots.len()
}

/// Inserts a choice at a slot. The later choices move to the next slot, and that of the last slot is lost.
fn put(slots: &mut [Slot], at: usize, slot: Slot)
    requires { at < length slots.old }
    ensures { slots.new ≡ take at slots.old ++ slot ∷ take (length slots.old - (at + 1)) (drop at slots.old) }
{
    slots[at..].rotate_right(1);
    slots[at] = slot;
}

/// Frees a slot. The later choices move to the slot before.
fn take_out(slots: &mut [Slot], at: usize)
    requires { at < length slots.old }
    ensures { slots.new ≡ take at slots.old ++ drop (at + 1) slots.old ++ None ∷ [] }
{
    slots[at] = Slot::default();
    slots[at..].rotate_left(1);
}

impl Choices<8> {
    /// Stores the hop with the preference. If the hop is stored already, its preference changes.
    ///
    /// # Errors
    /// `TooMany` exactly if eight other hops are stored. Then nothing changes.
    ///
    /// # Examples
    /// If the hops 3 and 5 are stored:
    ///
    /// ```rust
    /// for number in 6..12 {
    ///     assert_eq!(rt; choices.add(Hop::Number(number), 100), Ok(()));
    /// }
    /// assert_eq!(rt; choices.add(Hop::Drop, 200), Err(TooMany));
    /// ```
    pub fn add(&mut self, hop: Hop, pref: u16) -> Result<(), TooMany>
        // On success the hop has this preference and its place among the others, of which there are fewer than eight.
        ensures choices { OnOk result (self.new ≡ choices_with self.old (record { hop = hop; pref = pref })) }
        ensures room { OnOk result (is_one_too_many self.old hop ≡ false) }

        // On failure there are eight other hops, and nothing changes.
        ensures full { OnErr result (is_one_too_many self.old hop ≡ true) }
        ensures unchanged { OnErr result (self.new ≡ self.old) }

        // There are at most eight choices, best first, each hop once.
        ensures are { AreChoices self.new }
    {
        self.are_choices();
        self.remove(hop);
        if self.slots[7].get().is_some() {
            return Err(TooMany);
        }
        let to = first_beaten(&self.slots, (hop, pref));
        put(&mut self.slots, to, Slot::new(hop, pref));
        Ok(())
    }
}

impl<const CAPACITY: usize> Choices<CAPACITY> {
    /// Makes a list of one choice. `CAPACITY` must not be 0.
    ///
    /// # Examples
    /// ```rust
    /// let mut choices: Choices<8> = Choices::one(Hop::Number(5), 100);
    /// assert_eq!(rt; choices.add(Hop::Number(3), 100), Ok(()));
    /// ```
    pub fn one(hop: Hop, pref: u16) -> Choices<CAPACITY>
        requires { 0 < CAPACITY }
        ensures choices { result ≡ record { hop = hop; pref = pref } ∷ [] }
        ensures are { AreChoices result }
        ensures in_range { IsHop hop }
    {
        let mut slots: [Slot; CAPACITY] = Default::default();
        slots[0] = Slot::new(hop, pref);
        Choices { slots }
    }

    /// Removes the hop, and returns whether it was stored.
    ///
    /// # Examples
    /// If `drop` is the best choice, and the hop 3 with preference 100 the next one:
    ///
    /// ```rust
    /// assert!(rt; choices.remove(Hop::Drop));
    /// assert_eq!(rt; choices.best(), (Hop::Number(3), 100));
    /// ```
    pub fn remove(&mut self, hop: Hop) -> bool
        ensures held { result ≡ holds_hop self.old hop }
        ensures choices { self.new ≡ choices_without self.old hop }
        ensures are { AreChoices self.new }
    {
        let at = place(&self.slots, hop);
        let Some(slot) = self.slots.get(at) else {
            return false;
        };
        if slot.get().is_none() {
            return false;
        }
        take_out(&mut self.slots, at);
        true
    }

    /// Returns the best choice, or `drop` with preference 0 if there is none. A stored network always has a choice.
    ///
    /// # Examples
    /// If all other choices have the preference 100:
    ///
    /// ```rust
    /// assert_eq!(rt; choices.add(Hop::Drop, 200), Ok(()));
    /// assert_eq!(rt; choices.best(), (Hop::Drop, 200));
    /// ```
    pub fn best(&self) -> (Hop, u16)
        ensures { result ≡ (best_hop self.now, best_preference self.now) }
    {
        self.all().best()
    }

    /// Returns whether no other hop than this one is stored.
    ///
    /// # Examples
    /// If the hop 5 alone is stored:
    ///
    /// ```rust
    /// assert!(rt; choices.has_no_other(Hop::Number(5)));
    /// assert!(rt; !choices.has_no_other(Hop::Drop));
    /// ```
    pub fn has_no_other(&self, hop: Hop) -> bool
        ensures { result ≡ has_none (choices_without self.now hop) }
    {
        self.are_choices();
        let mut all = self.all();
        match all.next() {
            None => true,
            Some((first, _)) => is_same(first, hop) && all.next().is_none(),
        }
    }

    /// Returns all choices, best first.
    ///
    /// # Examples
    /// If the hops 5 and 3 are stored with preference 100:
    ///
    /// ```rust
    /// let mut all = choices.all();
    /// assert_eq!(rt; all.next(), Some((Hop::Number(3), 100)));
    /// assert_eq!(rt; all.next(), Some((Hop::Number(5), 100)));
    /// assert_eq!(rt; all.next(), None);
    /// ```
    pub fn all(&self) -> All<'_>
        ensures { result ≡ self.now }
    {
        All { left: &self.slots }
    }

    /// The contract says that these are valid choices, as the theorems about choices require.
    pub fn are_choices(&self)
        ensures { AreChoices self.now }
    {
        let _ = &self.slots;
    }
}

/// Hops with their preferences, best first. Does not allocate.
#[derive(Drop)]
pub struct All<'a> {
    left: &'a [Slot],
}

impl<'a> Model for All<'a> {
    ghost use Rattle.std.specs.Prelude.{List};
    ghost use Rattle.route_choices.specs.Choices.{Choice};
    ghost use Rattle.route_choices.specs.InnerSlots.{filled};

    ghost Value = { List Choice };

    ghost view = { λ a. filled a.left.now };
}

impl<'a> All<'a> {
    /// Makes an iterator without choices, as for a network that isn't stored.
    pub fn none() -> All<'a>
        ensures { result ≡ [] }
    {
        All { left: &[] }
    }

    /// Returns the first choice that is left, or `drop` with preference 0 if there is none.
    pub fn best(&self) -> (Hop, u16)
        ensures { result ≡ (best_hop self.now, best_preference self.now) }
    {
        match self.left.first() {
            None => (Hop::Drop, 0),
            Some(slot) => slot.get().unwrap_or((Hop::Drop, 0)),
        }
    }
}

impl<'a> Iterator for All<'a> {
    type Item = (Hop, u16);

    ghost next_gives = { GivesChoice };

    ghost remaining = { item_count (λ cs. cs) };

    fn next(&mut self) -> Option<(Hop, u16)> {
        let (first, rest) = self.left.split_first()?;
        let choice = first.get()?;
        self.left = rest;
        Some(choice)
    }
}
