//! A slot for a choice.
ghost use Rattle.std.specs.Prelude.{◌≡◌, None, Some};
ghost use Rattle.route_choices.specs.Hops.{IsHop};
ghost use Rattle.route_choices.specs.Choices.{beats, hop_before, same_hop};
ghost use Rattle.route_choices.specs.InnerSlots.{ends_at, ends_before, given};

use crate::hop::Hop;
use std::marker::Model;

/// The preference of a route that is given without one.
pub const DEFAULT_PREFERENCE: u16 = 100;

/// The content of a slot.
#[derive(Drop)]
enum Kind {
    Number,
    Drop,
    Free,
}

/// A slot for a hop with its preference, in seven bytes: those of a number and of a preference, and the kind.
///
/// Contracts see the choice, or `None` if the slot is free.
#[derive(Drop)]
pub(crate) struct Slot {
    number: [u8; 4],
    pref: [u8; 2],
    kind: Kind,
}

impl Model for Slot {
    ghost use Rattle.std.specs.Prelude.{Option};
    ghost use Rattle.std.specs.Int.{w16, w32, from_le_bytes};
    ghost use Rattle.route_choices.specs.Choices.{Choice};
    ghost use Rattle.route_choices.specs.InnerSlots.{slot_in};

    ghost Value = { Option Choice };

    ghost view = { λ s. slot_in s.kind (from_le_bytes w32 s.number) (from_le_bytes w16 s.pref) };
}

impl Default for Slot {
    ghost use Rattle.std.specs.Prelude.{None};

    ghost is_default = { λ s. s ≡ None };

    /// The default slot is free.
    fn default() -> Slot {
        Slot {
            number: [0; 4],
            pref: [0; 2],
            kind: Kind::Free,
        }
    }
}

/// Whether two hops are the same.
pub(crate) fn is_same(a: Hop, b: Hop) -> bool
    ensures { result ≡ same_hop a b }
{
    match (a, b) {
        (Hop::Number(a), Hop::Number(b)) => a == b,
        (Hop::Number(_), Hop::Drop) => false,
        (Hop::Drop, Hop::Number(_)) => false,
        (Hop::Drop, Hop::Drop) => true,
    }
}

/// Whether the first hop precedes the second if their preferences are equal.
fn is_before(a: Hop, b: Hop) -> bool
    ensures { result ≡ hop_before a b }
{
    match (a, b) {
        (Hop::Number(a), Hop::Number(b)) => a < b,
        (Hop::Number(_), Hop::Drop) => true,
        (Hop::Drop, _) => false,
    }
}

/// Whether the first choice is better than the second.
fn is_better(one: (Hop, u16), other: (Hop, u16)) -> bool
    ensures { result ≡ beats (record { hop = one.0; pref = one.1 }) (record { hop = other.0; pref = other.1 }) }
{
    one.1 > other.1 || (one.1 == other.1 && is_before(one.0, other.0))
}

impl Slot {
    pub(crate) fn new(hop: Hop, pref: u16) -> Slot
        ensures value { result ≡ Some (record { hop = hop; pref = pref }) }
        ensures in_range { IsHop hop }
    {
        let (number, kind) = match hop {
            Hop::Number(number) => (number, Kind::Number),
            Hop::Drop => (0, Kind::Drop),
        };
        Slot {
            number: number.to_le_bytes(),
            pref: pref.to_le_bytes(),
            kind,
        }
    }

    /// Returns the choice, if there is one.
    pub(crate) fn get(&self) -> Option<(Hop, u16)>
        ensures { self.now ≡ given result }
    {
        let hop = match self.kind {
            Kind::Number => Hop::Number(u32::from_le_bytes(self.number)),
            Kind::Drop => Hop::Drop,
            Kind::Free => return None,
        };
        Some((hop, u16::from_le_bytes(self.pref)))
    }

    /// Whether the slot has the hop, or is free.
    pub(crate) fn ends_at(&self, hop: Hop) -> bool
        ensures { result ≡ ends_at hop self.now }
    {
        match self.get() {
            None => true,
            Some(choice) => is_same(choice.0, hop),
        }
    }

    /// Whether the slot has a choice that is worse than this one, or is free.
    pub(crate) fn ends_before(&self, choice: (Hop, u16)) -> bool
        ensures { result ≡ ends_before (record { hop = choice.0; pref = choice.1 }) self.now }
    {
        match self.get() {
            None => true,
            Some(other) => is_better(choice, other),
        }
    }
}
