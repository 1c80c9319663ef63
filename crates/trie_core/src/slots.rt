//! Items at places below 32: the bits of a word mark the taken places, and a list has the items in the order of their places.
ghost use Rattle.std.specs.Prelude.{ℕ, ◌≡◌, ◌<◌, ◌≤◌, ◌%◌, ◌^◌, None, length, count_ones, IfOk, IfErr, OnErr, OnOk, IsTrue, MatchOption, option_copied};
ghost use Rattle.std.specs.Ordering.{nat_cmp};
ghost use Rattle.std.specs.FinMap.{find, put as put_entry};
ghost use Rattle.trie_core.specs.InnerPlaces.{at_places, without, IsUnset, IsSlot, IsLastPlace, IsFirstPlace};
ghost use Rattle.shape.specs.Shapes.{shape_values, shape_children, HasRoom};

use crate::tables::bit;
use shape::Shape;
use std::mem;

/// The lowest `count` bits of a word.
#[inline]
pub(crate) fn low_bits(word: u32, count: u8) -> u32
    requires { count ≤ 32 }
    ensures { result ≡ word % 2 ^ count }
{
    if count == 32 {
        return word;
    }
    word % bit(count)
}

/// The number of taken places below this one.
#[inline]
pub(crate) fn taken_below(taken: u32, place: u8) -> usize
    requires { place < 32 }
    ensures { result ≡ count_ones (taken % 2 ^ place) }
{
    (taken % bit(place)).count_ones() as usize
}

/// The index in the list of the item at a taken place.
#[inline]
pub(crate) fn slot(taken: u32, place: u8) -> Option<usize>
    requires { place < 32 }
    ensures { MatchOption result (IsUnset place taken) (IsSlot place taken) }
{
    if (taken >> place) % 2 == 0 {
        return None;
    }
    Some(taken_below(taken, place))
}

/// The child at the place.
#[inline]
pub(crate) fn child_at<C, T>(taken: u32, body: &Shape<C, T>, place: u8) -> Option<&C>
    requires below { place < 32 }
    requires counted { count_ones taken ≡ length (shape_children body.now) }
    ensures { option_copied result ≡ find nat_cmp place (at_places 32 0 taken (shape_children body.now)) }
{
    match slot(taken, place) {
        None => None,
        Some(at) => Some(body.child(at)),
    }
}

/// The greatest taken place.
#[inline]
pub(crate) fn last_place(taken: u32) -> u8
    requires { 0 < taken }
    ensures { IsLastPlace taken result }
{
    31 - taken.leading_zeros() as u8
}

/// The least taken place.
#[inline]
pub(crate) fn first_place(taken: u32) -> u8
    requires { 0 < taken }
    ensures { IsFirstPlace taken result }
{
    taken.trailing_zeros() as u8
}

/// The value at the place.
#[inline]
pub(crate) fn value_at<C, T>(taken: u32, body: &Shape<C, T>, place: u8) -> Option<&T>
    requires below { place < 32 }
    requires counted { count_ones taken ≡ length (shape_values body.now) }
    ensures { option_copied result ≡ find nat_cmp place (at_places 32 0 taken (shape_values body.now)) }
{
    match slot(taken, place) {
        None => None,
        Some(at) => Some(body.value(at)),
    }
}

/// Stores the value at the place, and returns the old value.
///
/// A free place is taken only if `may_grow` is true, and may need an allocation. A taken place needs none.
pub(crate) fn put_value<C: Drop, T: Drop>(
    taken: &mut u32,
    body: &mut Shape<C, T>,
    place: u8,
    thing: T,
    may_grow: bool,
) -> Result<Option<T>, T>
    requires below { place < 32 }
    requires counted { count_ones taken.old ≡ length (shape_values body.old) }
    ensures old { IfOk result (λ old. old ≡ find nat_cmp place (at_places 32 0 taken.old (shape_values body.old))) }
    ensures items { OnOk result (at_places 32 0 taken.new (shape_values body.new) ≡ put_entry nat_cmp place thing (at_places 32 0 taken.old (shape_values body.old))) }
    ensures counted { count_ones taken.new ≡ length (shape_values body.new) }
    ensures below { (w : ℕ) → place < w → taken.old < 2 ^ w → taken.new < 2 ^ w }
    ensures grows { IfOk result (λ r. r ≡ None → IsTrue may_grow) }
    ensures children { shape_children body.new ≡ shape_children body.old }
    ensures same_word { OnErr result (taken.new ≡ taken.old) }
    ensures same_items { OnErr result (shape_values body.new ≡ shape_values body.old) }
    ensures absent { OnErr result (find nat_cmp place (at_places 32 0 taken.old (shape_values body.old)) ≡ None) }
    ensures value_returned { IfErr result (λ t. t ≡ thing) }
{
    let word = *taken;
    match slot(word, place) {
        Some(at) => {
            let item = body.value_mut(at);
            Ok(Some(mem::replace(item, thing)))
        }
        None => {
            if !may_grow {
                return Err(thing);
            }
            match body.insert_value(taken_below(word, place), thing) {
                Ok(()) => {
                    *taken = word + bit(place);
                    Ok(None)
                }
                Err(value) => Err(value),
            }
        }
    }
}

/// Removes and returns the value at the place.
pub(crate) fn take_value<C: Drop, T: Drop>(
    taken: &mut u32,
    body: &mut Shape<C, T>,
    place: u8,
) -> Option<T>
    requires below { place < 32 }
    requires counted { count_ones taken.old ≡ length (shape_values body.old) }
    ensures value { result ≡ find nat_cmp place (at_places 32 0 taken.old (shape_values body.old)) }
    ensures items { at_places 32 0 taken.new (shape_values body.new) ≡ without place (at_places 32 0 taken.old (shape_values body.old)) }
    ensures counted { count_ones taken.new ≡ length (shape_values body.new) }
    ensures below { taken.new ≤ taken.old }
    ensures children { shape_children body.new ≡ shape_children body.old }
{
    let word = *taken;
    let at = slot(word, place)?;
    let thing = body.remove_value(at);
    *taken = word - bit(place);
    Some(thing)
}

/// Stores a child at a free place. The list of children must have room for it.
pub(crate) fn put_child<C: Drop, T: Drop>(
    taken: &mut u32,
    body: &mut Shape<C, T>,
    place: u8,
    child: C,
)
    requires below { place < 32 }
    requires counted { count_ones taken.old ≡ length (shape_children body.old) }
    requires free { IsUnset place taken.old }
    requires room { HasRoom body.old }
    ensures items { at_places 32 0 taken.new (shape_children body.new) ≡ put_entry nat_cmp place child (at_places 32 0 taken.old (shape_children body.old)) }
    ensures counted { count_ones taken.new ≡ length (shape_children body.new) }
    ensures below { (w : ℕ) → place < w → taken.old < 2 ^ w → taken.new < 2 ^ w }
    ensures values { shape_values body.new ≡ shape_values body.old }
{
    let word = *taken;
    body.insert_child(taken_below(word, place), child);
    *taken = word + bit(place);
}
