//! The calls that change a `ShortVec`; each does what the call of `Vec` does.
ghost use Rattle.std.specs.Prelude.{◌≡◌, ◌+◌, ◌<◌, ◌≤◌, ◌^◌, [], ◌∷◌, ◌++◌, is_ok, false, max, if◌then◌else◌, IfOk, IfErr, IsOk, IsTrue, OnOk, OnErr, insert, remove, slice_index_or};
ghost use Rattle.std_alloc.specs.Vec.{vec_len, vec_capacity};
ghost use Rattle.short_vec.specs.Lists.{short_len, short_capacity};

use crate::short_vec::ShortVec;
use core::mem::replace_with;
use std::alloc::{AllocError, AllocFailed, Global};

/// The greatest capacity of a list.
const MOST: usize = 0xffff_ffff;

impl<T> ShortVec<T> {
    /// The empty list. Does not allocate.
    #[inline]
    pub fn new(alloc: Global) -> ShortVec<T>
        ensures items { result.items ≡ [] }
        ensures len { short_len result ≡ 0 }
        ensures capacity { short_capacity result ≡ 0 }
    {
        ShortVec::from_vec(Vec::new(alloc))
    }

    /// Makes an empty list with room for exactly `capacity` items.
    ///
    /// # Errors
    /// `AllocError` if the allocation fails; it never fails for capacity 0.
    pub fn with_capacity(alloc: Global, capacity: usize) -> Result<ShortVec<T>, AllocError>
        ensures items { IfOk result (λ v. v.items ≡ []) }
        ensures len { IfOk result (λ v. short_len v ≡ 0) }
        ensures capacity { IfOk result (λ v. short_capacity v ≡ capacity) }
        ensures succeeds { capacity ≡ 0 → IsOk result }
    {
        if MOST < capacity {
            return Err(AllocError);
        }
        match Vec::with_capacity(alloc, capacity) {
            Ok(list) => Ok(ShortVec::from_vec(list)),
            Err(error) => Err(error),
        }
    }

    /// Makes room for `additional` more items, and no more than that.
    ///
    /// # Errors
    /// `AllocError` if the allocation fails; the list is unchanged.
    pub fn reserve_exact(&mut self, additional: usize) -> Result<(), AllocError>
        // The items stay the same, whatever the result.
        ensures items { self.new.items ≡ self.old.items }
        ensures len { short_len self.new ≡ short_len self.old }

        // On success there is room for exactly the requested items, or more if there was more before. The capacity never shrinks.
        ensures ok { OnOk result (short_len self.new + additional ≤ short_capacity self.new) }
        ensures capacity { short_capacity self.old ≤ short_capacity self.new }
        ensures capacity_exact { OnOk result (short_capacity self.new ≡ max (short_capacity self.old) (short_len self.old + additional)) }

        // It fails only if there was too little room, and then the capacity is unchanged.
        ensures succeeds { short_len self.old + additional ≤ short_capacity self.old → IsOk result }
        ensures full { OnErr result (short_capacity self.old < short_len self.old + additional) }
        ensures err { OnErr result (short_capacity self.new ≡ short_capacity self.old) }
    {
        replace_with(self, additional, ShortVec::reserved)
    }

    fn reserved(self, additional: usize) -> (ShortVec<T>, Result<(), AllocError>)
        ensures items { result.0.items ≡ self.items }
        ensures len { short_len result.0 ≡ short_len self }
        ensures ok { OnOk result.1 (short_len result.0 + additional ≤ short_capacity result.0) }
        ensures capacity { short_capacity self ≤ short_capacity result.0 }
        ensures capacity_exact { OnOk result.1 (short_capacity result.0 ≡ max (short_capacity self) (short_len self + additional)) }
        ensures succeeds { short_len self + additional ≤ short_capacity self → IsOk result.1 }
        ensures full { OnErr result.1 (short_capacity self < short_len self + additional) }
        ensures err { OnErr result.1 (short_capacity result.0 ≡ short_capacity self) }
    {
        let list = self.into_vec();
        let len = list.len();
        if additional <= list.capacity() - len {
            return (ShortVec::from_vec(list), Ok(()));
        }
        if MOST - len < additional {
            return (ShortVec::from_vec(list), Err(AllocError));
        }
        match Vec::with_capacity(*list.allocator(), len + additional) {
            Ok(larger) => (ShortVec::from_vec(moved(list, larger)), Ok(())),
            Err(error) => (ShortVec::from_vec(list), Err(error)),
        }
    }

    /// Inserts `element` at `index`, and moves the later items up.
    ///
    /// # Errors
    /// `AllocFailed` with `element` if the list is full and an allocation fails; the items are unchanged.
    pub fn insert(&mut self, index: usize, element: T) -> Result<(), AllocFailed<T>>
        requires { index ≤ short_len self.old }

        // On success `element` is the item at `index`. On failure the items are unchanged and `element` is returned.
        ensures items { self.new.items ≡ (if is_ok result then insert self.old.items index element else self.old.items) }
        ensures len { short_len self.new ≡ (if is_ok result then short_len self.old + 1 else short_len self.old) }
        ensures value_returned { IfErr result (λ failed. failed.value ≡ element) }

        // If there is room, it succeeds and the capacity is unchanged. Only a full list can fail, and then its capacity is unchanged.
        ensures capacity { short_capacity self.old ≤ short_capacity self.new }
        ensures succeeds { short_len self.old < short_capacity self.old → IsOk result }
        ensures had_room { short_len self.old < short_capacity self.old → short_capacity self.new ≡ short_capacity self.old }
        ensures full { OnErr result (short_capacity self.old ≤ short_len self.old) }
        ensures err { OnErr result (short_capacity self.new ≡ short_capacity self.old) }
    {
        replace_with(self, (index, element), ShortVec::inserted)
    }

    fn inserted(self, place: (usize, T)) -> (ShortVec<T>, Result<(), AllocFailed<T>>)
        requires { place.0 ≤ short_len self }
        ensures items { result.0.items ≡ (if is_ok result.1 then insert self.items place.0 place.1 else self.items) }
        ensures len { short_len result.0 ≡ (if is_ok result.1 then short_len self + 1 else short_len self) }
        ensures value_returned { IfErr result.1 (λ failed. failed.value ≡ place.1) }
        ensures capacity { short_capacity self ≤ short_capacity result.0 }
        ensures succeeds { short_len self < short_capacity self → IsOk result.1 }
        ensures had_room { short_len self < short_capacity self → short_capacity result.0 ≡ short_capacity self }
        ensures full { OnErr result.1 (short_capacity self ≤ short_len self) }
        ensures err { OnErr result.1 (short_capacity result.0 ≡ short_capacity self) }
    {
        let (index, element) = place;
        let mut list = self.into_vec();
        if list.len() == list.capacity() && !make_room(&mut list) {
            return (
                ShortVec::from_vec(list),
                Err(AllocFailed { value: element }),
            );
        }
        let done = list.insert(index, element);
        (ShortVec::from_vec(list), done)
    }

    /// Appends `element`.
    ///
    /// # Errors
    /// `AllocFailed` with `element` if the list is full and an allocation fails; the items are unchanged.
    pub fn push(&mut self, element: T) -> Result<(), AllocFailed<T>>
        // On success `element` is the last item. On failure the items are unchanged and `element` is returned.
        ensures items { self.new.items ≡ (if is_ok result then self.old.items ++ element ∷ [] else self.old.items) }
        ensures len { short_len self.new ≡ (if is_ok result then short_len self.old + 1 else short_len self.old) }
        ensures value_returned { IfErr result (λ failed. failed.value ≡ element) }

        // If there is room, it succeeds and the capacity is unchanged. Only a full list can fail, and then its capacity is unchanged.
        ensures capacity { short_capacity self.old ≤ short_capacity self.new }
        ensures succeeds { short_len self.old < short_capacity self.old → IsOk result }
        ensures had_room { short_len self.old < short_capacity self.old → short_capacity self.new ≡ short_capacity self.old }
        ensures full { OnErr result (short_capacity self.old ≤ short_len self.old) }
        ensures err { OnErr result (short_capacity self.new ≡ short_capacity self.old) }
    {
        replace_with(self, element, ShortVec::pushed)
    }

    fn pushed(self, element: T) -> (ShortVec<T>, Result<(), AllocFailed<T>>)
        ensures items { result.0.items ≡ (if is_ok result.1 then self.items ++ element ∷ [] else self.items) }
        ensures len { short_len result.0 ≡ (if is_ok result.1 then short_len self + 1 else short_len self) }
        ensures value_returned { IfErr result.1 (λ failed. failed.value ≡ element) }
        ensures capacity { short_capacity self ≤ short_capacity result.0 }
        ensures succeeds { short_len self < short_capacity self → IsOk result.1 }
        ensures had_room { short_len self < short_capacity self → short_capacity result.0 ≡ short_capacity self }
        ensures full { OnErr result.1 (short_capacity self ≤ short_len self) }
        ensures err { OnErr result.1 (short_capacity result.0 ≡ short_capacity self) }
    {
        let mut list = self.into_vec();
        if list.len() == list.capacity() && !make_room(&mut list) {
            return (
                ShortVec::from_vec(list),
                Err(AllocFailed { value: element }),
            );
        }
        list.push_reserved(element);
        (ShortVec::from_vec(list), Ok(()))
    }

    /// Removes and returns the item at `index`, and moves the later items down.
    pub fn remove(&mut self, index: usize) -> T
        requires { index < short_len self.old }
        ensures value { result ≡ slice_index_or self.old.items index result }
        ensures items { self.new.items ≡ remove self.old.items index }
        ensures len { short_len self.new + 1 ≡ short_len self.old }
        ensures capacity { short_capacity self.new ≡ short_capacity self.old }
    {
        replace_with(self, index, ShortVec::removed)
    }

    fn removed(self, index: usize) -> (ShortVec<T>, T)
        requires { index < short_len self }
        ensures value { result.1 ≡ slice_index_or self.items index result.1 }
        ensures items { result.0.items ≡ remove self.items index }
        ensures len { short_len result.0 + 1 ≡ short_len self }
        ensures capacity { short_capacity result.0 ≡ short_capacity self }
    {
        let mut list = self.into_vec();
        let item = list.remove(index);
        (ShortVec::from_vec(list), item)
    }
}

/// Makes room in a full list for a third more items, at least 4. Returns whether the allocation succeeded.
fn make_room<T>(list: &mut Vec<T>) -> bool
    requires { vec_capacity list.old < 2 ^ 32 }
    ensures items { list.new.items ≡ list.old.items }
    ensures len { vec_len list.new ≡ vec_len list.old }
    ensures room { IsTrue result → vec_len list.new < vec_capacity list.new }
    ensures refused { result ≡ false → vec_capacity list.new ≡ vec_capacity list.old }
    ensures capacity { vec_capacity list.old ≤ vec_capacity list.new }
    ensures few { vec_capacity list.new < 2 ^ 32 }
{
    let len = list.len();
    let third = len / 3;
    let additional = if third < 4 { 4 } else { third };
    MOST - len >= additional && list.reserve_exact(additional).is_ok()
}

/// Moves the items of `list` to the empty list `larger`, which has room for them, and frees their old memory.
///
/// For short lists this is faster than `realloc`.
fn moved<T>(list: Vec<T>, larger: Vec<T>) -> Vec<T>
    requires empty { larger.items ≡ [] }
    requires room { vec_len list ≤ vec_capacity larger }
    ensures items { result.items ≡ list.items }
    ensures len { vec_len result ≡ vec_len list }
    ensures capacity { vec_capacity result ≡ vec_capacity larger }
{
    let mut larger = larger;
    let mut rest = list.into_iter();
    'item: while let Some(item) = rest.next() {
        larger.push_reserved(item);
    }
    rest.destroy_empty();
    larger
}
