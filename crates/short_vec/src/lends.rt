//! Calls that read a list or lend its items.
ghost use Rattle.std.specs.Prelude.{◌≡◌, ◌<◌, length, slice_index_or};
ghost use Rattle.std.specs.Borrow.{sem};
ghost use Rattle.short_vec.specs.Lists.{short_len, short_capacity, short_allocator};
ghost use Rattle.short_vec.specs.Lends.{short_follows_item};

use crate::short_vec::ShortVec;
use std::alloc::Global;
use std::ops::{Index, IndexMut};
use std::slice::from_raw_parts;

impl<T> ShortVec<T> {
    /// Returns the number of items.
    pub fn len(&self) -> usize
        ensures value { result ≡ short_len self.now }
        ensures items { result ≡ length self.now.items }
    {
        self.len as usize
    }

    /// Returns the number of items that there is room for.
    pub fn capacity(&self) -> usize
        ensures { result ≡ short_capacity self.now }
    {
        self.cap as usize
    }

    /// Returns the allocator of the list's memory.
    pub fn allocator(&self) -> Global
        ensures { result ≡ short_allocator self.now }
    {
        *self.handle()
    }

    fn handle(&self) -> &Global
        ensures { result.now ≡ short_allocator self.now }
    {
        &self.alloc
    }

    /// Returns the items.
    pub fn as_slice(&self) -> &[T]
        ensures value { result.now ≡ self.now.items }
        ensures len { length result.now ≡ short_len self.now }
    {
        unsafe { from_raw_parts(self.ptr, self.len as usize) }
    }
}

impl<T> Index<usize> for ShortVec<T> {
    type Output = T;

    ghost can_index = { λ v at. at < short_len v };

    ghost index_gives = { λ v at x. x ≡ slice_index_or v.items at x };

    fn index(&self, at: usize) -> &T
        requires { at < short_len self.now }
        ensures { result.now ≡ slice_index_or self.now.items at result.now }
    {
        &self.as_slice()[at]
    }
}

impl<T> IndexMut<usize> for ShortVec<T> {
    fn index_mut(&mut self, at: usize) -> &mut T
        requires { at < short_len self.old }
        ensures* writes_back { sem 𝓛 (short_follows_item T.row self.entry at result) }
        ensures value { result.now ≡ slice_index_or self.old.items at result.now }
    {
        unsafe { &mut *(self.ptr as *mut T).add(at) }
    }
}
