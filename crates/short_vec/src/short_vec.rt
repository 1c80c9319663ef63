//! The type of the list.
ghost use Rattle.std.specs.Prelude.{◌≡◌, ◌<◌, ◌≤◌, ◌^◌, List, length};
ghost use Rattle.std_alloc.specs.Vec.Ownership.{vec_owns, vec_shares};
ghost use Rattle.std_heap.specs.contracts.GlobalAllocator.TheImpl.{ghosts as heap};

use std::alloc::Global;
use std::marker::Model;

pub(crate) mod vectors;

/// A list of fewer than 2^32 items on the heap, like a `Vec`, but in sixteen bytes: a pointer, a 32-bit length and a 32-bit capacity.
pub struct ShortVec<T> {
    pub(crate) ptr: *const T,
    pub(crate) len: u32,
    pub(crate) cap: u32,
    pub(crate) alloc: Global,
    pub ghost items: { List T },
    ghost ok: { (len ≡ length items) × (len ≤ cap) },
    ghost small: { cap < 2 ^ 63 },
}

impl<T> Model for ShortVec<T> {
    ghost also_owns = { λ v. vec_owns (heap.dealloc_token v.alloc) T.row v.ptr v.len v.cap v.items };

    ghost also_shares = { λ v _ κ. vec_shares T.row v.ptr v.len v.cap v.items κ };
}

/// Drops the items, and frees the memory.
impl<T: Drop> Drop for ShortVec<T> {
    fn drop(self) {
        let _list = self.into_vec();
    }
}

/// A list is `Send` or `Sync` if its items are.
unsafe impl<T: Send> Send for ShortVec<T> {}

unsafe impl<T: Sync> Sync for ShortVec<T> {}
