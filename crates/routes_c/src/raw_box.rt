//! A box in its parts.
ghost use Rattle.std.specs.Prelude.{◌≡◌};
ghost use Rattle.std.specs.Box.Ownership.{box_owns};
ghost use Rattle.std_heap.specs.contracts.GlobalAllocator.TheImpl.{ghosts};

use std::alloc::Global;
use std::marker::Model;

/// The pointer of a box and its allocator. It owns the value and its memory, as the box does.
pub(crate) struct RawBox<T> {
    pub(crate) at: *mut T,
    pub(crate) alloc: Global,
    pub(crate) ghost value: { T },
}

impl<T> Model for RawBox<T> {
    ghost also_owns = { λ l. box_owns (ghosts.dealloc_token l.alloc) T.row l.at l.value };
}

impl<T: Drop> RawBox<T> {
    /// The parts of this box.
    pub(crate) fn of(b: Box<T>) -> RawBox<T>
        ensures { result.value ≡ b.value }
    {
        let (at, alloc) = Box::into_raw_with_allocator(b);
        RawBox { at, alloc }
    }

    /// The box of these parts.
    pub(crate) fn into_box(self) -> Box<T>
        ensures { result.value ≡ self.value }
    {
        let RawBox { at, alloc } = self;
        unsafe { Box::from_raw(alloc, at) }
    }
}
