//! Handles, and calls on their content.
ghost use Rattle.std.specs.Prelude.{◌≡◌, None, Some, MatchOption, true, false};
ghost use Rattle.std.specs.Fn.{FnOnceReturnsAtMut};
ghost use Rattle.routes_c.specs.Handles.{GoesOn, IsClosed, IsHandle, content_of, of_kind};
ghost use Rattle.routes_c.specs.Runs.{ReturnsAtBoth};

use crate::boxed_content::BoxedContent;
use crate::content::{Content, Kind};
use std::alloc::Global;
use std::mem::replace;

/// A handle of a table, an index or a follower, open or closed. A handle of zero bytes is closed.
#[repr(C)]
pub struct Handle {
    pub held: BoxedContent,
    pub is_open: bool,
}

impl Handle {
    /// Closes the handle, if it is open, and frees its content.
    pub(crate) fn close(&mut self, alloc: Global)
        requires { IsHandle self.old }
        ensures handle { IsHandle self.new }
        ensures closed { IsClosed self.new }
    {
        if self.is_open {
            self.is_open = false;
            drop(replace(&mut self.held, BoxedContent::none(alloc)).into_box());
        }
    }

    /// Puts the content back into the handle.
    fn put(&mut self, content: Box<Content>)
        ensures handle { IsHandle self.new }
        ensures open { content_of self.new ≡ Some content.value }
    {
        self.held = BoxedContent::of(content);
        self.is_open = true;
    }

    /// Opens a closed handle. Returns 0, or 2 if the allocation of a box fails; then it stays closed.
    pub(crate) fn open(&mut self, alloc: Global, content: Content) -> u32
        requires closed { IsClosed self.old }
        requires handle { IsHandle self.old }
        ensures handle { IsHandle self.new }
        ensures opens { MatchOption (content_of self.new) (result ≡ 2) (λ c. (result ≡ 0) × (c ≡ content)) }
    {
        let Ok(content) = Box::new(alloc, content) else {
            return 2;
        };
        self.put(content);
        0
    }

    /// Calls `call` on the content of the handle. Returns `closed` if the handle is closed or its content is of another kind.
    pub(crate) fn on<K: Kind, R: Drop, F: FnOnce(&mut K) -> R>(&mut self, closed: R, call: F) -> R
        requires handle { IsHandle self.old }
        requires call { F.IsAlwaysCallable call }
        ensures { GoesOn (λ h. of_kind K.part (content_of h)) self.old self.new (result ≡ closed) (λ s t. FnOnceReturnsAtMut F.FnOnce call s result t) }
    {
        if !self.is_open {
            return closed;
        }
        match K::of(self.held.lend()) {
            Some(part) => call(part),
            None => closed,
        }
    }

    /// `on`, for a call that also sets `told`.
    pub(crate) fn on_with<K: Kind, T, R: Drop, F: FnOnce(&mut K, &mut T) -> R>(
        &mut self,
        told: &mut T,
        closed: R,
        call: F,
    ) -> R
        requires handle { IsHandle self.old }
        requires call { F.IsAlwaysCallable call }
        ensures { GoesOn (λ h. of_kind K.part (content_of h)) self.old self.new ((result ≡ closed) × (told.new ≡ told.old)) (λ s t. ReturnsAtBoth F.FnOnce call s told.old result t told.new) }
    {
        if !self.is_open {
            return closed;
        }
        match K::of(self.held.lend()) {
            Some(part) => call(part, told),
            None => closed,
        }
    }

    /// `on`, for a call that also fills `out`.
    pub(crate) fn on_slice<K: Kind, T, R: Drop, F: FnOnce(&mut K, &mut [T]) -> R>(
        &mut self,
        out: &mut [T],
        closed: R,
        call: F,
    ) -> R
        requires handle { IsHandle self.old }
        requires call { F.IsAlwaysCallable call }
        ensures { GoesOn (λ h. of_kind K.part (content_of h)) self.old self.new ((result ≡ closed) × (out.new ≡ out.old)) (λ s t. ReturnsAtBoth F.FnOnce call s out.old result t out.new) }
    {
        if !self.is_open {
            return closed;
        }
        match K::of(self.held.lend()) {
            Some(part) => call(part, out),
            None => closed,
        }
    }
}
