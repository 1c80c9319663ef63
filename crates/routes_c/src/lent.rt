//! The content of an open handle, lent to a call.
ghost use Rattle.std.specs.Prelude.{◌≡◌, Some, is_some, true};
ghost use Rattle.std.specs.Borrow.{sem};
ghost use Rattle.routes_c.specs.InnerLent.{held_follows};

use crate::boxed_content::BoxedContent;
use crate::content::Content;

impl BoxedContent {
    /// Lends the content, which the handle has.
    pub(crate) fn lend(&mut self) -> &mut Content
        requires { is_some self.old.content ≡ true }
        ensures* follows { sem 𝓛 (held_follows self.entry result) }
        ensures value { self.old.content ≡ Some result.now }
    {
        unsafe { &mut *(self.at as *mut Content) }
    }
}
