//! The content of an open handle, behind a pointer that C may keep.
ghost use Rattle.std.specs.Prelude.{◌≡◌, Option, Some, None, is_some, true};
ghost use Rattle.std.specs.Global.{Global};
ghost use Rattle.routes_c.specs.BoxedContent.{held_owns, held_coded};
ghost use Rattle.routes_c.specs.declared.content.Content.{Content};

use crate::content::Content;
use crate::raw_box::RawBox;
use std::alloc::Global;
use std::marker::Model;
use std::ptr::null_mut;

/// The content of an open handle, or none. C sees one pointer, which is null if there is no content.
///
/// The cast hides the content's type from C. The ghost field has the content, and the struct owns its box.
#[repr(C)]
#[derive(Drop)]
pub struct BoxedContent {
    pub(crate) at: *mut u8,
    alloc: Global,
    pub ghost content: { Option Content } by { held_coded },
}

impl Model for BoxedContent {
    ghost also_owns = { λ h. held_owns h.alloc h.at h.content };
}

impl BoxedContent {
    /// No content.
    pub(crate) fn none(alloc: Global) -> BoxedContent
        ensures { result.content ≡ None }
    {
        BoxedContent {
            at: null_mut(),
            alloc,
        }
    }

    /// The content of this box.
    pub(crate) fn of(content: Box<Content>) -> BoxedContent
        ensures { result.content ≡ Some content.value }
    {
        BoxedContent::of_raw_box(RawBox::of(content))
    }

    fn of_raw_box(loose: RawBox<Content>) -> BoxedContent
        ensures { result.content ≡ Some loose.value }
    {
        let RawBox { at, alloc } = loose;
        BoxedContent {
            at: at as *mut u8,
            alloc,
        }
    }

    /// Returns the content in its box.
    pub(crate) fn into_box(self) -> Box<Content>
        requires { is_some self.content ≡ true }
        ensures { self.content ≡ Some result.value }
    {
        self.into_raw_box().into_box()
    }

    fn into_raw_box(self) -> RawBox<Content>
        requires { is_some self.content ≡ true }
        ensures { self.content ≡ Some result.value }
    {
        let BoxedContent { at, alloc } = self;
        RawBox {
            at: at as *mut Content,
            alloc,
        }
    }
}
