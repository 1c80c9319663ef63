//! Conversions between `ShortVec` and `Vec`: the calls of `ShortVec` are done on a `Vec`.
ghost use Rattle.std.specs.Prelude.{◌≡◌, ◌<◌, ◌^◌};
ghost use Rattle.std_alloc.specs.Vec.{vec_len, vec_capacity};
ghost use Rattle.short_vec.specs.Lists.{short_len, short_capacity};

use super::ShortVec;
use std::alloc::Global;
use std::ptr::null;

/// The words of a `Vec`, in the order of its fields.
#[derive(Clone, Copy)]
struct Words {
    ptr: *const u8,
    len: usize,
    cap: usize,
    alloc: Global,
}

impl<T> ShortVec<T> {
    /// Returns the same list as a `Vec`, in the same memory.
    #[inline]
    pub fn into_vec(self) -> Vec<T>
        ensures items { result.items ≡ self.items }
        ensures len { vec_len result ≡ short_len self }
        ensures capacity { vec_capacity result ≡ short_capacity self }
        ensures few { vec_capacity result < 2 ^ 32 }
    {
        let ShortVec {
            ptr,
            len,
            cap,
            alloc,
        } = self;
        let words = Words {
            ptr: ptr as *const u8,
            len: len as usize,
            cap: cap as usize,
            alloc,
        };
        let place = &raw const words as *const Vec<T>;
        unsafe { place.read() }
    }

    /// Returns the same list as a `ShortVec`, in the same memory.
    #[inline]
    pub fn from_vec(list: Vec<T>) -> ShortVec<T>
        requires { vec_capacity list < 2 ^ 32 }
        ensures items { result.items ≡ list.items }
        ensures len { short_len result ≡ vec_len list }
        ensures capacity { short_capacity result ≡ vec_capacity list }
    {
        let alloc = *list.allocator();
        ShortVec::from_words(alloc, list)
    }

    #[inline]
    fn from_words(alloc: Global, list: Vec<T>) -> ShortVec<T>
        requires { vec_capacity list < 2 ^ 32 }
        ensures items { result.items ≡ list.items }
        ensures len { short_len result ≡ vec_len list }
        ensures capacity { short_capacity result ≡ vec_capacity list }
    {
        let mut words = Words {
            ptr: null(),
            len: 0,
            cap: 0,
            alloc,
        };
        let place = &raw mut words as *mut Vec<T>;
        unsafe { place.write(list) };
        ShortVec {
            ptr: words.ptr as *const T,
            len: words.len as u32,
            cap: words.cap as u32,
            alloc: words.alloc,
        }
    }
}
