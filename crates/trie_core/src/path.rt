//! A bit string of at most 128 bits, which is read from its front.
ghost use Rattle.std.specs.Prelude.{◌≡◌, ◌+◌, ◌-◌, ◌/◌, ◌^◌, ◌<◌, ◌≤◌, ◌++◌, length, drop, nat_lt, [], ◌∷◌, ⊤};
ghost use Rattle.ipnet_blocks.specs.Blocks.{digits};
ghost use Rattle.trie_core.specs.InnerPlaces.{place_of, child_of, IsBeginMask};
ghost use Rattle.std.specs.Prelude.{◌*◌, IsTrue, ◌↔◌};
ghost use Rattle.trie_core.specs.InnerChains.{Starts, EndsIn};
ghost use Rattle.trie_core.specs.Prefixes.{prefix_bits, IsMasked};
ghost use Rattle.trie_core.specs.InnerPaths.{IsAligned};

use crate::tables::{beginnings, bit};
use std::alloc::AllocError;
use std::marker::Model;

/// A bit string: the first `len` of the 128 bits; the bits after them are zero.
#[derive(Drop)]
pub struct Path {
    bits: u128,
    len: u8,
}

impl Model for Path {
    ghost use Rattle.std.specs.Prelude.{List, Bool, ◌-◌, ◌/◌, ◌^◌};
    ghost use Rattle.ipnet_blocks.specs.Blocks.{digits};
    ghost use Rattle.trie_core.specs.InnerPaths.{IsAligned};

    ghost Value = { List Bool };

    ghost view = { λ a. digits a.len (a.bits / 2 ^ (128 - a.len)) };

    ghost invariant = { λ a. IsAligned a.bits a.len };
}

impl Clone for Path {
    ghost is_clone = { λ p r. r ≡ p };

    ghost is_infallible = { λ _. ⊤ };

    /// Returns the same string. Does not allocate.
    fn clone(&self) -> Result<Path, AllocError> {
        Ok(self.copied())
    }
}

impl Path {
    /// Makes the string of the first `len` of 128 bits.
    #[inline]
    pub fn new(bits: u128, len: u8) -> Path
        requires { len ≤ 128 }
        ensures { result ≡ digits len (bits / 2 ^ (128 - len)) }
    {
        if len == 0 {
            return Path { bits: 0, len };
        }
        let free = 128 - len;
        Path {
            bits: bits >> free << free,
            len,
        }
    }

    /// Returns the same string, copied field by field. If it is copied as a whole, the compiler may store it in pieces, and the next load
    /// then waits for these stores.
    #[inline]
    pub(crate) fn copied(&self) -> Path
        ensures { result ≡ self.now }
    {
        Path {
            bits: self.bits,
            len: self.len,
        }
    }

    /// Returns the bits at the top of 128, and their number.
    #[inline]
    pub(crate) fn parts(&self) -> (u128, u8)
        ensures aligned { IsAligned result.0 result.1 }
        ensures string { prefix_bits 128 result.0 result.1 ≡ self.now }
        ensures len { result.1 ≡ length self.now }
    {
        (self.bits, self.len)
    }

    /// Makes the string of these parts.
    #[inline]
    pub(crate) fn of_parts(bits: u128, len: u8) -> Path
        requires { IsAligned bits len }
        ensures string { result ≡ prefix_bits 128 bits len }
        ensures len { length result ≡ len }
    {
        Path { bits, len }
    }

    /// Returns the number of bits.
    #[inline]
    pub fn len(&self) -> u8
        ensures { result ≡ length self.now }
    {
        self.len
    }

    /// Returns whether the string ends inside the first node, that is, has fewer than five bits.
    #[inline]
    pub fn is_short(&self) -> bool
        ensures { result ≡ nat_lt (length self.now) 5 }
    {
        self.len < 5
    }

    /// Returns the number of nodes below the first node that the string leads through.
    #[inline]
    pub fn depth(&self) -> u8
        ensures { result ≡ length self.now / 5 }
    {
        self.len / 5
    }

    /// Returns the number of the first five bits; a shorter string is padded with zeros.
    #[inline]
    pub fn five(&self) -> u8
        ensures value { result ≡ child_of self.now }
        ensures below { result < 32 }
    {
        (self.bits >> 123) as u8
    }

    /// Returns the place of a string of fewer than five bits.
    #[inline]
    pub fn place(&self) -> u8
        requires { length self.now < 5 }
        ensures value { result ≡ place_of self.now }
        ensures below { result < 31 }
    {
        let five = self.five();
        five + self.len - five.count_ones() as u8
    }

    /// Returns the places of the prefixes of fewer than five bits.
    #[inline]
    pub fn beginnings(&self) -> u32
        ensures mask { IsBeginMask self.now result }
        ensures below { result < 2 ^ 31 }
    {
        let all = beginnings(self.five());
        if self.is_short() {
            return all % (2 * bit(self.place()));
        }
        all
    }

    /// Returns the string followed by the first `len` of five bits; the bits after them must be zero.
    #[inline]
    pub fn with(&self, five: u8, len: u8) -> Path
        requires five { IsMasked 5 five len }
        requires len { len ≤ 5 }
        requires room { length self.now < 128 }
        requires within { length self.now + len ≤ 128 }
        ensures { result ≡ self.now ++ prefix_bits 5 five len }
    {
        Path {
            bits: self.bits + (u128::from(five) << 123 >> self.len),
            len: self.len + len,
        }
    }

    /// Returns the string as the first of 128 bits, padded with zeros.
    #[inline]
    pub fn to_bits(&self) -> u128
        ensures bits { prefix_bits 128 result (length self.now) ≡ self.now }
        ensures masked { IsMasked 128 result (length self.now) }
    {
        self.bits
    }

    /// Returns the string without its first five bits.
    #[inline]
    pub fn rest(&self) -> Path
        requires { 5 ≤ length self.now }
        ensures { result ≡ drop 5 self.now }
    {
        Path {
            bits: self.bits << 5,
            len: self.len - 5,
        }
    }

    /// Returns whether the string begins with these skipped levels: five bits for each, the digits of `skip`.
    #[inline]
    pub(crate) fn starts(&self, skip: u32, levels: u8) -> bool
        requires levels { levels ≤ 5 }
        requires skip { skip < 2 ^ (5 * levels) }
        ensures { IsTrue result ↔ Starts levels skip self.now }
    {
        if levels == 0 {
            return true;
        }
        let count = 5 * levels;
        self.len >= count && (self.bits >> 96) as u32 >> (32 - count) == skip
    }

    /// Returns whether the string ends inside these skipped levels: it is shorter, and they begin with it.
    #[inline]
    pub(crate) fn ends_in(&self, skip: u32, levels: u8) -> bool
        requires levels { levels ≤ 5 }
        requires skip { skip < 2 ^ (5 * levels) }
        ensures { IsTrue result ↔ EndsIn levels skip self.now }
    {
        let count = 5 * levels;
        if self.len >= count {
            return false;
        }
        let more = count - self.len;
        self.bits >> (128 - count) >> more == u128::from(skip >> more)
    }

    /// Returns the number that the first bits form, five for each level.
    #[inline]
    pub(crate) fn head(&self, levels: u8) -> u32
        requires levels { levels ≤ 5 }
        requires within { 5 * levels ≤ length self.now }
        ensures below { result < 2 ^ (5 * levels) }
        ensures starts { Starts levels result self.now }
    {
        if levels == 0 {
            return 0;
        }
        (self.bits >> (128 - 5 * levels)) as u32
    }

    /// Returns the string without its first bits, five for each level.
    #[inline]
    pub(crate) fn past(&self, levels: u8) -> Path
        requires levels { levels ≤ 5 }
        requires within { 5 * levels ≤ length self.now }
        ensures { result ≡ drop (5 * levels) self.now }
    {
        if levels == 0 {
            return self.copied();
        }
        let count = 5 * levels;
        Path {
            bits: self.bits << count,
            len: self.len - count,
        }
    }

    /// Returns the string followed by the five bits of a child's number, and then by the child's skipped levels.
    #[inline]
    pub(crate) fn down(&self, child: u8, skip: u32, levels: u8) -> Path
        requires child { child < 32 }
        requires levels { levels ≤ 5 }
        requires skip { skip < 2 ^ (5 * levels) }
        requires within { length self.now + (5 * levels + 5) ≤ 128 }
        ensures { result ≡ self.now ++ digits (5 * levels + 5) (child * 2 ^ (5 * levels) + skip) }
    {
        let number = (u32::from(child) << (5 * levels)) + skip;
        let count = 5 * levels + 5;
        let len = self.len + count;
        Path {
            bits: self.bits + (u128::from(number) << (128 - len)),
            len,
        }
    }

    /// Returns the string with one bit appended.
    #[inline]
    pub fn extended(&self, bit: bool) -> Path
        requires { length self.now < 128 }
        ensures { result ≡ self.now ++ bit ∷ [] }
    {
        let len = self.len + 1;
        Path {
            bits: self.bits + (u128::from(bit) << (128 - len)),
            len,
        }
    }
}
