//! The path from a block to a smaller block inside it.
ghost use Rattle.std.specs.Prelude.{◌≡◌, ◌+◌, ◌<◌, ◌≤◌, ◌^◌, ◌++◌, ◌∷◌, [], IfSome, false, length, slice_index_or};
ghost use Rattle.ipnet_blocks.specs.Blocks.{digits};

use std::marker::Model;
use trie_core::Path;

/// The most levels.
const MOST: u8 = 16;

/// The half that the path enters at each of at most sixteen levels: a bit that is set means the upper half.
///
/// Contracts see the bits.
#[derive(Drop)]
pub(crate) struct SkippedBits {
    pub(crate) levels: u8,
    pub(crate) bits: u16,
}

impl Model for SkippedBits {
    ghost use Rattle.std.specs.Prelude.{Bool, List, ◌<◌, ◌≤◌, ◌^◌};
    ghost use Rattle.ipnet_blocks.specs.Blocks.{digits};

    ghost Value = { List Bool };

    ghost view = { λ t. digits t.levels t.bits };

    ghost invariant = { λ t. (t.levels ≤ 16) × (t.bits < 2 ^ t.levels) };
}

impl SkippedBits {
    /// Makes the path of the last `levels` bits of a number.
    pub(crate) fn of(levels: u8, bits: u16) -> SkippedBits
        requires most { levels ≤ 16 }
        requires fits { bits < 2 ^ levels }
        ensures { result ≡ digits levels bits }
    {
        SkippedBits { levels, bits }
    }

    /// Makes the path to one half.
    pub(crate) fn one(is_upper: bool) -> SkippedBits
        ensures { result ≡ is_upper ∷ [] }
    {
        SkippedBits {
            levels: 1,
            bits: u16::from(is_upper),
        }
    }

    /// The same path from one level further up, or `None` if it would have too many levels.
    pub(crate) fn from_above(&self, is_upper: bool) -> Option<SkippedBits>
        ensures { IfSome result (λ turns. turns ≡ is_upper ∷ self.now) }
    {
        if self.levels >= MOST {
            return None;
        }
        Some(SkippedBits {
            levels: self.levels + 1,
            bits: (u16::from(is_upper) << self.levels) + self.bits,
        })
    }

    /// Whether the path enters the upper half at a level.
    pub(crate) fn turn(&self, level: u8) -> bool
        requires { level < length self.now }
        ensures { result ≡ slice_index_or self.now level false }
    {
        self.bits >> (self.levels - 1 - level) & 1 == 1
    }

    /// The path of the smaller block, given the path of the larger one.
    pub(crate) fn onward(&self, path: &Path) -> Path
        requires some { 0 < length self.now }
        requires room { length path.now + length self.now ≤ 128 }
        ensures { result ≡ path.now ++ self.now }
    {
        let len = path.len() + self.levels;
        Path::new(path.to_bits() + (u128::from(self.bits) << (128 - len)), len)
    }
}
