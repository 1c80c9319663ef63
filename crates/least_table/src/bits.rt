//! Single bits of paths.
ghost use Rattle.std.specs.Prelude.{◌≡◌, ◌<◌, ◌≤◌, false, true, length, slice_index_or};
ghost use Rattle.least_table.specs.InnerPieces.{before, shared};

use trie_core::Path;

/// The bit at an index.
pub(crate) fn bit(path: &Path, index: u8) -> bool
    requires inside { index < length path.now }
    requires short { length path.now ≤ 128 }
    ensures { result ≡ slice_index_or path.now index false }
{
    path.to_bits() >> (127 - index) & 1 == 1
}

/// The number of bits that two strings have in common. The first string must come before the other and not be a prefix of it.
pub(crate) fn common(path: &Path, other: &Path) -> u8
    requires before { before path.now other.now ≡ true }
    requires short { length path.now ≤ 128 }
    requires other_short { length other.now ≤ 128 }
    ensures { result ≡ shared path.now other.now }
{
    (path.to_bits() ^ other.to_bits()).leading_zeros() as u8
}
