//! Equality of maps: the same bit strings with equal values.
ghost use Rattle.std.specs.Prelude.{◌≡◌, ◌≤◌, length};
ghost use Rattle.std.specs.Ordering.{eq_by_cmp};
ghost use Rattle.std.specs.Cmp.Lexicographic.{pointwise};
ghost use Rattle.ipnet_blocks.specs.BitStrings.{bits_cmp};
ghost use Rattle.trie_core.specs.InnerWalks.{KeysWithin};
ghost use Rattle.prefix_trie.specs.Equal.{same_entry, same_maps};
ghost use Rattle.prefix_trie.specs.InnerEqual.{same_maps-partial, same_maps-total};

use crate::map::PrefixMap;
use crate::prefix::Prefix;
use trie_core::{Path, Walk};

/// Whether two bit strings are the same.
pub(crate) fn is_same(path: &Path, other: &Path) -> bool
    requires { length path.now ≤ 128 }
    ensures { result ≡ eq_by_cmp bits_cmp path.now other.now }
{
    path.len() == other.len() && path.to_bits() == other.to_bits()
}

/// Whether two walks have the same entries left.
fn is_same_walk<T: PartialEq>(walk: Walk<'_, T>, other: Walk<'_, T>) -> bool
    requires within { KeysWithin 128 walk.0 }
    ensures { result ≡ pointwise (same_entry T.eq) walk.entry.0 other.entry.0 }
{
    let mut walk = walk;
    let mut other = other;
    'walk: while let Some((path, value)) = walk.next() {
        let Some((other_path, other_value)) = other.next() else {
            return false;
        };
        if !is_same(&path, &other_path) || value != other_value {
            return false;
        }
    }
    other.next().is_none()
}

/// Two maps are equal if they have the same keys with equal values. The number of nodes makes no difference.
///
/// # Examples
/// `map` has the value 3 at 10.0.0.0/8, and `copy` is a copy of it. `holds` checks a fact:
///
/// ```rust
/// holds(rt, map.insert((0x0a00_0000, 8), 4).is_ok());
/// holds(rt, *copy != *map);
/// holds(rt, map.insert((0x0a00_0000, 8), 3).is_ok());
/// holds(rt, *copy == *map);
/// ```
impl<P: Prefix, T: PartialEq> PartialEq for PrefixMap<P, T> {
    ghost eq = { same_maps T.eq };

    ghost laws = { same_maps-partial T.laws };

    fn eq(&self, other: &PrefixMap<P, T>) -> bool {
        is_same_walk(Walk::new(self.walked()), Walk::new(other.walked()))
    }
}

impl<P: Prefix, T: Eq> Eq for PrefixMap<P, T> {
    ghost laws = { same_maps-total T.Eq.laws };
}
