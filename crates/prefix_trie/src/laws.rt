//! Theorems about the bit strings of networks, about equality, about matches, and about refusals: public functions without a body,
//! whose contracts are the theorems.
ghost use Rattle.std.specs.Prelude.{◌≡◌, ◌↔◌, IsTrue};
ghost use Rattle.prefix_trie.specs.Laws.{BegunAreInside, GovernedMatch, PrefixesAscend, SameEntries, SameMembers, StringsAscend, WalksAscend};
ghost use Rattle.prefix_trie.specs.declared.refused.Refused.{Refused as AnyRefused};

use crate::refused::Refused;

/// Within a family, a network is inside another exactly if its bit string begins with the other's, and a walk visits networks by first
/// address, then by length. So the children of a key are the stored networks inside it, its cover is the stored networks that contain
/// it, and all walks ascend.
pub fn networks()
    ensures inside { BegunAreInside }
    ensures order { WalksAscend }
{}

/// A walk visits the prefixes of one width by their masked keys, which `Prefix::mask` returns, and then by length. For example, in a
/// map of `(u32, u8)` the key (0, 8) comes before (0, 9), and (0, 9) before (1 << 31, 1). So the cover of a key begins with the shortest
/// key, and each key after it is longer.
pub fn walks()
    ensures order { StringsAscend }
    ensures cover { PrefixesAscend }
{}

/// `==` holds exactly for sets with the same members. It holds exactly for maps with the same entries, if `==` of their values holds
/// exactly for equal values.
pub fn equality<T>()
    ensures maps { SameEntries T }
    ensures sets { SameMembers }
{}

/// A prefix governs what it contains and no longer stored key contains. All that a prefix governs has the same longest match as the
/// prefix. For example, store 10.0.0.0/8 and 10.1.0.0/16. Then 10.2.0.0/16 governs 10.2.0.1, and both match 10.0.0.0/8. But
/// 10.0.0.0/8 does not govern 10.1.0.1, which matches 10.1.0.0/16.
pub fn matches<T>()
    ensures governed { GovernedMatch T }
{}

/// `==` holds exactly for equal refusals. A clone of a refusal equals it, and cloning never fails.
pub fn refusals()
    ensures equality { (a b : AnyRefused) → IsTrue (⟦<Refused as PartialEq>⟧.eq a b) ↔ (a ≡ b) }
    ensures clones { (a b : AnyRefused) → ⟦<Refused as Clone>⟧.is_clone a b → b ≡ a }
    ensures made { (a : AnyRefused) → ⟦<Refused as Clone>⟧.is_infallible a }
{}
