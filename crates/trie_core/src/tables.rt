//! Tables of the places in a node: the prefixes of a string, the length of the string at a place, and the bit of a place.
ghost use Rattle.std.specs.Prelude.{◌≡◌, ◌<◌, ◌≤◌, ◌^◌, ◌+◌, ◌-◌, ◌%◌, List, Bool, length};
ghost use Rattle.trie_core.specs.InnerPlaces.{place_of, child_of, place_string, IsBeginMask};
ghost use Rattle.trie_core.specs.Prefixes.{prefix_bits, IsMasked};

/// For each five bits, the places of their prefixes of fewer than five bits.
const BEGINNINGS: [u32; 32] = [
    31, 31, 47, 47, 199, 199, 327, 327, 3587, 3587, 5635, 5635, 25091, 25091, 41475, 41475, 983041,
    983041, 1507329, 1507329, 6488065, 6488065, 10682369, 10682369, 117506049, 117506049,
    184614913, 184614913, 822149121, 822149121, 1359020033, 1359020033,
];

/// For each place, the length of its string.
const LENGTHS: [u8; 31] = [
    0, 1, 2, 3, 4, 4, 3, 4, 4, 2, 3, 4, 4, 3, 4, 4, 1, 2, 3, 4, 4, 3, 4, 4, 2, 3, 4, 4, 3, 4, 4,
];

/// For each place, the number of its string when padded with zeros to five bits.
const NUMBERS: [u8; 31] = [
    0, 0, 0, 0, 0, 2, 4, 4, 6, 8, 8, 8, 10, 12, 12, 14, 16, 16, 16, 16, 18, 20, 20, 22, 24, 24, 24,
    26, 28, 28, 30,
];

/// The places of the prefixes of a path, given the number of its first five bits, padded with zeros.
///
/// If the path is shorter than five bits, only the places up to its own are its prefixes.
#[inline]
pub(crate) fn beginnings(five: u8) -> u32
    requires { five < 32 }
    ensures long { (q : List Bool) → 5 ≤ length q → child_of q ≡ five → IsBeginMask q result }
    ensures short { (q : List Bool) → length q < 5 → child_of q ≡ five → IsBeginMask q (result % 2 ^ (place_of q + 1)) }
    ensures below { result < 2 ^ 31 }
{
    BEGINNINGS[five as usize]
}

/// The number of bits of the string at a place.
#[inline]
pub(crate) fn place_length(place: u8) -> u8
    requires { place < 31 }
    ensures value { result ≡ length (place_string place) }
    ensures below { result < 5 }
{
    LENGTHS[place as usize]
}

/// The bit of a place in a word.
#[inline]
pub(crate) fn bit(place: u8) -> u32
    requires { place < 32 }
    ensures { result ≡ 2 ^ place }
{
    1u32 << place
}

/// The word that marks the places from `from` on and below `end`.
#[inline]
pub(crate) fn places_between(from: u8, end: u8) -> u32
    requires ordered { from ≤ end }
    requires end { end ≤ 32 }
    ensures { result ≡ 2 ^ end - 2 ^ from }
{
    ((1u64 << end) - (1u64 << from)) as u32
}

/// The number of the string at a place when padded with zeros: the number of the first child below the place.
#[inline]
pub(crate) fn first_child(place: u8) -> u8
    requires { place < 31 }
    ensures value { result ≡ child_of (place_string place) }
    ensures bits { prefix_bits 5 result (length (place_string place)) ≡ place_string place }
    ensures masked { IsMasked 5 result (length (place_string place)) }
    ensures below { result < 32 }
{
    NUMBERS[place as usize]
}
