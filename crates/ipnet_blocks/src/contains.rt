//! Inclusion of blocks, decided on the numbers of their networks. For the crates above; not part of the promise.
ghost use Rattle.std.specs.Prelude.{◌≡◌, ◌-◌, ◌/◌, ◌^◌, ◌<◌, ◌≤◌, ◌↔◌, IsTrue};
ghost use Rattle.ipnet_addr.specs.Addresses.{Family, width};
ghost use Rattle.ipnet_blocks.specs.Blocks.{IsInside};
ghost use Rattle.ipnet_blocks.specs.Networks.{block_of};

use ipnet_addr::bits::quotient;

/// Whether the block of `number` and `len` is inside the block of `other` and `other_len`: it is no shorter, and begins with the same
/// bits. An address has `bits` bits.
pub fn is_inside(bits: u8, number: u128, len: u8, other: u128, other_len: u8) -> bool
    requires narrow { bits ≤ 128 }
    requires fits { (number < 2 ^ bits) × (other < 2 ^ bits) }
    requires in_width { (len ≤ bits) × (other_len ≤ bits) }
    ensures numbers { IsTrue result ↔ (other_len ≤ len) × (number / 2 ^ (bits - other_len) ≡ other / 2 ^ (bits - other_len)) }
    ensures sets { (f : Family) → bits ≡ width f → IsTrue result ↔ IsInside (block_of f (record { number = number; len = len })) (block_of f (record { number = other; len = other_len })) }
{
    let free = bits - other_len;
    other_len <= len && quotient(other, free) == quotient(number, free)
}
