//! Conversions from numbers to addresses, and operations on the last bits of a number: clear, set, drop. For the crates above; not part of
//! the promise.
ghost use Rattle.std.specs.Prelude.{◌≡◌, ℕ, ◌+◌, ◌-◌, ◌*◌, ◌/◌, ◌^◌, ◌<◌, ◌≤◌};
ghost use Rattle.std.specs.Net.Addr.{ipv4_bits, ipv6_bits};

use std::net::{Ipv4Addr, Ipv6Addr};

/// The IPv4 address of this number.
#[tactic(auto, using(crate::proofs::Numbers::ipv4_bits_of_bits))]
pub fn ipv4_of(number: u32) -> Ipv4Addr
    ensures { ipv4_bits result ≡ number }
{
    Ipv4Addr::from_bits(number)
}

/// The IPv6 address of this number.
#[tactic(auto, using(crate::proofs::Numbers::ipv6_bits_of_bits))]
pub fn ipv6_of(number: u128) -> Ipv6Addr
    ensures { ipv6_bits result ≡ number }
{
    Ipv6Addr::from_bits(number)
}

/// The number of `count` one bits; `count` is at most 128.
pub fn ones(count: u8) -> u128
    requires { count ≤ 128 }
    ensures { result ≡ 2 ^ count - 1 }
{
    if count == 128 {
        u128::MAX
    } else {
        (1 << count) - 1
    }
}

/// The number without its last `free` bits; `free` is at most 128.
pub fn quotient(number: u128, free: u8) -> u128
    requires { free ≤ 128 }
    ensures { result ≡ number / 2 ^ free }
{
    if free == 128 { 0 } else { number >> free }
}

/// The number with its last `free` bits cleared; `free` is at most 128.
pub fn cleared(number: u128, free: u8) -> u128
    requires { free ≤ 128 }
    ensures value { result ≡ number / 2 ^ free * 2 ^ free }
    ensures within { result ≤ number }
{
    if free == 128 {
        0
    } else {
        number >> free << free
    }
}

/// The number with its last `free` bits set; `free` is at most 128.
pub fn filled(number: u128, free: u8) -> u128
    requires { free ≤ 128 }
    ensures value { result ≡ number / 2 ^ free * 2 ^ free + (2 ^ free - 1) }
    ensures within { (width : ℕ) → free ≤ width → number < 2 ^ width → result < 2 ^ width }
{
    cleared(number, free) + ones(free)
}

/// The number of bits of the number without leading zeros; 0 for the number 0.
pub(crate) fn bit_len(number: u128) -> u8
    ensures below { number < 2 ^ result }
    ensures shortest { 0 < result → 2 ^ (result - 1) ≤ number }
    ensures within { result ≤ 128 }
{
    if number == 0 {
        0
    } else {
        number.ilog2() as u8 + 1
    }
}
