//! Network masks: ones followed by zeros.
ghost use Rattle.std.specs.Prelude.{◌≡◌, ◌≢◌, ℕ, ◌^◌, ◌<◌, ◌≤◌, MatchOption, MatchResult};
ghost use Rattle.ipnet_addr.specs.Addresses.{ipv4_address, ipv6_address, address_of};
ghost use Rattle.ipnet_addr.specs.Masks.{mask_bits, IsMask};

use crate::bits::{bit_len, ones};
use crate::number::AddressInt;
use std::net::{IpAddr, Ipv4Addr, Ipv6Addr};
use thiserror::Error;

/// A prefix length is above the width of the address, or a mask isn't ones followed by zeros.
///
/// # Examples
/// `shows` checks the displayed text:
///
/// ```rust
/// shows(&rt, rt.alloc(), &PrefixLenError, "invalid IP prefix length");
/// ```
#[derive(Clone, Debug, PartialEq, Eq, Drop, Error)]
#[error("invalid IP prefix length")]
pub struct PrefixLenError;

/// The number whose first `len` of `width` bits are ones, and whose other bits are zeros.
pub fn mask_number(width: u8, len: u8) -> u128
    requires in_width { len ≤ width }
    requires bits { width ≤ 128 }
    ensures value { result ≡ mask_bits width len }
    ensures within { result < 2 ^ width }
{
    ones(width) - ones(width - len)
}

// The number of ones of a mask of `width` bits, or `None` if `mask` isn't ones followed by zeros.
fn mask_len(width: u8, mask: u128) -> Option<u8>
    requires bits { width ≤ 128 }
    requires within { mask < 2 ^ width }
    ensures { MatchOption result ((len : ℕ) → len ≤ width → mask ≢ mask_bits width len) (λ len. (len ≤ width) × (mask ≡ mask_bits width len)) }
{
    let host = ones(width) - mask;
    let free = bit_len(host);
    if host == ones(free) {
        Some(width - free)
    } else {
        None
    }
}

/// Returns the number of ones of a mask of the family of `N`.
///
/// # Errors
/// - `PrefixLenError`: exactly if `mask` isn't ones followed by zeros.
pub fn mask_to_prefix<N: AddressInt>(mask: N::Addr) -> Result<u8, PrefixLenError>
    ensures { MatchResult result (IsMask (record { family = N.family; number = N.addr_number mask })) (λ _. (len : ℕ) → IsMask (record { family = N.family; number = N.addr_number mask }) len → ⊥) }
{
    mask_len(N::width(), N::of_addr(mask).to_bits()).ok_or(PrefixLenError)
}

/// Returns the number of ones of an IPv4 mask.
///
/// # Errors
/// - `PrefixLenError`: exactly if `mask` isn't ones followed by zeros.
///
/// # Examples
/// ```rust
/// let mask = Ipv4Addr::new(255, 254, 0, 0);
/// assert_eq!(rt; ipv4_mask_to_prefix(mask), Ok(15));
/// assert_eq!(rt;
///     ipv4_mask_to_prefix(Ipv4Addr::new(255, 0, 255, 0)),
///     Err(PrefixLenError)
/// );
/// ```
pub fn ipv4_mask_to_prefix(mask: Ipv4Addr) -> Result<u8, PrefixLenError>
    ensures { MatchResult result (IsMask (ipv4_address mask)) (λ _. (len : ℕ) → IsMask (ipv4_address mask) len → ⊥) }
{
    mask_to_prefix::<u32>(mask)
}

/// Returns the number of ones of an IPv6 mask.
///
/// # Errors
/// - `PrefixLenError`: exactly if `mask` isn't ones followed by zeros.
///
/// # Examples
/// ```rust
/// let mask = Ipv6Addr::new(0xffff, 0xffff, 0, 0, 0, 0, 0, 0);
/// assert_eq!(rt; ipv6_mask_to_prefix(mask), Ok(32));
/// ```
pub fn ipv6_mask_to_prefix(mask: Ipv6Addr) -> Result<u8, PrefixLenError>
    ensures { MatchResult result (IsMask (ipv6_address mask)) (λ _. (len : ℕ) → IsMask (ipv6_address mask) len → ⊥) }
{
    mask_to_prefix::<u128>(mask)
}

/// Returns the number of ones of a mask of either family.
///
/// # Errors
/// - `PrefixLenError`: exactly if `mask` isn't ones followed by zeros.
///
/// # Examples
/// For `mask`, `ffff:ffff::`:
///
/// ```rust
/// assert_eq!(rt; ip_mask_to_prefix(IpAddr::V6(mask)), Ok(32));
/// ```
pub fn ip_mask_to_prefix(mask: IpAddr) -> Result<u8, PrefixLenError>
    ensures { MatchResult result (IsMask (address_of mask)) (λ _. (len : ℕ) → IsMask (address_of mask) len → ⊥) }
{
    match mask {
        IpAddr::V4(mask) => ipv4_mask_to_prefix(mask),
        IpAddr::V6(mask) => ipv6_mask_to_prefix(mask),
    }
}
