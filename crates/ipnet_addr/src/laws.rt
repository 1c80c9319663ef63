//! Theorems about addresses, their texts and their ranges: public functions without a body, whose contracts are the theorems.
ghost use Rattle.std.specs.Prelude.{◌≡◌, ◌↔◌, ◌++◌, ℕ, IsTrue, pos};
ghost use Rattle.std.specs.Hash as fed;
ghost use Rattle.std.specs.Int.Digits.{number_from_digits};
ghost use Rattle.std.specs.Net.Addr.{ipv4_octets, ipv6_segments, ipv4_bits, ipv6_bits, IsIpv4Addr, IsIpv6Addr};
ghost use Rattle.std.specs.Ordering.{MatchOrdering};
ghost use Rattle.std.specs.declared.net.ipv4_addr.Ipv4Addr.{Ipv4Addr};
ghost use Rattle.std.specs.declared.net.ipv6_addr.Ipv6Addr.{Ipv6Addr};
ghost use Rattle.ipnet_addr.specs.Addresses.{Address};
ghost use Rattle.ipnet_addr.specs.IpRanges.{IsRangeBefore};
ghost use Rattle.ipnet_addr.specs.Laws.{GivesEachOnce, StaysEmpty, ShortIsRead, Ipv4IsRead, Ipv6IsRead};
ghost use Rattle.ipnet_addr.specs.Masks.{IsMask};
ghost use Rattle.ipnet_addr.specs.Ranges.{Ends, IsEndsBefore};
ghost use Rattle.ipnet_addr.specs.declared.ip_range.IpAddrRange.{IpAddrRange as AnyRange};
ghost use Rattle.ipnet_addr.specs.declared.mask.PrefixLenError.{PrefixLenError as AnyError};

use crate::addr_range::{Ipv4AddrRange, Ipv6AddrRange};
use crate::ip_range::IpAddrRange;
use crate::mask::PrefixLenError;
use std::hash::Hash;

/// The number of an address is read from its octets, or from its units of 16 bits, the most significant first.
pub fn address_number()
    ensures v4 { (a : Ipv4Addr) → IsIpv4Addr a → ipv4_bits a ≡ number_from_digits 256 (ipv4_octets a) }
    ensures v6 { (a : Ipv6Addr) → IsIpv6Addr a → ipv6_bits a ≡ number_from_digits 65536 (ipv6_segments a) }
{}

/// Two addresses of a family with the same number are the same address.
pub fn same_number()
    ensures v4 { (a b : Ipv4Addr) → IsIpv4Addr a → IsIpv4Addr b → ipv4_bits a ≡ ipv4_bits b → a ≡ b }
    ensures v6 { (a b : Ipv6Addr) → IsIpv6Addr a → IsIpv6Addr b → ipv6_bits a ≡ ipv6_bits b → a ≡ b }
{}

/// If a reader returns a value, the text that it read spells this value. A whole text is read exactly if it spells a value: a short
/// number, an IPv4 address or an IPv6 address.
pub fn address_texts()
    ensures short { ShortIsRead }
    ensures v4 { Ipv4IsRead }
    ensures v6 { Ipv6IsRead }
{}

/// A mask has one length.
pub fn mask_length()
    ensures { (m : Address) (a b : ℕ) → IsMask m a → IsMask m b → a ≡ b }
{}

/// No sequence of calls of `next`, `next_back`, `nth` and `nth_back` on a range returns an address twice.
#[tactic(auto, using(crate::proofs::EachOnce::gives_each_once))]
pub fn range_calls()
    ensures { GivesEachOnce }
{}

/// After one call of a range returned `None`, every later call returns `None`.
#[tactic(auto, using(crate::proofs::AfterNone::stays_empty))]
pub fn range_stays_empty()
    ensures { StaysEmpty }
{}

/// Ranges are ordered by family, then start, then end.
pub fn range_order()
    ensures v4 { (a b : Ends) → MatchOrdering (⟦<Ipv4AddrRange as Ord>⟧.cmp a b) (IsEndsBefore a b) (a ≡ b) (IsEndsBefore b a) }
    ensures v6 { (a b : Ends) → MatchOrdering (⟦<Ipv6AddrRange as Ord>⟧.cmp a b) (IsEndsBefore a b) (a ≡ b) (IsEndsBefore b a) }
    ensures either { (a b : AnyRange) → MatchOrdering (⟦<IpAddrRange as Ord>⟧.cmp a b) (IsRangeBefore a b) (a ≡ b) (IsRangeBefore b a) }
{}

/// `==` holds exactly for equal ranges.
pub fn range_equality()
    ensures v4 { (a b : Ends) → IsTrue (⟦<Ipv4AddrRange as PartialEq>⟧.eq a b) ↔ (a ≡ b) }
    ensures v6 { (a b : Ends) → IsTrue (⟦<Ipv6AddrRange as PartialEq>⟧.eq a b) ↔ (a ≡ b) }
    ensures either { (a b : AnyRange) → IsTrue (⟦<IpAddrRange as PartialEq>⟧.eq a b) ↔ (a ≡ b) }
{}

/// A clone of a range is the same range, and cloning never fails.
pub fn range_clones()
    ensures v4 { (a b : Ends) → ⟦<Ipv4AddrRange as Clone>⟧.is_clone a b → b ≡ a }
    ensures v6 { (a b : Ends) → ⟦<Ipv6AddrRange as Clone>⟧.is_clone a b → b ≡ a }
    ensures either { (a b : AnyRange) → ⟦<IpAddrRange as Clone>⟧.is_clone a b → b ≡ a }
    ensures made_v4 { (a : Ends) → ⟦<Ipv4AddrRange as Clone>⟧.is_infallible a }
    ensures made_v6 { (a : Ends) → ⟦<Ipv6AddrRange as Clone>⟧.is_infallible a }
    ensures made_either { (a : AnyRange) → ⟦<IpAddrRange as Clone>⟧.is_infallible a }
{}

/// A range feeds a hasher its start and then its end. A range of either family feeds its family before them.
pub fn range_hashes()
    ensures v4 { (e : Ends) → ⟦<Ipv4AddrRange as Hash>⟧.hash_input e ≡ fed.u32 e.start ++ fed.u32 e.end }
    ensures v6 { (e : Ends) → ⟦<Ipv6AddrRange as Hash>⟧.hash_input e ≡ fed.u128 e.start ++ fed.u128 e.end }
    ensures either_v4 { (e : Ends) → ⟦<IpAddrRange as Hash>⟧.hash_input (IpAddrRange.V4 e) ≡ fed.isize (pos 0) ++ ⟦<Ipv4AddrRange as Hash>⟧.hash_input e }
    ensures either_v6 { (e : Ends) → ⟦<IpAddrRange as Hash>⟧.hash_input (IpAddrRange.V6 e) ≡ fed.isize (pos 1) ++ ⟦<Ipv6AddrRange as Hash>⟧.hash_input e }
{}

/// `==` holds exactly for equal length errors. A clone of such an error equals it, and cloning never fails.
pub fn prefix_len_errors()
    ensures equality { (a b : AnyError) → IsTrue (⟦<PrefixLenError as PartialEq>⟧.eq a b) ↔ (a ≡ b) }
    ensures clones { (a b : AnyError) → ⟦<PrefixLenError as Clone>⟧.is_clone a b → b ≡ a }
    ensures made { (a : AnyError) → ⟦<PrefixLenError as Clone>⟧.is_infallible a }
{}
