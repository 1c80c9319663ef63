//! Theorems about networks and their texts, and those about addresses, blocks and maximal blocks: public functions without a body,
//! whose contracts are the theorems.

ghost use Rattle.std.specs.Prelude.{◌≡◌, ◌≢◌, ◌≤◌, ◌⊎◌, ◌↔◌, ◌++◌, ℕ, IsTrue, List, All, MatchOption, length, pos};
ghost use Rattle.std.specs.Hash as fed;
ghost use Rattle.std.specs.Ordering.{MatchOrdering};
ghost use Rattle.serde_json.specs.Data.{Data, string};
ghost use Rattle.ipnet_addr.specs.Addresses.{Ipv4, Ipv6};
ghost use Rattle.ipnet.specs.Forms.{HoldsIpv4, HoldsIpv6, Holds, IsStringOf};
ghost use Rattle.ipnet.specs.IpNets.{IsNetBefore, family, parts};
ghost use Rattle.ipnet.specs.IpSubnets.{IsLimitsBefore, IsSubnetsBefore};
ghost use Rattle.ipnet.specs.Laws.{BlockIsBlock, OrderIsOfBlocks, StaysAggregated};
ghost use Rattle.ipnet_blocks.specs.Cuts.{Limits};
ghost use Rattle.ipnet.specs.IpNetText.{Reads, ip_net_of, net_text};
ghost use Rattle.ipnet_blocks.specs.Networks.{IsNetworkBefore, Network, IsNetwork};
ghost use Rattle.ipnet.specs.NetworkText.{ReadsIpv4, ReadsIpv6, ipv4_net_text, ipv6_net_text};
ghost use Rattle.ipnet.specs.NetworkReader.{ipv4_net_of, ipv6_net_of};
ghost use Rattle.ipnet.specs.declared.ip_net.IpNet.{IpNet as AnyNet};
ghost use Rattle.ipnet.specs.declared.subnets.IpSubnets.{IpSubnets as AnySubnets};
ghost use Rattle.ipnet.specs.declared.text.AddrParseError.{AddrParseError as AnyError};

use crate::ip_net::IpNet;
use crate::networks::{Ipv4Net, Ipv6Net};
use crate::subnets::{IpSubnets, Ipv4Subnets, Ipv6Subnets};
use crate::text::AddrParseError;
pub use ipnet_addr::laws::{
    address_number, address_texts, mask_length, prefix_len_errors, range_calls, range_clones,
    range_equality, range_hashes, range_order, range_stays_empty, same_number,
};
pub use ipnet_blocks::laws::{
    aggregated, begins_is_inside, blocks, cuts, hosts, inside_by_numbers, masks, maximal, nested,
    networks_of_blocks, order, search,
};
use std::hash::Hash;

/// Networks are ordered by family, then number, then length.
pub fn network_order()
    ensures v4 { (m n : Network) → MatchOrdering (⟦<Ipv4Net as Ord>⟧.cmp m n) (IsNetworkBefore m n) (m ≡ n) (IsNetworkBefore n m) }
    ensures v6 { (m n : Network) → MatchOrdering (⟦<Ipv6Net as Ord>⟧.cmp m n) (IsNetworkBefore m n) (m ≡ n) (IsNetworkBefore n m) }
    ensures either { (m n : AnyNet) → MatchOrdering (⟦<IpNet as Ord>⟧.cmp m n) (IsNetBefore m n) (m ≡ n) (IsNetBefore n m) }
{}

/// `==` holds exactly for equal networks, and equal networks have the same hash.
pub fn network_equality()
    ensures v4 { (m n : Network) → IsTrue (⟦<Ipv4Net as PartialEq>⟧.eq m n) ↔ (m ≡ n) }
    ensures v6 { (m n : Network) → IsTrue (⟦<Ipv6Net as PartialEq>⟧.eq m n) ↔ (m ≡ n) }
    ensures either { (m n : AnyNet) → IsTrue (⟦<IpNet as PartialEq>⟧.eq m n) ↔ (m ≡ n) }
    ensures hash_v4 { (m n : Network) → IsTrue (⟦<Ipv4Net as PartialEq>⟧.eq m n) → ⟦<Ipv4Net as Hash>⟧.hash_input m ≡ ⟦<Ipv4Net as Hash>⟧.hash_input n }
    ensures hash_v6 { (m n : Network) → IsTrue (⟦<Ipv6Net as PartialEq>⟧.eq m n) → ⟦<Ipv6Net as Hash>⟧.hash_input m ≡ ⟦<Ipv6Net as Hash>⟧.hash_input n }
    ensures hash_either { (m n : AnyNet) → IsTrue (⟦<IpNet as PartialEq>⟧.eq m n) → ⟦<IpNet as Hash>⟧.hash_input m ≡ ⟦<IpNet as Hash>⟧.hash_input n }
{}

/// A clone of a network is the same network, and cloning never fails.
pub fn network_clones()
    ensures v4 { (m n : Network) → ⟦<Ipv4Net as Clone>⟧.is_clone m n → n ≡ m }
    ensures v6 { (m n : Network) → ⟦<Ipv6Net as Clone>⟧.is_clone m n → n ≡ m }
    ensures either { (m n : AnyNet) → ⟦<IpNet as Clone>⟧.is_clone m n → n ≡ m }
    ensures made_v4 { (n : Network) → ⟦<Ipv4Net as Clone>⟧.is_infallible n }
    ensures made_v6 { (n : Network) → ⟦<Ipv6Net as Clone>⟧.is_infallible n }
    ensures made_either { (n : AnyNet) → ⟦<IpNet as Clone>⟧.is_infallible n }
{}

/// A network feeds a hasher its number and then its length. A network of either family feeds its family before them.
pub fn network_hashes()
    ensures v4 { (n : Network) → ⟦<Ipv4Net as Hash>⟧.hash_input n ≡ fed.u32 n.number ++ fed.u8 n.len }
    ensures v6 { (n : Network) → ⟦<Ipv6Net as Hash>⟧.hash_input n ≡ fed.u128 n.number ++ fed.u8 n.len }
    ensures either_v4 { (n : Network) → ⟦<IpNet as Hash>⟧.hash_input (IpNet.V4 n) ≡ fed.isize (pos 0) ++ ⟦<Ipv4Net as Hash>⟧.hash_input n }
    ensures either_v6 { (n : Network) → ⟦<IpNet as Hash>⟧.hash_input (IpNet.V6 n) ≡ fed.isize (pos 1) ++ ⟦<Ipv6Net as Hash>⟧.hash_input n }
{}

/// The block of a network is valid. Networks without host bits are ordered as their blocks are.
pub fn network_blocks()
    ensures blocks { BlockIsBlock }
    ensures ordered { OrderIsOfBlocks }
{}

/// `aggregate` doesn't change a list that it returned.
pub fn aggregated_again()
    ensures { StaysAggregated }
{}

/// A text spells at most one network, of one family. The functions of the specifications find the network that a text spells.
pub fn network_texts()
    ensures v4 { (text : List ℕ) (m n : Network) → ReadsIpv4 text m → ReadsIpv4 text n → m ≡ n }
    ensures v6 { (text : List ℕ) (m n : Network) → ReadsIpv6 text m → ReadsIpv6 text n → m ≡ n }
    ensures either { (text : List ℕ) (m n : AnyNet) → Reads text m → Reads text n → m ≡ n }
    ensures not_both { (text : List ℕ) (m n : Network) → ReadsIpv4 text m → ReadsIpv6 text n → ⊥ }
    ensures found_v4 { (text : List ℕ) → MatchOption (ipv4_net_of text) ((n : Network) → ReadsIpv4 text n → ⊥) (ReadsIpv4 text) }
    ensures found_v6 { (text : List ℕ) → MatchOption (ipv6_net_of text) ((n : Network) → ReadsIpv6 text n → ⊥) (ReadsIpv6 text) }
    ensures found { (text : List ℕ) → MatchOption (ip_net_of text) ((n : AnyNet) → Reads text n → ⊥) (Reads text) }
{}

/// No text of a network contains a space or a line end, or has more than 51 bytes.
pub fn network_bytes()
    ensures no_space { (text : List ℕ) (n : AnyNet) → Reads text n → All (λ c. c ≢ 32) text }
    ensures no_line_end { (text : List ℕ) (n : AnyNet) → Reads text n → All (λ c. c ≢ 10) text }
    ensures short { (text : List ℕ) (n : AnyNet) → Reads text n → length text ≤ 51 }
{}

/// No two networks have the same bytes, so `from_bytes` returns the network that `to_bytes` was called on.
pub fn byte_forms()
    ensures v4 { (bytes : List ℕ) (m n : Network) → HoldsIpv4 bytes m → HoldsIpv4 bytes n → m ≡ n }
    ensures v6 { (bytes : List ℕ) (m n : Network) → HoldsIpv6 bytes m → HoldsIpv6 bytes n → m ≡ n }
    ensures either { (bytes : List ℕ) (m n : AnyNet) → Holds bytes m → Holds bytes n → m ≡ n }
{}

/// A JSON value spells at most one network. The string of a network's text spells this network, so `from_value` returns the network
/// that `to_value` was called on.
pub fn json_values()
    ensures v4 { (value : Data) (m n : Network) → IsStringOf ReadsIpv4 value m → IsStringOf ReadsIpv4 value n → m ≡ n }
    ensures v6 { (value : Data) (m n : Network) → IsStringOf ReadsIpv6 value m → IsStringOf ReadsIpv6 value n → m ≡ n }
    ensures either { (value : Data) (m n : AnyNet) → IsStringOf Reads value m → IsStringOf Reads value n → m ≡ n }
    ensures back_v4 { (n : Network) → IsNetwork Ipv4 n → IsStringOf ReadsIpv4 (string (ipv4_net_text n)) n }
    ensures back_v6 { (n : Network) → IsNetwork Ipv6 n → IsStringOf ReadsIpv6 (string (ipv6_net_text n)) n }
    ensures back_either { (n : AnyNet) → IsNetwork (family n) (parts n) → IsStringOf Reads (string (net_text n)) n }
{}

/// Subnet iterators are ordered by family, then start, then end, then least length.
pub fn subnets_order()
    ensures v4 { (a b : Limits) → MatchOrdering (⟦<Ipv4Subnets as Ord>⟧.cmp a b) (IsLimitsBefore a b) (a ≡ b) (IsLimitsBefore b a) }
    ensures v6 { (a b : Limits) → MatchOrdering (⟦<Ipv6Subnets as Ord>⟧.cmp a b) (IsLimitsBefore a b) (a ≡ b) (IsLimitsBefore b a) }
    ensures either { (a b : AnySubnets) → MatchOrdering (⟦<IpSubnets as Ord>⟧.cmp a b) (IsSubnetsBefore a b) (a ≡ b) (IsSubnetsBefore b a) }
{}

/// `==` holds exactly for equal subnet iterators.
pub fn subnets_equality()
    ensures v4 { (a b : Limits) → IsTrue (⟦<Ipv4Subnets as PartialEq>⟧.eq a b) ↔ (a ≡ b) }
    ensures v6 { (a b : Limits) → IsTrue (⟦<Ipv6Subnets as PartialEq>⟧.eq a b) ↔ (a ≡ b) }
    ensures either { (a b : AnySubnets) → IsTrue (⟦<IpSubnets as PartialEq>⟧.eq a b) ↔ (a ≡ b) }
{}

/// A clone of a subnet iterator equals it, and cloning never fails.
pub fn subnets_clones()
    ensures v4 { (a b : Limits) → ⟦<Ipv4Subnets as Clone>⟧.is_clone a b → b ≡ a }
    ensures v6 { (a b : Limits) → ⟦<Ipv6Subnets as Clone>⟧.is_clone a b → b ≡ a }
    ensures either { (a b : AnySubnets) → ⟦<IpSubnets as Clone>⟧.is_clone a b → b ≡ a }
    ensures made_v4 { (a : Limits) → ⟦<Ipv4Subnets as Clone>⟧.is_infallible a }
    ensures made_v6 { (a : Limits) → ⟦<Ipv6Subnets as Clone>⟧.is_infallible a }
    ensures made_either { (a : AnySubnets) → ⟦<IpSubnets as Clone>⟧.is_infallible a }
{}

/// A subnet iterator feeds a hasher its start, its end and its least length. An iterator of either family feeds its family before them.
pub fn subnets_hashes()
    ensures v4 { (l : Limits) → ⟦<Ipv4Subnets as Hash>⟧.hash_input l ≡ fed.u32 l.start ++ (fed.u32 l.end ++ fed.u8 l.shortest) }
    ensures v6 { (l : Limits) → ⟦<Ipv6Subnets as Hash>⟧.hash_input l ≡ fed.u128 l.start ++ (fed.u128 l.end ++ fed.u8 l.shortest) }
    ensures either_v4 { (l : Limits) → ⟦<IpSubnets as Hash>⟧.hash_input (IpSubnets.V4 l) ≡ fed.isize (pos 0) ++ ⟦<Ipv4Subnets as Hash>⟧.hash_input l }
    ensures either_v6 { (l : Limits) → ⟦<IpSubnets as Hash>⟧.hash_input (IpSubnets.V6 l) ≡ fed.isize (pos 1) ++ ⟦<Ipv6Subnets as Hash>⟧.hash_input l }
{}

/// `==` holds exactly for equal parse errors. A clone of such an error equals it, and cloning never fails.
pub fn addr_parse_errors()
    ensures equality { (a b : AnyError) → IsTrue (⟦<AddrParseError as PartialEq>⟧.eq a b) ↔ (a ≡ b) }
    ensures clones { (a b : AnyError) → ⟦<AddrParseError as Clone>⟧.is_clone a b → b ≡ a }
    ensures made { (a : AnyError) → ⟦<AddrParseError as Clone>⟧.is_infallible a }
{}
