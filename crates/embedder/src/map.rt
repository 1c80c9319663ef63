//! Maps of prefixes, with a key type of its own, with any key type, and with networks.
ghost use Rattle.std.specs.Prelude.{◌≡◌, ◌<◌, ◌≤◌, ◌-◌, ◌/◌, Some, None, IfOk, OnOk, IsTrue, nat_le, length, filter};
ghost use Rattle.std.specs.FinMap.{entries, keys, get, insert};
ghost use Rattle.std.specs.List.{All};
ghost use Rattle.ipnet_addr.specs.Addresses.{Ipv4};
ghost use Rattle.ipnet_blocks.specs.Blocks.{bit_string};
ghost use Rattle.ipnet_blocks.specs.Networks.{block_of};
ghost use Rattle.trie_core.specs.Bits.{number_from};
ghost use Rattle.trie_core.specs.Prefixes.{prefix_bits};
ghost use Rattle.prefix_trie.specs.Made.{inserted};

use ipnet::Ipv4Net;
use prefix_trie::{Prefix, PrefixMap, PrefixSet, Refused};

/// A region: the first `len` bits of a label.
#[derive(Clone, Copy)]
pub struct Region {
    pub label: u16,
    pub len: u8,
}

impl Prefix for Region {
    type R = u16;

    ghost bits = { λ p. prefix_bits 16 p.label p.len };

    ghost of_bits = { λ s. record { label = number_from 16 s; len = length s } };

    ghost fits = { λ p. nat_le p.len 16 };

    fn repr(&self) -> u16 {
        self.label
    }

    fn prefix_len(&self) -> u8 {
        self.len
    }

    fn from_repr_len(repr: u16, len: u8) -> Region {
        Region { label: repr, len }
    }
}

/// Stores a region and returns its longest match then: the region with zeros after its bits, and its value.
///
/// # Errors
/// Those of `PrefixMap::insert`; this contract says nothing of them.
pub fn matched(
    map: &mut PrefixMap<Region, u32>,
    region: Region,
    value: u32,
) -> Result<Option<(Region, u32)>, (Refused, u32)>
    requires { IsTrue (nat_le region.len 16) }
    ensures { IfOk result (λ found. found ≡ Some (record { label = number_from 16 (prefix_bits 16 region.label region.len); len = length (prefix_bits 16 region.label region.len) }, value)) }
{
    map.insert(region, value)?;
    match map.get_lpm(&region) {
        None => Ok(None),
        Some((key, value)) => Ok(Some((key, *value))),
    }
}

/// Stores a new region and removes it again: the map has the same entries as before.
///
/// # Errors
/// Those of `PrefixMap::insert`; this contract says nothing of them.
pub fn restored(map: &mut PrefixMap<Region, u32>, region: Region) -> Result<(), (Refused, u32)>
    requires fits { IsTrue (nat_le region.len 16) }
    requires absent { get map.old.entries (prefix_bits 16 region.label region.len) ≡ None }
    ensures { OnOk result (map.new.entries ≡ map.old.entries) }
{
    map.insert(region, 7)?;
    map.remove(&region);
    Ok(())
}

/// Stores all entries of a map in another, in the order of a walk.
///
/// # Errors
/// Those of `PrefixMap::insert`; this contract says nothing of them.
pub fn copied<P: Prefix + Drop>(
    map: &PrefixMap<P, u32>,
    other: &mut PrefixMap<P, u32>,
) -> Result<(), (Refused, u32)>
    ensures { OnOk result (other.new.entries ≡ inserted (λ s. s) other.old.entries (entries map.now.entries)) }
{
    for (key, value) in map {
        other.insert(key, *value)?;
    }
    Ok(())
}

/// Keeps the regions that leave at least `free` bits. The closure relies on regions having at most sixteen bits.
pub fn roomy(map: &mut PrefixMap<Region, u32>, free: u8)
    ensures { entries map.new.entries ≡ filter (λ e. nat_le free (16 - length e.0)) (entries map.old.entries) }
{
    map.retain(|region, _| 16 - region.len >= free);
}

/// `roomy` for a set.
pub fn roomy_members(set: &mut PrefixSet<Region>, free: u8)
    ensures { keys set.new.entries ≡ filter (λ s. nat_le free (16 - length s)) (keys set.old.entries) }
{
    set.retain(|region| 16 - region.len >= free);
}

/// Keeps the entries whose value is at most a third of `whole`. The closure works only for values above 0, as the stored ones are.
pub fn in_parts(map: &mut PrefixMap<Region, u32>, whole: u32)
    requires { All (λ e. 0 < e.1) (entries map.old.entries) }
    ensures { entries map.new.entries ≡ filter (λ e. nat_le 3 (whole / e.1)) (entries map.old.entries) }
{
    map.retain(|_, value| whole / *value >= 3);
}

/// Stores a network. It has no precondition.
///
/// # Errors
/// Those of `PrefixMap::insert`; this contract says nothing of them.
pub fn stored(
    map: &mut PrefixMap<Ipv4Net, u32>,
    net: Ipv4Net,
) -> Result<Option<u32>, (Refused, u32)>
    ensures map { OnOk result (map.new.entries ≡ insert map.old.entries (bit_string (block_of Ipv4 net)) 1) }
    ensures old { IfOk result (λ old. old ≡ get map.old.entries (bit_string (block_of Ipv4 net))) }
{
    map.insert(net, 1)
}
