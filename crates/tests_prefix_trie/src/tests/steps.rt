//! Scripts of calls of a map, with their answers.
ghost use Rattle.std.specs.Prelude.{IfSome, IsTrue, nat_le};

use crate::tests::maps::{digits, step_is, value_digits};
use crate::tests::steps::Call::*;
use crate::tests::steps::Step::{Addresses, At, Clear, Counts, Retain, Walk};
use ipnet::{Ipv4Net, Ipv6Net};
use prefix_trie::{Key, Prefix, PrefixMap};
use std::alloc::Global;
use std::fmt::Debug;
use std::process::Abort;
use std::str::FromStr;

/// A prefix of type `P`, as a script writes it.
pub(crate) trait Spells<P: Prefix> {
    /// The prefix, if it is valid.
    fn prefix(&self) -> Option<P>
        ensures { IfSome result (λ p. IsTrue (P.fits p)) };
}

/// A key and a length. There is no prefix if the length is greater than the width of the key.
impl<K: Key> Spells<(K, u8)> for (K, u8) {
    fn prefix(&self) -> Option<(K, u8)>
        ensures { IfSome result (λ p. IsTrue (nat_le p.1 K.width)) }
    {
        if self.1 <= K::width() {
            Some(*self)
        } else {
            None
        }
    }
}

impl Spells<Ipv4Net> for &'static str {
    fn prefix(&self) -> Option<Ipv4Net> {
        Ipv4Net::from_str(self).ok()
    }
}

impl Spells<Ipv6Net> for &'static str {
    fn prefix(&self) -> Option<Ipv6Net> {
        Ipv6Net::from_str(self).ok()
    }
}

/// A call with a prefix, and its answer.
pub(crate) enum Call<S> {
    /// `insert`: the value that was stored.
    Insert(u32, Option<u32>),
    /// `insert_is_leaf`: the value that was stored, and whether nothing is inside.
    InsertIsLeaf(u32, Option<u32>, bool),
    /// `remove`: the value that was stored.
    Remove(Option<u32>),
    /// `remove_keep_tree`: the value that was stored.
    KeepTree(Option<u32>),
    /// `remove_children`.
    RemoveChildren,
    /// `get_mut`, and a write of this value.
    Write(u32),
    /// `get`: the value.
    Get(Option<u32>),
    /// `get_key_value`: the stored key, and the value.
    VeryKey(Option<(S, u32)>),
    /// `contains_key`.
    Contains(bool),
    /// `get_lpm`: the longest match, and its value.
    Longest(Option<(S, u32)>),
    /// `get_lpm_prefix`: the longest match.
    LongestKey(S),
    /// `longest_match`: its length, and its value.
    Length(Option<(u8, u32)>),
    /// `get_lpm_visits`: the longest match, its value, and the number of visited nodes.
    Visits(Option<(S, u32)>, u32),
    /// `get_spm`: the shortest match, and its value.
    Shortest(Option<(S, u32)>),
    /// `get_spm_prefix`: the shortest match.
    ShortestKey(S),
    /// `is_covered`.
    IsCovered(bool),
    /// `is_leaf`.
    IsLeaf(bool),
    /// `children`: the values, as digits.
    Children(u32),
    /// `iter_from`, with the prefix itself or without it: the values, as digits.
    From(bool, u32),
    /// `cover` and `cover_values`: the values, as digits.
    Cover(u32),
}

/// A call of a map, and its answer.
pub(crate) enum Step<S> {
    /// A call with this prefix.
    At(S, Call<S>),
    /// `clear`.
    Clear,
    /// `retain` that keeps every entry, or none.
    Retain(bool),
    /// `len` and `node_count`; and `is_empty`.
    Counts(usize, usize),
    /// `address_count`, in 128 bits.
    Addresses(Option<u128>),
    /// `iter` and `values`: the values, as digits.
    Walk(u32),
}

/// Checks that the entry is this one, or that there is none.
fn entry_is<P: Prefix + Copy + PartialEq + Debug, S: Spells<P>>(
    rt: &impl Abort,
    at: (&str, usize),
    found: Option<(P, &u32)>,
    wanted: &Option<(S, u32)>,
) {
    match wanted {
        Some((spelled, stored)) => spelled_is(rt, at, found, spelled, stored),
        None => step_is(rt, at, found, None),
    }
}

/// Checks the prefix and the value of the entry.
fn spelled_is<P: Prefix + Copy + PartialEq + Debug, S: Spells<P>>(
    rt: &impl Abort,
    at: (&str, usize),
    found: Option<(P, &u32)>,
    spelled: &S,
    stored: &u32,
) {
    let wanted = spelled.prefix();
    step_is(rt, at, wanted.is_some(), true);
    if let Some(key) = wanted {
        step_is(rt, at, found, Some((key, stored)));
    }
}

/// Checks the length and the value of a match, or that there is none.
fn length_is(
    rt: &impl Abort,
    at: (&str, usize),
    found: Option<(u8, &u32)>,
    wanted: Option<(u8, u32)>,
) {
    let found = match found {
        Some((length, stored)) => Some((length, *stored)),
        None => None,
    };
    step_is(rt, at, found, wanted);
}

/// Writes the value that a call lends.
fn write(rt: &impl Abort, at: (&str, usize), lent: Option<&mut u32>, value: u32) {
    *lent.expect(rt, at.0) = value;
}

/// Checks a call that changes the map at a prefix, or one of the calls below.
fn change<P: Prefix + Copy + Drop + PartialEq + Debug, S: Spells<P>>(
    rt: &impl Abort,
    at: (&str, usize),
    map: &mut PrefixMap<P, u32>,
    key: P,
    call: &Call<S>,
)
    requires { IsTrue (P.fits key) }
{
    match call {
        Insert(value, had) => step_is(rt, at, map.insert(key, *value), Ok(*had)),
        InsertIsLeaf(value, had, is_leaf) => {
            let stored = map.insert_is_leaf(key, *value);
            step_is(rt, at, stored, Ok((*had, *is_leaf)));
        }
        Remove(had) => step_is(rt, at, map.remove(&key), *had),
        KeepTree(had) => step_is(rt, at, map.remove_keep_tree(&key), *had),
        RemoveChildren => map.remove_children(&key),
        Write(value) => write(rt, at, map.get_mut(&key), *value),
        asked => ask(rt, at, map, &key, asked),
    }
}

/// Checks a call that asks for entries.
fn ask<P: Prefix + Copy + Drop + PartialEq + Debug, S: Spells<P>>(
    rt: &impl Abort,
    at: (&str, usize),
    map: &PrefixMap<P, u32>,
    key: &P,
    call: &Call<S>,
)
    requires { IsTrue (P.fits key.now) }
{
    match call {
        Get(value) => step_is(rt, at, map.get(key).copied(), *value),
        VeryKey(entry) => entry_is(rt, at, map.get_key_value(key), entry),
        Contains(wanted) => step_is(rt, at, map.contains_key(key), *wanted),
        Longest(entry) => entry_is(rt, at, map.get_lpm(key), entry),
        LongestKey(longest) => step_is(rt, at, map.get_lpm_prefix(key), longest.prefix()),
        Length(wanted) => length_is(rt, at, map.longest_match(key), *wanted),
        Visits(entry, visits) => {
            let (found, count) = map.get_lpm_visits(key);
            entry_is(rt, at, found, entry);
            step_is(rt, at, count, *visits);
        }
        Shortest(entry) => entry_is(rt, at, map.get_spm(key), entry),
        ShortestKey(shortest) => step_is(rt, at, map.get_spm_prefix(key), shortest.prefix()),
        IsCovered(wanted) => step_is(rt, at, map.is_covered(key), *wanted),
        IsLeaf(wanted) => step_is(rt, at, map.is_leaf(key), *wanted),
        Children(values) => step_is(rt, at, digits(map.children(key)), *values),
        From(inclusive, values) => {
            step_is(rt, at, digits(map.iter_from(key, *inclusive)), *values);
        }
        Cover(values) => {
            step_is(rt, at, digits(map.cover(key)), *values);
            step_is(rt, at, value_digits(map.cover_values(key)), *values);
        }
        _ => (),
    }
}

/// Checks a call of the whole map, or a call with a prefix.
fn take<P: Prefix + Copy + Drop + PartialEq + Debug, S: Spells<P>>(
    rt: &impl Abort,
    at: (&str, usize),
    map: &mut PrefixMap<P, u32>,
    step: &Step<S>,
) {
    match step {
        At(key, call) => change(rt, at, map, key.prefix().expect(rt, at.0), call),
        Clear => map.clear(),
        Retain(all) => map.retain(|_, _| *all),
        asked => ask_of_all(rt, at, map, asked),
    }
}

/// Checks a call that counts all entries or walks over them.
fn ask_of_all<P: Prefix + Drop, S>(
    rt: &impl Abort,
    at: (&str, usize),
    map: &PrefixMap<P, u32>,
    step: &Step<S>,
) {
    match step {
        Counts(entries, nodes) => {
            step_is(rt, at, (map.len(), map.node_count()), (*entries, *nodes));
            step_is(rt, at, map.is_empty(), *entries == 0);
        }
        Addresses(wanted) => addresses_are(rt, at, map, *wanted),
        Walk(values) => step_is(rt, at, walked(map), (*values, *values)),
        _ => (),
    }
}

/// The values that the walks over all entries and over all values give, as digits.
fn walked<P: Prefix + Drop>(map: &PrefixMap<P, u32>) -> (u32, u32) {
    (digits(map.iter()), value_digits(map.values()))
}

/// Checks the number of addresses.
fn addresses_are<P: Prefix + Drop>(
    rt: &impl Abort,
    at: (&str, usize),
    map: &PrefixMap<P, u32>,
    wanted: Option<u128>,
) {
    let count = match map.address_count() {
        Some(count) => Some(count.to_bits()),
        None => None,
    };
    step_is(rt, at, count, wanted);
}

/// A script: its name, the entries stored at the start, in this order, and the calls.
pub(crate) type Script<S> = (&'static str, &'static [(S, u32)], &'static [Step<S>]);

/// Checks the calls of a script in order, on a map of these entries, which were stored in this order.
fn goes<P: Prefix + Copy + Drop + PartialEq + Debug, S: Spells<P>>(
    rt: &impl Abort,
    alloc: Global,
    row: &str,
    stored: &[(S, u32)],
    steps: &[Step<S>],
) {
    let mut map: PrefixMap<P, u32> = PrefixMap::new(alloc).expect(rt, "a map");
    store_all(rt, row, &mut map, stored);
    take_all(rt, row, &mut map, steps);
}

/// Stores an entry of which nothing is stored.
fn store<P: Prefix + Copy + Drop + PartialEq + Debug, S: Spells<P>>(
    rt: &impl Abort,
    row: &str,
    map: &mut PrefixMap<P, u32>,
    key: &S,
    value: u32,
) {
    let key = key.prefix().expect(rt, row);
    step_is(rt, (row, 0), map.insert(key, value), Ok(None));
}

/// Stores these entries in this order.
fn store_all<P: Prefix + Copy + Drop + PartialEq + Debug, S: Spells<P>>(
    rt: &impl Abort,
    row: &str,
    map: &mut PrefixMap<P, u32>,
    stored: &[(S, u32)],
) {
    for (key, value) in stored {
        store(rt, row, map, key, *value);
    }
}

/// Checks the calls in order.
fn take_all<P: Prefix + Copy + Drop + PartialEq + Debug, S: Spells<P>>(
    rt: &impl Abort,
    row: &str,
    map: &mut PrefixMap<P, u32>,
    steps: &[Step<S>],
) {
    for (at, each) in steps.iter().enumerate() {
        take(rt, (row, at), map, each);
    }
}

/// Checks each script.
pub(crate) fn all_go<P: Prefix + Copy + Drop + PartialEq + Debug, S: Spells<P>>(
    rt: &impl Abort,
    alloc: Global,
    scripts: &[Script<S>],
) {
    for (row, stored, steps) in scripts.iter() {
        goes::<P, S>(rt, alloc, row, stored, steps);
    }
}
