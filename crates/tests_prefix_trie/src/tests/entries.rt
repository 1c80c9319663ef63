//! Rows for entries: the stored networks, a call of an entry, and the map after it.
use crate::tests::entries::Call::{
    Defaulted, Lent, Matched, NoEntry, NoMatch, Occupied, OrInserted, Removed, Stored, StoredTwice,
    VacantKey, VeryKey, Written, WrittenAfter,
};
use crate::tests::maps::{is_equal, is_text, map_of, net, step_is};
use ipnet::Ipv4Net;
use prefix_trie::map::{Entry, VacantEntry};
use prefix_trie::{PrefixMap, Refused};
use std::alloc::Global;
use std::process::Abort;

/// Checks the stored value that the call lends.
fn lent_is(rt: &impl Abort, outcome: Result<&mut u32, (Refused, u32)>, wanted: u32) {
    is_equal(rt, *outcome.expect(rt, "memory"), wanted);
}

/// Checks the old value that the call returns.
fn had_is(rt: &impl Abort, outcome: Result<Option<u32>, (Refused, u32)>, wanted: Option<u32>) {
    is_equal(rt, outcome.expect(rt, "memory"), wanted);
}

/// A call that stores into a vacant entry.
enum Storing {
    OrInsert,
    OrInsertWith,
    OrDefault,
    Insert,
    InsertWith,
    Default,
}

/// The calls that store into a vacant entry, with the value each one stores.
static STORING: [(&str, Storing, u32); 6] = [
    ("or_insert", Storing::OrInsert, 1),
    ("or_insert_with", Storing::OrInsertWith, 2),
    ("or_default", Storing::OrDefault, 0),
    ("insert of a vacant entry", Storing::Insert, 3),
    ("insert_with of a vacant entry", Storing::InsertWith, 4),
    ("default of a vacant entry", Storing::Default, 0),
];

/// The outcome of a storing call, with a copy of the value that it lends.
type Outcome = Result<u32, (Refused, u32)>;

fn outcome_of(outcome: Result<&mut u32, (Refused, u32)>) -> Outcome {
    match outcome {
        Ok(stored) => Ok(*stored),
        Err(refused) => Err(refused),
    }
}

/// Calls and returns the value stored for this network, or none if memory was refused and the value was returned.
fn stored_by(
    rt: &impl Abort,
    map: &mut PrefixMap<Ipv4Net, u32>,
    text: &str,
    call: &Storing,
    value: u32,
) -> Option<u32> {
    let outcome = store(rt, map, net(rt, text), call, value);
    if let Err(refused) = outcome {
        is_equal(rt, refused, (Refused::Memory, value));
    }
    outcome.ok()
}

/// The outcome of the call.
fn store(
    rt: &impl Abort,
    map: &mut PrefixMap<Ipv4Net, u32>,
    key: Ipv4Net,
    call: &Storing,
    value: u32,
) -> Outcome {
    match call {
        Storing::OrInsert => outcome_of(map.entry(key).or_insert(value)),
        Storing::OrInsertWith => outcome_of(map.entry(key).or_insert_with(|| value)),
        Storing::OrDefault => outcome_of(map.entry(key).or_default()),
        into_vacant => store_into_vacant(rt, map, key, into_vacant, value),
    }
}

/// The vacant entry.
fn vacant<'a>(rt: &impl Abort, entry: Entry<'a, Ipv4Net, u32>) -> VacantEntry<'a, Ipv4Net, u32> {
    match entry {
        Entry::Vacant(vacant) => vacant,
        Entry::Occupied(_) => panic!(rt; "occupied"),
    }
}

/// The outcome of a call of a vacant entry.
fn store_into_vacant(
    rt: &impl Abort,
    map: &mut PrefixMap<Ipv4Net, u32>,
    key: Ipv4Net,
    call: &Storing,
    value: u32,
) -> Outcome {
    let vacant = vacant(rt, map.entry(key));
    match call {
        Storing::Insert => outcome_of(vacant.insert(value)),
        Storing::InsertWith => outcome_of(vacant.insert_with(|| value)),
        _ => outcome_of(vacant.default()),
    }
}

/// Checks that the map has its root alone, or this network with this value and this number of nodes.
fn is_refused_or_stored(
    rt: &impl Abort,
    row: &str,
    map: &PrefixMap<Ipv4Net, u32>,
    stored: (&str, Option<u32>, usize),
) {
    let (text, value, nodes) = stored;
    step_is(rt, (row, 1), map.get(&net(rt, text)).copied(), value);
    step_is(rt, (row, 1), map.len(), usize::from(value.is_some()));
    let nodes = if value.is_some() { nodes } else { 1 };
    step_is(rt, (row, 1), map.node_count(), nodes);
}

/// Checks that the call stores 10.0.0.0/8, given with host bits, into the empty map.
fn is_stored(
    rt: &impl Abort,
    map: &mut PrefixMap<Ipv4Net, u32>,
    row: &str,
    call: &Storing,
    value: u32,
) {
    let stored = stored_by(rt, map, "10.1.2.3/8", call, value);
    step_is(rt, (row, 0), stored, Some(value));
    is_refused_or_stored(rt, row, map, ("10.0.0.0/8", stored, 2));
}

#[test]
fn stored_into_an_empty_map(rt: HostRuntime) {
    for (row, call, value) in &STORING {
        is_stored(&rt, &mut map_of(&rt, rt.alloc(), &[]), row, call, *value);
    }
}

/// Stores 1.2.3.0/32, which needs six more nodes. Each request for memory may be refused; then the map is unchanged and the value is
/// returned.
fn may_be_refused(
    rt: &impl Abort,
    map: &mut PrefixMap<Ipv4Net, u32>,
    row: &str,
    call: &Storing,
    value: u32,
) {
    let stored = stored_by(rt, map, "1.2.3.0/32", call, value);
    is_refused_or_stored(rt, row, map, ("1.2.3.0/32", stored, 7));
}

#[test]
fn each_store_may_be_refused(rt: HostRuntime) {
    for (row, call, value) in &STORING {
        may_be_refused(&rt, &mut map_of(&rt, rt.alloc(), &[]), row, call, *value);
    }
}

/// The value 5 if the call stored it, or none if memory was refused and the value was returned.
fn five_if_stored(rt: &impl Abort, outcome: Result<Option<u32>, (Refused, u32)>) -> Option<u32> {
    match outcome {
        Ok(_) => Some(5),
        Err(refused) => {
            is_equal(rt, refused, (Refused::Memory, 5));
            None
        }
    }
}

/// The same of `insert`.
fn insert_may_refuse(rt: &impl Abort, map: &mut PrefixMap<Ipv4Net, u32>) {
    let outcome = map.entry(net(rt, "1.2.3.0/32")).insert(5);
    let stored = five_if_stored(rt, outcome);
    is_refused_or_stored(rt, "insert", map, ("1.2.3.0/32", stored, 7));
}

#[test]
fn insert_may_be_refused(rt: HostRuntime) {
    insert_may_refuse(&rt, &mut map_of(&rt, rt.alloc(), &[]));
}

/// Calls of entries. The network is 10.0.0.0/8 unless another one is named.
enum Call {
    /// The key of a vacant entry for 10.1.2.3/16 has its host bits. The value 7 is stored.
    VacantKey,
    /// The key of a `VacantEntry` has its host bits. The default value is stored.
    Defaulted,
    /// The key of an occupied entry for 10.1.2.3/16 has no host bits.
    VeryKey,
    /// `or_insert` lends the value that it stored, and the value is then written.
    Lent,
    /// `or_insert` and `and_modify` of a stored value.
    OrInserted,
    /// `get_mut` lends the value.
    Written,
    /// Each call of an occupied entry except `remove`.
    Occupied,
    /// `remove` of an occupied entry.
    Removed,
    /// `insert`, twice.
    Stored,
    /// `insert` into one entry, twice.
    StoredTwice,
    /// A value is written after it was stored.
    WrittenAfter,
    /// No match of 11.0.0.0/8 is lent, and no value for 10.2.3.0/24.
    NoMatch,
    NoEntry,
    /// `get_lpm_mut` lends the match of 10.2.3.4/32, and it is written.
    Matched,
}

/// Writes the stored value that the call lends.
fn write_stored(rt: &impl Abort, outcome: Result<&mut u32, (Refused, u32)>, value: u32) {
    *outcome.expect(rt, "memory") = value;
}

/// Writes the value that the call lends.
fn write(rt: &impl Abort, lent: Option<&mut u32>, value: u32) {
    *lent.expect(rt, "a value") = value;
}

/// The key of a vacant entry.
fn vacant_key(rt: &impl Abort, map: &mut PrefixMap<Ipv4Net, u32>) {
    let entry = map.entry(net(rt, "10.1.2.3/16"));
    is_text(rt, *entry.key(), "10.1.2.3/16");
    is_equal(rt, entry.get().is_none(), true);
    lent_is(rt, entry.or_insert(7), 7);
}

/// The key of an occupied entry.
fn very_key(rt: &impl Abort, map: &mut PrefixMap<Ipv4Net, u32>) {
    let entry = map.entry(net(rt, "10.1.2.3/16"));
    is_text(rt, *entry.key(), "10.1.0.0/16");
    is_equal(rt, entry.get().copied(), Some(7));
}

/// The key of a `VacantEntry`.
fn defaulted(rt: &impl Abort, map: &mut PrefixMap<Ipv4Net, u32>) {
    let entry = vacant(rt, map.entry(net(rt, "10.1.2.3/8")));
    is_text(rt, *entry.key(), "10.1.2.3/8");
    lent_is(rt, entry.default(), 0);
}

/// Each call of an occupied entry except `remove`.
fn occupied(rt: &impl Abort, map: &mut PrefixMap<Ipv4Net, u32>) {
    let Entry::Occupied(mut entry) = map.entry(net(rt, "10.9.9.9/8")) else {
        panic!(rt; "vacant")
    };
    is_text(rt, *entry.key(), "10.0.0.0/8");
    is_equal(rt, entry.insert(8), 7);
    *entry.get_mut() = 10;
    is_equal(rt, *entry.get(), 10);
    *entry.into_mut() = 11;
}

/// `remove` of an occupied entry.
fn removed(rt: &impl Abort, map: &mut PrefixMap<Ipv4Net, u32>) {
    let Entry::Occupied(entry) = map.entry(net(rt, "10.9.9.9/8")) else {
        panic!(rt; "vacant")
    };
    is_equal(rt, entry.remove(), 11);
}

/// `or_insert` and `and_modify` of a stored value.
fn or_inserted(rt: &impl Abort, map: &mut PrefixMap<Ipv4Net, u32>) {
    lent_is(rt, map.entry(net(rt, "10.0.0.0/8")).or_insert(9), 5);
    let entry = map.entry(net(rt, "10.0.0.0/8"));
    let entry = entry.and_modify(|value| *value = 6);
    is_equal(rt, entry.get().copied(), Some(6));
}

/// `insert` into one entry, twice.
fn stored_twice(rt: &impl Abort, map: &mut PrefixMap<Ipv4Net, u32>) {
    let mut entry = map.entry(net(rt, "10.9.9.9/8"));
    had_is(rt, entry.insert(3), None);
    is_equal(rt, entry.get().copied(), Some(3));
    had_is(rt, entry.insert(4), Some(3));
    lent_is(rt, entry.or_insert(8), 4);
}

/// A value is written after it was stored.
fn written_after(rt: &impl Abort, map: &mut PrefixMap<Ipv4Net, u32>) {
    let mut entry = map.entry(net(rt, "10.0.0.0/8"));
    had_is(rt, entry.insert(3), None);
    *entry.get_mut().expect(rt, "a value") = 5;
    is_equal(rt, entry.get().copied(), Some(5));
    let entry = entry.and_modify(|value| *value = 6);
    lent_is(rt, entry.or_default(), 6);
}

/// `get_lpm_mut` lends the match of 10.2.3.4/32, and it is written.
fn matched(rt: &impl Abort, map: &mut PrefixMap<Ipv4Net, u32>) {
    let found = map.get_lpm_mut(&net(rt, "10.2.3.4/32"));
    let (key, value) = found.expect(rt, "a match");
    is_text(rt, key, "10.0.0.0/8");
    *value = 7;
}

/// `insert`, twice.
fn stored(rt: &impl Abort, map: &mut PrefixMap<Ipv4Net, u32>) {
    had_is(rt, map.entry(net(rt, "10.1.2.3/8")).insert(1), None);
    let found = map.get(&net(rt, "10.0.0.0/8")).copied();
    is_equal(rt, found, Some(1));
    had_is(rt, map.entry(net(rt, "10.9.9.9/8")).insert(2), Some(1));
}

/// No match of 11.0.0.0/8 is lent.
fn no_match(rt: &impl Abort, map: &mut PrefixMap<Ipv4Net, u32>) {
    let found = map.get_lpm_mut(&net(rt, "11.0.0.0/8"));
    is_equal(rt, found.is_none(), true);
}

/// No value for 10.2.3.0/24 is lent.
fn no_entry(rt: &impl Abort, map: &mut PrefixMap<Ipv4Net, u32>) {
    let mut entry = map.entry(net(rt, "10.2.3.0/24"));
    is_equal(rt, entry.get_mut().is_none(), true);
}

/// Stores a value, and writes through the reference that is returned.
fn lent(rt: &impl Abort, map: &mut PrefixMap<Ipv4Net, u32>) {
    let ten = net(rt, "10.0.0.0/8");
    write_stored(rt, map.entry(ten).or_insert(1), 5);
}

/// Writes through the reference to the stored value.
fn written(rt: &impl Abort, map: &mut PrefixMap<Ipv4Net, u32>) {
    let ten = net(rt, "10.0.0.0/8");
    write(rt, map.entry(ten).get_mut(), 7);
}

/// Makes the call and checks its result.
fn calls(rt: &impl Abort, map: &mut PrefixMap<Ipv4Net, u32>, call: &Call) {
    match call {
        VacantKey => vacant_key(rt, map),
        Defaulted => defaulted(rt, map),
        VeryKey => very_key(rt, map),
        Lent => lent(rt, map),
        OrInserted => or_inserted(rt, map),
        Written => written(rt, map),
        Occupied => occupied(rt, map),
        Removed => removed(rt, map),
        Stored => stored(rt, map),
        StoredTwice => stored_twice(rt, map),
        WrittenAfter => written_after(rt, map),
        NoMatch => no_match(rt, map),
        NoEntry => no_entry(rt, map),
        Matched => matched(rt, map),
    }
}

/// Entries: the text of a network, and its value.
type Entries = &'static [(&'static str, u32)];

/// A row: its name, the call, the entries before and after it, and the number of nodes after it. If three entries are stored before, the
/// third one is removed first and its nodes are kept.
type Row = (&'static str, Call, Entries, Entries, usize);

/// The rows.
static CALLS: [Row; 15] = [
    ("a vacant key", VacantKey, &[], &[("10.1.0.0/16", 7)], 4),
    (
        "a stored key",
        VeryKey,
        &[("10.1.2.3/16", 7)],
        &[("10.1.0.0/16", 7)],
        4,
    ),
    ("a default", Defaulted, &[], &[("10.0.0.0/8", 0)], 2),
    ("lent", Lent, &[], &[("10.0.0.0/8", 5)], 2),
    (
        "or_insert",
        OrInserted,
        &[("10.0.0.0/8", 5)],
        &[("10.0.0.0/8", 6)],
        2,
    ),
    (
        "get_mut",
        Written,
        &[("10.0.0.0/8", 6)],
        &[("10.0.0.0/8", 7)],
        2,
    ),
    (
        "occupied",
        Occupied,
        &[("10.0.0.0/8", 7)],
        &[("10.0.0.0/8", 11)],
        2,
    ),
    ("removed", Removed, &[("10.0.0.0/8", 11)], &[], 2),
    ("stored", Stored, &[], &[("10.0.0.0/8", 2)], 2),
    ("stored twice", StoredTwice, &[], &[("10.0.0.0/8", 4)], 2),
    (
        "written after a store",
        WrittenAfter,
        &[],
        &[("10.0.0.0/8", 6)],
        2,
    ),
    ("no match", NoMatch, &BEFORE, &UNWRITTEN, 6),
    ("no entry", NoEntry, &BEFORE, &UNWRITTEN, 6),
    ("a match", Matched, &BEFORE, &WRITTEN, 6),
    ("get_mut of one of two", Written, &BEFORE, &WRITTEN, 6),
];

/// The entries before some of the calls.
const BEFORE: [(&str, u32); 3] = [("10.0.0.0/8", 1), ("10.1.0.0/16", 2), ("10.2.3.0/24", 3)];

/// The remaining entries if nothing is written.
const UNWRITTEN: [(&str, u32); 2] = [("10.0.0.0/8", 1), ("10.1.0.0/16", 2)];

/// The remaining entries if the first value is written.
const WRITTEN: [(&str, u32); 2] = [("10.0.0.0/8", 7), ("10.1.0.0/16", 2)];

/// Checks that the map has just these entries, in this order.
fn has_in_order(
    rt: &impl Abort,
    row: &str,
    map: &PrefixMap<Ipv4Net, u32>,
    entries: &[(&str, u32)],
) {
    let mut left = map.into_iter();
    for (text, stored) in entries.iter() {
        let Some((key, value)) = left.next() else {
            panic!(rt; "{row}: too few entries")
        };
        step_is(rt, (row, 1), key, net(rt, text));
        step_is(rt, (row, 1), *value, *stored);
    }
    step_is(rt, (row, 1), left.next().is_none(), true);
}

/// Checks the entries, their number and the number of nodes.
fn is_whole(
    rt: &impl Abort,
    row: &str,
    map: &PrefixMap<Ipv4Net, u32>,
    entries: &[(&str, u32)],
    nodes: usize,
) {
    has_in_order(rt, row, map, entries);
    step_is(rt, (row, 1), map.len(), entries.len());
    step_is(rt, (row, 1), map.is_empty(), entries.is_empty());
    step_is(rt, (row, 1), map.node_count(), nodes);
}

/// Checks the call, and the map after it.
fn call_is(
    rt: &impl Abort,
    map: &mut PrefixMap<Ipv4Net, u32>,
    row: &str,
    call: &Call,
    after: &[(&str, u32)],
    nodes: usize,
) {
    if map.len() == 3 {
        let taken = map.remove_keep_tree(&net(rt, "10.2.3.0/24"));
        step_is(rt, (row, 0), taken, Some(3));
        step_is(rt, (row, 0), map.node_count(), 6);
    }
    calls(rt, map, call);
    is_whole(rt, row, map, after, nodes);
}

/// Checks each row with a map of its own.
fn all_are(rt: &impl Abort, alloc: Global, rows: &[Row]) {
    for (row, call, before, after, nodes) in rows.iter() {
        let mut map = map_of(rt, alloc, before);
        call_is(rt, &mut map, row, call, after, *nodes);
    }
}

#[test]
fn called(rt: HostRuntime) {
    all_are(&rt, rt.alloc(), &CALLS);
}
