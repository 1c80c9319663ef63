//! Rows for maps and sets, with expected values written out.
ghost use Rattle.std.specs.Prelude.{IsTrue, nat_le};
ghost use Rattle.std.specs.List.{All};

use crate::tests::maps::{holds, is_equal, plain_map_of};
use crate::tests::set_steps::digits;
use prefix_trie::map::{IntoIter, IntoKeys, IntoValues, IterMut};
use prefix_trie::set::Iter;
use prefix_trie::{PrefixMap, PrefixSet, Refused};
use std::alloc::Global;
use std::cell::Cell;
use std::process::Abort;

/// A map of these entries.
fn map_of<const N: usize>(
    rt: &impl Abort,
    alloc: Global,
    entries: [((u32, u8), u32); N],
) -> Result<PrefixMap<(u32, u8), u32>, Refused>
    requires { All (λ e. IsTrue (nat_le e.0.1 32)) entries }
{
    PrefixMap::try_from_iter(alloc, Vec::from_array(alloc, entries).expect(rt, "entries"))
}

/// A set of these members.
fn set_of<const N: usize>(
    rt: &impl Abort,
    alloc: Global,
    members: [(u32, u8); N],
) -> Result<PrefixSet<(u32, u8)>, Refused>
    requires { All (λ p. IsTrue (nat_le p.1 32)) members }
{
    PrefixSet::try_from_iter(alloc, Vec::from_array(alloc, members).expect(rt, "members"))
}

/// A set of these members, inserted in this order.
pub(crate) fn set_with(
    rt: &impl Abort,
    alloc: Global,
    members: &[(u32, u8)],
) -> PrefixSet<(u32, u8)> {
    let mut set = PrefixSet::new(alloc).expect(rt, "a set");
    for member in members.iter() {
        insert_new(rt, &mut set, *member);
    }
    set
}

/// Inserts a member that is new.
fn insert_new(rt: &impl Abort, set: &mut PrefixSet<(u32, u8)>, member: (u32, u8)) {
    assert!(rt; member.1 <= 32);
    is_equal(rt, set.insert(member), Ok(true));
}

/// 10.9.0.0/16, 10.1.0.0/16 and 10.7.7.7/8.
fn three(rt: &impl Abort, alloc: Global) -> PrefixSet<(u32, u8)> {
    let members = [(0x0a09_0000, 16), (0x0a01_0000, 16), (0x0a07_0707, 8)];
    set_with(rt, alloc, &members)
}

/// Checks the number of members and of nodes.
fn counts(rt: &impl Abort, set: &PrefixSet<(u32, u8)>, members: usize, nodes: usize) {
    is_equal(rt, set.len(), members);
    is_equal(rt, set.node_count(), nodes);
}

/// Checks that the map has these entries.
fn has(rt: &impl Abort, map: &PrefixMap<(u32, u8), u32>, entries: &[((u32, u8), u32)]) {
    for (key, value) in entries.iter() {
        has_one(rt, map, key, *value);
    }
}

/// Checks that the map has this entry.
fn has_one(rt: &impl Abort, map: &PrefixMap<(u32, u8), u32>, key: &(u32, u8), value: u32) {
    assert!(rt; key.1 <= 32);
    is_equal(rt, map.get(key).copied(), Some(value));
}

#[test]
fn made_of_members(rt: HostRuntime) {
    let members = [
        (0x0a09_0000, 16),
        (0x0a07_0707, 8),
        (0x0a01_0000, 16),
        (0x0a09_0808, 16),
    ];
    is_made(&rt, &set_of(&rt, rt.alloc(), members).expect(&rt, "a set"));
}

/// Checks the members and the nodes of the set of the test above.
fn is_made(rt: &impl Abort, set: &PrefixSet<(u32, u8)>) {
    is_equal(rt, digits(set.iter()), 1019);
    counts(rt, set, 3, 5);
    holds(rt, set.contains(&(0x0a00_0000, 8)));
}

/// Checks the members that a copy of the walk gives.
fn copy_gives(rt: &impl Abort, members: &Iter<'_, (u32, u8)>, wanted: u32) {
    is_equal(rt, digits(members.clone().expect(rt, "a copy")), wanted);
}

/// Takes one member from a walk, and checks the rest by a copy of the walk.
fn rest_is(rt: &impl Abort, members: &mut Iter<'_, (u32, u8)>, wanted: u32) {
    holds(rt, members.next().is_some());
    copy_gives(rt, members, wanted);
}

#[test]
fn walked_twice(rt: HostRuntime) {
    let set = three(&rt, rt.alloc());
    rest_is(&rt, &mut set.iter(), 119);
}

#[test]
fn addresses_of_halves(rt: HostRuntime) {
    let mut halves: PrefixSet<(u128, u8)> = PrefixSet::new(rt.alloc()).expect(&rt, "a set");
    holds(&rt, halves.insert((0, 1)).is_ok());
    is_equal(&rt, halves.address_count(), Some(1 << 127));
    holds(&rt, halves.insert((1 << 127, 1)).is_ok());
    is_equal(&rt, halves.address_count(), None);
}

/// 10.0.0.0/8 with 3, stored twice, and 10.1.0.0/16 with 2.
fn two_entries(rt: &impl Abort, alloc: Global) -> PrefixMap<(u32, u8), u32> {
    let entries = [
        ((0x0a00_0000, 8), 1),
        ((0x0a01_0000, 16), 2),
        ((0x0a09_0909, 8), 3),
    ];
    map_of(rt, alloc, entries).expect(rt, "a map")
}

/// 10.0.0.0/8 with 3, and the spare nodes of 10.1.0.0/16.
fn one_and_spares(rt: &impl Abort, alloc: Global) -> PrefixMap<(u32, u8), u32> {
    let mut map = two_entries(rt, alloc);
    is_equal(rt, map.remove_keep_tree(&(0x0a01_0000, 16)), Some(2));
    map
}

#[test]
fn made_of_entries(rt: HostRuntime) {
    let map = two_entries(&rt, rt.alloc());
    is_equal(&rt, map.len(), 2);
    is_equal(&rt, map.get(&(0x0a00_0000, 8)).copied(), Some(3));
    is_equal(&rt, map.node_count(), 4);
}

/// The copy equals the map while both have the same entries. Spare nodes make no difference.
fn compares(
    rt: &impl Abort,
    map: &mut PrefixMap<(u32, u8), u32>,
    copy: &PrefixMap<(u32, u8), u32>,
) {
    holds(rt, *copy == *map);
    is_equal(rt, copy.node_count(), 4);
    holds(rt, map.insert((0x0a00_0000, 8), 4).is_ok());
    holds(rt, *copy != *map);
    holds(rt, map.insert((0x0a00_0000, 8), 3).is_ok());
    holds(rt, *copy == *map);
    is_equal(rt, map.remove(&(0x0a01_0000, 16)), None);
    is_equal(rt, map.node_count(), 2);
    holds(rt, *copy == *map);
    holds(rt, map.insert((0x0a00_0000, 9), 3).is_ok());
    holds(rt, *copy != *map);
    holds(rt, *map != *copy);
}

#[test]
fn copied(rt: HostRuntime) {
    let mut map = one_and_spares(&rt, rt.alloc());
    let copy = map.try_clone(rt.alloc()).expect(&rt, "a copy");
    compares(&rt, &mut map, &copy);
}

#[test]
fn sets_copied(rt: HostRuntime) {
    let set = three(&rt, rt.alloc());
    let copy = set.try_clone(rt.alloc()).expect(&rt, "a copy");
    is_copy(&rt, &set, &copy);
}

/// Checks that the copy equals the set and has as many nodes. The set must not be empty.
fn is_copy(rt: &impl Abort, set: &PrefixSet<(u32, u8)>, copy: &PrefixSet<(u32, u8)>) {
    holds(rt, *copy == *set);
    is_equal(rt, copy.node_count(), set.node_count());
    let has_members = set.iter().next().is_some();
    holds(rt, has_members);
}

/// Checks the text of the refusal.
fn is_printed(rt: &impl Abort, alloc: Global, refused: Refused, wanted: &str) {
    let text = format!(in alloc; "{refused}").expect(rt, "memory");
    is_equal(rt, text.as_str(), wanted);
}

#[test]
fn errors(rt: HostRuntime) {
    is_printed(&rt, rt.alloc(), Refused::Memory, "out of memory");
    is_printed(&rt, rt.alloc(), Refused::Full, "the map is full");
}

/// Checks that the set is empty. A second attempt must succeed.
fn stores_yet(rt: &impl Abort, set: &mut PrefixSet<(u32, u8)>) {
    counts(rt, set, 0, 1);
    is_equal(rt, set.insert((0x0102_0300, 32)), Ok(true));
}

/// Inserts a member of 32 bits. If memory is refused at first, the second attempt must succeed.
fn stores_at_last(rt: &impl Abort, set: &mut PrefixSet<(u32, u8)>) {
    match set.insert((0x0102_0300, 32)) {
        Ok(is_new) => holds(rt, is_new),
        Err(refused) => {
            is_equal(rt, refused, Refused::Memory);
            stores_yet(rt, set);
        }
    }
}

/// Copies the set. Memory may be refused.
fn is_copied_or_refused(rt: &impl Abort, alloc: Global, set: &PrefixSet<(u32, u8)>) {
    match set.try_clone(alloc) {
        Ok(copy) => holds(rt, copy == *set),
        Err(refused) => is_equal(rt, refused, Refused::Memory),
    }
}

/// Each request for memory may be refused. The set is then unchanged.
#[test]
fn refused(rt: HostRuntime) {
    let mut set: PrefixSet<(u32, u8)> = PrefixSet::new(rt.alloc()).expect(&rt, "a set");
    is_whole_after(&rt, rt.alloc(), &mut set);
}

/// Inserts the member and copies the set, and checks the nodes after each.
fn is_whole_after(rt: &impl Abort, alloc: Global, set: &mut PrefixSet<(u32, u8)>) {
    stores_at_last(rt, set);
    is_equal(rt, set.node_count(), 7);
    is_copied_or_refused(rt, alloc, set);
    is_equal(rt, set.node_count(), 7);
}

/// A value that counts how many values of its type were dropped.
struct Counted<'a> {
    drops: &'a Cell<u32>,
}

impl<'a> Drop for Counted<'a> {
    fn drop(self) {
        let Counted { drops } = self;
        drops.set(drops.get().wrapping_add(1));
    }
}

/// Stores such a value.
fn store_counted<'a>(
    rt: &impl Abort,
    map: &mut PrefixMap<(u32, u8), Counted<'a>>,
    key: (u32, u8),
    drops: &'a Cell<u32>,
)
    requires { IsTrue (nat_le key.1 32) }
{
    let is_stored = map.insert(key, Counted { drops }).is_ok();
    holds(rt, is_stored);
}

/// A map of three such values, at 0/0, 0/1 and 0x80000000/1.
fn three_counted<'a>(
    rt: &impl Abort,
    alloc: Global,
    drops: &'a Cell<u32>,
) -> PrefixMap<(u32, u8), Counted<'a>> {
    let mut map = PrefixMap::new(alloc).expect(rt, "a map");
    store_counted(rt, &mut map, (0, 0), drops);
    store_counted(rt, &mut map, (0, 1), drops);
    store_counted(rt, &mut map, (0x8000_0000, 1), drops);
    map
}

#[test]
fn dropped_with_the_map(rt: HostRuntime) {
    let drops = Cell::new(0);
    let map = three_counted(&rt, rt.alloc(), &drops);
    is_equal(&rt, drops.get(), 0);
    drop(map);
    is_equal(&rt, drops.get(), 3);
}

/// The key and the value of the next entry, if one is left.
fn next_value<'a>(
    entries: &mut IntoIter<(u32, u8), Counted<'a>>,
) -> (Option<(u32, u8)>, Option<Counted<'a>>) {
    match entries.next() {
        Some((key, value)) => (Some(key), Some(value)),
        None => (None, None),
    }
}

/// Drops the remaining entries.
fn drop_left(entries: IntoIter<(u32, u8), Counted<'_>>) {
    drop(entries);
}

#[test]
fn dropped_with_the_iterator(rt: HostRuntime) {
    let drops = Cell::new(0);
    let mut entries = three_counted(&rt, rt.alloc(), &drops).into_iter();
    let (key, value) = next_value(&mut entries);
    let taken = drops.get();
    drop(value);
    let dropped = drops.get();
    drop_left(entries);
    is_equal(
        &rt,
        (key, taken, dropped, drops.get()),
        (Some((0, 0)), 0, 1, 3),
    );
}

#[test]
fn dropped_outside(rt: HostRuntime) {
    let drops = Cell::new(0);
    let mut entries = three_counted(&rt, rt.alloc(), &drops).into_children(&(0x8000_0000, 1));
    let outside = drops.get();
    let (key, value) = next_value(&mut entries);
    let (end, _) = next_value(&mut entries);
    drop_left(entries);
    let left = drops.get();
    drop(value);
    is_equal(&rt, (key, end), (Some((0x8000_0000, 1)), None));
    is_equal(&rt, (outside, left, drops.get()), (2, 2, 3));
}

// One function takes the next entry of each owned walk: a loop that calls it is proved in half the time of a loop over the walk.

fn next_owned_value(values: &mut IntoValues<(u32, u8), u32>) -> Option<u32> {
    values.next()
}

fn next_owned_key(keys: &mut IntoKeys<(u32, u8), u32>) -> Option<(u32, u8)> {
    keys.next()
}

fn next_owned_entry(entries: &mut IntoIter<(u32, u8), u32>) -> Option<((u32, u8), u32)> {
    entries.next()
}

/// The values of an owned map in order, as digits.
fn value_digits(map: PrefixMap<(u32, u8), u32>) -> u32 {
    let (count, mut values) = (map.len(), map.into_values());
    let mut digits = 0u32;
    for _ in 0..=count {
        if let Some(value) = next_owned_value(&mut values) {
            digits = digits.wrapping_mul(10).wrapping_add(value);
        }
    }
    digits
}

/// The second bytes of the keys of an owned map, as digits after a 1.
fn key_digits(map: PrefixMap<(u32, u8), u32>) -> u32 {
    let (count, mut keys) = (map.len(), map.into_keys());
    let mut digits = 1u32;
    for _ in 0..=count {
        if let Some((number, _)) = next_owned_key(&mut keys) {
            digits = digits.wrapping_mul(10).wrapping_add((number >> 16) % 256);
        }
    }
    digits
}

/// The values of the entries of an owned map inside 10.0.0.0/10, as digits.
fn child_digits(map: PrefixMap<(u32, u8), u32>) -> u32 {
    let (count, mut entries) = (map.len(), map.into_children(&(0x0a01_0000, 10)));
    let mut digits = 0u32;
    for _ in 0..=count {
        if let Some((_, value)) = next_owned_entry(&mut entries) {
            digits = digits.wrapping_mul(10).wrapping_add(value);
        }
    }
    digits
}

/// The second bytes of the members of an owned set, as digits after a 1.
fn member_digits(set: PrefixSet<(u32, u8)>) -> u32 {
    let mut digits = 1u32;
    for (number, _) in set {
        digits = digits.wrapping_mul(10).wrapping_add((number >> 16) % 256);
    }
    digits
}

/// Four entries. Their values show the order of a walk.
fn four_entries(rt: &impl Abort, alloc: Global) -> PrefixMap<(u32, u8), u32> {
    let entries = [
        ((0x0a01_0100, 24), 3),
        ((0x0a00_0000, 8), 1),
        ((0x0a01_0000, 16), 2),
        ((0x0b00_0000, 8), 4),
    ];
    map_of(rt, alloc, entries).expect(rt, "a map")
}

#[test]
fn owned_values(rt: HostRuntime) {
    let map = four_entries(&rt, rt.alloc());
    is_equal(&rt, value_digits(map), 1234);
}

#[test]
fn owned_keys(rt: HostRuntime) {
    let map = four_entries(&rt, rt.alloc());
    let copy = map.try_clone(rt.alloc()).expect(&rt, "a copy");
    is_equal(&rt, key_digits(copy), 10110);
}

#[test]
fn owned_children(rt: HostRuntime) {
    let map = four_entries(&rt, rt.alloc());
    is_equal(&rt, child_digits(map), 23);
}

#[test]
fn owned_members(rt: HostRuntime) {
    is_equal(&rt, member_digits(three(&rt, rt.alloc())), 1019);
}

/// Checks the value that is lent, and writes it.
fn write_next(rt: &impl Abort, lent: Option<&mut u32>, had: u32, written: u32) {
    let value = lent.expect(rt, "a value");
    is_equal(rt, *value, had);
    *value = written;
}

/// 10.0.0.0/8 with 1, and 10.1.0.0/16 with 2.
const TWO: [((u32, u8), u32); 2] = [((0x0a00_0000, 8), 1), ((0x0a01_0000, 16), 2)];

/// The entries of `TWO`, and 11.0.0.0/8 with 3.
const THREE: [((u32, u8), u32); 3] = [
    ((0x0a01_0000, 16), 2),
    ((0x0a00_0000, 8), 1),
    ((0x0b00_0000, 8), 3),
];

/// Checks the longest match and its value, which are lent, and writes the value.
fn lends_the_longest(rt: &impl Abort, map: &mut PrefixMap<(u32, u8), u32>) {
    let (key, value) = map.get_lpm_mut(&(0x0a01_0203, 32)).expect(rt, "a match");
    is_equal(rt, key, (0x0a01_0000, 16));
    write_next(rt, Some(value), 2, 7);
    has(rt, map, &[((0x0a01_0000, 16), 7)]);
    write_next(rt, map.get_lpm_value_mut(&(0x0a02_0000, 16)), 1, 8);
    has(rt, map, &[((0x0a00_0000, 8), 8)]);
    holds(rt, map.get_lpm_mut(&(0x0b00_0000, 8)).is_none());
}

#[test]
fn lent_at_the_longest(rt: HostRuntime) {
    let mut map = plain_map_of(&rt, rt.alloc(), &TWO);
    lends_the_longest(&rt, &mut map);
}

/// Checks the next values in turn, and writes them. Each row has the key, the old value and the new value.
fn lends(
    rt: &impl Abort,
    entries: &mut IterMut<'_, (u32, u8), u32>,
    wanted: &[((u32, u8), u32, u32)],
) {
    for (key, had, written) in wanted {
        is_equal(rt, entries.key(), Some(*key));
        write_next(rt, entries.next(), *had, *written);
    }
}

/// The same check. No further value may be left.
fn lends_all(
    rt: &impl Abort,
    entries: &mut IterMut<'_, (u32, u8), u32>,
    wanted: &[((u32, u8), u32, u32)],
) {
    lends(rt, entries, wanted);
    holds(rt, entries.key().is_none());
    holds(rt, entries.next().is_none());
}

#[test]
fn lent_in_turn(rt: HostRuntime) {
    let (first, second, third) = ((0x0a00_0000, 8), (0x0a01_0000, 16), (0x0b00_0000, 8));
    let mut map = plain_map_of(&rt, rt.alloc(), &THREE);
    lends(&rt, &mut map.iter_mut(), &[(first, 1, 11), (second, 2, 22)]);
    has(&rt, &map, &[(first, 11), (second, 22), (third, 3)]);
    let all = [(first, 11, 11), (second, 22, 22), (third, 3, 3)];
    lends_all(&rt, &mut map.iter_mut(), &all);
    lent_is(&rt, map.iter_from_mut(&first, false).next(), 22);
    lent_is(&rt, map.iter_from_mut(&second, true).next(), 22);
}

/// Four entries, two of them inside 10.1.0.0/16.
const TWO_INSIDE: [((u32, u8), u32); 4] = [
    ((0x0a01_0000, 16), 2),
    ((0x0a00_0000, 8), 1),
    ((0x0a01_8000, 17), 3),
    ((0x0a02_0000, 16), 4),
];

#[test]
fn lent_inside(rt: HostRuntime) {
    let (first, second) = ((0x0a01_0000, 16), (0x0a01_8000, 17));
    let mut map = plain_map_of(&rt, rt.alloc(), &TWO_INSIDE);
    let inside = [(first, 2, 20), (second, 3, 30)];
    lends_all(&rt, &mut map.children_mut(&(0x0a01_0203, 16)), &inside);
    let outside = [((0x0a00_0000, 8), 1), ((0x0a02_0000, 16), 4)];
    has(&rt, &map, &outside);
    has(&rt, &map, &[(first, 20), (second, 30)]);
    holds(&rt, map.children_mut(&(0x0a03_0000, 16)).next().is_none());
    lent_is(&rt, map.children_mut(&(0, 0)).next(), 1);
}

/// Checks the value that is lent.
fn lent_is(rt: &impl Abort, lent: Option<&mut u32>, wanted: u32) {
    is_equal(rt, *lent.expect(rt, "a value"), wanted);
}

#[test]
fn kept_members(rt: HostRuntime) {
    let mut set = three(&rt, rt.alloc());
    let mut asked = 0u32;
    set.retain(|member| {
        asked = asked.wrapping_mul(100).wrapping_add(u32::from(member.1));
        member.0 != 0x0a01_0000
    });
    is_equal(&rt, asked, 81616);
    is_equal(&rt, digits(set.iter()), 109);
    is_equal(&rt, set.node_count(), 4);
}

/// Checks that the map has eight nodes, and copies it. Memory may be refused.
fn is_whole_or_refused(rt: &impl Abort, alloc: Global, map: &PrefixMap<(u32, u8), u32>) {
    is_equal(rt, map.node_count(), 8);
    match map.try_clone(alloc) {
        Ok(copy) => holds(rt, copy == *map),
        Err(refused) => is_equal(rt, refused, Refused::Memory),
    }
    is_equal(rt, map.len(), 2);
}

/// Each request for memory may be refused. Then there is no map, or no copy.
#[test]
fn refused_whole(rt: HostRuntime) {
    let entries = [((0x0102_0300, 32), 1), ((0x0a00_0000, 8), 2)];
    match map_of(&rt, rt.alloc(), entries) {
        Ok(map) => is_whole_or_refused(&rt, rt.alloc(), &map),
        Err(refused) => is_equal(&rt, refused, Refused::Memory),
    }
}
