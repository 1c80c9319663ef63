//! The calls of a set that are met first, as the comments of these calls show them.
use prefix_trie::PrefixSet;
use std::alloc::Global;
use std::process::Abort;

/// 10.1.0.0/16 and 10.0.0.0/8, as numbers and lengths.
fn two_members(rt: &impl Abort, alloc: Global) -> PrefixSet<(u32, u8)> {
    let mut set = PrefixSet::new(alloc).expect(rt, "a set");
    assert!(rt; set.insert((0x0a01_0000, 16)).is_ok());
    assert!(rt; set.insert((0x0a00_0000, 8)).is_ok());
    set
}

#[test]
fn stored(rt: HostRuntime) {
    let mut set: PrefixSet<(u32, u8)> = PrefixSet::new(rt.alloc()).expect(&rt, "a set");
    let inner = (0x0a01_0000, 16);
    assert_eq!(rt; set.insert(inner), Ok(true));
    assert_eq!(rt; set.insert((0x0a01_0203, 16)), Ok(false));
}

/// Lookups of a member and of the longest match.
fn found(rt: &impl Abort, set: &PrefixSet<(u32, u8)>) {
    let (inner, wide) = ((0x0a01_0000, 16), (0x0a00_0000, 8));
    assert_eq!(rt; set.get(&(0x0a01_0203, 16)), Some(inner));
    assert_eq!(rt; set.get_lpm(&(0x0a01_0203, 32)), Some(inner));
    assert_eq!(rt; set.get_lpm(&(0x0a09_0000, 16)), Some(wide));
}

/// Whether members are stored or covered, and the shortest match.
fn contained(rt: &impl Abort, set: &PrefixSet<(u32, u8)>) {
    let wide = (0x0a00_0000, 8);
    let host = (0x0a01_0203, 32);
    assert!(rt; set.contains(&(0x0a01_0203, 16)) && !set.contains(&host));
    assert!(rt; set.is_covered(&host) && !set.is_covered(&(0x0b00_0000, 8)));
    assert_eq!(rt; set.get_spm(&host), Some(wide));
}

/// A walk over all members.
fn walked(rt: &impl Abort, set: &PrefixSet<(u32, u8)>) {
    let (inner, wide) = ((0x0a01_0000, 16), (0x0a00_0000, 8));
    let mut members = set.iter();
    assert_eq!(rt; members.next(), Some(wide));
    assert_eq!(rt; members.next(), Some(inner));
    assert_eq!(rt; members.next(), None);
}

/// The first member of each walk.
fn walked_in_part(rt: &impl Abort, set: &PrefixSet<(u32, u8)>) {
    let (inner, wide) = ((0x0a01_0000, 16), (0x0a00_0000, 8));
    assert_eq!(rt; set.children(&inner).next(), Some(inner));
    assert_eq!(rt; set.iter_from(&wide, false).next(), Some(inner));
    assert_eq!(rt; set.cover(&(0x0a01_0203, 32)).next(), Some(wide));
}

/// A member that is removed twice.
fn taken_out(rt: &impl Abort, set: &mut PrefixSet<(u32, u8)>) {
    let wide = (0x0a00_0000, 8);
    assert!(rt; set.remove(&wide));
    assert!(rt; !set.remove(&wide));
}

/// The number of members.
fn counted(rt: &impl Abort, set: &mut PrefixSet<(u32, u8)>) {
    assert_eq!(rt; set.len(), 2);
    set.clear();
    assert!(rt; set.is_empty());
}

/// All members inside a network, removed.
fn taken_out_inside(rt: &impl Abort, set: &mut PrefixSet<(u32, u8)>) {
    set.remove_children(&(0x0a01_0000, 16));
    assert_eq!(rt; set.len(), 1);
}

/// The members that a closure keeps.
fn kept_if_asked(rt: &impl Abort, set: &mut PrefixSet<(u32, u8)>) {
    set.retain(|member| member.1 > 8);
    assert_eq!(rt; set.len(), 1);
}

#[test]
fn reads(rt: HostRuntime) {
    let set = two_members(&rt, rt.alloc());
    found(&rt, &set);
    contained(&rt, &set);
    walked(&rt, &set);
    walked_in_part(&rt, &set);
}

#[test]
fn changes(rt: HostRuntime) {
    taken_out(&rt, &mut two_members(&rt, rt.alloc()));
    counted(&rt, &mut two_members(&rt, rt.alloc()));
    taken_out_inside(&rt, &mut two_members(&rt, rt.alloc()));
    kept_if_asked(&rt, &mut two_members(&rt, rt.alloc()));
}
