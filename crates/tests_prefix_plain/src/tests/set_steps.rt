//! Scripts of calls of a set, with their answers.
ghost use Rattle.std.specs.Iterator.{IsFinite};
ghost use Rattle.std.specs.Prelude.{IsTrue, nat_le};

use crate::tests::rows::set_with;
use crate::tests::set_steps::Call::*;
use crate::tests::set_steps::Step::{Addresses, At, Clear, Counts, RetainAll, Walk};
use prefix_trie::PrefixSet;
use std::alloc::Global;
use std::fmt::Debug;
use std::process::Abort;

/// A member: a key of 32 bits, and the length of the prefix.
type Member = (u32, u8);

/// A call with a member, and its answer.
pub(crate) enum Call {
    /// `insert`: whether the member is new.
    Insert(bool),
    /// `remove`: whether it was a member.
    Remove(bool),
    /// `remove_keep_tree`: whether it was a member.
    KeepTree(bool),
    /// `remove_children`.
    RemoveChildren,
    /// `contains`.
    Contains(bool),
    /// `get`: the stored member.
    Get(Option<Member>),
    /// `get_lpm`: the longest match.
    Longest(Option<Member>),
    /// `get_spm`: the shortest match.
    Shortest(Option<Member>),
    /// `is_covered`.
    IsCovered(bool),
    /// `iter_from`, with the member itself or without it: the members, as digits.
    From(bool, u32),
    /// `children`: the members, as digits.
    Children(u32),
    /// `cover`: the members, as digits.
    Cover(u32),
}

/// A call of a set, and its answer.
pub(crate) enum Step {
    /// A call with this member.
    At(Member, Call),
    /// `clear`.
    Clear,
    /// `retain` that keeps every member.
    RetainAll,
    /// `len` and `node_count`; and `is_empty`.
    Counts(usize, usize),
    /// `address_count`.
    Addresses(Option<u32>),
    /// `iter`, and a walk by reference: the members, as digits.
    Walk(u32),
}

/// The second bytes of the remaining members in order, as digits after a 1.
pub(crate) fn digits<I: Iterator<Item = (u32, u8)>>(members: I) -> u32
    requires { I.can_next members × IsFinite (I.remaining members) }
{
    let mut digits = 1u32;
    for (number, _) in members {
        digits = digits.wrapping_mul(10).wrapping_add((number >> 16) % 256);
    }
    digits
}

/// Checks that `found` is `wanted`. If not, the message contains the name of the script and the number of steps before this one.
fn step_is<T: Copy + PartialEq + Debug>(rt: &impl Abort, at: (&str, usize), found: T, wanted: T) {
    assert_eq!(rt; found, wanted, "{}, after {} steps", at.0, at.1);
}

/// Checks a call that changes the set at a member, or one of the calls below.
fn change(
    rt: &impl Abort,
    at: (&str, usize),
    set: &mut PrefixSet<Member>,
    member: Member,
    call: &Call,
)
    requires { IsTrue (nat_le member.1 32) }
{
    match call {
        Insert(is_new) => step_is(rt, at, set.insert(member), Ok(*is_new)),
        Remove(had) => step_is(rt, at, set.remove(&member), *had),
        KeepTree(had) => step_is(rt, at, set.remove_keep_tree(&member), *had),
        RemoveChildren => set.remove_children(&member),
        asked => ask(rt, at, set, &member, asked),
    }
}

/// Checks a call that asks for a member.
fn ask(rt: &impl Abort, at: (&str, usize), set: &PrefixSet<Member>, member: &Member, call: &Call)
    requires { IsTrue (nat_le member.now.1 32) }
{
    match call {
        Contains(wanted) => step_is(rt, at, set.contains(member), *wanted),
        Get(wanted) => step_is(rt, at, set.get(member), *wanted),
        Longest(wanted) => step_is(rt, at, set.get_lpm(member), *wanted),
        Shortest(wanted) => step_is(rt, at, set.get_spm(member), *wanted),
        IsCovered(wanted) => step_is(rt, at, set.is_covered(member), *wanted),
        From(_, wanted) | Children(wanted) | Cover(wanted) => {
            step_is(rt, at, walked(set, member, call), *wanted);
        }
        _ => (),
    }
}

/// The members that a call walks over, as digits.
fn walked(set: &PrefixSet<Member>, member: &Member, call: &Call) -> u32
    requires { IsTrue (nat_le member.now.1 32) }
{
    match call {
        From(inclusive, _) => digits(set.iter_from(member, *inclusive)),
        Children(_) => digits(set.children(member)),
        _ => digits(set.cover(member)),
    }
}

/// Checks a call of the whole set, or a call with a member.
fn take(rt: &impl Abort, at: (&str, usize), set: &mut PrefixSet<Member>, step: &Step) {
    match step {
        At(member, call) => {
            assert!(rt; member.1 <= 32, "{}", at.0);
            change(rt, at, set, *member, call);
        }
        Clear => set.clear(),
        RetainAll => set.retain(|_| true),
        asked => ask_of_all(rt, at, set, asked),
    }
}

/// Checks a call that counts all members or walks over them.
fn ask_of_all(rt: &impl Abort, at: (&str, usize), set: &PrefixSet<Member>, step: &Step) {
    match step {
        Counts(members, nodes) => {
            step_is(rt, at, (set.len(), set.node_count()), (*members, *nodes));
            step_is(rt, at, set.is_empty(), *members == 0);
        }
        Addresses(wanted) => step_is(rt, at, set.address_count(), *wanted),
        Walk(wanted) => step_is(rt, at, all_walked(set), (*wanted, *wanted)),
        _ => (),
    }
}

/// The members that `iter` and a walk by reference give, as digits.
fn all_walked(set: &PrefixSet<Member>) -> (u32, u32) {
    (digits(set.iter()), digits(set.into_iter()))
}

/// Checks the calls of a script in order, on a set of these members, which were stored in this order.
fn goes(rt: &impl Abort, alloc: Global, row: &str, stored: &[Member], steps: &[Step]) {
    let mut set = set_with(rt, alloc, stored);
    for (at, each) in steps.iter().enumerate() {
        take(rt, (row, at), &mut set, each);
    }
}

/// Checks each script.
fn all_go(rt: &impl Abort, alloc: Global, scripts: &[(&str, &[Member], &[Step])]) {
    for (row, stored, steps) in scripts.iter() {
        goes(rt, alloc, row, stored, steps);
    }
}

/// Scripts, with expected values written out.
static SCRIPTS: [(&str, &[Member], &[Step]); 8] = [
    (
        "stored and taken out once",
        &[(0x0a00_0000, 8)],
        &[
            At((0x0a00_0000, 8), Insert(false)),
            At((0x0a01_0203, 8), Contains(true)),
            At((0x0a00_0000, 9), Contains(false)),
            Counts(1, 2),
            At((0x0a00_0000, 8), Remove(true)),
            At((0x0a00_0000, 8), Remove(false)),
            Counts(0, 1),
        ],
    ),
    (
        "three members",
        &[(0x0a09_0000, 16), (0x0a01_0000, 16), (0x0a07_0707, 8)],
        &[
            At((0x0a01_0203, 16), Get(Some((0x0a01_0000, 16)))),
            At((0x0a01_0203, 32), Longest(Some((0x0a01_0000, 16)))),
            At((0x0a01_0203, 32), Shortest(Some((0x0a00_0000, 8)))),
            At((0x0a02_0000, 16), IsCovered(true)),
            At((0x0b00_0000, 8), IsCovered(false)),
            Walk(1019),
            At((0x0a00_0000, 8), From(false, 119)),
            At((0x0a01_0000, 16), From(true, 119)),
            At((0x0a00_0000, 12), Children(119)),
            At((0x0a09_0909, 32), Cover(109)),
            At((0x0a01_0000, 16), KeepTree(true)),
            Counts(2, 5),
            At((0x0a00_0000, 9), RemoveChildren),
            Counts(1, 2),
        ],
    ),
    ("cleared", &[(0x0a07_0707, 8)], &[Clear, Counts(0, 1)]),
    (
        "tidied",
        &[(0x0a09_0000, 16), (0x0a07_0707, 8)],
        &[
            At((0x0a09_0000, 16), KeepTree(true)),
            Counts(1, 4),
            RetainAll,
            Counts(1, 2),
        ],
    ),
    ("addresses of none", &[], &[Addresses(Some(0))]),
    (
        "addresses count once",
        &[(0xc000_0200, 24), (0xc000_0280, 25), (0xc633_6400, 24)],
        &[Addresses(Some(512))],
    ),
    (
        "addresses of halves",
        &[(0, 1), (0x8000_0000, 1)],
        &[Addresses(None)],
    ),
    (
        "made of members",
        &[(0x0a09_0000, 16), (0x0a07_0707, 8), (0x0a01_0000, 16)],
        &[
            At((0x0a09_0808, 16), Insert(false)),
            Walk(1019),
            Counts(3, 5),
        ],
    ),
];

#[test]
fn sets(rt: HostRuntime) {
    all_go(&rt, rt.alloc(), &SCRIPTS);
}
