//! Calls of a node.
use std::fmt::Debug;
use std::process::Abort;
use trie_core::{Node, Path};

/// Checks that `found` is `wanted`.
fn is_equal<T: Copy + PartialEq + Debug>(rt: &impl Abort, found: T, wanted: T) {
    assert_eq!(rt; found, wanted);
}

/// Checks the length and the value of a match.
fn is_found(rt: &impl Abort, found: Option<(u8, &u32)>, wanted: (u8, u32)) {
    let (length, value) = found.expect(rt, "a value");
    is_equal(rt, (length, *value), wanted);
}

/// The bits of 10.0.0.0/8 and of 10.1.0.0/16, at the top of 128.
#[test]
fn node_calls(rt: HostRuntime) {
    let mut node: Node<u32> = Node::new(rt.alloc());
    let short = Path::new(0x0a << 120, 8);
    let long = Path::new(0x0a01 << 112, 16);
    let inserted = node.insert(short.clone().expect(&rt, "a path"), 1, true, 9);
    is_equal(&rt, inserted.expect(&rt, "memory"), (None, 1, true));
    let inserted = node.insert(long.clone().expect(&rt, "a path"), 2, true, 9);
    is_equal(&rt, inserted.expect(&rt, "memory"), (None, 2, true));
    let inserted = node.insert(short.clone().expect(&rt, "a path"), 1, true, 9);
    is_equal(&rt, inserted.expect(&rt, "memory"), (Some(1), 0, false));
    is_found(&rt, node.longest(long.extended(true)), (16, 2));
    is_found(
        &rt,
        node.shortest(long.clone().expect(&rt, "a path")),
        (8, 1),
    );
    is_equal(&rt, node.remove(long), (Some(2), 2));
    is_equal(&rt, node.get(short).copied(), Some(1));
}
