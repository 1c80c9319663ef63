//! Lists of boxes. A lost item, or one freed twice, would show.
use short_vec::ShortVec;
use std::alloc::Global;
use std::process::Abort;

/// The list of the numbers from 0, each one in its own box.
fn boxes(alloc: Global, rt: &impl Abort, count: u32) -> ShortVec<Box<u32>> {
    let mut list = ShortVec::new(alloc);
    for number in 0..count {
        let one = Box::new(alloc, number).expect(rt, "memory");
        let done = list.push(one);
        assert!(rt; done.is_ok());
    }
    list
}

#[test]
fn grows(rt: HostRuntime) {
    let mut list = boxes(rt.alloc(), &rt, 40);
    assert!(rt; list.len() == 40);
    let reserved = list.reserve_exact(60);
    assert!(rt; reserved.is_ok() && list.capacity() == 100);
    let first = Box::new(rt.alloc(), 100).expect(&rt, "memory");
    let done = list.insert(0, first);
    assert!(rt; done.is_ok() && *list[0] == 100 && *list[40] == 39);
    let taken = list.remove(1);
    assert!(rt; *taken == 0 && list.len() == 40);
}

#[test]
fn gives_its_items(rt: HostRuntime) {
    let mut next = 0;
    for item in boxes(rt.alloc(), &rt, 9).into_vec() {
        assert!(rt; *item == next);
        next = next.wrapping_add(1);
    }
    assert!(rt; next == 9);
}

#[test]
fn has_the_room_that_was_asked_for(rt: HostRuntime) {
    let list: ShortVec<u64> = ShortVec::with_capacity(rt.alloc(), 3).expect(&rt, "memory");
    assert!(rt; list.capacity() == 3 && list.len() == 0);
    let too_many: Result<ShortVec<u64>, _> = ShortVec::with_capacity(rt.alloc(), 0x1_0000_0000);
    assert!(rt; too_many.is_err());
}

#[test]
fn becomes_a_vec_and_back(rt: HostRuntime) {
    let mut list = boxes(rt.alloc(), &rt, 5).into_vec();
    list.reverse();
    assert!(rt; list.capacity() < 0x1_0000_0000);
    let list = ShortVec::from_vec(list);
    assert!(rt; list.len() == 5 && *list[0] == 4 && *list[4] == 0);
}

/// A tree. Each node has its children in such a list.
#[derive(Drop)]
struct Tree {
    value: u32,
    children: ShortVec<Tree>,
}

impl Tree {
    /// The number of levels below the root.
    fn depth(&self) -> usize {
        let mut most = 0;
        for child in self.children.as_slice() {
            let depth = child.depth().saturating_add(1);
            if most < depth {
                most = depth;
            }
        }
        most
    }
}

/// Accepts only a value that can be sent to another thread and shared with one.
fn crosses<X: Send + Sync + Drop>(value: X) -> X {
    value
}

#[test]
fn holds_the_type_that_holds_it(rt: HostRuntime) {
    let mut tree = Tree {
        value: 0,
        children: ShortVec::new(rt.alloc()),
    };
    for value in 1..6 {
        let mut above = Tree {
            value,
            children: ShortVec::new(rt.alloc()),
        };
        let hung = above.children.push(tree);
        assert!(rt; hung.is_ok());
        tree = above;
    }
    let tree = crosses(tree);
    assert!(rt; tree.depth() == 5 && tree.value == 5);
}
