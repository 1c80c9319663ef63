//! Scripts of calls of a shape, with its values and its children after each call. They are boxes: a lost one, or one freed twice, would
//! show.
ghost use Rattle.std.specs.Prelude.{◌≡◌, length};
ghost use Rattle.shape.specs.Shapes.{shape_values};

use crate::tests::shapes::Step::{Child, ChildWritten, NoChild, NoValue, Value, ValueWritten};
use shape::{Items, OwnedValues, Shape};
use std::alloc::Global;
use std::fmt::Debug;
use std::process::Abort;

/// A shape of boxes.
type Boxes = Shape<Box<u32>, Box<u32>>;

/// A call at an index with a number, or with the number that it returns.
#[derive(Clone, Copy)]
enum Step {
    /// `insert_value`.
    Value(usize, u32),
    /// `remove_value`.
    NoValue(usize, u32),
    /// `value_mut`, and a write.
    ValueWritten(usize, u32),
    /// `reserve_child` and `insert_child`.
    Child(usize, u32),
    /// `remove_child`.
    NoChild(usize, u32),
    /// `child_mut`, and a write.
    ChildWritten(usize, u32),
}

/// A call, and the values and the children after it, as digits.
type Row = (Step, u32, u32);

/// Checks that `found` is `wanted`. If not, the message contains the name of the script and the number of steps before this one.
fn step_is<T: Copy + PartialEq + Debug>(rt: &impl Abort, at: (&str, usize), found: T, wanted: T) {
    assert_eq!(rt; found, wanted, "{}, after {} steps", at.0, at.1);
}

/// The numbers as digits after a 1.
fn digits(boxes: &[Box<u32>]) -> u32 {
    let mut digits = 1u32;
    for number in boxes {
        digits = digits.wrapping_mul(10).wrapping_add(**number);
    }
    digits
}

/// The values as digits after a 1.
fn value_digits(values: Items<'_, Box<u32>>) -> u32 {
    match values {
        Items::One(value) => (**value).wrapping_add(10),
        Items::Many(values) => digits(values),
    }
}

/// The number of values.
fn value_count<C, T>(shape: &Shape<C, T>) -> usize
    ensures { result ≡ length (shape_values shape.now) }
{
    match shape.values() {
        Items::One(_) => 1,
        Items::Many(values) => values.len(),
    }
}

/// Inserts the value. If memory is refused at first, the second attempt must succeed.
fn inserts<C: Drop, T: Drop>(rt: &impl Abort, shape: &mut Shape<C, T>, at: usize, value: T) {
    assert!(rt; at <= value_count(shape));
    if let Err(value) = shape.insert_value(at, value) {
        let again = shape.insert_value(at, value);
        assert!(rt; again.is_ok());
    }
}

/// Inserts the child. If memory is refused at first, the second attempt must succeed.
fn hangs<C: Drop, T: Drop>(rt: &impl Abort, shape: &mut Shape<C, T>, at: usize, child: C) {
    assert!(rt; at <= shape.children().len());
    if shape.reserve_child(1).is_ok() {
        return shape.insert_child(at, child);
    }
    shape.reserve_child(1).expect(rt, "memory");
    shape.insert_child(at, child);
}

/// Makes a call with a value, and checks the number that it returns.
fn value_step(rt: &impl Abort, alloc: Global, at: (&str, usize), shape: &mut Boxes, step: Step) {
    let count = value_count(shape);
    match step {
        Value(index, number) => {
            inserts(
                rt,
                shape,
                index,
                Box::new(alloc, number).expect(rt, "a box"),
            );
        }
        NoValue(index, number) => {
            assert!(rt; index < count);
            step_is(rt, at, **shape.value(index), number);
            step_is(rt, at, *shape.remove_value(index), number);
        }
        ValueWritten(index, number) => {
            assert!(rt; index < count);
            **shape.value_mut(index) = number;
        }
        _ => (),
    }
}

/// Makes a call with a child, and checks the number that it returns.
fn child_step(rt: &impl Abort, alloc: Global, at: (&str, usize), shape: &mut Boxes, step: Step) {
    let count = shape.children().len();
    match step {
        Child(index, number) => {
            hangs(
                rt,
                shape,
                index,
                Box::new(alloc, number).expect(rt, "a box"),
            );
        }
        NoChild(index, number) => {
            assert!(rt; index < count);
            step_is(rt, at, *shape.remove_child(index), number);
        }
        ChildWritten(index, number) => {
            assert!(rt; index < count);
            **shape.child_mut(index) = number;
        }
        _ => (),
    }
}

/// Checks the values and the children.
fn has(rt: &impl Abort, at: (&str, usize), shape: &Boxes, values: u32, children: u32) {
    step_is(rt, at, value_digits(shape.values()), values);
    step_is(rt, at, digits(shape.children()), children);
}

/// Checks the values and the children of a shape that is taken apart.
fn comes_apart(rt: &impl Abort, at: (&str, usize), shape: Boxes, values: u32, children: u32) {
    let (kept, list) = shape.into_lists();
    step_is(rt, at, digits(list.as_slice()), children);
    let found = match kept {
        OwnedValues::One(value) => value.wrapping_add(10),
        OwnedValues::Many(list) => digits(list.as_slice()),
    };
    step_is(rt, at, found, values);
}

/// Checks the calls of a script in order, on a shape without values and children.
fn goes(rt: &impl Abort, alloc: Global, row: &str, rows: &[Row]) {
    let mut shape = Shape::new(alloc);
    let (mut last_values, mut last_children) = (1, 1);
    for (index, (step, values, children)) in rows.iter().enumerate() {
        value_step(rt, alloc, (row, index), &mut shape, *step);
        child_step(rt, alloc, (row, index), &mut shape, *step);
        has(rt, (row, index), &shape, *values, *children);
        (last_values, last_children) = (*values, *children);
    }
    comes_apart(rt, (row, rows.len()), shape, last_values, last_children);
}

/// Checks each script.
fn all_go(rt: &impl Abort, alloc: Global, scripts: &[(&str, &[Row])]) {
    for (row, rows) in scripts.iter() {
        goes(rt, alloc, row, rows);
    }
}

/// Scripts, with expected values and children written out.
static SCRIPTS: [(&str, &[Row]); 6] = [
    ("empty", &[]),
    (
        "one value",
        &[
            (Value(0, 5), 15, 1),
            (ValueWritten(0, 6), 16, 1),
            (NoValue(0, 6), 1, 1),
            (Value(0, 7), 17, 1),
        ],
    ),
    (
        "values",
        &[
            (Value(0, 2), 12, 1),
            (Value(0, 1), 112, 1),
            (Value(2, 4), 1124, 1),
            (Value(2, 3), 11234, 1),
            (ValueWritten(2, 9), 11294, 1),
            (NoValue(1, 2), 1194, 1),
            (NoValue(2, 4), 119, 1),
            (NoValue(0, 1), 19, 1),
            (Value(1, 8), 198, 1),
        ],
    ),
    (
        "children",
        &[
            (Child(0, 2), 1, 12),
            (Child(0, 1), 1, 112),
            (Child(2, 4), 1, 1124),
            (Child(2, 3), 1, 11234),
            (Child(4, 5), 1, 112345),
            (ChildWritten(3, 9), 1, 112395),
            (NoChild(0, 1), 1, 12395),
            (NoChild(3, 5), 1, 1239),
            (NoChild(1, 3), 1, 129),
            (NoChild(0, 2), 1, 19),
            (NoChild(0, 9), 1, 1),
        ],
    ),
    (
        "a child beside a lone value",
        &[
            (Value(0, 1), 11, 1),
            (Child(0, 7), 11, 17),
            (Value(1, 3), 113, 17),
            (Value(1, 2), 1123, 17),
            (ValueWritten(1, 4), 1143, 17),
            (ChildWritten(0, 8), 1143, 18),
            (NoValue(0, 1), 143, 18),
            (NoValue(1, 3), 14, 18),
            (NoChild(0, 8), 14, 1),
            (NoValue(0, 4), 1, 1),
        ],
    ),
    (
        "a value beside children",
        &[
            (Child(0, 7), 1, 17),
            (Child(1, 8), 1, 178),
            (Value(0, 1), 11, 178),
            (NoValue(0, 1), 1, 178),
            (Value(0, 2), 12, 178),
            (Value(0, 1), 112, 178),
            (NoChild(0, 7), 112, 18),
            (NoChild(0, 8), 112, 1),
            (Child(0, 9), 112, 19),
        ],
    ),
];

#[test]
fn shapes(rt: HostRuntime) {
    all_go(&rt, rt.alloc(), &SCRIPTS);
}

/// Values and children without boxes. Each request for memory may be refused.
#[test]
fn shapes_refused(rt: HostRuntime) {
    let mut shape: Shape<u32, u32> = Shape::new(rt.alloc());
    inserts(&rt, &mut shape, 0, 1);
    hangs(&rt, &mut shape, 0, 7);
    inserts(&rt, &mut shape, 1, 2);
    hangs(&rt, &mut shape, 1, 8);
    let counts = (value_count(&shape), shape.children().len());
    step_is(&rt, ("refused", 4), counts, (2, 2));
}
