//! The values and the children of a node, in as few lists as they need.
ghost use Rattle.std.specs.Prelude.{◌≡◌, ◌<◌, ◌≤◌, ◌+◌, ◌⊎◌, ⊤, [], ◌∷◌, length, insert, remove, slice_index_or, is_ok, if◌then◌else◌, IfOk, IfErr, OnErr, OnOk, IsOk};
ghost use Rattle.std.specs.Borrow.{sem};
ghost use Rattle.short_vec.specs.Lists.{short_items, short_len, short_capacity};
ghost use Rattle.shape.specs.Shapes.{shape_values, shape_children, items_of, HasRoom, HasRoomFor};
ghost use Rattle.shape.specs.Lends.{follows_value, follows_child};

use crate::growth::{LARGE, empty_list, insert_in, reserve};
use crate::lent::Items;
use core::mem::replace_with;
use short_vec::ShortVec;
use std::alloc::{AllocError, AllocFailed, Global};
use std::mem::size_of_val;

/// The values, of type `T`, and the children, of type `C`, of a node. The index of a value or a child is its place in its list.
#[derive(Drop)]
pub enum Shape<C, T> {
    /// A single value and no children. The allocator is kept for later lists.
    One(T, Global),
    /// Values and no children.
    Values(ShortVec<T>),
    /// Children and no values.
    Children(ShortVec<C>),
    /// Children and values. The box keeps a node small, since few nodes have both.
    Both(ShortVec<C>, Box<ShortVec<T>>),
}

impl<C, T> Shape<C, T> {
    /// Returns the shape without values and children. Does not allocate.
    #[inline]
    pub fn new(alloc: Global) -> Shape<C, T>
        ensures values { shape_values result ≡ [] }
        ensures children { shape_children result ≡ [] }
    {
        Shape::Values(ShortVec::new(alloc))
    }

    /// Returns the allocator of the lists' memory.
    pub fn allocator(&self) -> Global {
        match self {
            Shape::One(_, alloc) => *alloc,
            Shape::Values(values) => values.allocator(),
            Shape::Children(children) => children.allocator(),
            Shape::Both(children, _) => children.allocator(),
        }
    }

    /// Returns the children.
    #[inline]
    pub fn children(&self) -> &[C]
        ensures { result.now ≡ shape_children self.now }
    {
        match self {
            Shape::One(_, _) => &[],
            Shape::Values(_) => &[],
            Shape::Children(children) => children.as_slice(),
            Shape::Both(children, _) => children.as_slice(),
        }
    }

    /// Returns the values.
    #[inline]
    pub fn values(&self) -> Items<'_, T>
        ensures { items_of result ≡ shape_values self.now }
    {
        match self {
            Shape::One(value, _) => Items::One(value),
            Shape::Values(values) => Items::Many(values.as_slice()),
            Shape::Children(_) => Items::Many(&[]),
            Shape::Both(_, values) => Items::Many(values.as_slice()),
        }
    }

    /// Returns the value at the index `at`.
    #[inline]
    pub fn value(&self, at: usize) -> &T
        requires { at < length (shape_values self.now) }
        ensures { result.now ≡ slice_index_or (shape_values self.now) at result.now }
    {
        match self {
            Shape::One(value, _) => value,
            Shape::Values(values) => &values[at],
            Shape::Children(_) => unreachable!(),
            Shape::Both(_, values) => &values[at],
        }
    }

    /// Returns the child at the index `at`.
    #[inline]
    pub fn child(&self, at: usize) -> &C
        requires { at < length (shape_children self.now) }
        ensures { result.now ≡ slice_index_or (shape_children self.now) at result.now }
    {
        &self.children()[at]
    }

    /// Returns the child at the index `at`, which can be changed through the result.
    #[inline]
    pub fn child_mut(&mut self, at: usize) -> &mut C
        requires { at < length (shape_children self.old) }
        ensures* writes_back { sem 𝓛 (follows_child C.row T.row self.entry at result) }
        ensures value { result.now ≡ slice_index_or (shape_children self.old) at result.now }
    {
        match self {
            Shape::One(_, _) => unreachable!(),
            Shape::Values(_) => unreachable!(),
            Shape::Children(children) => &mut children[at],
            Shape::Both(children, _) => &mut children[at],
        }
    }
}

impl<C, T> Shape<C, T> {
    /// Returns the value at the index `at`, which can be changed through the result.
    #[inline]
    pub fn value_mut(&mut self, at: usize) -> &mut T
        requires { at < length (shape_values self.old) }
        ensures* writes_back { sem 𝓛 (follows_value C.row T.row self.entry at result) }
        ensures value { result.now ≡ slice_index_or (shape_values self.old) at result.now }
    {
        match self {
            Shape::One(value, _) => value,
            Shape::Values(values) => &mut values[at],
            Shape::Children(_) => unreachable!(),
            Shape::Both(_, values) => &mut values[at],
        }
    }
}

impl<C: Drop, T: Drop> Shape<C, T> {
    /// Removes and returns the value at the index `at`, and moves the later values down. Does not allocate.
    #[inline]
    pub fn remove_value(&mut self, at: usize) -> T
        requires { at < length (shape_values self.old) }
        ensures value { result ≡ slice_index_or (shape_values self.old) at result }
        ensures values { shape_values self.new ≡ remove (shape_values self.old) at }
        ensures children { shape_children self.new ≡ shape_children self.old }
    {
        match self {
            Shape::Values(values) => {
                if values.len() > 2 {
                    return values.remove(at);
                }
            }
            Shape::Both(_, values) => {
                if values.len() > 1 {
                    return values.remove(at);
                }
            }
            _ => {}
        }
        replace_with(self, at, Shape::without_value)
    }

    fn without_value(self, at: usize) -> (Shape<C, T>, T)
        requires { at < length (shape_values self) }
        ensures value { result.1 ≡ slice_index_or (shape_values self) at result.1 }
        ensures values { shape_values result.0 ≡ remove (shape_values self) at }
        ensures children { shape_children result.0 ≡ shape_children self }
    {
        match self {
            Shape::One(value, alloc) => (Shape::new(alloc), value),
            Shape::Values(values) => {
                let mut values = values;
                let value = values.remove(at);
                (settled(values), value)
            }
            Shape::Children(_) => unreachable!(),
            Shape::Both(children, values) => {
                let mut values = values;
                let value = values.remove(at);
                if values.len() == 0 {
                    return (Shape::Children(children), value);
                }
                (Shape::Both(children, values), value)
            }
        }
    }

    /// Makes sure that there is room for one more child: if there is none, makes room for at least `more`.
    ///
    /// # Errors
    /// `AllocError` if there is no room and an allocation fails. The values and the children stay in any case.
    #[inline]
    pub fn reserve_child(&mut self, more: usize) -> Result<(), AllocError>
        requires { 0 < more }
        ensures values { shape_values self.new ≡ shape_values self.old }
        ensures children { shape_children self.new ≡ shape_children self.old }
        ensures ok { OnOk result (HasRoom self.new) }
        ensures more { OnOk result (HasRoom self.old ⊎ HasRoomFor more self.new) }
        ensures succeeds { HasRoom self.old → IsOk result }
    {
        match self {
            Shape::Children(children) => reserve(children, more, LARGE),
            Shape::Both(children, _) => reserve(children, more, LARGE),
            _ => replace_with(self, more, Shape::with_room),
        }
    }

    fn with_room(self, more: usize) -> (Shape<C, T>, Result<(), AllocError>)
        requires { 0 < more }
        ensures values { shape_values result.0 ≡ shape_values self }
        ensures children { shape_children result.0 ≡ shape_children self }
        ensures ok { OnOk result.1 (HasRoom result.0) }
        ensures more { OnOk result.1 (HasRoom self ⊎ HasRoomFor more result.0) }
    {
        match self {
            Shape::One(value, alloc) => match with_list(alloc, value, more) {
                Ok((children, values)) => (Shape::Both(children, values), Ok(())),
                Err(value) => (Shape::One(value, alloc), Err(AllocError)),
            },
            Shape::Values(values) => with_children(values, more),
            Shape::Children(children) => {
                let mut children = children;
                let done = reserve(&mut children, more, LARGE);
                (Shape::Children(children), done)
            }
            Shape::Both(children, values) => {
                let mut children = children;
                let done = reserve(&mut children, more, LARGE);
                (Shape::Both(children, values), done)
            }
        }
    }

    /// Inserts the child at the index `at`, and moves the later children up. Does not allocate, since there is room for it.
    #[inline]
    pub fn insert_child(&mut self, at: usize, child: C)
        requires within { at ≤ length (shape_children self.old) }
        requires room { HasRoom self.old }
        ensures values { shape_values self.new ≡ shape_values self.old }
        ensures children { shape_children self.new ≡ insert (shape_children self.old) at child }
    {
        match self {
            Shape::One(_, _) => unreachable!(),
            Shape::Values(_) => unreachable!(),
            Shape::Children(children) => put(children, at, child),
            Shape::Both(children, _) => put(children, at, child),
        }
    }

    /// Removes and returns the child at the index `at`, and moves the later children down. Does not allocate.
    #[inline]
    pub fn remove_child(&mut self, at: usize) -> C
        requires { at < length (shape_children self.old) }
        ensures child { result ≡ slice_index_or (shape_children self.old) at result }
        ensures values { shape_values self.new ≡ shape_values self.old }
        ensures children { shape_children self.new ≡ remove (shape_children self.old) at }
    {
        match self {
            Shape::Children(children) => {
                if children.len() > 1 {
                    return children.remove(at);
                }
            }
            Shape::Both(children, _) => {
                if children.len() > 1 {
                    return children.remove(at);
                }
            }
            _ => {}
        }
        replace_with(self, at, Shape::without_child)
    }

    fn without_child(self, at: usize) -> (Shape<C, T>, C)
        requires { at < length (shape_children self) }
        ensures child { result.1 ≡ slice_index_or (shape_children self) at result.1 }
        ensures values { shape_values result.0 ≡ shape_values self }
        ensures children { shape_children result.0 ≡ remove (shape_children self) at }
    {
        match self {
            Shape::One(_, _) => unreachable!(),
            Shape::Values(_) => unreachable!(),
            Shape::Children(children) => {
                let mut children = children;
                let child = children.remove(at);
                if children.len() == 0 {
                    return (Shape::new(children.allocator()), child);
                }
                (Shape::Children(children), child)
            }
            Shape::Both(children, values) => {
                let mut children = children;
                let child = children.remove(at);
                if children.len() == 0 {
                    return (settled(Box::into_inner(values)), child);
                }
                (Shape::Both(children, values), child)
            }
        }
    }

    /// Inserts the value at the index `at`, and moves the later values up.
    ///
    /// # Errors
    /// The value if an allocation fails; the values and the children are unchanged.
    #[inline]
    pub fn insert_value(&mut self, at: usize, value: T) -> Result<(), T>
        requires { at ≤ length (shape_values self.old) }
        ensures values { shape_values self.new ≡ (if is_ok result then insert (shape_values self.old) at value else shape_values self.old) }
        ensures children { shape_children self.new ≡ shape_children self.old }
        ensures value_returned { IfErr result (λ t. t ≡ value) }
    {
        match self {
            Shape::Values(values) => {
                if values.len() > 0 {
                    return insert_in(values, at, value);
                }
            }
            Shape::Both(_, values) => return insert_in(values, at, value),
            _ => {}
        }
        replace_with(self, (at, value), Shape::with_value)
    }

    fn with_value(self, place: (usize, T)) -> (Shape<C, T>, Result<(), T>)
        requires { place.0 ≤ length (shape_values self) }
        ensures values { shape_values result.0 ≡ (if is_ok result.1 then insert (shape_values self) place.0 place.1 else shape_values self) }
        ensures children { shape_children result.0 ≡ shape_children self }
        ensures value_returned { IfErr result.1 (λ t. t ≡ place.1) }
    {
        let (at, value) = place;
        match self {
            Shape::One(one, alloc) => match two(one, alloc, at, value) {
                Ok(values) => (Shape::Values(values), Ok(())),
                Err((one, value)) => (Shape::One(one, alloc), Err(value)),
            },
            Shape::Values(values) => {
                if values.len() == 0 {
                    return (Shape::One(value, values.allocator()), Ok(()));
                }
                let mut values = values;
                let done = insert_in(&mut values, at, value);
                (Shape::Values(values), done)
            }
            Shape::Children(children) => match boxed(children.allocator(), value) {
                Ok(values) => (Shape::Both(children, values), Ok(())),
                Err(value) => (Shape::Children(children), Err(value)),
            },
            Shape::Both(children, values) => {
                let mut values = values;
                let done = insert_in(&mut values, at, value);
                (Shape::Both(children, values), done)
            }
        }
    }
}

/// A list of two values: `one`, and `value` at the index `at`. If out of memory, both values.
fn two<T: Drop>(one: T, alloc: Global, at: usize, value: T) -> Result<ShortVec<T>, (T, T)>
    requires { at ≤ 1 }
    ensures ok { IfOk result (λ l. short_items l ≡ insert (one ∷ []) at value) }
    ensures err { IfErr result (λ p. (p.0 ≡ one) × (p.1 ≡ value)) }
{
    let Ok(mut list) = empty_list(alloc, 2, size_of_val(&value)) else {
        return Err((one, value));
    };
    let Ok(()) = list.push(one) else {
        unreachable!()
    };
    let Ok(()) = list.insert(at, value) else {
        unreachable!()
    };
    Ok(list)
}

/// A list of one value, in a box. If out of memory, the value.
fn boxed<T: Drop>(alloc: Global, value: T) -> Result<Box<ShortVec<T>>, T>
    ensures ok { IfOk result (λ b. short_items b.value ≡ value ∷ []) }
    ensures err { IfErr result (λ v. v ≡ value) }
{
    let Ok(list) = empty_list(alloc, 1, size_of_val(&value)) else {
        return Err(value);
    };
    let Ok(mut list) = Box::new(alloc, list) else {
        return Err(value);
    };
    let Ok(()) = list.push(value) else {
        unreachable!()
    };
    Ok(list)
}

/// The shape of values without children: a lone value leaves its list.
fn settled<C: Drop, T: Drop>(values: ShortVec<T>) -> Shape<C, T>
    ensures values { shape_values result ≡ short_items values }
    ensures children { shape_children result ≡ [] }
{
    let mut values = values;
    if values.len() == 1 {
        let value = values.remove(0);
        return Shape::One(value, values.allocator());
    }
    Shape::Values(values)
}

/// Inserts the item at the index `at`, and moves the later items up. There is room for it.
fn put<X: Drop>(items: &mut ShortVec<X>, at: usize, item: X)
    requires within { at ≤ length (short_items items.old) }
    requires room { short_len items.old < short_capacity items.old }
    ensures { short_items items.new ≡ insert (short_items items.old) at item }
{
    let Ok(()) = items.insert(at, item) else {
        unreachable!()
    };
}

/// An empty list with room for `more` children, and a list of one value, in a box. If out of memory, the value.
fn with_list<C: Drop, T: Drop>(
    alloc: Global,
    value: T,
    more: usize,
) -> Result<(ShortVec<C>, Box<ShortVec<T>>), T>
    requires { 0 < more }
    ensures children { IfOk result (λ r. (short_items r.0 ≡ []) × (short_len r.0 + more ≤ short_capacity r.0)) }
    ensures values { IfOk result (λ r. short_items r.1.value ≡ value ∷ []) }
    ensures err { IfErr result (λ v. v ≡ value) }
{
    let Ok(children) = empty_list(alloc, more, LARGE) else {
        return Err(value);
    };
    match boxed(alloc, value) {
        Ok(values) => Ok((children, values)),
        Err(value) => Err(value),
    }
}

/// The shape of these values with room for `more` children. If out of memory, their shape without it.
fn with_children<C: Drop, T: Drop>(
    values: ShortVec<T>,
    more: usize,
) -> (Shape<C, T>, Result<(), AllocError>)
    requires { 0 < more }
    ensures values { shape_values result.0 ≡ short_items values }
    ensures children { shape_children result.0 ≡ [] }
    ensures ok { OnOk result.1 (HasRoom result.0) }
    ensures more { OnOk result.1 (HasRoomFor more result.0) }
{
    let alloc = values.allocator();
    let Ok(children) = empty_list(alloc, more, LARGE) else {
        return (Shape::Values(values), Err(AllocError));
    };
    if values.len() == 0 {
        return (Shape::Children(children), Ok(()));
    }
    match Box::new(alloc, values) {
        Ok(values) => (Shape::Both(children, values), Ok(())),
        Err(AllocFailed { value, .. }) => (Shape::Values(value), Err(AllocError)),
    }
}
