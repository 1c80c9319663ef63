//! A node's content, taken apart into values and children.
ghost use Rattle.std.specs.Prelude.{◌≡◌};
ghost use Rattle.short_vec.specs.Lists.{short_items};
ghost use Rattle.shape.specs.Shapes.{shape_values, shape_children};
ghost use Rattle.shape.specs.OwnedValues.{owned_values};

use crate::shape::Shape;
use short_vec::ShortVec;

/// The values of a node that is taken apart.
#[derive(Drop)]
pub enum OwnedValues<T> {
    /// A single value.
    One(T),
    /// A list of values.
    Many(ShortVec<T>),
}

impl<C, T> Shape<C, T> {
    /// Returns the values and the children. Does not allocate.
    pub fn into_lists(self) -> (OwnedValues<T>, ShortVec<C>)
        ensures values { owned_values result.0 ≡ shape_values self }
        ensures children { short_items result.1 ≡ shape_children self }
    {
        match self {
            Shape::One(value, alloc) => (OwnedValues::One(value), ShortVec::new(alloc)),
            Shape::Values(values) => {
                let alloc = values.allocator();
                (OwnedValues::Many(values), ShortVec::new(alloc))
            }
            Shape::Children(children) => {
                let alloc = children.allocator();
                (OwnedValues::Many(ShortVec::new(alloc)), children)
            }
            Shape::Both(children, values) => (OwnedValues::Many(Box::into_inner(values)), children),
        }
    }
}
