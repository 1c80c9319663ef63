//! Copies of shapes.
ghost use Rattle.std.specs.Prelude.{◌≡◌, IfOk};
ghost use Rattle.short_vec.specs.Lists.{short_items};
ghost use Rattle.shape.specs.Shapes.{shape_values, shape_children};

use crate::shape::Shape;
use short_vec::ShortVec;
use std::alloc::{AllocError, Global};

/// Clones of the items, in the same order, in a list without room for more.
fn cloned<X: Clone>(alloc: Global, items: &[X]) -> Result<ShortVec<X>, AllocError>
    requires { (x y : X) → X.is_clone x y → y ≡ x }
    ensures { IfOk result (λ v. short_items v ≡ items.now) }
{
    let mut clones = ShortVec::with_capacity(alloc, items.len())?;
    for item in items {
        clones.push(item.clone()?)?;
    }
    Ok(clones)
}

impl<C: Drop, T: Clone> Shape<C, T> {
    /// Returns clones of the values beside the given children, which are copies of its own.
    ///
    /// # Errors
    /// `AllocError` if an allocation fails. The clones and the given children are then dropped.
    pub fn clone_over(
        &self,
        alloc: Global,
        children: ShortVec<C>,
    ) -> Result<Shape<C, T>, AllocError>
        requires children { short_items children ≡ shape_children self.now }
        requires clones { (x y : T) → T.is_clone x y → y ≡ x }
        ensures values { IfOk result (λ s. shape_values s ≡ shape_values self.now) }
        ensures children { IfOk result (λ s. shape_children s ≡ shape_children self.now) }
    {
        match self {
            Shape::One(value, _) => Ok(Shape::One(value.clone()?, alloc)),
            Shape::Values(values) => Ok(Shape::Values(cloned(alloc, values.as_slice())?)),
            Shape::Children(_) => Ok(Shape::Children(children)),
            Shape::Both(_, values) => {
                let values = cloned(alloc, values.as_slice())?;
                Ok(Shape::Both(children, Box::new(alloc, values)?))
            }
        }
    }
}
