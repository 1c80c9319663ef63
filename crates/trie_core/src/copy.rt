//! Copies of a node with the same entries.
ghost use Rattle.std.specs.Prelude.{◌≡◌, IfOk};

use crate::node::{Branch, Node};
use short_vec::ShortVec;
use std::alloc::{AllocError, Global};

impl<T: Clone> Node<T> {
    /// Returns a copy of the node, with clones of the values and as many nodes below.
    ///
    /// # Errors
    /// `AllocError` if an allocation fails; all that was copied is dropped.
    #[cycle(copy)]
    pub fn try_clone(&self, alloc: Global) -> Result<Node<T>, AllocError>
        requires { (x y : T) → T.is_clone x y → y ≡ x }
        ensures { IfOk result (λ n. n ≡ self.now) }
    {
        Ok(Node {
            skip: self.skip,
            levels: self.levels,
            branch: self.branch.try_clone(alloc)?,
        })
    }
}

impl<T: Clone> Branch<T> {
    /// Returns a copy of the branch, with clones of the values and of the nodes below.
    #[cycle(copy)]
    fn try_clone(&self, alloc: Global) -> Result<Branch<T>, AllocError>
        requires { (x y : T) → T.is_clone x y → y ≡ x }
        ensures { IfOk result (λ b. b ≡ self.now) }
    {
        let mut children = ShortVec::with_capacity(alloc, self.body.children().len())?;
        for child in self.body.children() {
            children.push(child.try_clone(alloc)?)?;
        }
        Ok(Branch {
            body: self.body.clone_over(alloc, children)?,
            child_bits: self.child_bits,
            value_bits: self.value_bits,
        })
    }
}
