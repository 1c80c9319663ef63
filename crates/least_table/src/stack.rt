//! Stacks that grow in blocks.
ghost use Rattle.std.specs.Prelude.{◌≡◌, ◌<◌, ◌++◌, ◌∷◌, [], List, MatchOption, OnOk, length, slice_index_or};
ghost use Rattle.least_table.specs.InnerStacks.{IsSize};

use std::alloc::{AllocError, Global};
use std::marker::Model;
use std::mem;

/// The most full blocks; up to this number, the number of items fits a `usize`.
const MOST: usize = 1 << 32;

/// A stack of items in blocks of `SIZE` items, 1 to 1,024. Items aren't moved when it grows, and memory is freed block by block
/// as items are removed.
///
/// Contracts see the list of the items.
#[derive(Drop)]
pub struct Stack<X, const SIZE: usize> {
    full: Vec<Vec<X>>,
    last: Vec<X>,
}

impl<X, const SIZE: usize> Model for Stack<X, SIZE> {
    ghost use Rattle.std.specs.Prelude.{List, ◌++◌, ◌≤◌, ◌^◌, length};
    ghost use Rattle.least_table.specs.InnerStacks.{AreFull, IsSize, joined_blocks};

    ghost Value = { List X };

    ghost view = { λ a. joined_blocks a.full.items ++ a.last.items };

    ghost invariant = { λ a. IsSize SIZE × AreFull SIZE a.full.items × (length a.full.items ≤ 2 ^ 32) × (length a.last.items ≤ SIZE) };
}

impl<X, const SIZE: usize> Stack<X, SIZE> {
    /// Makes an empty stack. Does not allocate.
    pub fn new(alloc: Global) -> Stack<X, SIZE>
        requires { IsSize SIZE }
        ensures { result ≡ [] }
    {
        Stack {
            full: Vec::new(alloc),
            last: Vec::new(alloc),
        }
    }

    /// Returns the number of items.
    pub fn len(&self) -> usize
        ensures { result ≡ length self.now }
    {
        self.full.len() * SIZE + self.last.len()
    }

    /// Returns the item at an index. Does not allocate.
    pub fn get(&self, at: usize) -> &X
        requires { at < length self.now }
        ensures { result.now ≡ slice_index_or self.now at result.now }
    {
        let blocks = self.full.len();
        let block = at / SIZE;
        if block < blocks {
            &self.full[block][at % SIZE]
        } else {
            &self.last[at % SIZE]
        }
    }

    /// Returns the last item, if there is one. Does not allocate.
    pub fn last(&self) -> Option<&X>
        ensures { MatchOption result (self.now ≡ []) (λ x. (xs : List X) × (self.now ≡ xs ++ x.now ∷ [])) }
    {
        let len = self.len();
        if len == 0 {
            return None;
        }
        Some(self.get(len - 1))
    }
}

impl<X: Drop, const SIZE: usize> Stack<X, SIZE> {
    /// Adds an item at the end.
    ///
    /// # Errors
    /// `AllocError` if an allocation fails. The item is dropped.
    pub fn push(&mut self, item: X) -> Result<(), AllocError>
        ensures { OnOk result (self.new ≡ self.old ++ item ∷ []) }
    {
        if self.last.len() == SIZE {
            if self.full.len() >= MOST {
                return Err(AllocError);
            }
            let block = Vec::with_capacity(*self.full.allocator(), SIZE)?;
            let full = mem::replace(&mut self.last, block);
            self.full.push(full)?;
        }
        self.last.push(item)?;
        Ok(())
    }

    /// Removes and returns the last item, if there is one.
    pub fn pop(&mut self) -> Option<X>
        ensures { MatchOption result ((self.old ≡ []) × (self.new ≡ [])) (λ x. self.old ≡ self.new ++ x ∷ []) }
    {
        if self.last.is_empty() {
            self.last = self.full.pop()?;
        }
        self.last.pop()
    }
}
