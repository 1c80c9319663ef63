//! The routes of a least table.
ghost use Rattle.std.specs.Prelude.{◌≡◌, ◌≤◌, ◌++◌, ◌∷◌, [], cond, length, OnOk};
ghost use Rattle.std.specs.Iterator.{YieldsFirst};
ghost use Rattle.least_table.specs.InnerSteps.{AreNetworks};
ghost use Rattle.least_table.specs.Pieces.{strings};

use crate::stack::Stack;
use prefix_trie::{Prefix, prefix_of};
use std::alloc::{AllocError, Global};
use std::marker::Model;
use trie_core::Path;

/// The routes of a table, ascending, each with its hop; `None` is `drop`. They are made from the last to the first. `next` returns them
/// from the first to the last, and frees the memory of those that it returned.
///
/// Contracts see the routes that are left.
#[derive(Drop)]
pub struct Routes<P> {
    stack: Stack<(P, Option<u32>), 128>,
}

impl<P> Model for Routes<P> {
    ghost use Rattle.std.specs.Prelude.{ℕ, List, Option, reverse};

    ghost Value = { List (P × Option ℕ) };

    ghost view = { λ a. reverse a.stack };
}

impl<P: Copy> Routes<P> {
    /// Makes an empty list of routes. Does not allocate.
    pub(crate) fn new(alloc: Global) -> Routes<P>
        ensures { result ≡ [] }
    {
        Routes {
            stack: Stack::new(alloc),
        }
    }

    /// Removes and returns the first route that is left.
    pub fn next(&mut self) -> Option<(P, Option<u32>)>
        ensures { YieldsFirst (λ rs. rs) self.old result self.new }
    {
        self.stack.pop()
    }
}

impl<P: Prefix + Copy> Routes<P> {
    /// Adds a route of the block at `path` before the others.
    pub(crate) fn add(&mut self, path: &Path, hop: Option<u32>) -> Result<(), AllocError>
        requires { length path.now ≤ P.R.width }
        ensures routes { OnOk result (strings P.bits self.new ≡ (path.now, hop) ∷ strings P.bits self.old) }
        ensures networks { OnOk result (AreNetworks P.fits P.of_bits P.bits self.old → AreNetworks P.fits P.of_bits P.bits self.new) }
    {
        self.stack.push((prefix_of(path), hop))
    }

    /// Adds a route of the block at `path` before the others, if `is_new`.
    pub(crate) fn add_own(
        &mut self,
        path: &Path,
        hop: Option<u32>,
        is_new: bool,
    ) -> Result<(), AllocError>
        requires { length path.now ≤ P.R.width }
        ensures routes { OnOk result (strings P.bits self.new ≡ cond is_new ((path.now, hop) ∷ []) [] ++ strings P.bits self.old) }
        ensures networks { OnOk result (AreNetworks P.fits P.of_bits P.bits self.old → AreNetworks P.fits P.of_bits P.bits self.new) }
    {
        if is_new {
            self.add(path, hop)?;
        }
        Ok(())
    }
}
