//! Tables of routes, as searches of blocks see them.
ghost use Rattle.std.specs.Prelude.{◌≡◌, ◌-◌, ℕ, ◌≤◌, List, [], Bool, Option, None, length, true, ◌↔◌};
ghost use Rattle.least_table.specs.Tables.{own};
ghost use Rattle.least_table.specs.Wholes.{without_own};
ghost use Rattle.nearest_table.specs.Blocks.{inner, around, IsCovered};

use trie_core::Path;

/// A table of routes. A route is a block with a hop, or with none, which is `drop`. A block is the path of its addresses' first bits.
pub trait Table {
    /// The number of bits of an address.
    ghost width: { ℕ };

    /// The routes of the table.
    ghost routes: { Self → List (List Bool × Option ℕ) };

    /// The hop of the route of exactly this block, if there is one.
    fn own(&self, block: &Path) -> Option<Option<u32>>
        requires { length block.now ≤ width }
        ensures { result ≡ own (inner block.now (routes self.now)) };

    /// The hop of the longest route that contains the block and is larger, if there is one.
    fn around(&self, block: &Path) -> Option<Option<u32>>
        requires { length block.now ≤ width }
        ensures { result ≡ around block.now None (routes self.now) };

    /// Whether no route is strictly inside the block.
    fn is_leaf(&self, block: &Path) -> bool
        requires { length block.now ≤ width }
        ensures { (result ≡ true) ↔ (without_own (inner block.now (routes self.now)) ≡ []) };
}

/// An installed table, which also tells whether the routes inside a block leave a gap.
pub trait Installed: Table {
    /// Whether each address of the block is in a route strictly inside the block.
    fn is_covered(&self, block: &Path) -> bool
        requires { length block.now ≤ Self.width }
        ensures { IsCovered result (Self.width - length block.now) (without_own (inner block.now (Self.routes self.now))) };
}
