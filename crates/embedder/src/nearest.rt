//! The fewest operations that give the addresses of a table new hops.
ghost use Rattle.std.specs.Prelude.{◌≡◌, ◌≤◌, IfOk, None, length};
ghost use Rattle.least_table.specs.Orders.{IsInOrder};
ghost use Rattle.least_table.specs.Tables.{IsBitTable};
ghost use Rattle.nearest_table.specs.Changed.{AreInside};
ghost use Rattle.least_table.specs.Nearest.{IsLeastDistance};
ghost use Rattle.nearest_table.specs.Told.{told_hop};

use nearest_table::nearest;
use nearest_table::tables::{Installed, Table};
use std::alloc::{AllocError, Global};
use trie_core::Path;

/// The number of operations that the changes need: some table with the new hops differs from the installed one in this number of
/// blocks, and none in fewer.
///
/// # Errors
/// `AllocError` if an allocation fails.
pub fn needed<I: Installed, C: Table>(
    alloc: Global,
    installed: &I,
    changes: &C,
    block: &Path,
) -> Result<usize, AllocError>
    requires same { C.width ≡ I.width }
    requires short { I.width ≤ 128 }
    requires fits { length block.now ≤ I.width }
    requires installed { IsBitTable I.width (I.routes installed.now) }
    requires order { IsInOrder (I.routes installed.now) }
    requires changes { IsBitTable I.width (C.routes changes.now) }
    requires inside { AreInside I.width block.now (C.routes changes.now) }
    ensures { IfOk result (IsLeastDistance I.width (told_hop (C.routes changes.now) (I.routes installed.now)) (I.routes installed.now) None) }
{
    let edits = nearest(alloc, installed, changes, block)?;
    Ok(edits.len())
}
