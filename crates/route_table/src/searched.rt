//! A side as the search for nearest tables sees it: blocks are paths.
ghost use Rattle.ipnet_addr.specs.Addresses.{width};
ghost use Rattle.route_laws.specs.Networks.{routes_of};
ghost use Rattle.route_table.specs.InnerLeast.{entries_of};

use crate::family::FamilyNet;
use crate::family_table::FamilyTable;
use nearest_table::tables::{Installed, Table};
use prefix_trie::{prefix_of, truncated};
use trie_core::Path;

impl<P: FamilyNet> Table for FamilyTable<P, 1> {
    ghost width = { width P.family };

    ghost routes = { λ s. entries_of (routes_of s) };

    fn own(&self, block: &Path) -> Option<Option<u32>> {
        let choices = self.networks.get(&prefix_of(block))?;
        let (hop, _) = choices.best();
        Some(hop.number())
    }

    fn around(&self, block: &Path) -> Option<Option<u32>> {
        let len = block.len().checked_sub(1)?;
        let parent = truncated(&prefix_of(block), len);
        let (_, choices) = self.networks.longest_match(&parent)?;
        let (hop, _) = choices.best();
        Some(hop.number())
    }

    fn is_leaf(&self, block: &Path) -> bool {
        self.networks.is_leaf(&prefix_of(block))
    }
}

impl<P: FamilyNet> Installed for FamilyTable<P, 1> {
    fn is_covered(&self, block: &Path) -> bool {
        self.governs_none(prefix_of(block))
    }
}
