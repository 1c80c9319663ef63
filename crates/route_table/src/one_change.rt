//! One change as a table.
ghost use Rattle.std.specs.Prelude.{◌≡◌, ◌≤◌, [], ◌∷◌, Some, None, cond, length};
ghost use Rattle.ipnet_addr.specs.Addresses.{width};
ghost use Rattle.ipnet_blocks.specs.BitStrings.{begins};

use crate::family::FamilyNet;
use nearest_table::tables::Table;
use prefix_trie::{Prefix, prefix_of};
use trie_core::Path;

/// One change of a family, as the search for nearest tables sees it: a table of one route. It takes no allocation. Host bits of the
/// network don't count.
#[derive(Drop)]
pub(crate) struct OneChange<P: FamilyNet> {
    pub(crate) net: P,
    pub(crate) hop: Option<u32>,
}

impl<P: FamilyNet> OneChange<P> {
    /// The hop, if the network contains the block.
    fn told(&self, block: &Path) -> Option<Option<u32>>
        requires { length block.now ≤ width P.family }
        ensures { result ≡ cond (begins (P.bits self.now.net) block.now) (Some self.now.hop) None }
    {
        if self.net.contains(&prefix_of(block)) {
            Some(self.hop)
        } else {
            None
        }
    }
}

impl<P: FamilyNet> Table for OneChange<P> {
    ghost width = { width P.family };

    ghost routes = { λ c. (P.bits c.net, c.hop) ∷ [] };

    fn own(&self, block: &Path) -> Option<Option<u32>> {
        if block.len() != self.net.prefix_len() {
            return None;
        }
        self.told(block)
    }

    fn around(&self, block: &Path) -> Option<Option<u32>> {
        if block.len() <= self.net.prefix_len() {
            return None;
        }
        self.told(block)
    }

    fn is_leaf(&self, block: &Path) -> bool {
        if block.len() >= self.net.prefix_len() {
            return true;
        }
        let block: P = prefix_of(block);
        !block.contains(&self.net)
    }
}
