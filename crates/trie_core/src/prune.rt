//! Removals below a node: of everything, of the spare nodes, of all entries inside a path, and of an entry alone.
ghost use Rattle.std.specs.Prelude.{◌≡◌, ◌+◌, ◌*◌, ◌<◌, ◌≤◌, ◌^◌, length, cond};
ghost use Rattle.std.specs.FinMap as map;
ghost use Rattle.ipnet_blocks.specs.BitStrings.{begins};
ghost use Rattle.trie_core.specs.InnerChains.{skipped};
ghost use Rattle.trie_core.specs.InnerCount.{all_nodes};
ghost use Rattle.trie_core.specs.InnerNodes.{AreBelow};
ghost use Rattle.trie_core.specs.InnerRemovals.{IsRemoved};
ghost use Rattle.trie_core.specs.Ways.{IsCut, IsKept};
ghost use Rattle.trie_core.specs.Inside.{outside};

use crate::node::{Branch, Node};
use crate::path::Path;
use crate::slots::{slot, take_value};
use crate::tables::bit;

impl<T> Node<T> {
    /// Returns the number of entries and the number of nodes.
    #[cycle(counts)]
    pub(crate) fn counts(&self) -> (usize, usize)
        requires entries { map.len self.now.entries < 2 ^ 64 }
        requires nodes { all_nodes self.now < 2 ^ 64 }
        ensures entries { result.0 ≡ map.len self.now.entries }
        ensures nodes { result.1 ≡ all_nodes self.now }
    {
        let branch = &self.branch;
        let (entries, nodes) = branch.counts();
        (entries, nodes + usize::from(self.levels))
    }
}

impl<T> Branch<T> {
    /// `counts` of a branch.
    #[cycle(counts)]
    fn counts(&self) -> (usize, usize)
        requires entries { map.len self.now.entries < 2 ^ 64 }
        requires nodes { all_nodes self.now < 2 ^ 64 }
        ensures entries { result.0 ≡ map.len self.now.entries }
        ensures nodes { result.1 ≡ all_nodes self.now }
    {
        let mut entries = self.value_bits.count_ones() as usize;
        let mut nodes = 1;
        for child in self.body.children() {
            let (more, below) = child.counts();
            entries += more;
            nodes += below;
        }
        (entries, nodes)
    }
}

impl<T: Drop> Node<T> {
    /// Removes all entries and all nodes below.
    pub fn clear(&mut self)
        ensures map { self.new.entries ≡ map.empty }
        ensures spares { self.new.spares ≡ map.empty }
        ensures levels { self.new.levels ≡ 1 }
    {
        let alloc = self.branch.allocator();
        self.branch = Branch::new(alloc);
        self.skip = 0;
        self.levels = 0;
    }
}

impl<T: Drop> Node<T> {
    /// Removes every spare node below this one, the lowest first, and keeps the entries. Returns the number of nodes removed.
    #[cycle(take_spares)]
    pub fn take_spares(&mut self) -> usize
        requires { all_nodes self.old < 2 ^ 64 }
        ensures map { self.new.entries ≡ self.old.entries }
        ensures spares { self.new.spares ≡ map.empty }
        ensures count { all_nodes self.new + result ≡ all_nodes self.old }
        ensures levels { self.new.levels ≤ self.old.levels }
    {
        let branch = &mut self.branch;
        let gone = branch.take_spares();
        if branch.is_bare() {
            let gone = gone + usize::from(self.levels);
            self.skip = 0;
            self.levels = 0;
            return gone;
        }
        self.join();
        gone
    }
}

impl<T: Drop> Branch<T> {
    /// `take_spares` of a branch.
    #[cycle(take_spares)]
    fn take_spares(&mut self) -> usize
        requires { all_nodes self.old < 2 ^ 64 }
        ensures map { self.new.entries ≡ self.old.entries }
        ensures spares { self.new.spares ≡ map.empty }
        ensures count { all_nodes self.new + result ≡ all_nodes self.old }
        ensures levels { self.new.levels ≤ self.old.levels }
    {
        let mut gone = 0;
        'number: for number in 0..32 {
            let Some(at) = slot(self.child_bits, number) else {
                continue 'number;
            };
            let child = self.body.child_mut(at);
            gone += child.take_spares();
            if child.is_bare() {
                let _ = self.body.remove_child(at);
                self.child_bits -= bit(number);
                gone += 1;
            }
        }
        gone
    }
}

/// Returns whether the skipped levels begin with the path.
fn leads_to(path: &Path, skip: u32, levels: u8) -> bool
    requires levels { levels ≤ 5 }
    requires skip { skip < 2 ^ (5 * levels) }
    requires within { length path.now ≤ 5 * levels }
    ensures { result ≡ begins path.now (skipped levels skip) }
{
    let len = path.len();
    if len == 0 {
        return true;
    }
    path.to_bits() >> (128 - len) == u128::from(skip >> (5 * levels - len))
}

impl<T: Drop> Node<T> {
    /// Removes all entries whose keys begin with the path, the path itself included. Then removes the nodes on the path that are left
    /// empty, but not this node. Returns the number of entries and the number of nodes removed.
    pub fn remove_children(&mut self, path: &Path) -> (usize, usize)
        requires entries { map.len self.old.entries < 2 ^ 64 }
        requires nodes { all_nodes self.old < 2 ^ 64 }

        // All entries inside the path are removed; the results are the numbers of removed entries and nodes.
        ensures map { self.new.entries ≡ outside self.old.entries path.now }
        ensures entries { map.len self.new.entries + result.0 ≡ map.len self.old.entries }
        ensures count { all_nodes self.new + result.1 ≡ all_nodes self.old }

        // Nodes inside the path are removed, and nodes on it that then lead nowhere; no level is added.
        ensures spares { IsCut path.now self.old.spares self.new.entries self.new.spares }
        ensures levels { self.new.levels ≤ self.old.levels }
    {
        self.remove_inside(path)
    }

    /// The recursion of `remove_children`.
    #[cycle(remove_inside)]
    fn remove_inside(&mut self, path: &Path) -> (usize, usize)
        requires entries { map.len self.old.entries < 2 ^ 64 }
        requires nodes { all_nodes self.old < 2 ^ 64 }
        ensures removed { IsRemoved path.now self.old result self.new }
        ensures spares { IsCut path.now self.old.spares self.new.entries self.new.spares }
    {
        // If the path ends on the skipped levels, all entries or none are inside it.
        if self.levels > 0 && path.len() <= 5 * self.levels {
            if !leads_to(path, self.skip, self.levels) {
                return (0, 0);
            }
            let (entries, nodes) = self.counts();
            self.clear();
            return (entries, nodes - 1);
        }
        if !path.starts(self.skip, self.levels) {
            return (0, 0);
        }
        let branch = &mut self.branch;
        let (entries, nodes) = branch.remove_inside(&path.past(self.levels));
        if branch.is_bare() {
            let nodes = nodes + usize::from(self.levels);
            self.skip = 0;
            self.levels = 0;
            return (entries, nodes);
        }
        self.join();
        (entries, nodes)
    }

    /// Drops the node. Returns the number of its entries and the number of its nodes.
    fn discarded(self) -> (usize, usize)
        requires entries { map.len self.entries < 2 ^ 64 }
        requires nodes { all_nodes self < 2 ^ 64 }
        ensures entries { result.0 ≡ map.len self.entries }
        ensures nodes { result.1 ≡ all_nodes self }
    {
        self.counts()
    }
}

impl<T: Drop> Branch<T> {
    /// `remove_inside` of a branch.
    #[cycle(remove_inside)]
    fn remove_inside(&mut self, path: &Path) -> (usize, usize)
        requires entries { map.len self.old.entries < 2 ^ 64 }
        requires nodes { all_nodes self.old < 2 ^ 64 }
        ensures removed { IsRemoved path.now self.old result self.new }
        ensures spares { IsCut path.now self.old.spares self.new.entries self.new.spares }
    {
        if path.len() <= 5 {
            return self.take_inside(path);
        }
        let number = path.five();
        match slot(self.child_bits, number) {
            None => (0, 0),
            Some(at) => {
                let child = self.body.child_mut(at);
                let (entries, nodes) = child.remove_inside(&path.rest());
                if child.is_bare() {
                    let _ = self.body.remove_child(at);
                    self.child_bits -= bit(number);
                    (entries, nodes + 1)
                } else {
                    (entries, nodes)
                }
            }
        }
    }

    /// Removes all entries of the branch inside a string of at most five bits, with the nodes below. Returns the number of entries and the
    /// number of nodes removed.
    fn take_inside(&mut self, path: &Path) -> (usize, usize)
        requires short { length path.now ≤ 5 }
        requires entries { map.len self.old.entries < 2 ^ 64 }
        requires nodes { all_nodes self.old < 2 ^ 64 }
        ensures removed { IsRemoved path.now self.old result self.new }
        ensures spares { self.new.spares ≡ outside self.old.spares path.now }
        ensures below { AreBelow self.new.spares }
    {
        if !path.is_short() {
            return self.take_child(path);
        }
        let here = usize::from(self.take_value(path));
        let (left, left_nodes) = self.take_inside(&path.extended(false));
        let (right, right_nodes) = self.take_inside(&path.extended(true));
        (here + left + right, left_nodes + right_nodes)
    }

    /// Removes the child at five bits. Returns the number of entries and the number of nodes removed.
    fn take_child(&mut self, path: &Path) -> (usize, usize)
        requires five { length path.now ≡ 5 }
        requires entries { map.len self.old.entries < 2 ^ 64 }
        requires nodes { all_nodes self.old < 2 ^ 64 }
        ensures removed { IsRemoved path.now self.old result self.new }
        ensures spares { self.new.spares ≡ outside self.old.spares path.now }
        ensures below { AreBelow self.new.spares }
    {
        let number = path.five();
        match slot(self.child_bits, number) {
            None => (0, 0),
            Some(at) => {
                let child = self.body.remove_child(at);
                self.child_bits -= bit(number);
                child.discarded()
            }
        }
    }

    /// Removes the value at a string of fewer than five bits. Returns whether there was one.
    fn take_value(&mut self, path: &Path) -> bool
        requires { length path.now < 5 }
        ensures map { self.new.entries ≡ map.remove self.old.entries path.now }
        ensures entries { map.len self.new.entries + cond result 1 0 ≡ map.len self.old.entries }
        ensures count { all_nodes self.new ≡ all_nodes self.old }
        ensures spares { self.new.spares ≡ map.remove self.old.spares path.now }
        ensures levels { self.new.levels ≡ self.old.levels }
    {
        take_value(&mut self.value_bits, &mut self.body, path.place()).is_some()
    }
}

impl<T: Drop> Node<T> {
    /// Removes the entry, and keeps every node.
    #[cycle(remove_keep_tree)]
    pub fn remove_keep_tree(&mut self, path: Path) -> Option<T>
        // The entry is removed, and its value is returned.
        ensures value { result ≡ map.get self.old.entries path }
        ensures map { self.new.entries ≡ map.remove self.old.entries path }

        // All nodes stay; nodes on the path that no longer lead to an entry are spare then.
        ensures spares { IsKept path self.old.entries self.old.spares self.new.entries self.new.spares }
        ensures count { all_nodes self.new ≡ all_nodes self.old }
        ensures levels { self.new.levels ≤ self.old.levels }
    {
        if !path.starts(self.skip, self.levels) {
            return None;
        }
        let branch = &mut self.branch;
        branch.remove_keep_tree(path.past(self.levels))
    }
}

impl<T: Drop> Branch<T> {
    /// `remove_keep_tree` of a branch.
    #[cycle(remove_keep_tree)]
    fn remove_keep_tree(&mut self, path: Path) -> Option<T>
        ensures value { result ≡ map.get self.old.entries path }
        ensures map { self.new.entries ≡ map.remove self.old.entries path }
        ensures spares { IsKept path self.old.entries self.old.spares self.new.entries self.new.spares }
        ensures count { all_nodes self.new ≡ all_nodes self.old }
        ensures levels { self.new.levels ≤ self.old.levels }
    {
        if path.is_short() {
            return self.remove_here(path);
        }
        let at = slot(self.child_bits, path.five())?;
        let child = self.body.child_mut(at);
        child.remove_keep_tree(path.rest())
    }

    /// `remove_keep_tree` at a string of fewer than five bits.
    fn remove_here(&mut self, path: Path) -> Option<T>
        requires { length path < 5 }
        ensures value { result ≡ map.get self.old.entries path }
        ensures map { self.new.entries ≡ map.remove self.old.entries path }
        ensures spares { IsKept path self.old.entries self.old.spares self.new.entries self.new.spares }
        ensures count { all_nodes self.new ≡ all_nodes self.old }
        ensures levels { self.new.levels ≤ self.old.levels }
    {
        take_value(&mut self.value_bits, &mut self.body, path.place())
    }
}
