//! Removal of an entry, and the nodes that it removes and joins.
ghost use Rattle.std.specs.Prelude.{◌≡◌, ◌+◌, ◌*◌, ◌<◌, ◌≤◌, ◌^◌, length, Some, None, ◌-◌, IfOk, IfErr};
ghost use Rattle.std.specs.FinMap as map;
ghost use Rattle.trie_core.specs.InnerRemovedBelow.{IsRemovedBelow};
ghost use Rattle.trie_core.specs.InnerChains.{over, chain, skipped};
ghost use Rattle.trie_core.specs.InnerCount.{all_nodes};
ghost use Rattle.trie_core.specs.Ways.{IsPruned};

use crate::node::{Branch, Node};
use crate::path::Path;
use crate::slots::{first_place, slot, take_value};
use crate::tables::bit;
use core::mem::replace_with;
use shape::Shape;

impl<T: Drop> Node<T> {
    /// Removes the entry, and then the nodes below this one on the path that are left empty, even if there was no entry.
    ///
    /// Returns the value and the number of nodes removed.
    pub fn remove(&mut self, path: Path) -> (Option<T>, u8)
        requires { length path ≤ 128 }

        // The entry is removed, and its value is returned.
        ensures value { result.0 ≡ map.get self.old.entries path }
        ensures map { self.new.entries ≡ map.remove self.old.entries path }

        // Nodes on the path that lead nowhere are removed; their number is returned, at most one for each five bits of the path.
        ensures spares { IsPruned path self.old.spares self.new.entries self.new.spares }
        ensures count { all_nodes self.new + result.1 ≡ all_nodes self.old }
        ensures levels { self.new.levels ≤ self.old.levels }
        ensures within { 5 * result.1 ≤ length path }
    {
        let mut held = None;
        let gone = self.remove_below(path, &mut held);
        (held, gone)
    }

    /// `remove`, but the value is returned in `held`, which must be `None` before. Returns the number of nodes removed.
    #[cycle(remove_below)]
    pub(crate) fn remove_below(&mut self, path: Path, held: &mut Option<T>) -> u8
        requires path { length path ≤ 128 }
        requires held { held.old ≡ None }
        ensures { IsRemovedBelow path self.old result held.new self.new }
    {
        if !path.starts(self.skip, self.levels) {
            return 0;
        }
        let branch = &mut self.branch;
        let gone = branch.take(path.past(self.levels), held);
        if branch.is_bare() {
            let gone = gone + self.levels;
            self.skip = 0;
            self.levels = 0;
            return gone;
        }
        self.join();
        gone
    }

    /// Joins the node to its only child if it has no value and can skip the child's levels too. Contracts see no change. Does not allocate.
    pub(crate) fn join(&mut self)
        ensures { self.new ≡ self.old }
    {
        let branch = &self.branch;
        if branch.value_bits != 0 || branch.child_bits.count_ones() != 1 {
            return;
        }
        replace_with(self, (), Node::with_only)
    }

    fn with_only(self, _nothing: ()) -> (Node<T>, ())
        ensures { result.0 ≡ self }
    {
        let Node {
            skip,
            levels,
            branch,
        } = self;
        (joined(skip, levels, branch), ())
    }
}

impl<T: Drop> Branch<T> {
    /// `remove_below` in a branch.
    #[cycle(remove_below)]
    fn take(&mut self, path: Path, held: &mut Option<T>) -> u8
        requires path { length path ≤ 128 }
        requires held { held.old ≡ None }
        ensures { IsRemovedBelow path self.old result held.new self.new }
    {
        if path.is_short() {
            self.take_here(path, held);
            return 0;
        }
        let number = path.five();
        match slot(self.child_bits, number) {
            None => 0,
            Some(at) => {
                let child = self.body.child_mut(at);
                let gone = child.remove_below(path.rest(), held);
                if child.is_bare() {
                    let _ = self.body.remove_child(at);
                    self.child_bits -= bit(number);
                    gone + 1
                } else {
                    gone
                }
            }
        }
    }

    /// `take` at a string of fewer than five bits.
    #[inline(never)]
    fn take_here(&mut self, path: Path, held: &mut Option<T>)
        requires { length path < 5 }
        ensures { IsRemovedBelow path self.old 0 held.new self.new }
    {
        *held = take_value(&mut self.value_bits, &mut self.body, path.place());
    }

    /// Takes the branch apart if it has no value and one child, which skips at most `most` levels. Returns the child's number and its
    /// fields, and else the branch.
    fn take_only(self, most: u8) -> Result<(u8, u32, u8, Branch<T>), Branch<T>>
        ensures few { IfOk result (λ r. (r.0 < 32) × (r.2 ≤ most) × (r.1 < 2 ^ (5 * r.2))) }
        ensures only { IfOk result (λ r. over r.0 (chain r.2 (skipped r.2 r.1) r.3) ≡ self) }
        ensures back { IfErr result (λ b. b ≡ self) }
    {
        let Branch {
            body,
            child_bits,
            value_bits,
        } = self;
        match body {
            Shape::Children(list) => {
                let mut list = list;
                if list.len() != 1 {
                    return Err(Branch {
                        body: Shape::Children(list),
                        child_bits,
                        value_bits,
                    });
                }
                let Node {
                    skip,
                    levels,
                    branch,
                } = list.remove(0);
                if levels <= most {
                    return Ok((first_place(child_bits), skip, levels, branch));
                }
                let node = Node {
                    skip,
                    levels,
                    branch,
                };
                let Ok(()) = list.insert(0, node) else {
                    unreachable!()
                };
                Err(Branch {
                    body: Shape::Children(list),
                    child_bits,
                    value_bits,
                })
            }
            body => Err(Branch {
                body,
                child_bits,
                value_bits,
            }),
        }
    }
}

/// Makes a node of skipped levels and a branch. A branch without values and with one child is joined to it if the levels fit.
fn joined<T: Drop>(skip: u32, levels: u8, branch: Branch<T>) -> Node<T>
    requires levels { levels ≤ 5 }
    requires skip { skip < 2 ^ (5 * levels) }
    ensures { result ≡ chain levels (skipped levels skip) branch }
{
    if levels == 5 {
        return Node {
            skip,
            levels,
            branch,
        };
    }
    match branch.take_only(4 - levels) {
        Err(branch) => {
            return Node {
                skip,
                levels,
                branch,
            };
        }
        Ok((number, low, below, branch)) => Node {
            skip: with_low(skip * 32 + u32::from(number), low, below),
            levels: levels + below + 1,
            branch,
        },
    }
}

/// Returns the number with the digits of `high`, and then those of `low`, five for each level.
fn with_low(high: u32, low: u32, below: u8) -> u32
    requires below { below ≤ 4 }
    requires high { high < 2 ^ (25 - 5 * below) }
    requires low { low < 2 ^ (5 * below) }
    ensures { result ≡ high * 2 ^ (5 * below) + low }
{
    high * bit(5 * below) + low
}
