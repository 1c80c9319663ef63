//! Walks over the entries of a node whose keys are prefixes of a path. They do not allocate.
ghost use Rattle.std.specs.Prelude.{◌≡◌, ◌+◌, ◌-◌, ◌≤◌, [], length, take, MatchOption, ⊤};
ghost use Rattle.std.specs.FinMap.{entries};
ghost use Rattle.std.specs.FinMap.Entries.{where_key};
ghost use Rattle.std.specs.Iterator.{YieldsFirstBy, item_count};
ghost use Rattle.ipnet_blocks.specs.BitStrings.{bits_cmp, begins};
ghost use Rattle.trie_core.specs.InnerNodes.{under};
ghost use Rattle.trie_core.specs.InnerCovers.{NoneFrom, IsFirstFrom, is_left};
ghost use Rattle.trie_core.specs.InnerSteps.{Stepped};
ghost use Rattle.trie_core.specs.InnerCovers.{IsRest};

use crate::node::{Branch, Node};
use crate::path::Path;
use crate::slots::{first_place, low_bits, taken_below};
use crate::tables::place_length;
use crate::walk::Step;
use std::alloc::AllocError;
use std::marker::Model;

/// The rest of a walk over the entries whose keys are prefixes of a path, shortest key first. `rest` is the part of the path below
/// `branch`. The walk still has the entries of `branch` from `place` on, and the entries below it on the rest of the path.
#[derive(Drop)]
pub struct Cover<'a, T> {
    branch: Option<&'a Branch<T>>,
    path: Path,
    rest: Path,
    place: u8,
}

impl<'a, T> Model for Cover<'a, T> {
    ghost use Rattle.std.specs.Prelude.{ℕ, List, Bool, ◌-◌, length, take};
    ghost use Rattle.std.specs.Coded.{coded×, coded_ℕ, coded_list, coded_bool};
    ghost use Rattle.trie_core.specs.InnerCovers.{cover_rest, cover_weight};
    ghost use Rattle.trie_core.specs.InnerCovers.{IsRest};

    ghost Value = { List (List Bool × T) × ℕ };

    ghost coded = { coded× (coded_list (coded× (coded_list coded_bool) T.code)) coded_ℕ };

    ghost view = { λ a. (cover_rest a.branch a.rest a.place (take (length a.path - length a.rest) a.path), cover_weight a.branch a.rest) };

    ghost invariant = { λ a. IsRest a.path a.rest a.place };
}

/// Returns the first place, from this one on, whose string is both a key of the branch and a prefix of the path, with its value.
fn beginning_from<'a, T>(branch: &'a Branch<T>, path: &Path, place: u8) -> Option<(u8, &'a T)>
    requires { place ≤ 31 }
    ensures { MatchOption result (NoneFrom branch.now.entries path.now place) (λ r. IsFirstFrom branch.now.entries path.now place r.0 r.1.now) }
{
    let met = branch.value_bits & path.beginnings();
    let found = met - low_bits(met, place);
    if found == 0 {
        return None;
    }
    let next = first_place(found);
    let at = taken_below(branch.value_bits, next);
    Some((next, branch.body.value(at)))
}

/// Returns the first `len` bits of the path.
#[inline]
fn front(path: &Path, len: u8) -> Path
    requires within { len ≤ length path.now }
    requires fits { length path.now ≤ 128 }
    ensures { result ≡ take len path.now }
{
    Path::new(path.to_bits(), len)
}

impl<'a, T> Cover<'a, T> {
    /// Makes a walk over the entries of a node whose keys are prefixes of a path, the path itself included.
    pub fn new(node: &'a Node<T>, path: Path) -> Cover<'a, T>
        requires { length path ≤ 128 }
        ensures { result.0 ≡ where_key bits_cmp (λ k. begins k path) (entries node.now.entries) }
    {
        let whole = path.copied();
        Cover::below(node, whole, path)
    }

    /// Makes a walk over the entries of the node that a path leads to; `rest` is the part of the path below the node.
    fn below(node: &'a Node<T>, path: Path, rest: Path) -> Cover<'a, T>
        requires { IsRest path rest 0 }
        ensures entries { result.0 ≡ under (take (length path - length rest) path) (where_key bits_cmp (is_left rest 0) (entries node.now.entries)) }
        ensures weight { result.1 ≤ length rest + 1 }
    {
        if !rest.starts(node.skip, node.levels) {
            return Cover {
                branch: None,
                path,
                rest,
                place: 0,
            };
        }
        Cover {
            branch: Some(&node.branch),
            path,
            rest: rest.past(node.levels),
            place: 0,
        }
    }

    /// Returns the next entry of the branch, or moves to the branch below.
    fn step(&mut self) -> Step<&'a T>
        ensures { Stepped (λ v. v.now) self.old result self.new }
    {
        let Some(branch) = self.branch else {
            return Step::Done;
        };
        if let Some((place, value)) = beginning_from(branch, &self.rest, self.place) {
            self.place = place + 1;
            let depth = self.path.len() - self.rest.len();
            let key = front(&self.path, depth + place_length(place));
            return Step::Entry(key, value);
        }
        if self.rest.is_short() {
            self.branch = None;
            return Step::Moved;
        }
        match branch.child(&self.rest) {
            None => self.branch = None,
            Some(node) => *self = Cover::below(node, self.path.copied(), self.rest.rest()),
        }
        Step::Moved
    }
}

impl<'a, T> Clone for Cover<'a, T> {
    ghost is_clone = { λ c r. r ≡ c };

    ghost is_infallible = { λ _. ⊤ };

    /// Returns a copy of the walk from its current position. Does not allocate.
    fn clone(&self) -> Result<Cover<'a, T>, AllocError> {
        Ok(Cover {
            branch: self.branch,
            path: self.path.clone()?,
            rest: self.rest.clone()?,
            place: self.place,
        })
    }
}

impl<'a, T> Default for Cover<'a, T> {
    ghost is_default = { λ c. c.0 ≡ [] };

    fn default() -> Cover<'a, T> {
        Cover {
            branch: None,
            path: Path::new(0, 0),
            rest: Path::new(0, 0),
            place: 0,
        }
    }
}

impl<'a, T> Iterator for Cover<'a, T> {
    type Item = (Path, &'a T);

    ghost next_gives = { YieldsFirstBy (λ p. (p.0, p.1.now)) (λ c. c.0) };

    ghost remaining = { item_count (λ c. c.0) };

    fn next(&mut self) -> Option<(Path, &'a T)> {
        'step: loop {
            match self.step() {
                Step::Entry(key, value) => return Some((key, value)),
                Step::Done => return None,
                Step::Moved => {}
            }
        }
    }
}
