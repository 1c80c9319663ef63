//! A store of sets of hops.
ghost use Rattle.std.specs.Prelude.{◌≡◌, ◌/◌, ◌%◌, ◌+◌, ◌-◌, ◌<◌, ◌≤◌, [], IfOk, IsTrue, OnOk, length, slice_index_or};
ghost use Rattle.least_table.specs.InnerSets.{HasSet, KeepsSets, set_at, set_in, size_in};

use std::alloc::{AllocError, Global};
use std::cmp::max;
use std::marker::Model;

/// Each block has room for at least this many words, and each set begins at one of the first `SIZE` words of a block.
const SIZE: usize = 512;

/// A store of sets, one after another in blocks. Before each set is the number of its hops. Sets aren't moved when the store grows. A set
/// is identified by 32 bits: the number of its block, and its place in the block.
///
/// Contracts see the list of the blocks.
#[derive(Drop)]
pub(crate) struct KeptSets {
    blocks: Vec<Vec<Option<u32>>>,
}

impl Model for KeptSets {
    ghost use Rattle.std.specs.Prelude.{ℕ, List, Option, map};

    ghost Value = { List (List (Option ℕ)) };

    ghost view = { λ a. map (λ b. b.items) a.blocks.items };
}

/// The identifier of the set at a place of a block.
fn number(block: usize, place: usize) -> Result<u32, AllocError>
    requires { place < 512 }
    ensures block { IfOk result (λ at. at / 512 ≡ block) }
    ensures place { IfOk result (λ at. at % 512 ≡ place) }
{
    if block >= 1 << 23 {
        return Err(AllocError);
    }
    Ok((block * SIZE + place) as u32)
}

/// The set at a place of a block.
fn set(block: &[Option<u32>], place: usize) -> &[Option<u32>]
    requires { place + 1 + size_in block.now place ≤ length block.now }
    ensures { result.now ≡ set_in block.now place }
{
    let len = match block[place] {
        Some(len) => len as usize,
        None => 0,
    };
    &block[place + 1..place + 1 + len]
}

impl KeptSets {
    /// Makes an empty store.
    pub(crate) fn new(alloc: Global) -> KeptSets
        ensures { result ≡ [] }
    {
        KeptSets {
            blocks: Vec::new(alloc),
        }
    }

    /// Returns the set with this identifier.
    pub(crate) fn get(&self, at: u32) -> &[Option<u32>]
        requires { HasSet self.now at }
        ensures { result.now ≡ set_at self.now at }
    {
        let at = at as usize;
        set(&self.blocks[at / SIZE], at % SIZE)
    }

    /// Whether the last block has room for a set of `count` hops.
    fn has_room(&self, count: usize) -> bool
        ensures { IsTrue result → (0 < length self.now) × (length (slice_index_or self.now (length self.now - 1) []) < 512) }
    {
        match self.blocks.last() {
            Some(block) => block.len() < SIZE && count < SIZE - block.len(),
            None => false,
        }
    }

    /// Adds a set in a new block, and returns its identifier.
    fn begin(&mut self, hops: &[Option<u32>]) -> Result<u32, AllocError>
        ensures kept { OnOk result (KeepsSets self.old self.new) }
        ensures here { IfOk result (λ at. HasSet self.new at × (set_at self.new at ≡ hops.now)) }
    {
        let at = number(self.blocks.len(), 0)?;
        let Ok(len) = u32::try_from(hops.len()) else {
            return Err(AllocError);
        };
        let alloc = *self.blocks.allocator();
        let mut block = Vec::with_capacity(alloc, max(SIZE, hops.len()))?;
        block.push(Some(len))?;
        block.extend_from_slice(hops)?;
        self.blocks.push(block)?;
        Ok(at)
    }

    /// Adds a set to the last block, and returns its identifier.
    fn append(&mut self, hops: &[Option<u32>]) -> Result<u32, AllocError>
        requires some { 0 < length self.old }
        requires room { length (slice_index_or self.old (length self.old - 1) []) < 512 }
        ensures kept { OnOk result (KeepsSets self.old self.new) }
        ensures here { IfOk result (λ at. HasSet self.new at × (set_at self.new at ≡ hops.now)) }
    {
        let Ok(len) = u32::try_from(hops.len()) else {
            return Err(AllocError);
        };
        let last = self.blocks.len() - 1;
        let block = &mut self.blocks[last];
        let at = number(last, block.len())?;
        block.push(Some(len))?;
        block.extend_from_slice(hops)?;
        Ok(at)
    }

    /// Adds a set, and returns its identifier.
    pub(crate) fn push(&mut self, hops: &[Option<u32>]) -> Result<u32, AllocError>
        ensures kept { OnOk result (KeepsSets self.old self.new) }
        ensures here { IfOk result (λ at. HasSet self.new at × (set_at self.new at ≡ hops.now)) }
    {
        if self.has_room(hops.len()) {
            self.append(hops)
        } else {
            self.begin(hops)
        }
    }
}
