//! The plan of a sequence of pieces.
ghost use Rattle.std.specs.Prelude.{◌≡◌, ◌≤◌, ◌++◌, ◌∷◌, [], ℕ, AllPairs, Bool, IfOk, IsTrue, List, MatchOption, OnOk, length, reverse, true};
ghost use Rattle.std.specs.declared.cmp.Ordering.TheVariants.{Less};
ghost use Rattle.ipnet_blocks.specs.BitStrings.{bits_cmp};
ghost use Rattle.least_table.specs.Pieces.{AreDisjoint, piece_hop, strings};
ghost use Rattle.least_table.specs.Tables.{IsLeastTable};
ghost use Rattle.least_table.specs.InnerPacked.{AreWhole, steps_in};
ghost use Rattle.least_table.specs.InnerPieces.{before};
ghost use Rattle.least_table.specs.InnerSteps.{AreNetworks};
ghost use Rattle.least_table.specs.InnerPlanners.{AreLowers, ArePlanned, HasPlanned, IsDeeper};

use crate::bits::common;
use crate::plan::{LowerPlan, Steps};
use crate::routes::Routes;
use prefix_trie::{Key, Prefix, path_of};
use std::alloc::{AllocError, Global};
use std::marker::PhantomData;
use trie_core::Path;

/// A planned lower half. The upper half beside it has pieces too, and isn't planned yet.
#[derive(Clone, Copy)]
struct Lower {
    /// The length of the block that has these halves.
    depth: u8,
    /// The plan of the lower half.
    planned: LowerPlan,
}

/// Removes and returns the innermost lower half, if its block has at least `depth` bits.
fn innermost(lowers: &mut Vec<Lower>, depth: u8) -> Option<Lower>
    ensures { MatchOption result ((lowers.new ≡ lowers.old) × IsDeeper depth (reverse lowers.old.items)) (λ o. (depth ≤ o.depth) × (lowers.old.items ≡ lowers.new.items ++ o ∷ [])) }
{
    match lowers.as_slice() {
        [.., lower] if lower.depth >= depth => lowers.pop(),
        _ => None,
    }
}

/// The plan of pieces, which are blocks with a hop each. They come in ascending order, and no block is inside another. The pieces
/// aren't stored: a step of the plan takes eight bytes, and there is about one step for each piece.
#[derive(Drop)]
pub struct Planner<P: Copy> {
    steps: Steps,
    lowers: Vec<Lower>,
    last: Option<Path>,
    blocks: PhantomData<P>,
}

impl<P: Prefix + Copy> Planner<P> {
    /// Makes a plan without pieces. Does not allocate.
    pub fn new(alloc: Global) -> Planner<P>
        ensures { HasPlanned P.R.width result [] }
    {
        Planner {
            steps: Steps::new(alloc),
            lowers: Vec::new(alloc),
            last: None,
            blocks: PhantomData,
        }
    }

    /// Plans the block of the first `depth` bits of the path of the last piece; no more pieces are inside it.
    fn close(&mut self, path: &Path, depth: u8) -> Result<(), AllocError>
        requires width { length path.now ≤ P.R.width }
        requires short { P.R.width ≤ 128 }
        requires inside { depth ≤ length path.now }
        requires planned { (ps : List (List Bool × ℕ)) × ArePlanned P.R.width path.now (length path.now) (length path.now) ps self.old.lowers.items self.old.steps }
        ensures { OnOk result ((ps : List (List Bool × ℕ)) → ArePlanned P.R.width path.now (length path.now) (length path.now) ps self.old.lowers.items self.old.steps → ArePlanned P.R.width path.now depth depth ps self.new.lowers.items self.new.steps) }
    {
        let alloc = *self.lowers.allocator();
        let mut from = path.len();
        while let Some(lower) = innermost(&mut self.lowers, depth) {
            self.steps.ascend(alloc, path, from, lower.depth + 1)?;
            self.steps.join(alloc, lower.planned)?;
            from = lower.depth;
        }
        self.steps.ascend(alloc, path, from, depth)
    }

    /// Plans the lower half that contains the last piece; the next piece is in the upper half beside it.
    fn turn(&mut self, last: &Path, path: &Path) -> Result<(), AllocError>
        requires width { length last.now ≤ P.R.width }
        requires other_width { length path.now ≤ P.R.width }
        requires short { P.R.width ≤ 128 }
        requires before { before last.now path.now ≡ true }
        requires planned { (ps : List (List Bool × ℕ)) × ArePlanned P.R.width last.now (length last.now) (length last.now) ps self.old.lowers.items self.old.steps }
        ensures { OnOk result ((ps : List (List Bool × ℕ)) → ArePlanned P.R.width last.now (length last.now) (length last.now) ps self.old.lowers.items self.old.steps → AreLowers P.R.width (reverse self.new.lowers.items) path.now (length path.now) ps (steps_in self.new.steps) × AreWhole self.new.steps) }
    {
        let depth = common(last, path);
        self.close(last, depth + 1)?;
        let planned = self.steps.take_lower();
        self.lowers.push(Lower { depth, planned })?;
        Ok(())
    }

    /// Prepares for a piece at `path`, which comes after all others.
    fn begin(&mut self, path: &Path) -> Result<(), AllocError>
        requires width { length path.now ≤ P.R.width }
        requires after { (ps : List (List Bool × ℕ)) × (hop : ℕ) × HasPlanned P.R.width self.old ps × AreDisjoint (ps ++ (path.now, hop) ∷ []) }
        ensures { OnOk result ((ps : List (List Bool × ℕ)) (hop : ℕ) → HasPlanned P.R.width self.old ps → AreDisjoint (ps ++ (path.now, hop) ∷ []) → AreLowers P.R.width (reverse self.new.lowers.items) path.now (length path.now) ps (steps_in self.new.steps) × AreWhole self.new.steps) }
    {
        let _width = <P::R as Key>::width();
        match self.last.take() {
            Some(last) => self.turn(&last, path),
            None => Ok(()),
        }
    }

    /// Adds a piece: a block after all others, with its hop.
    ///
    /// # Errors
    /// `AllocError` if an allocation fails; the plan is then unusable.
    pub fn push(&mut self, block: &P, hop: u32) -> Result<(), AllocError>
        requires fits { IsTrue (P.fits block.now) }
        requires after { (ps : List (List Bool × ℕ)) × HasPlanned P.R.width self.old ps × AreDisjoint (ps ++ (P.bits block.now, hop) ∷ []) }
        ensures { OnOk result ((ps : List (List Bool × ℕ)) → HasPlanned P.R.width self.old ps → AreDisjoint (ps ++ (P.bits block.now, hop) ∷ []) → HasPlanned P.R.width self.new (ps ++ (P.bits block.now, hop) ∷ [])) }
    {
        let path = path_of(block);
        self.begin(&path)?;
        self.steps.push_leaf(hop)?;
        self.last = Some(path);
        Ok(())
    }

    /// The routes of a least table; `last` is the path of the last piece.
    fn routes(&mut self, last: &Path) -> Result<Routes<P>, AllocError>
        requires width { length last.now ≤ P.R.width }
        requires planned { (ps : List (List Bool × ℕ)) × ArePlanned P.R.width last.now (length last.now) (length last.now) ps self.old.lowers.items self.old.steps }
        ensures networks { IfOk result (λ table. AreNetworks P.fits P.of_bits P.bits table) }
        ensures ordered { IfOk result (λ table. AllPairs (λ r s. bits_cmp r.0 s.0 ≡ Less) (strings P.bits table)) }
        ensures least { IfOk result (λ table. (ps : List (List Bool × ℕ)) → ArePlanned P.R.width last.now (length last.now) (length last.now) ps self.old.lowers.items self.old.steps → IsLeastTable P.R.width (piece_hop ps) (strings P.bits table)) }
    {
        let _width = <P::R as Key>::width();
        self.close(last, 0)?;
        let mut routes = Routes::new(*self.lowers.allocator());
        self.steps.take(&Path::new(0, 0), None, &mut routes)?;
        Ok(routes)
    }

    /// Returns the routes, ascending, of a table in which each address has the hop of its piece. No such table has fewer routes. `None`
    /// is `drop`. The memory of the plan is freed while the routes are made.
    ///
    /// # Errors
    /// `AllocError` if an allocation fails.
    pub fn into_routes(self) -> Result<Routes<P>, AllocError>
        requires { (ps : List (List Bool × ℕ)) × HasPlanned P.R.width self ps }
        ensures networks { IfOk result (λ table. AreNetworks P.fits P.of_bits P.bits table) }
        ensures ordered { IfOk result (λ table. AllPairs (λ r s. bits_cmp r.0 s.0 ≡ Less) (strings P.bits table)) }
        ensures least { IfOk result (λ table. (ps : List (List Bool × ℕ)) → HasPlanned P.R.width self ps → IsLeastTable P.R.width (piece_hop ps) (strings P.bits table)) }
    {
        let mut left = self;
        match left.last.take() {
            Some(last) => left.routes(&last),
            None => Ok(Routes::new(*left.lowers.allocator())),
        }
    }
}
