//! Plans: the best inherited hops of each block, as a sequence of steps.
ghost use Rattle.std.specs.Prelude.{◌≡◌, ◌-◌, ◌<◌, ◌≤◌, ◌^◌, ◌++◌, ◌∷◌, [], List, ℕ, None, Option, Some, Bool, drop, length, IfOk, IfSome, MatchOption, OnOk, not, ◌&&◌};
ghost use Rattle.ipnet_blocks.specs.Blocks.{digits};
ghost use Rattle.least_table.specs.BestHops.{Of, AreMerged, passed_on};
ghost use Rattle.least_table.specs.HopSets.{first_hop, holds, is_same_hop};
ghost use Rattle.least_table.specs.InnerHops.{members};
ghost use Rattle.least_table.specs.InnerPacked.{AreWhole, Grows, IsAlways, IsKeptStep, best_at, best_in, steps_in, stored_step};
ghost use Rattle.least_table.specs.InnerPlanners.{HasPlan};
ghost use Rattle.least_table.specs.InnerPlans.{EndsWithPlan, EndsWithin, IsHeld, JoinsHalves, OfHalf, Stores};
ghost use Rattle.least_table.specs.InnerRising.{IsRising};
ghost use Rattle.least_table.specs.InnerSteps.{AreNetworks, Around, Halves, IsLonger, Step, Whole, cut_in, cut_on, step_best};
ghost use Rattle.least_table.specs.InnerTrees.{LeastPlan, plan_best};
ghost use Rattle.least_table.specs.declared.plan.LowerPlan.TheVariants as held;

use crate::bits::bit;
use crate::hops::{Hops, first, is_among, is_same, merge, others};
use crate::kept_sets::KeptSets;
use crate::routes::Routes;
use crate::skipped_bits::SkippedBits;
use crate::stack::Stack;
use prefix_trie::{Key, Prefix};
use std::alloc::{AllocError, Global};
use std::slice;
use trie_core::Path;

/// The plan of a block, in eight bytes: how it is cut into smaller blocks, and its best inherited hops. A block inherits the hop that
/// the routes outside give its addresses, and needs the fewest routes under its best inherited hops. The step of a block comes after
/// the steps of the smaller blocks that it is cut into.
///
/// A number of levels and their bits are the path from the block to a smaller one. All addresses outside the smaller block have one
/// hop, or none of them has one. Without levels the block is cut into halves, the lower half first.
#[derive(Clone, Copy)]
enum Packed {
    /// All addresses of the block have this hop.
    Leaf(u32),
    /// This hop is best, and that of the addresses outside the smaller block.
    Hop(u8, u16, u32),
    /// No hop is best, and the addresses outside the smaller block have none.
    NoHop(u8, u16),
    /// Both no hop and this hop are best, and the addresses outside the smaller block have none.
    HopOrNone(u8, u16, u32),
    /// The block is cut into halves. The hops of the set with this identifier are best.
    Set(u32),
    /// One half is the smaller block, the upper half if the first field is true. The first hop of the set with this identifier is that
    /// of the other half. The other hops of the set are best.
    Beside(bool, u32),
}

/// How a step cuts its block.
#[derive(Drop)]
enum Cut {
    /// It doesn't cut the block.
    Whole,
    /// Into halves, the lower first.
    Halves,
    /// Into the smaller block on this path, and the addresses around it, which have this hop.
    Around(SkippedBits, Option<u32>),
}

/// How a step with this path cuts its block.
fn cut_on(levels: u8, bits: u16, outside: Option<u32>) -> Cut
    requires most { levels ≤ 16 }
    requires fits { bits < 2 ^ levels }
    ensures { (hops : List (Option ℕ)) → result ≡ cut_in (cut_on (digits levels bits) outside hops) }
{
    if levels == 0 {
        Cut::Halves
    } else {
        Cut::Around(SkippedBits::of(levels, bits), outside)
    }
}

/// The step of a block that is cut on this path, if this hop is best and that of the addresses outside the smaller block.
fn one_best(turns: SkippedBits, hop: Option<u32>) -> Packed
    ensures { IsAlways result (cut_on turns hop (hop ∷ [])) }
{
    match hop {
        Some(hop) => Packed::Hop(turns.levels, turns.bits, hop),
        None => Packed::NoHop(turns.levels, turns.bits),
    }
}

/// Whether a half needs a route of its own: if it is outside the smaller block, and inherits another hop than its addresses have.
fn needs_route(inherited: Option<u32>, hop: Option<u32>, is_outside: bool) -> bool
    ensures { result ≡ (not (is_same_hop inherited hop) && is_outside) }
{
    !is_same(inherited, hop) && is_outside
}

/// The plan of a lower half.
#[derive(Clone, Copy)]
pub(crate) enum LowerPlan {
    /// All addresses of the half have this hop, and its plan has no step.
    Leaf(u32),
    /// The index of the plan's last step.
    At(usize),
}

/// The best inherited hops of a block, ascending.
#[derive(Drop)]
enum Best<'a> {
    /// One hop.
    One(Option<u32>),
    /// Two hops.
    Two([Option<u32>; 2]),
    /// Any number of hops.
    Several(&'a [Option<u32>]),
}

impl<'a> Best<'a> {
    /// Returns the hops, ascending.
    fn as_slice(&self) -> &[Option<u32>]
        ensures { result.now ≡ best_in self.now }
    {
        match self {
            Best::One(hop) => slice::from_ref(hop),
            Best::Two(hops) => hops,
            Best::Several(hops) => hops,
        }
    }
}

/// The steps of a plan.
#[derive(Drop)]
pub(crate) struct Steps {
    steps: Stack<Packed, 512>,
    /// The sets of several hops.
    sets: KeptSets,
}

impl Steps {
    /// Makes a plan without steps.
    pub(crate) fn new(alloc: Global) -> Steps
        ensures steps { steps_in result ≡ [] }
        ensures whole { AreWhole result }
    {
        Steps {
            steps: Stack::new(alloc),
            sets: KeptSets::new(alloc),
        }
    }

    /// The number of steps.
    fn len(&self) -> usize
        ensures { result ≡ length (steps_in self.now) }
    {
        self.steps.len()
    }

    /// Appends a step.
    fn push(&mut self, step: Packed) -> Result<(), AllocError>
        requires whole { AreWhole self.old }
        requires kept { IsKeptStep self.old.sets step }
        ensures { OnOk result (Grows self.old self.new (stored_step self.old.sets step ∷ [])) }
    {
        self.steps.push(step)
    }

    /// Appends the step of a block whose addresses all have this hop.
    pub(crate) fn push_leaf(&mut self, hop: u32) -> Result<(), AllocError>
        requires { AreWhole self.old }
        ensures { OnOk result (Grows self.old self.new (Whole hop ∷ [])) }
    {
        self.push(Packed::Leaf(hop))
    }

    /// Removes the last step, and returns its hop, if all addresses of its block have one hop.
    fn pop_leaf(&mut self) -> Option<u32>
        requires { AreWhole self.old }
        ensures { MatchOption result (self.new ≡ self.old) (λ hop. (steps_in self.old ≡ steps_in self.new ++ Whole hop ∷ []) × AreWhole self.new) }
    {
        let hop = match self.steps.last() {
            Some(Packed::Leaf(hop)) => *hop,
            _ => return None,
        };
        self.steps.pop();
        Some(hop)
    }

    /// Appends the step of a block that is cut into halves; the hops of this set are best.
    fn push_set(&mut self, hops: &[Option<u32>]) -> Result<(), AllocError>
        requires { AreWhole self.old }
        ensures { OnOk result (Grows self.old self.new (Halves hops.now ∷ [])) }
    {
        let at = self.sets.push(hops)?;
        self.steps.push(Packed::Set(at))
    }

    /// Appends the step of a block that is cut into halves; these hops are best.
    fn push_halves(&mut self, hops: &[Option<u32>]) -> Result<(), AllocError>
        requires { AreWhole self.old }
        ensures { OnOk result (Grows self.old self.new (Halves hops.now ∷ [])) }
    {
        match hops {
            [Some(hop)] => self.push(Packed::Hop(0, 0, *hop)),
            [None] => self.push(Packed::NoHop(0, 0)),
            [None, Some(hop)] => self.push(Packed::HopOrNone(0, 0, *hop)),
            _ => self.push_set(hops),
        }
    }

    /// Appends the step of a block. The last step is that of one half, and the first hop of the set is that of the other half. The other
    /// hops of the set are best.
    fn push_beside(&mut self, is_upper: bool, set: &[Option<u32>]) -> Result<(), AllocError>
        requires { AreWhole self.old }
        ensures { OnOk result (Grows self.old self.new (Around (is_upper ∷ []) (first_hop set.now) (drop 1 set.now) ∷ [])) }
    {
        let at = self.sets.push(set)?;
        self.steps.push(Packed::Beside(is_upper, at))
    }

    /// Appends the step of a block. The last step is that of the upper half if `is_upper`, else of the lower half. The other half has this
    /// hop. The hops of the list are best.
    fn push_half(
        &mut self,
        alloc: Global,
        is_upper: bool,
        hop: Option<u32>,
        hops: &[Option<u32>],
    ) -> Result<(), AllocError>
        requires { AreWhole self.old }
        ensures { OnOk result (Grows self.old self.new (Around (is_upper ∷ []) hop hops.now ∷ [])) }
    {
        if let (None, [None, Some(other)]) = (hop, hops) {
            return self.push(Packed::HopOrNone(1, u16::from(is_upper), *other));
        }
        if let [first, second] = hops {
            return self.push_beside(is_upper, &[hop, *first, *second]);
        }
        let mut set = Vec::with_capacity(alloc, hops.len())?;
        set.push(hop)?;
        set.extend_from_slice(hops)?;
        self.push_beside(is_upper, &set)
    }

    /// The best inherited hops of the block of a step.
    fn best(&self, step: Packed) -> Best<'_>
        requires { IsKeptStep self.now.sets step }
        ensures { best_in result ≡ step_best (stored_step self.now.sets step) }
    {
        match step {
            Packed::Leaf(hop) | Packed::Hop(_, _, hop) => Best::One(Some(hop)),
            Packed::NoHop(_, _) => Best::One(None),
            Packed::HopOrNone(_, _, hop) => Best::Two([None, Some(hop)]),
            Packed::Set(at) => Best::Several(self.sets.get(at)),
            Packed::Beside(_, at) => Best::Several(others(self.sets.get(at))),
        }
    }

    /// How a step cuts its block.
    fn cut(&self, step: Packed) -> Cut
        requires { IsKeptStep self.now.sets step }
        ensures { result ≡ cut_in (stored_step self.now.sets step) }
    {
        match step {
            Packed::Leaf(_) => Cut::Whole,
            Packed::Hop(levels, bits, hop) => cut_on(levels, bits, Some(hop)),
            Packed::NoHop(levels, bits) | Packed::HopOrNone(levels, bits, _) => {
                cut_on(levels, bits, None)
            }
            Packed::Set(_) => Cut::Halves,
            Packed::Beside(is_upper, at) => {
                Cut::Around(SkippedBits::one(is_upper), first(self.sets.get(at)))
            }
        }
    }

    /// The best inherited hops of a block whose halves have the steps at these indices.
    fn merged(&self, alloc: Global, low: usize, high: usize) -> Result<Hops, AllocError>
        requires whole { AreWhole self.now }
        requires low { low < length (steps_in self.now) }
        requires high { high < length (steps_in self.now) }
        requires low_rises { IsRising (best_at self.now low) }
        requires high_rises { IsRising (best_at self.now high) }
        ensures merged { IfOk result (λ hops. AreMerged (Of (best_at self.now low)) (Of (best_at self.now high)) (Of (members hops))) }
        ensures rising { IfOk result (λ hops. IsRising (members hops)) }
    {
        let below = self.best(*self.steps.get(low));
        let above = self.best(*self.steps.get(high));
        merge(alloc, below.as_slice(), above.as_slice())
    }

    /// Combines the plans of both halves of a block into one plan. The last step of the lower half's plan is at index `low`, and that of
    /// the upper half's plan is the last step.
    fn fork(&mut self, alloc: Global, low: usize) -> Result<(), AllocError>
        requires { (xs : List Step) × (ys : List Step) × (p : LeastPlan) × (q : LeastPlan) × IsHeld (held.At low) p xs ys × IsRising (plan_best p) × EndsWithPlan ys q self.old }
        ensures { OnOk result ((xs : List Step) (ys : List Step) (p : LeastPlan) (q : LeastPlan) → IsHeld (held.At low) p xs ys → IsRising (plan_best p) → EndsWithPlan ys q self.old → (r : LeastPlan) × JoinsHalves p q r × EndsWithPlan xs r self.new) }
    {
        let high = self.len() - 1;
        let hops = self.merged(alloc, low, high)?;
        self.push_halves(hops.as_slice())
    }

    /// The path from the parent of a block with this step to the smaller block of the step, if the addresses around that have this hop.
    /// `None` if that isn't so, or if the path would have too many levels.
    fn longer(&self, step: Packed, is_upper: bool, hop: Option<u32>) -> Option<SkippedBits>
        requires { IsKeptStep self.now.sets step }
        ensures { IfSome result (λ turns. IsLonger is_upper hop (stored_step self.now.sets step) turns) }
    {
        match self.cut(step) {
            Cut::Around(turns, outside) if is_same(outside, hop) => turns.from_above(is_upper),
            _ => None,
        }
    }

    /// Makes the plan of one half of a block, the upper half if `is_upper`, the plan of the block. Its other half has this hop.
    fn widen(&mut self, alloc: Global, is_upper: bool, hop: Option<u32>) -> Result<(), AllocError>
        requires { (xs : List Step) × (p : LeastPlan) × EndsWithPlan xs p self.old }
        ensures { OnOk result ((xs : List Step) (p : LeastPlan) → EndsWithPlan xs p self.old → (r : LeastPlan) × OfHalf is_upper hop p r × EndsWithPlan xs r self.new) }
    {
        let Some(last) = self.steps.last() else {
            return Ok(());
        };
        let last = *last;
        if let Some(turns) = self.longer(last, is_upper, hop) {
            self.steps.pop();
            return self.push(one_best(turns, hop));
        }
        let best = self.best(last);
        if is_among(best.as_slice(), hop) {
            return self.push(one_best(SkippedBits::one(is_upper), hop));
        }
        let hops = merge(alloc, &[hop], best.as_slice())?;
        self.push_half(alloc, is_upper, hop, hops.as_slice())
    }

    /// Makes the plan of the block of the first `from` bits of a path, which is the last one, the plan of the block of its first `to`
    /// bits. No other address of this block has a hop.
    pub(crate) fn ascend(
        &mut self,
        alloc: Global,
        path: &Path,
        from: u8,
        to: u8,
    ) -> Result<(), AllocError>
        requires short { length path.now ≤ 128 }
        requires inside { from ≤ length path.now }
        requires order { to ≤ from }
        requires plans { (w : ℕ) × (length path.now ≤ w) × (ps : List (List Bool × ℕ)) × (xs : List Step) × HasPlan w path.now from ps xs self.old }
        ensures { OnOk result ((w : ℕ) (ps : List (List Bool × ℕ)) (xs : List Step) → length path.now ≤ w → HasPlan w path.now from ps xs self.old → HasPlan w path.now to ps xs self.new) }
    {
        let mut at = from;
        while at > to {
            at -= 1;
            self.widen(alloc, bit(path, at), None)?;
        }
        Ok(())
    }

    /// Returns the last plan. If all addresses of its block have one hop, its step is removed.
    pub(crate) fn take_lower(&mut self) -> LowerPlan
        requires { (xs : List Step) × (p : LeastPlan) × EndsWithPlan xs p self.old }
        ensures { (xs : List Step) (p : LeastPlan) → EndsWithPlan xs p self.old → IsHeld result p xs (steps_in self.new) × AreWhole self.new }
    {
        match self.pop_leaf() {
            Some(hop) => LowerPlan::Leaf(hop),
            None => LowerPlan::At(self.len() - 1),
        }
    }

    /// Combines the plans of both halves of a block into one plan. That of the upper half is the last one.
    pub(crate) fn join(&mut self, alloc: Global, low: LowerPlan) -> Result<(), AllocError>
        requires { (xs : List Step) × (ys : List Step) × (p : LeastPlan) × (q : LeastPlan) × IsHeld low p xs ys × IsRising (plan_best p) × EndsWithPlan ys q self.old }
        ensures { OnOk result ((xs : List Step) (ys : List Step) (p : LeastPlan) (q : LeastPlan) → IsHeld low p xs ys → IsRising (plan_best p) → EndsWithPlan ys q self.old → (r : LeastPlan) × JoinsHalves p q r × EndsWithPlan xs r self.new) }
    {
        match low {
            LowerPlan::Leaf(hop) => self.widen(alloc, true, Some(hop)),
            LowerPlan::At(low) => match self.pop_leaf() {
                Some(hop) => self.widen(alloc, false, Some(hop)),
                None => self.fork(alloc, low),
            },
        }
    }

    /// The hop that a block passes on to its parts if it inherits the hop `inherited`, and whether it needs a route for that.
    fn choice(&self, step: Packed, inherited: Option<u32>) -> (Option<u32>, bool)
        requires { IsKeptStep self.now.sets step }
        ensures hop { result.0 ≡ passed_on (Of (step_best (stored_step self.now.sets step))) inherited }
        ensures route { result.1 ≡ not (holds (step_best (stored_step self.now.sets step)) inherited) }
    {
        let best = self.best(step);
        if is_among(best.as_slice(), inherited) {
            (inherited, false)
        } else {
            (first(best.as_slice()), true)
        }
    }

    /// Removes the steps of the plan of the block at `path`, which inherits the hop `inherited`, and adds its routes before the others.
    pub(crate) fn take<P: Prefix + Copy>(
        &mut self,
        path: &Path,
        inherited: Option<u32>,
        routes: &mut Routes<P>,
    ) -> Result<(), AllocError>
        requires short { P.R.width ≤ 128 }
        requires inside { length path.now ≤ P.R.width }
        requires plan { (xs : List Step) × (p : LeastPlan) × EndsWithin (P.R.width - length path.now) xs p self.old }
        ensures stores { OnOk result ((xs : List Step) (p : LeastPlan) → EndsWithin (P.R.width - length path.now) xs p self.old → Stores P.bits path.now inherited xs p routes.old routes.new self.old self.new) }
        ensures networks { OnOk result (AreNetworks P.fits P.of_bits P.bits routes.old → AreNetworks P.fits P.of_bits P.bits routes.new) }
    {
        let Some(step) = self.steps.pop() else {
            return Ok(());
        };
        let (hop, is_new) = self.choice(step, inherited);
        match self.cut(step) {
            Cut::Whole => routes.add_own(path, hop, is_new),
            Cut::Halves => {
                self.take(&path.extended(true), hop, routes)?;
                self.take(&path.extended(false), hop, routes)?;
                routes.add_own(path, hop, is_new)
            }
            Cut::Around(turns, other) => {
                let is_upper = turns.turn(0);
                let above = needs_route(hop, other, !is_upper);
                let below = needs_route(hop, other, is_upper);
                routes.add_own(&path.extended(true), other, above)?;
                self.take(&turns.onward(path), hop, routes)?;
                routes.add_own(&path.extended(false), other, below)?;
                routes.add_own(path, hop, is_new)
            }
        }
    }
}
