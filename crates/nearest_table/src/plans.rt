//! Plans of blocks: the edits of the installed routes inside that give each address its new hop.
ghost use Rattle.std.specs.Prelude.{◌≡◌, ◌-◌, ◌+◌, ◌≤◌, ◌++◌, ℕ, length, IfOk, IfSome, MatchOption, OnOk};
ghost use Rattle.nearest_table.specs.Changed.{AreInside, MakeNearest};
ghost use Rattle.least_table.specs.Orders.{IsInOrder};
ghost use Rattle.nearest_table.specs.InnerPlans.{Fits, HasMore, IsFork, IsTold, IsJoined, Plans, owned_tree, tree_of};
ghost use Rattle.nearest_table.specs.Plans.{tree_best, edits_of};
ghost use Rattle.least_table.specs.BestHops.{passed_on};
ghost use Rattle.nearest_table.specs.Settled.{passed_by, settled, settled_held};
ghost use Rattle.least_table.specs.Tables.{IsBitTable, own, passed, within};
ghost use Rattle.nearest_table.specs.Blocks.{inner, innermost_route};
ghost use Rattle.nearest_table.specs.Wanted.{Rises, hops_from};
ghost use Rattle.nearest_table.specs.declared.plans.Plan as Plan;

use crate::hops::{Wanted, first_wanted, is_wanted, merge};
use crate::tables::{Installed, Table};
use least_table::hops::is_same;
use std::alloc::{AllocError, Global};
use std::slice;
use trie_core::Path;

/// The edits in a block, for any hop that it inherits.
#[derive(Drop)]
pub enum Plan {
    /// The routes stay, whatever the block inherits.
    Idle,
    /// The routes stay if the block inherits this hop.
    One(Option<u32>),
    /// The block has no route. It is cut into halves; these are its best inherited hops.
    Fork(Wanted, Box<Plan>, Box<Plan>),
    /// The block has a route of this hop; the plan is that without the route.
    Held(Option<u32>, Box<Plan>),
}

/// Adds the edit of a block without a route, if it needs one. These are its best inherited hops. Returns the hop that its halves
/// inherit.
fn settle(
    edits: &mut Vec<(Path, Option<Option<u32>>)>,
    block: &Path,
    hops: Option<&[Option<u32>]>,
    inherited: Option<u32>,
) -> Result<Option<u32>, AllocError>
    ensures { IfOk result (λ passed. (passed ≡ passed_on (hops_from hops.entry) inherited) × (edits.new.items ≡ edits.old.items ++ settled block.now (hops_from hops.entry) inherited)) }
{
    if is_wanted(hops, inherited) {
        return Ok(inherited);
    }
    let hop = first_wanted(hops);
    edits.push((block.clone()?, Some(hop)))?;
    Ok(hop)
}

/// Adds the edit of a block with a route of this hop, if it needs one. These are its best inherited hops without the route. Returns the
/// hop that its halves inherit.
fn settle_held(
    edits: &mut Vec<(Path, Option<Option<u32>>)>,
    block: &Path,
    hop: Option<u32>,
    hops: Option<&[Option<u32>]>,
    inherited: Option<u32>,
) -> Result<Option<u32>, AllocError>
    ensures { IfOk result (λ passed. (passed ≡ passed_by hop (hops_from hops.entry) inherited) × (edits.new.items ≡ edits.old.items ++ settled_held block.now hop (hops_from hops.entry) inherited)) }
{
    if is_wanted(hops, hop) {
        return Ok(hop);
    }
    if is_wanted(hops, inherited) {
        edits.push((block.clone()?, None))?;
        return Ok(inherited);
    }
    let other = first_wanted(hops);
    edits.push((block.clone()?, Some(other)))?;
    Ok(other)
}

impl Plan {
    /// The best inherited hops of the block; any hop is best if there is no list.
    fn best(&self) -> Option<&[Option<u32>]>
        ensures { hops_from result ≡ tree_best (tree_of self.now) }
    {
        match self {
            Plan::One(hop) => Some(slice::from_ref(hop)),
            Plan::Fork(Wanted::These(hops), _, _) => Some(hops.as_slice()),
            Plan::Fork(Wanted::Any, _, _) | Plan::Held(_, _) | Plan::Idle => None,
        }
    }

    /// Adds the edits of the block if it inherits the hop `inherited`.
    pub(crate) fn carry(
        &self,
        block: &Path,
        inherited: Option<u32>,
        edits: &mut Vec<(Path, Option<Option<u32>>)>,
    ) -> Result<(), AllocError>
        requires { (w : ℕ) × (length block.now + w ≤ 128) × Fits w (tree_of self.now) }
        ensures { OnOk result (edits.new.items ≡ edits.old.items ++ within block.now (edits_of (tree_of self.now) inherited)) }
    {
        match self {
            Plan::Idle | Plan::One(_) => {
                settle(edits, block, self.best(), inherited)?;
                Ok(())
            }
            Plan::Fork(_, low, high) => {
                let passed = settle(edits, block, self.best(), inherited)?;
                low.carry(&block.extended(false), passed, edits)?;
                high.carry(&block.extended(true), passed, edits)
            }
            Plan::Held(hop, plan) => {
                let passed = settle_held(edits, block, *hop, plan.best(), inherited)?;
                plan.carry(block, passed, edits)
            }
        }
    }
}

/// The plan of a block without a route, if its routes stay, by the plans of its halves.
fn stay(low: &Plan, high: &Plan) -> Option<Plan>
    ensures { IfSome result (IsJoined (tree_of low.now) (tree_of high.now)) }
{
    match (low, high) {
        (Plan::Idle, Plan::Idle) => Some(Plan::Idle),
        (Plan::One(hop), Plan::Idle) => Some(Plan::One(*hop)),
        (Plan::Idle, Plan::One(hop)) => Some(Plan::One(*hop)),
        (Plan::One(hop), Plan::One(other)) => one(*hop, *other),
        _ => None,
    }
}

/// The same if each half has one best inherited hop.
fn one(low: Option<u32>, high: Option<u32>) -> Option<Plan>
    ensures { IfSome result (λ p. (low ≡ high) × (p ≡ Plan.One low)) }
{
    if is_same(low, high) {
        Some(Plan::One(low))
    } else {
        None
    }
}

/// The plan that cuts a block into halves with these plans.
fn fork(alloc: Global, low: Plan, high: Plan) -> Result<Plan, AllocError>
    requires low_rises { Rises (tree_best (tree_of low)) }
    requires high_rises { Rises (tree_best (tree_of high)) }
    ensures { IfOk result (λ p. IsFork low high p) }
{
    let hops = merge(alloc, low.best(), high.best())?;
    let low = Box::new(alloc, low)?;
    let high = Box::new(alloc, high)?;
    Ok(Plan::Fork(hops, low, high))
}

/// The plan of a block without a route, by the plans of its halves.
fn join(alloc: Global, low: Plan, high: Plan) -> Result<Plan, AllocError>
    requires low_rises { Rises (tree_best (tree_of low)) }
    requires high_rises { Rises (tree_best (tree_of high)) }
    ensures { IfOk result (IsJoined (tree_of low) (tree_of high)) }
{
    match stay(&low, &high) {
        Some(plan) => Ok(plan),
        None => fork(alloc, low, high),
    }
}

/// The plan of a block with this route, if any, by the plan without it.
fn owned(alloc: Global, own: Option<Option<u32>>, plan: Plan) -> Result<Plan, AllocError>
    ensures { IfOk result (λ p. tree_of p ≡ owned_tree own (tree_of plan)) }
{
    match own {
        None => Ok(plan),
        Some(hop) => Ok(Plan::Held(hop, Box::new(alloc, plan)?)),
    }
}

/// The plan of a block that needs no cut, or none if it must be cut. A block with a change strictly inside is cut. One whose addresses get
/// a new hop is cut if it has a route strictly inside. `told` is the hop of the longest change that contains the block, if there is one,
/// and `held` that of its route.
fn end<I: Installed, C: Table>(
    alloc: Global,
    installed: &I,
    changes: &C,
    block: &Path,
    old: Option<u32>,
    told: Option<Option<u32>>,
    held: Option<Option<u32>>,
) -> Result<Option<Plan>, AllocError>
    requires same { C.width ≡ I.width }
    requires short { I.width ≤ 128 }
    requires fits { length block.now ≤ I.width }
    requires installed { IsBitTable (I.width - length block.now) (inner block.now (I.routes installed.now)) }
    requires changes { IsBitTable (I.width - length block.now) (inner block.now (C.routes changes.now)) }
    requires told { IsTold told (inner block.now (C.routes changes.now)) }
    requires held { held ≡ own (inner block.now (I.routes installed.now)) }
    ensures { IfOk result (λ o. MatchOption o (HasMore (inner block.now (C.routes changes.now)) (inner block.now (I.routes installed.now))) (Plans (I.width - length block.now) told old (inner block.now (C.routes changes.now)) (inner block.now (I.routes installed.now)))) }
{
    if !changes.is_leaf(block) {
        return Ok(None);
    }
    let Some(hop) = told else {
        if held.is_some() || installed.is_covered(block) {
            return Ok(Some(Plan::Idle));
        }
        return Ok(Some(Plan::One(old)));
    };
    if !installed.is_leaf(block) {
        return Ok(None);
    }
    let plan = owned(alloc, held, Plan::One(hop))?;
    Ok(Some(plan))
}

/// The plan of a block that inherits the hop `old` from the installed routes around it. `told` is the hop of the longest change around
/// it, if there is one.
fn make_plan<I: Installed, C: Table>(
    alloc: Global,
    installed: &I,
    changes: &C,
    block: &Path,
    old: Option<u32>,
    told: Option<Option<u32>>,
) -> Result<Plan, AllocError>
    requires same { C.width ≡ I.width }
    requires short { I.width ≤ 128 }
    requires fits { length block.now ≤ I.width }
    requires installed { IsBitTable (I.width - length block.now) (inner block.now (I.routes installed.now)) }
    requires changes { IsBitTable (I.width - length block.now) (inner block.now (C.routes changes.now)) }
    ensures { IfOk result (Plans (I.width - length block.now) told old (inner block.now (C.routes changes.now)) (inner block.now (I.routes installed.now))) }
{
    let here = innermost(told, changes.own(block));
    let held = installed.own(block);
    if let Some(plan) = end(alloc, installed, changes, block, old, here, held)? {
        return Ok(plan);
    }
    let passed = hop_or(held, old);
    let low = make_plan(
        alloc,
        installed,
        changes,
        &block.extended(false),
        passed,
        here,
    )?;
    let high = make_plan(
        alloc,
        installed,
        changes,
        &block.extended(true),
        passed,
        here,
    )?;
    let plan = join(alloc, low, high)?;
    owned(alloc, held, plan)
}

/// The hop of the inner one of two routes, if there is one.
fn innermost(outer: Option<Option<u32>>, inner: Option<Option<u32>>) -> Option<Option<u32>>
    ensures { result ≡ innermost_route outer inner }
{
    match inner {
        Some(hop) => Some(hop),
        None => outer,
    }
}

/// The hop of the route, or the other hop if there is no route.
fn hop_or(route: Option<Option<u32>>, other: Option<u32>) -> Option<u32>
    ensures { result ≡ passed other route }
{
    match route {
        Some(hop) => hop,
        None => other,
    }
}

/// Returns the edits that turn the installed table into a nearest one with the new hops. An edit is a block with the hop to install, or
/// with none if its route is removed. The blocks to install ascend, and so do those whose routes are removed. Each address gets the hop
/// of the longest change that contains it, and keeps its old hop if none does. No fewer edits do this. All changes must be inside the
/// block, the installed routes must ascend, and the addresses of both have one width, at most 128 bits.
///
/// # Errors
/// `AllocError` if an allocation fails.
pub fn nearest<I: Installed, C: Table>(
    alloc: Global,
    installed: &I,
    changes: &C,
    block: &Path,
) -> Result<Vec<(Path, Option<Option<u32>>)>, AllocError>
    requires same { C.width ≡ I.width }
    requires short { I.width ≤ 128 }
    requires fits { length block.now ≤ I.width }
    requires installed { IsBitTable I.width (I.routes installed.now) }
    requires order { IsInOrder (I.routes installed.now) }
    requires changes { IsBitTable I.width (C.routes changes.now) }
    requires inside { AreInside I.width block.now (C.routes changes.now) }
    ensures { IfOk result (λ edits. MakeNearest I.width (C.routes changes.now) (I.routes installed.now) edits.items) }
{
    let old = hop_or(installed.around(block), None);
    let told = changes.around(block);
    let plan = make_plan(alloc, installed, changes, block, old, told)?;
    let mut edits = Vec::new(alloc);
    plan.carry(block, old, &mut edits)?;
    Ok(edits)
}
