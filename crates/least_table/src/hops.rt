//! Sets of hops, as ascending lists: no hop first, and then numbers.
ghost use Rattle.std.specs.Prelude.{◌≡◌, ◌∷◌, [], drop, IfOk};
ghost use Rattle.least_table.specs.BestHops.{Of, AreMerged};
ghost use Rattle.least_table.specs.HopSets.{is_same_hop, holds, first_hop};
ghost use Rattle.least_table.specs.InnerHops.{members};
ghost use Rattle.least_table.specs.InnerRising.{is_less, IsRising, AreCommon, AreAll};

use std::alloc::{AllocError, Global};
use std::slice;

/// A set of hops. A set of one or two hops needs no allocation.
#[derive(Drop)]
pub enum Hops {
    /// The set of one hop.
    One(Option<u32>),
    /// The set of two hops, ascending.
    Two([Option<u32>; 2]),
    /// The set of these hops, ascending.
    Many(Vec<Option<u32>>),
}

impl Hops {
    /// Makes the set of these hops, which must ascend.
    pub(crate) fn new(hops: Vec<Option<u32>>) -> Hops
        ensures { members result ≡ hops.items }
    {
        match hops.as_slice() {
            [hop] => Hops::One(*hop),
            [first, second] => Hops::Two([*first, *second]),
            _ => Hops::Many(hops),
        }
    }

    /// Returns the hops, ascending.
    pub fn as_slice(&self) -> &[Option<u32>]
        ensures { result.now ≡ members self.now }
    {
        match self {
            Hops::One(hop) => slice::from_ref(hop),
            Hops::Two(hops) => hops,
            Hops::Many(hops) => hops.as_slice(),
        }
    }
}

/// Whether two hops are the same.
pub fn is_same(a: Option<u32>, b: Option<u32>) -> bool
    ensures { result ≡ is_same_hop a b }
{
    match (a, b) {
        (None, None) => true,
        (Some(a), Some(b)) => a == b,
        _ => false,
    }
}

/// The first of the hops, or none if the list is empty.
pub fn first(hops: &[Option<u32>]) -> Option<u32>
    ensures { result ≡ first_hop hops.now }
{
    match hops {
        [hop, ..] => *hop,
        [] => None,
    }
}

/// The hops without the first.
pub(crate) fn others(hops: &[Option<u32>]) -> &[Option<u32>]
    ensures { result.now ≡ drop 1 hops.now }
{
    match hops {
        [_, others @ ..] => others,
        [] => hops,
    }
}

/// Whether the list contains the hop.
pub fn is_among(hops: &[Option<u32>], hop: Option<u32>) -> bool
    ensures { result ≡ holds hops.now hop }
{
    hops.iter().any(|other| is_same(hop, *other))
}

/// Whether the first hop is ordered before the second.
fn is_less(a: Option<u32>, b: Option<u32>) -> bool
    ensures { result ≡ is_less a b }
{
    match (a, b) {
        (None, Some(_)) => true,
        (Some(a), Some(b)) => a < b,
        _ => false,
    }
}

/// The hops in both lists.
fn common(
    alloc: Global,
    low: &[Option<u32>],
    high: &[Option<u32>],
) -> Result<Vec<Option<u32>>, AllocError>
    requires low_rises { IsRising low.now }
    requires high_rises { IsRising high.now }
    ensures { IfOk result (λ hops. AreCommon low.now high.now hops.items) }
{
    let mut out: Vec<Option<u32>> = Vec::new(alloc);
    let mut a = low;
    let mut b = high;
    while let ([x, more_a @ ..], [y, more_b @ ..]) = (a, b) {
        if is_less(*x, *y) {
            a = more_a;
        } else if is_less(*y, *x) {
            b = more_b;
        } else {
            out.push(*x)?;
            a = more_a;
            b = more_b;
        }
    }
    Ok(out)
}

/// The hops in at least one of the lists.
fn all(
    alloc: Global,
    low: &[Option<u32>],
    high: &[Option<u32>],
) -> Result<Vec<Option<u32>>, AllocError>
    requires low_rises { IsRising low.now }
    requires high_rises { IsRising high.now }
    ensures { IfOk result (λ hops. AreAll low.now high.now hops.items) }
{
    let mut out: Vec<Option<u32>> = Vec::new(alloc);
    let mut a = low;
    let mut b = high;
    while let ([x, more_a @ ..], [y, more_b @ ..]) = (a, b) {
        if is_less(*x, *y) {
            out.push(*x)?;
            a = more_a;
        } else if is_less(*y, *x) {
            out.push(*y)?;
            b = more_b;
        } else {
            out.push(*x)?;
            a = more_a;
            b = more_b;
        }
    }
    out.extend_from_slice(a)?;
    out.extend_from_slice(b)?;
    Ok(out)
}

/// The set of two hops, which may be the same.
fn pair(a: Option<u32>, b: Option<u32>) -> Hops
    ensures merged { AreMerged (Of (a ∷ [])) (Of (b ∷ [])) (Of (members result)) }
    ensures rising { IsRising (members result) }
{
    if is_less(a, b) {
        Hops::Two([a, b])
    } else if is_less(b, a) {
        Hops::Two([b, a])
    } else {
        Hops::One(a)
    }
}

/// `merge` of any two lists.
fn merge_lists(alloc: Global, low: &[Option<u32>], high: &[Option<u32>]) -> Result<Hops, AllocError>
    requires low_rises { IsRising low.now }
    requires high_rises { IsRising high.now }
    ensures merged { IfOk result (λ hops. AreMerged (Of low.now) (Of high.now) (Of (members hops))) }
    ensures rising { IfOk result (λ hops. IsRising (members hops)) }
{
    let shared = common(alloc, low, high)?;
    if !shared.is_empty() {
        return Ok(Hops::new(shared));
    }
    Ok(Hops::new(all(alloc, low, high)?))
}

/// The hops in both lists, or all hops of both lists if they have none in common. Most lists have one hop: then it does not allocate if
/// the other list contains this hop, or has one hop too. Both lists must ascend.
pub fn merge(alloc: Global, low: &[Option<u32>], high: &[Option<u32>]) -> Result<Hops, AllocError>
    requires low_rises { IsRising low.now }
    requires high_rises { IsRising high.now }
    ensures merged { IfOk result (λ hops. AreMerged (Of low.now) (Of high.now) (Of (members hops))) }
    ensures rising { IfOk result (λ hops. IsRising (members hops)) }
{
    match (low, high) {
        ([a], [b]) => Ok(pair(*a, *b)),
        ([a], _) if is_among(high, *a) => Ok(Hops::One(*a)),
        (_, [b]) if is_among(low, *b) => Ok(Hops::One(*b)),
        _ => merge_lists(alloc, low, high),
    }
}
