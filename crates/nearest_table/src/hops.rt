//! The best inherited hops of a block: any hop, or those of an ascending list.
ghost use Rattle.std.specs.Prelude.{◌≡◌, IfOk};
ghost use Rattle.least_table.specs.InnerHops.{members};
ghost use Rattle.least_table.specs.BestHops.{AreMerged, wants, first_best_hop};
ghost use Rattle.nearest_table.specs.Wanted.{Rises, hops_from, wanted_hops};

use least_table::hops::{self, Hops};
use std::alloc::{AllocError, Global};

/// The best inherited hops of a block.
#[derive(Drop)]
pub enum Wanted {
    /// Any hop, or none.
    Any,
    /// These hops.
    These(Hops),
}

/// Whether the hop is one of the list; any hop is if there is no list.
pub(crate) fn is_wanted(hops: Option<&[Option<u32>]>, hop: Option<u32>) -> bool
    ensures { result ≡ wants (hops_from hops.entry) hop }
{
    match hops {
        None => true,
        Some(hops) => hops::is_among(hops, hop),
    }
}

/// The first hop of the list, or none if there is no list.
pub(crate) fn first_wanted(hops: Option<&[Option<u32>]>) -> Option<u32>
    ensures { result ≡ first_best_hop (hops_from hops.entry) }
{
    match hops {
        None => None,
        Some(hops) => hops::first(hops),
    }
}

/// The set of these hops, which must ascend.
fn copied(alloc: Global, hops: &[Option<u32>]) -> Result<Hops, AllocError>
    ensures { IfOk result (λ copy. members copy ≡ hops.now) }
{
    match hops {
        [hop] => Ok(Hops::One(*hop)),
        [first, second] => Ok(Hops::Two([*first, *second])),
        _ => Ok(Hops::Many(Vec::from_slice(alloc, hops)?)),
    }
}

/// The hops in both lists, or all hops of both lists if they have none in common.
pub(crate) fn merge(
    alloc: Global,
    low: Option<&[Option<u32>]>,
    high: Option<&[Option<u32>]>,
) -> Result<Wanted, AllocError>
    requires low_rises { Rises (hops_from low) }
    requires high_rises { Rises (hops_from high) }
    ensures merged { IfOk result (λ hops. AreMerged (hops_from low.entry) (hops_from high.entry) (wanted_hops hops)) }
    ensures rising { IfOk result (λ hops. Rises (wanted_hops hops)) }
{
    match (low, high) {
        (None, None) => Ok(Wanted::Any),
        (Some(low), None) => Ok(Wanted::These(copied(alloc, low)?)),
        (None, Some(high)) => Ok(Wanted::These(copied(alloc, high)?)),
        (Some(low), Some(high)) => Ok(Wanted::These(hops::merge(alloc, low, high)?)),
    }
}
