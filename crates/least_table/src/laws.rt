//! Theorems about the fewest operations and routes: public functions without a body, whose contracts are the theorems.
ghost use Rattle.least_table.specs.Laws.{HostLaw, HalvesLaw, TwoValuesLaw, OwnLaw, EmptyLaw};

/// A block of one address needs no operation if it has its new hop by its own installed route, or inherits it and has no route. Else
/// it needs one. Any other block needs the lesser of two sums over its halves. For the first, they inherit the hop of the block's
/// installed route, or the same hop as the block if it has no route. The second is the least sum under any one hop or under none, and
/// one more.
pub fn fewest()
    ensures host { HostLaw }
    ensures halves { HalvesLaw }
{}

/// The inherited hop counts for at most one operation, and for none if the block has an installed route.
pub fn two_values()
    ensures two { TwoValuesLaw }
    ensures own { OwnLaw }
{}

/// A least table is one that is nearest to the empty table: each of its routes is one operation.
pub fn empty()
    ensures { EmptyLaw }
{}
