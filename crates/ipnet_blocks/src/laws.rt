//! Theorems about blocks, their order, their bit strings, and lists of maximal blocks: public functions without a body, whose
//! contracts are the theorems.

ghost use Rattle.std.specs.Prelude.{◌≡◌};
ghost use Rattle.ipnet_blocks.specs.Blocks.{Block};
ghost use Rattle.ipnet_blocks.specs.Laws.{AreNested, InsideByNumbers, BeginsIsInside, OrderIsTotal, OrderIsStrict, OrderIsTransitive, MaximalIsUnique, MaximalIsShortest, ShortestIsMaximal, ParentIsEnough, MaximalIsUnion, SearchIsMaximal, OrderIsOfStrings, BlockIsItsAddresses, ParentIsNext, BlockIsInterval, MaskIsOnesThenZeros, MaskFindsBlock, AggregatedIsStable, NetworksStayAggregated, LimitsStay, CutIsExact, HostsAreExact};
ghost use Rattle.ipnet_blocks.specs.Networks.{block_of, net_of};

/// If two blocks have a common address, one is inside the other.
#[tactic(auto, using(crate::proofs::BlockLaws::nested))]
pub fn nested()
    ensures { AreNested }
{}

/// Inclusion of blocks is a comparison of numbers.
pub fn inside_by_numbers()
    ensures { InsideByNumbers }
{}

/// Within a family, a block is inside another exactly if its bit string begins with the other's.
pub fn begins_is_inside()
    ensures { BeginsIsInside }
{}

/// The ascending order is total, strict and transitive. Within a family it is the order of the bit strings.
pub fn order()
    ensures total { OrderIsTotal }
    ensures strict { OrderIsStrict }
    ensures transitive { OrderIsTransitive }
    ensures strings { OrderIsOfStrings }
{}

/// A set of addresses has only one list of maximal blocks, and `search` finds it. Its union is the set. No list of blocks with this union
/// is shorter, and no other ascending list is as short. A block of the set is maximal exactly if its parent isn't inside the set.
pub fn maximal()
    ensures unique { MaximalIsUnique }
    ensures union { MaximalIsUnion }
    ensures shortest { MaximalIsShortest }
    ensures only { ShortestIsMaximal }
    ensures parent { ParentIsEnough }
{}

/// The search through the bit tree finds the list of maximal blocks.
#[tactic(auto, using(crate::proofs::Search::search_is_maximal))]
pub fn search()
    ensures { SearchIsMaximal }
{}

/// The network of a block has this block, and no host bits.
#[tactic(auto, using(crate::proofs::NetworkBlocks::block_round_trip))]
pub fn networks_of_blocks()
    ensures { (b : Block) → block_of b.family (net_of b) ≡ b }
{}

/// A block is determined by its addresses, and its parent is the smallest larger block.
pub fn blocks()
    ensures addresses { BlockIsItsAddresses }
    ensures parent { ParentIsNext }
{}

/// A block is an interval of numbers. Its mask is ones followed by zeros, and finds the block of an address.
pub fn masks()
    ensures interval { BlockIsInterval }
    ensures digits { MaskIsOnesThenZeros }
    ensures finds { MaskFindsBlock }
{}

/// A subnet iterator returns each block within its limits that no larger such block contains. After each block its limits are valid.
pub fn cuts()
    ensures exact { CutIsExact }
    ensures stay { LimitsStay }
{}

/// The hosts of a network are all addresses from its first host to its last host.
pub fn hosts()
    ensures { HostsAreExact }
{}

/// `aggregate` doesn't change a list that it returned, whatever the order, repeats and host bits of the original input.
pub fn aggregated()
    ensures blocks { AggregatedIsStable }
    ensures networks { NetworksStayAggregated }
{}
