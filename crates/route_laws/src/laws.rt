//! Theorems about tables: public functions without a body, whose contracts are the theorems.
ghost use Rattle.route_laws.specs.Fewest.{FewestByHalves, FewestOfHost, GivenHops, HopsOfTable, LeastIsFewest};
ghost use Rattle.route_laws.specs.Laws.{AllThenDel, BlocksOfChoices, ChangedByChoices, ChoicesAfter, ChoicesHaveOneHop, MatchOfChoices, NetworkRestored, NoneIsFree, OthersAreFree, RoutesAreTable, RoutesOfAdd, RoutesOfDel, RoutesOfOverwrite, SameTables, StaysStored, CoverAscends, MatchIsLongest, GovernedMatch, GovernedBound, StaysTable, ChangedIsMaximal, AddedHaveOneHop, LeftHaveOneHop, ChangedByAdd, ChangedByDel, BlocksOfAdd, BlocksOfDel, GovernedAfter, AddThenDel, OtherFamilyAfterAdd, OtherFamilyAfterDel, FlatIsShortest, ShortestIsFlat, FlatIsAdmissible, SameFlat, SearchIsFlat, OwnIsMaximal, FlatIsBounded, FlatIsTable, FlatReadded, FlatRebuilds, ReaddedAreNew, OverwriteIsTable, HopsOfOverwrite, PagesAreRoutes, PagesEnd, MembersAfterAdd, MembersAfterDel, MatchAfterAdd, MatchAfterDel, ChangedIsShortest, ShortestIsChanged, MaximalIsChanged, EmptyIsFlat, OneRouteIsChanged, OneRouteHops, OneRouteIsFlat};

pub use crate::operations::{between, nearest, paints, runs, updates};
pub use route_choices::laws::choices;

/// The match of a block is the longest stored network that contains it. The list of the networks that contain it begins with the
/// shortest, and each one after it is longer. Each address that a block governs has the same match as the block. The number of maximal
/// blocks of these addresses is bounded.
pub fn matches()
    ensures longest { MatchIsLongest }
    ensures cover { CoverAscends }
    ensures governed { GovernedMatch }
    ensures bound { GovernedBound }
{}

/// The routes of a table after a change. The longest match of a block after an `add`, and after a `del` of another block than the match.
pub fn held()
    ensures members_after_add { MembersAfterAdd }
    ensures members_after_del { MembersAfterDel }
    ensures match_after_add { MatchAfterAdd }
    ensures match_after_del { MatchAfterDel }
{}

/// A change of a table makes a table. The maximal blocks of the addresses whose hop changes are found by a search. They are the only
/// shortest ascending list of blocks that covers just these addresses. All these addresses have one hop after the change.
pub fn changes()
    ensures table { StaysTable }
    ensures maximal { ChangedIsMaximal }
    ensures shortest { ChangedIsShortest }
    ensures only { ShortestIsChanged }
    ensures found { MaximalIsChanged }
    ensures added { AddedHaveOneHop }
    ensures left { LeftHaveOneHop }
{}

/// A change of one network changes the hop of the addresses that the network governs, if the old and the new hop of the network
/// differ, and of no others. So the maximal blocks of the change are those of the governed addresses, or none. An `add` doesn't
/// change which addresses its network governs.
pub fn changed()
    ensures add { ChangedByAdd }
    ensures del { ChangedByDel }
    ensures blocks_of_add { BlocksOfAdd }
    ensures blocks_of_del { BlocksOfDel }
    ensures governed { GovernedAfter }
{}

/// A `del` right after an `add` of a new network restores the table. A change in one family doesn't change the routes or the
/// hops of the other.
pub fn kept()
    ensures restored { AddThenDel }
    ensures other_after_add { OtherFamilyAfterAdd }
    ensures other_after_del { OtherFamilyAfterDel }
{}

/// An `overwrite` of a table makes a table. All addresses of its network have the new hop then, and all others keep their hop.
pub fn overwrites()
    ensures table { OverwriteIsTable }
    ensures hops { HopsOfOverwrite }
{}

/// The routes of a family from a network on, page by page. The first page begins with `from`, each other one comes `after` the last
/// network of the page before, and the first empty page is the end. For every limit of at least one, the pages have all these
/// routes, each once.
pub fn pages()
    ensures routes { PagesAreRoutes }
    ensures end { PagesEnd }
{}

/// A hop function has exactly one flat list. No list of one-hop blocks that covers the same addresses is shorter, and no other
/// ascending list is as short. Two hop functions are equal exactly if their flat lists are. The blocks of one number are the
/// maximal blocks of the addresses with this hop. In each family, a flat list has at most one block more than the lengths of the stored
/// networks together.
///
/// The blocks of a flat list, taken as routes, are a table with these hops. An empty table that is given an `add` of each line has these
/// routes, these hops and this flat list. Each `add` is of a network that isn't stored yet.
pub fn flat()
    ensures shortest { FlatIsShortest }
    ensures only { ShortestIsFlat }
    ensures admissible { FlatIsAdmissible }
    ensures same { SameFlat }
    ensures search { SearchIsFlat }
    ensures own { OwnIsMaximal }
    ensures bound { FlatIsBounded }
    ensures table { FlatIsTable }
    ensures rebuilds { FlatRebuilds }
    ensures readded { FlatReadded }
    ensures new { ReaddedAreNew }
{}

/// The flat list of the empty table is empty. For a table of one route with a number: the addresses that an `add` of it to the empty
/// table changes, their hops, and the flat list.
pub fn one_route()
    ensures empty { EmptyIsFlat }
    ensures changed { OneRouteIsChanged }
    ensures hops { OneRouteHops }
    ensures flat { OneRouteIsFlat }
{}

/// The best routes of a table are a table of routes. After an `add`, it has the best of the network's new choices. After a `del`, it has
/// the best of the choices that are left, or no route of the network if none is left. A `del` of a choice that isn't the best changes
/// nothing here. After an `overwrite`, one route replaces those inside. The match of a stored network is its own best route.
pub fn best_routes()
    ensures table { RoutesAreTable }
    ensures add { RoutesOfAdd }
    ensures del { RoutesOfDel }
    ensures overwrite { RoutesOfOverwrite }
    ensures others { OthersAreFree }
    ensures matches { MatchOfChoices }
{}

/// A change of a table makes a table, with the new choices of its network, and leaves the choices of every other. Tables with equal
/// choices are equal. A `del` of a hop that isn't stored changes nothing. A `del` right after an `add` of a new network, with the same
/// hop, restores the table. A `del` of each choice of a network removes the network.
pub fn networks()
    ensures stays { StaysStored }
    ensures after { ChoicesAfter }
    ensures same { SameTables }
    ensures none { NoneIsFree }
    ensures restored { NetworkRestored }
    ensures emptied { AllThenDel }
{}

/// The addresses that a change of one network's choices changes, their maximal blocks, and their new hop.
pub fn changed_networks()
    ensures changed { ChangedByChoices }
    ensures blocks { BlocksOfChoices }
    ensures one_hop { ChoicesHaveOneHop }
{}

/// The fewest routes inside a block that give each of its addresses a given hop, if the block inherits a hop or none from the routes
/// outside. For a block of one address, the hop decides. For any other block, it follows from the needs of its halves. In each family, a
/// least table has as many routes as all addresses need if they inherit nothing. The hops of a table are valid hop numbers, as `host` and
/// `halves` require, and so are the hops that some table gives.
pub fn fewest()
    ensures host { FewestOfHost }
    ensures halves { FewestByHalves }
    ensures least { LeastIsFewest }
    ensures hops { HopsOfTable }
    ensures given { GivenHops }
{}
