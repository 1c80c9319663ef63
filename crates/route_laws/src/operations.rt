//! Theorems about the operations that turn one table into another.
ghost use Rattle.route_laws.specs.Nearest.{FewestIsNearest, LeastIsNearest, NearestIsBounded, NearestIsFewest, NearestIsHitless, UpdatesAreBounded, UpdatesAreFewest, UpdatesAreHitless};
ghost use Rattle.route_laws.specs.OperationLaws.{BetweenIsFewest, BetweenIsHitless, BetweenReaches, GivenReaches, GivesHitless, GivesWhatItSays, HopsOfChanges, HopsOfPainted, KeepsHops, PaintedIsTable, SyncIsLeast, SyncIsUnseen, SyncStays, ToldAreChanges, ToldIsFewest};

/// The operations between two tables turn the first into the second. On the way each address changes its hop at most once, from its
/// hop in the first table to that in the second. No shorter sequence of operations makes the second table.
pub fn between()
    ensures reaches { BetweenReaches }
    ensures hitless { BetweenIsHitless }
    ensures fewest { BetweenIsFewest }
{}

/// Changes of a table, one after another, as calls of `paint` make them. A change gives all addresses of its block its hop, and changes no
/// other address. The maximal blocks whose hop differs in two tables, as in a leader's reply, are blocks of such changes.
pub fn paints()
    ensures table { PaintedIsTable }
    ensures hops { HopsOfPainted }
    ensures hops_after { HopsOfChanges }
    ensures told { ToldAreChanges }
{}

/// Tables with given hops that are nearest to a table: no table with these hops is fewer operations away. The operations that turn a
/// table into a nearest one are the fewest of all that give each address its hop. All fewest operations lead to nearest tables. On the
/// way each address changes its hop at most once. Changes of blocks take at most one operation each, and one for each route strictly
/// inside their blocks. A table is least exactly if it is nearest to the empty table.
pub fn nearest()
    ensures fewest { NearestIsFewest }
    ensures nearest { FewestIsNearest }
    ensures hitless { NearestIsHitless }
    ensures bound { NearestIsBounded }
    ensures least { LeastIsNearest }
{}

/// The operations that `HopTable::updates` of `route_table` returns for changes. They are the fewest of all that give each address its hop
/// after the changes, and on the way each address changes its hop at most once. There is at most one of them for each change, and one for
/// each route strictly inside its block.
pub fn updates()
    ensures fewest { UpdatesAreFewest }
    ensures hitless { UpdatesAreHitless }
    ensures bound { UpdatesAreBounded }
{}

/// A table that is kept installed, event by event. An event is a route that is installed already, a group of changes, or a least table
/// to install. They may come in any order, but no route counts as installed already after the first least table. From then on, a table
/// that has the hops after the changes and is nearest to the installed one is installed at each group of changes.
///
/// The operations of an event turn the table installed before it into the table installed after it, and so do those of all events.
/// Each address changes its hop at most once during an event. From the first least table on, each address has the hop that was
/// last reported, and the operations of a group of changes are the fewest of all with this effect. A later least table changes no
/// address at any moment, and has no operations if the installed table is a least one already.
pub fn runs()
    ensures operations { GivesWhatItSays }
    ensures reaches { GivenReaches }
    ensures hitless { GivesHitless }
    ensures hops { KeepsHops }
    ensures fewest { ToldIsFewest }
    ensures least { SyncIsLeast }
    ensures stays { SyncStays }
    ensures unseen { SyncIsUnseen }
{}
