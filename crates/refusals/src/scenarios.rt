//! The scenarios, by name.
use crate::fault::Fault;
use crate::feeds::FeedCall;
use crate::hop_tables::HopTableCall;
use crate::map_changes::MapChange::*;
use crate::map_reads::MapRead::*;
use crate::map_stores::MapStore::*;
use crate::maps::MapCall;
use crate::maps::MapCall::{Change, Give, Read, Store};
use crate::maps::MapGift::*;
use crate::nets::NetCall;
use crate::scenarios::Call::{Feed, HopTable, Map, Net, Set, ShortList, Table};
use crate::sets::SetCall;
use crate::short_lists::ShortListCall;
use crate::subject::run_over;
use crate::tables::TableCall;
use crate::{feeds, maps, nets, sets, tables};

/// The call of a scenario.
#[derive(Clone, Copy)]
pub enum Call {
    Net(NetCall),
    ShortList(ShortListCall),
    Map(MapCall),
    Set(SetCall),
    Table(TableCall),
    HopTable(HopTableCall),
    Feed(FeedCall),
}

/// The names and their calls.
static SCENARIOS: [(&str, Call); 96] = [
    ("aggregate-ipv4", Net(NetCall::AggregateIpv4)),
    ("aggregate-ipv6", Net(NetCall::AggregateIpv6)),
    ("aggregate-mixed", Net(NetCall::AggregateMixed)),
    ("to-value-ipv4", Net(NetCall::ToValueIpv4)),
    ("to-value-ipv6", Net(NetCall::ToValueIpv6)),
    ("to-value-mixed", Net(NetCall::ToValueMixed)),
    ("free-net-read", Net(NetCall::Read)),
    ("free-net-print", Net(NetCall::Print)),
    ("free-net-parts", Net(NetCall::Part)),
    ("free-net-walks", Net(NetCall::Walk)),
    ("short-list-push", ShortList(ShortListCall::Push)),
    ("short-list-insert", ShortList(ShortListCall::Insert)),
    ("free-map-new", Map(MapCall::New)),
    ("map-try-clone", Map(MapCall::TryClone)),
    ("map-insert", Map(Store(Insert))),
    ("map-insert-six-nodes", Map(Store(InsertSixNodes))),
    ("map-entry-insert", Map(Store(EntryInsert))),
    ("map-entry-or-insert", Map(Store(OrInsert))),
    ("map-entry-or-insert-with", Map(Store(OrInsertWith))),
    ("map-entry-or-default", Map(Store(OrDefault))),
    ("map-vacant-insert", Map(Store(VacantInsert))),
    ("map-vacant-insert-with", Map(Store(VacantInsertWith))),
    ("map-vacant-default", Map(Store(VacantDefault))),
    ("free-map-look-ups", Map(Read(LookUps))),
    ("free-map-lent", Map(Read(Lent))),
    ("free-map-walks", Map(Read(Walks))),
    ("free-map-walks-in-part", Map(Read(WalksInPart))),
    ("free-map-walks-lent", Map(Read(WalksLent))),
    ("free-map-covers", Map(Read(Covers))),
    ("free-map-copied-walks", Map(Read(CopiedWalks))),
    ("free-map-into-iter", Map(Give(Entries))),
    ("free-map-into-keys", Map(Give(Keys))),
    ("free-map-into-values", Map(Give(Values))),
    ("free-map-into-children", Map(Give(Children))),
    ("free-map-insert-stored", Map(Change(InsertStored))),
    ("free-map-entry-insert-stored", Map(Change(EntryStored))),
    ("free-map-entry-modify", Map(Change(EntryModify))),
    ("free-map-occupied", Map(Change(Occupied))),
    ("free-map-occupied-remove", Map(Change(OccupiedRemove))),
    ("free-map-remove", Map(Change(Remove))),
    ("free-map-remove-keep-tree", Map(Change(RemoveKeepTree))),
    ("free-map-remove-children", Map(Change(RemoveChildren))),
    ("free-map-clear", Map(Change(Clear))),
    ("free-map-retain", Map(Change(Retain))),
    ("free-set-new", Set(SetCall::New)),
    ("set-insert", Set(SetCall::Insert)),
    ("set-insert-six-nodes", Set(SetCall::InsertSixNodes)),
    ("set-try-clone", Set(SetCall::TryClone)),
    ("set-try-from-iter", Set(SetCall::TryFromIter)),
    ("map-try-from-iter", Set(SetCall::MapFromIter)),
    ("free-set-look-ups", Set(SetCall::LookUps)),
    ("free-set-walks", Set(SetCall::Walks)),
    ("free-set-insert-stored", Set(SetCall::InsertStored)),
    ("free-set-remove", Set(SetCall::Remove)),
    ("free-set-remove-children", Set(SetCall::RemoveChildren)),
    ("free-set-clear", Set(SetCall::Clear)),
    ("free-set-retain", Set(SetCall::Retain)),
    ("free-set-into-iter", Set(SetCall::Give)),
    ("free-table-new", Table(TableCall::New)),
    ("table-add-ipv4", Table(TableCall::AddIpv4)),
    ("table-add-ipv6", Table(TableCall::AddIpv6)),
    ("table-line-add", Table(TableCall::LineAdd)),
    ("table-line-own", Table(TableCall::LineOwn)),
    ("table-overwrite", Table(TableCall::Overwrite)),
    ("table-own", Table(TableCall::Own)),
    ("table-least", Table(TableCall::Least)),
    ("table-into-least", Table(TableCall::IntoLeast)),
    ("table-into-least-many", Table(TableCall::IntoLeastMany)),
    ("table-index", Table(TableCall::Index)),
    ("table-index-of-hops", Table(TableCall::IndexOfHops)),
    ("free-table-add-routes", Table(TableCall::AddRoutes)),
    (
        "free-table-overwrite-stored",
        Table(TableCall::OverwriteStored),
    ),
    ("free-table-del", Table(TableCall::Del)),
    ("free-table-look-ups", Table(TableCall::LookUps)),
    ("free-table-pages", Table(TableCall::Pages)),
    ("free-table-flat", Table(TableCall::Flat)),
    ("free-table-hops", Table(TableCall::Hops)),
    ("hop-table-install", HopTable(HopTableCall::Install)),
    ("hop-table-paint", HopTable(HopTableCall::Paint)),
    ("hop-table-from-routes", HopTable(HopTableCall::FromRoutes)),
    ("hop-table-least", HopTable(HopTableCall::Least)),
    ("hop-table-updates", HopTable(HopTableCall::Updates)),
    ("hop-table-carry-out", HopTable(HopTableCall::CarryOut)),
    (
        "hop-table-carry-out-three",
        HopTable(HopTableCall::CarryOutThree),
    ),
    ("free-hop-table", HopTable(HopTableCall::Free)),
    ("lead", Feed(FeedCall::Lead)),
    ("follow", Feed(FeedCall::Follow)),
    ("shorten", Feed(FeedCall::Shorten)),
    ("install", Feed(FeedCall::Install)),
    ("free-follower-new", Feed(FeedCall::New)),
    ("follower-change", Feed(FeedCall::Change)),
    ("follower-commit", Feed(FeedCall::Commit)),
    ("least-of-follower", Feed(FeedCall::Least)),
    ("free-follower-hop", Feed(FeedCall::Hop)),
    ("free-lines", Feed(FeedCall::Cut)),
    ("free-lines-print", Feed(FeedCall::Print)),
];

/// All scenarios, in this order.
pub fn all() -> &'static [(&'static str, Call)] {
    &SCENARIOS
}

/// The call of the scenario of this name.
pub fn named(name: &str) -> Option<Call> {
    for (known, call) in all() {
        if *known == name {
            return Some(*call);
        }
    }
    None
}

pub fn run(rt: &HostRuntime, call: Call) -> Result<(), Fault> {
    match call {
        Net(call) => nets::run(rt, call),
        ShortList(call) => run_over::<short_vec::ShortVec<u32>>(rt, call),
        Map(call) => maps::run(rt, call),
        Set(call) => sets::run(rt, call),
        Table(call) => tables::run(rt, call),
        HopTable(call) => run_over::<route_table::HopTable>(rt, call),
        Feed(call) => feeds::run(rt, call),
    }
}
