//! Tables with one hop per network: their changes, and the operations between two of them.
use crate::tests::flat_lists::flat_is;
use crate::tests::tables::{hop_table, net, route, routes_are, row_is};
use ipnet::IpNet;
use route_table::{Hop, HopTable, Operation};
use std::alloc::Global;
use std::process::Abort;

/// A call that changes a table at one network.
#[derive(Clone, Copy)]
enum Change {
    Paint,
    Overwrite,
    Install,
}

/// A call of such a table, with its answer.
enum Step {
    /// A change with each of these routes in turn.
    Change(Change, &'static str),
    /// `get`: networks, and the longest match of each with its hop.
    Get(&'static [(&'static str, &'static str)]),
    /// `flat`: the pieces.
    Flat(&'static str),
    /// `updates` and `carry_out`: changes, the number of operations that carry them out, and the flat list after that.
    Update(&'static str, usize, &'static str),
    /// `between`: the operations that turn this table into a table painted with these routes.
    Between(&'static str, &'static str),
    /// `from_routes`: a table made of the least routes.
    FromRoutes,
}

/// Replaces all routes inside the network by this one.
pub(crate) fn overwrite(rt: &impl Abort, table: &mut HopTable, net: IpNet, hop: Hop) {
    table.overwrite(net, hop).expect(rt, "memory");
}

/// Makes a change with the route that the words spell.
fn change_at(rt: &impl Abort, table: &mut HopTable, call: Change, words: &str) {
    let (net, hop) = route(rt, words.trim());
    match call {
        Change::Paint => table.paint(net, hop).expect(rt, "memory"),
        Change::Overwrite => overwrite(rt, table, net, hop),
        Change::Install => table.install(net, hop).expect(rt, words),
    }
}

/// Makes a change with each route of the text.
fn changes(rt: &impl Abort, table: &mut HopTable, call: Change, text: &str) {
    for words in text.split_terminator(',') {
        change_at(rt, table, call, words);
    }
}

/// The operation that the text spells: with a hop, the network is installed; without one, it is removed.
fn operation(rt: &impl Abort, text: &str) -> Operation {
    if text.contains(' ') {
        let (net, hop) = route(rt, text);
        return Operation::Install { net, hop };
    }
    Operation::Remove { net: net(rt, text) }
}

/// Checks that the operation is the one that the text spells.
fn operation_is(rt: &impl Abort, row: &str, found: Option<Operation>, text: &str) {
    row_is(rt, row, found, Some(operation(rt, text.trim())));
}

/// Checks the remaining operations.
fn operations_are<I: Iterator<Item = Operation>>(rt: &impl Abort, left: I, wanted: &str)
    requires { (it : I) → I.can_next it }
{
    let mut left = left;
    for text in wanted.split_terminator(',') {
        operation_is(rt, wanted, left.next(), text);
    }
    row_is(rt, wanted, left.next(), None);
}

/// Checks the operations that turn this table into a table painted with the routes of the text.
fn between(rt: &impl Abort, alloc: Global, old: &HopTable, text: &str, wanted: &str) {
    let mut new = hop_table(rt, alloc);
    changes(rt, &mut new, Change::Paint, text);
    let list = new.least().expect(rt, "memory");
    operations_are(rt, old.between(list.as_slice()), wanted);
}

/// Makes the changes of the text by `updates` and `carry_out`, and checks the number of operations.
fn carry_out(rt: &impl Abort, alloc: Global, table: &mut HopTable, text: &str, count: usize) {
    let changes = routes_of(rt, alloc, text);
    let updates = table.updates(changes.as_slice()).expect(rt, "memory");
    row_is(rt, text, updates.len(), count);
    row_is(rt, text, table.carry_out(updates.as_slice()), Ok(()));
}

/// Adds the route that the words spell.
fn push_route(rt: &impl Abort, routes: &mut Vec<(IpNet, Hop)>, words: &str) {
    routes.push(route(rt, words.trim())).expect(rt, "memory");
}

/// The routes of the text.
fn routes_of(rt: &impl Abort, alloc: Global, text: &str) -> Vec<(IpNet, Hop)> {
    let mut routes = Vec::new(alloc);
    for words in text.split_terminator(',') {
        push_route(rt, &mut routes, words);
    }
    routes
}

/// Checks the number of the operations that carry out the changes of the text, and the flat list after them.
fn update(rt: &impl Abort, alloc: Global, table: &mut HopTable, row: &(&str, usize, &str)) {
    let (text, count, pieces) = *row;
    carry_out(rt, alloc, table, text, count);
    flat_is(rt, alloc, table.flat(), pieces);
}

/// Checks that a table made of the least routes has just these routes.
fn is_rebuilt(rt: &impl Abort, alloc: Global, table: &HopTable) {
    let list = table.least().expect(rt, "memory");
    let copy = HopTable::from_routes(alloc, list.as_slice()).expect(rt, "memory");
    operations_are(rt, copy.between(list.as_slice()), "");
}

/// Checks these longest matches.
fn matches_are(rt: &impl Abort, table: &HopTable, rows: &[(&str, &str)]) {
    for (text, wanted) in rows {
        match_is(rt, table, text, wanted);
    }
}

/// Checks the longest match of the network.
fn match_is(rt: &impl Abort, table: &HopTable, text: &str, wanted: &str) {
    let (net_wanted, hop) = route(rt, wanted);
    let found = table.get(&net(rt, text));
    row_is(rt, text, found, Some((net_wanted, hop, 100)));
}

/// Checks the answer of the step.
fn go(rt: &impl Abort, alloc: Global, table: &mut HopTable, step: &Step) {
    match step {
        Step::Change(call, text) => changes(rt, table, *call, text),
        Step::Get(rows) => matches_are(rt, table, rows),
        Step::Flat(pieces) => flat_is(rt, alloc, table.flat(), pieces),
        Step::Update(text, count, pieces) => update(rt, alloc, table, &(*text, *count, *pieces)),
        Step::Between(text, wanted) => between(rt, alloc, table, text, wanted),
        Step::FromRoutes => is_rebuilt(rt, alloc, table),
    }
}

/// The routes of the least table.
fn least_of(rt: &impl Abort, alloc: Global, table: HopTable) -> Vec<(IpNet, Hop)> {
    let mut list = Vec::new(alloc);
    for route in table.into_least().expect(rt, "memory") {
        list.push(route).expect(rt, "memory");
    }
    list
}

/// Checks the least table.
fn least_is(rt: &impl Abort, alloc: Global, row: &str, table: HopTable, least: &str) {
    routes_are(rt, row, least_of(rt, alloc, table).as_slice(), least);
}

/// Checks the steps in order, from an empty table, and the least table after them.
fn goes(rt: &impl Abort, alloc: Global, row: &str, steps: &[Step], least: &str) {
    let mut table = hop_table(rt, alloc);
    for step in steps {
        go(rt, alloc, &mut table, step);
    }
    least_is(rt, alloc, row, table, least);
}

/// Checks the number of operations for one change of the nested networks, and the least table after them.
fn changes_alone(rt: &impl Abort, alloc: Global, row: &(&str, usize, &str)) {
    let (text, count, least) = *row;
    let mut table = hop_table(rt, alloc);
    changes(rt, &mut table, Change::Paint, NESTED);
    carry_out(rt, alloc, &mut table, text, count);
    least_is(rt, alloc, text, table, least);
}

/// Nested networks of both families.
const NESTED: &str =
    "10.0.0.0/8 1, 10.0.0.0/9 2, 10.0.0.0/16 1, 2001:db8::/32 1, 2001:db8::/33 2, 2001:db8:4000::/34 drop";

/// Their least table.
const NESTED_LEAST: &str =
    "10.0.0.0/8 1, 10.0.0.0/9 2, 10.0.0.0/16 1, 2001:db8::/34 2, 2001:db8:8000::/33 1";

/// Changes of these networks, each alone; the number of operations, and the least table after them. A route inside that has the new hop
/// already stays.
const ALONE: [(&str, usize, &str); 13] = [
    // the hop is the inherited one: at a stored network, at a network that isn't stored, and without an outer route
    (
        "10.0.0.0/9 1",
        1,
        "10.0.0.0/8 1, 2001:db8::/34 2, 2001:db8:8000::/33 1",
    ),
    ("10.128.0.0/9 1", 0, NESTED_LEAST),
    ("11.0.0.0/8 drop", 0, NESTED_LEAST),
    (
        "2001:db8::/33 1",
        2,
        "10.0.0.0/8 1, 10.0.0.0/9 2, 10.0.0.0/16 1, 2001:db8::/32 1",
    ),
    // the hop is already in effect
    (
        "10.0.0.0/9 2",
        1,
        "10.0.0.0/8 1, 10.0.0.0/9 2, 2001:db8::/34 2, 2001:db8:8000::/33 1",
    ),
    ("10.0.0.0/16 1", 0, NESTED_LEAST),
    ("2001:db8:4000::/34 drop", 0, NESTED_LEAST),
    // another hop for a stored network; two are `drop`, and one has host bits
    (
        "10.0.0.0/9 3",
        2,
        "10.0.0.0/8 1, 10.0.0.0/9 3, 2001:db8::/34 2, 2001:db8:8000::/33 1",
    ),
    (
        "2001:db8::/32 drop",
        2,
        "10.0.0.0/8 1, 10.0.0.0/9 2, 10.0.0.0/16 1",
    ),
    (
        "2001:db8::1/33 drop",
        1,
        "10.0.0.0/8 1, 10.0.0.0/9 2, 10.0.0.0/16 1, 2001:db8:8000::/33 1",
    ),
    // a network that isn't stored: between others, and outside all of them
    (
        "10.0.0.0/12 4",
        2,
        "10.0.0.0/8 1, 10.0.0.0/9 2, 10.0.0.0/12 4, 2001:db8::/34 2, 2001:db8:8000::/33 1",
    ),
    (
        "0.0.0.0/0 5",
        4,
        "0.0.0.0/0 5, 2001:db8::/34 2, 2001:db8:8000::/33 1",
    ),
    ("::/0 drop", 2, "10.0.0.0/8 1, 10.0.0.0/9 2, 10.0.0.0/16 1"),
];

/// Networks, and their longest matches after the script, with their hops.
const MATCHES: [(&str, &str); 6] = [
    ("10.1.0.0/16", "10.0.0.0/12 4"),
    ("10.0.0.0/16", "10.0.0.0/16 1"),
    ("10.64.0.0/10", "10.0.0.0/9 drop"),
    ("2001:db8::/48", "2001:db8::/33 5"),
    ("2001:db8:4000::/48", "2001:db8:4000::/34 drop"),
    ("2001:db9::/32", "::/0 6"),
];

/// Changes in turn, the number of operations that each needs, and the flat list after it.
const UPDATES: [Step; 7] = [
    Step::Change(
        Change::Install,
        "10.0.0.0/8 1, 10.0.0.0/9 2, 2001:db8::/32 1",
    ),
    // one route that is no longer needed
    Step::Update("10.0.0.0/9 1", 1, "10.0.0.0/8 1, 2001:db8::/32 1"),
    // both families; one network has host bits
    Step::Update(
        "10.0.0.0/10 2, 2001:db8::1/33 drop",
        2,
        "10.0.0.0/10 2, 10.64.0.0/10 1, 10.128.0.0/9 1, 2001:db8:8000::/33 1",
    ),
    // the rest of 10.0.0.0/9, and an older change inside a newer one
    Step::Update(
        "10.0.0.0/11 3, 10.0.0.0/9 2, 10.96.0.0/11 4",
        2,
        "10.0.0.0/10 2, 10.64.0.0/11 2, 10.96.0.0/11 4, 10.128.0.0/9 1, 2001:db8:8000::/33 1",
    ),
    // all hops as they are
    Step::Update(
        "10.96.0.0/11 4, 2001:db8::/33 drop",
        0,
        "10.0.0.0/10 2, 10.64.0.0/11 2, 10.96.0.0/11 4, 10.128.0.0/9 1, 2001:db8:8000::/33 1",
    ),
    Step::Update(
        "",
        0,
        "10.0.0.0/10 2, 10.64.0.0/11 2, 10.96.0.0/11 4, 10.128.0.0/9 1, 2001:db8:8000::/33 1",
    ),
    // a default route over all others, but for a half that gets its hop too
    Step::Update(
        "::/0 1, 2001:db8::/33 drop",
        1,
        "10.0.0.0/10 2, 10.64.0.0/11 2, 10.96.0.0/11 4, 10.128.0.0/9 1, ::/3 1, 2000::/16 1, 2001::/21 1, 2001:800::/22 1, 2001:c00::/24 1, 2001:d00::/25 1, 2001:d80::/27 1, 2001:da0::/28 1, 2001:db0::/29 1, 2001:db8:8000::/33 1, 2001:db9::/32 1, 2001:dba::/31 1, 2001:dbc::/30 1, 2001:dc0::/26 1, 2001:e00::/23 1, 2001:1000::/20 1, 2001:2000::/19 1, 2001:4000::/18 1, 2001:8000::/17 1, 2002::/15 1, 2004::/14 1, 2008::/13 1, 2010::/12 1, 2020::/11 1, 2040::/10 1, 2080::/9 1, 2100::/8 1, 2200::/7 1, 2400::/6 1, 2800::/5 1, 3000::/4 1, 4000::/2 1, 8000::/1 1",
    ),
];

/// Scripts, and the least table at the end of each.
static SCRIPTS: [(&str, &[Step], &str); 8] = [
    // A network that is given twice, one inside another, and one of the other family.
    (
        "a table of one hop a network",
        &[
            Step::Change(
                Change::Overwrite,
                "10.64.0.0/10 3, 2001:db8::/32 1, 10.0.0.0/8 1, 10.0.0.0/9 2, 10.64.0.0/10 1",
            ),
            Step::Flat("10.0.0.0/10 2, 10.64.0.0/10 1, 10.128.0.0/9 1, 2001:db8::/32 1"),
        ],
        "10.0.0.0/8 1, 10.0.0.0/10 2, 2001:db8::/32 1",
    ),
    (
        "two installs and a removal",
        &[
            Step::Change(Change::Paint, "10.0.0.0/8 1, 10.0.0.0/9 2, 10.128.0.0/9 1"),
            Step::Between(
                "10.0.0.0/8 2, 10.64.0.0/10 1",
                "10.64.0.0/10 1, 10.0.0.0/8 2, 10.0.0.0/9",
            ),
        ],
        "10.0.0.0/8 1, 10.0.0.0/9 2",
    ),
    (
        "a table of a list",
        &[Step::Change(Change::Paint, NESTED), Step::FromRoutes],
        NESTED_LEAST,
    ),
    (
        "what is inside stays",
        &[
            Step::Change(Change::Paint, NESTED),
            Step::Change(
                Change::Install,
                "10.0.0.0/12 4, 10.0.0.0/9 drop, 2001:db8::1/33 5, ::/0 6",
            ),
            Step::Get(&MATCHES),
        ],
        "10.0.0.0/12 4, 10.0.0.0/16 1, 10.128.0.0/9 1, ::/0 6, 2001:db8::/32 drop, 2001:db8::/34 5, 2001:db8:8000::/33 1",
    ),
    ("a table of an empty list", &[Step::FromRoutes], ""),
    (
        "updates by the fewest operations",
        &UPDATES,
        "10.0.0.0/8 1, 10.0.0.0/9 2, 10.96.0.0/11 4, ::/0 1, 2001:db8::/33 drop",
    ),
    // The quarters of a half get four hops, and the other half has a route, so the computation copies a list of four hops.
    (
        "four hops beside a route",
        &[
            Step::Change(Change::Install, "10.0.0.128/25 1"),
            Step::Update(
                "10.0.0.0/27 2, 10.0.0.32/27 3, 10.0.0.64/27 4, 10.0.0.96/27 5, 10.0.0.192/26 6",
                5,
                "10.0.0.0/27 2, 10.0.0.32/27 3, 10.0.0.64/27 4, 10.0.0.96/27 5, 10.0.0.128/26 1, 10.0.0.192/26 6",
            ),
        ],
        "10.0.0.0/24 1, 10.0.0.0/25 2, 10.0.0.32/27 3, 10.0.0.64/26 4, 10.0.0.96/27 5, 10.0.0.192/26 6",
    ),
    (
        "all addresses are dropped; a `drop` stays",
        &[
            Step::Change(
                Change::Install,
                "10.0.0.0/8 1, 10.0.0.0/10 2, 2001:db8::/32 1, 2001:db8::/33 drop",
            ),
            Step::Update("0.0.0.0/0 drop, ::/0 drop", 3, ""),
        ],
        "",
    ),
];

#[test]
fn hop_tables(rt: HostRuntime) {
    for (row, steps, least) in &SCRIPTS {
        goes(&rt, rt.alloc(), row, steps, least);
    }
}

#[test]
fn changes_of_nested_networks(rt: HostRuntime) {
    for row in &ALONE {
        changes_alone(&rt, rt.alloc(), row);
    }
}
