//! Scripts of calls of a route table, and what these answer.
use crate::tests::flat_lists::{blocks_are, ends_are, flat_is, own_is, own_is_counted, runs_are};
use crate::tests::indexes::{indexes_are, stays_empty};
use crate::tests::least_tables::{is_built_back, least_count_is, least_is};
use crate::tests::tables::{add, listed, net, pieces, put, row_is, step_is, table};
use ipnet::IpNet;
use route_table::{AddRefused, Hop, Refused, RouteTable, Routes};
use std::alloc::Global;
use std::process::Abort;

/// The numbers at the longest match of a network, before a change and after it.
pub(crate) type Numbers = (Option<u32>, Option<u32>);

/// A call of a table, with its answer.
pub(crate) enum Step {
    /// `add` with the default preference. It succeeds.
    Put(&'static str, Hop),
    /// `add` with this preference.
    Add(&'static str, Hop, u16, Result<Numbers, AddRefused>),
    /// `del`.
    Del(&'static str, Hop, Option<Numbers>),
    /// `overwrite`.
    Overwrite(&'static str, Hop),
    /// `add` with the default preference. It succeeds, at the latest on the second attempt.
    PutAgain(&'static str, Hop),
    /// `overwrite` on an empty table. It succeeds, at the latest on the second attempt.
    OverwriteAgain(&'static str, Hop),
    /// `get`: the longest match, with the default preference.
    Get(&'static str, &'static str, Hop),
    /// `get`: no match.
    Misses(&'static str),
    /// `get_visits`: the longest match, and the number of visited nodes.
    Visits(&'static str, &'static str, Hop, u32),
    /// `is_leaf`.
    IsLeaf(&'static str, bool),
    /// `governed`: the blocks.
    Governs(&'static str, &'static [&'static str]),
    /// `governed`: how many blocks there are.
    GovernsCount(&'static str, usize),
    /// `list`: the networks of the routes, all by the hop 1 with the default preference.
    List(&'static str, &'static [&'static str]),
    /// `all`: the routes of one network, the best one first.
    All(&'static str, &'static [(Hop, u16)]),
    /// `count`: the number of stored networks of each family.
    Count(usize, usize),
    /// `node_counts`.
    Nodes(usize, usize),
    /// `from`: the hops of the routes, as digits.
    From(&'static str, u32),
    /// `after`: the hops of the routes, as digits.
    After(&'static str, u32),
    /// `cover`: the hops of the routes, as digits.
    Cover(&'static str, u32),
    /// `flat`: the pieces.
    Flat(&'static str),
    /// `flat`: pieces from `next`, and then runs from `next_run`. A run is its first address, its last address and its hop.
    Runs(&'static str, &'static str),
    /// `flat`: the first and the last piece, both by the hop 2, and how many there are.
    Ends(&'static str, &'static str, usize),
    /// `own`: the blocks of this number.
    Own(u32, &'static [&'static str]),
    /// `own`: as many blocks of this number as pieces of the flat list with it.
    OwnCount(u32),
    /// `least`: the routes.
    Least(&'static str),
    /// `least`: the number of routes. Memory may be refused.
    LeastCount(usize),
    /// `least`: the number of routes. A table made of them has the same flat list.
    BuiltBack(usize),
    /// `HopIndex::from_table` and `HopIndex::from_hop_table`: the hops of the routes in `indexes.rt`.
    Index,
    /// `HopIndex::from_table` before a route to this network is added: no hop.
    IndexBefore(&'static str),
}

/// A script: its name, the routes at the start, and the calls.
pub(crate) type Script = (&'static str, &'static str, &'static [Step]);

/// Adds a route. If memory is refused at first, the second attempt must succeed.
fn put_again(rt: &impl Abort, table: &mut RouteTable, net: &IpNet, hop: Hop) {
    if table.add(*net, hop, 100).is_err() {
        add(rt, table, *net, hop, "a route");
    }
}

/// Overwrites. If memory is refused at first, the table must still be empty, and the second attempt must succeed.
fn overwrite_again(rt: &impl Abort, table: &mut RouteTable, net: &IpNet, hop: Hop) {
    let Err(refused) = table.overwrite(*net, hop) else {
        return;
    };
    row_is(rt, "refused", refused, Refused::Memory);
    row_is(rt, "count", table.count(), (0, 0));
    row_is(rt, "nodes", table.node_counts(), (1, 1));
    row_is(rt, "again", table.overwrite(*net, hop), Ok(()));
}

/// Checks a call that changes the table, or one of the calls below.
fn change(rt: &impl Abort, alloc: Global, at: (&str, usize), table: &mut RouteTable, step: &Step) {
    match step {
        Step::Put(text, hop) => put(rt, table, text, *hop),
        Step::Add(text, hop, preference, numbers) => {
            let added = table.add(net(rt, text), *hop, *preference);
            step_is(rt, at, added, *numbers);
        }
        Step::Del(text, hop, numbers) => {
            step_is(rt, at, table.del(&net(rt, text), *hop), *numbers);
        }
        Step::Overwrite(text, hop) => {
            step_is(rt, at, table.overwrite(net(rt, text), *hop), Ok(()));
        }
        Step::PutAgain(text, hop) => put_again(rt, table, &net(rt, text), *hop),
        Step::OverwriteAgain(text, hop) => overwrite_again(rt, table, &net(rt, text), *hop),
        Step::IndexBefore(text) => stays_empty(rt, alloc, table, text),
        Step::Index => indexes_are(rt, alloc, table),
        Step::BuiltBack(wanted) => is_built_back(rt, alloc, at.0, table, *wanted),
        asked => ask(rt, alloc, at, table, asked),
    }
}

/// A call that asks for a route or a number answers so, or another does.
fn ask(rt: &impl Abort, alloc: Global, at: (&str, usize), table: &RouteTable, step: &Step) {
    match step {
        Step::Get(text, found, hop) => {
            let wanted = Some((net(rt, found), *hop, 100));
            step_is(rt, at, table.get(&net(rt, text)), wanted);
        }
        Step::Misses(text) => step_is(rt, at, table.get(&net(rt, text)), None),
        Step::Visits(text, found, hop, visits) => {
            let wanted = Some((net(rt, found), *hop, 100));
            step_is(rt, at, table.get_visits(&net(rt, text)), (wanted, *visits));
        }
        Step::IsLeaf(text, wanted) => step_is(rt, at, table.is_leaf(&net(rt, text)), *wanted),
        Step::Count(v4, v6) => step_is(rt, at, table.count(), (*v4, *v6)),
        Step::Nodes(v4, v6) => step_is(rt, at, table.node_counts(), (*v4, *v6)),
        other => list(rt, alloc, at, table, other),
    }
}

/// A call that lists answers so.
fn list(rt: &impl Abort, alloc: Global, at: (&str, usize), table: &RouteTable, step: &Step) {
    match step {
        Step::From(text, wanted) => hops_are(rt, alloc, at, table.from(&net(rt, text)), *wanted),
        Step::After(text, wanted) => hops_are(rt, alloc, at, table.after(&net(rt, text)), *wanted),
        Step::Cover(text, wanted) => hops_are(rt, alloc, at, table.cover(&net(rt, text)), *wanted),
        Step::Governs(text, blocks) => {
            let found = governed(rt, alloc, table, &net(rt, text));
            blocks_are(rt, at, found.as_slice(), blocks);
        }
        Step::GovernsCount(text, wanted) => {
            let count = governed(rt, alloc, table, &net(rt, text)).len();
            step_is(rt, at, count, *wanted);
        }
        Step::List(text, networks) => {
            let found = listed(rt, alloc, table.list(&net(rt, text)));
            list_is(rt, at, found.as_slice(), networks);
        }
        Step::All(text, routes) => all_are(rt, at, table, &net(rt, text), routes),
        other => list_all(rt, alloc, at, table, other),
    }
}

/// A call that lists the whole table answers so.
fn list_all(rt: &impl Abort, alloc: Global, at: (&str, usize), table: &RouteTable, step: &Step) {
    match step {
        Step::Flat(text) => flat_is(rt, alloc, table.flat(), text),
        Step::Runs(pieces, runs) => runs_are(rt, table, pieces, runs),
        Step::Ends(first, last, count) => {
            let found = pieces(rt, alloc, table.flat());
            ends_are(rt, found.as_slice(), first, last, *count);
        }
        Step::Own(number, blocks) => own_is(rt, at, table, *number, blocks),
        Step::OwnCount(number) => own_is_counted(rt, alloc, table, *number),
        Step::Least(wanted) => least_is(rt, at.0, table, wanted),
        Step::LeastCount(wanted) => least_count_is(rt, table, *wanted),
        _ => (),
    }
}

/// The blocks that the network governs.
fn governed(rt: &impl Abort, alloc: Global, table: &RouteTable, asked: &IpNet) -> Vec<IpNet> {
    table.governed(asked).collect(alloc).expect(rt, "memory")
}

/// This is the route, by the hop 1.
fn listed_is(rt: &impl Abort, at: (&str, usize), found: Option<(IpNet, Hop, u16)>, text: &str) {
    step_is(rt, at, found, Some((net(rt, text), Hop::Number(1), 100)));
}

/// These are the routes, all by the hop 1.
fn list_is(rt: &impl Abort, at: (&str, usize), found: &[(IpNet, Hop, u16)], texts: &[&str]) {
    let mut left = found.iter();
    for text in texts {
        listed_is(rt, at, left.next().copied(), text);
    }
    step_is(rt, at, left.next(), None);
}

/// Checks the routes of the network.
fn all_are(
    rt: &impl Abort,
    at: (&str, usize),
    table: &RouteTable,
    asked: &IpNet,
    wanted: &[(Hop, u16)],
) {
    let mut all = table.all(asked);
    for route in wanted {
        step_is(rt, at, all.next(), Some(*route));
    }
    step_is(rt, at, all.next(), None);
}

/// The hops of the routes in order, as the digits of a number; a `Drop` is 0.
fn hops(routes: &[(IpNet, Hop, u16)]) -> u32 {
    let mut digits = 0u32;
    for (_, hop, _) in routes {
        digits = digits
            .wrapping_mul(10)
            .wrapping_add(hop.number().unwrap_or(0));
    }
    digits
}

/// The hops of a walk are these digits.
fn hops_are(rt: &impl Abort, alloc: Global, at: (&str, usize), routes: Routes<'_>, wanted: u32) {
    let found = listed(rt, alloc, routes);
    step_is(rt, at, hops(found.as_slice()), wanted);
}

/// The calls of a script answer so, one after another, of a table of these routes.
fn goes(rt: &impl Abort, alloc: Global, row: &str, stored: &str, steps: &[Step]) {
    let mut table = table(rt, alloc, stored);
    for (at, step) in steps.iter().enumerate() {
        change(rt, alloc, (row, at), &mut table, step);
    }
}

/// Checks each script.
pub(crate) fn carry_out(rt: &impl Abort, alloc: Global, scripts: &[Script]) {
    for (row, stored, steps) in scripts {
        goes(rt, alloc, row, stored, steps);
    }
}
