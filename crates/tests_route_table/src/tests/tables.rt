//! Comparisons for the tests, and the tables they use.
use ipnet::IpNet;
use route_table::{Flat, Hop, HopTable, RouteTable, Routes};
use std::alloc::Global;
use std::fmt::Debug;
use std::process::Abort;
use std::str::FromStr;

/// Checks that `found` is `wanted`. If not, the message contains the row. A proof about a call of this function takes a tenth of the time
/// of a proof about `assert_eq!`.
pub(crate) fn row_is<T: Copy + PartialEq + Debug>(rt: &impl Abort, row: &str, found: T, wanted: T) {
    assert_eq!(rt; (row, found), (row, wanted));
}

/// The same check for a step of a script. The message also contains the number of steps before it.
pub(crate) fn step_is<T: Copy + PartialEq + Debug>(
    rt: &impl Abort,
    at: (&str, usize),
    found: T,
    wanted: T,
) {
    row_is(rt, at.0, (at.1, found), (at.1, wanted));
}

pub(crate) fn net(rt: &impl Abort, text: &str) -> IpNet {
    IpNet::from_str(text).expect(rt, text)
}

/// The hop that a word spells: a number, or `drop`.
fn hop_of(rt: &impl Abort, word: &str) -> Hop {
    if word == "drop" {
        return Hop::Drop;
    }
    Hop::Number(u32::from_str(word).expect(rt, word))
}

/// The route that two words spell: a network and a hop.
pub(crate) fn route(rt: &impl Abort, words: &str) -> (IpNet, Hop) {
    let (network, word) = words.split_once(' ').expect(rt, words);
    (net(rt, network), hop_of(rt, word))
}

/// Checks that the route is the one that the words spell.
fn route_is(rt: &impl Abort, row: &str, found: Option<(IpNet, Hop)>, words: &str) {
    row_is(rt, row, found, Some(route(rt, words.trim())));
}

/// Checks that these are the routes of the text, in this order.
pub(crate) fn routes_are(rt: &impl Abort, row: &str, found: &[(IpNet, Hop)], text: &str) {
    let mut left = found.iter();
    for words in text.split_terminator(',') {
        route_is(rt, row, left.next().copied(), words);
    }
    row_is(rt, row, left.next().copied(), None);
}

/// The routes that a walk gives. Each walk is gathered by one function, since a loop over it takes long to prove.
pub(crate) fn listed(rt: &impl Abort, alloc: Global, routes: Routes<'_>) -> Vec<(IpNet, Hop, u16)> {
    routes.collect(alloc).expect(rt, "memory")
}

/// The pieces of a flat list.
pub(crate) fn pieces(rt: &impl Abort, alloc: Global, flat: Flat<'_>) -> Vec<(IpNet, u32)> {
    flat.collect(alloc).expect(rt, "memory")
}

/// A table of the routes of a text, added in order with the default preference.
pub(crate) fn table(rt: &impl Abort, alloc: Global, text: &str) -> RouteTable {
    let mut table = RouteTable::new(alloc).expect(rt, "a table");
    for words in text.split_terminator(',') {
        add_spelled(rt, &mut table, words);
    }
    table
}

/// The route that the words spell is added.
fn add_spelled(rt: &impl Abort, table: &mut RouteTable, words: &str) {
    let (net, hop) = route(rt, words.trim());
    add(rt, table, net, hop, words);
}

/// A route with the default preference is added.
pub(crate) fn add(rt: &impl Abort, table: &mut RouteTable, net: IpNet, hop: Hop, row: &str) {
    row_is(rt, row, table.add(net, hop, 100).err(), None);
}

/// The same of the network of a text.
pub(crate) fn put(rt: &impl Abort, table: &mut RouteTable, text: &str, hop: Hop) {
    add(rt, table, net(rt, text), hop, text);
}

/// A table of one hop a network, which is empty.
pub(crate) fn hop_table(rt: &impl Abort, alloc: Global) -> HopTable {
    HopTable::new(alloc).expect(rt, "a table")
}
