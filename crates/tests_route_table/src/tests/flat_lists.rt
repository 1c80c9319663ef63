//! Flat lists, with expected values written out.
use crate::tests::indexes::address;
use crate::tests::steps::Step::{Ends, Flat, Own, OwnCount, Runs};
use crate::tests::steps::{Script, carry_out};
use crate::tests::tables::{net, pieces, route, row_is, step_is};
use ipnet::{IpAddr, IpNet};
use route_table::{Hop, HopRun, RouteTable};
use std::alloc::Global;
use std::process::Abort;

/// Checks the next pieces.
fn pieces_come(rt: &impl Abort, flat: &mut route_table::Flat<'_>, pieces: &str) {
    for words in pieces.split_terminator(',') {
        piece_is(rt, words, flat.next());
    }
}

/// The piece is the one that the words spell.
fn piece_is(rt: &impl Abort, words: &str, piece: Option<(IpNet, u32)>) {
    let (net, hop) = route(rt, words.trim());
    let found = piece.expect(rt, words);
    row_is(rt, words, (found.0, Hop::Number(found.1)), (net, hop));
}

/// These are the pieces.
fn pieces_are(rt: &impl Abort, found: &[(IpNet, u32)], text: &str) {
    let mut left = found.iter();
    for words in text.split_terminator(',') {
        piece_is(rt, words, left.next().copied());
    }
    row_is(rt, text, left.next(), None);
}

/// The flat list has these pieces.
pub(crate) fn flat_is(rt: &impl Abort, alloc: Global, flat: route_table::Flat<'_>, text: &str) {
    let found = pieces(rt, alloc, flat);
    pieces_are(rt, found.as_slice(), text);
}

/// The run that the text spells: its first address, its last address and its hop.
fn run_of(rt: &impl Abort, text: &str) -> HopRun {
    let mut words = text.split_whitespace();
    let first = address(rt, words.next().expect(rt, "a first address"));
    let last = address(rt, words.next().expect(rt, "a last address"));
    let hop = words.next().expect(rt, "a hop").parse().expect(rt, "a hop");
    match (first, last) {
        (IpAddr::V4(first), IpAddr::V4(last)) => HopRun::V4(first.to_bits(), last.to_bits(), hop),
        (IpAddr::V6(first), IpAddr::V6(last)) => HopRun::V6(first.to_bits(), last.to_bits(), hop),
        _ => rt.abort(),
    }
}

/// Checks the first pieces of the flat list, and then the runs of the rest.
pub(crate) fn runs_are(rt: &impl Abort, table: &RouteTable, pieces: &str, runs: &str) {
    let mut flat = table.flat();
    pieces_come(rt, &mut flat, pieces);
    runs_come(rt, &mut flat, runs);
    row_is(rt, runs, flat.next_run(), None);
}

/// The run is the one that the text spells.
fn run_is(rt: &impl Abort, text: &str, run: Option<HopRun>) {
    row_is(rt, text, run, Some(run_of(rt, text)));
}

/// Checks the next runs.
fn runs_come(rt: &impl Abort, flat: &mut route_table::Flat<'_>, runs: &str) {
    for text in runs.split_terminator(',') {
        run_is(rt, text, flat.next_run());
    }
}

/// The piece is this network, by the hop 2.
fn end_is(rt: &impl Abort, piece: Option<&(IpNet, u32)>, wanted: &str) {
    row_is(rt, wanted, piece.copied(), Some((net(rt, wanted), 2)));
}

/// How many pieces there are, with the first and the last, both by the hop 2.
pub(crate) fn ends_are(
    rt: &impl Abort,
    found: &[(IpNet, u32)],
    first: &str,
    last: &str,
    count: usize,
) {
    end_is(rt, found.first(), first);
    end_is(rt, found.last(), last);
    row_is(rt, last, found.len(), count);
}

/// These are the blocks.
pub(crate) fn blocks_are(rt: &impl Abort, at: (&str, usize), found: &[IpNet], blocks: &[&str]) {
    let mut left = found.iter();
    for text in blocks {
        step_is(rt, at, left.next().copied(), Some(net(rt, text)));
    }
    step_is(rt, at, left.next(), None);
}

/// The blocks of the number.
pub(crate) fn own_is(
    rt: &impl Abort,
    at: (&str, usize),
    table: &RouteTable,
    number: u32,
    blocks: &[&str],
) {
    let own = table.own(number).expect(rt, "memory");
    blocks_are(rt, at, own.as_slice(), blocks);
}

/// How many of the pieces have the number.
fn pieces_with(found: &[(IpNet, u32)], number: u32) -> usize {
    let mut count = 0usize;
    for (_, hop) in found {
        if *hop == number {
            count = count.wrapping_add(1);
        }
    }
    count
}

/// The number has as many blocks of its own as there are pieces with it in the flat list.
pub(crate) fn own_is_counted(rt: &impl Abort, alloc: Global, table: &RouteTable, number: u32) {
    let own = table.own(number).expect(rt, "memory").len();
    let found = pieces(rt, alloc, table.flat());
    let count = pieces_with(found.as_slice(), number);
    row_is(rt, "as many pieces", own, count);
}

/// Routes; and the flat list of a table of them, its ends, its runs, or the blocks of one hop.
static FLAT: [Script; 12] = [
    (
        "nested routes",
        "10.0.0.0/8 1, 10.0.0.0/9 2, 10.64.0.0/10 1",
        &[Flat("10.0.0.0/10 2, 10.64.0.0/10 1, 10.128.0.0/9 1")],
    ),
    (
        "neighbours join",
        "0.0.0.0/1 7, 128.0.0.0/1 7",
        &[Flat("0.0.0.0/0 7")],
    ),
    (
        "a nested route of the same hop",
        "10.0.0.0/8 1, 10.1.0.0/16 1",
        &[Flat("10.0.0.0/8 1")],
    ),
    (
        "dropped addresses are left out",
        "10.0.0.0/30 1, 10.0.0.1/32 drop",
        &[Flat("10.0.0.0/32 1, 10.0.0.2/31 1")],
    ),
    (
        "at the greatest address",
        "255.255.255.255/32 9, 255.255.255.252/30 5, ffff:ffff:ffff:ffff:ffff:ffff:ffff:ffff/128 9, \
         ffff:ffff:ffff:ffff:ffff:ffff:ffff:fffc/126 5",
        &[Flat(
            "255.255.255.252/31 5, 255.255.255.254/32 5, 255.255.255.255/32 9, \
             ffff:ffff:ffff:ffff:ffff:ffff:ffff:fffc/127 5, ffff:ffff:ffff:ffff:ffff:ffff:ffff:fffe/128 5, \
             ffff:ffff:ffff:ffff:ffff:ffff:ffff:ffff/128 9",
        )],
    ),
    (
        "IPv4 before IPv6",
        "::/0 4, 0.0.0.0/0 3",
        &[Flat("0.0.0.0/0 3, ::/0 4")],
    ),
    ("nothing in an empty table", "", &[Flat("")]),
    (
        "both ends of IPv4",
        "0.0.0.0/0 1, 0.0.0.0/32 2, 255.255.255.255/32 2",
        &[Ends("0.0.0.0/32", "255.255.255.255/32", 64)],
    ),
    (
        "both ends of IPv6",
        "::/0 1, ::/128 2, ffff:ffff:ffff:ffff:ffff:ffff:ffff:ffff/128 2",
        &[Ends("::/128", "ffff:ffff:ffff:ffff:ffff:ffff:ffff:ffff/128", 256)],
    ),
    (
        "runs",
        "10.0.0.0/30 1, 10.0.0.1/32 2, 10.0.0.4/32 1, 255.255.255.254/31 3, ::/0 3, ::5/128 4, ffff::/16 3",
        &[
            Runs(
                "",
                "10.0.0.0 10.0.0.0 1, 10.0.0.1 10.0.0.1 2, 10.0.0.2 10.0.0.4 1, 255.255.255.254 255.255.255.255 3, \
                 :: ::4 3, ::5 ::5 4, ::6 ffff:ffff:ffff:ffff:ffff:ffff:ffff:ffff 3",
            ),
            Runs(
                "10.0.0.0/32 1, 10.0.0.1/32 2, 10.0.0.2/31 1",
                "10.0.0.4 10.0.0.4 1, 255.255.255.254 255.255.255.255 3, \
                 :: ::4 3, ::5 ::5 4, ::6 ffff:ffff:ffff:ffff:ffff:ffff:ffff:ffff 3",
            ),
        ],
    ),
    (
        "own blocks",
        "10.0.0.0/30 1, 10.0.0.1/32 2",
        &[
            Own(1, &["10.0.0.0/32", "10.0.0.2/31"]),
            Own(2, &["10.0.0.1/32"]),
            Own(3, &[]),
        ],
    ),
    (
        "own blocks of both families",
        "8000::/1 7, 10.128.0.0/9 7, ::/1 7, 10.0.0.0/8 7, 10.0.0.0/32 drop, 10.0.0.0/31 8, 10.0.0.0/30 8",
        &[Own(8, &["10.0.0.1/32", "10.0.0.2/31"]), OwnCount(7)],
    ),
];

#[test]
fn flat_lists(rt: HostRuntime) {
    carry_out(&rt, rt.alloc(), &FLAT);
}
