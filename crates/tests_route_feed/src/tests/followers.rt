//! A follower line by line: the hops of addresses, and its least table.
use crate::tests::rows::{net, row_is};
use ipnet::{IpAddr, IpNet};
use route_feed::Follower;
use route_program::{Counted, Sink};
use route_table::Hop;
use std::alloc::Global;
use std::process::Abort;
use std::str::FromStr;
use std::test::Fail;

/// An open reply: a network, the same network again, one inside it, and one of IPv6. No closing line follows.
const OPEN: &str = "set 10.0.0.0/8 7\nset 10.0.0.0/8 1\nset 10.64.0.0/10 2\nset 2001:db8::/32 3\n";

/// The same reply with its closing line, then a reply that removes a part of it.
const CLOSED: &str =
    "set 10.0.0.0/8 7\nset 10.0.0.0/8 1\nset 10.64.0.0/10 2\nset 2001:db8::/32 3\nok\nflat 10.0.0.0/8 9\nunset 10.128.0.0/9\nok\n";

/// A line that is no reply line.
const FOREIGN: &str = "none of them";

/// `CLOSED`, and then that line.
const FAILED: &str =
    "set 10.0.0.0/8 7\nset 10.0.0.0/8 1\nset 10.64.0.0/10 2\nset 2001:db8::/32 3\nok\nflat 10.0.0.0/8 9\nunset 10.128.0.0/9\nok\nnone of them\n";

/// Lines; the hops of addresses after them; and the least table.
const FOLLOWED: [(&str, &[(&str, Option<u32>)], Option<&[(&str, Hop)]>); 4] = [
    ("", &[("10.0.0.0", None), ("::", None)], Some(&[])),
    // Changes without their closing line give no hop yet.
    (OPEN, &[("10.0.0.0", None)], Some(&[])),
    // Only changes that `ok` closes give hops, and the last one for an address counts.
    (
        CLOSED,
        &[
            ("9.255.255.255", None),
            ("10.0.0.0", Some(1)),
            ("10.64.0.0", Some(2)),
            ("10.127.255.255", Some(2)),
            ("10.128.0.0", None),
            ("2001:db8::", Some(3)),
            ("2001:db9::", None),
        ],
        Some(&[
            ("10.0.0.0/9", Hop::Number(1)),
            ("10.64.0.0/10", Hop::Number(2)),
            ("2001:db8::/32", Hop::Number(3)),
        ]),
    ),
    // After a fault there is no least table, and the hops are the ones from before the fault.
    (FAILED, &[("10.0.0.0", Some(1))], None),
];

/// Feeds the line. The follower must accept each line except `FOREIGN`.
fn take(rt: &impl Abort, follower: &mut Follower, line: &str) {
    let is_taken = follower.line(line.as_bytes()).is_ok();
    row_is(rt, line, is_taken, line != FOREIGN);
}

/// Feeds these lines.
fn takes(rt: &impl Abort, follower: &mut Follower, lines: &str) {
    for line in lines.split_terminator('\n') {
        take(rt, follower, line);
    }
}

fn address(rt: &impl Abort, text: &str) -> IpAddr {
    IpAddr::from_str(text).expect(rt, text)
}

fn hops_are(rt: &impl Abort, follower: &Follower, hops: &[(&str, Option<u32>)]) {
    for (text, hop) in hops {
        hop_is(rt, follower, text, *hop);
    }
}

fn hop_is(rt: &impl Abort, follower: &Follower, text: &str, hop: Option<u32>) {
    row_is(rt, text, follower.hop(address(rt, text)), hop);
}

fn routes_are(rt: &impl Abort, routes: &[(IpNet, Hop)], wanted: &[(&str, Hop)]) {
    row_is(rt, "routes", routes.len(), wanted.len());
    let mut left = routes.iter().copied();
    for (text, hop) in wanted {
        route_is(rt, left.next(), text, *hop);
    }
}

fn route_is(rt: &impl Abort, found: Option<(IpNet, Hop)>, text: &str, hop: Hop) {
    row_is(rt, text, found, Some((net(rt, text), hop)));
}

fn least_is(rt: &impl Abort, lines: &str, follower: &Follower, wanted: Option<&[(&str, Hop)]>) {
    let found = follower.least().expect(rt, "memory");
    row_is(rt, lines, found.is_some(), wanted.is_some());
    if let (Some(routes), Some(wanted)) = (found, wanted) {
        routes_are(rt, routes.as_slice(), wanted);
    }
}

#[test]
fn one_change(rt: HostRuntime) -> Result<(), Fail> {
    let host = address(&rt, "10.1.2.3");
    let mut follower = Follower::new(rt.alloc())?;
    follower.line(b"set 10.0.0.0/8 1")?;
    assert_eq!(rt; follower.hop(host), None);
    follower.line(b"ok")?;
    assert_eq!(rt; follower.hop(host), Some(1));
    has_one_route(&rt, &follower)
}

/// The least table has one route.
fn has_one_route(rt: &impl Abort, follower: &Follower) -> Result<(), Fail> {
    let least = follower.least()?.expect(&rt, "no fault");
    assert_eq!(rt; least.len(), 1);
    Ok(())
}

/// `None` is a line of more than 80 bytes.
#[test]
fn a_long_line_is_a_fault(rt: HostRuntime) -> Result<(), Fail> {
    let mut follower = Follower::new(rt.alloc())?;
    let mut writer = Counted::new(Vec::new(rt.alloc()));
    let is_taken = follower.take(None, &mut writer).is_ok();
    row_is(&rt, "taken", is_taken, false);
    row_is(&rt, "failed", follower.failed(), true);
    Ok(())
}

#[test]
fn followers(rt: HostRuntime) {
    for (lines, hops, least) in &FOLLOWED {
        follows(&rt, rt.alloc(), lines, hops, *least);
    }
}

/// Checks the hops and the least table after these lines.
fn follows(
    rt: &impl Abort,
    alloc: Global,
    lines: &str,
    hops: &[(&str, Option<u32>)],
    least: Option<&[(&str, Hop)]>,
) {
    let mut follower = Follower::new(alloc).expect(rt, "a follower");
    takes(rt, &mut follower, lines);
    hops_are(rt, &follower, hops);
    least_is(rt, lines, &follower, least);
}
