//! Rows of inputs and outputs of the runs, written out.
use crate::tests::rows::{prints, row_is, text_is};
use crate::tests::runs::{Mode, followed, gives, led, shortened};
use route_feed::{FollowError, Follower, RunError};
use std::alloc::Global;
use std::process::Abort;
use std::str::from_utf8;
use std::test::Fail;

/// Inputs of a leader, and its whole output.
const LED: [(&str, &str); 25] = [
    ("", ""),
    (
        "add 10.0.0.0/8 1\nadd 10.0.0.0/9 2\ndel 10.0.0.0/8 1\n",
        "set 10.0.0.0/8 1\nok\nset 10.0.0.0/9 2\nok\nunset 10.128.0.0/9\nok\n",
    ),
    (
        "add 10.0.0.0/8 drop\nget 10.1.0.0/16\ndel 10.0.0.0/8 drop\ndel 10.0.0.0/8 drop\n",
        "ok\nroute 10.0.0.0/8 drop 100\nok\nok\nnone\n",
    ),
    (
        "add 10.0.0.0/8 1\nadd 10.0.0.0/9 2\nadd 10.64.0.0/10 1\nget 10.1.2.3/32\nadd 10.0.0.0/8 3 200\ndel 10.0.0.0/9 2\nflat\n",
        "set 10.0.0.0/8 1\nok\nset 10.0.0.0/9 2\nok\nset 10.64.0.0/10 1\nok\nroute 10.0.0.0/9 2 100\nok\nset 10.128.0.0/9 3\nok\nset 10.0.0.0/10 3\nok\nflat 10.0.0.0/10 3\nflat 10.64.0.0/10 1\nflat 10.128.0.0/9 3\nok\n",
    ),
    (
        "add 0.0.0.0/0 1\nadd 0.0.0.0/1 2\nadd 128.0.0.0/1 3\nadd 0.0.0.0/0 9\ndel 128.0.0.0/1 3\nflat\n",
        "set 0.0.0.0/0 1\nok\nset 0.0.0.0/1 2\nok\nset 128.0.0.0/1 3\nok\nok\nset 128.0.0.0/1 1\nok\nflat 0.0.0.0/1 2\nflat 128.0.0.0/1 1\nok\n",
    ),
    (
        "add 10.0.0.0/30 1\nadd 10.0.0.1/32 drop\nget 10.0.0.1/32\n",
        "set 10.0.0.0/30 1\nok\nunset 10.0.0.1/32\nok\nroute 10.0.0.1/32 drop 100\nok\n",
    ),
    (
        "add 255.255.255.255/32 9\nadd 255.255.255.252/30 5\nflat\ndel 255.255.255.252/30 5\n",
        "set 255.255.255.255/32 9\nok\nset 255.255.255.252/31 5\nset 255.255.255.254/32 5\nok\nflat 255.255.255.252/31 5\nflat 255.255.255.254/32 5\nflat 255.255.255.255/32 9\nok\nunset 255.255.255.252/31\nunset 255.255.255.254/32\nok\n",
    ),
    (
        "add ::ffff:10.0.0.0/104 1\nget 10.0.0.0/8\nadd 2001:DB8::1/32 7\nget 2001:db8::/32\n",
        "set ::ffff:10.0.0.0/104 1\nok\nnone\nset 2001:db8::/32 7\nok\nroute 2001:db8::/32 7 100\nok\n",
    ),
    (
        "add 10.0.0.0/8 1\nadd 10.1.2.3/16 1\nlist 10.0.0.0/8\nlist 10.1.0.0/16\nlist 11.0.0.0/8\n",
        "set 10.0.0.0/8 1\nok\nok\nroute 10.0.0.0/8 1 100\nroute 10.1.0.0/16 1 100\nok\nroute 10.1.0.0/16 1 100\nok\nok\n",
    ),
    (
        "del 10.0.0.0/8 1\nadd 10.0.0.0 drop\nadd 10.0.0.0/33 drop\nadd 10.0.0.0/8 4294967296\nadd 10.0.0.0/8 01\n",
        "none\nbad\nbad\nbad\nbad\n",
    ),
    (
        "\n123456789012345678901234567890123456789012345678901234567890123456789012345678901\nflats",
        "bad\nbad\nbad\n",
    ),
    (
        "add 10.0.0.0/8 drop\nadd 10.1.1.0/24 drop\nadd 10.1.0.0/16 drop\nget 10.1.1.1/32\nget 10.1.0.0/16\nget 11.0.0.0/8\nget 0.0.0.0/0\n",
        "ok\nok\nok\nroute 10.1.1.0/24 drop 100\nok\nroute 10.1.0.0/16 drop 100\nok\nnone\nnone\n",
    ),
    (
        "add  10.0.0.0/8 drop\nadd 10.0.0.0/8 drop \nADD 10.0.0.0/8 drop\nget 10.0.0.0/8\r\nget 255.255.255.255/32",
        "bad\nbad\nbad\nbad\nbad\n",
    ),
    (
        "add 10.0.0.0/8 1\nadd 10.1.0.0/16 2\nadd 10.2.0.0/16 3\nadd 10.2.0.0/24 4\nadd 10.3.0.0/16 5\nadd 10.4.0.0/16 6\nfrom 10.2.0.0/16 3\nafter 10.2.0.0/16 3\ncover 10.2.0.0/23\n",
        "set 10.0.0.0/8 1\nok\nset 10.1.0.0/16 2\nok\nset 10.2.0.0/16 3\nok\nset 10.2.0.0/24 4\nok\nset 10.3.0.0/16 5\nok\nset 10.4.0.0/16 6\nok\nroute 10.2.0.0/16 3 100\nroute 10.2.0.0/24 4 100\nroute 10.3.0.0/16 5 100\nok\nroute 10.2.0.0/24 4 100\nroute 10.3.0.0/16 5 100\nroute 10.4.0.0/16 6 100\nok\nroute 10.0.0.0/8 1 100\nroute 10.2.0.0/16 3 100\nok\n",
    ),
    (
        "add ::/0 4\nadd 0.0.0.0/0 3\ncount\nflat\n",
        "set ::/0 4\nok\nset 0.0.0.0/0 3\nok\ncount 1 1\nok\nflat 0.0.0.0/0 3\nflat ::/0 4\nok\n",
    ),
    (
        "cover 10.0.0.0/8\nfrom ::/0 1\nafter 0.0.0.0/0 1000\nfrom 10.0.0.0/8 0\nlist  10.0.0.0/8\nfrom 10.0.0.0/8 1001\ncount \nflat\r\n",
        "ok\nok\nok\nbad\nbad\nbad\nbad\nbad\n",
    ),
    (
        "add 10.0.0.0/8 1\nadd 10.0.0.0/9 2\nadd 10.64.0.0/10 1\nflat\n",
        "set 10.0.0.0/8 1\nok\nset 10.0.0.0/9 2\nok\nset 10.64.0.0/10 1\nok\nflat 10.0.0.0/10 2\nflat 10.64.0.0/10 1\nflat 10.128.0.0/9 1\nok\n",
    ),
    (
        "add 10.0.0.0/8 1\nadd 10.0.0.0/8 1\nadd 10.0.0.0/8 drop\ndel 10.0.0.0/8 1\nflat\n",
        "set 10.0.0.0/8 1\nok\nok\nok\nunset 10.0.0.0/8\nok\nok\n",
    ),
    (
        "add 10.0.0.0/8 5 100\nadd 10.0.0.0/8 3 100\nadd 10.0.0.0/8 9 50\ndel 10.0.0.0/8 3\nall 10.0.0.0/8\n",
        "set 10.0.0.0/8 5\nok\nset 10.0.0.0/8 3\nok\nok\nset 10.0.0.0/8 5\nok\nroute 10.0.0.0/8 5 100\nroute 10.0.0.0/8 9 50\nok\n",
    ),
    (
        "add 10.0.0.0/8 1\nadd 10.0.0.0/8 2\nadd 10.0.0.0/8 3\nadd 10.0.0.0/8 4\nadd 10.0.0.0/8 5\nadd 10.0.0.0/8 6\nadd 10.0.0.0/8 7\nadd 10.0.0.0/8 8\nadd 10.0.0.0/8 9\nadd 10.0.0.0/8 8 200\nadd 10.0.0.0/8 9 200\ncount\n",
        "set 10.0.0.0/8 1\nok\nok\nok\nok\nok\nok\nok\nok\nrefused\nset 10.0.0.0/8 8\nok\nrefused\ncount 1 0\nok\n",
    ),
    (
        "add 10.0.0.0/8 1 65536\nadd 10.0.0.0/8 1 0100\ndel 10.0.0.0/8\nall 10.0.0.0/8\n",
        "bad\nbad\nbad\nok\n",
    ),
    (
        "add 10.1.2.3/8 1 0\nadd 10.0.0.0/8 drop 65535\nall 10.4.5.6/8\nget 10.0.0.0/9\nall 10.0.0.0/9\ndel 10.0.0.0/8 2\n",
        "set 10.0.0.0/8 1\nok\nunset 10.0.0.0/8\nok\nroute 10.0.0.0/8 drop 65535\nroute 10.0.0.0/8 1 0\nok\nroute 10.0.0.0/8 drop 65535\nok\nok\nnone\n",
    ),
    (
        "add 10.0.0.0/30 1\nadd 10.0.0.1/32 2\nown 1\nown 2\nown 3\nown drop\n",
        "set 10.0.0.0/30 1\nok\nset 10.0.0.1/32 2\nok\nown 10.0.0.0/32\nown 10.0.0.2/31\nok\nown 10.0.0.1/32\nok\nok\nbad\n",
    ),
    (
        "add 255.255.255.255/32 9\nadd 255.255.255.252/30 5\nflat\nown 5\n",
        "set 255.255.255.255/32 9\nok\nset 255.255.255.252/31 5\nset 255.255.255.254/32 5\nok\nflat 255.255.255.252/31 5\nflat 255.255.255.254/32 5\nflat 255.255.255.255/32 9\nok\nown 255.255.255.252/31\nown 255.255.255.254/32\nok\n",
    ),
    (
        "add 0.0.0.0/0 1\nadd 255.255.255.255/32 2\ndel 0.0.0.0/0 1\n",
        "set 0.0.0.0/0 1\nok\nset 255.255.255.255/32 2\nok\nunset 0.0.0.0/1\nunset 128.0.0.0/2\nunset 192.0.0.0/3\nunset 224.0.0.0/4\nunset 240.0.0.0/5\nunset 248.0.0.0/6\nunset 252.0.0.0/7\nunset 254.0.0.0/8\nunset 255.0.0.0/9\nunset 255.128.0.0/10\nunset 255.192.0.0/11\nunset 255.224.0.0/12\nunset 255.240.0.0/13\nunset 255.248.0.0/14\nunset 255.252.0.0/15\nunset 255.254.0.0/16\nunset 255.255.0.0/17\nunset 255.255.128.0/18\nunset 255.255.192.0/19\nunset 255.255.224.0/20\nunset 255.255.240.0/21\nunset 255.255.248.0/22\nunset 255.255.252.0/23\nunset 255.255.254.0/24\nunset 255.255.255.0/25\nunset 255.255.255.128/26\nunset 255.255.255.192/27\nunset 255.255.255.224/28\nunset 255.255.255.240/29\nunset 255.255.255.248/30\nunset 255.255.255.252/31\nunset 255.255.255.254/32\nok\n",
    ),
];

/// The same for a follower.
const FOLLOWED: [(&str, &str); 15] = [
    ("", "ok\n"),
    (
        "set 10.0.0.0/8 1\nok\nset 10.0.0.0/9 2\nok\nunset 10.128.0.0/9\nok\n",
        "flat 10.0.0.0/9 2\nok\n",
    ),
    (
        "set 10.0.0.0/8 1\nok\nset 10.0.0.0/9 2\no",
        "flat 10.0.0.0/8 1\nok\n",
    ),
    ("set 10.0.0.0/8 1\nrefused\nok\n", "ok\n"),
    (
        "set 10.0.0.0/30 1\nok\nunset 10.0.0.1/32\nok\n",
        "flat 10.0.0.0/32 1\nflat 10.0.0.2/31 1\nok\n",
    ),
    (
        "set 10.0.0.0/30 1\nok\nunset 10.0.0.1/32\nok\nunset 0.0.0.0/0\nok\n",
        "ok\n",
    ),
    (
        "set 10.0.0.0/8 1\ncount 1 0\nok\n",
        "flat 10.0.0.0/8 1\nok\n",
    ),
    (
        "set 10.0.0.0/8 1\nset 10.0.0.0/9 2\nok\n",
        "flat 10.0.0.0/9 2\nflat 10.128.0.0/9 1\nok\n",
    ),
    (
        "set 10.0.0.0/9 2\nset 10.0.0.0/8 1\nok\n",
        "flat 10.0.0.0/8 1\nok\n",
    ),
    (
        "set 10.0.0.0/8 1\nnone\nset 10.0.0.0/8 2\nok\n",
        "flat 10.0.0.0/8 2\nok\n",
    ),
    ("flat 10.0.0.0/8 1\nok\n", "ok\n"),
    (
        "set 10.0.0.0/8 1\nok\nroute 10.0.0.0/8 1\nok\n",
        "flat 10.0.0.0/8 1\nok\n",
    ),
    (
        "set 10.0.0.0/8 1\nok\nroute 10.0.0.0/8 1 100\nok\n",
        "flat 10.0.0.0/8 1\nok\n",
    ),
    ("set 10.1.2.3/8 1\nok\n", "flat 10.0.0.0/8 1\nok\n"),
    (
        "set ::/0 1\nok\nset 8000::/1 2\nok\n",
        "flat ::/1 1\nflat 8000::/1 2\nok\n",
    ),
];

/// The same for `shorten`. In each row, no table with fewer routes has the same flat list.
const SHORTENED: [(&str, &str); 6] = [
    ("", ""),
    (
        "set 10.0.0.0/8 1\nok\nset 10.0.0.0/9 2\nok\nset 10.64.0.0/10 1\nok\n",
        "add 10.0.0.0/8 1\nadd 10.0.0.0/10 2\n",
    ),
    (
        "set 10.0.0.0/8 1\nok\nset 10.0.0.0/9 2\no",
        "add 10.0.0.0/8 1\n",
    ),
    (
        "set 0.0.0.0/0 1\nunset 0.0.0.0/32\nunset 255.255.255.255/32\nok\n",
        "add 0.0.0.0/0 1\nadd 0.0.0.0/32 drop\nadd 255.255.255.255/32 drop\n",
    ),
    (
        "set ::/0 1\nunset ::/128\nunset ffff:ffff:ffff:ffff:ffff:ffff:ffff:ffff/128\nok\nset 10.1.2.3/8 1\nok\n",
        "add 10.0.0.0/8 1\nadd ::/0 1\nadd ::/128 drop\nadd ffff:ffff:ffff:ffff:ffff:ffff:ffff:ffff/128 drop\n",
    ),
    (
        "set 10.0.0.0/8 1\nrefused\nset 10.0.0.0/8 2\nnone\nok\n",
        "",
    ),
];

/// The same for an installer.
const INSTALLED: [(&str, &str); 14] = [
    ("", ""),
    // Nothing is written before the first `sync`. A last line without its line end is ignored.
    ("have 10.0.0.0/8 1\nset 10.0.0.0/8 2\nok\nsync", ""),
    ("sync\nsync\nok\n", "ok\nok\n"),
    // The first `sync` leads from the installed routes to a least table. Then each change is carried out, and the next `sync` leads to a
    // least table again.
    (
        "have 10.0.0.0/8 1\nhave 10.0.0.0/9 1\nset 10.0.0.0/8 1\nok\nsync\nset 192.0.2.0/24 2\nok\nok\nsync\n",
        "remove 10.0.0.0/9\nok\ninstall 192.0.2.0/24 2\nok\nok\n",
    ),
    // The last `have` of a network counts. The inner route is installed before the outer one.
    (
        "have 10.0.0.0/8 1\nhave 10.1.2.3/8 2\nset 10.0.0.0/8 1\nset 10.1.0.0/16 3\nok\nsync\n",
        "install 10.1.0.0/16 3\ninstall 10.0.0.0/8 1\nok\n",
    ),
    // Routes to networks inside a change are removed.
    (
        "set 10.0.0.0/8 1\nset 10.1.0.0/16 3\nok\nsync\nset 10.0.0.0/8 1\nok\nunset 10.0.0.0/9\nok\n",
        "install 10.1.0.0/16 3\ninstall 10.0.0.0/8 1\nok\nremove 10.1.0.0/16\nok\ninstall 10.0.0.0/9 drop\nok\n",
    ),
    // If no outer route is left, a hop is taken away by `remove`. A change to a hop that is already in effect writes nothing.
    (
        "sync\nset 2001:db8::/32 7\nok\nset 2001:db8:1::/48 7\nok\nunset 2001:db8::/32\nok\n",
        "ok\ninstall 2001:db8::/32 7\nok\nok\nremove 2001:db8::/32\nok\n",
    ),
    // Both changes of a reply are one batch.
    (
        "sync\nset 10.0.0.0/8 1\nset 192.0.2.0/24 2\nok\n",
        "ok\ninstall 192.0.2.0/24 2\ninstall 10.0.0.0/8 1\nok\n",
    ),
    // Changes are dropped if their closing line is not `ok`.
    ("sync\nset 10.0.0.0/8 1\nbad\nok\n", "ok\n"),
    ("sync\nset 10.0.0.0/8 1\nnone\nok\n", "ok\n"),
    ("sync\nset 10.0.0.0/8 1\nrefused\nok\n", "ok\n"),
    // A `sync` doesn't drop changes that still lack their closing line.
    (
        "sync\nset 10.0.0.0/8 1\nsync\nok\n",
        "ok\nok\ninstall 10.0.0.0/8 1\nok\n",
    ),
    // Other reply lines change nothing.
    (
        "sync\nroute 10.0.0.0/8 1 100\nflat 10.0.0.0/8 1\nown 10.0.0.0/8\ncount 1 0\nok\n",
        "ok\n",
    ),
    // After an interrupted batch, the installed routes are given again by `have` lines.
    (
        "have 10.1.0.0/16 3\nset 10.0.0.0/8 1\nset 10.1.0.0/16 3\nok\nsync\n",
        "install 10.0.0.0/8 1\nok\n",
    ),
];

/// All these rows. A leader and a follower also run with `AtEnd::Leak`.
pub(crate) const READ_TO_THE_END: [(Mode, &[(&str, &str)]); 6] = [
    (Mode::Lead, &LED),
    (Mode::LeadLeaking, &LED),
    (Mode::Follow, &FOLLOWED),
    (Mode::FollowLeaking, &FOLLOWED),
    (Mode::Shorten, &SHORTENED),
    (Mode::Install, &INSTALLED),
];

/// Inputs of an installer with a line that is wrong or comes too late, and the output for the lines before it.
const STOPPED: [(&str, &str); 6] = [
    ("sync\nhave 10.0.0.0/8 1\nsync\n", "ok\n"),
    (
        "sync\nset 10.0.0.0/8 1\nok\nhave 10.0.0.0/8\n",
        "ok\ninstall 10.0.0.0/8 1\nok\n",
    ),
    ("sync \n", ""),
    ("have 10.0.0.0/8 01\n", ""),
    ("Sync\n", ""),
    (
        "sync\n123456789012345678901234567890123456789012345678901234567890123456789012345678901\n",
        "ok\n",
    ),
];

/// Inputs with a line that is no reply line. Nothing is printed.
const FOREIGN: [(&str, &str); 8] = [
    ("set 10.0.0.0/8 1\nok\nsett 1\n", ""),
    ("set 10.0.0.0/8 drop\nok\n", ""),
    ("set 10.0.0.0/8 01\nok\n", ""),
    ("set 10.0.0.0/8 1\nok\nroute 10.0.0.0/8 1 65536\nok\n", ""),
    ("set 10.0.0.0/8 1\nok\nroute 10.0.0.0/8 1 \nok\n", ""),
    ("add 10.0.0.0/8 1\nok\n", ""),
    ("\n", ""),
    ("ok\r\n", ""),
];

/// All these rows.
const ENDED_EARLY: [(Mode, &[(&str, &str)]); 3] = [
    (Mode::Install, &STOPPED),
    (Mode::Follow, &FOREIGN),
    (Mode::Shorten, &FOREIGN),
];

/// Checks the output and the result of each row.
fn all_give(
    rt: &impl Abort,
    alloc: Global,
    tables: &[(Mode, &[(&str, &str)])],
    end: Result<(), RunError>,
) {
    for (mode, rows) in tables {
        rows_give(rt, alloc, *mode, rows, end);
    }
}

/// Checks the output and the result of each row of a mode.
fn rows_give(
    rt: &impl Abort,
    alloc: Global,
    mode: Mode,
    rows: &[(&str, &str)],
    end: Result<(), RunError>,
) {
    for (input, wanted) in rows {
        gives(rt, alloc, (mode, input), wanted, end);
    }
}

#[test]
fn read_to_the_end(rt: HostRuntime) {
    all_give(&rt, rt.alloc(), &READ_TO_THE_END, Ok(()));
}

#[test]
fn ended_early(rt: HostRuntime) {
    all_give(&rt, rt.alloc(), &ENDED_EARLY, Err(RunError::Line));
}

#[test]
fn statuses(rt: HostRuntime) {
    assert_eq!(rt; RunError::Memory.status(), 1);
    assert_eq!(rt; RunError::Line.status(), 5);
}

#[test]
fn errors(rt: HostRuntime) {
    prints(&rt, rt.alloc(), RunError::Memory, "no memory");
    prints(&rt, rt.alloc(), RunError::Read, "read fault");
    prints(&rt, rt.alloc(), RunError::Write, "write fault");
    prints(&rt, rt.alloc(), RunError::Line, "not a reply line");
    prints(&rt, rt.alloc(), FollowError::Memory, "no memory");
    prints(&rt, rt.alloc(), FollowError::NotALine, "not a reply line");
    prints(&rt, rt.alloc(), FollowError::Failed, "failed before");
}

/// The number of line ends in the bytes.
fn line_count(bytes: &[u8]) -> usize {
    let mut count = 0usize;
    for byte in bytes {
        if *byte == b'\n' {
            count = count.wrapping_add(1);
        }
    }
    count
}

/// Inputs, and the number of routes of the least table.
const LEAST: [(&str, usize); 5] = [
    ("", 0),
    ("set 10.0.0.0/8 1\nok\nset 10.0.0.0/9 2\no", 1),
    (
        "set 10.0.0.0/9 2\nset 10.128.0.0/10 2\nset 10.192.0.0/10 3\nok\n",
        2,
    ),
    (
        "set 0.0.0.0/0 1\nunset 0.0.0.0/32\nunset 255.255.255.255/32\nok\n",
        3,
    ),
    (
        "set ::/2 1\nset 4000::/2 2\nset 8000::/2 1\nset c000::/2 2\nok\nset 10.0.0.0/8 5\nok\n",
        4,
    ),
];

/// A leader that reads the commands in `given` must answer `flat` with the output that a follower of `input` prints.
fn is_flat_of(rt: &impl Abort, alloc: Global, given: &mut Vec<u8>, input: &str) {
    given.extend_from_slice(b"flat\n").expect(rt, "memory");
    let told = led(alloc, given.as_slice()).expect(rt, input);
    let flat = followed(alloc, input.as_bytes()).expect(rt, input);
    row_is(rt, input, told.ends_with(flat.as_slice()), true);
}

/// Checks the number of routes, and their flat list.
fn least_is(rt: &impl Abort, alloc: Global, input: &str, routes: usize) {
    let mut given = shortened(alloc, input.as_bytes()).expect(rt, input);
    row_is(rt, input, line_count(given.as_slice()), routes);
    is_flat_of(rt, alloc, &mut given, input);
}

#[test]
fn least(rt: HostRuntime) {
    for (input, routes) in &LEAST {
        least_is(&rt, rt.alloc(), input, *routes);
    }
}

// After a line that is none the follower has failed for good.
#[test]
fn failed_follower(rt: HostRuntime) -> Result<(), Fail> {
    let mut follower = Follower::new(rt.alloc())?;
    assert_eq!(rt; follower.line(b"set 10.0.0.0/8 1"), Ok(()));
    assert_eq!(rt; follower.line(b"ok"), Ok(()));
    assert_eq!(rt; follower.failed(), false);
    assert_eq!(rt; follower.line(b"ok "), Err(FollowError::NotALine));
    assert_eq!(rt; follower.failed(), true);
    assert_eq!(rt; follower.line(b"ok"), Err(FollowError::Failed));
    assert_eq!(rt; follower.flat().is_none(), true);
    Ok(())
}

/// Commands: two parts, each with `flat` at its end.
const COMMANDS: &[u8] =
    b"add 10.0.0.0/8 1\nadd 10.0.0.0/9 2\nadd 10.64.0.0/10 1\nflat\nown 1\nget 10.1.2.3/32\nadd 10.0.0.0/8 3 200\ndel 10.0.0.0/9 2\nflat\n";

/// Numbers of bytes of the output after which a hop changes, and the flat list from there on.
const HELD: [(usize, &str); 6] = [
    (0, "ok\n"),
    (20, "flat 10.0.0.0/8 1\nok\n"),
    (40, "flat 10.0.0.0/9 2\nflat 10.128.0.0/9 1\nok\n"),
    (
        62,
        "flat 10.0.0.0/10 2\nflat 10.64.0.0/10 1\nflat 10.128.0.0/9 1\nok\n",
    ),
    (
        209,
        "flat 10.0.0.0/10 2\nflat 10.64.0.0/10 1\nflat 10.128.0.0/9 3\nok\n",
    ),
    (
        230,
        "flat 10.0.0.0/10 3\nflat 10.64.0.0/10 1\nflat 10.128.0.0/9 3\nok\n",
    ),
];

/// The flat list after the first `end` bytes of the output.
fn held_at(end: usize) -> &'static str {
    let mut held: &'static str = "ok\n";
    for (from, flat) in &HELD {
        if *from <= end {
            held = flat;
        }
    }
    held
}

/// Checks that a follower of the first bytes of the leader's output prints the flat list that holds after them.
fn is_held(rt: &impl Abort, alloc: Global, beginning: &[u8]) {
    let out = followed(alloc, beginning).expect(rt, "a run");
    let row = from_utf8(beginning).unwrap_or("");
    text_is(rt, row, out.as_slice(), held_at(beginning.len()));
}

/// Each beginning of the output, and the whole output.
#[test]
fn beginnings(rt: HostRuntime) {
    let told = led(rt.alloc(), COMMANDS).expect(&rt, "a run");
    each_is_held(&rt, rt.alloc(), told.as_slice());
}

/// Checks each beginning.
fn each_is_held(rt: &impl Abort, alloc: Global, all: &[u8]) {
    for end in 0..=all.len() {
        is_held(rt, alloc, &all[..end]);
    }
}

/// Changes with the greatest number of blocks, one for each length; the number of lines of the output, and of its `unset` lines.
const LONGEST: [(&str, usize, usize); 2] = [
    (
        "add 0.0.0.0/0 1\nadd 255.255.255.255/32 2\ndel 0.0.0.0/0 1\n",
        37,
        32,
    ),
    (
        "add ::/0 1\nadd ffff:ffff:ffff:ffff:ffff:ffff:ffff:ffff/128 2\ndel ::/0 1\n",
        133,
        128,
    ),
];

#[test]
fn longest(rt: HostRuntime) {
    for (input, lines, unset) in &LONGEST {
        has_lines(&rt, rt.alloc(), input, *lines, *unset);
    }
}

/// Checks the number of lines of the output, and of its `unset` lines, which alone begin with this letter.
fn has_lines(rt: &impl Abort, alloc: Global, input: &str, lines: usize, unset: usize) {
    let out = led(alloc, input.as_bytes()).expect(rt, input);
    row_is(rt, input, line_count(out.as_slice()), lines);
    row_is(rt, input, lines_with(out.as_slice(), b'u'), unset);
}

/// The number of lines that begin with this byte.
fn lines_with(bytes: &[u8], first: u8) -> usize {
    let mut count = 0usize;
    let mut before = b'\n';
    for byte in bytes {
        if before == b'\n' && *byte == first {
            count = count.wrapping_add(1);
        }
        before = *byte;
    }
    count
}
