//! Rows of texts: each is read, and the value is printed again.
use crate::tests::rows::{net, prints, row_is, text_is};
use route_lines::{Closing, Command, FibInput, FibUpdate, NotALine, Reply};
use route_table::{Hop, Operation};
use std::process::Abort;

/// Checks that the text is a reply line that is printed as `expected`. If `expected` is empty, the text is no reply line.
fn printed(rt: &impl Abort, text: &str, expected: &str) {
    match Reply::read(text.as_bytes()) {
        Ok(reply) => text_is(rt, text, reply.print().as_slice(), expected),
        Err(_) => row_is(rt, text, "", expected),
    }
}

/// The same check for a command.
fn printed_command(rt: &impl Abort, text: &str, expected: &str) {
    match Command::read(text.as_bytes()) {
        Ok(command) => text_is(rt, text, command.print().as_slice(), expected),
        Err(_) => row_is(rt, text, "", expected),
    }
}

/// The same check for a line that an installer writes.
fn printed_update(rt: &impl Abort, text: &str, expected: &str) {
    match FibUpdate::read(text.as_bytes()) {
        Ok(update) => text_is(rt, text, update.print().as_slice(), expected),
        Err(_) => row_is(rt, text, "", expected),
    }
}

const REPLIES: [(&str, &str); 28] = [
    ("set 10.1.2.3/08 5", "set 10.0.0.0/8 5\n"),
    ("set 10.1.2.3/8 05", ""),
    ("set 10.1.2.3/8  5", ""),
    ("set 10.1.2.3/8 5 ", ""),
    ("unset FFFF::1/16", "unset ffff::/16\n"),
    ("unset FFFF::1/0", "unset ::/0\n"),
    ("route 10.1.2.3/8 drop 100", "route 10.0.0.0/8 drop 100\n"),
    (
        "route 1.2.3.4/31 4294967295 65535",
        "route 1.2.3.4/31 4294967295 65535\n",
    ),
    (
        "route ffff:ffff:ffff:ffff:ffff:ffff:ffff:ffff/128 4294967295 65535",
        "route ffff:ffff:ffff:ffff:ffff:ffff:ffff:ffff/128 4294967295 65535\n",
    ),
    ("route 1.2.3.4/31 4294967296 0", ""),
    ("route 1.2.3.4/31 1 65536", ""),
    ("route 10.1.2.3/8 1", "route 10.0.0.0/8 1\n"),
    ("route 2001:DB8::/32 drop", "route 2001:db8::/32 drop\n"),
    ("route 10.0.0.0/8 1 ", ""),
    ("route 10.0.0.0/8 01", ""),
    ("route 10.0.0.0/8 1 0100", ""),
    ("route 10.0.0.0/8", ""),
    ("route 10.0.0.0/8 1 1 1", ""),
    ("flat 1.2.3.4/0 0", "flat 0.0.0.0/0 0\n"),
    ("own 1.2.3.4/32", "own 1.2.3.4/32\n"),
    (
        "count 0 18446744073709551615",
        "count 0 18446744073709551615\n",
    ),
    ("count 0 18446744073709551616", ""),
    ("ok", "ok\n"),
    ("none", "none\n"),
    ("bad", "bad\n"),
    ("refused", "refused\n"),
    ("ok ", ""),
    ("", ""),
];

#[test]
fn replies(rt: HostRuntime) {
    for (text, expected) in &REPLIES {
        printed(&rt, text, expected);
    }
}

/// The longest command that is read: 72 bytes.
const LONGEST: &str = "add ::ffff:ffff:ffff:ffff:ffff:ffff:255.255.255.255/128 4294967295 65535";

/// The longest command that is printed: 65 bytes.
const LONGEST_PRINTED: &str = "add ffff:ffff:ffff:ffff:ffff:ffff:ffff:ffff/128 4294967295 65535\n";

const COMMANDS: [(&str, &str); 42] = [
    ("add 10.0.0.0/8 drop", "add 10.0.0.0/8 drop\n"),
    ("add 10.0.0.0/8 4294967295", "add 10.0.0.0/8 4294967295\n"),
    ("add 10.0.0.0/8 4294967296", ""),
    ("add 10.0.0.0/8 007", ""),
    ("add 10.0.0.0/8 +1", ""),
    ("add 10.1.2.3/08 1", "add 10.0.0.0/8 1\n"),
    ("add 10.0.0.0/8 1 100", "add 10.0.0.0/8 1\n"),
    ("add 10.0.0.0/8 1 0", "add 10.0.0.0/8 1 0\n"),
    ("add 10.0.0.0/8 1 200", "add 10.0.0.0/8 1 200\n"),
    ("add 10.0.0.0/8 drop 65535", "add 10.0.0.0/8 drop 65535\n"),
    ("add 10.0.0.0/8 1 65536", ""),
    ("add 10.0.0.0/8 1 0100", ""),
    ("add 10.0.0.0/8 1 ", ""),
    ("add 10.0.0.0/8 1 1 1", ""),
    ("add 10.0.0.0/8  1", ""),
    (LONGEST, LONGEST_PRINTED),
    ("add 10.0.0.0/8", ""),
    ("add 10.0.0.0 1", ""),
    ("add 10.0.0.0/33 1", ""),
    ("del 10.0.0.0/8 drop", "del 10.0.0.0/8 drop\n"),
    ("del 2001:DB8::1/32 100", "del 2001:db8::/32 100\n"),
    (" del 10.0.0.0/8 drop", ""),
    ("del 10.0.0.0/8 1 100", ""),
    ("del 10.0.0.0/8", ""),
    ("get 2001:DB8::/32", "get 2001:db8::/32\n"),
    ("cover 10.0.0.0/8", "cover 10.0.0.0/8\n"),
    ("list 10.0.0.0/8", "list 10.0.0.0/8\n"),
    ("list  10.0.0.0/8", ""),
    ("all 10.0.0.0/8", "all 10.0.0.0/8\n"),
    ("all 10.0.0.0/8 1", ""),
    ("from ::/0 1000", "from ::/0 1000\n"),
    ("from ::/0 0", ""),
    ("from 10.0.0.0/8 1001", ""),
    ("after ::/0 1", "after ::/0 1\n"),
    ("own 7", "own 7\n"),
    ("own drop", ""),
    ("count", "count\n"),
    ("count ", ""),
    ("flat", "flat\n"),
    ("flat\r", ""),
    ("Flat", ""),
    ("", ""),
];

#[test]
fn commands(rt: HostRuntime) {
    for (text, expected) in &COMMANDS {
        printed_command(&rt, text, expected);
    }
}

/// The longest line of an installer that is read: 70 bytes.
const LONGEST_UPDATE: &str =
    "install ::ffff:ffff:ffff:ffff:ffff:ffff:255.255.255.255/128 4294967295";

/// The longest line of an installer that is printed: 63 bytes.
const LONGEST_PRINTED_UPDATE: &str =
    "install ffff:ffff:ffff:ffff:ffff:ffff:ffff:ffff/128 4294967295\n";

const UPDATES: [(&str, &str); 35] = [
    ("install 10.0.0.0/8 7", "install 10.0.0.0/8 7\n"),
    ("install 10.1.2.3/08 7", "install 10.0.0.0/8 7\n"),
    ("install 10.0.0.0/8 drop", "install 10.0.0.0/8 drop\n"),
    ("install 2001:DB8::1/32 0", "install 2001:db8::/32 0\n"),
    (
        "install 0.0.0.0/0 4294967295",
        "install 0.0.0.0/0 4294967295\n",
    ),
    (LONGEST_UPDATE, LONGEST_PRINTED_UPDATE),
    ("install 10.0.0.0/8 4294967296", ""),
    ("install 10.0.0.0/8 07", ""),
    ("install 10.0.0.0/8 Drop", ""),
    ("install 10.0.0.0/8 7 100", ""),
    ("install 10.0.0.0/8  7", ""),
    ("install  10.0.0.0/8 7", ""),
    ("install 10.0.0.0/8 7 ", ""),
    ("install 10.0.0.0/33 7", ""),
    ("install 10.0.0.0/8 ", ""),
    ("install 10.0.0.0/8", ""),
    ("install ", ""),
    ("install", ""),
    ("Install 10.0.0.0/8 7", ""),
    (" install 10.0.0.0/8 7", ""),
    ("remove 10.1.2.3/8", "remove 10.0.0.0/8\n"),
    ("remove FFFF::1/0", "remove ::/0\n"),
    ("remove 10.0.0.0/8 7", ""),
    ("remove 10.0.0.0/8 ", ""),
    ("remove  10.0.0.0/8", ""),
    ("remove", ""),
    ("REMOVE 10.0.0.0/8", ""),
    ("ok", "ok\n"),
    ("ok ", ""),
    ("OK", ""),
    ("okay", ""),
    ("set 10.0.0.0/8 7", ""),
    ("have 10.0.0.0/8 7", ""),
    ("sync", ""),
    ("", ""),
];

#[test]
fn updates(rt: HostRuntime) {
    for (text, expected) in &UPDATES {
        printed_update(&rt, text, expected);
    }
}

#[test]
fn lengths(rt: HostRuntime) {
    for (text, length) in [
        (LONGEST, 72),
        (LONGEST_PRINTED, 65),
        (LONGEST_UPDATE, 70),
        (LONGEST_PRINTED_UPDATE, 63),
    ] {
        row_is(&rt, text, text.len(), length);
    }
}

/// `have` lines, with the network and the hop that each one gives.
const HAVES: [(&str, &str, Hop); 5] = [
    ("have 10.0.0.0/8 7", "10.0.0.0/8", Hop::Number(7)),
    ("have 10.1.2.3/08 0", "10.0.0.0/8", Hop::Number(0)),
    ("have 0.0.0.0/0 drop", "0.0.0.0/0", Hop::Drop),
    (
        "have 2001:DB8::1/32 4294967295",
        "2001:db8::/32",
        Hop::Number(4294967295),
    ),
    (
        "have ::ffff:ffff:ffff:ffff:ffff:ffff:255.255.255.255/128 4294967295",
        "ffff:ffff:ffff:ffff:ffff:ffff:ffff:ffff/128",
        Hop::Number(4294967295),
    ),
];

fn have_is(rt: &impl Abort, text: &str, network: &str, wanted: Hop) {
    let Ok(FibInput::Have { net, hop }) = FibInput::read(text.as_bytes()) else {
        panic!(rt; "no `have`: {text}")
    };
    text_is(rt, text, net.to_text().as_slice(), network);
    row_is(rt, text, hop, wanted);
}

#[test]
fn haves(rt: HostRuntime) {
    for (text, network, hop) in &HAVES {
        have_is(&rt, text, network, *hop);
    }
}

/// Lines that an installer refuses.
const NO_NOTES: [&str; 31] = [
    "have 10.0.0.0/8 4294967296",
    "have 10.0.0.0/8 07",
    "have 10.0.0.0/8 +7",
    "have 10.0.0.0/8 Drop",
    "have 10.0.0.0/8 dro",
    "have 10.0.0.0/8 7 100",
    "have 10.0.0.0/8  7",
    "have  10.0.0.0/8 7",
    "have 10.0.0.0/8 7 ",
    "have 10.0.0.0/8 7\r",
    "have 10.0.0.0 7",
    "have 10.0.0.0/33 7",
    "have 10.0.0.0/8 ",
    "have 10.0.0.0/8",
    "have ",
    "have",
    "Have 10.0.0.0/8 7",
    " have 10.0.0.0/8 7",
    "sync ",
    " sync",
    "syn",
    "synced",
    "Sync",
    "SYNC",
    "sync 10.0.0.0/8 7",
    "install 10.0.0.0/8 7",
    "set 10.0.0.0/8  7",
    "ok ",
    "add 10.0.0.0/8 7",
    "have 10.0.0.0/8 00000000000000000000000000000000000000000000000000000000000000007",
    "",
];

#[test]
fn no_notes(rt: HostRuntime) {
    for text in &NO_NOTES {
        row_is(&rt, *text, FibInput::read(text.as_bytes()).is_ok(), false);
    }
}

/// Reply lines. An installer reads them in the same way as a reader of reply lines.
const NOTES: [&str; 11] = [
    "set 10.1.2.3/8 5",
    "unset FFFF::1/16",
    "route 10.1.2.3/8 drop 100",
    "route 10.1.2.3/8 1",
    "flat 1.2.3.4/0 0",
    "own 1.2.3.4/32",
    "count 0 18446744073709551615",
    "ok",
    "none",
    "bad",
    "refused",
];

fn is_note(rt: &impl Abort, text: &str, wanted: FibInput) {
    let note = FibInput::read(text.as_bytes());
    row_is(rt, text, note == Ok(wanted), true);
}

#[test]
fn notes(rt: HostRuntime) {
    is_note(&rt, "sync", FibInput::Sync);
    for text in &NOTES {
        let reply = Reply::read(text.as_bytes()).expect(&rt, text);
        is_note(&rt, text, FibInput::Reply(reply));
    }
}

/// Checks that the text spells this operation.
fn is_operation(rt: &impl Abort, text: &str, operation: Operation) {
    let update = FibUpdate::read(text.as_bytes()).expect(rt, text);
    row_is(rt, text, update == FibUpdate::from(operation), true);
}

#[test]
fn operations(rt: HostRuntime) {
    let hop = Hop::Number(7);
    for text in ["install 10.1.2.3/8 7", "install 10.0.0.0/8 7"] {
        let net = net(&rt, "10.0.0.0/8");
        is_operation(
            &rt,
            text,
            Operation::Install {
                net,
                hop: Hop::Number(7),
            },
        );
    }
    for text in ["remove 10.1.2.3/8", "remove 10.0.0.0/8"] {
        let net = net(&rt, "10.0.0.0/8");
        is_operation(&rt, text, Operation::Remove { net });
    }
}

#[test]
fn values(rt: HostRuntime) {
    let Ok(Command::Add { net, hop, pref }) = Command::read(b"add 10.1.2.3/8 7") else {
        panic!(&rt; "no command")
    };
    assert_eq!(rt; net.to_text().as_slice(), "10.0.0.0/8".as_bytes());
    assert_eq!(rt; hop, Hop::Number(7));
    assert_eq!(rt; pref, 100);
    assert_eq!(rt;
        Reply::Close(Closing::Missing).print().as_slice(),
        "none\n".as_bytes()
    );
}

/// Lines of one word.
#[test]
fn plain_lines(rt: HostRuntime) {
    assert!(rt; Reply::read(b"ok") == Ok(Reply::Close(Closing::Done)));
    assert!(rt; FibInput::read(b"sync") == Ok(FibInput::Sync));
    assert!(rt; FibUpdate::read(b"ok") == Ok(FibUpdate::Done));
    assert_eq!(rt; Closing::Done.line(), b"ok\n".as_slice());
}

/// Checks the preference of an `add`.
fn preference_is(rt: &impl Abort, text: &str, wanted: u16) {
    let read = Command::read(text.as_bytes());
    let Ok(Command::Add { pref, .. }) = read else {
        panic!(rt; "no command: {text}")
    };
    row_is(rt, text, pref, wanted);
}

#[test]
fn preferences(rt: HostRuntime) {
    for (text, wanted) in [
        ("add 10.0.0.0/8 1", 100),
        ("add 10.0.0.0/8 1 0", 0),
        ("add 10.0.0.0/8 drop 65535", 65535),
    ] {
        preference_is(&rt, text, wanted);
    }
}

#[test]
fn error(rt: HostRuntime) {
    prints(&rt, rt.alloc(), NotALine, "not a line of the grammar");
}
