//! An installer with hundreds of changes in a reply, and single lines for a table.
use crate::tests::rows::{row_is, text_is};
use crate::tests::runs::{Mode, gives};
use route_feed::{Counted, lead_line};
use route_installer::install;
use route_table::RouteTable;
use std::alloc::Global;
use std::process::Abort;
use std::test::Fail;

/// Adds a line that gives an address the hop 1.
fn push_change(rt: &impl Abort, text: &mut String, at: u16) {
    let (high, low) = (at / 256, at % 256);
    write!(text, "set 10.0.{high}.{low}/32 1\n").expect(rt, "memory");
}

/// A `sync`, and a reply that gives so many addresses from 10.0.0.0 on the hop 1.
fn changes(rt: &impl Abort, alloc: Global, count: u16) -> String {
    let mut text = String::new(alloc);
    text.push_str("sync\n").expect(rt, "memory");
    for at in 0..count {
        push_change(rt, &mut text, at);
    }
    text.push_str("ok\n").expect(rt, "memory");
    text
}

/// A route that is installed already gets another hop.
#[test]
fn in_memory(rt: HostRuntime) -> Result<(), Fail> {
    let input: &[u8] = b"have 10.0.0.0/8 1\nset 10.0.0.0/8 2\nok\nsync\n";
    let mut reader = Counted::new(input);
    let mut writer = Counted::new(Vec::new(rt.alloc()));
    install(rt.alloc(), &mut reader, &mut writer)?;
    let out = writer.into_inner();
    text_is(&rt, "one", out.as_slice(), "install 10.0.0.0/8 2\nok\n");
    Ok(())
}

/// The changes of a reply fill a network: one operation.
#[test]
fn a_whole_network(rt: HostRuntime) {
    let input = changes(&rt, rt.alloc(), 256);
    let wanted = "ok\ninstall 10.0.0.0/24 1\nok\n";
    gives(
        &rt,
        rt.alloc(),
        (Mode::Install, input.as_str()),
        wanted,
        Ok(()),
    );
}

/// With one change more, it takes two.
#[test]
fn one_more_address(rt: HostRuntime) {
    let input = changes(&rt, rt.alloc(), 257);
    let wanted = "ok\ninstall 10.0.1.0/32 1\ninstall 10.0.0.0/24 1\nok\n";
    gives(
        &rt,
        rt.alloc(),
        (Mode::Install, input.as_str()),
        wanted,
        Ok(()),
    );
}

/// Both halves of a network change: one operation. Then the table is a least one, so a `sync` gives an empty batch.
#[test]
fn two_halves(rt: HostRuntime) {
    let input = "sync\nset 10.0.0.0/8 1\nok\nset 10.0.0.0/9 2\nset 10.128.0.0/9 2\nok\nsync\n";
    let wanted = "ok\ninstall 10.0.0.0/8 1\nok\ninstall 10.0.0.0/8 2\nok\nok\n";
    gives(&rt, rt.alloc(), (Mode::Install, input), wanted, Ok(()));
}

/// A reply turns the hop of a half back to that of the network: its route goes, and no other is installed.
#[test]
fn a_half_goes_back(rt: HostRuntime) {
    let input = "sync\nset 10.0.0.0/8 1\nok\nset 10.0.0.0/9 2\nok\nset 10.0.0.0/9 1\nok\nsync\n";
    let wanted =
        "ok\ninstall 10.0.0.0/8 1\nok\ninstall 10.0.0.0/9 2\nok\nremove 10.0.0.0/9\nok\nok\n";
    gives(&rt, rt.alloc(), (Mode::Install, input), wanted, Ok(()));
}

/// Lines, and the answers of one table that keeps the changes. The last line has 81 bytes.
const ANSWERS: [(&str, &str); 4] = [
    ("add 10.0.0.0/8 1", "set 10.0.0.0/8 1\nok\n"),
    ("get 10.1.0.0/16", "route 10.0.0.0/8 1 100\nok\n"),
    ("add", "bad\n"),
    (
        "xxxxxxxxxxxxxxxxxxxxxxxxxxxxxxxxxxxxxxxxxxxxxxxxxxxxxxxxxxxxxxxxxxxxxxxxxxxxxxxxx",
        "bad\n",
    ),
];

/// Checks the answer to the line, with one `flush`.
fn answers(rt: &impl Abort, alloc: Global, table: &mut RouteTable, line: &str, wanted: &str) {
    let mut writer = Counted::new(Vec::new(alloc));
    row_is(
        rt,
        line,
        lead_line(table, line.as_bytes(), &mut writer),
        Ok(()),
    );
    row_is(rt, line, writer.flushes(), 1);
    row_is(rt, line, writer.waiting(), false);
    text_is(rt, line, writer.into_inner().as_slice(), wanted);
}

/// `lead_line` answers a line as `lead` does, and the table keeps the change.
#[test]
fn a_line(rt: HostRuntime) {
    let mut table = RouteTable::new(rt.alloc()).expect(&rt, "a table");
    for (line, wanted) in &ANSWERS {
        answers(&rt, rt.alloc(), &mut table, line, wanted);
    }
}
