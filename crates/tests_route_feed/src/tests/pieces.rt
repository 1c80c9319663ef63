//! The input and the output of a program: pieces without their last line, and flushes that wait while more lines are available.
use crate::tests::rows::{row_is, text_is};
use route_program::{Counted, Input, Output};
use std::alloc::Global;
use std::cell::Cell;
use std::io::{Read, Write};
use std::process::Abort;
use std::test::Fail;

/// Bytes of a device, and reads of them: each piece, and whether the input keeps a complete line after it.
type Row = (&'static str, &'static [(&'static str, bool)]);

static ROWS: [Row; 6] = [
    ("", &[("", false), ("", false)]),
    ("add\n", &[("add\n", false), ("", false)]),
    ("add\nget", &[("add\nget", false), ("", false)]),
    (
        "add\nget\n",
        &[("add\n", true), ("get\n", false), ("", false)],
    ),
    (
        "add\nget\nall",
        &[("add\n", true), ("get\nall", false), ("", false)],
    ),
    (
        "add\nget\nall\n",
        &[("add\nget\n", true), ("all\n", false), ("", false)],
    ),
];

/// Checks the next read.
fn reads<R: Read>(
    rt: &impl Abort,
    input: &mut Input<'_, R>,
    more: &Cell<bool>,
    wanted: (&str, bool),
) {
    let mut buf = [0; 16];
    let count = input.read(&mut buf).expect(rt, "a read");
    text_is(rt, wanted, &buf[..count], wanted.0);
    row_is(rt, wanted, more.get(), wanted.1);
}

/// Checks the reads of a row.
fn row_reads(rt: &impl Abort, row: &Row) {
    let (bytes, pieces) = row;
    let more = Cell::new(false);
    let mut input = Input::new(bytes.as_bytes(), &more);
    for wanted in *pieces {
        reads(rt, &mut input, &more, *wanted);
    }
}

#[test]
fn pieces(rt: HostRuntime) {
    for row in &ROWS {
        row_reads(&rt, row);
    }
}

/// Checks the next read of one byte.
fn reads_byte<R: Read>(
    rt: &impl Abort,
    input: &mut Input<'_, R>,
    more: &Cell<bool>,
    wanted: (u8, bool),
) {
    let mut buf = [0; 1];
    let count = input.read(&mut buf).expect(rt, "a read");
    row_is(
        rt,
        wanted,
        (count, buf[0], more.get()),
        (1, wanted.0, wanted.1),
    );
}

/// A kept line that is read byte by byte is available up to its line end.
#[test]
fn a_kept_line_by_bytes(rt: HostRuntime) {
    let more = Cell::new(false);
    let mut input = Input::new("add\nget\n".as_bytes(), &more);
    reads(&rt, &mut input, &more, ("add\n", true));
    for wanted in &[(b'g', true), (b'e', true), (b't', true), (b'\n', false)] {
        reads_byte(&rt, &mut input, &more, *wanted);
    }
}

/// The number of flushes of the device after a write and a flush of the output.
fn flushes(alloc: Global, is_more: bool) -> Result<u64, Fail> {
    let more = Cell::new(is_more);
    let mut output = Output::new(Counted::new(Vec::new(alloc)), &more);
    output.write_all(b"ok\n")?;
    output.flush()?;
    Ok(output.into_inner().flushes())
}

#[test]
fn a_flush_waits_while_lines_are_available(rt: HostRuntime) -> Result<(), Fail> {
    row_is(&rt, "more lines", flushes(rt.alloc(), true)?, 0);
    row_is(&rt, "no more lines", flushes(rt.alloc(), false)?, 1);
    Ok(())
}
