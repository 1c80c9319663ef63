//! Runs over devices that transfer a few bytes per call, with a fault at each call in turn.
use crate::tests::runs::Mode;
use crate::tests::scripted::{End, FLUSHED, Fault, Script, ends, flushes_in};
use crate::tests::streams::READ_TO_THE_END;
use route_feed::RunError;
use std::alloc::Global;
use std::process::Abort;

/// The closing lines of a reply.
const CLOSING: [&str; 4] = ["ok\n", "none\n", "bad\n", "refused\n"];

/// The calls of a writer that takes one byte per call: each byte, and `|` for a `flush`. A leader, a follower and an installer flush
/// after each closing line. `shorten` prints commands and flushes once, at the end.
fn calls_of(rt: &impl Abort, alloc: Global, mode: Mode, wanted: &str) -> String {
    let mut calls = String::new(alloc);
    for line in wanted.split_inclusive('\n') {
        push_line(rt, &mut calls, line);
    }
    if matches!(mode, Mode::Shorten) {
        push_flush(rt, &mut calls);
    }
    calls
}

/// Adds the calls for the line.
fn push_line(rt: &impl Abort, calls: &mut String, line: &str) {
    calls.push_str(line).expect(rt, "memory");
    if CLOSING.contains(&line) {
        push_flush(rt, calls);
    }
}

/// Adds a `flush`.
fn push_flush(rt: &impl Abort, calls: &mut String) {
    calls.push(FLUSHED).expect(rt, "memory");
}

/// The first `count` calls.
fn first_calls<'a>(rt: &impl Abort, calls: &'a str, count: usize) -> &'a str {
    calls.get(..count).expect(rt, "so many calls")
}

/// The number of calls up to and including the `flush` of this number.
fn calls_until(calls: &str, flushes: u64) -> usize {
    let mut left = flushes;
    let mut count = 0usize;
    for call in calls.as_bytes() {
        if left > 0 {
            count = count.wrapping_add(1);
            if *call == b'|' {
                left -= 1;
            }
        }
    }
    count
}

/// Whether the run answers the line. A leader answers each line; an installer, in these trials, each `ok` and each `sync`.
fn is_answered(mode: Mode, line: &str) -> bool {
    match mode {
        Mode::Lead => line.ends_with('\n'),
        Mode::Install => line == "ok\n" || line == "sync\n",
        _ => false,
    }
}

/// The number of answered lines that end in the first `came` bytes.
fn answered(mode: Mode, input: &str, came: usize) -> u64 {
    let mut count = 0u64;
    let mut end = 0usize;
    for line in input.split_inclusive('\n') {
        end = end.wrapping_add(line.len());
        if end <= came && is_answered(mode, line) {
            count = count.wrapping_add(1);
        }
    }
    count
}

/// The number of one-byte reads before the call of the writer that follows `done`. The run reads on until one more line must be answered.
fn reads_for(mode: Mode, input: &str, done: &str) -> usize {
    let replies = flushes_in(done.as_bytes());
    let mut reads = 0usize;
    for came in 0..=input.len() {
        if answered(mode, input, came) <= replies {
            reads = reads.wrapping_add(1);
        }
    }
    reads
}

/// Checks the run with one byte per call.
fn goes_by_bytes(rt: &impl Abort, alloc: Global, run: (Mode, &str), calls: &str) {
    let end = End(Ok(()), run.1.len().wrapping_add(1), calls);
    ends(rt, alloc, run, Script::Pieces(1, 1), end);
}

/// Checks the run with each length of the first piece. Further pieces have `others` bytes, and the last one has the rest.
fn goes_in_pieces(rt: &impl Abort, alloc: Global, run: (Mode, &str), calls: &str, others: usize) {
    for first in 1..=run.1.len() {
        goes_by_first(rt, alloc, run, calls, (first, others));
    }
}

/// Checks the run with these lengths of the first piece and of further ones.
fn goes_by_first(
    rt: &impl Abort,
    alloc: Global,
    run: (Mode, &str),
    calls: &str,
    lengths: (usize, usize),
) {
    let (first, others) = lengths;
    let left = run.1.len().wrapping_sub(first);
    let reads = left.div_ceil(others.max(1)).wrapping_add(2);
    let end = End(Ok(()), reads, calls);
    ends(rt, alloc, run, Script::Pieces(first, others), end);
}

/// Lets each read fail in turn, with an error or as interrupted. A leader and an installer have then answered each whole line before it;
/// the other runs have written nothing. No further call is made.
fn reads_fail(rt: &impl Abort, alloc: Global, run: (Mode, &str), calls: &str) {
    for came in 0..=run.1.len() {
        a_read_ends(rt, alloc, run, calls, came);
    }
}

/// Lets the read after this many bytes fail, as `reads_fail` does.
fn a_read_ends(rt: &impl Abort, alloc: Global, run: (Mode, &str), calls: &str, came: usize) {
    let reads = came.wrapping_add(1);
    let served = calls_until(calls, answered(run.0, run.1, came));
    let end = End(Err(RunError::Read), reads, first_calls(rt, calls, served));
    for fault in [Fault::Broken, Fault::Interrupted] {
        ends(rt, alloc, run, Script::Read(reads, fault), end);
    }
}

/// Lets each `write` and each `flush` fail in turn: with an error, as interrupted, or with nothing taken. The writer holds the bytes from
/// before, and isn't called again. A leader or an installer has read no further than the line that it answers. The other runs have read
/// to the end.
fn writes_fail(rt: &impl Abort, alloc: Global, run: (Mode, &str), calls: &str) {
    for served in 0..calls.len() {
        a_write_ends(rt, alloc, run, calls, served);
    }
}

/// Lets the call after this many calls fail, as `writes_fail` does.
fn a_write_ends(rt: &impl Abort, alloc: Global, run: (Mode, &str), calls: &str, served: usize) {
    let done = first_calls(rt, calls, served);
    let end = End(Err(RunError::Write), reads_for(run.0, run.1, done), done);
    for fault in [Fault::Broken, Fault::Interrupted, Fault::Nothing] {
        let script = Script::Write(served.wrapping_add(1), 1, fault);
        ends(rt, alloc, run, script, end);
    }
}

/// How the devices of a trial serve.
#[derive(Clone, Copy)]
enum Way {
    /// One byte per call.
    Bytes,
    /// A first piece of each length in turn, and further pieces of this one.
    Pieces(usize),
    /// Each read fails in turn.
    Reads,
    /// Each `write` and each `flush` fails in turn.
    Writes,
}

/// Checks the run in this way.
fn goes(rt: &impl Abort, alloc: Global, way: Way, run: (Mode, &str), wanted: &str) {
    let owned = calls_of(rt, alloc, run.0, wanted);
    let calls = owned.as_str();
    match way {
        Way::Bytes => goes_by_bytes(rt, alloc, run, calls),
        Way::Pieces(others) => goes_in_pieces(rt, alloc, run, calls, others),
        Way::Reads => reads_fail(rt, alloc, run, calls),
        Way::Writes => writes_fail(rt, alloc, run, calls),
    }
}

/// Checks all these runs in this way.
fn all_go(rt: &impl Abort, alloc: Global, way: Way, tables: &[(Mode, &[(&str, &str)])]) {
    for (mode, rows) in tables {
        rows_go(rt, alloc, way, *mode, rows);
    }
}

/// Checks the runs of a mode in this way.
fn rows_go(rt: &impl Abort, alloc: Global, way: Way, mode: Mode, rows: &[(&str, &str)]) {
    for (input, wanted) in rows {
        goes(rt, alloc, way, (mode, input), wanted);
    }
}

#[test]
fn one_byte_a_call(rt: HostRuntime) {
    all_go(&rt, rt.alloc(), Way::Bytes, &READ_TO_THE_END);
}

/// Inputs that are cut, and that fail, at each call. They contain each reply line and each closing line. The least tables have a `drop`
/// in both families, and one table has no route.
const TRIED: [(Mode, &[(&str, &str)]); 4] = [
    (
        Mode::Lead,
        &[
            (
                "add 10.0.0.0/30 1\nadd 10.0.0.1/32 drop\nget 10.0.0.1/32\ndel 10.0.0.0/8 1\n\nflat",
                "set 10.0.0.0/30 1\nok\nunset 10.0.0.1/32\nok\nroute 10.0.0.1/32 drop 100\nok\nnone\nbad\nbad\n",
            ),
            (
                "add ::/0 1\nadd ::/0 2\nadd ::/0 3\nadd ::/0 4\nadd ::/0 5\nadd ::/0 6\nadd ::/0 7\nadd ::/0 8\nadd ::/0 9\nown 1\ncount\nflat\n",
                "set ::/0 1\nok\nok\nok\nok\nok\nok\nok\nok\nrefused\nown ::/0\nok\ncount 0 1\nok\nflat ::/0 1\nok\n",
            ),
        ],
    ),
    (
        Mode::Follow,
        &[(
            "set 10.0.0.0/30 1\nok\nunset 10.0.0.1/32\nok\nset ::/0 2\nbad\nset 1",
            "flat 10.0.0.0/32 1\nflat 10.0.0.2/31 1\nok\n",
        )],
    ),
    (
        Mode::Shorten,
        &[
            (
                "set 10.0.0.0/8 1\nok\nset 10.0.0.0/10 2\nunset 10.0.0.0/32\nok\nset ::/0 2\nunset ::1/128\nok\nset ::/0 3\nbad\nset 1",
                "add 10.0.0.0/8 1\nadd 10.0.0.0/10 2\nadd 10.0.0.0/32 drop\nadd ::/0 2\nadd ::1/128 drop\n",
            ),
            ("set 10.0.0.0/8 1\nok\nunset 10.0.0.0/8\nok\n", ""),
        ],
    ),
    (
        Mode::Install,
        &[(
            "have 10.0.0.0/9 1\nsync\nset 10.0.0.0/8 1\nok\nset 10.0.0.0/10 2\nunset ::1/128\nok\nset ::/0 2\nbad\nsync\nset 1",
            "remove 10.0.0.0/9\nok\ninstall 10.0.0.0/8 1\nok\ninstall 10.0.0.0/10 2\nok\nok\n",
        )],
    ),
];

// The first piece has each length in turn, and the second one has the rest.
#[test]
fn cut_after_each_byte(rt: HostRuntime) {
    all_go(&rt, rt.alloc(), Way::Pieces(usize::MAX), &TRIED);
}

#[test]
fn each_read_fails(rt: HostRuntime) {
    all_go(&rt, rt.alloc(), Way::Reads, &TRIED);
}

#[test]
fn each_write_fails(rt: HostRuntime) {
    all_go(&rt, rt.alloc(), Way::Writes, &TRIED);
}

/// An empty line, a line of 81 bytes, and a last line without its line end.
const BAD: &str =
    "\n123456789012345678901234567890123456789012345678901234567890123456789012345678901\nflat";

// Each line is answered `bad`, however the bytes are cut.
#[test]
fn three_bad_lines_under_every_cut(rt: HostRuntime) {
    for others in [1, 40, BAD.len()] {
        let way = Way::Pieces(others);
        goes(&rt, rt.alloc(), way, (Mode::Lead, BAD), "bad\nbad\nbad\n");
    }
}

/// One change.
const SET: &str = "set 10.0.0.0/8 1\nok\n";

/// The second line is no reply line.
const SETT: &str = "set 10.0.0.0/8 1\nsett 1\n";

/// Lines of 80 and of 81 bytes.
const LONG: &str =
    "12345678901234567890123456789012345678901234567890123456789012345678901234567890\n123456789012345678901234567890123456789012345678901234567890123456789012345678901\n";

/// Runs: the input; the most bytes that a `write` takes, and the writer's call that fails; and the whole output.
static WRITES: [(Mode, &str, (usize, usize), &str); 10] = [
    // A `flush` fails after each kind of closing line, or at the end. The writer holds the line with its line end, and nothing after it.
    (Mode::Lead, "add 10.0.0.0/8 1\nflat\n", (80, 3), SET),
    (Mode::Lead, "del 10.0.0.0/8 1\nflat\n", (80, 2), "none\n"),
    (Mode::Lead, "\nflat\n", (80, 2), "bad\n"),
    (
        Mode::Lead,
        "add ::/0 1\nadd ::/0 2\nadd ::/0 3\nadd ::/0 4\nadd ::/0 5\nadd ::/0 6\nadd ::/0 7\nadd ::/0 8\nadd ::/0 9\nflat\n",
        (80, 19),
        "set ::/0 1\nok\n|ok\n|ok\n|ok\n|ok\n|ok\n|ok\n|ok\n|refused\n",
    ),
    (Mode::Follow, SET, (80, 3), "flat 10.0.0.0/8 1\nok\n"),
    (
        Mode::Shorten,
        "set 10.0.0.0/8 1\nset ::/0 2\nok\n",
        (80, 3),
        "add 10.0.0.0/8 1\nadd ::/0 2\n",
    ),
    (Mode::Shorten, "ok\n", (80, 1), ""),
    // The writer takes five bytes, fails, and holds these five.
    (Mode::Lead, "add 10.0.0.0/8 1\n", (1, 6), "set 1"),
    (Mode::Follow, SET, (1, 6), "flat "),
    (Mode::Shorten, SET, (1, 6), "add 1"),
];

#[test]
fn a_write_fails(rt: HostRuntime) {
    for (mode, input, places, done) in &WRITES {
        a_write_breaks(&rt, rt.alloc(), (*mode, input), *places, done);
    }
}

/// Lets the call of the writer with this number fail. Each call takes this many bytes.
fn a_write_breaks(
    rt: &impl Abort,
    alloc: Global,
    run: (Mode, &str),
    places: (usize, usize),
    done: &str,
) {
    let (most, fails) = places;
    let script = Script::Write(fails, most, Fault::Broken);
    let end = End(Err(RunError::Write), reads_for(run.0, run.1, done), done);
    ends(rt, alloc, run, script, end);
}

/// Runs: the input; the read that fails, or 0 if none does, and the number of reads; the result; and the whole output.
static READS: [(Mode, &str, (usize, usize), Result<(), RunError>, &str); 8] = [
    // The reader fails inside the second line. The first line is answered.
    (
        Mode::Lead,
        "add 10.0.0.0/8 1\nfl",
        (20, 20),
        Err(RunError::Read),
        "set 10.0.0.0/8 1\nok\n|",
    ),
    // A wrong line ends the run with `Line` if its line end came before the read that fails. Otherwise the run ends with `Read`. Nothing
    // is written.
    (Mode::Follow, SETT, (25, 24), Err(RunError::Line), ""),
    (Mode::Follow, SETT, (24, 24), Err(RunError::Read), ""),
    (Mode::Shorten, SETT, (25, 24), Err(RunError::Line), ""),
    (Mode::Shorten, SETT, (24, 24), Err(RunError::Read), ""),
    // A leader answers `bad` to a line of 80 bytes and to one of 81. The others stop at the first one.
    (Mode::Lead, LONG, (0, 164), Ok(()), "bad\n|bad\n|"),
    (Mode::Follow, LONG, (0, 81), Err(RunError::Line), ""),
    (Mode::Shorten, LONG, (0, 81), Err(RunError::Line), ""),
];

#[test]
fn a_read_fails(rt: HostRuntime) {
    for (mode, input, (fails, reads), result, done) in &READS {
        let script = Script::Read(*fails, Fault::Broken);
        let end = End(*result, *reads, done);
        ends(&rt, rt.alloc(), (*mode, input), script, end);
    }
}
