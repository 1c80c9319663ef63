//! A scripted reader and a scripted writer: they transfer a few bytes per call, and one chosen call fails.
//!
//! Each device counts its own calls, and would serve further calls after the one that fails.
use crate::tests::rows::{row_is, text_is};
use crate::tests::runs::{Mode, run};
use route_feed::{Counted, RunError};
use std::alloc::Global;
use std::io;
use std::io::{Read, Write};
use std::process::Abort;

/// How a call fails.
#[derive(Clone, Copy)]
pub(crate) enum Fault {
    /// With the error `BrokenPipe`.
    Broken,
    /// With the error `Interrupted`.
    Interrupted,
    /// `write` returns 0; `flush` returns the error `WriteZero`.
    Nothing,
}

/// The error of a call that fails.
fn error(fault: Fault) -> io::Error {
    match fault {
        Fault::Broken => io::Error::from(io::ErrorKind::BrokenPipe),
        Fault::Interrupted => io::Error::from(io::ErrorKind::Interrupted),
        Fault::Nothing => io::Error::from(io::ErrorKind::WriteZero),
    }
}

/// How the devices serve. Unless the variant says otherwise, a call transfers one byte and no call fails.
#[derive(Clone, Copy)]
pub(crate) enum Script {
    /// The first read gives at most the first number of bytes, and each further read at most the second.
    Pieces(usize, usize),
    /// The read of this number fails. With 0, none fails.
    Read(usize, Fault),
    /// The writer's call of this number fails; calls of `write` and `flush` are counted together. The second number is the most bytes
    /// that one `write` takes.
    Write(usize, usize, Fault),
}

/// A reader of these bytes.
#[derive(Drop)]
struct Given<'a> {
    left: &'a [u8],
    script: Script,
    calls: usize,
}

impl Read for Given<'_> {
    fn read(&mut self, buf: &mut [u8]) -> io::Result<usize> {
        self.calls = self.calls.wrapping_add(1);
        let most = match self.script {
            Script::Read(fails, fault) if fails == self.calls => return Err(error(fault)),
            Script::Pieces(first, _) if self.calls == 1 => first,
            Script::Pieces(_, others) => others,
            _ => 1,
        };
        let count = self.left.len().min(buf.len()).min(most);
        let (now, later) = self.left.split_at(count);
        buf[..count].copy_from_slice(now);
        self.left = later;
        Ok(count)
    }
}

/// The mark for a `flush` among the written bytes. No line contains it.
pub(crate) const FLUSHED: char = '|';

/// A writer that keeps the bytes it takes.
#[derive(Drop)]
struct Held {
    /// Each byte that was taken, and `|` for each `flush`, in order.
    done: Vec<u8>,
    script: Script,
    calls: usize,
}

impl Held {
    /// Counts a call, and returns the fault if this call must fail.
    fn fault(&mut self) -> Option<Fault> {
        self.calls = self.calls.wrapping_add(1);
        match self.script {
            Script::Write(fails, _, fault) if fails == self.calls => Some(fault),
            _ => None,
        }
    }
}

impl Write for Held {
    fn write(&mut self, buf: &[u8]) -> io::Result<usize> {
        let most = match self.script {
            Script::Write(_, most, _) => most,
            _ => 1,
        };
        match self.fault() {
            None => {}
            Some(Fault::Nothing) => return Ok(0),
            Some(fault) => return Err(error(fault)),
        }
        let count = buf.len().min(most);
        self.done.extend_from_slice(&buf[..count])?;
        Ok(count)
    }

    fn flush(&mut self) -> io::Result<()> {
        if let Some(fault) = self.fault() {
            return Err(error(fault));
        }
        self.done.push(b'|')?;
        Ok(())
    }
}

/// The number of `flush` calls.
pub(crate) fn flushes_in(done: &[u8]) -> u64 {
    let mut count = 0u64;
    for byte in done {
        if *byte == b'|' {
            count = count.wrapping_add(1);
        }
    }
    count
}

/// How a run ends: its result, the number of reads, and the output with `|` for each `flush`.
#[derive(Clone, Copy)]
pub(crate) struct End<'a>(pub Result<(), RunError>, pub usize, pub &'a str);

/// Checks the faults that `Counted` saw against the result of the run. Unless the writer failed, no byte may be left without a `flush`.
fn faults_are<R, W>(
    rt: &impl Abort,
    row: (Mode, &str),
    reader: &Counted<R>,
    writer: &Counted<W>,
    ended: Result<(), RunError>,
) {
    row_is(rt, row, reader.failing(), ended == Err(RunError::Read));
    row_is(rt, row, writer.failing(), ended == Err(RunError::Write));
    let failing = reader.failing() || writer.failing();
    row_is(
        rt,
        row,
        reader.faults() != 0 || writer.faults() != 0,
        failing,
    );
    row_is(rt, row, writer.waiting() && !writer.failing(), false);
}

/// Checks the number of reads that met the end: one in a run to the end, and none in one that ended before.
fn ends_are<R>(
    rt: &impl Abort,
    row: (Mode, &str),
    reader: &Counted<R>,
    ended: Result<(), RunError>,
) {
    match ended {
        Ok(()) => row_is(rt, row, reader.ends(), 1),
        Err(RunError::Write) => {}
        Err(_) => row_is(rt, row, reader.ends(), 0),
    }
}

/// Checks the number of reads: by the reader's own count and by `Counted`.
fn reads_are(rt: &impl Abort, row: (Mode, &str), reader: Counted<Given<'_>>, wanted: usize) {
    let counted = reader.reads();
    row_is(rt, row, reader.into_inner().calls, wanted);
    row_is(rt, row, counted, wanted as u64);
}

/// Checks the number of calls of the writer, the bytes it holds, and the flushes that `Counted` counted.
fn holds(rt: &impl Abort, row: (Mode, &str), writer: Counted<Held>, calls: usize, done: &str) {
    let flushes = writer.flushes();
    let held = writer.into_inner();
    row_is(rt, row, held.calls, calls);
    row_is(rt, row, flushes, flushes_in(held.done.as_slice()));
    text_is(rt, row, held.done.as_slice(), done);
}

/// Checks how the run ends over devices with this script. The writer is called until a call fails, or once for each byte and each
/// `flush`.
pub(crate) fn ends(
    rt: &impl Abort,
    alloc: Global,
    row: (Mode, &str),
    script: Script,
    end: End<'_>,
) {
    let given = Given {
        left: row.1.as_bytes(),
        script,
        calls: 0,
    };
    let held = Held {
        done: Vec::new(alloc),
        script,
        calls: 0,
    };
    let (ended, reader, writer) = run(alloc, row.0, given, held);
    row_is(rt, row, ended, end.0);
    faults_are(rt, row, &reader, &writer, ended);
    ends_are(rt, row, &reader, ended);
    reads_are(rt, row, reader, end.1);
    let calls = match script {
        Script::Write(fails, _, _) => fails,
        _ => end.2.len(),
    };
    holds(rt, row, writer, calls, end.2);
}
