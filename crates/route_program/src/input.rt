//! The input, which knows whether more lines are available.
ghost use Rattle.std.specs.Io.{ReadsAtMost};
ghost use Rattle.std.specs.Io.KnownBytes.{ReadConsumes, prepend_known};
ghost use Rattle.std.specs.Prelude.{◌≡◌, ◌<◌, ◌≤◌, ◌+◌, [], drop, false, is_err, length};
ghost use Rattle.route_program.specs.Counted.{more_if};

use crate::counted::Counted;
use arrayvec::ArrayVec;
use std::cell::Cell;
use std::io;
use std::io::Read;

/// The most bytes that are kept for the next read.
const KEPT: usize = 1 << 16;

/// A reader that returns all lines of a piece but the last, and returns this last line, with the bytes after it, at the next read. It
/// returns a piece with one line at once. If the kept bytes end a line, `more` is set. While bytes are kept, no call reads the device, so
/// none waits for it. Errors of the device are passed on, and each call reads the device at most once.
#[derive(Drop)]
pub struct Input<'a, R> {
    device: Counted<R>,
    kept: ArrayVec<u8, KEPT>,
    start: usize,
    more: &'a Cell<bool>,
}

impl<'a, R> Input<'a, R> {
    /// Makes the input of a device; no bytes are kept, and nothing is counted yet. `more` is the one that the output reads.
    pub fn new(device: R, more: &'a Cell<bool>) -> Input<'a, R>
        ensures device { result.device.device ≡ device }
        ensures counts { (result.device.reads ≡ 0) × (result.device.ends ≡ 0) × (result.device.faults ≡ 0) }
        ensures flushes { (result.device.flushes ≡ 0) × (result.device.waiting ≡ false) }
        ensures failing { result.device.failing ≡ false }
        ensures kept { drop result.start result.kept.items ≡ [] }
    {
        Input {
            device: Counted::new(device),
            kept: ArrayVec::new(),
            start: 0,
            more,
        }
    }

    /// The kept bytes that haven't been returned.
    fn left(&self) -> &[u8]
        ensures { result.now ≡ drop self.now.start self.now.kept.items }
    {
        self.kept.get(self.start..).unwrap_or(&[])
    }

    /// Keeps the last line of the bytes, if other lines precede it. Returns the number of bytes that are not kept.
    fn keep(&mut self, bytes: &[u8]) -> usize
        ensures within { result ≤ length bytes.now }
        ensures some { 0 < length bytes.now → 0 < result }
        ensures kept { drop self.new.start self.new.kept.items ≡ drop result bytes.now }
        ensures device { self.new.device ≡ self.old.device }
    {
        let count = handed_out(bytes);
        let (_, last) = bytes.split_at(count);
        self.start = 0;
        self.kept.clear();
        if self.kept.try_extend_from_slice(last).is_err() {
            self.more.set(false);
            return bytes.len();
        }
        self.more.set(!last.is_empty());
        count
    }
}

impl<'a, R: Read> Read for Input<'a, R> {
    ghost remaining = { λ input. prepend_known (drop input.start input.kept.items) (R.remaining input.device.device) };

    fn read(&mut self, buf: &mut [u8]) -> io::Result<usize>
        ensures bound { ReadsAtMost result buf.new }
        ensures bytes { ReadConsumes (prepend_known (drop self.old.start self.old.kept.items) (R.remaining self.old.device.device)) (prepend_known (drop self.new.start self.new.kept.items) (R.remaining self.new.device.device)) result buf.new }
        ensures reads { self.new.device.reads ≤ self.old.device.reads + 1 }
        ensures faults { self.new.device.faults ≡ more_if (is_err result) self.old.device.faults }
        ensures kept { 0 < length (drop self.old.start self.old.kept.items) → self.new.device ≡ self.old.device }
    {
        let left = self.left();
        if left.is_empty() {
            let count = self.device.read(buf)?;
            return Ok(self.keep(&buf[..count]));
        }
        let count = left.len().min(buf.len());
        buf[..count].copy_from_slice(&left[..count]);
        let rest = left.len() - count;
        self.start = self.kept.len() - rest;
        self.more.set(self.left().contains(&b'\n'));
        Ok(count)
    }
}

/// The number of bytes before the last line, or of all bytes if no other line precedes it.
fn handed_out(bytes: &[u8]) -> usize
    ensures within { result ≤ length bytes.now }
    ensures some { 0 < length bytes.now → 0 < result }
{
    let Some(last) = bytes.iter().rposition(|byte| *byte == b'\n') else {
        return bytes.len();
    };
    match bytes[..last].iter().rposition(|byte| *byte == b'\n') {
        Some(before) => before + 1,
        None => bytes.len(),
    }
}
