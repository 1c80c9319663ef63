//! A device that counts its reads, its faults and its flushes.
ghost use Rattle.std.specs.Prelude.{◌≡◌, ◌&&◌, ◌||◌, false, not, length, is_err};
ghost use Rattle.std.specs.Io.{ReadsAtMost, WritesAtMost};
ghost use Rattle.std.specs.Io.KnownBytes.{Keeps, ReadConsumes, WriteAppends};
ghost use Rattle.route_program.specs.Counted.{one_more, more_if, read_none, took_none, took_some};

use std::io;
use std::io::{Read, Write};

/// A reader or a writer that counts its `read` calls, those that returned no bytes, its faults, and its successful flushes.
///
/// It passes on `read`, `write` and `flush`. Its contracts say as much about its bytes as those of the device.
///
/// # Examples
/// Over the bytes `input`, in a function that returns the bytes written:
///
/// ```rust
/// let mut reader = Counted::new(input);
/// let mut writer = Counted::new(Vec::new(alloc));
/// lead(alloc, &mut reader, &mut writer)?;
/// Ok(writer.into_inner())
/// ```
#[derive(Drop)]
pub struct Counted<D> {
    device: D,
    reads: u64,
    ends: u64,
    faults: u64,
    failing: bool,
    waiting: bool,
    flushes: u64,
}

impl<D> Counted<D> {
    /// Wraps the device; nothing is counted yet.
    pub fn new(device: D) -> Counted<D>
        // The device is the given one.
        ensures device { result.device ≡ device }

        // No read is counted, no end, no fault, and the device isn't failing.
        ensures reads { result.reads ≡ 0 }
        ensures ends { result.ends ≡ 0 }
        ensures faults { result.faults ≡ 0 }
        ensures failing { result.failing ≡ false }

        // No bytes wait for a flush, and no flush is counted.
        ensures waiting { result.waiting ≡ false }
        ensures flushes { result.flushes ≡ 0 }
    {
        Counted {
            device,
            reads: 0,
            ends: 0,
            faults: 0,
            failing: false,
            waiting: false,
            flushes: 0,
        }
    }

    /// Returns the device.
    pub fn into_inner(self) -> D
        ensures { result ≡ self.device }
    {
        let Counted {
            device,
            reads: _,
            ends: _,
            faults: _,
            failing: _,
            waiting: _,
            flushes: _,
        } = self;
        device
    }

    /// Returns the number of calls of `read`. It stays at the greatest `u64`.
    pub fn reads(&self) -> u64
        ensures { result ≡ self.now.reads }
    {
        self.reads
    }

    /// Returns the number of reads that returned no bytes. It stays at the greatest `u64`.
    pub fn ends(&self) -> u64
        ensures { result ≡ self.now.ends }
    {
        self.ends
    }

    /// Returns the number of faults: errors of `read`, `write` and `flush`, and calls of `write` that wrote none of a nonempty piece. It
    /// stays at the greatest `u64`.
    pub fn faults(&self) -> u64
        ensures { result ≡ self.now.faults }
    {
        self.faults
    }

    /// Returns whether the last call was a fault.
    ///
    /// # Examples
    /// After a run with the result `ended`; `row_is` compares its last two arguments:
    ///
    /// ```rust
    /// row_is(rt, row, reader.failing(), ended == Err(RunError::Read));
    /// row_is(rt, row, writer.failing(), ended == Err(RunError::Write));
    /// ```
    pub fn failing(&self) -> bool
        ensures { result ≡ self.now.failing }
    {
        self.failing
    }

    /// Returns whether bytes were written since the last successful `flush`.
    pub fn waiting(&self) -> bool
        ensures { result ≡ self.now.waiting }
    {
        self.waiting
    }

    /// Returns the number of successful flushes. It stays at the greatest `u64`.
    ///
    /// # Examples
    /// After `lead_line`; `row_is` compares its last two arguments:
    ///
    /// ```rust
    /// row_is(rt, line, writer.flushes(), 1);
    /// row_is(rt, line, writer.waiting(), false);
    /// ```
    pub fn flushes(&self) -> u64
        ensures { result ≡ self.now.flushes }
    {
        self.flushes
    }

    /// Counts a call, which may be a fault.
    fn count(&mut self, fault: bool)
        ensures device { self.new.device ≡ self.old.device }
        ensures reads { self.new.reads ≡ self.old.reads }
        ensures ends { self.new.ends ≡ self.old.ends }
        ensures faults { self.new.faults ≡ more_if fault self.old.faults }
        ensures failing { self.new.failing ≡ fault }
        ensures waiting { self.new.waiting ≡ self.old.waiting }
        ensures flushes { self.new.flushes ≡ self.old.flushes }
    {
        self.failing = fault;
        if fault {
            self.faults = self.faults.saturating_add(1);
        }
    }
}

impl<R: Read> Read for Counted<R> {
    ghost remaining = { λ c. R.remaining c.device };

    fn read(&mut self, buf: &mut [u8]) -> io::Result<usize>
        ensures bound { ReadsAtMost result buf.new }
        ensures bytes { ReadConsumes (R.remaining self.old.device) (R.remaining self.new.device) result buf.new }
        ensures reads { self.new.reads ≡ one_more self.old.reads }
        ensures ends { self.new.ends ≡ more_if (read_none result) self.old.ends }
        ensures faults { self.new.faults ≡ more_if (is_err result) self.old.faults }
        ensures failing { self.new.failing ≡ is_err result }
        ensures waiting { self.new.waiting ≡ self.old.waiting }
        ensures flushes { self.new.flushes ≡ self.old.flushes }
    {
        self.reads = self.reads.saturating_add(1);
        let result = self.device.read(buf);
        self.count(result.is_err());
        if let Ok(0) = result {
            self.ends = self.ends.saturating_add(1);
        }
        result
    }
}

impl<W: Write> Write for Counted<W> {
    ghost contents = { λ c. W.contents c.device };

    fn write(&mut self, buf: &[u8]) -> io::Result<usize>
        ensures bound { WritesAtMost result buf.now }
        ensures bytes { WriteAppends (W.contents self.old.device) (W.contents self.new.device) result buf.now }
        ensures reads { self.new.reads ≡ self.old.reads }
        ensures ends { self.new.ends ≡ self.old.ends }
        ensures faults { self.new.faults ≡ more_if (took_none result (length buf.now)) self.old.faults }
        ensures failing { self.new.failing ≡ took_none result (length buf.now) }
        ensures waiting { self.new.waiting ≡ (took_some result || self.old.waiting) }
        ensures flushes { self.new.flushes ≡ self.old.flushes }
    {
        let result = self.device.write(buf);
        let (taken, fault) = match &result {
            Ok(n) => (*n > 0, *n == 0 && !buf.is_empty()),
            Err(_) => (false, true),
        };
        self.count(fault);
        self.waiting = taken || self.waiting;
        result
    }

    fn flush(&mut self) -> io::Result<()>
        ensures bytes { Keeps (W.contents self.old.device) (W.contents self.new.device) }
        ensures reads { self.new.reads ≡ self.old.reads }
        ensures ends { self.new.ends ≡ self.old.ends }
        ensures faults { self.new.faults ≡ more_if (is_err result) self.old.faults }
        ensures failing { self.new.failing ≡ is_err result }
        ensures waiting { self.new.waiting ≡ (is_err result && self.old.waiting) }
        ensures flushes { self.new.flushes ≡ more_if (not (is_err result)) self.old.flushes }
    {
        let result = self.device.flush();
        self.count(result.is_err());
        if result.is_ok() {
            self.waiting = false;
            self.flushes = self.flushes.saturating_add(1);
        }
        result
    }
}
