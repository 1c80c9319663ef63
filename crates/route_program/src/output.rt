//! The output, which delays flushes while more lines are available, and its end.
ghost use Rattle.std.specs.Io.{WritesAtMost};
ghost use Rattle.std.specs.Io.Buffered.{writer_contents, writer_inner};
ghost use Rattle.std.specs.Io.KnownBytes.{Keeps, WriteAppends};
ghost use Rattle.std.specs.Prelude.{◌≡◌, false, IfErr, IfOk, is_err, length};
ghost use Rattle.route_program.specs.Counted.{more_if, took_none};

use crate::counted::Counted;
use crate::error::RunError;
use std::cell::Cell;
use std::io;
use std::io::{BufWriter, Write};

/// The most bytes of output that are gathered before they are written.
pub const OUTPUT_BUFFER: usize = 1 << 16;

/// A writer that is flushed only if no more lines are available, as `more` says. Errors of the device are passed on.
#[derive(Drop)]
pub struct Output<'a, W: Drop> {
    device: Counted<W>,
    more: &'a Cell<bool>,
}

impl<'a, W: Drop> Output<'a, W> {
    /// Makes the output of a device; nothing is counted yet. `more` is the one that the input sets.
    pub fn new(device: W, more: &'a Cell<bool>) -> Output<'a, W>
        ensures device { result.device.device ≡ device }
        ensures counts { (result.device.reads ≡ 0) × (result.device.ends ≡ 0) × (result.device.faults ≡ 0) }
        ensures flushes { (result.device.flushes ≡ 0) × (result.device.waiting ≡ false) }
        ensures failing { result.device.failing ≡ false }
    {
        Output {
            device: Counted::new(device),
            more,
        }
    }

    /// Returns the writer.
    pub fn into_inner(self) -> W
        ensures { result ≡ self.entry.device.device }
    {
        let Output { device, more: _ } = self;
        device.into_inner()
    }
}

impl<'a, W: Write + Drop> Write for Output<'a, W> {
    ghost contents = { λ output. W.contents output.device.device };

    fn write(&mut self, buf: &[u8]) -> io::Result<usize>
        ensures bound { WritesAtMost result buf.now }
        ensures bytes { WriteAppends (W.contents self.old.device.device) (W.contents self.new.device.device) result buf.now }
        ensures faults { self.new.device.faults ≡ more_if (took_none result (length buf.now)) self.old.device.faults }
    {
        self.device.write(buf)
    }

    fn flush(&mut self) -> io::Result<()>
        ensures bytes { Keeps (W.contents self.old.device.device) (W.contents self.new.device.device) }
        ensures faults { self.new.device.faults ≡ more_if (is_err result) self.old.device.faults }
    {
        if self.more.get() {
            return Ok(());
        }
        self.device.flush()
    }
}

/// Writes out the gathered bytes, and returns the output.
///
/// # Errors
/// `Write` if `write` fails or writes nothing. Then the output is dropped.
pub fn write_out<W: Write + Drop>(buffered: BufWriter<W>) -> Result<W, RunError>
    ensures written { IfOk result (λ w. Keeps (writer_contents W.contents buffered) (W.contents w)) }
    ensures fault { IfErr result (λ e. e ≡ RunError.Write) }
{
    match buffered.into_inner() {
        Ok(output) => Ok(output),
        Err(error) => {
            release(error.into_inner());
            Err(RunError::Write)
        }
    }
}

/// Returns the output of a writer. The bytes that the writer has gathered are not written.
pub fn release<W: Write + Drop>(buffered: BufWriter<W>) -> W
    ensures { result ≡ writer_inner buffered }
{
    let (output, _unwritten) = buffered.into_parts();
    output
}
