//! The receivers of input lines, and the run that reads the input for them.
ghost use Rattle.std.specs.Prelude.{◌≡◌, ◌≢◌, ◌<◌, ◌≤◌, ◌+◌, ◌^◌, [], ◌∷◌, ◌++◌, length, All, OnOk, Result};
ghost use Rattle.route_program.specs.Counted.{CanRead};
ghost use Rattle.route_program.specs.Run.{Runs, TakesAll};
ghost use Rattle.route_program.specs.declared.counted.Counted.{Counted};
ghost use Rattle.route_program.specs.declared.error.RunError.{RunError};
ghost use Rattle.route_lines.specs.Lines.{answers, as_line, fed_all, kept_of};
ghost use Rattle.route_lines.specs.declared.cutter.Line.{Line};

use crate::counted::Counted;
use crate::error::RunError;
use memchr::memchr;
use route_lines::{LineCutter, Rest, line_text};
use std::io::{Read, Write};

/// The most reads of a run.
const MOST_READS: u64 = 1 << 62;

/// The size of the buffer that the runs of `route_feed` and `route_installer` allocate for reads.
pub const INPUT_BUFFER: usize = 1 << 16;

/// A receiver of the lines of an input, one by one, which may write while it receives.
///
/// # Examples
/// A receiver that counts lines, and writes nothing:
///
/// ```rust
/// impl<W: Write> Sink<W> for LineCount {
///     ghost can_take = { λ count writer. ⊤ };
///
///     ghost takes = { λ count line old result next new. (result ≡ Ok tt) × (next.lines ≡ one_more count.lines) };
///
///     fn take(&mut self, _text: Option<&[u8]>, _writer: &mut Counted<W>) -> Result<(), RunError> {
///         self.lines = self.lines.saturating_add(1);
///         Ok(())
///     }
/// }
/// ```
pub trait Sink<W: Write> {
    /// Whether it can receive a line now.
    ghost can_take: { Self → Counted W → Type 0 };

    /// The effect of receiving a line, with its result.
    ghost takes: { Self → Line → Counted W → Result Unit RunError → Self → Counted W → Type 0 };

    /// Receives the line of these bytes; `None` is a line that is too long.
    ///
    /// # Errors
    /// Those that `takes` allows.
    fn take(&mut self, text: Option<&[u8]>, writer: &mut Counted<W>) -> Result<(), RunError>
        requires { can_take self.old writer.old }
        ensures takes { takes self.old (as_line text.entry) writer.old result self.new writer.new }
        ensures others { OnOk result (can_take self.new writer.new) };
}

/// Feeds bytes without a line end to the cutter.
fn hold(cutter: &mut LineCutter, bytes: &[u8])
    requires { All (λ c. c ≢ 10) bytes.now }
    ensures kept { cutter.new ≡ fed_all cutter.old bytes.now }
{
    for byte in bytes {
        let _ = cutter.feed(*byte);
    }
}

/// Passes to the sink the line that ends after these bytes, without a copy unless the cutter holds its beginning.
fn take_line<W: Write, S: Sink<W>>(
    sink: &mut S,
    cutter: &mut LineCutter,
    bytes: &[u8],
    writer: &mut Counted<W>,
) -> Result<(), RunError>
    requires sink { S.can_take sink.old writer.old }
    requires bytes { All (λ c. c ≢ 10) bytes.now }
    ensures takes { TakesAll S.takes sink.old (answers cutter.old (bytes.now ++ 10 ∷ [])) writer.old result sink.new writer.new }
    ensures cutter { cutter.new ≡ kept_of [] }
    ensures others { OnOk result (S.can_take sink.new writer.new) }
{
    if cutter.is_new() {
        return sink.take(line_text(bytes), writer);
    }
    hold(cutter, bytes);
    match cutter.feed(b'\n') {
        Some(line) => sink.take(line.text(), writer),
        None => Ok(()),
    }
}

/// Passes to the sink each line that ends within the bytes.
fn take_piece<W: Write, S: Sink<W>>(
    sink: &mut S,
    cutter: &mut LineCutter,
    piece: &[u8],
    writer: &mut Counted<W>,
) -> Result<(), RunError>
    requires { S.can_take sink.old writer.old }
    ensures takes { TakesAll S.takes sink.old (answers cutter.old piece.now) writer.old result sink.new writer.new }
    ensures cutter { OnOk result (cutter.new ≡ fed_all cutter.old piece.now) }
    ensures others { OnOk result (S.can_take sink.new writer.new) }
{
    let mut left = piece;
    while let Some(end) = memchr(b'\n', left) {
        take_line(sink, cutter, &left[..end], writer)?;
        left = &left[end + 1..];
    }
    hold(cutter, left);
    Ok(())
}

/// Reads to the end, and passes each line to the sink, which must be able to take one. Returns whether there are bytes after the last line
/// end; the sink doesn't receive these. `buf` must not be empty, and the reader's counts must be below 2^63.
///
/// # Errors
/// - `Read` if `read` fails, or if 2^62 calls of `read` don't reach the end. The sink has received each complete line that was read.
/// - Any error of the sink, at the first line that it didn't accept.
///
/// # Examples
/// The number of lines of `reader`, by the receiver that counts them; `buf` takes the bytes of each read:
///
/// ```rust
/// let mut count = LineCount { lines: 0 };
/// let mut nowhere = Counted::new(Vec::new(alloc));
/// run(&mut count, buf.as_mut_slice(), reader, &mut nowhere)?;
/// Ok(count.lines)
/// ```
pub fn run<R: Read, W: Write, S: Sink<W>>(
    sink: &mut S,
    buf: &mut [u8],
    reader: &mut Counted<R>,
    writer: &mut Counted<W>,
) -> Result<Rest, RunError>
    requires room { 0 < length buf.old }
    requires sink { S.can_take sink.old writer.old }
    requires reader { CanRead reader.old }

    // The sink took the complete lines, up to the first one that it refused. The reads are bounded. If the bytes are known, none follows the end.
    ensures runs { Runs S.takes R.remaining sink.old reader.old writer.old result sink.new reader.new writer.new }
    ensures reads { reader.new.reads ≤ reader.old.reads + 2 ^ 62 }
{
    let mut cutter = LineCutter::new();
    for _read in 0..MOST_READS {
        let Ok(count) = reader.read(buf) else {
            return Err(RunError::Read);
        };
        take_piece(sink, &mut cutter, &buf[..count], writer)?;
        if count == 0 {
            return Ok(cutter.rest());
        }
    }
    Err(RunError::Read)
}
