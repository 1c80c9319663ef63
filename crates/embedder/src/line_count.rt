//! A receiver of lines of the caller's own: it counts them.
ghost use Rattle.std.specs.Prelude.{◌≡◌, ◌^◌, ◌-◌, ⊤, IfOk, Ok, length, min};
ghost use Rattle.route_lines.specs.Bytes.{lines};
ghost use Rattle.route_program.specs.Counted.{CanRead, one_more};
ghost use Rattle.route_program.specs.Devices.{HasReadAll};

use route_program::laws::counts;
use route_program::{Counted, INPUT_BUFFER, RunError, Sink, run};
use std::alloc::Global;
use std::io::{Read, Write};

/// The number of lines that were received, up to the greatest u64.
#[derive(Drop)]
pub struct LineCount {
    lines: u64,
}

/// It counts each line, and writes nothing.
impl<W: Write> Sink<W> for LineCount {
    ghost can_take = { λ count writer. ⊤ };

    ghost takes = { λ count line old result next new. (result ≡ Ok tt) × (next.lines ≡ one_more count.lines) };

    fn take(&mut self, _text: Option<&[u8]>, _writer: &mut Counted<W>) -> Result<(), RunError> {
        self.lines = self.lines.saturating_add(1);
        Ok(())
    }
}

/// Reads to the end, and returns the number of lines, up to the greatest u64.
///
/// # Errors
/// Those of `run`, and `Memory`; this contract says nothing of them.
pub fn count_lines<R: Read>(alloc: Global, reader: &mut Counted<R>) -> Result<u64, RunError>
    requires { CanRead reader.old }
    ensures { IfOk result (λ n. HasReadAll R.remaining (λ bytes. n ≡ min (length (lines bytes)) (2 ^ 64 - 1)) reader.old reader.new) }
{
    counts();
    let mut buf = vec![in alloc; 0; INPUT_BUFFER]?;
    let mut count = LineCount { lines: 0 };
    let mut nowhere = Counted::new(Vec::new(alloc));
    run(&mut count, buf.as_mut_slice(), reader, &mut nowhere)?;
    Ok(count.lines)
}
