//! The run of an installer.
ghost use Rattle.std.specs.Prelude.{◌≤◌, ◌+◌, ◌^◌, OnOk, IfSome};
ghost use Rattle.route_lines.specs.Bytes.{lines};
ghost use Rattle.route_program.specs.Counted.{CanCount, CanRun};
ghost use Rattle.route_installer.specs.InnerInstalling.{TakesNoteLine};
ghost use Rattle.route_installer.specs.Installs.{AppendsInstalled, InstallEnds};

use crate::installer::Installer;
use route_lines::FibInput;
use route_program::{Counted, INPUT_BUFFER, RunError, Sink, run};
use std::alloc::Global;
use std::io::{Read, Write};

/// An installer reads each line, and writes batches meanwhile.
impl<W: Write> Sink<W> for Installer {
    ghost can_take = { λ installer writer. CanCount writer };

    ghost takes = { λ installer line old result next new. TakesNoteLine W.contents installer line old result next new };

    fn take(&mut self, text: Option<&[u8]>, writer: &mut Counted<W>) -> Result<(), RunError> {
        let Some(text) = text else {
            return Err(RunError::Line);
        };
        let Ok(note) = FibInput::read(text) else {
            return Err(RunError::Line);
        };
        self.take_note(note, writer)
    }
}

/// Keeps a table that is installed elsewhere in sync with the hops that the input lines report, by the operations that it writes.
///
/// `have` lines list the routes that are installed at the start, and the reply lines of a leader report the hops. At each `sync` the
/// installed table is turned into a smallest table with the committed hops. If it is one already, a later `sync` gives an empty batch.
/// Each `ok` of the input commits the pending changes. After the first `sync`, its operations are the fewest of all that bring each
/// address to its committed hop.
///
/// The operations of one line are a batch, which may be empty. Each batch ends with `ok`, and then the writer is flushed. An `ok` of the
/// input without pending changes gives no batch, and before the first `sync` nothing is written. While a batch is carried out, each
/// address changes its hop at most once (`laws::installed`).
///
/// Bytes after the last line end are ignored. If the reader's or the writer's type doesn't specify its bytes, as that of a file, the run
/// does the same, but nothing is proved about these bytes. The counts of reader and writer must be below 2^63.
///
/// # Errors
/// The batches of all lines before the error were written and flushed. At `Write`, a beginning of the next batch may be written too, but
/// not flushed.
///
/// - `Line` if a line is none of these, or is a `have` line after a `sync`.
/// - `Memory` before anything is read, or at a `have` line, a `sync`, a reply line with a change, or one that commits changes.
/// - `Read` if `read` fails, or if 2^62 calls of `read` don't reach the end.
/// - `Write` if `write` or `flush` fails, or if `write` writes nothing.
///
/// # Examples
/// `text_is` compares its last two arguments:
///
/// ```rust
/// let input: &[u8] = b"have 10.0.0.0/8 1\nset 10.0.0.0/8 2\nok\nsync\n";
/// let mut reader = Counted::new(input);
/// let mut writer = Counted::new(Vec::new(rt.alloc()));
/// install(rt.alloc(), &mut reader, &mut writer)?;
/// let out = writer.into_inner();
/// text_is(&rt, "one", out.as_slice(), "install 10.0.0.0/8 2\nok\n");
/// ```
pub fn install<R: Read, W: Write>(
    alloc: Global,
    reader: &mut Counted<R>,
    writer: &mut Counted<W>,
) -> Result<(), RunError>
    requires { CanRun reader.old writer.old }
    ensures ends { InstallEnds R.remaining W.contents reader.old reader.new writer.old writer.new result }
    ensures reads { reader.new.reads ≤ reader.old.reads + 2 ^ 62 }
    ensures known { OnOk result (IfSome (R.remaining reader.old.device) (λ bytes.
        AppendsInstalled (lines bytes) (W.contents writer.old.device) (W.contents writer.new.device))) }
{
    let mut buf = vec![in alloc; 0; INPUT_BUFFER]?;
    let mut installer = Installer::new(alloc)?;
    run(&mut installer, buf.as_mut_slice(), reader, writer)?;
    Ok(())
}
