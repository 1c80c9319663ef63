//! Writing a piece, and the end of a reply.
ghost use Rattle.std.specs.Prelude.{[]};
ghost use Rattle.route_program.specs.Counted.{CanCount};
ghost use Rattle.route_program.specs.Devices.{Closes, Delivers, Writes, closing_line};

use crate::counted::Counted;
use crate::error::RunError;
use route_lines::Closing;
use std::io::Write;

/// Writes the piece. The writer must have counted fewer than 2^64 - 1 faults.
///
/// # Errors
/// Only `Write`: if `write` fails or writes nothing. Then only a beginning of the piece was written.
pub fn write_piece<W: Write>(writer: &mut Counted<W>, piece: &[u8]) -> Result<(), RunError>
    requires { CanCount writer.old }
    ensures { Writes W.contents writer.old writer.new result piece.now }
{
    let mut left = piece;
    while !left.is_empty() {
        match writer.write(left) {
            Ok(n) => {
                if n == 0 {
                    return Err(RunError::Write);
                }
                left = &left[n..];
            }
            Err(_) => return Err(RunError::Write),
        }
    }
    Ok(())
}

/// Flushes the writer. The writer must have counted fewer than 2^64 - 1 faults.
///
/// # Errors
/// Only `Write`: if `flush` fails.
pub fn flush<W: Write>(writer: &mut Counted<W>) -> Result<(), RunError>
    requires { CanCount writer.old }
    ensures { Delivers W.contents writer.old writer.new result [] }
{
    writer.flush().map_err(|_| RunError::Write)
}

/// Writes the line that closes a reply, and flushes. The writer must have counted fewer than 2^64 - 1 faults.
///
/// # Errors
/// Only `Write`: if `write` or `flush` fails, or if `write` writes nothing. Then a beginning of the line, or all of it, was written.
pub fn close<W: Write>(writer: &mut Counted<W>, closing: Closing) -> Result<(), RunError>
    requires { CanCount writer.old }
    ensures { Closes W.contents 1 writer.old writer.new result (closing_line closing) }
{
    write_piece(writer, closing.line())?;
    flush(writer)
}
