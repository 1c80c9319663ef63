//! Writing replies and routes.
ghost use Rattle.std.specs.Prelude.{◌++◌, ◌∷◌, []};
ghost use Rattle.route_laws.specs.LeastTables.{routes_for};
ghost use Rattle.route_feed.specs.AddLines.{add_lines};
ghost use Rattle.route_program.specs.Counted.{CanCount};
ghost use Rattle.route_feed.specs.Replies.{printed};
ghost use Rattle.route_feed.specs.Lines.{HaveNoHostBits};
ghost use Rattle.route_program.specs.Devices.{Delivers, Closes};

use crate::body::Body;
use arrayvec::ArrayVec;
use route_lines::{Closing, Command, Reply};
use route_program::{Counted, RunError, close, flush, write_piece};
use route_table::{DEFAULT_PREFERENCE, LeastRoutes};
use std::io::Write;

/// Writes a reply, its lines and `ok`, and flushes.
///
/// # Errors
/// Only `Write`: if `write` or `flush` fails, or if `write` writes nothing. Then a beginning of the reply, or all of it, was written.
pub(crate) fn reply<W: Write, B: Body>(writer: &mut Counted<W>, mut body: B) -> Result<(), RunError>
    requires counts { CanCount writer.old }
    requires body { B.can_give body }
    ensures { Closes W.contents 1 writer.old writer.new result (printed (B.lines body ++ Reply.Close Closing.Done ∷ [])) }
{
    let mut text = ArrayVec::<u8, 67>::new();
    while let Some(line) = body.next_line() {
        line.print_to(&mut text);
        write_piece(writer, text.as_slice())?;
    }
    close(writer, Closing::Done)
}

/// Writes the lines that add the routes, and flushes.
///
/// # Errors
/// Only `Write`: if `write` or `flush` fails, or if `write` writes nothing. Then a beginning of the lines, or all of them, was written.
pub(crate) fn write_routes<W: Write>(
    writer: &mut Counted<W>,
    routes: LeastRoutes,
) -> Result<(), RunError>
    requires counts { CanCount writer.old }
    requires networks { HaveNoHostBits routes }
    ensures { Delivers W.contents writer.old writer.new result (add_lines (routes_for routes)) }
{
    let mut text = ArrayVec::new();
    for (net, hop) in routes {
        let command = Command::Add {
            net,
            hop,
            pref: DEFAULT_PREFERENCE,
        };
        command.print_to(&mut text);
        write_piece(writer, text.as_slice())?;
    }
    flush(writer)
}
