//! A leader's table, which replies to each line.
ghost use Rattle.route_feed.specs.Lines.{command_in};
ghost use Rattle.route_feed.specs.LeadsLine.{Answers};
ghost use Rattle.route_program.specs.Counted.{CanCount};

use crate::answer::answer;
use route_program::{Counted, RunError, Sink};
use route_table::RouteTable;
use std::io::Write;
use std::marker::Model;

/// The table of a leader.
///
/// Contracts see the table.
#[derive(Drop)]
pub(crate) struct Leader {
    pub table: RouteTable,
}

impl Model for Leader {
    ghost use Rattle.std.specs.Prelude.{List};
    ghost use Rattle.route_laws.specs.Networks.{Stored};

    ghost Value = { List Stored };

    ghost view = { λ l. l.table };
}

/// A leader replies to each line.
impl<W: Write> Sink<W> for Leader {
    ghost can_take = { λ table writer. CanCount writer };

    ghost takes = { λ table line old result next new. Answers W.contents table next (command_in line) old new result };

    fn take(&mut self, text: Option<&[u8]>, writer: &mut Counted<W>) -> Result<(), RunError> {
        answer(&mut self.table, text, writer)
    }
}
