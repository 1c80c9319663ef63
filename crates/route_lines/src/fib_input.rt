//! The lines of an installer's input.
ghost use Rattle.std.specs.Net.Grammar.{Parses};
ghost use Rattle.route_lines.specs.Texts.{IsNote};

use crate::NotALine;
use crate::phrase::read_after;
use crate::reply::Reply;
use ipnet::IpNet;
use route_table::Hop;

/// A line of an installer's input: about a table that is installed already, or from a leader.
#[derive(Clone, Copy, PartialEq, Eq)]
pub enum FibInput {
    /// `have NET HOP`: this route is installed already.
    Have { net: IpNet, hop: Hop },
    /// `sync`: from here on, the installed table is kept in sync with the reported hops, first with those reported so far.
    Sync,
    /// A reply line of a leader.
    Reply(Reply),
}

impl FibInput {
    /// Reads a line from its text, without its line end. Host bits of its network are cleared. Does not allocate.
    ///
    /// # Errors
    /// `NotALine` exactly if the text isn't such a line.
    ///
    /// # Examples
    /// ```rust
    /// assert!(rt; FibInput::read(b"sync") == Ok(FibInput::Sync));
    /// ```
    pub fn read(line: &[u8]) -> Result<FibInput, NotALine>
        ensures { Parses IsNote line.now result }
    {
        // Most lines are reply lines; their first byte or their length tells them apart from `have` and `sync`.
        if let Some((net, hop)) = read_after::<(IpNet, Hop)>(line, b"have ") {
            return Ok(FibInput::Have { net, hop });
        }
        if line == b"sync".as_slice() {
            return Ok(FibInput::Sync);
        }
        let reply = Reply::read(line)?;
        Ok(FibInput::Reply(reply))
    }
}
