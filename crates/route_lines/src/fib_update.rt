//! The lines of an installer's output.
ghost use Rattle.std.specs.Prelude.{◌≡◌};
ghost use Rattle.std.specs.Net.Grammar.{Parses};
ghost use Rattle.route_lines.specs.Texts.{IsUpdate, update_for};

use crate::NotALine;
use crate::phrase::read_after;
use ipnet::IpNet;
use route_table::{Hop, Operation};

/// A line of an installer's output: an operation on the installed table, or the end of a batch.
#[derive(Clone, Copy, PartialEq, Eq)]
pub enum FibUpdate {
    /// `install NET HOP`: adds the route, and replaces the network's old route if it has one.
    Install { net: IpNet, hop: Hop },
    /// `remove NET`: removes the route of the network.
    Remove { net: IpNet },
    /// `ok`: the batch is complete.
    Done,
}

impl FibUpdate {
    /// Reads a line from its text, without its line end. Host bits of its network are cleared. Does not allocate.
    ///
    /// # Errors
    /// `NotALine` exactly if the text isn't such a line.
    ///
    /// # Examples
    /// ```rust
    /// assert!(rt; FibUpdate::read(b"ok") == Ok(FibUpdate::Done));
    /// ```
    pub fn read(line: &[u8]) -> Result<FibUpdate, NotALine>
        ensures { Parses IsUpdate line.now result }
    {
        if let Some((net, hop)) = read_after::<(IpNet, Hop)>(line, b"install ") {
            return Ok(FibUpdate::Install { net, hop });
        }
        if let Some(net) = read_after::<IpNet>(line, b"remove ") {
            return Ok(FibUpdate::Remove { net });
        }
        if line == b"ok".as_slice() {
            return Ok(FibUpdate::Done);
        }
        Err(NotALine)
    }
}

/// The line of an operation.
///
/// # Examples
/// If `operation` installs 10.0.0.0/8 with the hop 7, and `text` is `install 10.0.0.0/8 7`:
///
/// ```rust
/// let update = FibUpdate::read(text.as_bytes()).expect(rt, text);
/// row_is(rt, text, update == FibUpdate::from(operation), true);
/// ```
impl From<Operation> for FibUpdate {
    ghost from_gives = { λ operation update. update ≡ update_for operation };

    fn from(operation: Operation) -> FibUpdate {
        match operation {
            Operation::Install { net, hop } => FibUpdate::Install { net, hop },
            Operation::Remove { net } => FibUpdate::Remove { net },
        }
    }
}
