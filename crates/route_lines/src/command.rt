//! Command lines.
ghost use Rattle.std.specs.Net.Grammar.{Parses};
ghost use Rattle.route_lines.specs.Texts.{IsCommand};

use crate::NotALine;
use crate::phrase::{Limit, Number, Optional, read_after};
use ipnet::IpNet;
use route_table::{DEFAULT_PREFERENCE, Hop};

/// A command: one line of the input. A command that was read has a network without host bits, or none.
#[derive(Clone, Copy, PartialEq, Eq)]
pub enum Command {
    /// `add NET HOP PREF`: adds a route to the hop, a number or `drop`, with this preference, 0 to 65535. In `add NET HOP` the
    /// preference is 100.
    Add { net: IpNet, hop: Hop, pref: u16 },
    /// `del NET HOP`: removes the network's route to the hop.
    Del { net: IpNet, hop: Hop },
    /// `get NET`: the longest stored network that contains NET.
    Get { net: IpNet },
    /// `cover NET`: the stored networks that contain NET.
    Cover { net: IpNet },
    /// `list NET`: the stored networks inside NET.
    List { net: IpNet },
    /// `all NET`: the routes of exactly this network, best first.
    All { net: IpNet },
    /// `from NET N`: the first N stored networks of NET's family from NET on; N is 1 to 1000.
    PageFrom { net: IpNet, limit: u16 },
    /// `after NET N`: the first N stored networks of NET's family after NET; N is 1 to 1000.
    PageAfter { net: IpNet, limit: u16 },
    /// `own NUMBER`: the blocks of the flat list with this hop.
    Own { number: u32 },
    /// `count`: the number of stored networks.
    Count,
    /// `flat`: the flat list.
    Flat,
}

impl Command {
    /// Reads a command from the text of a line, without its line end. Words are separated by exactly one space, and there is no
    /// space before or after them. Keywords are in lower case, and hops, preferences and other numbers have no leading zeros.
    /// Networks are read as `IpNet` reads them, and their host bits are cleared. Does not allocate.
    ///
    /// # Errors
    /// `NotALine` exactly if the text isn't a command.
    ///
    /// # Examples
    /// ```rust
    /// let Ok(Command::Add { net, hop, pref }) = Command::read(b"add 10.1.2.3/8 7") else {
    ///     panic!(&rt; "no command")
    /// };
    /// assert_eq!(rt; net.to_text().as_slice(), "10.0.0.0/8".as_bytes());
    /// assert_eq!(rt; hop, Hop::Number(7));
    /// assert_eq!(rt; pref, 100);
    /// ```
    pub fn read(line: &[u8]) -> Result<Command, NotALine>
        ensures { Parses IsCommand line.now result }
    {
        // (a pair that is destructured by a pattern is copied once more)
        if let Some(route) = read_after::<(IpNet, Optional)>(line, b"add ") {
            return Ok(Command::Add {
                net: route.0,
                hop: route.1.hop,
                pref: route.1.pref.unwrap_or(DEFAULT_PREFERENCE),
            });
        }
        if let Some(route) = read_after::<(IpNet, Hop)>(line, b"del ") {
            return Ok(Command::Del {
                net: route.0,
                hop: route.1,
            });
        }
        if let Some(net) = read_after::<IpNet>(line, b"get ") {
            return Ok(Command::Get { net });
        }
        if let Some(net) = read_after::<IpNet>(line, b"cover ") {
            return Ok(Command::Cover { net });
        }
        if let Some(net) = read_after::<IpNet>(line, b"list ") {
            return Ok(Command::List { net });
        }
        if let Some(net) = read_after::<IpNet>(line, b"all ") {
            return Ok(Command::All { net });
        }
        if let Some((net, limit)) = read_after::<(IpNet, Limit)>(line, b"from ") {
            let limit = limit.n as u16;
            return Ok(Command::PageFrom { net, limit });
        }
        if let Some((net, limit)) = read_after::<(IpNet, Limit)>(line, b"after ") {
            let limit = limit.n as u16;
            return Ok(Command::PageAfter { net, limit });
        }
        if let Some(number) = read_after::<Number>(line, b"own ") {
            let number = number.n as u32;
            return Ok(Command::Own { number });
        }
        if line == b"count".as_slice() {
            return Ok(Command::Count);
        }
        if line == b"flat".as_slice() {
            return Ok(Command::Flat);
        }
        Err(NotALine)
    }
}
