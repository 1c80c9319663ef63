//! Reply lines.
ghost use Rattle.std.specs.Prelude.{◌≡◌, ◌≤◌, ◌++◌, length, codes};
ghost use Rattle.std.specs.Net.Grammar.{Parses};
ghost use Rattle.route_lines.specs.InnerPhrase.{Gives};
ghost use Rattle.route_lines.specs.Texts.{IsReply, closing_text};

use crate::NotALine;
use crate::phrase::{Count, Number, Optional, read_after};
use ipnet::IpNet;
use route_table::Hop;

/// A line of a reply.
#[derive(Clone, Copy, PartialEq, Eq)]
pub enum Reply {
    /// `set NET NUMBER`: the addresses of the block have this hop from now on.
    Set {
        net: IpNet,
        number: u32,
    },
    /// `unset NET`: the addresses of the block have no hop from now on.
    Unset {
        net: IpNet,
    },
    /// `route NET HOP PREF`: a route of a stored network. In `route NET HOP`, which leaders wrote when routes had no preferences,
    /// there is no preference.
    Route {
        net: IpNet,
        hop: Hop,
        pref: Option<u16>,
    },
    /// `flat NET NUMBER`: a block of the flat list.
    Flat {
        net: IpNet,
        number: u32,
    },
    /// `own NET`: a block of the hop that the command names.
    Own {
        net: IpNet,
    },
    /// `count V4 V6`: the number of stored networks of each family.
    Count {
        v4: u64,
        v6: u64,
    },
    /// The line that ends a reply.
    Close(Closing),
}

/// How a reply ends.
#[derive(Clone, Copy, PartialEq, Eq)]
pub enum Closing {
    /// `ok`: the command was carried out.
    Done,
    /// `none`: there is no such network or route.
    Missing,
    /// `bad`: the line isn't a command.
    Bad,
    /// `refused`: the network has eight other hops already, or memory ran out; nothing has changed.
    Refused,
}

impl Closing {
    fn read(line: &[u8]) -> Option<Closing>
        ensures { Gives (λ text c. text ≡ closing_text c) line.now result }
    {
        // The longest is `refused`; most lines are longer.
        if line.len() > 7 {
            return None;
        }
        // (most lines of this length are this one: its bytes are compared without a call)
        if let [b'o', b'k'] = line {
            return Some(Closing::Done);
        }
        if line == b"none".as_slice() {
            return Some(Closing::Missing);
        }
        if line == b"bad".as_slice() {
            return Some(Closing::Bad);
        }
        if line == b"refused".as_slice() {
            return Some(Closing::Refused);
        }
        None
    }

    /// Returns the text of the line, with its line end, as `Reply::print` does.
    ///
    /// # Examples
    /// ```rust
    /// assert_eq!(rt; Closing::Done.line(), b"ok\n".as_slice());
    /// ```
    pub fn line(self) -> &'static [u8]
        ensures text { result.now ≡ closing_text self ++ codes "\n" }
        ensures len { length result.now ≤ 8 }
    {
        match self {
            Closing::Done => b"ok\n",
            Closing::Missing => b"none\n",
            Closing::Bad => b"bad\n",
            Closing::Refused => b"refused\n",
        }
    }
}

impl Reply {
    /// Reads a reply line from its text, without its line end. Host bits of its network are cleared. Does not allocate.
    ///
    /// # Errors
    /// `NotALine` exactly if the text isn't a reply line.
    ///
    /// # Examples
    /// ```rust
    /// assert!(rt; Reply::read(b"ok") == Ok(Reply::Close(Closing::Done)));
    /// ```
    pub fn read(line: &[u8]) -> Result<Reply, NotALine>
        ensures { Parses IsReply line.now result }
    {
        if let Some(closing) = Closing::read(line) {
            return Ok(Reply::Close(closing));
        }
        // (a pair taken apart by a pattern is copied once more)
        if let Some(change) = read_after::<(IpNet, Number)>(line, b"set ") {
            return Ok(Reply::Set {
                net: change.0,
                number: change.1.n as u32,
            });
        }
        if let Some(net) = read_after::<IpNet>(line, b"unset ") {
            return Ok(Reply::Unset { net });
        }
        if let Some((net, route)) = read_after::<(IpNet, Optional)>(line, b"route ") {
            let Optional { hop, pref } = route;
            return Ok(Reply::Route { net, hop, pref });
        }
        if let Some(block) = read_after::<(IpNet, Number)>(line, b"flat ") {
            return Ok(Reply::Flat {
                net: block.0,
                number: block.1.n as u32,
            });
        }
        if let Some(net) = read_after::<IpNet>(line, b"own ") {
            return Ok(Reply::Own { net });
        }
        if let Some((v4, v6)) = read_after::<(Count, Count)>(line, b"count ") {
            return Ok(Reply::Count { v4: v4.n, v6: v6.n });
        }
        Err(NotALine)
    }
}
