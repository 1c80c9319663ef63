//! The flat list of a table: the shortest list of one-hop blocks that covers all addresses with a hop.
ghost use Rattle.std.specs.Prelude.{◌≡◌, ◌++◌, [], List};
ghost use Rattle.std.specs.Iterator.{item_count};
ghost use Rattle.route_laws.specs.Flats.{IsFlat};
ghost use Rattle.route_table.specs.InnerFlattening.{AreBoth, GivesPieces, pieces_of};
ghost use Rattle.route_table.specs.Items.{GivesPiece};
ghost use Rattle.route_laws.specs.Networks.{routes_of};
ghost use Rattle.route_laws.specs.Tables.{hop_at};
ghost use Rattle.route_table.specs.Given.{AreFamilies, IsFlatOf};

use crate::address_family::AddressFamily;
use crate::family_routes::FamilyRoutes;
use crate::governed::{blocks, no_blocks};
use crate::runs::Runs;
use crate::table::RouteTable;
use ipnet::{IpNet, IpSubnets, Ipv4Net, Ipv6Net};
use std::marker::Model;

/// The blocks that are left of a run, and the number of their hop.
#[derive(Drop)]
pub(crate) struct Pieces {
    blocks: IpSubnets,
    number: u32,
}

impl Pieces {
    /// An empty run.
    fn none() -> Pieces
        ensures { pieces_of result ≡ [] }
    {
        Pieces {
            blocks: no_blocks(),
            number: 0,
        }
    }

    /// Removes and returns the first block, with the number.
    pub(crate) fn next(&mut self) -> Option<(IpNet, u32)>
        ensures { GivesPiece (pieces_of self.old) result (pieces_of self.new) }
    {
        let number = self.number;
        match self.blocks.next() {
            Some(net) => Some((net, number)),
            None => None,
        }
    }
}

/// The runs of both families.
#[derive(Drop)]
pub(crate) struct BothRuns<'a> {
    pub(crate) v4: Runs<'a, Ipv4Net>,
    pub(crate) v6: Runs<'a, Ipv6Net>,
}

impl<'a> BothRuns<'a> {
    /// Returns the blocks of the next run.
    fn next(&mut self) -> Option<Pieces>
        requires { AreBoth self.old }
        ensures both { AreBoth self.new }
        ensures pieces { GivesPieces self.old result self.new }
    {
        if let Some(run) = self.v4.next() {
            return Some(Pieces {
                blocks: blocks(AddressFamily::V4, run.span()),
                number: run.number(),
            });
        }
        match self.v6.next() {
            Some(run) => Some(Pieces {
                blocks: blocks(AddressFamily::V6, run.span()),
                number: run.number(),
            }),
            None => None,
        }
    }
}

/// The maximal blocks of the addresses of each hop, as networks without host bits, each with its hop number, ascending. Does not
/// allocate.
pub struct Flat<'a> {
    pub(crate) pieces: Pieces,
    pub(crate) runs: BothRuns<'a>,
}

/// A destructor of its own: see `FamilyRoutes`.
impl<'a> Drop for Flat<'a> {
    fn drop(self) {
        let Flat { pieces: _, runs: _ } = self;
    }
}

impl<'a> Model for Flat<'a> {
    ghost use Rattle.std.specs.Prelude.{List};
    ghost use Rattle.route_laws.specs.Flats.{Piece};
    ghost use Rattle.route_table.specs.InnerFlattening.{AreBoth, pieces_left};

    ghost Value = { List Piece };

    ghost view = { λ a. pieces_left a.pieces a.runs };

    ghost invariant = { λ a. AreBoth a.runs };
}

impl<'a> Flat<'a> {
    /// The flat list of a table with these IPv4 and IPv6 routes, each ascending.
    pub(crate) fn new(v4: FamilyRoutes<'a, Ipv4Net>, v6: FamilyRoutes<'a, Ipv6Net>) -> Flat<'a>
        requires { AreFamilies (v4 ++ v6) v4 v6 }
        ensures { IsFlat (hop_at (v4.entry ++ v6.entry)) result }
    {
        Flat {
            pieces: Pieces::none(),
            runs: BothRuns {
                v4: Runs::new(v4),
                v6: Runs::new(v6),
            },
        }
    }
}

impl<'a> Iterator for Flat<'a> {
    type Item = (IpNet, u32);

    ghost next_gives = { GivesPiece };

    ghost remaining = { item_count (λ ps. ps) };

    fn next(&mut self) -> Option<(IpNet, u32)> {
        if let Some(piece) = self.pieces.next() {
            return Some(piece);
        }
        self.pieces = self.runs.next()?;
        self.pieces.next()
    }
}

impl RouteTable {
    /// Returns the maximal blocks of the addresses of each hop, each with its hop number, ascending, IPv4 before IPv6. No list of
    /// one-hop blocks that covers all addresses with a hop is shorter. In each family, there is at most one block more than the sum of
    /// the lengths of the stored networks. Does not allocate.
    ///
    /// # Examples
    /// If 10.0.0.0/8 has the hop 1, and `half`, 10.0.0.0/9, the hop 2:
    ///
    /// ```rust
    /// let mut flat = table.flat();
    /// assert_eq!(rt; flat.next(), Some((half, 2)));
    /// assert_eq!(rt; flat.next(), Some((other_half, 1)));
    /// assert_eq!(rt; flat.next(), None);
    /// ```
    pub fn flat(&self) -> Flat<'_>
        ensures { IsFlatOf (routes_of self.now) result }
    {
        let (v4, v6) = self.sides();
        Flat::new(v4, v6)
    }
}
