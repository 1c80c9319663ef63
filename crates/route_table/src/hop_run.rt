//! Runs: adjacent addresses of one hop, not cut into blocks.
ghost use Rattle.std.specs.Prelude.{◌∷◌, List};
ghost use Rattle.ipnet.specs.IpNets.{block};
ghost use Rattle.route_laws.specs.Flats.{Piece, flat_of};
ghost use Rattle.route_table.specs.InnerFlattening.{AreBoth, hops_of};
ghost use Rattle.route_table.specs.Items.{BeginsWithRun, GivesHopRun};

use crate::family::FamilyNet;
use crate::flat::{BothRuns, Flat};
use ipnet::IpNet;

/// Adjacent addresses of one family that have one hop: the number of the first and of the last address, as `to_bits` of an address
/// returns it, and the number of the hop.
#[derive(Clone, Copy, Debug, PartialEq, Eq)]
pub enum HopRun {
    V4(u32, u32, u32),
    V6(u128, u128, u32),
}

impl HopRun {
    /// The run of a network's addresses.
    fn of_net(net: &IpNet, number: u32) -> HopRun
        ensures { (left : List Piece) → BeginsWithRun (record { block = block net.now; number = number } ∷ left) result left }
    {
        match net {
            IpNet::V4(net) => HopRun::V4(net.first_key(), net.last_key(), number),
            IpNet::V6(net) => HopRun::V6(net.first_key(), net.last_key(), number),
        }
    }
}

impl<'a> BothRuns<'a> {
    /// Returns the addresses of the next run.
    fn next_run(&mut self) -> Option<HopRun>
        requires { AreBoth self.old }
        ensures both { AreBoth self.new }
        ensures run { GivesHopRun (flat_of (hops_of self.old)) result (flat_of (hops_of self.new)) }
    {
        if let Some(run) = self.v4.next() {
            let span = run.span();
            return Some(HopRun::V4(span.first as u32, span.last as u32, run.number()));
        }
        match self.v6.next() {
            Some(run) => {
                let span = run.span();
                Some(HopRun::V6(span.first, span.last, run.number()))
            }
            None => None,
        }
    }
}

impl<'a> Flat<'a> {
    /// Returns the addresses of the next blocks that are adjacent and have one hop, as one run, and skips these blocks. If `next` has
    /// returned a block of the run before, the rest of this run is returned block by block.
    ///
    /// # Examples
    /// If 10.0.0.0/9 has the hop 2, and is the first run of the table:
    ///
    /// ```rust
    /// let run = table.flat().next_run();
    /// assert_eq!(rt; run, Some(HopRun::V4(0x0a00_0000, 0x0a7f_ffff, 2)));
    /// ```
    pub fn next_run(&mut self) -> Option<HopRun>
        ensures { GivesHopRun self.old result self.new }
    {
        if let Some((net, number)) = self.pieces.next() {
            return Some(HopRun::of_net(&net, number));
        }
        self.runs.next_run()
    }
}
