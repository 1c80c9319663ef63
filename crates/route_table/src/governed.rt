//! The addresses that a network governs: those that no longer stored network inside it contains.
ghost use Rattle.std.specs.Prelude.{◌≡◌, ◌<◌, ◌≤◌, ◌^◌, All, [], true};
ghost use Rattle.std.specs.Iterator.{item_count};
ghost use Rattle.ipnet_addr.specs.Addresses.{width};
ghost use Rattle.ipnet_blocks.specs.Blocks.{IsBlock, IsInside, first, last};
ghost use Rattle.ipnet_blocks.specs.Maximal.{IsMaximal};
ghost use Rattle.ipnet_blocks.specs.InnerSpans.{limits_of};
ghost use Rattle.ipnet.specs.IpNets.{block, family};
ghost use Rattle.ipnet.specs.IpSubnets.{ip_cut, ip_limits};
ghost use Rattle.route_table.specs.InnerFamilies.{family_of};
ghost use Rattle.route_laws.specs.Tables.{Governed as GovernedBy, IsTable};
ghost use Rattle.route_table.specs.InnerGoverning.{AreGaps, GivesGap, IsPassed, StepsGap, blocks_left};
ghost use Rattle.route_table.specs.Items.{GivesBlock};

use crate::address_family::AddressFamily;
use crate::routes::Routes;
use ipnet::{IpNet, IpSubnets, Ipv4Subnets, Ipv6Subnets};
use ipnet_addr::bits::{ipv4_of, ipv6_of};
use ipnet_blocks::aggregate::Span;
use std::marker::Model;

/// The numbers of a network's addresses.
pub(crate) fn span(net: &IpNet) -> Span
    ensures first { result.first ≡ first (block net.now) }
    ensures last { result.last ≡ last (block net.now) }
    ensures order { result.first ≤ result.last }
    ensures fits { result.last < 2 ^ width (family net.now) }
{
    match net {
        IpNet::V4(net) => Span {
            first: net.network().to_bits().into(),
            last: net.broadcast().to_bits().into(),
        },
        IpNet::V6(net) => Span {
            first: net.network().to_bits(),
            last: net.broadcast().to_bits(),
        },
    }
}

/// The largest blocks of a span of the family, ascending.
pub(crate) fn blocks(family: AddressFamily, span: Span) -> IpSubnets
    requires fits { span.last < 2 ^ width (family_of family) }
    requires order { span.first ≤ span.last }
    ensures { result ≡ ip_limits (family_of family) (limits_of span) }
{
    match family {
        AddressFamily::V4 => IpSubnets::V4(Ipv4Subnets::new(
            ipv4_of(span.first as u32),
            ipv4_of(span.last as u32),
            0,
        )),
        AddressFamily::V6 => IpSubnets::V6(Ipv6Subnets::new(
            ipv6_of(span.first),
            ipv6_of(span.last),
            0,
        )),
    }
}

/// An iterator without blocks.
pub(crate) fn no_blocks() -> IpSubnets
    ensures { ip_cut result ≡ [] }
{
    IpSubnets::V4(Ipv4Subnets::new(ipv4_of(1), ipv4_of(0), 0))
}

/// The gaps between the routes strictly inside a network, from the address `at` on.
#[derive(Drop)]
pub(crate) struct Gaps<'a> {
    net: IpNet,
    at: u128,
    end: u128,
    done: bool,
    inside: Routes<'a>,
}

/// The effect of the next route on the gaps.
enum Step {
    Gap(Span),
    Passed,
    Done,
}

impl<'a> Gaps<'a> {
    /// Moves past a route that ends at `last`.
    fn pass(&mut self, last: u128)
        ensures net { self.new.net ≡ self.old.net }
        ensures end { self.new.end ≡ self.old.end }
        ensures inside { self.new.inside ≡ self.old.inside }
        ensures passed { IsPassed self.old last self.new }
    {
        if last < self.end {
            self.at = self.at.max(last + 1);
        } else {
            self.done = true;
        }
    }

    /// Marks the gaps as done.
    fn finish(&mut self)
        ensures net { self.new.net ≡ self.old.net }
        ensures end { self.new.end ≡ self.old.end }
        ensures at { self.new.at ≡ self.old.at }
        ensures inside { self.new.inside ≡ self.old.inside }
        ensures done { self.new.done ≡ true }
    {
        self.done = true;
    }

    /// Handles the next route.
    fn step(&mut self) -> Step
        requires { AreGaps self.old }
        ensures gaps { AreGaps self.new }
        ensures net { self.new.net ≡ self.old.net }
        ensures end { self.new.end ≡ self.old.end }
        ensures step { StepsGap self.old result self.new }
    {
        if self.done {
            return Step::Done;
        }
        let start = self.at;
        let Some((net, _, _)) = self.inside.next() else {
            self.finish();
            return Step::Gap(Span {
                first: start,
                last: self.end,
            });
        };
        if net.prefix_len() <= self.net.prefix_len() {
            return Step::Passed;
        }
        let Span { first, last } = span(&net);
        self.pass(last);
        if start < first {
            Step::Gap(Span {
                first: start,
                last: first - 1,
            })
        } else {
            Step::Passed
        }
    }

    /// Returns the next gap.
    fn next(&mut self) -> Option<Span>
        requires { AreGaps self.old }
        ensures gaps { AreGaps self.new }
        ensures net { self.new.net ≡ self.old.net }
        ensures end { self.new.end ≡ self.old.end }
        ensures gap { GivesGap self.old result self.new }
    {
        'step: loop {
            match self.step() {
                Step::Gap(gap) => return Some(gap),
                Step::Done => return None,
                Step::Passed => {}
            }
        }
    }
}

/// The maximal blocks of the addresses that a network governs, ascending, as networks without host bits. Does not allocate.
pub struct Governed<'a> {
    gaps: Gaps<'a>,
    blocks: IpSubnets,
}

/// A destructor of its own: see `FamilyRoutes`.
impl<'a> Drop for Governed<'a> {
    fn drop(self) {
        let Governed { gaps: _, blocks: _ } = self;
    }
}

impl<'a> Model for Governed<'a> {
    ghost use Rattle.std.specs.Prelude.{List};
    ghost use Rattle.ipnet_blocks.specs.Blocks.{Block};
    ghost use Rattle.route_table.specs.InnerGoverning.{AreGaps, blocks_left};

    ghost Value = { List Block };

    ghost view = { λ a. blocks_left a.gaps a.blocks };

    ghost invariant = { λ a. AreGaps a.gaps };
}

impl<'a> Governed<'a> {
    /// Makes the list of a network, given all routes inside it.
    pub fn new(net: IpNet, inside: Routes<'a>) -> Governed<'a>
        requires block { IsBlock (block net) }
        requires table { IsTable inside }
        requires inside { All (λ r. IsInside r.block (block net)) inside }
        ensures { IsMaximal (GovernedBy inside.entry (block net)) result }
    {
        let Span { first, last } = span(&net);
        Governed {
            gaps: Gaps {
                net,
                at: first,
                end: last,
                done: false,
                inside,
            },
            blocks: no_blocks(),
        }
    }
}

impl<'a> Iterator for Governed<'a> {
    type Item = IpNet;

    ghost next_gives = { GivesBlock };

    ghost remaining = { item_count (λ bs. bs) };

    fn next(&mut self) -> Option<IpNet> {
        if let Some(net) = self.blocks.next() {
            return Some(net);
        }
        let gap = self.gaps.next()?;
        self.blocks = blocks(AddressFamily::of(&self.gaps.net), gap);
        self.blocks.next()
    }
}
