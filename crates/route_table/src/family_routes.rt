//! The routes of one side in ascending order.
ghost use Rattle.std.specs.Prelude.{◌≡◌, List, map};
ghost use Rattle.std.specs.Iterator.{item_count};
ghost use Rattle.ipnet_addr.specs.Addresses.{width};
ghost use Rattle.route_choices.specs.Choices.{best_hop, best_preference};
ghost use Rattle.route_table.specs.InnerEntries.{GivesBest, GivesNet, KeysUpTo, entries_left};
ghost use Rattle.route_table.specs.Items.{GivesRoute};
ghost use Rattle.route_table.specs.InnerFamilyTables.{route_at};

use crate::family::FamilyNet;
use ipnet::IpNet;
use prefix_trie::Prefix;
use prefix_trie::map::{Cover, IntoIter, Iter};
use route_choices::{Choices, Hop};
use std::marker::Model;

/// The entries of one side's trie that a walk has left. `Cover` walks along the path to a network. `Hops` and `Owned` are for tables
/// with one route for each network. An owned walk is boxed, because it is large and few tables need one.
#[derive(Drop)]
pub(crate) enum Entries<'a, P: Prefix> {
    Walk(Iter<'a, P, Choices<8>>),
    Cover(Cover<'a, P, Choices<8>>),
    Hops(Iter<'a, P, Choices<1>>),
    Owned(Box<IntoIter<P, Choices<1>>>),
}

/// A network with its best route.
fn best<P, const CAPACITY: usize>(net: P, choices: &Choices<CAPACITY>) -> (P, Hop, u16)
    ensures { result ≡ (net, best_hop choices.now, best_preference choices.now) }
{
    let (hop, pref) = choices.best();
    (net, hop, pref)
}

impl<'a, P: Prefix> Entries<'a, P> {
    /// Returns the network of the next entry, and its best route.
    fn next(&mut self) -> Option<(P, Hop, u16)>
        ensures { GivesBest P.fits P.bits P.of_bits (entries_left self.old) result (entries_left self.new) }
    {
        match self {
            Entries::Walk(entries) => {
                let (net, choices) = entries.next()?;
                Some(best(net, choices))
            }
            Entries::Cover(entries) => {
                let (net, choices) = entries.next()?;
                Some(best(net, choices))
            }
            Entries::Hops(entries) => {
                let (net, choices) = entries.next()?;
                Some(best(net, choices))
            }
            Entries::Owned(entries) => {
                let (net, choices) = entries.next()?;
                Some(best(net, &choices))
            }
        }
    }
}

/// The routes of one side that are left.
pub(crate) struct FamilyRoutes<'a, P: FamilyNet> {
    entries: Entries<'a, P>,
}

/// A destructor of its own, so that a crate that drops routes doesn't check the destructors of their walks again.
impl<'a, P: FamilyNet> Drop for FamilyRoutes<'a, P> {
    fn drop(self) {
        let FamilyRoutes { entries: _ } = self;
    }
}

impl<'a, P: FamilyNet> Model for FamilyRoutes<'a, P> {
    ghost use Rattle.std.specs.Prelude.{List, map};
    ghost use Rattle.ipnet_addr.specs.Addresses.{width};
    ghost use Rattle.route_laws.specs.Tables.{Route};
    ghost use Rattle.route_table.specs.InnerFamilyTables.{route_at};
    ghost use Rattle.route_table.specs.InnerEntries.{KeysUpTo, entries_left};

    ghost Value = { List Route };

    ghost view = { λ a. map (route_at P.family) (entries_left a.entries) };

    ghost invariant = { λ a. KeysUpTo (width P.family) (entries_left a.entries) };
}

impl<'a, P: FamilyNet> FamilyRoutes<'a, P> {
    pub(crate) fn new(entries: Entries<'a, P>) -> FamilyRoutes<'a, P>
        requires { KeysUpTo (width P.family) (entries_left entries) }
        ensures { result ≡ map (route_at P.family) (entries_left entries.entry) }
    {
        FamilyRoutes { entries }
    }

    /// Returns the next route, its network as one of the family.
    #[inline]
    pub(crate) fn next_net(&mut self) -> Option<(P, Hop, u16)>
        ensures { GivesNet P.family P.parts self.old result self.new }
    {
        self.entries.next()
    }
}

impl<'a, P: FamilyNet> Iterator for FamilyRoutes<'a, P> {
    type Item = (IpNet, Hop, u16);

    ghost next_gives = { GivesRoute };

    ghost remaining = { item_count (λ rs. rs) };

    fn next(&mut self) -> Option<(IpNet, Hop, u16)> {
        let (net, hop, pref) = self.next_net()?;
        Some((net.ip_net(), hop, pref))
    }
}
