//! The operations that turn one table into another.
ghost use Rattle.std.specs.Prelude.{◌≡◌, All};
ghost use Rattle.std.specs.Iterator.{item_count};
ghost use Rattle.ipnet_blocks.specs.Blocks.{Block, IsBefore, IsBlock};
ghost use Rattle.ipnet_blocks.specs.Networks.{IsTruncated};
ghost use Rattle.ipnet.specs.IpNets.{block, family, network_at, parts};
ghost use Rattle.route_choices.specs.Choices.{default_preference};
ghost use Rattle.route_laws.specs.LeastTables.{routes_for};
ghost use Rattle.route_laws.specs.Networks.{routes_of};
ghost use Rattle.route_laws.specs.Operations.{between, is_held};
ghost use Rattle.route_laws.specs.Tables.{IsTable, is_stored, route_of};
ghost use Rattle.route_table.specs.Items.{GivesRoute};
ghost use Rattle.route_table.specs.InnerBetween.{AreComing, AreRemoves, GivesInstall, GivesRemove, installs_left, removes_left, routes_left};
ghost use Rattle.route_table.specs.Operations.{GivesOperation};

use crate::hop_table::HopTable;
use crate::routes::Routes;
use ipnet::IpNet;
use ipnet::laws::{network_blocks, network_equality, network_order};
use route_choices::{DEFAULT_PREFERENCE, Hop};
use std::cmp::Ordering;
use std::marker::Model;

/// An operation on a table: one that is installed elsewhere, such as a kernel's, or a `HopTable` (`HopTable::carry_out`).
#[derive(Clone, Copy, Debug, PartialEq, Eq)]
pub enum Operation {
    /// Adds a route, in a `HopTable` with preference 100, and replaces the network's old route if it has one.
    Install { net: IpNet, hop: Hop },
    /// Removes the route of a network.
    Remove { net: IpNet },
}

/// The routes that are left to install: the last of the list first, without those that the table has.
#[derive(Drop)]
pub(crate) struct Installs<'a> {
    table: &'a HopTable,
    coming: &'a [(IpNet, Hop)],
}

impl<'a> Installs<'a> {
    /// Returns the next route to install.
    fn next(&mut self) -> Option<(IpNet, Hop)>
        requires { AreComing self.old.coming.now }
        ensures coming { AreComing self.new.coming.now }
        ensures gives { GivesInstall (installs_left self.old) result (installs_left self.new) }
    {
        while let Some(((net, hop), front)) = self.coming.split_last() {
            self.coming = front;
            if !self.table.holds(net, *hop) {
                return Some((*net, *hop));
            }
        }
        None
    }
}

/// The networks that are left to remove: those of the table, ascending, without those of the list.
#[derive(Drop)]
pub(crate) struct Removes<'a> {
    coming: &'a [(IpNet, Hop)],
    v4: Routes<'a>,
    v6: Routes<'a>,
}

impl<'a> Removes<'a> {
    /// Returns the next route of the table.
    fn route(&mut self) -> Option<(IpNet, Hop, u16)>
        ensures coming { self.new.coming ≡ self.old.coming }
        ensures gives { GivesRoute (routes_left self.old) result (routes_left self.new) }
    {
        match self.v4.next() {
            Some(route) => Some(route),
            None => self.v6.next(),
        }
    }

    /// Whether the list has the network. Drops all networks of the list that come before it.
    fn passes_to(&mut self, net: &IpNet) -> bool
        requires coming { AreComing self.old.coming.now }
        requires truncated { net.now ≡ network_at (block net.now) }
        ensures coming { AreComing self.new.coming.now }
        ensures stored { result ≡ is_stored (routes_for self.old.coming.now) (block net.now) }
        ensures behind { (b : Block) → (IsBefore b (block net.now) → ⊥) → is_stored (routes_for self.new.coming.now) b ≡ is_stored (routes_for self.old.coming.now) b }
        ensures routes { routes_left self.new ≡ routes_left self.old }
    {
        network_order();
        network_blocks();
        while let Some(((first, _), rest)) = self.coming.split_first() {
            match first.cmp(net) {
                Ordering::Less => self.coming = rest,
                Ordering::Equal => return true,
                Ordering::Greater => return false,
            }
        }
        false
    }

    /// Returns the next network to remove.
    fn next(&mut self) -> Option<IpNet>
        requires { AreRemoves self.old }
        ensures removes { AreRemoves self.new }
        ensures gives { GivesRemove (removes_left self.old) result (removes_left self.new) }
    {
        while let Some((net, _, _)) = self.route() {
            if !self.passes_to(&net) {
                return Some(net);
            }
        }
        None
    }
}

/// An iterator over the operations between two tables. Does not allocate.
pub struct Between<'a> {
    installs: Installs<'a>,
    removes: Removes<'a>,
}

/// A destructor of its own: see `FamilyRoutes`.
impl<'a> Drop for Between<'a> {
    fn drop(self) {
        let Between {
            installs: _,
            removes: _,
        } = self;
    }
}

impl<'a> Model for Between<'a> {
    ghost use Rattle.std.specs.Prelude.{List};
    ghost use Rattle.route_laws.specs.Operations.{Operation};
    ghost use Rattle.route_table.specs.InnerBetween.{AreComing, AreRemoves, operations_left};

    ghost Value = { List Operation };

    ghost view = { λ a. operations_left a.installs a.removes };

    ghost invariant = { λ a. AreComing a.installs.coming.now × AreRemoves a.removes };
}

impl<'a> Iterator for Between<'a> {
    type Item = Operation;

    ghost next_gives = { GivesOperation };

    ghost remaining = { item_count (λ os. os) };

    fn next(&mut self) -> Option<Operation> {
        if let Some((net, hop)) = self.installs.next() {
            return Some(Operation::Install { net, hop });
        }
        let net = self.removes.next()?;
        Some(Operation::Remove { net })
    }
}

impl HopTable {
    /// Returns the operations that turn this table into the table of the list. First they install the routes of the list that this table
    /// lacks, from the last to the first. Then they remove the networks that the list lacks, in ascending order. No shorter sequence of
    /// operations does it. On the way each address changes its hop at most once, from its hop here to its hop there
    /// (`laws::between`). Does not allocate.
    ///
    /// The list is ascending, has each network once, and its networks have no host bits, as in the result of `least`.
    ///
    /// For example, this table has the hop 1 at 10.0.0.0/8 and the hop 2 at 10.0.0.0/9. The list has the hop 2 at 10.0.0.0/8 and the hop 1
    /// at 10.64.0.0/10. The operations install 10.64.0.0/10, install 10.0.0.0/8 and remove 10.0.0.0/9.
    ///
    /// # Examples
    /// If this table has only 10.0.0.0/8, and the last route of `list` is `half` with the hop 2:
    ///
    /// ```rust
    /// let first = table.between(list.as_slice()).next();
    /// let (net, hop) = (half, Hop::Number(2));
    /// assert_eq!(rt; first, Some(Operation::Install { net, hop }));
    /// ```
    pub fn between<'a>(&'a self, list: &'a [(IpNet, Hop)]) -> Between<'a>
        requires table { IsTable (routes_for list.now) }
        requires truncated { All (λ r. IsTruncated (family r.0) (parts r.0)) list.now }
        ensures operations { result ≡ between (routes_of self.now) (routes_for list.now) }
        ensures table { IsTable (routes_of self.now) }
    {
        let (v4, v6) = self.families();
        Between {
            installs: Installs {
                table: self,
                coming: list,
            },
            removes: Removes {
                coming: list,
                v4,
                v6,
            },
        }
    }

    /// Whether the table has exactly this route, with the default preference.
    pub(crate) fn holds(&self, net: &IpNet, hop: Hop) -> bool
        requires block { IsBlock (block net.now) }
        requires truncated { net.now ≡ network_at (block net.now) }
        ensures { result ≡ is_held (routes_of self.now) (route_of net.now hop default_preference) }
    {
        network_equality();
        self.get(net) == Some((*net, hop, DEFAULT_PREFERENCE))
    }
}
