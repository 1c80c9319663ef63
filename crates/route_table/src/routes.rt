//! Routes in ascending order.
ghost use Rattle.std.specs.Prelude.{◌≡◌, List};
ghost use Rattle.std.specs.Iterator.{item_count};
ghost use Rattle.route_table.specs.InnerRoutes.{routes_left};
ghost use Rattle.route_table.specs.Items.{GivesRoute};

use crate::family_routes::FamilyRoutes;
use ipnet::{IpNet, Ipv4Net, Ipv6Net};
use route_choices::Hop;
use std::marker::Model;

/// The routes that are left, of one side.
#[derive(Drop)]
pub(crate) enum Source<'a> {
    V4(FamilyRoutes<'a, Ipv4Net>),
    V6(FamilyRoutes<'a, Ipv6Net>),
}

/// An iterator over routes, ascending: each network, without host bits, its best hop, and the preference of this hop. Does not
/// allocate.
pub struct Routes<'a> {
    source: Source<'a>,
}

/// A destructor of its own: see `FamilyRoutes`.
impl<'a> Drop for Routes<'a> {
    fn drop(self) {
        let Routes { source: _ } = self;
    }
}

impl<'a> Model for Routes<'a> {
    ghost use Rattle.std.specs.Prelude.{List};
    ghost use Rattle.route_laws.specs.Tables.{Route};
    ghost use Rattle.route_table.specs.InnerRoutes.{routes_left};

    ghost Value = { List Route };

    ghost view = { λ a. routes_left a.source };
}

impl<'a> Routes<'a> {
    /// An iterator over IPv4 routes.
    pub(crate) fn v4(routes: FamilyRoutes<'a, Ipv4Net>) -> Routes<'a>
        ensures { result ≡ routes.entry }
    {
        Routes {
            source: Source::V4(routes),
        }
    }

    /// An iterator over IPv6 routes.
    pub(crate) fn v6(routes: FamilyRoutes<'a, Ipv6Net>) -> Routes<'a>
        ensures { result ≡ routes.entry }
    {
        Routes {
            source: Source::V6(routes),
        }
    }
}

impl<'a> Iterator for Routes<'a> {
    type Item = (IpNet, Hop, u16);

    ghost next_gives = { GivesRoute };

    ghost remaining = { item_count (λ rs. rs) };

    fn next(&mut self) -> Option<(IpNet, Hop, u16)> {
        match &mut self.source {
            Source::V4(routes) => routes.next(),
            Source::V6(routes) => routes.next(),
        }
    }
}
