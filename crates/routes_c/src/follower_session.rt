//! The content of an open handle of a follower.
ghost use Rattle.std.specs.Prelude.{◌≡◌, IfErr, IfOk, false};
ghost use Rattle.ipnet_addr.specs.Addresses.{address_of};
ghost use Rattle.route_laws.specs.Networks.{routes_of};
ghost use Rattle.route_laws.specs.Tables.{hop_at};
ghost use Rattle.routes_c.specs.Contents.{hops_of_index};
ghost use Rattle.routes_c.specs.Followers.{FollowerFlattens, FollowerLists, Follows, TellsHop};
ghost use Rattle.routes_c.specs.Opens.{HasHopsOf, IsEmpty, IsNoIndex};
ghost use Rattle.routes_c.specs.RouteLists.{AreLeast, Shown};

use crate::index_session::IndexSession;
use crate::last_lists::LastLists;
use crate::list_query::items;
use crate::shown::Route;
use hop_index::HopIndex;
use ipnet::IpAddr;
use route_feed::{FollowError, Follower};
use std::alloc::{AllocError, Global};

/// A follower, and the lists that were made last.
#[derive(Drop)]
pub struct FollowerSession {
    pub(crate) follower: Follower,
    pub(crate) lists: LastLists,
}

/// The routes of a least table of the hops.
fn least_of(alloc: Global, follower: &Follower) -> Result<Vec<Route>, AllocError>
    ensures { IfOk result (λ v. Shown (AreLeast (hop_at (routes_of follower.now.table))) v.items) }
{
    match follower.least() {
        Ok(Some(found)) => items(alloc, &found),
        _ => Err(AllocError),
    }
}

impl FollowerSession {
    /// Makes the content for a follower, without lists.
    pub(crate) fn new(alloc: Global, follower: Follower) -> FollowerSession
        ensures follower { result.follower ≡ follower }
        ensures lists { IsEmpty result.lists }
    {
        FollowerSession {
            follower,
            lists: LastLists::new(alloc),
        }
    }

    /// Reads a line.
    pub(crate) fn line(&mut self, line: &[u8]) -> u32
        ensures { Follows self.old self.new line.now result }
    {
        match self.follower.line(line) {
            Ok(()) => 0,
            Err(FollowError::Memory) => 2,
            Err(FollowError::NotALine) => 7,
            Err(FollowError::Failed) => 8,
        }
    }

    /// Looks up the hop of an address.
    pub(crate) fn get(&self, addr: IpAddr, hop: &mut u32) -> u32
        ensures { TellsHop self.now.follower.failed (hop_at (routes_of self.now.follower.table) (address_of addr)) result hop.old hop.new }
    {
        if self.follower.failed() {
            return 8;
        }
        match self.follower.hop(addr) {
            Some(found) => {
                *hop = found;
                0
            }
            None => 1,
        }
    }

    /// Makes the flat list.
    pub(crate) fn flat(&mut self, alloc: Global) -> u32
        ensures { FollowerFlattens self.old self.new result }
    {
        let Some(flat) = self.follower.flat() else {
            return 8;
        };
        self.lists.flat(alloc, flat)
    }

    /// Makes the list of routes of a least table.
    pub(crate) fn least(&mut self, alloc: Global) -> u32
        ensures { FollowerLists self.old self.new result }
    {
        if self.follower.failed() {
            return 8;
        }
        let Ok(routes) = least_of(alloc, &self.follower) else {
            return 2;
        };
        self.lists.routes = routes;
        0
    }

    /// Compiles an index of the hops.
    pub(crate) fn index(&self, alloc: Global) -> Result<IndexSession, u32>
        ensures works { IfOk result (λ _. self.now.follower.failed ≡ false) }
        ensures hops { IfOk result (λ i. HasHopsOf self.now.follower.table (hops_of_index i)) }
        ensures none { IfErr result (IsNoIndex self.now) }
    {
        let Some(flat) = self.follower.flat() else {
            return Err(8);
        };
        match HopIndex::from_flat(alloc, flat) {
            Ok(index) => IndexSession::new(alloc, index),
            Err(_) => Err(2),
        }
    }
}
