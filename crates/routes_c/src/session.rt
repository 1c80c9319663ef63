//! The content of an open handle of a table.
ghost use Rattle.std.specs.Prelude.{◌≡◌, [], IfErr, IfOk};
ghost use Rattle.ipnet.specs.IpNets.{block};
ghost use Rattle.routes_c.specs.Answered.{Answered};
ghost use Rattle.routes_c.specs.Calls.{Adds, KeepsLists, Removes};
ghost use Rattle.routes_c.specs.Contents.{hops_of_index};
ghost use Rattle.routes_c.specs.Handles.{Told};
ghost use Rattle.routes_c.specs.Lists.{Flattens, Lists};
ghost use Rattle.routes_c.specs.Opens.{HasHopsOf, IsEmpty};
ghost use Rattle.routes_c.specs.RouteLists.{AreAsked};
ghost use Rattle.routes_c.specs.Shown.{found_at};

use crate::index_session::IndexSession;
use crate::last_lists::LastLists;
use crate::list_query::ListQuery;
use crate::shown::{Change, Route, show, shown_change};
use hop_index::HopIndex;
use ipnet::IpNet;
use route_feed::{Counted, lead_line};
use route_table::{AddRefused, Hop, RouteTable};
use std::alloc::Global;

/// A table, the reply to the last line, and the lists that were made last.
#[derive(Drop)]
pub struct Session {
    pub(crate) table: RouteTable,
    pub(crate) reply: Vec<u8>,
    pub(crate) lists: LastLists,
}

impl Session {
    /// Makes the content for a table, without a reply or a list.
    pub(crate) fn new(alloc: Global, table: RouteTable) -> Session
        ensures table { result.table ≡ table }
        ensures reply { result.reply.items ≡ [] }
        ensures lists { IsEmpty result.lists }
    {
        Session {
            table,
            reply: Vec::new(alloc),
            lists: LastLists::new(alloc),
        }
    }

    /// Looks up the longest match.
    pub(crate) fn get(&self, net: &IpNet, route: &mut Route) -> u32
        ensures { Told (found_at self.now.table (block net.now)) result route.old route.new }
    {
        show(self.table.get(net), route)
    }

    /// Adds a route.
    pub(crate) fn add(&mut self, net: IpNet, hop: Hop, pref: u16, change: &mut Change) -> u32
        ensures adds { Adds self.old.table self.new.table (block net) hop pref result change.old change.new }
        ensures lists { KeepsLists self.old self.new }
    {
        match self.table.add(net, hop, pref) {
            Ok((before, after)) => {
                *change = shown_change(before, after);
                0
            }
            Err(AddRefused::TooMany) => 5,
            Err(AddRefused::Store(_)) => 2,
        }
    }

    /// Removes a route.
    pub(crate) fn del(&mut self, net: &IpNet, hop: Hop, change: &mut Change) -> u32
        ensures removes { Removes self.old.table self.new.table (block net.now) hop result change.old change.new }
        ensures lists { KeepsLists self.old self.new }
    {
        match self.table.del(net, hop) {
            Some((before, after)) => {
                *change = shown_change(before, after);
                0
            }
            None => 1,
        }
    }

    /// Carries out a line, and stores the reply.
    pub(crate) fn line(&mut self, alloc: Global, line: &[u8]) -> u32
        ensures { Answered self.old self.new line.now result }
    {
        let mut writer = Counted::new(Vec::new(alloc));
        let answered = lead_line(&mut self.table, line, &mut writer);
        self.reply = writer.into_inner();
        match answered {
            Ok(()) => 0,
            Err(_) => 2,
        }
    }

    /// Makes the flat list.
    pub(crate) fn flat(&mut self, alloc: Global) -> u32
        ensures { Flattens self.old self.new result }
    {
        self.lists.flat(alloc, self.table.flat())
    }

    /// Makes the list of routes that is asked for.
    pub(crate) fn list(&mut self, alloc: Global, asked: ListQuery) -> u32
        ensures { Lists self.old self.new (AreAsked asked self.old.table) result }
    {
        let Ok(routes) = asked.list(alloc, &self.table) else {
            return 2;
        };
        self.lists.routes = routes;
        0
    }

    /// Compiles an index of the hops.
    pub(crate) fn index(&self, alloc: Global) -> Result<IndexSession, u32>
        ensures hops { IfOk result (λ i. HasHopsOf self.now.table (hops_of_index i)) }
        ensures memory { IfErr result (λ e. e ≡ 2) }
    {
        match HopIndex::from_table(alloc, &self.table) {
            Ok(index) => IndexSession::new(alloc, index),
            Err(_) => Err(2),
        }
    }
}
