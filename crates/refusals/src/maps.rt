//! Maps of networks, and iterators that own their entries.
use crate::fault::{Fault, made};
use crate::map_changes::MapChange;
use crate::map_reads::MapRead;
use crate::map_stores::MapStore;
use crate::nets::network;
use crate::show::{answer, begin, counts, end, ended, lines};
use crate::subject::{Subject, filled, make, run_over};
use crate::{map_changes, map_reads, map_stores};
use ipnet::Ipv4Net;
use prefix_trie::PrefixMap;
use std::alloc::Global;

pub type Map = PrefixMap<Ipv4Net, u32>;

/// The calls of a map.
#[derive(Clone, Copy)]
pub enum MapCall {
    New,
    Store(MapStore),
    TryClone,
    Give(MapGift),
    Read(MapRead),
    Change(MapChange),
}

/// The calls that consume a map: its entries, keys and values, owned. There is no map to show afterwards.
#[derive(Clone, Copy)]
pub enum MapGift {
    Entries,
    Keys,
    Values,
    Children,
}

pub fn run(rt: &HostRuntime, call: MapCall) -> Result<(), Fault> {
    match call {
        MapCall::New => make::<Map>(rt),
        MapCall::Give(gift) => give(rt, gift),
        _ => run_over::<Map>(rt, call),
    }
}

/// The entries stored first; the last one is removed again.
const ENTRIES: [(&str, u32); 6] = [
    ("10.0.0.0/8", 1),
    ("10.1.0.0/16", 2),
    ("10.1.2.4/30", 3),
    ("10.64.0.0/10", 4),
    ("192.168.0.0/24", 5),
    ("10.1.2.0/31", 6),
];

/// Five networks, with nodes that lead to no entry.
impl Subject for Map {
    type Call = MapCall;

    fn empty(alloc: Global) -> Result<Map, Fault> {
        made(PrefixMap::new(alloc))
    }

    fn fill(&mut self) -> Result<(), Fault> {
        for (text, value) in &ENTRIES {
            made(self.insert(network(text)?, *value))?;
        }
        self.remove_keep_tree(&network("10.1.2.0/31")?);
        Ok(())
    }

    /// The entries in order, and the number of nodes.
    fn show(&self, rt: &HostRuntime) {
        lines(rt, "", self.into_iter());
        counts(rt, &self.len(), " entries, ", &self.node_count());
    }

    fn call(&mut self, rt: &HostRuntime, call: MapCall) -> Result<(), Fault> {
        match call {
            MapCall::Store(call) => map_stores::run(rt, self, call),
            MapCall::Read(call) => map_reads::run(rt, self, call),
            MapCall::Change(call) => map_changes::run(rt, self, call),
            _ => {
                try_clone(rt, self);
                Ok(())
            }
        }
    }
}

fn try_clone(rt: &HostRuntime, map: &Map) {
    begin(rt);
    if let Some(copy) = ended(rt, map.try_clone(rt.alloc())) {
        answer(rt, &"copied");
        copy.show(rt);
    }
}

fn give(rt: &HostRuntime, gift: MapGift) -> Result<(), Fault> {
    let net = network("10.1.0.0/16")?;
    let map: Map = filled(rt)?;
    begin(rt);
    give_away(rt, map, gift, &net);
    end(rt);
    Ok(())
}

fn give_away(rt: &HostRuntime, map: Map, gift: MapGift, net: &Ipv4Net) {
    match gift {
        MapGift::Entries => lines(rt, "", map.into_iter()),
        MapGift::Keys => lines(rt, "", map.into_keys()),
        MapGift::Values => lines(rt, "", map.into_values()),
        MapGift::Children => lines(rt, "", map.into_children(net)),
    }
}
