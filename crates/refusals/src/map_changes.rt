//! Changes of maps of networks that do not allocate.
use crate::fault::Fault;
use crate::maps::Map;
use crate::nets::network;
use crate::show::{begin, end, line};
use ipnet::Ipv4Net;
use prefix_trie::map::Entry;

/// The calls that change a map.
#[derive(Clone, Copy)]
pub enum MapChange {
    InsertStored,
    EntryStored,
    EntryModify,
    Occupied,
    OccupiedRemove,
    Remove,
    RemoveKeepTree,
    RemoveChildren,
    Clear,
    Retain,
}

/// The networks that the calls use.
#[derive(Clone, Copy)]
struct Networks {
    stored: Ipv4Net,
    absent: Ipv4Net,
    outer: Ipv4Net,
}

pub fn run(rt: &HostRuntime, map: &mut Map, call: MapChange) -> Result<(), Fault> {
    let nets = Networks {
        stored: network("10.1.2.4/30")?,
        absent: network("10.1.2.3/32")?,
        outer: network("10.0.0.0/9")?,
    };
    begin(rt);
    change(rt, map, &nets, call);
    end(rt);
    Ok(())
}

fn change(rt: &HostRuntime, map: &mut Map, nets: &Networks, call: MapChange) {
    match call {
        MapChange::InsertStored => line(rt, &map.insert(nets.stored, 7)),
        MapChange::EntryStored => line(rt, &map.entry(nets.stored).insert(7)),
        MapChange::EntryModify => modify(rt, map, nets),
        MapChange::Occupied => occupied(rt, map, nets.stored),
        MapChange::OccupiedRemove => occupied_remove(rt, map, nets.stored),
        MapChange::Remove => line(rt, &(map.remove(&nets.stored), map.remove(&nets.outer))),
        MapChange::RemoveKeepTree => line(rt, &map.remove_keep_tree(&nets.stored)),
        MapChange::RemoveChildren => map.remove_children(&nets.outer),
        MapChange::Clear => map.clear(),
        MapChange::Retain => map.retain(|key, value| key.prefix_len() < 24 && *value > 1),
    }
}

/// The entries of a stored network and of another, read and written.
fn modify(rt: &HostRuntime, map: &mut Map, nets: &Networks) {
    and_modify(rt, map, nets.stored);
    look_at(rt, map, nets.absent);
    line(rt, &map.entry(nets.stored).or_insert(9));
    line(rt, &map.entry(nets.stored).or_insert_with(|| 9));
    line(rt, &map.entry(nets.stored).or_default());
}

fn and_modify(rt: &HostRuntime, map: &mut Map, net: Ipv4Net) {
    let entry = map.entry(net).and_modify(|value| *value = 8);
    line(rt, &(*entry.key(), entry.get().copied()));
}

fn look_at(rt: &HostRuntime, map: &mut Map, net: Ipv4Net) {
    let entry = map.entry(net);
    line(rt, &(*entry.key(), entry.get().copied()));
}

/// Writes through the entry of a stored network, and through the reference that it becomes.
fn occupied(rt: &HostRuntime, map: &mut Map, net: Ipv4Net) {
    if let Entry::Occupied(mut entry) = map.entry(net) {
        let (key, old) = (*entry.key(), entry.insert(7));
        *entry.get_mut() = 10;
        line(rt, &(key, old, *entry.get()));
        *entry.into_mut() = 12;
    }
}

fn occupied_remove(rt: &HostRuntime, map: &mut Map, net: Ipv4Net) {
    if let Entry::Occupied(entry) = map.entry(net) {
        line(rt, &entry.remove());
    }
}
