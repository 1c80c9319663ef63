//! Lookups and walks of maps of networks, which do not allocate.
use crate::fault::Fault;
use crate::maps::Map;
use crate::nets::network;
use crate::show::{begin, copy_first, end, line, lines};
use ipnet::Ipv4Net;
use prefix_trie::map::IterMut;

/// The calls that read a map.
#[derive(Clone, Copy)]
pub enum MapRead {
    LookUps,
    Lent,
    Walks,
    Covers,
    WalksInPart,
    WalksLent,
    CopiedWalks,
}

pub fn run(rt: &HostRuntime, map: &mut Map, call: MapRead) -> Result<(), Fault> {
    let inner = network("10.1.2.5/32")?;
    let outer = network("10.0.0.0/9")?;
    begin(rt);
    match call {
        MapRead::LookUps => look_up(rt, map, &[inner, outer]),
        MapRead::Lent => lend(rt, map, &inner)?,
        MapRead::Walks => walk(rt, map),
        MapRead::WalksInPart => walk_in_part(rt, map, &outer),
        MapRead::WalksLent => walk_lent(rt, map, &outer),
        MapRead::Covers => cover(rt, map, &inner),
        MapRead::CopiedWalks => copy_walks(rt, map, &inner)?,
    }
    end(rt);
    Ok(())
}

/// Each lookup of these networks, and the calls about the whole map, which equals itself.
fn look_up(rt: &HostRuntime, map: &Map, nets: &[Ipv4Net; 2]) {
    for net in nets {
        look_up_exact(rt, map, net);
        look_up_cover(rt, map, net);
    }
    line(rt, &(map.len(), map.node_count(), map.is_empty()));
    line(rt, &(map.address_count(), map == map));
}

fn look_up_exact(rt: &HostRuntime, map: &Map, net: &Ipv4Net) {
    line(rt, &(map.get(net), map.contains_key(net)));
    line(rt, &map.get_key_value(net));
}

/// The lookups of the networks that contain this one.
fn look_up_cover(rt: &HostRuntime, map: &Map, net: &Ipv4Net) {
    line(rt, &(map.get_lpm(net), map.get_lpm_prefix(net)));
    line(rt, &(map.get_spm(net), map.get_spm_prefix(net)));
    line(rt, &(map.get_lpm_visits(net), map.is_covered(net)));
    line(rt, &(map.longest_match(net), map.is_leaf(net)));
}

/// Values, written through mutable references.
fn lend(rt: &HostRuntime, map: &mut Map, net: &Ipv4Net) -> Result<(), Fault> {
    let (exact, other) = (network("10.1.0.0/16")?, network("10.64.0.0/10")?);
    lend_exact(map, &exact);
    lend_longest(rt, map, net);
    lend_longest_value(rt, map, net);
    lend_match(rt, map, net);
    lend_entry(map, other);
    Ok(())
}

fn lend_exact(map: &mut Map, net: &Ipv4Net) {
    if let Some(value) = map.get_mut(net) {
        *value = 20;
    }
}

fn lend_longest(rt: &HostRuntime, map: &mut Map, net: &Ipv4Net) {
    if let Some((key, value)) = map.get_lpm_mut(net) {
        line(rt, &(key, *value));
        *value = 30;
    }
}

fn lend_longest_value(rt: &HostRuntime, map: &mut Map, net: &Ipv4Net) {
    if let Some(value) = map.get_lpm_value_mut(net) {
        line(rt, value);
        *value = 31;
    }
}

/// The value at the longest match.
fn lend_match(rt: &HostRuntime, map: &mut Map, net: &Ipv4Net) {
    if let Some((len, _)) = map.longest_match(net) {
        let (key, value) = map.match_mut(net, len);
        line(rt, &(key, *value));
        *value = 32;
    }
}

fn lend_entry(map: &mut Map, net: Ipv4Net) {
    if let Some(value) = map.entry(net).get_mut() {
        *value = 40;
    }
}

/// All entries, keys and values.
fn walk(rt: &HostRuntime, map: &Map) {
    lines(rt, "", map.iter());
    lines(rt, "", map.keys());
    lines(rt, "", map.values());
}

/// The entries inside a network, and those from it on, with the network itself and without.
fn walk_in_part(rt: &HostRuntime, map: &Map, net: &Ipv4Net) {
    lines(rt, "inside ", map.children(net));
    lines(rt, "from ", map.iter_from(net, true));
    lines(rt, "after ", map.iter_from(net, false));
}

/// Mutable references to the values of all entries, of those inside a network, of those from it on, and of all again.
fn walk_lent(rt: &HostRuntime, map: &mut Map, net: &Ipv4Net) {
    let count = map.len();
    lend_left(rt, &mut map.iter_mut(), count, 10);
    lend_left(rt, &mut map.children_mut(net), count, 100);
    lend_left(rt, &mut map.iter_from_mut(net, true), count, 1000);
    lend_left(rt, &mut map.values_mut(), count, 10000);
}

fn lend_left(rt: &HostRuntime, values: &mut IterMut<'_, Ipv4Net, u32>, count: usize, more: u32) {
    for _ in 0..count {
        if let Some(value) = values.next() {
            add(rt, value, more);
        }
    }
}

/// Shows the value, and adds to it.
fn add(rt: &HostRuntime, value: &mut u32, more: u32) {
    line(rt, value);
    *value = value.wrapping_add(more);
}

/// The entries whose networks contain this one.
fn cover(rt: &HostRuntime, map: &Map, net: &Ipv4Net) {
    lines(rt, "", map.cover(net));
    lines(rt, "", map.cover_keys(net));
    lines(rt, "", map.cover_values(net));
}

/// The first item of a copy of each walk, and an empty walk.
fn copy_walks(rt: &HostRuntime, map: &Map, net: &Ipv4Net) -> Result<(), Fault> {
    copy_first(rt, &map.iter())?;
    copy_first(rt, &map.keys())?;
    copy_first(rt, &map.values())?;
    copy_covers(rt, map, net)
}

fn copy_covers(rt: &HostRuntime, map: &Map, net: &Ipv4Net) -> Result<(), Fault> {
    copy_first(rt, &map.cover(net))?;
    copy_first(rt, &map.cover_keys(net))?;
    copy_first(rt, &map.cover_values(net))
}
