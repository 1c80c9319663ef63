//! Sets of networks, and a map made from entries.
use crate::fault::{Fault, made};
use crate::maps::Map;
use crate::nets::{network, networks};
use crate::show::{answer, begin, copy_first, counts, end, ended, line, lines};
use crate::subject::{Subject, filled, make, run_over};
use ipnet::Ipv4Net;
use prefix_trie::{PrefixMap, PrefixSet, Refused};
use std::alloc::Global;

type Set = PrefixSet<Ipv4Net>;

/// The calls of a set; `MapFromIter` makes a map.
#[derive(Clone, Copy)]
pub enum SetCall {
    New,
    Insert,
    InsertSixNodes,
    TryClone,
    TryFromIter,
    MapFromIter,
    LookUps,
    Walks,
    InsertStored,
    Remove,
    RemoveChildren,
    Clear,
    Retain,
    Give,
}

pub fn run(rt: &HostRuntime, call: SetCall) -> Result<(), Fault> {
    match call {
        SetCall::New => make::<Set>(rt),
        SetCall::TryFromIter => try_from_iter(rt),
        SetCall::MapFromIter => map_from_iter(rt),
        SetCall::Give => give(rt),
        _ => run_over::<Set>(rt, call),
    }
}

const NETWORKS: [&str; 5] = [
    "10.0.0.0/8",
    "10.1.0.0/16",
    "10.1.2.4/30",
    "10.64.0.0/10",
    "192.168.0.0/24",
];

/// Five networks, with nodes that lead to no member.
impl Subject for Set {
    type Call = SetCall;

    fn empty(alloc: Global) -> Result<Set, Fault> {
        made(PrefixSet::new(alloc))
    }

    fn fill(&mut self) -> Result<(), Fault> {
        for text in &NETWORKS {
            made(self.insert(network(text)?))?;
        }
        let spare = network("10.1.2.0/31")?;
        made(self.insert(spare))?;
        self.remove_keep_tree(&spare);
        Ok(())
    }

    /// The members in order, and the number of nodes.
    fn show(&self, rt: &HostRuntime) {
        lines(rt, "", self.iter());
        counts(rt, &self.len(), " members, ", &self.node_count());
    }

    fn call(&mut self, rt: &HostRuntime, call: SetCall) -> Result<(), Fault> {
        match call {
            SetCall::Insert => insert(rt, self, "10.1.3.3/32"),
            SetCall::InsertSixNodes => insert(rt, self, "1.2.3.0/32"),
            SetCall::TryClone => {
                begin(rt);
                answered(rt, self.try_clone(rt.alloc()), "copied");
                Ok(())
            }
            _ => free(rt, self, call),
        }
    }
}

/// Inserts a network that isn't a member; it needs two new nodes, or six.
fn insert(rt: &HostRuntime, set: &mut Set, text: &str) -> Result<(), Fault> {
    let net = network(text)?;
    begin(rt);
    if let Some(is_new) = ended(rt, set.insert(net)) {
        answer(rt, &is_new);
    }
    Ok(())
}

/// Shows the result of a call that makes a set.
fn answered(rt: &HostRuntime, outcome: Result<Set, Refused>, word: &'static str) {
    if let Some(set) = ended(rt, outcome) {
        answer(rt, &word);
        set.show(rt);
    }
}

fn try_from_iter(rt: &HostRuntime) -> Result<(), Fault> {
    let nets = networks(rt.alloc(), &NETWORKS, &[])?;
    begin(rt);
    answered(rt, PrefixSet::try_from_iter(rt.alloc(), nets), "made");
    Ok(())
}

/// Adds the five networks, each with its length.
fn add_with_lengths(entries: &mut Vec<(Ipv4Net, u32)>) -> Result<(), Fault> {
    for text in &NETWORKS {
        let net: Ipv4Net = network(text)?;
        made(entries.push((net, u32::from(net.prefix_len()))))?;
    }
    Ok(())
}

fn map_from_iter(rt: &HostRuntime) -> Result<(), Fault> {
    let mut entries = Vec::new(rt.alloc());
    add_with_lengths(&mut entries)?;
    begin(rt);
    let outcome: Result<Map, Refused> = PrefixMap::try_from_iter(rt.alloc(), entries);
    if let Some(map) = ended(rt, outcome) {
        answer(rt, &"made");
        map.show(rt);
    }
    Ok(())
}

/// The calls that do not allocate.
fn free(rt: &HostRuntime, set: &mut Set, call: SetCall) -> Result<(), Fault> {
    let (member, outer) = (network("10.1.2.4/30")?, network("10.0.0.0/9")?);
    let other = network("192.168.0.0/24")?;
    begin(rt);
    match call {
        SetCall::LookUps => look_up(rt, set, &[member, outer]),
        SetCall::Walks => walk(rt, set, &outer)?,
        SetCall::InsertStored => line(rt, &set.insert(member)),
        // Removes one member with its nodes, and then another whose nodes are kept.
        SetCall::Remove => line(rt, &(set.remove(&member), set.remove_keep_tree(&other))),
        SetCall::RemoveChildren => set.remove_children(&outer),
        SetCall::Clear => set.clear(),
        _ => set.retain(|net| net.prefix_len() < 24),
    }
    end(rt);
    Ok(())
}

/// Each lookup of these networks, and the calls about the whole set, which equals itself.
fn look_up(rt: &HostRuntime, set: &Set, nets: &[Ipv4Net; 2]) {
    for net in nets {
        look_up_one(rt, set, net);
    }
    line(rt, &(set.address_count(), set == set));
    line(rt, &set.node_count());
}

fn look_up_one(rt: &HostRuntime, set: &Set, net: &Ipv4Net) {
    line(rt, &(set.get(net), set.contains(net)));
    line(rt, &(set.get_lpm(net), set.get_spm(net)));
    line(rt, &(set.is_covered(net), set.is_empty()));
}

/// All members, those inside a network, those from it on, those that contain it, and copies.
fn walk(rt: &HostRuntime, set: &Set, net: &Ipv4Net) -> Result<(), Fault> {
    lines(rt, "", set.into_iter());
    lines(rt, "", set.children(net));
    lines(rt, "", set.iter_from(net, true));
    lines(rt, "", set.iter_from(net, false));
    lines(rt, "", set.cover(net));
    copy_first(rt, &set.iter())
}

/// The members of a consumed set; there is no set to show afterwards.
fn give(rt: &HostRuntime) -> Result<(), Fault> {
    let set: Set = filled(rt)?;
    begin(rt);
    lines(rt, "", set.into_iter());
    end(rt);
    Ok(())
}
