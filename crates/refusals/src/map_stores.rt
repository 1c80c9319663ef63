//! Calls that store in a map at a network that isn't stored.
use crate::fault::Fault;
use crate::maps::Map;
use crate::nets::network;
use crate::show::{answer, begin, end, given, handed_back};
use ipnet::Ipv4Net;
use prefix_trie::Refused;
use prefix_trie::map::Entry;

/// The calls that store.
#[derive(Clone, Copy)]
pub enum MapStore {
    Insert,
    InsertSixNodes,
    EntryInsert,
    OrInsert,
    OrInsertWith,
    OrDefault,
    VacantInsert,
    VacantInsertWith,
    VacantDefault,
}

/// The result of a call that returns the value if it fails.
type Stored = Result<(), (Refused, u32)>;

pub fn run(rt: &HostRuntime, map: &mut Map, call: MapStore) -> Result<(), Fault> {
    let net = network(text_of(call))?;
    given(rt, value_of(call));
    begin(rt);
    let outcome = stored(map, net, call);
    end(rt);
    match outcome {
        Ok(()) => answer(rt, &"stored"),
        Err((error, value)) => handed_back(rt, &error, value),
    }
    Ok(())
}

/// The network that the call stores: it needs two new nodes, or six.
fn text_of(call: MapStore) -> &'static str {
    match call {
        MapStore::InsertSixNodes => "1.2.3.0/32",
        _ => "10.1.3.3/32",
    }
}

/// The value that the call stores: the default one, or 9.
fn value_of(call: MapStore) -> u32 {
    match call {
        MapStore::OrDefault | MapStore::VacantDefault => 0,
        _ => 9,
    }
}

fn stored(map: &mut Map, net: Ipv4Net, call: MapStore) -> Stored {
    match call {
        MapStore::Insert | MapStore::InsertSixNodes => replaced(map.insert(net, 9)),
        MapStore::VacantInsert | MapStore::VacantInsertWith | MapStore::VacantDefault => vacant(
            map, net, call,
        ),
        _ => at_entry(map, net, call),
    }
}

/// Ignores the old value.
fn replaced(outcome: Result<Option<u32>, (Refused, u32)>) -> Stored {
    outcome?;
    Ok(())
}

/// Ignores the reference.
fn lent(outcome: Result<&mut u32, (Refused, u32)>) -> Stored {
    outcome?;
    Ok(())
}

/// The calls of an entry.
fn at_entry(map: &mut Map, net: Ipv4Net, call: MapStore) -> Stored {
    match call {
        MapStore::EntryInsert => replaced(map.entry(net).insert(9)),
        MapStore::OrInsert => lent(map.entry(net).or_insert(9)),
        MapStore::OrInsertWith => lent(map.entry(net).or_insert_with(|| 9)),
        _ => lent(map.entry(net).or_default()),
    }
}

/// The calls of an entry of a network that isn't stored.
fn vacant(map: &mut Map, net: Ipv4Net, call: MapStore) -> Stored {
    let Entry::Vacant(entry) = map.entry(net) else {
        return Ok(());
    };
    match call {
        MapStore::VacantInsert => lent(entry.insert(9)),
        MapStore::VacantInsertWith => lent(entry.insert_with(|| 9)),
        _ => lent(entry.default()),
    }
}
