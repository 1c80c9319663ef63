//! Maps, sets and tables can be sent to another thread, and be read by several, if their keys and values can.
ghost use Rattle.std.specs.Prelude.{◌≡◌};

use prefix_trie::{Prefix, PrefixMap, PrefixSet};
use route_table::{HopTable, RouteTable};

/// Returns its argument, which can be sent to another thread.
pub fn sent<T: Send>(value: T) -> T
    ensures { result ≡ value }
{
    value
}

/// Returns its argument, which several threads can read at once.
pub fn shared<T: Sync>(value: &T) -> &T
    ensures { result.now ≡ value.now }
{
    value
}

/// A map can be sent if its keys and values can.
pub fn map<P: Prefix + Send, T: Send>(map: PrefixMap<P, T>) -> PrefixMap<P, T>
    ensures { result ≡ map }
{
    sent(map)
}

/// A set can be sent if its members can.
pub fn set<P: Prefix + Send>(set: PrefixSet<P>) -> PrefixSet<P>
    ensures { result ≡ set }
{
    sent(set)
}

/// A route table can be sent.
pub fn table(table: RouteTable) -> RouteTable
    ensures { result ≡ table }
{
    sent(table)
}

/// A hop table can be sent.
pub fn hops(table: HopTable) -> HopTable
    ensures { result ≡ table }
{
    sent(table)
}

/// A map can be read by several threads if its keys and values can.
pub fn read_map<P: Prefix + Sync, T: Sync>(map: &PrefixMap<P, T>) -> &PrefixMap<P, T>
    ensures { result.now ≡ map.now }
{
    shared(map)
}

/// A set can be read by several threads if its members can.
pub fn read_set<P: Prefix + Sync>(set: &PrefixSet<P>) -> &PrefixSet<P>
    ensures { result.now ≡ set.now }
{
    shared(set)
}

/// A route table can be read by several threads.
pub fn read_table(table: &RouteTable) -> &RouteTable
    ensures { result.now ≡ table.now }
{
    shared(table)
}

/// A hop table can be read by several threads.
pub fn read_hops(table: &HopTable) -> &HopTable
    ensures { result.now ≡ table.now }
{
    shared(table)
}
