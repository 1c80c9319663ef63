//! A lookup table of the hops of addresses, compiled from a route table.
#![tactic(auto)]

pub use batches::{Addressed, FromHop};
pub use index::HopIndex;
pub use prefix_trie::Refused;

mod batches;
mod cells;
mod index;
mod lookups;
mod nodes;
mod ranges;
mod stored;
