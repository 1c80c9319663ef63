//! Maps and sets of prefixes, searched for the longest or the shortest prefix that contains a given one.
//!
//! A port of the Rust crate prefix-trie 0.10.1, without its views, aggregation and joint maps. The set is a map whose values are `()`.
#![tactic(auto)]

mod copy;
mod count;
mod cover;
mod entry;
mod entry_walk;
mod equal;
mod into_iter;
mod iter;
mod iter_mut;
mod iterators;
pub mod laws;
mod lend;
pub mod map;
mod part;
mod parts;
mod prefix;
mod prune;
mod refused;
mod retain;
pub mod set;

pub use ipnet_addr::key::Key;
pub use map::PrefixMap;
pub use prefix::{Prefix, path_of, prefix_of, truncated};
pub use refused::Refused;
pub use set::PrefixSet;
