//! The nodes of a trie over bit strings, and the bit strings as paths through the nodes.
#![tactic(auto)]

mod copy;
mod cover;
mod frame;
mod insert;
mod lend;
mod lent_frame;
mod lent_places;
mod lent_walk;
mod node;
mod owned_frame;
mod owned_walk;
mod path;
mod prune;
mod remove;
mod slots;
mod tables;
mod walk;

pub use cover::Cover;
pub use lent_walk::Walk;
pub use node::Node;
pub use owned_walk::OwnedWalk;
pub use path::Path;
