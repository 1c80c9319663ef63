//! Nearest tables: of all tables that give each address its new hop, one that differs from the installed table in the fewest blocks.
#![tactic(auto)]

mod hops;
pub mod laws;
mod plans;
pub mod tables;

pub use plans::nearest;
