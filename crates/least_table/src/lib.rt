//! Least tables: the fewest routes, nested routes and `drop` included, that give each address its hop.
#![tactic(auto)]

mod bits;
pub mod hops;
mod kept_sets;
pub mod laws;
mod plan;
mod planner;
mod routes;
mod skipped_bits;
mod stack;

pub use planner::Planner;
pub use routes::Routes;
