//! The definition of a table of routes, its matches, hops, changes, flat lists and least tables, and theorems about them.
#![tactic(auto)]

pub mod laws;
mod operations;
