//! Blocks of addresses and sets of blocks, as numbers: the layer below the types of `ipnet`.
#![tactic(auto)]

pub mod aggregate;
pub mod contains;
pub mod cut;
pub mod laws;
