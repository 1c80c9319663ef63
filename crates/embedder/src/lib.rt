//! Short callers of the crates' public calls. The contract of each follows from the contracts of its calls alone, so a program that
//! embeds the crates can prove the same.
#![tactic(auto)]

pub mod feed;
pub mod index;
pub mod line_count;
pub mod map;
pub mod nearest;
pub mod over_bytes;
pub mod table;
pub mod threads;
