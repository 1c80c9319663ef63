//! Addresses as numbers, and their texts: the lowest layer of `ipnet`.
//!
//! In the examples of calls, `rt` is the program's runtime, and `is_equal` checks that two values are equal.
#![tactic(auto)]

mod addr_range;
pub mod bits;
mod ip_range;
pub mod ipext;
pub mod key;
pub mod laws;
pub mod mask;
pub mod number;
pub mod parser;
pub mod printer;
pub mod ranges;
