//! A list with 32-bit counts, for a structure that has very many short lists.
#![tactic(auto)]

mod lends;
mod methods;
mod short_vec;

pub use short_vec::ShortVec;
