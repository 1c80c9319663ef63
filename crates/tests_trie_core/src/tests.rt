//! The tests, one file for each crate.
mod nodes;
mod shapes;
mod short_lists;
