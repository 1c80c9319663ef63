//! An installer: keeps a table that is installed elsewhere in sync with a leader's reply lines.
#![tactic(auto)]

pub use route_program::{Counted, RunError};
pub use runs::install;

mod installer;
pub mod laws;
mod operations;
mod runs;
