//! The choices of one network: at most eight hops with their preferences, best first.
#![tactic(auto)]

pub use choices::{All, Choices};
pub use hop::Hop;
pub use slot::DEFAULT_PREFERENCE;
pub use too_many::TooMany;

mod choices;
mod hop;
pub mod laws;
mod slot;
mod too_many;
