//! A leader that keeps a route table, and followers of its replies.
#![tactic(auto)]

pub use answer::lead_line;
pub use follower::{FollowError, Follower};
pub use route_program::{AtEnd, Counted, RunError};
pub use runs::{follow, follow_then, lead, lead_then, shorten};

mod answer;
mod body;
mod follower;
pub mod laws;
mod leader;
mod runs;
mod writing;
