//! Route tables for C: a table, an index or a follower behind a handle that the caller owns. Its calls take numbers and buffers.
//!
//! To all calls but those that open or close, a handle that is open as another kind is closed. They leave its content as it is.
//!
//! include/routes.h has the C declarations. Nothing checks a C caller: the caller must ensure each `requires` and what the types demand.
#![tactic(auto)]

mod boxed_content;
pub mod change;
pub mod content;
pub mod count;
pub mod follower_session;
pub mod following;
pub mod handle;
pub mod hops;
pub mod index_session;
mod last_lists;
mod lent;
pub mod lines;
pub mod list_query;
pub mod lists;
pub mod matches;
pub mod opens;
mod raw_box;
pub mod session;
pub mod shown;
pub mod threads;
