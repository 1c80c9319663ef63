//! The lines of a route feed: commands, replies, and the cutter that splits bytes into lines.
#![tactic(auto)]

pub use command::Command;
pub use cutter::{Line, LineCutter, Rest, line_text};
pub use fib_input::FibInput;
pub use fib_update::FibUpdate;
pub use reply::{Closing, Reply};
use thiserror::Error;

/// The text isn't a line of the grammar.
#[derive(Clone, Copy, Debug, PartialEq, Eq, Error)]
#[error("not a line of the grammar")]
pub struct NotALine;

mod command;
mod cutter;
mod fib_input;
mod fib_update;
pub mod laws;
mod phrase;
mod printer;
mod reply;
