//! The parts that programs over lines share: devices that count, input and output, a run that passes each line on, and exit statuses.
#![tactic(auto)]

pub use at_end::AtEnd;
pub use counted::Counted;
pub use error::RunError;
pub use input::Input;
pub use output::{OUTPUT_BUFFER, Output, release, write_out};
pub use sink::{INPUT_BUFFER, Sink, run};
pub use writing::{close, flush, write_piece};

mod at_end;
mod counted;
mod error;
mod input;
pub mod laws;
mod output;
mod sink;
mod writing;
