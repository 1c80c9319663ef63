//! Why a run ended early.
ghost use Rattle.std.specs.Prelude.{◌≡◌};
ghost use Rattle.route_program.specs.Status.{status_of};
ghost use Rattle.route_program.specs.declared.error.RunError.TheVariants.{Memory};

use prefix_trie::Refused;
use std::alloc::{AllocError, AllocFailed};
use thiserror::Error;

/// Why a run ended early.
#[derive(Clone, Copy, Debug, PartialEq, Eq, Error)]
pub enum RunError {
    /// An allocation failed: in a leader at the start, in other runs also at a line or at the end.
    #[error("no memory")]
    Memory,
    /// A `read` failed, or the most reads that a run makes didn't reach the end.
    #[error("read fault")]
    Read,
    /// A `write` or a `flush` failed, or a `write` wrote nothing.
    #[error("write fault")]
    Write,
    /// A line of the input isn't a reply line. For an installer: isn't one of its lines, or is a `have` line after a `sync`.
    #[error("not a reply line")]
    Line,
}

impl RunError {
    /// Returns the exit status of a program whose run ended with this error.
    ///
    /// # Examples
    /// ```rust
    /// assert_eq!(rt; RunError::Memory.status(), 1);
    /// assert_eq!(rt; RunError::Line.status(), 5);
    /// ```
    pub fn status(&self) -> u8
        ensures { result ≡ status_of self.now }
    {
        match self {
            RunError::Memory => 1,
            RunError::Read => 3,
            RunError::Write => 4,
            RunError::Line => 5,
        }
    }
}

/// An allocation failed.
impl From<AllocError> for RunError {
    ghost from_gives = { λ _ e. e ≡ Memory };

    fn from(_refused: AllocError) -> RunError {
        RunError::Memory
    }
}

/// An allocation failed.
impl<T: Drop> From<AllocFailed<T>> for RunError {
    ghost from_gives = { λ _ e. e ≡ Memory };

    fn from(_refused: AllocFailed<T>) -> RunError {
        RunError::Memory
    }
}

/// An allocation of a table failed; a table is never full.
impl From<Refused> for RunError {
    ghost from_gives = { λ _ e. e ≡ Memory };

    fn from(_refused: Refused) -> RunError {
        RunError::Memory
    }
}
