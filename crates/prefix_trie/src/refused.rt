//! The error of calls that store.
ghost use Rattle.std.specs.Prelude.{◌≡◌};
ghost use Rattle.prefix_trie.specs.declared.refused.Refused.TheVariants.{Memory};

use std::alloc::AllocError;
use thiserror::Error;

/// Why a value could not be stored.
///
/// # Examples
/// `is_printed` compares the text of a refusal:
///
/// ```rust
/// is_printed(&rt, rt.alloc(), Refused::Memory, "out of memory");
/// ```
#[derive(Clone, Copy, Debug, Drop, PartialEq, Eq, Error)]
pub enum Refused {
    /// An allocation failed, or no more entries or nodes can be counted.
    #[error("out of memory")]
    Memory,
    /// The map is full. No call returns this error, since a map is never full here.
    #[error("the map is full")]
    Full,
}

/// An allocation failed.
impl From<AllocError> for Refused {
    ghost from_gives = { λ _ e. e ≡ Memory };

    fn from(_refused: AllocError) -> Refused {
        Refused::Memory
    }
}
