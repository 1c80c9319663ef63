//! The error of `add`.
use prefix_trie::Refused;
use thiserror::Error;

/// Why a route could not be stored.
#[derive(Clone, Copy, Debug, PartialEq, Eq, Error)]
pub enum AddRefused {
    /// The network isn't stored, and an allocation for it failed.
    #[error("{0}")]
    Store(Refused),
    /// The network has eight other hops already.
    #[error("eight other hops are stored at the network")]
    TooMany,
}
