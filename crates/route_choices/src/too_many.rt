//! The error of a hop that there is no room for.
use thiserror::Error;

/// The network has eight other hops already.
#[derive(Clone, Copy, Debug, PartialEq, Eq, Error)]
#[error("eight other hops are stored")]
pub struct TooMany;
