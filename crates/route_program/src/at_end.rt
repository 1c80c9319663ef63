//! How a run releases its memory at the end.

use std::mem::ManuallyDrop;

/// How the memory of a table is released at the end of a run.
#[derive(Clone, Copy, Debug)]
pub enum AtEnd {
    /// It is freed, list by list.
    Free,
    /// It is leaked, for a process that exits next: the system then reclaims it as a whole.
    Leak,
}

impl AtEnd {
    /// Drops the value, or leaks it.
    pub fn discard<T: Drop>(self, value: T) {
        match self {
            AtEnd::Free => drop(value),
            AtEnd::Leak => {
                let _leaked = ManuallyDrop::new(value);
            }
        }
    }
}
