//! Why a scenario could not be run.
use thiserror::Error;

/// Why a scenario could not be run.
#[derive(Debug, Drop, Error)]
pub enum Fault {
    /// There is no such scenario.
    #[error("no such scenario")]
    Usage,
    /// The values of the scenario could not be made.
    #[error("the values can't be made")]
    Values,
}

/// Returns a value of a scenario, or that it could not be made, for whatever reason.
pub fn made<T, E: Drop>(outcome: Result<T, E>) -> Result<T, Fault> {
    match outcome {
        Ok(value) => Ok(value),
        Err(_error) => Err(Fault::Values),
    }
}
