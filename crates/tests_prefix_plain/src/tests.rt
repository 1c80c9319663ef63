//! The tests, one file for each group of calls.
mod first_set_calls;
mod kept;
mod maps;
mod refused;
mod rows;
mod set_steps;
