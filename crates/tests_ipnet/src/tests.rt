//! The tests, one file for each group of calls.
mod addresses;
mod compare;
mod cuts;
mod first_calls;
mod forms;
mod networks;
