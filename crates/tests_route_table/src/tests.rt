//! The tests, one file for each group of calls.
mod choices;
mod dense_indexes;
mod first_calls;
mod flat_lists;
mod hop_tables;
mod indexes;
mod least_tables;
mod pieces;
mod scripts;
mod steps;
mod tables;
