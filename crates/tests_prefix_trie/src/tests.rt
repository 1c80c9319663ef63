//! The tests, one file for each group of calls.
mod entries;
mod first_map_calls;
mod keys;
mod maps;
mod scripts;
mod steps;
mod walks;
