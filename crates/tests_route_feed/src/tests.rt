//! The tests, one file for each group of calls.
mod cutter;
mod devices;
mod followers;
mod installing;
mod pieces;
mod rows;
mod runs;
mod scripted;
mod streams;
mod texts;
