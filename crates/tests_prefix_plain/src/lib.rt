//! Tests of `prefix_trie` with plain keys, a number and a length: sets, and maps as a whole.
#![tactic(auto)]

#[cfg(test)]
mod tests;
