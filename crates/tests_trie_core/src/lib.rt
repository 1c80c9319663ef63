//! Tests of `short_vec`, `shape` and `trie_core`.
#![tactic(auto)]

#[cfg(test)]
mod tests;
