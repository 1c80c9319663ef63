//! Tests of `prefix_trie`: prefixes, maps and entries of networks, and scripts of maps.
#![tactic(auto)]

#[cfg(test)]
mod tests;
