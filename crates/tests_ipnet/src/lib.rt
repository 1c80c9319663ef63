//! Tests of `ipnet_addr` and `ipnet`.
#![tactic(auto)]

#[cfg(test)]
mod tests;
