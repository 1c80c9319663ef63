//! Tests of `route_lines` and `route_feed`.
#![tactic(auto)]

#[cfg(test)]
mod tests;
