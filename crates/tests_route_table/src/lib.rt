//! Tests of `route_choices`, `least_table`, `route_table` and `hop_index`.
#![tactic(auto)]

#[cfg(test)]
mod tests;
