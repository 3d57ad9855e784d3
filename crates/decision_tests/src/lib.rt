//! Tests of what no contract says of automata, products, certificates and the finder: the answers
//! to tables worked out by hand.
//!
//! They are a crate of their own so that the crates that they call are not proved once more with
//! them.
#![tactic(auto)]

#[cfg(test)]
mod tests;
