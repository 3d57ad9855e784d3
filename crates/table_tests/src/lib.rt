//! Tests of what no contract says of sets of bits, devices, expressions and tables: the answers to
//! texts worked out by hand, and what failing readers and writers do to them.
//!
//! They are a crate of their own so that the crates that they call are not proved once more with
//! them.
#![tactic(auto)]

#[cfg(test)]
mod tests;
