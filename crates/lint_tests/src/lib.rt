//! Tests of what no contract says of the faults of two files: the faults of texts worked out by
//! hand, and the lines on which they stand.
#![tactic(auto)]

#[cfg(test)]
mod tests;
