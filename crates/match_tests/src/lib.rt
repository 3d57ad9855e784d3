//! Tests of the matchers and of a scan: hits, cuts and words worked out by hand, and sequences of
//! many kinds on which a scan, by state sets, and the search of a whole file, by offsets, agree.
//!
//! They are a crate of their own so that `sig_match` is not proved once more with them.
#![tactic(auto)]

#[cfg(test)]
mod tests;
