//! Tests of the engines and the cores: the worked rows through each core, however a file is cut
//! into pieces, and what failing readers, writers and stores do to them.
//!
//! They are a crate of their own so that the engines are not proved once more with them.
#![tactic(auto)]

#[cfg(test)]
mod tests;
