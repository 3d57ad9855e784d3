//! Tests of the command line, `command` and `command_over`: the answers to rows worked out by hand,
//! texts and statuses, and what failing readers and writers do to them.
//!
//! They are a crate of their own so that the command line is not proved once more with them.
#![tactic(auto)]

#[cfg(test)]
mod tests;
