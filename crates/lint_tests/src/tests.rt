//! What no contract says of the faults of two files: where they stand, the texts that tell them,
//! the report of both files, and its warnings.
//!
//! The row `fmt/1,1,BOF,0,4142` has five fields and not six: its fault stands on line 2. What
//! `lint` does where a read or a write fails is tested in `engine_tests`.

mod details;
mod faults;
mod reports;
mod warnings;
