//! The position automaton of a sequence, after Glushkov: a state for each slot, no empty moves.
//!
//! Some run of a file accepts exactly where the sequence stands in it (`specs/Runs.antt`).
#![tactic(auto)]

mod auto;
mod behind;
mod build;
mod bytes;
mod cell;
mod class;
mod class_word;
mod joint;
mod laws;
mod start;
mod step;
mod successors;

pub use auto::Auto;
pub use behind::Behind;
pub use laws::{
    accepts_by_an_end, runs_accept_what_stands, runs_are_decided, runs_begin, runs_go_on,
    slots_are_counted, states_are_slots,
};
pub use start::{accepts_empty, first_bytes};
pub use successors::Successors;
