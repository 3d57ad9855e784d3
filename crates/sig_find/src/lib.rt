//! The finder: a certificate that a table never leaves two formats for one file, or a shortest file
//! for which it does.
//!
//! What it answers is `specs/Answers.antt`; what it answers of two formats,
//! `specs/FormatPairs.antt`; what a search over the rows of one product finds,
//! `specs/Searches.antt`.
#![tactic(auto)]

mod addition;
mod clash;
mod class;
mod decision;
mod direct;
mod finder;
mod found;
mod frontier;
mod inclusion;
mod kept;
mod laws;
mod life;
mod lives;
mod observer;
mod pair;
mod search;
mod simple;
mod tally;
mod task;
mod writer;

pub use addition::{Addition, try_addition};
pub use class::{PairClass, class_of_pair};
pub use decision::{Decision, decide_product};
pub use finder::{find, find_observed};
pub use found::Found;
pub use inclusion::{Inclusion, decide_inclusion};
pub use laws::{
    additions_keep_formats_alive, bad_rows_are_unblocked, dead_signatures_leave_none,
    decided_pairs_decide, formats_left_leave_pair, pair_left_leaves_formats,
    related_pairs_leave_none, rows_over_some_are_over_all, settled_products_leave_none,
    unblocked_files_lead_to_bad_rows,
};
pub use life::{Fate, Life, SignatureLife, decide_format};
pub use lives::{TableLives, lives_of_table};
pub use observer::{Observer, Unobserved};
pub use pair::{PairDecision, decide_pair};
