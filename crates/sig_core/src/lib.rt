//! What every matcher shares: what a matcher is, and what it answers.
//!
//! Of a table and a file, a matcher lists the formats that the file hits, each with its first
//! signature that hits: the file `41 42` hits `fmt/1` by signature 1, where that wants these bytes
//! at the start. How it searches is its own; `specs/Hits.antt` says what it has to find. Here stand
//! the interface (`droid_core`), the list of hits (`results`), how it comes from one mark for each
//! signature (`hits`), what priorities take out of it (`removal`), and the laws of both.
#![tactic(auto)]

mod droid_core;
mod error;
mod hits;
mod laws;
mod removal;
mod results;

pub use droid_core::DroidCore;
pub use error::CoreError;
pub use hits::list_hits;
pub use laws::{
    hit_formats_are_one_list, left_is_not_outranked, left_is_one_list, some_hit_is_left,
};
pub use results::{Hit, Results};
