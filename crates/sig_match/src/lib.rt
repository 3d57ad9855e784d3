//! Which signatures of a table hit a file, and which formats are reported after priorities.
//!
//! A caller takes one of two matchers: `StreamCore` reads a file once, piece by piece, and
//! `WholeCore` reads it whole. Both meet the trait `DroidCore`, of `sig_core`.
//! A `Scan` is fed by its caller, in pieces of any length. `left_in` and `signature_hits` answer of
//! bytes in memory.
//!
//! `whole` searches a file in memory, `scan` passes over a file once, and `stream` reads a file for
//! a scan.
#![tactic(auto)]

mod laws;
mod scan;
mod stream;
mod whole;

pub use laws::every_file_has_hit_formats;
pub use scan::Scan;
pub use stream::StreamCore;
pub use whole::{WholeCore, left_in, signature_hits};
