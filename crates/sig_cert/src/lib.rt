//! Certificates that a table of signatures never leaves two formats for one file, and their
//! checker; and files that leave two.
//!
//! A certificate has, for each two signatures of unrelated formats, a closed set of rows of their
//! product. What an accepted certificate means is `specs/Deciding.antt`; when a certificate is
//! closed, `specs/Closed.antt`; which fault of any other is told, `specs/Verdicts.antt`.
#![tactic(auto)]

mod checker;
mod closed;
mod error;
mod fields;
mod key;
mod laws;
mod rows;
mod search;
mod site;
mod tables;
mod version;
mod view;
mod witness;

pub use checker::{check, kind_of, pair_count};
pub use error::CheckError;
pub use laws::{
    accepted_is_closed, closed_covers_reached, closed_decides, closed_is_accepted,
    ends_are_reached, reached_rows_are_of_their_file, two_lines_never, verdict_is_one,
};
pub use version::Version;
pub use view::CertView;
pub use witness::check_witness;
