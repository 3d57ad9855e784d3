//! All faults of a signature table's two files, told in one run.
//!
//! A row is judged by the loader's own functions, behind the rows before it that have no fault. So
//! the first fault is the one that `Table::load` answers, and there is none exactly where it gives
//! a table: `lint` says both, and `specs/Faults.antt` what the others are.
#![tactic(auto)]

mod codes;
mod cures;
mod details;
mod fault;
mod fields;
mod laws;
mod linter;
mod names;
mod priorities;
mod reading;
mod reporter;
mod row_owners;
mod signatures;
mod warnings;

pub use codes::{Code, Site, code_of, file_name, site_of};
pub use cures::Cure;
pub use fault::Fault;
pub use fields::Field;
pub use laws::{
    every_name_is_known, faultless_pairs_load, faultless_rows_load,
    rows_are_judged_behind_faultless_ones,
};
pub use linter::lint;
pub use reporter::{Report, report_on};
pub use row_owners::{Owner, rows_of_two_formats};
pub use warnings::signatures_of_gaps;
