//! A table of signatures: formats, their signatures and the priorities among them.
//!
//! What a table is to its callers is in `specs/Views.antt`, its limits in `specs/Tables.antt`, when
//! a sequence stands in a file and a signature hits it in `specs/Standing.antt`.
#![tactic(auto)]

mod csv_text;
mod draft;
mod error;
mod format_set;
mod ids;
mod laws;
mod links;
mod loader;
mod numbers;
mod passing;
mod position;
mod priority;
mod puid;
mod ranking;
mod reading;
mod records;
mod row;
mod sequence;
mod signatures_of;
mod slots;
mod table;
mod writer;

pub use draft::Draft;
pub use error::{OutError, TableError, TableFile};
pub use ids::{FormatId, SigId};
pub use laws::{
    first_fault_is_told, first_priority_fault_is_told, pairs_are_listed, pairs_are_refused,
    pairs_are_spelled, printed_is_read, rows_are_gathered, rows_are_refused, rows_are_spelled,
    some_is_not_outranked, written_is_loaded, written_priorities_are_loaded,
};
pub use passing::{take_pair, take_row};
pub use position::Position;
pub use puid::{Puid, Registry};
pub use ranking::Ranking;
pub use reading::{is_priority_header, is_signature_header};
pub use records::Records;
pub use row::read_offset;
pub use sequence::Sequence;
pub use signatures_of::SignaturesOf;
pub use table::Table;
