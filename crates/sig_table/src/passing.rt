//! Rows one at a time, for a caller who goes on behind a fault.
//!
//! Behind `fmt/1,1,BOF,0,,4142` the row `fmt/2,1,BOF,0,,4143` gives signature 1 to another format.
//! `take_row` says so and leaves it out, so that a row `fmt/2,2,BOF,0,,4144` is judged as if the
//! second were not there. A row is judged by the loader's own functions, so what is said of it is
//! what `load` says of it behind the same rows.

ghost use Rattle.std.specs.Prelude.{◌≡◌, ◌≤◌, IfOk, length};
ghost use Rattle.csv.specs.Records.{fields_of};
ghost use Rattle.sig_table.specs.Judging.{is_memory, passed};
ghost use Rattle.sig_table.specs.Loading.{with_pair, with_record};

use crate::draft::Draft;
use crate::loader::read_pair;
use crate::row::read_row;
use crate::{Puid, Ranking, TableError};
use csv::ByteRecord;
use indexmap::IndexSet;
use std::alloc::{AllocError, Global};

/// Judges the record of a signature file behind the rows of the draft, and adds its row if it has
/// no fault.
pub fn take_row(
    alloc: Global,
    draft: Draft,
    fields: &ByteRecord,
    row_number: usize,
) -> Result<(Draft, Option<TableError>), AllocError>
    ensures { IfOk result (λ r. r ≡ passed draft (with_record row_number draft (fields_of fields.now))) }
{
    match read_row(alloc, fields, row_number) {
        Ok(row) => draft.take(alloc, row, row_number),
        Err(fault) if is_memory(fault) => Err(AllocError),
        Err(fault) => Ok((draft, Some(fault))),
    }
}

// Whether the row was not judged to its end.
fn is_memory(fault: TableError) -> bool
    ensures { result ≡ is_memory fault }
{
    match fault {
        TableError::OutOfMemory => true,
        _ => false,
    }
}

/// Judges the record of a priority file behind the pairs of the ranking, and adds its pair if it
/// has no fault. A format's index is its place among the formats.
pub fn take_pair(
    formats: &IndexSet<Puid>,
    ranking: Ranking,
    fields: &ByteRecord,
    row_number: usize,
) -> Result<(Ranking, Option<TableError>), AllocError>
    requires few { length formats.now.keys ≤ 1000 }
    requires count { ranking.format_count ≡ length formats.now.keys }
    ensures formats { IfOk result (λ r. r.0.format_count ≡ ranking.format_count) }
    ensures pairs { IfOk result (λ r. (r.0.pairs, r.1) ≡ passed ranking.pairs (with_pair formats.now.keys row_number ranking.pairs (fields_of fields.now))) }
{
    match read_pair(formats, fields, row_number) {
        Ok(pair) => ranking.take(pair, row_number),
        Err(fault) => Ok((ranking, Some(fault))),
    }
}
