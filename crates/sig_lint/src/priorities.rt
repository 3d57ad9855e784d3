//! The faults of a priority file, among the formats that are named.
//!
//! Behind `fmt/1,fmt/2` the row `fmt/2,fmt/1` closes a cycle: it is told and left out, so the row
//! `fmt/2,fmt/3` has no fault, and `fmt/3,fmt/1` closes another cycle.

ghost use Rattle.std.specs.Prelude.{◌≡◌, ◌≤◌, ◌^◌, ◌++◌, [], IfOk, Some, length};
ghost use Rattle.csv.specs.Records.{fields_of};
ghost use Rattle.sig_table.specs.Judging.{passed};
ghost use Rattle.sig_table.specs.Loading.{records_of};
ghost use Rattle.sig_lint.specs.Faults.{faults_from, pair_row_fault, priority_faults, told, with_named_pair};
ghost use Rattle.sig_lint.specs.Names.{formats_among};

use crate::fault::{Fault, with_fault};
use crate::fields::priority_field;
use crate::names::Names;
use crate::reading::{Lines, read_next};
use csv::ByteRecord;
use sig_table::{Ranking, Records, TableError, TableFile, is_priority_header, take_pair};
use std::alloc::{AllocError, Global};

// The faults, and behind them those of the file.
#[inline(never)]
#[tactic(auto, unfolding(crate::specs::Faults::priority_faults))]
pub(crate) fn lint_priorities(
    alloc: Global,
    text: &[u8],
    names: &Names,
    faults: Vec<Fault>,
) -> Result<Vec<Fault>, AllocError>
    ensures { IfOk result (λ all. all.items ≡ faults.items ++ priority_faults names.now (records_of text.now)) }
{
    let mut records = Records::new(alloc, text);
    let mut header = ByteRecord::new(alloc);
    let mut lines = Lines::new(text);
    let found = read_next(&mut records, &mut header)?;
    if !found {
        return with_header_fault(faults, names, &ByteRecord::new(alloc), 1);
    }
    if !is_priority_header(&header) {
        return with_header_fault(faults, names, &header, lines.line_of(&header));
    }
    lint_pairs(alloc, &mut records, &mut lines, names, faults)
}

// The faults with that of a record that is not the header.
fn with_header_fault(
    faults: Vec<Fault>,
    names: &Names,
    record: &ByteRecord,
    line: u64,
) -> Result<Vec<Fault>, AllocError>
    ensures { IfOk result (λ more. more.items ≡ faults.items ++ told (pair_row_fault names.now) (fields_of «record».now) (Some (TableError.Header TableFile.Priorities))) }
{
    let fault = TableError::Header {
        file: TableFile::Priorities,
    };
    with_pair_fault(faults, names, record, line, Some(fault))
}

// The faults with that of the record, if it has one.
fn with_pair_fault(
    faults: Vec<Fault>,
    names: &Names,
    record: &ByteRecord,
    line: u64,
    fault: Option<TableError>,
) -> Result<Vec<Fault>, AllocError>
    ensures { IfOk result (λ more. more.items ≡ faults.items ++ told (pair_row_fault names.now) (fields_of «record».now) fault) }
{
    match fault {
        Some(error) => with_fault(
            faults,
            record,
            line,
            error,
            priority_field(names, record, error),
        ),
        None => Ok(faults),
    }
}

// The faults, and behind them those of the rows, each judged behind those before it that have none.
// Each read takes a record off, so their number stays below that of bytes.
fn lint_pairs(
    alloc: Global,
    records: &mut Records,
    lines: &mut Lines,
    names: &Names,
    faults: Vec<Fault>,
) -> Result<Vec<Fault>, AllocError>
    requires { length records.old ≤ 2 ^ 63 }
    ensures { IfOk result (λ all. all.items ≡ faults.items ++ faults_from (pair_row_fault names.now) (with_named_pair names.now) 1 [] records.old) }
{
    let mut all = faults;
    let mut ranking = Ranking::new(alloc, names.formats().len())?;
    let mut record = ByteRecord::new(alloc);
    let mut row_number = 1;
    'rows: loop {
        let found = read_next(records, &mut record)?;
        if !found {
            return Ok(all);
        }
        let (taken, fault) = take_named_pair(names, ranking, &record, row_number)?;
        ranking = taken;
        all = with_pair_fault(all, names, &record, lines.line_of(&record), fault)?;
        row_number += 1;
    }
}

// Judges the record behind the pairs, and adds its pair if it has no fault and a table has room for
// its formats.
#[tactic(auto, unfolding(crate::specs::Faults::with_named_pair))]
fn take_named_pair(
    names: &Names,
    ranking: Ranking,
    record: &ByteRecord,
    row_number: usize,
) -> Result<(Ranking, Option<TableError>), AllocError>
    requires { ranking.format_count ≡ length (formats_among names.now) }
    ensures formats { IfOk result (λ r. r.0.format_count ≡ ranking.format_count) }
    ensures pairs { IfOk result (λ r. (r.0.pairs, r.1) ≡ passed ranking.pairs (with_named_pair names.now row_number ranking.pairs (fields_of «record».now))) }
{
    if names.is_beyond(record) {
        return Ok((ranking, None));
    }
    take_pair(names.formats(), ranking, record, row_number)
}
