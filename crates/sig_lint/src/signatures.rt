//! The faults of a signature file.
//!
//! Behind `fmt/1,1,BOF,0,,4142` the row `fmt/2,x,BOF,0,,4143` has no signature number: it is told
//! as row 2 and left out, and row 3 is judged behind row 1 alone. A header with `;` for the comma
//! is the only fault of its file.

ghost use Rattle.std.specs.Prelude.{◌≡◌, ◌≤◌, ◌^◌, ◌++◌, IfOk, Some, length};
ghost use Rattle.csv.specs.Records.{fields_of};
ghost use Rattle.sig_table.specs.Loading.{empty_table, records_of, with_record};
ghost use Rattle.sig_lint.specs.Faults.{faults_from, row_fault, signature_faults, told};

use crate::fault::{Fault, with_fault};
use crate::fields::signature_field;
use crate::reading::{Lines, read_next};
use csv::ByteRecord;
use sig_table::{Draft, Records, TableError, TableFile, is_signature_header, take_row};
use std::alloc::{AllocError, Global};

// The faults of the file. A reader of `csv` is large, so each file is judged in a frame of its own.
#[inline(never)]
#[tactic(auto, unfolding(crate::specs::Faults::signature_faults))]
pub(crate) fn lint_signatures(alloc: Global, text: &[u8]) -> Result<Vec<Fault>, AllocError>
    ensures { IfOk result (λ faults. faults.items ≡ signature_faults (records_of text.now)) }
{
    let mut records = Records::new(alloc, text);
    let mut header = ByteRecord::new(alloc);
    let mut lines = Lines::new(text);
    let found = read_next(&mut records, &mut header)?;
    if !found {
        return with_header_fault(Vec::new(alloc), &ByteRecord::new(alloc), 1);
    }
    if !is_signature_header(&header) {
        return with_header_fault(Vec::new(alloc), &header, lines.line_of(&header));
    }
    lint_rows(alloc, &mut records, &mut lines)
}

// The faults with that of a record that is not the header.
fn with_header_fault(
    faults: Vec<Fault>,
    record: &ByteRecord,
    line: u64,
) -> Result<Vec<Fault>, AllocError>
    ensures { IfOk result (λ more. more.items ≡ faults.items ++ told row_fault (fields_of «record».now) (Some (TableError.Header TableFile.Signatures))) }
{
    let fault = TableError::Header {
        file: TableFile::Signatures,
    };
    with_row_fault(faults, record, line, Some(fault))
}

// The faults with that of the record, if it has one.
fn with_row_fault(
    faults: Vec<Fault>,
    record: &ByteRecord,
    line: u64,
    fault: Option<TableError>,
) -> Result<Vec<Fault>, AllocError>
    ensures { IfOk result (λ more. more.items ≡ faults.items ++ told row_fault (fields_of «record».now) fault) }
{
    match fault {
        Some(error) => with_fault(faults, record, line, error, signature_field(record, error)),
        None => Ok(faults),
    }
}

// The faults of the rows, each judged behind those before it that have none. Each read takes a
// record off, so their number stays below that of bytes.
fn lint_rows(
    alloc: Global,
    records: &mut Records,
    lines: &mut Lines,
) -> Result<Vec<Fault>, AllocError>
    requires { length records.old ≤ 2 ^ 63 }
    ensures { IfOk result (λ faults. faults.items ≡ faults_from row_fault with_record 1 empty_table records.old) }
{
    let mut faults = Vec::new(alloc);
    let mut draft = Draft::new(alloc);
    let mut record = ByteRecord::new(alloc);
    let mut row_number = 1;
    'rows: loop {
        let found = read_next(records, &mut record)?;
        if !found {
            return Ok(faults);
        }
        let (taken, fault) = take_row(alloc, draft, &record, row_number)?;
        draft = taken;
        faults = with_row_fault(faults, &record, lines.line_of(&record), fault)?;
        row_number += 1;
    }
}
