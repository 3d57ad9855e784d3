//! The records of a file judged in turn: one loop for both files.
//!
//! A record is split and judged against the rows before it, and then the next one is split. So a
//! faulty row ends the load, and one record is in memory at a time. What the rows of a file make is
//! a type of its own (`FromRows`): the signature file makes a `Draft`, the priority file
//! `PairRows`.

ghost use Rattle.std.specs.Prelude.{◌≡◌, ◌≤◌, ◌^◌, length};
ghost use Rattle.csv.specs.Records.{fields_of};
ghost use Rattle.sig_table.specs.Files.{file_judged, is_header};
ghost use Rattle.sig_table.specs.Judging.{Judges, judged};
ghost use Rattle.sig_table.specs.Loading.{is_priority_header, is_signature_header, records_of};

use crate::records::Records;
use crate::row::field;
use crate::{TableError, TableFile};
use csv::ByteRecord;
use std::alloc::Global;

// What the rows of a file make: each is judged after those before it.
pub(crate) trait FromRows: Drop {
    ghost use Rattle.std.specs.Prelude.{ℕ, List, Result};
    ghost use Rattle.sig_table.specs.declared.error.TableError.{TableError};

    // What the rows so far give with the record of this number, or its fault.
    ghost judge: { ℕ → Self → List (List ℕ) → Result Self TableError };

    // Adds the row of the record.
    fn with_row(
        self,
        alloc: Global,
        fields: &ByteRecord,
        row_number: usize,
    ) -> Result<Self, TableError>
        ensures { Judges result (judge row_number self (fields_of fields.now)) };
}

// What the rows of the file make behind its header. A reader of `csv` is 16 KiB, so each file is
// judged in a frame of its own.
#[inline(never)]
#[tactic(auto, unfolding(crate::specs::Files::file_judged))]
pub(crate) fn read_file<R: FromRows>(
    alloc: Global,
    file: TableFile,
    text: &[u8],
    start: R,
) -> Result<R, TableError>
    ensures { Judges result (file_judged file R.judge start (records_of text.now)) }
{
    let mut records = Records::new(alloc, text);
    let mut header = ByteRecord::new(alloc);
    let found = records.read(&mut header)?;
    if found && is_header(file, &header) {
        return read_rows(alloc, start, &mut records);
    }
    Err(TableError::Header { file })
}

// The rows in turn. Each read takes a record off, so their number stays below that of bytes.
fn read_rows<R: FromRows>(alloc: Global, start: R, records: &mut Records) -> Result<R, TableError>
    requires { length records.old ≤ 2 ^ 63 }
    ensures { Judges result (judged R.judge 1 start records.old) }
{
    let mut rows = start;
    let mut record = ByteRecord::new(alloc);
    let mut row_number = 1;
    'rows: loop {
        let found = records.read(&mut record)?;
        if !found {
            return Ok(rows);
        }
        rows = rows.with_row(alloc, &record, row_number)?;
        row_number += 1;
    }
}

// Whether the record is the file's header.
fn is_header(file: TableFile, line: &ByteRecord) -> bool
    ensures { result ≡ is_header file (fields_of line.now) }
{
    match file {
        TableFile::Signatures => is_signature_header(line),
        TableFile::Priorities => is_priority_header(line),
    }
}

/// Whether the record is the header of a signature file.
pub fn is_signature_header(line: &ByteRecord) -> bool
    ensures { result ≡ is_signature_header (fields_of line.now) }
{
    line.len() == 6
        && field(line, 0) == b"puid".as_slice()
        && field(line, 1) == b"signature".as_slice()
        && field(line, 2) == b"position".as_slice()
        && field(line, 3) == b"offset".as_slice()
        && field(line, 4) == b"max_offset".as_slice()
        && field(line, 5) == b"expression".as_slice()
}

/// Whether the record is the header of a priority file.
pub fn is_priority_header(line: &ByteRecord) -> bool
    ensures { result ≡ is_priority_header (fields_of line.now) }
{
    line.len() == 2
        && field(line, 0) == b"higher".as_slice()
        && field(line, 1) == b"lower".as_slice()
}
