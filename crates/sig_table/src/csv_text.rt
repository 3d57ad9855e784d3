//! Records as text in memory: the library's writer, over a vector that grows.
//!
//! Its value is the text so far, so no contract sees what the writer still holds in its buffer.

ghost use Rattle.std.specs.Prelude.{◌≡◌, [], ◌++◌, IfOk};
ghost use Rattle.csv.specs.Records.{fields_of};
ghost use Rattle.csv.specs.Writing.{default_writer, row_text};

use csv::{ByteRecord, Writer};
use std::alloc::{AllocError, Global};
use std::marker::Model;

// The text of the records so far, as `csv` writes them by default. The text moves from line to
// line, and the buffer in a writer has 8 KiB, so the writer stands on the heap.
#[derive(Drop)]
pub(crate) struct CsvText {
    writer: Box<Writer<Vec<u8>>>,
}

impl Model for CsvText {
    ghost use Rattle.std.specs.Prelude.{ℕ, List, ◌++◌};
    ghost use Rattle.csv.specs.Writing.{writer_pending, writer_under};
    ghost use Rattle.sig_table.specs.CsvTexts.{IsAtStart};

    ghost Value = { List ℕ };

    ghost view = { λ l. (writer_under l.writer.value).items ++ writer_pending l.writer.value };

    ghost invariant = { λ l. IsAtStart l.writer.value };
}

impl CsvText {
    // No record yet.
    pub(crate) fn new(alloc: Global) -> Result<CsvText, AllocError>
        ensures { IfOk result (λ lines. lines ≡ []) }
    {
        let writer = Box::new(alloc, Writer::from_writer(Vec::new(alloc)))?;
        Ok(CsvText { writer })
    }

    // The lines with one more record, which has as many fields as the others.
    pub(crate) fn with(self, row: &ByteRecord) -> Result<CsvText, AllocError>
        ensures { IfOk result (λ lines. lines ≡ self ++ row_text default_writer (fields_of row.now)) }
    {
        let CsvText { mut writer } = self;
        writer.write_byte_record(row).map_err(|_| AllocError)?;
        Ok(CsvText { writer })
    }

    pub(crate) fn into_text(self) -> Result<Vec<u8>, AllocError>
        ensures { IfOk result (λ text. text.items ≡ self) }
    {
        let CsvText { writer } = self;
        Box::into_inner(writer).into_inner().map_err(|_| AllocError)
    }
}
