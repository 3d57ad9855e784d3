//! From the table to its canonical files: each text is made whole and goes out in one write.
//!
//! `fmt/1,1,BOF,0,0,4142` is a canonical row. So nothing is written if memory runs out, and no file
//! ends in half a table; the text is as large as the file. A canonical line is defined as fields
//! with commas between them and a line feed. That `csv` writes just that is a lemma: no field of a
//! table has a byte that asks for quotes.

ghost use Rattle.std.specs.Prelude.{◌≡◌, ◌∷◌, ◌++◌, [], length, slice_get, string_bytes, IfOk, IsErrOf, OnOk};
ghost use Rattle.std.specs.Fmt.{decimal};
ghost use Rattle.std.specs.List.{flat_map};
ghost use Rattle.csv.specs.Records.{fields_of, partial_of};
ghost use Rattle.csv.specs.Writing.{default_writer, row_text};
ghost use Rattle.sig_expr.specs.Canon.{canon};
ghost use Rattle.sig_table.specs.Ranked.{ranked};
ghost use Rattle.sig_table.specs.Tables.{IsTable};
ghost use Rattle.sig_table.specs.Writes.{WritesWhole, state_of};
ghost use Rattle.sig_table.specs.Canonical.{name_of, pair_record, pairs_csv, position_fields, priority_csv, records_of_signature, sequence_record, signature_csv, signature_header};

use crate::csv_text::CsvText;
use crate::priority::Priority;
use crate::table::Signature;
use crate::{FormatId, OutError, Position, Puid, Ranking, Sequence, Table};
use csv::ByteRecord;
use sig_bits::{FromWrite, Output};
use sig_expr::{Expr, print};
use std::alloc::{AllocError, Global};

impl Table {
    /// Writes the canonical signature file: signatures in table order, the sequences of each
    /// together.
    ///
    /// The whole text is made first, so nothing is written where memory runs out. After a failed
    /// write only a front of it may be.
    pub fn write_signatures<W: Output>(&self, alloc: Global, out: &mut W) -> Result<(), OutError>
        ensures whole { WritesWhole (signature_csv self.now) result (state_of W.written W.limit W.failed out.old) (state_of W.written W.limit W.failed out.new) }
        ensures memory_stays { IsErrOf result OutError.OutOfMemory → out.new ≡ out.old }
    {
        let text = signature_text(alloc, self).map_err(|_| OutError::OutOfMemory)?;
        out.write_all(&text).map_err(|_| OutError::Write)
    }

    /// Writes the canonical priority file: the pairs in their order.
    ///
    /// The whole text is made first, so nothing is written where memory runs out. After a failed
    /// write only a front of it may be.
    pub fn write_priorities<W: Output>(&self, alloc: Global, out: &mut W) -> Result<(), OutError>
        ensures whole { WritesWhole (priority_csv self.now) result (state_of W.written W.limit W.failed out.old) (state_of W.written W.limit W.failed out.new) }
        ensures memory_stays { IsErrOf result OutError.OutOfMemory → out.new ≡ out.old }
    {
        write_pairs(alloc, self.formats(), self.priorities(), out)
    }
}

impl Ranking {
    /// Writes the canonical priority file of the table with these priorities in place of its own.
    ///
    /// The whole text is made first, so nothing is written where memory runs out. After a failed
    /// write only a front of it may be.
    pub fn write<W: Output>(
        &self,
        alloc: Global,
        table: &Table,
        out: &mut W,
    ) -> Result<(), OutError>
        requires { self.now.format_count ≡ length table.now.formats }
        ensures whole { WritesWhole (priority_csv (ranked table.now self.now.pairs)) result (state_of W.written W.limit W.failed out.old) (state_of W.written W.limit W.failed out.new) }
        ensures table { IsTable (ranked table.now self.now.pairs) }
        ensures memory_stays { IsErrOf result OutError.OutOfMemory → out.new ≡ out.old }
    {
        write_pairs(alloc, table.formats(), self.pairs(), out)
    }
}

// Writes the canonical priority file of these formats and pairs.
fn write_pairs<W: Output>(
    alloc: Global,
    formats: &[Puid],
    pairs: &[Priority],
    out: &mut W,
) -> Result<(), OutError>
    ensures whole { WritesWhole (pairs_csv formats.now pairs.now) result (state_of W.written W.limit W.failed out.old) (state_of W.written W.limit W.failed out.new) }
    ensures memory_stays { IsErrOf result OutError.OutOfMemory → out.new ≡ out.old }
{
    let text = priority_text(alloc, formats, pairs).map_err(|_| OutError::OutOfMemory)?;
    out.write_all(&text).map_err(|_| OutError::Write)
}

// The text of the signature file.
fn signature_text(alloc: Global, table: &Table) -> Result<Vec<u8>, AllocError>
    ensures { IfOk result (λ text. text.items ≡ signature_csv table.now) }
{
    let start = CsvText::new(alloc)?;
    let mut lines = start.with(&signature_header(alloc)?)?;
    for signature in table.signatures() {
        lines = with_signature(alloc, lines, table.formats(), signature)?;
    }
    lines.into_text()
}

// The first record of a signature file.
fn signature_header(alloc: Global) -> Result<ByteRecord, AllocError>
    ensures { IfOk result (λ row. fields_of row ≡ signature_header) }
{
    let fields: [&[u8]; 6] = [
        b"puid",
        b"signature",
        b"position",
        b"offset",
        b"max_offset",
        b"expression",
    ];
    ByteRecord::from_fields(alloc, &fields)
}

// The lines with those of the signature.
fn with_signature(
    alloc: Global,
    mut lines: CsvText,
    formats: &[Puid],
    signature: &Signature,
) -> Result<CsvText, AllocError>
    ensures { IfOk result (λ more. more ≡ lines ++ flat_map (row_text default_writer) (records_of_signature formats.now signature.now)) }
{
    let name = name_of(alloc, formats, signature.format())?;
    let number = signature.number();
    for sequence in signature.sequences() {
        lines = lines.with(&sequence_record(alloc, &name, number, sequence)?)?;
    }
    Ok(lines)
}

// The record of the sequence, of the signature of this number and of the format of this name.
fn sequence_record(
    alloc: Global,
    name: &str,
    number: u32,
    sequence: &Sequence,
) -> Result<ByteRecord, AllocError>
    ensures { IfOk result (λ row. fields_of row ≡ sequence_record name.now number sequence.now) }
{
    let mut row = ByteRecord::new(alloc);
    row.push_field(name.as_bytes())?;
    push_number(alloc, &mut row, number)?;
    push_position(alloc, &mut row, sequence.position())?;
    row.push_field(&expression_text(alloc, sequence.expr())?)?;
    Ok(row)
}

// Adds the fields of the position.
fn push_position(alloc: Global, row: &mut ByteRecord, position: Position) -> Result<(), AllocError>
    requires { partial_of row.old ≡ [] }
    ensures fields { OnOk result (fields_of row.new ≡ fields_of row.old ++ position_fields position) }
    ensures partial { OnOk result (partial_of row.new ≡ []) }
{
    match position {
        Position::Bof { min, max } => push_offsets(alloc, row, b"BOF", min, max),
        Position::Eof { min, max } => push_offsets(alloc, row, b"EOF", min, max),
        Position::Variable => {
            row.push_field(b"Variable")?;
            row.push_field(b"")?;
            row.push_field(b"")
        }
    }
}

// Adds a word and the two offsets.
fn push_offsets(
    alloc: Global,
    row: &mut ByteRecord,
    word: &[u8],
    min: u16,
    max: u16,
) -> Result<(), AllocError>
    requires { partial_of row.old ≡ [] }
    ensures fields { OnOk result (fields_of row.new ≡ fields_of row.old ++ word.now ∷ decimal min ∷ decimal max ∷ []) }
    ensures partial { OnOk result (partial_of row.new ≡ []) }
{
    row.push_field(word)?;
    push_number(alloc, row, u32::from(min))?;
    push_number(alloc, row, u32::from(max))
}

// Adds a number's digits.
fn push_number(alloc: Global, row: &mut ByteRecord, number: u32) -> Result<(), AllocError>
    requires { partial_of row.old ≡ [] }
    ensures fields { OnOk result (fields_of row.new ≡ fields_of row.old ++ decimal number ∷ []) }
    ensures partial { OnOk result (partial_of row.new ≡ []) }
{
    let digits = format!(in alloc; "{number}")?;
    row.push_field(digits.as_bytes())
}

// The canonical text of the expression.
fn expression_text(alloc: Global, expr: &Expr) -> Result<Vec<u8>, AllocError>
    ensures { IfOk result (λ text. text.items ≡ canon expr.now) }
{
    let mut out = FromWrite::new(Vec::new(alloc));
    print(expr, &mut out).map_err(|_| AllocError)?;
    Ok(out.into_inner())
}

// The text of the priority file of these formats and pairs.
fn priority_text(alloc: Global, formats: &[Puid], pairs: &[Priority]) -> Result<Vec<u8>, AllocError>
    ensures { IfOk result (λ text. text.items ≡ pairs_csv formats.now pairs.now) }
{
    let header = ByteRecord::from_fields(alloc, &[b"higher", b"lower"])?;
    let start = CsvText::new(alloc)?;
    let mut lines = start.with(&header)?;
    for pair in pairs {
        lines = lines.with(&pair_record(alloc, formats, *pair)?)?;
    }
    lines.into_text()
}

// The record of the pair.
fn pair_record(alloc: Global, formats: &[Puid], pair: Priority) -> Result<ByteRecord, AllocError>
    ensures { IfOk result (λ row. fields_of row ≡ pair_record formats.now pair) }
{
    let higher = name_of(alloc, formats, pair.higher())?;
    let lower = name_of(alloc, formats, pair.lower())?;
    ByteRecord::from_fields(alloc, &[higher.as_bytes(), lower.as_bytes()])
}

// The format's name.
fn name_of(alloc: Global, formats: &[Puid], format: FormatId) -> Result<String, AllocError>
    ensures { IfOk result (λ name. string_bytes name ≡ name_of formats.now format.0) }
{
    match formats.get(format.0 as usize) {
        Some(puid) => puid.to_string(alloc),
        None => Ok(String::new(alloc)),
    }
}
