//! A row of the signature file: six fields, judged from left to right.
//!
//! `fmt/1,1,BOF,0,,4142` says that signature 1 of `fmt/1` has the expression `4142` at offset 0.
//! The first field of a wrong form is the fault. What depends on other rows, and the count of
//! slots, is judged where the row is added (`draft`).

ghost use Rattle.std.specs.Prelude.{◌≡◌};
ghost use Rattle.csv.specs.Records.{fields_of};
ghost use Rattle.sig_expr.specs.Texts.{expr_of};
ghost use Rattle.std.specs.Option.{ok_or};
ghost use Rattle.sig_table.specs.Puids.{puid_of};
ghost use Rattle.sig_table.specs.Numbers.{positive_of};
ghost use Rattle.sig_table.specs.Judging.{Judges};
ghost use Rattle.sig_table.specs.Rows.{items_in, offset_of, offsets_of, position_of, row_of, text_at, up_to};

use crate::numbers::{read_number, read_positive};
use crate::sequence::Placed;
use crate::{Position, Puid, TableError, TableFile};
use csv::ByteRecord;
use sig_expr::{Expr, ExprError, parse};
use std::alloc::Global;

// The greatest offset.
const MOST_OFFSET: u32 = 65535;

// What a row says: a format, a signature of it, and the expression of a sequence at its position.
#[derive(Debug, Drop)]
pub(crate) struct Row {
    pub(crate) puid: Puid,
    pub(crate) number: u32,
    pub(crate) sequence: Placed,
}

// The row that the record writes.
#[tactic(auto, unfolding(crate::specs::Rows::row_of))]
pub(crate) fn read_row(
    alloc: Global,
    line: &ByteRecord,
    row_number: usize,
) -> Result<Row, TableError>
    ensures { Judges result (row_of row_number (fields_of line.now)) }
{
    if line.len() != 6 {
        return Err(TableError::Fields {
            file: TableFile::Signatures,
            row: row_number,
        });
    }
    let puid = read_puid(field(line, 0), TableFile::Signatures, row_number)?;
    let number = read_signature_number(field(line, 1), row_number)?;
    let position = read_position(field(line, 2), field(line, 3), field(line, 4), row_number)?;
    let expr = read_expr(alloc, field(line, 5), row_number)?;
    Ok(Row {
        puid,
        number,
        sequence: Placed { position, expr },
    })
}

// The field at a place, which is empty where there is none.
pub(crate) fn field(line: &ByteRecord, place: usize) -> &[u8]
    ensures { result.now ≡ text_at (fields_of line.now) place }
{
    match line.get(place) {
        Some(text) => text,
        None => &[],
    }
}

// The PUID that the text writes.
pub(crate) fn read_puid(text: &[u8], file: TableFile, row_number: usize) -> Result<Puid, TableError>
    ensures { result ≡ ok_or (puid_of text.now) (TableError.Puid file row_number) }
{
    Puid::parse(text).ok_or(TableError::Puid {
        file,
        row: row_number,
    })
}

// The signature number that the text writes.
fn read_signature_number(text: &[u8], row_number: usize) -> Result<u32, TableError>
    ensures { result ≡ ok_or (positive_of text.now) (TableError.SignatureNumber row_number) }
{
    read_positive(text).ok_or(TableError::SignatureNumber { row: row_number })
}

// The position that the three texts write.
#[tactic(auto, unfolding(crate::specs::Rows::position_of))]
fn read_position(
    word: &[u8],
    offset: &[u8],
    max: &[u8],
    row_number: usize,
) -> Result<Position, TableError>
    ensures { Judges result (position_of row_number word.now offset.now max.now) }
{
    if word == b"BOF".as_slice() {
        let (min, max) = read_offsets(offset, max, row_number)?;
        return Ok(Position::Bof { min, max });
    }
    if word == b"EOF".as_slice() {
        let (min, max) = read_offsets(offset, max, row_number)?;
        return Ok(Position::Eof { min, max });
    }
    if word != b"Variable".as_slice() {
        return Err(TableError::Position { row: row_number });
    }
    if offset.is_empty() && max.is_empty() {
        Ok(Position::Variable)
    } else {
        Err(TableError::Offset { row: row_number })
    }
}

// The two offsets that the texts write.
fn read_offsets(offset: &[u8], max: &[u8], row_number: usize) -> Result<(u16, u16), TableError>
    ensures { Judges result (offsets_of row_number offset.now max.now) }
{
    read_range(offset, max).ok_or(TableError::Offset { row: row_number })
}

// The least offset and the greatest one, which equals it where its text is empty.
fn read_range(offset: &[u8], max: &[u8]) -> Option<(u16, u16)>
    ensures { result ≡ up_to (offset_of offset.now) max.now }
{
    let min = read_offset(offset)?;
    if max.is_empty() {
        return Some((min, min));
    }
    let max = read_offset(max)?;
    if max < min { None } else { Some((min, max)) }
}

/// The number of at most 65,535 that the text writes, if it writes one.
pub fn read_offset(text: &[u8]) -> Option<u16>
    ensures { result ≡ offset_of text.now }
{
    let number = read_number(text, 5)?;
    if number > MOST_OFFSET {
        return None;
    }
    Some(number as u16)
}

// The expression that the text spells.
fn read_expr(alloc: Global, text: &[u8], row_number: usize) -> Result<Expr, TableError>
    ensures { Judges result (items_in row_number (expr_of text.now)) }
{
    match parse(alloc, text) {
        Ok(expr) => Ok(expr),
        Err(ExprError::OutOfMemory) => Err(TableError::OutOfMemory),
        Err(error) => Err(TableError::Expression {
            row: row_number,
            error,
        }),
    }
}
