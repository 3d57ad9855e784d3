//! What is likely to mend a fault, guessed from the text that stands there.
//!
//! A spreadsheet leaves `4.00E+05` for 400000, `;` for the comma and `,,,,,` for a row that was
//! deleted. A signature that was copied from a registry has `Absolute from BOF`, `{4-}`, `[&01]` or
//! a quoted text. A guess may be wrong: what is wrong of a row the loader alone says.

ghost use Rattle.std.specs.Prelude.{◌≡◌, slice_index};
ghost use Rattle.std.specs.Char.{is_ascii_digit};
ghost use Rattle.std.specs.List.{list_all};
ghost use Rattle.csv.specs.Records.{fields_of};
ghost use Rattle.sig_lint.specs.Cures.{blank_cure, byte_cure, cure_for, expression_cure, has_byte, has_name, has_names, header_cure, is_header_but_case, is_header_in_any_case, is_pair_header_in_any_case, is_word_in_any_case, names_cure, number_cure, offset_cure, position_cure, puid_cure, separator_cure, slots_cure};

use crate::reading::text_at;
use csv::ByteRecord;
use sig_expr::ExprError;
use sig_table::{TableError, TableFile};

/// What is likely to mend a fault.
#[derive(Clone, Copy, Debug, PartialEq, Eq)]
pub enum Cure {
    /// The row has separators alone.
    RemoveRow,
    /// The fields stand apart by `;` or tabs.
    SeparateByCommas,
    /// The file is of UTF-16.
    SaveAsUtf8,
    /// The header is in capitals.
    WriteHeaderAsGiven,
    /// The columns are in another order.
    OrderColumns,
    /// The field has blanks or tabs.
    RemoveBlanks,
    /// The expression has quotes.
    RemoveQuotes,
    /// The number has an exponent or a point.
    WriteNumberOut,
    /// The gap has no greatest length, as `{4-}`.
    OpenGap,
    /// The bracket has a mask, as `[&01]`.
    ListBytes,
    /// The position is in capitals or not, or a registry's words, as `Absolute from BOF`.
    WritePositionAsGiven,
    /// The offset is above the greatest that can be used.
    LowerOffset,
}

// What is likely to mend the fault of a record, in the field of this text.
pub(crate) fn cure_for(record: &ByteRecord, text: &[u8], error: TableError) -> Option<Cure>
    ensures { result ≡ cure_for (fields_of «record».now) text.now error }
{
    match error {
        TableError::Header { file } => header_cure(record, file),
        TableError::Fields { .. } => separator_cure(text_at(record, 0)),
        TableError::Puid { .. } => puid_cure(record, text),
        TableError::SignatureNumber { .. } => number_cure(text),
        TableError::Position { .. } => position_cure(text),
        TableError::Offset { .. } => offset_cure(text),
        TableError::Expression { row: _, error } => expression_cure(text, error),
        TableError::TooManySlots { .. } => slots_cure(text_at(record, 2)),
        _ => None,
    }
}

#[tactic(auto, unfolding(crate::specs::Cures::header_cure))]
fn header_cure(record: &ByteRecord, file: TableFile) -> Option<Cure>
    ensures { result ≡ header_cure file (fields_of «record».now) }
{
    let first = text_at(record, 0);
    if has_byte(first, 0) {
        return Some(Cure::SaveAsUtf8);
    }
    if has_byte(first, b';') || has_byte(first, b'\t') {
        return Some(Cure::SeparateByCommas);
    }
    names_cure(record, file)
}

#[tactic(auto, unfolding(crate::specs::Cures::names_cure))]
fn names_cure(record: &ByteRecord, file: TableFile) -> Option<Cure>
    ensures { result ≡ names_cure file (fields_of «record».now) }
{
    if is_header_but_case(record, file) {
        Some(Cure::WriteHeaderAsGiven)
    } else if has_names(record, file) {
        Some(Cure::OrderColumns)
    } else {
        None
    }
}

#[tactic(auto, unfolding(crate::specs::Cures::is_header_but_case))]
fn is_header_but_case(record: &ByteRecord, file: TableFile) -> bool
    ensures { result ≡ is_header_but_case file (fields_of «record».now) }
{
    match file {
        TableFile::Signatures => is_header_in_any_case(record),
        TableFile::Priorities => is_pair_header_in_any_case(record),
    }
}

#[tactic(auto, unfolding(crate::specs::Cures::is_header_in_any_case))]
fn is_header_in_any_case(record: &ByteRecord) -> bool
    ensures { result ≡ is_header_in_any_case (fields_of «record».now) }
{
    is_word_in_any_case(text_at(record, 0), b"puid")
        && is_word_in_any_case(text_at(record, 1), b"signature")
        && is_word_in_any_case(text_at(record, 2), b"position")
        && is_word_in_any_case(text_at(record, 3), b"offset")
        && is_word_in_any_case(text_at(record, 4), b"max_offset")
        && is_word_in_any_case(text_at(record, 5), b"expression")
}

#[tactic(auto, unfolding(crate::specs::Cures::is_pair_header_in_any_case))]
fn is_pair_header_in_any_case(record: &ByteRecord) -> bool
    ensures { result ≡ is_pair_header_in_any_case (fields_of «record».now) }
{
    is_word_in_any_case(text_at(record, 0), b"higher")
        && is_word_in_any_case(text_at(record, 1), b"lower")
}

#[tactic(auto, unfolding(crate::specs::Cures::has_names))]
fn has_names(record: &ByteRecord, file: TableFile) -> bool
    ensures { result ≡ has_names file (fields_of «record».now) }
{
    match file {
        TableFile::Signatures => {
            has_name(record, b"puid")
                && has_name(record, b"signature")
                && has_name(record, b"position")
                && has_name(record, b"offset")
                && has_name(record, b"max_offset")
                && has_name(record, b"expression")
        }
        TableFile::Priorities => has_name(record, b"higher") && has_name(record, b"lower"),
    }
}

#[tactic(auto, unfolding(crate::specs::Cures::has_name))]
fn has_name(record: &ByteRecord, name: &[u8]) -> bool
    ensures { result ≡ has_name (fields_of «record».now) name.now }
{
    is_word_in_any_case(text_at(record, 0), name)
        || is_word_in_any_case(text_at(record, 1), name)
        || is_word_in_any_case(text_at(record, 2), name)
        || is_word_in_any_case(text_at(record, 3), name)
        || is_word_in_any_case(text_at(record, 4), name)
        || is_word_in_any_case(text_at(record, 5), name)
}

#[tactic(auto, unfolding(crate::specs::Cures::separator_cure))]
fn separator_cure(first: &[u8]) -> Option<Cure>
    ensures { result ≡ separator_cure first.now }
{
    if has_byte(first, b';') || has_byte(first, b'\t') {
        Some(Cure::SeparateByCommas)
    } else {
        None
    }
}

#[tactic(auto, unfolding(crate::specs::Cures::puid_cure))]
fn puid_cure(record: &ByteRecord, text: &[u8]) -> Option<Cure>
    ensures { result ≡ puid_cure (fields_of «record».now) text.now }
{
    let is_empty = text_at(record, 0).is_empty()
        && text_at(record, 1).is_empty()
        && text_at(record, 5).is_empty();
    if is_empty {
        Some(Cure::RemoveRow)
    } else {
        blank_cure(text)
    }
}

#[tactic(auto, unfolding(crate::specs::Cures::blank_cure))]
fn blank_cure(text: &[u8]) -> Option<Cure>
    ensures { result ≡ blank_cure text.now }
{
    if has_byte(text, b' ') || has_byte(text, b'\t') {
        Some(Cure::RemoveBlanks)
    } else {
        None
    }
}

#[tactic(auto, unfolding(crate::specs::Cures::number_cure))]
fn number_cure(text: &[u8]) -> Option<Cure>
    ensures { result ≡ number_cure text.now }
{
    if has_byte(text, b'E') || has_byte(text, b'e') || has_byte(text, b'.') {
        Some(Cure::WriteNumberOut)
    } else {
        blank_cure(text)
    }
}

#[tactic(auto, unfolding(crate::specs::Cures::position_cure))]
fn position_cure(text: &[u8]) -> Option<Cure>
    ensures { result ≡ position_cure text.now }
{
    let is_known = is_word_in_any_case(text, b"BOF")
        || is_word_in_any_case(text, b"EOF")
        || is_word_in_any_case(text, b"Variable")
        || is_word_in_any_case(text, b"Absolute from BOF")
        || is_word_in_any_case(text, b"Absolute from EOF");
    if is_known {
        Some(Cure::WritePositionAsGiven)
    } else {
        blank_cure(text)
    }
}

#[tactic(auto, unfolding(crate::specs::Cures::offset_cure))]
fn offset_cure(text: &[u8]) -> Option<Cure>
    ensures { result ≡ offset_cure text.now }
{
    let Some(first) = text.first() else {
        return None;
    };
    if *first == b'0' {
        return None;
    }
    if is_digits(text) {
        Some(Cure::LowerOffset)
    } else {
        number_cure(text)
    }
}

#[tactic(auto, unfolding(crate::specs::Cures::expression_cure))]
fn expression_cure(text: &[u8], error: ExprError) -> Option<Cure>
    ensures { result ≡ expression_cure text.now error }
{
    match error {
        ExprError::Syntax { place } => {
            byte_cure(byte_at(text, place), byte_at(text, place.saturating_sub(1)))
        }
        _ => None,
    }
}

#[tactic(auto, unfolding(crate::specs::Cures::byte_cure))]
fn byte_cure(byte: u8, before: u8) -> Option<Cure>
    ensures { result ≡ byte_cure byte before }
{
    if byte == b' ' || byte == b'\t' {
        return Some(Cure::RemoveBlanks);
    }
    if byte == b'"' || byte == b'\'' {
        return Some(Cure::RemoveQuotes);
    }
    if byte == b'}' && before == b'-' {
        return Some(Cure::OpenGap);
    }
    if byte == b'&' {
        return Some(Cure::ListBytes);
    }
    None
}

#[tactic(auto, unfolding(crate::specs::Cures::slots_cure))]
fn slots_cure(word: &[u8]) -> Option<Cure>
    ensures { result ≡ slots_cure word.now }
{
    if word == b"Variable".as_slice() {
        None
    } else {
        Some(Cure::LowerOffset)
    }
}

fn has_byte(text: &[u8], byte: u8) -> bool
    ensures { result ≡ has_byte byte text.now }
{
    text.iter().any(|b| *b == byte)
}

// The byte at a place, or 0 where there is none.
fn byte_at(text: &[u8], place: usize) -> u8
    ensures { result ≡ slice_index text.now place }
{
    match text.get(place) {
        Some(byte) => *byte,
        None => 0,
    }
}

fn is_digits(text: &[u8]) -> bool
    ensures { result ≡ list_all is_ascii_digit text.now }
{
    text.iter().all(|b| b.is_ascii_digit())
}

#[tactic(auto, unfolding(crate::specs::Cures::is_word_in_any_case))]
fn is_word_in_any_case(text: &[u8], word: &[u8]) -> bool
    ensures { result ≡ is_word_in_any_case text.now word.now }
{
    text.eq_ignore_ascii_case(word)
}
