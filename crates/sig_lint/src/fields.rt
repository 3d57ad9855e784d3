//! The field of a row that is at fault.
//!
//! In `fmt/1,1,BOF,0,4.00E+05,4142` it is the greatest offset, since the offset is one. A fault
//! that no field has alone, as a row of five fields or a pair that stands twice, is one of the
//! record.

ghost use Rattle.std.specs.Prelude.{◌≡◌, if◌then◌else◌};
ghost use Rattle.csv.specs.Records.{fields_of};
ghost use Rattle.sig_lint.specs.Cures.{field_place};
ghost use Rattle.sig_lint.specs.Fields.{offset_field, priority_field, signature_field};

use crate::names::Names;
use crate::reading::text_at;
use csv::ByteRecord;
use sig_table::{Puid, TableError, read_offset};

/// The field of a row that is at fault, by the name that the header gives it.
#[derive(Clone, Copy, Debug, PartialEq, Eq)]
pub enum Field {
    /// No field alone.
    Record,
    Puid,
    Signature,
    Position,
    Offset,
    MaxOffset,
    Expression,
    Higher,
    Lower,
}

// The field of a row of the signature file.
#[tactic(auto, unfolding(crate::specs::Fields::signature_field))]
pub(crate) fn signature_field(record: &ByteRecord, error: TableError) -> Field
    ensures { result ≡ signature_field (fields_of «record».now) error }
{
    match error {
        TableError::Puid { .. } => Field::Puid,
        TableError::SignatureNumber { .. } => Field::Signature,
        TableError::Position { .. } => Field::Position,
        TableError::Offset { .. } => offset_field(text_at(record, 2), text_at(record, 3)),
        TableError::Expression { .. } => Field::Expression,
        TableError::SignatureOfTwo { .. } => Field::Signature,
        TableError::TooManySequences { .. } => Field::Signature,
        TableError::TooManySlots { .. } => Field::Expression,
        _ => Field::Record,
    }
}

fn offset_field(word: &[u8], offset: &[u8]) -> Field
    ensures { result ≡ offset_field word.now offset.now }
{
    let is_offset = if word == b"Variable".as_slice() {
        offset.is_empty()
    } else {
        read_offset(offset).is_some()
    };
    if is_offset {
        Field::MaxOffset
    } else {
        Field::Offset
    }
}

// The field of a row of the priority file.
#[tactic(auto, unfolding(crate::specs::Fields::priority_field))]
pub(crate) fn priority_field(names: &Names, record: &ByteRecord, error: TableError) -> Field
    ensures { result ≡ priority_field names.now (fields_of «record».now) error }
{
    let higher = text_at(record, 0);
    match error {
        TableError::Puid { .. } => lower_if(Puid::parse(higher).is_some()),
        TableError::PriorityUnknown { .. } => lower_if(names.has(higher)),
        _ => Field::Record,
    }
}

// The lower format's field, where the higher one's has no fault.
fn lower_if(higher_is_right: bool) -> Field
    ensures { result ≡ (if higher_is_right then Field.Lower else Field.Higher) }
{
    if higher_is_right {
        Field::Lower
    } else {
        Field::Higher
    }
}

// The place of the field, the first one where no field alone is at fault.
pub(crate) fn field_place(field: Field) -> usize
    ensures { result ≡ field_place field }
{
    match field {
        Field::Record | Field::Puid | Field::Higher => 0,
        Field::Signature | Field::Lower => 1,
        Field::Position => 2,
        Field::Offset => 3,
        Field::MaxOffset => 4,
        Field::Expression => 5,
    }
}
