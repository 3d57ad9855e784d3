//! The text of a fault, as it stands behind its code.
//!
//! `max_offset "4.00E+05": expected a number from 0 to 65535, ..; write the number in digits alone`
//! says the field, what stands there, what was expected and what is likely to mend it. Bytes that
//! no column shows are written as `\x09`, and long texts are cut.

ghost use Rattle.std.specs.Prelude.{◌≡◌, ◌++◌, ◌<◌, [], IfOk, OnOk, codes, decimal, flat_map, take};
ghost use Rattle.csv.specs.Records.{fields_of};
ghost use Rattle.sig_lint.specs.Details.{cure_text, details_of, expected, expected_expression, expression_place, field_name, hex_digit, place_text, shown, shown_byte, shown_field};

use crate::reading::text_at;
use crate::{Cure, Fault, Field};
use csv::ByteRecord;
use sig_expr::ExprError;
use sig_table::{TableError, TableFile};
use std::alloc::{AllocError, Global};

// How many bytes of a text are shown.
const MOST_SHOWN: usize = 60;

impl Fault {
    /// The field, what stands there, what was expected, and what is likely to mend it.
    #[tactic(auto, unfolding(crate::specs::Details::details_of))]
    pub fn details(&self, alloc: Global) -> Result<Vec<u8>, AllocError>
        ensures { IfOk result (λ text. text.items ≡ details_of self.now) }
    {
        let mut out = Vec::new(alloc);
        put(&mut out, field_name(self.field()))?;
        put(&mut out, " \"")?;
        put_field(&mut out, self.field(), self.record(), self.text())?;
        put(&mut out, "\"")?;
        put_place(alloc, &mut out, self.error())?;
        put(&mut out, ": expected ")?;
        put(&mut out, expected(self.error()))?;
        put(&mut out, cure_text(self.cure()))?;
        Ok(out)
    }
}

pub(crate) fn put(out: &mut Vec<u8>, text: &str) -> Result<(), AllocError>
    ensures { OnOk result (out.new.items ≡ out.old.items ++ text.now) }
{
    out.extend_from_slice(text.as_bytes())
}

pub(crate) fn put_number(alloc: Global, out: &mut Vec<u8>, number: u64) -> Result<(), AllocError>
    ensures { OnOk result (out.new.items ≡ out.old.items ++ decimal number) }
{
    let text = format!(in alloc; "{number}")?;
    put(out, text.as_str())
}

fn put_field(
    out: &mut Vec<u8>,
    field: Field,
    record: &ByteRecord,
    text: &[u8],
) -> Result<(), AllocError>
    ensures { OnOk result (out.new.items ≡ out.old.items ++ shown_field field (fields_of «record».now) text.now) }
{
    match field {
        Field::Record => put_record(out, record),
        _ => put_shown(out, text),
    }
}

// The first fields of a record.
fn put_record(out: &mut Vec<u8>, record: &ByteRecord) -> Result<(), AllocError>
    ensures { OnOk result (out.new.items ≡ out.old.items ++ shown_field Field.Record (fields_of «record».now) []) }
{
    put_shown(out, text_at(record, 0))?;
    if record.len() > 1 {
        put(out, ",")?;
        put_shown(out, text_at(record, 1))?;
    }
    Ok(())
}

// The first bytes of a text.
#[tactic(auto, unfolding(crate::specs::Details::shown))]
fn put_shown(out: &mut Vec<u8>, text: &[u8]) -> Result<(), AllocError>
    ensures { OnOk result (out.new.items ≡ out.old.items ++ shown text.now) }
{
    put_bytes(out, first_bytes(text))?;
    if text.len() > MOST_SHOWN {
        put(out, "..")?;
    }
    Ok(())
}

fn first_bytes(text: &[u8]) -> &[u8]
    ensures { result.now ≡ take 60 text.now }
{
    if text.len() > MOST_SHOWN {
        &text[..MOST_SHOWN]
    } else {
        text
    }
}

fn put_bytes(out: &mut Vec<u8>, text: &[u8]) -> Result<(), AllocError>
    ensures { OnOk result (out.new.items ≡ out.old.items ++ flat_map shown_byte text.now) }
{
    for byte in text {
        put_byte(out, *byte)?;
    }
    Ok(())
}

#[tactic(auto, unfolding(crate::specs::Details::shown_byte))]
fn put_byte(out: &mut Vec<u8>, byte: u8) -> Result<(), AllocError>
    ensures { OnOk result (out.new.items ≡ out.old.items ++ shown_byte byte) }
{
    if byte < b' ' || byte > b'~' || byte == b'"' || byte == b'\\' {
        return out.extend_from_slice(&[b'\\', b'x', hex_digit(byte / 16), hex_digit(byte % 16)]);
    }
    out.extend_from_slice(&[byte])
}

fn hex_digit(number: u8) -> u8
    requires { number < 16 }
    ensures { result ≡ hex_digit number }
{
    if number < 10 {
        b'0' + number
    } else {
        55 + number
    }
}

fn field_name(field: Field) -> &'static str
    ensures { result.now ≡ field_name field }
{
    match field {
        Field::Record => "record",
        Field::Puid => "puid",
        Field::Signature => "signature",
        Field::Position => "position",
        Field::Offset => "offset",
        Field::MaxOffset => "max_offset",
        Field::Expression => "expression",
        Field::Higher => "higher",
        Field::Lower => "lower",
    }
}

fn expected(error: TableError) -> &'static str
    ensures { result.now ≡ expected error }
{
    match error {
        TableError::Header {
            file: TableFile::Signatures,
        } => "the header puid,signature,position,offset,max_offset,expression",
        TableError::Header {
            file: TableFile::Priorities,
        } => "the header higher,lower",
        TableError::Fields {
            file: TableFile::Signatures,
            ..
        } => "six fields",
        TableError::Fields {
            file: TableFile::Priorities,
            ..
        } => "two fields",
        TableError::Puid { .. } => "fmt/ or x-fmt/ and a number from 1 to 999999999",
        TableError::SignatureNumber { .. } => "a number from 1 to 999999999",
        TableError::Position { .. } => "BOF, EOF or Variable",
        TableError::Offset { .. } =>
            "a number from 0 to 65535, the greatest offset not below the offset or left out; none at Variable",
        TableError::Expression { row: _, error } => expected_expression(error),
        TableError::SignatureOfTwo { .. } => "a number that no other format has",
        TableError::TooManySequences { .. } => "at most 8 sequences of a signature",
        TableError::TooManySlots { .. } => "at most 65535 slots, those of the offset among them",
        TableError::TooManyFormats { .. } => "at most 1000 formats and 4000 signatures",
        TableError::PriorityUnknown { .. } => "a PUID that the signature file names",
        TableError::PrioritySelf { .. } => "two formats",
        TableError::PriorityTwice { .. } => "a pair that no earlier row has",
        TableError::PriorityCycle { .. } =>
            "no way by earlier rows from the second format down to the first",
        TableError::Read { .. } => "a file that can be read",
        TableError::OutOfMemory => "more memory",
    }
}

fn expected_expression(error: ExprError) -> &'static str
    ensures { result.now ≡ expected_expression error }
{
    match error {
        ExprError::TooLong => "at most 8192 bytes",
        ExprError::Syntax { .. } => "an expression that goes on from the bytes before it",
        ExprError::GapNumber { .. } => "at most 65535",
        ExprError::GapEmpty { .. } => "a gap of a byte or more",
        ExprError::GapOrder { .. } => "the least length before the greatest",
        ExprError::RangeOrder { .. } => "the lower end before the higher",
        ExprError::ClassEmpty { .. } => "a bracket that leaves a word",
        ExprError::OutOfMemory => "more memory",
        ExprError::RangeLength { .. } => "two ends of one length",
        ExprError::BracketTooLong { .. } => "ends of at most 8 bytes",
    }
}

// The place in an expression, if there is one.
fn put_place(alloc: Global, out: &mut Vec<u8>, error: TableError) -> Result<(), AllocError>
    ensures { OnOk result (out.new.items ≡ out.old.items ++ place_text error) }
{
    match error {
        TableError::Expression { row: _, error } => put_expression_place(alloc, out, error),
        _ => Ok(()),
    }
}

fn put_expression_place(
    alloc: Global,
    out: &mut Vec<u8>,
    error: ExprError,
) -> Result<(), AllocError>
    ensures { OnOk result (out.new.items ≡ out.old.items ++ expression_place error) }
{
    match error {
        ExprError::TooLong | ExprError::OutOfMemory => Ok(()),
        ExprError::Syntax { place }
        | ExprError::GapNumber { place }
        | ExprError::GapEmpty { place }
        | ExprError::GapOrder { place }
        | ExprError::RangeOrder { place }
        | ExprError::ClassEmpty { place }
        | ExprError::RangeLength { place }
        | ExprError::BracketTooLong { place } => put_at(alloc, out, place),
    }
}

fn put_at(alloc: Global, out: &mut Vec<u8>, place: usize) -> Result<(), AllocError>
    ensures { OnOk result (out.new.items ≡ out.old.items ++ (codes " at " ++ decimal place)) }
{
    let text = format!(in alloc; " at {place}")?;
    put(out, text.as_str())
}

fn cure_text(cure: Option<Cure>) -> &'static str
    ensures { result.now ≡ cure_text cure }
{
    match cure {
        None => "",
        Some(Cure::RemoveRow) => "; remove the row",
        Some(Cure::SeparateByCommas) => "; separate the fields by commas",
        Some(Cure::SaveAsUtf8) => "; save the file as UTF-8",
        Some(Cure::WriteHeaderAsGiven) => "; write the header in small letters",
        Some(Cure::OrderColumns) => "; put the columns in the order of the header",
        Some(Cure::RemoveBlanks) => "; remove blanks and tabs",
        Some(Cure::RemoveQuotes) => "; write the quoted text as pairs of hexadecimal digits",
        Some(Cure::WriteNumberOut) => "; write the number in digits alone",
        Some(Cure::OpenGap) => "; write an open gap as {4-*}",
        Some(Cure::ListBytes) => "; write the bytes of the mask as a list, as (01|03)",
        Some(Cure::WritePositionAsGiven) => "; write the word alone, as it is given",
        Some(Cure::LowerOffset) => "; lower the offset",
    }
}
