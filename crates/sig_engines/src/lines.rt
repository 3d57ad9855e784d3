//! The lines that are answers: of `match`, `witness`, `find` and `check`.
//!
//! For a file that hits `fmt/1` by its signature 7 `match` has the line `fmt/1 7`; if it is one of
//! several files, its name and a tab come first. All lines of an answer are made here before one is
//! written, and only memory can run out. The lines of `conflicts` and `dead` are made by
//! `pair_lines`, `summary` and `fate_lines`.

ghost use Rattle.std.specs.Prelude.{◌≡◌, ◌++◌, ◌∷◌, [], All, codes, decimal, IfOk, IfSome, OnOk, option_map, Some, string_bytes};
ghost use Rattle.sig_engines.specs.Finding.{AreSignatures, IsKnown, found_text, hex_line, numbers_text};
ghost use Rattle.sig_engines.specs.Judged.{byte_text, refusal_text, row_text, table_text, verdict_line};
ghost use Rattle.sig_engines.specs.Lines.{IsOf, file_lines, line_head, line_of, no_hit_line};
ghost use Rattle.sig_engines.specs.Witnessed.{pair_text, witness_line};
ghost use Rattle.sig_cert.specs.Deciding.{AreFormats};

use sig_cert::CheckError;
use sig_core::Hit;
use sig_find::Found;
use sig_table::{FormatId, SigId, Table};
use std::alloc::{AllocError, Global};
use std::fmt::Write;

/// The lines of a file: one for each hit, in their order.
///
/// With a name, that of one of several files, each line begins with it and a tab, and where there
/// is no hit a line says so. The name is written byte by byte.
pub(crate) fn lines_of_file(
    alloc: Global,
    table: &Table,
    name: Option<&str>,
    hits: &[Hit],
) -> Result<String, AllocError>
    requires { All (IsOf table.now) hits.now }
    ensures { IfOk result (λ lines. string_bytes lines ≡ file_lines (option_map (λ n. n.now) name.entry) table.now hits.now) }
{
    let mut lines = String::new(alloc);
    for hit in hits {
        push_head(&mut lines, name)?;
        push_hit(&mut lines, table, *hit)?;
    }
    if hits.is_empty() {
        push_no_hit(&mut lines, name)?;
    }
    Ok(lines)
}

// What stands before a line of a file.
fn push_head(lines: &mut String, name: Option<&str>) -> Result<(), AllocError>
    ensures { OnOk result (string_bytes lines.new ≡ string_bytes lines.old ++ line_head (option_map (λ n. n.now) name.entry)) }
{
    if let Some(name) = name {
        lines.push_str(name)?;
        lines.push_str("\t")?;
    }
    Ok(())
}

// The line of one of several files that has no hit.
fn push_no_hit(lines: &mut String, name: Option<&str>) -> Result<(), AllocError>
    ensures { OnOk result (string_bytes lines.new ≡ string_bytes lines.old ++ no_hit_line (option_map (λ n. n.now) name.entry)) }
{
    if let Some(name) = name {
        lines.push_str(name)?;
        lines.push_str("\t-\n")?;
    }
    Ok(())
}

fn push_hit(lines: &mut String, table: &Table, hit: Hit) -> Result<(), AllocError>
    requires { IsOf table.now hit }
    ensures { OnOk result (string_bytes lines.new ≡ string_bytes lines.old ++ line_of table.now hit) }
{
    let puid = table.puid(table.format_of(hit.signature));
    let number = table.number_of(hit.signature);
    writeln!(lines, "{puid} {number}")?;
    Ok(())
}

/// The line of a file: the two formats that it leaves, or that it is not ambiguous.
pub(crate) fn line_of_witness(
    alloc: Global,
    table: &Table,
    two: Option<(FormatId, FormatId)>,
) -> Result<String, AllocError>
    requires { IfSome two (AreFormats table.now) }
    ensures { IfOk result (λ line. string_bytes line ≡ witness_line table.now two) }
{
    let mut line = String::new(alloc);
    match two {
        Some((a, b)) => {
            line.push_str("ambiguous ")?;
            push_pair(&mut line, table, a, b)?;
        }
        None => line.push_str("not ambiguous\n")?,
    }
    Ok(line)
}

/// The lines of what was found: what it is, and with `with_hex` its bytes in hexadecimal.
pub(crate) fn lines_of_found(
    alloc: Global,
    table: &Table,
    found: &Found,
    with_hex: bool,
) -> Result<String, AllocError>
    requires { IsKnown table.now found.now }
    ensures { IfOk result (λ lines. string_bytes lines ≡ found_text with_hex table.now found.now) }
{
    let mut lines = String::new(alloc);
    match found {
        Found::Certificate(certificate) => {
            lines.push_str("decided\n")?;
            push_hex(alloc, &mut lines, with_hex, certificate)?;
        }
        Found::Witness { file, a, b } => {
            lines.push_str("witness ")?;
            push_pair(&mut lines, table, *a, *b)?;
            push_hex(alloc, &mut lines, with_hex, file)?;
        }
        Found::GaveUp { s, t } => {
            lines.push_str("gave up ")?;
            push_numbers(&mut lines, table, *s, *t)?;
        }
    }
    Ok(lines)
}

// The bytes in lower case hexadecimal, where they are asked for, and the end of the line.
fn push_hex(
    alloc: Global,
    lines: &mut String,
    with_hex: bool,
    bytes: &[u8],
) -> Result<(), AllocError>
    ensures { OnOk result (string_bytes lines.new ≡ string_bytes lines.old ++ hex_line with_hex (Some bytes.now)) }
{
    if with_hex {
        let digits = hex::encode(alloc, bytes)?;
        lines.push_str(digits.as_str())?;
        lines.push_str("\n")?;
    }
    Ok(())
}

// The numbers of two signatures, and the end of the line.
fn push_numbers(line: &mut String, table: &Table, s: SigId, t: SigId) -> Result<(), AllocError>
    requires { AreSignatures table.now s t }
    ensures { OnOk result (string_bytes line.new ≡ string_bytes line.old ++ numbers_text table.now s t) }
{
    let first_number = table.number_of(s);
    let second_number = table.number_of(t);
    writeln!(line, "{first_number} {second_number}")?;
    Ok(())
}

// The names of two formats, and the end of the line.
fn push_pair(line: &mut String, table: &Table, a: FormatId, b: FormatId) -> Result<(), AllocError>
    requires { AreFormats table.now (a, b) }
    ensures { OnOk result (string_bytes line.new ≡ string_bytes line.old ++ pair_text table.now (a, b)) }
{
    let first = table.puid(a);
    let second = table.puid(b);
    writeln!(line, "{first} {second}")?;
    Ok(())
}

/// The line of a verdict on a certificate.
pub(crate) fn line_of_verdict(
    alloc: Global,
    verdict: Result<(), CheckError>,
) -> Result<String, AllocError>
    ensures { IfOk result (λ line. string_bytes line ≡ verdict_line verdict) }
{
    let mut line = String::new(alloc);
    match verdict {
        Ok(()) => line.push_str("accepted")?,
        Err(fault) => {
            line.push_str("refused ")?;
            push_refusal(&mut line, fault)?;
        }
    }
    line.push_str("\n")?;
    Ok(line)
}

// Why a certificate is refused, and where.
fn push_refusal(line: &mut String, fault: CheckError) -> Result<(), AllocError>
    ensures { OnOk result (string_bytes line.new ≡ string_bytes line.old ++ refusal_text fault) }
{
    match fault {
        CheckError::Magic => line.push_str("C1 magic"),
        CheckError::Version => line.push_str("C2 version"),
        CheckError::PairCount => line.push_str("C3 pair count"),
        CheckError::Kind { pair } => push_numbered(line, "C4 kind pair ", pair),
        CheckError::Blockers { pair, table } => push_at_table(line, "C5 blockers", pair, table),
        CheckError::RowForm { pair, table, row } => {
            push_at_row(line, "C6 row form", pair, table, row)
        }
        CheckError::RowOrder { pair, table, row } => {
            push_at_row(line, "C7 row order", pair, table, row)
        }
        CheckError::NoStart { pair, table } => push_at_table(line, "C8 no start", pair, table),
        CheckError::Bad { pair, table, row } => push_at_row(line, "C9 bad", pair, table, row),
        CheckError::NotClosed {
            pair,
            table,
            row,
            byte,
        } => {
            push_at_row(line, "C10 not closed", pair, table, row)?;
            push_byte(line, byte)
        }
        CheckError::Trailing => line.push_str("C11 trailing"),
        CheckError::Truncated => line.push_str("C12 truncated"),
        CheckError::OutOfMemory => line.push_str("C13 out of memory"),
    }
}

/// A text and a number behind it.
pub(crate) fn push_numbered(line: &mut String, text: &str, number: u32) -> Result<(), AllocError>
    ensures { OnOk result (string_bytes line.new ≡ string_bytes line.old ++ (text.now ++ decimal number)) }
{
    write!(line, "{text}{number}")?;
    Ok(())
}

// A text and a table behind it.
fn push_at_table(line: &mut String, text: &str, pair: u32, table: u32) -> Result<(), AllocError>
    ensures { OnOk result (string_bytes line.new ≡ string_bytes line.old ++ (text.now ++ table_text pair table)) }
{
    write!(line, "{text} pair {pair} table {table}")?;
    Ok(())
}

// A text and a row behind it.
fn push_at_row(
    line: &mut String,
    text: &str,
    pair: u32,
    table: u32,
    row: u32,
) -> Result<(), AllocError>
    ensures { OnOk result (string_bytes line.new ≡ string_bytes line.old ++ (text.now ++ row_text pair table row)) }
{
    push_at_table(line, text, pair, table)?;
    push_numbered(line, " row ", row)
}

fn push_byte(line: &mut String, byte: u8) -> Result<(), AllocError>
    ensures { OnOk result (string_bytes line.new ≡ string_bytes line.old ++ (codes " byte " ++ byte_text byte)) }
{
    write!(line, " byte {byte:02X}")?;
    Ok(())
}
