//! What is written of a file that is matched by its name: its lines, or records of CSV.
//!
//! For a file `a.bin` that hits `fmt/1` by its signature 7 the line is `a.bin`, a tab and
//! `fmt/1 7`, and the record is `a.bin,fmt/1,7,`. With the names of formats the line goes on with a
//! tab and the name of `fmt/1`, and the last field of the record is that name.

ghost use Rattle.std.specs.Prelude.{◌≡◌, ◌++◌, ◌∷◌, [], All, IfOk, OnOk, Some, map, string_bytes};
ghost use Rattle.csv.specs.Records.{fields_of};
ghost use Rattle.csv.specs.Writing.{default_writer, row_text};
ghost use Rattle.sig_engines.specs.FileTexts.{file_records, file_text, hit_record, name_text, named_line, named_lines, no_hit_record};
ghost use Rattle.sig_engines.specs.Lines.{IsOf, no_hit_line};
ghost use Rattle.sig_engines.specs.Texts.{format_text, signature_text};

use crate::ask::MatchAsk;
use crate::format_names::FormatNames;
use crate::lines::lines_of_file;
use csv::{ByteRecord, Writer};
use sig_core::Hit;
use sig_table::Table;
use std::alloc::{AllocError, Global};

/// The text of a file with these hits: its lines, or with `csv` its records. The names of the file
/// and of the formats are written byte by byte.
pub(crate) fn text_of_file(
    alloc: Global,
    table: &Table,
    ask: MatchAsk<'_>,
    name: &str,
    hits: &[Hit],
) -> Result<Vec<u8>, AllocError>
    requires { All (IsOf table.now) hits.now }
    ensures { IfOk result (λ text. text.items ≡ file_text ask.entry.csv ask.entry.names name.now table.now hits.now) }
{
    if ask.csv {
        return records_of_file(alloc, table, ask.names, name, hits);
    }
    match ask.names {
        Some(names) => named_lines(alloc, table, names, name, hits),
        None => {
            let lines = lines_of_file(alloc, table, Some(name), hits)?;
            Ok(lines.into_bytes())
        }
    }
}

// The lines of a file, with the names of its formats.
fn named_lines(
    alloc: Global,
    table: &Table,
    names: &FormatNames,
    name: &str,
    hits: &[Hit],
) -> Result<Vec<u8>, AllocError>
    requires { All (IsOf table.now) hits.now }
    ensures { IfOk result (λ text. text.items ≡ named_lines names.now name.now table.now hits.now) }
{
    let mut text = Vec::new(alloc);
    for hit in hits {
        push_line(alloc, &mut text, table, names, name, *hit)?;
    }
    if hits.is_empty() {
        push_no_line(&mut text, name)?;
    }
    Ok(text)
}

// Adds the line of a hit.
fn push_line(
    alloc: Global,
    text: &mut Vec<u8>,
    table: &Table,
    names: &FormatNames,
    name: &str,
    hit: Hit,
) -> Result<(), AllocError>
    requires { IsOf table.now hit }
    ensures { OnOk result (text.new.items ≡ text.old.items ++ named_line names.now name.now table.now hit) }
{
    let puid = table.puid(table.format_of(hit.signature));
    let number = table.number_of(hit.signature);
    let line = format!(in alloc; "{name}\t{puid} {number}\t")?;
    text.extend_from_slice(line.as_bytes())?;
    text.extend_from_slice(names.name_of(&puid))?;
    text.extend_from_slice(b"\n")
}

// Adds the line of a file that has no hit.
fn push_no_line(text: &mut Vec<u8>, name: &str) -> Result<(), AllocError>
    ensures { OnOk result (text.new.items ≡ text.old.items ++ no_hit_line (Some name.now)) }
{
    text.extend_from_slice(name.as_bytes())?;
    text.extend_from_slice(b"\t-\n")
}

// The records of a file: one for each hit, in their order, or one with the name alone.
fn records_of_file(
    alloc: Global,
    table: &Table,
    names: Option<&FormatNames>,
    name: &str,
    hits: &[Hit],
) -> Result<Vec<u8>, AllocError>
    requires { All (IsOf table.now) hits.now }
    ensures { IfOk result (λ text. text.items ≡ file_records names.entry name.now table.now hits.now) }
{
    let mut text = Vec::new(alloc);
    for hit in hits {
        push_hit(alloc, &mut text, table, names, name, *hit)?;
    }
    if hits.is_empty() {
        push_no_hit(alloc, &mut text, name)?;
    }
    Ok(text)
}

// Adds the record of a file that has no hit.
fn push_no_hit(alloc: Global, text: &mut Vec<u8>, name: &str) -> Result<(), AllocError>
    ensures { OnOk result (text.new.items ≡ text.old.items ++ row_text default_writer (no_hit_record name.now)) }
{
    let record = record_text(alloc, &[name.as_bytes(), b"", b"", b""])?;
    text.extend_from_slice(&record)
}

// Adds the record of a hit.
fn push_hit(
    alloc: Global,
    text: &mut Vec<u8>,
    table: &Table,
    names: Option<&FormatNames>,
    name: &str,
    hit: Hit,
) -> Result<(), AllocError>
    requires { IsOf table.now hit }
    ensures { OnOk result (text.new.items ≡ text.old.items ++ row_text default_writer (hit_record names.entry name.now table.now hit)) }
{
    let puid = puid_text(alloc, table, hit)?;
    let number = number_text(alloc, table, hit)?;
    let record = record_text(
        alloc,
        &[
            name.as_bytes(),
            puid.as_bytes(),
            number.as_bytes(),
            name_text(names, table, hit),
        ],
    )?;
    text.extend_from_slice(&record)
}

fn puid_text(alloc: Global, table: &Table, hit: Hit) -> Result<String, AllocError>
    requires { IsOf table.now hit }
    ensures { IfOk result (λ text. string_bytes text ≡ format_text table.now hit.format.0) }
{
    table.puid(table.format_of(hit.signature)).to_string(alloc)
}

fn number_text(alloc: Global, table: &Table, hit: Hit) -> Result<String, AllocError>
    requires { IsOf table.now hit }
    ensures { IfOk result (λ text. string_bytes text ≡ signature_text table.now hit.signature.0) }
{
    let number = table.number_of(hit.signature);
    format!(in alloc; "{number}")
}

// The name of the format that is hit; nothing where no names are known.
fn name_text<'n>(names: Option<&'n FormatNames>, table: &Table, hit: Hit) -> &'n [u8]
    requires { IsOf table.now hit }
    ensures { result.now ≡ name_text names.entry table.now hit.format.0 }
{
    match names {
        Some(names) => names.name_of(&table.puid(table.format_of(hit.signature))),
        None => &[],
    }
}

// The text of a record, as `csv` writes it by default.
fn record_text(alloc: Global, fields: &[&[u8]]) -> Result<Vec<u8>, AllocError>
    ensures { IfOk result (λ text. text.items ≡ row_text default_writer (map (λ f. f.now) fields.now)) }
{
    let record = ByteRecord::from_fields(alloc, fields)?;
    let mut writer = Writer::from_writer(Vec::new(alloc));
    writer.write_byte_record(&record).map_err(|_| AllocError)?;
    writer.into_inner().map_err(|_| AllocError)
}
