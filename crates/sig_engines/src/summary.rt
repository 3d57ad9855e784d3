//! A line for each format: in how many lines of pairs it is, and in how many of each class. A
//! format with many lines is a loose one, and is to be mended before its pairs are looked at.
//!
//! Most lines first, and formats of equally many in table order. Each format is counted by going
//! through the notes of all lines; that is little beside the search for each line.

ghost use Rattle.std.specs.Prelude.{◌≡◌, ◌++◌, ◌<◌, ◌≤◌, IfOk, OnOk, decimal, filter, flat_map, length, map, string_bytes};
ghost use Rattle.sig_engines.specs.ClassTexts.{classes_text};
ghost use Rattle.std.specs.List.{range_with_len};
ghost use Rattle.sig_engines.specs.Notes.{formats_in, is_in, is_seen, is_unseen, lines_in, summary_line, summary_text};

use crate::note::Note;
use sig_find::PairClass;
use sig_table::{FormatId, Table};
use std::alloc::{AllocError, Global};
use std::fmt::Write;

/// The lines of all formats.
pub(crate) fn push_summary(
    alloc: Global,
    text: &mut String,
    table: &Table,
    notes: &[Note],
) -> Result<(), AllocError>
    ensures { OnOk result (string_bytes text.new ≡ string_bytes text.old ++ summary_text table.now notes.now) }
{
    let lines = lines_of_formats(alloc, table, notes)?;
    for fewer in 0..notes.len() + 1 {
        push_formats_in(text, table, notes, &lines, notes.len() - fewer)?;
    }
    Ok(())
}

// In how many lines each format is.
fn lines_of_formats(alloc: Global, table: &Table, notes: &[Note]) -> Result<Vec<usize>, AllocError>
    ensures { IfOk result (λ lines. lines.items ≡ map (lines_in notes.now) (range_with_len 0 (length table.now.formats))) }
{
    let mut lines = Vec::new(alloc);
    for format in 0..table.format_count() as u16 {
        lines.push(lines_in(notes, FormatId(format)))?;
    }
    Ok(lines)
}

// The lines of the formats that are in so many lines, in table order.
fn push_formats_in(
    text: &mut String,
    table: &Table,
    notes: &[Note],
    lines: &[usize],
    count: usize,
) -> Result<(), AllocError>
    requires { lines.now ≡ map (lines_in notes.now) (range_with_len 0 (length table.now.formats)) }
    ensures { OnOk result (string_bytes text.new ≡ string_bytes text.old
        ++ flat_map (summary_line table.now notes.now) (formats_in (length table.now.formats) notes.now count)) }
{
    for format in 0..table.format_count() as u16 {
        if lines[format as usize] == count {
            push_line(text, table, notes, FormatId(format))?;
        }
    }
    Ok(())
}

fn push_line(
    text: &mut String,
    table: &Table,
    notes: &[Note],
    format: FormatId,
) -> Result<(), AllocError>
    requires { format.0 < length table.now.formats }
    ensures { OnOk result (string_bytes text.new ≡ string_bytes text.old ++ summary_line table.now notes.now format.0) }
{
    let puid = table.puid(format);
    let lines = lines_in(notes, format);
    write!(text, "{puid} {lines}")?;
    push_classes(text, notes, format)?;
    let unknown = unknown_in(notes, format);
    writeln!(text, " unknown {unknown}")?;
    Ok(())
}

// How many lines of each class there are.
fn push_classes(text: &mut String, notes: &[Note], format: FormatId) -> Result<(), AllocError>
    ensures { OnOk result (string_bytes text.new ≡ string_bytes text.old ++ classes_text (λ class. length (filter (is_seen class format.0) notes.now))) }
{
    push_counted(text, " over ", seen_in(notes, PairClass::Over, format))?;
    push_counted(text, " under ", seen_in(notes, PairClass::Under, format))?;
    push_counted(text, " same ", seen_in(notes, PairClass::Same, format))?;
    push_counted(text, " apart ", seen_in(notes, PairClass::Apart, format))?;
    push_counted(text, " open ", seen_in(notes, PairClass::Open, format))
}

fn push_counted(text: &mut String, word: &str, count: usize) -> Result<(), AllocError>
    ensures { OnOk result (string_bytes text.new ≡ string_bytes text.old ++ (word.now ++ decimal count)) }
{
    write!(text, "{word}{count}")?;
    Ok(())
}

fn lines_in(notes: &[Note], format: FormatId) -> usize
    ensures { result ≡ lines_in notes.now format.0 }
{
    notes.iter().filter(|n| n.is_of(format)).count()
}

fn seen_in(notes: &[Note], class: PairClass, format: FormatId) -> usize
    ensures { result ≡ length (filter (is_seen class format.0) notes.now) }
{
    notes.iter().filter(|n| n.is_seen(class, format)).count()
}

fn unknown_in(notes: &[Note], format: FormatId) -> usize
    ensures { result ≡ length (filter (is_unseen format.0) notes.now) }
{
    notes.iter().filter(|n| n.is_unseen(format)).count()
}
