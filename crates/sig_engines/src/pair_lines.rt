//! The lines of `conflicts`, as `ambiguous fmt/1 fmt/2 1 2 3 under`: two formats, a signature of
//! each, the length of a file that gets both, and with `--class` the class of the pair.
//!
//! A line is made whole in memory and written by one write, so a failed write leaves a prefix of
//! that line alone. A decided pair has no line and costs no memory. The lines of `--summary` are
//! made by `summary`.

ghost use Rattle.std.specs.Prelude.{◌≡◌, ◌+◌, ◌++◌, ◌^◌, ◌<◌, IfOk, OnOk, string_bytes};
ghost use Rattle.sig_engines.specs.ClassTexts.{class_word, classes_text};
ghost use Rattle.sig_engines.specs.Conflicts.{counted_class, counts_line, decision_line, file_text, pairs_in};
ghost use Rattle.sig_engines.specs.Texts.{hex_text, product_text};
ghost use Rattle.sig_engines.specs.Finding.{AreSignatures};
ghost use Rattle.sig_cert.specs.Deciding.{AreFormats};
ghost use Rattle.sig_find.specs.FormatPairs.{NamesSignatures};

use crate::counts::Counts;
use crate::lines::push_numbered;
use sig_find::{PairClass, PairDecision};
use sig_table::{FormatId, SigId, Table};
use std::alloc::{AllocError, Global};
use std::fmt::Write;

/// The line of two formats that are not decided, and nothing for others. An ambiguous pair has its
/// class if it has one, and with `with_hex` the bytes of its file.
pub(crate) fn line_of_pair(
    alloc: Global,
    table: &Table,
    a: FormatId,
    b: FormatId,
    decision: &PairDecision,
    class: Option<PairClass>,
    with_hex: bool,
) -> Result<String, AllocError>
    requires formats { AreFormats table.now (a, b) }
    requires signatures { NamesSignatures table.now (a.0, b.0) decision.now }
    ensures { IfOk result (λ line. string_bytes line ≡ decision_line with_hex table.now (a.0, b.0) decision.now class) }
{
    let mut line = String::new(alloc);
    match decision {
        PairDecision::Decided => {}
        PairDecision::Ambiguous { s, t, file } => {
            line.push_str("ambiguous")?;
            push_product(&mut line, table, a, b, *s, *t)?;
            push_file(alloc, &mut line, "", class, with_hex, file)?;
        }
        PairDecision::Tried { s, t, file } => {
            line.push_str("ambiguous")?;
            push_product(&mut line, table, a, b, *s, *t)?;
            push_file(alloc, &mut line, " tried", class, with_hex, file)?;
        }
        PairDecision::Unknown { s, t } => {
            line.push_str("unknown")?;
            push_product(&mut line, table, a, b, *s, *t)?;
            line.push_str("\n")?;
        }
    }
    Ok(line)
}

// Two formats and a signature of each, with a space before each.
fn push_product(
    line: &mut String,
    table: &Table,
    a: FormatId,
    b: FormatId,
    s: SigId,
    t: SigId,
) -> Result<(), AllocError>
    requires formats { AreFormats table.now (a, b) }
    requires signatures { AreSignatures table.now s t }
    ensures { OnOk result (string_bytes line.new ≡ string_bytes line.old ++ product_text table.now (a.0, b.0) s.0 t.0) }
{
    let first = table.puid(a);
    let second = table.puid(b);
    let first_number = table.number_of(s);
    let second_number = table.number_of(t);
    write!(line, " {first} {second} {first_number} {second_number}")?;
    Ok(())
}

// What a line says of a file: its length, a word, its class, and its bytes if they are asked for.
fn push_file(
    alloc: Global,
    line: &mut String,
    word: &str,
    class: Option<PairClass>,
    with_hex: bool,
    file: &[u8],
) -> Result<(), AllocError>
    ensures { OnOk result (string_bytes line.new ≡ string_bytes line.old ++ file_text word.now class with_hex file.now) }
{
    let length = file.len();
    write!(line, " {length}{word}")?;
    if let Some(class) = class {
        line.push_str(word_of(class))?;
    }
    push_hex(alloc, line, with_hex, file)?;
    line.push_str("\n")?;
    Ok(())
}

// The word of a class, with a space before it.
fn word_of(class: PairClass) -> &'static str
    ensures { result.now ≡ class_word class }
{
    match class {
        PairClass::Over => " over",
        PairClass::Under => " under",
        PairClass::Same => " same",
        PairClass::Apart => " apart",
        PairClass::Open => " open",
    }
}

/// A space and the bytes in lower case hexadecimal, where they are asked for and there are any.
pub(crate) fn push_hex(
    alloc: Global,
    line: &mut String,
    with_hex: bool,
    bytes: &[u8],
) -> Result<(), AllocError>
    ensures { OnOk result (string_bytes line.new ≡ string_bytes line.old ++ hex_text with_hex bytes.now) }
{
    if with_hex && !bytes.is_empty() {
        let digits = hex::encode(alloc, bytes)?;
        line.push_str(" ")?;
        line.push_str(digits.as_str())?;
    }
    Ok(())
}

/// The last line: how many pairs there are, and how many of each kind, and with `classes` how many
/// of each class.
pub(crate) fn line_of_counts(
    alloc: Global,
    counts: Counts,
    classes: bool,
) -> Result<String, AllocError>
    requires { pairs_in counts < 2 ^ 32 }
    ensures { IfOk result (λ line. string_bytes line ≡ counts_line classes counts) }
{
    let mut line = String::new(alloc);
    push_numbered(&mut line, "pairs ", counts.pairs())?;
    push_numbered(&mut line, " decided ", counts.decided)?;
    push_numbered(&mut line, " ambiguous ", counts.ambiguous)?;
    push_numbered(&mut line, " unknown ", counts.unknown)?;
    if classes {
        push_classes(&mut line, counts)?;
    }
    line.push_str("\n")?;
    Ok(line)
}

// How many pairs there are of each class.
fn push_classes(line: &mut String, counts: Counts) -> Result<(), AllocError>
    ensures { OnOk result (string_bytes line.new ≡ string_bytes line.old ++ classes_text (counted_class counts)) }
{
    push_numbered(line, " over ", counts.over)?;
    push_numbered(line, " under ", counts.under)?;
    push_numbered(line, " same ", counts.same)?;
    push_numbered(line, " apart ", counts.apart)?;
    push_numbered(line, " open ", counts.open)
}
