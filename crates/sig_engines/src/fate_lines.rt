//! The lines of `dead`: `dead fmt/3` of a format that no file leaves, `dead fmt/1 2` of such a
//! signature of a format that is alive.
//!
//! A format that is alive has no line of its own. A signature that is alive has one only with
//! `--hex`, with the bytes of its file. The last line has all counts.

ghost use Rattle.std.specs.Prelude.{◌≡◌, ◌<◌, ◌++◌, ◌∷◌, [], All, IfOk, OnOk, count_by, flat_map, length, string_bytes};
ghost use Rattle.sig_engines.specs.Texts.{format_text, signature_text};
ghost use Rattle.sig_engines.specs.Fates.{fate_lines, fates_line, fates_text, format_line, is_dead, life_line};
ghost use Rattle.sig_find.specs.Lives.{is_alive, is_unknown};

use crate::pair_lines::push_hex;
use sig_find::{Fate, Life, SignatureLife};
use sig_table::{FormatId, SigId, Table};
use std::alloc::{AllocError, Global};
use std::fmt::Write;

/// The lines of a format. With `with_hex` each signature that is alive has one with the bytes of
/// its file.
pub(crate) fn lines_of_fate(
    alloc: Global,
    table: &Table,
    format: FormatId,
    fate: Fate,
    lives: &[SignatureLife],
    with_hex: bool,
) -> Result<String, AllocError>
    requires format { format.0 < length table.now.formats }
    requires signatures { All (λ l. l.signature.0 < length table.now.signatures) lives.now }
    ensures { IfOk result (λ lines. string_bytes lines ≡ fate_lines with_hex table.now format.0 fate lives.now) }
{
    let mut lines = String::new(alloc);
    match fate {
        Fate::Alive => push_lives(alloc, &mut lines, table, format, lives, with_hex)?,
        Fate::Dead => push_format(&mut lines, "dead", table, format)?,
        Fate::Unknown => push_format(&mut lines, "unknown", table, format)?,
    }
    Ok(lines)
}

// The lines of the signatures of a format that is alive.
fn push_lives(
    alloc: Global,
    lines: &mut String,
    table: &Table,
    format: FormatId,
    lives: &[SignatureLife],
    with_hex: bool,
) -> Result<(), AllocError>
    requires format { format.0 < length table.now.formats }
    requires signatures { All (λ l. l.signature.0 < length table.now.signatures) lives.now }
    ensures { OnOk result (string_bytes lines.new ≡ string_bytes lines.old ++ flat_map (λ l. life_line with_hex table.now format.0 l.signature.0 l.life) lives.now) }
{
    for life in lives {
        push_life(alloc, lines, table, format, life, with_hex)?;
    }
    Ok(())
}

fn push_life(
    alloc: Global,
    lines: &mut String,
    table: &Table,
    format: FormatId,
    found: &SignatureLife,
    with_hex: bool,
) -> Result<(), AllocError>
    requires format { format.0 < length table.now.formats }
    requires signature { found.now.signature.0 < length table.now.signatures }
    ensures { OnOk result (string_bytes lines.new ≡ string_bytes lines.old ++ life_line with_hex table.now format.0 found.now.signature.0 found.now.life) }
{
    match &found.life {
        Life::Alive(file) => {
            if with_hex {
                push_signature(lines, "alive", table, format, found.signature)?;
                let length = file.len();
                write!(lines, " {length}")?;
                push_hex(alloc, lines, true, file)?;
                lines.push_str("\n")?;
            }
        }
        Life::Dead => {
            push_signature(lines, "dead", table, format, found.signature)?;
            lines.push_str("\n")?;
        }
        Life::Unknown => {
            push_signature(lines, "unknown", table, format, found.signature)?;
            lines.push_str("\n")?;
        }
    }
    Ok(())
}

// A word, a format and a signature of it, with a space between them.
fn push_signature(
    lines: &mut String,
    word: &str,
    table: &Table,
    format: FormatId,
    signature: SigId,
) -> Result<(), AllocError>
    requires format { format.0 < length table.now.formats }
    requires signature { signature.0 < length table.now.signatures }
    ensures { OnOk result (string_bytes lines.new ≡ string_bytes lines.old ++ word.now
        ++ 32 ∷ format_text table.now format.0 ++ 32 ∷ signature_text table.now signature.0) }
{
    let puid = table.puid(format);
    let number = table.number_of(signature);
    write!(lines, "{word} {puid} {number}")?;
    Ok(())
}

// The line of a format that is not alive.
fn push_format(
    lines: &mut String,
    word: &str,
    table: &Table,
    format: FormatId,
) -> Result<(), AllocError>
    requires { format.0 < length table.now.formats }
    ensures { OnOk result (string_bytes lines.new ≡ string_bytes lines.old ++ format_line word.now table.now format.0) }
{
    let puid = table.puid(format);
    write!(lines, "{word} {puid}")?;
    lines.push_str("\n")?;
    Ok(())
}

/// The last line: how many formats and signatures there are, and how many of each kind.
pub(crate) fn line_of_fates(
    alloc: Global,
    formats: &[Fate],
    signatures: &[Fate],
) -> Result<String, AllocError>
    ensures { IfOk result (λ line. string_bytes line ≡ fates_line formats.now signatures.now) }
{
    let mut line = String::new(alloc);
    line.push_str("formats ")?;
    push_fates(&mut line, formats)?;
    line.push_str(" signatures ")?;
    push_fates(&mut line, signatures)?;
    line.push_str("\n")?;
    Ok(line)
}

fn push_fates(line: &mut String, fates: &[Fate]) -> Result<(), AllocError>
    ensures { OnOk result (string_bytes line.new ≡ string_bytes line.old ++ fates_text fates.now) }
{
    let all = fates.len();
    let alive = count_alive(fates);
    let dead = count_dead(fates);
    let unknown = count_unknown(fates);
    write!(line, "{all} alive {alive} dead {dead} unknown {unknown}")?;
    Ok(())
}

fn count_alive(fates: &[Fate]) -> usize
    ensures { result ≡ count_by is_alive fates.now }
{
    fates.iter().filter(|f| matches!(f, Fate::Alive)).count()
}

fn count_dead(fates: &[Fate]) -> usize
    ensures { result ≡ count_by is_dead fates.now }
{
    fates.iter().filter(|f| matches!(f, Fate::Dead)).count()
}

fn count_unknown(fates: &[Fate]) -> usize
    ensures { result ≡ count_by is_unknown fates.now }
{
    fates.iter().filter(|f| matches!(f, Fate::Unknown)).count()
}
