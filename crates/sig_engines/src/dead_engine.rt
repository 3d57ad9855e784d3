//! `dead`, over any output: the formats of a table, one after another, and which of them and of
//! their signatures no file can ever leave.
//!
//! The lines of a format are written as soon as it is decided. So where memory runs out or a write
//! fails, the lines before stand, and the last line is missing.

ghost use Rattle.std.specs.Prelude.{◌≡◌, ◌++◌, ◌∷◌, ◌<◌, ◌&&◌, [], false, IfErr, IfOk, OnOk, length, map};
ghost use Rattle.std.specs.List.{list_all};
ghost use Rattle.sig_engines.specs.Fates.{AddsFates, AreFatesCut, AreFatesTold, IsFateCut, IsFateTold};
ghost use Rattle.sig_engines.specs.Progress.{ShowsIf};
ghost use Rattle.sig_find.specs.Lives.{fate_of, is_alive};

use crate::ask::DeadAsk;
use crate::conflicts_engine::write_line;
use crate::error::CutShort;
use crate::fate_lines::{line_of_fates, lines_of_fate};
use crate::progress::{Meter, Things};
use sig_bits::Output;
use sig_find::{Fate, Observer, SignatureLife, Unobserved, decide_format};
use sig_table::{FormatId, Table};
use std::alloc::{AllocError, Global};

/// Writes the lines of each format, and a last one with the counts. Answers whether each format and
/// each signature is alive.
///
/// No file leaves a format A with a line `dead A`, and some file leaves each format that has
/// neither this line nor `unknown A`. The observer is told how many of how many formats are done,
/// at once and after each.
#[inline(never)]
pub fn run_dead<W: Output, O: Observer>(
    alloc: Global,
    table: &Table,
    budget: u32,
    with_hex: bool,
    out: &mut W,
    observer: &mut O,
) -> Result<bool, CutShort>
    ensures answers { IfOk result (λ is_yes. AddsFates is_yes with_hex table.now budget (W.written out.old) (W.written out.new)) }
    ensures writes { OnOk result (W.failed out.new ≡ false) }
    ensures cut { IfErr result (λ e. AreFatesCut e with_hex table.now budget (W.failed out.new) (W.written out.old) (W.written out.new)) }
    ensures observed { O.becomes observer.old observer.new }
{
    let found = write_formats(alloc, table, budget, with_hex, out, observer)?;
    let line = line_of_fates(alloc, &found.formats, &found.signatures)?;
    write_line(line.as_str(), out)?;
    Ok(found.are_alive())
}

// What is found of each format, and of each of their signatures.
#[derive(Drop)]
struct Fates {
    formats: Vec<Fate>,
    signatures: Vec<Fate>,
}

impl Fates {
    fn are_alive(&self) -> bool
        ensures { result ≡ (list_all is_alive self.now.formats.items && list_all is_alive self.now.signatures.items) }
    {
        are_alive(&self.formats) && are_alive(&self.signatures)
    }
}

fn are_alive(fates: &[Fate]) -> bool
    ensures { result ≡ list_all is_alive fates.now }
{
    fates.iter().all(|f| matches!(f, Fate::Alive))
}

// Writes the lines of all formats, in table order.
fn write_formats<W: Output, O: Observer>(
    alloc: Global,
    table: &Table,
    budget: u32,
    with_hex: bool,
    out: &mut W,
    observer: &mut O,
) -> Result<Fates, CutShort>
    ensures told { IfOk result (λ found. AreFatesTold with_hex table.now budget [] found.formats.items found.signatures.items (W.written out.old) (W.written out.new)) }
    ensures cut { IfErr result (λ e. AreFatesCut e with_hex table.now budget (W.failed out.new) (W.written out.old) (W.written out.new)) }
    ensures observed { O.becomes observer.old observer.new }
{
    let formats = table.format_count() as u16;
    let mut found = Fates {
        formats: Vec::new(alloc),
        signatures: Vec::new(alloc),
    };
    observer.report(0, u64::from(formats));
    for index in 0..formats {
        write_format(
            alloc,
            table,
            budget,
            with_hex,
            FormatId(index),
            &mut found,
            out,
        )?;
        observer.report(u64::from(index) + 1, u64::from(formats));
    }
    Ok(found)
}

// Decides one format, notes what is found and writes its lines, if it has any.
fn write_format<W: Output>(
    alloc: Global,
    table: &Table,
    budget: u32,
    with_hex: bool,
    format: FormatId,
    found: &mut Fates,
    out: &mut W,
) -> Result<(), CutShort>
    requires { format.0 < length table.now.formats }
    ensures told { OnOk result (IsFateTold with_hex table.now budget format.0 found.old.formats.items found.new.formats.items
        found.old.signatures.items found.new.signatures.items (W.written out.old) (W.written out.new)) }
    ensures cut { IfErr result (λ e. IsFateCut e with_hex table.now budget format.0 (W.failed out.new) (W.written out.old) (W.written out.new)) }
{
    let (fate, lives) = decide_format(alloc, table, format, budget)?;
    let lines = lines_of_fate(alloc, table, format, fate, &lives, with_hex)?;
    push_fate(&mut found.formats, fate)?;
    push_fates(&mut found.signatures, &lives)?;
    write_line(lines.as_str(), out)
}

fn push_fate(fates: &mut Vec<Fate>, fate: Fate) -> Result<(), AllocError>
    ensures { OnOk result (fates.new.items ≡ fates.old.items ++ fate ∷ []) }
{
    fates.push(fate)?;
    Ok(())
}

fn push_fates(fates: &mut Vec<Fate>, lives: &[SignatureLife]) -> Result<(), AllocError>
    ensures { OnOk result (fates.new.items ≡ fates.old.items ++ map (λ l. fate_of l.life) lives.now) }
{
    for found in lives {
        fates.push(found.life.fate())?;
    }
    Ok(())
}

/// Does the same, and tells `err` how many formats are done, where that is asked for.
#[inline(never)]
pub fn find_dead<W: Output, E: Output>(
    alloc: Global,
    table: &Table,
    ask: DeadAsk,
    out: &mut W,
    err: &mut E,
) -> Result<bool, CutShort>
    ensures answers { IfOk result (λ is_yes. AddsFates is_yes ask.hex table.now ask.budget (W.written out.old) (W.written out.new)) }
    ensures writes { OnOk result (W.failed out.new ≡ false) }
    ensures cut { IfErr result (λ e. AreFatesCut e ask.hex table.now ask.budget (W.failed out.new) (W.written out.old) (W.written out.new)) }
    ensures shown { ShowsIf ask.progress Things.Formats (E.failed err.new) err.old err.new (E.written err.old) (E.written err.new) }
{
    if !ask.progress {
        return run_dead(alloc, table, ask.budget, ask.hex, out, &mut Unobserved);
    }
    let mut meter = Meter::new(Things::Formats, err);
    let answer = run_dead(alloc, table, ask.budget, ask.hex, out, &mut meter);
    meter.end();
    answer
}
