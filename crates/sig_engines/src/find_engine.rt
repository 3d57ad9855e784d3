//! `find`, over any output for what is found and any output for its lines.
//!
//! What is found is written before a byte of its lines is. Where the search gave up, a line on the
//! error output says why, once the answer is written. Two signatures can be too much in two ways:
//! more signatures outrank one of them than a product can have, or a product has more rows than the
//! budget. Where both hold the first is named, which a greater budget alone seldom mends.

ghost use Rattle.std.specs.Prelude.{◌≡◌, ◌≢◌, ◌⊎◌, ◌++◌, Ok, false, option_map, string_bytes, true, IfErr, IfOk, IfSome, OnOk};
ghost use Rattle.sig_engines.specs.Texts.{signature_text};
ghost use Rattle.sig_engines.specs.Finding.{AreSignatures, IsKnown, IsReason, IsReasonFor, KeepsFound, TellsWhy, budget_line, found_bytes, found_text, is_answered, outranked_line, reason_line};
ghost use Rattle.sig_engines.specs.Progress.{AddsProgress, ShowsIf};
ghost use Rattle.sig_engines.specs.Stores.{IsMade};
ghost use Rattle.sig_engines.specs.Refusals.{StopsFind};
ghost use Rattle.sig_bits.specs.Device.{Adds};
ghost use Rattle.sig_find.specs.Answers.{IsFound};
ghost use Rattle.sig_table.specs.Tables.{IsTable};

use crate::ask::FindAsk;
use crate::error::{FileFault, RunError};
use crate::lines::lines_of_found;
use crate::progress::{Meter, Things};
use crate::store::Store;
use crate::writing::put;
use sig_bits::Output;
use sig_find::{Found, find, find_observed};
use sig_product::{MOST_BLOCKERS, all_blockers};
use sig_table::{SigId, Table};
use std::alloc::{AllocError, Global};
use std::fmt::Write;

/// Writes what the finder finds of a table to the file that `ask` names, and then its lines.
/// Answers whether it is a certificate or a witness.
///
/// The file is made only once something is found, and where the search gave up not at all. With
/// progress the search tells `err` how many products are done, and where it gave up `err` is told
/// why.
///
/// `answers` says that a file of this name was made and was written these bytes. It names no value,
/// since the file is dropped here. So no clause can say that none is made where the search gave up,
/// nor that nothing more is written to it: tests do.
#[inline(never)]
pub fn run_find<S: Store, W: Output, E: Output>(
    alloc: Global,
    store: &S,
    table: &Table,
    ask: FindAsk<'_>,
    out: &mut W,
    err: &mut E,
) -> Result<bool, FileFault>
    requires { IsTable table.now }
    ensures answers { IfOk result (λ is_yes. KeepsFound (IsMade S.name_of S.Writer.written S.Writer.failed (S.held store.now) ask.entry.out.now)
        is_yes ask.entry.hex table.now ask.entry.budget (W.written out.old) (W.written out.new)) }
    ensures writes { OnOk result (W.failed out.new ≡ false) }

    // The error output: the progress alone, or behind it why the search gave up.
    ensures told { result ≢ Ok false → ShowsIf ask.entry.progress Things.Products (E.failed err.new) err.old err.new (E.written err.old) (E.written err.new) }
    ensures why { IfOk result (λ is_yes. is_yes ≡ false → E.failed err.new ≡ false
        → TellsWhy ask.entry.progress ask.entry.hex table.now ask.entry.budget (W.written out.old) (W.written out.new) (E.written err.old) (E.written err.new)) }

    // Each refusal; a failed read is none.
    ensures stops { IfErr result (StopsFind S.Writer.failed (S.held store.now) ask.entry.out.now (W.failed out.new) (out.new ≡ out.old)) }
{
    let found = match search(alloc, table, ask.budget, ask.progress, err) {
        Ok(found) => found,
        Err(error) => return Err(FileFault::Run(error)),
    };
    let reason = match reason_of(alloc, table, &found, ask.budget) {
        Ok(reason) => reason,
        Err(_) => return Err(FileFault::Run(RunError::OutOfMemory)),
    };
    match write_answer(alloc, store, table, &found, ask, out) {
        Ok(true) => Ok(true),
        Ok(false) => {
            let _ = put(err, reason.as_str());
            Ok(false)
        }
        Err(fault) => Err(fault),
    }
}

// Why the search gave up, as a line; nothing where it did not.
fn reason_of(alloc: Global, table: &Table, found: &Found, budget: u32) -> Result<String, AllocError>
    requires { IsKnown table.now found.now }
    ensures { IfOk result (λ reason. IsReason table.now budget found.now (string_bytes reason)) }
{
    match found {
        Found::Certificate(_) | Found::Witness { .. } => Ok(String::new(alloc)),
        Found::GaveUp { s, t } => reason_for(alloc, table, *s, *t, budget),
    }
}

// Why the search gave up on these two signatures.
fn reason_for(
    alloc: Global,
    table: &Table,
    s: SigId,
    t: SigId,
    budget: u32,
) -> Result<String, AllocError>
    requires { AreSignatures table.now s t }
    ensures { IfOk result (λ reason. IsReasonFor table.now budget s t (string_bytes reason)) }
{
    let blockers = all_blockers(alloc, table, s, t)?;
    line_of_reason(alloc, table, s, t, blockers.len(), budget)
}

fn line_of_reason(
    alloc: Global,
    table: &Table,
    s: SigId,
    t: SigId,
    blockers: usize,
    budget: u32,
) -> Result<String, AllocError>
    requires { AreSignatures table.now s t }
    ensures { IfOk result (λ reason. string_bytes reason ≡ reason_line table.now budget s t blockers) }
{
    let mut line = String::new(alloc);
    if blockers > MOST_BLOCKERS {
        push_outranked(&mut line, table, s, t)?;
        return Ok(line);
    }
    push_budget(&mut line, budget)?;
    Ok(line)
}

// More signatures outrank one of the two than a product can have.
fn push_outranked(line: &mut String, table: &Table, s: SigId, t: SigId) -> Result<(), AllocError>
    requires { AreSignatures table.now s t }
    ensures { OnOk result (string_bytes line.new ≡ string_bytes line.old ++ outranked_line table.now s t) }
{
    push_two(
        line,
        "over 64 signatures outrank ",
        table,
        s,
        " or ",
        t,
        ": see conflicts\n",
    )?;
    Ok(())
}

// The numbers of two signatures, and a text before each and behind the last.
fn push_two(
    line: &mut String,
    before: &str,
    table: &Table,
    s: SigId,
    between: &str,
    t: SigId,
    behind: &str,
) -> Result<(), AllocError>
    requires { AreSignatures table.now s t }
    ensures { OnOk result (string_bytes line.new ≡ string_bytes line.old ++ before.now
        ++ signature_text table.now s.0 ++ between.now ++ signature_text table.now t.0 ++ behind.now) }
{
    let first = table.number_of(s);
    let second = table.number_of(t);
    write!(line, "{before}{first}{between}{second}{behind}")?;
    Ok(())
}

// There are more rows than the budget.
fn push_budget(line: &mut String, budget: u32) -> Result<(), AllocError>
    ensures { OnOk result (string_bytes line.new ≡ string_bytes line.old ++ budget_line budget) }
{
    writeln!(line, "more than {budget} rows")?;
    Ok(())
}

// Writes what was found to the file that is asked for, and then its lines. The file is made only
// now, and where the search gave up not at all.
fn write_answer<S: Store, W: Output>(
    alloc: Global,
    store: &S,
    table: &Table,
    found: &Found,
    ask: FindAsk<'_>,
    out: &mut W,
) -> Result<bool, FileFault>
    requires { IsKnown table.now found.now }
    ensures answered { IfOk result (λ is_yes. is_yes ≡ is_answered found.now) }
    ensures made { OnOk result (IfSome (found_bytes found.now) (IsMade S.name_of S.Writer.written S.Writer.failed (S.held store.now) ask.entry.out.now)) }
    ensures lines { OnOk result (Adds (W.written out.old) (found_text ask.entry.hex table.now found.now) (W.written out.new)) }
    ensures writes { OnOk result (W.failed out.new ≡ false) }
    ensures stops { IfErr result (StopsFind S.Writer.failed (S.held store.now) ask.entry.out.now (W.failed out.new) (out.new ≡ out.old)) }
{
    let lines = match lines_of_found(alloc, table, found, ask.hex) {
        Ok(lines) => lines,
        Err(_) => return Err(FileFault::Run(RunError::OutOfMemory)),
    };
    let Some(bytes) = bytes_of(found) else {
        return match out.write_all(lines.as_bytes()) {
            Ok(()) => Ok(false),
            Err(_) => Err(FileFault::Run(RunError::Write)),
        };
    };
    let Some(mut file) = store.create(ask.out) else {
        return Err(FileFault::CannotOpen);
    };
    match write_found(bytes, lines.as_str(), &mut file, out) {
        Ok(()) => Ok(true),
        Err(error) => Err(FileFault::Run(error)),
    }
}

// What the finder finds of a table. With `progress` it tells `err` how many products are done.
fn search<E: Output>(
    alloc: Global,
    table: &Table,
    budget: u32,
    progress: bool,
    err: &mut E,
) -> Result<Found, RunError>
    requires { IsTable table.now }
    ensures found { IfOk result (IsFound table.now budget) }
    ensures known { IfOk result (IsKnown table.now) }
    ensures memory { IfErr result (λ e. e ≡ RunError.OutOfMemory) }
    ensures shown { ShowsIf progress Things.Products (E.failed err.new) err.old err.new (E.written err.old) (E.written err.new) }
{
    let found = if progress {
        find_shown(alloc, table, budget, err)
    } else {
        find(alloc, table, budget)
    };
    match found {
        Ok(found) => Ok(found),
        // Nothing is read, and no failed write is told of, so memory ran out.
        Err(_) => Err(RunError::OutOfMemory),
    }
}

fn find_shown<E: Output>(
    alloc: Global,
    table: &Table,
    budget: u32,
    err: &mut E,
) -> Result<Found, AllocError>
    ensures found { IfOk result (IsFound table.now budget) }
    ensures shown { E.failed err.new ≡ false → AddsProgress Things.Products (E.written err.old) (E.written err.new) }
{
    let mut meter = Meter::new(Things::Products, err);
    let found = find_observed(alloc, table, budget, &mut meter);
    meter.end();
    found
}

// The bytes of what was found, where there are any.
fn bytes_of(found: &Found) -> Option<&[u8]>
    ensures { option_map (λ bytes. bytes.now) result ≡ found_bytes found.now }
{
    match found {
        Found::Certificate(bytes) | Found::Witness { file: bytes, .. } => Some(bytes.as_slice()),
        Found::GaveUp { .. } => None,
    }
}

// Writes what was found to its file, and then the lines that say so. Where the write to the file
// fails, no line is written.
fn write_found<F: Output, W: Output>(
    bytes: &[u8],
    lines: &str,
    file: &mut F,
    out: &mut W,
) -> Result<(), RunError>
    ensures file { OnOk result (Adds (F.written file.old) bytes.now (F.written file.new)) }
    ensures lines { OnOk result (Adds (W.written out.old) lines.now (W.written out.new)) }
    ensures writes { OnOk result ((F.failed file.new ≡ false) × (W.failed out.new ≡ false)) }

    // The one refusal, and when.
    ensures write { IfErr result (λ e. (e ≡ RunError.Write) × ((F.failed file.new ≡ true) ⊎ (W.failed out.new ≡ true))) }

    // Before the file is written whole, no line is.
    ensures first { F.failed file.new ≡ true → out.new ≡ out.old }
    ensures whole { IfErr result (λ e. W.failed out.new ≡ false → out.new ≡ out.old) }
{
    file.write_all(bytes).map_err(|_| RunError::Write)?;
    out.write_all(lines.as_bytes()).map_err(|_| RunError::Write)
}
