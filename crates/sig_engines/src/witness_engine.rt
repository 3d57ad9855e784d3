//! `witness`, over any input and any output.
//!
//! The file is judged whole before a byte is written. The line is made in memory and written by one
//! write.

ghost use Rattle.std.specs.Prelude.{◌≡◌, ◌↔◌, false, true, IfErr, IfOk, IfSome, IsErrOf, IsSome, OnOk};
ghost use Rattle.sig_bits.specs.Bytes.{IsBytes};
ghost use Rattle.sig_bits.specs.Device.{IsAtEnd};
ghost use Rattle.sig_cert.specs.Deciding.{Ambiguous, AreFirstLeft, AreFormats};
ghost use Rattle.sig_engines.specs.Refusals.{ReadsThenWrites};
ghost use Rattle.sig_engines.specs.Witnessed.{AddsWitnessOfSome};

use crate::error::RunError;
use crate::lines::line_of_witness;
use sig_bits::{Input, Output, read_whole};
use sig_cert::check_witness;
use sig_table::{FormatId, Table};
use std::alloc::Global;

/// Writes `ambiguous` and the first two formats left for the file, or `not ambiguous`, and answers
/// whether the file is ambiguous.
///
/// Where the input does not tell its bytes, the answer is that on some bytes.
#[inline(never)]
pub fn run_witness<R: Input, W: Output>(
    alloc: Global,
    table: &Table,
    file: &mut R,
    out: &mut W,
) -> Result<bool, RunError>
    ensures answers { IfOk result (λ is_ambiguous. AddsWitnessOfSome is_ambiguous table.now (R.to_come file.old) (W.written out.old) (W.written out.new)) }
    ensures at_end { OnOk result (IsAtEnd (R.to_come file.new)) }

    // Each refusal, and when. Before the answer is known nothing is written.
    ensures refuses { ReadsThenWrites result (R.failed file.new ≡ false) (R.failed file.new ≡ true) (W.failed out.new) (out.new ≡ out.old) }
    ensures memory { IsErrOf result RunError.OutOfMemory → R.failed file.old ≡ false → R.failed file.new ≡ false }
{
    let bytes = read_whole(alloc, file)?;
    let two = first_left(alloc, table, &bytes)?;
    let line = line_of_witness(alloc, table, two).map_err(|_| RunError::OutOfMemory)?;
    out.write_all(line.as_bytes()).map_err(|_| RunError::Write)?;
    Ok(two.is_some())
}

// The first two formats left for the bytes, where more than one is.
fn first_left(
    alloc: Global,
    table: &Table,
    file: &[u8],
) -> Result<Option<(FormatId, FormatId)>, RunError>
    ensures bytes { IsBytes file.now }
    ensures ambiguous { IfOk result (λ two. IsSome two ↔ Ambiguous table.now file.now) }
    ensures first_left { IfOk result (λ two. IfSome two (AreFirstLeft table.now file.now)) }
    ensures known { IfOk result (λ two. IfSome two (AreFormats table.now)) }
    ensures memory { IfErr result (λ e. e ≡ RunError.OutOfMemory) }
{
    check_witness(alloc, table, file).map_err(|_| RunError::OutOfMemory)
}
