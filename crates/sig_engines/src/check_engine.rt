//! `check`, over any input and any output.
//!
//! The certificate is judged whole before a byte is written. The line is made in memory and written
//! by one write.

ghost use Rattle.std.specs.Prelude.{◌≡◌, false, true, IfErr, IfOk, IsErrOf, Ok, OnOk};
ghost use Rattle.sig_bits.specs.Bytes.{IsBytes};
ghost use Rattle.sig_bits.specs.Device.{IsAtEnd};
ghost use Rattle.sig_cert.specs.Deciding.{Decided};
ghost use Rattle.sig_cert.specs.Verdicts.{Verdict};
ghost use Rattle.sig_engines.specs.Judged.{AddsVerdictOfSome};
ghost use Rattle.sig_engines.specs.Refusals.{ReadsThenWrites};

use crate::error::RunError;
use crate::lines::line_of_verdict;
use sig_bits::{Input, Output, read_whole};
use sig_cert::{CheckError, check};
use sig_table::Table;
use std::alloc::Global;

/// Writes `accepted`, or `refused` and the first fault of the certificate, and answers whether it
/// is accepted.
///
/// Where the input does not tell its bytes, the verdict is that on some bytes.
#[inline(never)]
pub fn run_check<C: Input, W: Output>(
    alloc: Global,
    table: &Table,
    certificate: &mut C,
    out: &mut W,
) -> Result<bool, RunError>
    ensures answers { IfOk result (λ is_accepted. AddsVerdictOfSome is_accepted table.now (C.to_come certificate.old) (W.written out.old) (W.written out.new)) }
    ensures decided { result ≡ Ok true → Decided table.now }
    ensures at_end { OnOk result (IsAtEnd (C.to_come certificate.new)) }

    // Each refusal, and when. Before the verdict is known nothing is written.
    ensures refuses { ReadsThenWrites result (C.failed certificate.new ≡ false) (C.failed certificate.new ≡ true) (W.failed out.new) (out.new ≡ out.old) }
    ensures memory { IsErrOf result RunError.OutOfMemory → C.failed certificate.old ≡ false → C.failed certificate.new ≡ false }
{
    let bytes = read_whole(alloc, certificate)?;
    let verdict = judge(alloc, table, &bytes)?;
    let line = line_of_verdict(alloc, verdict).map_err(|_| RunError::OutOfMemory)?;
    out.write_all(line.as_bytes()).map_err(|_| RunError::Write)?;
    Ok(verdict.is_ok())
}

// The verdict on the certificate. Want of memory is none.
fn judge(
    alloc: Global,
    table: &Table,
    certificate: &[u8],
) -> Result<Result<(), CheckError>, RunError>
    ensures bytes { IsBytes certificate.now }
    ensures verdict { IfOk result (λ verdict. Verdict table.now certificate.now verdict) }
    ensures decided { IfOk result (λ verdict. OnOk verdict (Decided table.now)) }
    ensures memory { IfErr result (λ e. e ≡ RunError.OutOfMemory) }
{
    match check(alloc, table, certificate) {
        Err(CheckError::OutOfMemory) => Err(RunError::OutOfMemory),
        verdict => Ok(verdict),
    }
}
