//! `lint`, over any two inputs and any output.
//!
//! Both files are read whole before one is judged, and what is told of them is made in memory and
//! written by one write. So where a file can't be read, or memory runs out, nothing is written.

ghost use Rattle.std.specs.Prelude.{◌≡◌, ◌⊎◌, false, true, IfOk, IsErrOf, OnOk};
ghost use Rattle.sig_bits.specs.Device.{IsAtEnd};
ghost use Rattle.sig_engines.specs.Linted.{AddsReportOfSome};
ghost use Rattle.sig_engines.specs.Refusals.{ReadsThenWrites};

use crate::error::RunError;
use sig_bits::{Input, Output, read_whole};
use sig_lint::{Report, report_on};
use std::alloc::Global;

/// Writes a line for each fault of a signature file and of a priority file, or `no fault` and a
/// line for each warning, and answers whether there is no fault.
///
/// Where the inputs do not tell their bytes, the report is that on some bytes.
#[inline(never)]
pub fn run_lint<A: Input, B: Input, W: Output>(
    alloc: Global,
    signatures: &mut A,
    priorities: &mut B,
    out: &mut W,
) -> Result<bool, RunError>
    ensures answers { IfOk result (λ is_faultless. AddsReportOfSome is_faultless
        (A.to_come signatures.old) (B.to_come priorities.old) (W.written out.old) (W.written out.new)) }
    ensures at_end { OnOk result (IsAtEnd (A.to_come signatures.new) × IsAtEnd (B.to_come priorities.new)) }

    // Each refusal, and when. Before all is known nothing is written.
    ensures refuses { ReadsThenWrites result ((A.failed signatures.new ≡ false) × (B.failed priorities.new ≡ false))
        ((A.failed signatures.new ≡ true) ⊎ (B.failed priorities.new ≡ true)) (W.failed out.new) (out.new ≡ out.old) }
{
    let signature_text = read_whole(alloc, signatures)?;
    let priority_text = read_whole(alloc, priorities)?;
    let Ok(report) = report_on(alloc, &signature_text, &priority_text) else {
        return Err(RunError::OutOfMemory);
    };
    let Report { text, is_faultless } = report;
    out.write_all(&text).map_err(|_| RunError::Write)?;
    Ok(is_faultless)
}
