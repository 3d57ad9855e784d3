//! `show`, over any output.
//!
//! Both canonical files are made in memory, with an empty line between them, and written by one
//! write. So a table too large for memory is written not at all, and not by half.

ghost use Rattle.std.specs.Prelude.{◌≡◌, ◌≢◌, false, true, IfOk, IsErrOf, OnOk};
ghost use Rattle.sig_bits.specs.Device.{Adds};
ghost use Rattle.sig_engines.specs.Shown.{show_text};

use crate::error::RunError;
use sig_bits::{FromWrite, Output};
use sig_table::{OutError, Table};
use std::alloc::Global;

/// Writes both canonical files of the table, with an empty line between them.
#[inline(never)]
pub fn run_show<W: Output>(alloc: Global, table: &Table, out: &mut W) -> Result<(), RunError>
    ensures text { OnOk result (Adds (W.written out.old) (show_text table.now) (W.written out.new)) }
    ensures writes { OnOk result (W.failed out.new ≡ false) }
    ensures never_read { result ≢ Err RunError.Read }
    ensures write { IsErrOf result RunError.Write → W.failed out.new ≡ true }
    ensures memory_stays { IsErrOf result RunError.OutOfMemory → out.new ≡ out.old }
{
    let text = canonical_files(alloc, table).map_err(|_| RunError::OutOfMemory)?;
    out.write_all(&text).map_err(|_| RunError::Write)
}

// A write to memory fails only where a growth is refused.
fn canonical_files(alloc: Global, table: &Table) -> Result<Vec<u8>, OutError>
    ensures { IfOk result (λ text. text.items ≡ show_text table.now) }
{
    let mut text = FromWrite::new(Vec::new(alloc));
    table.write_signatures(alloc, &mut text)?;
    text.write_all(b"\n").map_err(|_| OutError::Write)?;
    table.write_priorities(alloc, &mut text)?;
    Ok(text.into_inner())
}
