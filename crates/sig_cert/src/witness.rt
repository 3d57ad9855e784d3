//! Ambiguous files, for which two formats or more are reported, and the first two of them.
//!
//! The question goes to the matcher and not to a product, so the answer is about what `match`
//! prints. The bytes are in memory, so nothing is read here, and only an allocation can be refused.

ghost use Rattle.std.specs.Prelude.{◌≡◌, ◌↔◌, IfErr, IfOk, IfSome, IsSome};
ghost use Rattle.sig_cert.specs.Deciding.{Ambiguous, AreFirstLeft, AreFormats};

use sig_core::CoreError;
use sig_match::left_in;
use sig_table::{FormatId, Table};
use std::alloc::Global;

/// Judges a file for a table of signatures: the first two formats that are left for it, in table
/// order, or `None` where it is not ambiguous.
pub fn check_witness(
    alloc: Global,
    table: &Table,
    file: &[u8],
) -> Result<Option<(FormatId, FormatId)>, CoreError>
    ensures ambiguous { IfOk result (λ two. IsSome two ↔ Ambiguous table.now file.now) }
    ensures first_left { IfOk result (λ two. IfSome two (AreFirstLeft table.now file.now)) }
    ensures known { IfOk result (λ two. IfSome two (AreFormats table.now)) }
    ensures memory { IfErr result (λ e. e ≡ CoreError.OutOfMemory) }
{
    let left = left_in(alloc, table, file)?;
    match left.hits() {
        [first, second, ..] => Ok(Some((first.format, second.format))),
        _ => Ok(None),
    }
}
