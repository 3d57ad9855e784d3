//! Both files judged in turn, as `load` judges them, and on behind each fault.
//!
//! In the signature file of `fmt/1,1,BOF,0,,4142`, `fmt/2,1,BOF,0,,4143` and `fmt/2,2,BOF,0,,4144`
//! the second row gives signature 1 to another format. It is told, and left out of what later rows
//! are judged against: the third row has no fault. In the priority file `fmt/1,fmt/2` has none
//! either, since a row names `fmt/2` in the right form.

ghost use Rattle.std.specs.Prelude.{◌≡◌, ◌↔◌, ◌∷◌, [], List, Err, IfOk, IsOk};
ghost use Rattle.sig_table.specs.Loading.{records_of, table_of};
ghost use Rattle.sig_lint.specs.FaultViews.{FaultView};
ghost use Rattle.sig_lint.specs.Faults.{lint_faults};

use crate::fault::Fault;
use crate::names::names_of;
use crate::priorities::lint_priorities;
use crate::signatures::lint_signatures;
use std::alloc::{AllocError, Global};

/// All faults of the texts of a signature file and of a priority file, in the order of their rows,
/// those of the signature file first. A row tells its first fault.
///
/// A row is judged behind the rows before it that have no fault. Behind a wrong header no row of a
/// file is judged. A PUID of the priority file is known where any row of the signature file names
/// it in the right form, and each is known where that file has a wrong header. Priorities are
/// judged among the first 1,000 formats so named, in order of first naming: a table has no more, so
/// a pair of a later one is judged for the form of its fields alone, and no cycle goes through it.
pub fn lint(alloc: Global, signatures: &[u8], priorities: &[u8]) -> Result<Vec<Fault>, AllocError>
    ensures faults { IfOk result (λ faults. faults.items ≡ lint_faults (records_of signatures.now) (records_of priorities.now)) }

    // The first is the fault that `load` answers, and there is none exactly where it gives a table.
    ensures first { IfOk result (λ faults. (fault : FaultView) (later : List FaultView) → faults.items ≡ fault ∷ later
        → table_of (records_of signatures.now) (records_of priorities.now) ≡ Err fault.error) }
    ensures none { IfOk result (λ faults. (faults.items ≡ []) ↔ IsOk (table_of (records_of signatures.now) (records_of priorities.now))) }
{
    all_faults(alloc, signatures, priorities)
}

#[tactic(auto, unfolding(crate::specs::Faults::lint_faults))]
fn all_faults(alloc: Global, signatures: &[u8], priorities: &[u8]) -> Result<Vec<Fault>, AllocError>
    ensures { IfOk result (λ faults. faults.items ≡ lint_faults (records_of signatures.now) (records_of priorities.now)) }
{
    let faults = lint_signatures(alloc, signatures)?;
    let names = names_of(alloc, signatures, priorities)?;
    lint_priorities(alloc, priorities, &names, faults)
}
