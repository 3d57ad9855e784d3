//! Which signatures hit a file: those of which all sequences stand in it.
//!
//! Each signature is searched by itself, and its first sequence that does not stand ends its
//! search. Nothing found of one signature serves another.

ghost use Rattle.std.specs.Prelude.{◌≡◌, ◌<◌, ◌↔◌, IsTrue, All, IfOk, length, vec_len};
ghost use Rattle.sig_core.specs.FirstHits.{MarksHits};
ghost use Rattle.sig_core.specs.Hits.{HitsOf};
ghost use Rattle.sig_table.specs.Standing.{Stands};
ghost use Rattle.sig_table.specs.Tables.{IsTable};

use crate::whole::anchored::stands;
use sig_table::{Sequence, SigId, Table};
use std::alloc::{AllocError, Global};

/// Of each signature whether it hits the file.
pub(crate) fn which_hit(alloc: Global, table: &Table, file: &[u8]) -> Result<Vec<bool>, AllocError>
    ensures len { IfOk result (λ marks. vec_len marks ≡ length table.now.signatures) }
    ensures marks { IfOk result (λ marks. MarksHits table.now file.now marks.items) }
    ensures table { IsTable table.now }
{
    let mut marks = Vec::with_capacity(alloc, table.signature_count())?;
    for index in 0..table.signature_count() {
        marks.push(is_hit(alloc, table, SigId(index as u16), file)?)?;
    }
    Ok(marks)
}

/// Whether the signature hits the file.
pub(crate) fn is_hit(
    alloc: Global,
    table: &Table,
    signature: SigId,
    file: &[u8],
) -> Result<bool, AllocError>
    requires { signature.0 < length table.now.signatures }
    ensures { IfOk result (λ b. IsTrue b ↔ HitsOf table.now signature.0 file.now) }
{
    all_stand(alloc, file, table.sequences_of(signature))
}

// Whether all the sequences stand in the file.
fn all_stand(alloc: Global, file: &[u8], sequences: &[Sequence]) -> Result<bool, AllocError>
    ensures { IfOk result (λ b. IsTrue b ↔ All (λ s. Stands s file.now) sequences.now) }
{
    for sequence in sequences {
        if !stands(alloc, file, sequence)? {
            return Ok(false);
        }
    }
    Ok(true)
}
