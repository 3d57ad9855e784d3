//! What loads, and is hardly meant.
//!
//! `fmt/1,1,BOF,0,,{4}` is a signature of each file of four bytes or more: it asks for no byte.

ghost use Rattle.std.specs.Prelude.{◌≡◌, ◌++◌, ◌∷◌, [], IfOk, if◌then◌else◌, length, map};
ghost use Rattle.std.specs.List.{list_all};
ghost use Rattle.sig_lint.specs.Warnings.{are_of_gaps, is_gap, places_of_gaps};

use sig_expr::Item;
use sig_table::{Sequence, SigId, Table};
use std::alloc::{AllocError, Global};

/// The signatures of which all sequences are of gaps alone, in table order.
pub fn signatures_of_gaps(alloc: Global, table: &Table) -> Result<Vec<SigId>, AllocError>
    ensures { IfOk result (λ found. map (λ id. id.0) found.items ≡ places_of_gaps table.now.signatures (length table.now.signatures)) }
{
    let mut found = Vec::new(alloc);
    for place in 0..table.signature_count() {
        let signature = SigId(place as u16);
        found = with_signature(found, signature, are_of_gaps(table.sequences_of(signature)))?;
    }
    Ok(found)
}

// Those found, with the signature if it is of gaps alone.
fn with_signature(
    found: Vec<SigId>,
    signature: SigId,
    is_of_gaps: bool,
) -> Result<Vec<SigId>, AllocError>
    ensures { IfOk result (λ more. map (λ id. id.0) more.items ≡ map (λ id. id.0) found.items ++ (if is_of_gaps then signature.0 ∷ [] else [])) }
{
    let mut found = found;
    if is_of_gaps {
        found.push(signature)?;
        return Ok(found);
    }
    Ok(found)
}

fn are_of_gaps(sequences: &[Sequence]) -> bool
    ensures { result ≡ are_of_gaps sequences.now }
{
    sequences.iter().all(|s| is_of_gaps(s))
}

fn is_of_gaps(sequence: &Sequence) -> bool
    ensures { result ≡ list_all is_gap sequence.now.items }
{
    sequence.expr().items().iter().all(|item| is_gap(item))
}

fn is_gap(item: &Item) -> bool
    ensures { result ≡ is_gap item.now }
{
    match item {
        Item::Gap { .. } | Item::Any => true,
        _ => false,
    }
}
