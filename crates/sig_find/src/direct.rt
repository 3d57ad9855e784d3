//! A witness without a search: a simple file that is as short as a file of one of the two can be.
//!
//! Of `41` at offset 0 and `42` at offset 4 the file `41 00 00 00 42` is a shortest one that both
//! hit, since `42` at offset 4 alone asks for five bytes. Most ambiguous pairs of real tables have
//! their words at such fixed places, where the offsets and the least lengths of the words say how
//! short a file can be. The matcher judges the file, so nothing has to be known of how it was made
//! (`simple`). If it is longer than that, or if something outranks, the pair is searched.

ghost use Rattle.std.specs.Prelude.{◌<◌, ◌≤◌, ◌⊎◌, ℕ, All, IfOk, IfSome, IsTrue, List, length};
ghost use Rattle.sig_table.specs.Standing.{Stands};
ghost use Rattle.sig_find.specs.Finding.{IsPairWitness};
ghost use Rattle.sig_find.specs.Unblocked.{IsMeeting};
ghost use Rattle.sig_find.specs.Lengths.{IsLeastOf, IsLeastOfItem, IsLeastOfItems, IsLeastOfSequence, part_length, parts_length};

use crate::decision::{first_that_hits, hits};
use crate::simple::Draft;
use sig_expr::{Alternatives, Atom, Item};
use sig_product::all_blockers;
use sig_table::{Position, Sequence, SigId, Table};
use std::alloc::{AllocError, Global};

/// A shortest file that both hit and no signature does that outranks one of them, with fewer bytes
/// than the budget, if a simple file is one. Nothing is said where it is not found.
pub(crate) fn direct_witness(
    alloc: Global,
    table: &Table,
    s: SigId,
    t: SigId,
    budget: u32,
) -> Result<Option<Vec<u8>>, AllocError>
    requires first { s.0 < length table.now.signatures }
    requires second { t.0 < length table.now.signatures }
    ensures { IfOk result (λ found. IfSome found (λ file. IsPairWitness table.now s.0 t.0 budget file.items)) }
{
    let Some(draft) = Draft::of(alloc, table, s, t)? else {
        return Ok(None);
    };
    let file = draft.file(alloc, 0)?;
    if file.len() >= budget as usize || !is_as_short(table, s, t, file.len()) {
        return Ok(None);
    }
    if meets(alloc, table, s, t, &file)? {
        Ok(Some(file))
    } else {
        Ok(None)
    }
}

/// Whether both hit the file, and no signature does that outranks one of them.
pub(crate) fn meets(
    alloc: Global,
    table: &Table,
    s: SigId,
    t: SigId,
    file: &[u8],
) -> Result<bool, AllocError>
    requires first { s.0 < length table.now.signatures }
    requires second { t.0 < length table.now.signatures }
    ensures { IfOk result (λ meets. IsTrue meets → IsMeeting table.now s.0 t.0 file.now) }
{
    if !hits(alloc, table, s, file)? || !hits(alloc, table, t, file)? {
        return Ok(false);
    }
    let all = all_blockers(alloc, table, s, t)?;
    match first_that_hits(alloc, table, &all, file)? {
        Some(_) => Ok(false),
        None => Ok(true),
    }
}

// Whether it is told by the offsets and the words that a file which both hit is as long.
fn is_as_short(table: &Table, s: SigId, t: SigId, len: usize) -> bool
    requires first { s.0 < length table.now.signatures }
    requires second { t.0 < length table.now.signatures }
    ensures { IsTrue result → IsLeastOf table.now s.0 len ⊎ IsLeastOf table.now t.0 len }
{
    len <= least_length(table, s) || len <= least_length(table, t)
}

// No file that the signature hits has fewer bytes.
fn least_length(table: &Table, s: SigId) -> usize
    requires { s.0 < length table.now.signatures }
    ensures { IsLeastOf table.now s.0 result }
{
    least_of_all(table.sequences_of(s))
}

// No file in which all the sequences stand has fewer bytes.
fn least_of_all(sequences: &[Sequence]) -> usize
    ensures { (file : List ℕ) → All (λ s. Stands s file) sequences.now → result ≤ length file }
{
    let mut least = 0;
    for sequence in sequences {
        least = least_of_sequence(sequence).max(least);
    }
    least
}

fn least_of_sequence(sequence: &Sequence) -> usize
    ensures { IsLeastOfSequence sequence.now result }
{
    let word = least_of_items(sequence.expr().items());
    match sequence.position() {
        Position::Bof { min, .. } | Position::Eof { min, .. } => word.saturating_add(min as usize),
        Position::Variable => word,
    }
}

// No word of the items has fewer bytes.
fn least_of_items(items: &[Item]) -> usize
    ensures { IsLeastOfItems items.now result }
{
    let mut least: usize = 0;
    for item in items.iter().rev() {
        least = least.saturating_add(least_of_item(item));
    }
    least
}

fn least_of_item(item: &Item) -> usize
    ensures { IsLeastOfItem item.now result }
{
    match item {
        Item::Byte(_) | Item::Any => 1,
        Item::Gap { min, .. } => *min as usize,
        Item::Alt(alternatives) => least_of_alternatives(alternatives),
        Item::Range(a, _) | Item::Not(a) | Item::NotRange(a, _) => a.as_bytes().len(),
    }
}

fn least_of_alternatives(alternatives: &Alternatives) -> usize
    ensures { All (λ parts. result ≤ parts_length parts) alternatives.now }
{
    let mut least = usize::MAX;
    for parts in alternatives.as_slice() {
        least = least_of_parts(parts).min(least);
    }
    least
}

fn least_of_parts(parts: &[Atom]) -> usize
    ensures { result ≤ parts_length parts.now }
{
    let mut sum: usize = 0;
    for part in parts {
        sum = sum.saturating_add(length_of_part(part));
    }
    sum
}

fn length_of_part(part: &Atom) -> usize
    ensures { result ≤ part_length part.now }
{
    match part {
        Atom::Byte(_) => 1,
        Atom::Range(a, _) | Atom::Not(a) | Atom::NotRange(a, _) => a.as_bytes().len(),
    }
}
