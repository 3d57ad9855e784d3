//! One pair more: what it would do to the formats of a table.
//!
//! Let each file that leaves A hit B, and some that leaves B not hit A: then A must be over B,
//! since B over A would leave no file for A. One such pair alone takes no format its last file.
//! Several may: of `41`, `??` and `[!41]`, each a format at offset 0, the first and the third must
//! be over the second, and then no file is left for the second one. So pairs are tried one after
//! another, each with those before it: the formats over its lower one must leave it a file. Those
//! over any other format stay the same, so every other format keeps its files
//! (`additions_keep_formats_alive`).

ghost use Rattle.std.specs.Prelude.{◌≡◌, ◌↔◌, ◌<◌, ◌∷◌, ◌++◌, [], All, IfOk, IsTrue, length, map};
ghost use Rattle.sig_find.specs.Additions.{AreOverBelow, IsAddition, IsEscape, IsOver, addition_by};

use crate::class::signatures_in;
use crate::inclusion::{Inclusion, decide_inclusion};
use crate::life::Fate;
use sig_table::{FormatId, Ranking, SigId, Table};
use std::alloc::{AllocError, Global};

/// What a pair behind some priorities would do.
#[derive(Clone, Copy, Debug, PartialEq, Eq)]
pub enum Addition {
    /// The lower format keeps a file, and so does every other format that has one.
    Safe,
    /// It is listed already, or closes a cycle.
    Cycle,
    /// No file would leave the lower format.
    Dead,
    /// No file for the lower format was found, and there may be one: for one of its signatures it
    /// takes more rows than the budget allows, or over 64 blockers, to decide it.
    Unknown,
}

/// Decides what the pair would do behind these priorities of the table, within a budget of rows as
/// [`decide_inclusion`] counts them for each signature of the lower format.
pub fn try_addition(
    alloc: Global,
    table: &Table,
    ranking: &Ranking,
    higher: FormatId,
    lower: FormatId,
    budget: u32,
) -> Result<Addition, AllocError>
    requires formats { ranking.now.format_count ≡ length table.now.formats }
    requires higher { higher.0 < length table.now.formats }
    requires lower { lower.0 < length table.now.formats }
    ensures { IfOk result (IsAddition table.now ranking.now.pairs (higher.0, lower.0) budget) }
{
    if !ranking.takes(higher, lower) {
        return Ok(Addition::Cycle);
    }
    let own = signatures_in(alloc, table, lower)?;
    let over = signatures_over(alloc, table, ranking, higher, lower)?;
    let fate = decide_escape(alloc, table, &own, &over, budget)?;
    Ok(addition_by(fate))
}

fn addition_by(fate: Fate) -> Addition
    ensures { result ≡ addition_by fate }
{
    match fate {
        Fate::Alive => Addition::Safe,
        Fate::Dead => Addition::Dead,
        Fate::Unknown => Addition::Unknown,
    }
}

// All signatures of formats that these pairs, or this one, put over the lower format.
fn signatures_over(
    alloc: Global,
    table: &Table,
    ranking: &Ranking,
    higher: FormatId,
    lower: FormatId,
) -> Result<Vec<SigId>, AllocError>
    ensures { IfOk result (λ found. AreOverBelow table.now (ranking.now.pairs ++ (higher.0, lower.0) ∷ []) lower.0 (length table.now.signatures) (map (λ s. s.0) found.items)) }
{
    let mut found = Vec::new(alloc);
    for index in 0..table.signature_count() {
        let signature = SigId(index as u16);
        if is_over(table, ranking, higher, lower, signature) {
            found.push(signature)?;
        }
    }
    Ok(found)
}

fn is_over(
    table: &Table,
    ranking: &Ranking,
    higher: FormatId,
    lower: FormatId,
    signature: SigId,
) -> bool
    requires { signature.0 < length table.now.signatures }
    ensures { IsTrue result ↔ IsOver table.now (ranking.now.pairs ++ (higher.0, lower.0) ∷ []) lower.0 signature.0 }
{
    let format = table.format_of(signature);
    format == higher || ranking.outranks(format, lower)
}

// Whether one of these signatures hits a file that none of the others does.
fn decide_escape(
    alloc: Global,
    table: &Table,
    own: &[SigId],
    others: &[SigId],
    budget: u32,
) -> Result<Fate, AllocError>
    requires own { All (λ index. index < length table.now.signatures) (map (λ s. s.0) own.now) }
    requires others { All (λ index. index < length table.now.signatures) (map (λ s. s.0) others.now) }
    ensures { IfOk result (IsEscape table.now (map (λ s. s.0) own.now) (map (λ s. s.0) others.now) budget) }
{
    let mut unknown = false;
    for s in own {
        match decide_inclusion(alloc, table, *s, others, budget)? {
            Inclusion::Included => {}
            Inclusion::Counterexample(_) => return Ok(Fate::Alive),
            Inclusion::Unknown => unknown = true,
        }
    }
    if unknown {
        Ok(Fate::Unknown)
    } else {
        Ok(Fate::Dead)
    }
}
