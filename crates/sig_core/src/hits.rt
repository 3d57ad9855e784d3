//! The list of hit formats, from the marks of the signatures that hit.
//!
//! If signatures 0 and 1 are of format 0, signature 2 is of format 1, and 1 and 2 hit, the list is
//! format 0 by signature 1 and format 1 by signature 2. Each matcher finds the marks in its own
//! way, of every signature, also of a format that is hit already, and this step is the same for
//! all. With room for a hit of each format it allocates nothing, so a scan can end without memory.

ghost use Rattle.std.specs.Prelude.{◌≡◌, ◌≤◌, ℕ, List, IfOk, IsOk, OnOk, length};
ghost use Rattle.std.specs.Vec.{vec_capacity};
ghost use Rattle.sig_core.specs.FirstHits.{FirstHits, MarksHits};
ghost use Rattle.sig_core.specs.Hits.{HitFormats};

use crate::results::{Hit, Results};
use sig_table::{FormatId, SigId, Table};
use std::alloc::{AllocError, Global};

// For each format its first signature that hits, if one does. A table has at most 1,000 formats.
type FirstHits = [Option<SigId>; 1000];

impl Results {
    /// The hits of a file, for a matcher that finds which signatures hit it.
    ///
    /// `marks` says of each signature whether it hits.
    pub fn of_marks(alloc: Global, table: &Table, marks: &[bool]) -> Result<Results, AllocError>
        requires { length marks.now ≡ length table.now.signatures }
        ensures { (file : List ℕ) → MarksHits table.now file marks.now → IfOk result (λ hits. HitFormats table.now file hits) }
    {
        let mut hits = Vec::new(alloc);
        list_hits(table, marks, &mut hits)?;
        Ok(Results::new(hits))
    }
}

/// Lists each format that is hit, with its first signature that hits, in table order.
///
/// `marks` says of each signature whether it hits. Where there is room for a hit of each format,
/// nothing grows.
pub fn list_hits(table: &Table, marks: &[bool], hits: &mut Vec<Hit>) -> Result<(), AllocError>
    requires { length marks.now ≡ length table.now.signatures }
    ensures lists { (file : List ℕ) → MarksHits table.now file marks.now → OnOk result (HitFormats table.now file hits.new.items) }
    ensures room { length table.now.formats ≤ vec_capacity hits.old → IsOk result }
{
    let formats = table.format_count();
    let firsts = first_hits(table, marks);
    hits.clear();
    for format in 0..formats {
        if let Some(signature) = firsts[format] {
            let format = FormatId(format as u16);
            hits.push(Hit { format, signature })?;
        }
    }
    Ok(())
}

// The first signature of each format that is marked.
fn first_hits(table: &Table, marks: &[bool]) -> FirstHits
    requires marks { length marks.now ≡ length table.now.signatures }
    requires few { length table.now.formats ≤ 1000 }
    ensures { (file : List ℕ) → MarksHits table.now file marks.now → FirstHits table.now file (length table.now.signatures) result }
{
    let mut firsts = [None; 1000];
    for index in 0..table.signature_count() {
        let signature = SigId(index as u16);
        let format = table.format_of(signature).0 as usize;
        if marks[index] && firsts[format].is_none() {
            firsts[format] = Some(signature);
        }
    }
    firsts
}
