//! One pass over a file, piece by piece, that keeps no byte of it.
//!
//! For each sequence of a table there is its position automaton and a set of its states: those in
//! which runs of the bytes so far end. A byte leads from each set to the next one, so it makes no
//! difference where a file is cut. The file ends where no more is fed, and a sequence then stands
//! in it exactly where some state of its set accepts. Of `41{1-2}42` at the start of a file the
//! bytes `41 42 42` lead through the sets {0}, {1}, {2} and {3, 4}, and 4 accepts.
//!
//! This is the subset construction, walked and not built. Nothing is passed over: each byte costs a
//! step of each set.

ghost use Rattle.std.specs.Prelude.{◌≡◌, ◌++◌, ℕ, [], List, IfOk, length};
ghost use Rattle.sig_bits.specs.Bytes.{IsBytes};
ghost use Rattle.sig_core.specs.FirstHits.{MarksHits};
ghost use Rattle.sig_core.specs.Hits.{HitFormats};
ghost use Rattle.sig_match.specs.Scans.{AreSignatureScansOf, IsScanOf};
ghost use Rattle.sig_table.specs.Tables.{IsTable};
ghost use Rattle.sig_table.specs.Views.{SignatureView, TableView};

use sig_core::{Hit, Results, list_hits};
use sig_table::{SigId, Table};
use std::alloc::{AllocError, Global};
use std::marker::Model;

mod sequence_scan;
mod signature_scan;

use signature_scan::SignatureScan;

/// A file on its way past a table.
///
/// All memory is taken at the start: for each sequence its automaton and two sets of a bit for each
/// state, and the room of the answer.
#[derive(Debug, Drop)]
pub struct Scan<'t> {
    table: &'t Table,
    signatures: Vec<SignatureScan>,
    marks: Vec<bool>,
    hits: Vec<Hit>,
}

impl<'t> Model for Scan<'t> {
    ghost use Rattle.std.specs.Prelude.{◌≡◌, ◌≤◌, length};
    ghost use Rattle.std.specs.Vec.{vec_capacity};
    ghost use Rattle.sig_match.specs.Scans.{ScanView};
    ghost use Rattle.sig_table.specs.Tables.{IsTable};

    ghost Value = { ScanView };

    ghost view = { λ s. record { table = s.table.now; signatures = s.signatures.items } };

    ghost invariant = { λ s. IsTable s.table.now
        × (length s.signatures.items ≡ length s.table.now.signatures)
        × (length s.marks.items ≡ length s.table.now.signatures)
        × (length s.table.now.formats ≤ vec_capacity s.hits) };
}

impl<'t> Scan<'t> {
    /// At the start of a file.
    pub fn new(alloc: Global, table: &'t Table) -> Result<Scan<'t>, AllocError>
        ensures table { IfOk result (λ scan. scan.table ≡ table.now) }
        ensures empty { IfOk result (λ scan. IsScanOf scan []) }
    {
        let count = table.signature_count();
        Ok(Scan {
            table,
            signatures: scans_of(alloc, table)?,
            marks: vec![in alloc; false; count]?,
            hits: Vec::with_capacity(alloc, table.format_count())?,
        })
    }

    /// Goes on by the next bytes of the file. It takes no memory.
    pub fn feed(&mut self, piece: &[u8])
        ensures table { self.new.table ≡ self.old.table }
        ensures goes_on { (file : List ℕ) → IsScanOf self.old file → IsScanOf self.new (file ++ piece.now) }
    {
        feed_each(&mut self.signatures, piece);
    }

    /// Answers which formats the file hits, each with its first signature that hits. It takes no
    /// memory.
    pub fn finish(self) -> Results
        ensures { (file : List ℕ) → IsScanOf self.entry file → HitFormats self.entry.table file result }
    {
        let Scan {
            table,
            signatures,
            mut marks,
            mut hits,
        } = self;
        mark_hits(&signatures, &mut marks);
        list_hits(table, &marks, &mut hits).unwrap();
        Results::new(hits)
    }
}

// A scan of each signature, at the start of a file.
fn scans_of(alloc: Global, table: &Table) -> Result<Vec<SignatureScan>, AllocError>
    ensures { IfOk result (λ scans. AreSignatureScansOf [] table.now.signatures scans.items) }
{
    let count = table.signature_count();
    let mut scans = Vec::with_capacity(alloc, count)?;
    for index in 0..count {
        let sequences = table.sequences_of(SigId(index as u16));
        scans.push(SignatureScan::of(alloc, sequences)?)?;
    }
    Ok(scans)
}

// Goes on by the piece in each signature.
fn feed_each(signatures: &mut [SignatureScan], piece: &[u8])
    ensures { (file : List ℕ) (known : List SignatureView) → AreSignatureScansOf file known signatures.old → AreSignatureScansOf (file ++ piece.now) known signatures.new }
{
    for signature in signatures.iter_mut() {
        signature.feed(piece);
    }
}

// Marks each signature that hits the file, if it ends here.
fn mark_hits(signatures: &[SignatureScan], marks: &mut [bool])
    requires { length marks.old ≡ length signatures.now }
    ensures { (table : TableView) (file : List ℕ) → IsTable table → IsBytes file → AreSignatureScansOf file table.signatures signatures.now → MarksHits table file marks.new }
{
    for (index, signature) in signatures.iter().enumerate() {
        marks[index] = signature.hits();
    }
}
