//! The sequences of one signature of a scan.
//!
//! Of a signature with `41` at BOF 0 and `42` at EOF 0 there are two scans, one for each sequence.
//! If a file ends behind `41 42`, both sequences stand in it, and the signature hits it. Of which
//! format it is, and which format outranks that, is not known here.

ghost use Rattle.std.specs.Prelude.{◌↔◌, ◌++◌, ℕ, [], List, All, IfOk, IsTrue};
ghost use Rattle.sig_bits.specs.Bytes.{IsBytes};
ghost use Rattle.sig_match.specs.Scans.{AreSequenceScansOf};
ghost use Rattle.sig_table.specs.Standing.{Stands};
ghost use Rattle.sig_table.specs.Tables.{IsSequence};
ghost use Rattle.sig_table.specs.Views.{SequenceView};

use crate::scan::sequence_scan::SequenceScan;
use sig_table::Sequence;
use std::alloc::{AllocError, Global};
use std::marker::Model;

#[derive(Debug, Drop)]
pub(crate) struct SignatureScan {
    sequences: Vec<SequenceScan>,
}

impl Model for SignatureScan {
    ghost use Rattle.std.specs.Prelude.{List};
    ghost use Rattle.sig_match.specs.Scans.{SequenceScanView};

    ghost Value = { List SequenceScanView };

    ghost view = { λ s. s.sequences.items };
}

impl SignatureScan {
    // At the start of a file.
    pub(crate) fn of(alloc: Global, sequences: &[Sequence]) -> Result<SignatureScan, AllocError>
        ensures { IfOk result (AreSequenceScansOf [] sequences.now) }
    {
        let mut scans = Vec::with_capacity(alloc, sequences.len())?;
        for sequence in sequences {
            scans.push(SequenceScan::of(alloc, sequence)?)?;
        }
        Ok(SignatureScan { sequences: scans })
    }

    // Goes on by the piece.
    pub(crate) fn feed(&mut self, piece: &[u8])
        ensures { (file : List ℕ) (sequences : List SequenceView) → AreSequenceScansOf file sequences self.old → AreSequenceScansOf (file ++ piece.now) sequences self.new }
    {
        feed_each(&mut self.sequences, piece);
    }

    // Whether the signature hits the file, if it ends here.
    pub(crate) fn hits(&self) -> bool
        ensures { (file : List ℕ) (sequences : List SequenceView) → All IsSequence sequences → IsBytes file → AreSequenceScansOf file sequences self.now → (IsTrue result ↔ All (λ s. Stands s file) sequences) }
    {
        all_stand(&self.sequences)
    }
}

// A signature has at most eight sequences, so this is not deep.
fn feed_each(scans: &mut [SequenceScan], piece: &[u8])
    ensures { (file : List ℕ) (sequences : List SequenceView) → AreSequenceScansOf file sequences scans.old → AreSequenceScansOf (file ++ piece.now) sequences scans.new }
{
    let Some((first, later)) = scans.split_first_mut() else {
        return;
    };
    first.feed(piece);
    feed_each(later, piece);
}

fn all_stand(scans: &[SequenceScan]) -> bool
    ensures { (file : List ℕ) (sequences : List SequenceView) → All IsSequence sequences → IsBytes file → AreSequenceScansOf file sequences scans.now → (IsTrue result ↔ All (λ s. Stands s file) sequences) }
{
    let Some((first, later)) = scans.split_first() else {
        return true;
    };
    first.stands() && all_stand(later)
}
