//! One sequence of a scan: its automaton, and the states that it can be in.
//!
//! For `4142` at offset 0 the bytes `41 42` lead from the set {0} to {1} and {2}. The set before
//! the last step is not kept: two sets of the same room take turns.

ghost use Rattle.std.specs.Prelude.{◌↔◌, ◌++◌, ℕ, [], List, IfOk, IsTrue};
ghost use Rattle.sig_bits.specs.Bytes.{IsBytes};
ghost use Rattle.sig_match.specs.Scans.{IsSequenceScanOf};
ghost use Rattle.sig_table.specs.Standing.{Stands};
ghost use Rattle.sig_table.specs.Tables.{IsSequence};
ghost use Rattle.sig_table.specs.Views.{SequenceView};

use sig_auto::Auto;
use sig_table::Sequence;
use std::alloc::{AllocError, Global};
use std::marker::Model;
use std::mem::swap;

// The current set, and the room of the next one.
#[derive(Debug, Drop)]
pub(crate) struct SequenceScan {
    auto: Auto,
    set: Vec<u8>,
    next: Vec<u8>,
}

impl Model for SequenceScan {
    ghost use Rattle.std.specs.Prelude.{◌≡◌, length};
    ghost use Rattle.sig_auto.specs.Trees.{whole_tree};
    ghost use Rattle.sig_auto.specs.TreeSlots.{set_len};
    ghost use Rattle.sig_match.specs.Scans.{SequenceScanView};

    ghost Value = { SequenceScanView };

    ghost view = { λ s. record { sequence = s.auto; set = s.set.items } };

    ghost invariant = { λ s. (length s.set.items ≡ set_len (whole_tree s.auto)) × (length s.next.items ≡ set_len (whole_tree s.auto)) };
}

impl SequenceScan {
    // At the start of a file.
    pub(crate) fn of(alloc: Global, sequence: &Sequence) -> Result<SequenceScan, AllocError>
        ensures { IfOk result (IsSequenceScanOf [] sequence.now) }
    {
        let auto = Auto::of(alloc, sequence)?;
        let mut set = vec![in alloc; 0; auto.set_len()]?;
        let next = vec![in alloc; 0; auto.set_len()]?;
        auto.start_set(&mut set);
        Ok(SequenceScan { auto, set, next })
    }

    // Goes on by the piece.
    pub(crate) fn feed(&mut self, piece: &[u8])
        ensures { (file : List ℕ) (s : SequenceView) → IsSequenceScanOf file s self.old → IsSequenceScanOf (file ++ piece.now) s self.new }
    {
        for byte in piece {
            self.auto.step_set(&self.set, *byte, &mut self.next);
            swap(&mut self.set, &mut self.next);
        }
    }

    // Whether the sequence stands in the file, if it ends here.
    pub(crate) fn stands(&self) -> bool
        ensures { (file : List ℕ) (s : SequenceView) → IsSequence s → IsBytes file → IsSequenceScanOf file s self.now → (IsTrue result ↔ Stands s file) }
    {
        self.auto.any_accepting(&self.set)
    }
}
