//! Laws of the automaton: what its runs say of files.
//!
//! `runs_accept_what_stands` is what it is for: some run of a file accepts exactly if the sequence
//! occurs in the file. The others say how runs begin, go on by a byte and end, as the subset
//! construction takes them, and that it can be decided in which states the runs of a file end.

ghost use Rattle.std.specs.Prelude.{◌≡◌, ◌↔◌, ◌⊎◌, ◌<◌, ◌≤◌, ℕ, List, [], ◌∷◌, ◌++◌};
ghost use Rattle.sig_auto.specs.Runs.{Accepts, EndsIn, GoesOnTo, IsStepOf};
ghost use Rattle.sig_auto.specs.Tracks.{Accepting, Follows};
ghost use Rattle.sig_auto.specs.Trees.{Tree, whole_tree};
ghost use Rattle.sig_auto.specs.TreeSlots.{slots_of};
ghost use Rattle.sig_bits.specs.Bytes.{IsBytes};
ghost use Rattle.sig_table.specs.Views.{SequenceView};
ghost use Rattle.sig_table.specs.Slots.{slot_count};
ghost use Rattle.sig_table.specs.Standing.{Stands};
ghost use Rattle.sig_table.specs.Tables.{IsSequence};

/// Some run of a file accepts exactly where the sequence stands in the file.
pub fn runs_accept_what_stands()
    ensures { (s : SequenceView) (file : List ℕ) → IsSequence s → IsBytes file → Accepts (whole_tree s) file ↔ Stands s file }
{}

/// An automaton has as many slots as the limit of a sequence counts.
pub fn slots_are_counted()
    ensures { (s : SequenceView) → IsSequence s → slots_of (whole_tree s) ≡ slot_count s }
{}

/// The runs of the empty file end in the start alone.
pub fn runs_begin()
    ensures { (tree : Tree) (q : ℕ) → EndsIn tree [] q ↔ (q ≡ 0) }
{}

/// The runs of a file and one more byte go on from those of the file.
pub fn runs_go_on()
    ensures { (tree : Tree) (file : List ℕ) (b q : ℕ) → EndsIn tree (file ++ b ∷ []) q ↔ GoesOnTo tree file b q }
{}

/// A file is accepted exactly where some run of it ends in an accepting state.
pub fn accepts_by_an_end()
    ensures { (tree : Tree) (file : List ℕ) → Accepts tree file ↔ ((p : ℕ) × EndsIn tree file p × Accepting tree p) }
{}

/// Each state of a run is the start or a slot, and only slots follow a state.
pub fn states_are_slots()
    ensures ends { (tree : Tree) (file : List ℕ) (q : ℕ) → EndsIn tree file q → q ≤ slots_of tree }
    ensures follows { (tree : Tree) (p q : ℕ) → Follows tree p q → q ≤ slots_of tree }
    ensures above { (tree : Tree) (p q : ℕ) → Follows tree p q → 0 < q }
{}

/// For a sequence of a table it can be told whether some run of a file ends in a state, whether
/// a state of a set leads to it on a byte, and so whether the sequence stands in a file.
pub fn runs_are_decided()
    ensures ends { (s : SequenceView) (file : List ℕ) (q : ℕ) → IsSequence s → EndsIn (whole_tree s) file q ⊎ ¬ EndsIn (whole_tree s) file q }
    ensures steps { (s : SequenceView) (set : List ℕ) (b q : ℕ) → IsSequence s → IsStepOf (whole_tree s) set b q ⊎ ¬ IsStepOf (whole_tree s) set b q }
    ensures stands { (s : SequenceView) (file : List ℕ) → IsSequence s → IsBytes file → Stands s file ⊎ ¬ Stands s file }
{}
