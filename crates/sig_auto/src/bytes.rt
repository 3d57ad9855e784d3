//! The bytes that lead on, and those that tell slots apart.
//!
//! Of the cells `41`, `[42:43]` and `41` the bytes 41, 42, 43 and 44 are cuts: at each some cell
//! takes the byte and not the one below, or the other way round. Between two cuts all bytes do the
//! same.

ghost use Rattle.std.specs.Prelude.{◌↔◌, ◌+◌, ◌<◌, ℕ};
ghost use Rattle.sig_auto.specs.Behind.{AreReady};
ghost use Rattle.sig_auto.specs.CellSides.{EachSide, EnteredOn, SlotOn};
ghost use Rattle.sig_auto.specs.Cuts.{AddsCuts, AddsLive};
ghost use Rattle.sig_auto.specs.Joints.{AreJoints};
ghost use Rattle.sig_bits.specs.ByteClasses.{Holds};
ghost use Rattle.sig_bits.specs.Groups.{Together};

use crate::cell::Cell;
use crate::class::Class;
use crate::joint::Joints;
use sig_bits::{ByteClass, Groups};

// Splits each group of which some cell takes some bytes and not others.
pub(crate) fn split_groups(cells: &[Cell], groups: &mut Groups)
    ensures { (a b : ℕ) → a < 256 → b < 256 → (Together groups.new a b ↔ (Together groups.old a b × EachSide cells.now a b)) }
{
    for cell in cells {
        let (first, last) = cell.class.ends();
        groups.split(first, last);
    }
}

// Adds each byte that some cell takes without the byte below, or the other way round.
pub(crate) fn add_all_cuts(cells: &[Cell], cuts: &mut ByteClass)
    ensures cuts { (b : ℕ) → b + 1 < 256 → ¬ Holds cuts.new (b + 1) → (¬ Holds cuts.old (b + 1)) × EachSide cells.now b (b + 1) }
    ensures kept { (b : ℕ) → Holds cuts.old b → Holds cuts.new b }
{
    for cell in cells {
        cell.class.add_cuts(cuts);
    }
}

// Adds the bytes that a slot of this class takes, and the cuts between them.
pub(crate) fn add_class(class: Class, live: &mut ByteClass, cuts: &mut ByteClass)
    ensures live { (q : ℕ) → AddsLive live.old live.new (SlotOn class q) }
    ensures cuts { (q : ℕ) → AddsCuts cuts.old cuts.new (SlotOn class q) }
    ensures kept { (b : ℕ) → Holds cuts.old b → Holds cuts.new b }
{
    live.extend(&class.bytes());
    class.add_cuts(cuts);
}

// Adds the bytes on which a cell is entered that begins where this one does, and the cuts between
// them.
pub(crate) fn add_entered(
    cells: &[Cell],
    joints: &Joints,
    from: u32,
    live: &mut ByteClass,
    cuts: &mut ByteClass,
)
    requires ready { AreReady cells.now }
    requires joints { AreJoints cells.now joints.now }
    ensures live { AddsLive live.old live.new (EnteredOn cells.now from) }
    ensures cuts { AddsCuts cuts.old cuts.new (EnteredOn cells.now from) }
    ensures kept { (b : ℕ) → Holds cuts.old b → Holds cuts.new b }
{
    let mut at = from as usize;
    while at < cells.len() {
        add_class(cells[at].class, live, cuts);
        at = joints.each[at].beside as usize;
    }
}
