//! The states that follow one state on a byte, rising, without memory of their own.
//!
//! First the state's own next slot, if it takes the byte; then the first slots of the cells that
//! are entered behind it, from one to the one beside it.

ghost use Rattle.std.specs.Prelude.{◌≡◌, ◌≤◌, drop};
ghost use Rattle.sig_auto.specs.Behind.{AreReady};
ghost use Rattle.sig_auto.specs.Joints.{AreJoints};
ghost use Rattle.sig_auto.specs.Props.{AreReady-prop, AreJoints-prop};
ghost use Rattle.sig_auto.specs.Taken.{GivesFirst, taken_first};

use crate::cell::Cell;
use crate::joint::Joints;

/// An iterator over the states that follow a state and take a byte, rising.
#[derive(Debug, Drop)]
pub struct Successors<'a> {
    pub(crate) cells: &'a [Cell],
    pub(crate) joints: &'a Joints,
    pub(crate) own: Option<u32>,
    pub(crate) at: usize,
    pub(crate) byte: u8,
    ghost ready: { AreReady cells.now } by { AreReady-prop cells.now },
    ghost joined: { AreJoints cells.now joints.now } by { AreJoints-prop cells.now joints.now },
}

impl Iterator for Successors<'_> {
    ghost use Rattle.std.specs.Iterator.{YieldsFirst, item_count};
    ghost use Rattle.sig_auto.specs.Remaining.{remaining_of};

    type Item = u32;

    ghost next_gives = { YieldsFirst remaining_of };

    ghost remaining = { item_count remaining_of };

    fn next(&mut self) -> Option<u32> {
        if let Some(q) = self.own {
            self.own = None;
            return Some(q);
        }
        let found = next_taken(self.cells, self.joints, self.at, self.byte);
        self.at = found.1;
        found.0
    }
}

// The first slot of the first cell from here on that is entered and takes the byte, and the cell
// that is entered next.
fn next_taken(cells: &[Cell], joints: &Joints, from: usize, byte: u8) -> (Option<u32>, usize)
    requires ready { AreReady cells.now }
    requires joints { AreJoints cells.now joints.now }
    ensures { GivesFirst result.0 (taken_first byte (drop from cells.now)) (taken_first byte (drop result.1 cells.now)) }
{
    let mut at = from;
    while at < cells.len() {
        let next = joints.each[at].beside as usize;
        if cells[at].class.contains(byte) {
            return (Some(cells[at].before + 1), next);
        }
        at = next;
    }
    (None, at)
}
