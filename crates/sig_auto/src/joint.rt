//! Where one goes on behind each cell.
//!
//! For each cell the first cell that is entered behind it, and the one that is entered beside it
//! where it is entered itself: the next alternative of its list, or, where it is a gap that may be
//! skipped, what stands behind it. Of `41{0-2}42` the gap is entered behind `41`, and `42` beside
//! the gap.

ghost use Rattle.std.specs.Prelude.{◌≡◌, ◌⊎◌, ◌≤◌, ◌<◌, length, IfOk};
ghost use Rattle.sig_auto.specs.Joined.{Bounded, joint_past};
ghost use Rattle.sig_auto.specs.Joints.{AreJoints, IsJoined};

use crate::cell::Cell;
use std::alloc::{AllocError, Global};

/// What comes behind a cell.
#[derive(Clone, Copy, Debug)]
pub(crate) struct Joint {
    /// The first cell that is entered behind it.
    pub(crate) enters: u32,
    /// The next cell that is entered with it.
    pub(crate) beside: u32,
    /// Nothing need come behind it.
    pub(crate) ends: bool,
}

/// The joints of cells.
#[derive(Debug, Drop)]
pub(crate) struct Joints {
    /// That behind each cell.
    pub(crate) each: Vec<Joint>,
    /// The first cell that is entered at the start.
    pub(crate) start: u32,
    /// Nothing need come.
    pub(crate) nullable: bool,
}

impl Cell {
    // The joint that it leads to where it is entered.
    pub(crate) fn past(&self) -> u32
        ensures is { result ≡ joint_past self.now }
        ensures one { (result ≡ self.now.front) ⊎ (result ≡ self.now.behind) }
    {
        if self.least == 0 {
            self.behind
        } else {
            self.front
        }
    }
}

// The joints, by one pass from the last cell to the first.
pub(crate) fn join(alloc: Global, cells: &[Cell]) -> Result<Joints, AllocError>
    requires bounded { Bounded (length cells.now) cells.now }
    requires few { length cells.now ≤ 65535 }
    ensures { IfOk result (AreJoints cells.now) }
{
    let none = cells.len() as u32;
    let nothing = Joint {
        enters: none,
        beside: none,
        ends: true,
    };
    let mut first = vec![in alloc; none; cells.len() + 1]?;
    let mut lands = vec![in alloc; false; cells.len() + 1]?;
    let mut each = vec![in alloc; nothing; cells.len()]?;
    lands[cells.len()] = true;
    let mut k = cells.len();
    while k > 0 {
        k -= 1;
        each[k] = pass(&cells[k], k, &mut first, &mut lands);
    }
    Ok(Joints {
        each,
        start: first[0],
        nullable: lands[0],
    })
}

// The joint behind the cell at place k, where `first` has for each joint the first cell behind it
// from the next place on, and `lands` whether nothing need come behind it. They then say so from
// this place on.
fn pass(cell: &Cell, k: usize, first: &mut Vec<u32>, lands: &mut Vec<bool>) -> Joint
    requires front { cell.now.front < length first.old.items }
    requires behind { cell.now.behind < length first.old.items }
    requires same { length lands.old.items ≡ length first.old.items }
    requires few { k < 65535 }
    ensures { IsJoined cell.now k first.old.items lands.old.items result first.new.items lands.new.items }
{
    let front = cell.front as usize;
    let behind = cell.behind as usize;
    let past = cell.past() as usize;
    let joint = Joint {
        enters: first[behind],
        beside: first[past],
        ends: lands[behind],
    };
    lands[front] = lands[past];
    first[front] = k as u32;
    joint
}
