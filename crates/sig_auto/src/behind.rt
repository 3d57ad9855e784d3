//! What comes behind a state: its own next slot, and the cells that are entered behind it.
//!
//! The cell of a slot is found by halving, once for a state; then it is asked on many bytes. Of
//! `41{1-2}42` the first slot of the gap has the second for its own next one, and enters `42`.

ghost use Rattle.std.specs.Prelude.{◌≡◌, ◌⊎◌, ◌+◌, ◌<◌, ◌≤◌, ◌↔◌, ℕ, None, Some, IfSome, IsTrue, drop, length, true};
ghost use Rattle.sig_auto.specs.Behind.{AreReady, IsBehind, IsCellOf, LiesBehind, is_own, slots_in};
ghost use Rattle.sig_auto.specs.Joined.{entered_first};
ghost use Rattle.sig_auto.specs.Joints.{AreJoints};
ghost use Rattle.sig_auto.specs.States.{HaveSameSuccessors};
ghost use Rattle.sig_auto.specs.Ways.{leave, own};

use crate::cell::Cell;
use crate::joint::Joints;

/// What comes behind a state of an automaton, without the automaton.
#[derive(Clone, Copy, Debug, PartialEq, Eq)]
pub struct Behind {
    /// The next slot of its own cell.
    pub(crate) own: Option<u32>,
    /// The place of the cell of that slot; 0 where there is none.
    pub(crate) cell: u32,
    /// The first cell that is entered; there is none where this is how many cells there are.
    pub(crate) enters: u32,
    /// Nothing need come.
    pub(crate) ends: bool,
}

impl Cell {
    // The slot of the cell that goes behind slot p.
    pub(crate) fn own(&self, p: u32) -> Option<u32>
        requires { self.now.before + self.now.count ≤ 65535 }
        ensures is { (q : ℕ) → own self.now p q ≡ is_own result q }
        ensures within { IfSome result (λ q. q ≤ self.now.before + self.now.count) }
    {
        let last = self.before + self.count;
        if p < last {
            Some(p + 1)
        } else if self.endless && p == last {
            Some(p)
        } else {
            None
        }
    }

    // Whether slot p leaves the cell.
    pub(crate) fn leaves(&self, p: u32) -> bool
        ensures yes { IsTrue result → leave self.now p ≡ Some self.now.behind }
        ensures not { (result ≡ true → ⊥) → leave self.now p ≡ None }
    {
        self.before as u64 + self.least as u64 <= p as u64
    }
}

// How many slots the cells have.
pub(crate) fn slots(cells: &[Cell]) -> u32
    requires { AreReady cells.now }
    ensures { result ≡ slots_in cells.now }
{
    if cells.is_empty() {
        return 0;
    }
    let last = &cells[cells.len() - 1];
    last.before + last.count
}

// The place of the cell that has the slot.
pub(crate) fn find(cells: &[Cell], p: u32) -> usize
    requires ready { AreReady cells.now }
    requires above { 0 < p }
    requires within { p ≤ slots_in cells.now }
    ensures { IsCellOf cells.now p result }
{
    let guess = (p - 1) as usize;
    if guess < cells.len() && cells[guess].before == p - 1 {
        return guess;
    }
    let mut low = 0;
    let mut high = cells.len();
    while high - low > 1 {
        let half = low + (high - low) / 2;
        if cells[half].before < p {
            low = half;
        } else {
            high = half;
        }
    }
    low
}

impl Behind {
    /// Whether the same states are found to follow. Where it is not found, they may be the same. It
    /// is found of the last slots of the alternatives of a list.
    pub fn leads_like(&self, other: &Behind) -> bool
        ensures { IsTrue result → HaveSameSuccessors self.now other.now }
    {
        self.own == other.own && self.enters == other.enters
    }

    // Whether q is the own next slot.
    pub(crate) fn has(&self, q: u32) -> bool
        ensures { result ≡ is_own self.now.own q }
    {
        match self.own {
            Some(own) => q == own,
            None => false,
        }
    }

    // What comes behind the state.
    pub(crate) fn of(cells: &[Cell], joints: &Joints, p: u32) -> Behind
        requires ready { AreReady cells.now }
        requires joints { AreJoints cells.now joints.now }
        requires within { p ≤ slots_in cells.now }
        ensures is { IsBehind cells.now p result }
        ensures order { IfSome result.own (λ q. LiesBehind q (drop result.enters cells.now)) }
        ensures cell { IfSome result.own (λ q. IsCellOf cells.now q result.cell) }
    {
        if p == 0 {
            return Behind {
                own: None,
                cell: 0,
                enters: joints.start,
                ends: joints.nullable,
            };
        }
        let k = find(cells, p);
        let cell = &cells[k];
        let joint = &joints.each[k];
        let own = cell.own(p);
        let place = if own.is_some() { k as u32 } else { 0 };
        if cell.leaves(p) {
            Behind {
                own,
                cell: place,
                enters: joint.enters,
                ends: joint.ends,
            }
        } else {
            Behind {
                own,
                cell: place,
                enters: cells.len() as u32,
                ends: false,
            }
        }
    }
}

// Whether slot q is entered where this cell is.
pub(crate) fn is_entered(cells: &[Cell], joints: &Joints, from: u32, q: u32) -> bool
    requires ready { AreReady cells.now }
    requires joints { AreJoints cells.now joints.now }
    ensures { result ≡ entered_first (drop from cells.now) q }
{
    let mut at = from as usize;
    while at < cells.len() {
        if cells[at].before + 1 == q {
            return true;
        }
        at = joints.each[at].beside as usize;
    }
    false
}
