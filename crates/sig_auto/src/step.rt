//! Steps of a set of states.
//!
//! One pass over the cells, from the first to the last. That a cell is entered is noted in the new
//! set itself, at its first slot; when the pass comes to the cell, it enters the cell beside it,
//! and keeps the slot only if it takes the byte. A gap of any length is one cell, whose slots are
//! shifted by whole bytes.

ghost use Rattle.std.specs.Prelude.{◌≡◌, ◌≢◌, ◌⊎◌, ◌↔◌, ◌+◌, ◌*◌, ◌<◌, ◌≤◌, ℕ, IsTrue, length};
ghost use Rattle.sig_auto.specs.Behind.{AreReady, slots_in};
ghost use Rattle.sig_auto.specs.CellSteps.{AreWide, GoesWithin, IsCellStep, IsFirstOf, IsLeft, IsSomePassed};
ghost use Rattle.sig_auto.specs.Joints.{AreJoints};
ghost use Rattle.sig_bits.specs.BitSets.{HasBit};

use crate::cell::Cell;
use crate::joint::Joints;
use sig_bits::{any_between, clear, get_bit, set_bit, shift_into};

// Makes `to` the set of all slots that come behind a state of `from` and take the byte.
pub(crate) fn step(cells: &[Cell], joints: &Joints, from: &[u8], byte: u8, to: &mut [u8])
    requires ready { AreReady cells.now }
    requires joints { AreJoints cells.now joints.now }
    requires wide { AreWide cells.now from.now to.old }
    ensures { (q : ℕ) → HasBit to.new q ↔ IsCellStep cells.now joints.now from.now byte q }
{
    clear(to);
    enter_if(cells, joints.start, get_bit(from, 0), to);
    for k in 0..cells.len() {
        pass(cells, joints, k, from, byte, to);
    }
}

// Goes on over one cell.
fn pass(cells: &[Cell], joints: &Joints, k: usize, from: &[u8], byte: u8, to: &mut [u8])
    requires ready { AreReady cells.now }
    requires joints { AreJoints cells.now joints.now }
    requires within { k < length cells.now }
    requires wide { AreWide cells.now from.now to.old }
    requires passed { IsSomePassed cells.now joints.now from.now byte to.old k }
    ensures { IsSomePassed cells.now joints.now from.now byte to.new (k + 1) }
{
    let cell = cells[k];
    let joint = joints.each[k];
    let first = cell.before as usize + 1;
    let takes = cell.class.contains(byte);
    enter_if(cells, joint.beside, get_bit(to, first), to);
    enter_if(cells, joint.enters, is_left(cell, from), to);
    keep_if(to, first, takes);
    add_within(cell, from, takes, to);
}

// Adds the first slot of the cell at this place, if there is one and it is entered.
fn enter_if(cells: &[Cell], at: u32, is_entered: bool, to: &mut [u8])
    requires ready { AreReady cells.now }
    requires to_len { slots_in cells.now < 8 * length to.old }
    ensures { (s : ℕ) → HasBit to.new s ↔ (HasBit to.old s ⊎ (IsTrue is_entered × IsFirstOf cells.now at s)) }
{
    if !is_entered {
        return;
    }
    if let Some(cell) = cells.get(at as usize) {
        set_bit(to, cell.before as usize + 1);
    }
}

// Whether a state of the set leaves the cell.
fn is_left(cell: Cell, from: &[u8]) -> bool
    requires few { cell.before + cell.count ≤ 65535 }
    requires from_len { cell.before + cell.count < 8 * length from.now }
    ensures { IsTrue result ↔ IsLeft cell from.now }
{
    let before = cell.before as usize;
    let least = before.saturating_add(cell.least as usize).max(before + 1);
    any_between(from, least, before + cell.count as usize + 1)
}

// Takes the slot out of the set, unless it is to be kept.
fn keep_if(set: &mut [u8], slot: usize, is_kept: bool)
    requires { slot < 8 * length set.old }
    ensures { (s : ℕ) → HasBit set.new s ↔ (HasBit set.old s × ((s ≢ slot) ⊎ IsTrue is_kept)) }
{
    if !is_kept {
        set[slot / 8] &= !(1 << (slot % 8));
    }
}

// Adds the slots of the cell that come behind a state of the set within it, if they take the byte.
fn add_within(cell: Cell, from: &[u8], takes: bool, to: &mut [u8])
    requires some { 0 < cell.count }
    requires few { cell.before + cell.count ≤ 65535 }
    requires from_len { cell.before + cell.count < 8 * length from.now }
    requires to_len { cell.before + cell.count < 8 * length to.old }
    ensures { (s : ℕ) → HasBit to.new s ↔ (HasBit to.old s ⊎ (IsTrue takes × GoesWithin cell from.now s)) }
{
    if !takes {
        return;
    }
    let first = cell.before as usize + 1;
    let last = cell.before as usize + cell.count as usize;
    shift_into(to, from, first, last);
    if cell.endless && get_bit(from, last) {
        set_bit(to, last);
    }
}
