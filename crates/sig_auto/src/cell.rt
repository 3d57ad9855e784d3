//! The cells of an automaton: its slots in order, those of a gap together.
//!
//! `41{1-2}42` at offset 0 has four cells: `41`, the gap, `42`, and the gap for whatever follows.
//! Between cells stand joints, each named by how many cells stand before it: `41` stands between
//! the joints 0 and 1, the gap between 1 and 2. The alternatives of a list stand side by side
//! between the same two joints.

use crate::class::Class;

/// One slot, or all slots of a gap.
#[derive(Clone, Copy, Debug)]
pub(crate) struct Cell {
    /// What each of its slots takes.
    pub(crate) class: Class,
    /// How many slots stand before it.
    pub(crate) before: u32,
    /// How many slots it has.
    pub(crate) count: u32,
    /// From so many of its slots on it may be left; with 0 it may be skipped.
    pub(crate) least: u32,
    /// Its last slot goes behind itself.
    pub(crate) endless: bool,
    /// The joint behind which it begins.
    pub(crate) front: u32,
    /// The joint that comes behind it.
    pub(crate) behind: u32,
}
