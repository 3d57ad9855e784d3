//! How many slots a sequence takes: the positions of its position automaton, counted without it.
//!
//! `41{1-2}42` at offset 0 takes five: one for each byte, two for the gap, and one for whatever
//! follows. Slots are taken off a budget, so that no sum overflows. That an automaton has as many
//! is a law of `sig_auto` (`slots_are_counted`).

ghost use Rattle.std.specs.Prelude.{◌≡◌, ◌≤◌, ◌+◌, nat_lt, length, map, min, sum_by};
ghost use Rattle.sig_table.specs.Budgets.{minus};
ghost use Rattle.sig_table.specs.Slots.{above_rows, atom_slots, below_rows, between_rows, bracket_slots, item_slots, position_slots, slot_count};

use crate::Position;
use crate::sequence::Placed;
use sig_expr::{Atom, Item};

// The greatest number of slots.
const MOST: usize = 65535;

// Whether the sequence has over 65,535 slots.
pub(crate) fn has_too_many_slots(sequence: &Placed) -> bool
    ensures { result ≡ nat_lt 65535 (slot_count sequence.now) }
{
    count_slots(sequence.position, sequence.expr.items()) > MOST
}

// How many slots the sequence has, up to one past the limit.
pub(crate) fn count_slots(position: Position, items: &[Item]) -> usize
    ensures { result ≡ min (slot_count (record { position = position; items = items.now })) 65536 }
{
    let Some(budget) = minus(MOST, position_slots(position)) else {
        return MOST + 1;
    };
    match budget_after_items(budget, items) {
        Some(left) => MOST - left,
        None => MOST + 1,
    }
}

// How many slots the offsets take.
fn position_slots(position: Position) -> usize
    ensures { result ≡ position_slots position }
{
    match position {
        Position::Bof { max, .. } | Position::Eof { max, .. } => max as usize + 1,
        Position::Variable => 2,
    }
}

// What remains of the budget, if it is enough.
fn minus(budget: usize, slots: usize) -> Option<usize>
    ensures { result ≡ minus budget slots }
{
    if budget < slots {
        None
    } else {
        Some(budget - slots)
    }
}

// What remains behind the items.
fn budget_after_items(mut budget: usize, items: &[Item]) -> Option<usize>
    ensures { result ≡ minus budget (sum_by item_slots items.now) }
{
    for item in items {
        budget = budget_after_item(budget, item)?;
    }
    Some(budget)
}

fn budget_after_item(budget: usize, item: &Item) -> Option<usize>
    ensures { result ≡ minus budget (item_slots item.now) }
{
    match item {
        Item::Byte(_) | Item::Any => minus(budget, 1),
        Item::Gap { min, max: None } => minus(budget, *min as usize + 1),
        Item::Gap { max: Some(max), .. } => minus(budget, *max as usize),
        Item::Alt(alternatives) => budget_after_alternatives(budget, alternatives.as_slice()),
        Item::Range(a, b) => minus(budget, range_slots(a.as_bytes(), b.as_bytes())),
        Item::Not(a) => minus(budget, outside_slots(a.as_bytes(), a.as_bytes())),
        Item::NotRange(a, b) => minus(budget, outside_slots(a.as_bytes(), b.as_bytes())),
    }
}

// What remains behind the alternatives.
fn budget_after_alternatives(mut budget: usize, alternatives: &[Vec<Atom>]) -> Option<usize>
    ensures { result ≡ minus budget (sum_by (λ a. sum_by atom_slots a) (map (λ v. v.items) alternatives.now)) }
{
    for alternative in alternatives {
        budget = budget_after_atoms(budget, alternative.as_slice())?;
    }
    Some(budget)
}

// What remains behind the parts.
fn budget_after_atoms(mut budget: usize, atoms: &[Atom]) -> Option<usize>
    ensures { result ≡ minus budget (sum_by atom_slots atoms.now) }
{
    for atom in atoms {
        budget = minus(budget, atom_slots(atom))?;
    }
    Some(budget)
}

fn atom_slots(atom: &Atom) -> usize
    ensures { result ≡ atom_slots atom.now }
{
    match atom {
        Atom::Byte(_) => 1,
        Atom::Range(a, b) => range_slots(a.as_bytes(), b.as_bytes()),
        Atom::Not(a) => outside_slots(a.as_bytes(), a.as_bytes()),
        Atom::NotRange(a, b) => outside_slots(a.as_bytes(), b.as_bytes()),
    }
}

// The slots of a bracket from the first bytes to the second.
fn range_slots(a: &[u8], b: &[u8]) -> usize
    requires a_len { length a.now ≤ 8 }
    requires b_len { length b.now ≤ 8 }
    ensures { result ≡ bracket_slots (length a.now) (between_rows a.now b.now) }
{
    bracket_slots(a.len(), between_rows(a, b))
}

// The slots of a bracket of what is before the first bytes or after the second.
fn outside_slots(a: &[u8], b: &[u8]) -> usize
    requires a_len { length a.now ≤ 8 }
    requires b_len { length b.now ≤ 8 }
    ensures { result ≡ bracket_slots (length a.now) (below_rows a.now + above_rows b.now) }
{
    bracket_slots(a.len(), below_rows(a) + above_rows(b))
}

fn bracket_slots(len: usize, rows: usize) -> usize
    requires len { len ≤ 8 }
    requires rows { rows ≤ 32 }
    ensures { result ≡ bracket_slots len rows }
{
    if len == 1 { 1 } else { len * rows }
}

// A row for each place whose byte can be lowered.
fn below_rows(bytes: &[u8]) -> usize
    ensures rows { result ≡ below_rows bytes.now }
    ensures most { result ≤ length bytes.now }
{
    bytes.iter().filter(|b| **b > 0).count()
}

// A row for each place whose byte can be raised.
fn above_rows(bytes: &[u8]) -> usize
    ensures rows { result ≡ above_rows bytes.now }
    ensures most { result ≤ length bytes.now }
{
    bytes.iter().filter(|b| **b < 255).count()
}

// Rows of what stands behind the first place where the two differ, and of the two themselves.
fn between_rows(a: &[u8], b: &[u8]) -> usize
    requires a_len { length a.now ≤ 8 }
    requires b_len { length b.now ≤ 8 }
    ensures rows { result ≡ between_rows a.now b.now }
    ensures most { result ≤ 32 }
{
    for i in 0..a.len().min(b.len()) {
        if a[i] != b[i] {
            let inner = if a[i] < b[i] && b[i] - a[i] > 1 { 1 } else { 0 };
            return above_rows(&a[i + 1..]) + below_rows(&b[i + 1..]) + inner + 2;
        }
    }
    0
}
