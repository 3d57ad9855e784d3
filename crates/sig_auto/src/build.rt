//! From a sequence to its cells.
//!
//! One pass over the items. Each item is put between the joint behind the one before and a joint of
//! its own; so `41(42|4344)` puts `41` between 0 and 1, `42` between 1 and 4, `43` between 1 and 3,
//! and `44` between 3 and 4. A bracket of several bytes is unfolded into rows of classes
//! (`class_word`).

ghost use Rattle.std.specs.Prelude.{◌≡◌, ◌+◌, ◌<◌, ◌≤◌, IfOk, OnOk, if◌then◌else◌, length, map};
ghost use Rattle.sig_auto.specs.Trees.{Gap, Slot, alternatives_tree, atom_tree, atoms_tree, back_tree, front_tree, item_tree, outside_tree, row_tree, rows_tree};
ghost use Rattle.sig_auto.specs.TreeSlots.{slots_of};
ghost use Rattle.sig_auto.specs.Building.{Puts, PutsBehind, part_tree};
ghost use Rattle.sig_auto.specs.Cells.{cells_in};
ghost use Rattle.sig_auto.specs.Joined.{Spells};
ghost use Rattle.sig_expr.specs.Profile.{AlternativesSound, AtomSound, AtomsSound, ItemSound};

use crate::cell::Cell;
use crate::class::Class;
use crate::class_word::{ClassWord, outside_rows, range_rows};
use sig_expr::{Atom, Item};
use sig_table::{Position, Sequence};
use std::alloc::{AllocError, Global};

// Puts the cell of a slot.
fn push_slot(
    cells: &mut Vec<Cell>,
    n: u32,
    front: u32,
    behind: u32,
    class: Class,
) -> Result<u32, AllocError>
    requires { n < 65535 }
    ensures { IfOk result (Puts (Slot class) n front behind cells.old.items cells.new.items) }
{
    cells.push(Cell {
        class,
        before: n,
        count: 1,
        least: 1,
        endless: false,
        front,
        behind,
    })?;
    Ok(n + 1)
}

// Puts the cell of a gap, if it has a slot.
fn push_gap(cells: &mut Vec<Cell>, n: u32, min: u32, max: Option<u32>) -> Result<u32, AllocError>
    requires few { n + slots_of (Gap min max) ≤ 65535 }
    requires short { length cells.old.items + cells_in (Gap min max) ≤ 65535 }
    ensures { IfOk result (PutsBehind (Gap min max) n cells.old.items cells.new.items) }
{
    let count = match max {
        Some(max) => max,
        None => min + 1,
    };
    if count == 0 {
        return Ok(n);
    }
    let front = cells.len() as u32;
    cells.push(Cell {
        class: Class::ANY,
        before: n,
        count,
        least: min,
        endless: max.is_none(),
        front,
        behind: front + 1,
    })?;
    Ok(n + count)
}

// Puts the cells of a row.
fn push_row(
    cells: &mut Vec<Cell>,
    n: u32,
    front: u32,
    behind: u32,
    row: &[Class],
) -> Result<u32, AllocError>
    requires few { n + slots_of (row_tree row.now) ≤ 65535 }
    requires short { length cells.old.items + cells_in (row_tree row.now) ≤ 65535 }
    ensures { IfOk result (Puts (row_tree row.now) n front behind cells.old.items cells.new.items) }
{
    let mut slots = n;
    let mut from = front;
    for j in 0..row.len() {
        let next = joint_behind(cells.as_slice(), 1, j + 1 == row.len(), behind);
        slots = push_slot(cells, slots, from, next, row[j])?;
        from = next;
    }
    Ok(slots)
}

// The joint behind the next part of so many cells.
fn joint_behind(cells: &[Cell], part: u32, is_last: bool, behind: u32) -> u32
    requires { length cells.now + part ≤ 65535 }
    ensures { result ≡ (if is_last then behind else length cells.now + part) }
{
    if is_last {
        behind
    } else {
        cells.len() as u32 + part
    }
}

// A part of an alternative: one slot, or rows of slots.
#[derive(Drop)]
enum Part {
    One(Class),
    Rows(Vec<ClassWord>),
}

// The slots of a part.
fn part_of(alloc: Global, atom: &Atom) -> Result<Part, AllocError>
    ensures { IfOk result (λ part. part_tree part ≡ atom_tree atom.now) }
{
    match atom {
        Atom::Byte(b) => Ok(Part::One(Class::Within(*b, *b))),
        Atom::Range(a, b) => {
            let (a, b) = (a.as_bytes(), b.as_bytes());
            if a.len() == 1 {
                return Ok(Part::One(Class::Within(a[0], b[0])));
            }
            Ok(Part::Rows(range_rows(alloc, a, b)?))
        }
        Atom::Not(a) => part_outside(alloc, a.as_bytes(), a.as_bytes()),
        Atom::NotRange(a, b) => part_outside(alloc, a.as_bytes(), b.as_bytes()),
    }
}

// What is before the first bytes or after the second.
fn part_outside(alloc: Global, a: &[u8], b: &[u8]) -> Result<Part, AllocError>
    requires a { 0 < length a.now }
    requires b { 0 < length b.now }
    ensures { IfOk result (λ part. part_tree part ≡ outside_tree a.now b.now) }
{
    if a.len() == 1 {
        return Ok(Part::One(Class::Outside(a[0], b[0])));
    }
    Ok(Part::Rows(outside_rows(alloc, a, b)?))
}

// How many cells the rows take.
fn count_rows(rows: &[ClassWord]) -> usize
    requires { cells_in (rows_tree (map (λ v. v.items) rows.now)) ≤ 65535 }
    ensures { result ≡ cells_in (rows_tree (map (λ v. v.items) rows.now)) }
{
    let mut count = 0;
    for j in 0..rows.len() {
        count += rows[j].len();
    }
    count
}

impl Part {
    // How many cells it takes.
    fn count(&self) -> usize
        requires { cells_in (part_tree self.now) ≤ 65535 }
        ensures { result ≡ cells_in (part_tree self.now) }
    {
        match self {
            Part::One(_) => 1,
            Part::Rows(rows) => count_rows(rows.as_slice()),
        }
    }
}

// Puts the cells of the rows.
fn push_rows(
    cells: &mut Vec<Cell>,
    n: u32,
    front: u32,
    behind: u32,
    rows: &[ClassWord],
) -> Result<u32, AllocError>
    requires few { n + slots_of (rows_tree (map (λ v. v.items) rows.now)) ≤ 65535 }
    requires short { length cells.old.items + cells_in (rows_tree (map (λ v. v.items) rows.now)) ≤ 65535 }
    ensures { IfOk result (Puts (rows_tree (map (λ v. v.items) rows.now)) n front behind cells.old.items cells.new.items) }
{
    let mut slots = n;
    for j in 0..rows.len() {
        slots = push_row(cells, slots, front, behind, rows[j].as_slice())?;
    }
    Ok(slots)
}

// Puts the cells of a part.
fn push_part(
    cells: &mut Vec<Cell>,
    n: u32,
    front: u32,
    behind: u32,
    part: &Part,
) -> Result<u32, AllocError>
    requires few { n + slots_of (part_tree part.now) ≤ 65535 }
    requires short { length cells.old.items + cells_in (part_tree part.now) ≤ 65535 }
    ensures { IfOk result (Puts (part_tree part.now) n front behind cells.old.items cells.new.items) }
{
    match part {
        Part::One(class) => push_slot(cells, n, front, behind, *class),
        Part::Rows(rows) => push_rows(cells, n, front, behind, rows.as_slice()),
    }
}

// Puts the cells of an alternative.
fn push_atoms(
    alloc: Global,
    cells: &mut Vec<Cell>,
    n: u32,
    front: u32,
    behind: u32,
    atoms: &[Atom],
) -> Result<u32, AllocError>
    requires sound { AtomsSound atoms.now }
    requires few { n + slots_of (atoms_tree atoms.now) ≤ 65535 }
    requires short { length cells.old.items + cells_in (atoms_tree atoms.now) ≤ 65535 }
    ensures { IfOk result (Puts (atoms_tree atoms.now) n front behind cells.old.items cells.new.items) }
{
    let mut slots = n;
    let mut from = front;
    for j in 0..atoms.len() {
        let part = part_of(alloc, &atoms[j])?;
        let count = part.count() as u32;
        let next = joint_behind(cells.as_slice(), count, j + 1 == atoms.len(), behind);
        slots = push_part(cells, slots, from, next, &part)?;
        from = next;
    }
    Ok(slots)
}

// How many cells an alternative takes.
fn count_atoms(alloc: Global, atoms: &[Atom]) -> Result<usize, AllocError>
    requires { cells_in (atoms_tree atoms.now) ≤ 65535 }
    ensures { IfOk result (λ n. n ≡ cells_in (atoms_tree atoms.now)) }
{
    let mut count = 0;
    for j in 0..atoms.len() {
        count += part_of(alloc, &atoms[j])?.count();
    }
    Ok(count)
}

// How many cells alternatives take.
fn count_alternatives(alloc: Global, alternatives: &[Vec<Atom>]) -> Result<usize, AllocError>
    requires { cells_in (alternatives_tree (map (λ v. v.items) alternatives.now)) ≤ 65535 }
    ensures { IfOk result (λ n. n ≡ cells_in (alternatives_tree (map (λ v. v.items) alternatives.now))) }
{
    let mut count = 0;
    for j in 0..alternatives.len() {
        count += count_atoms(alloc, alternatives[j].as_slice())?;
    }
    Ok(count)
}

// Puts the cells of alternatives.
fn push_alternatives(
    alloc: Global,
    cells: &mut Vec<Cell>,
    n: u32,
    front: u32,
    behind: u32,
    alternatives: &[Vec<Atom>],
) -> Result<u32, AllocError>
    requires sound { AlternativesSound (map (λ v. v.items) alternatives.now) }
    requires few { n + slots_of (alternatives_tree (map (λ v. v.items) alternatives.now)) ≤ 65535 }
    requires short { length cells.old.items + cells_in (alternatives_tree (map (λ v. v.items) alternatives.now)) ≤ 65535 }
    ensures { IfOk result (Puts (alternatives_tree (map (λ v. v.items) alternatives.now)) n front behind cells.old.items cells.new.items) }
{
    let mut slots = n;
    for j in 0..alternatives.len() {
        slots = push_atoms(
            alloc,
            cells,
            slots,
            front,
            behind,
            alternatives[j].as_slice(),
        )?;
    }
    Ok(slots)
}

// Puts the cells of an item.
fn push_item(alloc: Global, cells: &mut Vec<Cell>, n: u32, item: &Item) -> Result<u32, AllocError>
    requires sound { ItemSound item.now }
    requires few { n + slots_of (item_tree item.now) ≤ 65535 }
    requires short { length cells.old.items + cells_in (item_tree item.now) ≤ 65535 }
    ensures { IfOk result (PutsBehind (item_tree item.now) n cells.old.items cells.new.items) }
{
    let front = cells.len() as u32;
    match item {
        Item::Byte(b) => push_slot(cells, n, front, front + 1, Class::Within(*b, *b)),
        Item::Any => push_slot(cells, n, front, front + 1, Class::ANY),
        Item::Gap { min, max } => push_gap(cells, n, *min, *max),
        Item::Alt(alternatives) => {
            let count = count_alternatives(alloc, alternatives.as_slice())? as u32;
            push_alternatives(
                alloc,
                cells,
                n,
                front,
                front + count,
                alternatives.as_slice(),
            )
        }
        Item::Range(a, b) => push_atom(alloc, cells, n, &Atom::Range(*a, *b)),
        Item::Not(a) => push_atom(alloc, cells, n, &Atom::Not(*a)),
        Item::NotRange(a, b) => push_atom(alloc, cells, n, &Atom::NotRange(*a, *b)),
    }
}

// Puts the cells of a part that is an item.
fn push_atom(alloc: Global, cells: &mut Vec<Cell>, n: u32, atom: &Atom) -> Result<u32, AllocError>
    requires few { n + slots_of (atom_tree atom.now) ≤ 65535 }
    requires short { length cells.old.items + cells_in (atom_tree atom.now) ≤ 65535 }
    ensures { IfOk result (PutsBehind (atom_tree atom.now) n cells.old.items cells.new.items) }
{
    let front = cells.len() as u32;
    let part = part_of(alloc, atom)?;
    let count = part.count() as u32;
    push_part(cells, n, front, front + count, &part)
}

// What may stand before the expression.
fn front_gap(position: Position) -> (u32, Option<u32>)
    ensures { front_tree position ≡ Gap result.0 result.1 }
{
    match position {
        Position::Bof { min, max } => (min as u32, Some(max as u32)),
        Position::Eof { .. } | Position::Variable => (0, None),
    }
}

// What may stand behind it.
fn back_gap(position: Position) -> (u32, Option<u32>)
    ensures { back_tree position ≡ Gap result.0 result.1 }
{
    match position {
        Position::Eof { min, max } => (min as u32, Some(max as u32)),
        Position::Bof { .. } | Position::Variable => (0, None),
    }
}

// The cells of a sequence.
pub(crate) fn cells_of(alloc: Global, sequence: &Sequence) -> Result<Vec<Cell>, AllocError>
    ensures { IfOk result (λ cells. Spells cells.items sequence.now) }
{
    let items = sequence.expr().items();
    let (min, max) = front_gap(sequence.position());
    let (back_min, back_max) = back_gap(sequence.position());
    let mut cells = Vec::new(alloc);
    let mut slots = push_gap(&mut cells, 0, min, max)?;
    for j in 0..items.len() {
        slots = push_item(alloc, &mut cells, slots, &items[j])?;
    }
    push_gap(&mut cells, slots, back_min, back_max)?;
    Ok(cells)
}
