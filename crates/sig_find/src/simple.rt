//! Simple files: both signatures laid into one file, by a shortest word of each sequence.
//!
//! A search that gives up says nothing, though a file for it may be easy to write down: of `41` at
//! offset 4 and of `42` anywhere, `00 00 00 00 41 42`. A `Draft` has the cells from the start of
//! the file, and those from its end, which are counted backwards. A cell is a byte, or free. A
//! sequence is cut at its gaps, and each part is laid at the first of its offsets where each cell
//! is free or has the same byte. Sequences without offsets go behind those at the start. Free cells
//! are filled with one byte in the end.
//!
//! Nothing is proved of such a file: who takes it asks the matcher. The signature that is laid
//! first stands nearer to the start and to the end, so both orders are worth a try. Nothing that is
//! laid is moved again, and no second word of a sequence is tried.

ghost use Rattle.std.specs.Prelude.{◌<◌, length};
ghost use Rattle.sig_table.specs.Tables.{IsTable};

use sig_expr::{Atom, Item};
use sig_table::{Position, Sequence, SigId, Table};
use std::alloc::{AllocError, Global};
use std::cmp::Ordering;

/// The bytes that free cells are filled with in turn.
pub(crate) const PADDINGS: [u8; 3] = [0x00, 0x20, 0xFF];

// How many offsets are tried before a part goes behind all cells. It bounds the time for a long
// part over long cells.
const MOST_OFFSETS: usize = 256;

/// A file that is not filled yet: cells from its start, and others from its end backwards.
#[derive(Debug, Drop)]
pub(crate) struct Draft {
    head: Vec<Option<u8>>,
    tail: Vec<Option<u8>>,
}

impl Draft {
    /// The sequences of both signatures, those of the first one before those of the second. None,
    /// if one of them does not fit.
    pub(crate) fn of(
        alloc: Global,
        table: &Table,
        first: SigId,
        second: SigId,
    ) -> Result<Option<Draft>, AllocError>
        requires first { first.0 < length table.now.signatures }
        requires second { second.0 < length table.now.signatures }
        ensures { IsTable table.now }
    {
        let mut draft = Draft {
            head: Vec::new(alloc),
            tail: Vec::new(alloc),
        };
        let first = table.sequences_of(first);
        let second = table.sequences_of(second);
        let all_fit = draft.lay_at_offsets(alloc, first)?
            && draft.lay_at_offsets(alloc, second)?
            && draft.lay_behind(alloc, first)?
            && draft.lay_behind(alloc, second)?;
        if all_fit { Ok(Some(draft)) } else { Ok(None) }
    }

    /// The file, its free cells filled with this byte.
    pub(crate) fn file(&self, alloc: Global, padding: u8) -> Result<Vec<u8>, AllocError> {
        let mut file = Vec::new(alloc);
        for cell in &self.head {
            file.push(cell.unwrap_or(padding))?;
        }
        for cell in self.tail.iter().rev() {
            file.push(cell.unwrap_or(padding))?;
        }
        Ok(file)
    }

    // Lays the sequences that have offsets. Answers whether each fits.
    fn lay_at_offsets(
        &mut self,
        alloc: Global,
        sequences: &[Sequence],
    ) -> Result<bool, AllocError> {
        for sequence in sequences {
            let items = sequence.expr().items();
            let fits = match sequence.position() {
                Position::Bof { min, max } => {
                    let offsets = Offsets::between(min as usize, max as usize);
                    lay_items(alloc, &mut self.head, items, offsets, false)?
                }
                Position::Eof { min, max } => {
                    let offsets = Offsets::between(min as usize, max as usize);
                    lay_items(alloc, &mut self.tail, items, offsets, true)?
                }
                Position::Variable => true,
            };
            if !fits {
                return Ok(false);
            }
        }
        Ok(true)
    }

    // Lays the others behind all that stands at the start.
    fn lay_behind(&mut self, alloc: Global, sequences: &[Sequence]) -> Result<bool, AllocError> {
        for sequence in sequences {
            if sequence.position() == Position::Variable {
                let items = sequence.expr().items();
                let offsets = Offsets::from(self.head.len());
                if !lay_items(alloc, &mut self.head, items, offsets, false)? {
                    return Ok(false);
                }
            }
        }
        Ok(true)
    }
}

// Where a part may be laid: at the least offset or behind it, up to the greatest.
#[derive(Clone, Copy, Debug)]
struct Offsets {
    least: usize,
    greatest: usize,
}

impl Offsets {
    fn between(least: usize, greatest: usize) -> Offsets {
        Offsets { least, greatest }
    }

    fn from(least: usize) -> Offsets {
        Offsets::between(least, usize::MAX)
    }

    // Those behind a gap of so many bytes.
    fn behind_gap(self, min: u32, max: Option<u32>) -> Offsets {
        let least = self.least.saturating_add(min as usize);
        match max {
            Some(max) => Offsets::between(least, self.greatest.saturating_add(max as usize)),
            None => Offsets::from(least),
        }
    }
}

// Lays the items part by part, from the last one backwards if the cells are those of the end.
// Answers whether each part fits.
fn lay_items(
    alloc: Global,
    cells: &mut Vec<Option<u8>>,
    items: &[Item],
    mut offsets: Offsets,
    backwards: bool,
) -> Result<bool, AllocError> {
    let mut part = Vec::new(alloc);
    for i in 0..items.len() {
        let item = if backwards {
            &items[items.len() - 1 - i]
        } else {
            &items[i]
        };
        if let Item::Gap { min, max } = item {
            if !part.is_empty() {
                let Some(end) = lay(cells, &part, offsets)? else {
                    return Ok(false);
                };
                offsets = Offsets::between(end, end);
                part.clear();
            }
            offsets = offsets.behind_gap(*min, *max);
        } else {
            push_item(alloc, &mut part, item, backwards)?;
        }
    }
    let end = lay(cells, &part, offsets)?;
    Ok(end.is_some())
}

// Lays a part at the first offset where it fits, and answers where it ends.
fn lay(
    cells: &mut Vec<Option<u8>>,
    part: &[Option<u8>],
    offsets: Offsets,
) -> Result<Option<usize>, AllocError> {
    let Some(offset) = offset_of(cells, part, offsets) else {
        return Ok(None);
    };
    put(cells, part, offset)?;
    Ok(Some(offset.saturating_add(part.len())))
}

// The first of the next offsets where the part fits, or else that behind all cells.
fn offset_of(cells: &[Option<u8>], part: &[Option<u8>], offsets: Offsets) -> Option<usize> {
    for more in 0..MOST_OFFSETS {
        let offset = offsets.least.saturating_add(more);
        if offset > offsets.greatest {
            return None;
        }
        if fits(cells, part, offset) {
            return Some(offset);
        }
    }
    let behind = cells.len().max(offsets.least);
    if behind <= offsets.greatest {
        Some(behind)
    } else {
        None
    }
}

// Whether each byte of the part meets a free cell or the same byte.
fn fits(cells: &[Option<u8>], part: &[Option<u8>], offset: usize) -> bool {
    let Some(under) = cells.get(offset..) else {
        return true;
    };
    for (cell, byte) in under.iter().zip(part) {
        if let (Some(there), Some(byte)) = (cell, byte) {
            if there != byte {
                return false;
            }
        }
    }
    true
}

// Puts a part that fits at this offset.
fn put(cells: &mut Vec<Option<u8>>, part: &[Option<u8>], offset: usize) -> Result<(), AllocError> {
    if cells.len() < offset {
        cells.resize(offset, None)?;
    }
    let mut at = offset;
    for byte in part {
        match cells.get_mut(at) {
            Some(cell) => *cell = cell.or(*byte),
            None => cells.push(*byte)?,
        }
        at = at.saturating_add(1);
    }
    Ok(())
}

// A shortest word of the item, behind the part; backwards, if the part is.
fn push_item(
    alloc: Global,
    part: &mut Vec<Option<u8>>,
    item: &Item,
    backwards: bool,
) -> Result<(), AllocError> {
    let mut word = Vec::new(alloc);
    match item {
        Item::Byte(byte) => word.push(Some(*byte))?,
        Item::Any => word.push(None)?,
        Item::Gap { .. } => {}
        Item::Alt(alternatives) => {
            if let Some(alternative) = shortest(alternatives.as_slice()) {
                push_atoms(&mut word, alternative)?;
            }
        }
        Item::Range(first, last) => push_atom(&mut word, &Atom::Range(*first, *last))?,
        Item::Not(bytes) => push_atom(&mut word, &Atom::Not(*bytes))?,
        Item::NotRange(first, last) => push_atom(&mut word, &Atom::NotRange(*first, *last))?,
    }
    if backwards {
        word.reverse();
    }
    part.extend_from_slice(&word)?;
    Ok(())
}

// The first of the shortest ones.
fn shortest(alternatives: &[Vec<Atom>]) -> Option<&[Atom]> {
    let mut found: Option<&[Atom]> = None;
    for alternative in alternatives {
        let is_shorter = match found {
            Some(other) => len_of(alternative) < len_of(other),
            None => true,
        };
        if is_shorter {
            found = Some(alternative.as_slice());
        }
    }
    found
}

// How many bytes the words of the alternative have.
fn len_of(alternative: &[Atom]) -> usize {
    let mut len = 0usize;
    for atom in alternative {
        let more = match atom {
            Atom::Byte(_) => 1,
            Atom::Range(bytes, _) | Atom::Not(bytes) | Atom::NotRange(bytes, _) => {
                bytes.as_bytes().len()
            }
        };
        len = len.saturating_add(more);
    }
    len
}

fn push_atoms(word: &mut Vec<Option<u8>>, atoms: &[Atom]) -> Result<(), AllocError> {
    for atom in atoms {
        push_atom(word, atom)?;
    }
    Ok(())
}

// The byte, the first word of a range, or bytes of one kind that are not excluded.
fn push_atom(word: &mut Vec<Option<u8>>, atom: &Atom) -> Result<(), AllocError> {
    match atom {
        Atom::Byte(byte) => word.push(Some(*byte))?,
        Atom::Range(first, _) => {
            for byte in first.as_bytes() {
                word.push(Some(*byte))?;
            }
        }
        Atom::Not(bytes) => push_other(word, bytes.as_bytes(), bytes.as_bytes())?,
        Atom::NotRange(first, last) => push_other(word, first.as_bytes(), last.as_bytes())?,
    }
    Ok(())
}

// As many bytes, of the first kind of padding that is not in the range.
fn push_other(word: &mut Vec<Option<u8>>, first: &[u8], last: &[u8]) -> Result<(), AllocError> {
    for padding in PADDINGS {
        if order_of(padding, first) == Ordering::Less
            || order_of(padding, last) == Ordering::Greater
        {
            for _ in first {
                word.push(Some(padding))?;
            }
            return Ok(());
        }
    }
    Ok(())
}

// How as many bytes of padding compare with these.
fn order_of(padding: u8, bytes: &[u8]) -> Ordering {
    for byte in bytes {
        if padding < *byte {
            return Ordering::Less;
        }
        if padding > *byte {
            return Ordering::Greater;
        }
    }
    Ordering::Equal
}
