//! Where words of items end: a set of offsets, item by item, with no automaton.
//!
//! `41{1-2}42` over the bytes 41 42 42 from their start: the set is 0, then 1 behind `41`, then 2
//! and 3 behind the gap, then 3 behind `42`. All places that a gap allows are in the set at once,
//! so the search never goes back, and each item costs one pass over the window.

ghost use Rattle.std.specs.Prelude.{◌≡◌, ℕ, ◌+◌, ◌*◌, ◌/◌, ◌<◌, ◌≤◌, IfOk, length};
ghost use Rattle.sig_bits.specs.BitSets.{HasBit};
ghost use Rattle.sig_expr.specs.Words.{AlternativeWord, Lang, Word};
ghost use Rattle.sig_expr.specs.declared.item.Item.TheVariants as item;
ghost use Rattle.sig_scan.specs.Frontiers.{AreSetsOf, GainsBits, HasBits, IsLeastEnd, IsLeast, Reaches};

use crate::offsets::{add_any, add_gap, add_part, fill, lowest};
use sig_bits::{any_between, clear, or_into};
use sig_expr::{Alternatives, Atom, Item};
use std::alloc::{AllocError, Global};
use std::marker::Model;
use std::ops::Range;

// How many sets a window takes: the ends so far and the next ones, the same of an alternative, and
// the offsets at which bytes of a class stand.
const SETS: usize = 5;

// Room for the sets of a window.
#[derive(Debug, Drop)]
pub(crate) struct Frontier {
    room: usize,
    sets: Vec<u8>,
}

impl Model for Frontier {
    ghost use Rattle.std.specs.Prelude.{ℕ, ◌≡◌, ◌+◌, ◌*◌, ◌/◌, length};

    ghost Value = { ℕ };

    ghost view = { λ f. f.room };

    ghost invariant = { λ f. length f.sets.items ≡ 5 * (f.room / 8 + 1) };
}

impl Frontier {
    // With room for windows of so many bytes. Nothing grows afterwards.
    pub(crate) fn new(alloc: Global, room: usize) -> Result<Frontier, AllocError>
        ensures { IfOk result (λ f. f ≡ room) }
    {
        Ok(Frontier {
            room,
            sets: vec![in alloc; 0; SETS * (room / 8 + 1)]?,
        })
    }

    // The least offset from `least` on at which a word of the items ends that begins at one of the
    // entries.
    //
    // It costs one pass over the bytes from the first entry on for each item, and one for each part
    // of a list: bytes that no word reaches are best left out.
    pub(crate) fn first_end(
        &mut self,
        items: &[Item],
        bytes: &[u8],
        entries: Range<usize>,
        least: usize,
    ) -> Option<usize>
        requires { length bytes.now ≤ entries.start + self.old }
        ensures room { self.new ≡ self.old }
        ensures end { IsLeastEnd items.now bytes.now entries.start entries.end least result }
    {
        let from = entries.start;
        if bytes.len() < from {
            return None;
        }
        let window = &bytes[from..];
        let count = entries.end.saturating_sub(from).min(window.len() + 1);
        let end = least_end(
            items,
            window,
            count,
            least.saturating_sub(from),
            &mut self.sets,
        )?;
        Some(from + end)
    }
}

// The least end from `least` on of a word that begins at one of the first `count` offsets.
fn least_end(
    items: &[Item],
    bytes: &[u8],
    count: usize,
    least: usize,
    sets: &mut [u8],
) -> Option<usize>
    requires room { 5 * (length bytes.now / 8 + 1) ≤ length sets.old }
    requires count { count ≤ length bytes.now + 1 }
    ensures { IsLeast (Reaches (Lang items.now) bytes.now (λ k. k < count)) least (length bytes.now + 1) result }
{
    let len = bytes.len() / 8 + 1;
    let (ends, rest) = sets.split_at_mut(len);
    let (next, rest) = rest.split_at_mut(len);
    let (alternative, rest) = rest.split_at_mut(len);
    let (parts, rest) = rest.split_at_mut(len);
    fill(ends, count);
    run(
        items,
        bytes,
        ends,
        next,
        alternative,
        parts,
        &mut rest[..len],
    );
    lowest(ends, least, bytes.len() + 1)
}

// The ends of the words of the items that begin at the offsets of `ends`.
fn run(
    items: &[Item],
    bytes: &[u8],
    ends: &mut [u8],
    next: &mut [u8],
    alternative: &mut [u8],
    parts: &mut [u8],
    marks: &mut [u8],
)
    requires { AreSetsOf bytes.now ends.old next.old alternative.old parts.old marks.old }
    ensures { HasBits (Reaches (Lang items.now) bytes.now (HasBit ends.old)) ends.new }
{
    for item in items {
        clear(next);
        add_item(item, bytes, next, ends, alternative, parts, marks);
        ends.copy_from_slice(next);
        if !any_between(ends, 0, bytes.len() + 1) {
            return;
        }
    }
}

// Adds the ends of the item's words that begin at the starts.
fn add_item(
    item: &Item,
    bytes: &[u8],
    ends: &mut [u8],
    starts: &[u8],
    alternative: &mut [u8],
    parts: &mut [u8],
    marks: &mut [u8],
)
    requires { AreSetsOf bytes.now starts.now ends.old alternative.old parts.old marks.old }
    ensures { GainsBits (Reaches (Word item.now) bytes.now (HasBit starts.now)) ends.old ends.new }
{
    match item {
        Item::Byte(byte) => add_part(ends, starts, bytes, &Atom::Byte(*byte), marks),
        Item::Any => add_any(ends, starts, bytes),
        Item::Gap { min, max } => add_gap(ends, starts, bytes, *min, *max),
        Item::Alt(alternatives) => {
            add_alternatives(alternatives, bytes, ends, starts, alternative, parts, marks);
        }
        Item::Range(a, b) => add_part(ends, starts, bytes, &Atom::Range(*a, *b), marks),
        Item::Not(a) => add_part(ends, starts, bytes, &Atom::Not(*a), marks),
        Item::NotRange(a, b) => add_part(ends, starts, bytes, &Atom::NotRange(*a, *b), marks),
    }
}

// Adds the ends of the words of any alternative that begin at the starts.
fn add_alternatives(
    alternatives: &Alternatives,
    bytes: &[u8],
    ends: &mut [u8],
    starts: &[u8],
    alternative: &mut [u8],
    parts: &mut [u8],
    marks: &mut [u8],
)
    requires { AreSetsOf bytes.now starts.now ends.old alternative.old parts.old marks.old }
    ensures { GainsBits (Reaches (Word (item.Alt alternatives.now)) bytes.now (HasBit starts.now)) ends.old ends.new }
{
    for atoms in alternatives.as_slice() {
        alternative.copy_from_slice(starts);
        run_parts(atoms.as_slice(), bytes, alternative, parts, marks);
        or_into(ends, alternative);
    }
}

// The ends of the words of the parts, one after the other, that begin at the offsets of `ends`.
fn run_parts(atoms: &[Atom], bytes: &[u8], ends: &mut [u8], next: &mut [u8], marks: &mut [u8])
    requires room { length bytes.now < 8 * length ends.old }
    requires next { length next.old ≡ length ends.old }
    requires marks { length marks.old ≡ length ends.old }
    requires within { (offset : ℕ) → HasBit ends.old offset → offset ≤ length bytes.now }
    ensures { HasBits (Reaches (AlternativeWord atoms.now) bytes.now (HasBit ends.old)) ends.new }
{
    for atom in atoms {
        clear(next);
        add_part(next, ends, bytes, atom, marks);
        ends.copy_from_slice(next);
    }
}
