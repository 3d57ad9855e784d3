//! The prefilter: one look at a block for the literals of many stages.
//!
//! Of each literal four bytes in a row are entered, say `50 4B 03 04`. Every second place of a
//! block is looked at, so one of the threes `50 4B 03` and `4B 03 04` begins at such a place: both
//! are marked in a table of 64 KiB, and most places of a file are not marked. Where a mark is met,
//! the four bytes at the place and at the one before it are asked for in a table of lists, and the
//! literals of the list are compared. What is found is the first offset of the block at which each
//! sequence may go on. Where one of two bytes may stand, as in a word in either case, all texts of
//! the four places are entered, sixteen at most.
//!
//! The literal of a stage that has a greatest offset is looked for only as far as it may stand, and
//! not at all once that offset is passed.
//!
//! It leaves out literals of less than four bytes, those that find a list full, and which of its
//! four bytes make a literal rare: that is a guess.

ghost use Rattle.std.specs.Prelude.{◌≡◌, ◌⊎◌, ◌≢◌, ◌↔◌, ℕ, ◌+◌, ◌*◌, ◌-◌, ◌%◌, ◌^◌, ◌<◌, ◌≤◌, IfOk, IfSome, OnOk, IsTrue, Some, [], false, length, slice_index};
ghost use Rattle.std.specs.List.{slice_get};
ghost use Rattle.sig_scan.specs.Filters.{AddsEntry, AreKept, AreLowered, AreMissed, AreOwned, HasWindow, IsListed, IsNextPlace, IsPassedAt, IsUnlisted, IsWindow, behind_of, four_at, list_of, mark_of, text_of};
ghost use Rattle.sig_scan.specs.Literals.{StandsAt, byte_of};
ghost use Rattle.sig_scan.specs.declared.filter.Entry.{Entry};

use crate::literal::Literal;
use crate::state::{State, offsets_up_to};
use std::alloc::{AllocError, Global};
use std::marker::Model;

// How many marks there are.
const MARKS: usize = 1 << 16;

// How many lists there are, and how many entries each has room for.
const LISTS: usize = 1 << 12;

const DEPTH: usize = 8;

// How many entries there are at most.
const ENTRIES: usize = 65_535;

// How many texts four places of two bytes each have.
const TEXTS: u32 = 16;

/// A literal, where in it the four bytes are by which it is found, the greatest offset at which its
/// stage may begin, and whose it is: that of the stage of a sequence that has so many before it.
#[derive(Debug, Drop)]
pub(crate) struct Entry {
    pub(crate) literal: Literal,
    pub(crate) window: usize,
    pub(crate) until: Option<u32>,
    pub(crate) signature: usize,
    pub(crate) sequence: usize,
    pub(crate) done: usize,
}

/// The literals of stages.
#[derive(Debug, Drop)]
pub(crate) struct Filter {
    // Of each three bytes, whether they begin at one of the first two of the four bytes of an
    // entry.
    marks: Vec<u8>,
    // The lists: one more than the place of each entry, and 0 behind the last.
    slots: Vec<u16>,
    entries: Vec<Entry>,
}

impl Model for Filter {
    ghost use Rattle.std.specs.Prelude.{List};
    ghost use Rattle.sig_scan.specs.Filters.{IsFilter};
    ghost use Rattle.sig_scan.specs.declared.filter.Entry.{Entry};

    ghost Value = { List Entry };

    ghost view = { λ f. f.entries.items };

    ghost invariant = { λ f. IsFilter f.marks.items f.slots.items f.entries.items };
}

impl Filter {
    /// One of no literal.
    pub(crate) fn new(alloc: Global) -> Result<Filter, AllocError>
        ensures { IfOk result (λ f. f ≡ []) }
    {
        Ok(Filter {
            marks: vec![in alloc; 0; MARKS]?,
            slots: vec![in alloc; 0; LISTS * DEPTH]?,
            entries: Vec::new(alloc),
        })
    }

    /// Adds the literal of the stage of a sequence that has so many before it, if there is room.
    pub(crate) fn add(
        &mut self,
        literal: &Literal,
        until: Option<u32>,
        signature: usize,
        sequence: usize,
        done: usize,
    ) -> Result<(), AllocError>
        requires { 4 ≤ length literal.now.text }
        ensures { OnOk result (AddsEntry self.old self.new literal.now sequence done) }
    {
        let window = window_of(literal);
        let place = self.entries.len();
        if place >= ENTRIES {
            return Ok(());
        }
        let id = place as u16 + 1;
        if !enter_all(&mut self.marks, &mut self.slots, literal, window, id) {
            return Ok(());
        }
        self.entries.push(Entry {
            literal: literal.copy(),
            window,
            until,
            signature,
            sequence,
            done,
        })?;
        Ok(())
    }

    /// Finds for each sequence of a signature that the file may hit that waits in the stage of an
    /// entry an offset before which its literal stands behind none of those at which it may go on.
    /// What was found of the others stays.
    pub(crate) fn look(
        &self,
        bytes: &[u8],
        base: u64,
        states: &[State],
        may_hit: &[bool],
        found: &mut [usize],
    )
        ensures { AreMissed self.now bytes.now states.now found.old found.new }
    {
        let end = begin(&self.entries, bytes.len(), base, states, may_hit, found);
        let front = &bytes[..end];
        let mut place = self.next_listed(front, 0);
        'places: while place + 4 <= front.len() {
            self.visit(front, place, states, found);
            if place > 0 {
                self.visit(front, place - 1, states, found);
            }
            place = self.next_listed(front, place + 2);
        }
    }

    // The first place from this one on, in steps of two, at which entries are found, or one near
    // the end.
    fn next_listed(&self, bytes: &[u8], from: usize) -> usize
        requires even { from % 2 ≡ 0 }
        requires few { from < 2 ^ 63 }
        ensures place { IsNextPlace from result }
        ensures passed { (i w : ℕ) (e : Entry) → slice_get self.now i ≡ Some e → from ≤ w + 1 → w + 1 < result
            → w + 5 ≤ length bytes.now → ¬ HasWindow e bytes.now w }
    {
        let mut place = next_marked(&self.marks, bytes, from);
        'places: while place + 4 <= bytes.len() {
            if is_listed(&self.slots, bytes, place) {
                return place;
            }
            place = next_marked(&self.marks, bytes, place + 2);
        }
        place
    }

    // Lowers what was found by the entries of which the four bytes at this place are.
    fn visit(&self, bytes: &[u8], place: usize, states: &[State], found: &mut [usize])
        requires { place + 4 ≤ length bytes.now }
        ensures lowered { AreLowered found.old found.new }
        ensures passed { (i : ℕ) (e : Entry) → slice_get self.now i ≡ Some e → HasWindow e bytes.now place → IsPassedAt e bytes.now states.now place found.new }
    {
        let list = DEPTH * list_of(four(bytes, place));
        for slot in list..list + DEPTH {
            let id = self.slots[slot] as usize;
            if id > 0 && id <= self.entries.len() {
                compare(&self.entries[id - 1], bytes, place, states, found);
            }
        }
    }
}

// Lowers what was found for the sequence of the entry, if its literal stands here with its four
// bytes at this place.
fn compare(entry: &Entry, bytes: &[u8], place: usize, states: &[State], found: &mut [usize])
    ensures lowered { AreLowered found.old found.new }
    ensures passed { IsPassedAt entry.now bytes.now states.now place found.new }
{
    let k = entry.sequence;
    if k < states.len() && k < found.len() {
        found[k] = first_of(entry, bytes, place, states[k], found[k]);
    }
}

// The offset for which the literal stands so, if it comes first.
fn first_of(entry: &Entry, bytes: &[u8], place: usize, state: State, found: usize) -> usize
    ensures lowered { result ≤ found }
    ensures passed { (x : ℕ) → entry.now.done ≡ state.done → state.from ≤ x → x < result → x + entry.now.literal.at + entry.now.window ≡ place
        → ¬ StandsAt entry.now.literal bytes.now (x + entry.now.literal.at) }
{
    let at = entry.literal.at();
    if place < entry.window || place - entry.window < at || state.done != entry.done {
        return found;
    }
    let begin = place - entry.window;
    let offset = begin - at;
    if offset < state.from || offset >= found || !entry.literal.stands_at(bytes, begin) {
        return found;
    }
    offset
}

// Takes it that of no sequence of a signature that the file may hit that waits in the stage of an
// entry the literal stands. Answers how many of the bytes at hand, of which there are so many, a
// look has to see for this.
fn begin(
    entries: &[Entry],
    len: usize,
    base: u64,
    states: &[State],
    may_hit: &[bool],
    found: &mut [usize],
) -> usize
    requires { len < 2 ^ 63 }
    ensures within { result ≤ len }
    ensures owned { AreOwned entries.now states.now len result found.old found.new }
{
    let mut end: usize = 0;
    for entry in entries {
        let k = entry.sequence;
        let is_wanted = entry.signature < may_hit.len() && may_hit[entry.signature];
        if is_wanted && k < states.len() && k < found.len() && states[k].done == entry.done {
            let offsets = offsets_up_to(entry.until, base, len);
            found[k] = offsets;
            end = len.min(end.max(offsets + entry.literal.at() + entry.literal.text().len()));
        }
    }
    end
}

// Where in the literal the rarest four bytes are, by a guess.
fn window_of(literal: &Literal) -> usize
    requires { 4 ≤ length literal.now.text }
    ensures { IsWindow literal.now result }
{
    let mut best = 0;
    let mut most = 0;
    for at in 0..literal.text().len() - 3 {
        let sum = rarity(literal, at);
        if most < sum {
            most = sum;
            best = at;
        }
    }
    best
}

// A guess of how rare four bytes are: one that is the same as the one before it tells less.
fn rarity(literal: &Literal, window: usize) -> u32
    requires { IsWindow literal.now window }
{
    let mut sum: u32 = 0;
    for k in window..window + 4 {
        if k == window || literal.byte(k, 0) != literal.byte(k - 1, 0) {
            sum = sum.saturating_add(literal.weight(k));
        }
    }
    sum
}

// Enters all texts of the four places of a literal, if there is room.
fn enter_all(marks: &mut [u8], slots: &mut [u16], literal: &Literal, window: usize, id: u16) -> bool
    requires marks { length marks.old ≡ 65536 }
    requires slots { length slots.old ≡ 32768 }
    requires window { IsWindow literal.now window }
    requires some { 0 < id }
    ensures kept { AreKept marks.old slots.old marks.new slots.new }
    ensures listed { IsTrue result → (n : ℕ) → n < 16 → IsListed marks.new slots.new id (text_of literal.now window n) (behind_of literal.now window n) }
{
    for choice in 0..text_count(literal, window) {
        let behind = behind_of(literal, window, choice);
        let four = u32::from(literal.byte(window, choice % 2)) + behind * 0x100;
        if !enter(marks, slots, four, behind, id) {
            return false;
        }
    }
    true
}

// How many texts four places have at most: one where each has one byte.
fn text_count(literal: &Literal, window: usize) -> u32
    requires { IsWindow literal.now window }
    ensures all { (result ≡ 16) ⊎ ((result ≡ 1) × ((k : ℕ) → window ≤ k → k < window + 4 → byte_of literal.now k 0 ≡ byte_of literal.now k 1)) }
{
    for k in window..window + 4 {
        if literal.byte(k, 0) != literal.byte(k, 1) {
            return TEXTS;
        }
    }
    1
}

// The last three of the four bytes of a choice as one number.
fn behind_of(literal: &Literal, window: usize, choice: u32) -> u32
    requires { IsWindow literal.now window }
    ensures value { result ≡ behind_of literal.now window choice }
    ensures few { result < 2 ^ 24 }
{
    u32::from(literal.byte(window + 1, choice / 2 % 2))
        + u32::from(literal.byte(window + 2, choice / 4 % 2)) * 0x100
        + u32::from(literal.byte(window + 3, choice / 8 % 2)) * 0x1_0000
}

// Marks four bytes, of which the last three are given too, and puts an entry into their list, if
// there is room.
fn enter(marks: &mut [u8], slots: &mut [u16], four: u32, behind: u32, id: u16) -> bool
    requires marks { length marks.old ≡ 65536 }
    requires slots { length slots.old ≡ 32768 }
    requires some { 0 < id }
    ensures kept { AreKept marks.old slots.old marks.new slots.new }
    ensures listed { IsTrue result → IsListed marks.new slots.new id four behind }
{
    let list = DEPTH * list_of(four);
    let Some(slot) = slot_for(slots, list, id) else {
        return false;
    };
    slots[slot] = id;
    marks[mark_of(four)] = 1;
    marks[mark_of(behind)] = 1;
    true
}

// The first slot of a list that is free, or has the entry.
fn slot_for(slots: &[u16], list: usize, id: u16) -> Option<usize>
    requires { list + 8 ≤ length slots.now }
    ensures { IfSome result (λ slot. (list ≤ slot) × (slot < list + 8)
        × ((slice_index slots.now slot ≡ 0) ⊎ (slice_index slots.now slot ≡ id))
        × ((slot ≡ list) ⊎ (slice_index slots.now list ≢ 0))) }
{
    for slot in list..list + DEPTH {
        if slots[slot] == 0 || slots[slot] == id {
            return Some(slot);
        }
    }
    None
}

// The first marked place from this one on, in steps of two, or one near the end. Four are asked at
// once.
#[inline(never)]
fn next_marked(marks: &[u8], bytes: &[u8], from: usize) -> usize
    requires marks { length marks.now ≡ 65536 }
    requires even { from % 2 ≡ 0 }
    requires few { from < 2 ^ 63 + 8 }
    ensures place { IsNextPlace from result }
    ensures unmarked { (y : ℕ) → from ≤ y → y < result → y % 2 ≡ 0 → y + 4 ≤ length bytes.now
        → slice_index marks.now (mark_of (four_at bytes.now y)) ≡ 0 }
{
    let mut place = from;
    'fours: while place + 10 <= bytes.len() {
        let sum = mark_at(marks, bytes, place)
            + mark_at(marks, bytes, place + 2)
            + mark_at(marks, bytes, place + 4)
            + mark_at(marks, bytes, place + 6);
        if sum > 0 {
            break;
        }
        place += 8;
    }
    'ones: while place + 4 <= bytes.len() && mark_at(marks, bytes, place) == 0 {
        place += 2;
    }
    place
}

// The mark of the three bytes at this place.
#[inline(always)]
fn mark_at(marks: &[u8], bytes: &[u8], place: usize) -> u32
    requires marks { length marks.now ≡ 65536 }
    requires place { place + 4 ≤ length bytes.now }
    ensures mark { result ≡ slice_index marks.now (mark_of (four_at bytes.now place)) }
    ensures few { result < 256 }
{
    u32::from(marks[mark_of(four(bytes, place))])
}

// Whether there are entries of the four bytes at this place, or at the one before it.
fn is_listed(slots: &[u16], bytes: &[u8], place: usize) -> bool
    requires slots { length slots.now ≡ 32768 }
    requires place { place + 4 ≤ length bytes.now }
    ensures { result ≡ false → IsUnlisted slots.now bytes.now place × (0 < place → IsUnlisted slots.now bytes.now (place - 1)) }
{
    slots[DEPTH * list_of(four(bytes, place))] != 0
        || place > 0 && slots[DEPTH * list_of(four(bytes, place - 1))] != 0
}

// Four bytes as one number.
#[inline(always)]
fn four(bytes: &[u8], at: usize) -> u32
    requires { at + 4 ≤ length bytes.now }
    ensures { result ≡ four_at bytes.now at }
{
    bytes[at] as u32
        + bytes[at + 1] as u32 * 0x100
        + bytes[at + 2] as u32 * 0x1_0000
        + bytes[at + 3] as u32 * 0x100_0000
}

// The place of the mark of the lowest three of four bytes.
#[inline(always)]
fn mark_of(four: u32) -> usize
    ensures value { result ≡ mark_of four }
    ensures few { result < 65536 }
{
    (u64::from(four) * 0x3779_B100 % 0x1_0000_0000 / 0x1_0000) as usize
}

// The number of the list of four bytes.
#[inline(always)]
fn list_of(four: u32) -> usize
    ensures value { result ≡ list_of four }
    ensures few { result < 4096 }
{
    (u64::from(four) * 0x9E37_79B1 % 0x1_0000_0000 / 0x10_0000) as usize
}
