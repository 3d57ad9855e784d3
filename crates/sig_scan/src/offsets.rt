//! Sets of offsets of a window, as bits in bytes: of the offsets 0 to n of a window of n bytes
//! those at which something ends.
//!
//! The set of 1 and 2 is `06`. The byte `42` behind it, over the window `41 42 42`, makes the set
//! of 2 and 3: `0C`. In the field these are marker streams (Parabix). Each of these calls passes
//! over the window once, whatever the set and however wide a gap is.

ghost use Rattle.std.specs.Prelude.{◌≡◌, ◌*◌, ◌+◌, ◌<◌, ◌≤◌, ◌^◌, ◌↔◌, ◌⊎◌, ℕ, None, Some, length};
ghost use Rattle.sig_bits.specs.BitSets.{HasBit};
ghost use Rattle.sig_expr.specs.Words.{PartWord, Word};
ghost use Rattle.sig_expr.specs.declared.item.Item.TheVariants as item;
ghost use Rattle.sig_scan.specs.Classes.{IsOneOf};
ghost use Rattle.sig_scan.specs.Frontiers.{GainsBits, HasBits, IsBetween, IsGreatest, IsLeast, IsNextStart, Reaches};

use crate::class::{Class, class_of};
use crate::marks::{and_into, mark};
use crate::part::{is_part_word, part_length};
use sig_bits::{any_between, clear, get_bit, set_bit, shift_into};
use sig_expr::Atom;

// So many offsets are asked at once whether one of them is in a set.
const STRIDE: usize = 256;

/// Makes it the set of the first `count` offsets.
pub(crate) fn fill(set: &mut [u8], count: usize)
    requires { count ≤ 8 * length set.old }
    ensures { HasBits (λ offset. offset < count) set.new }
{
    clear(set);
    add_range(set, 0, count);
}

/// Adds the offsets from `from` up to `to`, which is left out.
pub(crate) fn add_range(set: &mut [u8], from: usize, to: usize)
    requires { to ≤ 8 * length set.old }
    ensures { (j : ℕ) → HasBit set.new j ↔ (HasBit set.old j ⊎ IsBetween from to j) }
{
    if to <= from {
        return;
    }
    let first = from / 8 + 1;
    let last = to / 8;
    if last <= first {
        add_bits(set, from, to);
        return;
    }
    add_bits(set, from, 8 * first);
    add_bytes(set, first, last);
    add_bits(set, 8 * last, to);
}

// The same, bit by bit.
fn add_bits(set: &mut [u8], from: usize, to: usize)
    requires order { from ≤ to }
    requires within { to ≤ 8 * length set.old }
    ensures { (j : ℕ) → HasBit set.new j ↔ (HasBit set.old j ⊎ IsBetween from to j) }
{
    for offset in from..to {
        set_bit(set, offset);
    }
}

// The same for the bits of the bytes from the first up to the last, which is left out.
fn add_bytes(set: &mut [u8], first: usize, last: usize)
    requires order { first ≤ last }
    requires within { last ≤ length set.old }
    ensures { (j : ℕ) → HasBit set.new j ↔ (HasBit set.old j ⊎ IsBetween (8 * first) (8 * last) j) }
{
    for k in first..last {
        set[k] = 255;
    }
}

/// The least offset of the set from `least` up to `end`, which is left out.
pub(crate) fn lowest(set: &[u8], least: usize, end: usize) -> Option<usize>
    requires { end ≤ 8 * length set.now }
    ensures { IsLeast (HasBit set.now) least end result }
{
    let mut from = least;
    while end.saturating_sub(from) >= STRIDE && !any_between(set, from, from + STRIDE) {
        from += STRIDE;
    }
    for offset in from..end {
        if get_bit(set, offset) {
            return Some(offset);
        }
    }
    None
}

/// The greatest offset of the set from `least` up to `end`, which is left out.
pub(crate) fn highest(set: &[u8], least: usize, end: usize) -> Option<usize>
    requires { end ≤ 8 * length set.now }
    ensures { IsGreatest (HasBit set.now) least end result }
{
    let mut to = end;
    while to.saturating_sub(least) >= STRIDE && !any_between(set, to - STRIDE, to) {
        to -= STRIDE;
    }
    while to > least {
        to -= 1;
        if get_bit(set, to) {
            return Some(to);
        }
    }
    None
}

/// Adds the ends of the part's words that begin at the starts. `marks` is room for a set.
pub(crate) fn add_part(ends: &mut [u8], starts: &[u8], bytes: &[u8], part: &Atom, marks: &mut [u8])
    requires ends { length bytes.now < 8 * length ends.old }
    requires starts { length starts.now ≡ length ends.old }
    requires marks { length marks.old ≡ length ends.old }
    ensures { GainsBits (Reaches (PartWord part.now) bytes.now (HasBit starts.now)) ends.old ends.new }
{
    match class_of(part) {
        Some(class) => add_class(ends, starts, bytes, class, marks),
        None => add_bracket(ends, starts, bytes, part),
    }
}

// Adds the ends of a byte of the class.
fn add_class(ends: &mut [u8], starts: &[u8], bytes: &[u8], class: Class, marks: &mut [u8])
    requires ends { length bytes.now < 8 * length ends.old }
    requires starts { length starts.now ≡ length ends.old }
    requires marks { length marks.old ≡ length ends.old }
    ensures { GainsBits (Reaches (IsOneOf class) bytes.now (HasBit starts.now)) ends.old ends.new }
{
    mark(marks, bytes, class);
    and_into(marks, starts);
    shift_into(ends, marks, 0, bytes.len());
}

// Adds the ends of a bracket of any length, end by end.
fn add_bracket(ends: &mut [u8], starts: &[u8], bytes: &[u8], part: &Atom)
    requires ends { length bytes.now < 8 * length ends.old }
    requires starts { length bytes.now < 8 * length starts.now }
    ensures { GainsBits (Reaches (PartWord part.now) bytes.now (HasBit starts.now)) ends.old ends.new }
{
    let len = part_length(part);
    for end in len..bytes.len() + 1 {
        let start = end - len;
        if get_bit(starts, start) && is_part_word(part, &bytes[start..end]) {
            set_bit(ends, end);
        }
    }
}

/// Adds the ends of any one byte that begins at the starts.
pub(crate) fn add_any(ends: &mut [u8], starts: &[u8], bytes: &[u8])
    requires ends { length bytes.now < 8 * length ends.old }
    requires starts { length bytes.now < 8 * length starts.now }
    ensures { GainsBits (Reaches (Word item.Any) bytes.now (HasBit starts.now)) ends.old ends.new }
{
    shift_into(ends, starts, 0, bytes.len());
}

/// Adds the ends of the gap's words that begin at the starts.
pub(crate) fn add_gap(ends: &mut [u8], starts: &[u8], bytes: &[u8], min: u32, max: Option<u32>)
    requires ends { length bytes.now < 8 * length ends.old }
    requires starts { length bytes.now < 8 * length starts.now }
    ensures { GainsBits (Reaches (Word (item.Gap min max)) bytes.now (HasBit starts.now)) ends.old ends.new }
{
    match max {
        Some(max) => add_bounded_gap(ends, starts, bytes, min, max),
        None => add_open_gap(ends, starts, bytes, min),
    }
}

// Adds the ends of a gap without a greatest length: all from the first start and the least length
// on.
fn add_open_gap(ends: &mut [u8], starts: &[u8], bytes: &[u8], min: u32)
    requires ends { length bytes.now < 8 * length ends.old }
    requires starts { length bytes.now < 8 * length starts.now }
    ensures { GainsBits (Reaches (Word (item.Gap min None)) bytes.now (HasBit starts.now)) ends.old ends.new }
{
    let end = bytes.len() + 1;
    if let Some(start) = lowest(starts, 0, end) {
        add_range(ends, start + min as usize, end);
    }
}

// Adds the ends of a gap with a greatest length. The ends of one start are a range, and those of
// the starts between this one and the last whose range touches it are in the two ranges: so it goes
// from the one to the other, and each two steps are longer than the range.
fn add_bounded_gap(ends: &mut [u8], starts: &[u8], bytes: &[u8], min: u32, max: u32)
    requires ends { length bytes.now < 8 * length ends.old }
    requires starts { length bytes.now < 8 * length starts.now }
    ensures { GainsBits (Reaches (Word (item.Gap min (Some max))) bytes.now (HasBit starts.now)) ends.old ends.new }
{
    if max < min {
        return;
    }
    let width = (max - min) as usize;
    let end = bytes.len() + 1;
    let mut next = lowest(starts, 0, end);
    'hops: while let Some(start) = next {
        let from = start + min as usize;
        add_range(ends, from, end.min(from + width + 1));
        next = next_start(starts, start, width, end);
    }
}

// The last start so near behind this one that their ranges touch, or else the next one.
fn next_start(starts: &[u8], start: usize, width: usize, end: usize) -> Option<usize>
    requires order { start < end }
    requires within { end ≤ 8 * length starts.now }
    requires fits { start + width + 2 < 2 ^ 64 }
    ensures { IsNextStart (HasBit starts.now) start width end result }
{
    let near = end.min(start + width + 2);
    match highest(starts, start + 1, near) {
        Some(last) => Some(last),
        None => lowest(starts, near, end),
    }
}
