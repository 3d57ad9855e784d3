//! From a frontier to the next: the offsets at which a word of an item ends that begins at an
//! offset of the frontier.
//!
//! Each offset of the file is looked at at most once for each part, and for a gap only the ends of
//! the intervals are. A run of fixed bytes is looked for whole.

ghost use Rattle.std.specs.Prelude.{◌≡◌, ◌<◌, ◌≤◌, ◌↔◌, IfOk, IsTrue, OnOk, length, take};
ghost use Rattle.sig_expr.specs.Words.{AlternativeWord, IsAtMost, Lang, PartWord, Word};
ghost use Rattle.sig_expr.specs.declared.item.Item.TheVariants as item;
ghost use Rattle.sig_match.specs.Frontiers.{IsIn, IsWithin, Gains, HasExactly, Reaches};
ghost use Rattle.sig_match.specs.Gaps.{gap_end};
ghost use Rattle.sig_match.specs.Runs.{IsRun};

use crate::whole::frontier::{Interval, add, union};
use crate::whole::part::{is_part_word, part_length};
use crate::whole::run::after_run;
use sig_expr::{Alternatives, Atom, Item};
use std::alloc::{AllocError, Global};
use std::mem::swap;

/// Takes the first item, or all of the run with which the items begin, and answers how many items
/// that are.
pub(crate) fn advance(
    alloc: Global,
    file: &[u8],
    frontier: &[Interval],
    items: &[Item],
    run: &[u8],
    ends: &mut Vec<Interval>,
) -> Result<usize, AllocError>
    requires some { 0 < length items.now }
    requires run { IsRun items.now run.now }
    ensures count { IfOk result (λ n. (0 < n) × (n ≤ length items.now)) }
    ensures ends { IfOk result
        (λ n. HasExactly (Reaches (Lang (take n items.now)) file.now (IsIn frontier.now)) ends.new.items) }
{
    if run.is_empty() {
        after_item(alloc, file, frontier, &items[0], ends)?;
        return Ok(1);
    }
    after_run(file, frontier, run, ends)?;
    Ok(run.len())
}

/// The ends of the item's words.
pub(crate) fn after_item(
    alloc: Global,
    file: &[u8],
    frontier: &[Interval],
    item: &Item,
    ends: &mut Vec<Interval>,
) -> Result<(), AllocError>
    ensures { OnOk result (HasExactly (Reaches (Word item.now) file.now (IsIn frontier.now)) ends.new.items) }
{
    match item {
        Item::Byte(byte) => after_part(file, frontier, &Atom::Byte(*byte), ends),
        Item::Any => after_gap(file, frontier, 1, Some(1), ends),
        Item::Gap { min, max } => after_gap(file, frontier, *min, *max, ends),
        Item::Alt(alternatives) => {
            *ends = after_alternatives(alloc, file, frontier, alternatives)?;
            Ok(())
        }
        Item::Range(a, b) => after_part(file, frontier, &Atom::Range(*a, *b), ends),
        Item::Not(a) => after_part(file, frontier, &Atom::Not(*a), ends),
        Item::NotRange(a, b) => after_part(file, frontier, &Atom::NotRange(*a, *b), ends),
    }
}

// The ends of the words of any alternative.
fn after_alternatives(
    alloc: Global,
    file: &[u8],
    frontier: &[Interval],
    alternatives: &Alternatives,
) -> Result<Vec<Interval>, AllocError>
    ensures { IfOk result
        (λ ends. HasExactly (Reaches (Word (item.Alt alternatives.now)) file.now (IsIn frontier.now))
        ends.items) }
{
    let mut ends = Vec::new(alloc);
    for alternative in alternatives.as_slice() {
        let others = after_parts(alloc, file, frontier, alternative.as_slice())?;
        ends = union(alloc, &ends, &others)?;
    }
    Ok(ends)
}

// The ends of the words of the parts, one after the other. No parts have the empty word.
fn after_parts(
    alloc: Global,
    file: &[u8],
    frontier: &[Interval],
    parts: &[Atom],
) -> Result<Vec<Interval>, AllocError>
    ensures { IfOk result
        (λ ends. HasExactly (Reaches (AlternativeWord parts.now) file.now (IsIn frontier.now))
        ends.items) }
{
    let mut ends = Vec::new(alloc);
    let mut next = Vec::new(alloc);
    after_gap(file, frontier, 0, Some(0), &mut ends)?;
    for part in parts {
        after_part(file, &ends, part, &mut next)?;
        swap(&mut ends, &mut next);
    }
    Ok(ends)
}

// The ends of the part's words.
fn after_part(
    file: &[u8],
    frontier: &[Interval],
    part: &Atom,
    ends: &mut Vec<Interval>,
) -> Result<(), AllocError>
    ensures { OnOk result (HasExactly (Reaches (PartWord part.now) file.now (IsIn frontier.now)) ends.new.items) }
{
    match part {
        Atom::Byte(byte) => after_run(file, frontier, &[*byte], ends),
        _ => after_bracket(file, frontier, part, ends),
    }
}

// The ends of the bracket's words.
fn after_bracket(
    file: &[u8],
    frontier: &[Interval],
    part: &Atom,
    ends: &mut Vec<Interval>,
) -> Result<(), AllocError>
    ensures { OnOk result (HasExactly (Reaches (PartWord part.now) file.now (IsIn frontier.now)) ends.new.items) }
{
    ends.clear();
    for interval in frontier {
        add_after_bracket(ends, file, *interval, part)?;
    }
    Ok(())
}

// Adds the ends of the bracket's words that begin in the interval.
fn add_after_bracket(
    ends: &mut Vec<Interval>,
    file: &[u8],
    interval: Interval,
    part: &Atom,
) -> Result<(), AllocError>
    ensures { OnOk result
        (Gains (Reaches (PartWord part.now) file.now (IsWithin interval))
        ends.old.items ends.new.items) }
{
    let len = part_length(part);
    let end = file
        .len()
        .saturating_sub(len - 1)
        .min(interval.to.saturating_add(1));
    for start in interval.from..end {
        let to = start + len;
        if is_part_word(part, &file[start..to]) {
            add(ends, Interval { from: to, to })?;
        }
    }
    Ok(())
}

// The ends of the gap's words.
fn after_gap(
    file: &[u8],
    frontier: &[Interval],
    min: u32,
    max: Option<u32>,
    ends: &mut Vec<Interval>,
) -> Result<(), AllocError>
    ensures { OnOk result
        (HasExactly (Reaches (Word (item.Gap min max)) file.now (IsIn frontier.now)) ends.new.items) }
{
    ends.clear();
    for interval in frontier {
        add_after_gap(ends, file, *interval, min, max)?;
    }
    Ok(())
}

// Adds the ends of the gap's words that begin in the interval: all from its start and the least
// length to its end and the greatest.
fn add_after_gap(
    ends: &mut Vec<Interval>,
    file: &[u8],
    interval: Interval,
    min: u32,
    max: Option<u32>,
) -> Result<(), AllocError>
    ensures { OnOk result
        (Gains (Reaches (Word (item.Gap min max)) file.now (IsWithin interval))
        ends.old.items ends.new.items) }
{
    let Some(from) = interval.from.checked_add(min as usize) else {
        return Ok(());
    };
    if interval.from > interval.to || !is_at_most(max, min) {
        return Ok(());
    }
    let to = greatest_end(file.len(), interval.to, max);
    add(ends, Interval { from, to })?;
    Ok(())
}

// Whether a gap may be so long.
fn is_at_most(max: Option<u32>, len: u32) -> bool
    ensures { IsTrue result ↔ IsAtMost max len }
{
    match max {
        Some(max) => len <= max,
        None => true,
    }
}

// The greatest end of a gap that begins at this offset at the latest.
fn greatest_end(len: usize, to: usize, max: Option<u32>) -> usize
    ensures { result ≡ gap_end len to max }
{
    match max {
        Some(max) => len.min(to.saturating_add(max as usize)),
        None => len,
    }
}
