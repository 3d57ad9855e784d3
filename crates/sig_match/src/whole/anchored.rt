//! Whether a sequence occurs in a file that lies in memory, at its position.
//!
//! The search goes item by item from a set of offsets to the next (`frontier`). The position gives
//! the first set and the test of the last one. If no word is longer than n, an EOF sequence with
//! the greatest offset m begins in the last n + m bytes, so no others are searched. If all that
//! remains is a run of bytes that may end anywhere, its first occurrence decides.

ghost use Rattle.std.specs.Prelude.{◌≡◌, ◌-◌, ◌↔◌, ◌≤◌, ℕ, IsTrue, IfOk, MatchOption};
ghost use Rattle.sig_match.specs.Frontiers.{IsWithin, MayBegin, MayEnd, Meets};
ghost use Rattle.sig_table.specs.Standing.{Stands};

use crate::whole::advance::advance;
use crate::whole::frontier::{Interval, add};
use crate::whole::longest::longest_of;
use crate::whole::run::{gather_run, has_run};
use sig_table::{Position, Sequence};
use std::alloc::{AllocError, Global};
use std::mem::swap;

/// Whether the sequence stands in the file.
pub(crate) fn stands(alloc: Global, file: &[u8], sequence: &Sequence) -> Result<bool, AllocError>
    ensures { IfOk result (λ b. IsTrue b ↔ Stands sequence.now file.now) }
{
    let position = sequence.position();
    let items = sequence.expr().items();
    let longest = longest_of(items);
    let mut frontier = Vec::new(alloc);
    let mut ends = Vec::new(alloc);
    let mut run = Vec::new(alloc);
    add(&mut frontier, starts(position, longest, file.len()))?;
    let mut done = 0;
    'items: while done < items.len() && !frontier.is_empty() {
        let later = &items[done..];
        gather_run(later, &mut run)?;
        if run.len() == later.len() && may_end_anywhere(position) {
            return Ok(has_run(file, &frontier, &run));
        }
        done += advance(alloc, file, &frontier, later, &run, &mut ends)?;
        swap(&mut frontier, &mut ends);
    }
    Ok(has_end(&frontier, position, file.len()))
}

// The offsets at which a sequence of this position may begin, in a file of this length, where no
// word of it is longer than this. At the end of a file it begins at most so far before its end.
fn starts(position: Position, longest: Option<usize>, len: usize) -> Interval
    ensures { (offset : ℕ) → offset ≤ len → (IsWithin result offset ↔ MayBegin position longest len offset) }
{
    match position {
        Position::Bof { min, max } => Interval {
            from: min as usize,
            to: max as usize,
        },
        Position::Eof { max, .. } => Interval {
            from: first_start(longest, max as usize, len),
            to: len,
        },
        Position::Variable => Interval { from: 0, to: len },
    }
}

// The first offset from which a word that is no longer than this reaches the last bytes of a file.
fn first_start(longest: Option<usize>, last: usize, len: usize) -> usize
    ensures { MatchOption longest (result ≡ 0) (λ n. result ≡ len - n - last) }
{
    match longest {
        Some(longest) => len.saturating_sub(longest).saturating_sub(last),
        None => 0,
    }
}

// Whether a sequence of this position may end at any offset.
fn may_end_anywhere(position: Position) -> bool
    ensures { IsTrue result → (len offset : ℕ) → MayEnd position len offset }
{
    match position {
        Position::Eof { .. } => false,
        Position::Bof { .. } | Position::Variable => true,
    }
}

// The offsets at which a sequence of this position may end, in a file of this length.
fn ends(position: Position, len: usize) -> Option<Interval>
    ensures { MatchOption result
        ((offset : ℕ) → offset ≤ len → ¬ MayEnd position len offset)
        (λ i. (offset : ℕ) → IsWithin i offset ↔ ((offset ≤ len) × MayEnd position len offset)) }
{
    match position {
        Position::Eof { min, max } => Some(Interval {
            from: len.saturating_sub(max as usize),
            to: len.checked_sub(min as usize)?,
        }),
        Position::Bof { .. } | Position::Variable => Some(Interval { from: 0, to: len }),
    }
}

// Whether a sequence of this position may end at an offset of the frontier.
fn has_end(frontier: &[Interval], position: Position, len: usize) -> bool
    ensures { IsTrue result
        ↔ Meets (λ offset. (offset ≤ len) × MayEnd position len offset) frontier.now }
{
    match ends(position, len) {
        Some(ends) => overlaps(frontier, ends),
        None => false,
    }
}

// Whether an offset of the frontier is in this interval too.
fn overlaps(frontier: &[Interval], other: Interval) -> bool
    ensures { IsTrue result ↔ Meets (IsWithin other) frontier.now }
{
    for interval in frontier {
        if interval.from.max(other.from) <= interval.to.min(other.to) {
            return true;
        }
    }
    false
}
