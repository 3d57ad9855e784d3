//! Frontiers: the offsets of a file at which the words so far may end, as ordered intervals.
//!
//! `41{1-2}42` over the bytes 41 42 42 from their start: the frontier is 0, then 1 after `41`, then
//! 2 to 3 after the gap, then 3 after `42`. All offsets that a gap allows stay in the frontier, so
//! the search never goes back.
//!
//! Most frontiers have a few intervals. At worst, with a word that ends at every second byte, one
//! takes eight bytes for each byte of the file, and its vector up to twice as many. A bitmap would
//! take less there, and more everywhere else.

ghost use Rattle.std.specs.Prelude.{◌⊎◌, OnOk, IfOk};
ghost use Rattle.sig_match.specs.Frontiers.{IsIn, IsWithin, Gains, HasExactly};

use std::alloc::{AllocError, Global};

/// The offsets from the one to the other, both counted in. Where they are out of order, none.
#[derive(Clone, Copy, Debug, PartialEq, Eq)]
pub(crate) struct Interval {
    pub(crate) from: usize,
    pub(crate) to: usize,
}

/// Adds an interval. Where it overlaps or touches the last one, the two become one.
///
/// The intervals stay disjoint only where the caller adds them in order of their starts. The
/// offsets are right in either case.
pub(crate) fn add(frontier: &mut Vec<Interval>, next: Interval) -> Result<(), AllocError>
    ensures { OnOk result (Gains (IsWithin next) frontier.old.items frontier.new.items) }
{
    if next.from > next.to {
        return Ok(());
    }
    let Some(last) = frontier.pop() else {
        frontier.push(next)?;
        return Ok(());
    };
    if last.from <= next.from && next.from.saturating_sub(1) <= last.to {
        let to = last.to.max(next.to);
        frontier.push(Interval {
            from: last.from,
            to,
        })?;
    } else {
        frontier.push(last)?;
        frontier.push(next)?;
    }
    Ok(())
}

/// Merges two frontiers.
pub(crate) fn union(
    alloc: Global,
    a: &[Interval],
    b: &[Interval],
) -> Result<Vec<Interval>, AllocError>
    ensures { IfOk result
        (λ both. HasExactly (λ offset. IsIn a.now offset ⊎ IsIn b.now offset) both.items) }
{
    let mut both = Vec::new(alloc);
    let mut i = 0;
    let mut j = 0;
    'merge: while i < a.len() || j < b.len() {
        if j == b.len() || i < a.len() && a[i].from <= b[j].from {
            add(&mut both, a[i])?;
            i += 1;
        } else {
            add(&mut both, b[j])?;
            j += 1;
        }
    }
    Ok(both)
}
