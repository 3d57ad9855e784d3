//! Runs of literal bytes, which are searched whole, by `memmem`.
//!
//! `504B0304` is one search and not four steps. A run that overlaps itself and is not the last item
//! may occur at every byte, and each occurrence costs its length: `414141` of `414141??42` in a
//! file of 41.

ghost use Rattle.std.specs.Prelude.{◌≡◌, ◌+◌, ◌<◌, ◌↔◌, IsTrue, OnOk, length};
ghost use Rattle.memchr.specs.Find.{IsFirst, OccursAt};
ghost use Rattle.sig_match.specs.Frontiers.{Gains, HasExactly, IsIn, IsWithin, Meets, Reaches};
ghost use Rattle.sig_match.specs.Runs.{IsRun, IsThis};

use crate::whole::frontier::{Interval, add};
use memchr::memmem::Finder;
use sig_expr::Item;
use std::alloc::AllocError;

/// Gathers the bytes with which the items begin, up to the first item that is not a byte.
pub(crate) fn gather_run(items: &[Item], run: &mut Vec<u8>) -> Result<(), AllocError>
    ensures { OnOk result (IsRun items.now run.new.items) }
{
    run.clear();
    for item in items {
        let Item::Byte(byte) = item else {
            return Ok(());
        };
        run.push(*byte)?;
    }
    Ok(())
}

/// The ends of the run.
pub(crate) fn after_run(
    file: &[u8],
    frontier: &[Interval],
    run: &[u8],
    ends: &mut Vec<Interval>,
) -> Result<(), AllocError>
    requires { 0 < length run.now }
    ensures { OnOk result (HasExactly (Reaches (IsThis run.now) file.now (IsIn frontier.now)) ends.new.items) }
{
    let finder = Finder::new(run);
    ends.clear();
    for interval in frontier {
        add_after_run(ends, file, *interval, &finder)?;
    }
    Ok(())
}

/// Whether the run stands at an offset of the frontier.
pub(crate) fn has_run(file: &[u8], frontier: &[Interval], run: &[u8]) -> bool
    ensures { IsTrue result ↔ Meets (OccursAt file.now run.now) frontier.now }
{
    let finder = Finder::new(run);
    for interval in frontier {
        if first_of(file, *interval, &finder).is_some() {
            return true;
        }
    }
    false
}

// Adds the ends of the run, where it begins in the interval.
fn add_after_run(
    ends: &mut Vec<Interval>,
    file: &[u8],
    interval: Interval,
    run: &Finder<'_>,
) -> Result<(), AllocError>
    requires { 0 < length run.now }
    ensures { OnOk result
        (Gains (Reaches (IsThis run.now) file.now (IsWithin interval)) ends.old.items ends.new.items) }
{
    let len = run.needle().len();
    let mut left = interval;
    'found: while let Some(start) = first_of(file, left, run) {
        let end = start + len;
        add(ends, Interval { from: end, to: end })?;
        left.from = start + 1;
    }
    Ok(())
}

// The first offset of the interval at which the run stands.
fn first_of(file: &[u8], interval: Interval, run: &Finder<'_>) -> Option<usize>
    ensures { IsFirst (OccursAt file.now run.now) interval.from (interval.to + 1) result }
{
    let end = file
        .len()
        .min(interval.to.saturating_add(run.needle().len()));
    if end < interval.from {
        return None;
    }
    let n = run.find(&file[interval.from..end])?;
    Some(interval.from + n)
}
