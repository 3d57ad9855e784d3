//! What a scan knows of one sequence: the stage that it waits in, and the first offset at which a
//! word of it may begin.
//!
//! `41*42*43` over `41 42 40` has two stages behind it, and waits for `43` from the third byte on.
//! No more has to be known: what stands before is not asked again. An offset here is one of the
//! bytes at hand, so nothing counts the bytes of a file; only the greatest offset of a stage is one
//! of the file, and `base`, the number of the bytes before those at hand, stops at its maximum.

ghost use Rattle.std.specs.Prelude.{◌≡◌, ℕ, ◌+◌, ◌<◌, ◌≤◌, ◌↔◌, All, List, ◌∷◌, ◌++◌, drop, length, IsTrue, Option, Some, true};
ghost use Rattle.std.specs.List.{slice_get};
ghost use Rattle.sig_expr.specs.Words.{IsAtMost};
ghost use Rattle.sig_scan.specs.Lengths.{AreBounded};
ghost use Rattle.sig_scan.specs.Scans.{CanAttempt, HasLastBytes, IsBase, IsShort, NeverStands, StepsOn, TailIsShort, WaitsAt, WaitsBehind, WaitsOn};
ghost use Rattle.sig_scan.specs.Stages.{StageView, TailStands, TailView};
ghost use Rattle.sig_table.specs.Standing.{Stands};
ghost use Rattle.sig_table.specs.Views.{SequenceView};

use crate::attempt::attempt;
use crate::frontier::Frontier;
use crate::stage::{Stage, Tail};

/// The bytes at hand, and how far a pass goes over them.
#[derive(Clone, Copy)]
pub(crate) struct Site<'b> {
    pub(crate) bytes: &'b [u8],
    /// How many bytes of the file stand before them, up to the greatest number.
    pub(crate) base: u64,
    /// Words are looked for that begin before this offset.
    pub(crate) limit: usize,
    /// No word that is looked for has more bytes.
    pub(crate) reach: usize,
    /// The file ends with these bytes. If it does not, each word that begins before the limit ends
    /// in them.
    pub(crate) is_last: bool,
}

// So many offsets are tried at once, or as many as the longest word has bytes.
const AT_ONCE: usize = 1024;

// What an attempt shows: no word of the stage begins before this offset, or the next stage begins
// at this offset or behind it.
#[derive(Clone, Copy, Debug, Drop)]
enum Step {
    Past(usize),
    Ended(usize),
}

// Attempts a stage at some of the offsets from `from` on, below the limit.
fn attempt_stage(stage: &Stage, from: usize, site: Site<'_>, frontier: &mut Frontier) -> Step
    requires ready { CanAttempt site frontier.old }
    requires open { from < site.limit }
    ensures room { frontier.new ≡ frontier.old }
    ensures on { StepsOn from site.entry.limit result }
    ensures waits { (s : SequenceView) (before : List ℕ) (later : List StageView) (tail : Option TailView) → IsBase before site.entry.base → IsShort site.entry.reach stage.now
        → WaitsOn site.entry.is_last s before site.entry.bytes.now from (stage.now ∷ later) tail
        → WaitsBehind site.entry.is_last s before site.entry.bytes.now stage.now later tail result }
{
    let Site {
        bytes,
        base,
        limit,
        reach,
        is_last: _,
    } = site;
    let until = offsets_up_to(stage.until, base, bytes.len() + 1);
    let Some(first) = stage.literal.next(bytes, from, until.min(limit)) else {
        return Step::Past(limit);
    };
    let to = limit.min(first.saturating_add(AT_ONCE.max(reach)));
    match attempt(&stage.items, bytes, first, until, to, reach, frontier) {
        None => Step::Past(to),
        Some(end) => Step::Ended(end + stage.delay as usize),
    }
}

/// How many of the first offsets of the bytes at hand are at most this one of the file.
pub(crate) fn offsets_up_to(until: Option<u32>, base: u64, all: usize) -> usize
    ensures within { result ≤ all }
    ensures many { (before : List ℕ) (x : ℕ) → IsBase before base → x < all → (x < result) ↔ IsAtMost until (length before + x) }
{
    match until {
        None => all,
        Some(until) => {
            let until = u64::from(until);
            if until < base {
                0
            } else {
                all.min((until - base) as usize + 1)
            }
        }
    }
}

/// What is known of a sequence: how many of its stages have ended, and the first offset of the
/// bytes at hand at which a word of the next one may begin.
#[derive(Clone, Copy, Debug, Drop)]
pub(crate) struct State {
    pub(crate) done: usize,
    pub(crate) from: usize,
}

/// Goes on over the words that begin before the limit. No word that is looked for has more bytes
/// than `reach`, so all of them end in the bytes at hand, unless these are the last ones.
pub(crate) fn settle(
    state: State,
    stages: &[Stage],
    site: Site<'_>,
    frontier: &mut Frontier,
) -> State
    requires ready { CanAttempt site frontier.old }
    requires done { state.done ≤ length stages.now }
    ensures room { frontier.new ≡ frontier.old }
    ensures done { result.done ≤ length stages.now }
    ensures settled { result.done < length stages.now → site.entry.limit ≤ result.from }
    ensures waits { (s : SequenceView) (before : List ℕ) (tail : Option TailView) → IsBase before site.entry.base → All (IsShort site.entry.reach) stages.now
        → WaitsOn site.entry.is_last s before site.entry.bytes.now state.from (drop state.done stages.now) tail
        → WaitsOn site.entry.is_last s before site.entry.bytes.now result.from (drop result.done stages.now) tail }
{
    let mut done = state.done;
    let mut from = state.from;
    'steps: while from < site.limit && done < stages.len() {
        match attempt_stage(&stages[done], from, site, frontier) {
            Step::Past(later) => from = later,
            Step::Ended(later) => {
                done += 1;
                from = later;
            }
        }
    }
    State { done, from }
}

/// Whether no word of the stage that it waits in may begin any more, so that the sequence never
/// stands.
pub(crate) fn is_past(state: State, stages: &[Stage], base: u64) -> bool
    requires { state.done ≤ length stages.now }
    ensures never { IsTrue result → (s : SequenceView) (before bytes : List ℕ) (tail : Option TailView) → IsBase before base
        → WaitsAt s before bytes state.from (drop state.done stages.now) tail → NeverStands s (before ++ bytes) }
    ensures tells { (before : List ℕ) (stage : StageView) → IsBase before base → slice_get stages.now state.done ≡ Some stage
        → ¬ IsAtMost stage.until (length before + state.from) → IsTrue result }
{
    if state.done == stages.len() {
        return false;
    }
    let stage = &stages[state.done];
    is_behind(stage.until, base, state.from)
}

// Whether this offset of the bytes at hand lies behind the greatest one of the file.
fn is_behind(until: Option<u32>, base: u64, from: usize) -> bool
    ensures behind { IsTrue result → (before : List ℕ) (x : ℕ) → IsBase before base → length before + from ≤ x → ¬ IsAtMost until x }
    ensures tells { (before : List ℕ) → IsBase before base → ¬ IsAtMost until (length before + from) → IsTrue result }
{
    match until {
        Some(until) => u64::from(until) < base.saturating_add(from as u64),
        None => false,
    }
}

/// Whether what is left of a sequence stands in the file, which ends with the bytes at hand: they
/// are all of it, or at least `reach`.
pub(crate) fn stands(
    state: State,
    stages: &[Stage],
    tail: &Option<Tail>,
    bytes: &[u8],
    base: u64,
    reach: usize,
    frontier: &mut Frontier,
) -> bool
    requires room { length bytes.now ≤ frontier.old }
    requires done { state.done ≤ length stages.now }
    ensures room { frontier.new ≡ frontier.old }
    ensures stands { (s : SequenceView) (before : List ℕ) → IsBase before base → All (IsShort reach) stages.now → TailIsShort reach tail.now
        → HasLastBytes reach before bytes.now → WaitsOn true s before bytes.now state.from (drop state.done stages.now) tail.now
        → IsTrue result ↔ Stands s (before ++ bytes.now) }
{
    let site = Site {
        bytes,
        base,
        limit: bytes.len() + 1,
        reach,
        is_last: true,
    };
    let settled = settle(state, stages, site, frontier);
    if settled.done < stages.len() {
        return false;
    }
    match tail {
        Some(tail) => tail_stands(tail, settled.from, bytes, frontier),
        None => settled.from <= bytes.len(),
    }
}

// Whether the tail stands in the bytes at the end of a file, from this offset on.
fn tail_stands(tail: &Tail, from: usize, bytes: &[u8], frontier: &mut Frontier) -> bool
    requires { length bytes.now ≤ frontier.old }
    ensures room { frontier.new ≡ frontier.old }
    ensures stands { AreBounded tail.now.items → IsTrue result ↔ TailStands tail.now bytes.now from }
{
    let min = usize::from(tail.min);
    if bytes.len() < min {
        return false;
    }
    let last = bytes.len() - min;
    let least = bytes.len().saturating_sub(usize::from(tail.max));
    let near = from.max(least.saturating_sub(tail.longest));
    let Some(first) = tail.literal.next(&bytes[..last], near, last + 1) else {
        return false;
    };
    frontier
        .first_end(&tail.items, &bytes[..last], first..last + 1, least)
        .is_some()
}
