//! Two signatures that ask for different bytes at one place: no file is hit by both.
//!
//! `414243` at offset 0 and `43` at offset 2 agree; with `44` at offset 2 they clash. In real
//! tables most pairs of signatures clash so, and then no product is made for them. Only the bytes
//! and `??` at the front of a sequence that may begin at one offset are looked at.

ghost use Rattle.std.specs.Prelude.{◌≤◌, ◌<◌, ℕ, All, IfSome, IsTrue, List, length, take};
ghost use Rattle.sig_find.specs.Clashes.{AreDifferentBytes, IsOneByte, NeverMeet, NeverStand, StandsFrom};
ghost use Rattle.sig_table.specs.Standing.{Stands};

use sig_expr::Item;
use sig_table::{Position, Sequence, SigId, Table};

/// Whether a sequence of the one signature and one of the other ask for different bytes at one
/// place. It takes a step for each of their items.
pub(crate) fn clash(table: &Table, s: SigId, t: SigId) -> bool
    requires first { s.0 < length table.now.signatures }
    requires second { t.0 < length table.now.signatures }
    ensures { IsTrue result → NeverMeet table.now (s.0, t.0) }
{
    for x in table.sequences_of(s) {
        for y in table.sequences_of(t) {
            if sequences_clash(x, y) {
                return true;
            }
        }
    }
    false
}

fn sequences_clash(x: &Sequence, y: &Sequence) -> bool
    ensures { IsTrue result → NeverStand x.now y.now }
{
    match (only_offset(x), only_offset(y)) {
        (Some(a), Some(b)) => fronts_clash(x.expr().items(), y.expr().items(), a, b),
        _ => false,
    }
}

// The offset at which the sequence begins, if there is only one.
fn only_offset(sequence: &Sequence) -> Option<u16>
    ensures { IfSome result (λ at. (file : List ℕ) → Stands sequence.now file → StandsFrom at sequence.now.items file) }
{
    match sequence.position() {
        Position::Bof { min, max } if min == max => Some(min),
        _ => None,
    }
}

// Whether words of these items, at these offsets, ask for different bytes at one place.
fn fronts_clash(x: &[Item], y: &[Item], a: u16, b: u16) -> bool
    ensures { IsTrue result → (file : List ℕ) → StandsFrom a x.now file → ¬ StandsFrom b y.now file }
{
    let (a, b) = (usize::from(a), usize::from(b));
    let end = (a + front_length(x)).min(b + front_length(y));
    for place in a.max(b)..end {
        if differ(&x[place - a], &y[place - b]) {
            return true;
        }
    }
    false
}

// Whether the two are different bytes.
fn differ(x: &Item, y: &Item) -> bool
    ensures { IsTrue result → AreDifferentBytes x.now y.now }
{
    match (x, y) {
        (Item::Byte(c), Item::Byte(d)) => c != d,
        _ => false,
    }
}

// How many of the first items are a byte or `??`.
fn front_length(items: &[Item]) -> usize
    ensures within { result ≤ length items.now }
    ensures front { All IsOneByte (take result items.now) }
{
    let mut count = 0;
    for item in items {
        if !is_one_byte(item) {
            return count;
        }
        count += 1;
    }
    count
}

fn is_one_byte(item: &Item) -> bool
    ensures { IsTrue result → IsOneByte item.now }
{
    matches!(item, Item::Byte(_) | Item::Any)
}
