//! Required literals: bytes that every word of a stage has, at one distance from its beginning.
//!
//! Each word of `41[42:44]504B03{1-2}45` has `50 4B 03` two bytes behind its beginning. So where
//! these bytes do not stand two bytes behind an offset, no word begins there, and a search for
//! bytes (`memmem`) passes over such offsets. A place of a literal has one byte or one of two: of a
//! word in either case, `(48|68)(54|74)`, the literal is the whole word. Such a literal is looked
//! for by its rarest place (`memchr2`). Of several runs before the first item of varying length the
//! one is taken whose bytes are rarest by a guess, at most eight of it.
//!
//! It leaves out classes of more bytes: of `[41:43]42` the literal is `42`.

ghost use Rattle.std.specs.Prelude.{◌≡◌, ◌↔◌, ℕ, ◌+◌, ◌-◌, ◌^◌, ◌<◌, ◌≤◌, [], ◌∷◌, IfSome, IsTrue, List, false, length, take};
ghost use Rattle.memchr.specs.Find.{IsFirst, OccursAt};
ghost use Rattle.sig_expr.specs.declared.item.Atom.TheVariants as atom;
ghost use Rattle.sig_expr.specs.declared.item.Item.{Item};
ghost use Rattle.sig_expr.specs.declared.item.Item.TheVariants as item;
ghost use Rattle.sig_expr.specs.Words.{Word};
ghost use Rattle.sig_scan.specs.Lengths.{HasLength};
ghost use Rattle.sig_scan.specs.Literals.{BeginsWith, IsEitherOf, IsLiteralOf, StandsAt, byte_of};

use crate::lengths::fixed_length;
use memchr::{memchr2, memmem};
use sig_expr::{Alternatives, Atom, Item};
use std::marker::Model;

// How many bytes of a run are taken at most.
const LONGEST: usize = 8;

// How many bytes tell enough where a word may begin at one offset alone.
const ENOUGH: usize = 4;

// Among so many places a search for one byte ends before one for all of them has begun.
const SHORT: usize = 1024;

// How far behind the beginning of a word a literal stands at most.
const FARTHEST: usize = 65_535;

/// Bytes, in the place of each of which another one may stand, and how far behind the beginning of
/// a word they are.
#[derive(Debug, Drop)]
pub(crate) struct Literal {
    at: usize,
    len: usize,
    text: [u8; LONGEST],
    other: [u8; LONGEST],
    // The place of its rarest byte, by a guess.
    rarest: usize,
}

impl Model for Literal {
    ghost use Rattle.std.specs.Prelude.{◌<◌, ◌≤◌, take};
    ghost use Rattle.sig_scan.specs.Literals.{LiteralView};

    ghost Value = { LiteralView };

    ghost view = { λ l. record { at = l.at; text = take l.len l.text; other = take l.len l.other } };

    ghost invariant = { λ l. (l.len ≤ 8) × (l.at ≤ 65535) × (0 < l.len → l.rarest < l.len) };
}

impl Literal {
    /// A literal of the items. Where it can be all of them, that is the one; else it is the rarest
    /// one by a guess, or the last that is as rare, when runs of places of one byte or one of two
    /// are cut into eights.
    pub(crate) fn of(items: &[Item]) -> Literal
        ensures { IsLiteralOf items.now result }
    {
        let mut best = Literal::front(items);
        let mut at = 0;
        let mut end = best.text().len();
        for i in 1..items.len() {
            match behind(&items[i - 1], at) {
                Some(next) => at = next,
                None => return best,
            }
            if end <= i {
                let here = run_of(&items[i..], at);
                end = i + here.text().len();
                best = rarer(best, here);
            }
        }
        best
    }

    /// The literal with which the items begin, if it has enough bytes for one offset, and else the
    /// rarest.
    pub(crate) fn in_front(items: &[Item]) -> Literal
        ensures { IsLiteralOf items.now result }
    {
        let front = Literal::front(items);
        if front.text().len() < ENOUGH {
            Literal::of(items)
        } else {
            front
        }
    }

    // The literal with which the items begin.
    fn front(items: &[Item]) -> Literal
        ensures { IsLiteralOf items.now result }
    {
        run_of(items, 0)
    }

    // How rare its bytes are in all.
    fn rarity(&self) -> u32 {
        let mut sum: u32 = 0;
        for k in 0..self.text().len() {
            sum = sum.saturating_add(self.weight(k));
        }
        sum
    }

    /// How rare the bytes of one place are, by a guess: one of two bytes tells half of what one
    /// tells.
    pub(crate) fn weight(&self, k: usize) -> u32
        requires { k < length self.now.text }
        ensures { result ≤ 9 }
    {
        weight_of_two(self.byte(k, 0), self.byte(k, 1))
    }

    /// The bytes.
    pub(crate) fn text(&self) -> &[u8]
        ensures text { result.now ≡ self.now.text }
        ensures few { length result.now ≤ 8 }
    {
        &self.text[..self.len]
    }

    // The bytes that may stand in their place.
    fn other(&self) -> &[u8]
        ensures other { result.now ≡ self.now.other }
        ensures len { length result.now ≡ length self.now.text }
    {
        &self.other[..self.len]
    }

    /// The byte of a place, or the other one that may stand there.
    pub(crate) fn byte(&self, k: usize, choice: u32) -> u8
        requires { k < length self.now.text }
        ensures { result ≡ byte_of self.now k choice }
    {
        if choice == 0 {
            self.text()[k]
        } else {
            self.other()[k]
        }
    }

    /// How far behind the beginning of a word it stands.
    pub(crate) fn at(&self) -> usize
        ensures at { result ≡ self.now.at }
        ensures few { result ≤ 65535 }
    {
        self.at
    }

    /// The same literal.
    pub(crate) fn copy(&self) -> Literal
        ensures { result ≡ self.now }
    {
        Literal {
            at: self.at,
            len: self.len,
            text: self.text,
            other: self.other,
            rarest: self.rarest,
        }
    }

    /// Whether its bytes stand at this place.
    pub(crate) fn stands_at(&self, bytes: &[u8], place: usize) -> bool
        ensures { IsTrue result ↔ StandsAt self.now bytes.now place }
    {
        let text = self.text();
        let other = self.other();
        if place > bytes.len() || text.len() > bytes.len() - place {
            return false;
        }
        for k in 0..text.len() {
            let byte = bytes[place + k];
            if byte != text[k] && byte != other[k] {
                return false;
            }
        }
        true
    }

    /// The first of the offsets from `from` up to `to`, which is left out, behind which it stands.
    pub(crate) fn next(&self, bytes: &[u8], from: usize, to: usize) -> Option<usize>
        ensures { IsFirst (λ x. StandsAt self.now bytes.now (x + self.now.at)) from to result }
    {
        let end = to.min(bytes.len() + 1);
        if end <= from {
            return None;
        }
        let at = self.at();
        let place = self.first_place(bytes, from + at, end - 1 + at)?;
        Some(place - at)
    }

    // The first place from `from` up to `last`, which is counted in, at which it stands.
    fn first_place(&self, bytes: &[u8], from: usize, last: usize) -> Option<usize>
        requires order { from ≤ last }
        requires few { last < 2 ^ 63 + 65536 }
        ensures { IsFirst (StandsAt self.now bytes.now) from (last + 1) result }
    {
        if from == last {
            return self.place_if_there(bytes, from);
        }
        if self.is_found_whole(last - from) {
            first_of(bytes, from, last, self.text())
        } else {
            self.first_by(self.rarest(), bytes, from, last)
        }
    }

    // Whether a search for all its bytes is the quicker one among so many places and one more. One
    // for one of them needs a byte, and one for all of them needs one text.
    fn is_found_whole(&self, places: usize) -> bool
        ensures same { IsTrue result → self.now.text ≡ self.now.other }
        ensures some { result ≡ false → 0 < length self.now.text }
    {
        let text = self.text();
        let other = self.other();
        text.is_empty() || places > SHORT && is_same(text, other)
    }

    // The one place that is looked at, if it stands there.
    fn place_if_there(&self, bytes: &[u8], place: usize) -> Option<usize>
        ensures { IsFirst (StandsAt self.now bytes.now) place (place + 1) result }
    {
        if self.stands_at(bytes, place) {
            Some(place)
        } else {
            None
        }
    }

    /// The place of its rarest byte, by a guess.
    pub(crate) fn rarest(&self) -> usize
        requires { 0 < length self.now.text }
        ensures inside { result < length self.now.text }
        ensures few { result < 8 }
    {
        self.rarest
    }

    // The same, by the bytes of its place `k`.
    fn first_by(&self, k: usize, bytes: &[u8], from: usize, last: usize) -> Option<usize>
        requires inside { k < length self.now.text }
        requires least { k < 8 }
        requires order { from ≤ last }
        requires few { last < 2 ^ 63 + 65536 }
        ensures { IsFirst (StandsAt self.now bytes.now) from (last + 1) result }
    {
        let end = bytes.len().min(last + k + 1);
        let mut place = from;
        'places: while place + k < end {
            let part = &bytes[place + k..end];
            let n = memchr2(self.byte(k, 0), self.byte(k, 1), part)?;
            place += n;
            if self.stands_at(bytes, place) {
                return Some(place);
            }
            place += 1;
        }
        None
    }
}

// The rarer one, or the second if they are as rare.
fn rarer(a: Literal, b: Literal) -> Literal
    ensures { (items : List Item) → IsLiteralOf items a → IsLiteralOf items b → IsLiteralOf items result }
{
    if b.rarity() < a.rarity() { a } else { b }
}

// A guess of how rare one of two bytes is, or one byte, which is given twice.
#[inline(always)]
fn weight_of_two(a: u8, b: u8) -> u32
    ensures { result ≤ 9 }
{
    if a == b {
        weight(a)
    } else {
        weight(a).min(weight(b)) / 2
    }
}

// The bytes with which the items begin, so far behind the beginning of a word.
fn run_of(items: &[Item], at: usize) -> Literal
    requires { at ≤ 65535 }
    ensures at { result.at ≡ at }
    ensures begins { BeginsWith items.now result.text result.other }
{
    let mut text = [0; LONGEST];
    let mut other = [0; LONGEST];
    let len = copy_run(items, &mut text, &mut other);
    let rarest = rarest_of(&text[..len], &other[..len]);
    Literal {
        at,
        len,
        text,
        other,
        rarest,
    }
}

// The place of the rarest of some bytes, in the place of each of which another one may stand.
fn rarest_of(text: &[u8], other: &[u8]) -> usize
    requires { length other.now ≡ length text.now }
    ensures { 0 < length text.now → result < length text.now }
{
    let mut best = 0;
    let mut most = 0;
    for k in 0..text.len() {
        let found = weight_of_two(text[k], other[k]);
        if most < found {
            most = found;
            best = k;
        }
    }
    best
}

// Writes the bytes with which the items begin, as far as there is room, and answers how many they
// are. Not inlined, so that they are written to memory one by one.
#[inline(never)]
fn copy_run(items: &[Item], text: &mut [u8], other: &mut [u8]) -> usize
    ensures run { BeginsWith items.now (take result text.new) (take result other.new) }
    ensures within { result ≤ length text.new }
{
    let most = items.len().min(text.len()).min(other.len());
    for k in 0..most {
        let Some((a, b)) = bytes_of(&items[k]) else {
            return k;
        };
        text[k] = a;
        other[k] = b;
    }
    most
}

/// Two bytes, one of which is each word of the item; the same twice where it has one word.
pub(crate) fn bytes_of(item: &Item) -> Option<(u8, u8)>
    ensures { IfSome result (λ p. IsEitherOf item.now p.0 p.1) }
{
    match item {
        Item::Byte(byte) => Some((*byte, *byte)),
        Item::Alt(alternatives) => bytes_of_any(alternatives),
        Item::Any | Item::Gap { min: _, max: _ } => None,
        Item::Range(_, _) | Item::Not(_) | Item::NotRange(_, _) => None,
    }
}

// The same of two alternatives.
fn bytes_of_any(alternatives: &Alternatives) -> Option<(u8, u8)>
    ensures { IfSome result (λ p. IsEitherOf (item.Alt alternatives.now) p.0 p.1) }
{
    let all = alternatives.as_slice();
    if all.len() != 2 {
        return None;
    }
    Some((lone_byte(all[0].as_slice())?, lone_byte(all[1].as_slice())?))
}

// The byte, if it is all.
fn lone_byte(parts: &[Atom]) -> Option<u8>
    ensures { IfSome result (λ x. parts.now ≡ atom.Byte x ∷ []) }
{
    match parts {
        [Atom::Byte(byte)] => Some(*byte),
        _ => None,
    }
}

// How rare a byte is, by a guess.
fn weight(byte: u8) -> u32
    ensures { result ≤ 9 }
{
    match byte {
        0 => 3,
        32 | 255 => 5,
        97..=122 => 6,
        1..=31 | 48..=57 | 65..=90 => 7,
        _ => 9,
    }
}

// The offset behind the item, if its words have one length.
fn behind(item: &Item, at: usize) -> Option<usize>
    ensures long { IfSome result (λ next. HasLength (Word item.now) (next - at)) }
    ensures order { IfSome result (λ next. at ≤ next) }
    ensures few { IfSome result (λ next. next ≤ 65535) }
{
    let next = at.checked_add(fixed_length(item)?)?;
    if next <= FARTHEST { Some(next) } else { None }
}

// The first offset from `from` up to `last`, which is counted in, at which the text stands.
fn first_of(bytes: &[u8], from: usize, last: usize, text: &[u8]) -> Option<usize>
    requires { from ≤ last }
    ensures { IsFirst (OccursAt bytes.now text.now) from (last + 1) result }
{
    let end = bytes.len().min(last.saturating_add(text.len()));
    if end < from {
        return None;
    }
    let n = memmem::find(&bytes[from..end], text)?;
    Some(from + n)
}

// Whether these bytes are the same.
fn is_same(a: &[u8], b: &[u8]) -> bool
    ensures { IsTrue result ↔ (a.now ≡ b.now) }
{
    a == b
}
