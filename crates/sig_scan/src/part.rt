//! Parts of a fixed length: bytes and brackets.
//!
//! `[4142:4344]` has the words of two bytes from `41 42` to `43 44`, so `42 FF` is one and `43 45`
//! is not. It leaves out what is quick: parts of one byte go by their `class` where they can.

ghost use Rattle.std.specs.Prelude.{◌≡◌, ◌↔◌, ◌<◌, ◌≤◌, IsTrue, length};
ghost use Rattle.sig_bits.specs.Bytes.{IsBytes};
ghost use Rattle.sig_expr.specs.Words.{IsBefore, IsUpTo, PartWord};
ghost use Rattle.sig_scan.specs.Lengths.{part_length};

use sig_expr::Atom;
use std::cmp::Ordering;

/// How many bytes each word of the part has.
pub(crate) fn part_length(part: &Atom) -> usize
    ensures value { result ≡ part_length part.now }
    ensures least { 0 < result }
    ensures greatest { result ≤ 8 }
{
    match part {
        Atom::Byte(_) => 1,
        Atom::Range(a, _) | Atom::Not(a) | Atom::NotRange(a, _) => a.as_bytes().len(),
    }
}

/// Whether the bytes are a word of the part.
pub(crate) fn is_part_word(part: &Atom, bytes: &[u8]) -> bool
    requires len { length bytes.now ≡ part_length part.now }
    requires bytes { IsBytes bytes.now }
    ensures { IsTrue result ↔ PartWord part.now bytes.now }
{
    match part {
        Atom::Byte(byte) => bytes[0] == *byte,
        Atom::Range(a, b) => is_up_to(a.as_bytes(), bytes) && is_up_to(bytes, b.as_bytes()),
        Atom::Not(a) => bytes != a.as_bytes(),
        Atom::NotRange(a, b) => is_before(bytes, a.as_bytes()) || is_before(b.as_bytes(), bytes),
    }
}

// Whether a is before b, byte by byte from the first.
fn is_before(a: &[u8], b: &[u8]) -> bool
    ensures { IsTrue result ↔ IsBefore a.now b.now }
{
    a.cmp(b) == Ordering::Less
}

// Whether a is before b or is b.
fn is_up_to(a: &[u8], b: &[u8]) -> bool
    ensures { IsTrue result ↔ IsUpTo a.now b.now }
{
    a.cmp(b) != Ordering::Greater
}
