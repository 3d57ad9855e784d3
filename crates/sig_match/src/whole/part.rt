//! Parts of a fixed length: bytes and brackets of one to eight bytes.
//!
//! A bracket compares words byte by byte from the first, so `[4142:4241]` has the word `41 FF`.
//! Here no bracket is unfolded into rows of classes, as the automaton does it.

ghost use Rattle.std.specs.Prelude.{◌≡◌, ◌↔◌, ◌<◌, ◌≤◌, IsTrue, length};
ghost use Rattle.sig_bits.specs.Bytes.{IsBytes};
ghost use Rattle.sig_expr.specs.Words.{IsBefore, IsUpTo, PartWord};
ghost use Rattle.sig_match.specs.Parts.{part_len};

use sig_expr::Atom;
use std::cmp::Ordering;

/// How many bytes each word of the part has.
pub(crate) fn part_length(part: &Atom) -> usize
    ensures value { result ≡ part_len part.now }
    ensures least { 0 < result }
    ensures greatest { result ≤ 8 }
{
    match part {
        Atom::Byte(_) => 1,
        Atom::Range(a, _) | Atom::Not(a) | Atom::NotRange(a, _) => a.as_bytes().len(),
    }
}

/// Whether the bytes are a word of the part.
pub(crate) fn is_part_word(part: &Atom, bytes: &[u8]) -> bool
    requires len { length bytes.now ≡ part_len part.now }
    requires bytes { IsBytes bytes.now }
    ensures { IsTrue result ↔ PartWord part.now bytes.now }
{
    match part {
        Atom::Byte(byte) => bytes[0] == *byte,
        Atom::Range(a, b) => is_up_to(a.as_bytes(), bytes) && is_up_to(bytes, b.as_bytes()),
        Atom::Not(a) => bytes != a.as_bytes(),
        Atom::NotRange(a, b) => is_before(bytes, a.as_bytes()) || is_before(b.as_bytes(), bytes),
    }
}

// Whether a is before b, byte by byte from the first.
fn is_before(a: &[u8], b: &[u8]) -> bool
    ensures { IsTrue result ↔ IsBefore a.now b.now }
{
    a.cmp(b) == Ordering::Less
}

// Whether a is before b or is b.
fn is_up_to(a: &[u8], b: &[u8]) -> bool
    ensures { IsTrue result ↔ IsUpTo a.now b.now }
{
    a.cmp(b) != Ordering::Greater
}
