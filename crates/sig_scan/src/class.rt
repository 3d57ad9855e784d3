//! A byte, or a bracket of one byte, as a class: a range of bytes, or all bytes outside of it.
//!
//! `41` is the range from 41 to 41, `[41:44]` that from 41 to 44, and `[!41]` all bytes outside of
//! the first one. So a byte is judged by two comparisons. A bracket of several bytes is no class,
//! and goes by `part`.

ghost use Rattle.std.specs.Prelude.{◌≡◌, ◌↔◌, List, ℕ, [], ◌∷◌, IfSome, IsTrue};
ghost use Rattle.sig_bits.specs.Bytes.{IsBytes};
ghost use Rattle.sig_expr.specs.Words.{PartWord};
ghost use Rattle.sig_scan.specs.Classes.{IsOneOf, Takes};

use sig_expr::Atom;

/// The bytes from `low` to `high`, both counted in, or all others.
#[derive(Clone, Copy, Debug, PartialEq, Eq)]
pub(crate) struct Class {
    pub(crate) low: u8,
    pub(crate) high: u8,
    pub(crate) outside: bool,
}

/// The class of a part of one byte. A bracket of several bytes has none.
pub(crate) fn class_of(part: &Atom) -> Option<Class>
    ensures { IfSome result (λ c. (w : List ℕ) → IsBytes w → PartWord part.now w ↔ IsOneOf c w) }
{
    match part {
        Atom::Byte(byte) => Some(Class {
            low: *byte,
            high: *byte,
            outside: false,
        }),
        Atom::Range(a, b) => between(a.as_bytes(), b.as_bytes(), false),
        Atom::Not(a) => between(a.as_bytes(), a.as_bytes(), true),
        Atom::NotRange(a, b) => between(a.as_bytes(), b.as_bytes(), true),
    }
}

// The class between two ends of one byte.
fn between(a: &[u8], b: &[u8], outside: bool) -> Option<Class>
    ensures { IfSome result (λ c. (a.now ≡ c.low ∷ []) × (b.now ≡ c.high ∷ []) × (c.outside ≡ outside)) }
{
    if a.len() != 1 || b.len() != 1 {
        return None;
    }
    Some(Class {
        low: a[0],
        high: b[0],
        outside,
    })
}

/// Whether the byte is in the class.
pub(crate) fn is_in(byte: u8, class: Class) -> bool
    ensures { IsTrue result ↔ Takes class byte }
{
    if class.outside {
        return byte < class.low || class.high < byte;
    }
    class.low <= byte && byte <= class.high
}
