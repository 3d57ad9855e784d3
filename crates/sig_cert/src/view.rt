//! The bytes of a certificate that are still to be judged, taken field by field.
//!
//! A view borrows and copies nothing. A field that goes past the end is not taken, and the view
//! stays as it was. What the fields mean is `fields`.

ghost use Rattle.std.specs.Prelude.{◌≡◌, ◌++◌, ◌<◌, ◌↔◌, [], IsTrue, length, MatchOption};

use std::marker::Model;

/// The bytes that are still to be judged, borrowed.
#[derive(Debug, Drop)]
pub struct CertView<'a> {
    bytes: &'a [u8],
}

impl<'a> Model for CertView<'a> {
    ghost use Rattle.std.specs.Prelude.{List, ℕ};

    ghost Value = { List ℕ };

    ghost view = { λ v. v.bytes.now };
}

impl<'a> CertView<'a> {
    /// A view of all these bytes.
    pub fn over(bytes: &'a [u8]) -> CertView<'a>
        ensures { result ≡ bytes.now }
    {
        CertView { bytes }
    }

    /// Lends the next n bytes, and moves behind them.
    pub fn take(&mut self, n: usize) -> Option<&'a [u8]>
        ensures some { MatchOption result (length self.old < n) (λ field. (self.old ≡ field.now ++ self.new) × (length field.now ≡ n)) }
        ensures none { result ≡ None → self.new ≡ self.old }
    {
        let (field, rest) = self.bytes.split_at_checked(n)?;
        self.bytes = rest;
        Some(field)
    }

    /// How many bytes are left.
    pub(crate) fn len(&self) -> usize
        ensures { result ≡ length self.now }
    {
        self.bytes.len()
    }

    /// Whether no byte is left.
    pub(crate) fn is_at_end(&self) -> bool
        ensures { IsTrue result ↔ (self.now ≡ []) }
    {
        self.bytes.is_empty()
    }
}
