//! Words of one to eight bytes on the stack: an end of a bracket, as `4142` of `[4142:4241]`.
//!
//! The bytes after the word are zeros, so its fields are determined by the word, and derived
//! equality is that of words.

ghost use Rattle.std.specs.Prelude.{◌≡◌, ◌+◌, ◌-◌, ◌≤◌, ◌<◌, length, take};

use std::marker::Model;

/// One to eight bytes, kept without a growth: an end of a range, or what a bracket excludes.
#[derive(Clone, Copy, Debug, PartialEq, Eq)]
pub struct Short {
    bytes: [u8; Short::MAX_LEN],
    len: u8,
}

impl Model for Short {
    ghost use Rattle.std.specs.Prelude.{List, ℕ, take};

    ghost Value = { List ℕ };

    ghost use Rattle.sig_expr.specs.ShortLaws.{IsPadded, padded, padded-front};

    ghost view = { λ s. take s.len s.bytes };

    ghost invariant = { IsPadded };

    ghost inverse = { padded };

    ghost inverse_ok = { padded-front };
}

impl Short {
    /// The greatest length.
    pub const MAX_LEN: usize = 8;

    /// The bytes, of which there are one to eight.
    pub fn new(bytes: &[u8]) -> Short
        requires least { 0 < length bytes.now }
        requires greatest { length bytes.now ≤ 8 }
        ensures { result ≡ bytes.now }
    {
        let mut kept = [0; Short::MAX_LEN];
        kept[..bytes.len()].copy_from_slice(bytes);
        Short {
            bytes: kept,
            len: bytes.len() as u8,
        }
    }

    /// Lends the bytes.
    pub fn as_bytes(&self) -> &[u8]
        ensures bytes { result.now ≡ self.now }
        ensures least { 0 < length self.now }
        ensures greatest { length self.now ≤ 8 }
    {
        &self.bytes[..self.len as usize]
    }
}
