//! An end of a bracket while its digits are read, as `4142` of `[4142:4241]`.
//!
//! It keeps eight bytes and counts on. A longer end is refused for its length, whatever its other
//! bytes are, so no bracket takes memory while it is read.

ghost use Rattle.std.specs.Prelude.{◌≡◌, ◌≤◌, ◌<◌, length};
ghost use Rattle.sig_expr.specs.Ends.{push_of, word_of, empty_end};

use crate::parser::LONGEST_TEXT;
use crate::short::Short;

/// The first eight bytes of an end, and how many it has. No count goes beyond `LONGEST_TEXT`, as no
/// end in a text does.
#[derive(Clone, Copy, Debug, PartialEq, Eq)]
pub(crate) struct End {
    pub(crate) bytes: [u8; Short::MAX_LEN],
    pub(crate) len: usize,
}

impl End {
    /// No byte is read.
    pub(crate) fn empty() -> End
        ensures { result ≡ empty_end }
    {
        End {
            bytes: [0; Short::MAX_LEN],
            len: 0,
        }
    }

    /// One byte more.
    #[tactic(auto, unfolding(crate::specs::Ends::push_of))]
    pub(crate) fn push(self, byte: u8) -> End
        ensures { result ≡ push_of self byte }
    {
        let mut bytes = self.bytes;
        if self.len < Short::MAX_LEN {
            bytes[self.len] = byte;
        }
        let len = if self.len < LONGEST_TEXT {
            self.len + 1
        } else {
            self.len
        };
        End { bytes, len }
    }

    /// The word, where it has one to eight bytes.
    #[tactic(auto, unfolding(crate::specs::Ends::word_of))]
    pub(crate) fn word(self) -> Option<Short>
        ensures { result ≡ word_of self }
    {
        if 0 < self.len && self.len <= Short::MAX_LEN {
            Some(Short::new(&self.bytes[..self.len]))
        } else {
            None
        }
    }
}
