//! Sets of formats: 125 bytes, a bit for each of the at most 1,000.
//!
//! While priorities are loaded, each format has the set of those below it (`ranking`). One bit then
//! tells whether a new pair closes a cycle.

ghost use Rattle.std.specs.Prelude.{◌≡◌, ℕ, ◌<◌, ◌⊎◌, ◌↔◌, IsTrue};
ghost use Rattle.sig_table.specs.FormatSets.{HasFormat};

use crate::FormatId;
use sig_bits::{get_bit, or_into, set_bit};

// How many bytes hold a bit for each format.
const SET_LEN: usize = 125;

// A set of formats.
#[derive(Clone, Copy, Debug)]
pub(crate) struct FormatSet {
    bits: [u8; SET_LEN],
}

impl FormatSet {
    // No format.
    pub(crate) fn new() -> FormatSet
        ensures { (f : ℕ) → ¬ HasFormat result f }
    {
        FormatSet { bits: [0; SET_LEN] }
    }

    // Whether the format is in it.
    pub(crate) fn contains(&self, format: FormatId) -> bool
        requires { format.0 < 1000 }
        ensures { IsTrue result ↔ HasFormat self.now format.0 }
    {
        get_bit(&self.bits, format.0 as usize)
    }

    // Adds one format.
    pub(crate) fn insert(&mut self, format: FormatId)
        requires { format.0 < 1000 }
        ensures { (f : ℕ) → HasFormat self.new f ↔ ((f ≡ format.0) ⊎ HasFormat self.old f) }
    {
        set_bit(&mut self.bits, format.0 as usize);
    }

    // Adds the formats of the other.
    pub(crate) fn join(&mut self, other: &FormatSet)
        ensures { (f : ℕ) → HasFormat self.new f ↔ (HasFormat self.old f ⊎ HasFormat other.now f) }
    {
        or_into(&mut self.bits, &other.bits);
    }
}
