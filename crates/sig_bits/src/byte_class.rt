//! Sets of bytes, one bit for each of the 256: the label of a slot of an automaton (its class), or
//! the bytes on which a row is tried. `range(0x41, 0x43)` holds 41, 42 and 43.
//!
//! A set is 32 bytes on the stack and is copied. `sig_auto` keeps its classes in three bytes, as
//! spans; these sets are what it gives to callers.

ghost use Rattle.std.specs.Prelude.{◌≡◌, ◌⊎◌, ℕ, ◌<◌, ◌≤◌, ◌↔◌, IsTrue};
ghost use Rattle.sig_bits.specs.ByteClasses.{Holds, IsLowestFrom};

use crate::bit_sets::{get_bit, or_into, set_bit, subset};
use crate::lanes::first_nonzero;

/// A set of bytes, as a slot of an automaton takes them.
#[derive(Clone, Copy, Debug, PartialEq, Eq)]
pub struct ByteClass {
    bits: [u8; 32],
}

impl ByteClass {
    /// No byte.
    pub fn none() -> ByteClass
        ensures { (b : ℕ) → ¬ Holds result b }
    {
        ByteClass { bits: [0; 32] }
    }

    /// All bytes.
    pub fn all() -> ByteClass
        ensures { (b : ℕ) → b < 256 → Holds result b }
    {
        ByteClass { bits: [255; 32] }
    }

    /// This byte alone.
    pub fn of_byte(byte: u8) -> ByteClass
        ensures { (b : ℕ) → Holds result b ↔ (b ≡ byte) }
    {
        let mut bits = [0; 32];
        set_bit(&mut bits, byte as usize);
        ByteClass { bits }
    }

    /// The bytes from the first to the last, both in it: none where the first is above the last.
    pub fn range(first: u8, last: u8) -> ByteClass
        ensures { (b : ℕ) → Holds result b ↔ ((first ≤ b) × (b ≤ last)) }
    {
        let mut bits = [0; 32];
        for b in first..=last {
            set_bit(&mut bits, b as usize);
        }
        ByteClass { bits }
    }

    /// The bytes that are not in it.
    pub fn without(self) -> ByteClass
        ensures { (b : ℕ) → b < 256 → (Holds result b ↔ (¬ Holds self b)) }
    {
        let mut bits = self.bits;
        for byte in bits.iter_mut() {
            *byte = !*byte;
        }
        ByteClass { bits }
    }

    /// Adds the byte.
    pub fn insert(&mut self, byte: u8)
        ensures { (b : ℕ) → Holds self.new b ↔ ((b ≡ byte) ⊎ Holds self.old b) }
    {
        set_bit(&mut self.bits, byte as usize);
    }

    /// Adds the bytes of the other.
    pub fn extend(&mut self, other: &ByteClass)
        ensures { (b : ℕ) → Holds self.new b ↔ (Holds self.old b ⊎ Holds other.now b) }
    {
        or_into(&mut self.bits, &other.bits);
    }

    /// The bytes that are in one of the two.
    pub fn union(self, other: ByteClass) -> ByteClass
        ensures { (b : ℕ) → Holds result b ↔ (Holds self b ⊎ Holds other b) }
    {
        let mut bits = self.bits;
        or_into(&mut bits, &other.bits);
        ByteClass { bits }
    }

    /// The bytes that are in both.
    pub fn intersection(self, other: ByteClass) -> ByteClass
        ensures { (b : ℕ) → Holds result b ↔ (Holds self b × Holds other b) }
    {
        let mut bits = self.bits;
        for (i, byte) in other.bits.iter().enumerate() {
            bits[i] &= *byte;
        }
        ByteClass { bits }
    }

    /// The lowest byte in it that is not below this one.
    pub fn lowest_from(&self, from: usize) -> Option<u8>
        ensures { IsLowestFrom self.now from result }
    {
        if from >= 256 {
            return None;
        }
        let rest = self.bits[from / 8] >> (from % 8);
        if rest != 0 {
            return Some((from + rest.trailing_zeros() as usize) as u8);
        }
        let k = first_nonzero(&self.bits, from / 8 + 1)?;
        Some((8 * k + self.bits[k].trailing_zeros() as usize) as u8)
    }

    /// Whether the byte is in it.
    pub fn contains(&self, byte: u8) -> bool
        ensures { IsTrue result ↔ Holds self.now byte }
    {
        get_bit(&self.bits, byte as usize)
    }

    /// Whether no byte is in it.
    pub fn is_empty(&self) -> bool
        ensures { IsTrue result ↔ ((b : ℕ) → b < 256 → ¬ Holds self.now b) }
    {
        subset(&self.bits, &[0; 32])
    }
}
