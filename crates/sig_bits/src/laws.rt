//! Laws of sets as bits: the bits of a list determine its bytes, and a list of zeros has none.
//!
//! A law is a function that does nothing; its clause is the statement.

ghost use Rattle.std.specs.Prelude.{◌≡◌, ℕ, ◌*◌, ◌<◌, ◌↔◌, List, length, replicate};
ghost use Rattle.sig_bits.specs.BitSets.{HasBit};
ghost use Rattle.sig_bits.specs.Bytes.{IsBytes};

/// Lists of one length with the same bits are the same bytes.
pub fn same_bits_are_same_bytes()
    ensures { (a b : List ℕ) → IsBytes a → IsBytes b → length a ≡ length b → ((i : ℕ) → HasBit a i ↔ HasBit b i) → a ≡ b }
{}

/// A list of zeros has no bit.
pub fn zeros_have_no_bit()
    ensures { (n i : ℕ) → ¬ HasBit (replicate n 0) i }
{}

/// A bit stands within the list.
pub fn bits_are_within()
    ensures { (bits : List ℕ) (i : ℕ) → HasBit bits i → i < 8 * length bits }
{}
