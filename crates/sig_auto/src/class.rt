//! The bytes that a slot takes, its class: a span of bytes, or all bytes outside one.
//!
//! Each item gives such classes: `41` the span 41 to 41, `??` 00 to FF, and `[!41:43]` what is
//! outside 41 to 43. So a class takes three bytes, and it separates a byte from the one below only
//! at the ends of its span. Callers of this crate get a `ByteClass`.

ghost use Rattle.std.specs.Prelude.{◌≡◌, ◌↔◌, ℕ, ◌+◌, ◌<◌, IfSome, IsTrue};
ghost use Rattle.sig_auto.specs.Classes.{InClass, IsSpelled};
ghost use Rattle.sig_auto.specs.Cuts.{SameSide};
ghost use Rattle.sig_bits.specs.ByteClasses.{Holds};

use sig_bits::ByteClass;

/// The class of a slot: the bytes from the first to the last, or all others.
#[derive(Clone, Copy, Debug, PartialEq, Eq)]
pub enum Class {
    Within(u8, u8),
    Outside(u8, u8),
}

impl Class {
    /// All bytes.
    pub const ANY: Class = Class::Within(0, 255);

    /// Whether the byte is in it.
    pub fn contains(self, byte: u8) -> bool
        ensures { IsTrue result ↔ InClass self byte }
    {
        match self {
            Class::Within(first, last) => first <= byte && byte <= last,
            Class::Outside(first, last) => byte < first || last < byte,
        }
    }

    /// The set of its bytes.
    pub fn bytes(self) -> ByteClass
        ensures { (b : ℕ) → b < 256 → (Holds result b ↔ InClass self b) }
    {
        match self {
            Class::Within(0, 255) => ByteClass::all(),
            Class::Within(first, last) => ByteClass::range(first, last),
            Class::Outside(first, last) => ByteClass::range(first, last).without(),
        }
    }

    /// Adds its first byte and the byte behind its last: at any other, it has both that byte and
    /// the one below, or neither.
    pub fn add_cuts(self, cuts: &mut ByteClass)
        ensures cuts { (b : ℕ) → b + 1 < 256 → ¬ Holds cuts.new (b + 1) → (¬ Holds cuts.old (b + 1)) × SameSide self b (b + 1) }
        ensures kept { (b : ℕ) → Holds cuts.old b → Holds cuts.new b }
    {
        let (first, last) = self.ends();
        cuts.insert(first);
        if last < 255 {
            cuts.insert(last + 1);
        }
    }

    /// The two bytes that it is spelled with.
    pub fn ends(self) -> (u8, u8)
        ensures { IsSpelled self result.0 result.1 }
    {
        match self {
            Class::Within(first, last) | Class::Outside(first, last) => (first, last),
        }
    }
}
